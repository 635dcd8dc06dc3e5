// Standard input as lines.
ghost use Rattle.std.specs.Prelude.{◌≡◌, ◌↔◌, ◌<◌, ◌≤◌, length, IsTrue, IfSome};
ghost use Rattle.lines.specs.Lent.{line_most};
ghost use Rattle.console.specs.Lent.{read_most, come};

use lines::{LINE_FEED, LINE_MOST, line};
use std::io::{Read, Stdin};

// How many bytes are read at once.
pub const READ_MOST: usize = 65_536;

// What reading on came to: a part of a line; a whole line; the last line, with which the input is over; or the input could not be read.
#[derive(Clone, Copy, PartialEq, Eq)]
pub enum Came {
    Part,
    Line,
    Last,
    Failed,
}

// Where reading stands: the bytes of the buffer from at to end are still to be taken; how long the line is that has come, or None where
// it is too long; and what reading on came to.
#[derive(Clone, Copy)]
pub struct Input {
    buffer: [u8; READ_MOST],
    pub at: usize,
    pub end: usize,
    text: [u8; LINE_MOST],
    n: Option<usize>,
    pub came: Came,
    ghost before: { at ≤ end },
    ghost inside: { end ≤ read_most },
    ghost short: { come n ≤ line_most },
}

impl Input {
    // Nothing read yet.
    pub fn new() -> Input
        ensures { result.end ≡ 0 }
    {
        Input {
            buffer: [0; READ_MOST],
            at: 0,
            end: 0,
            text: [0; LINE_MOST],
            n: Some(0),
            came: Came::Part,
        }
    }

    // The line that has come, unless it is too long.
    pub fn line(&self) -> Option<&[u8]>
        ensures { IfSome result (λ line. length line.now ≤ line_most) }
    {
        Some(&self.text[..self.n?])
    }

    // Whether bytes are still to be taken.
    pub fn is_left(&self) -> bool
        ensures { IsTrue result ↔ (self.now.at < self.now.end) }
    {
        self.at < self.end
    }

    // Takes what is left in the buffer to the line, up to a line feed. A line that is too long stays so.
    fn take(&mut self)
        ensures { (self.new.buffer ≡ self.old.buffer) × (self.new.end ≡ self.old.end) }
    {
        let left = &self.buffer[..self.end];
        let stop = line::scan(left, self.at, |b| b == LINE_FEED);
        if let Some(n) = self.n {
            self.n = line::join(&mut self.text, n, &left[self.at..stop]);
        }
        if stop < self.end {
            self.at = stop + 1;
            self.came = Came::Line;
        } else {
            self.at = stop;
            self.came = Came::Part;
        }
    }

    // Takes what is left in the buffer, or fills it again. At the end of the input a last line without a line feed counts too.
    pub fn next(&mut self, mut stdin: Stdin) {
        if self.came == Came::Line {
            self.n = Some(0);
        }
        if self.at < self.end {
            self.take();
            return;
        }
        self.at = 0;
        self.end = 0;
        self.came = Came::Failed;
        if let Ok(end) = stdin.read(&mut self.buffer) {
            self.end = end;
            self.came = if end == 0 { Came::Last } else { Came::Part };
        }
    }
}
