// The answers: held, and written together before the console waits for more input.
ghost use Rattle.std.specs.Prelude.{◌≡◌, false, ◌≤◌, take};
ghost use Rattle.lines.specs.Lent.{answer_most};
ghost use Rattle.console.specs.Holding.{Followed};

use crate::reply::End;
use lines::text::Text;
use lines::{ANSWER_MOST, Answer};
use std::io::Stdout;

// Room for as much as an answer's buffer, which may be held on, and for an answer more.
pub const HELD_MOST: usize = 2 * ANSWER_MOST;

pub type Held = Text<HELD_MOST>;

// Holds the answer line with its line feed, after what is held.
pub fn hold(held: &mut Held, answer: &Answer)
    requires { held.old.len ≤ answer_most }
    ensures { Followed held.old.len (take answer.now.len answer.now.out) held.old.out held.new.len held.new.out }
{
    held.put_words(answer.text());
    held.put_words(b"\n");
}

// Writes what is held, if no input is left to take or the next answer might not fit.
pub fn settle(held: &mut Held, stdout: Stdout, left: bool) -> Result<(), End>
    ensures room { held.new.len ≤ answer_most }
    ensures told { left ≡ false → held.new.len ≡ 0 }
    ensures kept { held.new.out ≡ held.old.out }
{
    if left && held.len <= ANSWER_MOST {
        return Ok(());
    }
    let written = stdout.write_all(held.text());
    held.clear();
    written.map_err(|_| End::NotWritten)
}
