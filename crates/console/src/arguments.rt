// The words after a call's name, where several calls have the same; and where their bytes go.
ghost use Rattle.std.specs.Prelude.{◌≡◌, ◌≤◌, length, IfSome};
ghost use Rattle.lines.specs.Lent.{line_most, room_most};

use lines::line::Line;
use lines::{BYTES_MOST, ROOM_MOST};

// The words after a call's name. No line is longer than the longest, so that the bytes it names fit a buffer.
#[derive(Clone, Copy)]
pub struct Words<'a> {
    pub line: Line<'a>,
    ghost short: { length line.bytes.now ≤ line_most },
}

// Two buffers that are lent to each call. What they hold before it does not count.
#[derive(Drop)]
pub struct Buffers {
    pub first: [u8; BYTES_MOST],
    pub second: [u8; BYTES_MOST],
}

impl Buffers {
    pub fn new() -> Buffers {
        Buffers {
            first: [0; BYTES_MOST],
            second: [0; BYTES_MOST],
        }
    }
}

// ROOM
pub fn room(line: &mut Line) -> Option<usize>
    ensures stays { line.new.bytes.now ≡ line.old.bytes.now }
    ensures few { IfSome result (λ n. n ≤ room_most) }
{
    Some(line.number(ROOM_MOST as u32)? as usize)
}
