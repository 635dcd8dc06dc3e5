// The console's lines: words, numbers and bytes read from a line, the parts of an answer line, and the usage of calls. docs/CONSOLE.md.
#![tactic(auto)]

pub mod heard;
pub mod line;
pub mod text;
pub mod usage;

use text::Text;

// The longest line, without its line feed.
pub const LINE_MOST: usize = 32_768;

// No line names more bytes.
pub const BYTES_MOST: usize = LINE_MOST / 2;

// The longest answer buffer that a line can ask for.
pub const ROOM_MOST: usize = 1_024;

// The buffer of an answer line with its line feed: peek memory fills most of it.
pub const ANSWER_MOST: usize = 65_536;

// The longest answer line, without its line feed.
pub const TEXT_MOST: usize = ANSWER_MOST - 1;

// An answer line.
pub type Answer = Text<TEXT_MOST>;

pub const LINE_FEED: u8 = b'\n';
