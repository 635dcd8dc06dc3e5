// What a line asks.
ghost use Rattle.console.specs.Parted.{AskedIn};

use crate::call;
use crate::call::Call;
use lines::line::Line;

// A line that starts with this is a note.
const NOTE: u8 = b'#';

// Nothing; a call of an unknown name; or a call, with its name and the words after it.
#[derive(Clone, Copy)]
pub enum Question<'a> {
    Nothing,
    Unknown,
    Call(Call, &'a [u8], Line<'a>),
}

// What a line asks. Spaces alone and a note ask nothing.
pub fn read_line<'a>(bytes: &'a [u8]) -> Question<'a>
    ensures { AskedIn bytes.now result }
{
    let mut line = Line::of(bytes);
    if line.is_over() || bytes[0] == NOTE {
        return Question::Nothing;
    }
    let name = line.word();
    match call::call_of(name) {
        Some(call) => Question::Call(call, name, line),
        None => Question::Unknown,
    }
}
