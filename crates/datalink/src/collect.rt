// Datalink's receiver: what becomes of a byte behind a part frame, and which part frames there are. Document 02, M-100.
ghost use Rattle.std.specs.Prelude.{◌≡◌, ◌<◌, length};
ghost use Rattle.datalink.specs.Form.{frame_num_at};
ghost use Rattle.datalink.specs.Receiver.{step, held};
ghost use Rattle.datalink.specs.Frame.{kind_of};
ghost use Rattle.datalink.specs.Stages.{command_of, size_of, second_place, goes_on, held_with_num};

use crate::form::Datalink;
use crate::frame::{Command, command_of, data_carried};
use card::change::NO_CHANGE;
use card::layout::DATA_MOST;
use receiver::{Collect, Frames, Place};

// The kind of change that a second byte asks for: none where it is no command's.
fn kind(second: u8) -> u8
    ensures { result ≡ kind_of (command_of second) }
{
    match Command::try_from(command_of(second)) {
        Ok(command) => command.kind(),
        Err(_) => NO_CHANGE,
    }
}

// The size of a frame with this second byte and NUM.
fn size(second: u8, num: u8) -> usize
    ensures { result ≡ size_of second num }
{
    let data = data_carried(kind(second), num);
    Datalink::BARE + data as usize
}

// Where the second byte goes: an Acknowledge ends with it.
fn second_place(b: u8) -> Place
    ensures { result ≡ second_place b }
{
    match Command::try_from(command_of(b)) {
        Ok(command) if command.is_acknowledge() => Place::Last,
        Ok(_) => Place::Behind,
        Err(_) => Place::Nowhere,
    }
}

// Whether a second byte is that of a frame with NUM.
fn goes_on(second: u8) -> bool
    ensures { result ≡ goes_on second }
{
    match Command::try_from(command_of(second)) {
        Ok(command) => !command.is_acknowledge(),
        Err(_) => false,
    }
}

// Whether bytes with NUM among them are a part frame.
fn holds_num(part: &[u8]) -> bool
    requires { frame_num_at < length part.now }
    ensures { result ≡ held_with_num part.now }
{
    let num = part[Datalink::NUM];
    let size = size(part[Datalink::SECOND], num);
    (num <= DATA_MOST as u8) & (part.len() < size)
}

impl Collect for Datalink {
    ghost step = { step };

    ghost held = { held };

    // Where the byte b behind the part frame goes.
    fn place(part: &[u8], b: u8) -> Place {
        let n = part.len();
        if n + 1 < Datalink::SHORTEST {
            if b == Datalink::START {
                return Place::Behind;
            }
            return Place::Nowhere;
        }
        if n == Datalink::SECOND {
            return second_place(b);
        }
        if n == Datalink::NUM {
            if (DATA_MOST as u8) < b {
                return Place::Nowhere;
            }
            return Place::Behind;
        }
        if size(part[Datalink::SECOND], part[Datalink::NUM]) <= n + 1 {
            return Place::Last;
        }
        Place::Behind
    }

    // How many bytes behind the part frame are kept, whatever they are.
    fn sure(part: &[u8]) -> usize {
        let n = part.len();
        if n <= Datalink::NUM {
            return 0;
        }
        size(part[Datalink::SECOND], part[Datalink::NUM]) - n - 1
    }

    // Whether bytes are a part frame that a line leads to.
    fn holds(part: &[u8]) -> bool {
        let n = part.len();
        if n == 0 {
            return true;
        }
        if part[0] != Datalink::START {
            return false;
        }
        if n == Datalink::SECOND {
            return true;
        }
        if !goes_on(part[Datalink::SECOND]) {
            return false;
        }
        if n == Datalink::NUM {
            return true;
        }
        holds_num(part)
    }
}
