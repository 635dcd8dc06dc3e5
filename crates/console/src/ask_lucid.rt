// LucidControl's master: what `ask` asks of it, and what `reply` hears.
ghost use Rattle.std.specs.Prelude.{◌+◌, ◌≤◌};
ghost use Rattle.card.specs.Layout.{channels};

use crate::master_calls::Asks;
use asking::{Heard, Unread};
use card::Outcome;
use card::layout::CHANNELS;
use lines::line::Line;
use lucid_master::request::{Command, Request};

// How many numbers of a line count: one more than any request sends, so that too many are seen as such.
const COUNT_MOST: usize = CHANNELS + 1;

// Numbers of a line: the first of them, and how many count.
#[derive(Clone, Copy)]
struct Numbers {
    kept: [u32; COUNT_MOST],
    count: usize,
    ghost inside: { count ≤ channels + 1 },
}

impl Numbers {
    fn none() -> Numbers {
        Numbers {
            kept: [0; COUNT_MOST],
            count: 0,
        }
    }

    fn one(value: u32) -> Numbers {
        Numbers {
            kept: [value, 0, 0, 0, 0],
            count: 1,
        }
    }

    // The numbers to the line's end.
    fn read(line: &mut Line) -> Option<Numbers> {
        let mut kept = [0; COUNT_MOST];
        let mut count = 0;
        // A while loop: it goes by the words that are left, and counts only those that it keeps.
        while !line.is_over() {
            let n = line.number(u32::MAX)?;
            if count < COUNT_MOST {
                kept[count] = n;
                count += 1;
            }
        }
        Some(Numbers { kept, count })
    }

    fn values(&self) -> &[u32] {
        &self.kept[..self.count]
    }
}

// A request, and the values that it sends.
#[derive(Clone, Copy)]
pub struct Asked {
    request: Request,
    values: Numbers,
}

// The command of a name.
fn command_of(name: &[u8]) -> Option<Command> {
    match name {
        b"getio" => Some(Command::GetIo),
        b"getiogroup" => Some(Command::GetIoGroup),
        b"setio" => Some(Command::SetIo),
        b"setiogroup" => Some(Command::SetIoGroup),
        b"getparam" => Some(Command::GetParam),
        b"setparam" => Some(Command::SetParam),
        b"reset" => Some(Command::Reset),
        _ => None,
    }
}

// Whether a command's line has so many numbers after type or option.
fn takes(command: Command, count: usize) -> bool {
    match command {
        Command::GetIo | Command::GetIoGroup => count == 0,
        Command::SetIo | Command::GetParam | Command::Reset => count == 1,
        Command::SetParam => count == 2,
        Command::SetIoGroup => true,
    }
}

// Of these numbers the values that a command sends: the commands on parameters name an address first.
fn values_of(command: Command, numbers: Numbers) -> Numbers {
    match command {
        Command::GetParam | Command::Reset => Numbers::none(),
        Command::SetParam => Numbers::one(numbers.kept[1]),
        _ => numbers,
    }
}

impl Asks for Asked {
    // A command, CHANNEL or MASK, TYPE or OPTION, and what else the command takes.
    fn read(line: &mut Line) -> Option<Asked> {
        let command = command_of(line.word())?;
        let p1 = line.number(u32::MAX)?;
        let p2 = line.number(u32::MAX)?;
        let numbers = Numbers::read(line)?;
        if !takes(command, numbers.count) {
            return None;
        }
        let address = numbers.kept[0];
        Some(Asked {
            request: Request {
                command,
                p1,
                p2,
                address,
            },
            values: values_of(command, numbers),
        })
    }

    fn make(self, frame: &mut [u8]) -> Outcome {
        lucid_master::make(self.request, self.values.values(), frame)
    }

    fn hear(self, reply: &[u8]) -> Result<Heard, Unread> {
        lucid_master::read(self.request, self.values.values(), reply)
    }
}
