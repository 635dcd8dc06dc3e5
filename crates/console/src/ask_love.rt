// Love's master: what `ask` asks of it, and what `reply` hears.
use crate::master_calls::Asks;
use asking::{Heard, Unread};
use card::Outcome;
use lines::line::Line;
use love_master::request::{Request, Task};

// status, read PLACE, or write PLACE VALUE.
fn read_task(line: &mut Line) -> Option<Task> {
    match line.word() {
        b"status" => Some(Task::Status),
        b"read" => Some(Task::Read(line.number(u32::MAX)?)),
        b"write" => {
            let place = line.number(u32::MAX)?;
            Some(Task::Write(place, line.signed()?))
        }
        _ => None,
    }
}

impl Asks for Request {
    // ADDRESS and a task.
    fn read(line: &mut Line) -> Option<Request> {
        let address = line.number(u32::MAX)?;
        let task = read_task(line)?;
        Some(Request { address, task })
    }

    fn make(self, frame: &mut [u8]) -> Outcome {
        love_master::make(self, frame)
    }

    fn hear(self, reply: &[u8]) -> Result<Heard, Unread> {
        love_master::read(self, reply)
    }
}
