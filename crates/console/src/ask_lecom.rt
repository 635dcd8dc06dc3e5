// LECOM's master: what `ask` asks of it, and what `reply` hears.
use crate::master_calls::Asks;
use asking::{Heard, Unread};
use card::Outcome;
use lecom_master::request::{Request, Task};
use lines::line::Line;

// read CODE, or write CODE VALUE.
fn read_task(line: &mut Line) -> Option<Task> {
    match line.word() {
        b"read" => Some(Task::Read(line.number(u32::MAX)?)),
        b"write" => {
            let code = line.number(u32::MAX)?;
            Some(Task::Write(code, line.signed()?))
        }
        _ => None,
    }
}

impl Asks for Request {
    // ADDRESS and a task.
    fn read(line: &mut Line) -> Option<Request> {
        let address = line.number(u32::MAX)?;
        let task = read_task(line)?;
        Some(Request { address, task })
    }

    fn make(self, frame: &mut [u8]) -> Outcome {
        lecom_master::make(self, frame)
    }

    fn hear(self, reply: &[u8]) -> Result<Heard, Unread> {
        lecom_master::read(self, reply)
    }
}
