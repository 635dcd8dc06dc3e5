// What the master may ask: a request, and whether 7 does not refuse it.
ghost use Rattle.std.specs.Prelude.{◌≡◌, true};
ghost use Rattle.love_master.specs.Request.{task_right, askable};
ghost use Rattle.love_master.specs.declared.request.Task.TheVariants.{Write};

use card::fitness;
use card::layout::{LOVE, LOVE_COUNT};
use love::form::Address;

// To ask for probe 0 and its status; to read a parameter; or to write one, in tenths and two's complement. A parameter is its place: 0 to 3 for
// SP1, SP2, ALLO, ALHI. Numbers, since C and the console hand them over as they came; `is_askable` judges them.
#[derive(Clone, Copy)]
pub enum Task {
    Status,
    Read(u32),
    Write(u32, u32),
}

// A task for the unit at an address.
#[derive(Clone, Copy)]
pub struct Request {
    pub address: u32,
    pub task: Task,
}

impl Request {
    // The unit that it is for.
    pub(crate) fn unit(self) -> Address
        requires { askable self ≡ true }
        ensures { result.value ≡ self.address }
    {
        Address {
            value: self.address,
        }
    }
}

// Whether a parameter takes this value.
fn write_right(place: u32, value: u32) -> bool
    ensures { result ≡ task_right (Write place value) }
{
    if LOVE_COUNT as u32 <= place {
        return false;
    }
    fitness::in_range(LOVE + place as usize, value)
}

// Whether a task lies within document 01.
fn task_right(task: Task) -> bool
    ensures { result ≡ task_right task }
{
    match task {
        Task::Status => true,
        Task::Read(place) => place < LOVE_COUNT as u32,
        Task::Write(place, value) => write_right(place, value),
    }
}

// Whether number 7 does not refuse the request.
pub(crate) fn is_askable(request: Request) -> bool
    ensures { result ≡ askable request }
{
    if !fitness::love_right(request.address) {
        return false;
    }
    task_right(request.task)
}
