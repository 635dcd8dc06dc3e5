// What the master may ask: a request, and whether 7 does not refuse it.
ghost use Rattle.std.specs.Prelude.{◌≡◌};
ghost use Rattle.lecom_master.specs.Request.{is_collective, address_right, task_right, askable};
ghost use Rattle.lecom_master.specs.declared.request.Task.TheVariants.{Write};

use card::fitness;
use card::fitness::{FIGURE_VALUES, LECOM_MOST, REGISTER_LEAST, REGISTER_MOST};
use lecom::form;

// To read what a code names, or to write a value there, in two's complement. A code is its number: register 5 is 5, probe 0 is 60h.
// An enum: neither task is a case of an Option or a Result.
#[derive(Clone, Copy)]
pub enum Task {
    Read(u32),
    Write(u32, u32),
}

// A task for the unit at an address, or for those that a collective address reaches.
#[derive(Clone, Copy)]
pub struct Request {
    pub address: u32,
    pub task: Task,
}

// Whether an address is collective.
pub(crate) fn is_collective(address: u32) -> bool
    ensures { result ≡ is_collective address }
{
    (address <= LECOM_MOST) & (address % FIGURE_VALUES == 0)
}

// Whether an address is a unit's or a collective one.
fn address_right(address: u32) -> bool
    ensures { result ≡ address_right address }
{
    fitness::lecom_right(address) | is_collective(address)
}

// Whether what a code names takes this value.
fn write_right(code: u32, value: u32) -> bool
    ensures { result ≡ task_right (Write code value) }
{
    let named = form::named_by(code);
    if !form::is_writable(named) {
        return false;
    }
    if !fitness::in_span(value, REGISTER_LEAST, REGISTER_MOST) {
        return false;
    }
    form::is_taken(named, value)
}

// Whether a task lies within document 01.
fn task_right(task: Task) -> bool
    ensures { result ≡ task_right task }
{
    match task {
        Task::Read(code) => form::is_known(form::named_by(code)),
        Task::Write(code, value) => write_right(code, value),
    }
}

// Whether number 7 does not refuse the request.
pub(crate) fn is_askable(request: Request) -> bool
    ensures { result ≡ askable request }
{
    if !address_right(request.address) {
        return false;
    }
    task_right(request.task)
}
