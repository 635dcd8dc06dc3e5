// LECOM's master for a box in C: thin, each entry with the whole contract of the one below it. include/nakshvilor.h describes them.
// The three masters' entries have one shape, but C calls each by its own name; what is of no dialect is `hand_over` and `hand_hearing`.
ghost use Rattle.std.specs.Prelude.{◌≡◌, length};
ghost use Rattle.card.specs.Reply.{Told};
ghost use Rattle.asking.specs.Hearing.{unless_outside};
ghost use Rattle.asking.specs.Made.{making};
ghost use Rattle.lecom_master.specs.Request.{askable, made};
ghost use Rattle.lecom_master.specs.Heard.{heard};
ghost use Rattle.firmware.specs.Hearing.{HandedHearing};
ghost use Rattle.firmware.specs.Requests.{lecom_task, lecom_request};

use crate::hearing::HeardInC;
use crate::{hand_over, hearing};
use lecom_master::request::{Request, Task};

// include/nakshvilor.h: the tasks. Any other number is a read of no code, which 7 refuses.
const READ: u8 = 0;

const WRITE: u8 = 1;

const NO_CODE: u32 = u32::MAX;

#[tactic(auto, unfolding(crate::specs::Requests::lecom_task, wire::specs::Choose::choose))]
fn task_of(task: u8, code: u32, value: u32) -> Task
    ensures { result ≡ lecom_task task code value }
{
    match task {
        READ => Task::Read(code),
        WRITE => Task::Write(code, value),
        _ => Task::Read(NO_CODE),
    }
}

fn request_of(address: u32, task: u8, code: u32, value: u32) -> Request
    ensures { result ≡ lecom_request address task code value }
{
    Request {
        address,
        task: task_of(task, code, value),
    }
}

pub fn nk_ask_lecom(
    address: u32,
    task: u8,
    code: u32,
    value: u32,
    frame: &mut [u8],
    len: &mut usize,
) -> u8
    ensures { let q = lecom_request address task code value in
        let before = frame.old in
        Told (making (askable q) (made q) (length before)) before result len.new frame.new }
{
    let given = lecom_master::make(request_of(address, task, code, value), frame);
    hand_over(given, len)
}

pub fn nk_hear_lecom(address: u32, task: u8, code: u32, value: u32, reply: &[u8]) -> HeardInC
    ensures { let q = lecom_request address task code value in
        HandedHearing (unless_outside (askable q) (heard q reply.now)) result }
{
    let heard = lecom_master::read(request_of(address, task, code, value), reply);
    hearing::hand_hearing(heard)
}
