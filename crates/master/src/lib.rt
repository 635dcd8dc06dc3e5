// The Datalink line master. Document 01, "Datalink", second half.
#![tactic(auto)]

mod accept;
mod answer;
mod frame;
pub mod request;

ghost use Rattle.std.specs.Prelude.{◌≡◌, ◌≤◌, length};
ghost use Rattle.datalink.specs.Form.{longest};
ghost use Rattle.master.specs.Request.{request_of};
ghost use Rattle.master.specs.Askable.{asked_by};
ghost use Rattle.master.specs.Step.{says_of, Stepped, move, step_of};

use card::numbers::{ANSWERED, BUFFER_SHORT, DONE, NOTHING_PENDING, VALUE_OUTSIDE};
use datalink::form::Datalink;
use receiver::Frames;
use request::{Ask, Askable, Request};

// Where an exchange stands: the frame last sent, or how it ended. Nothing compares or prints it, so no more is derived, here and below.
#[derive(Clone, Copy)]
pub enum Phase {
    New,
    Changing,
    Acknowledging,
    Reading,
    EndedDone,
    EndedUnknown,
}

// What the master says: nothing yet, done or unknown.
#[derive(Clone, Copy)]
pub enum Verdict {
    Open,
    Done,
    Unknown,
}

// What a step gives, as `nk_step` hands it to C: its number, the length of the frame that it sends, 0 for none, and the phase to hand to the next step.
#[derive(Clone, Copy)]
pub struct StepOutcome {
    pub number: u8,
    pub len: usize,
    pub phase: Phase,
}

// What the master says in a phase. An arm for each: wrong programs change one (done_before_the_end, unknown_told_as_done).
pub fn says(phase: Phase) -> Verdict
    ensures { result ≡ says_of phase }
{
    match phase {
        Phase::New => Verdict::Open,
        Phase::Changing => Verdict::Open,
        Phase::Acknowledging => Verdict::Open,
        Phase::Reading => Verdict::Open,
        Phase::EndedDone => Verdict::Done,
        Phase::EndedUnknown => Verdict::Unknown,
    }
}

// A step without a frame: refused, or the end.
fn without_frame(number: u8, phase: Phase) -> StepOutcome
    ensures { ((result.number ≡ number) × (result.len ≡ 0)) × (result.phase ≡ phase) }
{
    StepOutcome {
        number,
        len: 0,
        phase,
    }
}

// The move in each phase, for a request that 7 does not refuse and a frame buffer that is long enough.
// One match on the phase: each has its own test and its own frame.
fn move_on(phase: Phase, request: Askable, answer: &[u8], frame: &mut [u8]) -> StepOutcome
    requires { longest ≤ length frame.old }
    ensures { Stepped (move (asked_by request.entry) phase answer.now) frame.old result.number result.len result.phase frame.new }
{
    match phase {
        Phase::New => StepOutcome {
            number: ANSWERED,
            len: frame::change(frame, request),
            phase: Phase::Changing,
        },
        Phase::Changing => {
            if !answer::is_echo(request, answer) {
                return without_frame(DONE, Phase::EndedUnknown);
            }
            StepOutcome {
                number: ANSWERED,
                len: frame::acknowledge(frame, request.ia),
                phase: Phase::Acknowledging,
            }
        }
        Phase::Acknowledging => StepOutcome {
            number: ANSWERED,
            len: frame::interrogate(frame, request),
            phase: Phase::Reading,
        },
        Phase::Reading => {
            if !answer::is_confirmed(request, answer) {
                return without_frame(DONE, Phase::EndedUnknown);
            }
            without_frame(DONE, Phase::EndedDone)
        }
        Phase::EndedDone => without_frame(NOTHING_PENDING, phase),
        Phase::EndedUnknown => without_frame(NOTHING_PENDING, phase),
    }
}

// The master's step: the phase as the last step returned it, the request, an answer (empty: none) to the frame last sent, and a buffer for the next frame.
// `nk_step` calls it with what C lends, so these stay apart here.
pub fn step(
    phase: Phase,
    request: Request,
    sent: &[u8],
    states: &[u8],
    answer: &[u8],
    frame: &mut [u8],
) -> StepOutcome
    ensures { let q = request_of request sent.now states.now in
        let before = frame.old in
        Stepped (step_of q phase answer.now (length before)) before result.number result.len result.phase frame.new }
{
    let Request { kind, ia, address } = request;
    let ask = Ask { kind, sent, states };
    if !ask.is_askable(ia, address) {
        return without_frame(VALUE_OUTSIDE, phase);
    }
    if frame.len() < Datalink::LONGEST {
        return without_frame(BUFFER_SHORT, phase);
    }
    move_on(phase, Askable { ia, address, ask }, answer, frame)
}
