// What the masters of LECOM, Love and LucidControl share: what they hear in a reply, how they compare one, and a made frame into a lent buffer.
// Document 02, M-102.
#![tactic(auto)]

pub mod hearing;

ghost use Rattle.std.specs.Prelude.{◌≡◌, ◌<◌, ◌≤◌, length};
ghost use Rattle.card.specs.Reply.{Told};
ghost use Rattle.asking.specs.Hearing.{said_of, hearing_of, outcome_of, heard_by};
ghost use Rattle.asking.specs.Made.{fitted};
ghost use Rattle.asking.specs.Against.{alike, against};
ghost use Rattle.asking.specs.Steps.{is_temperature};

use card::Outcome;
use card::numbers::{ANSWERED, BUFFER_SHORT};
use card::probe::{FAULT_CODE, TENTHS_BELOW, TENTHS_PER_CODE};
pub use hearing::{Group, Heard, Unread};

// Hands a made frame over, unless it is longer than the buffer lent. The number is one of document 01, which every entry hands to C.
pub fn hand_over(frame: &[u8], out: &mut [u8]) -> Outcome
    ensures { Told (fitted frame.now (length out.old)) out.old result.number result.len out.new }
{
    let len = frame.len();
    if out.len() < len {
        return Outcome {
            number: BUFFER_SHORT,
            len: 0,
        };
    }
    wire::copy(frame, out, 0);
    Outcome {
        number: ANSWERED,
        len,
    }
}

// Whether a reply and an answer are the same before an index and from another one on. By wire's function: it states == as `same`.
#[tactic(auto, unfolding(crate::specs::Against::alike))]
fn is_alike(reply: &[u8], answer: &[u8], at: usize, end: usize) -> bool
    requires { (length reply.now ≡ length answer.now) × ((at ≤ end) × (end ≤ length answer.now)) }
    ensures { result ≡ alike at end reply.now answer.now }
{
    let front = wire::is_same(&reply[..at], &answer[..at]);
    let back = wire::is_same(&reply[end..], &answer[end..]);
    front & back
}

// Compares a reply with an answer whose check characters are size bytes, back bytes from its end.
// Two numbers and no struct, here and below: they are two constants of a dialect.
#[tactic(auto, unfolding(crate::specs::Against::against, wire::specs::Choose::choose))]
pub fn compare(reply: &[u8], answer: &[u8], back: usize, size: usize) -> Result<(), Unread>
    requires { (size ≤ back) × (back ≤ length answer.now) }
    ensures { outcome_of result ≡ against back size reply.now answer.now }
{
    if reply.len() != answer.len() {
        return Err(Unread::Form);
    }
    let at = answer.len() - back;
    let end = at + size;
    if !is_alike(reply, answer, at, end) {
        return Err(Unread::Form);
    }
    if !wire::is_same(&reply[at..end], &answer[at..end]) {
        return Err(Unread::Check);
    }
    Ok(())
}

// What is heard in a reply, where the answer that it is compared with says this.
pub fn hear_answer(
    reply: &[u8],
    answer: &[u8],
    back: usize,
    size: usize,
    said: Heard,
) -> Result<Heard, Unread>
    requires { (size ≤ back) × (back ≤ length answer.now) }
    ensures { hearing_of result ≡ heard_by (against back size reply.now answer.now) (said_of said) }
{
    compare(reply, answer, back, size)?;
    Ok(said)
}

// Whether some probe code gives this word, in a unit of which units are a tenth of a degree.
#[tactic(auto, unfolding(crate::specs::Steps::is_temperature))]
pub fn is_temperature(units: u32, word: u32) -> bool
    requires { (0 < units) × (units ≤ 10) }
    ensures { result ≡ is_temperature units word }
{
    let step = units * TENTHS_PER_CODE;
    let above = word.wrapping_add(units * TENTHS_BELOW);
    (above <= step * (FAULT_CODE as u32 - 1)) & (above % step == 0)
}
