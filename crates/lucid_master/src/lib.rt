// LucidControl's master: it makes a request's frame, and reads the reply. Document 02, M-102.
#![tactic(auto)]

mod frames;
mod hear;
pub mod request;

ghost use Rattle.std.specs.Prelude.{◌≡◌, length};
ghost use Rattle.card.specs.Reply.{Told};
ghost use Rattle.asking.specs.Hearing.{hearing_of, unless_outside};
ghost use Rattle.asking.specs.Made.{making};
ghost use Rattle.lucid_master.specs.Request.{asking_of, askable, made};
ghost use Rattle.lucid_master.specs.Heard.{heard};

use asking::{Heard, Unread};
use card::Outcome;
use card::numbers::VALUE_OUTSIDE;
use request::Request;

// Makes the frame of a request, which sends these values, in a lent buffer.
// Each master has its own make and read: what they share is in asking, and a trait could not give the room of the frame's array.
pub fn make(request: Request, values: &[u32], out: &mut [u8]) -> Outcome
    ensures { let q = asking_of request values.now in
        Told (making (askable q) (made q) (length out.old)) out.old result.number result.len out.new }
{
    if !request::is_askable(request, values) {
        return Outcome {
            number: VALUE_OUTSIDE,
            len: 0,
        };
    }
    let mut frame = [0u8; frames::MADE_MOST];
    let len = frames::put_frame(&mut frame, request, values);
    asking::hand_over(&frame[..len], out)
}

// Reads a reply to a request that sent these values.
pub fn read(request: Request, values: &[u32], reply: &[u8]) -> Result<Heard, Unread>
    ensures { let q = asking_of request values.now in
        hearing_of result ≡ unless_outside (askable q) (heard q reply.now) }
{
    if !request::is_askable(request, values) {
        return Err(Unread::Request);
    }
    hear::hear(request, reply)
}
