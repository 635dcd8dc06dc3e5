// Love's master: it makes a request's frame, and reads the reply. Document 02, M-102.
#![tactic(auto)]

mod frames;
mod hear;
pub mod request;

ghost use Rattle.std.specs.Prelude.{◌≡◌, length};
ghost use Rattle.card.specs.Reply.{Told};
ghost use Rattle.asking.specs.Hearing.{hearing_of, unless_outside};
ghost use Rattle.asking.specs.Made.{making};
ghost use Rattle.love_master.specs.Request.{askable, made};
ghost use Rattle.love_master.specs.Heard.{heard};

use asking::{Heard, Unread};
use card::Outcome;
use card::numbers::VALUE_OUTSIDE;
use request::Request;

// Makes a request's frame in a lent buffer. The number is one of document 01, as `nk_ask_love` hands it to C.
// Each master has its own make and read: what they share is in asking, and a trait could not give the room of the frame's array.
pub fn make(request: Request, out: &mut [u8]) -> Outcome
    ensures { Told (making (askable request) (made request) (length out.old)) out.old result.number result.len out.new }
{
    if !request::is_askable(request) {
        return Outcome {
            number: VALUE_OUTSIDE,
            len: 0,
        };
    }
    // An array that is cut to its length as soon as it is written.
    let mut frame = [0u8; frames::LONGEST];
    let len = frames::put_frame(&mut frame, request);
    asking::hand_over(&frame[..len], out)
}

// Reads a reply to a request.
pub fn read(request: Request, reply: &[u8]) -> Result<Heard, Unread>
    ensures { hearing_of result ≡ unless_outside (askable request) (heard request reply.now) }
{
    if !request::is_askable(request) {
        return Err(Unread::Request);
    }
    hear::hear(request, reply)
}
