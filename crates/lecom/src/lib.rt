// The LECOM dialect. Document 01, "LECOM"; source document 001.
#![tactic(auto)]

mod answer;
pub mod collect;
pub mod form;
pub mod frame;

ghost use Rattle.std.specs.Prelude.{length};
ghost use Rattle.card.specs.Layout.{card_of};
ghost use Rattle.card.specs.Reply.{Gave};
ghost use Rattle.lecom.specs.Answer.{lecom_reply};

use card::layout::LECOM_ADDRESS;
use card::numbers::{ANSWERED, FRAME_FORM};
use card::{Outcome, ROOM_LEAST};
use form::Lecom;
use frame::Frame;
use receiver::Frames;

// A LECOM frame f reaches the card; the answer goes to the front of out.
pub fn lecom(words: &mut [u32], memory: &[u8], ports: &[u8], f: &[u8], out: &mut [u8]) -> Outcome
    ensures { let before = card_of words.old memory.now ports.now in
        let after = card_of words.new memory.now ports.now in
        Gave (lecom_reply before (length out.old) f.now) out.old result after out.new }
{
    // Taken first: behind the test of the tables its stores take longer.
    let sheet = figures::sheet::take();
    let number = card::stop_early(words, memory, ports, ROOM_LEAST, out.len());
    if number != ANSWERED {
        return Outcome { number, len: 0 };
    }
    // Tested here, since the outline looks at places of the frame.
    if !Lecom::fits(f.len()) {
        return Outcome {
            number: FRAME_FORM,
            len: 0,
        };
    }
    let frame = Frame::new(&sheet, f);
    match frame.order_of(&sheet, words[LECOM_ADDRESS]) {
        Ok(order) => answer::obey(words, memory, frame, out, order),
        Err(refusal) => answer::decline(frame, out, refusal),
    }
}
