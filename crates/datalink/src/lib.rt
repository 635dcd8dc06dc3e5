// The Datalink dialect. Document 01, "Datalink"; source document 003.
#![tactic(auto)]

mod answer;
pub mod collect;
pub mod form;
mod frame;
pub mod write;

ghost use Rattle.std.specs.Prelude.{length};
ghost use Rattle.card.specs.Layout.{card_of};
ghost use Rattle.card.specs.Reply.{Gave};
ghost use Rattle.datalink.specs.Answer.{datalink_reply};

use card::layout::IA;
use card::numbers::ANSWERED;
use card::{Outcome, ROOM_LEAST};

// A Datalink frame f reaches the card; the answer goes to the front of out.
pub fn datalink(
    words: &[u32],
    memory: &mut [u8],
    ports: &mut [u8],
    f: &[u8],
    out: &mut [u8],
) -> Outcome
    ensures { let before = card_of words.now memory.old ports.old in
        let after = card_of words.now memory.new ports.new in
        Gave (datalink_reply before (length out.old) f.now) out.old result after out.new }
{
    // A number and no Result: `nk_datalink` hands it to C, and every dialect's entry has this form.
    let number = card::stop_early(words, memory, ports, ROOM_LEAST, out.len());
    if number != ANSWERED {
        return Outcome { number, len: 0 };
    }
    let order = frame::order_of(words[IA], f);
    answer::obey(words, memory, ports, f, order, out)
}
