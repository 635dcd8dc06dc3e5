// The LucidControl dialect. Document 01, "LucidControl"; document 02, M-103; source document 002.
#![tactic(auto)]

mod answer;
pub mod collect;
pub mod form;
pub mod frame;

ghost use Rattle.std.specs.Prelude.{length};
ghost use Rattle.card.specs.Layout.{card_of};
ghost use Rattle.card.specs.Reply.{Gave};
ghost use Rattle.lucid.specs.Answer.{lucid_reply};

use card::numbers::ANSWERED;
use card::{Outcome, ROOM_LEAST};

// A LucidControl frame f reaches the card; the answer goes to the front of out.
pub fn lucid(words: &mut [u32], memory: &[u8], ports: &[u8], f: &[u8], out: &mut [u8]) -> Outcome
    ensures { let before = card_of words.old memory.now ports.now in
        let after = card_of words.new memory.now ports.now in
        Gave (lucid_reply before (length out.old) f.now) out.old result after out.new }
{
    // A number and no Result: `nk_lucid` hands it to C, and every dialect's entry has this form.
    let number = card::stop_early(words, memory, ports, ROOM_LEAST, out.len());
    if number != ANSWERED {
        return Outcome { number, len: 0 };
    }
    match frame::order_of(f) {
        Ok(order) => answer::obey(words, memory, f, order, out),
        Err(refusal) => answer::turn_down(refusal, out),
    }
}
