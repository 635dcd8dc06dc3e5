// The Love dialect. Document 01, "Love"; source document 004.
#![tactic(auto)]

pub mod answer;
pub mod collect;
pub mod form;
mod frame;

ghost use Rattle.std.specs.Prelude.{length};
ghost use Rattle.card.specs.Layout.{card_of};
ghost use Rattle.card.specs.Reply.{Gave};
ghost use Rattle.love.specs.Answer.{love_reply};

use card::layout::LOVE_ADDRESS;
use card::numbers::ANSWERED;
use card::{Outcome, ROOM_LEAST};
use form::Address;

// A Love frame f reaches the card; the answer goes to the front of out.
pub fn love(words: &mut [u32], memory: &[u8], ports: &[u8], f: &[u8], out: &mut [u8]) -> Outcome
    ensures { let before = card_of words.old memory.now ports.now in
        let after = card_of words.new memory.now ports.now in
        Gave (love_reply before (length out.old) f.now) out.old result after out.new }
{
    // Taken first: behind the test of the tables its stores take longer.
    let sheet = figures::sheet::take();
    let number = card::stop_early(words, memory, ports, ROOM_LEAST, out.len());
    if number != ANSWERED {
        return Outcome { number, len: 0 };
    }
    let address = Address {
        value: words[LOVE_ADDRESS],
    };
    let order = frame::order_of(&sheet, address, f);
    answer::obey(words, memory, address, order, out)
}
