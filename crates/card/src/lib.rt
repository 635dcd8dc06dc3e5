// The card's tables, their fitness, the probe reading, and the entries set code, restart and governor.
#![tactic(auto)]

pub mod change;
pub mod entries;
pub mod fitness;
pub mod governor;
pub mod layout;
pub mod numbers;
pub mod probe;
pub mod row;

ghost use Rattle.std.specs.Prelude.{◌≡◌};
ghost use Rattle.wire.specs.Choose.{choose};
ghost use Rattle.card.specs.Layout.{card_of};
ghost use Rattle.card.specs.Numbers.{card_unfit};
ghost use Rattle.card.specs.Fitness.{fit};
ghost use Rattle.card.specs.Reply.{early, done_with};

use numbers::{ANSWERED, BUFFER_SHORT, CARD_UNFIT, DONE};

// What an entry with an answer buffer gives: a number of document 01 and the answer's length, 0 for none.
// A pair of numbers and no Option: `nk_datalink`, `nk_lecom`, `nk_love` and `nk_lucid` hand both to C.
#[derive(Clone, Copy)]
pub struct Outcome {
    pub number: u8,
    pub len: usize,
}

// A dialect's answer buffer has at least this many bytes, else number 11.
pub const ROOM_LEAST: usize = 38;

// 12 for an unfit card, else the number that comes after it: a number, as `stop_early` gives it.
fn unless_unfit(words: &[u32], memory: &[u8], ports: &[u8], after: u8) -> u8
    ensures { result ≡ choose (fit (card_of words.now memory.now ports.now)) after card_unfit }
{
    if fitness::is_fit(words, memory, ports) {
        return after;
    }
    CARD_UNFIT
}

// The shell of every entry with an answer buffer, here of room bytes: 12 for an unfit card, then 11 below least, else 0 and the entry goes on.
// A number and no `Result`: the entry returns it to C as it is.
// Three tables and no struct of them: each entry borrows to write only what it changes.
// The room is looked at first and 12 put before either number: the compiler then tests nothing twice.
pub fn stop_early(words: &[u32], memory: &[u8], ports: &[u8], least: usize, room: usize) -> u8
    ensures { result ≡ early least (card_of words.now memory.now ports.now) room }
{
    if room < least {
        return unless_unfit(words, memory, ports, BUFFER_SHORT);
    }
    unless_unfit(words, memory, ports, ANSWERED)
}

// The number of a done call that hands over len bytes.
pub fn done_with(len: usize) -> u8
    ensures { result ≡ done_with len }
{
    if len == 0 {
        return DONE;
    }
    ANSWERED
}
