// What a master hears, for C.
ghost use Rattle.std.specs.Prelude.{◌≡◌};
ghost use Rattle.asking.specs.Hearing.{values_in, hearing_of};
ghost use Rattle.asking.specs.Hearing.Hearing.{Gives};
ghost use Rattle.firmware.specs.Hearing.{HandedHearing};

use asking::{Group, Heard, Unread};
use card::numbers::DONE;

// include/nakshvilor.h: nk_heard. Flat, with numbers for what was heard and four values by name: C reads it so.
#[repr(C)]
#[derive(Clone, Copy)]
pub struct HeardInC {
    pub number: u8,
    pub said: u8,
    pub count: usize,
    pub first: u32,
    pub second: u32,
    pub third: u32,
    pub fourth: u32,
}

// What was heard: nothing, a value or values, done, fault, refused.
const NOTHING: u8 = 0;

const VALUES: u8 = 1;

const DONE_SAID: u8 = 2;

const FAULT: u8 = 3;

const REFUSED: u8 = 4;

// One value at most.
fn one(number: u8, said: u8, count: usize, value: u32) -> HeardInC
    ensures { result ≡ record { number = number; said = said; count = count; first = value; second = 0; third = 0; fourth = 0 } }
{
    HeardInC {
        number,
        said,
        count,
        first: value,
        second: 0,
        third: 0,
        fourth: 0,
    }
}

// The values of a group.
fn many(group: Group) -> HeardInC
    ensures { HandedHearing (Gives (values_in group)) result }
{
    let [first, second, third, fourth] = group.values;
    HeardInC {
        number: DONE,
        said: VALUES,
        count: group.values().len(),
        first,
        second,
        third,
        fourth,
    }
}

// Hands over what was heard.
pub(crate) fn hand_hearing(heard: Result<Heard, Unread>) -> HeardInC
    ensures { HandedHearing (hearing_of heard) result }
{
    match heard {
        Ok(Heard::Value(value)) => one(DONE, VALUES, 1, value),
        Ok(Heard::Values(group)) => many(group),
        Ok(Heard::Done) => one(DONE, DONE_SAID, 0, 0),
        Ok(Heard::Fault) => one(DONE, FAULT, 0, 0),
        Ok(Heard::Refused) => one(DONE, REFUSED, 0, 0),
        Ok(Heard::RefusedFor(code)) => one(DONE, REFUSED, 1, code as u32),
        Err(why) => one(why.number(), NOTHING, 0, 0),
    }
}
