// The governor's reading: half the code less 40, an exact f32; or the word fault; or the word refused.
ghost use Rattle.std.specs.Prelude.{◌≡◌, ◌<◌};
ghost use Rattle.card.specs.Layout.{card_of};
ghost use Rattle.card.specs.Probe.{fault_code};
ghost use Rattle.card.specs.Governor.{degrees_of, told_of, GovernorTold};

use crate::fitness::is_fit;
use crate::layout::CHANNELS;
use crate::numbers::{CARD_UNFIT, RANGE_UNKNOWN};
use crate::probe::{Reading, read_code};

// What the governor is told. Document 01 names the form: "degrees, or the word fault and no degrees".
#[derive(Clone, Copy)]
pub enum Governor {
    Degrees(f32),
    Fault,
    Refused(u8),
}

// Degrees of a code that is a temperature.
fn degrees(code: u8) -> f32
    requires { code < fault_code }
    ensures { result ≡ degrees_of code }
{
    code as f32 * 0.5 - 40.0
}

// What the governor is told of a code: degrees if it is read as a temperature, or the fault.
fn told(code: u8) -> Governor
    ensures { result ≡ told_of code }
{
    let Reading::Temperature(_tenths) = read_code(code) else {
        return Governor::Fault;
    };
    Governor::Degrees(degrees(code))
}

// What the governor is told of a channel.
pub fn governor_reading(words: &[u32], memory: &[u8], ports: &[u8], channel: u32) -> Governor
    ensures { let before = card_of words.now memory.now ports.now in
        let after = card_of words.now memory.now ports.now in
        GovernorTold before channel result after }
{
    if !is_fit(words, memory, ports) {
        return Governor::Refused(CARD_UNFIT);
    }
    if CHANNELS as u32 <= channel {
        return Governor::Refused(RANGE_UNKNOWN);
    }
    told(memory[channel as usize])
}
