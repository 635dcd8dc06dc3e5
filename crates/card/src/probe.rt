// The probe reading: the one way from a code to a temperature.
ghost use Rattle.std.specs.Prelude.{◌≡◌};
ghost use Rattle.card.specs.Probe.{reading_of};

pub const FAULT_CODE: u8 = 255;

pub const TENTHS_PER_CODE: u32 = 5;

pub const TENTHS_BELOW: u32 = 400;

// Tenths of a degree, in two's complement. Only a probe reading makes one.
#[derive(Clone, Copy)]
pub struct Tenths(u32);

impl Tenths {
    // The number of tenths, as a word.
    pub fn word(self) -> u32
        ensures { result ≡ self.0 }
    {
        self.0
    }
}

// What a probe's code says. No Option: document 01 names the reading, out of which a temperature is taken.
#[derive(Clone, Copy)]
pub enum Reading {
    Temperature(Tenths),
    Fault,
}

pub fn read_code(code: u8) -> Reading
    ensures { result ≡ reading_of code }
{
    if code == FAULT_CODE {
        return Reading::Fault;
    }
    let scaled = TENTHS_PER_CODE * code as u32;
    Reading::Temperature(Tenths(scaled.wrapping_sub(TENTHS_BELOW)))
}
