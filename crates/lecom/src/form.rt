// The dialect's type: its shortest and longest frame and the rest of its form, for frame checks and receivers; and what a code names.
// Document 01, "LECOM".
ghost use Rattle.std.specs.Prelude.{◌≡◌, Some};
ghost use Rattle.lecom.specs.Form.{shortest, longest, named_by, known, writable, free, takes};

use receiver::Frames;

#[derive(Clone, Copy)]
pub struct Lecom {}

// "Numbers returned", last lines.
impl Frames for Lecom {
    const SHORTEST: usize = 6;

    const LONGEST: usize = 25;

    ghost SHORTEST = { shortest };

    ghost LONGEST = { longest };
}

impl Lecom {
    // Control characters: source document 001, section 7.
    pub const STX: u8 = 0x02;

    pub const ETX: u8 = 0x03;

    pub const EOT: u8 = 0x04;

    pub const ENQ: u8 = 0x05;

    pub const ACK: u8 = 0x06;

    pub const NAK: u8 = 0x15;
    // What stands before an extended code's six hex characters.
    pub const EXTENDED: u8 = b'!';
    // The places of the two address figures and of a write's STX, where a read's code begins.
    pub const TENS: usize = 1;

    pub const ONES: usize = 2;

    pub const START: usize = 3;
    // How many hex characters a standard and an extended code have.
    pub const STANDARD_HEX: usize = 2;

    pub const EXTENDED_HEX: usize = 6;
    // In an extended code's hex characters the place of the standard code and of the subcode.
    pub const STANDARD: usize = 2;

    pub const SUBCODE: usize = 4;
    // How many data characters a write has, and how many bytes come after them: ETX and BCC.
    pub const DATA_LEAST: usize = 1;

    pub const DATA_MOST: usize = 12;

    pub const CLOSING: usize = 2;
    // "What the card holds": the codes of the registers, which begin at 0, of the probes and of the two commands.
    pub const LAST_REGISTER: u32 = 0x5F;

    pub const FIRST_PROBE: u32 = 0x60;

    pub const LAST_PROBE: u32 = 0x63;

    pub const ACTIVATE: u32 = 0x67;

    pub const STORE: u32 = 0x68;
}

// What a code names: a register, the probe of a channel, or one of the two commands.
#[derive(Clone, Copy)]
pub enum Named {
    Register(u32),
    Probe(u32),
    Activate,
    Store,
}

// What the code of a number names, if it names something. Nothing else in the card decides this.
pub fn named_by(code: u32) -> Option<Named>
    ensures { result ≡ named_by code }
{
    match code {
        0..=Lecom::LAST_REGISTER => Some(Named::Register(code)),
        Lecom::FIRST_PROBE..=Lecom::LAST_PROBE => Some(Named::Probe(code - Lecom::FIRST_PROBE)),
        Lecom::ACTIVATE => Some(Named::Activate),
        Lecom::STORE => Some(Named::Store),
        _ => None,
    }
}

impl Named {
    // Whether a write may name it: a probe is read-only.
    pub fn is_writable(self) -> bool
        ensures { result ≡ writable (Some self) }
    {
        !matches!(self, Named::Probe(_))
    }

    // Whether it takes every value, and not 0 and 1 alone.
    fn is_free(self) -> bool
        ensures { result ≡ free (Some self) }
    {
        matches!(self, Named::Register(_) | Named::Probe(_))
    }

    // Whether it takes a value.
    pub fn takes(self, value: u32) -> bool
        ensures { result ≡ takes (Some self) value }
    {
        self.is_free() | (value <= 1)
    }
}

// Of what `named_by` gives, as callers ask it: whether the code names something.
pub fn is_known(named: Option<Named>) -> bool
    ensures { result ≡ known named }
{
    named.is_some()
}

// Whether a write may name it: nothing is never written.
pub fn is_writable(named: Option<Named>) -> bool
    ensures { result ≡ writable named }
{
    match named {
        Some(named) => named.is_writable(),
        None => false,
    }
}

// Whether it takes a value: only ACTIVATE and STORE take 0 and 1 alone, so nothing takes every value.
pub fn is_taken(named: Option<Named>, value: u32) -> bool
    ensures { result ≡ takes named value }
{
    match named {
        Some(named) => named.takes(value),
        None => true,
    }
}
