// The dialect's type: its shortest and longest frame and the rest of its form, for frame checks and receivers. Document 01, "Love".
ghost use Rattle.std.specs.Prelude.{◌≡◌, ◌≤◌, ◌%◌};
ghost use Rattle.card.specs.Fitness.{love_address_most, love_hundred};
ghost use Rattle.love.specs.Form.{shortest, longest, filter_of};

use card::fitness::LOVE_HUNDRED;
use receiver::Frames;

#[derive(Clone, Copy)]
pub struct Love {}

// The address of a unit.
#[derive(Clone, Copy)]
pub struct Address {
    pub value: u32,
    pub ghost right: { value ≤ love_address_most },
}

impl Address {
    // The filter character: one of the four letters, by the address's hundreds.
    pub(crate) fn filter(self) -> u8
        ensures { result ≡ filter_of self.value }
    {
        let letters = b"LOVE";
        let hundreds = (self.value / LOVE_HUNDRED) as usize;
        letters[hundreds]
    }

    // The byte that its two figures are. The cast loses nothing: the remainder fits a byte.
    pub(crate) fn low(self) -> u8
        ensures { result ≡ self.value % love_hundred }
    {
        (self.value % LOVE_HUNDRED) as u8
    }
}

// "Numbers returned", last lines.
impl Frames for Love {
    const SHORTEST: usize = 7;

    const LONGEST: usize = 32;

    ghost SHORTEST = { shortest };

    ghost LONGEST = { longest };
}

impl Love {
    // The bytes that begin and end a frame, and end a reply.
    pub const STX: u8 = 0x02;

    pub const ETX: u8 = 0x03;

    pub const ACK: u8 = 0x06;
    // Where filter, address and data stand; how many bytes stand after the data, a checksum and the last byte; how many figures a byte is.
    pub const FILTER: usize = 1;

    pub const ADDRESS: usize = 2;

    pub const DATA: usize = 4;

    pub const TAIL: usize = 3;

    pub const PAIR: usize = 2;
    // Where a command's two halves stand in the data, and a write's four figures and sign.
    pub const COMMAND: usize = 0;

    pub const PARAMETER: usize = 2;

    pub const VALUE: usize = 4;

    pub const SIGN: usize = 8;
    // The first half: 00, 01.. and 02..
    pub const STATUS: u8 = 0x00;

    pub const READ: u8 = 0x01;

    pub const WRITE: u8 = 0x02;
    // The second half: ..00, ..02, ..04 and ..05.
    pub const SP1: u8 = 0x00;

    pub const SP2: u8 = 0x02;

    pub const ALLO: u8 = 0x04;

    pub const ALHI: u8 = 0x05;
    // The signs of a write.
    pub const PLUS: u8 = 0x00;

    pub const MINUS: u8 = 0xFF;
    // Data lengths: the least and the most, that of 00, the least of any other command, and those of a read and of a write.
    pub const DATA_LEAST: usize = 2;

    pub const DATA_MOST: usize = 10;

    pub const STATUS_LENGTH: usize = 2;

    pub const COMMAND_LENGTH: usize = 4;

    pub const READ_LENGTH: usize = 4;

    pub const WRITE_LENGTH: usize = 10;
    // Error codes, by source document 004's names. No enum: they are bytes of the wire, which are written and compared as they are.
    pub const UNDEFINED_COMMAND: u8 = 0x01;

    pub const CHECKSUM_ERROR: u8 = 0x02;

    pub const ILLEGAL_CHARACTER: u8 = 0x04;

    pub const FIELD_ERROR: u8 = 0x05;

    pub const OUT_OF_RANGE: u8 = 0x06;
}
