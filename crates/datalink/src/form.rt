// The dialect's type: its shortest and longest frame and the rest of its form, for frame checks and receivers.
ghost use Rattle.datalink.specs.Form.{shortest, longest};

use receiver::Frames;

#[derive(Clone, Copy)]
pub struct Datalink {}

// "Datalink 2 and 38": the shortest and the longest frame.
impl Frames for Datalink {
    const SHORTEST: usize = 2;

    const LONGEST: usize = 38;

    ghost SHORTEST = { shortest };

    ghost LONGEST = { longest };
}

impl Datalink {
    // The first byte of every frame.
    pub const START: u8 = 0x7E;
    // The second byte: command bits plus I.A.
    pub const IA_VALUES: u8 = 32;

    pub const INTERROGATE: u8 = 0xE0;

    pub const CHANGE_BITS: u8 = 0xC0;

    pub const CHANGE: u8 = 0xA0;

    pub const ACKNOWLEDGE: u8 = 0x80;

    pub const RESPONSE: u8 = 0x20;
    // The places of the second byte, of NUM, address and data.
    pub const SECOND: usize = 1;

    pub const NUM: usize = 2;

    pub const LOW_ADDRESS: usize = 3;

    pub const HIGH_ADDRESS: usize = 4;

    pub const DATA: usize = 5;

    // The size of an Acknowledge, and of a frame with NUM and no data.
    pub const ACKNOWLEDGE_SIZE: usize = 2;

    pub const BARE: usize = 6;
}
