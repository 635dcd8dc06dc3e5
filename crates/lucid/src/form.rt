// The form of a LucidControl frame: OPC, P1, P2, LEN, data. Document 01, "LucidControl"; names by source document 002.
ghost use Rattle.std.specs.Prelude.{◌≡◌, ◌≤◌};
ghost use Rattle.lucid.specs.Form.{shortest, longest, hundredths_size, size_of};
ghost use Rattle.lucid.specs.Value.{Types};

use receiver::Frames;

#[derive(Clone, Copy)]
pub struct Lucid {}

// "Numbers returned", last lines.
impl Frames for Lucid {
    const SHORTEST: usize = 4;

    const LONGEST: usize = 259;

    ghost SHORTEST = { shortest };

    ghost LONGEST = { longest };
}

// Numbers and no enums: document 01 names this form, constants on a type for each dialect.
impl Lucid {
    // Where the parts of a frame stand; and the length of an answer's head, status and LEN.
    pub const OPC: usize = 0;

    pub const P1: usize = 1;

    pub const P2: usize = 2;

    pub const LEN: usize = 3;

    pub const DATA: usize = 4;

    pub const HEAD: usize = 2;
    // OPC: the commands.
    pub const GET_IO: u8 = 0x46;

    pub const GET_IO_GROUP: u8 = 0x48;

    pub const SET_IO: u8 = 0x40;

    pub const SET_IO_GROUP: u8 = 0x42;

    pub const SET_PARAM: u8 = 0xA0;

    pub const GET_PARAM: u8 = 0xA2;
    // P1 of a group: the highest mask.
    pub const MASK_MOST: u8 = 0x0F;
    // P2 of a value: its type; and the sizes.
    pub const DEMAND: u8 = 0x10;

    pub const TENTHS: u8 = 0x40;

    pub const HUNDREDTHS: u8 = 0x41;

    pub const DEMAND_SIZE: u8 = 2;

    pub const TENTHS_SIZE: u8 = 2;

    pub const HUNDREDTHS_SIZE: u8 = 4;
    // P2 of SetParam: its option bits.
    pub const DEFAULT: u8 = 0x01;

    pub const PERSISTENT: u8 = 0x80;

    pub const OTHER_BITS: u8 = 0xFF - (Lucid::DEFAULT + Lucid::PERSISTENT);
    // The data of SetParam and GetParam: an address; and of a SetParam that resets nothing a value after it.
    pub const CYCLE: u32 = 0x1110;

    pub const FLOOR: u32 = 0x1120;

    pub const ADDRESS_SIZE: u8 = 2;

    pub const VALUE: usize = Lucid::DATA + Lucid::ADDRESS_SIZE as usize;

    pub const PARAMETER_SIZE: u8 = 4;
    // Statuses.
    pub const OK: u8 = 0x00;

    pub const NO_SUPPORT: u8 = 0xA0;

    pub const INV_LENGTH: u8 = 0xB0;

    pub const INV_P1: u8 = 0xB2;

    pub const INV_P2: u8 = 0xB4;

    pub const INV_VALUE: u8 = 0xB6;

    pub const INV_CHANNEL: u8 = 0xB8;

    pub const INV_PARAM: u8 = 0xBA;

    pub const INV_DATA: u8 = 0xC0;

    pub const ERR_EXECUTION: u8 = 0xD0;

    // How many bytes a value of a type has.
    pub fn size(value_type: u8) -> u8
        ensures { (result ≡ size_of value_type) × (result ≤ hundredths_size) }
    {
        match ValueType::from(value_type) {
            ValueType::Demand => Lucid::DEMAND_SIZE,
            ValueType::Tenths => Lucid::TENTHS_SIZE,
            ValueType::Hundredths => Lucid::HUNDREDTHS_SIZE,
        }
    }
}

// What a value is: a demand, or a temperature in one of two units.
#[derive(Clone, Copy)]
pub enum ValueType {
    Demand,
    Tenths,
    Hundredths,
}

// From any number, as document 01 tells the types apart: 10h, 40h, else 41h. Whether a number is a type's at all, a test of the frame says.
impl From<u8> for ValueType {
    ghost from_gives = { Types };

    fn from(number: u8) -> Self {
        match number {
            Lucid::DEMAND => ValueType::Demand,
            Lucid::TENTHS => ValueType::Tenths,
            _ => ValueType::Hundredths,
        }
    }
}
