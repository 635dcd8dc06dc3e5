// Document 01, "Numbers returned". Numbers and no enum: every entry hands them to C as they are, and every contract equates them.
pub const ANSWERED: u8 = 0;

pub const DONE: u8 = 1;

pub const FOREIGN_ADDRESS: u8 = 2;

pub const FRAME_FORM: u8 = 3;

pub const CHECK_CHARACTER: u8 = 4;

pub const COMMAND_UNKNOWN: u8 = 5;

pub const RANGE_UNKNOWN: u8 = 6;

pub const VALUE_OUTSIDE: u8 = 7;

pub const READ_ONLY: u8 = 8;

pub const PROBE_FAULT: u8 = 9;

pub const NOTHING_PENDING: u8 = 10;

pub const BUFFER_SHORT: u8 = 11;

pub const CARD_UNFIT: u8 = 12;

pub const IMAGE_LENGTH: u8 = 13;

pub const IMAGE_PADDING: u8 = 14;

// Document 02.
pub const FRAME_BUFFER_SHORT: u8 = 16;
