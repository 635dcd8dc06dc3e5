// Where each entry of the lent tables stands. Document 01, "What the card holds".

// The table of words: a number each; a signed one in two's complement.
pub const IA: usize = 0;

pub const LECOM_ADDRESS: usize = 1;

pub const LOVE_ADDRESS: usize = 2;
// SP1, SP2, ALLO, ALHI.
pub const LOVE: usize = 3;

pub const LOVE_COUNT: usize = 4;
// The fan demands, a channel each.
pub const DEMANDS: usize = LOVE + LOVE_COUNT;

pub const CHANNELS: usize = 4;
// Parameters 1110h and 1120h, channel by channel, and then their saved copies in the same order.
pub const PARAMETERS: usize = DEMANDS + CHANNELS;

pub const PARAMETERS_EACH: usize = 2;

pub const PARAMETER_COUNT: usize = PARAMETERS_EACH * CHANNELS;

pub const SAVED_PARAMETERS: usize = PARAMETERS + PARAMETER_COUNT;
// The three copies of the LECOM registers stand last, so that their number can grow.
pub const REGISTERS: usize = 96;

pub const BUFFER: usize = SAVED_PARAMETERS + PARAMETER_COUNT;

pub const OPERATIONAL: usize = BUFFER + REGISTERS;

pub const SAVED_REGISTERS: usize = OPERATIONAL + REGISTERS;

pub const WORDS: usize = SAVED_REGISTERS + REGISTERS;

// Datalink memory; its first bytes are the probe codes, a channel each.
pub const MEMORY: usize = 4096;

// The port's row. Its pending change: its kind, then NUM, low address, high address and data as in its frame.
pub const KIND: usize = 0;

pub const NUM: usize = 1;

pub const LOW_ADDRESS: usize = 2;

pub const HIGH_ADDRESS: usize = 3;

pub const DATA: usize = 4;

pub const DATA_MOST: usize = 32;

pub const PENDING: usize = DATA + DATA_MOST;

// Of each dialect the part frame: how many bytes it has, a number of two bytes, the low one first; then its bytes, as many as the dialect's
// longest frame has.
pub const COUNT: usize = 2;

pub const DATALINK_ROOM: usize = 38;

pub const LECOM_ROOM: usize = 25;

pub const LOVE_ROOM: usize = 32;

pub const LUCID_ROOM: usize = 259;

pub const DATALINK_PART: usize = PENDING;

pub const LECOM_PART: usize = DATALINK_PART + COUNT + DATALINK_ROOM;

pub const LOVE_PART: usize = LECOM_PART + COUNT + LECOM_ROOM;

pub const LUCID_PART: usize = LOVE_PART + COUNT + LOVE_ROOM;

pub const ROW: usize = LUCID_PART + COUNT + LUCID_ROOM;
