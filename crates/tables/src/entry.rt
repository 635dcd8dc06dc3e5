// Every entry of the tables in one numbering: the words first, then memory, then the port's row by its places.
ghost use Rattle.std.specs.Prelude.{◌≡◌, true, ◌≤◌, ◌<◌};
ghost use Rattle.card.specs.Layout.{word_count, row_size};
ghost use Rattle.tables.specs.Entries.{entry_count, index_of, is_second, row_most, most_of};

use crate::Tables;
use card::change;
use card::layout::{
    BUFFER, DATALINK_PART, DEMANDS, HIGH_ADDRESS, KIND, LECOM_PART, LOVE, LOVE_PART, LUCID_PART,
    MEMORY, NUM, WORDS,
};
use wire::BYTE_VALUES;

// Where the row's entries start.
pub(crate) const ROW_FROM: usize = WORDS + MEMORY;

// The pending change's entries before its data stand in the order of `poke`, and not in the row's.
pub(crate) const KIND_PLACE: usize = 1;

const ADDRESS_PLACE: usize = 2;

const NUM_PLACE: usize = 3;

const BYTE_MOST: u32 = 255;

const TWO_BYTES_MOST: u32 = 65_535;

// Whether a word is signed: Love parameters and registers.
pub(crate) fn is_signed(entry: usize) -> bool {
    let love = LOVE <= entry && entry < DEMANDS;
    let register = BUFFER <= entry && entry < WORDS;
    love || register
}

// Where an entry of the row stands in it: one of two bytes at the second, so that a part frame's count stands right before its bytes.
fn index(place: usize) -> usize
    requires { place < row_size }
    ensures { (result ≡ index_of place) × (result < row_size) }
{
    match place {
        KIND_PLACE => KIND,
        ADDRESS_PLACE => HIGH_ADDRESS,
        NUM_PLACE => NUM,
        _ => place,
    }
}

// Whether the second byte of a number of two bytes stands there: the pending change's address, or the count of a part frame.
// A chain of tests: over `matches!` and over `contains` of an array what it ensures found no proof.
fn is_second(i: usize) -> bool
    ensures { (result ≡ is_second i) × (result ≡ true → 0 < i) }
{
    let address = i == HIGH_ADDRESS;
    let datalink = i == DATALINK_PART + 1;
    let lecom = i == LECOM_PART + 1;
    let love = i == LOVE_PART + 1;
    let lucid = i == LUCID_PART + 1;
    address | (datalink | (lecom | (love | lucid)))
}

// The largest value of an entry of the row.
fn row_most(place: usize) -> u32
    requires { place < row_size }
    ensures { result ≡ row_most place }
{
    let i = index(place);
    if is_second(i) {
        return TWO_BYTES_MOST;
    }
    BYTE_MOST
}

// The largest value of an entry that is no word.
pub(crate) fn most(entry: usize) -> u32
    requires { (word_count ≤ entry) × (entry < entry_count) }
    ensures { result ≡ most_of entry }
{
    if entry < ROW_FROM {
        return BYTE_MOST;
    }
    row_most(entry - ROW_FROM)
}

impl Tables {
    fn load_row(&self, place: usize) -> u32
        requires { place < row_size }
    {
        let i = index(place);
        if is_second(i) {
            return change::two_bytes(self.row[i - 1], self.row[i]) as u32;
        }
        self.row[i] as u32
    }

    pub(crate) fn load(&self, entry: usize) -> u32
        requires { entry < entry_count }
    {
        if entry < WORDS {
            return self.words[entry];
        }
        if entry < ROW_FROM {
            return self.memory[entry - WORDS] as u32;
        }
        self.load_row(entry - ROW_FROM)
    }

    // By % and /: that each half fits a byte is what a wrong program breaks (whole_number_as_its_low_byte).
    fn store_row(&mut self, place: usize, value: u32)
        requires { (place < row_size) × (value ≤ row_most place) }
    {
        let i = index(place);
        if is_second(i) {
            self.row[i - 1] = (value % BYTE_VALUES) as u8;
            self.row[i] = (value / BYTE_VALUES) as u8;
            return;
        }
        self.row[i] = value as u8;
    }

    pub(crate) fn store(&mut self, entry: usize, value: u32)
        requires { (entry < entry_count) × (value ≤ most_of entry) }
    {
        if entry < WORDS {
            self.words[entry] = value;
            return;
        }
        if entry < ROW_FROM {
            self.memory[entry - WORDS] = value as u8;
            return;
        }
        self.store_row(entry - ROW_FROM, value);
    }
}
