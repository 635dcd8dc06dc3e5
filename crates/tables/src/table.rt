// The tables by name: each a run of entries. docs/CONSOLE.md.
ghost use Rattle.std.specs.Prelude.{◌≡◌, ◌+◌, ◌≤◌, ◌<◌, IfSome};
ghost use Rattle.card.specs.Layout.{word_count, count_size, row_size};
ghost use Rattle.tables.specs.Entries.{row_from, change_end, entry_count, Tabled, PartTabled};

use crate::dialect;
use crate::entry::{KIND_PLACE, ROW_FROM};
use card::layout::{
    BUFFER, CHANNELS, COUNT, DATA_MOST, DATALINK_PART, DATALINK_ROOM, DEMANDS, IA, LECOM_PART,
    LECOM_ROOM, LOVE, LOVE_COUNT, LOVE_PART, LOVE_ROOM, LUCID_PART, LUCID_ROOM, MEMORY,
    OPERATIONAL, PARAMETER_COUNT, PARAMETERS, REGISTERS, SAVED_PARAMETERS, SAVED_REGISTERS, WORDS,
};
use lines::line;
use lines::line::Line;
use receive::Dialect;

// The pending change: kind, address, NUM, data.
pub(crate) const CHANGE_FROM: usize = ROW_FROM + KIND_PLACE;

pub(crate) const CHANGE_DATA: usize = 3;

// A run of entries: the first, and how many.
#[derive(Clone, Copy)]
pub(crate) struct Span {
    pub(crate) first: usize,
    pub(crate) count: usize,
    ghost inside: { Tabled entry_count first count },
    ghost some: { 0 < count },
}

impl Span {
    fn new(first: usize, count: usize) -> Span
        requires { Tabled entry_count first count × (0 < count) }
        ensures { (result.first ≡ first) × (result.count ≡ count) }
    {
        Span { first, count }
    }
}

// The tables of words.
fn word_table(name: &[u8]) -> Option<Span>
    ensures { IfSome result (λ t. Tabled word_count t.first t.count) }
{
    match name {
        b"address" => Some(Span::new(IA, LOVE)),
        b"love" => Some(Span::new(LOVE, LOVE_COUNT)),
        b"demand" => Some(Span::new(DEMANDS, CHANNELS)),
        b"parameter" => Some(Span::new(PARAMETERS, PARAMETER_COUNT)),
        b"kept" => Some(Span::new(SAVED_PARAMETERS, PARAMETER_COUNT)),
        b"buffer" => Some(Span::new(BUFFER, REGISTERS)),
        b"operational" => Some(Span::new(OPERATIONAL, REGISTERS)),
        b"saved" => Some(Span::new(SAVED_REGISTERS, REGISTERS)),
        _ => None,
    }
}

// The table of a name of one word.
fn table_of(name: &[u8]) -> Option<Span>
    ensures { IfSome result (λ t. Tabled change_end t.first t.count) }
{
    match name {
        b"probe" => Some(Span::new(WORDS, CHANNELS)),
        b"memory" => Some(Span::new(WORDS, MEMORY)),
        b"pending" => Some(Span::new(CHANGE_FROM, CHANGE_DATA + DATA_MOST)),
        _ => word_table(name),
    }
}

// The part frame at a place of the row, with room for so many bytes: its count, and the bytes.
fn part(at: usize, room: usize) -> Span
    requires { at + (count_size + room) ≤ row_size }
    ensures { (result.first ≡ row_from + (at + 1)) × (result.count ≡ 1 + room) }
{
    Span {
        first: ROW_FROM + at + COUNT - 1,
        count: 1 + room,
    }
}

// The table of a dialect's part frame.
fn part_of(dialect: Dialect) -> Span
    ensures { PartTabled dialect result.first result.count }
{
    match dialect {
        Dialect::Datalink => part(DATALINK_PART, DATALINK_ROOM),
        Dialect::Lecom => part(LECOM_PART, LECOM_ROOM),
        Dialect::Love => part(LOVE_PART, LOVE_ROOM),
        Dialect::Lucid => part(LUCID_PART, LUCID_ROOM),
    }
}

// The next word as a table's name, or the next two.
pub(crate) fn read_table(line: &mut Line) -> Option<Span>
    ensures { line.new.bytes.now ≡ line.old.bytes.now }
{
    let name = line.word();
    if line::is_word(name, b"part") {
        return Some(part_of(dialect::read_dialect(line)?));
    }
    table_of(name)
}
