// The calls of the card's entries: each reads its words, calls its entry and writes the answer line. It gives None, with nothing
// changed, where the words do not fit.
ghost use Rattle.std.specs.Prelude.{◌≡◌, ◌≤◌, length};

use crate::arguments;
use crate::arguments::{Buffers, Words};
use crate::call::CardCall;
use card::{Outcome, entries, governor};
use lines::Answer;
use lines::line::Line;
use receive::Dialect;
use tables::Tables;

// The largest CHANNEL and CODE.
const BYTE_MOST: u32 = 255;

// probe CHANNEL CODE
fn probe(tables: &mut Tables, mut line: Line, answer: &mut Answer) -> Option<()>
    ensures { (tables.new.words ≡ tables.old.words) × (tables.new.row ≡ tables.old.row) }
{
    let channel = line.number(BYTE_MOST)?;
    let code = line.last_number(BYTE_MOST)?;
    let number = entries::set_code(
        &tables.words,
        &mut tables.memory,
        &tables.row,
        channel,
        code as u8,
    );
    answer.tell_number(number);
    Some(())
}

// restart
fn restart(tables: &mut Tables, line: Line, answer: &mut Answer) -> Option<()> {
    line.end()?;
    let number = entries::restart_card(&mut tables.words, &mut tables.memory, &mut tables.row);
    answer.tell_number(number);
    Some(())
}

// governor CHANNEL
fn tell_governor(tables: &Tables, mut line: Line, answer: &mut Answer) -> Option<()> {
    let channel = line.last_number(BYTE_MOST)?;
    let told = governor::governor_reading(&tables.words, &tables.memory, &tables.row, channel);
    answer.tell_reading(told);
    Some(())
}

// The frame f in a dialect, with the answer at the front of out.
fn deliver(dialect: Dialect, tables: &mut Tables, f: &[u8], out: &mut [u8]) -> Outcome
    ensures { result.len ≤ length out.new }
{
    let Tables { words, memory, row } = tables;
    match dialect {
        Dialect::Datalink => datalink::datalink(words, memory, row, f, out),
        Dialect::Lecom => lecom::lecom(words, memory, row, f, out),
        Dialect::Love => love::love(words, memory, row, f, out),
        Dialect::Lucid => lucid::lucid(words, memory, row, f, out),
    }
}

// datalink, lecom, love or lucid ROOM BYTES
fn answer_frame(
    dialect: Dialect,
    tables: &mut Tables,
    words: Words,
    buffers: &mut Buffers,
    answer: &mut Answer,
) -> Option<()> {
    let mut line = words.line;
    let room = arguments::room(&mut line)?;
    let frame = line.last_bytes(&mut buffers.first)?;
    let out = &mut buffers.second[..][..room];
    let given = deliver(dialect, tables, frame, out);
    answer.tell(given.number, &out[..given.len]);
    Some(())
}

// A call of an entry of the card, with the words after its name.
pub fn run(
    call: CardCall,
    tables: &mut Tables,
    words: Words,
    buffers: &mut Buffers,
    answer: &mut Answer,
) -> Option<()> {
    match call {
        CardCall::Probe => probe(tables, words.line, answer),
        CardCall::Restart => restart(tables, words.line, answer),
        CardCall::Governor => tell_governor(tables, words.line, answer),
        CardCall::Frame(dialect) => answer_frame(dialect, tables, words, buffers, answer),
    }
}
