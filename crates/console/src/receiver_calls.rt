// The calls of the receivers' entries, as those of the card.
ghost use Rattle.std.specs.Prelude.{◌≡◌, ◌≤◌, length};
ghost use Rattle.lines.specs.Lent.{bytes_most, room_most};
ghost use Rattle.lines.specs.Text.{Put};
ghost use Rattle.console.specs.Received.{received, received_most};

use crate::arguments;
use crate::arguments::{Buffers, Words};
use crate::call::ReceiverCall;
use card::numbers::DONE;
use lines::Answer;
use lines::line::Line;
use receive::{Dialect, Received};
use tables::{Tables, dialect};

// The bytes reach the dialect's receiver, with the frame at the front of frame.
fn hand(dialect: Dialect, tables: &mut Tables, bytes: &[u8], frame: &mut [u8]) -> Received
    ensures given { (result.taken ≤ length bytes.now) × (result.len ≤ length frame.new) }
    ensures kept { (tables.new.words ≡ tables.old.words) × (tables.new.memory ≡ tables.old.memory) }
{
    receive::receive(
        dialect,
        &tables.words,
        &tables.memory,
        &mut tables.row,
        bytes,
        frame,
    )
}

// The line of a receiver's number; where it is done, how many bytes it took, and the frame.
fn tell_received(answer: &mut Answer, number: u8, taken: usize, frame: &[u8])
    requires { (taken ≤ bytes_most) × (length frame.now ≤ room_most) }
    ensures { Put received_most 0 (received number taken frame.now) answer.old.out answer.new.len answer.new.out }
{
    if DONE < number {
        answer.tell_number(number);
        return;
    }
    answer.clear();
    answer.put_number(number as u32);
    answer.put_words(b" ");
    answer.put_number(taken as u32);
    answer.put_bytes(frame);
}

// receive DIALECT ROOM BYTES
fn receive_bytes(
    tables: &mut Tables,
    words: Words,
    buffers: &mut Buffers,
    answer: &mut Answer,
) -> Option<()>
    ensures { (tables.new.words ≡ tables.old.words) × (tables.new.memory ≡ tables.old.memory) }
{
    let mut line = words.line;
    let dialect = dialect::read_dialect(&mut line)?;
    let room = arguments::room(&mut line)?;
    let bytes = line.last_bytes(&mut buffers.first)?;
    let frame = &mut buffers.second[..][..room];
    let given = hand(dialect, tables, bytes, frame);
    tell_received(answer, given.number, given.taken, &frame[..given.len]);
    Some(())
}

// quiet DIALECT
fn quiet(tables: &mut Tables, mut line: Line, answer: &mut Answer) -> Option<()>
    ensures { (tables.new.words ≡ tables.old.words) × (tables.new.memory ≡ tables.old.memory) }
{
    let dialect = dialect::read_dialect(&mut line)?;
    line.end()?;
    let number = receive::quiet(dialect, &tables.words, &tables.memory, &mut tables.row);
    answer.tell_number(number);
    Some(())
}

// A call of an entry of the receivers, with the words after its name.
pub fn run(
    call: ReceiverCall,
    tables: &mut Tables,
    words: Words,
    buffers: &mut Buffers,
    answer: &mut Answer,
) -> Option<()>
    ensures { (tables.new.words ≡ tables.old.words) × (tables.new.memory ≡ tables.old.memory) }
{
    match call {
        ReceiverCall::Receive => receive_bytes(tables, words, buffers, answer),
        ReceiverCall::Quiet => quiet(tables, words.line, answer),
    }
}
