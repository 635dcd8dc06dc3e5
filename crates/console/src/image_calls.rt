// The calls of the image's entries, as those of the card.
ghost use Rattle.std.specs.Prelude.{◌≡◌};

use crate::arguments::{Buffers, Words};
use crate::call::ImageCall;
use lines::line::Line;
use lines::{Answer, ROOM_MOST};
use tables::Tables;

// save ROOM
fn save(tables: &Tables, mut line: Line, buffers: &mut Buffers, answer: &mut Answer) -> Option<()> {
    let room = line.last_number(ROOM_MOST as u32)? as usize;
    let out = &mut buffers.second[..][..room];
    let given = image::write_image(&tables.words, &tables.memory, &tables.row, out);
    answer.tell(given.number, &out[..given.len]);
    Some(())
}

// load BYTES
fn load(tables: &mut Tables, words: Words, buffers: &mut Buffers, answer: &mut Answer) -> Option<()>
    ensures { (tables.new.memory ≡ tables.old.memory) × (tables.new.row ≡ tables.old.row) }
{
    let mut line = words.line;
    let image = line.last_bytes(&mut buffers.first)?;
    let number = image::read_image(&mut tables.words, &tables.memory, &tables.row, image);
    answer.tell_number(number);
    Some(())
}

// A call of an entry of the image, with the words after its name.
pub fn run(
    call: ImageCall,
    tables: &mut Tables,
    words: Words,
    buffers: &mut Buffers,
    answer: &mut Answer,
) -> Option<()>
    ensures { (tables.new.memory ≡ tables.old.memory) × (tables.new.row ≡ tables.old.row) }
{
    match call {
        ImageCall::Save => save(tables, words.line, buffers, answer),
        ImageCall::Load => load(tables, words, buffers, answer),
    }
}
