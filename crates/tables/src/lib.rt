// The tables by name and place, for poke and peek; and the dialects by name. docs/CONSOLE.md.
#![tactic(auto)]

pub mod dialect;
mod entry;
mod table;

ghost use Rattle.std.specs.Prelude.{◌≡◌, ◌+◌, ◌≤◌, ◌<◌, length, IfSome};
ghost use Rattle.tables.specs.Entries.{change_count, entry_count, most_of, Tabled};

use card::change::NO_CHANGE;
use card::layout::{COUNT, DATA_MOST, KIND, MEMORY, NUM, ROW, WORDS};
use card::row;
use entry::ROW_FROM;
use lines::Answer;
use lines::line::Line;
use table::{CHANGE_DATA, CHANGE_FROM, Span};

// The card's tables: the words, memory, and the port's row.
#[derive(Drop)]
pub struct Tables {
    pub words: [u32; WORDS],
    pub memory: [u8; MEMORY],
    pub row: [u8; ROW],
}

// The next word as a value that the entry can hold.
fn read_value(line: &mut Line, entry: usize) -> Option<u32>
    requires { entry < entry_count }
    ensures most { IfSome result (λ v. v ≤ most_of entry) }
    ensures stays { line.new.bytes.now ≡ line.old.bytes.now }
{
    if WORDS <= entry {
        return line.number(entry::most(entry));
    }
    if entry::is_signed(entry) {
        return line.signed();
    }
    line.number(u32::MAX)
}

// How many bytes of a part frame peek shows: those collected, room at most. Its count stands at a place of the row.
fn part_shown(row: &[u8], at: usize, room: usize) -> usize
    requires { at + 1 < length row.now }
    ensures { result ≤ room }
{
    row::count(row, at).min(room)
}

impl Tables {
    // poke TABLE PLACE VALUE. None, with nothing changed, where the words do not fit.
    pub fn poke(&mut self, mut line: Line, answer: &mut Answer) -> Option<()> {
        let table = table::read_table(&mut line)?;
        let place = line.number(u32::MAX)? as usize;
        if table.count <= place {
            return None;
        }
        let entry = table.first + place;
        let value = read_value(&mut line, entry)?;
        line.end()?;
        self.store(entry, value);
        answer.set(b"ok");
        Some(())
    }

    // How many entries of the pending change peek shows: the kind alone where there is none, else as many data bytes as NUM says.
    fn change_shown(&self) -> usize
        ensures { result ≤ change_count }
    {
        if self.row[KIND] == NO_CHANGE {
            return 1;
        }
        CHANGE_DATA + (self.row[NUM] as usize).min(DATA_MOST)
    }

    // The entries of a table that peek shows, the first and how many: of a part frame its bytes alone.
    // A pair and no Span: where no byte was collected it is empty, and a Span never is.
    fn shown(&self, table: Span) -> (usize, usize)
        ensures { Tabled entry_count result.0 result.1 }
    {
        if table.first < CHANGE_FROM {
            return (table.first, table.count);
        }
        if table.first == CHANGE_FROM {
            return (table.first, self.change_shown());
        }
        let at = table.first - ROW_FROM - (COUNT - 1);
        (table.first + 1, part_shown(&self.row, at, table.count - 1))
    }

    // Entries in decimal, separated by a space. Of no entries the line is empty.
    fn show(&self, first: usize, count: usize, answer: &mut Answer)
        requires { Tabled entry_count first count }
    {
        answer.clear();
        for entry in first..first + count {
            if first < entry {
                answer.put_words(b" ");
            }
            answer.put_entry(self.load(entry), entry::is_signed(entry));
        }
    }

    // peek TABLE. None where the words do not fit.
    pub fn peek(&self, mut line: Line, answer: &mut Answer) -> Option<()> {
        let table = table::read_table(&mut line)?;
        line.end()?;
        let (first, count) = self.shown(table);
        self.show(first, count, answer);
        Some(())
    }
}
