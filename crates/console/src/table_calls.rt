// The calls on the tables, as those of the card.
use crate::call::TableCall;
use lines::Answer;
use lines::line::Line;
use tables::Tables;

// A call on the tables, with the words after its name.
pub fn run(call: TableCall, tables: &mut Tables, line: Line, answer: &mut Answer) -> Option<()> {
    match call {
        TableCall::Poke => tables.poke(line, answer),
        TableCall::Peek => tables.peek(line, answer),
    }
}
