// The call that a line asks for, and the line that answers it. docs/CONSOLE.md.
ghost use Rattle.std.specs.Prelude.{◌≡◌, ◌≤◌, length};
ghost use Rattle.card.specs.Layout.{card_of};
ghost use Rattle.card.specs.Start.{start_card};
ghost use Rattle.lines.specs.Lent.{line_most, answer_most};
ghost use Rattle.console.specs.Holding.{Longer};
ghost use Rattle.console.specs.Standing.{Standing};

use crate::arguments::{Buffers, Words};
use crate::call::{CALLS, Call};
use crate::exchange::Exchange;
use crate::input::{Came, Input};
use crate::master_calls::Asked;
use crate::output::Held;
use crate::question::Question;
use crate::{card_calls, image_calls, output, question, receiver_calls, start, table_calls};
use card::layout::{MEMORY, ROW, WORDS};
use lines::line::Line;
use lines::text::Text;
use lines::{Answer, usage};
use std::io::{Stdin, Stdout};
use tables::Tables;

// Why the console ends.
#[derive(Clone, Copy)]
pub enum End {
    Over,
    NotRead,
    NotWritten,
}

// What calls change: the card's tables, the line master's exchange, and the requests last asked of the other masters. Two buffers are
// lent to each call.
#[derive(Drop)]
struct State {
    tables: Tables,
    exchange: Exchange,
    asked: Asked,
    buffers: Buffers,
}

// help
fn help(line: Line, answer: &mut Answer) -> Option<()> {
    line.end()?;
    answer.set(b"calls: ");
    answer.put_words(&CALLS);
    Some(())
}

impl State {
    fn new() -> State {
        State {
            tables: Tables {
                words: [0; WORDS],
                memory: [0; MEMORY],
                row: [0; ROW],
            },
            exchange: Exchange::new(),
            asked: Asked::new(),
            buffers: Buffers::new(),
        }
    }

    // The call, with the words after its name.
    fn run(&mut self, call: Call, words: Words, answer: &mut Answer) -> Option<()> {
        let State {
            tables,
            exchange,
            asked,
            buffers,
        } = self;
        match call {
            Call::Card(call) => card_calls::run(call, tables, words, buffers, answer),
            Call::Receiver(call) => receiver_calls::run(call, tables, words, buffers, answer),
            Call::Image(call) => image_calls::run(call, tables, words, buffers, answer),
            Call::Exchange(call) => exchange.run(call, words, buffers, answer),
            Call::Master(call) => asked.run(call, words, buffers, answer),
            Call::Tables(call) => table_calls::run(call, tables, words.line, answer),
            Call::Help => help(words.line, answer),
        }
    }

    // Answers a line: whether it asks anything.
    fn reply(&mut self, bytes: &[u8], answer: &mut Answer) -> bool
        requires { length bytes.now ≤ line_most }
    {
        match question::read_line(bytes) {
            Question::Nothing => return false,
            Question::Unknown => answer.set(b"error unknown call"),
            Question::Call(call, name, line) => {
                if self.run(call, Words { line }, answer).is_none() {
                    usage::tell_expected(answer, &CALLS, name);
                }
            }
        }
        true
    }
}

// Answers the line that has come, and holds the answer; nothing where it asks nothing.
fn tell(state: &mut State, input: &Input, answer: &mut Answer, held: &mut Held)
    requires { held.old.len ≤ answer_most }
    ensures { Longer held.old.len held.old.out held.new.len held.new.out }
{
    let asks = match input.line() {
        Some(line) => state.reply(line, answer),
        None => {
            answer.set(b"error line longer than 32768 bytes");
            true
        }
    };
    if asks {
        output::hold(held, answer);
    }
}

// Where the console stands: what is read, what calls change, the line of the last answer, and the answers that are held. Input is left to
// be taken, or no answer is held; and an answer more can be held.
#[derive(Drop)]
pub struct Console {
    input: Input,
    state: State,
    answer: Answer,
    held: Held,
    ghost standing: { Standing input.at input.end held.len },
}

impl Console {
    // Nothing read yet, and tables of zeros.
    pub fn new() -> Console {
        Console {
            input: Input::new(),
            state: State::new(),
            answer: Text::new(),
            held: Text::new(),
        }
    }

    // The card that the console starts with.
    pub fn start(&mut self)
        ensures { card_of self.new.state.tables.words self.new.state.tables.memory self.new.state.tables.row ≡ start_card }
    {
        start::start_tables(&mut self.state.tables);
    }

    // Reads on, and answers the line if it is whole. Nothing is held when the buffer is filled again.
    pub fn go_on(&mut self, stdin: Stdin, stdout: Stdout) -> Result<(), End> {
        self.input.next(stdin);
        let whole = self.input.came == Came::Line || self.input.came == Came::Last;
        if whole {
            tell(
                &mut self.state,
                &self.input,
                &mut self.answer,
                &mut self.held,
            );
        }
        let left = self.input.is_left();
        output::settle(&mut self.held, stdout, left)?;
        match self.input.came {
            Came::Failed => Err(End::NotRead),
            Came::Last => Err(End::Over),
            _ => Ok(()),
        }
    }
}
