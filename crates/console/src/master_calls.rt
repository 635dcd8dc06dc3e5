// The calls of the masters of LECOM, Love and LucidControl: ask and reply.
ghost use Rattle.std.specs.Prelude.{◌≤◌, length};
ghost use Rattle.lines.specs.Lent.{room_most};

use crate::arguments::{Buffers, Words};
use crate::call::MasterCall;
use crate::{arguments, ask_lucid};
use asking::{Heard, Unread};
use card::Outcome;
use lines::line::Line;
use lines::{Answer, heard};
use receive::Dialect;
use tables::dialect;

// What a master asks: a request that is read from a line's words, makes a frame, and hears its reply.
pub trait Asks: Copy {
    fn read(line: &mut Line) -> Option<Self>;

    fn make(self, frame: &mut [u8]) -> Outcome
        ensures { result.len ≤ length frame.new };

    fn hear(self, reply: &[u8]) -> Result<Heard, Unread>;
}

// The request last asked in each dialect, if there is one yet.
#[derive(Clone, Copy)]
pub struct Asked {
    lecom: Option<lecom_master::request::Request>,
    love: Option<love_master::request::Request>,
    lucid: Option<ask_lucid::Asked>,
}

// The request of a line, kept if it can be read; its frame goes to frame.
fn ask_in<A: Asks>(
    asked: &mut Option<A>,
    mut line: Line,
    frame: &mut [u8],
    answer: &mut Answer,
) -> Option<()>
    requires { length frame.old ≤ room_most }
{
    let request = A::read(&mut line)?;
    line.end()?;
    *asked = Some(request);
    let made = request.make(frame);
    answer.tell(made.number, &frame[..made.len]);
    Some(())
}

// A reply to the request last asked.
fn reply_in<A: Asks>(asked: Option<A>, reply: &[u8], answer: &mut Answer) {
    match asked {
        Some(request) => heard::tell_heard(answer, request.hear(reply)),
        None => answer.set(b"error no request"),
    }
}

impl Asked {
    pub fn new() -> Asked {
        Asked {
            lecom: None,
            love: None,
            lucid: None,
        }
    }

    // ask DIALECT ROOM and a request
    fn ask(&mut self, mut line: Line, buffers: &mut Buffers, answer: &mut Answer) -> Option<()> {
        let dialect = dialect::read_dialect(&mut line)?;
        let room = arguments::room(&mut line)?;
        let frame = &mut buffers.second[..][..room];
        match dialect {
            Dialect::Datalink => None,
            Dialect::Lecom => ask_in(&mut self.lecom, line, frame, answer),
            Dialect::Love => ask_in(&mut self.love, line, frame, answer),
            Dialect::Lucid => ask_in(&mut self.lucid, line, frame, answer),
        }
    }

    // reply DIALECT BYTES
    fn reply(&self, words: Words, buffers: &mut Buffers, answer: &mut Answer) -> Option<()> {
        let mut line = words.line;
        let dialect = dialect::read_dialect(&mut line)?;
        let bytes = line.last_bytes(&mut buffers.first)?;
        match dialect {
            Dialect::Datalink => return None,
            Dialect::Lecom => reply_in(self.lecom, bytes, answer),
            Dialect::Love => reply_in(self.love, bytes, answer),
            Dialect::Lucid => reply_in(self.lucid, bytes, answer),
        }
        Some(())
    }

    // A call of a master, with the words after its name.
    pub fn run(
        &mut self,
        call: MasterCall,
        words: Words,
        buffers: &mut Buffers,
        answer: &mut Answer,
    ) -> Option<()> {
        match call {
            MasterCall::Ask => self.ask(words.line, buffers, answer),
            MasterCall::Reply => self.reply(words, buffers, answer),
        }
    }
}
