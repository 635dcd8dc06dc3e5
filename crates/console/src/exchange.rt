// The line master that the console keeps: request and step.
ghost use Rattle.std.specs.Prelude.{◌≡◌, ◌+◌, ◌≤◌, length, IfSome};
ghost use Rattle.lines.specs.Lent.{line_most, bytes_most, room_most};
ghost use Rattle.lines.specs.Text.{Put};
ghost use Rattle.console.specs.Stepped.{verdict_most, verdict_of, stepped, stepped_most};

use crate::arguments;
use crate::arguments::{Buffers, Words};
use crate::call::ExchangeCall;
use lines::line::Line;
use lines::text::Text;
use lines::{Answer, BYTES_MOST, TEXT_MOST, line};
use master::request::{Kind, Request};
use master::{Phase, StepOutcome, Verdict};

// A request, and how far its exchange went.
#[derive(Clone, Copy)]
struct Asked {
    request: Request,
    phase: Phase,
}

// The request, if there is one yet, with the bytes asked for, or the masks, and the states.
#[derive(Clone, Copy)]
pub struct Exchange {
    asked: Option<Asked>,
    sent: Text<BYTES_MOST>,
    states: Text<BYTES_MOST>,
}

// change or bits
fn kind_of(word: &[u8]) -> Option<Kind> {
    match word {
        b"change" => Some(Kind::Bytes),
        b"bits" => Some(Kind::Bits),
        _ => None,
    }
}

// What stands after BYTES, or MASKS: nothing, or / STATES.
fn read_states<'b>(line: &mut Line, kind: Kind, to: &'b mut [u8; BYTES_MOST]) -> Option<&'b [u8]>
    requires { length line.old.bytes.now ≤ line_most }
    ensures { IfSome result (λ states. length states.now ≤ bytes_most) }
{
    match kind {
        Kind::Bytes => {
            line.end()?;
            Some(&to[..0])
        }
        Kind::Bits => {
            if !line::is_word(line.word(), b"/") {
                return None;
            }
            line.last_bytes(to)
        }
    }
}

// What the master says, after a space.
fn put_verdict(answer: &mut Answer, verdict: Verdict)
    requires { answer.old.len + verdict_most ≤ TEXT_MOST }
    ensures { Put verdict_most answer.old.len (verdict_of verdict) answer.old.out answer.new.len answer.new.out }
{
    match verdict {
        Verdict::Open => answer.put_words(b" open"),
        Verdict::Done => answer.put_words(b" done"),
        Verdict::Unknown => answer.put_words(b" unknown"),
    }
}

// The line of a master's step, with its frame.
fn tell_step(answer: &mut Answer, number: u8, verdict: Verdict, frame: &[u8])
    requires { length frame.now ≤ room_most }
    ensures { Put stepped_most 0 (stepped number verdict frame.now) answer.old.out answer.new.len answer.new.out }
{
    answer.clear();
    answer.put_number(number as u32);
    put_verdict(answer, verdict);
    answer.put_bytes(frame);
}

impl Exchange {
    // No request yet.
    pub fn new() -> Exchange {
        Exchange {
            asked: None,
            sent: Text::new(),
            states: Text::new(),
        }
    }

    // request change IA ADDRESS BYTES or request bits IA ADDRESS MASKS / STATES. A line that cannot be read leaves the kept ones as they
    // are.
    fn request(&mut self, words: Words, buffers: &mut Buffers, answer: &mut Answer) -> Option<()> {
        let mut line = words.line;
        let kind = kind_of(line.word())?;
        let ia = line.number(u32::MAX)?;
        let address = line.number(u32::MAX)?;
        let sent = line.bytes(&mut buffers.first);
        let states = read_states(&mut line, kind, &mut buffers.second)?;
        self.sent.set(sent);
        self.states.set(states);
        self.asked = Some(Asked {
            request: Request { kind, ia, address },
            phase: Phase::New,
        });
        answer.set(b"ok");
        Some(())
    }

    // The master's step, with what was heard and the room for a frame.
    fn go(&self, asked: Asked, heard: &[u8], frame: &mut [u8]) -> StepOutcome
        ensures { result.len ≤ length frame.new }
    {
        let Asked { request, phase } = asked;
        master::step(
            phase,
            request,
            self.sent.text(),
            self.states.text(),
            heard,
            frame,
        )
    }

    // step ROOM BYTES
    fn step(&mut self, words: Words, buffers: &mut Buffers, answer: &mut Answer) -> Option<()>
        ensures { (self.new.sent ≡ self.old.sent) × (self.new.states ≡ self.old.states) }
    {
        let mut line = words.line;
        let room = arguments::room(&mut line)?;
        let heard = line.last_bytes(&mut buffers.first)?;
        let Some(asked) = self.asked else {
            answer.set(b"error no request");
            return Some(());
        };
        let frame = &mut buffers.second[..][..room];
        let went = self.go(asked, heard, frame);
        let phase = went.phase;
        tell_step(answer, went.number, master::says(phase), &frame[..went.len]);
        let request = asked.request;
        self.asked = Some(Asked { request, phase });
        Some(())
    }

    // A call of the line master, with the words after its name.
    pub fn run(
        &mut self,
        call: ExchangeCall,
        words: Words,
        buffers: &mut Buffers,
        answer: &mut Answer,
    ) -> Option<()> {
        match call {
            ExchangeCall::Request => self.request(words, buffers, answer),
            ExchangeCall::Step => self.step(words, buffers, answer),
        }
    }
}
