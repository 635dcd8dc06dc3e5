// What the card does with a LECOM order, and what it sends.
ghost use Rattle.std.specs.Prelude.{◌≡◌, [], ◌∷◌, ◌≤◌, length, Some, Ok, Err};
ghost use Rattle.card.specs.Numbers.{range_unknown};
ghost use Rattle.card.specs.Layout.{word_count, memory_size};
ghost use Rattle.card.specs.Probe.{reading_of};
ghost use Rattle.card.specs.Reply.{Wrote, GaveWords, room_least, Told};
ghost use Rattle.lecom.specs.Form.{stx, ack};
ghost use Rattle.lecom.specs.Frame.{collective, code_at, code_end, code_of};
ghost use Rattle.lecom.specs.Stages.{Has, Sound};
ghost use Rattle.lecom.specs.Answer.{value_bytes, unknown_bytes, refusal_bytes, done_by, refused_by, declined, probe_answer, read_answer, written, obeyed};

use crate::form::{Lecom, Named};
use crate::frame;
use crate::frame::{Frame, Order, Refusal};
use card::layout::{BUFFER, OPERATIONAL, REGISTERS, SAVED_REGISTERS};
use card::numbers::{ANSWERED, DONE, PROBE_FAULT, RANGE_UNKNOWN};
use card::probe::Reading;
use card::{Outcome, probe};

// Writes STX and the code, which stands in the frame from at to end.
fn put_code_at(f: Frame, at: usize, end: usize, out: &mut [u8]) -> usize
    requires { ((at ≡ code_at f.bytes.now) × (end ≡ code_end f.bytes.now)) × ((code_end f.bytes.now ≤ length f.bytes.now) × (room_least ≤ length out.old)) }
    ensures { Wrote (stx ∷ code_of f.entry.bytes.now) out.old result out.new }
{
    out[0] = Lecom::STX;
    wire::copy(&f.bytes[at..end], out, 1);
    1 + (end - at)
}

// Writes STX and the code as received. Each of its two lengths by itself: the compiler then copies without a loop.
fn put_code(f: Frame, out: &mut [u8]) -> usize
    requires { (code_end f.bytes.now ≤ length f.bytes.now) × (room_least ≤ length out.old) }
    ensures { Wrote (stx ∷ code_of f.entry.bytes.now) out.old result out.new }
{
    let at = f.outline.start;
    if f.outline.extended {
        return put_code_at(f, at, at + 1 + Lecom::EXTENDED_HEX, out);
    }
    put_code_at(f, at, at + Lecom::STANDARD_HEX, out)
}

// Writes the answer to a read of an unknown code.
fn put_unknown(f: Frame, out: &mut [u8]) -> usize
    requires { (code_end f.bytes.now ≤ length f.bytes.now) × (room_least ≤ length out.old) }
    ensures { Wrote (unknown_bytes f.entry.bytes.now) out.old result out.new }
{
    let at = put_code(f, out);
    out[at] = Lecom::EOT;
    at + 1
}

// Writes the answer to a read that found a value.
fn put_value(f: Frame, out: &mut [u8], value: u32) -> usize
    requires { (code_end f.bytes.now ≤ length f.bytes.now) × (room_least ≤ length out.old) }
    ensures { Wrote (value_bytes f.entry.bytes.now value) out.old result out.new }
{
    let end = put_code(f, out);
    frame::put_data(out, 1, end, value)
}

// Writes what is answered to a refused frame.
fn put_refusal(f: Frame, out: &mut [u8], number: u8) -> usize
    requires { (number ≡ range_unknown → code_end f.bytes.now ≤ length f.bytes.now) × (room_least ≤ length out.old) }
    ensures { Wrote (refusal_bytes f.entry.bytes.now number) out.old result out.new }
{
    if (number == RANGE_UNKNOWN) & !f.outline.write {
        return put_unknown(f, out);
    }
    out[0] = Lecom::NAK;
    1
}

// Refuses a frame.
fn refuse(f: Frame, out: &mut [u8], number: u8) -> Outcome
    requires { (number ≡ range_unknown → code_end f.bytes.now ≤ length f.bytes.now) × (room_least ≤ length out.old) }
    ensures { Told (refused_by f.entry.bytes.now number) out.old result.number result.len out.new }
{
    if f.outline.collective {
        return Outcome { number, len: 0 };
    }
    let len = put_refusal(f, out, number);
    Outcome { number, len }
}

// Answers a read by a value.
fn tell(f: Frame, out: &mut [u8], value: u32) -> Outcome
    requires { (code_end f.bytes.now ≤ length f.bytes.now) × (room_least ≤ length out.old) }
    ensures { Told (done_by (collective f.entry.bytes.now) (value_bytes f.entry.bytes.now value)) out.old result.number result.len out.new }
{
    if f.outline.collective {
        return Outcome {
            number: DONE,
            len: 0,
        };
    }
    let len = put_value(f, out, value);
    Outcome {
        number: ANSWERED,
        len,
    }
}

// Answers a write that was carried out; quiet: to a collective address.
fn acknowledge(quiet: bool, out: &mut [u8]) -> Outcome
    requires { room_least ≤ length out.old }
    ensures { Told (done_by quiet (ack ∷ [])) out.old result.number result.len out.new }
{
    if quiet {
        return Outcome {
            number: DONE,
            len: 0,
        };
    }
    out[0] = Lecom::ACK;
    Outcome {
        number: ANSWERED,
        len: 1,
    }
}

// Answers a read of a probe: a temperature is taken out of the reading, or the fault is answered.
fn read_probe(f: Frame, out: &mut [u8], code: u8) -> Outcome
    requires { (code_end f.bytes.now ≤ length f.bytes.now) × (room_least ≤ length out.old) }
    ensures { Told (probe_answer f.entry.bytes.now (reading_of code)) out.old result.number result.len out.new }
{
    let Reading::Temperature(tenths) = probe::read_code(code) else {
        return refuse(f, out, PROBE_FAULT);
    };
    tell(f, out, tenths.word())
}

// Answers a read.
fn read(words: &[u32], memory: &[u8], f: Frame, out: &mut [u8], named: Named) -> Outcome
    requires { ((code_end f.bytes.now ≤ length f.bytes.now) × (room_least ≤ length out.old)) × (Has (Some named) × ((length words.now ≡ word_count) × (length memory.now ≡ memory_size))) }
    ensures { Told (read_answer words.now memory.now f.entry.bytes.now named) out.old result.number result.len out.new }
{
    match named {
        Named::Register(k) => tell(f, out, words[OPERATIONAL + k as usize]),
        Named::Probe(channel) => read_probe(f, out, memory[channel as usize]),
        Named::Activate | Named::Store => tell(f, out, 0),
    }
}

// Carries out a write of a value that what is named takes; a probe takes none.
fn write(words: &mut [u32], named: Named, value: u32)
    requires { Has (Some named) × (length words.old ≡ word_count) }
    ensures { words.new ≡ written words.old named value }
{
    match named {
        Named::Register(k) => {
            words[BUFFER + k as usize] = value;
        }
        Named::Probe(_) => {}
        Named::Activate => {
            if value != 0 {
                wire::move_words(words, BUFFER, OPERATIONAL, REGISTERS);
            }
        }
        Named::Store => {
            if value != 0 {
                wire::move_words(words, OPERATIONAL, SAVED_REGISTERS, REGISTERS);
            }
        }
    }
}

// Answers a frame that asks nothing. The refusal's number is the outcome's, as `nk_lecom` hands it to C.
pub fn decline(f: Frame, out: &mut [u8], refusal: Refusal) -> Outcome
    requires { Sound f.bytes.now (Err refusal) × (room_least ≤ length out.old) }
    ensures { Told (declined f.entry.bytes.now refusal) out.old result.number result.len out.new }
{
    match refusal {
        Refusal::Silent(number) => Outcome { number, len: 0 },
        Refusal::Refused(number) => refuse(f, out, number),
    }
}

// Carries out an order of a frame on a fit card.
pub fn obey(words: &mut [u32], memory: &[u8], f: Frame, out: &mut [u8], order: Order) -> Outcome
    requires { (((length words.old ≡ word_count) × (length memory.now ≡ memory_size)) × (room_least ≤ length out.old)) × Sound f.bytes.now (Ok order) }
    ensures { GaveWords (obeyed words.old memory.now f.entry.bytes.now (Ok order)) out.old result.number result.len words.new out.new }
{
    match order {
        Order::Read(named) => read(words, memory, f, out, named),
        Order::Write(named, value) => {
            write(words, named, value);
            acknowledge(f.outline.collective, out)
        }
    }
}
