// What the master hears in a reply.
ghost use Rattle.std.specs.Prelude.{◌≡◌, true, [], ◌∷◌, ℕ, ◌+◌, ◌≤◌, ◌<◌, length, Some};
ghost use Rattle.wire.specs.Choose.{choose};
ghost use Rattle.wire.specs.Buffer.{same};
ghost use Rattle.wire.specs.Sum.{byte_values};
ghost use Rattle.card.specs.Fitness.{lecom_most};
ghost use Rattle.card.specs.Numbers.{frame_form};
ghost use Rattle.lecom.specs.Form.{ack, standard_hex, extended_hex};
ghost use Rattle.asking.specs.Hearing.{hearing_of};
ghost use Rattle.asking.specs.Hearing.Hearing.{Done, Unread as Unheard};
ghost use Rattle.lecom_master.specs.Request.{askable};
ghost use Rattle.lecom_master.specs.Heard.{answerable, heard_value, data_read, unknown_code, is_refusal, heard};
ghost use Rattle.lecom_master.specs.Stages.{code_refused, standard_unknown, extended_unknown};

use crate::request::{Request, Task};
use crate::{frames, request};
use asking::{Heard, Unread};
use card::fitness::REGISTER_MOST;
use figures::sheet::Sheet;
use lecom::form::{Lecom, Named};
use lecom::{form, frame};

// The BCC: how many bytes, counted from the end.
const CHECK_SIZE: usize = 1;

// Where the data of a read's answer begin: behind STX and two code characters.
const DATA_AT: usize = 1 + Lecom::STANDARD_HEX;

// The longest text of a word: a minus and ten figures.
const TEXT_LONGEST: usize = 11;

// The shortest and the longest answer to a read.
const ANSWER_SHORTEST: usize = DATA_AT + Lecom::DATA_LEAST + Lecom::CLOSING;

const ANSWER_LONGEST: usize = DATA_AT + TEXT_LONGEST + Lecom::CLOSING;

// The shortest reply to an unknown code.
const UNKNOWN_SHORTEST: usize = 1 + Lecom::STANDARD_HEX + 1;

// Whether a read of what is named may be answered by a value of six figures at most.
fn is_answerable(named: Named, value: u32) -> bool
    ensures { result ≡ answerable (Some named) value }
{
    match named {
        Named::Register(_) => true,
        Named::Probe(_) => asking::is_temperature(1, value),
        Named::Activate | Named::Store => value == 0,
    }
}

// What is heard in a reply whose data are this value: the answer is written again, into an array as memory is fixed, and compared.
fn hear_value(code: u32, reply: &[u8], value: u32) -> Result<Heard, Unread>
    requires { code < byte_values }
    ensures { hearing_of result ≡ heard_value code reply.now (Some value) }
{
    let Some(named) = form::named_by(code) else {
        return Err(Unread::Form);
    };
    if !is_answerable(named, value) {
        return Err(Unread::Form);
    }
    let mut answer = [0u8; ANSWER_LONGEST];
    answer[0] = Lecom::STX;
    let len = frames::put_checked(&mut answer, 1, code, value);
    asking::hear_answer(
        reply,
        &answer[..len],
        CHECK_SIZE,
        CHECK_SIZE,
        Heard::Value(value),
    )
}

// What is heard in a reply to a read.
fn hear_read(code: u32, reply: &[u8]) -> Result<Heard, Unread>
    requires { code < byte_values }
    ensures { hearing_of result ≡ heard_value code reply.now (data_read reply.now) }
{
    let n = reply.len();
    if n < ANSWER_SHORTEST {
        return Err(Unread::Form);
    }
    if ANSWER_LONGEST < n {
        return Err(Unread::Form);
    }
    let end = n - Lecom::CLOSING;
    let sheet = figures::sheet::take();
    let Some(value) = sheet.parse(&reply[DATA_AT..end], REGISTER_MOST) else {
        return Err(Unread::Form);
    };
    hear_value(code, reply, value)
}

// What is heard in a reply to a write. By length and byte: in an arm of the pattern `[Lecom::ACK]` the proof is told the length alone.
#[tactic(auto, using(crate::proofs::Hearings::other_byte))]
fn hear_write(reply: &[u8]) -> Result<Heard, Unread>
    ensures { hearing_of result ≡ choose (same reply.now (ack ∷ [])) Done (Unheard frame_form) }
{
    if reply.len() != 1 {
        return Err(Unread::Form);
    }
    if reply[0] != Lecom::ACK {
        return Err(Unread::Form);
    }
    Ok(Heard::Done)
}

// Whether two characters are a standard code that names nothing.
fn is_standard_unknown(sheet: &Sheet, code: &[u8]) -> bool
    requires { standard_hex ≤ length code.now }
    ensures { result ≡ standard_unknown code.now }
{
    let Some(number) = frame::pair_in(sheet, code, 0) else {
        return false;
    };
    !form::is_known(form::named_by(number as u32))
}

// Whether seven characters are an extended code that names nothing: by its number, or since its subcode is not 00.
fn is_extended_unknown(sheet: &Sheet, code: &[u8]) -> bool
    requires { 1 + extended_hex ≤ length code.now }
    ensures { result ≡ extended_unknown code.now }
{
    if code[0] != Lecom::EXTENDED {
        return false;
    }
    let Some(first) = frame::pair_in(sheet, code, 1) else {
        return false;
    };
    let Some(second) = frame::pair_in(sheet, code, 1 + Lecom::STANDARD) else {
        return false;
    };
    let Some(subcode) = frame::pair_in(sheet, code, 1 + Lecom::SUBCODE) else {
        return false;
    };
    if subcode != 0 {
        return true;
    }
    !form::is_known(form::named_by(u16::from_be_bytes([first, second]) as u32))
}

// Whether a unit, whatever its address, refuses a read of these code characters for its code. The card's judge is not asked: with a second
// caller the compiler would no longer put it into the card's entry.
fn is_refused_code(code: &[u8]) -> bool
    ensures { (address : ℕ) → address ≤ lecom_most → result ≡ code_refused address code.now }
{
    let sheet = figures::sheet::take();
    if code.len() == Lecom::STANDARD_HEX {
        return is_standard_unknown(&sheet, code);
    }
    if code.len() == 1 + Lecom::EXTENDED_HEX {
        return is_extended_unknown(&sheet, code);
    }
    false
}

// Whether a reply says that a code is unknown: STX, a code that a unit refuses, EOT.
fn is_unknown_code(reply: &[u8]) -> bool
    ensures { (address : ℕ) → address ≤ lecom_most → result ≡ unknown_code address reply.now }
{
    let n = reply.len();
    if n < UNKNOWN_SHORTEST {
        return false;
    }
    if reply[n - 1] != Lecom::EOT {
        return false;
    }
    if reply[0] != Lecom::STX {
        return false;
    }
    is_refused_code(&reply[1..n - 1])
}

// Whether a reply is a refusal from a unit, whatever its address. By length and byte, as in `hear_write`.
fn is_refusal(reply: &[u8]) -> bool
    ensures { (address : ℕ) → address ≤ lecom_most → result ≡ is_refusal address reply.now }
{
    if reply.len() == 1 {
        return reply[0] == Lecom::NAK;
    }
    is_unknown_code(reply)
}

// What is heard in a reply to a request that 7 does not refuse.
pub(crate) fn hear(request: Request, reply: &[u8]) -> Result<Heard, Unread>
    requires { askable request ≡ true }
    ensures { hearing_of result ≡ heard request reply.now }
{
    if request::is_collective(request.address) {
        return Err(Unread::Form);
    }
    if is_refusal(reply) {
        return Ok(Heard::Refused);
    }
    match request.task {
        Task::Read(code) => hear_read(code, reply),
        Task::Write(_, _) => hear_write(reply),
    }
}
