// What the master hears in a reply. The reply's length comes first: it decides which kinds are possible.
ghost use Rattle.std.specs.Prelude.{◌≡◌, ◌+◌, ℕ, ◌<◌, ◌≤◌, true, List, [], ◌∷◌, length};
ghost use Rattle.figures.specs.Figure.{decimal, all_figures};
ghost use Rattle.figures.specs.Decimal.{value_of};
ghost use Rattle.card.specs.Layout.{love_count};
ghost use Rattle.card.specs.Numbers.{frame_form};
ghost use Rattle.asking.specs.Hearing.{said_of, hearing_of, heard_by};
ghost use Rattle.asking.specs.Hearing.Hearing.{Done, Unread as Nothing};
ghost use Rattle.asking.specs.Against.{against};
ghost use Rattle.love.specs.Answer.{figure_count, written_data};
ghost use Rattle.love_master.specs.Request.{askable};
ghost use Rattle.love_master.specs.Heard.{check_back, check_size, is_code, figures_at, heard_data, heard_value, heard_status, heard};
ghost use Rattle.love_master.specs.Stages.{error_length, status_reply_length, heard_error, heard_temperature};
ghost use Rattle.love_master.specs.Writes.{Writes, WritesSome};

use crate::request::{Request, Task};
use asking::{Heard, Unread};
use card::layout::LOVE;
use card::{ROOM_LEAST, fitness};
use figures::ZERO;
use love::answer;
use love::answer::{BELOW_ZERO, FAULT, FIGURES, FINE, STATUS_SIZE};
use love::form::{Address, Love};

// The two checksum figures, and where they stand, counted from the end.
const CHECK_SIZE: usize = 2;

const CHECK_BACK: usize = 3;

// Where the code of an error reply ends, and where the sign of a read does.
const CODE_LAST: usize = Love::DATA + Love::PAIR;

const SIGN_LAST: usize = Love::DATA + 1;

// Where the sign of a reply to 00 stands.
const STATUS_SIGN: usize = Love::DATA + STATUS_SIZE - 1;

// The second character of the sign 01.
const NEGATIVE: u8 = b'1';

// How many bytes each reply has: STX, filter and address; N and code, or data and checksum; ACK.
const ERROR_LENGTH: usize = Love::DATA + 1 + Love::PAIR + 1;

const WRITTEN_LENGTH: usize = Love::DATA + Love::PAIR + Love::TAIL;

const VALUE_LENGTH: usize = Love::DATA + Love::PAIR + FIGURES + Love::TAIL;

const STATUS_LENGTH: usize = Love::DATA + STATUS_SIZE + FIGURES + Love::TAIL;

// The weights of four figures, and what the character 0 counts in all of them.
const THOUSAND: u32 = 1_000;

const HUNDRED: u32 = 100;

const TEN: u32 = 10;

const ZEROS: u32 = (THOUSAND + HUNDRED + TEN + 1) * ZERO as u32;

// The number that four figures are. Other characters need no test here: the reply is compared with the number's own figures. So no sheet is
// made, which would cost more than the rest of the reading.
fn number_of(a: u8, b: u8, c: u8, d: u8) -> u32
    ensures { all_figures decimal (a ∷ b ∷ c ∷ d ∷ []) ≡ true → result ≡ value_of (a ∷ b ∷ c ∷ d ∷ []) }
{
    let high = THOUSAND * a as u32 + HUNDRED * b as u32;
    let low = TEN * c as u32 + d as u32;
    (high + low).wrapping_sub(ZEROS)
}

// The number that four figures from an index on are.
fn number_at(reply: &[u8], at: usize) -> u32
    requires { at + figure_count ≤ length reply.now }
    ensures { all_figures decimal (figures_at reply.now at) ≡ true → result ≡ value_of (figures_at reply.now at) }
{
    number_of(reply[at], reply[at + 1], reply[at + 2], reply[at + 3])
}

// Whether this is one of the error codes. Tests joined by `|`, and no `matches!`: they come to one look into a word of bits.
fn is_code(code: u8) -> bool
    ensures { result ≡ is_code code }
{
    (code == Love::UNDEFINED_COMMAND)
        | ((code == Love::CHECKSUM_ERROR)
            | ((code == Love::ILLEGAL_CHARACTER)
                | ((code == Love::FIELD_ERROR) | (code == Love::OUT_OF_RANGE))))
}

// A reply as long as an error reply: the code is taken from its second character, and all of it, N too, is seen in the comparison.
// Its own scratch, and not `compared`: an error reply has no check characters, so all of it is compared at once.
fn hear_error(address: Address, reply: &[u8]) -> Result<Heard, Unread>
    requires { length reply.now ≡ error_length }
    ensures { hearing_of result ≡ heard_error address.value reply.now (Nothing frame_form) }
{
    let code = reply[CODE_LAST].wrapping_sub(ZERO);
    if !is_code(code) {
        return Err(Unread::Form);
    }
    let mut expected = [0u8; ROOM_LEAST];
    let len = answer::put_error(&mut expected, address, code);
    if !wire::is_same(reply, &expected[..len]) {
        return Err(Unread::Form);
    }
    Ok(Heard::RefusedFor(code))
}

// A reply against the normal one that is written, which says this. The array is cut to its length as soon as it is written, as above.
fn compared<W: FnOnce(&mut [u8]) -> usize>(
    reply: &[u8],
    write: W,
    said: Heard,
) -> Result<Heard, Unread>
    requires { WritesSome W.FnOnce write }
    ensures { (answer : List ℕ) → Writes W.FnOnce write answer → hearing_of result ≡ heard_by (against check_back check_size reply.now answer) (said_of said) }
{
    let mut expected = [0u8; ROOM_LEAST];
    let len = write(&mut expected);
    asking::hear_answer(reply, &expected[..len], CHECK_BACK, CHECK_SIZE, said)
}

// A reply to a write.
fn hear_written(address: Address, reply: &[u8]) -> Result<Heard, Unread>
    ensures { hearing_of result ≡ heard_data address.value reply.now written_data Done }
{
    if reply.len() != WRITTEN_LENGTH {
        return Err(Unread::Form);
    }
    compared(reply, |out| answer::put_written(out, address), Heard::Done)
}

// A reply to a read of the parameter at a place.
fn hear_value(address: Address, place: u32, reply: &[u8]) -> Result<Heard, Unread>
    requires { place < love_count }
    ensures { hearing_of result ≡ heard_value address.value place reply.now }
{
    if reply.len() != VALUE_LENGTH {
        return Err(Unread::Form);
    }
    let number = number_at(reply, Love::DATA + Love::PAIR);
    let word = figures::with_sign(reply[SIGN_LAST] == NEGATIVE, number);
    if !fitness::in_range(LOVE + place as usize, word) {
        return Err(Unread::Form);
    }
    compared(
        reply,
        |out| answer::put_value(out, address, word),
        Heard::Value(word),
    )
}

// A reply to 00 that shows no fault.
fn hear_temperature(address: Address, reply: &[u8]) -> Result<Heard, Unread>
    requires { length reply.now ≡ status_reply_length }
    ensures { hearing_of result ≡ heard_temperature address.value reply.now }
{
    let number = number_at(reply, Love::DATA + STATUS_SIZE);
    let word = figures::with_sign(reply[STATUS_SIGN] == BELOW_ZERO, number);
    if !asking::is_temperature(1, word) {
        return Err(Unread::Form);
    }
    let fourth = figures::by_sign(word, BELOW_ZERO, ZERO);
    let size = figures::magnitude(word);
    compared(
        reply,
        |out| answer::put_status(out, address, FINE, fourth, size),
        Heard::Value(word),
    )
}

// A reply to 00.
fn hear_status(address: Address, reply: &[u8]) -> Result<Heard, Unread>
    ensures { hearing_of result ≡ heard_status address.value reply.now }
{
    if reply.len() != STATUS_LENGTH {
        return Err(Unread::Form);
    }
    if reply[Love::DATA] == FAULT {
        return compared(
            reply,
            |out| answer::put_status(out, address, FAULT, ZERO, 0),
            Heard::Fault,
        );
    }
    hear_temperature(address, reply)
}

// What is heard in a reply to a request that 7 does not refuse.
pub(crate) fn hear(request: Request, reply: &[u8]) -> Result<Heard, Unread>
    requires { askable request ≡ true }
    ensures { hearing_of result ≡ heard request reply.now }
{
    let address = request.unit();
    if reply.len() == ERROR_LENGTH {
        return hear_error(address, reply);
    }
    match request.task {
        Task::Status => hear_status(address, reply),
        Task::Read(place) => hear_value(address, place, reply),
        Task::Write(_, _) => hear_written(address, reply),
    }
}
