// What the master hears in a reply.
ghost use Rattle.std.specs.Prelude.{◌≡◌, [], ◌+◌, ◌≤◌, ◌<◌, length};
ghost use Rattle.wire.specs.Sum.{byte_values};
ghost use Rattle.card.specs.Layout.{channels, parameter_count};
ghost use Rattle.lucid.specs.Form.{tenths, size_of, number_at};
ghost use Rattle.asking.specs.Hearing.{hearing_of};
ghost use Rattle.lucid_master.specs.Request.{asking_of};
ghost use Rattle.lucid_master.specs.Heard.{short_values, is_status, shaped, word_of, answerable, heard_values, heard_parameter, heard_done, heard_command, heard};
ghost use Rattle.lucid_master.specs.Stages.{Headed, bare_status, value_count};

use crate::request::{Command, Request};
use asking::{Group, Heard, Unread, is_temperature};
use card::fitness::{DEMAND_MOST, in_range};
use card::layout::{CHANNELS, PARAMETERS};
use lucid::form::{Lucid, ValueType};
use lucid::frame;

// A tenth of a degree, in the units of types 40h and 41h.
const TENTHS: u32 = 1;

const HUNDREDTHS: u32 = 10;

// The status of a reply that is a status and LEN 0; OK of any other.
fn bare_status(reply: &[u8]) -> u8
    ensures { result ≡ bare_status reply.now }
{
    if reply.len() != Lucid::HEAD {
        return Lucid::OK;
    }
    if reply[1] != 0 {
        return Lucid::OK;
    }
    reply[0]
}

// Whether a status is one of a refusal, D0h apart.
fn is_status(status: u8) -> bool
    ensures { result ≡ is_status status }
{
    matches!(
        status,
        Lucid::NO_SUPPORT
            | Lucid::INV_LENGTH
            | Lucid::INV_P1
            | Lucid::INV_P2
            | Lucid::INV_VALUE
            | Lucid::INV_CHANNEL
            | Lucid::INV_PARAM
            | Lucid::INV_DATA
    )
}

// Whether a reply is OK, LEN and n bytes of data.
fn is_shaped(reply: &[u8], n: usize) -> bool
    requires { n < byte_values }
    ensures { result ≡ shaped reply.now n }
{
    if reply.len() != Lucid::HEAD + n {
        return false;
    }
    (reply[0] == Lucid::OK) & (reply[1] == n as u8)
}

// The word of two bytes of type 40h, which are signed.
fn short_word(n: u32) -> u32
    requires { n < short_values }
    ensures { result ≡ word_of tenths n }
{
    ((n as u16).cast_signed() as i32).cast_unsigned()
}

// The value of a type that stands at an index.
fn value_at(value_type: u8, reply: &[u8], at: usize) -> u32
    requires { at + size_of value_type ≤ length reply.now }
    ensures { result ≡ word_of value_type (number_at (size_of value_type) reply.now at) }
{
    match ValueType::from(value_type) {
        ValueType::Demand => frame::pair(reply, at),
        ValueType::Tenths => short_word(frame::pair(reply, at)),
        ValueType::Hundredths => frame::quad(reply, at),
    }
}

// Whether an answer of a type may have this value.
fn is_answerable(value_type: u8, value: u32) -> bool
    ensures { result ≡ answerable value_type value }
{
    match ValueType::from(value_type) {
        ValueType::Demand => value <= DEMAND_MOST,
        ValueType::Tenths => is_temperature(TENTHS, value),
        ValueType::Hundredths => is_temperature(HUNDREDTHS, value),
    }
}

// What is heard where n values of a type were asked for.
fn hear_values(value_type: u8, n: usize, reply: &[u8]) -> Result<Heard, Unread>
    requires { n ≤ channels }
    ensures { hearing_of result ≡ heard_values value_type n reply.now }
{
    let size = Lucid::size(value_type) as usize;
    if !is_shaped(reply, size * n) {
        return Err(Unread::Form);
    }
    let mut values = [0u32; CHANNELS];
    for i in 0..n {
        let value = value_at(value_type, reply, Lucid::HEAD + size * i);
        if !is_answerable(value_type, value) {
            return Err(Unread::Form);
        }
        values[i] = value;
    }
    Ok(Heard::Values(Group { count: n, values }))
}

// What is heard where a parameter was asked for.
fn hear_parameter(place: u8, reply: &[u8]) -> Result<Heard, Unread>
    requires { place < parameter_count }
    ensures { hearing_of result ≡ heard_parameter place reply.now }
{
    if !is_shaped(reply, Lucid::PARAMETER_SIZE as usize) {
        return Err(Unread::Form);
    }
    let value = frame::quad(reply, Lucid::HEAD);
    if !in_range(PARAMETERS + place as usize, value) {
        return Err(Unread::Form);
    }
    Ok(Heard::Value(value))
}

// What is heard where something was set.
fn hear_done(reply: &[u8]) -> Result<Heard, Unread>
    ensures { hearing_of result ≡ heard_done reply.now }
{
    if !is_shaped(reply, 0) {
        return Err(Unread::Form);
    }
    Ok(Heard::Done)
}

// How many values a request to read asks for, one for any other. Apart, so that `hear_values` is called in one place, and its values are not
// handed on in memory.
fn value_count(request: Request) -> usize
    requires { Headed request }
    ensures { (result ≡ value_count request.command request.p1) × (result ≤ channels) }
{
    match request.command {
        Command::GetIoGroup => frame::count(request.p1 as u8) as usize,
        _ => 1,
    }
}

// What is heard in a reply that refuses nothing.
fn hear_answer(request: Request, reply: &[u8]) -> Result<Heard, Unread>
    requires { Headed request }
    ensures { hearing_of result ≡ heard_command request.command request reply.now }
{
    match request.command {
        Command::GetIo | Command::GetIoGroup => {
            hear_values(request.p2 as u8, value_count(request), reply)
        }
        Command::GetParam => {
            hear_parameter(frame::place_of(request.p1 as u8, request.address), reply)
        }
        Command::SetIo | Command::SetIoGroup | Command::SetParam | Command::Reset => {
            hear_done(reply)
        }
    }
}

// What is heard in a reply to a request that 7 does not refuse, whatever its values.
pub(crate) fn hear(request: Request, reply: &[u8]) -> Result<Heard, Unread>
    requires { Headed request }
    ensures { hearing_of result ≡ heard (asking_of request []) reply.now }
{
    let status = bare_status(reply);
    if status == Lucid::ERR_EXECUTION {
        return Ok(Heard::Fault);
    }
    if is_status(status) {
        return Ok(Heard::RefusedFor(status));
    }
    hear_answer(request, reply)
}
