// What a Love frame asks of the unit at an address. Document 01, "Love", in its order.
ghost use Rattle.std.specs.Prelude.{◌≡◌, ◌≤◌, ◌<◌, ◌+◌, length};
ghost use Rattle.figures.specs.Figure.{upper_hex, byte_or_none};
ghost use Rattle.card.specs.Layout.{love_count};
ghost use Rattle.love.specs.Form.{shortest, address_at, write_length};
ghost use Rattle.love.specs.Frame.{for_unit, checksum_right, byte_at, parameter_of, asked};
ghost use Rattle.love.specs.Stages.{place_of, minus_in, order_write, order_by, order_in, order_here};

use crate::form::{Address, Love};
use card::fitness::in_range;
use card::layout::LOVE;
use card::numbers::{CHECK_CHARACTER, COMMAND_UNKNOWN, FOREIGN_ADDRESS, FRAME_FORM, VALUE_OUTSIDE};
use figures::sheet::Sheet;
use figures::{HEX, UPPER_HEX};
use receiver::Frames;

// What a frame asks.
#[derive(Clone, Copy)]
pub enum Order {
    // Command 00: the probe and its status.
    Probe,
    // Read a parameter: its place among Love's four.
    Read(usize),
    // Write a parameter: its place and the word.
    Write(usize, u32),
}

// Why a frame is not carried out.
#[derive(Clone, Copy)]
pub enum Refusal {
    // The number returned; no bytes are sent.
    Silent(u8),
    // The number returned and the error code that is answered.
    Refused(u8, u8),
}

// The refusals that several tests share: no frame; data of a wrong length; no command; a write's figures or sign that are none.
const NO_FRAME: Refusal = Refusal::Silent(FRAME_FORM);

const NO_FIELDS: Refusal = Refusal::Refused(FRAME_FORM, Love::FIELD_ERROR);

const NO_COMMAND: Refusal = Refusal::Refused(COMMAND_UNKNOWN, Love::UNDEFINED_COMMAND);

const NO_VALUE: Refusal = Refusal::Refused(VALUE_OUTSIDE, Love::FIELD_ERROR);

// The byte that two characters are, both of them figures below limit.
fn byte_at(sheet: &Sheet, s: &[u8], i: usize, limit: u8) -> Option<u8>
    requires { i + 1 < length s.now }
    ensures { byte_or_none result ≡ byte_at limit s.now i }
{
    sheet.pair_byte(s[i], s[i + 1], limit)
}

// Whether a frame's filter and its address figures, read as unit, are those of the address.
fn is_for(address: Address, unit: u8, f: &[u8]) -> bool
    requires { (shortest ≤ length f.now) × (unit ≡ byte_at upper_hex f.now address_at) }
    ensures { result ≡ for_unit address.value f.now }
{
    (f[Love::FILTER] == address.filter()) & (unit == address.low())
}

// Whether a frame's two checksum figures are its checksum.
fn checksum_right(sheet: &Sheet, f: &[u8]) -> bool
    requires { shortest ≤ length f.now }
    ensures { result ≡ checksum_right f.now }
{
    let end = f.len() - Love::TAIL;
    let sum = wire::sum(&f[Love::ADDRESS..end]);
    byte_at(sheet, f, end, UPPER_HEX) == Some(sum)
}

// The parameter that a command's second half names: its place among Love's four.
#[tactic(auto, using(wire::proofs::Cases::cases), unfolding(crate::specs::Frame::parameter_of))]
fn parameter(low: Option<u8>) -> Option<usize>
    ensures { result ≡ place_of (parameter_of (byte_or_none low)) }
{
    match low {
        Some(Love::SP1) => Some(0),
        Some(Love::SP2) => Some(1),
        Some(Love::ALLO) => Some(2),
        Some(Love::ALHI) => Some(3),
        _ => None,
    }
}

// Whether a write's sign is minus; it is 00 or FF.
#[tactic(auto, using(wire::proofs::Cases::cases))]
fn is_minus(sign: Option<u8>) -> Option<bool>
    ensures { result ≡ minus_in (byte_or_none sign) }
{
    match sign {
        Some(Love::PLUS) => Some(false),
        Some(Love::MINUS) => Some(true),
        _ => None,
    }
}

// A write of parameter k: its figures, its sign, its range.
fn order_write(sheet: &Sheet, k: usize, characters: &[u8]) -> Result<Order, Refusal>
    requires { (k < love_count) × (length characters.now ≡ write_length) }
    ensures { result ≡ order_write k characters.now }
{
    let value = sheet
        .value(&characters[Love::VALUE..Love::SIGN])
        .ok_or(NO_VALUE)?;
    let sign = byte_at(sheet, characters, Love::SIGN, HEX);
    let negative = is_minus(sign).ok_or(NO_VALUE)?;
    let number = figures::with_sign(negative, value as u32);
    if !in_range(LOVE + k, number) {
        return Err(Refusal::Refused(VALUE_OUTSIDE, Love::OUT_OF_RANGE));
    }
    Ok(Order::Write(k, number))
}

// The command by its first half, for parameter k.
#[tactic(auto, using(wire::proofs::Cases::cases), unfolding(crate::specs::Stages::order_by))]
fn order_by(
    sheet: &Sheet,
    command: Option<u8>,
    k: usize,
    characters: &[u8],
) -> Result<Order, Refusal>
    requires { k < love_count }
    ensures { result ≡ order_by (byte_or_none command) k characters.now }
{
    match command {
        Some(Love::READ) => {
            if characters.len() != Love::READ_LENGTH {
                return Err(NO_FIELDS);
            }
            Ok(Order::Read(k))
        }
        Some(Love::WRITE) => {
            if characters.len() != Love::WRITE_LENGTH {
                return Err(NO_FIELDS);
            }
            order_write(sheet, k, characters)
        }
        _ => Err(NO_COMMAND),
    }
}

// The data: its length, and 00 or another command and the parameter that its second half names.
#[tactic(auto, using(wire::proofs::Cases::cases), unfolding(crate::specs::Stages::order_in))]
fn order_in(sheet: &Sheet, characters: &[u8]) -> Result<Order, Refusal>
    ensures { result ≡ order_in characters.now }
{
    let d = characters.len();
    if d < Love::DATA_LEAST {
        return Err(NO_FIELDS);
    }
    if Love::DATA_MOST < d {
        return Err(NO_FIELDS);
    }
    let command = byte_at(sheet, characters, Love::COMMAND, HEX);
    if command == Some(Love::STATUS) {
        if d != Love::STATUS_LENGTH {
            return Err(NO_FIELDS);
        }
        return Ok(Order::Probe);
    }
    if d < Love::COMMAND_LENGTH {
        return Err(NO_FIELDS);
    }
    let low = byte_at(sheet, characters, Love::PARAMETER, HEX);
    let k = parameter(low).ok_or(NO_COMMAND)?;
    order_by(sheet, command, k, characters)
}

// A frame of a right form: whose it is, its checksum, its characters. What is carried out has no characters but figures; so they are looked at
// only where the data are refused.
#[tactic(auto, using(wire::proofs::Cases::cases), unfolding(crate::specs::Stages::order_here))]
fn order_here(sheet: &Sheet, address: Address, unit: u8, f: &[u8]) -> Result<Order, Refusal>
    requires { (shortest ≤ length f.now) × (unit ≡ byte_at upper_hex f.now address_at) }
    ensures { result ≡ order_here address.value f.now }
{
    if !is_for(address, unit, f) {
        return Err(Refusal::Silent(FOREIGN_ADDRESS));
    }
    if !checksum_right(sheet, f) {
        return Err(Refusal::Refused(CHECK_CHARACTER, Love::CHECKSUM_ERROR));
    }
    let end = f.len() - Love::TAIL;
    let characters = &f[Love::DATA..end];
    let order = order_in(sheet, characters);
    if order.is_ok() {
        return order;
    }
    if !sheet.all_figures(characters, HEX) {
        return Err(Refusal::Refused(FRAME_FORM, Love::ILLEGAL_CHARACTER));
    }
    order
}

// What the frame f asks of the unit at an address.
#[tactic(auto, using(wire::proofs::Cases::cases), unfolding(crate::specs::Frame::asked))]
pub fn order_of(sheet: &Sheet, address: Address, f: &[u8]) -> Result<Order, Refusal>
    ensures { result ≡ asked address.value f.now }
{
    let n = f.len();
    if !Love::fits(n) {
        return Err(NO_FRAME);
    }
    if f[0] != Love::STX {
        return Err(NO_FRAME);
    }
    if f[n - 1] != Love::ETX {
        return Err(NO_FRAME);
    }
    let unit = byte_at(sheet, f, Love::ADDRESS, UPPER_HEX).ok_or(NO_FRAME)?;
    order_here(sheet, address, unit, f)
}
