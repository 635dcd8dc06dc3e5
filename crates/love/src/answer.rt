// What the card answers a Love frame. Document 01, "Love", last paragraph.
ghost use Rattle.std.specs.Prelude.{◌≡◌, [], ◌∷◌, ◌++◌, ◌≤◌, ◌<◌, ◌+◌, length, set};
ghost use Rattle.wire.specs.Buffer.{put, part};
ghost use Rattle.wire.specs.Sum.{sum_of};
ghost use Rattle.figures.specs.Figure.{pair_of};
ghost use Rattle.card.specs.Numbers.{answered};
ghost use Rattle.card.specs.Layout.{love_at, love_count, word_count, memory_size};
ghost use Rattle.card.specs.Probe.{reading_of};
ghost use Rattle.card.specs.Reply.{Wrote, GaveWords, room_least};
ghost use Rattle.love.specs.Form.{stx, ack, filter_at, data_at, tail};
ghost use Rattle.love.specs.Stages.{Sound};
ghost use Rattle.love.specs.Answer.{unit_of, error_reply, normal_reply, written_data, sign_of, value_data, status_data, probe_data, address_of, obeyed};

use crate::form::{Address, Love};
use crate::frame::{Order, Refusal};
use card::Outcome;
use card::layout::LOVE;
use card::numbers::ANSWERED;
use card::probe::{Reading, read_code};
use figures::ZERO;

// The mark of an error reply.
const ERROR: u8 = b'N';

// The data of a write's reply.
const WRITTEN: u8 = 0x00;

// The signs of a read.
const POSITIVE: u8 = 0x00;

pub const NEGATIVE: u8 = 0x01;

// How many figures a number has in a reply.
pub const FIGURES: usize = 4;

// The data for 00: how many characters stand before its figures; the first without and with a fault; and the fourth of a negative
// number. Any other is ZERO.
pub const STATUS_SIZE: usize = 4;

pub const FINE: u8 = b'C';

pub const FAULT: u8 = b'D';

pub const BELOW_ZERO: u8 = b'2';

// Writes what begins every reply, and every frame: STX, filter and address.
pub fn put_unit(out: &mut [u8], address: Address)
    requires { data_at ≤ length out.old }
    ensures { Wrote (stx ∷ unit_of address.value) out.old data_at out.new }
{
    out[0] = Love::STX;
    out[Love::FILTER] = address.filter();
    figures::put_pair(out, Love::ADDRESS, address.low());
}

// Writes what ends a normal reply whose data ends before index end: checksum and ACK. An index, and no struct round the lent buffer.
fn put_end(out: &mut [u8], end: usize) -> usize
    requires { (data_at ≤ end) × (end + tail ≤ length out.old) }
    ensures { (result ≡ end + tail) × (out.new ≡ put out.old end (pair_of (sum_of (part out.old filter_at end)) ++ (ack ∷ []))) }
{
    let sum = wire::sum(&out[Love::FILTER..end]);
    figures::put_pair(out, end, sum);
    out[end + Love::PAIR] = Love::ACK;
    end + Love::TAIL
}

// Writes an error reply. The buffer is the one that C lends, of any length from 38 on: so its room is a clause here and below, and no type.
pub fn put_error(out: &mut [u8], address: Address, code: u8) -> usize
    requires { room_least ≤ length out.old }
    ensures { Wrote (error_reply address.value code) out.old result out.new }
{
    put_unit(out, address);
    out[Love::DATA] = ERROR;
    figures::put_pair(out, Love::DATA + 1, code);
    let end = Love::DATA + 1 + Love::PAIR;
    out[end] = Love::ACK;
    end + 1
}

// Writes the reply to a write. This and the next two each have their own data between put_unit and put_end, which they share.
pub fn put_written(out: &mut [u8], address: Address) -> usize
    requires { room_least ≤ length out.old }
    ensures { Wrote (normal_reply address.value written_data) out.old result out.new }
{
    put_unit(out, address);
    figures::put_pair(out, Love::DATA, WRITTEN);
    put_end(out, Love::DATA + Love::PAIR)
}

// The sign of a word in the reply to a read.
fn sign_of(word: u32) -> u8
    ensures { result ≡ sign_of word }
{
    figures::by_sign(word, NEGATIVE, POSITIVE)
}

// Writes the reply to a read.
pub fn put_value(out: &mut [u8], address: Address, word: u32) -> usize
    requires { room_least ≤ length out.old }
    ensures { Wrote (normal_reply address.value (value_data word)) out.old result out.new }
{
    put_unit(out, address);
    figures::put_pair(out, Love::DATA, sign_of(word));
    let at = Love::DATA + Love::PAIR;
    figures::put_digits(out, at, FIGURES, figures::magnitude(word));
    put_end(out, at + FIGURES)
}

// Writes the reply to 00.
pub fn put_status(out: &mut [u8], address: Address, first: u8, fourth: u8, number: u32) -> usize
    requires { room_least ≤ length out.old }
    ensures { Wrote (normal_reply address.value (status_data first fourth number)) out.old result out.new }
{
    put_unit(out, address);
    out[Love::DATA] = first;
    out[Love::DATA + 1] = ZERO;
    out[Love::DATA + 2] = ZERO;
    out[Love::DATA + 3] = fourth;
    figures::put_digits(out, Love::DATA + STATUS_SIZE, FIGURES, number);
    put_end(out, Love::DATA + STATUS_SIZE + FIGURES)
}

// Answers 00 by a probe's code: the temperature is taken out of the reading, or the fault is answered. Document 01 names this form.
fn put_probe(out: &mut [u8], address: Address, code: u8) -> usize
    requires { room_least ≤ length out.old }
    ensures { Wrote (normal_reply address.value (probe_data (reading_of code))) out.old result out.new }
{
    let Reading::Temperature(tenths) = read_code(code) else {
        return put_status(out, address, FAULT, ZERO, 0);
    };
    let word = tenths.word();
    let fourth = figures::by_sign(word, BELOW_ZERO, ZERO);
    put_status(out, address, FINE, fourth, figures::magnitude(word))
}

// Stores a parameter.
fn store(words: &mut [u32], k: usize, word: u32)
    requires { (length words.old ≡ word_count) × (k < love_count) }
    ensures { words.new ≡ set words.old (love_at + k) word }
{
    words[LOVE + k] = word;
}

// What is told of an order that was carried out, by its reply's length.
fn answered(len: usize) -> Outcome
    ensures { (result.number ≡ answered) × (result.len ≡ len) }
{
    Outcome {
        number: ANSWERED,
        len,
    }
}

// Carries out what a frame asks of the unit at the address on the words of a fit card, or refuses it.
// One match: each case has its own reply. The number is one of document 01, as `nk_love` hands it to C.
pub fn obey(
    words: &mut [u32],
    memory: &[u8],
    address: Address,
    order: Result<Order, Refusal>,
    out: &mut [u8],
) -> Outcome
    requires { (Sound order × ((length words.old ≡ word_count) × (address.value ≡ address_of words.old))) × ((length memory.now ≡ memory_size) × (room_least ≤ length out.old)) }
    ensures { GaveWords (obeyed words.old memory.now order) out.old result.number result.len words.new out.new }
{
    match order {
        Err(Refusal::Silent(number)) => Outcome { number, len: 0 },
        Err(Refusal::Refused(number, code)) => {
            let len = put_error(out, address, code);
            Outcome { number, len }
        }
        Ok(Order::Probe) => answered(put_probe(out, address, memory[0])),
        Ok(Order::Read(k)) => answered(put_value(out, address, words[LOVE + k])),
        Ok(Order::Write(k, word)) => {
            store(words, k, word);
            answered(put_written(out, address))
        }
    }
}
