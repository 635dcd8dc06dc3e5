// What the card answers to a LucidControl frame, and what its words become. Document 01, "LucidControl".
ghost use Rattle.std.specs.Prelude.{◌≡◌, ℕ, ◌+◌, ◌*◌, ◌≤◌, ◌<◌, List, [], ◌++◌, Ok, length, take, get_or, set};
ghost use Rattle.card.specs.Numbers.{answered};
ghost use Rattle.card.specs.Layout.{channels, demands_at, parameter_count, parameters_at, word_count, memory_size};
ghost use Rattle.card.specs.Reply.{room_least, GaveWords, Told};
ghost use Rattle.lucid.specs.Form.{data_at, channels_of, demand_size, hundredths_size, parameter_size, values_most, ok, little};
ghost use Rattle.lucid.specs.Stages.{Sound};
ghost use Rattle.lucid.specs.Value.{type_of};
ghost use Rattle.lucid.specs.Answer.{group, hundredths_of, temperature_in, value_of, told, refused, turned_down, read, demanded, stored, default_of, reset, obeyed, named};

use crate::form::{Lucid, ValueType};
use crate::frame::{Order, Refusal, pair};
use card::Outcome;
use card::fitness::{CYCLE_DEFAULT, FLOOR_DEFAULT};
use card::layout::{CHANNELS, DEMANDS, PARAMETERS, PARAMETERS_EACH, SAVED_PARAMETERS};
use card::numbers::{ANSWERED, PROBE_FAULT};
use card::probe::{Reading, Tenths, read_code};
use std::marker::Model;

// The most bytes of data that an answer has: four channels in type 41h.
const VALUES: usize = CHANNELS * Lucid::HUNDREDTHS_SIZE as usize;

const WORD_VALUES: u64 = 0x1_0000_0000;

const HUNDREDTHS_PER_TENTH: u64 = 10;

// Hundredths of a degree, in two's complement.
#[derive(Clone, Copy)]
struct Hundredths(u32);

impl Hundredths {
    // The only way from tenths to hundredths.
    pub fn of(t: Tenths) -> Hundredths
        ensures { result ≡ hundredths_of t }
    {
        let tenths = t.word() as u64;
        Hundredths((HUNDREDTHS_PER_TENTH * tenths % WORD_VALUES) as u32)
    }
}

// The bytes of the values that an answer gives, one after another.
#[derive(Drop)]
struct ValueBytes {
    bytes: [u8; VALUES],
    len: usize,
}

// Clauses see the bytes held.
impl Model for ValueBytes {
    ghost Value = { List ℕ };

    ghost view = { λ v. take v.len v.bytes };

    ghost invariant = { λ v. v.len ≤ values_most };
}

impl ValueBytes {
    fn new() -> ValueBytes
        ensures { result ≡ [] }
    {
        ValueBytes {
            bytes: [0; VALUES],
            len: 0,
        }
    }

    // Puts bytes behind those held so far.
    fn append(&mut self, bytes: &[u8])
        requires { length self.old + length bytes.now ≤ values_most }
        ensures { self.new ≡ self.old ++ bytes.now }
    {
        wire::copy(bytes, &mut self.bytes, self.len);
        self.len += bytes.len();
    }

    fn bytes(&self) -> &[u8]
        ensures { (result.now ≡ self.now) × (length result.now ≤ values_most) }
    {
        &self.bytes[..self.len]
    }
}

// Writes status, LEN and the bytes of values.
fn respond(out: &mut [u8], number: u8, status: u8, values: &[u8]) -> Outcome
    requires { (length values.now ≤ values_most) × (room_least ≤ length out.old) }
    ensures { Told (told number status values.now) out.old result.number result.len out.new }
{
    out[0] = status;
    out[1] = values.len() as u8;
    wire::copy(values, out, Lucid::HEAD);
    Outcome {
        number,
        len: Lucid::HEAD + values.len(),
    }
}

// A status with LEN 0.
fn tell(out: &mut [u8], number: u8, status: u8) -> Outcome
    requires { room_least ≤ length out.old }
    ensures { Told (refused number status) out.old result.number result.len out.new }
{
    respond(out, number, status, &[])
}

// A temperature in the type asked.
fn put_temperature(value_type: ValueType, t: Tenths, values: &mut ValueBytes)
    requires { length values.old + hundredths_size ≤ values_most }
    ensures { values.new ≡ values.old ++ temperature_in (type_of value_type) t }
{
    match value_type {
        ValueType::Tenths => values.append(&t.word().to_le_bytes()[..Lucid::TENTHS_SIZE as usize]),
        _ => values.append(&Hundredths::of(t).0.to_le_bytes()),
    }
}

// Answers the value of a parameter.
fn read_parameter(words: &[u32], place: u8, out: &mut [u8]) -> Outcome
    requires { (length words.now ≡ word_count) × ((place < parameter_count) × (room_least ≤ length out.old)) }
    ensures { Told (told answered ok (little parameter_size (get_or words.now (parameters_at + place) 0))) out.old result.number result.len out.new }
{
    let value = words[PARAMETERS + place as usize];
    respond(out, ANSWERED, Lucid::OK, &value.to_le_bytes())
}

// Sets a parameter, and its saved copy if that is asked.
fn store(words: &mut [u32], place: usize, saved: bool, value: u32)
    requires { (length words.old ≡ word_count) × (place < parameter_count) }
    ensures { words.new ≡ stored place saved value words.old }
{
    words[PARAMETERS + place] = value;
    if saved {
        words[SAVED_PARAMETERS + place] = value;
    }
}

// A parameter's default.
fn default_of(place: usize) -> u32
    ensures { result ≡ default_of place }
{
    if place % PARAMETERS_EACH == 0 {
        return CYCLE_DEFAULT;
    }
    FLOOR_DEFAULT
}

// Sets a parameter to its default, and its saved copy if that is asked.
fn reset(words: &mut [u32], place: usize, saved: bool)
    requires { (length words.old ≡ word_count) × (place < parameter_count) }
    ensures { words.new ≡ reset place saved words.old }
{
    store(words, place, saved, default_of(place));
}

// Sets the demand of a channel.
fn set_demand(words: &mut [u32], channel: usize, demand: u32)
    requires { (length words.old ≡ word_count) × (channel < channels) }
    ensures { words.new ≡ set words.old (demands_at + channel) demand }
{
    words[DEMANDS + channel] = demand;
}

// Whether a mask names a channel.
fn names(mask: u8, channel: usize) -> bool
    requires { channel < channels }
    ensures { result ≡ named channel mask }
{
    (mask >> channel) % 2 == 1
}

// Sets the demands of the channels that a mask names, lowest first.
// A place beside the loop: it goes on past a named channel alone, so that no chunk of the data goes with each channel.
fn set_demands(words: &mut [u32], mask: u8, f: &[u8])
    requires { (length words.old ≡ word_count) × (length f.now ≡ data_at + demand_size * length (channels_of mask)) }
    ensures { words.new ≡ demanded (channels_of mask) f.now data_at words.old }
{
    let mut at = Lucid::DATA;
    for channel in 0..CHANNELS {
        if names(mask, channel) {
            let demand = pair(f, at);
            set_demand(words, channel, demand);
            at += Lucid::DEMAND_SIZE as usize;
        }
    }
}

// Answers the values of the channels that a mask names, lowest first; or the fault, with nothing of the group in it.
fn read_channels(
    words: &[u32],
    memory: &[u8],
    value_type: ValueType,
    mask: u8,
    out: &mut [u8],
) -> Outcome
    requires { (length words.now ≡ word_count) × ((length memory.now ≡ memory_size) × (room_least ≤ length out.old)) }
    ensures { Told (read (group (value_of words.now memory.now (type_of value_type)) (channels_of mask))) out.old result.number result.len out.new }
{
    let mut values = ValueBytes::new();
    for channel in 0..CHANNELS {
        if names(mask, channel) {
            match value_type {
                ValueType::Demand => {
                    let demand = words[DEMANDS + channel];
                    values.append(&demand.to_le_bytes()[..Lucid::DEMAND_SIZE as usize]);
                }
                ValueType::Tenths | ValueType::Hundredths => {
                    let Reading::Temperature(t) = read_code(memory[channel]) else {
                        return respond(out, PROBE_FAULT, Lucid::ERR_EXECUTION, &[]);
                    };
                    put_temperature(value_type, t, &mut values);
                }
            }
        }
    }
    respond(out, ANSWERED, Lucid::OK, values.bytes())
}

// Answers a refusal.
pub(crate) fn turn_down(refusal: Refusal, out: &mut [u8]) -> Outcome
    requires { room_least ≤ length out.old }
    ensures { Told (turned_down refusal) out.old result.number result.len out.new }
{
    match refusal {
        Refusal::Silent(number) => Outcome { number, len: 0 },
        Refusal::Refused(number, status) => tell(out, number, status),
    }
}

// Carries out an order on the words of a fit card.
// The words, the memory and the buffer stay slices, here and above, each length a clause: the C interface lends them so (nk_lucid), and a
// struct round them would be made and taken apart in `lucid` alone.
pub(crate) fn obey(
    words: &mut [u32],
    memory: &[u8],
    f: &[u8],
    order: Order,
    out: &mut [u8],
) -> Outcome
    requires { ((length words.old ≡ word_count) × (length memory.now ≡ memory_size)) × (Sound f.now (Ok order) × (room_least ≤ length out.old)) }
    ensures { GaveWords (obeyed words.old memory.now f.now (Ok order)) out.old result.number result.len words.new out.new }
{
    match order {
        Order::GetIo(number, mask) => {
            read_channels(words, memory, ValueType::from(number), mask, out)
        }
        Order::SetIo(mask) => {
            set_demands(words, mask, f);
            tell(out, ANSWERED, Lucid::OK)
        }
        Order::GetParam(place) => read_parameter(words, place, out),
        Order::SetParam(place, saved, value) => {
            store(words, place as usize, saved, value);
            tell(out, ANSWERED, Lucid::OK)
        }
        Order::Reset(place, saved) => {
            reset(words, place as usize, saved);
            tell(out, ANSWERED, Lucid::OK)
        }
    }
}
