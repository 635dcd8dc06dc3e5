// Number 12: whether lent tables keep to document 01, "What the card holds".
ghost use Rattle.std.specs.Prelude.{◌≡◌, ◌*◌, ◌≤◌, length};
ghost use Rattle.wire.specs.Word.{minus};
ghost use Rattle.card.specs.Layout.{card_of, parameter_count, registers, word_count};
ghost use Rattle.card.specs.Fitness.{in_span, in_range, lecom_right, love_right, register_most, fit_words, fit};
ghost use Rattle.card.specs.Scans.{is_beyond, all_in, fit_addresses, fit_parameters};

use crate::change::fit_pending;
use crate::layout::{
    BUFFER, DEMANDS, IA, LECOM_ADDRESS, LOVE, LOVE_ADDRESS, MEMORY, PARAMETERS, PARAMETERS_EACH,
    REGISTERS, ROW, WORDS,
};

// Addresses. A LECOM address has two decimal figures, neither of them zero; the low two hex figures of a Love address are not 00.
pub const IA_MOST: u32 = 31;

pub const LECOM_LEAST: u32 = 11;

pub const LECOM_MOST: u32 = 99;

pub const FIGURE_VALUES: u32 = 10;

pub const LOVE_ADDRESS_MOST: u32 = 0x3FF;

pub const LOVE_HUNDRED: u32 = 0x100;

// Ranges. A lower end above the upper one is a negative number in two's complement.
pub const LOVE_DEPTH: u32 = 400;

pub const LOVE_LEAST: u32 = u32::MAX - LOVE_DEPTH + 1;

pub const LOVE_MOST: u32 = 870;

pub const DEMAND_MOST: u32 = 65_535;

pub const CYCLE_LEAST: u32 = 1_000;

pub const CYCLE_MOST: u32 = 60_000_000;

pub const CYCLE_DEFAULT: u32 = 1_000_000;

pub const FLOOR_MOST: u32 = 65_535;

pub const FLOOR_DEFAULT: u32 = 0;

pub const REGISTER_MOST: u32 = 999_999;

pub const REGISTER_LEAST: u32 = u32::MAX - REGISTER_MOST + 1;

// Half the values of a word.
const HALF: u32 = 0x8000_0000;

// Whether x lies from lo to hi. Two numbers and no range type: lo may be above hi, and others count from the ends by themselves.
pub fn in_span(x: u32, lo: u32, hi: u32) -> bool
    ensures { result ≡ in_span lo hi x }
{
    if lo <= hi {
        return (lo <= x) & (x <= hi);
    }
    (lo <= x) | (x <= hi)
}

// Whether a word is beyond `most`, both counted from the word −base and shifted by HALF: machines compare signed words faster.
fn is_beyond(x: u32, base: u32, most: u32) -> bool
    ensures { result ≡ is_beyond base most x }
{
    let shifted = x.wrapping_add(base);
    most.wrapping_add(HALF) < shifted.wrapping_add(HALF)
}

// Whether every word of s lies from lo to hi. No early exit: so the loop runs on several words at once.
pub fn all_in(s: &[u32], lo: u32, hi: u32) -> bool
    ensures { result ≡ all_in lo hi s.now }
{
    let base = HALF.wrapping_sub(lo);
    let most = hi.wrapping_sub(lo).wrapping_add(HALF);
    let mut bad = false;
    for x in s {
        let here = is_beyond(*x, base, most);
        bad = bad | here;
    }
    !bad
}

// Whether a LECOM address is in its range.
pub fn lecom_right(lecom: u32) -> bool
    ensures { result ≡ lecom_right lecom }
{
    (LECOM_LEAST <= lecom) & ((lecom <= LECOM_MOST) & (lecom % FIGURE_VALUES != 0))
}

// Whether a Love address is in its range.
pub fn love_right(love: u32) -> bool
    ensures { result ≡ love_right love }
{
    (love <= LOVE_ADDRESS_MOST) & (love % LOVE_HUNDRED != 0)
}

// Whether x is in the range of a word of the card.
pub fn in_range(word: usize, x: u32) -> bool
    ensures { result ≡ in_range word x }
{
    if word == IA {
        return x <= IA_MOST;
    }
    if word == LECOM_ADDRESS {
        return lecom_right(x);
    }
    if word == LOVE_ADDRESS {
        return love_right(x);
    }
    if word < DEMANDS {
        return in_span(x, LOVE_LEAST, LOVE_MOST);
    }
    if word < PARAMETERS {
        return in_span(x, 0, DEMAND_MOST);
    }
    if BUFFER <= word {
        return in_span(x, REGISTER_LEAST, REGISTER_MOST);
    }
    if (word - PARAMETERS) % PARAMETERS_EACH == 0 {
        return in_span(x, CYCLE_LEAST, CYCLE_MOST);
    }
    in_span(x, 0, FLOOR_MOST)
}

// Whether the three addresses are in their ranges.
fn fit_addresses(ia: u32, lecom: u32, love: u32) -> bool
    ensures { result ≡ fit_addresses ia lecom love }
{
    let lecom_fit = lecom_right(lecom);
    let love_fit = love_right(love);
    (ia <= IA_MOST) & (lecom_fit & love_fit)
}

// Whether pairs of parameters 1110h and 1120h are in their ranges. Slices here and below, and no arrays, as in entries.rt.
pub fn fit_parameters(s: &[u32]) -> bool
    requires { length s.now ≤ 2 * parameter_count }
    ensures { result ≡ fit_parameters s.now }
{
    let mut ok = true;
    for pair in s.chunks_exact(PARAMETERS_EACH) {
        let cycle = in_span(pair[0], CYCLE_LEAST, CYCLE_MOST);
        let floor = in_span(pair[1], 0, FLOOR_MOST);
        ok = ok & (cycle & floor);
    }
    ok
}

// Whether every register is in its range. A copy by itself is few enough words for a loop that is unrolled whole.
fn fit_registers(s: &[u32]) -> bool
    requires { length s.now ≡ 3 * registers }
    ensures { result ≡ all_in (minus register_most) register_most s.now }
{
    let buffer = all_in(&s[..REGISTERS], REGISTER_LEAST, REGISTER_MOST);
    let operational = all_in(&s[REGISTERS..2 * REGISTERS], REGISTER_LEAST, REGISTER_MOST);
    let saved = all_in(&s[2 * REGISTERS..], REGISTER_LEAST, REGISTER_MOST);
    buffer & (operational & saved)
}

// Whether every word is in its range. An exit after each run: so that the compiler does not mix the words of two runs.
fn fit_words(words: &[u32]) -> bool
    requires { length words.now ≡ word_count }
    ensures { result ≡ fit_words words.now }
{
    if !fit_addresses(words[IA], words[LECOM_ADDRESS], words[LOVE_ADDRESS]) {
        return false;
    }
    if !all_in(&words[LOVE..DEMANDS], LOVE_LEAST, LOVE_MOST) {
        return false;
    }
    if !all_in(&words[DEMANDS..PARAMETERS], 0, DEMAND_MOST) {
        return false;
    }
    if !fit_parameters(&words[PARAMETERS..BUFFER]) {
        return false;
    }
    fit_registers(&words[BUFFER..WORDS])
}

// The one test of number 12, which every entry makes first.
pub fn is_fit(words: &[u32], memory: &[u8], ports: &[u8]) -> bool
    ensures { result ≡ fit (card_of words.now memory.now ports.now) }
{
    if words.len() != WORDS {
        return false;
    }
    if memory.len() != MEMORY {
        return false;
    }
    if ports.len() != ROW {
        return false;
    }
    if !fit_pending(ports) {
        return false;
    }
    fit_words(words)
}
