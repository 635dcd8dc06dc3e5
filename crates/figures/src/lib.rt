// Hex figures, decimal figures and signed words: read from characters and written as characters.
#![tactic(auto)]

pub mod sheet;

ghost use Rattle.std.specs.Prelude.{◌≡◌, ◌+◌, ◌<◌, ◌≤◌, length, IfSome};
ghost use Rattle.wire.specs.Choose.{choose};
ghost use Rattle.wire.specs.Buffer.{put};
ghost use Rattle.figures.specs.Figure.{base, char_of, all_figures, pair_byte, byte_or_none, pair_of};
ghost use Rattle.figures.specs.Sheet.{IsAlphabet};
ghost use Rattle.figures.specs.Decimal.{digits, size_of, no_value, read_of, value_or_none, longest_value};
ghost use Rattle.figures.specs.Signed.{is_negative, magnitude, with_sign, longest_text, text_of, figures_of, parsed_of};

use sheet::Sheet;

// A figure below DECIMAL is a decimal one, below UPPER_HEX an upper-case hex one, below HEX a hex one of either case.
pub const DECIMAL: u8 = 10;

pub const UPPER_HEX: u8 = 16;

pub const HEX: u8 = 32;

// The bases of decimal and of hex figures, each in the widths that are counted in.
const BASE: u32 = DECIMAL as u32;

const VALUE_BASE: u64 = DECIMAL as u64;

const HEX_BASE: u8 = 16;

// A character for each value of a hex figure.
type Alphabet = [u8; 16];

// The upper-case characters of the values 0 to 15.
const ALPHABET: Alphabet = *b"0123456789ABCDEF";

// The character of the decimal figure 0; the others follow it.
pub const ZERO: u8 = b'0';

// The sign before a negative number's figures.
pub const MINUS: u8 = b'-';

// The words from here on are the negative numbers. Told by a comparison: the card has no signed type, so no byte can be widened with a sign.
const HALF: u32 = u32::MAX / 2 + 1;

// A function, so that its rule is a promise.
fn alphabet() -> Alphabet
    ensures { IsAlphabet result }
{
    ALPHABET
}

// The upper-case character of a figure's value.
pub fn figure_char(v: u8) -> u8
    requires { v < base }
    ensures { result ≡ char_of v }
{
    let characters = alphabet();
    characters[v as usize]
}

// Writes the two upper-case characters of v.
pub fn put_pair(out: &mut [u8], at: usize, v: u8)
    requires { at + 2 ≤ length out.old }
    ensures { out.new ≡ put out.old at (pair_of v) }
{
    out[at] = figure_char(v / HEX_BASE);
    out[at + 1] = figure_char(v % HEX_BASE);
}

// Writes the last k decimal figures of n, leading zeros too.
pub fn put_digits(out: &mut [u8], at: usize, k: usize, n: u32)
    requires { at + k ≤ length out.old }
    ensures { out.new ≡ put out.old at (digits k n) }
{
    let mut v = n;
    for j in (0..k).rev() {
        out[at + j] = ZERO + (v % BASE) as u8;
        v /= BASE;
    }
}

// How many figures the shortest decimal of n has.
pub fn size(n: u32) -> usize
    ensures { result ≡ size_of n }
{
    let mut v = n;
    let mut k: usize = 1;
    // A while loop: it goes by the value that is left, and by no count.
    while BASE <= v {
        v /= BASE;
        k += 1;
    }
    k
}

fn is_negative(w: u32) -> bool
    ensures { result ≡ is_negative w }
{
    HALF <= w
}

// A signed word's number without its sign.
pub fn magnitude(w: u32) -> u32
    ensures { result ≡ magnitude w }
{
    if is_negative(w) {
        return u32::MAX - w + 1;
    }
    w
}

// One of two bytes, by the sign of a word.
pub fn by_sign(w: u32, negative: u8, positive: u8) -> u8
    ensures { result ≡ choose (is_negative w) negative positive }
{
    if is_negative(w) {
        return negative;
    }
    positive
}

// The word of m, or of minus m; minus zero is zero.
pub fn with_sign(negative: bool, m: u32) -> u32
    ensures { result ≡ with_sign negative m }
{
    if !negative {
        return m;
    }
    m.wrapping_neg()
}

// Writes a signed word as its shortest decimal and gives the number of characters.
pub fn put_text(out: &mut [u8], at: usize, w: u32) -> usize
    requires { at + longest_text ≤ length out.old }
    ensures { (result ≡ length (text_of w)) × (out.new ≡ put out.old at (text_of w)) }
{
    let m = magnitude(w);
    let k = size(m);
    if is_negative(w) {
        out[at] = MINUS;
        put_digits(out, at + 1, k, m);
        return k + 1;
    }
    put_digits(out, at, k, m);
    k
}

// What is read by the sheet.
impl Sheet {
    // Whether every character of s is a figure below limit. An early exit, as of `all`, would take more instructions for each character.
    pub fn all_figures(&self, s: &[u8], limit: u8) -> bool
        ensures { result ≡ all_figures limit s.now }
    {
        let mut ok = true;
        for c in s {
            let here = self.figure(*c);
            ok = ok & (here < limit);
        }
        ok
    }

    // The byte that two characters are, both of them figures below limit.
    pub fn pair_byte(&self, high: u8, low: u8, limit: u8) -> Option<u8>
        ensures { byte_or_none result ≡ pair_byte limit high low }
    {
        let h = self.figure(high);
        if limit <= h {
            return None;
        }
        let l = self.figure(low);
        if limit <= l {
            return None;
        }
        Some(HEX_BASE * (h % HEX_BASE) + l % HEX_BASE)
    }

    // The value of a run of decimal figures.
    pub fn value(&self, s: &[u8]) -> Option<u64>
        requires s_len_bound { length s.now ≤ longest_value }
        ensures read { value_or_none result ≡ read_of s.now }
        ensures below { IfSome result (λ v. v < no_value) }
    {
        let mut v: u64 = 0;
        for c in s {
            let x = self.figure(*c);
            if DECIMAL <= x {
                return None;
            }
            v = v * VALUE_BASE + x as u64;
        }
        Some(v)
    }

    // At least one decimal figure and nothing else, read with a sign.
    fn parse_figures(&self, s: &[u8], negative: bool, bound: u32) -> Option<u32>
        requires s_len_bound { length s.now ≤ longest_value }
        ensures { result ≡ figures_of bound negative s.now }
    {
        if s.len() == 0 {
            return None;
        }
        let v = self.value(s)?;
        if (bound as u64) < v {
            return None;
        }
        Some(with_sign(negative, v as u32))
    }

    // An optional minus, then at least one decimal figure and nothing else, with a magnitude of at most bound.
    pub fn parse(&self, s: &[u8], bound: u32) -> Option<u32>
        requires s_len_bound { length s.now ≤ longest_value }
        ensures { result ≡ parsed_of bound s.now }
    {
        if s.len() == 0 {
            return None;
        }
        if s[0] == MINUS {
            return self.parse_figures(&s[1..], true, bound);
        }
        self.parse_figures(s, false, bound)
    }
}
