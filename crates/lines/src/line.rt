// A line as it comes; its words, numbers and bytes. A word is a run of bytes that are no spaces.
ghost use Rattle.std.specs.Prelude.{◌≡◌, ◌+◌, ◌*◌, ◌^◌, ◌≤◌, ◌<◌, ◌↔◌, length, IsTrue, IsSome, IfSome};
ghost use Rattle.wire.specs.Buffer.{same};
ghost use Rattle.lines.specs.Lent.{line_most, Joined};
ghost use Rattle.lines.specs.Line.{Taken};

use crate::text::SPACE;
use figures::sheet::Sheet;
use figures::{HEX, MINUS};

// "A number is decimal, of one to ten figures".
const FIGURES_MOST: usize = 10;

// A byte is "exactly two hex figures".
const PAIR: usize = 2;

// The largest magnitude of a negative number.
const HALF: u32 = 2147483648;

// Bytes that do not end the line join it: how long it is then. None where it gets too long, and it is left as it was.
pub fn join(text: &mut [u8], n: usize, bytes: &[u8]) -> Option<usize>
    requires { length text.old ≡ line_most }
    ensures { Joined n bytes.now text.old result text.new }
{
    if text.len() < n {
        return None;
    }
    if text.len() - n < bytes.len() {
        return None;
    }
    wire::copy(bytes, text, n);
    Some(n + bytes.len())
}

// The first place from at on that a test stops at; else the end of s.
pub fn scan<F: Fn(u8) -> bool>(s: &[u8], at: usize, stops: F) -> usize
    requires place { at ≤ length s.now }
    requires test { F.IsAlwaysCallable stops }
    ensures { (at ≤ result) × (result ≤ length s.now) }
{
    match s[at..].iter().position(|b| stops(*b)) {
        Some(i) => at + i,
        None => s.len(),
    }
}

// Where the first word from at on starts, or the end of the line.
fn next_word(s: &[u8], at: usize) -> usize
    requires { at ≤ length s.now }
    ensures { (at ≤ result) × (result ≤ length s.now) }
{
    scan(s, at, |b| b != SPACE)
}

// Where the word at at ends.
pub fn word_end(s: &[u8], at: usize) -> usize
    requires { at ≤ length s.now }
    ensures { (at ≤ result) × (result ≤ length s.now) }
{
    scan(s, at, |b| b == SPACE)
}

// Whether a word is a name.
#[tactic(auto, using(crate::proofs::Words::same_pointwise))]
pub fn is_word(word: &[u8], name: &[u8]) -> bool
    ensures { result ≡ same word.now name.now }
{
    word == name
}

// The value of a word as a number of at most most.
fn number_in(word: &[u8], most: u32) -> Option<u32>
    ensures most { IfSome result (λ v. v ≤ most) }
    ensures figures { IsSome result → 0 < length word.now }
{
    if word.is_empty() || FIGURES_MOST < word.len() {
        return None;
    }
    let value = figures::sheet::take().value(word)?;
    if (most as u64) < value {
        return None;
    }
    Some(value as u32)
}

// The byte that the word at at is.
fn byte_at(sheet: &Sheet, s: &[u8], at: usize) -> Option<u8>
    requires { at ≤ length s.now }
    ensures { IsSome result → at + 2 ≤ length s.now }
{
    let left = s.len() - at;
    if left < PAIR {
        return None;
    }
    if PAIR < left && s[at + PAIR] != SPACE {
        return None;
    }
    sheet.pair_byte(s[at], s[at + 1], HEX)
}

// A line that is read word by word: at is where the next word starts, or the line's end.
#[derive(Clone, Copy)]
pub struct Line<'a> {
    pub bytes: &'a [u8],
    pub at: usize,
    ghost inside: { at ≤ length bytes.now },
}

impl<'a> Line<'a> {
    // A line from its first word on.
    pub fn of(bytes: &'a [u8]) -> Line<'a>
        ensures { result.bytes.now ≡ bytes.now }
    {
        Line {
            bytes,
            at: next_word(bytes, 0),
        }
    }

    // Whether no word is left.
    pub fn is_over(&self) -> bool
        ensures { IsTrue result ↔ (self.now.at ≡ length self.now.bytes.now) }
    {
        self.at == self.bytes.len()
    }

    // No word is left.
    pub fn end(&self) -> Option<()>
        ensures { IsSome result ↔ (self.now.at ≡ length self.now.bytes.now) }
    {
        self.is_over().then_some(())
    }

    // The next word; an empty one where none is left.
    pub fn word(&mut self) -> &'a [u8]
        ensures { Taken self.old.bytes.now self.old.at result.now self.new.bytes.now self.new.at }
    {
        let from = self.at;
        let end = word_end(self.bytes, from);
        self.at = next_word(self.bytes, end);
        &self.bytes[from..end]
    }

    // The next word as a number of at most most.
    pub fn number(&mut self, most: u32) -> Option<u32>
        ensures most { IfSome result (λ v. v ≤ most) }
        ensures stays { self.new.bytes.now ≡ self.old.bytes.now }
        ensures after { (self.old.at ≤ self.new.at) × (IsSome result → self.old.at < self.new.at) }
    {
        number_in(self.word(), most)
    }

    // The next word as a signed number, in two's complement.
    pub fn signed(&mut self) -> Option<u32>
        ensures most { IfSome result (λ v. v < 2 ^ 32) }
        ensures stays { self.new.bytes.now ≡ self.old.bytes.now }
        ensures after { self.old.at ≤ self.new.at }
    {
        if self.at < self.bytes.len() && self.bytes[self.at] == MINUS {
            self.at += 1;
            let magnitude = self.number(HALF)?;
            return Some(figures::with_sign(true, magnitude));
        }
        self.number(HALF - 1)
    }

    // The next word as the last one, a number of at most most.
    pub fn last_number(&mut self, most: u32) -> Option<u32>
        ensures { IfSome result (λ v. v ≤ most) }
    {
        let n = self.number(most)?;
        self.end()?;
        Some(n)
    }

    // The next words as bytes, up to the first that is none. They stand at the front of to.
    pub fn bytes<'b>(&mut self, to: &'b mut [u8]) -> &'b [u8]
        requires { length self.old.bytes.now ≤ 2 * length to.old }
        ensures few { 2 * length result.now ≤ length self.old.bytes.now }
        ensures stays { self.new.bytes.now ≡ self.old.bytes.now }
        ensures after { self.old.at ≤ self.new.at }
    {
        let sheet = figures::sheet::take();
        let mut count = 0;
        // A while loop: it goes by the words that are left.
        while let Some(b) = byte_at(&sheet, self.bytes, self.at) {
            to[count] = b;
            count += 1;
            self.at = next_word(self.bytes, self.at + PAIR);
        }
        &to[..count]
    }

    // The next words as bytes, to the line's end.
    pub fn last_bytes<'b>(&mut self, to: &'b mut [u8]) -> Option<&'b [u8]>
        requires { length self.old.bytes.now ≤ 2 * length to.old }
        ensures { IfSome result (λ bytes. 2 * length bytes.now ≤ length self.old.bytes.now) }
    {
        let bytes = self.bytes(to);
        self.end()?;
        Some(bytes)
    }
}
