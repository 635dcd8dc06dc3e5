// What an answer line is made of.
ghost use Rattle.std.specs.Prelude.{[], ◌∷◌, ◌++◌, ◌≡◌, ◌+◌, ◌*◌, ◌≤◌, T, length, take};
ghost use Rattle.figures.specs.Figure.{pair_of};
ghost use Rattle.figures.specs.Decimal.{shortest};
ghost use Rattle.figures.specs.Signed.{longest_text};
ghost use Rattle.card.specs.Numbers.{answered};
ghost use Rattle.lines.specs.Lent.{room_most};
ghost use Rattle.lines.specs.Text.{Put, spaced, told, told_most, entry_of, eight_most, eight, values, reading_most, reading, is_real};

use card::governor::Governor;
use card::numbers::{ANSWERED, PROBE_FAULT};

pub const SPACE: u8 = b' ';

// A byte's characters: two figures, and a space before them.
const PAIR: usize = 2;

const SPACED: usize = 3;

// A text of at most N bytes: the first len bytes of out.
#[derive(Clone, Copy)]
pub struct Text<const N: usize> {
    pub out: [u8; N],
    pub len: usize,
    ghost inside: { len ≤ N },
    ghost whole: { length out ≡ N },
}

// Each put_ function writes on; each tell_ function begins anew, and writes the whole line.
impl<const N: usize> Text<N> {
    pub fn new() -> Text<N>
        ensures { result.len ≡ 0 }
    {
        Text {
            out: [0; N],
            len: 0,
        }
    }

    pub fn text(&self) -> &[u8]
        ensures { result.now ≡ take self.now.len self.now.out }
    {
        &self.out[..self.len]
    }

    // Begins anew.
    pub fn clear(&mut self)
        ensures len { self.new.len ≡ 0 }
        ensures out { self.new.out ≡ self.old.out }
    {
        self.len = 0;
    }

    // Bytes as they are.
    pub fn put_words(&mut self, words: &[u8])
        requires { self.old.len + length words.now ≤ N }
        ensures { Put (length words.now) self.old.len words.now self.old.out self.new.len self.new.out }
    {
        wire::copy(words, &mut self.out, self.len);
        self.len += words.len();
    }

    // A number in its shortest decimal.
    pub fn put_number(&mut self, n: u32)
        requires { self.old.len + longest_text ≤ N }
        ensures { Put longest_text self.old.len (shortest n) self.old.out self.new.len self.new.out }
    {
        let k = figures::size(n);
        figures::put_digits(&mut self.out, self.len, k, n);
        self.len += k;
    }

    // An entry of a table in decimal. One function with a flag: the tables have the flag of each entry, and would test it again.
    pub fn put_entry(&mut self, word: u32, signed: bool)
        requires { self.old.len + longest_text ≤ N }
        ensures { Put longest_text self.old.len (entry_of signed word) self.old.out self.new.len self.new.out }
    {
        if signed {
            self.len += figures::put_text(&mut self.out, self.len, word);
            return;
        }
        self.put_number(word);
    }

    // A byte, after a space.
    fn put_spaced(&mut self, b: u8)
        requires { self.old.len + 3 ≤ N }
        ensures { Put 3 self.old.len (spaced (b ∷ [])) self.old.out self.new.len self.new.out }
    {
        self.out[self.len] = SPACE;
        figures::put_pair(&mut self.out, self.len + 1, b);
        self.len += SPACED;
    }

    // Bytes, each after a space.
    pub fn put_bytes(&mut self, bytes: &[u8])
        requires { self.old.len + 3 * length bytes.now ≤ N }
        ensures { Put (3 * length bytes.now) self.old.len (spaced bytes.now) self.old.out self.new.len self.new.out }
    {
        for b in bytes {
            self.put_spaced(*b);
        }
    }

    // These bytes alone.
    pub fn set(&mut self, words: &[u8])
        requires { length words.now ≤ N }
        ensures { Put (length words.now) 0 words.now self.old.out self.new.len self.new.out }
    {
        self.clear();
        self.put_words(words);
    }

    // The line of a number alone.
    pub fn tell_number(&mut self, number: u8)
        requires { longest_text ≤ N }
        ensures { Put longest_text 0 (told number []) self.old.out self.new.len self.new.out }
    {
        self.clear();
        self.put_number(number as u32);
    }

    // The line of an entry's number and its answer's bytes.
    pub fn tell(&mut self, number: u8, answer: &[u8])
        requires { (length answer.now ≤ room_most) × (told_most ≤ N) }
        ensures { Put told_most 0 (told number answer.now) self.old.out self.new.len self.new.out }
    {
        self.clear();
        self.put_number(number as u32);
        self.put_bytes(answer);
    }

    // A byte's two figures.
    fn put_pair(&mut self, b: u8)
        requires { self.old.len + 2 ≤ N }
        ensures { Put 2 self.old.len (pair_of b) self.old.out self.new.len self.new.out }
    {
        figures::put_pair(&mut self.out, self.len, b);
        self.len += PAIR;
    }

    // Eight hex figures.
    fn put_bits(&mut self, bits: u32)
        requires { self.old.len + eight_most ≤ N }
        ensures { Put eight_most self.old.len (eight bits) self.old.out self.new.len self.new.out }
    {
        let [first, second, third, fourth] = bits.to_be_bytes();
        self.put_pair(first);
        self.put_pair(second);
        self.put_pair(third);
        self.put_pair(fourth);
    }

    // The line of degrees.
    fn tell_bits(&mut self, bits: u32)
        requires { reading_most ≤ N }
        ensures { Put reading_most 0 (shortest answered ++ values (bits ∷ [])) self.old.out self.new.len self.new.out }
    {
        self.clear();
        self.put_number(ANSWERED as u32);
        self.put_words(b" ");
        self.put_bits(bits);
    }

    // The line of the governor's reading.
    pub fn tell_reading(&mut self, told: Governor)
        requires { T (is_real told) × (reading_most ≤ N) }
        ensures { Put reading_most 0 (reading told) self.old.out self.new.len self.new.out }
    {
        match told {
            Governor::Degrees(d) => self.tell_bits(f32::to_bits(d)),
            Governor::Fault => self.tell_number(PROBE_FAULT),
            Governor::Refused(number) => self.tell_number(number),
        }
    }
}
