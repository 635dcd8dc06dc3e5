// The usage of calls: a list of the lines that can be read, and the answer to a line that cannot. docs/CONSOLE.md.
ghost use Rattle.std.specs.Prelude.{◌≡◌, ◌+◌, ◌≤◌, ◌<◌, length, MatchOption};
ghost use Rattle.lines.specs.Lent.{list_most, before_most};

use crate::{Answer, TEXT_MOST, line};

// Two usage lines of a list stand this and a space apart.
const SEMICOLON: u8 = b';';

const GAP: usize = 2;

// Where the usage line at from ends.
fn usage_end(list: &[u8], from: usize) -> usize
    requires { from ≤ length list.now }
    ensures { (from ≤ result) × (result ≤ length list.now) }
{
    line::scan(list, from, |b| b == SEMICOLON)
}

// Where the next usage line starts, or the list ends, after one that ends at end.
fn next_usage(list: &[u8], end: usize) -> usize
    requires { end ≤ length list.now }
    ensures { ((end ≤ result) × (result ≤ length list.now)) × (end < length list.now → end < result) }
{
    if list.len() - end < GAP {
        return list.len();
    }
    end + GAP
}

// The usage lines of a list from at on.
#[derive(Clone, Copy)]
struct Usages<'a> {
    list: &'a [u8],
    at: usize,
    ghost inside: { at ≤ length list.now },
}

impl<'a> Usages<'a> {
    // The next usage line. The list is cut here, since `help` writes it as one text.
    fn next(&mut self) -> Option<&'a [u8]>
        ensures list { self.new.list.now ≡ self.old.list.now }
        ensures next { MatchOption result (self.new.at ≡ self.old.at) (λ usage. (self.old.at + length usage.now ≤ self.new.at) × (self.old.at < self.new.at)) }
    {
        if self.at < self.list.len() {
            let from = self.at;
            let end = usage_end(self.list, from);
            self.at = next_usage(self.list, end);
            return Some(&self.list[from..end]);
        }
        None
    }
}

// Whether a usage line is of the call of a name.
fn is_named(usage: &[u8], name: &[u8]) -> bool {
    let end = line::word_end(usage, 0);
    line::is_word(&usage[..end], name)
}

// A usage line, after the words that come before the first or between two.
fn put_usage(answer: &mut Answer, usage: &[u8])
    requires { (answer.old.len + before_most) + length usage.now ≤ TEXT_MOST }
    ensures { answer.new.len ≤ (answer.old.len + before_most) + length usage.now }
{
    if answer.len == 0 {
        answer.put_words(b"error expected ");
    } else {
        answer.put_words(b" or ");
    }
    answer.put_words(usage);
}

// The line of what the words after a known name should have been: each usage line of a list that has this name.
pub fn tell_expected(answer: &mut Answer, list: &[u8], name: &[u8])
    requires { length list.now ≤ list_most }
{
    answer.clear();
    let mut usages = Usages { list, at: 0 };
    while let Some(usage) = usages.next() {
        if is_named(usage, name) {
            put_usage(answer, usage);
        }
    }
}
