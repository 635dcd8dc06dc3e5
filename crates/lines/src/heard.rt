// The line of what a master heard. docs/CONSOLE.md.
ghost use Rattle.std.specs.Prelude.{[], ◌∷◌, ◌++◌, ◌+◌, ◌*◌, ◌≤◌, length};
ghost use Rattle.figures.specs.Decimal.{shortest};
ghost use Rattle.asking.specs.Hearing.{values_in, said_of, hearing_of};
ghost use Rattle.asking.specs.Hearing.Hearing.{Refused};
ghost use Rattle.card.specs.Layout.{channels};
ghost use Rattle.card.specs.Numbers.{done};
ghost use Rattle.lines.specs.Text.{Put};
ghost use Rattle.lines.specs.Heard.{value_text, value_most, values_text, given_text, word_most, worded_most, heard_text, heard_most};

use crate::text::Text;
use asking::{Group, Heard, Unread};
use card::numbers::DONE;

// A value in decimal, after a space.
fn put_value<const N: usize>(answer: &mut Text<N>, value: u32)
    requires { answer.old.len + value_most ≤ N }
    ensures { Put value_most answer.old.len (value_text value) answer.old.out answer.new.len answer.new.out }
{
    answer.put_words(b" ");
    answer.put_entry(value, true);
}

// Values, each after a space.
fn put_values<const N: usize>(answer: &mut Text<N>, values: &[u32])
    requires { (answer.old.len + value_most * length values.now ≤ N) × (length values.now ≤ channels) }
    ensures { Put (value_most * length values.now) answer.old.len (values_text values.now) answer.old.out answer.new.len answer.new.out }
{
    for value in values {
        put_value(answer, *value);
    }
}

// `1` and a word.
fn tell_word<const N: usize>(answer: &mut Text<N>, word: &[u8])
    requires { (length word.now ≤ word_most) × (worded_most ≤ N) }
    ensures { Put worded_most 0 (shortest done ++ word.now) answer.old.out answer.new.len answer.new.out }
{
    answer.clear();
    answer.put_number(DONE as u32);
    answer.put_words(word);
}

// `1 value` and the values.
fn tell_values<const N: usize>(answer: &mut Text<N>, values: &[u32])
    requires { (length values.now ≤ channels) × (heard_most ≤ N) }
    ensures { Put heard_most 0 (given_text values.now) answer.old.out answer.new.len answer.new.out }
{
    tell_word(answer, b" value");
    put_values(answer, values);
}

// The values of a group.
fn tell_group<const N: usize>(answer: &mut Text<N>, group: Group)
    requires { heard_most ≤ N }
    ensures { Put heard_most 0 (given_text (values_in group)) answer.old.out answer.new.len answer.new.out }
{
    tell_values(answer, group.values());
}

// `1 refused` and the code or status.
fn tell_refused_for<const N: usize>(answer: &mut Text<N>, code: u8)
    requires { heard_most ≤ N }
    ensures { Put heard_most 0 (heard_text (Refused (code ∷ []))) answer.old.out answer.new.len answer.new.out }
{
    tell_word(answer, b" refused");
    put_value(answer, code as u32);
}

// The line of what a reply says.
fn tell_said<const N: usize>(answer: &mut Text<N>, said: Heard)
    requires { heard_most ≤ N }
    ensures { Put heard_most 0 (heard_text (said_of said)) answer.old.out answer.new.len answer.new.out }
{
    match said {
        Heard::Value(value) => tell_values(answer, &[value]),
        Heard::Values(group) => tell_group(answer, group),
        Heard::Done => tell_word(answer, b" done"),
        Heard::Fault => tell_word(answer, b" fault"),
        Heard::Refused => tell_word(answer, b" refused"),
        Heard::RefusedFor(code) => tell_refused_for(answer, code),
    }
}

// The line of what was heard.
pub fn tell_heard<const N: usize>(answer: &mut Text<N>, heard: Result<Heard, Unread>)
    requires { heard_most ≤ N }
    ensures { Put heard_most 0 (heard_text (hearing_of heard)) answer.old.out answer.new.len answer.new.out }
{
    match heard {
        Ok(said) => tell_said(answer, said),
        Err(why) => answer.tell_number(why.number()),
    }
}
