// What is heard in a reply: what it says, or why nothing is.
ghost use Rattle.std.specs.Prelude.{◌≡◌, ◌≤◌, length};
ghost use Rattle.card.specs.Layout.{channels};
ghost use Rattle.asking.specs.Hearing.{values_in, number_in};

use card::layout::CHANNELS;
use card::numbers::{CHECK_CHARACTER, FRAME_FORM, VALUE_OUTSIDE};

// The values of a group, lowest channel first; those behind the count have no meaning.
#[derive(Clone, Copy)]
pub struct Group {
    pub count: usize,
    pub values: [u32; CHANNELS],
}

impl Group {
    // The group of a slice's values.
    pub fn new(values: &[u32]) -> Self
        requires { length values.now ≤ channels }
        ensures { values_in result ≡ values.now }
    {
        let mut all = [0; CHANNELS];
        all[..values.len()].copy_from_slice(values);
        Group {
            count: values.len(),
            values: all,
        }
    }

    // The values that have a meaning.
    pub fn values(&self) -> &[u32]
        ensures { (result.now ≡ values_in self.now) × (length result.now ≤ channels) }
    {
        let count = self.count.min(CHANNELS);
        &self.values[..count]
    }
}

// What a reply means: a value, a group's values, done, fault, refused (as such, or for the code or status that the reply carries).
#[derive(Clone, Copy)]
pub enum Heard {
    Value(u32),
    Values(Group),
    Done,
    Fault,
    Refused,
    RefusedFor(u8),
}

// Why a reply means nothing: it is no answer to the request, only its check characters are wrong, or the request is none that may be made.
#[derive(Clone, Copy)]
pub enum Unread {
    Form,
    Check,
    Request,
}

impl Unread {
    // Its number in document 01's table.
    pub fn number(self) -> u8
        ensures { result ≡ number_in self }
    {
        match self {
            Unread::Form => FRAME_FORM,
            Unread::Check => CHECK_CHARACTER,
            Unread::Request => VALUE_OUTSIDE,
        }
    }
}
