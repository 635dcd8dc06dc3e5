// The rules of a change, in a frame and as the pending one: its kinds, NUM, the bytes that it names, and where it may write.
ghost use Rattle.std.specs.Prelude.{◌≡◌, length};
ghost use Rattle.card.specs.Layout.{row_size};
ghost use Rattle.card.specs.Change.{in_memory, names_read_only, named, num_right, echoable, two_bytes, fit_pending};

use crate::layout::{DATA_MOST, HIGH_ADDRESS, KIND, LOW_ADDRESS, MEMORY, NUM};

// Datalink addresses: the first, the one after the last, and the first writable one.
pub const MEMORY_START: u32 = 0x1000;

pub const MEMORY_END: u32 = MEMORY_START + MEMORY as u32;

pub const WRITABLE_START: u32 = 0x1010;

// Kinds of a pending change. Numbers and no enum: the byte of the row that C lends is the kind, and any byte may stand there.
pub const NO_CHANGE: u8 = 0;

pub const CHANGE: u8 = 1;

pub const CHANGE_BITS: u8 = 2;

// Whether the n bytes named from an address lie in Datalink memory.
pub fn in_memory(at: u16, n: u8) -> bool
    ensures { result ≡ in_memory at n }
{
    let start = at as u32;
    let end = start + n as u32;
    (MEMORY_START <= start) & (end <= MEMORY_END)
}

// Whether the n bytes named from an address hold a read-only one.
pub fn names_read_only(at: u16, n: u8) -> bool
    ensures { result ≡ names_read_only at n }
{
    let start = at as u32;
    (n != 0) & (start < WRITABLE_START)
}

// How many bytes a change of num data bytes names. Kind and num by themselves: in a frame they are judged before an address is looked at.
pub fn bytes_named(kind: u8, num: u8) -> u8
    ensures { result ≡ named kind num }
{
    if kind == CHANGE_BITS {
        return num / 2;
    }
    num
}

// Whether NUM is right for the kind of change.
pub fn num_right(kind: u8, num: u8) -> bool
    ensures { result ≡ num_right kind num }
{
    (num <= DATA_MOST as u8) & ((kind != CHANGE_BITS) | (num % 2 == 0))
}

// Whether the Datalink order would have echoed this change.
fn is_echoable(kind: u8, num: u8, at: u16, n: u8) -> bool
    ensures { result ≡ echoable kind num at n }
{
    if CHANGE_BITS < kind {
        return false;
    }
    if !num_right(kind, num) {
        return false;
    }
    if !in_memory(at, n) {
        return false;
    }
    !names_read_only(at, n)
}

// A number of two bytes, the low one first.
pub fn two_bytes(low: u8, high: u8) -> u16
    ensures { result ≡ two_bytes low high }
{
    u16::from_le_bytes([low, high])
}

// Whether the pending change is none, or as it was echoed.
pub(crate) fn fit_pending(ports: &[u8]) -> bool
    requires { length ports.now ≡ row_size }
    ensures { result ≡ fit_pending ports.now }
{
    let kind = ports[KIND];
    if kind == NO_CHANGE {
        return true;
    }
    let num = ports[NUM];
    let at = two_bytes(ports[LOW_ADDRESS], ports[HIGH_ADDRESS]);
    is_echoable(kind, num, at, bytes_named(kind, num))
}
