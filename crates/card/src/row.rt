// The part frames in the port's row.
ghost use Rattle.std.specs.Prelude.{◌≡◌, ◌+◌, ◌*◌, ◌<◌, length};
ghost use Rattle.wire.specs.Sum.{byte_values};
ghost use Rattle.card.specs.Layout.{row_size};
ghost use Rattle.card.specs.Row.{count_at, with_count, no_parts};

use crate::change::two_bytes;
use crate::layout::{DATALINK_PART, LECOM_PART, LOVE_PART, LUCID_PART};

// How many bytes the part frame at a place of the row has.
pub fn count(row: &[u8], at: usize) -> usize
    requires { at + 1 < length row.now }
    ensures { result ≡ count_at at row.now }
{
    two_bytes(row[at], row[at + 1]) as usize
}

// Stores how many bytes the part frame at a place of the row has.
pub fn set_count(row: &mut [u8], at: usize, n: usize)
    requires { (at + 1 < length row.old) × (n < byte_values * byte_values) }
    ensures { row.new ≡ with_count at n row.old }
{
    let [low, high] = (n as u16).to_le_bytes();
    row[at] = low;
    row[at + 1] = high;
}

// Drops every part frame.
pub(crate) fn drop_parts(row: &mut [u8])
    requires { length row.old ≡ row_size }
    ensures { row.new ≡ no_parts row.old }
{
    set_count(row, DATALINK_PART, 0);
    set_count(row, LECOM_PART, 0);
    set_count(row, LOVE_PART, 0);
    set_count(row, LUCID_PART, 0);
}
