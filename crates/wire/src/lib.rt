// Leaves over byte slices that every dialect uses.
#![tactic(auto)]

ghost use Rattle.std.specs.Prelude.{◌≡◌, ◌+◌, ◌≤◌, ◌⊎◌, length};
ghost use Rattle.wire.specs.Buffer.{put, part, same};
ghost use Rattle.wire.specs.Sum.{sum_of};

// How many values a byte has.
pub const BYTE_VALUES: u32 = 256;

// The sum of the bytes of s, taken modulo 256.
pub fn sum(s: &[u8]) -> u8
    ensures { result ≡ sum_of s.now }
{
    let mut sum: u8 = 0;
    for b in s {
        sum = sum.wrapping_add(*b);
    }
    sum
}

// Whether two slices of one length hold the same bytes. No early exit: so the loop runs on several bytes at once. `==` of slices calls
// the library for each comparison.
pub fn is_same(a: &[u8], b: &[u8]) -> bool
    requires { length a.now ≡ length b.now }
    ensures { result ≡ same a.now b.now }
{
    let mut ok = true;
    for i in 0..a.len() {
        ok = ok & (a[i] == b[i]);
    }
    ok
}

// Copies all of src into dst from index at on. A loop: `copy_from_slice` needs `memmove` of whoever links the library.
pub fn copy(src: &[u8], dst: &mut [u8], at: usize)
    requires { at + length src.now ≤ length dst.old }
    ensures { dst.new ≡ put dst.old at src.now }
{
    for i in 0..src.len() {
        dst[at + i] = src[i];
    }
}

// Copies all of bytes into dst from index at on, and gives their sum, taken modulo 256. One loop: with `copy` and then `sum` each byte is
// gone over twice.
pub fn copy_sum(bytes: &[u8], dst: &mut [u8], at: usize) -> u8
    requires { at + length bytes.now ≤ length dst.old }
    ensures { (result ≡ sum_of bytes.now) × (dst.new ≡ put dst.old at bytes.now) }
{
    let mut summed: u8 = 0;
    for i in 0..bytes.len() {
        let b = bytes[i];
        dst[at + i] = b;
        summed = summed.wrapping_add(b);
    }
    summed
}

// Copies n words from index from to index to; the two runs do not meet. A loop: `copy_within` needs `memmove` of whoever links the library.
pub fn move_words(words: &mut [u32], from: usize, to: usize, n: usize)
    requires { ((from + n ≤ length words.old) × (to + n ≤ length words.old)) × ((from + n ≤ to) ⊎ (to + n ≤ from)) }
    ensures { words.new ≡ put words.old to (part words.old from (from + n)) }
{
    for i in 0..n {
        let x = words[from + i];
        words[to + i] = x;
    }
}
