// Fields of a bit-packed image, most significant bit first: read by one reader, through a window of eight bytes, and written one after
// another, through a word that holds the bits not yet written.
#![tactic(auto)]

ghost use Rattle.std.specs.Prelude.{◌≡◌, ℕ, ◌+◌, ◌*◌, ◌/◌, ◌%◌, ◌^◌, ◌<◌, ◌≤◌, length, replicate};
ghost use Rattle.bits.specs.Bits.{byte_values, field, put_field, widest, longest, window_bytes, window_bits, Within};
ghost use Rattle.bits.specs.Fields.{fields, WithinAll};

// The bits of a byte, and how many values it has.
const BYTE_BITS: usize = 8;

const BYTE_VALUES: u64 = 256;

// A window: the bytes that a field is read through, and their bits.
const WINDOW: usize = 8;

const WINDOW_BITS: usize = WINDOW * BYTE_BITS;

// How many bits, and bytes, are written at once.
const WORD_BITS: usize = 32;

const WORD: usize = WORD_BITS / BYTE_BITS;

// The number that the bytes of the window from byte `first` on stand for. A loop, as in wire's `copy`: `copy_from_slice` asks at each field
// whether the bytes overlap.
fn window(image: &[u8], first: usize) -> u64
    requires { first + window_bytes ≤ length image.now }
    ensures { result ≡ field image.now (8 * first) window_bits }
{
    let mut bytes = [0u8; WINDOW];
    for i in 0..WINDOW {
        bytes[i] = image[first + i];
    }
    u64::from_be_bytes(bytes)
}

// The first byte of a window that holds a field from a place on: the last window of the image ends with it.
fn window_at(len: usize, place: usize) -> usize
    requires { (window_bytes ≤ len) × (len ≤ longest) }
    ensures { (8 * result ≤ place) × (result + window_bytes ≤ len) × ((end : ℕ) → end ≤ place + widest → end ≤ 8 * len → end ≤ 8 * result + window_bits) }
{
    (place / BYTE_BITS).min(len - WINDOW)
}

// 2 ^ k. A function, since it promises that nothing is cut off, to `middle` and to `low_bits`.
fn weight(k: usize) -> u64
    requires { k ≤ widest }
    ensures { result ≡ 2 ^ k }
{
    1 << k
}

// The `width` bits of n from weight 2 ^ down on.
fn middle(n: u64, down: usize, width: usize) -> u64
    requires { (down < window_bits) × (width ≤ widest) }
    ensures { result ≡ n / 2 ^ down % 2 ^ width }
{
    (n >> down) % weight(width)
}

// The field of `width` bits from a place on: the middle of a window.
fn read_field(image: &[u8], place: usize, width: usize) -> u32
    requires { Within image.now place width }
    ensures { result ≡ field image.now place width }
{
    let first = window_at(image.len(), place);
    let down = BYTE_BITS * first + WINDOW_BITS - (place + width);
    middle(window(image, first), down, width) as u32
}

// The fields of `width` bits from a place on, as many as there is room for.
pub fn read_fields(out: &mut [u32], image: &[u8], place: usize, width: usize)
    requires { WithinAll image.now place width (length out.old) }
    ensures { out.new ≡ fields image.now place (replicate (length out.old) width) }
{
    let mut here = place;
    for value in out.iter_mut() {
        *value = read_field(image, here, width);
        here += width;
    }
}

// A reader of an image: the image, and the place of its next bit.
// Its functions are thin: the work is done on a slice and a place.
#[derive(Clone, Copy)]
pub struct BitReader<'a> {
    pub image: &'a [u8],
    pub place: usize,
}

impl<'a> BitReader<'a> {
    // A reader at the image's first bit.
    pub fn new(image: &'a [u8]) -> BitReader<'a>
        ensures { (result.image ≡ image.entry) × (result.place ≡ 0) }
    {
        BitReader { image, place: 0 }
    }

    // The reader's next field of `width` bits.
    pub fn value(self, width: usize) -> u32
        requires { Within self.image.now self.place width }
        ensures { result ≡ field self.entry.image.now self.entry.place width }
    {
        read_field(self.image, self.place, width)
    }

    // The reader, moved on by `width` bits.
    pub fn moved(self, width: usize) -> BitReader<'a>
        requires { self.place + width < 2 ^ 64 }
        ensures { (result.image ≡ self.entry.image) × (result.place ≡ self.entry.place + width) }
    {
        BitReader {
            place: self.place + width,
            ..self
        }
    }
}

// `count` bytes from byte `first` on become those of n; the last is written first.
fn scatter(image: &mut [u8], first: usize, count: usize, n: u64)
    requires { first + count ≤ length image.old }
    ensures { image.new ≡ put_field image.old (8 * first) (8 * count) n }
{
    let mut rest = n;
    for left in (0..count).rev() {
        image[first + left] = (rest % BYTE_VALUES) as u8;
        rest /= BYTE_VALUES;
    }
}

// The `width` low bits of value.
fn low_bits(value: u32, width: usize) -> u64
    requires { width ≤ widest }
    ensures { result ≡ value % 2 ^ width }
{
    u64::from(value) % weight(width)
}

// Fields on their way into an image: the bytes before byte `at` are written, and the `count` low bits of `held` come next.
// The image is lent to each call: kept in here, each contract would have to say as well that it is still the same one.
#[derive(Clone, Copy)]
pub struct Packed {
    pub at: usize,
    pub held: u64,
    pub count: usize,
    pub ghost few: { count < widest },
}

impl Packed {
    ghost use Rattle.bits.specs.Packing.{packed, place_of, Packs};

    // At an image's first bit.
    pub fn new() -> Packed
        ensures { (result.at ≡ 0) × (result.held ≡ 0) × (result.count ≡ 0) }
    {
        Packed {
            at: 0,
            held: 0,
            count: 0,
        }
    }

    // The field of `width` bits that comes next becomes the low bits of value.
    pub fn put_field(self, image: &mut [u8], width: usize, value: u32) -> Packed
        requires { Packs image.old self width × (width ≤ widest) }
        ensures { (packed image.new result ≡ put_field (packed image.old self) (place_of self) width value) × (place_of result ≡ place_of self + width) }
    {
        let held = (self.held << width).wrapping_add(low_bits(value, width));
        let count = self.count + width;
        let at = self.at;
        if count < WORD_BITS {
            return Packed { at, held, count };
        }
        let left = count - WORD_BITS;
        scatter(image, at, WORD, held >> left);
        Packed {
            at: at + WORD,
            held,
            count: left,
        }
    }

    // The image, with the bits that are held written: whole bytes.
    pub fn finish(self, image: &mut [u8])
        requires { Packs image.old self 0 × (self.count % 8 ≡ 0) }
        ensures { image.new ≡ packed image.old self }
    {
        let count = self.count / BYTE_BITS;
        scatter(image, self.at, count, self.held);
    }
}
