// The saved image: the entries that write and read it. Document 01, "The saved image".
#![tactic(auto)]

mod form;

ghost use Rattle.std.specs.Prelude.{◌≡◌, ◌+◌, ◌<◌, ◌≤◌, length};
ghost use Rattle.wire.specs.Buffer.{put};
ghost use Rattle.bits.specs.Bits.{widest};
ghost use Rattle.bits.specs.Fields.{fields, WithinAll};
ghost use Rattle.bits.specs.Packing.{packed, place_of, Packs};
ghost use Rattle.card.specs.Layout.{card_of, word_count};
ghost use Rattle.card.specs.Reply.{Gave, Did};
ghost use Rattle.image.specs.Form.{saved_form, entries_of_run, widths, used, image_size};
ghost use Rattle.image.specs.Saved.{put_entries, replaced, image_of, entries_of, padding_of};
ghost use Rattle.image.specs.Entries.{write_image, read_image};

use crate::form::{ENTRIES, IMAGE, PADDING, Run, entries_right, runs};
use bits::{BitReader, Packed, read_fields};
use card::Outcome;
use card::fitness::is_fit;
use card::numbers::{ANSWERED, CARD_UNFIT, DONE, IMAGE_LENGTH, IMAGE_PADDING};

// The fields of a run, after those that are packed.
fn put_run(words: &[u32], image: &mut [u8], p: Packed, run: Run) -> Packed
    requires { Packs image.old p (used (entries_of_run run)) × (run.width ≤ widest) × (run.word + run.count ≤ length words.now) }
    ensures { (packed image.new result ≡ put_entries (entries_of_run run) words.now (packed image.old p) (place_of p)) × (place_of result ≡ place_of p + used (entries_of_run run)) }
{
    let mut q = p;
    for word in &words[run.word..run.word + run.count] {
        q = q.put_field(image, run.width, word.wrapping_add(run.bias));
    }
    q
}

// The whole image, from its first bit to its last.
fn pack(words: &[u32], image: &mut [u8])
    requires { (length words.now ≡ word_count) × (length image.old ≡ image_size) }
    ensures { image.new ≡ image_of words.now }
{
    let mut p = Packed::new();
    for run in runs() {
        p = put_run(words, image, p, *run);
    }
    let whole = p.put_field(image, PADDING, 0);
    whole.finish(image);
}

// Writes the image of a card: document 01's number, and the bytes written. `nk_write_image` hands both to C as they are.
pub fn write_image(words: &[u32], memory: &[u8], ports: &[u8], out: &mut [u8]) -> Outcome
    ensures { let before = card_of words.now memory.now ports.now in
        let after = card_of words.now memory.now ports.now in
        Gave (write_image before (length out.old)) out.old result after out.new }
{
    let number = card::stop_early(words, memory, ports, IMAGE, out.len());
    if number != ANSWERED {
        return Outcome { number, len: 0 };
    }
    pack(words, &mut out[..IMAGE]);
    Outcome {
        number: ANSWERED,
        len: IMAGE,
    }
}

// What stands in the fields of a run, which begin at a place, becomes the values from index `first` on.
fn read_run(values: &mut [u32], first: usize, image: &[u8], place: usize, run: Run)
    requires { (first + run.count ≤ length values.old) × WithinAll image.now place run.width run.count }
    ensures { values.new ≡ put values.old first (fields image.now place (widths (entries_of_run run))) }
{
    let end = first + run.count;
    read_fields(&mut values[first..end], image, place, run.width);
}

// What stands in the fields of an image; gives its last bits. One reader, made at the first bit, is carried through the runs to the padding.
fn unpack(values: &mut [u32], image: &[u8]) -> u32
    requires { (length values.old ≡ length saved_form) × (length image.now ≡ image_size) }
    ensures { (values.new ≡ entries_of image.now) × (result ≡ padding_of image.now) }
{
    let mut r = BitReader::new(image);
    let mut first: usize = 0;
    for run in runs() {
        read_run(values, first, r.image, r.place, *run);
        r = r.moved(run.bits());
        first += run.count;
    }
    r.value(PADDING)
}

// The words of a run become those of what stands in its fields.
fn store_run(words: &mut [u32], values: &[u32], run: Run)
    requires { (length values.now ≡ run.count) × (run.word + run.count ≤ length words.old) }
    ensures { words.new ≡ replaced (entries_of_run run) words.old values.now }
{
    for (i, value) in values.iter().enumerate() {
        words[run.word + i] = value.wrapping_sub(run.bias);
    }
}

// The words of the entries become those of what stands in their fields.
fn restore(words: &mut [u32], values: &[u32])
    requires { (length words.old ≡ word_count) × (length values.now ≡ length saved_form) }
    ensures { words.new ≡ replaced saved_form words.old values.now }
{
    let mut first: usize = 0;
    for run in runs() {
        let end = first + run.count;
        store_run(words, &values[first..end], *run);
        first = end;
    }
}

// Reads an image into a card: document 01's number, as `nk_read_image` hands it to C.
pub fn read_image(words: &mut [u32], memory: &[u8], ports: &[u8], image: &[u8]) -> u8
    ensures { let before = card_of words.old memory.now ports.now in
        let after = card_of words.new memory.now ports.now in
        Did (read_image before image.now) result after }
{
    if !is_fit(words, memory, ports) {
        return CARD_UNFIT;
    }
    if image.len() != IMAGE {
        return IMAGE_LENGTH;
    }
    // Memory is fixed: an array of a word for each entry, and no length beside it.
    let mut values = [0u32; ENTRIES];
    let padding = unpack(&mut values, image);
    if padding != 0 {
        return IMAGE_PADDING;
    }
    if !entries_right(&values) {
        return CARD_UNFIT;
    }
    restore(words, &values);
    DONE
}
