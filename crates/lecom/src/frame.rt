// What a LECOM frame asks.
ghost use Rattle.std.specs.Prelude.{◌≡◌, true, ◌&&◌, ◌+◌, ◌≤◌, length, Some, Ok};
ghost use Rattle.wire.specs.Buffer.{put, part};
ghost use Rattle.figures.specs.Figure.{byte_or_none};
ghost use Rattle.figures.specs.Signed.{longest_text};
ghost use Rattle.card.specs.Numbers.{value_outside, read_only};
ghost use Rattle.lecom.specs.Form.{shortest, closing, length_right};
ghost use Rattle.lecom.specs.Frame.{reaches, code_end, size_right, end_right, bcc_of, bcc_right, pair_in, named_in, write_right, value_right, value_in, data_right, ordered, unless, asked};
ghost use Rattle.lecom.specs.Answer.{closed};
ghost use Rattle.lecom.specs.Stages.{Outlines, code_read, order_here};

use crate::form;
use crate::form::{Lecom, Named};
use card::fitness::{FIGURE_VALUES, REGISTER_MOST};
use card::numbers::{
    CHECK_CHARACTER, FOREIGN_ADDRESS, FRAME_FORM, RANGE_UNKNOWN, READ_ONLY, VALUE_OUTSIDE,
};
use figures::sheet::Sheet;
use figures::{DECIMAL, UPPER_HEX};

// What a frame asks: the value of what is named, or a value for it.
#[derive(Clone, Copy)]
pub enum Order {
    Read(Named),
    Write(Named, u32),
}

// Why a frame asks nothing: with no byte sent, or the unit says so. Each has the number returned, which specs/ equates and C takes.
#[derive(Clone, Copy)]
pub enum Refusal {
    Silent(u8),
    Refused(u8),
}

// What judge and answer need of a frame: whether its address is collective, whether it is a write, whether its code is extended, and where the
// code and its hex characters begin and end. Each flag is one test of the frame, told by a field of `Outlines`.
#[derive(Clone, Copy)]
pub struct Outline {
    pub collective: bool,
    pub write: bool,
    pub extended: bool,
    pub start: usize,
    pub hex: usize,
    pub end: usize,
}

// A frame that is not too short, and its outline.
#[derive(Clone, Copy)]
pub struct Frame<'a> {
    pub bytes: &'a [u8],
    pub outline: Outline,
    ghost long: { shortest ≤ length bytes.now },
    ghost outlined: { Outlines bytes.now outline },
}

// The block check character of s.
pub fn bcc(s: &[u8]) -> u8
    ensures { result ≡ bcc_of s.now }
{
    s.iter().fold(0, |x, &b| x ^ b)
}

// Writes what comes behind a code that stands from at to text: the shortest decimal, ETX and the BCC.
pub fn put_data(out: &mut [u8], at: usize, text: usize, value: u32) -> usize
    requires { (at ≤ text) × (text + (longest_text + closing) ≤ length out.old) }
    ensures { let bytes = closed (part out.old at text) value in (result ≡ text + length bytes) × (out.new ≡ put out.old text bytes) }
{
    let end = text + figures::put_text(out, text, value);
    out[end] = Lecom::ETX;
    let last = end + 1;
    out[last] = bcc(&out[at..last]);
    last + 1
}

// The outline of a frame that is not too short.
fn outline_of(sheet: &Sheet, f: &[u8]) -> Outline
    requires { shortest ≤ length f.now }
    ensures { Outlines f.now result }
{
    let write = f[Lecom::START] == Lecom::STX;
    // A write's code begins behind its STX, and an extended code's hex characters behind the mark.
    let start = Lecom::START + write as usize;
    let extended = f[start] == Lecom::EXTENDED;
    let hex = start + extended as usize;
    let size = if extended {
        Lecom::EXTENDED_HEX
    } else {
        Lecom::STANDARD_HEX
    };
    let collective = sheet.figure(f[Lecom::ONES]) == 0;
    Outline {
        collective,
        write,
        extended,
        start,
        hex,
        end: hex + size,
    }
}

// The byte that two hex characters are.
pub fn pair_in(sheet: &Sheet, f: &[u8], at: usize) -> Option<u8>
    requires { at + 2 ≤ length f.now }
    ensures { byte_or_none result ≡ pair_in f.now at }
{
    sheet.pair_byte(f[at], f[at + 1], UPPER_HEX)
}

// A frame whose code is no hex has no form.
const NO_CODE: Refusal = Refusal::Refused(FRAME_FORM);

// A write of what its data were read as.
fn write_of(named: Named, read: Option<u32>) -> Result<Order, Refusal>
    ensures { result ≡ unless (value_right (Some named) read) value_outside (Ok (Order.Write named (value_in read))) }
{
    let Some(value) = read else {
        return Err(Refusal::Refused(VALUE_OUTSIDE));
    };
    if !named.takes(value) {
        return Err(Refusal::Refused(VALUE_OUTSIDE));
    }
    Ok(Order::Write(named, value))
}

impl<'a> Frame<'a> {
    // The frame of bytes that are not too few.
    pub(crate) fn new(sheet: &Sheet, bytes: &'a [u8]) -> Frame<'a>
        requires { shortest ≤ length bytes.now }
        ensures { result.bytes.now ≡ bytes.now }
    {
        let outline = outline_of(sheet, bytes);
        Frame { bytes, outline }
    }

    // Whether the address reaches the unit at this one.
    fn is_reached(self, sheet: &Sheet, address: u32) -> bool
        ensures { result ≡ reaches address self.entry.bytes.now }
    {
        let tens = sheet.figure(self.bytes[Lecom::TENS]) as u32;
        if self.outline.collective {
            return (tens == 0) | (tens == address / FIGURE_VALUES);
        }
        let ones = sheet.figure(self.bytes[Lecom::ONES]) as u32;
        FIGURE_VALUES * tens + ones == address
    }

    // Whether a frame has its form's length, and ENQ last or ETX last but one. The two ways test in different orders: else the compiler joins them.
    fn size_and_end_right(self) -> bool
        ensures { result ≡ (size_right self.entry.bytes.now && end_right self.entry.bytes.now) }
    {
        let n = self.bytes.len();
        let end = self.outline.end;
        if self.outline.write {
            let least = end + Lecom::DATA_LEAST + Lecom::CLOSING;
            let most = end + Lecom::DATA_MOST + Lecom::CLOSING;
            return ((least <= n) & (n <= most)) & (self.bytes[n - Lecom::CLOSING] == Lecom::ETX);
        }
        (self.bytes[n - 1] == Lecom::ENQ) & (n == end + 1)
    }

    fn bcc_right(self) -> bool
        ensures { result ≡ bcc_right self.entry.bytes.now }
    {
        if !self.outline.write {
            return true;
        }
        let last = self.bytes.len() - 1;
        // A write's code begins behind its STX.
        bcc(&self.bytes[Lecom::START + 1..last]) == self.bytes[last]
    }

    // What the frame's code names, if its characters are hex. Reads each character once.
    fn code_in(self, sheet: &Sheet) -> Result<Option<Named>, Refusal>
        requires { code_end self.bytes.now ≤ length self.bytes.now }
        ensures { result ≡ code_read self.entry.bytes.now }
    {
        let at = self.outline.hex;
        let first = pair_in(sheet, self.bytes, at).ok_or(NO_CODE)?;
        if !self.outline.extended {
            return Ok(form::named_by(first as u32));
        }
        let second = pair_in(sheet, self.bytes, at + Lecom::STANDARD).ok_or(NO_CODE)?;
        let subcode = pair_in(sheet, self.bytes, at + Lecom::SUBCODE).ok_or(NO_CODE)?;
        if subcode != 0 {
            return Ok(None);
        }
        Ok(form::named_by(u16::from_be_bytes([first, second]) as u32))
    }

    // Read-only, data and the order itself, for a frame with a known code.
    fn order_in(self, sheet: &Sheet, named: Named) -> Result<Order, Refusal>
        requires { (size_right self.bytes.now ≡ true) × (Some named ≡ named_in self.bytes.now) }
        ensures { result ≡ unless (write_right self.entry.bytes.now) read_only (unless (data_right self.entry.bytes.now) value_outside (ordered self.entry.bytes.now)) }
    {
        if !self.outline.write {
            return Ok(Order::Read(named));
        }
        if !named.is_writable() {
            return Err(Refusal::Refused(READ_ONLY));
        }
        let from = self.outline.end;
        let end = self.bytes.len() - Lecom::CLOSING;
        write_of(named, sheet.parse(&self.bytes[from..end], REGISTER_MOST))
    }

    // What a frame that reached the unit asks.
    fn order_here(self, sheet: &Sheet) -> Result<Order, Refusal>
        ensures { result ≡ order_here self.entry.bytes.now }
    {
        if !self.size_and_end_right() {
            return Err(Refusal::Refused(FRAME_FORM));
        }
        let code = self.code_in(sheet)?;
        if !self.bcc_right() {
            return Err(Refusal::Refused(CHECK_CHARACTER));
        }
        let Some(named) = code else {
            return Err(Refusal::Refused(RANGE_UNKNOWN));
        };
        self.order_in(sheet, named)
    }

    // What the frame, of a right length, asks of the unit at an address.
    pub(crate) fn order_of(self, sheet: &Sheet, address: u32) -> Result<Order, Refusal>
        requires { length_right (length self.bytes.now) ≡ true }
        ensures { result ≡ asked address self.entry.bytes.now }
    {
        if self.bytes[0] != Lecom::EOT {
            return Err(Refusal::Silent(FRAME_FORM));
        }
        if !sheet.all_figures(&self.bytes[Lecom::TENS..Lecom::START], DECIMAL) {
            return Err(Refusal::Silent(FRAME_FORM));
        }
        if !self.is_reached(sheet, address) {
            return Err(Refusal::Silent(FOREIGN_ADDRESS));
        }
        self.order_here(sheet)
    }
}
