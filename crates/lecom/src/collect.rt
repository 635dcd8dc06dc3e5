// LECOM's receiver: where a byte goes, and which part frames it can hold. Document 02, M-100.
ghost use Rattle.std.specs.Prelude.{◌≡◌, ◌&&◌, not, eqb};
ghost use Rattle.receiver.specs.Step.{among};
ghost use Rattle.lecom.specs.Form.{stx, enq};
ghost use Rattle.lecom.specs.Receiver.{bcc_next, step, held_behind_stx, held_behind_eot, held};

use crate::form::Lecom;
use receiver::{Collect, Frames, Place};

// Whether the next byte is the BCC. STX is looked for only where the last byte is ETX.
fn bcc_next(part: &[u8]) -> bool
    ensures { result ≡ bcc_next part.now }
{
    let n = part.len();
    if n == 0 {
        return false;
    }
    if part[n - 1] != Lecom::ETX {
        return false;
    }
    receiver::has(part, Lecom::STX)
}

// Whether a byte ends a read: ENQ where no STX has come. STX is looked for only where the byte is ENQ.
fn ends_read(part: &[u8], b: u8) -> bool
    ensures { result ≡ (eqb b enq && not (among stx part.now)) }
{
    if b != Lecom::ENQ {
        return false;
    }
    !receiver::has(part, Lecom::STX)
}

// Whether the bytes behind STX are within the rules: no EOT, and an ETX only as the last byte.
fn holds_behind_stx(bytes: &[u8]) -> bool
    ensures { result ≡ held_behind_stx bytes.now }
{
    for (i, &b) in bytes.iter().enumerate() {
        if b == Lecom::ETX {
            return i + 1 == bytes.len();
        }
        if b == Lecom::EOT {
            return false;
        }
    }
    true
}

// Whether the bytes behind EOT are within the rules: no EOT, before STX no ENQ, and behind STX as above.
fn holds_behind_eot(bytes: &[u8]) -> bool
    ensures { result ≡ held_behind_eot bytes.now }
{
    for (i, &b) in bytes.iter().enumerate() {
        if b == Lecom::STX {
            return holds_behind_stx(&bytes[i + 1..]);
        }
        if (b == Lecom::EOT) | (b == Lecom::ENQ) {
            return false;
        }
    }
    true
}

impl Collect for Lecom {
    ghost step = { step };

    ghost held = { held };

    // Where the byte behind a part frame goes. The BCC comes before EOT, as it may be 04h; and EOT before the length: past the longest frame it
    // starts anew too.
    fn place(part: &[u8], b: u8) -> Place {
        let n = part.len();
        if bcc_next(part) {
            if n < Lecom::LONGEST {
                return Place::Last;
            }
            return Place::Nowhere;
        }
        if b == Lecom::EOT {
            return Place::First;
        }
        if n == 0 {
            return Place::Nowhere;
        }
        if Lecom::LONGEST <= n {
            return Place::Nowhere;
        }
        if ends_read(part, b) {
            return Place::Last;
        }
        Place::Behind
    }

    // Whether bytes are a part frame within the rules: EOT first, not more bytes than the longest frame has, and behind EOT as above.
    fn holds(part: &[u8]) -> bool {
        let n = part.len();
        if n == 0 {
            return true;
        }
        if part[0] != Lecom::EOT {
            return false;
        }
        if Lecom::LONGEST < n {
            return false;
        }
        holds_behind_eot(&part[1..])
    }

    // Every byte is looked at.
    fn sure(_part: &[u8]) -> usize {
        0
    }
}
