// LucidControl's receiver: what becomes of a byte behind a part frame, and which part frames there are. Document 02, M-100.
ghost use Rattle.std.specs.Prelude.{◌≡◌, ◌+◌, ◌≤◌};
ghost use Rattle.lucid.specs.Form.{longest, data_at};
ghost use Rattle.lucid.specs.Receiver.{step, held};

use crate::form::Lucid;
use receiver::{Collect, Frames, Place};

// The size of a frame with this LEN.
fn size(len: u8) -> usize
    ensures { (result ≡ data_at + len) × (result ≤ longest) }
{
    Lucid::DATA + len as usize
}

impl Collect for Lucid {
    ghost step = { step };

    ghost held = { held };

    // Where the byte b behind the part frame goes.
    fn place(part: &[u8], b: u8) -> Place {
        let n = part.len();
        if n + 1 < Lucid::SHORTEST {
            return Place::Behind;
        }
        if n == Lucid::LEN {
            if b == 0 {
                return Place::Last;
            }
            return Place::Behind;
        }
        if size(part[Lucid::LEN]) <= n + 1 {
            return Place::Last;
        }
        Place::Behind
    }

    // How many bytes behind the part frame are kept, whatever they are.
    fn sure(part: &[u8]) -> usize {
        let n = part.len();
        if n <= Lucid::LEN {
            return 0;
        }
        size(part[Lucid::LEN]) - n - 1
    }

    // Whether bytes are a part frame that a line leads to.
    fn holds(part: &[u8]) -> bool {
        let n = part.len();
        if n < Lucid::SHORTEST {
            return true;
        }
        n < size(part[Lucid::LEN])
    }
}
