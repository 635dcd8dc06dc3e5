// Love's receiver: where a byte goes, and which part frames it can hold. Document 02, M-100.
ghost use Rattle.love.specs.Receiver.{step, held};

use crate::form::Love;
use receiver::{Collect, Frames, Place};

impl Collect for Love {
    ghost step = { step };

    ghost held = { held };

    // Where the byte behind a part frame goes. STX comes before the length: past the longest frame it starts anew too.
    fn place(part: &[u8], b: u8) -> Place {
        if b == Love::STX {
            return Place::First;
        }
        let n = part.len();
        if n == 0 {
            return Place::Nowhere;
        }
        if Love::LONGEST <= n {
            return Place::Nowhere;
        }
        if b == Love::ETX {
            return Place::Last;
        }
        Place::Behind
    }

    // Whether bytes are a part frame within the rules: STX first and nowhere else, no ETX, and not more than the longest frame has.
    fn holds(part: &[u8]) -> bool {
        let n = part.len();
        if n == 0 {
            return true;
        }
        if part[0] != Love::STX {
            return false;
        }
        if Love::LONGEST < n {
            return false;
        }
        if receiver::has(&part[1..], Love::STX) {
            return false;
        }
        !receiver::has(&part[1..], Love::ETX)
    }

    // Every byte is looked at.
    fn sure(_part: &[u8]) -> usize {
        0
    }
}
