// What a receiver is (specs), what holds of every one (proofs), and what the receivers of the dialects share. Each dialect has a step of its own.
#![tactic(auto)]

ghost use Rattle.std.specs.Prelude.{◌≡◌, ℕ, Bool, true, List};
ghost use Rattle.receiver.specs.Step.{Step, among};
ghost use Rattle.receiver.specs.Place.{Placed, Sure};
ghost use Rattle.wire.specs.Length.{between};

// The frames of a dialect: how long they may be. Implemented by each dialect's type.
pub trait Frames {
    const SHORTEST: usize;

    const LONGEST: usize;

    ghost SHORTEST: { ℕ };

    ghost LONGEST: { ℕ };

    // Whether a frame may be n bytes long.
    fn fits(n: usize) -> bool
        ensures { result ≡ between SHORTEST LONGEST n }
    {
        (Self::SHORTEST <= n) & (n <= Self::LONGEST)
    }
}

// Where a byte goes: behind the part frame; first, and what was collected is dropped; nowhere, and what was collected is dropped; or it is the
// last byte of a frame. An enum: none of the four cases is one of an Option or a Result.
#[derive(Clone, Copy)]
pub enum Place {
    Behind,
    First,
    Nowhere,
    Last,
}

// The receiver of a dialect: its rule, and the part frames within it. Implemented by each dialect's type.
pub trait Collect: Frames {
    ghost step: { Step };

    ghost held: { List ℕ → Bool };

    // Where the byte b behind the part frame goes.
    fn place(part: &[u8], b: u8) -> Place
        requires { held part.now ≡ true }
        ensures { Placed step Self.LONGEST part.now b result };

    // Whether bytes are a part frame that a line leads to.
    fn holds(part: &[u8]) -> bool
        ensures { result ≡ held part.now };

    // How many bytes behind the part frame are kept, whatever they are; none where every byte is looked at.
    fn sure(part: &[u8]) -> usize
        requires { held part.now ≡ true }
        ensures { Sure held Self.LONGEST part.now result };
}

// Whether a byte is among some.
#[tactic(auto, using(crate::proofs::Among::told_among))]
pub fn has(bytes: &[u8], x: u8) -> bool
    ensures { result ≡ among x bytes.now }
{
    bytes.contains(&x)
}
