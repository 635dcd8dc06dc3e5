// The image's table. Document 01, "The saved image".
ghost use Rattle.std.specs.Prelude.{◌≡◌, ◌≤◌, length};
ghost use Rattle.image.specs.Form.{entries_of_run, saved_runs, saved_form, used};
ghost use Rattle.image.specs.Ranges.{entries_right};

use card::fitness::{LOVE_DEPTH, LOVE_MOST, all_in, fit_parameters, in_range};
use card::layout::{
    IA, LECOM_ADDRESS, LOVE, LOVE_ADDRESS, LOVE_COUNT, PARAMETER_COUNT, REGISTERS,
    SAVED_PARAMETERS, SAVED_REGISTERS,
};

// The image's bytes, and the zero bits that it ends with.
pub const IMAGE: usize = 293;

pub const PADDING: usize = 6;

// The bits of each kind of entry, and what is added to its value there.
const IA_WIDTH: usize = 5;

const LECOM_WIDTH: usize = 7;

const LOVE_ADDRESS_WIDTH: usize = 10;

const REGISTER_WIDTH: usize = 21;

// The registers' range in this form is its own: the bias is its greatest number too.
const REGISTER_BIAS: u32 = 999_999;

const PARAMETER_WIDTH: usize = 32;

const LOVE_WIDTH: usize = 11;

const LOVE_BIAS: u32 = LOVE_DEPTH;

// Where each kind of entry begins, after the three addresses.
const FIRST_REGISTER: usize = 3;

const FIRST_PARAMETER: usize = FIRST_REGISTER + REGISTERS;

const FIRST_LOVE: usize = FIRST_PARAMETER + PARAMETER_COUNT;

pub const ENTRIES: usize = FIRST_LOVE + LOVE_COUNT;

// The addresses come first, an entry each.
const IA_ENTRY: usize = 0;

const LECOM_ENTRY: usize = 1;

const LOVE_ADDRESS_ENTRY: usize = 2;

// A run: how many words it holds, from which on, the bits of each one's field, and what is added to the word there.
#[derive(Clone, Copy)]
pub struct Run {
    pub word: usize,
    pub count: usize,
    pub width: usize,
    pub bias: u32,
}

// The image's runs, in their order.
const RUNS: [Run; 6] = [
    Run {
        word: IA,
        count: 1,
        width: IA_WIDTH,
        bias: 0,
    },
    Run {
        word: LECOM_ADDRESS,
        count: 1,
        width: LECOM_WIDTH,
        bias: 0,
    },
    Run {
        word: LOVE_ADDRESS,
        count: 1,
        width: LOVE_ADDRESS_WIDTH,
        bias: 0,
    },
    Run {
        word: SAVED_REGISTERS,
        count: REGISTERS,
        width: REGISTER_WIDTH,
        bias: REGISTER_BIAS,
    },
    Run {
        word: SAVED_PARAMETERS,
        count: PARAMETER_COUNT,
        width: PARAMETER_WIDTH,
        bias: 0,
    },
    Run {
        word: LOVE,
        count: LOVE_COUNT,
        width: LOVE_WIDTH,
        bias: LOVE_BIAS,
    },
];

pub fn runs() -> &'static [Run]
    ensures { result.now ≡ saved_runs }
{
    &RUNS
}

impl Run {
    // The bits of a run of the form.
    pub fn bits(self) -> usize
        requires { used (entries_of_run self) ≤ used saved_form }
        ensures { result ≡ used (entries_of_run self) }
    {
        self.count * self.width
    }
}

// Whether every entry in whose field one of the values stands is in its range. A run with a bias is judged with it: from 0 on.
#[tactic(auto, using(crate::proofs::Runs::form_length))]
pub fn entries_right(values: &[u32]) -> bool
    requires { length values.now ≡ length saved_form }
    ensures { result ≡ entries_right saved_form values.now }
{
    let ia = in_range(IA, values[IA_ENTRY]);
    let lecom = in_range(LECOM_ADDRESS, values[LECOM_ENTRY]);
    let love = in_range(LOVE_ADDRESS, values[LOVE_ADDRESS_ENTRY]);
    let registers = all_in(
        &values[FIRST_REGISTER..FIRST_PARAMETER],
        0,
        REGISTER_BIAS + REGISTER_BIAS,
    );
    let parameters = fit_parameters(&values[FIRST_PARAMETER..FIRST_LOVE]);
    let limits = all_in(&values[FIRST_LOVE..ENTRIES], 0, LOVE_MOST + LOVE_BIAS);
    ia & (lecom & (love & (registers & (parameters & limits))))
}
