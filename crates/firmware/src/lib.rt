// The card's entries for firmware in C: thin, each with the whole contract of the entry below it. include/nakshvilor.h describes them, their
// arguments too: the tables side by side, numbers, and lengths stored in what is lent; crates/firmware_c exports them.
#![tactic(auto)]

pub mod hearing;
pub mod lecom_entries;
pub mod love_entries;
pub mod lucid_entries;

ghost use Rattle.std.specs.Prelude.{◌≡◌, length};
ghost use Rattle.card.specs.Layout.{card_of};
ghost use Rattle.card.specs.Reply.{Gave, Did};
ghost use Rattle.card.specs.Entries.{set_code, restart};
ghost use Rattle.card.specs.Governor.{number_of};
ghost use Rattle.datalink.specs.Answer.{datalink_reply};
ghost use Rattle.lecom.specs.Answer.{lecom_reply};
ghost use Rattle.love.specs.Answer.{love_reply};
ghost use Rattle.lucid.specs.Answer.{lucid_reply};
ghost use Rattle.receive.specs.Receive.{receive_reply, quiet_reply, Took};
ghost use Rattle.receive.specs.declared.Dialect.TheVariants.{Datalink, Lecom, Love, Lucid};
ghost use Rattle.image.specs.Entries.{write_image, read_image};
ghost use Rattle.master.specs.Step.{Stepped};
ghost use Rattle.firmware.specs.Lent.{Handed, HandedReceipt, degrees_in, HandedReading};
ghost use Rattle.firmware.specs.Phases.{code_of, phase_of, kind_of, request_in_c, step_in_c};

use card::Outcome;
use card::governor::Governor;
use card::numbers::{ANSWERED, PROBE_FAULT};
use master::Phase;
use master::request::{Kind, Request};
use receive::{Dialect, Received};

pub fn nk_set_code(words: &[u32], memory: &mut [u8], ports: &[u8], channel: u32, code: u8) -> u8
    ensures { let before = card_of words.now memory.old ports.now in
        let after = card_of words.now memory.new ports.now in
        Did (set_code before channel code) result after }
{
    card::entries::set_code(words, memory, ports, channel, code)
}

pub fn nk_restart(words: &mut [u32], memory: &mut [u8], ports: &mut [u8]) -> u8
    ensures { let before = card_of words.old memory.old ports.old in
        let after = card_of words.new memory.new ports.new in
        Did (restart before) result after }
{
    card::entries::restart_card(words, memory, ports)
}

// The number of a reading; degrees are stored where there are any: the out argument of `nk_governor`.
fn tell(told: Governor, degrees: &mut f32) -> u8
    ensures { (result ≡ number_of told) × (degrees.new ≡ degrees_in told degrees.old) }
{
    match told {
        Governor::Degrees(d) => {
            *degrees = d;
            ANSWERED
        }
        Governor::Fault => PROBE_FAULT,
        Governor::Refused(number) => number,
    }
}

pub fn nk_governor(
    words: &[u32],
    memory: &[u8],
    ports: &[u8],
    channel: u32,
    degrees: &mut f32,
) -> u8
    ensures { let before = card_of words.now memory.now ports.now in
        let after = card_of words.now memory.now ports.now in
        HandedReading before channel degrees.old result after degrees.new }
{
    tell(
        card::governor::governor_reading(words, memory, ports, channel),
        degrees,
    )
}

// Hands an outcome over: the answer's length is stored, and the number returned.
pub(crate) fn hand_over(given: Outcome, len: &mut usize) -> u8
    ensures { Handed given.number given.len result len.new }
{
    *len = given.len;
    given.number
}

pub fn nk_datalink(
    words: &[u32],
    memory: &mut [u8],
    ports: &mut [u8],
    frame: &[u8],
    answer: &mut [u8],
    len: &mut usize,
) -> u8
    ensures { let before = card_of words.now memory.old ports.old in
        let after = card_of words.now memory.new ports.new in
        Gave (datalink_reply before (length answer.old) frame.now) answer.old (record { number = result; len = len.new }) after answer.new }
{
    let given = datalink::datalink(words, memory, ports, frame, answer);
    hand_over(given, len)
}

pub fn nk_lecom(
    words: &mut [u32],
    memory: &[u8],
    ports: &[u8],
    frame: &[u8],
    answer: &mut [u8],
    len: &mut usize,
) -> u8
    ensures { let before = card_of words.old memory.now ports.now in
        let after = card_of words.new memory.now ports.now in
        Gave (lecom_reply before (length answer.old) frame.now) answer.old (record { number = result; len = len.new }) after answer.new }
{
    let given = lecom::lecom(words, memory, ports, frame, answer);
    hand_over(given, len)
}

pub fn nk_love(
    words: &mut [u32],
    memory: &[u8],
    ports: &[u8],
    frame: &[u8],
    answer: &mut [u8],
    len: &mut usize,
) -> u8
    ensures { let before = card_of words.old memory.now ports.now in
        let after = card_of words.new memory.now ports.now in
        Gave (love_reply before (length answer.old) frame.now) answer.old (record { number = result; len = len.new }) after answer.new }
{
    let given = love::love(words, memory, ports, frame, answer);
    hand_over(given, len)
}

pub fn nk_lucid(
    words: &mut [u32],
    memory: &[u8],
    ports: &[u8],
    frame: &[u8],
    answer: &mut [u8],
    len: &mut usize,
) -> u8
    ensures { let before = card_of words.old memory.now ports.now in
        let after = card_of words.new memory.now ports.now in
        Gave (lucid_reply before (length answer.old) frame.now) answer.old (record { number = result; len = len.new }) after answer.new }
{
    let given = lucid::lucid(words, memory, ports, frame, answer);
    hand_over(given, len)
}

// Hands a receipt over: how many bytes were taken and the frame's length are stored, and the number returned.
fn hand_over_receipt(receipt: Received, taken: &mut usize, len: &mut usize) -> u8
    ensures { HandedReceipt receipt result taken.new len.new }
{
    *taken = receipt.taken;
    *len = receipt.len;
    receipt.number
}

// An entry for each dialect, here and for quiet: C calls each by its own name.
pub fn nk_receive_datalink(
    words: &[u32],
    memory: &[u8],
    ports: &mut [u8],
    bytes: &[u8],
    frame: &mut [u8],
    taken: &mut usize,
    len: &mut usize,
) -> u8
    ensures { let before = card_of words.now memory.now ports.old in
        let after = card_of words.now memory.now ports.new in
        Took (receive_reply Datalink before (length frame.old) bytes.now) frame.old (record { number = result; taken = taken.new; len = len.new }) after frame.new }
{
    let receipt = receive::receive(Dialect::Datalink, words, memory, ports, bytes, frame);
    hand_over_receipt(receipt, taken, len)
}

pub fn nk_receive_lecom(
    words: &[u32],
    memory: &[u8],
    ports: &mut [u8],
    bytes: &[u8],
    frame: &mut [u8],
    taken: &mut usize,
    len: &mut usize,
) -> u8
    ensures { let before = card_of words.now memory.now ports.old in
        let after = card_of words.now memory.now ports.new in
        Took (receive_reply Lecom before (length frame.old) bytes.now) frame.old (record { number = result; taken = taken.new; len = len.new }) after frame.new }
{
    let receipt = receive::receive(Dialect::Lecom, words, memory, ports, bytes, frame);
    hand_over_receipt(receipt, taken, len)
}

pub fn nk_receive_love(
    words: &[u32],
    memory: &[u8],
    ports: &mut [u8],
    bytes: &[u8],
    frame: &mut [u8],
    taken: &mut usize,
    len: &mut usize,
) -> u8
    ensures { let before = card_of words.now memory.now ports.old in
        let after = card_of words.now memory.now ports.new in
        Took (receive_reply Love before (length frame.old) bytes.now) frame.old (record { number = result; taken = taken.new; len = len.new }) after frame.new }
{
    let receipt = receive::receive(Dialect::Love, words, memory, ports, bytes, frame);
    hand_over_receipt(receipt, taken, len)
}

pub fn nk_receive_lucid(
    words: &[u32],
    memory: &[u8],
    ports: &mut [u8],
    bytes: &[u8],
    frame: &mut [u8],
    taken: &mut usize,
    len: &mut usize,
) -> u8
    ensures { let before = card_of words.now memory.now ports.old in
        let after = card_of words.now memory.now ports.new in
        Took (receive_reply Lucid before (length frame.old) bytes.now) frame.old (record { number = result; taken = taken.new; len = len.new }) after frame.new }
{
    let receipt = receive::receive(Dialect::Lucid, words, memory, ports, bytes, frame);
    hand_over_receipt(receipt, taken, len)
}

pub fn nk_quiet_datalink(words: &[u32], memory: &[u8], ports: &mut [u8]) -> u8
    ensures { let before = card_of words.now memory.now ports.old in
        let after = card_of words.now memory.now ports.new in
        Did (quiet_reply Datalink before) result after }
{
    receive::quiet(Dialect::Datalink, words, memory, ports)
}

pub fn nk_quiet_lecom(words: &[u32], memory: &[u8], ports: &mut [u8]) -> u8
    ensures { let before = card_of words.now memory.now ports.old in
        let after = card_of words.now memory.now ports.new in
        Did (quiet_reply Lecom before) result after }
{
    receive::quiet(Dialect::Lecom, words, memory, ports)
}

pub fn nk_quiet_love(words: &[u32], memory: &[u8], ports: &mut [u8]) -> u8
    ensures { let before = card_of words.now memory.now ports.old in
        let after = card_of words.now memory.now ports.new in
        Did (quiet_reply Love before) result after }
{
    receive::quiet(Dialect::Love, words, memory, ports)
}

pub fn nk_quiet_lucid(words: &[u32], memory: &[u8], ports: &mut [u8]) -> u8
    ensures { let before = card_of words.now memory.now ports.old in
        let after = card_of words.now memory.now ports.new in
        Did (quiet_reply Lucid before) result after }
{
    receive::quiet(Dialect::Lucid, words, memory, ports)
}

pub fn nk_write_image(
    words: &[u32],
    memory: &[u8],
    ports: &[u8],
    image: &mut [u8],
    len: &mut usize,
) -> u8
    ensures { let before = card_of words.now memory.now ports.now in
        let after = card_of words.now memory.now ports.now in
        Gave (write_image before (length image.old)) image.old (record { number = result; len = len.new }) after image.new }
{
    let given = image::write_image(words, memory, ports, image);
    hand_over(given, len)
}

pub fn nk_read_image(words: &mut [u32], memory: &[u8], ports: &[u8], image: &[u8]) -> u8
    ensures { let before = card_of words.old memory.now ports.now in
        let after = card_of words.new memory.now ports.now in
        Did (read_image before image.now) result after }
{
    image::read_image(words, memory, ports, image)
}

// The line master's phases and a request's kinds as C numbers.
const NEW: u8 = 0;

const CHANGING: u8 = 1;

const ACKNOWLEDGING: u8 = 2;

const READING: u8 = 3;

const ENDED_DONE: u8 = 4;

const ENDED_UNKNOWN: u8 = 5;

const BYTES: u8 = 0;

// Functions and not From or TryFrom: the numbers are C's, any number has a meaning, and the types are the master's.
#[tactic(auto, unfolding(crate::specs::Phases::phase_of, wire::specs::Choose::choose))]
fn phase_of(code: u8) -> Phase
    ensures { result ≡ phase_of code }
{
    match code {
        NEW => Phase::New,
        CHANGING => Phase::Changing,
        ACKNOWLEDGING => Phase::Acknowledging,
        READING => Phase::Reading,
        ENDED_DONE => Phase::EndedDone,
        _ => Phase::EndedUnknown,
    }
}

fn code_of(phase: Phase) -> u8
    ensures { result ≡ code_of phase }
{
    match phase {
        Phase::New => NEW,
        Phase::Changing => CHANGING,
        Phase::Acknowledging => ACKNOWLEDGING,
        Phase::Reading => READING,
        Phase::EndedDone => ENDED_DONE,
        Phase::EndedUnknown => ENDED_UNKNOWN,
    }
}

#[tactic(auto, unfolding(crate::specs::Phases::kind_of, wire::specs::Choose::choose))]
fn kind_of(code: u8) -> Kind
    ensures { result ≡ kind_of code }
{
    match code {
        BYTES => Kind::Bytes,
        _ => Kind::Bits,
    }
}

pub fn nk_step(
    phase: &mut u8,
    kind: u8,
    ia: u32,
    address: u32,
    sent: &[u8],
    states: &[u8],
    answer: &[u8],
    frame: &mut [u8],
    len: &mut usize,
) -> u8
    ensures { let q = request_in_c kind ia address sent.now states.now in
        let before = frame.old in
        Stepped (step_in_c q phase.old answer.now (length before)) before result len.new phase.new frame.new }
{
    let request = Request {
        kind: kind_of(kind),
        ia,
        address,
    };
    let went = master::step(phase_of(*phase), request, sent, states, answer, frame);
    let next = went.phase;
    *phase = code_of(next);
    *len = went.len;
    went.number
}
