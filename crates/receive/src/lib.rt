// The receivers' entries: bytes reach the card as they come. Document 02, M-100. The dialects' own rules are in their crates, module collect.
#![tactic(auto)]

ghost use Rattle.std.specs.Prelude.{◌≡◌, ℕ, ◌++◌, ◌∷◌, [], ◌<◌, ◌≤◌, length};
ghost use Rattle.card.specs.Layout.{card_of, row_size, datalink_part_at, lecom_part_at, love_part_at, lucid_part_at};
ghost use Rattle.card.specs.Reply.{Did, Wrote};
ghost use Rattle.receive.specs.Parts.{longest_of, bytes_at, front, within, all_within};
ghost use Rattle.receive.specs.Receive.{ready, receive_reply, quiet_reply, Took};
ghost use Rattle.receive.specs.Rules.{IsOf, of_datalink, of_lecom, of_love, of_lucid};
ghost use Rattle.receive.specs.Stages.{Held, TookByte, Skipped, TookAll};

use card::fitness::is_fit;
use card::layout::{COUNT, DATALINK_PART, LECOM_PART, LOVE_PART, LUCID_PART};
use card::numbers::{CARD_UNFIT, DONE, FRAME_BUFFER_SHORT};
use card::{done_with, row};
use datalink::form::Datalink;
use lecom::form::Lecom;
use love::form::Love;
use lucid::form::Lucid;
use receiver::{Collect, Frames, Place};

// How a caller of `receive` and `quiet` names a dialect, and their contracts too. Inside each is a type, chosen once.
#[derive(Clone, Copy)]
pub enum Dialect {
    Datalink,
    Lecom,
    Love,
    Lucid,
}

// What a call of receive gives, as C takes it (`nk_receive_datalink` and the others): its number, how many bytes it took, and the length of the
// frame that it hands over, 0 for none.
#[derive(Clone, Copy)]
pub struct Received {
    pub number: u8,
    pub taken: usize,
    pub len: usize,
}

// The part frame of a dialect's type: where it stands in the row, and whose it is.
trait PartFrame: Collect {
    ghost use Rattle.receive.specs.declared.Dialect.{Dialect};

    const AT: usize;

    ghost AT: { ℕ };

    ghost dialect: { Dialect };

    ghost rules: { IsOf dialect Self.step Self.held Self.LONGEST AT };
}

impl PartFrame for Datalink {
    ghost use Rattle.receive.specs.declared.Dialect.{Dialect};

    const AT: usize = DATALINK_PART;

    ghost AT = { datalink_part_at };

    ghost dialect = { Dialect.Datalink };

    ghost rules = { of_datalink };
}

impl PartFrame for Lecom {
    ghost use Rattle.receive.specs.declared.Dialect.{Dialect};

    const AT: usize = LECOM_PART;

    ghost AT = { lecom_part_at };

    ghost dialect = { Dialect.Lecom };

    ghost rules = { of_lecom };
}

impl PartFrame for Love {
    ghost use Rattle.receive.specs.declared.Dialect.{Dialect};

    const AT: usize = LOVE_PART;

    ghost AT = { love_part_at };

    ghost dialect = { Dialect.Love };

    ghost rules = { of_love };
}

impl PartFrame for Lucid {
    ghost use Rattle.receive.specs.declared.Dialect.{Dialect};

    const AT: usize = LUCID_PART;

    ghost AT = { lucid_part_at };

    ghost dialect = { Dialect.Lucid };

    ghost rules = { of_lucid };
}

// Where its bytes stand, behind its count.
fn bytes_at<D: PartFrame>() -> usize
    ensures { result ≡ bytes_at D.dialect }
{
    D::AT + COUNT
}

// Whether the dialect's part frame is within the rules.
fn is_within<D: PartFrame>(ports: &[u8]) -> bool
    requires { length ports.now ≡ row_size }
    ensures { result ≡ within D.dialect ports.now }
{
    let n = row::count(ports, D::AT);
    if D::LONGEST < n {
        return false;
    }
    let first = bytes_at::<D>();
    D::holds(&ports[first..first + n])
}

// Whether every part frame is within the rules: four calls, in the order of the definition, which an edit of the third tells apart.
fn all_within(ports: &[u8]) -> bool
    requires { length ports.now ≡ row_size }
    ensures { result ≡ all_within ports.now }
{
    if !is_within::<Datalink>(ports) {
        return false;
    }
    if !is_within::<Lecom>(ports) {
        return false;
    }
    if !is_within::<Love>(ports) {
        return false;
    }
    is_within::<Lucid>(ports)
}

// Number 12 of the receivers: the card, and every part frame.
fn is_ready(words: &[u32], memory: &[u8], ports: &[u8]) -> bool
    ensures { result ≡ ready (card_of words.now memory.now ports.now) }
{
    if !is_fit(words, memory, ports) {
        return false;
    }
    all_within(ports)
}

// A byte b comes behind the n bytes collected. Gives how many are then collected; none where it finishes a frame, and then it is not stored.
// The row is C's buffer, and the count stands in it: no struct can own both between calls, so they are held by clauses, here and below.
fn feed<D: PartFrame>(ports: &mut [u8], n: usize, b: u8) -> Option<usize>
    requires { Held D.dialect n ports.old × (length ports.old ≡ row_size) }
    ensures { TookByte D.dialect n ports.old b result ports.new }
{
    let first = bytes_at::<D>();
    match D::place(&ports[first..first + n], b) {
        Place::Behind => {
            ports[first + n] = b;
            Some(n + 1)
        }
        Place::First => {
            ports[first] = b;
            Some(1)
        }
        Place::Nowhere => Some(0),
        Place::Last => None,
    }
}

// Writes the frame of the n bytes collected and its last byte at the front of frame.
fn hand_over<D: PartFrame>(ports: &[u8], n: usize, last: u8, frame: &mut [u8]) -> usize
    requires { ((n < longest_of D.dialect) × (length ports.now ≡ row_size)) × (longest_of D.dialect ≤ length frame.old) }
    ensures { Wrote (front D.dialect n ports.now ++ (last ∷ [])) frame.old result frame.new }
{
    let first = bytes_at::<D>();
    wire::copy(&ports[first..first + n], frame, 0);
    frame[n] = last;
    n + 1
}

// Stores the bytes that are kept whatever they are, in one copy, and leaves one at least to be looked at. Gives how many.
fn skip<D: PartFrame>(ports: &mut [u8], n: usize, bytes: &[u8]) -> usize
    requires { (Held D.dialect n ports.old × (length ports.old ≡ row_size)) × (0 < length bytes.now) }
    ensures { Skipped D.dialect n ports.old bytes.now result ports.new }
{
    let first = bytes_at::<D>();
    let most = D::sure(&ports[first..first + n]);
    if most == 0 {
        return 0;
    }
    let m = most.min(bytes.len() - 1);
    wire::copy(&bytes[..m], ports, first + n);
    m
}

// What a call did: how many bytes it took, the length of the frame that it finished, 0 for none as C takes it, and how many bytes are then
// collected.
#[derive(Clone, Copy)]
struct Gathered {
    taken: usize,
    len: usize,
    count: usize,
}

// Feeds the bytes one by one behind the n bytes collected, until one finishes a frame.
fn gather<D: PartFrame>(ports: &mut [u8], n: usize, bytes: &[u8], frame: &mut [u8]) -> Gathered
    requires { (Held D.dialect n ports.old × (length ports.old ≡ row_size)) × (longest_of D.dialect ≤ length frame.old) }
    ensures { TookAll D.dialect n ports.old bytes.now frame.old result ports.new frame.new }
{
    let mut count = n;
    let mut i = 0;
    // A while loop: a turn takes the run of bytes that are kept and one byte more, so that i goes by more than one.
    while i < bytes.len() {
        let m = skip::<D>(ports, count, &bytes[i..]);
        let at = i + m;
        let b = bytes[at];
        let Some(left) = feed::<D>(ports, count + m, b) else {
            return Gathered {
                taken: at + 1,
                len: hand_over::<D>(ports, count + m, b, frame),
                count: 0,
            };
        };
        count = left;
        i = at + 1;
    }
    Gathered {
        taken: i,
        len: 0,
        count,
    }
}

// A refusal: no byte is taken.
fn untaken(number: u8) -> Received
    ensures { ((result.number ≡ number) × (result.taken ≡ 0)) × (result.len ≡ 0) }
{
    Received {
        number,
        taken: 0,
        len: 0,
    }
}

// Bytes reach the receiver of a dialect's type.
fn receive_in<D: PartFrame>(
    words: &[u32],
    memory: &[u8],
    ports: &mut [u8],
    bytes: &[u8],
    frame: &mut [u8],
) -> Received
    ensures { let before = card_of words.now memory.now ports.old in
        let after = card_of words.now memory.now ports.new in
        Took (receive_reply D.dialect before (length frame.old) bytes.now) frame.old result after frame.new }
{
    if !is_ready(words, memory, ports) {
        return untaken(CARD_UNFIT);
    }
    if frame.len() < D::LONGEST {
        return untaken(FRAME_BUFFER_SHORT);
    }
    let at = D::AT;
    let n = row::count(ports, at);
    let gathered = gather::<D>(ports, n, bytes, frame);
    row::set_count(ports, at, gathered.count);
    Received {
        number: done_with(gathered.len),
        taken: gathered.taken,
        len: gathered.len,
    }
}

// Bytes reach the dialect's receiver; a frame that they finish goes to the front of frame, and the call stops behind it.
// This match, and that of `quiet`, is where the dialect's type is chosen.
pub fn receive(
    dialect: Dialect,
    words: &[u32],
    memory: &[u8],
    ports: &mut [u8],
    bytes: &[u8],
    frame: &mut [u8],
) -> Received
    ensures { let before = card_of words.now memory.now ports.old in
        let after = card_of words.now memory.now ports.new in
        Took (receive_reply dialect before (length frame.old) bytes.now) frame.old result after frame.new }
{
    match dialect {
        Dialect::Datalink => receive_in::<Datalink>(words, memory, ports, bytes, frame),
        Dialect::Lecom => receive_in::<Lecom>(words, memory, ports, bytes, frame),
        Dialect::Love => receive_in::<Love>(words, memory, ports, bytes, frame),
        Dialect::Lucid => receive_in::<Lucid>(words, memory, ports, bytes, frame),
    }
}

// The receiver of a dialect's type is told of a quiet line.
fn quiet_in<D: PartFrame>(words: &[u32], memory: &[u8], ports: &mut [u8]) -> u8
    ensures { let before = card_of words.now memory.now ports.old in
        let after = card_of words.now memory.now ports.new in
        Did (quiet_reply D.dialect before) result after }
{
    if !is_ready(words, memory, ports) {
        return CARD_UNFIT;
    }
    row::set_count(ports, D::AT, 0);
    DONE
}

// The dialect's receiver is told of a quiet line: what was collected is dropped.
pub fn quiet(dialect: Dialect, words: &[u32], memory: &[u8], ports: &mut [u8]) -> u8
    ensures { let before = card_of words.now memory.now ports.old in
        let after = card_of words.now memory.now ports.new in
        Did (quiet_reply dialect before) result after }
{
    match dialect {
        Dialect::Datalink => quiet_in::<Datalink>(words, memory, ports),
        Dialect::Lecom => quiet_in::<Lecom>(words, memory, ports),
        Dialect::Love => quiet_in::<Love>(words, memory, ports),
        Dialect::Lucid => quiet_in::<Lucid>(words, memory, ports),
    }
}
