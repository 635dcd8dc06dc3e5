// What the card does with a Datalink order.
ghost use Rattle.std.specs.Prelude.{◌≡◌, ◌+◌, ◌-◌, ◌<◌, ◌≤◌, ◌∷◌, ◌++◌, length};
ghost use Rattle.wire.specs.Buffer.{overlay, part};
ghost use Rattle.card.specs.Layout.{card_of, memory_size, row_size, data_most};
ghost use Rattle.card.specs.Change.{change_bits, memory_start, memory_end};
ghost use Rattle.card.specs.Fitness.{ia_most};
ghost use Rattle.card.specs.Fit.{Fit};
ghost use Rattle.card.specs.Reply.{Gave, Did, Wrote, room_least};
ghost use Rattle.datalink.specs.Form.{frame_num_at, frame_data_at, beside_body, bare_size};
ghost use Rattle.datalink.specs.Frame.{asked};
ghost use Rattle.datalink.specs.Answer.{response, new_byte, changed, acknowledged, body_of, obeyed, ia_of};

use crate::form::Datalink;
use crate::frame::{Order, Silent};
use crate::write::write_frame;
use card::change::{CHANGE_BITS, MEMORY_START, NO_CHANGE};
use card::layout::{DATA, HIGH_ADDRESS, IA, KIND, LOW_ADDRESS, NUM};
use card::numbers::{ANSWERED, DONE, NOTHING_PENDING};
use card::{Outcome, change};

// Here and below memory, ports and out are the slices that `nk_datalink` lends, so that the room in them is a clause, and no type.
// Writes the response whose body is head and then bytes at the front of out.
fn respond(out: &mut [u8], ia: u32, head: &[u8], bytes: &[u8]) -> usize
    requires { (ia ≤ ia_most) × ((length head.now + length bytes.now + beside_body ≤ room_least) × (room_least ≤ length out.old)) }
    ensures { Wrote (response ia (head.now ++ bytes.now)) out.old result out.new }
{
    let second = Datalink::RESPONSE + ia as u8;
    write_frame(out, second, head, bytes)
}

// Makes a change of its kind, with NUM, address and data as its body, the pending one. The kind is the row's byte, here and below.
fn pend(ports: &mut [u8], kind: u8, body: &[u8])
    requires { 1 + length body.now ≤ length ports.old }
    ensures { ports.new ≡ overlay (kind ∷ body.now) ports.old }
{
    ports[KIND] = kind;
    wire::copy(body, ports, NUM);
}

// Byte i of a change: the byte sent, or (old AND mask) OR state.
// The kind is asked of each byte: specs/Answer.antt states the byte of both kinds at once, and a `copy_from_slice` would need a second law.
fn new_byte(kind: u8, old: u8, sent: &[u8], i: usize) -> u8
    requires { (i < length sent.now) × (kind ≡ change_bits → i + i + 1 < length sent.now) }
    ensures { result ≡ new_byte kind old sent.now i }
{
    if kind == CHANGE_BITS {
        return (old & sent[2 * i]) | sent[2 * i + 1];
    }
    sent[i]
}

// Applies the first count bytes of a change to memory from index a on.
fn apply(memory: &mut [u8], kind: u8, a: usize, sent: &[u8], count: usize)
    requires { (a + count ≤ length memory.old) × ((count ≤ length sent.now) × (kind ≡ change_bits → count + count ≤ length sent.now)) }
    ensures { memory.new ≡ changed kind a sent.now count memory.old }
{
    for i in 0..count {
        let at = a + i;
        memory[at] = new_byte(kind, memory[at], sent, i);
    }
}

// Acknowledge: applies and clears the pending change, if there is one.
fn acknowledge(words: &[u32], memory: &mut [u8], ports: &mut [u8]) -> u8
    requires { Fit (card_of words.now memory.old ports.old) }
    ensures { let before = card_of words.now memory.old ports.old in
        let after = card_of words.now memory.new ports.new in
        Did (acknowledged before) result after }
{
    let kind = ports[KIND];
    if kind == NO_CHANGE {
        return NOTHING_PENDING;
    }
    let at = change::two_bytes(ports[LOW_ADDRESS], ports[HIGH_ADDRESS]) as usize;
    let a = at - MEMORY_START as usize;
    let count = change::bytes_named(kind, ports[NUM]) as usize;
    apply(memory, kind, a, &ports[DATA..], count);
    ports[KIND] = NO_CHANGE;
    DONE
}

// Answers an Interrogate: NUM and address as received, and the bytes named.
fn interrogate(memory: &[u8], ia: u32, f: &[u8], at: u16, n: u8, out: &mut [u8]) -> usize
    requires { ((ia ≤ ia_most) × (frame_data_at ≤ length f.now)) × (((memory_start ≤ at) × (at + n ≤ memory_end)) × ((n ≤ data_most) × ((length memory.now ≡ memory_size) × (room_least ≤ length out.old)))) }
    ensures { Wrote (response ia (part f.now frame_num_at frame_data_at ++ part memory.now (at - memory_start) (at - memory_start + n))) out.old result out.new }
{
    let a = at as usize - MEMORY_START as usize;
    let e = a + n as usize;
    respond(out, ia, &f[Datalink::NUM..Datalink::DATA], &memory[a..e])
}

// Echoes a change of its kind and NUM, which becomes the pending one.
fn echo(ports: &mut [u8], ia: u32, f: &[u8], kind: u8, num: u8, out: &mut [u8]) -> usize
    requires { ((ia ≤ ia_most) × (length f.now ≡ bare_size + num)) × ((num ≤ data_most) × ((length ports.old ≡ row_size) × (room_least ≤ length out.old))) }
    ensures { Wrote (response ia (body_of f.now num)) out.old result out.new × (ports.new ≡ overlay (kind ∷ body_of f.now num) ports.old) }
{
    let e = Datalink::DATA + num as usize;
    let len = respond(
        out,
        ia,
        &f[Datalink::NUM..Datalink::DATA],
        &f[Datalink::DATA..e],
    );
    pend(ports, kind, &f[Datalink::NUM..e]);
    len
}

// Carries out what the frame f asks, the order, on a fit card. One match: each case is answered in another way.
pub fn obey(
    words: &[u32],
    memory: &mut [u8],
    ports: &mut [u8],
    f: &[u8],
    order: Result<Order, Silent>,
    out: &mut [u8],
) -> Outcome
    requires { let card = card_of words.now memory.old ports.old in
        (Fit card × (room_least ≤ length out.old)) × (order ≡ asked (ia_of card) f.now) }
    ensures { let before = card_of words.now memory.old ports.old in
        let after = card_of words.now memory.new ports.new in
        Gave (obeyed before f.now order) out.old result after out.new }
{
    let ia = words[IA];
    match order {
        Err(Silent(number)) => Outcome { number, len: 0 },
        Ok(Order::Interrogate(at, n)) => Outcome {
            number: ANSWERED,
            len: interrogate(memory, ia, f, at, n, out),
        },
        Ok(Order::Change(kind, num)) => Outcome {
            number: ANSWERED,
            len: echo(ports, ia, f, kind, num, out),
        },
        Ok(Order::Acknowledge) => Outcome {
            number: acknowledge(words, memory, ports),
            len: 0,
        },
    }
}
