// The frames that the master sends.
ghost use Rattle.std.specs.Prelude.{◌≡◌, [], ◌∷◌, ◌+◌, ◌≤◌, length};
ghost use Rattle.wire.specs.Buffer.{overlay};
ghost use Rattle.card.specs.Layout.{data_most};
ghost use Rattle.card.specs.Reply.{Wrote};
ghost use Rattle.card.specs.Fitness.{ia_most};
ghost use Rattle.datalink.specs.Form.{start, acknowledge_bits, framed, longest};
ghost use Rattle.master.specs.Request.{ask_in, address_most};
ghost use Rattle.master.specs.Askable.{asked_by};
ghost use Rattle.master.specs.Frames.{pairs, body, command_of, change_frame, interrogate_frame};

use crate::request::{Ask, Askable, Kind};
use card::layout::DATA_MOST;
use datalink::form::Datalink;
use datalink::write::write_frame;
use receiver::Frames;

// NUM, and the address, its low byte first.
pub fn place_in(num: usize, address: u32) -> [u8; 3]
    requires { (num ≤ data_most) × (address ≤ address_most) }
    ensures { result ≡ body num address [] }
{
    let [low, high] = (address as u16).to_le_bytes();
    [num as u8, low, high]
}

// Writes a frame of this second byte, NUM, address and data at the front of out.
fn write(out: &mut [u8], second: u8, num: usize, address: u32, bytes: &[u8]) -> usize
    requires { ((num ≤ data_most) × (address ≤ address_most)) × ((length bytes.now ≤ data_most) × (longest ≤ length out.old)) }
    ensures { Wrote (framed second (body num address bytes.now)) out.old result out.new }
{
    write_frame(out, second, &place_in(num, address), bytes)
}

// Masks and states by turns at the front of out.
fn interleave(masks: &[u8], states: &[u8], out: &mut [u8])
    requires { (length masks.now ≡ length states.now) × (length masks.now + length masks.now ≤ length out.old) }
    ensures { out.new ≡ overlay (pairs masks.now states.now) out.old }
{
    // An index: of a slice written through `chunks_exact_mut` a proof knows the length alone.
    for i in 0..masks.len() {
        out[2 * i] = masks[i];
        out[2 * i + 1] = states[i];
    }
}

// The command of the request's change.
fn command_of(ask: Ask) -> u8
    ensures { result ≡ command_of (ask_in ask.entry) }
{
    match ask.kind {
        Kind::Bytes => Datalink::CHANGE,
        Kind::Bits => Datalink::CHANGE_BITS,
    }
}

// Sends the request's change. Memory is fixed: an array for the data of Bits, and `write` takes as much of it as they are.
pub fn change(out: &mut [u8], request: Askable) -> usize
    requires { longest ≤ length out.old }
    ensures { Wrote (change_frame (asked_by request.entry)) out.old result out.new }
{
    let ask = request.ask;
    let second = command_of(ask) + request.ia as u8;
    match ask.kind {
        Kind::Bytes => write(out, second, ask.sent.len(), request.address, ask.sent),
        Kind::Bits => {
            let num = 2 * ask.sent.len();
            let mut data = [0u8; DATA_MOST];
            interleave(ask.sent, ask.states, &mut data);
            write(out, second, num, request.address, &data[..num])
        }
    }
}

// Sends the acknowledge.
pub fn acknowledge(out: &mut [u8], ia: u32) -> usize
    requires { (ia ≤ ia_most) × (longest ≤ length out.old) }
    ensures { Wrote (start ∷ (acknowledge_bits + ia) ∷ []) out.old result out.new }
{
    out[0] = Datalink::START;
    out[1] = Datalink::ACKNOWLEDGE + ia as u8;
    Datalink::SHORTEST
}

// Sends an interrogate of the bytes named.
pub fn interrogate(out: &mut [u8], request: Askable) -> usize
    requires { longest ≤ length out.old }
    ensures { Wrote (interrogate_frame (asked_by request.entry)) out.old result out.new }
{
    let second = Datalink::INTERROGATE + request.ia as u8;
    write(out, second, request.ask.sent.len(), request.address, b"")
}
