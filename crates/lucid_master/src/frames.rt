// The frames that the master sends.
ghost use Rattle.std.specs.Prelude.{◌≡◌, true, [], ◌∷◌, ◌+◌, ◌*◌, ◌≤◌, length};
ghost use Rattle.wire.specs.Buffer.{put};
ghost use Rattle.card.specs.Reply.{Wrote};
ghost use Rattle.lucid.specs.Form.{data_at, demand_size, pair_size, address_size, little};
ghost use Rattle.lucid_master.specs.Request.{asking_of, askable, demand_bytes, data_of, made};
ghost use Rattle.lucid_master.specs.Stages.{made_most};
ghost use Rattle.lucid_master.specs.declared.request.Command.TheVariants.{SetParam};

use crate::request::{Command, Request};
use card::layout::CHANNELS;
use lucid::form::Lucid;

// The longest frame: four demands.
pub(crate) const MADE_MOST: usize = Lucid::DATA + CHANNELS * Lucid::DEMAND_SIZE as usize;

// OPC, P1 and P2 of a frame.
#[derive(Clone, Copy)]
struct Head {
    opc: u8,
    p1: u8,
    p2: u8,
}

// Writes the two low bytes of a number, the lower one first.
fn put_pair(out: &mut [u8], at: usize, x: u32)
    requires { at + pair_size ≤ length out.old }
    ensures { out.new ≡ put out.old at (little pair_size x) }
{
    let [low, high, _, _] = x.to_le_bytes();
    out[at] = low;
    out[at + 1] = high;
}

// Writes OPC, P1, P2 and LEN.
fn put_head(out: &mut [u8], head: Head, len: u8)
    requires { data_at ≤ length out.old }
    ensures { Wrote (head.opc ∷ head.p1 ∷ head.p2 ∷ len ∷ []) out.old data_at out.new }
{
    out[Lucid::OPC] = head.opc;
    out[Lucid::P1] = head.p1;
    out[Lucid::P2] = head.p2;
    out[Lucid::LEN] = len;
}

// Writes a frame without data.
fn put_bare(out: &mut [u8], head: Head) -> usize
    requires { data_at ≤ length out.old }
    ensures { Wrote (head.opc ∷ head.p1 ∷ head.p2 ∷ 0 ∷ []) out.old result out.new }
{
    put_head(out, head, 0);
    Lucid::DATA
}

// Writes demands where a frame's data stand.
fn put_demands(out: &mut [u8], values: &[u32])
    requires { data_at + demand_size * length values.now ≤ length out.old }
    ensures { out.new ≡ put out.old data_at (demand_bytes values.now) }
{
    for (i, value) in values.iter().enumerate() {
        put_pair(out, Lucid::DATA + Lucid::DEMAND_SIZE as usize * i, *value);
    }
}

// Writes a frame that sets demands.
fn put_set(out: &mut [u8], head: Head, values: &[u32]) -> usize
    requires { (data_at + demand_size * length values.now ≤ made_most) × (made_most ≤ length out.old) }
    ensures { let bytes = demand_bytes values.now in
        Wrote (head.opc ∷ head.p1 ∷ head.p2 ∷ length bytes ∷ bytes) out.old result out.new }
{
    let len = values.len() * Lucid::DEMAND_SIZE as usize;
    put_head(out, head, len as u8);
    put_demands(out, values);
    Lucid::DATA + len
}

// Writes a frame with the address alone.
fn put_addressed(out: &mut [u8], head: Head, address: u32) -> usize
    requires { made_most ≤ length out.old }
    ensures { let bytes = little address_size address in
        Wrote (head.opc ∷ head.p1 ∷ head.p2 ∷ length bytes ∷ bytes) out.old result out.new }
{
    put_head(out, head, Lucid::ADDRESS_SIZE);
    put_pair(out, Lucid::DATA, address);
    Lucid::VALUE
}

// Writes a SetParam.
fn put_set_param(out: &mut [u8], head: Head, address: u32, value: u32) -> usize
    requires { made_most ≤ length out.old }
    ensures { let bytes = data_of SetParam address (value ∷ []) in
        Wrote (head.opc ∷ head.p1 ∷ head.p2 ∷ length bytes ∷ bytes) out.old result out.new }
{
    put_head(out, head, Lucid::ADDRESS_SIZE + Lucid::PARAMETER_SIZE);
    put_pair(out, Lucid::DATA, address);
    wire::copy(&value.to_le_bytes(), out, Lucid::VALUE);
    Lucid::VALUE + Lucid::PARAMETER_SIZE as usize
}

// Writes the frame of a request.
pub(crate) fn put_frame(out: &mut [u8], request: Request, values: &[u32]) -> usize
    requires { (askable (asking_of request values.now) ≡ true) × (made_most ≤ length out.old) }
    ensures { Wrote (made (asking_of request values.now)) out.old result out.new }
{
    let head = Head {
        opc: request.command.opc(),
        p1: request.p1 as u8,
        p2: request.p2 as u8,
    };
    match request.command {
        Command::GetIo | Command::GetIoGroup => put_bare(out, head),
        Command::SetIo | Command::SetIoGroup => put_set(out, head, values),
        Command::GetParam | Command::Reset => put_addressed(out, head, request.address),
        Command::SetParam => put_set_param(out, head, request.address, values[0]),
    }
}
