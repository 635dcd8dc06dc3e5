// What a Datalink frame asks.
ghost use Rattle.std.specs.Prelude.{◌≡◌, ◌==◌, ◌≤◌, true, length};
ghost use Rattle.datalink.specs.Form.{shortest, acknowledge_bits};
ghost use Rattle.datalink.specs.Command.{bits_of, Commands};
ghost use Rattle.datalink.specs.Frame.{ia_in, command_in, kind_of, carried, form_right, lrc_right, asked};
ghost use Rattle.datalink.specs.Stages.{command_of, order_in, order_at, order_here};

use crate::form::Datalink;
use card::change;
use card::change::{CHANGE, CHANGE_BITS, NO_CHANGE};
use card::numbers::{
    CHECK_CHARACTER, COMMAND_UNKNOWN, FOREIGN_ADDRESS, FRAME_FORM, RANGE_UNKNOWN, READ_ONLY,
};
use receiver::Frames;

// What a frame asks.
#[derive(Clone, Copy)]
pub enum Order {
    // Interrogate: the address and how many bytes from there on.
    Interrogate(u16, u8),
    // Change or Change Bits: its kind and NUM. The kind is the byte that the row keeps, which C lends (`nk_datalink`), so it stays a number.
    Change(u8, u8),
    // Acknowledge.
    Acknowledge,
}

// Refused with a number, and no bytes are sent: all refusals of this dialect are silent.
#[derive(Clone, Copy)]
pub struct Silent(pub u8);

// What the command bits of a second byte command.
#[derive(Clone, Copy)]
pub enum Command {
    Interrogate,
    Change,
    ChangeBits,
    Acknowledge,
}

impl TryFrom<u8> for Command {
    type Error = Silent;

    ghost try_from_gives = { Commands };

    fn try_from(bits: u8) -> Result<Self, Silent> {
        match bits {
            Datalink::INTERROGATE => Ok(Command::Interrogate),
            Datalink::CHANGE => Ok(Command::Change),
            Datalink::CHANGE_BITS => Ok(Command::ChangeBits),
            Datalink::ACKNOWLEDGE => Ok(Command::Acknowledge),
            _ => Err(Silent(COMMAND_UNKNOWN)),
        }
    }
}

impl Command {
    pub(crate) fn is_acknowledge(self) -> bool
        ensures { result ≡ (bits_of self == acknowledge_bits) }
    {
        matches!(self, Command::Acknowledge)
    }

    // The kind of change that it asks for.
    pub(crate) fn kind(self) -> u8
        ensures { result ≡ kind_of (bits_of self) }
    {
        match self {
            Command::Change => CHANGE,
            Command::ChangeBits => CHANGE_BITS,
            Command::Interrogate | Command::Acknowledge => NO_CHANGE,
        }
    }
}

// The I.A. of a frame. By %, as the command bits below by / and *: specs/Frame.antt states both so.
fn ia_in(f: &[u8]) -> u32
    requires { shortest ≤ length f.now }
    ensures { result ≡ ia_in f.now }
{
    (f[Datalink::SECOND] % Datalink::IA_VALUES) as u32
}

// The command bits of a second byte.
pub(crate) fn command_of(second: u8) -> u8
    ensures { result ≡ command_of second }
{
    second / Datalink::IA_VALUES * Datalink::IA_VALUES
}

// The command bits of a frame.
fn command_in(f: &[u8]) -> u8
    requires { shortest ≤ length f.now }
    ensures { result ≡ command_in f.now }
{
    command_of(f[Datalink::SECOND])
}

// How many data bytes a frame of NUM carries.
pub(crate) fn data_carried(kind: u8, num: u8) -> u8
    ensures { result ≡ carried kind num }
{
    if kind == NO_CHANGE {
        return 0;
    }
    num
}

// Length and NUM of a frame of this command. The command stands beside its frame, here and below: a struct of both would be a type more.
fn form_right(command: Command, f: &[u8]) -> bool
    requires { bits_of command ≡ command_in f.now }
    ensures { result ≡ form_right f.now }
{
    if command.is_acknowledge() {
        return f.len() == Datalink::ACKNOWLEDGE_SIZE;
    }
    if f.len() < Datalink::BARE {
        return false;
    }
    let kind = command.kind();
    let num = f[Datalink::NUM];
    let data = data_carried(kind, num);
    let right = change::num_right(kind, num);
    (f.len() == Datalink::BARE + data as usize) & right
}

// The LRC of a frame of this command.
fn lrc_right(command: Command, f: &[u8]) -> bool
    requires { (shortest ≤ length f.now) × (bits_of command ≡ command_in f.now) }
    ensures { result ≡ lrc_right f.now }
{
    let last = f.len() - 1;
    let sum = wire::sum(&f[Datalink::SECOND..last]);
    command.is_acknowledge() | (sum == f[last])
}

// A frame of this kind, NUM and address: range, read-only for a change, and what it asks.
fn order_at(kind: u8, num: u8, at: u16) -> Result<Order, Silent>
    ensures { result ≡ order_at kind num at }
{
    let n = change::bytes_named(kind, num);
    if !change::in_memory(at, n) {
        return Err(Silent(RANGE_UNKNOWN));
    }
    if kind == NO_CHANGE {
        return Ok(Order::Interrogate(at, num));
    }
    if change::names_read_only(at, n) {
        return Err(Silent(READ_ONLY));
    }
    Ok(Order::Change(kind, num))
}

// A frame of this command whose form and LRC are right.
fn order_in(command: Command, f: &[u8]) -> Result<Order, Silent>
    requires { (bits_of command ≡ command_in f.now) × (form_right f.now ≡ true) }
    ensures { result ≡ order_in f.now }
{
    if command.is_acknowledge() {
        return Ok(Order::Acknowledge);
    }
    let kind = command.kind();
    let at = change::two_bytes(f[Datalink::LOW_ADDRESS], f[Datalink::HIGH_ADDRESS]);
    order_at(kind, f[Datalink::NUM], at)
}

// A frame to this unit: command, length and NUM, LRC.
fn order_here(f: &[u8]) -> Result<Order, Silent>
    requires { shortest ≤ length f.now }
    ensures { result ≡ order_here f.now }
{
    let command = Command::try_from(command_in(f))?;
    if !form_right(command, f) {
        return Err(Silent(FRAME_FORM));
    }
    if !lrc_right(command, f) {
        return Err(Silent(CHECK_CHARACTER));
    }
    order_in(command, f)
}

// What the frame f asks of the unit at ia.
pub fn order_of(ia: u32, f: &[u8]) -> Result<Order, Silent>
    ensures { result ≡ asked ia f.now }
{
    if !Datalink::fits(f.len()) {
        return Err(Silent(FRAME_FORM));
    }
    if f[0] != Datalink::START {
        return Err(Silent(FRAME_FORM));
    }
    if ia_in(f) != ia {
        return Err(Silent(FOREIGN_ADDRESS));
    }
    order_here(f)
}
