// What a LucidControl frame asks: document 01's order, a test and its refusal at a time.
ghost use Rattle.std.specs.Prelude.{◌≡◌, ◌==◌, true, ◌+◌, ◌*◌, ◌<◌, ◌≤◌, length};
ghost use Rattle.wire.specs.Sum.{byte_values};
ghost use Rattle.card.specs.Layout.{channels};
ghost use Rattle.lucid.specs.Form.{get_param, channels_of, pair_size, number_at, data_at, parameter_size};
ghost use Rattle.lucid.specs.Command.{opc_of, Commands};
ghost use Rattle.lucid.specs.Frame.{is_set, is_group, is_param, is_reset, saves, channel_right, mask_right, type_known, type_writable, option_right, mask_of, len_for, address_known, place_of, asked, len_in};
ghost use Rattle.lucid.specs.Stages.{parameter_asked, command_asked, option_asked, Sized, Addressed};

use crate::form::Lucid;
use card::fitness::in_range;
use card::layout::{CHANNELS, PARAMETERS, PARAMETERS_EACH};
use card::numbers::{COMMAND_UNKNOWN, FRAME_FORM, RANGE_UNKNOWN, READ_ONLY, VALUE_OUTSIDE};
use receiver::Frames;

// A channel's parameters.
const EACH: u8 = PARAMETERS_EACH as u8;

#[derive(Clone, Copy)]
pub enum Refusal {
    // With no byte on the wire: the number.
    Silent(u8),
    // The number and the status.
    Refused(u8, u8),
}

#[derive(Clone, Copy)]
pub enum Order {
    // A type, and the mask of the channels whose values are asked. A type is document 01's number: the masters' theorems name the order by it.
    GetIo(u8, u8),
    // The mask of the channels whose demands are set.
    SetIo(u8),
    // A parameter's place.
    GetParam(u8),
    // A parameter's place, whether its saved copy is set too, and the value.
    SetParam(u8, bool, u32),
    // A parameter's place, and whether its saved copy is reset too.
    Reset(u8, bool),
}

// What OPC commands.
#[derive(Clone, Copy)]
pub enum Command {
    GetIo,
    GetIoGroup,
    SetIo,
    SetIoGroup,
    SetParam,
    GetParam,
}

impl TryFrom<u8> for Command {
    type Error = Refusal;

    ghost try_from_gives = { Commands };

    fn try_from(opc: u8) -> Result<Self, Refusal> {
        match opc {
            Lucid::GET_IO => Ok(Command::GetIo),
            Lucid::GET_IO_GROUP => Ok(Command::GetIoGroup),
            Lucid::SET_IO => Ok(Command::SetIo),
            Lucid::SET_IO_GROUP => Ok(Command::SetIoGroup),
            Lucid::SET_PARAM => Ok(Command::SetParam),
            Lucid::GET_PARAM => Ok(Command::GetParam),
            _ => Err(Refusal::Refused(COMMAND_UNKNOWN, Lucid::NO_SUPPORT)),
        }
    }
}

impl Command {
    fn is_set(self) -> bool
        ensures { result ≡ is_set (opc_of self) }
    {
        matches!(self, Command::SetIo | Command::SetIoGroup)
    }

    fn is_group(self) -> bool
        ensures { result ≡ is_group (opc_of self) }
    {
        matches!(self, Command::GetIoGroup | Command::SetIoGroup)
    }

    fn is_param(self) -> bool
        ensures { result ≡ is_param (opc_of self) }
    {
        matches!(self, Command::SetParam | Command::GetParam)
    }

    // GetParam.
    fn is_read(self) -> bool
        ensures { result ≡ (opc_of self == get_param) }
    {
        matches!(self, Command::GetParam)
    }

    // SetParam with option 01h.
    fn is_reset(self, p2: u8) -> bool
        ensures { result ≡ is_reset (opc_of self) p2 }
    {
        matches!(self, Command::SetParam) & (p2 & Lucid::DEFAULT != 0)
    }
}

// OPC, P1 and P2 of a frame.
#[derive(Clone, Copy)]
struct Head {
    command: Command,
    p1: u8,
    p2: u8,
}

impl Head {
    // Option 80h.
    fn is_saved(self) -> bool
        ensures { result ≡ saves self.p2 }
    {
        self.p2 & Lucid::PERSISTENT != 0
    }

    fn channel_right(self) -> bool
        ensures { result ≡ channel_right (opc_of self.command) self.p1 }
    {
        self.command.is_group() | (self.p1 < CHANNELS as u8)
    }

    fn mask_right(self) -> bool
        ensures { result ≡ mask_right (opc_of self.command) self.p1 }
    {
        !self.command.is_group() | ((1 <= self.p1) & (self.p1 <= Lucid::MASK_MOST))
    }

    fn type_known(self) -> bool
        ensures { result ≡ type_known (opc_of self.command) self.p2 }
    {
        self.command.is_param()
            | ((self.p2 == Lucid::DEMAND)
                | ((self.p2 == Lucid::TENTHS) | (self.p2 == Lucid::HUNDREDTHS)))
    }

    fn type_writable(self) -> bool
        ensures { result ≡ type_writable (opc_of self.command) self.p2 }
    {
        !self.command.is_set() | (self.p2 == Lucid::DEMAND)
    }

    fn option_right(self) -> bool
        ensures { result ≡ option_right (opc_of self.command) self.p2 }
    {
        if !self.command.is_param() {
            return true;
        }
        let allowed = matches!(self.command, Command::SetParam)
            & (self.p2 & Lucid::OTHER_BITS == 0);
        (self.p2 == 0) | allowed
    }

    // The mask of the channels that a command on values names.
    // The channel is right by a clause, here and below: a type for what stands between two tests would be a second `Head`.
    fn mask_of(self) -> u8
        requires { channel_right (opc_of self.command) self.p1 ≡ true }
        ensures { result ≡ mask_of (opc_of self.command) self.p1 }
    {
        if self.command.is_group() {
            return self.p1;
        }
        1 << self.p1
    }

    // LEN for the command.
    fn len_for(self) -> u8
        requires { channel_right (opc_of self.command) self.p1 ≡ true }
        ensures { result ≡ len_for (opc_of self.command) self.p1 self.p2 }
    {
        match self.command {
            Command::GetIo | Command::GetIoGroup => 0,
            Command::SetIo | Command::SetIoGroup => Lucid::size(self.p2) * count(self.mask_of()),
            Command::GetParam => Lucid::ADDRESS_SIZE,
            Command::SetParam => {
                if self.command.is_reset(self.p2) {
                    return Lucid::ADDRESS_SIZE;
                }
                Lucid::ADDRESS_SIZE + Lucid::PARAMETER_SIZE
            }
        }
    }
}

// How many channels a mask names.
pub fn count(mask: u8) -> u8
    ensures { (result ≡ length (channels_of mask)) × (result ≤ channels) }
{
    (mask & Lucid::MASK_MOST).count_ones() as u8
}

// The number that two bytes are, low byte first.
pub fn pair(f: &[u8], at: usize) -> u32
    requires { at + 1 < length f.now }
    ensures { (result ≡ number_at pair_size f.now at) × (result < byte_values * byte_values) }
{
    let low = f[at];
    let high = f[at + 1];
    u16::from_le_bytes([low, high]) as u32
}

// The number that four bytes are, low byte first.
pub fn quad(f: &[u8], at: usize) -> u32
    requires { at + parameter_size ≤ length f.now }
    ensures { result ≡ number_at parameter_size f.now at }
{
    u32::from_le_bytes([f[at], f[at + 1], f[at + 2], f[at + 3]])
}

pub fn address_known(address: u32) -> bool
    ensures { result ≡ address_known address }
{
    (address == Lucid::CYCLE) | (address == Lucid::FLOOR)
}

// A parameter's place: channel by channel, 1110h first.
pub fn place_of(channel: u8, address: u32) -> u8
    requires { channel < channels }
    ensures { result ≡ place_of channel address }
{
    if address == Lucid::CYCLE {
        return EACH * channel;
    }
    EACH * channel + 1
}

// From the address on: SetParam and GetParam.
fn parameter_asked(head: Head, f: &[u8]) -> Result<Order, Refusal>
    requires { Addressed (opc_of head.command) head.p1 head.p2 f.now }
    ensures { result ≡ parameter_asked (opc_of head.command) head.p1 head.p2 f.now }
{
    let address = pair(f, Lucid::DATA);
    if !address_known(address) {
        return Err(Refusal::Refused(RANGE_UNKNOWN, Lucid::INV_PARAM));
    }
    let place = place_of(head.p1, address);
    if head.command.is_read() {
        return Ok(Order::GetParam(place));
    }
    if head.command.is_reset(head.p2) {
        return Ok(Order::Reset(place, head.is_saved()));
    }
    let value = quad(f, Lucid::VALUE);
    if !in_range(PARAMETERS + place as usize, value) {
        return Err(Refusal::Refused(VALUE_OUTSIDE, Lucid::INV_DATA));
    }
    Ok(Order::SetParam(place, head.is_saved(), value))
}

// From the command on.
fn command_asked(head: Head, f: &[u8]) -> Result<Order, Refusal>
    requires { Sized (opc_of head.command) head.p1 head.p2 f.now }
    ensures { result ≡ command_asked (opc_of head.command) head.p1 head.p2 f.now }
{
    match head.command {
        Command::GetIo | Command::GetIoGroup => Ok(Order::GetIo(head.p2, head.mask_of())),
        Command::SetIo | Command::SetIoGroup => Ok(Order::SetIo(head.mask_of())),
        Command::SetParam | Command::GetParam => parameter_asked(head, f),
    }
}

// From type and option on.
fn option_asked(head: Head, f: &[u8]) -> Result<Order, Refusal>
    requires { (channel_right (opc_of head.command) head.p1 ≡ true) × (length f.now ≡ data_at + len_in f.now) }
    ensures { result ≡ option_asked (opc_of head.command) head.p1 head.p2 f.now }
{
    if !head.type_known() {
        return Err(Refusal::Refused(VALUE_OUTSIDE, Lucid::INV_VALUE));
    }
    if !head.type_writable() {
        return Err(Refusal::Refused(READ_ONLY, Lucid::INV_VALUE));
    }
    if !head.option_right() {
        return Err(Refusal::Refused(VALUE_OUTSIDE, Lucid::INV_P2));
    }
    if f[Lucid::LEN] != head.len_for() {
        return Err(Refusal::Refused(FRAME_FORM, Lucid::INV_LENGTH));
    }
    command_asked(head, f)
}

// What a frame asks.
pub(crate) fn order_of(f: &[u8]) -> Result<Order, Refusal>
    ensures { result ≡ asked f.now }
{
    if !Lucid::fits(f.len()) {
        return Err(Refusal::Silent(FRAME_FORM));
    }
    if f.len() != Lucid::DATA + f[Lucid::LEN] as usize {
        return Err(Refusal::Refused(FRAME_FORM, Lucid::INV_LENGTH));
    }
    let command = Command::try_from(f[Lucid::OPC])?;
    let head = Head {
        command,
        p1: f[Lucid::P1],
        p2: f[Lucid::P2],
    };
    if !head.channel_right() {
        return Err(Refusal::Refused(RANGE_UNKNOWN, Lucid::INV_CHANNEL));
    }
    if !head.mask_right() {
        return Err(Refusal::Refused(RANGE_UNKNOWN, Lucid::INV_P1));
    }
    option_asked(head, f)
}
