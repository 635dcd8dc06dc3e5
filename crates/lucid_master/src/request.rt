// What the master may ask: a request, and whether 7 does not refuse it.
ghost use Rattle.std.specs.Prelude.{◌≡◌, ◌&&◌, eqb, length};
ghost use Rattle.lucid.specs.Form.{demand};
ghost use Rattle.lucid.specs.Frame.{address_known};
ghost use Rattle.lucid_master.specs.Request.{asking_of, opc_of, channel_right, mask_right, type_known, all_demands, askable};
ghost use Rattle.lucid_master.specs.declared.request.Command.TheVariants.{SetIoGroup, SetParam};

use card::fitness::{DEMAND_MOST, in_range};
use card::layout::{CHANNELS, PARAMETERS};
use lucid::form::Lucid;
use lucid::frame;

// The options of a reset, without and with the saved copy.
const RESET: u32 = Lucid::DEFAULT as u32;

const RESET_SAVED: u32 = Lucid::DEFAULT as u32 + Lucid::PERSISTENT as u32;

// What may be asked: seven commands, none of them a case of an Option or a Result. A reset is a SetParam with option bit 01h.
#[derive(Clone, Copy)]
pub enum Command {
    GetIo,
    GetIoGroup,
    SetIo,
    SetIoGroup,
    GetParam,
    SetParam,
    Reset,
}

impl Command {
    #[tactic(auto, unfolding(crate::specs::Request::opc_of))]
    pub(crate) fn opc(self) -> u8
        ensures { result ≡ opc_of self }
    {
        match self {
            Command::GetIo => Lucid::GET_IO,
            Command::GetIoGroup => Lucid::GET_IO_GROUP,
            Command::SetIo => Lucid::SET_IO,
            Command::SetIoGroup => Lucid::SET_IO_GROUP,
            Command::GetParam => Lucid::GET_PARAM,
            Command::SetParam => Lucid::SET_PARAM,
            Command::Reset => Lucid::SET_PARAM,
        }
    }
}

// P1 is a channel, of a group a mask; P2 a type or an option; the address a parameter's. The values that it sends are lent beside it: a struct of
// both would hold a reference that make, read and nk_ask_lucid put in and put_frame and is_askable take out again. P1 and P2 are what C hands over.
#[derive(Clone, Copy)]
pub struct Request {
    pub command: Command,
    pub p1: u32,
    pub p2: u32,
    pub address: u32,
}

// Not the card's tests, here and below: those take bytes and a frame's command, and these are what shows that P1 and P2 are bytes.
fn channel_right(p1: u32) -> bool
    ensures { result ≡ channel_right p1 }
{
    p1 < CHANNELS as u32
}

fn mask_right(p1: u32) -> bool
    ensures { result ≡ mask_right p1 }
{
    (1 <= p1) & (p1 <= Lucid::MASK_MOST as u32)
}

fn type_known(p2: u32) -> bool
    ensures { result ≡ type_known p2 }
{
    (p2 == Lucid::DEMAND as u32) | ((p2 == Lucid::TENTHS as u32) | (p2 == Lucid::HUNDREDTHS as u32))
}

// Whether every value is a demand.
fn all_demands(values: &[u32]) -> bool
    ensures { result ≡ all_demands values.now }
{
    values.iter().all(|value| *value <= DEMAND_MOST)
}

// Whether type and values of a request to read are right.
fn get_right(p2: u32, values: &[u32]) -> bool
    ensures { result ≡ (type_known p2 && eqb (length values.now) 0) }
{
    type_known(p2) & (values.len() == 0)
}

// Whether address and values of a request with the address alone are right.
fn addressed_right(address: u32, values: &[u32]) -> bool
    ensures { result ≡ (address_known address && eqb (length values.now) 0) }
{
    frame::address_known(address) & (values.len() == 0)
}

// Whether type and values of a request to set so many demands are right.
fn set_right(p2: u32, count: usize, values: &[u32]) -> bool
    ensures { result ≡ (eqb p2 demand && (eqb (length values.now) count && all_demands values.now)) }
{
    if p2 != Lucid::DEMAND as u32 {
        return false;
    }
    if values.len() != count {
        return false;
    }
    all_demands(values)
}

// Whether 7 does not refuse a SetIoGroup.
fn group_set_right(request: Request, values: &[u32]) -> bool
    requires { request.command ≡ SetIoGroup }
    ensures { result ≡ askable (asking_of request values.now) }
{
    if !mask_right(request.p1) {
        return false;
    }
    set_right(request.p2, frame::count(request.p1 as u8) as usize, values)
}

// Whether 7 does not refuse a SetParam.
fn set_param_right(request: Request, values: &[u32]) -> bool
    requires { request.command ≡ SetParam }
    ensures { result ≡ askable (asking_of request values.now) }
{
    if !channel_right(request.p1) {
        return false;
    }
    let option = request.p2;
    if !((option == 0) | (option == Lucid::PERSISTENT as u32)) {
        return false;
    }
    if !frame::address_known(request.address) {
        return false;
    }
    if values.len() != 1 {
        return false;
    }
    let place = frame::place_of(request.p1 as u8, request.address);
    in_range(PARAMETERS + place as usize, values[0])
}

// Whether number 7 does not refuse the request.
pub(crate) fn is_askable(request: Request, values: &[u32]) -> bool
    ensures { result ≡ askable (asking_of request values.now) }
{
    let Request {
        command,
        p1,
        p2,
        address,
    } = request;
    match command {
        Command::GetIo => channel_right(p1) & get_right(p2, values),
        Command::GetIoGroup => mask_right(p1) & get_right(p2, values),
        Command::SetIo => channel_right(p1) & set_right(p2, 1, values),
        Command::SetIoGroup => group_set_right(request, values),
        Command::GetParam => { channel_right(p1) & ((p2 == 0) & addressed_right(address, values)) }
        Command::SetParam => set_param_right(request, values),
        Command::Reset => {
            let option = (p2 == RESET) | (p2 == RESET_SAVED);
            channel_right(p1) & (option & addressed_right(address, values))
        }
    }
}
