// LucidControl's master for a box in C: thin, each entry with the whole contract of the one below it. include/nakshvilor.h describes them.
// The three masters' entries have one shape, but C calls each by its own name; what is of no dialect is `hand_over` and `hand_hearing`.
ghost use Rattle.std.specs.Prelude.{◌≡◌, leb, length};
ghost use Rattle.wire.specs.Choose.{choose};
ghost use Rattle.card.specs.Reply.{Told};
ghost use Rattle.asking.specs.Hearing.{unless_outside};
ghost use Rattle.asking.specs.Made.{making};
ghost use Rattle.lucid_master.specs.Request.{asking_of, askable, made};
ghost use Rattle.lucid_master.specs.Heard.{heard};
ghost use Rattle.firmware.specs.Hearing.{HandedHearing};
ghost use Rattle.firmware.specs.Requests.{nowhere, last_command, command_of, lucid_request};

use crate::hearing::HeardInC;
use crate::{hand_over, hearing};
use lucid_master::request::{Command, Request};

// include/nakshvilor.h: the commands. Any other number is GetIo of no channel, which 7 refuses; so `command_of` is no TryFrom.
const GET_IO_GROUP: u8 = 1;

const SET_IO: u8 = 2;

const SET_IO_GROUP: u8 = 3;

const GET_PARAM: u8 = 4;

const SET_PARAM: u8 = 5;

const RESET: u8 = 6;

const NO_CHANNEL: u32 = u32::MAX;

#[tactic(auto, unfolding(crate::specs::Requests::command_of, wire::specs::Choose::choose))]
fn command_of(command: u8) -> Command
    ensures { result ≡ command_of command }
{
    match command {
        GET_IO_GROUP => Command::GetIoGroup,
        SET_IO => Command::SetIo,
        SET_IO_GROUP => Command::SetIoGroup,
        GET_PARAM => Command::GetParam,
        SET_PARAM => Command::SetParam,
        RESET => Command::Reset,
        _ => Command::GetIo,
    }
}

#[tactic(auto, unfolding(wire::specs::Choose::choose))]
fn p1_of(command: u8, p1: u32) -> u32
    ensures { result ≡ choose (leb command last_command) p1 nowhere }
{
    if command <= RESET { p1 } else { NO_CHANNEL }
}

#[tactic(auto, unfolding(crate::specs::Requests::lucid_request))]
fn request_of(command: u8, p1: u32, p2: u32, address: u32) -> Request
    ensures { result ≡ lucid_request command p1 p2 address }
{
    Request {
        command: command_of(command),
        p1: p1_of(command, p1),
        p2,
        address,
    }
}

pub fn nk_ask_lucid(
    command: u8,
    p1: u32,
    p2: u32,
    address: u32,
    values: &[u32],
    frame: &mut [u8],
    len: &mut usize,
) -> u8
    ensures { let q = asking_of (lucid_request command p1 p2 address) values.now in
        let before = frame.old in
        Told (making (askable q) (made q) (length before)) before result len.new frame.new }
{
    let given = lucid_master::make(request_of(command, p1, p2, address), values, frame);
    hand_over(given, len)
}

pub fn nk_hear_lucid(
    command: u8,
    p1: u32,
    p2: u32,
    address: u32,
    values: &[u32],
    reply: &[u8],
) -> HeardInC
    ensures { let q = asking_of (lucid_request command p1 p2 address) values.now in
        HandedHearing (unless_outside (askable q) (heard q reply.now)) result }
{
    let heard = lucid_master::read(request_of(command, p1, p2, address), values, reply);
    hearing::hand_hearing(heard)
}
