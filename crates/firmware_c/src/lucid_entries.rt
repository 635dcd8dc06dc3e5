// The exports for a box that asks in LucidControl.
ghost use Rattle.std.specs.Prelude.{length};
ghost use Rattle.card.specs.Reply.{Told};
ghost use Rattle.asking.specs.Hearing.{unless_outside};
ghost use Rattle.asking.specs.Made.{making};
ghost use Rattle.lucid_master.specs.Request.{asking_of, askable, made};
ghost use Rattle.lucid_master.specs.Heard.{heard};
ghost use Rattle.firmware.specs.Hearing.{HandedHearing};
ghost use Rattle.firmware.specs.Requests.{lucid_request};

use firmware::hearing::HeardInC;

#[unsafe(no_mangle)]
pub extern "C" fn nk_ask_lucid(
    command: u8,
    p1: u32,
    p2: u32,
    address: u32,
    values: &[u32],
    frame: &mut [u8],
    len: &mut usize,
) -> u8
    ensures { let q = asking_of (lucid_request command p1 p2 address) values.now in
        let before = frame.old in
        Told (making (askable q) (made q) (length before)) before result len.new frame.new }
{
    firmware::lucid_entries::nk_ask_lucid(command, p1, p2, address, values, frame, len)
}

#[unsafe(no_mangle)]
pub extern "C" fn nk_hear_lucid(
    command: u8,
    p1: u32,
    p2: u32,
    address: u32,
    values: &[u32],
    reply: &[u8],
) -> HeardInC
    ensures { let q = asking_of (lucid_request command p1 p2 address) values.now in
        HandedHearing (unless_outside (askable q) (heard q reply.now)) result }
{
    firmware::lucid_entries::nk_hear_lucid(command, p1, p2, address, values, reply)
}
