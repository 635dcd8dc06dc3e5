// The exports for a box that asks in Love.
ghost use Rattle.std.specs.Prelude.{length};
ghost use Rattle.card.specs.Reply.{Told};
ghost use Rattle.asking.specs.Hearing.{unless_outside};
ghost use Rattle.asking.specs.Made.{making};
ghost use Rattle.love_master.specs.Request.{askable, made};
ghost use Rattle.love_master.specs.Heard.{heard};
ghost use Rattle.firmware.specs.Hearing.{HandedHearing};
ghost use Rattle.firmware.specs.Requests.{love_request};

use firmware::hearing::HeardInC;

#[unsafe(no_mangle)]
pub extern "C" fn nk_ask_love(
    address: u32,
    task: u8,
    place: u32,
    value: u32,
    frame: &mut [u8],
    len: &mut usize,
) -> u8
    ensures { let q = love_request address task place value in
        let before = frame.old in
        Told (making (askable q) (made q) (length before)) before result len.new frame.new }
{
    firmware::love_entries::nk_ask_love(address, task, place, value, frame, len)
}

#[unsafe(no_mangle)]
pub extern "C" fn nk_hear_love(
    address: u32,
    task: u8,
    place: u32,
    value: u32,
    reply: &[u8],
) -> HeardInC
    ensures { let q = love_request address task place value in
        HandedHearing (unless_outside (askable q) (heard q reply.now)) result }
{
    firmware::love_entries::nk_hear_love(address, task, place, value, reply)
}
