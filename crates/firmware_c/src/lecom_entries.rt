// The exports for a box that asks in LECOM.
ghost use Rattle.std.specs.Prelude.{length};
ghost use Rattle.card.specs.Reply.{Told};
ghost use Rattle.asking.specs.Hearing.{unless_outside};
ghost use Rattle.asking.specs.Made.{making};
ghost use Rattle.lecom_master.specs.Request.{askable, made};
ghost use Rattle.lecom_master.specs.Heard.{heard};
ghost use Rattle.firmware.specs.Hearing.{HandedHearing};
ghost use Rattle.firmware.specs.Requests.{lecom_request};

use firmware::hearing::HeardInC;

#[unsafe(no_mangle)]
pub extern "C" fn nk_ask_lecom(
    address: u32,
    task: u8,
    code: u32,
    value: u32,
    frame: &mut [u8],
    len: &mut usize,
) -> u8
    ensures { let q = lecom_request address task code value in
        let before = frame.old in
        Told (making (askable q) (made q) (length before)) before result len.new frame.new }
{
    firmware::lecom_entries::nk_ask_lecom(address, task, code, value, frame, len)
}

#[unsafe(no_mangle)]
pub extern "C" fn nk_hear_lecom(
    address: u32,
    task: u8,
    code: u32,
    value: u32,
    reply: &[u8],
) -> HeardInC
    ensures { let q = lecom_request address task code value in
        HandedHearing (unless_outside (askable q) (heard q reply.now)) result }
{
    firmware::lecom_entries::nk_hear_lecom(address, task, code, value, reply)
}
