// The answers that the master takes: an exact echo, and a read-back with everything as asked. An answer is compared where it stands.
ghost use Rattle.std.specs.Prelude.{◌≡◌, ◌*◌, ◌≤◌, length};
ghost use Rattle.wire.specs.Buffer.{same};
ghost use Rattle.card.specs.Layout.{data_most};
ghost use Rattle.card.specs.Fitness.{ia_most};
ghost use Rattle.master.specs.Request.{address_most};
ghost use Rattle.master.specs.Askable.{asked_by};
ghost use Rattle.master.specs.Frames.{pairs, data_of, is_echo, responds, all_asked, confirms};

use crate::frame;
use crate::request::{Askable, Kind};
use datalink::form::Datalink;

// Whether bytes shown are masks and states by turns. By an index: so the loop runs on several bytes at once, and with pairs zipped to masks
// and states it runs on one.
fn is_by_turns(shown: &[u8], masks: &[u8], states: &[u8]) -> bool
    requires { (length masks.now ≡ length states.now) × (length shown.now ≡ 2 * length masks.now) }
    ensures { result ≡ same shown.now (pairs masks.now states.now) }
{
    let mut ok = true;
    for i in 0..masks.len() {
        let mask = shown[2 * i] == masks[i];
        let state = shown[2 * i + 1] == states[i];
        ok = ok & (mask & state);
    }
    ok
}

// How many data bytes the request's change has.
fn num_of(request: Askable) -> usize
    ensures { result ≡ length (data_of (asked_by request.entry).ask) }
{
    let ask = request.ask;
    match ask.kind {
        Kind::Bytes => ask.sent.len(),
        Kind::Bits => 2 * ask.sent.len(),
    }
}

// Whether bytes shown are the data of the request's change.
fn is_data(request: Askable, shown: &[u8]) -> bool
    requires { length shown.now ≡ length (data_of (asked_by request).ask) }
    ensures { result ≡ same shown.now (data_of (asked_by request.entry).ask) }
{
    let ask = request.ask;
    match ask.kind {
        Kind::Bytes => wire::is_same(shown, ask.sent),
        Kind::Bits => is_by_turns(shown, ask.sent, ask.states),
    }
}

// Whether an answer is a response with this I.A., NUM and address, whatever data it shows.
fn is_response(answer: &[u8], ia: u32, num: usize, address: u32) -> bool
    requires { (ia ≤ ia_most) × ((num ≤ data_most) × (address ≤ address_most)) }
    ensures { result ≡ responds ia num address answer.now }
{
    let last = Datalink::DATA + num;
    if answer.len() != last + 1 {
        return false;
    }
    let second = Datalink::RESPONSE + ia as u8;
    let [num, low, high] = frame::place_in(num, address);
    let head = [Datalink::START, second, num, low, high];
    if !wire::is_same(&answer[..Datalink::DATA], &head) {
        return false;
    }
    answer[last] == wire::sum(&answer[Datalink::SECOND..last])
}

// Whether an answer is the exact echo of the request's change.
pub fn is_echo(request: Askable, answer: &[u8]) -> bool
    ensures { result ≡ is_echo (asked_by request.entry) answer.now }
{
    let num = num_of(request);
    if !is_response(answer, request.ia, num, request.address) {
        return false;
    }
    let e = Datalink::DATA + num;
    is_data(request, &answer[Datalink::DATA..e])
}

// Whether every byte read, or every forced bit, is as asked.
fn all_asked(request: Askable, read: &[u8]) -> bool
    requires { length request.ask.sent.now ≡ length read.now }
    ensures { result ≡ all_asked (asked_by request.entry).ask read.now (length request.entry.ask.sent.now) }
{
    let ask = request.ask;
    let mut ok = true;
    for (i, byte) in read.iter().enumerate() {
        let asked = ask.as_asked(*byte, i);
        ok = ok & (asked == *byte);
    }
    ok
}

// Whether an answer is a read-back with everything as asked.
pub fn is_confirmed(request: Askable, answer: &[u8]) -> bool
    ensures { result ≡ confirms (asked_by request.entry) answer.now }
{
    let named = request.ask.sent.len();
    if !is_response(answer, request.ia, named, request.address) {
        return false;
    }
    let e = Datalink::DATA + named;
    all_asked(request, &answer[Datalink::DATA..e])
}
