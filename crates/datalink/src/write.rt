// Frames as they are sent, by the card and by the line master.
ghost use Rattle.std.specs.Prelude.{◌+◌, ◌≤◌, ◌++◌, length};
ghost use Rattle.card.specs.Reply.{Wrote, room_least};
ghost use Rattle.datalink.specs.Form.{beside_body, framed};

use crate::form::Datalink;

// Writes a frame at the front of out: 7Eh, its second byte, a body of head and then bytes, and the LRC.
pub fn write_frame(out: &mut [u8], second: u8, head: &[u8], bytes: &[u8]) -> usize
    requires { (length head.now + length bytes.now + beside_body ≤ room_least) × (room_least ≤ length out.old) }
    ensures { Wrote (framed second (head.now ++ bytes.now)) out.old result out.new }
{
    out[0] = Datalink::START;
    out[Datalink::SECOND] = second;
    let headed = wire::copy_sum(head, out, Datalink::NUM);
    let at = Datalink::NUM + head.len();
    let summed = wire::copy_sum(bytes, out, at);
    let end = at + bytes.len();
    out[end] = second.wrapping_add(headed).wrapping_add(summed);
    end + 1
}
