// The frames that the master sends.
ghost use Rattle.std.specs.Prelude.{◌≡◌, true, [], ◌∷◌, ◌+◌, ◌/◌, ◌%◌, ◌≤◌, ◌<◌, length};
ghost use Rattle.wire.specs.Buffer.{put};
ghost use Rattle.wire.specs.Sum.{byte_values};
ghost use Rattle.figures.specs.Figure.{decimal, char_of};
ghost use Rattle.figures.specs.Signed.{longest_text};
ghost use Rattle.card.specs.Fitness.{lecom_most};
ghost use Rattle.card.specs.Reply.{Wrote};
ghost use Rattle.lecom.specs.Form.{longest, eot, start_at, standard_hex, closing};
ghost use Rattle.lecom_master.specs.Request.{task_right, askable, checked, task_bytes, made};

use crate::request::{Request, Task};
use card::fitness::FIGURE_VALUES;
use lecom::form::Lecom;
use lecom::frame;

// Writes code, shortest decimal, ETX and BCC from an index on.
pub(crate) fn put_checked(out: &mut [u8], at: usize, code: u32, value: u32) -> usize
    requires { (code < byte_values) × (at + (standard_hex + (longest_text + closing)) ≤ length out.old) }
    ensures { (result ≡ at + length (checked code value)) × (out.new ≡ put out.old at (checked code value)) }
{
    figures::put_pair(out, at, code as u8);
    frame::put_data(out, at, at + Lecom::STANDARD_HEX, value)
}

// Writes EOT and the two address figures.
fn put_start(out: &mut [u8], address: u32)
    requires { (address ≤ lecom_most) × (start_at ≤ length out.old) }
    ensures { Wrote (eot ∷ char_of (address / decimal) ∷ char_of (address % decimal) ∷ []) out.old start_at out.new }
{
    out[0] = Lecom::EOT;
    out[Lecom::TENS] = figures::figure_char((address / FIGURE_VALUES) as u8);
    out[Lecom::ONES] = figures::figure_char((address % FIGURE_VALUES) as u8);
}

// Writes what comes after the address figures.
fn put_task(out: &mut [u8], task: Task) -> usize
    requires { (task_right task ≡ true) × (longest ≤ length out.old) }
    ensures { (result ≡ start_at + length (task_bytes task)) × (out.new ≡ put out.old start_at (task_bytes task)) }
{
    match task {
        Task::Read(code) => {
            figures::put_pair(out, Lecom::START, code as u8);
            let end = Lecom::START + Lecom::STANDARD_HEX;
            out[end] = Lecom::ENQ;
            end + 1
        }
        Task::Write(code, value) => {
            out[Lecom::START] = Lecom::STX;
            put_checked(out, Lecom::START + 1, code, value)
        }
    }
}

// Writes the frame of a request.
pub(crate) fn put_frame(out: &mut [u8], request: Request) -> usize
    requires { (askable request ≡ true) × (longest ≤ length out.old) }
    ensures { Wrote (made request) out.old result out.new }
{
    put_start(out, request.address);
    put_task(out, request.task)
}
