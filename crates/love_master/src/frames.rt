// The frames that the master sends.
ghost use Rattle.std.specs.Prelude.{◌≡◌, ◌+◌, ◌≤◌, true, ◌++◌, length};
ghost use Rattle.wire.specs.Buffer.{put};
ghost use Rattle.figures.specs.Figure.{pair_of};
ghost use Rattle.figures.specs.Decimal.{digits};
ghost use Rattle.figures.specs.Signed.{magnitude};
ghost use Rattle.card.specs.Reply.{Wrote};
ghost use Rattle.love.specs.Form.{data_at};
ghost use Rattle.love.specs.Answer.{figure_count};
ghost use Rattle.love_master.specs.Request.{askable, half_of, sign_of, data_of, made, made_longest};

use crate::request::{Request, Task};
use love::answer;
use love::answer::FIGURES;
use love::form::Love;

// The longest frame that is made: a write.
pub(crate) const LONGEST: usize = Love::DATA + Love::WRITE_LENGTH + Love::TAIL;

// The second half of a command, by the parameter's place.
#[tactic(auto, using(wire::proofs::Cases::cases), unfolding(crate::specs::Request::half_of))]
fn half_of(place: u32) -> u8
    ensures { result ≡ half_of place }
{
    match place {
        0 => Love::SP1,
        1 => Love::SP2,
        2 => Love::ALLO,
        _ => Love::ALHI,
    }
}

// Writes a number of a write: four figures, then its sign.
fn put_number(out: &mut [u8], at: usize, value: u32)
    requires { at + (figure_count + 2) ≤ length out.old }
    ensures { out.new ≡ put out.old at (digits figure_count (magnitude value) ++ pair_of (sign_of value)) }
{
    figures::put_digits(out, at, FIGURES, figures::magnitude(value));
    let sign = figures::by_sign(value, Love::MINUS, Love::PLUS);
    figures::put_pair(out, at + FIGURES, sign);
}

// Writes the data, and gives where they end.
fn put_data(out: &mut [u8], task: Task) -> usize
    requires { made_longest ≤ length out.old }
    ensures { (result ≡ data_at + length (data_of task)) × (out.new ≡ put out.old data_at (data_of task)) }
{
    match task {
        Task::Status => {
            figures::put_pair(out, Love::DATA, Love::STATUS);
            Love::DATA + Love::STATUS_LENGTH
        }
        Task::Read(place) => {
            figures::put_pair(out, Love::DATA, Love::READ);
            figures::put_pair(out, Love::DATA + Love::PARAMETER, half_of(place));
            Love::DATA + Love::READ_LENGTH
        }
        Task::Write(place, value) => {
            figures::put_pair(out, Love::DATA, Love::WRITE);
            figures::put_pair(out, Love::DATA + Love::PARAMETER, half_of(place));
            put_number(out, Love::DATA + Love::VALUE, value);
            Love::DATA + Love::WRITE_LENGTH
        }
    }
}

// Writes the frame of a request.
pub(crate) fn put_frame(out: &mut [u8], request: Request) -> usize
    requires { (askable request ≡ true) × (made_longest ≤ length out.old) }
    ensures { Wrote (made request) out.old result out.new }
{
    answer::put_unit(out, request.unit());
    let end = put_data(out, request.task);
    let sum = wire::sum(&out[Love::ADDRESS..end]);
    figures::put_pair(out, end, sum);
    out[end + Love::PAIR] = Love::ETX;
    end + Love::TAIL
}
