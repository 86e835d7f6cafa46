// A flight catalogue, cut out of a larger one in the same lent buffer: the stars within a limit of magnitude that no other star within it is close to.
#![tactic(auto)]

pub mod marks;
mod shift;

ghost use Rattle.std.specs.Prelude.{◌≡◌};
ghost use Rattle.refusal.specs.Counted.{count_answer};
ghost use Rattle.catalogue.specs.Valid.{Valid};
ghost use Rattle.catalogue_cut.specs.Cut.{shortened_of, buffer_after, shortened_from, buffer_from, answer_for};

use catalogue::RECORD_SIZE;
use refusal::Refusal;

// Cuts a valid catalogue. Where nothing is kept nothing moves, so it is known in time whether the buffer stays as it is.
fn cut_valid(bytes: &mut [u8], limit: i32, closeness: i64) -> Result<usize, Refusal>
    requires { Valid bytes.old }
    ensures value { result ≡ shortened_from bytes.old limit closeness }
    ensures bytes_after { bytes.new ≡ buffer_from bytes.old limit closeness }
{
    let marks = marks::judge(bytes, limit, closeness);
    let kept = shift::forward(bytes, &marks);
    let is_bare = kept == 0;
    if is_bare {
        return Err(Refusal {
            number: refusal::NOTHING_KEPT,
            place: 0,
        });
    }
    shift::fill(bytes, RECORD_SIZE * kept);
    Ok(kept)
}

// Cuts a catalogue to the stars whose magnitude is at most the limit and that have no other such star with a dot product of at least the closeness. They
// move to the front of the buffer in their order, and the room behind them is filled with 255.
pub fn cut(bytes: &mut [u8], limit: i32, closeness: i64) -> Result<usize, Refusal>
    ensures value { result ≡ shortened_of bytes.old limit closeness }
    ensures bytes_after { bytes.new ≡ buffer_after bytes.old limit closeness }
    ensures result_value { count_answer result ≡ answer_for bytes.old limit closeness }
{
    catalogue::check(bytes)?;
    cut_valid(bytes, limit, closeness)
}
