// The ranking's refusals 6 to 10, in the order of their numbers.
ghost use Rattle.std.specs.Prelude.{◌≡◌, ◌≤◌};
ghost use Rattle.refusal.specs.Table.{first_applying};
ghost use Rattle.ranking.specs.Refusals.{rows_beside, refusals_of};

use refusal::Refusal;

// How large a tolerance may be.
const LARGEST_TOLERANCE: u64 = 10000000000000000;

// The first of 8, 9 and 10, beside a catalogue of so many stars and a room of so many words.
pub fn beside(directions: &[i32], stars: usize, tolerance: u64, words: usize) -> Result<(), Refusal>
    requires { stars ≤ 512 }
    ensures { result ≡ first_applying (rows_beside directions.now stars tolerance words) }
{
    if !camera_direction::list_ok(directions) {
        return refusal::plain(refusal::DIRECTIONS);
    }
    let is_wide = LARGEST_TOLERANCE < tolerance;
    if is_wide {
        return refusal::plain(refusal::DEMAND);
    }
    if words < directions.len() / 3 * stars {
        return refusal::plain(refusal::ROOM);
    }
    Ok(())
}

// The first of 6 to 10 that applies.
pub(crate) fn first_refusal(
    directions: &[i32],
    catalogue: &[u8],
    tolerance: u64,
    words: usize,
) -> Result<(), Refusal>
    ensures { result ≡ first_applying (refusals_of directions.now catalogue.now tolerance words) }
{
    let stars = catalogue::check(catalogue)?;
    beside(directions, stars, tolerance, words)
}
