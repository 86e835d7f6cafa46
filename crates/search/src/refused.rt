// The search's refusals 6 to 12, in the order of their numbers.
ghost use Rattle.std.specs.Prelude.{◌≡◌, ◌≤◌};
ghost use Rattle.refusal.specs.Table.{first_applying};
ghost use Rattle.search.specs.Refusals.{demand_ok, rows_beside, refusals_of};

use crate::lent;
use refusal::Refusal;

// Whether the needed count and the tolerance are in range.
#[tactic(auto, unfolding(crate::specs::Refusals::demand_ok))]
pub(crate) fn demand_ok(needed: usize, tolerance: u64) -> bool
    ensures { result ≡ demand_ok needed tolerance }
{
    3 <= needed && needed <= 8 && tolerance <= 10000000000000000
}

// The first of 8, 9, 11 and 12 that applies, beside a catalogue of so many stars.
#[tactic(auto, unfolding(crate::specs::Refusals::rows_beside, refusal::specs::Table::first_applying))]
fn beside(
    directions: &[i32],
    stars: usize,
    needed: usize,
    tolerance: u64,
    ranking: &[u16],
) -> Result<(), Refusal>
    requires { stars ≤ 512 }
    ensures { result ≡ first_applying (rows_beside directions.now stars needed tolerance ranking.now) }
{
    if !camera_direction::list_ok(directions) {
        return refusal::plain(refusal::DIRECTIONS);
    }
    if !demand_ok(needed, tolerance) {
        return refusal::plain(refusal::DEMAND);
    }
    let dirs = directions.len() / 3;
    if let Err(place) = lent::check(ranking, dirs, stars) {
        return refusal::at(refusal::RANKING, place);
    }
    if dirs < needed {
        return refusal::plain(refusal::FEW);
    }
    Ok(())
}

// The first of 6 to 12 that applies.
pub(crate) fn first_refusal(
    directions: &[i32],
    catalogue: &[u8],
    needed: usize,
    tolerance: u64,
    ranking: &[u16],
) -> Result<(), Refusal>
    ensures { result ≡ first_applying (refusals_of directions.now catalogue.now needed tolerance ranking.now) }
{
    let stars = catalogue::check(catalogue)?;
    beside(directions, stars, needed, tolerance, ranking)
}
