// What four vectors are refused for: a component out of range, or the two vectors of a side too close.
ghost use Rattle.std.specs.Prelude.{◌||◌, ◌≡◌};
ghost use Rattle.vectors.specs.Vectors.{Within3};
ghost use Rattle.refusal.specs.Table.{first_applying};
ghost use Rattle.attitude.specs.Attitude.{beyond, too_close, refusals_of};

use super::scale;
use refusal::Refusal;
use vectors::Vec3;

// How far from 0 a component may lie.
const LARGEST: u64 = 1_000_000_000;

// The tests in the order of the numbers.
#[tactic(auto, unfolding(refusal::specs::Table::first_applying))]
pub(crate) fn tested(v1: Vec3, v2: Vec3, w1: Vec3, w2: Vec3) -> Result<(), Refusal>
    ensures { result ≡ first_applying (refusals_of v1 v2 w1 w2) }
{
    if out_of_range(v1, v2) || out_of_range(w1, w2) {
        return refusal::plain(refusal::DIRECTIONS);
    }
    if too_close(v1, v2) || too_close(w1, w2) {
        return refusal::plain(refusal::CLOSE);
    }
    Ok(())
}

// Whether a component of the two vectors of a side lies beyond 10^9.
fn out_of_range(v: Vec3, w: Vec3) -> bool
    ensures { result ≡ (beyond v || beyond w) }
{
    scale::largest(v) > LARGEST || scale::largest(w) > LARGEST
}

// Whether the two vectors of a side are too near to one line to span a plane.
fn too_close(v: Vec3, w: Vec3) -> bool
    requires within3 { Within3 1000000000 v }
    requires within3_2 { Within3 1000000000 w }
    ensures { result ≡ too_close v w }
{
    scale::largest(vectors::cross(v, w)) < scale::LIMIT
}
