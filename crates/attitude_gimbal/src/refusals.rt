// What a matrix is refused for: an entry out of range.
ghost use Rattle.std.specs.Prelude.{◌≡◌};
ghost use Rattle.refusal.specs.Table.{first_applying};
ghost use Rattle.attitude_gimbal.specs.Cosines.{beyond, out_of_range, refusals_of};

use attitude::Matrix;
use refusal::Refusal;
use vectors::Vec3;

// How far from 0 an entry may lie.
const LARGEST: u64 = 8_000_000_000;

// Whether an entry of a row lies beyond 8 * 10^9.
fn row_beyond(v: Vec3) -> bool
    ensures { result ≡ beyond v }
{
    attitude::largest(v) > LARGEST
}

// Whether an entry of the matrix does.
fn out_of_range(m: Matrix) -> bool
    ensures { result ≡ out_of_range m }
{
    row_beyond(m.row0) || row_beyond(m.row1) || row_beyond(m.row2)
}

pub(crate) fn tested(m: Matrix) -> Result<(), Refusal>
    ensures { result ≡ first_applying (refusals_of m) }
{
    if out_of_range(m) {
        return refusal::plain(refusal::ENTRY);
    }
    Ok(())
}
