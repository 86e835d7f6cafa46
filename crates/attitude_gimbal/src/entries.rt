// Matrix entries as floats, for entries in range.
ghost use Rattle.std.specs.Prelude.{◌≡◌};
ghost use Rattle.numbers.specs.Within.{Within};
ghost use Rattle.vectors.specs.Vectors.{Within3};
ghost use Rattle.attitude.specs.Entries.{MatrixWithin};
ghost use Rattle.attitude_gimbal.specs.Cosines.{cosine_of, row_of, rows_of};

use super::{Cosines, Triple};
use attitude::Matrix;
use vectors::Vec3;

// An entry over 10^9: the cast loses nothing, and the quotient is rounded once.
fn cosine(entry: i64) -> f64
    requires { Within 8000000000 entry }
    ensures { result ≡ cosine_of entry }
{
    entry as f64 / 1_000_000_000.0
}

fn row(v: Vec3) -> Triple
    requires { Within3 8000000000 v }
    ensures { result ≡ row_of v }
{
    Triple {
        x: cosine(v.x),
        y: cosine(v.y),
        z: cosine(v.z),
    }
}

pub(crate) fn rows(m: Matrix) -> Cosines
    requires { MatrixWithin 8000000000 m }
    ensures { result ≡ rows_of m }
{
    Cosines {
        row0: row(m.row0),
        row1: row(m.row1),
        row2: row(m.row2),
    }
}
