// What the gimbal computer is sent: the matrix as direction cosines, and a target direction as the camera sees it.
#![tactic(auto)]

mod entries;
mod refusals;

ghost use Rattle.std.specs.Prelude.{◌≡◌};
ghost use Rattle.floats.specs.Bits.{ToTheBit};
ghost use Rattle.attitude_gimbal.specs.Cosines.{gimbal_of, gimbal_answer, answer_for};
ghost use Rattle.attitude_gimbal.specs.Target.{along_of, turned_of, ToTheBit3};

use attitude::Matrix;
use refusal::Refusal;

// Three floats: a row of direction cosines, or a target direction.
// Stays: beside `Vec3` and `Matrix`, whose numbers are whole. A type of both would put a parameter into each contract that speaks of a vector.
#[derive(Clone, Copy)]
pub struct Triple {
    pub x: f64,
    pub y: f64,
    pub z: f64,
}

// The rows of the matrix, 1 standing for 10^9.
#[derive(Clone, Copy)]
pub struct Cosines {
    pub row0: Triple,
    pub row1: Triple,
    pub row2: Triple,
}

// The direction cosines of a matrix.
pub fn cosines_of(m: Matrix) -> Result<Cosines, Refusal>
    ensures value { result ≡ gimbal_of m }
    ensures result_value { gimbal_answer result ≡ answer_for m }
{
    refusals::tested(m)?;
    Ok(entries::rows(m))
}

// A row by the target: the three products, added from left to right.
pub fn along(row: Triple, target: Triple) -> f64
    ensures value { result ≡ along_of row target }
    ensures to_the_bit { ToTheBit result (along_of row target) }
{
    row.x * target.x + row.y * target.y + row.z * target.z
}

// Each row by the target.
pub fn turned(rows: Cosines, target: Triple) -> Triple
    ensures value { result ≡ turned_of rows target }
    ensures to_the_bit3 { ToTheBit3 result (turned_of rows target) }
{
    Triple {
        x: along(rows.row0, target),
        y: along(rows.row1, target),
        z: along(rows.row2, target),
    }
}
