// The attitude from two directions and their stars, by TRIAD.
#![tactic(auto)]

mod entries;
pub mod orient;
mod refusals;
mod scale;
mod side;

ghost use Rattle.std.specs.Prelude.{◌≡◌};
ghost use Rattle.attitude.specs.Attitude.{attitude_of, attitude_answer, answer_for};

use refusal::Refusal;
pub use scale::largest;
use vectors::Vec3;

// The matrix that carries sky to camera, 10^9 standing for 1.
#[derive(Clone, Copy)]
pub struct Matrix {
    pub row0: Vec3,
    pub row1: Vec3,
    pub row2: Vec3,
}

// The attitude in which the camera sees the stars w1 and w2 in the directions v1 and v2.
pub fn triad(v1: Vec3, v2: Vec3, w1: Vec3, w2: Vec3) -> Result<Matrix, Refusal>
    ensures value { result ≡ attitude_of v1 v2 w1 w2 }
    ensures result_value { attitude_answer result ≡ answer_for v1 v2 w1 w2 }
{
    refusals::tested(v1, v2, w1, w2)?;
    let camera = side::axes_of(v1, v2);
    let sky = side::axes_of(w1, w2);
    Ok(entries::product(camera, sky))
}
