// One side of TRIAD: the three axes that two directions span.
ghost use Rattle.std.specs.Prelude.{◌≡◌, ◌^◌, ◌<◌, ◌≤◌, pos, ◌<ℤ◌};
ghost use Rattle.vectors.specs.Vectors.{Within3, cross_of};
ghost use Rattle.attitude.specs.Scale.{largest_of};
ghost use Rattle.attitude.specs.Side.{squares_of, unit_by, unit_of, axes_of};
ghost use Rattle.attitude.specs.Components.{components_of};

use super::{Matrix, scale};
use vectors::Vec3;

// The length of an axis.
pub(crate) const ONE: i64 = 1_000_000_000;

// t1 along the first direction, t2 along the cross product of the two, t3 across both.
#[derive(Clone, Copy)]
pub struct Axes {
    pub t1: Vec3,
    pub t2: Vec3,
    pub t3: Vec3,
}

impl Axes {
    // What the axes have of x, of y and of z, a row each.
    pub(crate) fn components(self) -> Matrix
        ensures { result ≡ components_of self }
    {
        let Axes { t1, t2, t3 } = self;
        Matrix {
            row0: Vec3 {
                x: t1.x,
                y: t2.x,
                z: t3.x,
            },
            row1: Vec3 {
                x: t1.y,
                y: t2.y,
                z: t3.y,
            },
            row2: Vec3 {
                x: t1.z,
                y: t2.z,
                z: t3.z,
            },
        }
    }
}

// The sum of the squares of the three.
fn squares(d: Vec3) -> u64
    requires { Within3 1073741823 d }
    ensures { result ≡ squares_of d }
{
    let x = d.x.unsigned_abs();
    let y = d.y.unsigned_abs();
    let z = d.z.unsigned_abs();
    x * x + y * y + z * z
}

// 10^9 d over n, each quotient toward zero.
fn unit_by(d: Vec3, n: i64) -> Vec3
    requires within3 { Within3 1073741823 d }
    requires pos_bound { pos 0 <ℤ n }
    ensures { result ≡ unit_by d n }
{
    Vec3 {
        x: ONE * d.x / n,
        y: ONE * d.y / n,
        z: ONE * d.z / n,
    }
}

// d drawn out to length 10^9: n is the root of the sum of its squares.
fn unit(d: Vec3) -> Vec3
    requires within3 { Within3 1073741823 d }
    requires d_nonzero { 0 < largest_of d }
    ensures { result ≡ unit_of d }
{
    unit_by(d, numbers::root(squares(d)) as i64)
}

// The axes of a side whose vectors are not too close.
pub(crate) fn axes_of(v: Vec3, w: Vec3) -> Axes
    requires within3 { Within3 1000000000 v }
    requires within3_2 { Within3 1000000000 w }
    requires bound { 2 ^ 30 ≤ largest_of (cross_of v w) }
    ensures { result ≡ axes_of v w }
{
    let t2 = unit(scale::reduced(vectors::cross(v, w)));
    let t3 = scale::over(vectors::cross(v, t2), ONE);
    Axes { t1: v, t2, t3 }
}
