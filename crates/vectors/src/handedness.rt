// Which way round three vectors stand, by the triple product of their thousandths, and whether two threes are mirror images of each other.
ghost use Rattle.std.specs.Prelude.{◌≡◌};
ghost use Rattle.numbers.specs.Within.{Within};
ghost use Rattle.vectors.specs.Vectors.{Within3, dot_of, cross_of};
ghost use Rattle.vectors.specs.handedness.Handedness.{thousandth_of, triple_of, right as right_of, left as left_of, mirrored};

use crate::Vec3;

// How far from 0 a product has to lie to say anything.
const LEAST: i64 = 1_000_000_000_000;

// Each component over 1,000, toward zero, so that a triple product fits 64 bits.
fn thousandth(v: Vec3) -> Vec3
    requires { Within3 1000000000 v }
    ensures value { result ≡ thousandth_of v }
    ensures within3 { Within3 1000000 result }
{
    Vec3 {
        x: v.x / 1000,
        y: v.y / 1000,
        z: v.z / 1000,
    }
}

// a · (b x c) of small vectors: the cross product is within 2 x 10^12, and the sum within 6 x 10^18.
fn product(a: Vec3, b: Vec3, c: Vec3) -> i64
    requires within3 { Within3 1000000 a }
    requires within3_2 { Within3 1000000 b }
    requires within3_3 { Within3 1000000 c }
    ensures value { result ≡ dot_of a (cross_of b c) }
    ensures within { Within 6000000000000000000 result }
{
    a.x * (b.y * c.z - b.z * c.y) + a.y * (b.z * c.x - b.x * c.z) + a.z * (b.x * c.y - b.y * c.x)
}

// The triple product of three vectors in that order.
pub fn triple_product(a: Vec3, b: Vec3, c: Vec3) -> i64
    requires within3 { Within3 1000000000 a }
    requires within3_2 { Within3 1000000000 b }
    requires within3_3 { Within3 1000000000 c }
    ensures value { result ≡ triple_of a b c }
    ensures within { Within 6000000000000000000 result }
{
    product(thousandth(a), thousandth(b), thousandth(c))
}

fn is_right(p: i64) -> bool
    ensures { result ≡ right_of p }
{
    LEAST <= p
}

fn is_left(p: i64) -> bool
    ensures { result ≡ left_of p }
{
    p <= -LEAST
}

// Whether one product is at least 10^12 and the other at most -10^12.
pub fn are_mirrored(p: i64, q: i64) -> bool
    ensures { result ≡ mirrored p q }
{
    is_right(p) && is_left(q) || is_left(p) && is_right(q)
}
