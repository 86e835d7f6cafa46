// Magnitudes and quotients of a vector: division by the smallest power of two that brings every magnitude below 2^30.
ghost use Rattle.std.specs.Prelude.{◌≡◌, ◌^◌, ◌<◌, pos, ◌<ℤ◌};
ghost use Rattle.vectors.specs.Vectors.{Within3};
ghost use Rattle.attitude.specs.Scale.{largest_of, over_of, shift_of, reduced_of};

use vectors::Vec3;

// A number below 2^30 has at most so many bits.
const BITS: u32 = 30;

// 2^30: d is below it, and a cross product below it belongs to two vectors that are too close.
pub(crate) const LIMIT: u64 = 1 << BITS;

// The largest magnitude of the three.
pub fn largest(v: Vec3) -> u64
    ensures { result ≡ largest_of v }
{
    v.x.unsigned_abs()
        .max(v.y.unsigned_abs().max(v.z.unsigned_abs()))
}

// v over n, each quotient toward zero.
pub(crate) fn over(v: Vec3, n: i64) -> Vec3
    requires within3 { Within3 2000000000000000000 v }
    requires pos_bound { pos 0 <ℤ n }
    ensures { result ≡ over_of v n }
{
    Vec3 {
        x: v.x / n,
        y: v.y / n,
        z: v.z / n,
    }
}

// The smallest k for which m over 2^k is below 2^30: the bits that m has beyond them.
#[tactic(auto, using(crate::proofs::Power::shift_by_length))]
fn shift(m: u64) -> u32
    ensures { result ≡ shift_of m }
{
    (64 - m.leading_zeros()).saturating_sub(BITS)
}

#[tactic(auto, using(crate::proofs::Power::power_held))]
fn power(k: u32) -> i64
    requires { k < 63 }
    ensures { result ≡ pos (2 ^ k) }
{
    1 << k
}

// The cross product c over the smallest power of two that brings every magnitude below 2^30.
#[tactic(auto, using(crate::specs::Bounds::shift_le), unfolding(crate::specs::Scale::reduced_of))]
pub(crate) fn reduced(c: Vec3) -> Vec3
    requires { Within3 2000000000000000000 c }
    ensures { result ≡ reduced_of c }
{
    over(c, power(shift(largest(c))))
}
