// The agreement of dot products with one of them, for a look along many stars. What agrees with it lies in a span of twice the tolerance: moved so
// that the span begins at 0, a product is at most that, and one that lies below the span wraps to a number far above it. So one comparison
// tells, and what comes of the one product and the tolerance is made once a look.
ghost use Rattle.std.specs.Prelude.{◌≡◌, ℕ, ◌+◌, ◌*◌, ◌≤◌, length, nat_le};
ghost use Rattle.numbers.specs.Within.{Within};
ghost use Rattle.vectors.specs.Vectors.{Within3, dot_of};
ghost use Rattle.vectors.specs.Triples.{AllWithin, triple_at};
ghost use Rattle.vectors.specs.Agree.{agreeing};
ghost use Rattle.search_fit.specs.Span.{raised as raised_of};

use vectors::Vec3;

// A dot product moved up, so that it has no sign.
#[tactic(auto, using(crate::proofs::SpanLaws::raised_is))]
fn raised(p: i64) -> u64
    requires { Within 3000000000000000000 p }
    ensures { result ≡ raised_of p }
{
    (p + 4000000000000000000) as u64
}

// The tolerance, or the greatest difference of two dot products where that is less.
fn reach(tolerance: u64) -> u64
    ensures upper_bound { result ≤ 6000000000000000000 }
    ensures by_index { (d : ℕ) → d ≤ 6000000000000000000 → nat_le d result ≡ nat_le d tolerance }
{
    tolerance.min(6000000000000000000)
}

// Whether q is at most the tolerance away from p.
fn agree(p: i64, q: i64, tolerance: u64) -> bool
    requires within { Within 3000000000000000000 p }
    requires within_2 { Within 3000000000000000000 q }
    ensures { result ≡ agreeing p q tolerance }
{
    let half = reach(tolerance);
    let start = half.wrapping_sub(raised(p));
    raised(q).wrapping_add(start) <= 2 * half
}

// Whether a dot product of two directions agrees with that of a star, which has these numbers, and the star a.
pub fn agrees_with(dot: i64, star: Vec3, stars: &[i32], tolerance: u64, a: usize) -> bool
    requires within { Within 3000000000000000000 dot }
    requires within3 { Within3 1000000000 star }
    requires a_in_bounds { (3 * a + 3 ≤ length stars.now) × AllWithin 1000000000 stars.now }
    ensures { result ≡ agreeing dot (dot_of star (triple_at stars.now a)) tolerance }
{
    let product = vectors::dot(star, vectors::triple_at(stars, a));
    agree(dot, product, tolerance)
}
