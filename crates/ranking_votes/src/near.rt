// Which star pairs can agree with a direction pair at all: a table that marks where the products of such star pairs lie.
ghost use Rattle.std.specs.Prelude.{◌≡◌, ℕ, ◌+◌, ◌-◌, ◌/◌, ◌≤◌, get_or, length};
ghost use Rattle.numbers.specs.Within.{Within};
ghost use Rattle.vectors.specs.Triples.{AllWithin};
ghost use Rattle.ranking_votes.specs.Near.{lifted_of, place_of, Marks, AllMarked};

// A product moved up by the greatest size that it can have, so that it has no sign.
fn lift(p: i64) -> u64
    requires { Within 3000000000000000000 p }
    ensures { result ≡ lifted_of p }
{
    (p + 3000000000000000000) as u64
}

// The place of a lifted product.
fn place(lifted: u64) -> usize
    requires { lifted ≤ 6000000000000000000 }
    ensures { result ≡ lifted / 1125899906842624 }
{
    (lifted / 1125899906842624) as usize
}

// The least lifted product that is at most the tolerance away from this one.
fn least(lifted: u64, tolerance: u64) -> u64
    ensures { result ≡ lifted - tolerance }
{
    lifted.saturating_sub(tolerance)
}

// The greatest.
fn greatest(lifted: u64, tolerance: u64) -> u64
    requires { lifted ≤ 6000000000000000000 }
    ensures upper_bound { result ≤ 6000000000000000000 }
    ensures by_index { (n : ℕ) → n ≤ 6000000000000000000 → n ≤ lifted + tolerance → n ≤ result }
{
    lifted.saturating_add(tolerance).min(6000000000000000000)
}

// Marks the places of all products that agree with q.
// Stays: a mark is the number 1 and no bool, since the laws `marks-more` and `none-near` of specs/NearLaws speak of a table of any numbers.
fn mark(near: &mut [u8], q: i64, tolerance: u64)
    requires near_len { length near.old ≡ 5330 }
    requires within { Within 3000000000000000000 q }
    ensures by_index { (k : ℕ) → get_or near.old k 0 ≡ 1 → get_or near.new k 0 ≡ 1 }
    ensures marks { Marks near.new tolerance q }
{
    let lifted = lift(q);
    let first = place(least(lifted, tolerance));
    let last = place(greatest(lifted, tolerance));
    near[first..=last].fill(1);
}

// A table in which the places of all products that agree with one of these are marked.
pub(crate) fn marks_of(products: &[i64], tolerance: u64) -> [u8; 5330]
    requires { AllWithin 3000000000000000000 products.now }
    ensures { AllMarked result products.now tolerance }
{
    let mut near = [0u8; 5330];
    for q in products {
        mark(&mut near, *q, tolerance);
    }
    near
}

// The mark at the place of p: 0 where nothing agrees with it.
pub(crate) fn mark_at(near: &[u8], p: i64) -> u8
    requires near_len { length near.now ≡ 5330 }
    requires within { Within 3000000000000000000 p }
    ensures { result ≡ get_or near.now (place_of p) 0 }
{
    near[place(lift(p))]
}
