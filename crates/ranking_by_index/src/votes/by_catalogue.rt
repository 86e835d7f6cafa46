// Votes by the full catalogue: each pair of stars whose dot product lies in the span is a vote for both its stars. Dot products and the span's ends are
// moved up by 2^63.
ghost use Rattle.std.specs.Prelude.{◌≡◌, ℕ, ◌+◌, ◌<◌, ◌≤◌, pos, get_or, length};
ghost use Rattle.vectors.specs.Triples.{triples, Listed};
ghost use Rattle.ranking_votes.specs.Progress.{setting};
ghost use Rattle.ranking_by_index.specs.votes.Pair.{by_catalogue, adds, votes_by};
ghost use Rattle.ranking_by_index.specs.votes.Span.{in_span, meets, row_votes, all_votes};

use crate::votes::ends;
use crate::votes::split::Split;
use catalogue_index::key;

// The votes of one pair of stars, if its dot product lies in the span.
fn vote_pair(stars: &[i32], lower: u64, upper: u64, a: usize, b: usize, votes: &mut [u32; 512])
    requires listed { Listed 512 stars.now }
    requires a_lt_b { (a < b) × (b < triples stars.now) }
    requires by_index { (c : ℕ) → get_or votes.old c 0 ≤ 2000000000 }
    ensures { (c : ℕ) → get_or votes.new c 0 ≡ get_or votes.old c 0 + meets (in_span stars.now lower upper) c b a }
{
    let product = key::product(stars, a, b);
    if product < lower {
        return;
    }
    if upper < product {
        return;
    }
    ends::vote_both(votes, key::ends(a, b));
}

// The votes of the pairs of star b with each star before it.
fn vote_row(stars: &[i32], lower: u64, upper: u64, b: usize, votes: &mut [u32; 512])
    requires listed { Listed 512 stars.now }
    requires b_bound { b < triples stars.now }
    requires by_index { (c : ℕ) → get_or votes.old c 0 ≤ 1500000000 }
    ensures { (c : ℕ) → get_or votes.new c 0 ≡ get_or votes.old c 0 + row_votes stars.now lower upper c b }
{
    for a in 0..b {
        vote_pair(stars, lower, upper, a, b, votes);
    }
}

// The votes of all pairs of stars in the span.
fn vote_all(stars: &[i32], lower: u64, upper: u64, votes: &mut [u32; 512])
    requires listed { Listed 512 stars.now }
    requires by_index { (c : ℕ) → get_or votes.old c 0 ≤ 1000000000 }
    ensures { (c : ℕ) → get_or votes.new c 0 ≡ get_or votes.old c 0 + all_votes stars.now lower upper c }
{
    let total = stars.len() / 3;
    for b in 0..total {
        vote_row(stars, lower, upper, b, votes);
    }
}

// What direction j adds to the votes for direction i, if their product less the tolerance lies below the floor.
// Stays: beside `vote` of `by_index`, whose test is the other way and whose promise is of the other pairs. One function for both would take test and walk as
// closures, and its clause would have to join the two.
fn vote(split: &Split, stars: &[i32], j: usize, votes: &mut [u32; 512])
    requires listed { Listed 512 stars.now }
    requires j_in_bounds { j < length split.now.products.now }
    requires by_index { (c : ℕ) → get_or votes.old c 0 ≤ 1000000000 }
    ensures { (c : ℕ) → get_or votes.new c 0 ≡ get_or votes.old c 0 + adds (by_catalogue split.now.floor split.now.tolerance)
        (get_or split.now.products.now j (pos 0)) stars.now split.now.tolerance split.now.i c j }
{
    let is_same = j == split.i;
    if is_same {
        return;
    }
    let product = key::raise(split.products[j]);
    let lower = product - split.tolerance;
    let is_indexed = split.floor <= lower;
    if is_indexed {
        return;
    }
    vote_all(stars, lower, product + split.tolerance, votes);
}

// The votes for direction i of exactly the pairs of directions whose dot product less the tolerance lies below the floor.
pub(crate) fn vote_below(split: &Split, stars: &[i32], votes: &mut [u32; 512])
    requires listed { Listed 512 stars.now }
    requires by_index { (c : ℕ) → get_or votes.old c 0 ≤ 500000000 }
    ensures { (c : ℕ) → get_or votes.new c 0 ≡ get_or votes.old c 0 + votes_by (by_catalogue split.now.floor split.now.tolerance)
        (setting split.now.products.now (length split.now.products.now) split.now.i stars.now split.now.tolerance) c }
{
    for j in 0..split.products.len() {
        vote(split, stars, j, votes);
    }
}
