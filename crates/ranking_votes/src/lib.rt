// The votes of the stars for one direction, in 512 counters.
#![tactic(auto)]

pub mod ballot;
mod near;
mod target;

ghost use Rattle.std.specs.Prelude.{◌≡◌, ℕ, ◌+◌, ◌<◌, ◌≤◌, pos, get_or, length};
ghost use Rattle.numbers.specs.Within.{Within};
ghost use Rattle.vectors.specs.Triples.{AllWithin, triples, Listed, pair_dot};
ghost use Rattle.lists.specs.Number.{number};
ghost use Rattle.ranking_votes.specs.Votes.{counters_of};
ghost use Rattle.ranking_votes.specs.Progress.{agrees_with, agrees_by, setting, so_far};

use crate::ballot::Ballot;
use crate::target::Target;

// The dot product of direction i with each direction.
pub fn products_of(directions: &[i32], i: usize) -> [i64; 8]
    requires listed { Listed 8 directions.now }
    requires i_bound { i < triples directions.now }
    ensures by_index { (j : ℕ) → j < triples directions.now → get_or result j (pos 0) ≡ pair_dot directions.now i j }
    ensures all_within { AllWithin 3000000000000000000 result }
    ensures eight { length result ≡ 8 }
{
    let mut products = [0i64; 8];
    let count = directions.len() / 3;
    for j in 0..count {
        products[j] = vectors::pair_dot(directions, i, j);
    }
    products
}

// Whether direction j is another than i and its product q agrees with p.
fn vote(i: usize, j: usize, q: i64, p: i64, tolerance: u64) -> bool
    requires within { Within 3000000000000000000 q }
    requires within_2 { Within 3000000000000000000 p }
    ensures { result ≡ agrees_by i q p tolerance j }
{
    j != i && vectors::agree(q, p, tolerance)
}

// How many directions but the target itself have a product that agrees with p.
fn agreeing_with(target: &Target, p: i64) -> u32
    requires { Within 3000000000000000000 p }
    ensures { result ≡ number (length target.now.products.now) (agrees_with target.now.products.now target.now.i p target.now.tolerance) }
{
    let mut found: u32 = 0;
    for (j, q) in target.products.iter().enumerate() {
        found += u32::from(vote(target.i, j, *q, p, target.tolerance));
    }
    found
}

// The same number as agreeing_with, which is 0 at once where the place of p is not marked. Most star pairs are far from every direction pair.
fn agreeing_near(target: &Target, p: i64) -> u32
    requires { Within 3000000000000000000 p }
    ensures { result ≡ number (length target.now.products.now) (agrees_with target.now.products.now target.now.i p target.now.tolerance) }
{
    let is_far = near::mark_at(target.near, p) == 0;
    if is_far {
        return 0;
    }
    agreeing_with(target, p)
}

// Counts star a against each star before it: what the pair agrees with is a vote for either star.
fn count_star(target: &Target, stars: &[i32], a: usize, votes: &mut [u32])
    requires listed { Listed 512 stars.now }
    requires a_bound { (a < triples stars.now) × (triples stars.now ≤ length votes.old) }
    requires by_index { (k : ℕ) → get_or votes.old k 0 ≡ so_far (setting target.now.products.now (length target.now.products.now)
        target.now.i stars.now target.now.tolerance) a k }
    ensures { (k : ℕ) → get_or votes.new k 0 ≡ so_far (setting target.now.products.now (length target.now.products.now)
        target.now.i stars.now target.now.tolerance) (a + 1) k }
{
    let mut own: u32 = 0;
    for b in 0..a {
        let pair = vectors::pair_dot(stars, a, b);
        let more = agreeing_near(target, pair);
        votes[b] += more;
        own += more;
    }
    votes[a] = own;
}

// The votes of each star for direction i. Each pair of stars is looked at once.
pub fn votes_for(ballot: &Ballot, i: usize) -> [u32; 512]
    requires { i < triples ballot.now.directions.now }
    ensures { result ≡ counters_of ballot.now.directions.now ballot.now.stars.now ballot.now.tolerance i }
{
    let all = products_of(ballot.directions, i);
    let products = &all[..ballot.count()];
    let near = near::marks_of(products, ballot.tolerance);
    let target = Target {
        products,
        near: &near,
        i,
        tolerance: ballot.tolerance,
    };
    let total = ballot.total();
    let mut votes = [0u32; 512];
    for a in 0..total {
        count_star(&target, ballot.stars, a, &mut votes);
    }
    votes
}
