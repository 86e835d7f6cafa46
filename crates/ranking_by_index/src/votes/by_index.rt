// Votes by the index alone: the first record of the span is found by halving, and each record up to the span's end is a vote for both its stars.
// The catalogue is not lent here.
ghost use Rattle.std.specs.Prelude.{◌≡◌, ℕ, ◌+◌, ◌/◌, ◌<◌, ◌≤◌, pos, get_or, length};
ghost use Rattle.catalogue_index.specs.records.Format.{high_at};
ghost use Rattle.ranking_by_index.specs.votes.Span.{Usable, span_votes};
ghost use Rattle.ranking_by_index.specs.votes.Pair.{IndexFor, AddedByIndex, VotesOfIndex};

use crate::votes::ends;
use crate::votes::split::Split;
use catalogue_index::key;
use catalogue_index::records::format;

// The first record whose dot product is at least the lower end.
// Stays: halving by hand. `partition_point` over the parts of twelve bytes, `index.as_chunks::<12>().0`, was tried, and its proof did not close.
fn first_from(index: &[u8], lower: u64) -> usize
    requires { Usable 512 index.now }
    ensures upper_bound { result ≤ length index.now / 12 }
    ensures by_index { (k : ℕ) → k < result → high_at index.now k < lower }
    ensures by_index_2 { (k : ℕ) → result ≤ k → k < length index.now / 12 → lower ≤ high_at index.now k }
{
    let mut from: usize = 0;
    let mut to = index.len() / 12;
    while from < to {
        let middle = from + (to - from) / 2;
        if format::high(index, middle) < lower {
            from = middle + 1;
        } else {
            to = middle;
        }
    }
    from
}

// The votes of all records whose dot products lie in the span.
fn walk(index: &[u8], lower: u64, upper: u64, votes: &mut [u32; 512])
    requires usable { Usable 512 index.now }
    requires index_len_bound { length index.now / 12 ≤ 262144 }
    requires by_index { (c : ℕ) → get_or votes.old c 0 ≤ 1000000000 }
    ensures { (c : ℕ) → get_or votes.new c 0 ≡ get_or votes.old c 0 + span_votes index.now lower upper c }
{
    let count = index.len() / 12;
    for i in first_from(index, lower)..count {
        if upper < format::high(index, i) {
            return;
        }
        ends::vote_both(votes, format::low(index, i));
    }
}

// What direction j adds to the votes for direction i, if their product less the tolerance does not lie below the floor.
fn vote(split: &Split, index: &[u8], j: usize, votes: &mut [u32; 512])
    requires usable { Usable 512 index.now }
    requires index_len_bound { length index.now / 12 ≤ 262144 }
    requires j_in_bounds { j < length split.now.products.now }
    requires by_index { (c : ℕ) → get_or votes.old c 0 ≤ 1000000000 }
    ensures { AddedByIndex index.now (get_or split.now.products.now j (pos 0)) split.now.tolerance split.now.floor split.now.i j
        votes.old votes.new }
{
    let is_same = j == split.i;
    if is_same {
        return;
    }
    let product = key::raise(split.products[j]);
    let lower = product - split.tolerance;
    let is_below = lower < split.floor;
    if is_below {
        return;
    }
    walk(index, lower, product + split.tolerance, votes);
}

// The votes for direction i of exactly the pairs of directions whose dot product less the tolerance does not lie below the floor: the index has each pair of
// stars that agrees with one of them.
pub(crate) fn vote_above(split: &Split, index: &[u8], votes: &mut [u32; 512])
    requires index_for { IndexFor index.now split.now.floor }
    requires by_index { (c : ℕ) → get_or votes.old c 0 ≤ 500000000 }
    ensures { VotesOfIndex index.now split.now.products.now (length split.now.products.now) split.now.i split.now.tolerance split.now.floor
        votes.old votes.new }
{
    for j in 0..split.products.len() {
        vote(split, index, j, votes);
    }
}
