// The records of all pairs that have one, counted, and written in the order in which the pairs are gone through.
ghost use Rattle.std.specs.Prelude.{◌≡◌, ◌+◌, ◌*◌, ◌<◌, ◌≤◌, ◌++◌, length, drop};
ghost use Rattle.vectors.specs.Triples.{triples};
ghost use Rattle.catalogue_index.specs.records.Format.{encoded};
ghost use Rattle.catalogue_index.specs.Grown.{Grown};
ghost use Rattle.catalogue_index.specs.Index.{entry_of, row_of, pairs_of};

use crate::pairs::Pairs;
use crate::{key, records};

// How many pairs of star b with a star before it have a record.
fn count_row(pairs: &Pairs, b: usize) -> usize
    requires { b < triples pairs.now.stars.now }
    ensures { result ≡ length (row_of pairs.now.stars.now pairs.now.floor b) }
{
    let mut count = 0;
    for a in 0..b {
        if pairs.floor <= pairs.product(a, b) {
            count += 1;
        }
    }
    count
}

// How many pairs have a record.
pub(crate) fn count(pairs: &Pairs) -> usize
    ensures value { result ≡ length (pairs_of pairs.now.stars.now pairs.now.floor (triples pairs.now.stars.now)) }
    ensures few { result ≤ 262144 }
{
    let mut found = 0;
    for b in 0..pairs.total() {
        found += count_row(pairs, b);
    }
    found
}

// Writes the record of one pair, if it has one, at place `at`. The next free place.
fn write_pair(pairs: &Pairs, a: usize, b: usize, room: &mut [u8], at: usize) -> usize
    requires a_lt_b { (a < b) × (b < triples pairs.now.stars.now) }
    requires a_in_bounds { 12 * (at + length (entry_of pairs.now.stars.now pairs.now.floor b a)) ≤ length room.old }
    ensures value { result ≡ at + length (entry_of pairs.now.stars.now pairs.now.floor b a) }
    ensures grown { Grown at (entry_of pairs.now.stars.now pairs.now.floor b a) room.old room.new }
{
    let product = pairs.product(a, b);
    if product < pairs.floor {
        return at;
    }
    records::format::put(room, at, product, key::ends(a, b));
    at + 1
}

// Writes the records of star b with each star before it.
fn write_row(pairs: &Pairs, b: usize, room: &mut [u8], at: usize) -> usize
    requires b_bound { b < triples pairs.now.stars.now }
    requires b_in_bounds { 12 * (at + length (row_of pairs.now.stars.now pairs.now.floor b)) ≤ length room.old }
    ensures value { result ≡ at + length (row_of pairs.now.stars.now pairs.now.floor b) }
    ensures grown { Grown at (row_of pairs.now.stars.now pairs.now.floor b) room.old room.new }
{
    let mut next = at;
    for a in 0..b {
        next = write_pair(pairs, a, b, room, next);
    }
    next
}

// Writes the records of all pairs at the front of the room.
pub(crate) fn write(pairs: &Pairs, room: &mut [u8])
    requires { 12 * length (pairs_of pairs.now.stars.now pairs.now.floor (triples pairs.now.stars.now)) ≤ length room.old }
    ensures { let found = pairs_of pairs.now.stars.now pairs.now.floor (triples pairs.now.stars.now) in
        room.new ≡ encoded found ++ drop (12 * length found) room.old }
{
    let mut next = 0;
    for b in 0..pairs.total() {
        next = write_row(pairs, b, room, next);
    }
}
