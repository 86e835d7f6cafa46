// The votes for one direction with an index of the star pairs: by the index where it has every pair that could agree, else by the full catalogue. Both
// fill the same counters. The floor is moved up by 2^63.
mod by_catalogue;
mod by_index;
mod ends;
mod split;

ghost use Rattle.std.specs.Prelude.{◌≡◌, ◌<◌, ◌≤◌};
ghost use Rattle.vectors.specs.Triples.{triples};
ghost use Rattle.ranking_votes.specs.Votes.{counters_of};
ghost use Rattle.catalogue_index.specs.Index.{bytes_from};

use crate::votes::split::Split;
use ranking_votes::ballot::Ballot;

// A ballot, and the index of its stars for a floor.
#[derive(Clone, Copy)]
pub struct Indexed<'d, 's, 'i> {
    pub ballot: Ballot<'d, 's>,
    pub index: &'i [u8],
    pub floor: u64,
    pub ghost tolerance_bound: { ballot.tolerance ≤ 10000000000000000 },
    pub ghost index_value: { index.now ≡ bytes_from ballot.stars.now floor },
}

// The votes of each star for direction i. The part that reads the index is not lent the catalogue.
pub fn votes_for(indexed: &Indexed, i: usize) -> [u32; 512]
    requires { i < triples indexed.now.ballot.directions.now }
    ensures { result ≡ counters_of indexed.now.ballot.directions.now indexed.now.ballot.stars.now indexed.now.ballot.tolerance i }
{
    let ballot = indexed.ballot;
    let products = ranking_votes::products_of(ballot.directions, i);
    let split = Split {
        products: &products[..ballot.count()],
        i,
        tolerance: ballot.tolerance,
        floor: indexed.floor,
    };
    let mut votes = [0u32; 512];
    by_index::vote_above(&split, indexed.index, &mut votes);
    by_catalogue::vote_below(&split, ballot.stars, &mut votes);
    votes
}
