// The pairs of stars of which the index has those whose dot product reaches a floor.
ghost use Rattle.std.specs.Prelude.{◌≡◌, ◌<◌};
ghost use Rattle.vectors.specs.Triples.{triples, Listed, pair_dot};
ghost use Rattle.catalogue_index.specs.Raised.{raised};

use crate::key;

// Decoded stars, three numbers a star, and the floor. It is moved up by 2^63, as the dot products are.
#[derive(Clone, Copy)]
pub(crate) struct Pairs<'a> {
    pub(crate) stars: &'a [i32],
    pub(crate) floor: u64,
    ghost listed: { Listed 512 stars.now },
}

impl<'a> Pairs<'a> {
    // The pairs of stars for a floor that is a signed number.
    pub(crate) fn new(stars: &'a [i32], floor: i64) -> Self
        requires { Listed 512 stars.now }
        ensures stars { result.stars.now ≡ stars.now }
        ensures floor { result.floor ≡ raised floor }
    {
        Pairs {
            stars,
            floor: key::raise(floor),
        }
    }

    // How many stars there are.
    pub(crate) fn total(&self) -> usize
        ensures { result ≡ triples self.now.stars.now }
    {
        self.stars.len() / 3
    }

    // The dot product of a pair, moved up by 2^63.
    pub(crate) fn product(&self, a: usize, b: usize) -> u64
        requires { (a < triples self.now.stars.now) × (b < triples self.now.stars.now) }
        ensures { result ≡ raised (pair_dot self.now.stars.now a b) }
    {
        key::product(self.stars, a, b)
    }
}
