// What is voted on: each star votes for each direction.
ghost use Rattle.std.specs.Prelude.{◌≡◌};
ghost use Rattle.vectors.specs.Triples.{triples, Listed};

// Directions and decoded stars, three numbers each, and how far two dot products that agree may lie apart.
#[derive(Clone, Copy)]
pub struct Ballot<'d, 's> {
    pub directions: &'d [i32],
    pub stars: &'s [i32],
    pub tolerance: u64,
    pub ghost listed: { Listed 8 directions.now },
    pub ghost listed_2: { Listed 512 stars.now },
}

impl Ballot<'_, '_> {
    // How many directions there are.
    pub fn count(&self) -> usize
        ensures { result ≡ triples self.now.directions.now }
    {
        self.directions.len() / 3
    }

    // How many stars.
    pub fn total(&self) -> usize
        ensures { result ≡ triples self.now.stars.now }
    {
        self.stars.len() / 3
    }
}
