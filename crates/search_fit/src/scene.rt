// The directions and the stars of a search.
ghost use Rattle.search_fit.specs.Fit.{InRange};

use crate::Setup;

// Directions and stars in threes, and how many there are: at most 8 directions and 512 stars, each component within 10^9.
#[derive(Clone, Copy)]
pub struct Scene<'d, 's> {
    pub directions: &'d [i32],
    pub stars: &'s [i32],
    pub setup: Setup,
    pub ghost in_range: { InRange setup directions.now stars.now },
}
