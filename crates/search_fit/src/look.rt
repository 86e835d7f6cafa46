// What a look along the stars tests each of them by.
ghost use Rattle.search_fit.specs.Fit.{Ready};

use crate::Newest;

// The stars, the words chosen, a direction's dot products with the directions before it, and the newest star of the words. Most stars that may not stand
// fail beside that one, so that it is read once for a look along all stars.
#[derive(Clone, Copy)]
pub struct Look<'a> {
    pub stars: &'a [i32],
    pub count: usize,
    pub tolerance: u64,
    pub chosen: &'a [u16],
    pub dots: &'a [i64],
    pub newest: Newest,
    pub ghost ready: { Ready stars.now count chosen.now dots.now newest },
}
