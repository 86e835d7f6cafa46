// The rule of fit: whether a star may stand at a direction beside the words before it. Another rule changes this crate.
#![tactic(auto)]

pub mod look;
pub mod mirror;
pub mod scene;
pub mod span;

ghost use Rattle.std.specs.Prelude.{◌≡◌, ◌+◌, ◌*◌, ◌<◌, ◌≤◌, ◌&&◌, length, pos, slice_index_or};
ghost use Rattle.vectors.specs.Triples.{AllWithin, pair_dot};
ghost use Rattle.vectors.specs.Agree.{agreeing};
ghost use Rattle.search_fit.specs.Fit.{Measured, Tested, NewestOf, Seen, besides, besides_newest, upright};
ghost use Rattle.search_fit.specs.Look.{LooksBeside};

use crate::look::Look;
use crate::scene::Scene;
use vectors::Vec3;

// How many directions and stars there are, how many directions need a star, and how far apart two dot products may be.
#[derive(Clone, Copy)]
pub struct Setup {
    pub dirs: usize,
    pub stars: usize,
    pub needed: usize,
    pub tolerance: u64,
}

// The newest star of the words chosen, with its place in the sky, the dot product of its direction, and the number of words before it.
// Stays: none is the number of stars, as an assignment's words have it, with a place and a product of zeros, which agree with every star. So `NewestOf` of
// specs/Fit says the same of a star and of none, and `passes` has no case for none.
#[derive(Clone, Copy)]
pub struct Newest {
    pub before: usize,
    pub star: usize,
    pub place: Vec3,
    pub dot: i64,
}

// A word as an index.
pub fn index(word: u16) -> usize
    ensures { result ≡ word }
{
    word as usize
}

// The dot products of direction i with each of the first n, of which it is none, and zeros behind them. They serve the whole row.
pub fn measured(directions: &[i32], i: usize, n: usize) -> [i64; 8]
    requires { (n ≤ i) × (i < 8) × (3 * i + 3 ≤ length directions.now) × AllWithin 1000000000 directions.now }
    ensures { Measured directions.now i n result }
{
    let mut dots = [0i64; 8];
    for j in 0..n {
        dots[j] = vectors::pair_dot(directions, j, i);
    }
    dots
}

// Whether the dot product of the direction and the one at place j agrees with that of the stars a and b.
fn agrees(look: &Look, j: usize, a: usize, b: usize) -> bool
    requires j_in_bounds { j < length look.now.dots.now }
    requires a_in_bounds { (a < look.now.count) × (b < look.now.count) }
    ensures { let l = look.now in result ≡ agreeing (slice_index_or l.dots.now j (pos 0)) (pair_dot l.stars.now a b) l.tolerance }
{
    let product = vectors::pair_dot(look.stars, a, b);
    vectors::agree(look.dots[j], product, look.tolerance)
}

// Whether the star may stand beside the first i words chosen, the newest first: none of them is this star, and each star among them agrees.
fn stands_beside(look: &Look, i: usize, star: usize) -> bool
    requires i_le_before { i ≤ look.now.newest.before }
    requires star_lt_count { star < look.now.count }
    ensures { let l = look.now in result ≡ besides l.stars.now l.count l.tolerance l.dots.now i l.chosen.now star }
{
    for j in (0..i).rev() {
        let other = index(look.chosen[j]);
        if other < look.count {
            let is_taken = other == star;
            if is_taken || !agrees(look, j, other, star) {
                return false;
            }
        }
    }
    true
}

// The newest star of the first i words chosen. Where there is none it is no star at all, and agrees with every star.
pub fn newest_of(stars: &[i32], count: usize, chosen: &[u16], dots: &[i64], i: usize) -> Newest
    requires { Tested stars.now count chosen.now dots.now i }
    ensures { NewestOf stars.now count chosen.now dots.now i result }
{
    for k in (0..i).rev() {
        let star = index(chosen[k]);
        if star < count {
            return Newest {
                before: k,
                star: star,
                place: vectors::triple_at(stars, star),
                dot: dots[k],
            };
        }
    }
    Newest {
        before: 0,
        star: count,
        place: Vec3 { x: 0, y: 0, z: 0 },
        dot: 0,
    }
}

// A look along the stars beside the first i words chosen, by a direction's dot products with the directions before it.
pub fn look_beside<'a>(
    scene: Scene<'_, 'a>,
    chosen: &'a [u16; 8],
    dots: &'a [i64; 8],
    i: usize,
) -> Look<'a>
    requires { (i ≤ 8) × AllWithin 3000000000000000000 dots.now }
    ensures { LooksBeside scene.entry.setup scene.entry.stars.now chosen.now dots.now i result }
{
    let stars = scene.stars;
    let count = scene.setup.stars;
    Look {
        stars,
        count,
        tolerance: scene.setup.tolerance,
        chosen,
        dots,
        newest: newest_of(stars, count, chosen, dots, i),
    }
}

// Whether the star may stand beside the newest star and the words before it.
#[tactic(auto, unfolding(crate::specs::Fit::besides_newest))]
pub fn passes(look: &Look, star: usize) -> bool
    requires { star < look.now.count }
    ensures { let l = look.now in result ≡ besides_newest l.stars.now l.count l.tolerance l.dots.now l.chosen.now l.newest star }
{
    let newest = look.newest;
    newest.star != star
        && span::agrees_with(newest.dot, newest.place, look.stars, look.tolerance, star)
        && stands_beside(look, newest.before, star)
}

// Whether the star may stand there by both rules, over every two and every three, by the direction's triple products with each two of the first i. The
// threes are asked only of a star that agrees.
pub fn may_stand(look: &Look, turns: &[i64], i: usize, star: usize) -> bool
    requires seen { let l = look.now in Seen l.stars.now l.count l.chosen.now turns.now i }
    requires star_lt_count { star < look.now.count }
    ensures { let l = look.now in result ≡ (besides_newest l.stars.now l.count l.tolerance l.dots.now l.chosen.now l.newest star && upright
        l.stars.now l.count turns.now i l.chosen.now star) }
{
    passes(look, star) && mirror::is_upright(look, turns, i, star)
}
