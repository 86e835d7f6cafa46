// The attitude of an identification: from its first two assigned directions and their stars.
ghost use Rattle.std.specs.Prelude.{◌≡◌, ◌+◌, ◌/◌, ◌≤◌, length};
ghost use Rattle.search_theory.specs.Problem.{assigned};
ghost use Rattle.attitude.specs.orient.Orient.{assigned_from, orientation_of};

use crate::Matrix;
use refusal::Refusal;

// The first direction from a place on that has a star, or the number of directions where none has.
// Stays: a number for none and no Option, as `assigned_from` of specs/orient has it. `attitude_of` asks only where two directions have a star, so it would open
// an Option twice for nothing.
fn assigned_from(words: [u16; 8], from: usize, directions: usize, stars: usize) -> usize
    requires { (from ≤ directions) × (directions ≤ 8) }
    ensures value { result ≡ assigned_from words stars directions from }
    ensures upper_bound { result ≤ directions }
{
    for i in from..directions {
        if usize::from(words[i]) < stars {
            return i;
        }
    }
    directions
}

// The attitude of an assignment that gives at least two directions a star.
pub fn attitude_of(directions: &[i32], stars: &[i32], words: [u16; 8]) -> Result<Matrix, Refusal>
    requires { (length directions.now / 3 ≤ 8) × (2 ≤ assigned (length stars.now / 3) words (length directions.now / 3)) }
    ensures { result ≡ orientation_of directions.now stars.now words }
{
    let count = directions.len() / 3;
    let total = stars.len() / 3;
    let i = assigned_from(words, 0, count, total);
    let j = assigned_from(words, i + 1, count, total);
    crate::triad(
        vectors::triple_at(directions, i),
        vectors::triple_at(directions, j),
        vectors::triple_at(stars, usize::from(words[i])),
        vectors::triple_at(stars, usize::from(words[j])),
    )
}
