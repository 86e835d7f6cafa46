// The rule over every three: no three directions may be seen as the mirror image of their stars.
ghost use Rattle.std.specs.Prelude.{◌≡◌, ◌+◌, ◌*◌, ◌<◌, ◌≤◌, not, length, pos, nat_lt, slice_index};
ghost use Rattle.vectors.specs.Triples.{AllWithin, triple_at};
ghost use Rattle.vectors.specs.handedness.Handedness.{triple_of, mirrored};
ghost use Rattle.lists.specs.Tests.{all, given};
ghost use Rattle.search_fit.specs.Fit.{Turned, Seen, mirrored_by, upright};

use crate::index;
use crate::look::Look;
use vectors::handedness;

// The triple product of three triples of a list.
fn product_of(list: &[i32], a: usize, b: usize, c: usize) -> i64
    requires in_bounds { (3 * a + 3 ≤ length list.now) × (3 * b + 3 ≤ length list.now) × (3 * c + 3 ≤ length list.now) }
    requires all_within { AllWithin 1000000000 list.now }
    ensures { result ≡ triple_of (triple_at list.now a) (triple_at list.now b) (triple_at list.now c) }
{
    handedness::triple_product(
        vectors::triple_at(list, a),
        vectors::triple_at(list, b),
        vectors::triple_at(list, c),
    )
}

// The triple product of the directions j, k and i, which are named in list order; of others there is none.
fn turn_of(directions: &[i32], j: usize, k: usize, i: usize) -> i64
    requires { (3 * i + 3 ≤ length directions.now) × AllWithin 1000000000 directions.now }
    ensures value { j < k → k < i → result ≡ triple_of (triple_at directions.now j) (triple_at directions.now k)
        (triple_at directions.now i) }
    ensures value_2 { (j < k → k < i → ⊥) → result ≡ pos 0 }
{
    if k <= j || i <= k {
        return 0;
    }
    product_of(directions, j, k, i)
}

// The triple products of direction i with each two before it, and zeros at all other places. They serve all stars of a look along its row.
pub fn turns(directions: &[i32], i: usize) -> [i64; 64]
    requires { (i < 8) × (3 * i + 3 ≤ length directions.now) × AllWithin 1000000000 directions.now }
    ensures { Turned directions.now i result }
{
    let end = 8 * i;
    let mut turns = [0i64; 64];
    for q in 0..end {
        turns[q] = turn_of(directions, q / 8, q % 8, i);
    }
    turns
}

// Whether three stars are the mirror image of three directions with that triple product.
fn is_mirrored(turn: i64, stars: &[i32], a: usize, b: usize, c: usize) -> bool
    requires a_in_bounds { (3 * a + 3 ≤ length stars.now) × (3 * b + 3 ≤ length stars.now) × (3 * c + 3 ≤ length stars.now) }
    requires all_within { AllWithin 1000000000 stars.now }
    ensures { result ≡ mirrored turn (triple_of (triple_at stars.now a) (triple_at stars.now b) (triple_at stars.now c)) }
{
    handedness::are_mirrored(turn, product_of(stars, a, b, c))
}

// Whether the star makes no mirror image with the second of two earlier stars, which stands at k, and any first before it.
fn upright_beside(
    look: &Look,
    turns: &[i64],
    i: usize,
    k: usize,
    second: usize,
    star: usize,
) -> bool
    requires seen { let l = look.now in Seen l.stars.now l.count l.chosen.now turns.now i }
    requires k_lt_i { (k < i) × (second < look.now.count) × (star < look.now.count) }
    ensures { let l = look.now in result ≡ all k (λ j. given (nat_lt (slice_index l.chosen.now j) l.count)
        (not (mirrored_by l.stars.now turns.now j k i (slice_index l.chosen.now j) second star))) }
{
    for j in 0..k {
        let first = index(look.chosen[j]);
        if first < look.count && is_mirrored(turns[j * 8 + k], look.stars, first, second, star) {
            return false;
        }
    }
    true
}

// Whether the star makes no mirror image with any two of the first i words chosen.
pub(crate) fn is_upright(look: &Look, turns: &[i64], i: usize, star: usize) -> bool
    requires seen { let l = look.now in Seen l.stars.now l.count l.chosen.now turns.now i }
    requires star_lt_count { star < look.now.count }
    ensures { let l = look.now in result ≡ upright l.stars.now l.count turns.now i l.chosen.now star }
{
    for k in 0..i {
        let second = index(look.chosen[k]);
        if second < look.count && !upright_beside(look, turns, i, k, second, star) {
            return false;
        }
    }
    true
}
