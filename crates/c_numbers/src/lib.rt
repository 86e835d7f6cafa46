// What a call of the C interface hands over. An answer is 64 signed numbers in a lent room: the refusal's number and place, 0 and 0 where the call is accepted,
// then the answer's own numbers, then zeros.
#![tactic(auto)]

ghost use Rattle.std.specs.Prelude.{◌≡◌, [], ◌∷◌, ◌+◌, ◌≤◌, length};
ghost use Rattle.numbers.specs.TwosComplement.{signed_of};
ghost use Rattle.c_numbers.specs.Numbers.{
  refused_numbers,
  accepted_numbers,
  outcome_numbers,
  ranking_numbers,
  counted_numbers,
  vector_numbers,
  with_vector,
  vector_at,
};
ghost use Rattle.c_numbers.specs.Room.{handed_over};
ghost use Rattle.c_numbers.specs.Matrix.{matrix_numbers, with_matrix};
ghost use Rattle.c_numbers.specs.Stars.{with_star, with_stars, name_of, with_names};

use attitude::Matrix;
use frame_centroid::Centroid;
use numbers::signed;
use refusal::Refusal;
use vectors::Vec3;

// Where the numbers stand: a refusal's two, and the answer's own, which begin behind them.
pub const NUMBER: usize = 0;

pub const PLACE: usize = 1;

pub const OWN: usize = 2;

// The stars of a search's directions, behind one number of its own; those of a frame's list, behind its four counts; and behind the list, in a chain, the
// star of each listed direction and the matrix.
pub const NAMES: usize = 3;

pub const STARS: usize = 6;

pub const CHAIN_NAMES: usize = 30;

pub const CHAIN_MATRIX: usize = 38;

// A refusal: its number and its place.
// Stays: functions `of_..` and no `From`, which would need a type of its own round the 64 numbers, opened again at each export.
pub fn of_refusal(refusal: Refusal) -> [i64; 64]
    ensures { result ≡ refused_numbers refusal }
{
    let mut flat = [0; 64];
    flat[NUMBER] = signed(u64::from(refusal.number));
    flat[PLACE] = signed(refusal.place as u64);
    flat
}

// The numbers of a call that is accepted, or those of its refusal.
// Stays: a match. `map_or_else` was tried: that the numbers are `outcome_numbers` then needs a proof by hand, which is no plainer.
pub fn of_outcome(outcome: Result<(), Refusal>, accepted: [i64; 64]) -> [i64; 64]
    ensures { result ≡ outcome_numbers outcome accepted }
{
    match outcome {
        Ok(()) => accepted,
        Err(refusal) => of_refusal(refusal),
    }
}

// A ranking has no numbers of its own: the room is its answer.
pub fn of_ranking(outcome: Result<(), Refusal>) -> [i64; 64]
    ensures { result ≡ ranking_numbers outcome }
{
    of_outcome(outcome, [0; 64])
}

pub fn of_count(n: usize) -> [i64; 64]
    ensures { result ≡ accepted_numbers (signed_of n ∷ []) }
{
    let mut flat = [0; 64];
    flat[OWN] = signed(n as u64);
    flat
}

// A count, or the refusal of the call that counts.
pub fn of_counted(counted: Result<usize, Refusal>) -> [i64; 64]
    ensures { result ≡ counted_numbers counted }
{
    counted.map_or_else(of_refusal, of_count)
}

// Puts a vector's numbers from a place on.
// Stays: the numbers and a place among them, here and below, and no struct of both, since each call has another place.
fn put_vector(flat: &mut [i64; 64], at: usize, v: Vec3)
    requires { at ≤ 61 }
    ensures { flat.new ≡ with_vector flat.old at v }
{
    flat[at] = v.x;
    flat[at + 1] = v.y;
    flat[at + 2] = v.z;
}

// Three numbers of a lent list, from a place on.
pub fn vector_at(numbers: &[i64], i: usize) -> Vec3
    requires { i + 3 ≤ length numbers.now }
    ensures { result ≡ vector_at numbers.now i }
{
    Vec3 {
        x: numbers[i],
        y: numbers[i + 1],
        z: numbers[i + 2],
    }
}

pub fn of_vector(v: Vec3) -> [i64; 64]
    ensures { result ≡ accepted_numbers (vector_numbers v) }
{
    let mut flat = [0; 64];
    put_vector(&mut flat, OWN, v);
    flat
}

// Puts a matrix's numbers from a place on, row by row.
pub fn put_matrix(flat: &mut [i64; 64], at: usize, matrix: Matrix)
    requires { at ≤ 55 }
    ensures { flat.new ≡ with_matrix flat.old at matrix }
{
    put_vector(flat, at, matrix.row0);
    put_vector(flat, at + 3, matrix.row1);
    put_vector(flat, at + 6, matrix.row2);
}

pub fn of_matrix(matrix: Matrix) -> [i64; 64]
    ensures { result ≡ accepted_numbers (matrix_numbers matrix) }
{
    let mut flat = [0; 64];
    put_matrix(&mut flat, OWN, matrix);
    flat
}

// Puts a star's position and brightness from a place on.
pub fn put_star(flat: &mut [i64; 64], at: usize, star: Centroid)
    requires { at ≤ 61 }
    ensures { flat.new ≡ with_star flat.old at star }
{
    flat[at] = signed(star.x);
    flat[at + 1] = signed(star.y);
    flat[at + 2] = signed(star.brightness);
}

// Puts a frame's eight stars, at their place.
pub fn put_stars(flat: &mut [i64; 64], stars: [Centroid; 8])
    ensures { flat.new ≡ with_stars stars 8 flat.old }
{
    for (k, star) in stars.iter().enumerate() {
        put_star(flat, STARS + 3 * k, *star);
    }
}

// The star of direction i by its record number, -1 for none, and 0 behind the directions.
// Stays: a number for none, since that is what C reads of mnemathor_search.
fn name_of(word: u16, i: usize, directions: usize, stars: usize) -> i64
    ensures { result ≡ name_of word directions stars i }
{
    let word = usize::from(word);
    if i >= directions {
        0
    } else if word >= stars {
        -1
    } else {
        signed(word as u64)
    }
}

// Puts the stars of eight directions from a place on.
pub fn put_names(flat: &mut [i64; 64], at: usize, words: [u16; 8], directions: usize, stars: usize)
    requires { at ≤ 56 }
    ensures { flat.new ≡ with_names at words directions stars 8 flat.old }
{
    for (i, word) in words.iter().enumerate() {
        flat[at + i] = name_of(*word, i, directions, stars);
    }
}

// Puts the numbers at the start of the room, and leaves a room that is too short as it is.
pub fn hand_over(out: &mut [i64], flat: [i64; 64])
    ensures { out.new ≡ handed_over flat out.old }
{
    let is_short = out.len() < 64;
    if is_short {
        return;
    }
    // Stays: one after the other. `copy_from_slice` calls `memmove` on AArch64 too, a name more that a program without a C library would have to bring.
    for i in 0..64 {
        out[i] = flat[i];
    }
}
