// Matrices, rows and targets as numbers one behind the other.
ghost use Rattle.std.specs.Prelude.{◌≡◌, ◌+◌, ◌≤◌, length};
ghost use Rattle.attitude_gimbal.specs.Cosines.{triple_floats, cosines_floats};
ghost use Rattle.c_interface.specs.gimbal.Rooms.{matrix_in, triple_at, cosines_in, written};
ghost use Rattle.c_interface.specs.gimbal.Cosines.{floats_of};

use attitude::Matrix;
use attitude_gimbal::{Cosines, Triple};
use c_numbers::vector_at;
use refusal::Refusal;

pub(crate) fn matrix_in(entries: &[i64]) -> Matrix
    requires { 9 ≤ length entries.now }
    ensures { result ≡ matrix_in entries.now }
{
    Matrix {
        row0: vector_at(entries, 0),
        row1: vector_at(entries, 3),
        row2: vector_at(entries, 6),
    }
}

// Three floats from a place on.
pub(crate) fn triple_at(floats: &[f64], i: usize) -> Triple
    requires { i + 3 ≤ length floats.now }
    ensures { result ≡ triple_at floats.now i }
{
    Triple {
        x: floats[i],
        y: floats[i + 1],
        z: floats[i + 2],
    }
}

pub(crate) fn cosines_in(floats: &[f64]) -> Cosines
    requires { 9 ≤ length floats.now }
    ensures { result ≡ cosines_in floats.now }
{
    Cosines {
        row0: triple_at(floats, 0),
        row1: triple_at(floats, 3),
        row2: triple_at(floats, 6),
    }
}

// Puts floats at the start of a room that is long enough.
fn put(room: &mut [f64], floats: &[f64])
    requires { length floats.now ≤ length room.old }
    ensures { room.new ≡ written floats.now room.old }
{
    room[..floats.len()].copy_from_slice(floats);
}

pub(crate) fn put_triple(room: &mut [f64], t: Triple)
    requires { 3 ≤ length room.old }
    ensures { room.new ≡ written (triple_floats t) room.old }
{
    let floats = [t.x, t.y, t.z];
    put(room, &floats);
}

fn put_cosines(room: &mut [f64], c: Cosines)
    requires { 9 ≤ length room.old }
    ensures { room.new ≡ written (cosines_floats c) room.old }
{
    let floats = [
        c.row0.x, c.row0.y, c.row0.z, c.row1.x, c.row1.y, c.row1.z, c.row2.x, c.row2.y, c.row2.z,
    ];
    put(room, &floats);
}

// Puts the rows, where there are any.
pub(crate) fn put_rows(room: &mut [f64], gimbal: Result<Cosines, Refusal>)
    requires { 9 ≤ length room.old }
    ensures { room.new ≡ written (floats_of gimbal) room.old }
{
    if let Ok(cosines) = gimbal {
        put_cosines(room, cosines);
    }
}
