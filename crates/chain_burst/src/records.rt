// One record of a burst, 80 bytes, high byte first: the refusal's number and place, and the matrix by rows.
ghost use Rattle.std.specs.Prelude.{◌≡◌, [], ◌∷◌, ◌+◌, ◌≤◌, ◌<◌, length};
ghost use Rattle.std.proofs.lemmas.List.Edits.{sets};
ghost use Rattle.refusal.specs.Answer.{answer_of};
ghost use Rattle.chain_burst.specs.records.Record.{record_size, record3, record_of, signed_bytes, encoded};

use attitude::Matrix;
use refusal::Refusal;
use vectors::Vec3;

// How many bytes a record has.
pub const RECORD_SIZE: usize = 80;

// Writes the three entries of a row from a place on, each as its 64 bits.
fn put_row(room: &mut [u8], at: usize, row: Vec3)
    requires { at + 24 ≤ length room.old }
    ensures { room.new ≡ sets room.old at (signed_bytes (row.x ∷ (row.y ∷ (row.z ∷ [])))) }
{
    let Vec3 { x, y, z } = row;
    words::put_u64(room, at, x.cast_unsigned());
    words::put_u64(room, at + 8, y.cast_unsigned());
    words::put_u64(room, at + 16, z.cast_unsigned());
}

// Writes the parts of a record from a place on.
fn put_parts(room: &mut [u8], at: usize, number: u32, place: u32, matrix: Matrix)
    requires { at + record_size ≤ length room.old }
    ensures { room.new ≡ sets room.old at (encoded (record3 number place matrix)) }
{
    words::put_u32(room, at, number);
    words::put_u32(room, at + 4, place);
    put_row(room, at + 8, matrix.row0);
    put_row(room, at + 32, matrix.row1);
    put_row(room, at + 56, matrix.row2);
}

// Writes the record of an answer from a place on. A refused one has zeros for its matrix.
pub fn put(room: &mut [u8], at: usize, outcome: Result<(), Refusal>, matrix: Matrix)
    requires record_size_in_bounds { at + record_size ≤ length room.old }
    requires outcome_bound { (answer_of outcome).place < 4294967296 }
    ensures { room.new ≡ sets room.old at (encoded (record_of outcome matrix)) }
{
    let zeros = Vec3 { x: 0, y: 0, z: 0 };
    let none = Matrix {
        row0: zeros,
        row1: zeros,
        row2: zeros,
    };
    match outcome {
        Ok(()) => put_parts(room, at, 0, 0, matrix),
        Err(r) => put_parts(room, at, r.number, r.place as u32, none),
    }
}
