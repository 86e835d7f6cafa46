// The C interface of what the gimbal computer is sent: direction cosines and a row by a target, as doubles in lent rooms.
mod rooms;

ghost use Rattle.std.specs.Prelude.{◌≡◌, length};
ghost use Rattle.c_numbers.specs.Room.{handed_over};
ghost use Rattle.c_numbers.specs.Numbers.{ranking_numbers};
ghost use Rattle.c_interface.specs.gimbal.Cosines.{cosines_numbers, cosines_of, cosines_room};
ghost use Rattle.c_interface.specs.gimbal.Turned.{turned_outcome, turned_room};

use attitude_gimbal::Cosines;
use refusal::Refusal;

// The refusal, or nothing more: the room is the answer.
// Stays: a match. `map_or_else` was tried: that the numbers are `cosines_numbers` then needs a proof by hand, which is no plainer.
fn of_cosines(gimbal: Result<Cosines, Refusal>) -> [i64; 64]
    ensures { result ≡ cosines_numbers gimbal }
{
    match gimbal {
        Err(refusal) => c_numbers::of_refusal(refusal),
        Ok(_) => [0; 64],
    }
}

// The direction cosines of a matrix of nine entries by rows, put into the room. Refused with 18 without room for nine floats, and with 23 for another count of
// entries: what is handed in is no matrix.
#[tactic(auto, unfolding(crate::specs::gimbal::Cosines::cosines_of, crate::specs::gimbal::Cosines::cosines_room))]
fn put_cosines_in(matrix: &[i64], rows: &mut [f64]) -> Result<Cosines, Refusal>
    ensures rows_after { rows.new ≡ cosines_room matrix.now rows.old }
    ensures value { result ≡ cosines_of matrix.now rows.old }
{
    if rows.len() < 9 {
        return Err(Refusal {
            number: refusal::RECORDS_ROOM,
            place: 0,
        });
    }
    if matrix.len() != 9 {
        return Err(Refusal {
            number: refusal::ENTRY,
            place: 0,
        });
    }
    let answer = attitude_gimbal::cosines_of(rooms::matrix_in(matrix));
    rooms::put_rows(rows, answer);
    answer
}

// The direction cosines of a matrix, nine floats by rows.
#[unsafe(no_mangle)]
pub extern "C" fn mnemathor_cosines(matrix: &[i64], rows: &mut [f64], out: &mut [i64])
    ensures rows_after { rows.new ≡ cosines_room matrix.now rows.old }
    ensures out_after { out.new ≡ handed_over (cosines_numbers (cosines_of matrix.now rows.old)) out.old }
{
    let answer = put_cosines_in(matrix, rows);
    c_numbers::hand_over(out, of_cosines(answer));
}

// Each of three rows by a target of three floats, put into the room. Refused with 8 where the target is not three floats, with 18 without room for three,
// and with 23 where the rows are not nine floats.
#[tactic(auto, unfolding(crate::specs::gimbal::Turned::turned_outcome, crate::specs::gimbal::Turned::turned_room, refusal::specs::Table::first_applying))]
fn put_turned(rows: &[f64], target: &[f64], turned: &mut [f64]) -> Result<(), Refusal>
    ensures turned_after { turned.new ≡ turned_room rows.now target.now turned.old }
    ensures value { result ≡ turned_outcome (length rows.now) (length target.now) (length turned.old) }
{
    if target.len() != 3 {
        return refusal::plain(refusal::DIRECTIONS);
    }
    if turned.len() < 3 {
        return refusal::plain(refusal::RECORDS_ROOM);
    }
    if rows.len() != 9 {
        return refusal::plain(refusal::ENTRY);
    }
    let answer = attitude_gimbal::turned(rooms::cosines_in(rows), rooms::triple_at(target, 0));
    rooms::put_triple(turned, answer);
    Ok(())
}

// Each of three rows by a target, three floats.
#[unsafe(no_mangle)]
pub extern "C" fn mnemathor_turned(
    rows: &[f64],
    target: &[f64],
    turned: &mut [f64],
    out: &mut [i64],
)
    ensures turned_after { turned.new ≡ turned_room rows.now target.now turned.old }
    ensures out_after { out.new ≡ handed_over (ranking_numbers (turned_outcome (length rows.now) (length target.now)
        (length turned.old))) out.old }
{
    let outcome = put_turned(rows, target, turned);
    c_numbers::hand_over(out, c_numbers::of_ranking(outcome));
}
