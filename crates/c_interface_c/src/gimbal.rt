// The C interface of what the gimbal computer is sent: direction cosines and a row by a target, as doubles in lent rooms.
ghost use Rattle.std.specs.Prelude.{◌≡◌, length};
ghost use Rattle.c_numbers.specs.Room.{handed_over};
ghost use Rattle.c_numbers.specs.Numbers.{ranking_numbers};
ghost use Rattle.c_interface.specs.gimbal.Cosines.{cosines_numbers, cosines_of, cosines_room};
ghost use Rattle.c_interface.specs.gimbal.Turned.{turned_outcome, turned_room};

// The direction cosines of a matrix, nine floats by rows.
#[unsafe(no_mangle)]
pub extern "C" fn mnemathor_cosines(matrix: &[i64], rows: &mut [f64], out: &mut [i64])
    ensures rows_after { rows.new ≡ cosines_room matrix.now rows.old }
    ensures out_after { out.new ≡ handed_over (cosines_numbers (cosines_of matrix.now rows.old)) out.old }
{
    c_interface::gimbal::mnemathor_cosines(matrix, rows, out);
}

// Each of three rows by a target, three floats.
#[unsafe(no_mangle)]
pub extern "C" fn mnemathor_turned(
    rows: &[f64],
    target: &[f64],
    turned: &mut [f64],
    out: &mut [i64],
)
    ensures turned_after { turned.new ≡ turned_room rows.now target.now turned.old }
    ensures out_after { out.new ≡ handed_over (ranking_numbers (turned_outcome (length rows.now) (length target.now)
        (length turned.old))) out.old }
{
    c_interface::gimbal::mnemathor_turned(rows, target, turned, out);
}
