// The desk's cut: the flight catalogue in the catalogue's own buffer, and the line that says how many records are kept. And the limit as a word.
mod limit;

ghost use Rattle.std.specs.Prelude.{◌≡◌, ◌≤◌, length, IfSome};
ghost use Rattle.catalogue.specs.Format.{records_in};
ghost use Rattle.catalogue_cut.specs.Cut.{shortened_of, buffer_after};
ghost use Rattle.text.specs.Room.{room_with};
ghost use Rattle.desk_lines.specs.cut.Lines.{shortened_line, cutting_of};

use crate::file_line;
use crate::file_line::{Made, Said};
pub use limit::parse_limit;

// Cuts the catalogue in its buffer, puts the line at the start of the room, and leaves the rest of the room as it is.
pub fn cut_text(bytes: &mut [u8], limit: i32, closeness: i64, room: &mut [u8]) -> Made
    ensures value { result ≡ cutting_of (shortened_of bytes.old limit closeness) (records_in bytes.old) room.old }
    ensures bytes_after { bytes.new ≡ buffer_after bytes.old limit closeness }
    ensures room_after { room.new ≡ room_with 128 room.old
        (shortened_line (shortened_of bytes.old limit closeness) (records_in bytes.old)) }
    ensures bytes_in_bounds { IfSome result.bytes (λ n. n ≤ length bytes.old) × (result.line ≤ 72) }
{
    let records = catalogue::records(bytes);
    let shortened = catalogue_cut::cut(bytes, limit, closeness);
    match shortened {
        Err(r) => {
            let line = file_line::whole_line(room, Said::Refused(r));
            Made { bytes: None, line }
        }
        Ok(n) => {
            let kept = catalogue::RECORD_SIZE * n;
            let line = file_line::whole_line(room, Said::Kept(n, records));
            Made {
                bytes: Some(kept),
                line,
            }
        }
    }
}
