// The index of a catalogue: its bytes in one room, and the line that says how many records it has in another.
ghost use Rattle.std.specs.Prelude.{◌≡◌, ◌≤◌, length, IfSome};
ghost use Rattle.catalogue_index.specs.Build.{built_of, room_after};
ghost use Rattle.text.specs.Room.{room_with};
ghost use Rattle.desk_lines.specs.index.Pairs.{built_line, indexed_of};

use crate::file_line;
use crate::file_line::{Made, Said};

// Puts the index at the front of its room and the line at the start of the other, and leaves the rest of both as it is. Of a refused catalogue there is
// the line alone.
pub fn index(catalogue: &[u8], floor: i64, index: &mut [u8], room: &mut [u8]) -> Made
    ensures value { result ≡ indexed_of (built_of catalogue.now floor (length index.old)) room.old }
    ensures index_after { index.new ≡ room_after catalogue.now floor index.old }
    ensures room_after { room.new ≡ room_with 128 room.old (built_line (built_of catalogue.now floor (length index.old))) }
    ensures bytes_in_bounds { IfSome result.bytes (λ n. n ≤ length index.old) × (result.line ≤ 72) }
{
    let built = catalogue_index::build(catalogue, floor, index);
    match built {
        Err(r) => {
            let line = file_line::whole_line(room, Said::Refused(r));
            Made { bytes: None, line }
        }
        Ok(n) => {
            let bytes = 12 * n;
            let line = file_line::whole_line(room, Said::Records(n));
            Made {
                bytes: Some(bytes),
                line,
            }
        }
    }
}
