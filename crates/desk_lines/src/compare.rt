// What changed between two catalogues, as a text in a lent room: a line for each star.
ghost use Rattle.std.specs.Prelude.{◌≡◌, ◌+◌, ◌*◌, ◌/◌, ◌≤◌, length};
ghost use Rattle.text.specs.Room.{room_with, length_in};
ghost use Rattle.text.specs.Written.{Wrote};
ghost use Rattle.desk_lines.specs.compare.Lines.{change_label, change_line, lines_of, compare_text};

use catalogue_compare::CHANGE_SIZE;

// The bytes that a room for the lines of any two catalogues has.
pub const ROOM: usize = 32768;

// The word for what the list says, and the identity.
// Stays: a kind is a `u32` of the list's bytes and no enum: `change_label` has a line for each number that may stand there, and only 1, 2 and 3 are kinds.
fn label(room: &mut [u8], at: usize, identity: u32, kind: u32) -> usize
    ensures wrote { Wrote room.old at (change_label identity kind) room.new result }
    ensures upper_bound { result ≤ at + 28 }
{
    match kind {
        1 => text::labelled(room, at, b"removed ", identity as u64),
        2 => text::labelled(room, at, b"added ", identity as u64),
        _ => text::labelled(room, at, b"changed ", identity as u64),
    }
}

fn line(room: &mut [u8], at: usize, identity: u32, kind: u32) -> usize
    ensures wrote { Wrote room.old at (change_line identity kind) room.new result }
    ensures upper_bound { result ≤ at + 29 }
{
    let next = label(room, at, identity, kind);
    text::word(room, next, b"\n")
}

// The lines of a list's records.
fn lines(room: &mut [u8], list: &[u8]) -> usize
    ensures wrote { Wrote room.old 0 (lines_of list.now) room.new result }
    ensures upper_bound { result ≤ 29 * (length list.now / 8) }
{
    let mut next = 0;
    for record in list.chunks_exact(CHANGE_SIZE) {
        next = line(
            room,
            next,
            words::u32_at(record, 0),
            words::u32_at(record, 4),
        );
    }
    next
}

// Puts the lines at the start of the room, leaves the rest as it is, and answers how many bytes they have. A room of fewer than 32,768 bytes gets none.
pub fn compare_text(first: &[u8], second: &[u8], room: &mut [u8]) -> usize
    ensures value { result ≡ length_in 32768 room.old (compare_text first.now second.now) }
    ensures room_after { room.new ≡ room_with 32768 room.old (compare_text first.now second.now) }
    ensures upper_bound { result ≤ 29696 }
{
    let is_short = room.len() < ROOM;
    if is_short {
        return 0;
    }
    let mut list = [0u8; 8192];
    let compared = catalogue_compare::compare(first, second, &mut list);
    match compared {
        Err(r) => text::refused(room, 0, r),
        Ok(n) => {
            let end = CHANGE_SIZE * n;
            lines(room, &list[..end])
        }
    }
}
