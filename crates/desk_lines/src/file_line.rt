// The line of a file that the desk makes, an index or a cut catalogue, and what the desk has of the file.
ghost use Rattle.std.specs.Prelude.{◌≡◌, ◌≤◌};
ghost use Rattle.text.specs.Room.{room_with, length_in};
ghost use Rattle.text.specs.Written.{Wrote};
ghost use Rattle.desk_lines.specs.FileLine.{said_line};

use crate::worded;
use refusal::Refusal;

// What the desk has of the file.
#[derive(Clone, Copy)]
pub struct Made {
    // How many bytes it has, at the front of its buffer: none where there is no file.
    pub bytes: Option<usize>,
    // How many bytes the line has.
    pub line: usize,
}

// What the line says: a refusal, how many records an index has, or how many of how many a cut keeps.
#[derive(Clone, Copy)]
pub enum Said {
    Refused(Refusal),
    Records(usize),
    Kept(usize, usize),
}

#[tactic(auto, unfolding(crate::specs::FileLine::records_line, crate::specs::FileLine::kept_line))]
fn line(room: &mut [u8], said: Said) -> usize
    ensures wrote { Wrote room.old 0 (said_line said) room.new result }
    ensures upper_bound { result ≤ 72 }
{
    match said {
        Said::Refused(r) => text::refused(room, 0, r),
        Said::Records(n) => worded::one(room, b"records ", n as u64),
        Said::Kept(n, records) => worded::two(room, b"kept ", n as u64, b" of ", records as u64),
    }
}

// A room of fewer than 128 bytes gets no line.
pub fn whole_line(room: &mut [u8], said: Said) -> usize
    ensures value { result ≡ length_in 128 room.old (said_line said) }
    ensures room_after { room.new ≡ room_with 128 room.old (said_line said) }
    ensures upper_bound { result ≤ 72 }
{
    let is_short = room.len() < crate::LINE;
    if is_short {
        return 0;
    }
    line(room, said)
}
