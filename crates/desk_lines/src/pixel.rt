// Why a pixel is not a star: the line for a settings file, a frame file, a row and a column.
ghost use Rattle.std.specs.Prelude.{◌≡◌, ◌≤◌};
ghost use Rattle.text.specs.Room.{room_with, length_in};
ghost use Rattle.text.specs.Written.{Wrote};
ghost use Rattle.desk_lines.specs.Why.{side_line, measured_line, reason_line, explanation_line, explained_with, why_text};

use crate::worded;
use chain::Settings;
use frame_centroid::Centroid;
use frame_reason::{Reason, Side};
use refusal::Refusal;

fn side_line(room: &mut [u8], side: Side) -> usize
    ensures wrote { Wrote room.old 0 (side_line side) room.new result }
    ensures upper_bound { result ≤ 12 }
{
    match side {
        Side::Left => text::word(room, 0, b"edge left\n"),
        Side::Right => text::word(room, 0, b"edge right\n"),
        Side::Top => text::word(room, 0, b"edge top\n"),
        Side::Bottom => text::word(room, 0, b"edge bottom\n"),
    }
}

// Stays: beside `place` of `listing`, which puts the same three numbers: neither crate rests on the other, and `text` below both knows no star.
fn measured(room: &mut [u8], star: Centroid) -> usize
    ensures wrote { Wrote room.old 0 (measured_line star) room.new result }
    ensures upper_bound { result ≤ 72 }
{
    let x = text::labelled(room, 0, b"measured ", star.x);
    let y = text::labelled(room, x, b" ", star.y);
    let brightness = text::labelled(room, y, b" ", star.brightness);
    text::word(room, brightness, b"\n")
}

#[tactic(auto, unfolding(crate::specs::Why::pair_line, crate::specs::Why::lone_line))]
fn reason_line(room: &mut [u8], reason: Reason) -> usize
    ensures wrote { Wrote room.old 0 (reason_line reason) room.new result }
    ensures upper_bound { result ≤ 72 }
{
    match reason {
        Reason::Dark(sample, threshold) => {
            worded::two(room, b"dark ", sample as u64, b" ", threshold as u64)
        }
        Reason::Beaten(row, column) => {
            worded::two(room, b"beaten ", row as u64, b" ", column as u64)
        }
        Reason::Edge(side) => side_line(room, side),
        Reason::Lone(largest) => worded::one(room, b"lone ", largest as u64),
        Reason::Measured(star) => measured(room, star),
    }
}

fn line(room: &mut [u8], explanation: Result<Reason, Refusal>) -> usize
    ensures wrote { Wrote room.old 0 (explanation_line explanation) room.new result }
    ensures upper_bound { result ≤ 72 }
{
    match explanation {
        Err(r) => text::refused(room, 0, r),
        Ok(reason) => reason_line(room, reason),
    }
}

// The explanation for a frame file, with settings that were read.
fn explain(frame: &[u8], row: usize, column: usize, settings: Settings) -> Result<Reason, Refusal>
    ensures { result ≡ explained_with frame.now row column settings }
{
    let mut samples = [0u16; 32000];
    let width = settings.width;
    let height = settings.height;
    let threshold = settings.threshold;
    let count = files::read_samples(frame, width, height, &mut samples);
    frame_reason::explain(&samples[..count], width, height, threshold, row, column)
}

// Puts the line at the start of the room, leaves the rest as it is, and answers how many bytes it has. A room of fewer than 128 bytes gets none.
pub fn why(settings: &[u8], frame: &[u8], row: usize, column: usize, room: &mut [u8]) -> usize
    ensures value { result ≡ length_in 128 room.old (why_text settings.now frame.now row column) }
    ensures room_after { room.new ≡ room_with 128 room.old (why_text settings.now frame.now row column) }
    ensures upper_bound { result ≤ 72 }
{
    let is_short = room.len() < crate::LINE;
    if is_short {
        return 0;
    }
    let reading = files::read_settings(settings);
    match reading {
        Err(r) => text::refused(room, 0, r),
        Ok(s) => {
            let explanation = explain(frame, row, column, s);
            line(room, explanation)
        }
    }
}
