// The lines about rivals: "alone", or a line for each listed star with the rival's names.
ghost use Rattle.std.specs.Prelude.{◌≡◌, ◌≤◌};
ghost use Rattle.text.specs.Room.{room_with, length_in};
ghost use Rattle.text.specs.Written.{Wrote};
ghost use Rattle.listing.specs.Listing.{chain_on, room_size};
ghost use Rattle.listing.specs.Rival.{contest_text, call_text, rival_text};

use crate::{Asked, Input};
use frame_list::Report;
use search_rival::Contest;

// The lines of an answer about the stars of a report.
fn contested(room: &mut [u8], report: Report, contest: Contest, catalogue: &[u8]) -> usize
    ensures wrote { Wrote room.old 0 (contest_text report catalogue.now contest) room.new result }
    ensures upper_bound { result ≤ 840 }
{
    match contest.outcome {
        Err(r) => text::refused(room, 0, r),
        Ok(()) => {
            if contest.rival {
                return crate::lines::stars(room, 0, report, Some(contest.stars), catalogue);
            }
            text::word(room, 0, b"alone\n")
        }
    }
}

// The lines for the samples of a frame.
pub(crate) fn rivals(input: Input, room: &mut [u8]) -> usize
    ensures wrote { let i = input.entry in
        Wrote room.old 0 (call_text (chain_on i.samples.now i.catalogue.now i.settings)) room.new result }
    ensures upper_bound { result ≤ 840 }
{
    let mut ranking = [0u16; 4096];
    let contest = chain::rival::contest(
        input.samples,
        input.catalogue,
        input.settings,
        &mut ranking,
    );
    contested(room, input.report(), contest, input.catalogue)
}

// Puts the lines at the start of the room, leaves the rest as it is, and answers how many bytes they have. A room of fewer than 2,048 bytes gets none.
pub fn rival(settings: &[u8], frame: &[u8], catalogue: &[u8], room: &mut [u8]) -> usize
    ensures value { result ≡ length_in room_size room.old (rival_text settings.now frame.now catalogue.now) }
    ensures room_after { room.new ≡ room_with room_size room.old (rival_text settings.now frame.now catalogue.now) }
    ensures upper_bound { result ≤ 840 }
{
    crate::write_asked(Asked::Rival, settings, frame, catalogue, room)
}
