// The steps of the chain: list, admission, directions and ranking, and then search and attitude.
ghost use Rattle.std.specs.Prelude.{◌≡◌};
ghost use Rattle.chain.specs.Chain.{settled_of, located_of, call, room_after};
ghost use Rattle.chain.specs.Sighting.{sighted};
ghost use Rattle.chain.specs.Ready.{Settles, RankingStands, Names};

use crate::sight::Sighting;
use crate::{Settings, Tracked, admit, refused, sight};
use attitude::orient;
use catalogue::decoded::Stars;
use frame_list::Report;
use search::Identification;

// The attitude of what the search found, or the refusal. A call of its own, so that its stars take no stack beside the search's.
#[inline(never)]
fn settle(report: Report, directions: &[i32], bytes: &[u8], found: Identification) -> Tracked
    requires { Settles directions.now bytes.now found }
    ensures { result ≡ settled_of report directions.now bytes.now found }
{
    let outcome = found.outcome;
    let words = found.stars;
    match outcome {
        Err(r) => refused(r),
        Ok(()) => {
            let stars = Stars::of(bytes);
            match orient::attitude_of(directions, stars.all(), words) {
                Err(r) => refused(r),
                Ok(matrix) => Tracked {
                    outcome,
                    report,
                    stars: words,
                    matrix,
                },
            }
        }
    }
}

// The search over the ranking at the front of the room, and the attitude of what it finds.
pub fn identified(
    report: Report,
    directions: &[i32],
    bytes: &[u8],
    settings: Settings,
    room: &[u16],
) -> Tracked
    requires { RankingStands report directions.now bytes.now settings room.now }
    ensures value { result ≡ located_of report bytes.now settings }
    ensures names { Names report bytes.now settings result }
{
    let words = report.count * catalogue::records(bytes);
    let found = search::search(
        directions,
        bytes,
        settings.needed,
        settings.tolerance,
        &room[..words],
    );
    settle(report, directions, bytes, found)
}

// The chain up to the ranking, which stays in the room, whatever the search and the attitude come to.
pub(crate) fn ranked(
    samples: &[u16],
    catalogue: &[u8],
    settings: Settings,
    room: &mut [u16],
) -> Sighting
    ensures value { result ≡ sighted (call samples.now catalogue.now settings room.old) }
    ensures room_after { room.new ≡ room_after (call samples.now catalogue.now settings room.old) }
{
    let words = room.len();
    let stars = admit::catalogue_outcome(catalogue);
    let sighting = sight::take_sights(samples, stars, settings, words);
    match sighting.outcome {
        Err(_) => sighting,
        Ok(()) => {
            let _ = ranking::rank(sighting.sights(), catalogue, settings.tolerance, room);
            sighting
        }
    }
}
