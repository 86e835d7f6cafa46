// The chain up to the search, and the first rival of what it finds: the chain's own steps, with no attitude asked for.
ghost use Rattle.std.specs.Prelude.{◌≡◌};
ghost use Rattle.chain.specs.Chain.{call, room_after};
ghost use Rattle.chain.specs.Ready.{RankingStands};
ghost use Rattle.chain.specs.rival.Chain.{our_contest, contested_of};

use crate::{Settings, locate};
use frame_list::Report;
use search_rival::Contest;

// The search's answer and its rivals, over the ranking at the front of the room.
fn contested(
    report: Report,
    directions: &[i32],
    bytes: &[u8],
    settings: Settings,
    room: &[u16],
) -> Contest
    requires { RankingStands report directions.now bytes.now settings room.now }
    ensures { result ≡ our_contest report bytes.now settings }
{
    let words = report.count * catalogue::records(bytes);
    search_rival::rival(
        directions,
        bytes,
        settings.needed,
        settings.tolerance,
        &room[..words],
    )
}

// Whether the chain's identification is alone, or the first of its rivals. Refused as the chain is, up to 13; the room takes the ranking.
pub fn contest(samples: &[u16], catalogue: &[u8], settings: Settings, room: &mut [u16]) -> Contest
    ensures value { result ≡ contested_of (call samples.now catalogue.now settings room.old) }
    ensures room_after { room.new ≡ room_after (call samples.now catalogue.now settings room.old) }
{
    let sighting = locate::ranked(samples, catalogue, settings, room);
    let report = sighting.report;
    match sighting.outcome {
        Err(r) => Contest {
            outcome: Err(r),
            rival: false,
            stars: [0u16; 8],
        },
        Ok(()) => contested(report, sighting.sights(), catalogue, settings, room),
    }
}
