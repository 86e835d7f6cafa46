// The whole chain with an index of the star pairs: the chain's own steps, but for the ranking, whose votes are taken from the index.
#![tactic(auto)]

mod admit;

ghost use Rattle.std.specs.Prelude.{◌≡◌};
ghost use Rattle.catalogue.specs.Stars.{stars_of};
ghost use Rattle.catalogue_index.specs.Index.{index_of};
ghost use Rattle.chain.specs.Chain.{located_of, ranked_room};
ghost use Rattle.chain.specs.Ready.{Ready};
ghost use Rattle.chain.specs.Sighting.{padded_sights};
ghost use Rattle.chain_by_index.specs.Chain.{call, tracked_of, room_after};

use catalogue::decoded::Stars;
use chain::sight::Sighting;
use chain::{Settings, Tracked, locate, sight};

// The steps behind the directions. Only the ranking asks for the index.
fn located(
    sighting: Sighting,
    bytes: &[u8],
    index: &[u8],
    floor: i64,
    settings: Settings,
    room: &mut [u16],
) -> Tracked
    requires ready { Ready sighting.report bytes.now settings room.old }
    requires directions_value { sighting.directions ≡ padded_sights sighting.report settings }
    requires index_value { index.now ≡ index_of (stars_of bytes.now) floor }
    ensures value { result ≡ located_of sighting.report bytes.now settings }
    ensures room_after { room.new ≡ ranked_room sighting.report bytes.now settings room.old }
{
    let report = sighting.report;
    let tolerance = settings.tolerance;
    let stars = Stars::of(bytes);
    let _ = ranking_by_index::rank_right(
        sighting.sights(),
        stars.all(),
        index,
        floor,
        tolerance,
        room,
    );
    locate::identified(report, sighting.sights(), bytes, settings, room)
}

// The whole chain, with the catalogue's index for a floor.
pub fn track(
    samples: &[u16],
    catalogue: &[u8],
    index: &[u8],
    floor: i64,
    settings: Settings,
    room: &mut [u16],
) -> Tracked
    ensures value { result ≡ tracked_of (call samples.now catalogue.now index.now floor settings room.old) }
    ensures room_after { room.new ≡ room_after (call samples.now catalogue.now index.now floor settings room.old) }
{
    let words = room.len();
    let stars = admit::stars_outcome(catalogue, index, floor);
    let sighting = sight::take_sights(samples, stars, settings, words);
    match sighting.outcome {
        Err(r) => chain::refused(r),
        Ok(()) => located(sighting, catalogue, index, floor, settings, room),
    }
}
