// The C interface of the index: its builder, and the ranking and the whole chain with it.
ghost use Rattle.std.specs.Prelude.{◌≡◌, length};
ghost use Rattle.camera_lens.specs.Stated.{stated_lens};
ghost use Rattle.catalogue.specs.Format.{records_in};
ghost use Rattle.catalogue_index.specs.Build.{built_of, room_after as index_room};
ghost use Rattle.ranking_by_index.specs.Call.{call as ranking_call, outcome_of, room_after as ranking_room};
ghost use Rattle.chain_by_index.specs.Chain.{call as chain_call, tracked_of, room_after as chain_room};
ghost use Rattle.c_numbers.specs.Room.{handed_over};
ghost use Rattle.c_numbers.specs.Numbers.{ranking_numbers, counted_numbers};
ghost use Rattle.c_interface.specs.track.Chain.{settings_of, chain_numbers};

use crate::track::{of_chain, stated_settings};

// The index of a catalogue's pairs for a floor, written into the room: how many records it has.
#[unsafe(no_mangle)]
pub extern "C" fn mnemathor_index(catalogue: &[u8], floor: i64, room: &mut [u8], out: &mut [i64])
    ensures room_after { room.new ≡ index_room catalogue.now floor room.old }
    ensures out_after { out.new ≡ handed_over (counted_numbers (built_of catalogue.now floor (length room.old))) out.old }
{
    let built = catalogue_index::build(catalogue, floor, room);
    c_numbers::hand_over(out, c_numbers::of_counted(built));
}

// The ranking with the catalogue's index for a floor.
#[unsafe(no_mangle)]
pub extern "C" fn mnemathor_ranking_by_index(
    directions: &[i32],
    catalogue: &[u8],
    index: &[u8],
    floor: i64,
    tolerance: u64,
    room: &mut [u16],
    out: &mut [i64],
)
    ensures room_after { room.new ≡ ranking_room (ranking_call directions.now catalogue.now index.now floor tolerance
        room.old) }
    ensures out_after { out.new ≡ handed_over (ranking_numbers (outcome_of
        (ranking_call directions.now catalogue.now index.now floor tolerance room.old))) out.old }
{
    let outcome = ranking_by_index::rank(directions, catalogue, index, floor, tolerance, room);
    c_numbers::hand_over(out, c_numbers::of_ranking(outcome));
}

// The whole chain with the catalogue's index for a floor.
#[unsafe(no_mangle)]
pub extern "C" fn mnemathor_chain_by_index(
    samples: &[u16],
    width: usize,
    height: usize,
    threshold: usize,
    cx: i64,
    cy: i64,
    kind: u32,
    first: f64,
    second: f64,
    catalogue: &[u8],
    index: &[u8],
    floor: i64,
    needed: usize,
    tolerance: u64,
    room: &mut [u16],
    out: &mut [i64],
)
    ensures room_after { room.new ≡ chain_room (chain_call samples.now catalogue.now index.now floor
        (settings_of width height threshold cx cy (stated_lens kind first second) needed tolerance) room.old) }
    ensures out_after { out.new ≡ handed_over (chain_numbers (records_in catalogue.now)
        (tracked_of (chain_call samples.now catalogue.now index.now floor
        (settings_of width height threshold cx cy (stated_lens kind first second) needed tolerance) room.old))) out.old }
{
    let lens = camera_lens::stated(kind, first, second);
    let settings = stated_settings(width, height, threshold, cx, cy, lens, needed, tolerance);
    let tracked = chain_by_index::track(samples, catalogue, index, floor, settings, room);
    let stars = catalogue::records(catalogue);
    c_numbers::hand_over(out, of_chain(tracked, stars));
}
