// The C interface of the whole chain.
ghost use Rattle.std.specs.Prelude.{◌≡◌};
ghost use Rattle.camera_lens.specs.Stated.{stated_lens};
ghost use Rattle.catalogue.specs.Format.{records_in};
ghost use Rattle.chain.specs.Chain.{tracked_of, room_after, call};
ghost use Rattle.c_numbers.specs.Room.{handed_over};
ghost use Rattle.c_interface.specs.track.Chain.{settings_of, chain_numbers};

use crate::frame::answers::of_report;
use c_numbers::{CHAIN_MATRIX, CHAIN_NAMES, of_outcome, put_matrix, put_names};
use camera_lens::Lens;
use chain::{Settings, Tracked};

// What a chain hands over: the frame's list, the star of each listed direction, and the matrix.
pub fn of_chain(tracked: Tracked, stars: usize) -> [i64; 64]
    ensures { result ≡ chain_numbers stars tracked }
{
    let mut flat = of_report(tracked.report);
    put_names(
        &mut flat,
        CHAIN_NAMES,
        tracked.stars,
        tracked.report.count,
        stars,
    );
    put_matrix(&mut flat, CHAIN_MATRIX, tracked.matrix);
    of_outcome(tracked.outcome, flat)
}

// The settings of a chain.
// Stays: each setting a parameter of its own, since C hands them over one by one.
pub(crate) fn stated_settings(
    width: usize,
    height: usize,
    threshold: usize,
    cx: i64,
    cy: i64,
    lens: Lens,
    needed: usize,
    tolerance: u64,
) -> Settings
    ensures { result ≡ settings_of width height threshold cx cy lens needed tolerance }
{
    Settings {
        width,
        height,
        threshold,
        needed,
        cx,
        cy,
        lens,
        tolerance,
    }
}

// The whole chain: the frame's list, the stars that it shows, and the attitude.
#[unsafe(no_mangle)]
pub extern "C" fn mnemathor_chain(
    samples: &[u16],
    width: usize,
    height: usize,
    threshold: usize,
    cx: i64,
    cy: i64,
    kind: u32,
    first: f64,
    second: f64,
    catalogue: &[u8],
    needed: usize,
    tolerance: u64,
    room: &mut [u16],
    out: &mut [i64],
)
    ensures room_after { room.new ≡ room_after (call samples.now catalogue.now
        (settings_of width height threshold cx cy (stated_lens kind first second) needed tolerance) room.old) }
    ensures out_after { out.new ≡ handed_over (chain_numbers (records_in catalogue.now)
        (tracked_of (call samples.now catalogue.now
        (settings_of width height threshold cx cy (stated_lens kind first second) needed tolerance) room.old))) out.old }
{
    let lens = camera_lens::stated(kind, first, second);
    let settings = stated_settings(width, height, threshold, cx, cy, lens, needed, tolerance);
    let tracked = chain::track(samples, catalogue, settings, room);
    let stars = catalogue::records(catalogue);
    c_numbers::hand_over(out, of_chain(tracked, stars));
}
