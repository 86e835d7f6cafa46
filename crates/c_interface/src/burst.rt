// The C interface of the burst.
ghost use Rattle.std.specs.Prelude.{◌≡◌};
ghost use Rattle.camera_lens.specs.Stated.{stated_lens};
ghost use Rattle.chain_burst.specs.Burst.{call, burst_of, records_after, room_after};
ghost use Rattle.c_numbers.specs.Room.{handed_over};
ghost use Rattle.c_interface.specs.track.Chain.{settings_of};
ghost use Rattle.c_numbers.specs.Numbers.{counted_numbers};

use crate::track::stated_settings;

// Each frame of a burst through the whole chain: how many records were written.
#[unsafe(no_mangle)]
pub extern "C" fn mnemathor_burst(
    samples: &[u16],
    width: usize,
    height: usize,
    threshold: usize,
    cx: i64,
    cy: i64,
    kind: u32,
    first: f64,
    second: f64,
    catalogue: &[u8],
    needed: usize,
    tolerance: u64,
    room: &mut [u16],
    records: &mut [u8],
    out: &mut [i64],
)
    ensures room_after { room.new ≡ room_after (call samples.now catalogue.now
        (settings_of width height threshold cx cy (stated_lens kind first second) needed tolerance) room.old records.old) }
    ensures records_after { records.new ≡ records_after (call samples.now catalogue.now
        (settings_of width height threshold cx cy (stated_lens kind first second) needed tolerance) room.old records.old) }
    ensures out_after { out.new ≡ handed_over (counted_numbers (burst_of
        (call samples.now catalogue.now (settings_of width height threshold cx cy (stated_lens kind first second) needed tolerance)
        room.old records.old))) out.old }
{
    let lens = camera_lens::stated(kind, first, second);
    let settings = stated_settings(width, height, threshold, cx, cy, lens, needed, tolerance);
    let answer = chain_burst::track(samples, catalogue, settings, room, records);
    c_numbers::hand_over(out, c_numbers::of_counted(answer));
}
