// The C interface of the whole chain.
ghost use Rattle.std.specs.Prelude.{◌≡◌};
ghost use Rattle.camera_lens.specs.Stated.{stated_lens};
ghost use Rattle.catalogue.specs.Format.{records_in};
ghost use Rattle.chain.specs.Chain.{tracked_of, room_after, call};
ghost use Rattle.c_numbers.specs.Room.{handed_over};
ghost use Rattle.c_interface.specs.track.Chain.{settings_of, chain_numbers};

// The whole chain: the frame's list, the stars that it shows, and the attitude.
#[unsafe(no_mangle)]
pub extern "C" fn mnemathor_chain(
    samples: &[u16],
    width: usize,
    height: usize,
    threshold: usize,
    cx: i64,
    cy: i64,
    kind: u32,
    first: f64,
    second: f64,
    catalogue: &[u8],
    needed: usize,
    tolerance: u64,
    room: &mut [u16],
    out: &mut [i64],
)
    ensures room_after { room.new ≡ room_after (call samples.now catalogue.now
        (settings_of width height threshold cx cy (stated_lens kind first second) needed tolerance) room.old) }
    ensures out_after { out.new ≡ handed_over (chain_numbers (records_in catalogue.now)
        (tracked_of (call samples.now catalogue.now
        (settings_of width height threshold cx cy (stated_lens kind first second) needed tolerance) room.old))) out.old }
{
    c_interface::track::mnemathor_chain(
        samples, width, height, threshold, cx, cy, kind, first, second, catalogue, needed,
        tolerance, room, out,
    );
}
