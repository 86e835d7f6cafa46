// The C interface of the guider. The guider is 18 numbers in a lent room that the caller keeps between calls: half-width, count, and identity, x, y and misses
// of four guides.
ghost use Rattle.std.specs.Prelude.{◌≡◌};
ghost use Rattle.c_numbers.specs.Room.{handed_over};
ghost use Rattle.c_numbers.specs.Numbers.{ranking_numbers};
ghost use Rattle.c_interface.specs.guide.Guider.{start_room, start_outcome, frame_room, frame_outcome};

// A guider for these stars, three numbers each: identity, x and y. A refused call leaves the room as it is.
#[unsafe(no_mangle)]
pub extern "C" fn mnemathor_guider_start(
    half: i64,
    stars: &[i64],
    guider: &mut [i64],
    out: &mut [i64],
)
    ensures guider_after { guider.new ≡ start_room half stars.now guider.old }
    ensures out_after { out.new ≡ handed_over (ranking_numbers (start_outcome half stars.now guider.old)) out.old }
{
    c_interface::guide::mnemathor_guider_start(half, stars, guider, out);
}

// The guider after a frame, whose list is handed in as mnemathor_list hands it over. A refused call leaves the room as it is.
#[unsafe(no_mangle)]
pub extern "C" fn mnemathor_guider_frame(guider: &mut [i64], list: &[i64], out: &mut [i64])
    ensures guider_after { guider.new ≡ frame_room guider.old list.now }
    ensures out_after { out.new ≡ handed_over (ranking_numbers (frame_outcome guider.old list.now)) out.old }
{
    c_interface::guide::mnemathor_guider_frame(guider, list, out);
}
