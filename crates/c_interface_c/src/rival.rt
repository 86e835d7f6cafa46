// The C interface of the call that says whether another identification fits.
ghost use Rattle.std.specs.Prelude.{◌≡◌};
ghost use Rattle.camera_direction.specs.ListLaws.{directions_in};
ghost use Rattle.catalogue.specs.Format.{records_in};
ghost use Rattle.search_rival.specs.Contested.{contest_of};
ghost use Rattle.c_numbers.specs.Room.{handed_over};
ghost use Rattle.c_interface.specs.rival.Rival.{rival_numbers};

// Whether the search's answer is alone, or the first of its rivals.
#[unsafe(no_mangle)]
pub extern "C" fn mnemathor_rival(
    directions: &[i32],
    catalogue: &[u8],
    needed: usize,
    tolerance: u64,
    ranking: &[u16],
    out: &mut [i64],
)
    ensures { out.new ≡ handed_over (rival_numbers (directions_in directions.now) (records_in catalogue.now)
        (contest_of directions.now catalogue.now needed tolerance ranking.now)) out.old }
{
    c_interface::rival::mnemathor_rival(directions, catalogue, needed, tolerance, ranking, out);
}
