// The C interface of the call that says whether another identification fits.
ghost use Rattle.std.specs.Prelude.{◌≡◌};
ghost use Rattle.camera_direction.specs.ListLaws.{directions_in};
ghost use Rattle.catalogue.specs.Format.{records_in};
ghost use Rattle.search_rival.specs.Contested.{contest_of};
ghost use Rattle.c_numbers.specs.Room.{handed_over};
ghost use Rattle.c_interface.specs.rival.Rival.{rival_numbers};

use c_numbers::{NAMES, of_count, of_outcome, put_names};
use search_rival::Contest;

// What the call hands over: whether there is a rival, and the star of each direction there.
fn of_rival(contest: Contest, directions: usize, stars: usize) -> [i64; 64]
    ensures { result ≡ rival_numbers directions stars contest }
{
    let named = if contest.rival { directions } else { 0 };
    let mut flat = of_count(usize::from(contest.rival));
    put_names(&mut flat, NAMES, contest.stars, named, stars);
    of_outcome(contest.outcome, flat)
}

// Whether the search's answer is alone, or the first of its rivals.
#[unsafe(no_mangle)]
pub extern "C" fn mnemathor_rival(
    directions: &[i32],
    catalogue: &[u8],
    needed: usize,
    tolerance: u64,
    ranking: &[u16],
    out: &mut [i64],
)
    ensures { out.new ≡ handed_over (rival_numbers (directions_in directions.now) (records_in catalogue.now)
        (contest_of directions.now catalogue.now needed tolerance ranking.now)) out.old }
{
    let contest = search_rival::rival(directions, catalogue, needed, tolerance, ranking);
    let stars = catalogue::records(catalogue);
    c_numbers::hand_over(out, of_rival(contest, directions.len() / 3, stars));
}
