// The C interface of the stars' calls: the catalogue's check, the ranking, the search, and the attitude.
mod answers;

ghost use Rattle.std.specs.Prelude.{◌≡◌};
ghost use Rattle.camera_direction.specs.ListLaws.{directions_in};
ghost use Rattle.catalogue.specs.Format.{records_in};
ghost use Rattle.catalogue.specs.Check.{checked_of};
ghost use Rattle.ranking.specs.Room.{rank_outcome_of, room_after};
ghost use Rattle.search.specs.Identified.{identification_of};
ghost use Rattle.c_numbers.specs.Room.{handed_over};
ghost use Rattle.c_numbers.specs.Numbers.{ranking_numbers, counted_numbers};
ghost use Rattle.c_interface.specs.identify.Search.{search_numbers};
ghost use Rattle.c_interface.specs.identify.Attitude.{attitude_numbers, attitude_in};

use attitude::Matrix;
use c_numbers::vector_at;
use refusal::Refusal;

// How many records a catalogue has.
#[unsafe(no_mangle)]
pub extern "C" fn mnemathor_catalogue(bytes: &[u8], out: &mut [i64])
    ensures { out.new ≡ handed_over (counted_numbers (checked_of bytes.now)) out.old }
{
    c_numbers::hand_over(out, c_numbers::of_counted(catalogue::check(bytes)));
}

// The ranking of a catalogue's stars for each direction, written into the room.
#[unsafe(no_mangle)]
pub extern "C" fn mnemathor_ranking(
    directions: &[i32],
    catalogue: &[u8],
    tolerance: u64,
    room: &mut [u16],
    out: &mut [i64],
)
    ensures room_after { room.new ≡ room_after directions.now catalogue.now tolerance room.old }
    ensures out_after { out.new ≡ handed_over (ranking_numbers (rank_outcome_of directions.now catalogue.now tolerance
        room.old)) out.old }
{
    let outcome = ranking::rank(directions, catalogue, tolerance, room);
    c_numbers::hand_over(out, c_numbers::of_ranking(outcome));
}

// Which star each direction is, by a ranking that is handed in.
#[unsafe(no_mangle)]
pub extern "C" fn mnemathor_search(
    directions: &[i32],
    catalogue: &[u8],
    needed: usize,
    tolerance: u64,
    ranking: &[u16],
    out: &mut [i64],
)
    ensures { out.new ≡ handed_over (search_numbers (directions_in directions.now) (records_in catalogue.now)
        (identification_of directions.now catalogue.now needed tolerance ranking.now)) out.old }
{
    let identification = search::search(directions, catalogue, needed, tolerance, ranking);
    let stars = catalogue::records(catalogue);
    c_numbers::hand_over(
        out,
        answers::of_search(identification, directions.len() / 3, stars),
    );
}

// The attitude of four vectors, three numbers each: camera v1 and v2, star v1 and v2. Another count of numbers is no list of four: refusal 8.
#[tactic(auto, unfolding(crate::specs::identify::Attitude::attitude_in))]
fn attitude_in(vectors: &[i64]) -> Result<Matrix, Refusal>
    ensures { result ≡ attitude_in vectors.now }
{
    if vectors.len() != 12 {
        return Err(Refusal {
            number: refusal::DIRECTIONS,
            place: 0,
        });
    }
    let v1 = vector_at(vectors, 0);
    let v2 = vector_at(vectors, 3);
    let w1 = vector_at(vectors, 6);
    let w2 = vector_at(vectors, 9);
    attitude::triad(v1, v2, w1, w2)
}

// The matrix that carries sky to camera, of such a list.
#[unsafe(no_mangle)]
pub extern "C" fn mnemathor_attitude(vectors: &[i64], out: &mut [i64])
    ensures { out.new ≡ handed_over (attitude_numbers (attitude_in vectors.now)) out.old }
{
    c_numbers::hand_over(out, answers::of_attitude(attitude_in(vectors)));
}
