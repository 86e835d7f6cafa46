// The C interface of the stars' calls: the catalogue's check, the ranking, the search, and the attitude.
ghost use Rattle.std.specs.Prelude.{◌≡◌};
ghost use Rattle.camera_direction.specs.ListLaws.{directions_in};
ghost use Rattle.catalogue.specs.Format.{records_in};
ghost use Rattle.catalogue.specs.Check.{checked_of};
ghost use Rattle.ranking.specs.Room.{rank_outcome_of, room_after};
ghost use Rattle.search.specs.Identified.{identification_of};
ghost use Rattle.c_numbers.specs.Room.{handed_over};
ghost use Rattle.c_numbers.specs.Numbers.{ranking_numbers, counted_numbers};
ghost use Rattle.c_interface.specs.identify.Search.{search_numbers};
ghost use Rattle.c_interface.specs.identify.Attitude.{attitude_numbers, attitude_in};

// How many records a catalogue has.
#[unsafe(no_mangle)]
pub extern "C" fn mnemathor_catalogue(bytes: &[u8], out: &mut [i64])
    ensures { out.new ≡ handed_over (counted_numbers (checked_of bytes.now)) out.old }
{
    c_interface::identify::mnemathor_catalogue(bytes, out);
}

// The ranking of a catalogue's stars for each direction, written into the room.
#[unsafe(no_mangle)]
pub extern "C" fn mnemathor_ranking(
    directions: &[i32],
    catalogue: &[u8],
    tolerance: u64,
    room: &mut [u16],
    out: &mut [i64],
)
    ensures room_after { room.new ≡ room_after directions.now catalogue.now tolerance room.old }
    ensures out_after { out.new ≡ handed_over (ranking_numbers (rank_outcome_of directions.now catalogue.now tolerance
        room.old)) out.old }
{
    c_interface::identify::mnemathor_ranking(directions, catalogue, tolerance, room, out);
}

// Which star each direction is, by a ranking that is handed in.
#[unsafe(no_mangle)]
pub extern "C" fn mnemathor_search(
    directions: &[i32],
    catalogue: &[u8],
    needed: usize,
    tolerance: u64,
    ranking: &[u16],
    out: &mut [i64],
)
    ensures { out.new ≡ handed_over (search_numbers (directions_in directions.now) (records_in catalogue.now)
        (identification_of directions.now catalogue.now needed tolerance ranking.now)) out.old }
{
    c_interface::identify::mnemathor_search(directions, catalogue, needed, tolerance, ranking, out);
}

// The matrix that carries sky to camera, of such a list.
#[unsafe(no_mangle)]
pub extern "C" fn mnemathor_attitude(vectors: &[i64], out: &mut [i64])
    ensures { out.new ≡ handed_over (attitude_numbers (attitude_in vectors.now)) out.old }
{
    c_interface::identify::mnemathor_attitude(vectors, out);
}
