// What each call of the stars hands over.
ghost use Rattle.std.specs.Prelude.{◌≡◌};
ghost use Rattle.c_interface.specs.identify.Search.{search_numbers};
ghost use Rattle.c_interface.specs.identify.Attitude.{attitude_numbers};

use attitude::Matrix;
use c_numbers::{NAMES, of_count, of_matrix, of_outcome, of_refusal, put_names};
use refusal::Refusal;
use search::Identification;

pub(crate) fn of_search(
    identification: Identification,
    directions: usize,
    stars: usize,
) -> [i64; 64]
    ensures { result ≡ search_numbers directions stars identification }
{
    let mut flat = of_count(directions);
    put_names(&mut flat, NAMES, identification.stars, directions, stars);
    of_outcome(identification.outcome, flat)
}

pub(crate) fn of_attitude(attitude: Result<Matrix, Refusal>) -> [i64; 64]
    ensures { result ≡ attitude_numbers attitude }
{
    attitude.map_or_else(of_refusal, of_matrix)
}
