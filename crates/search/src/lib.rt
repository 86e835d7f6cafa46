// The search: which star each direction is, by a ranking that is handed in.
#![tactic(auto)]

mod lent;
mod refused;

ghost use Rattle.std.specs.Prelude.{◌≡◌};
ghost use Rattle.search.specs.Refusals.{demand_ok};
ghost use Rattle.search_fit.specs.Fit.{setup_of};
ghost use Rattle.search_backtrack.specs.Input.{Input};
ghost use Rattle.search.specs.First.{FirstFit};
ghost use Rattle.search.specs.Identified.{identification_by, Identified, identification_of};

use catalogue::decoded::Stars;
use refusal::Refusal;

// What the search answers: whether the call is accepted, and the words of the assignment, 0 behind the directions and where it is refused.
// Stays: the outcome beside the words and no Result of them. `Searched`, `contest_of` and the chain's `settled_of` take the words of a refused answer too,
// and `one_of_three` of `Answered` says that they are zeros.
#[derive(Clone, Copy)]
pub struct Identification {
    pub outcome: Result<(), Refusal>,
    pub stars: [u16; 8],
}

// Whether the needed count and the tolerance are in range.
pub fn demand_ok(needed: usize, tolerance: u64) -> bool
    ensures { result ≡ demand_ok needed tolerance }
{
    refused::demand_ok(needed, tolerance)
}

// The words of the first assignment that fits, if one does. The stars stand in threes, as the directions do.
fn first_fit(
    ranking: &[u16],
    directions: &[i32],
    stars: &[i32],
    needed: usize,
    tolerance: u64,
) -> Option<[u16; 8]>
    requires { Input (setup_of directions.now stars.now needed tolerance) ranking.now directions.now stars.now }
    ensures { FirstFit (setup_of directions.now stars.now needed tolerance) ranking.now directions.now
        stars.now result }
{
    search_backtrack::first(ranking, directions, stars, needed, tolerance, None)
}

// The words of an assignment that was found, or refusal 13.
fn settled(answer: Option<[u16; 8]>) -> Identification
    ensures { result ≡ identification_by answer }
{
    match answer {
        Some(stars) => Identification {
            outcome: Ok(()),
            stars: stars,
        },
        None => Identification {
            outcome: refusal::plain(refusal::NO_FIT),
            stars: [0u16; 8],
        },
    }
}

// Which star each direction is: the first assignment in the ranking's order that fits. Refused with the first of 6 to 12 that applies, and
// with 13 where no assignment fits.
pub fn search(
    directions: &[i32],
    catalogue: &[u8],
    needed: usize,
    tolerance: u64,
    ranking: &[u16],
) -> Identification
    ensures { Identified directions.now catalogue.now needed tolerance ranking.now result
        × (result ≡ identification_of directions.now catalogue.now needed tolerance ranking.now) }
{
    let outcome = refused::first_refusal(directions, catalogue, needed, tolerance, ranking);
    if let Err(r) = outcome {
        return Identification {
            outcome: Err(r),
            stars: [0u16; 8],
        };
    }
    let stars = Stars::of(catalogue);
    let answer = first_fit(ranking, directions, stars.all(), needed, tolerance);
    settled(answer)
}
