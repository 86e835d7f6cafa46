// Whether another identification fits: an assignment that gives some direction another star than the search's own answer does.
#![tactic(auto)]

ghost use Rattle.std.specs.Prelude.{◌≡◌};
ghost use Rattle.search_fit.specs.Fit.{setup_of};
ghost use Rattle.search_backtrack.specs.Input.{Input};
ghost use Rattle.search_rival.specs.Contested.{FirstRival, contest_by, Contested, contest_of};

use catalogue::decoded::Stars;
use refusal::Refusal;

// What the call answers: whether it is accepted, whether our identification has a rival, and the words of the first; they are 0 behind the
// directions, where ours is alone, and where the call is refused.
// Stays: the outcome, the flag and the words beside one another. `Contested` says what each is where ours is alone or the call is refused, no-wrong-name
// and chain-no-wrong-name are said of the flag, and the edits refused_with_a_rival and rival_called_alone try it.
#[derive(Clone, Copy)]
pub struct Contest {
    pub outcome: Result<(), Refusal>,
    pub rival: bool,
    pub stars: [u16; 8],
}

// The words of the first assignment that fits and gives some direction another star than ours does, if there is one.
fn first_rival(
    ranking: &[u16],
    directions: &[i32],
    stars: &[i32],
    needed: usize,
    tolerance: u64,
    ours: [u16; 8],
) -> Option<[u16; 8]>
    requires { Input (setup_of directions.now stars.now needed tolerance) ranking.now directions.now stars.now }
    ensures { FirstRival (setup_of directions.now stars.now needed tolerance) ours ranking.now directions.now
        stars.now result }
{
    let rivals = Some(ours);
    search_backtrack::first(ranking, directions, stars, needed, tolerance, rivals)
}

// The words of the rival that was found, or that ours is alone.
fn settled(answer: Option<[u16; 8]>) -> Contest
    ensures { result ≡ contest_by answer }
{
    match answer {
        Some(stars) => Contest {
            outcome: Ok(()),
            rival: true,
            stars: stars,
        },
        None => Contest {
            outcome: Ok(()),
            rival: false,
            stars: [0u16; 8],
        },
    }
}

// Whether the search's answer is alone, or the first of its rivals in the ranking's order. Refused as the search is.
pub fn rival(
    directions: &[i32],
    catalogue: &[u8],
    needed: usize,
    tolerance: u64,
    ranking: &[u16],
) -> Contest
    ensures { Contested directions.now catalogue.now needed tolerance ranking.now result
        × (result ≡ contest_of directions.now catalogue.now needed tolerance ranking.now) }
{
    let identification = search::search(directions, catalogue, needed, tolerance, ranking);
    if let Err(r) = identification.outcome {
        return Contest {
            outcome: Err(r),
            rival: false,
            stars: [0u16; 8],
        };
    }
    let ours = identification.stars;
    let stars = Stars::of(catalogue);
    let answer = first_rival(ranking, directions, stars.all(), needed, tolerance, ours);
    settled(answer)
}
