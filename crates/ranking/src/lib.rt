// The ranking: one row of record numbers for each direction, by votes, in the lent room.
#![tactic(auto)]

pub mod refused;
pub mod row;

ghost use Rattle.std.specs.Prelude.{◌≡◌, List, ◌++◌, ℕ, ◌*◌, ◌<◌, ◌≤◌, length, drop};
ghost use Rattle.vectors.specs.Triples.{triples};
ghost use Rattle.ranking_votes.specs.Votes.{counters_of};
ghost use Rattle.ranking.specs.Ranking.{ranking_of};
ghost use Rattle.refusal.specs.Answer.{answer_of};
ghost use Rattle.ranking.specs.Room.{rank_outcome_of, room_after, answer_for};

use catalogue::decoded::Stars;
use ranking_votes::ballot::Ballot;
use refusal::Refusal;

// The ranking by the votes that a source gives for each direction. Each row has its own stretch of the room.
pub fn write_ranking<F: Fn(usize) -> [u32; 512]>(ballot: &Ballot, votes_for: F, room: &mut [u16])
    requires callable { (i : ℕ) → i < triples ballot.now.directions.now → F.pre votes_for i }
    requires right { (i : ℕ) (votes : List ℕ) → i < triples ballot.now.directions.now → F.post votes_for i votes
        → votes ≡ counters_of ballot.now.directions.now ballot.now.stars.now ballot.now.tolerance i }
    requires stars_in_bounds { triples ballot.now.directions.now * triples ballot.now.stars.now ≤ length room.old }
    ensures { room.new ≡ ranking_of ballot.now.directions.now ballot.now.stars.now ballot.now.tolerance
        ++ drop (triples ballot.now.directions.now * triples ballot.now.stars.now) room.old }
{
    let count = ballot.count();
    let words = ballot.total();
    for i in 0..count {
        let votes = votes_for(i);
        let from = i * words;
        let to = from + words;
        row::write(&votes, &mut room[from..to]);
    }
}

// The ranking of a catalogue's stars for each direction, written into the room.
pub fn rank(
    directions: &[i32],
    catalogue: &[u8],
    tolerance: u64,
    room: &mut [u16],
) -> Result<(), Refusal>
    ensures value { result ≡ rank_outcome_of directions.now catalogue.now tolerance room.old }
    ensures room_after { room.new ≡ room_after directions.now catalogue.now tolerance room.old }
    ensures result_value { answer_of result ≡ answer_for directions.now catalogue.now tolerance room.old }
{
    refused::first_refusal(directions, catalogue, tolerance, room.len())?;
    let stars = Stars::of(catalogue);
    let ballot = Ballot {
        directions,
        stars: stars.all(),
        tolerance,
    };
    let votes_for = |i|
        requires { i < triples ballot.directions.now }
        ensures { result ≡ counters_of ballot.entry.directions.now ballot.entry.stars.now ballot.entry.tolerance i }
    { ranking_votes::votes_for(&ballot, i) };
    write_ranking(&ballot, votes_for, room);
    Ok(())
}
