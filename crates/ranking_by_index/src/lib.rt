// The ranking with an index of the star pairs. The index is tested before it votes; a right one changes neither the answer nor the room.
#![tactic(auto)]

pub mod votes;

ghost use Rattle.std.specs.Prelude.{◌≡◌, ◌<◌, length};
ghost use Rattle.refusal.specs.Answer.{answer_of};
ghost use Rattle.vectors.specs.Triples.{triples, Listed};
ghost use Rattle.ranking_votes.specs.Votes.{counters_of};
ghost use Rattle.catalogue.specs.Stars.{stars_of};
ghost use Rattle.catalogue_index.specs.Index.{index_of};
ghost use Rattle.ranking_by_index.specs.Call.{call, outcome_of, room_after, answer_for};
ghost use Rattle.ranking_by_index.specs.Stars.{outcome_from, room_from};

use crate::votes::Indexed;
use catalogue::decoded::Stars;
use ranking_votes::ballot::Ballot;
use refusal::Refusal;

// The ranking of decoded stars with their own index, or the first of 8, 9 and 10. For a caller that has tested the index.
pub fn rank_right(
    directions: &[i32],
    stars: &[i32],
    index: &[u8],
    floor: i64,
    tolerance: u64,
    room: &mut [u16],
) -> Result<(), Refusal>
    requires listed { Listed 512 stars.now }
    requires index_value { index.now ≡ index_of stars.now floor }
    ensures value { result ≡ outcome_from directions.now stars.now index.now floor tolerance (length room.old) }
    ensures room_after { room.new ≡ room_from directions.now stars.now index.now floor tolerance room.old }
{
    let total = stars.len() / 3;
    ranking::refused::beside(directions, total, tolerance, room.len())?;
    let ballot = Ballot {
        directions,
        stars,
        tolerance,
    };
    let raised = catalogue_index::key::raise(floor);
    let indexed = Indexed {
        ballot,
        index,
        floor: raised,
    };
    let votes_for = |i|
        requires { i < triples indexed.ballot.directions.now }
        ensures { result ≡ counters_of indexed.entry.ballot.directions.now indexed.entry.ballot.stars.now indexed.entry.ballot.tolerance i }
    { votes::votes_for(&indexed, i) };
    ranking::write_ranking(&ballot, votes_for, room);
    Ok(())
}

// The ranking of decoded stars, or the first of 17, 8, 9 and 10 in this order.
fn rank_from(
    directions: &[i32],
    stars: &[i32],
    index: &[u8],
    floor: i64,
    tolerance: u64,
    room: &mut [u16],
) -> Result<(), Refusal>
    requires { Listed 512 stars.now }
    ensures value { result ≡ outcome_from directions.now stars.now index.now floor tolerance (length room.old) }
    ensures room_after { room.new ≡ room_from directions.now stars.now index.now floor tolerance room.old }
{
    if !catalogue_index::matches(stars, floor, index) {
        return refusal::plain(refusal::INDEX);
    }
    rank_right(directions, stars, index, floor, tolerance, room)
}

// The ranking of a catalogue's stars for each direction, with the catalogue's index for a floor, written into the room.
pub fn rank(
    directions: &[i32],
    catalogue: &[u8],
    index: &[u8],
    floor: i64,
    tolerance: u64,
    room: &mut [u16],
) -> Result<(), Refusal>
    ensures value { result ≡ outcome_of (call directions.now catalogue.now index.now floor tolerance room.old) }
    ensures room_after { room.new ≡ room_after (call directions.now catalogue.now index.now floor tolerance
        room.old) }
    ensures result_value { answer_of result ≡ answer_for (call directions.now catalogue.now index.now floor tolerance room.old) }
{
    catalogue::check(catalogue)?;
    let stars = Stars::of(catalogue);
    rank_from(directions, stars.all(), index, floor, tolerance, room)
}

// The same with an index that the caller has tested for this catalogue and floor.
pub fn rank_trusting_index(
    directions: &[i32],
    catalogue: &[u8],
    index: &[u8],
    floor: i64,
    tolerance: u64,
    room: &mut [u16],
) -> Result<(), Refusal>
    requires { index.now ≡ index_of (stars_of catalogue.now) floor }
    ensures value { result ≡ outcome_of (call directions.now catalogue.now index.now floor tolerance room.old) }
    ensures room_after { room.new ≡ room_after (call directions.now catalogue.now index.now floor tolerance room.old) }
{
    catalogue::check(catalogue)?;
    let stars = Stars::of(catalogue);
    rank_right(directions, stars.all(), index, floor, tolerance, room)
}
