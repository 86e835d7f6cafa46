// The C interface of the guider. The guider is 18 numbers in a lent room that the caller keeps between calls: half-width, count, and identity, x, y and misses
// of four guides.
mod rooms; // rooms.rt: the guider and a frame's list as numbers

ghost use Rattle.std.specs.Prelude.{◌≡◌};
ghost use Rattle.c_numbers.specs.Room.{handed_over};
ghost use Rattle.c_numbers.specs.Numbers.{ranking_numbers};
ghost use Rattle.c_interface.specs.guide.Guider.{started_in, start_room, start_outcome, framed_in, frame_room, frame_outcome};

use guider_rule::Guided;
use refusal::Refusal;

// Refusal 22 too where the numbers are not in threes.
#[tactic(auto, unfolding(crate::specs::guide::Guider::started_in))]
fn start_in(half: i64, stars: &[i64]) -> Guided
    ensures { result ≡ started_in half stars.now }
{
    if stars.len() % 3 != 0 {
        return guider::unmade();
    }
    guider::start(
        rooms::unsigned(half),
        rooms::sightings_in(stars),
        stars.len() / 3,
    )
}

// The guider of a start that is accepted, put into the room. A room that has no place for exactly 18 numbers is no guider's: refusal 22.
#[tactic(auto, unfolding(crate::specs::guide::Guider::start_room, crate::specs::guide::Guider::start_outcome))]
fn put_start(half: i64, stars: &[i64], guider: &mut [i64]) -> Result<(), Refusal>
    ensures guider_after { guider.new ≡ start_room half stars.now guider.old }
    ensures value { result ≡ start_outcome half stars.now guider.old }
{
    let Some(room) = guider.as_mut_array() else {
        return refusal::plain(refusal::GUIDER);
    };
    let started = start_in(half, stars);
    rooms::put_started(room, started);
    started.outcome
}

// A guider for these stars, three numbers each: identity, x and y. A refused call leaves the room as it is.
#[unsafe(no_mangle)]
pub extern "C" fn mnemathor_guider_start(
    half: i64,
    stars: &[i64],
    guider: &mut [i64],
    out: &mut [i64],
)
    ensures guider_after { guider.new ≡ start_room half stars.now guider.old }
    ensures out_after { out.new ≡ handed_over (ranking_numbers (start_outcome half stars.now guider.old)) out.old }
{
    let outcome = put_start(half, stars, guider);
    c_numbers::hand_over(out, c_numbers::of_ranking(outcome));
}

#[tactic(auto, unfolding(crate::specs::guide::Guider::framed_in))]
fn frame_in(room: &[i64], list: &[i64]) -> Guided
    ensures { result ≡ framed_in room.now list.now }
{
    guider::frame(rooms::guider_in(room), rooms::listing_in(list))
}

// The guider after a frame that is accepted, put into the room. Other than 18 numbers are no guider and other than 64 no list: refusal 22.
#[tactic(auto, unfolding(crate::specs::guide::Guider::frame_room, crate::specs::guide::Guider::frame_outcome))]
fn put_frame(guider: &mut [i64], list: &[i64]) -> Result<(), Refusal>
    ensures guider_after { guider.new ≡ frame_room guider.old list.now }
    ensures value { result ≡ frame_outcome guider.old list.now }
{
    if list.len() != 64 {
        return refusal::plain(refusal::GUIDER);
    }
    let Some(room) = guider.as_mut_array() else {
        return refusal::plain(refusal::GUIDER);
    };
    let framed = frame_in(room, list);
    rooms::put_framed(room, framed);
    framed.outcome
}

// The guider after a frame, whose list is handed in as mnemathor_list hands it over. A refused call leaves the room as it is.
#[unsafe(no_mangle)]
pub extern "C" fn mnemathor_guider_frame(guider: &mut [i64], list: &[i64], out: &mut [i64])
    ensures guider_after { guider.new ≡ frame_room guider.old list.now }
    ensures out_after { out.new ≡ handed_over (ranking_numbers (frame_outcome guider.old list.now)) out.old }
{
    let outcome = put_frame(guider, list);
    c_numbers::hand_over(out, c_numbers::of_ranking(outcome));
}
