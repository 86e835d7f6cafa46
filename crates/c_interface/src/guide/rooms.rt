// The guider as numbers in a room, and a frame's list as the numbers that its own call hands over.
ghost use Rattle.std.specs.Prelude.{◌≡◌, true, ◌+◌, ◌≤◌, length};
ghost use Rattle.guider_rule.specs.AfterLaws.{is_accepted};
ghost use Rattle.c_interface.specs.guide.Rooms.{
  unsigned_of,
  number_in,
  sighting_in,
  sightings_in,
  guide_in,
  guider_in,
  star_in,
  report_in,
  outcome_in,
  listing_in,
  with_guide,
  with_guides,
  with_guider,
};
ghost use Rattle.c_interface.specs.guide.Guider.{started_room, framed_room};

use c_numbers::{OWN, STARS};
use frame_centroid::Centroid;
use frame_list::{Listing, Report};
use guider_rule::{Guide, Guided, Guider, Sighting};
use numbers::signed;
use refusal::Refusal;

// How many numbers a guider has.
const NUMBERS: usize = 18;

// The number, or the largest where it is negative: no rule takes that.
#[tactic(auto, unfolding(crate::specs::guide::Rooms::unsigned_of))]
pub(crate) fn unsigned(number: i64) -> u64
    ensures { result ≡ unsigned_of number }
{
    u64::try_from(number).unwrap_or(u64::MAX)
}

// The number at a place, and 0 past the end.
// Stays: the numbers and a place among them, here and below, and no struct of both, since each call has another place.
#[tactic(auto, unfolding(crate::specs::guide::Rooms::unsigned_of))]
fn number_in(numbers: &[i64], i: usize) -> u64
    ensures { result ≡ number_in numbers.now i }
{
    match numbers.get(i) {
        Some(number) => unsigned(*number),
        None => 0,
    }
}

// Identity, x and y from a place on. A number that is no identity makes a star on no frame, which the guider refuses.
fn sighting_in(numbers: &[i64], at: usize) -> Sighting
    requires { at ≤ 14 }
    ensures { result ≡ sighting_in numbers.now at }
{
    let number = number_in(numbers, at);
    match u32::try_from(number) {
        Ok(identity) => Sighting {
            identity,
            x: number_in(numbers, at + 1),
            y: number_in(numbers, at + 2),
        },
        Err(_) => Sighting {
            identity: 0,
            x: number,
            y: number,
        },
    }
}

pub(crate) fn sightings_in(numbers: &[i64]) -> [Sighting; 4]
    ensures { result ≡ sightings_in numbers.now }
{
    [
        sighting_in(numbers, 0),
        sighting_in(numbers, 3),
        sighting_in(numbers, 6),
        sighting_in(numbers, 9),
    ]
}

fn guide_in(room: &[i64], at: usize) -> Guide
    requires { at ≤ 14 }
    ensures { result ≡ guide_in room.now at }
{
    let star = sighting_in(room, at);
    Guide {
        identity: star.identity,
        x: star.x,
        y: star.y,
        misses: number_in(room, at + 3),
    }
}

pub(crate) fn guider_in(room: &[i64]) -> Guider
    ensures { result ≡ guider_in room.now }
{
    Guider {
        half: number_in(room, 0),
        count: number_in(room, 1) as usize,
        guides: [
            guide_in(room, 2),
            guide_in(room, 6),
            guide_in(room, 10),
            guide_in(room, 14),
        ],
    }
}

fn star_in(list: &[i64], at: usize) -> Centroid
    requires { at ≤ 27 }
    ensures { result ≡ star_in list.now at }
{
    Centroid {
        x: number_in(list, at),
        y: number_in(list, at + 1),
        brightness: number_in(list, at + 2),
    }
}

// The list's stars. The counts of pixels have no say.
fn report_in(list: &[i64]) -> Report
    ensures { result ≡ report_in list.now }
{
    Report {
        stars: [
            star_in(list, STARS),
            star_in(list, STARS + 3),
            star_in(list, STARS + 6),
            star_in(list, STARS + 9),
            star_in(list, STARS + 12),
            star_in(list, STARS + 15),
            star_in(list, STARS + 18),
            star_in(list, STARS + 21),
        ],
        count: number_in(list, OWN) as usize,
        measured: 0,
        edge: 0,
        lone: 0,
    }
}

// That a frame was refused is all that the guider asks: which refusal it was has no say.
fn outcome_in(number: u64) -> Result<(), Refusal>
    ensures { result ≡ outcome_in number }
{
    if number == 0 {
        return Ok(());
    }
    refusal::plain(refusal::SIZE)
}

pub(crate) fn listing_in(list: &[i64]) -> Listing
    ensures { result ≡ listing_in list.now }
{
    Listing {
        outcome: outcome_in(number_in(list, 0)),
        report: report_in(list),
    }
}

// Puts a guide's numbers at a place.
fn put_guide(room: &mut [i64], at: usize, guide: Guide)
    requires { at + 4 ≤ length room.old }
    ensures { room.new ≡ with_guide room.old at guide }
{
    room[at] = signed(u64::from(guide.identity));
    room[at + 1] = signed(guide.x);
    room[at + 2] = signed(guide.y);
    room[at + 3] = signed(guide.misses);
}

// Puts the first n guides, and leaves the rest of the room as it is.
fn put_guides(room: &mut [i64; NUMBERS], guides: [Guide; 4], n: usize)
    requires { n ≤ 4 }
    ensures { room.new ≡ with_guides guides n room.old }
{
    for (i, guide) in guides[..n].iter().enumerate() {
        put_guide(room, 2 + 4 * i, *guide);
    }
}

fn put_guider(room: &mut [i64; NUMBERS], guider: Guider)
    ensures { room.new ≡ with_guider guider room.old }
{
    room[0] = signed(guider.half);
    room[1] = signed(guider.count as u64);
    put_guides(room, guider.guides, 4);
}

// Puts the guider of a start that is accepted.
pub(crate) fn put_started(room: &mut [i64; NUMBERS], guided: Guided)
    ensures { room.new ≡ started_room guided room.old }
{
    if guided.outcome.is_ok() {
        put_guider(room, guided.guider);
    }
}

// Puts the guides after a frame that is accepted. Numbers behind the guides stay.
pub(crate) fn put_framed(room: &mut [i64; NUMBERS], guided: Guided)
    requires { is_accepted guided.outcome ≡ true → guided.guider.count ≤ 4 }
    ensures { room.new ≡ framed_room guided room.old }
{
    if guided.outcome.is_ok() {
        put_guides(room, guided.guider.guides, guided.guider.count);
    }
}
