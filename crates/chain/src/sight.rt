// A frame's list, whether the call may go on, and the directions of the listed stars.
ghost use Rattle.std.specs.Prelude.{◌≡◌, ◌++◌, ◌*◌, ◌-◌, ◌≤◌, pos, take, replicate};
ghost use Rattle.numbers.specs.Within.{Within};
ghost use Rattle.vectors.specs.Vectors.{Within3};
ghost use Rattle.chain.specs.Sight.{InFrame, AllInFrame, sight_of, directions_of};
ghost use Rattle.chain.specs.Sighting.{sighting_of};

use crate::{Settings, admit};
use camera_direction::camera;
use frame_centroid::Centroid;
use frame_list::Report;
use refusal::Refusal;
use vectors::Vec3;

// What stands before the ranking. Behind the directions, three numbers each, are zeros.
// Stays: the outcome beside them and no Result. `sighting_of` gives report and directions of a refused call too.
// Stays: an array whose count is the report's, since memory is fixed and `sighting_of` promises the zeros behind; `sights` takes the front alone.
#[derive(Clone, Copy)]
pub struct Sighting {
    pub outcome: Result<(), Refusal>,
    pub report: Report,
    pub directions: [i32; 24],
}

impl Sighting {
    // The directions of the listed stars alone, three numbers each.
    pub fn sights(&self) -> &[i32]
        requires { self.now.report.count ≤ 8 }
        ensures { result.now ≡ take (3 * self.now.report.count) self.now.directions }
    {
        &self.directions[..3 * self.report.count]
    }
}

// The direction of a star's position. It is never refused where the settings are in range.
#[tactic(auto, unfolding(crate::specs::Sight::sight_of))]
fn direction_at(settings: Settings, star: Centroid) -> Vec3
    requires { InFrame star }
    ensures value { result ≡ sight_of settings star }
    ensures within3 { Within3 1000000000 result }
{
    let x = star.x as i64;
    let y = star.y as i64;
    match camera::direction_of(settings.cx, settings.cy, settings.lens, x, y) {
        Ok(v) => v,
        Err(_) => Vec3 { x: 0, y: 0, z: 0 },
    }
}

// A component as a number of 32 bits.
fn narrow(z: i64) -> i32
    requires { Within 1000000000 z }
    ensures { result ≡ z }
{
    z as i32
}

// The directions of the first `count` stars, three numbers each, and zeros behind them.
pub fn directions_of(stars: [Centroid; 8], count: usize, settings: Settings) -> [i32; 24]
    requires { (count ≤ 8) × AllInFrame stars }
    ensures { result ≡ directions_of settings (take count stars) ++ replicate (24 - 3 * count) (pos 0) }
{
    let mut numbers = [0; 24];
    for k in 0..count {
        let v = direction_at(settings, stars[k]);
        numbers[3 * k] = narrow(v.x);
        numbers[3 * k + 1] = narrow(v.y);
        numbers[3 * k + 2] = narrow(v.z);
    }
    numbers
}

// Lists the stars, asks the refusals up to 12, and takes the directions. Handed in are the outcome of the stars, 6 and 7, and the room's words.
pub fn take_sights(
    samples: &[u16],
    stars: Result<(), Refusal>,
    settings: Settings,
    words: usize,
) -> Sighting
    ensures { result ≡ sighting_of samples.now stars settings words }
{
    let listing = frame_list::list(samples, settings.width, settings.height, settings.threshold);
    let frame = listing.outcome;
    let report = listing.report;
    let listed = report.stars;
    let count = report.count;
    let outcome = admit::outcome(frame, stars, count, settings, words);
    let directions = directions_of(listed, count, settings);
    Sighting {
        outcome,
        report,
        directions,
    }
}
