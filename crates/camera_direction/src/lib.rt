// Directions: the rule of a direction list, and the direction of a position on the frame.
#![tactic(auto)]

pub mod camera;
mod list;
mod position;
pub mod settings;

ghost use Rattle.std.specs.Prelude.{◌≡◌};
ghost use Rattle.camera_direction.specs.List.{list_ok};
ghost use Rattle.camera_direction.specs.Settings.{Between};
ghost use Rattle.camera_direction.specs.Direction.{direction_of, direction_answer, answer_for};

use refusal::Refusal;
use vectors::Vec3;

// Whether a list holds at most 8 directions, three numbers each, every number within ±10^9.
#[tactic(auto, unfolding(crate::specs::List::list_ok))]
pub fn list_ok(directions: &[i32]) -> bool
    ensures { result ≡ list_ok directions.now }
{
    if directions.len() % 3 != 0 {
        return false;
    }
    if 24 < directions.len() {
        return false;
    }
    list::all_within(directions)
}

// Refusal 5, for the centre and for a position alike.
fn refused() -> Result<Vec3, Refusal>
    ensures { result ≡ Rattle.camera_direction.specs.Direction.out_of_range }
{
    Err(Refusal {
        number: refusal::SETTINGS,
        place: 0,
    })
}

// The direction of a position, in 1/256 pixel, for a focal length that is in range.
pub fn direction_by_focal(cx: i64, cy: i64, focal: i64, x: i64, y: i64) -> Result<Vec3, Refusal>
    requires { Between 16384 4194304 focal }
    ensures value { result ≡ direction_of cx cy focal x y }
    ensures result_value { direction_answer result ≡ answer_for cx cy focal x y }
{
    if !settings::position_ok(cx, cy) {
        return refused();
    }
    if !settings::position_ok(x, y) {
        return refused();
    }
    Ok(position::toward(x - cx, y - cy, focal))
}
