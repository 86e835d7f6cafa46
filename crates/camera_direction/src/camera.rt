// The camera: the direction of a position on its frame, by its lens and its centre.
ghost use Rattle.std.specs.Prelude.{◌≡◌};
ghost use Rattle.camera_direction.specs.Direction.{direction_answer};
ghost use Rattle.camera_direction.specs.camera.Camera.{direction_of, answer_for};

use camera_lens::Lens;
use refusal::Refusal;
use vectors::Vec3;

// The direction of a position, in 1/256 pixel as the centre is.
#[tactic(auto, using(crate::proofs::camera::Lens::between, crate::proofs::camera::Lens::lens_first, crate::proofs::camera::Lens::by_focal, crate::proofs::camera::Lens::told_by))]
pub fn direction_of(cx: i64, cy: i64, lens: Lens, x: i64, y: i64) -> Result<Vec3, Refusal>
    ensures value { result ≡ direction_of cx cy lens x y }
    ensures result_value { direction_answer result ≡ answer_for cx cy lens x y }
{
    let focal = camera_lens::focal_of(lens)?;
    crate::direction_by_focal(cx, cy, focal, x, y)
}
