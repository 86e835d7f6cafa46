// The C interface of the camera: the whole focal length of a lens, and a position's direction. A lens is a kind, 0 for millimetres or 1 for pixels, and two
// numbers.
ghost use Rattle.std.specs.Prelude.{◌≡◌, [], ◌∷◌};
ghost use Rattle.camera_lens.specs.Lens.{focal_of};
ghost use Rattle.camera_lens.specs.Stated.{stated_lens};
ghost use Rattle.camera_direction.specs.camera.Camera.{direction_of};
ghost use Rattle.c_numbers.specs.Room.{handed_over};
ghost use Rattle.c_numbers.specs.Numbers.{accepted_numbers};
ghost use Rattle.c_interface.specs.camera.Lens.{focal_numbers};
ghost use Rattle.c_interface.specs.camera.Direction.{direction_numbers};

use c_numbers::{of_refusal, of_vector};
use camera_direction::camera;
use refusal::Refusal;
use vectors::Vec3;

fn of_whole(f: i64) -> [i64; 64]
    ensures { result ≡ accepted_numbers (f ∷ []) }
{
    let mut flat = [0; 64];
    flat[c_numbers::OWN] = f;
    flat
}

fn of_focal(focal: Result<i64, Refusal>) -> [i64; 64]
    ensures { result ≡ focal_numbers focal }
{
    focal.map_or_else(of_refusal, of_whole)
}

fn of_direction(direction: Result<Vec3, Refusal>) -> [i64; 64]
    ensures { result ≡ direction_numbers direction }
{
    direction.map_or_else(of_refusal, of_vector)
}

// The whole focal length of a lens.
#[unsafe(no_mangle)]
pub extern "C" fn mnemathor_lens(kind: u32, first: f64, second: f64, out: &mut [i64])
    ensures { out.new ≡ handed_over (focal_numbers (focal_of (stated_lens kind first second))) out.old }
{
    let lens = camera_lens::stated(kind, first, second);
    c_numbers::hand_over(out, of_focal(camera_lens::focal_of(lens)));
}

// The direction of a position.
#[unsafe(no_mangle)]
pub extern "C" fn mnemathor_direction(
    cx: i64,
    cy: i64,
    kind: u32,
    first: f64,
    second: f64,
    x: i64,
    y: i64,
    out: &mut [i64],
)
    ensures { out.new ≡ handed_over (direction_numbers (direction_of cx cy (stated_lens kind first second) x y)) out.old }
{
    let lens = camera_lens::stated(kind, first, second);
    c_numbers::hand_over(out, of_direction(camera::direction_of(cx, cy, lens, x, y)));
}
