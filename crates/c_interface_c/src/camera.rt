// The C interface of the camera: the whole focal length of a lens, and a position's direction. A lens is a kind, 0 for millimetres or 1 for pixels, and two
// numbers.
ghost use Rattle.std.specs.Prelude.{◌≡◌};
ghost use Rattle.camera_lens.specs.Lens.{focal_of};
ghost use Rattle.camera_lens.specs.Stated.{stated_lens};
ghost use Rattle.camera_direction.specs.camera.Camera.{direction_of};
ghost use Rattle.c_numbers.specs.Room.{handed_over};
ghost use Rattle.c_interface.specs.camera.Lens.{focal_numbers};
ghost use Rattle.c_interface.specs.camera.Direction.{direction_numbers};

// The whole focal length of a lens.
#[unsafe(no_mangle)]
pub extern "C" fn mnemathor_lens(kind: u32, first: f64, second: f64, out: &mut [i64])
    ensures { out.new ≡ handed_over (focal_numbers (focal_of (stated_lens kind first second))) out.old }
{
    c_interface::camera::mnemathor_lens(kind, first, second, out);
}

// The direction of a position.
#[unsafe(no_mangle)]
pub extern "C" fn mnemathor_direction(
    cx: i64,
    cy: i64,
    kind: u32,
    first: f64,
    second: f64,
    x: i64,
    y: i64,
    out: &mut [i64],
)
    ensures { out.new ≡ handed_over (direction_numbers (direction_of cx cy (stated_lens kind first second) x y)) out.old }
{
    c_interface::camera::mnemathor_direction(cx, cy, kind, first, second, x, y, out);
}
