// What the plate states: whether its numbers are above zero, and the focal length in pixels that they make.
ghost use Rattle.std.specs.Prelude.{◌≡◌};
ghost use Rattle.camera_lens.specs.Lens.{all_above, pixels_of};

use super::Lens;

// Whether every number is above zero. A NaN is not.
pub(crate) fn all_above(lens: Lens) -> bool
    ensures { result ≡ all_above lens }
{
    match lens {
        Lens::Millimetres(length, pitch) => length > 0.0 && pitch > 0.0,
        Lens::Pixels(q) => q > 0.0,
    }
}

// The focal length in pixels, each operation rounded once.
pub(crate) fn pixels_of(lens: Lens) -> f64
    ensures { result ≡ pixels_of lens }
{
    match lens {
        Lens::Millimetres(length, pitch) => length * 1000.0 / pitch,
        Lens::Pixels(q) => q,
    }
}
