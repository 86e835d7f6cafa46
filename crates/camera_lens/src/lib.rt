// The lens: its focal length in 1/256 pixel, from what its maker states.
#![tactic(auto)]

mod plate;
mod range;

ghost use Rattle.std.specs.Prelude.{◌≡◌};
ghost use Rattle.camera_lens.specs.Lens.{lens_ok, focal_of, focal_answer, answer_for};
ghost use Rattle.camera_lens.specs.Stated.{settings_lens, stated_lens};

use refusal::Refusal;

// What is stated: focal length in millimetres and pixel pitch in micrometres, or focal length in pixels.
#[derive(Clone, Copy)]
pub enum Lens {
    Millimetres(f64, f64),
    Pixels(f64),
}

// Whether every number that is stated is above zero and the focal length that they make is in range.
pub fn lens_ok(lens: Lens) -> bool
    ensures { result ≡ lens_ok lens }
{
    plate::all_above(lens) && range::in_range(plate::pixels_of(lens))
}

// The focal length of a lens.
pub fn focal_of(lens: Lens) -> Result<i64, Refusal>
    ensures value { result ≡ focal_of lens }
    ensures result_value { focal_answer result ≡ answer_for lens }
{
    if lens_ok(lens) {
        return Ok(range::whole(plate::pixels_of(lens)));
    }
    Err(Refusal {
        number: refusal::LENS,
        place: 0,
    })
}

// The lens of the settings file, whose focal length is in 1/256 pixel.
pub fn of_settings(focal: u32) -> Lens
    ensures { result ≡ settings_lens focal }
{
    Lens::Pixels(focal as f64 / 256.0)
}

// The lens that a caller states by a kind, 0 for millimetres or 1 for pixels, and two numbers, of which pixels need the first alone. Any other kind gives a
// lens that is refused.
// Stays: a kind by its number, since C hands it over.
pub fn stated(kind: u32, first: f64, second: f64) -> Lens
    ensures { result ≡ stated_lens kind first second }
{
    match kind {
        0 => Lens::Millimetres(first, second),
        1 => Lens::Pixels(first),
        _ => Lens::Pixels(0.0),
    }
}
