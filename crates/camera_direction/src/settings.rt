// The range of a position, and of the centre.
ghost use Rattle.std.specs.Prelude.{◌≡◌};
ghost use Rattle.camera_direction.specs.Settings.{place_ok, position_ok};

// Whether v lies from `low` to `high`.
fn between(low: i64, high: i64, v: i64) -> bool
    ensures { result ≡ Rattle.camera_direction.specs.Settings.between low high v }
{
    low <= v && v <= high
}

// Whether v, in 1/256 pixel, lies on the largest frame.
fn place_ok(v: i64) -> bool
    ensures { result ≡ place_ok v }
{
    between(0, 261888, v)
}

// Whether a position, that of the centre too, lies on the largest frame.
pub fn position_ok(x: i64, y: i64) -> bool
    ensures { result ≡ position_ok x y }
{
    place_ok(x) && place_ok(y)
}
