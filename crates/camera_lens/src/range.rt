// A focal length q in pixels: whether 256 q is in range, and its whole part.
ghost use Rattle.std.specs.Prelude.{◌≡◌, true, pos};
ghost use Rattle.camera_lens.specs.Lens.{in_range, whole_of};

// Whether 256 q is at least 16,384 and below 4,194,305: q is held against each of the two over 256, which is a float.
pub(crate) fn in_range(q: f64) -> bool
    ensures { result ≡ in_range q }
{
    let is_above = q >= 64.0;
    is_above && q < 16384.00390625
}

// The whole part of 256 q. In range 256 q is a float, so that nothing but its fraction is lost.
pub(crate) fn whole(q: f64) -> i64
    requires { in_range q ≡ true }
    ensures { result ≡ pos (whole_of q) }
{
    std::num::truncating_f64_to_u64(q * 256.0) as i64
}
