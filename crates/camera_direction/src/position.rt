// The direction of a position, given by its offsets from the centre.
ghost use Rattle.std.specs.Prelude.{◌≡◌, pos, ◌<ℤ◌};
ghost use Rattle.numbers.specs.Within.{Within};
ghost use Rattle.camera_direction.specs.Position.{norm_of, toward_of};

use vectors::Vec3;

// N: 256 times the length of the ray through the position.
fn norm(x: i64, y: i64, focal: i64) -> u64
    requires within { Within 523776 x }
    requires within_2 { Within 523776 y }
    requires within_3 { Within 4194304 focal }
    ensures { result ≡ norm_of x y focal }
{
    let a = x.unsigned_abs();
    let b = y.unsigned_abs();
    let c = focal.unsigned_abs();
    numbers::root(65536 * (a * a + b * b + c * c))
}

// The direction of the ray through the position.
pub(crate) fn toward(x: i64, y: i64, focal: i64) -> Vec3
    requires within { Within 523776 x }
    requires within_2 { Within 523776 y }
    requires within_3 { Within 4194304 focal }
    requires pos_bound { pos 0 <ℤ focal }
    ensures { result ≡ toward_of x y focal }
{
    let n = norm(x, y, focal) as i64;
    Vec3 {
        x: 256000000000 * x / n,
        y: 256000000000 * y / n,
        z: 256000000000 * focal / n,
    }
}
