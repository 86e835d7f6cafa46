// The numbers of a direction list.
ghost use Rattle.std.specs.Prelude.{◌≡◌, leb, nat_abs};
ghost use Rattle.std.specs.List.{list_all};
ghost use Rattle.camera_direction.specs.List.{largest};

// How far from 0 a component of a direction may lie.
const LARGEST: u64 = 1000000000;

// Whether each number lies within LARGEST of 0.
pub(crate) fn all_within(v: &[i32]) -> bool
    ensures { result ≡ list_all (λ x. leb (nat_abs x) largest) v.now }
{
    v.iter().all(|x| numbers::within(i64::from(*x), LARGEST))
}
