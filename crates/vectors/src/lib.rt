// Vectors of three signed numbers, by themselves and as triples in a list, and the agreement of two dot products.
#![tactic(auto)]

pub mod handedness;

ghost use Rattle.std.specs.Prelude.{◌≡◌, ◌+◌, ◌*◌, ◌<◌, ◌≤◌, ℤ, pos, get_or, length};
ghost use Rattle.numbers.specs.Within.{Within};
ghost use Rattle.vectors.specs.Vectors.{Within3, dot_of, cross_of};
ghost use Rattle.vectors.specs.Triples.{AllWithin, triple_at, pair_dot};
ghost use Rattle.vectors.specs.Agree.{agreeing};

// Stays: no fact of its own about its size, and `Within3` where a function asks it. C hands over any numbers, of which `attitude::triad` refuses those beyond
// 10^9, a triple of a list is any three numbers of 32 bits, and a cross product may be as large as 2 * 10^18.
#[derive(Clone, Copy)]
pub struct Vec3 {
    pub x: i64,
    pub y: i64,
    pub z: i64,
}

// Stays: functions of two vectors alike, each promised by its name. As methods they would favour one of the two, and `*` could be either.
pub fn dot(a: Vec3, b: Vec3) -> i64
    requires within3 { Within3 1000000000 a }
    requires within3_2 { Within3 1000000000 b }
    ensures value { result ≡ dot_of a b }
    ensures within { Within 3000000000000000000 result }
{
    a.x * b.x + a.y * b.y + a.z * b.z
}

pub fn cross(a: Vec3, b: Vec3) -> Vec3
    requires within3 { Within3 1000000000 a }
    requires within3_2 { Within3 1000000000 b }
    ensures value { result ≡ cross_of a b }
    ensures within3_3 { Within3 2000000000000000000 result }
{
    Vec3 {
        x: a.y * b.z - a.z * b.y,
        y: a.z * b.x - a.x * b.z,
        z: a.x * b.y - a.y * b.x,
    }
}

// The number at place k of a list, as a wide one.
fn number_at(list: &[i32], k: usize) -> i64
    requires { k < length list.now }
    ensures { result ≡ get_or list.now k (pos 0) }
{
    i64::from(list[k])
}

// The i'th triple of a list.
pub fn triple_at(list: &[i32], i: usize) -> Vec3
    requires { 3 * i + 3 ≤ length list.now }
    ensures { result ≡ triple_at list.now i }
{
    let k = 3 * i;
    Vec3 {
        x: number_at(list, k),
        y: number_at(list, k + 1),
        z: number_at(list, k + 2),
    }
}

// The dot product of the i'th and the j'th triple of a list.
pub fn pair_dot(list: &[i32], i: usize, j: usize) -> i64
    requires i_in_bounds { (3 * i + 3 ≤ length list.now) × (3 * j + 3 ≤ length list.now) }
    requires all_within { AllWithin 1000000000 list.now }
    ensures value { result ≡ pair_dot list.now i j }
    ensures within { Within 3000000000000000000 result }
{
    dot(triple_at(list, i), triple_at(list, j))
}

// Whether two dot products are at most the tolerance apart.
pub fn agree(p: i64, q: i64, tolerance: u64) -> bool
    requires within { Within 3000000000000000000 p }
    requires within_2 { Within 3000000000000000000 q }
    ensures { result ≡ agreeing p q tolerance }
{
    p.abs_diff(q) <= tolerance
}
