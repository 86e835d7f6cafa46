// The key of a pair of stars: its dot product and its two record numbers.
ghost use Rattle.std.specs.Prelude.{◌≡◌, ◌+◌, ◌*◌, ◌<◌};
ghost use Rattle.vectors.specs.Triples.{triples, Listed, pair_dot};
ghost use Rattle.catalogue_index.specs.Raised.{raised};

// A signed number moved up by 2^63.
pub fn raise(p: i64) -> u64
    ensures { result ≡ raised p }
{
    9223372036854775808u64.wrapping_add_signed(p)
}

// The two record numbers in one word.
pub fn ends(a: usize, b: usize) -> u32
    requires { (a < 65536) × (b < 65536) }
    ensures { result ≡ 65536 * a + b }
{
    (65536 * a + b) as u32
}

// The dot product of a pair, moved up by 2^63.
pub fn product(stars: &[i32], a: usize, b: usize) -> u64
    requires listed { Listed 512 stars.now }
    requires a_bound { (a < triples stars.now) × (b < triples stars.now) }
    ensures { result ≡ raised (pair_dot stars.now a b) }
{
    raise(vectors::pair_dot(stars, a, b))
}
