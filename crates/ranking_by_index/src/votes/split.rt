// Which votes for a direction are the index's and which the full catalogue's.
ghost use Rattle.std.specs.Prelude.{◌≤◌, length};
ghost use Rattle.vectors.specs.Triples.{AllWithin};

// Direction i by its dot product with each direction, how far two products that agree may lie apart, and the floor of the index.
#[derive(Clone, Copy)]
pub(crate) struct Split<'a> {
    pub(crate) products: &'a [i64],
    pub(crate) i: usize,
    pub(crate) tolerance: u64,
    pub(crate) floor: u64,
    ghost few: { length products.now ≤ 8 },
    ghost all_within: { AllWithin 3000000000000000000 products.now },
    ghost tolerance_bound: { tolerance ≤ 10000000000000000 },
}
