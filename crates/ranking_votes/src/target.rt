// The direction that is voted for.
ghost use Rattle.std.specs.Prelude.{◌≡◌, ◌≤◌, length};
ghost use Rattle.vectors.specs.Triples.{AllWithin};
ghost use Rattle.ranking_votes.specs.Near.{AllMarked};

// Direction i by its dot product with each direction, the table of the places near these, and how far two products that agree may lie apart.
#[derive(Clone, Copy)]
pub(crate) struct Target<'a> {
    pub(crate) products: &'a [i64],
    pub(crate) near: &'a [u8],
    pub(crate) i: usize,
    pub(crate) tolerance: u64,
    ghost few: { length products.now ≤ 8 },
    ghost all_within: { AllWithin 3000000000000000000 products.now },
    ghost near_len: { length near.now ≡ 5330 },
    ghost all_marked: { AllMarked near.now products.now tolerance },
}
