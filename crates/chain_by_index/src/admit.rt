// What the chain asks of the catalogue and its index before it writes anything.
ghost use Rattle.std.specs.Prelude.{◌≡◌};
ghost use Rattle.refusal.specs.Table.{first_applying};
ghost use Rattle.vectors.specs.Triples.{Listed};
ghost use Rattle.chain_by_index.specs.Chain.{index_rows, stars_rows};

use catalogue::decoded::Stars;
use refusal::Refusal;

// 17, of decoded stars.
fn index_outcome(stars: &[i32], index: &[u8], floor: i64) -> Result<(), Refusal>
    requires { Listed 512 stars.now }
    ensures { result ≡ first_applying (index_rows stars.now index.now floor) }
{
    if !catalogue_index::matches(stars, floor, index) {
        return refusal::plain(refusal::INDEX);
    }
    Ok(())
}

// 6 and 7, and then 17.
pub(crate) fn stars_outcome(bytes: &[u8], index: &[u8], floor: i64) -> Result<(), Refusal>
    ensures { result ≡ first_applying (stars_rows bytes.now index.now floor) }
{
    catalogue::check(bytes)?;
    let stars = Stars::of(bytes);
    index_outcome(stars.all(), index, floor)
}
