// The test of an index that is handed in, in one pass over its records.
ghost use Rattle.std.specs.Prelude.{◌≡◌, true, false};
ghost use Rattle.vectors.specs.Triples.{triples};
ghost use Rattle.catalogue_index.specs.records.Format.{high_from, key_from, encoded};
ghost use Rattle.catalogue_index.specs.records.Order.{sorted};
ghost use Rattle.catalogue_index.specs.Index.{pairs_of};
ghost use Rattle.catalogue_index.specs.Check.{Says, PairOk, Follows};

use crate::fill;
use crate::pairs::Pairs;
use crate::records::format::{self, Key, Record};

// Whether a record's numbers are those of a pair, and its dot product the pair's. The product is brought to the form of the record's bytes.
fn pair_ok(pairs: &Pairs, entry: Record) -> bool
    ensures { Says result (PairOk pairs.now.stars.now pairs.now.floor (high_from entry.top entry.middle) entry.low) }
{
    let a = (entry.low / 65536) as usize;
    let b = (entry.low % 65536) as usize;
    if b <= a {
        return false;
    }
    if pairs.total() <= b {
        return false;
    }
    let product = pairs.product(a, b);
    if product < pairs.floor {
        return false;
    }
    let word = format::turn(product);
    if entry.top != (word / 4294967296) as u32 {
        return false;
    }
    entry.middle == (word % 4294967296) as u32
}

// Whether a record keeps its rule behind one with a key.
fn record_ok(pairs: &Pairs, before: Key, entry: Record) -> bool
    ensures { Says result (Follows pairs.now.stars.now pairs.now.floor (key_from before.high before.low)
        (high_from entry.top entry.middle) entry.low) }
{
    pair_ok(pairs, entry) && before.is_less(entry.key())
}

// Whether the bytes are the records of all pairs, in order.
pub(crate) fn is_index(pairs: &Pairs, index: &[u8]) -> bool
    ensures { Says result (index.now ≡ encoded (sorted (pairs_of pairs.now.stars.now pairs.now.floor (triples pairs.now.stars.now)))) }
{
    let count = fill::count(pairs);
    if index.len() != 12 * count {
        return false;
    }
    let mut before = Key { high: 0, low: 0 };
    for i in 0..count {
        let entry = Record::read(index, i);
        if !record_ok(pairs, before, entry) {
            return false;
        }
        before = entry.key();
    }
    true
}
