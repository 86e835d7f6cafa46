// The records that are kept, moved to the front of the buffer in one pass, and the freed room behind them.
ghost use Rattle.std.specs.Prelude.{[], ◌++◌, ◌≡◌, ◌+◌, ◌*◌, ◌-◌, ◌<◌, ◌≤◌, eqb, length, take, replicate};
ghost use Rattle.std.proofs.lemmas.List.Edits.{sets};
ghost use Rattle.lists.specs.Number.{one};
ghost use Rattle.lists.specs.Order.{pick};
ghost use Rattle.words.specs.Front.{at_front};
ghost use Rattle.catalogue.specs.Format.{record_size, records_in};
ghost use Rattle.catalogue_cut.specs.Flight.{record_at, records_at, freed};
ghost use Rattle.catalogue_cut.specs.Shifted.{marked};
ghost use Rattle.catalogue_cut.specs.marks.Number.{number_of, numbers_of};

use crate::marks::Mark;
use catalogue::RECORD_SIZE;

// What freed room is filled with.
const FREED: u8 = 255;

// Copies record i over an earlier one, or over itself.
fn copy(bytes: &mut [u8], i: usize, to: usize)
    requires { (to ≤ i) × (i < records_in bytes.old) }
    ensures { bytes.new ≡ sets bytes.old (record_size * to) (record_at bytes.old i) }
{
    let from = RECORD_SIZE * i;
    bytes.copy_within(from..from + RECORD_SIZE, RECORD_SIZE * to);
}

// Copies record i behind the records that are kept so far, if its mark says that it is kept. How many there are then.
fn pass(bytes: &mut [u8], mark: Mark, i: usize, kept: usize) -> usize
    requires { (kept ≤ i) × (i < records_in bytes.old) }
    ensures value { result ≡ kept + one (eqb (number_of mark) 0) }
    ensures bytes_after { bytes.new ≡ sets bytes.old (record_size * kept) (pick (eqb (number_of mark) 0) (record_at bytes.old i) []) }
{
    if mark != Mark::Kept {
        return kept;
    }
    copy(bytes, i, kept);
    kept + 1
}

// Moves the records that are kept to the front, in their order. How many there are.
pub(crate) fn forward(bytes: &mut [u8], marks: &[Mark]) -> usize
    requires { records_in bytes.old ≤ length marks.now }
    ensures value { result ≡ length (marked (numbers_of marks.now) (records_in bytes.old)) }
    ensures bytes_after { bytes.new ≡ at_front (records_at bytes.old (marked (numbers_of marks.now) (records_in bytes.old)))
        bytes.old }
{
    let mut kept = 0;
    for i in 0..catalogue::records(bytes) {
        kept = pass(bytes, marks[i], i, kept);
    }
    kept
}

// Fills the buffer from a place on.
pub(crate) fn fill(bytes: &mut [u8], from: usize)
    requires { from ≤ length bytes.old }
    ensures { bytes.new ≡ take from bytes.old ++ replicate (length bytes.old - from) freed }
{
    bytes[from..].fill(FREED);
}
