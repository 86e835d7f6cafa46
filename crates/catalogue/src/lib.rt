// The star catalogue: the check of its bytes, and its stars decoded into numbers, three a star.
#![tactic(auto)]

pub mod decoded;
mod format;
mod rule;

ghost use Rattle.std.specs.Prelude.{◌≡◌, pos, replicate};
ghost use Rattle.refusal.specs.Counted.{count_answer};
ghost use Rattle.catalogue.specs.Format.{records_in};
ghost use Rattle.catalogue.specs.Check.{length_ok, checked_of, answer_for};
ghost use Rattle.catalogue.specs.Stars.{stars_in, stars_of, padded, identity_for, magnitude_for};

use format::Record;
use refusal::Refusal;

// How many bytes a record has.
pub const RECORD_SIZE: usize = 20;

// The most records that a catalogue may have.
pub const MOST_RECORDS: usize = 512;

// How many whole records the bytes hold.
pub fn records(bytes: &[u8]) -> usize
    ensures { result ≡ records_in bytes.now }
{
    bytes.len() / RECORD_SIZE
}

// Whether a catalogue may have this length.
#[tactic(auto, unfolding(crate::specs::Check::length_ok))]
fn length_ok(len: usize) -> bool
    ensures { result ≡ length_ok len }
{
    len % RECORD_SIZE == 0 && 1 <= len / RECORD_SIZE && len / RECORD_SIZE <= MOST_RECORDS
}

// How many records a catalogue has, or why it is refused.
pub fn check(bytes: &[u8]) -> Result<usize, Refusal>
    ensures value { result ≡ checked_of bytes.now }
    ensures result_value { count_answer result ≡ answer_for bytes.now }
{
    if !length_ok(bytes.len()) {
        return Err(Refusal {
            number: refusal::CATALOGUE,
            place: 0,
        });
    }
    match rule::first_broken(bytes) {
        Some(broken) => Err(Refusal {
            number: refusal::RECORD,
            place: broken,
        }),
        None => Ok(records(bytes)),
    }
}

// How many records are decoded.
fn stars_in(bytes: &[u8]) -> usize
    ensures { result ≡ stars_in bytes.now }
{
    records(bytes).min(MOST_RECORDS)
}

// Writes the stars over zeros, x, y and z of each in turn.
fn fill(bytes: &[u8], numbers: &mut [i32])
    requires { numbers.old ≡ replicate 1536 (pos 0) }
    ensures { numbers.new ≡ padded (stars_of bytes.now) }
{
    let count = 3 * stars_in(bytes);
    for k in 0..count {
        numbers[k] = Record { bytes, i: k / 3 }.component(k % 3);
    }
}

// The stars of a catalogue as numbers, x, y and z of each in turn, with zeros behind the last.
// Stays: the whole array by value, since memory is fixed and `padded` promises the zeros. `decoded::Stars` keeps it beside its count.
pub fn stars(bytes: &[u8]) -> [i32; 1536]
    ensures { result ≡ padded (stars_of bytes.now) }
{
    let mut numbers = [0; 1536];
    fill(bytes, &mut numbers);
    numbers
}

// Stays: 0 and no Option, since `identity_for` and `magnitude_for` promise it.
// The identity of record i, and 0 where there is no such record.
#[tactic(auto, unfolding(crate::specs::Stars::identity_for))]
pub fn identity(bytes: &[u8], i: usize) -> u32
    ensures { result ≡ identity_for bytes.now i }
{
    if i < records(bytes) {
        Record { bytes, i }.identity()
    } else {
        0
    }
}

// The magnitude of record i in thousandths, and 0 where there is no such record.
#[tactic(auto, unfolding(crate::specs::Stars::magnitude_for))]
pub fn magnitude(bytes: &[u8], i: usize) -> i32
    ensures { result ≡ magnitude_for bytes.now i }
{
    if i < records(bytes) {
        Record { bytes, i }.magnitude()
    } else {
        0
    }
}
