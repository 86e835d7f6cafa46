// One step of the walk over two catalogues: of the next record of each the one with the lower identity, or both where they have the same.
ghost use Rattle.std.specs.Prelude.{◌≡◌, ◌+◌, ◌*◌, ◌<◌, ◌≤◌, length, MatchOption};
ghost use Rattle.catalogue.specs.Format.{record_size, records_in};
ghost use Rattle.catalogue_compare.specs.Changes.{differ as differ_of, both_kind};
ghost use Rattle.catalogue_compare.specs.Step.{next_of, step_of};
ghost use Rattle.catalogue_compare.specs.Taken.{kind_number, step_from};

use catalogue::RECORD_SIZE;

// How many words a record has behind its identity.
const FIELDS: usize = RECORD_SIZE / 4 - 1;

// What the list says of an identity, by the number that a record of the list has for it: only the first catalogue has it, only the second, or both, with
// different words.
#[derive(Clone, Copy, PartialEq, Eq)]
pub enum Change {
    Removed = 1,
    Added = 2,
    Changed = 3,
}

// An identity, what the list says of it, if it is listed, and the next record of each catalogue.
#[derive(Clone, Copy)]
pub struct Step {
    pub identity: u32,
    pub change: Option<Change>,
    pub first: usize,
    pub second: usize,
}

// Whether a word behind the identity is another in record i of the first than in record j of the second.
fn differ(first: &[u8], i: usize, second: &[u8], j: usize) -> bool
    requires { (record_size * i + record_size ≤ length first.now) × (record_size * j + record_size ≤ length second.now) }
    ensures { result ≡ differ_of first.now i second.now j }
{
    let one = RECORD_SIZE * i;
    let other = RECORD_SIZE * j;
    // Stays: word by word. With `!=` of two slices it was proved too, and measured: a comparison of 512 equal records took 11.6 µs where it takes 9.9.
    for k in 0..FIELDS {
        let field = 4 + 4 * k;
        if words::u32_at(first, one + field) != words::u32_at(second, other + field) {
            return true;
        }
    }
    false
}

// What the list says of two records with the same identity.
fn both_kind(first: &[u8], i: usize, second: &[u8], j: usize) -> Option<Change>
    requires { (record_size * i + record_size ≤ length first.now) × (record_size * j + record_size ≤ length second.now) }
    ensures { kind_number result ≡ both_kind first.now i second.now j }
{
    if differ(first, i, second, j) {
        Some(Change::Changed)
    } else {
        None
    }
}

// The identity of record i, if there is such a record.
fn next(bytes: &[u8], i: usize) -> Option<u32>
    ensures { MatchOption result ((records_in bytes.now ≤ i) × (next_of bytes.now i ≡ 4294967296))
        (λ x. (i < records_in bytes.now) × (x < 4294967296) × (x ≡ next_of bytes.now i)) }
{
    if i < catalogue::records(bytes) {
        Some(catalogue::identity(bytes, i))
    } else {
        None
    }
}

// A step that was taken.
fn taken(identity: u32, change: Option<Change>, first: usize, second: usize) -> Option<Step>
    ensures { result ≡ Some (record { identity = identity; change = change; first = first; second = second }) }
{
    Some(Step {
        identity,
        change,
        first,
        second,
    })
}

// The step from record i of the first and record j of the second on, if one of them is there.
pub(crate) fn advance(first: &[u8], second: &[u8], i: usize, j: usize) -> Option<Step>
    ensures { MatchOption result ((records_in first.now ≤ i) × (records_in second.now ≤ j))
        (λ s. (records_in first.now ≤ i → j < records_in second.now) × (step_from s ≡ step_of first.now second.now i j)) }
{
    match (next(first, i), next(second, j)) {
        (None, None) => None,
        (Some(one), None) => taken(one, Some(Change::Removed), i + 1, j),
        (None, Some(other)) => taken(other, Some(Change::Added), i, j + 1),
        (Some(one), Some(other)) => {
            if one < other {
                taken(one, Some(Change::Removed), i + 1, j)
            } else if other < one {
                taken(other, Some(Change::Added), i, j + 1)
            } else {
                taken(one, both_kind(first, i, second, j), i + 1, j + 1)
            }
        }
    }
}
