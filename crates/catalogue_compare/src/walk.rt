// The walk over two catalogues, a step at a time: once to count the records of the list, and once to write them. Each step passes a record at the
// least, so there are at most as many as both catalogues have records.
ghost use Rattle.std.specs.Prelude.{◌≡◌, ◌+◌, ◌*◌, ◌≤◌, length};
ghost use Rattle.std.proofs.lemmas.List.Edits.{sets};
ghost use Rattle.words.specs.Front.{at_front};
ghost use Rattle.catalogue.specs.Valid.{Valid};
ghost use Rattle.catalogue_compare.specs.Changes.{listed, changes_of};
ghost use Rattle.catalogue_compare.specs.Taken.{step_from};
ghost use Rattle.catalogue_compare.specs.Walk.{told};
ghost use Rattle.catalogue_compare.specs.Written.{told_bytes};

use crate::step::Step;
use crate::{CHANGE_SIZE, step};

// How many records the list has.
pub(crate) fn count(first: &[u8], second: &[u8]) -> usize
    requires { Valid first.now × Valid second.now }
    ensures { (result ≡ length (listed first.now second.now)) × (result ≤ 1024) }
{
    let mut found = 0;
    let mut i = 0;
    let mut j = 0;
    // Stays: a `while let`, since a step moves one of two places or both. With `successors` what has been passed would stand in the clause of a closure.
    while let Some(s) = step::advance(first, second, i, j) {
        if s.change.is_some() {
            found += 1;
        }
        i = s.first;
        j = s.second;
    }
    found
}

// Writes the record of a step, if it has one, behind the first `at` records. How many there are then.
fn put(room: &mut [u8], at: usize, s: Step) -> usize
    requires { 8 * (at + length (told (step_from s))) ≤ length room.old }
    ensures value { result ≡ at + length (told (step_from s)) }
    ensures room_after { room.new ≡ sets room.old (8 * at) (told_bytes (step_from s)) }
{
    let Some(change) = s.change else {
        return at;
    };
    let from = CHANGE_SIZE * at;
    words::put_u32(room, from, s.identity);
    words::put_u32(room, from + 4, change as u32);
    at + 1
}

// Writes the list at the front of the room, which is long enough.
pub(crate) fn write(first: &[u8], second: &[u8], room: &mut [u8])
    requires valid { Valid first.now × Valid second.now }
    requires second_in_bounds { 8 * length (listed first.now second.now) ≤ length room.old }
    ensures { room.new ≡ at_front (changes_of first.now second.now) room.old }
{
    let mut found = 0;
    let mut i = 0;
    let mut j = 0;
    // Stays: the walk of `count` once more. One for both would take what is done at a step as a closure, with a clause over a number here and a room there.
    while let Some(s) = step::advance(first, second, i, j) {
        found = put(room, found, s);
        i = s.first;
        j = s.second;
    }
}
