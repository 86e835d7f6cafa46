// The index of star pairs: a record of 12 bytes for each pair of stars whose dot product is at least a floor, by rising dot product, then by the
// two record numbers.
#![tactic(auto)]

mod fill;
pub mod key;
mod pairs;
pub mod records;
mod test;

ghost use Rattle.std.specs.Prelude.{◌≡◌, length};
ghost use Rattle.refusal.specs.Counted.{count_answer};
ghost use Rattle.vectors.specs.Triples.{Listed};
ghost use Rattle.catalogue_index.specs.Check.{is_index};
ghost use Rattle.catalogue_index.specs.Build.{built_from, room_from, built_of, room_after, answer_for};

use crate::pairs::Pairs;
use crate::records::shell;
use catalogue::decoded::Stars;
use refusal::Refusal;

// The index of decoded stars, or refusal 16 where the room is too short.
fn build_from(stars: &[i32], floor: i64, room: &mut [u8]) -> Result<usize, Refusal>
    requires { Listed 512 stars.now }
    ensures value { result ≡ built_from stars.now floor (length room.old) }
    ensures room_after { room.new ≡ room_from stars.now floor room.old }
{
    let pairs = Pairs::new(stars, floor);
    let records = fill::count(&pairs);
    if room.len() < 12 * records {
        return Err(Refusal {
            number: refusal::INDEX_ROOM,
            place: 0,
        });
    }
    fill::write(&pairs, room);
    shell::sort(&mut room[..12 * records]);
    Ok(records)
}

// The index of a catalogue for a floor, written at the front of the room.
pub fn build(catalogue: &[u8], floor: i64, room: &mut [u8]) -> Result<usize, Refusal>
    ensures value { result ≡ built_of catalogue.now floor (length room.old) }
    ensures room_after { room.new ≡ room_after catalogue.now floor room.old }
    ensures result_value { count_answer result ≡ answer_for catalogue.now floor (length room.old) }
{
    catalogue::check(catalogue)?;
    let stars = Stars::of(catalogue);
    build_from(stars.all(), floor, room)
}

// Whether the bytes handed in are exactly the index of these stars for this floor: what refusal 17 is decided by.
pub fn matches(stars: &[i32], floor: i64, index: &[u8]) -> bool
    requires { Listed 512 stars.now }
    ensures { result ≡ is_index stars.now floor index.now }
{
    test::is_index(&Pairs::new(stars, floor), index)
}
