// What changed between two catalogues: a record of 8 bytes for each star that only one of them has, or that both have with different numbers, by rising
// identity.
#![tactic(auto)]

mod step;
mod walk;

ghost use Rattle.std.specs.Prelude.{◌≡◌, length};
ghost use Rattle.refusal.specs.Counted.{count_answer};
ghost use Rattle.refusal.specs.Table.{first_applying};
ghost use Rattle.catalogue_compare.specs.Compare.{catalogues_refused, compared_of, room_after, answer_for};

use refusal::Refusal;

// The bytes of a record of the list.
pub const CHANGE_SIZE: usize = 8;

// The refusal of the first catalogue; only where it is valid that of the second.
fn judge(first: &[u8], second: &[u8]) -> Result<(), Refusal>
    ensures { result ≡ first_applying (catalogues_refused first.now second.now) }
{
    catalogue::check(first)?;
    catalogue::check(second)?;
    Ok(())
}

// The list of what changed from the first catalogue to the second, written at the front of the room. It is counted before anything is written.
pub fn compare(first: &[u8], second: &[u8], room: &mut [u8]) -> Result<usize, Refusal>
    ensures value { result ≡ compared_of first.now second.now (length room.old) }
    ensures room_after { room.new ≡ room_after first.now second.now room.old }
    ensures result_value { count_answer result ≡ answer_for first.now second.now (length room.old) }
{
    judge(first, second)?;
    let records = walk::count(first, second);
    if room.len() < CHANGE_SIZE * records {
        return Err(Refusal {
            number: refusal::CHANGES_ROOM,
            place: 0,
        });
    }
    walk::write(first, second, room);
    Ok(records)
}
