// A whole burst in one call: each frame of a slice through the chain by itself, and a record of 80 bytes for each.
#![tactic(auto)]

pub mod records;

ghost use Rattle.std.specs.Prelude.{◌≡◌, ◌++◌, ◌*◌, ◌≤◌, length, drop};
ghost use Rattle.refusal.specs.Counted.{count_answer};
ghost use Rattle.refusal.specs.Table.{first_applying};
ghost use Rattle.chain_burst.specs.records.Record.{record_size};
ghost use Rattle.chain_burst.specs.Burst.{frames_of, records_of, room_behind, burst_rows, call, burst_of, answer_for, records_after, room_after};
ghost use Rattle.chain_burst.specs.Admit.{Whole};

use crate::records::RECORD_SIZE;
use chain::Settings;
use frame_list::input;
use refusal::Refusal;

// How many frames a burst may have.
const MOST_FRAMES: usize = 64;

// 1, 2 and 18, for so many samples and a room of so many bytes.
#[tactic(auto, unfolding(refusal::specs::Table::first_applying, crate::specs::Burst::burst_rows))]
fn outcome(width: usize, height: usize, samples: usize, records: usize) -> Result<(), Refusal>
    ensures { result ≡ first_applying (burst_rows width height samples records) }
{
    if !input::size_ok(width, height) {
        return refusal::plain(refusal::SIZE);
    }
    let size = width * height;
    let is_broken = samples % size != 0;
    if is_broken {
        return refusal::plain(refusal::SAMPLES);
    }
    if MOST_FRAMES * size < samples {
        return refusal::plain(refusal::SAMPLES);
    }
    if records < RECORD_SIZE * (samples / size) {
        return refusal::plain(refusal::RECORDS_ROOM);
    }
    Ok(())
}

// One frame after the other through the chain. A frame is lent as a part of the slice, and its refusal goes into its own record.
fn track_frames(
    samples: &[u16],
    catalogue: &[u8],
    settings: Settings,
    room: &mut [u16],
    records: &mut [u8],
    size: usize,
    count: usize,
)
    requires { Whole size count (length samples.now) (length records.old) }
    ensures room_after { room.new ≡ room_behind catalogue.now settings (frames_of size samples.now count) room.old }
    ensures records_after { records.new ≡ records_of catalogue.now settings (frames_of size samples.now count) room.old
        ++ drop (record_size * count) records.old }
{
    // Stays: a range and no `chunks_exact`, since the edit one_record_beyond goes one frame too far.
    for k in 0..count {
        let from = k * size;
        let tracked = chain::track(&samples[from..from + size], catalogue, settings, room);
        records::put(records, RECORD_SIZE * k, tracked.outcome, tracked.matrix);
    }
}

// The whole burst: how many records were written. The ranking room is the chain's, the other takes the records.
pub fn track(
    samples: &[u16],
    catalogue: &[u8],
    settings: Settings,
    room: &mut [u16],
    records: &mut [u8],
) -> Result<usize, Refusal>
    ensures value { result ≡ burst_of (call samples.now catalogue.now settings room.old records.old) }
    ensures result_value { count_answer result ≡ answer_for (call samples.now catalogue.now settings room.old records.old) }
    ensures records_after { records.new ≡ records_after (call samples.now catalogue.now settings room.old
        records.old) }
    ensures room_after { room.new ≡ room_after (call samples.now catalogue.now settings room.old records.old) }
{
    let width = settings.width;
    let height = settings.height;
    outcome(width, height, samples.len(), records.len())?;
    let size = width * height;
    let count = samples.len() / size;
    track_frames(samples, catalogue, settings, room, records, size, count);
    Ok(count)
}
