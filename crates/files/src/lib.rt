// What the program's files hold: the settings and the frame's samples, high byte first.
#![tactic(auto)]

ghost use Rattle.std.specs.Prelude.{◌≡◌, length, drop, ◌++◌};
ghost use Rattle.files.specs.Settings.{reading_of, reading_answer, answer_for};
ghost use Rattle.files.specs.Samples.{sample_count, taken_into, samples_of};

use chain::Settings;
use refusal::Refusal;

// The most samples that the program takes.
pub const MOST_SAMPLES: usize = 32000;

// How many bytes the settings file has.
pub const SETTINGS_SIZE: usize = 32;

// The settings, or refusal 1 for a file that is not 32 bytes long.
#[tactic(auto, unfolding(crate::specs::Settings::reading_of, crate::specs::Settings::settings_of))]
pub fn read_settings(bytes: &[u8]) -> Result<Settings, Refusal>
    ensures value { result ≡ reading_of bytes.now }
    ensures result_value { reading_answer result ≡ answer_for bytes.now }
{
    let is_other_size = bytes.len() != SETTINGS_SIZE;
    if is_other_size {
        return Err(Refusal {
            number: refusal::SIZE,
            place: 0,
        });
    }
    Ok(Settings {
        width: words::u16_at(bytes, 0) as usize,
        height: words::u16_at(bytes, 2) as usize,
        threshold: words::u16_at(bytes, 4) as usize,
        needed: words::u16_at(bytes, 6) as usize,
        cx: words::u32_at(bytes, 8) as i64,
        cy: words::u32_at(bytes, 12) as i64,
        lens: camera_lens::of_settings(words::u32_at(bytes, 16)),
        tolerance: words::u64_at(bytes, 24),
    })
}

// How many samples a frame file of this length holds: width x height, or 0 where it is not as long as that or has too many.
#[tactic(auto, unfolding(crate::specs::Samples::sample_count))]
fn sample_count(len: usize, width: usize, height: usize) -> usize
    ensures { result ≡ sample_count len width height }
{
    if 1024 < width {
        return 0;
    }
    if 1024 < height {
        return 0;
    }
    let count = width * height;
    if len != 2 * count {
        return 0;
    }
    if MOST_SAMPLES < count {
        return 0;
    }
    count
}

// Puts the samples of a frame file at the start of the room, leaves the rest of it as it is, and answers how many there are. A file of the wrong size
// gives none, which the library refuses with 2 where the width and the height are in range; so does a room that is too short for all of them.
pub fn read_samples(bytes: &[u8], width: usize, height: usize, room: &mut [u16]) -> usize
    ensures value { result ≡ taken_into (length room.old) (sample_count (length bytes.now) width height) }
    ensures room_after { room.new ≡ samples_of bytes.now result ++ drop result room.old }
{
    let count = sample_count(bytes.len(), width, height);
    let is_short = room.len() < count;
    if is_short {
        return 0;
    }
    for (i, sample) in room[..count].iter_mut().enumerate() {
        *sample = words::u16_at(bytes, 2 * i);
    }
    count
}
