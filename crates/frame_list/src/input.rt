// What a call on a frame asks of its inputs: refusals 1 to 4, and 15 for one pixel. The order of the tests is the order of the numbers.
ghost use Rattle.std.specs.Prelude.{not, [], ◌≡◌, ℕ, ◌≤◌, ◌<◌, length, get_or, ltb, position, MatchOption};
ghost use Rattle.refusal.specs.Table.{first_applying};
ghost use Rattle.refusal.specs.Answer.{answer_of, accepted_with};
ghost use Rattle.frame_list.specs.input.Input.{within, size_out, first_over, frame_rows, pixel_rows, frame_answer, pixel_answer};

use refusal::Refusal;

// The largest sample.
const LARGEST: u16 = 4095;

fn is_within(x: usize, least: usize, most: usize) -> bool
    ensures { result ≡ within least most x }
{
    (least..=most).contains(&x)
}

// The largest sample, or 0. No early way out, so that the compiler can take many samples at a time.
fn largest(samples: &[u16]) -> u16
    ensures { (k : ℕ) → k < length samples.now → get_or samples.now k 0 ≤ result }
{
    let mut most = 0;
    for sample in samples {
        most = most.max(*sample);
    }
    most
}

// The place of the first sample that is too large.
fn look_for_over(samples: &[u16]) -> Option<usize>
    ensures { result ≡ position (λ s. ltb 4095 s) samples.now }
{
    samples.iter().position(|sample| LARGEST < *sample)
}

// The same. The look that leaves early, one sample at a time, is taken only where some sample is too large.
fn first_over(samples: &[u16]) -> Option<usize>
    ensures { MatchOption result (first_over samples.now ≡ length samples.now) (λ k. (k < length samples.now) × (k ≡ first_over samples.now)) }
{
    let all_fit = largest(samples) <= LARGEST;
    if all_fit {
        return None;
    }
    look_for_over(samples)
}

// Whether both sides of a frame are in range.
pub fn size_ok(width: usize, height: usize) -> bool
    ensures { not result ≡ size_out width height }
{
    is_within(width, 7, 1024) && is_within(height, 7, 1024)
}

// Width and height are tested before their product is formed, so it cannot overflow.
#[tactic(auto, unfolding(refusal::specs::Table::first_applying))]
pub fn frame_outcome(
    samples: &[u16],
    width: usize,
    height: usize,
    threshold: usize,
) -> Result<(), Refusal>
    ensures value { result ≡ first_applying (frame_rows samples.now width height threshold) }
    ensures result_value { answer_of result ≡ frame_answer samples.now width height threshold (accepted_with []) }
{
    if !size_ok(width, height) {
        return refusal::plain(refusal::SIZE);
    }
    if samples.len() != width * height {
        return refusal::plain(refusal::SAMPLES);
    }
    if !is_within(threshold, 1, 4095) {
        return refusal::plain(refusal::THRESHOLD);
    }
    match first_over(samples) {
        Some(place) => refusal::at(refusal::SAMPLE, place),
        None => Ok(()),
    }
}

// The same for a call that names a pixel.
#[tactic(auto, unfolding(refusal::specs::Table::first_applying))]
pub fn pixel_outcome(
    samples: &[u16],
    width: usize,
    height: usize,
    threshold: usize,
    row: usize,
    column: usize,
) -> Result<(), Refusal>
    ensures value { result ≡ first_applying (pixel_rows samples.now width height threshold row column) }
    ensures result_value { answer_of result ≡ pixel_answer samples.now width height threshold row column (accepted_with []) }
{
    frame_outcome(samples, width, height, threshold)?;
    if height <= row || width <= column {
        return refusal::plain(refusal::PIXEL);
    }
    Ok(())
}
