// A frame of samples: the verdict on one pixel, and the list of its stars with three counts.
#![tactic(auto)]

ghost use Rattle.std.specs.Prelude.{◌≡◌};
ghost use Rattle.frame_list.specs.Calls.{judgement_of, listing_of, judgement_answer, answer_for};

use frame_centroid::Centroid;
use frame_verdict::Verdict;
use frame_window::{Frame, Pixel, Place};
use refusal::Refusal;

mod stars; // stars.rt: the list and the counts, pixel by pixel
pub mod input;

// The first count of stars are the list, and the rest are zeros; measured, edge and lone count the pixels of the whole frame.
// Stays: an array with its count beside it, since memory is fixed and the zeros are promised: `report_of` of specs/Stars fills up with them, and the law
// `zeros-behind` says so of each place behind the count.
#[derive(Clone, Copy)]
pub struct Report {
    pub stars: [Centroid; 8],
    pub count: usize,
    pub measured: usize,
    pub edge: usize,
    pub lone: usize,
}

// Where the call is refused the report is zeros.
// Stays: the outcome beside the report and no Result of it. `list-refused` says what the report then is, and the edit refused_with_a_count tries it.
#[derive(Clone, Copy)]
pub struct Listing {
    pub outcome: Result<(), Refusal>,
    pub report: Report,
}

// The verdict on one pixel.
// Stays: the frame's four parameters apart, here, in `list`, in `input` and in `frame_reason::explain`, and no `Frame` of them. A `Frame` holds a sample for
// each of its pixels, and whether these do is what `input` tests first.
#[tactic(auto, unfolding(crate::specs::Calls::judgement_of))]
pub fn judge(
    samples: &[u16],
    width: usize,
    height: usize,
    threshold: usize,
    row: usize,
    column: usize,
) -> Result<Verdict, Refusal>
    ensures value { result ≡ judgement_of samples.now width height threshold row column }
    ensures result_value { judgement_answer result ≡ answer_for samples.now width height threshold row column }
{
    input::pixel_outcome(samples, width, height, threshold, row, column)?;
    let frame = Frame {
        samples,
        width,
        height,
        threshold,
    };
    let place = Place { row, column };
    Ok(frame_verdict::verdict_at(Pixel { frame, place }))
}

// The frame's list and counts.
#[tactic(auto, unfolding(crate::specs::Calls::listing_of))]
pub fn list(samples: &[u16], width: usize, height: usize, threshold: usize) -> Listing
    ensures { result ≡ listing_of samples.now width height threshold }
{
    let outcome = input::frame_outcome(samples, width, height, threshold);
    match outcome {
        Err(_) => Listing {
            outcome,
            report: stars::none(),
        },
        Ok(()) => {
            let frame = Frame {
                samples,
                width,
                height,
                threshold,
            };
            Listing {
                outcome,
                report: stars::report_of(frame),
            }
        }
    }
}
