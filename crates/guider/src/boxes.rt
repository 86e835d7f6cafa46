// Guide boxes: where each guide is after a frame. All boxes, and which guides are live, are those before it.
ghost use Rattle.std.specs.Prelude.{◌≡◌, ◌<◌, ◌≤◌, length};
ghost use Rattle.guider_rule.specs.Guider.{in_box, claimed, shared, guide_after, guides_after, guider_after, missed as missed_of};
ghost use Rattle.guider.specs.boxes.Single.{IsSingle};

use frame_centroid::Centroid;
use frame_list::Report;
use guider_rule::{Guide, Guider};

// The misses at which a guide is dropped.
pub const DROPPED: u64 = 5;

// Whether the star lies in the guide's box, its border included.
// Stays: the half-width beside the guide, and no struct of both. A guider has one for its four guides, and a struct would be made anew for each box that is asked.
fn in_box(half: u64, guide: Guide, star: Centroid) -> bool
    ensures { result ≡ in_box half guide star }
{
    guide.x.abs_diff(star.x) <= half && guide.y.abs_diff(star.y) <= half
}

// Whether the guide is live and has the star in its box.
fn is_claimed(half: u64, guide: Guide, star: Centroid) -> bool
    ensures { result ≡ claimed half guide star }
{
    guide.misses < DROPPED && in_box(half, guide, star)
}

// A guider and the list of its next frame, neither longer than its array.
#[derive(Clone, Copy)]
struct Boxes {
    guider: Guider,
    report: Report,
    ghost few: { (guider.count ≤ 4) × (report.count ≤ 8) × (length guider.guides ≡ 4) × (length report.stars ≡ 8) },
}

// Whether some live guide other than guide i has the star in its box.
fn is_shared(boxes: &Boxes, i: usize, star: Centroid) -> bool
    ensures { result ≡ shared boxes.now.guider i star }
{
    let guides = &boxes.guider.guides[..boxes.guider.count];
    for (j, guide) in guides.iter().enumerate() {
        if j != i && is_claimed(boxes.guider.half, *guide, star) {
            return true;
        }
    }
    false
}

// The listed star in the guide's box where it is the only one there.
fn single(boxes: &Boxes, guide: Guide) -> Option<Centroid>
    ensures { IsSingle boxes.now.guider.half guide boxes.now.report boxes.now.report.count result }
{
    let mut single = None;
    for star in &boxes.report.stars[..boxes.report.count] {
        if in_box(boxes.guider.half, guide, *star) {
            if single.is_some() {
                return None;
            }
            single = Some(*star);
        }
    }
    single
}

// The guide where it was, with one miss more.
fn missed(guide: Guide) -> Guide
    requires { guide.misses < 5 }
    ensures { result ≡ missed_of guide }
{
    Guide {
        misses: guide.misses + 1,
        ..guide
    }
}

// Guide i after the frame.
fn guide_after(boxes: &Boxes, i: usize) -> Guide
    requires { i < 4 }
    ensures { result ≡ guide_after boxes.now.guider boxes.now.report i }
{
    let guide = boxes.guider.guides[i];
    if guide.misses >= DROPPED {
        return guide;
    }
    let Some(star) = single(boxes, guide) else {
        return missed(guide);
    };
    if is_shared(boxes, i, star) {
        return missed(guide);
    }
    Guide {
        x: star.x,
        y: star.y,
        misses: 0,
        ..guide
    }
}

// The guides after the frame. Each is judged by the guider as it was before.
// Stays: the index, since the edit boxes_moved_one_after_the_other reads the guides that are written, which an iterator over them would hold.
fn guides_after(boxes: &Boxes) -> [Guide; 4]
    ensures { result ≡ guides_after boxes.now.guider boxes.now.report boxes.now.guider.count }
{
    let mut guides = boxes.guider.guides;
    for i in 0..boxes.guider.count {
        guides[i] = guide_after(boxes, i);
    }
    guides
}

// The guider after the frame.
#[tactic(auto, unfolding(guider_rule::specs::Guider::guider_after))]
pub fn after(guider: Guider, report: Report) -> Guider
    requires { (guider.count ≤ 4) × (report.count ≤ 8) }
    ensures { result ≡ guider_after guider report }
{
    let boxes = Boxes { guider, report };
    Guider {
        guides: guides_after(&boxes),
        ..guider
    }
}
