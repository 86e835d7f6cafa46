// The rule of a guider, whether it was just made or is handed in, and of a frame's list.
ghost use Rattle.std.specs.Prelude.{◌≡◌, ◌&&◌, ℕ, ◌<◌, leb, length, get_or};
ghost use Rattle.std.specs.List.{list_all};
ghost use Rattle.guider_rule.specs.Guider.{no_guide, dropped};
ghost use Rattle.guider_rule.specs.Rule.{on_frame, guider_ok, list_ok};
ghost use Rattle.guider.specs.Identities.{new_among};

use crate::boxes::DROPPED;
use frame_centroid::Centroid;
use frame_list::Report;
use guider_rule::{Guide, Guider};

// The widest half-width of a box, in 1/256 pixel.
const WIDEST: u64 = 2560;
// The largest x and y of a position, in 1/256 pixel.
const FARTHEST: u64 = 261888;

fn on_frame(x: u64, y: u64) -> bool
    ensures { result ≡ on_frame x y }
{
    x <= FARTHEST && y <= FARTHEST
}

fn identities_of(guides: [Guide; 4]) -> [u32; 4]
    ensures { (i : ℕ) → i < 4 → get_or result i 0 ≡ (get_or guides i no_guide).identity }
{
    guides.map(|guide| guide.identity)
}

// Whether no identity before identity i is the same. A dropped guide keeps its identity.
fn is_new(identities: &[u32], i: usize) -> bool
    requires { i < length identities.now }
    ensures { result ≡ new_among identities.now i }
{
    !identities[..i].contains(&identities[i])
}

fn guide_ok(guide: Guide, identities: &[u32], i: usize) -> bool
    requires { i < length identities.now }
    ensures { result ≡ (on_frame guide.x guide.y && (leb guide.misses dropped && new_among identities.now i)) }
{
    on_frame(guide.x, guide.y) && guide.misses <= DROPPED && is_new(identities, i)
}

pub(crate) fn guider_ok(guider: Guider) -> bool
    ensures { result ≡ guider_ok guider }
{
    if guider.half > WIDEST || guider.count > 4 {
        return false;
    }
    let identities = identities_of(guider.guides);
    for i in 0..guider.count {
        if !guide_ok(guider.guides[i], &identities, i) {
            return false;
        }
    }
    true
}

// Whether each of these stars lies on the frame.
fn all_on_frame(stars: &[Centroid]) -> bool
    ensures { result ≡ list_all (λ star. on_frame star.x star.y) stars.now }
{
    stars.iter().all(|star| on_frame(star.x, star.y))
}

pub(crate) fn list_ok(report: Report) -> bool
    ensures { result ≡ list_ok report }
{
    let is_long = report.count > 8;
    if is_long {
        return false;
    }
    all_on_frame(&report.stars[..report.count])
}
