// A guider that has missed nothing.
ghost use Rattle.std.specs.Prelude.{◌≡◌};
ghost use Rattle.guider_rule.specs.Calls.{nobody as nobody_of, fresh_of, fresh_guide};

use guider_rule::{Guide, Guider, Sighting};

// Stays: a function and no `From`, which would not say that nothing is missed yet, and would have to stand with the types, in a crate without code.
fn guide_of(star: Sighting) -> Guide
    ensures { result ≡ fresh_guide star }
{
    Guide {
        identity: star.identity,
        x: star.x,
        y: star.y,
        misses: 0,
    }
}

// A guider without guides.
pub(crate) fn nobody() -> Guider
    ensures { result ≡ nobody_of }
{
    let none = guide_of(Sighting {
        identity: 0,
        x: 0,
        y: 0,
    });
    Guider {
        half: 0,
        count: 0,
        guides: [none; 4],
    }
}

pub(crate) fn guider_of(half: u64, stars: [Sighting; 4], count: usize) -> Guider
    ensures { result ≡ fresh_of half stars count }
{
    Guider {
        half,
        count,
        guides: stars.map(guide_of),
    }
}
