// The whole chain as one call: a frame, a catalogue and settings in, the stars' names and the attitude out.
#![tactic(auto)]

pub mod admit;
pub mod locate;
pub mod rival;
pub mod sight;

ghost use Rattle.std.specs.Prelude.{◌≡◌};
ghost use Rattle.chain.specs.Chain.{refused_with, call, tracked_of, room_after, names_of};
ghost use Rattle.chain.specs.Ready.{Tracks};

use attitude::Matrix;
use camera_lens::Lens;
use frame_centroid::Centroid;
use frame_list::Report;
use refusal::Refusal;
use search::Identification;
use vectors::Vec3;

// The camera's settings: the frame's size and threshold, the centre in 1/256 pixel, the lens, how many directions need a star, and how far apart two
// dot products may be.
#[derive(Clone, Copy)]
pub struct Settings {
    pub width: usize,
    pub height: usize,
    pub threshold: usize,
    pub needed: usize,
    pub cx: i64,
    pub cy: i64,
    pub lens: Lens,
    pub tolerance: u64,
}

// What the chain answers: the frame's list and counts, the star of each listed direction, and the matrix that carries sky to camera. Where the call
// is refused, all of them are zeros.
// Stays: the outcome beside them and no Result. `Tracks` and the laws over `tracked_of` say what they then are, and the edit refused_with_a_count tries it.
#[derive(Clone, Copy)]
pub struct Tracked {
    pub outcome: Result<(), Refusal>,
    pub report: Report,
    pub stars: [u16; 8],
    pub matrix: Matrix,
}

// An answer that hands over nothing.
pub fn refused(refusal: Refusal) -> Tracked
    ensures { result ≡ refused_with refusal }
{
    let zeros = Vec3 { x: 0, y: 0, z: 0 };
    let star = Centroid {
        x: 0,
        y: 0,
        brightness: 0,
    };
    let report = Report {
        stars: [star; 8],
        count: 0,
        measured: 0,
        edge: 0,
        lone: 0,
    };
    let matrix = Matrix {
        row0: zeros,
        row1: zeros,
        row2: zeros,
    };
    Tracked {
        outcome: Err(refusal),
        report,
        stars: [0u16; 8],
        matrix,
    }
}

// The whole chain. The room takes the ranking; it must have 4,096 words, for 8 directions and 512 stars.
pub fn track(samples: &[u16], catalogue: &[u8], settings: Settings, room: &mut [u16]) -> Tracked
    ensures value { result ≡ tracked_of (call samples.now catalogue.now settings room.old) }
    ensures room_after { room.new ≡ room_after (call samples.now catalogue.now settings room.old) }
    ensures tracks { Tracks (call samples.now catalogue.now settings room.old) result }
{
    let sighting = locate::ranked(samples, catalogue, settings, room);
    let report = sighting.report;
    match sighting.outcome {
        Err(r) => refused(r),
        Ok(()) => locate::identified(report, sighting.sights(), catalogue, settings, room),
    }
}

// What the search alone finds for the frame's directions over a ranking. After 13 and 14 the ranking stands in the room, so a listing can show the
// stars that a refused call had found.
pub fn names(
    samples: &[u16],
    catalogue: &[u8],
    settings: Settings,
    ranking: &[u16],
) -> Identification
    ensures { result ≡ names_of samples.now catalogue.now settings ranking.now }
{
    let listing = frame_list::list(samples, settings.width, settings.height, settings.threshold);
    let report = listing.report;
    let stars = report.stars;
    let count = report.count;
    let numbers = sight::directions_of(stars, count, settings);
    let end = 3 * count;
    search::search(
        &numbers[..end],
        catalogue,
        settings.needed,
        settings.tolerance,
        ranking,
    )
}
