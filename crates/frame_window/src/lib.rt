// A pixel's window: its samples, and which pixel of the window beats it first.
#![tactic(auto)]

pub mod neighbours;

ghost use Rattle.std.specs.Prelude.{◌≡◌, ◌+◌, ◌-◌, ◌*◌, ◌<◌, ◌≤◌, min, length};
ghost use Rattle.frame_window.specs.Window.{at, earlier, beats, beaten, first_beating};

// A frame: its samples row by row, as many as its sides ask for, and the threshold that a star's sample reaches.
#[derive(Clone, Copy)]
pub struct Frame<'a> {
    pub samples: &'a [u16],
    pub width: usize,
    pub height: usize,
    pub threshold: usize,
    ghost whole: { length samples.now ≡ height * width },
}

// A place in a frame.
#[derive(Clone, Copy)]
pub struct Place {
    pub row: usize,
    pub column: usize,
}

// A pixel of a frame.
#[derive(Clone, Copy)]
pub struct Pixel<'a> {
    pub frame: Frame<'a>,
    pub place: Place,
    ghost inside: { (place.row < frame.height) × (place.column < frame.width) },
}

// The sample in that row and column of a frame.
pub fn sample(frame: Frame, row: usize, column: usize) -> u16
    requires { (row < frame.height) × (column < frame.width) }
    ensures { let f = frame.entry in result ≡ at f.samples.now f.width row column }
{
    frame.samples[row * frame.width + column]
}

// Where a window starts along one side: there is nothing left of place 0.
fn low(place: usize) -> usize
    ensures { result ≡ place - 3 }
{
    place.saturating_sub(3)
}

// Where it ends, along a side of that length.
fn high(place: usize, side: usize) -> usize
    requires { place < side }
    ensures { result ≡ min (place + 4) side }
{
    place.saturating_add(4).min(side)
}

// Whether the other place comes before this one in row order.
// Stays: the order that `Place` derives is slower, tried and measured: the rows' test then stays in the look's inner loop.
#[tactic(auto, unfolding(crate::specs::Window::earlier))]
fn is_earlier(place: Place, other: Place) -> bool
    ensures { result ≡ earlier place.row place.column other.row other.column }
{
    if other.row < place.row {
        return true;
    }
    if place.row < other.row {
        return false;
    }
    other.column < place.column
}

// Whether the pixel at the other place beats this one.
#[tactic(auto, unfolding(crate::specs::Window::beats))]
fn beats_it(pixel: Pixel, other: Place) -> bool
    requires { (other.row < pixel.frame.height) × (other.column < pixel.frame.width) }
    ensures { let p = pixel.entry in result ≡ beats p.frame.samples.now p.frame.width p.place.row p.place.column other.row other.column }
{
    let Pixel { frame, place, .. } = pixel;
    let mine = sample(frame, place.row, place.column);
    let theirs = sample(frame, other.row, other.column);
    if is_earlier(place, other) {
        mine <= theirs
    } else {
        mine < theirs
    }
}

// The first pixel in row order that beats this one, of those in its window. The look stops there.
pub fn first_beating(pixel: Pixel) -> Option<Place>
    ensures { let p = pixel.entry in result ≡ first_beating p.frame.samples.now p.frame.width p.frame.height p.place.row p.place.column }
{
    let Pixel { frame, place, .. } = pixel;
    let bottom = high(place.row, frame.height);
    let left = low(place.column);
    let right = high(place.column, frame.width);
    let mut found = None;
    'look: for row in low(place.row)..bottom {
        for column in left..right {
            let other = Place { row, column };
            if beats_it(pixel, other) {
                found = Some(other);
                break 'look;
            }
        }
    }
    found
}

// Whether a pixel of its window beats the pixel.
#[tactic(auto, unfolding(crate::specs::Window::first_beating))]
pub fn is_beaten(pixel: Pixel) -> bool
    ensures { let p = pixel.entry in result ≡ beaten p.frame.samples.now p.frame.width p.frame.height p.place.row p.place.column }
{
    first_beating(pixel).is_some()
}
