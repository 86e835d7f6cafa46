// Position and brightness of a star in its 7 x 7 window.
#![tactic(auto)]

ghost use Rattle.std.specs.Prelude.{◌≡◌, ◌+◌, ◌*◌, ◌<◌, ◌≤◌};
ghost use Rattle.frame_centroid.specs.Border.{border_sum};
ghost use Rattle.frame_centroid.specs.Centroid.{weight};
ghost use Rattle.frame_centroid.specs.Moments.{position, from_moments, MomentsOf, Small};

use frame_window::{Pixel, Place};

// The border of the window: row and column from the window's top left. Its rule, that it is exactly the outer ring, each place once, is
// `border-ring` of specs/Border.
const BORDER: [[usize; 2]; 24] = [
    [0, 0],
    [0, 1],
    [0, 2],
    [0, 3],
    [0, 4],
    [0, 5],
    [0, 6],
    [1, 0],
    [1, 6],
    [2, 0],
    [2, 6],
    [3, 0],
    [3, 6],
    [4, 0],
    [4, 6],
    [5, 0],
    [5, 6],
    [6, 0],
    [6, 1],
    [6, 2],
    [6, 3],
    [6, 4],
    [6, 5],
    [6, 6],
];

// The pixel in the middle of a window of 7 x 7, all of it in the frame.
#[derive(Clone, Copy)]
pub struct Window<'a> {
    pub middle: Pixel<'a>,
    ghost inside: { (3 ≤ middle.place.row) × (middle.place.row + 3 < middle.frame.height) × (3 ≤ middle.place.column) × (middle.place.column + 3 < middle.frame.width) },
}

// Position in 1/256 pixel from the frame's top left, and brightness.
#[derive(Clone, Copy)]
pub struct Centroid {
    pub x: u64,
    pub y: u64,
    pub brightness: u64,
}

// The brightness, and the sums of weight times place along columns and along rows. Places count from 0, so nothing here is signed.
#[derive(Clone, Copy)]
pub struct Moments {
    pub brightness: u64,
    pub across: u64,
    pub down: u64,
}

// The sum of the border.
fn border_sum(window: Window) -> u64
    ensures { let p = window.entry.middle in (result ≡ border_sum p.frame.samples.now p.frame.width p.place.row p.place.column) × (result < 65536 * 24) }
{
    let Pixel { frame, place, .. } = window.middle;
    let mut sum = 0;
    for [r, c] in &BORDER {
        let row = place.row - 3 + r;
        let column = place.column - 3 + c;
        sum += u64::from(frame_window::sample(frame, row, column));
    }
    sum
}

// The weight of the inner pixel i rows and j columns from the inner part's top left; sum is the border's. Where the border outweighs the
// pixel it is 0.
fn weigh(window: Window, sum: u64, i: usize, j: usize) -> u64
    requires { let p = window.middle in (i < 5) × (j < 5) × (sum ≡ border_sum p.frame.samples.now p.frame.width p.place.row p.place.column) }
    ensures { let p = window.entry.middle in (result ≡ weight p.frame.samples.now p.frame.width p.place.row p.place.column i j) × (result < 65536 * 24) }
{
    let Pixel { frame, place, .. } = window.middle;
    let sample = frame_window::sample(frame, place.row - 2 + i, place.column - 2 + j);
    let mine = 24 * u64::from(sample);
    mine.saturating_sub(sum)
}

// The sums over the inner pixels of the window.
pub fn moments_at(window: Window) -> Moments
    ensures { let p = window.entry.middle in MomentsOf p.frame.samples.now p.frame.width p.place.row p.place.column result }
{
    let sum = border_sum(window);
    let mut brightness: u64 = 0;
    let mut across: u64 = 0;
    let mut down: u64 = 0;
    for i in 0..5 {
        for j in 0..5 {
            let weight = weigh(window, sum, i, j);
            brightness += weight;
            across += weight * (j as u64);
            down += weight * (i as u64);
        }
    }
    Moments {
        brightness,
        across,
        down,
    }
}

// The position along one side, in 1/256 pixel: the fraction is added or taken away, each quotient rounded toward zero.
#[tactic(auto, unfolding(crate::specs::Moments::position))]
fn place(base: usize, moment: u64, brightness: u64) -> u64
    requires { (0 < brightness) × (brightness ≤ 65536 * 600) × (moment ≤ 4 * brightness) × (3 ≤ base) × (base < 65536) }
    ensures { result ≡ position base moment brightness }
{
    let whole = 256 * (base as u64);
    let middle = 2 * brightness;
    if middle <= moment {
        whole + 256 * (moment - middle) / brightness
    } else {
        whole - 256 * (middle - moment) / brightness
    }
}

// The centroid that the sums of a window give, where there is any brightness; middle is the window's.
pub fn from_moments(middle: Place, moments: Moments) -> Centroid
    requires { Small moments × (3 ≤ middle.row) × (middle.row < 65536) × (3 ≤ middle.column) × (middle.column < 65536) }
    ensures { result ≡ from_moments middle.row middle.column moments }
{
    let brightness = moments.brightness;
    let x = place(middle.column, moments.across, brightness);
    let y = place(middle.row, moments.down, brightness);
    Centroid { x, y, brightness }
}
