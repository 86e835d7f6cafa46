// The eight neighbours of a pixel: the largest sample among them, and whether the pixel is lone.
ghost use Rattle.std.specs.Prelude.{◌≡◌, ◌+◌, ◌<◌, ◌≤◌};
ghost use Rattle.frame_window.specs.neighbours.Neighbours.{half, lone, largest_of_three, largest_beside};
ghost use Rattle.frame_window.specs.neighbours.Laws.{Amid};

use crate::{Frame, Pixel, Place, sample};

// The largest of three samples of a row: the one at column and those on either side.
fn largest_of_three(frame: Frame, row: usize, column: usize) -> u16
    requires { (row < frame.height) × (1 ≤ column) × (column + 1 < frame.width) }
    ensures { let f = frame.entry in result ≡ largest_of_three f.samples.now f.width row column }
{
    let left = sample(frame, row, column - 1);
    let middle = sample(frame, row, column);
    let right = sample(frame, row, column + 1);
    left.max(middle).max(right)
}

// The largest sample among the eight neighbours of a pixel that has all of them.
#[tactic(auto, unfolding(crate::specs::neighbours::Neighbours::largest_beside))]
pub fn largest_beside(pixel: Pixel) -> u16
    requires { Amid pixel.frame.width pixel.frame.height pixel.place.row pixel.place.column }
    ensures { let p = pixel.entry in result ≡ largest_beside p.frame.samples.now p.frame.width p.place.row p.place.column }
{
    let frame = pixel.frame;
    let Place { row, column } = pixel.place;
    let above = largest_of_three(frame, row - 1, column);
    let left = sample(frame, row, column - 1);
    let right = sample(frame, row, column + 1);
    let below = largest_of_three(frame, row + 1, column);
    above.max(below).max(left.max(right))
}

// Half the threshold, rounded down.
fn half_of(threshold: usize) -> usize
    ensures { result ≡ half threshold }
{
    threshold / 2
}

// Whether none of its eight neighbours reaches half the threshold.
pub fn is_lone(pixel: Pixel) -> bool
    requires { Amid pixel.frame.width pixel.frame.height pixel.place.row pixel.place.column }
    ensures { let p = pixel.entry in result ≡ lone p.frame.samples.now p.frame.width p.frame.height p.frame.threshold p.place.row p.place.column }
{
    usize::from(largest_beside(pixel)) < half_of(pixel.frame.threshold)
}
