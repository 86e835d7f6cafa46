// Why a pixel is not a star: the verdict's kind, with what decided it.
#![tactic(auto)]

ghost use Rattle.std.specs.Prelude.{◌≡◌, false, ◌≤◌};
ghost use Rattle.frame_window.specs.Window.{beaten};
ghost use Rattle.frame_reason.specs.Side.{first_side, side_number};
ghost use Rattle.frame_reason.specs.Reason.{peak_reason, reason_of, explanation_of, kind_in, reason_number, values_in, explanation_answer, answer_for};

use frame_centroid::Centroid;
use frame_list::input;
use frame_verdict::Kind;
use frame_window::{Frame, Pixel, Place, neighbours};
use refusal::Refusal;

// A side of the frame.
#[derive(Clone, Copy)]
pub enum Side {
    Left,
    Right,
    Top,
    Bottom,
}

#[derive(Clone, Copy)]
pub enum Reason {
    // its sample and the threshold that it does not reach
    Dark(u16, usize),
    // row and column of the first pixel that beats it
    Beaten(usize, usize),
    // the first side that is too near
    Edge(Side),
    // the largest sample among its eight neighbours
    Lone(u16),
    Measured(Centroid),
}

// What a reason names, in numbers: zeros where it names fewer than three.
#[derive(Clone, Copy)]
pub struct Values {
    pub first: u64,
    pub second: u64,
    pub third: u64,
}

// The number by which tables and files name a side.
pub fn side_number(side: Side) -> u32
    ensures { result ≡ side_number side }
{
    side as u32
}

// The verdict's kind that a reason is for.
// Stays: the new form is no plainer. A `From` would hold this match, and the call is promised by this name.
pub fn kind_of(reason: Reason) -> Kind
    ensures { result ≡ kind_in reason }
{
    match reason {
        Reason::Dark(_, _) => Kind::Dark,
        Reason::Beaten(_, _) => Kind::Beaten,
        Reason::Edge(_) => Kind::Edge,
        Reason::Lone(_) => Kind::Lone,
        Reason::Measured(centroid) => Kind::Measured(centroid),
    }
}

// A reason's number is its kind's.
pub fn reason_number(reason: Reason) -> u32
    ensures { result ≡ reason_number reason }
{
    frame_verdict::kind_number(kind_of(reason))
}

pub fn values_of(reason: Reason) -> Values
    ensures { result ≡ values_in reason }
{
    match reason {
        Reason::Dark(sample, threshold) => Values {
            first: u64::from(sample),
            second: threshold as u64,
            third: 0,
        },
        Reason::Beaten(row, column) => Values {
            first: row as u64,
            second: column as u64,
            third: 0,
        },
        Reason::Edge(side) => Values {
            first: u64::from(side_number(side)),
            second: 0,
            third: 0,
        },
        Reason::Lone(largest) => Values {
            first: u64::from(largest),
            second: 0,
            third: 0,
        },
        Reason::Measured(centroid) => Values {
            first: centroid.x,
            second: centroid.y,
            third: centroid.brightness,
        },
    }
}

// Of the sides that are too near the pixel, the first in the order left, right, top, bottom.
#[tactic(auto, unfolding(crate::specs::Side::first_side))]
fn first_side(pixel: Pixel) -> Side
    ensures { let p = pixel.entry in result ≡ first_side p.frame.width p.frame.height p.place.row p.place.column }
{
    let frame = pixel.frame;
    let Place { row, column } = pixel.place;
    if column < 3 {
        return Side::Left;
    }
    if frame.width - 1 - column < 3 {
        return Side::Right;
    }
    if row < 3 {
        return Side::Top;
    }
    Side::Bottom
}

// The reason for a pixel that is neither dark nor beaten: one that is neither lone nor measured is at the edge.
#[tactic(auto, unfolding(crate::specs::Reason::peak_reason, frame_verdict::specs::Verdict::peak_kind))]
fn peak_reason(pixel: Pixel) -> Reason
    requires { let p = pixel in (p.frame.height ≤ 1024) × (p.frame.width ≤ 1024)
        × (beaten p.frame.samples.now p.frame.width p.frame.height p.place.row p.place.column ≡ false) }
    ensures { let p = pixel.entry in result ≡ peak_reason p.frame.samples.now p.frame.width p.frame.height p.frame.threshold p.place.row p.place.column }
{
    match frame_verdict::peak_kind(pixel) {
        Kind::Measured(centroid) => Reason::Measured(centroid),
        Kind::Lone => Reason::Lone(neighbours::largest_beside(pixel)),
        _ => Reason::Edge(first_side(pixel)),
    }
}

// The tests in the verdict's order, and the same look through the window.
#[tactic(auto, unfolding(crate::specs::Reason::reason_of, frame_window::specs::Window::first_beating))]
fn reason_at(pixel: Pixel) -> Reason
    requires { (pixel.frame.height ≤ 1024) × (pixel.frame.width ≤ 1024) }
    ensures { let p = pixel.entry in result ≡ reason_of p.frame.samples.now p.frame.width p.frame.height p.frame.threshold p.place.row p.place.column }
{
    let Pixel { frame, place, .. } = pixel;
    let sample = frame_window::sample(frame, place.row, place.column);
    if usize::from(sample) < frame.threshold {
        return Reason::Dark(sample, frame.threshold);
    }
    match frame_window::first_beating(pixel) {
        Some(other) => Reason::Beaten(other.row, other.column),
        None => peak_reason(pixel),
    }
}

// Why the pixel at row, column is not a star, or that it is one.
#[tactic(auto, unfolding(crate::specs::Reason::explanation_of))]
pub fn explain(
    samples: &[u16],
    width: usize,
    height: usize,
    threshold: usize,
    row: usize,
    column: usize,
) -> Result<Reason, Refusal>
    ensures value { result ≡ explanation_of samples.now width height threshold row column }
    ensures result_value { explanation_answer result ≡ answer_for samples.now width height threshold row column }
{
    input::pixel_outcome(samples, width, height, threshold, row, column)?;
    let frame = Frame {
        samples,
        width,
        height,
        threshold,
    };
    let place = Place { row, column };
    Ok(reason_at(Pixel { frame, place }))
}
