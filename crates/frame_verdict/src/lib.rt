// The verdict on one pixel: the first that applies of dark, beaten, edge, lone and measured.
#![tactic(auto)]

ghost use Rattle.std.specs.Prelude.{◌≡◌, false, ◌≤◌};
ghost use Rattle.frame_window.specs.Window.{beaten};
ghost use Rattle.frame_verdict.specs.Verdict.{dark, edge, peak, peak_kind, kind_of, verdict_of, kind_number};

use frame_centroid::{Centroid, Window};
use frame_window::{Pixel, Place, neighbours};

#[derive(Clone, Copy)]
pub enum Kind {
    Dark,
    Beaten,
    Edge,
    Lone,
    Measured(Centroid),
}

#[derive(Clone, Copy)]
pub struct Verdict {
    pub row: usize,
    pub column: usize,
    pub kind: Kind,
}

// The number by which tables and files name a kind.
// Stays: the new form is no plainer. A kind may hold a centroid, so no cast numbers the kinds, and a `From` would hold this match.
pub fn kind_number(kind: Kind) -> u32
    ensures { result ≡ kind_number kind }
{
    match kind {
        Kind::Dark => 0,
        Kind::Beaten => 1,
        Kind::Edge => 2,
        Kind::Lone => 3,
        Kind::Measured(_) => 4,
    }
}

// Whether the pixel's sample is below the threshold.
fn is_dark(pixel: Pixel) -> bool
    ensures { let p = pixel.entry in result ≡ dark p.frame.samples.now p.frame.width p.frame.threshold p.place.row p.place.column }
{
    let Pixel { frame, place, .. } = pixel;
    usize::from(frame_window::sample(frame, place.row, place.column)) < frame.threshold
}

// Whether fewer than 3 columns or rows lie between the pixel and a side.
#[tactic(auto, unfolding(crate::specs::Verdict::edge))]
fn is_edge(pixel: Pixel) -> bool
    ensures { let p = pixel.entry in result ≡ edge p.frame.width p.frame.height p.place.row p.place.column }
{
    let frame = pixel.frame;
    let Place { row, column } = pixel.place;
    column < 3 || frame.width - 1 - column < 3 || row < 3 || frame.height - 1 - row < 3
}

// Whether the pixel is neither dark nor beaten. A dark one costs the test against the threshold and no more.
#[tactic(auto, unfolding(crate::specs::Verdict::peak))]
pub fn is_peak(pixel: Pixel) -> bool
    ensures { let p = pixel.entry in result ≡ peak p.frame.samples.now p.frame.width p.frame.height p.frame.threshold p.place.row p.place.column }
{
    !is_dark(pixel) && !frame_window::is_beaten(pixel)
}

// The kind of a pixel that is neither dark nor beaten. Where it is no edge it has all its neighbours, and its brightness is above 0 (`bright` of
// proofs/Bright), so the position's quotients exist.
// Stays: the bound on the sides is a `requires` here and below. The look and `is_peak` take a frame of any size, so that as a fact of a type it would need
// a second type about `Frame` and a third about `Pixel`.
#[tactic(auto, unfolding(crate::specs::Verdict::peak_kind))]
pub fn peak_kind(pixel: Pixel) -> Kind
    requires { let p = pixel in (p.frame.height ≤ 1024) × (p.frame.width ≤ 1024)
        × (beaten p.frame.samples.now p.frame.width p.frame.height p.place.row p.place.column ≡ false) }
    ensures { let p = pixel.entry in result ≡ peak_kind p.frame.samples.now p.frame.width p.frame.height p.frame.threshold p.place.row p.place.column }
{
    if is_edge(pixel) {
        return Kind::Edge;
    }
    if neighbours::is_lone(pixel) {
        return Kind::Lone;
    }
    let moments = frame_centroid::moments_at(Window { middle: pixel });
    Kind::Measured(frame_centroid::from_moments(pixel.place, moments))
}

// The kind of the pixel: the first that applies.
#[tactic(auto, unfolding(crate::specs::Verdict::kind_of))]
fn kind_at(pixel: Pixel) -> Kind
    requires { (pixel.frame.height ≤ 1024) × (pixel.frame.width ≤ 1024) }
    ensures { let p = pixel.entry in result ≡ kind_of p.frame.samples.now p.frame.width p.frame.height p.frame.threshold p.place.row p.place.column }
{
    if is_dark(pixel) {
        return Kind::Dark;
    }
    if frame_window::is_beaten(pixel) {
        return Kind::Beaten;
    }
    peak_kind(pixel)
}

// The verdict on the pixel.
pub fn verdict_at(pixel: Pixel) -> Verdict
    requires { (pixel.frame.height ≤ 1024) × (pixel.frame.width ≤ 1024) }
    ensures { let p = pixel.entry in result ≡ verdict_of p.frame.samples.now p.frame.width p.frame.height p.frame.threshold p.place.row p.place.column }
{
    let Place { row, column } = pixel.place;
    let kind = kind_at(pixel);
    Verdict { row, column, kind }
}
