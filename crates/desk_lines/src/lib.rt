// What the desk answers to two files and a pixel, as a line in a lent room.
#![tactic(auto)]

pub mod compare;
pub mod cut;
pub mod file_line;
pub mod index;
mod pixel;
mod worded;

pub use pixel::why;

// The bytes that a room for any line has.
pub const LINE: usize = 128;
