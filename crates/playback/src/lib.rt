// What programs that play recorded calls share: numbers and buffers read from a file, and lines of numbers put out.
#![tactic(auto)]

mod print; // print.rt: lines of numbers
mod shot; // shot.rt: what a recorded frame comes with
mod sparing; // sparing.rt: a reader that is not asked for nothing
mod stream; // stream.rt: numbers and buffers
#[cfg(test)]
mod tests; // tests.rt: reads that are interrupted

pub use print::{
    bytes_checksum, checksum, print_call, print_end, print_floats, print_more, print_numbers,
};
pub use shot::Shot;
pub use sparing::Sparing;
pub use stream::{
    byte, expand, float, half, read_directions, read_floats, read_wholes, read_words, signed_half,
    word,
};
