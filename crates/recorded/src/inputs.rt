// What the calls are given: numbers that go together, and buffers in rooms that are lent.
use numbers::signed;
use playback::{
    Shot, Sparing, expand, float, half, read_directions, read_floats, read_wholes, read_words, word,
};
use std::fs::File;

// The lens plate: which form of it, and its two numbers.
// Stays: a number for the kind: the C interface takes one, and calls with a number that is no kind are recorded too.
#[derive(Clone, Copy)]
pub struct Plate {
    pub kind: u32,
    pub first: f64,
    pub second: f64,
}

impl Plate {
    pub fn read(file: &mut Sparing<File>) -> Plate {
        let kind = half(file);
        let first = float(file);
        let second = float(file);
        Plate {
            kind,
            first,
            second,
        }
    }
}

// The camera's centre, and its lens plate.
#[derive(Clone, Copy)]
pub struct Camera {
    pub cx: i64,
    pub cy: i64,
    pub plate: Plate,
}

impl Camera {
    pub fn read(file: &mut Sparing<File>) -> Camera {
        let cx = signed(word(file));
        let cy = signed(word(file));
        let plate = Plate::read(file);
        Camera { cx, cy, plate }
    }
}

// The sides and the threshold of the next frame.
pub fn shot(file: &mut Sparing<File>) -> Shot {
    let width = word(file) as usize;
    let height = word(file) as usize;
    let threshold = word(file) as usize;
    Shot {
        width,
        height,
        threshold,
    }
}

// The next buffer, in the front of its room.
pub fn bytes<'a>(file: &mut Sparing<File>, room: &'a mut [u8]) -> &'a mut [u8] {
    let n = expand(file, 1, room);
    &mut room[..n]
}

// Stays: two lines each, and one function for the four would take the reader as a closure, with a clause over all its calls that the count is within the room.
pub fn words<'a>(file: &mut Sparing<File>, bytes: &mut [u8], room: &'a mut [u16]) -> &'a mut [u16] {
    let n = read_words(file, bytes, room);
    &mut room[..n]
}

pub fn directions<'a>(
    file: &mut Sparing<File>,
    bytes: &mut [u8],
    room: &'a mut [i32],
) -> &'a mut [i32] {
    let n = read_directions(file, bytes, room);
    &mut room[..n]
}

pub fn wholes<'a>(
    file: &mut Sparing<File>,
    bytes: &mut [u8],
    room: &'a mut [i64],
) -> &'a mut [i64] {
    let n = read_wholes(file, bytes, room);
    &mut room[..n]
}

pub fn floats<'a>(
    file: &mut Sparing<File>,
    bytes: &mut [u8],
    room: &'a mut [f64],
) -> &'a mut [f64] {
    let n = read_floats(file, bytes, room);
    &mut room[..n]
}
