// Numbers and buffers read from a file, high byte first.
ghost use Rattle.std.specs.Prelude.{◌≡◌, ◌≤◌, ◌<◌, length, drop};
ghost use Rattle.playback.specs.Half.{signed_half};

use std::io::Read;

// Reads until the room is full, the file ends or a read fails. What is left of the room stays as it was.
// Stays: the loop, and not `read_exact`, which reads again after a read that was interrupted, without an end where each is. Behind a room that
// one read filled it reads once more, for no bytes; `Sparing` keeps that from a file.
fn fill(file: &mut impl Read, room: &mut [u8]) {
    let mut done = 0;
    for _ in 0..room.len() {
        let n = file.read(&mut room[done..]).unwrap_or(0);
        if n == 0 {
            break;
        }
        done += n;
    }
}

// The number that some bytes make; of more than 8 the last 8 count.
fn number(bytes: &[u8]) -> u64 {
    let mut value: u64 = 0;
    for byte in bytes {
        value = value % 0x100_0000_0000_0000 * 256 + u64::from(*byte);
    }
    value
}

// The next byte of the file, and 0 at its end.
pub fn byte(file: &mut impl Read) -> u64 {
    let mut one = [0u8; 1];
    fill(file, &mut one);
    number(&one)
}

// The next word of the file, 8 bytes.
pub fn word(file: &mut impl Read) -> u64 {
    let mut eight = [0u8; 8];
    fill(file, &mut eight);
    number(&eight)
}

// The next word, of which the last 4 bytes count.
pub fn half(file: &mut impl Read) -> u32 {
    (word(file) % 0x1_0000_0000) as u32
}

// The next word as a float's bits.
pub fn float(file: &mut impl Read) -> f64 {
    floats::float_of(word(file))
}

// How many bytes n elements have, at most as many as there is room for. So many that no recorded call has them fill the room.
fn size_of(n: u64, width: usize, most: usize) -> usize
    ensures { result ≤ most }
{
    if 3000000 <= n {
        return most;
    }
    (n as usize).saturating_mul(width).min(most)
}

// Goes on with the pattern in the first `from` bytes up to the room's end; with zeros where it is empty.
fn repeat(room: &mut [u8], from: usize) {
    if from == 0 {
        room.fill(0);
        return;
    }
    for i in from..room.len() {
        room[i] = room[i - from];
    }
}

// Reads one patch, an element's index and its bytes, into the element's place.
fn patch(file: &mut impl Read, width: usize, room: &mut [u8])
    requires { width ≤ 8 }
{
    let at = size_of(word(file), width, room.len());
    if room.len() - at < width {
        return;
    }
    fill(file, &mut room[at..at + width]);
}

fn patches(file: &mut impl Read, width: usize, room: &mut [u8])
    requires { width ≤ 8 }
{
    let count = word(file);
    for _ in 0..count {
        patch(file, width, room);
    }
}

// Reads a buffer of elements of some bytes each into the room, and answers how many bytes it has.
pub fn expand(file: &mut impl Read, width: usize, room: &mut [u8]) -> usize
    requires { width ≤ 8 }
    ensures { result ≤ length room.new }
{
    let size = size_of(word(file), width, room.len());
    let front = size_of(word(file), width, size);
    fill(file, &mut room[..front]);
    repeat(&mut room[..size], front);
    patches(file, width, room);
    size
}

// The number of 4 bytes, signed.
pub fn signed_half(n: u64) -> i32
    ensures { result ≡ signed_half n }
{
    let half = (n % 0x1_0000_0000) as u32;
    numbers::signed_32(half)
}

// The elements of some bytes each, at the start of the room, and how many there are.
fn elements<T: Copy, F: Fn(u64) -> T>(
    bytes: &[u8],
    width: usize,
    room: &mut [T],
    element: F,
) -> usize
    requires width_positive { 0 < width }
    requires callable { F.IsAlwaysCallable element }
    ensures upper_bound { result ≤ length room.new }
    ensures room_unchanged { drop result room.new ≡ drop result room.old }
{
    let count = (bytes.len() / width).min(room.len());
    for (place, bytes) in room[..count].iter_mut().zip(bytes.chunks_exact(width)) {
        *place = element(number(bytes));
    }
    count
}

// Reads a buffer of elements, and answers how many it has. `bytes` is room to expand it in.
fn read<T: Copy, F: Fn(u64) -> T>(
    file: &mut impl Read,
    width: usize,
    bytes: &mut [u8],
    room: &mut [T],
    element: F,
) -> usize
    requires width_in_range { (0 < width) × (width ≤ 8) }
    requires callable { F.IsAlwaysCallable element }
    ensures upper_bound { result ≤ length room.new }
    ensures room_unchanged { drop result room.new ≡ drop result room.old }
{
    let size = expand(file, width, bytes);
    elements(&bytes[..size], width, room, element)
}

// Reads a buffer of samples or of ranking words.
pub fn read_words(file: &mut impl Read, bytes: &mut [u8], room: &mut [u16]) -> usize
    ensures upper_bound { result ≤ length room.new }
    ensures room_unchanged { drop result room.new ≡ drop result room.old }
{
    read(file, 2, bytes, room, |n| (n % 65536) as u16)
}

// Reads a buffer of directions.
pub fn read_directions(file: &mut impl Read, bytes: &mut [u8], room: &mut [i32]) -> usize
    ensures upper_bound { result ≤ length room.new }
    ensures room_unchanged { drop result room.new ≡ drop result room.old }
{
    read(file, 4, bytes, room, signed_half)
}

// Reads a buffer of the attitude's numbers, or of a matrix.
pub fn read_wholes(file: &mut impl Read, bytes: &mut [u8], room: &mut [i64]) -> usize
    ensures upper_bound { result ≤ length room.new }
    ensures room_unchanged { drop result room.new ≡ drop result room.old }
{
    read(file, 8, bytes, room, numbers::signed)
}

// Reads a buffer of floats.
pub fn read_floats(file: &mut impl Read, bytes: &mut [u8], room: &mut [f64]) -> usize
    ensures upper_bound { result ≤ length room.new }
    ensures room_unchanged { drop result room.new ≡ drop result room.old }
{
    read(file, 8, bytes, room, floats::float_of)
}
