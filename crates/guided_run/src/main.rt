// A guided run: the frames of run.bin go through the frame's list and the guider, both by the C interface, as in a gimbal computer that keeps the guider's
// numbers between calls.
#![tactic(auto)]

use c_interface::{frame, guide};
use numbers::signed;
use playback::{Shot, Sparing, print_end, print_numbers, read_wholes, read_words, word};
use std::fs::File;
use std::io;

// A line: the frame's number, its refusal or 0, and identity, x, y and misses of the four guides.
fn print_step(rt: &impl Print, k: u64, list: &[i64], guider: &[i64]) -> io::Result<()> {
    print!(rt; "{k}")?;
    print_numbers(rt, list)?;
    if let Some(guides) = guider.get(2..) {
        print_numbers(rt, guides)?;
    }
    print_end(rt)
}

// One frame: its list, and the guider after it.
fn step(
    rt: &impl Print,
    k: u64,
    samples: &[u16],
    shot: Shot,
    guider: &mut [i64],
) -> io::Result<()> {
    let mut list = [0i64; 64];
    frame::mnemathor_list(samples, shot.width, shot.height, shot.threshold, &mut list);
    let mut out = [0i64; 64];
    guide::mnemathor_guider_frame(guider, &list, &mut out);
    print_step(rt, k, &list[..1], guider)
}

// The guider at its start, with the stars that the file has for it.
fn start(file: &mut Sparing<File>, half: i64, bytes: &mut [u8]) -> [i64; 18] {
    let mut stars = [0i64; 12];
    let n = read_wholes(file, bytes, &mut stars);
    let mut guider = [0i64; 18];
    let mut out = [0i64; 64];
    guide::mnemathor_guider_start(half, &stars[..n], &mut guider, &mut out);
    guider
}

// The start, and the frames one after the other.
fn run(rt: &impl Print, file: &mut Sparing<File>) -> io::Result<()> {
    let width = word(file) as usize;
    let height = word(file) as usize;
    let threshold = word(file) as usize;
    let shot = Shot {
        width,
        height,
        threshold,
    };
    let half = signed(word(file));
    let frames = word(file);
    let mut bytes = [0u8; 16384];
    let mut samples = [0u16; 8192];
    let mut guider = start(file, half, &mut bytes);
    for k in 0..frames {
        let n = read_words(file, &mut bytes, &mut samples);
        step(rt, k, &samples[..n], shot, &mut guider)?;
    }
    Ok(())
}

fn main(rt: HostRuntime) -> io::Result<()> {
    let inner = File::open(&rt, "run.bin")?;
    run(&rt, &mut Sparing { inner })
}
