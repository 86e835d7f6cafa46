// Reads settings.bin, catalogue.bin and frame.bin of the current folder, and writes the listing on standard output.
#![tactic(auto)]

ghost use Rattle.std.specs.Prelude.{◌≤◌, length};

use catalogue::{MOST_RECORDS, RECORD_SIZE};
use files::{MOST_SAMPLES, SETTINGS_SIZE};
use std::fs::File;
use std::io;
use std::io::Read;
use std::rt::Files;

// Each buffer has room for one byte more than its file may have, so that a file that is too long is seen to be.
const SETTINGS_ROOM: usize = SETTINGS_SIZE + 1;

const FRAME_ROOM: usize = 2 * MOST_SAMPLES + 1;

const CATALOGUE_ROOM: usize = RECORD_SIZE * MOST_RECORDS + 1;

// Reads until the buffer is full, the file ends or a read fails, and answers how many bytes it put there.
// Stays: `fill`, `read` and `show` are the desk's too. `read` opens files, on which no library but the trials' rests; the other two are short and stay by it.
fn fill(file: &mut impl Read, buffer: &mut [u8]) -> usize
    ensures { result ≤ length buffer.new }
{
    let mut done = 0;
    for _ in 0..buffer.len() {
        let n = file.read(&mut buffer[done..]).unwrap_or(0);
        if n == 0 {
            break;
        }
        done += n;
    }
    done
}

// Reads a file into the buffer and answers how many bytes it put there. A missing file counts as empty.
fn read(rt: &impl Files, path: &str, buffer: &mut [u8]) -> usize
    ensures { result ≤ length buffer.new }
{
    match File::open(rt, path) {
        Ok(mut file) => fill(&mut file, buffer),
        Err(_) => 0,
    }
}

// Writes the listing out. A write that failed is told on standard error, and its error ends the program.
fn show(rt: &(impl Print + Eprint), listing: &[u8]) -> io::Result<()> {
    let written = rt.write_all(listing);
    if written.is_err() {
        let _ = rt.eprintln("mnemathor: the listing was not written");
    }
    written
}

fn main(rt: HostRuntime) -> io::Result<()> {
    let mut settings = [0u8; SETTINGS_ROOM];
    let n = read(&rt, "settings.bin", &mut settings);
    let mut frame = [0u8; FRAME_ROOM];
    let m = read(&rt, "frame.bin", &mut frame);
    let mut catalogue = [0u8; CATALOGUE_ROOM];
    let k = read(&rt, "catalogue.bin", &mut catalogue);
    let mut room = [0u8; listing::ROOM];
    let end = listing::write(&settings[..n], &frame[..m], &catalogue[..k], &mut room);
    show(&rt, &room[..end])
}
