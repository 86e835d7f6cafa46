// The desk: what people on the ground ask of files, one subcommand each. Wrong words get a line on standard error and nothing on standard output, by which
// the script `mnemathor` tells them from an answer.
#![tactic(auto)]

mod request;

ghost use Rattle.std.specs.Prelude.{◌≤◌, length};

use catalogue::{MOST_RECORDS, RECORD_SIZE};
use files::{MOST_SAMPLES, SETTINGS_SIZE};
use request::{Request, Subcommand};
use std::env::{Env, FillError};
use std::fs::{File, OpenFile};
use std::io::{Read, Write};
use std::rt::Files;
use std::{fs, io, str};

// Each buffer has room for one byte more than its file may have, so that a file that is too long is seen to be.
const SETTINGS_ROOM: usize = SETTINGS_SIZE + 1;

const FRAME_ROOM: usize = 2 * MOST_SAMPLES + 1;

const CATALOGUE_ROOM: usize = RECORD_SIZE * MOST_RECORDS + 1;

// An index of 512 stars has 130,816 records at most.
const INDEX_ROOM: usize = 1569792;

// No word is longer.
const WORD_ROOM: usize = 4096;

// One word more than any subcommand has with its own name.
const TOO_MANY: usize = 6;

// How many words the command line has behind the program's name, or that they are too many.
fn count(rt: &impl Env) -> usize
    ensures { result ≤ 6 }
{
    for i in 0..TOO_MANY {
        if matches!(rt.arg(i + 1, &mut []), Err(FillError::NotPresent)) {
            return i;
        }
    }
    TOO_MANY
}

// Word i of the command line, in the buffer: nothing where there is no such word, or it is too long.
fn word<'a>(rt: &impl Env, i: usize, buffer: &'a mut [u8]) -> &'a [u8] {
    let end = rt.arg(i, buffer).unwrap_or(0);
    &buffer[..end]
}

// Writes a line on standard error. Where that fails nobody can be told.
fn tell(rt: &impl Eprint, line: &str) {
    let _ = rt.eprintln(line);
}

// Writes an answer out. A write that failed is told on standard error, and its error ends the program.
fn show(rt: &(impl Print + Eprint), answer: &[u8]) -> io::Result<()> {
    let written = rt.write_all(answer);
    if written.is_err() {
        tell(rt, "desk: the answer was not written");
    }
    written
}

// Reads until the buffer is full, the file ends or a read fails, and answers how many bytes it put there.
// Stays: `fill`, `read` and `show` are those of `mnemathor`. `read` opens files, on which no library but the trials' rests; the other two are short and stay by it.
fn fill(file: &mut impl Read, buffer: &mut [u8]) -> usize
    ensures { result ≤ length buffer.new }
{
    let mut done = 0;
    for _ in 0..buffer.len() {
        let n = file.read(&mut buffer[done..]).unwrap_or(0);
        if n == 0 {
            break;
        }
        done += n;
    }
    done
}

// Reads a file into the buffer and answers how many bytes it put there. A missing file counts as empty.
fn read(rt: &impl Files, path: &str, buffer: &mut [u8]) -> usize
    ensures { result ≤ length buffer.new }
{
    match File::open(rt, path) {
        Ok(mut file) => fill(&mut file, buffer),
        Err(_) => 0,
    }
}

// The same of the file that a word names. The name of a file is UTF-8, and none with another name can be read.
fn read_named(rt: &impl Files, name: &[u8], buffer: &mut [u8]) -> usize
    ensures { result ≤ length buffer.new }
{
    match str::from_utf8(name) {
        Ok(path) => read(rt, path, buffer),
        Err(_) => 0,
    }
}

// Why the pixel at row, column is not a star.
fn why(rt: &(impl Files + Print + Eprint), row: usize, column: usize) -> io::Result<()> {
    let mut settings = [0u8; SETTINGS_ROOM];
    let n = read(rt, "settings.bin", &mut settings);
    let mut frame = [0u8; FRAME_ROOM];
    let m = read(rt, "frame.bin", &mut frame);
    let mut line = [0u8; desk_lines::LINE];
    let end = desk_lines::why(&settings[..n], &frame[..m], row, column, &mut line);
    show(rt, &line[..end])
}

// Puts the bytes into the file.
fn put(file: &mut (impl Write + OpenFile), bytes: &[u8]) -> io::Result<()> {
    file.write_all(bytes)?;
    file.sync_all()
}

// Makes the file, which must not be there, and puts the bytes into it. A write that failed is told by a line of its own, of which the script makes a status,
// and leaves no file.
fn save(
    rt: &(impl Files + Print + Eprint),
    path: &str,
    bytes: &[u8],
    answer: &[u8],
) -> io::Result<()> {
    match File::create_new(rt, path) {
        Ok(mut file) => {
            if put(&mut file, bytes).is_ok() {
                return show(rt, answer);
            }
            let _ = fs::remove_file(rt, path);
            show(rt, b"not written\n")
        }
        Err(e) => {
            let _ = eprintln!(rt; "{path}: {e}");
            Ok(())
        }
    }
}

// Saves what was made under the name that a word gives.
fn keep(
    rt: &(impl Files + Print + Eprint),
    out: &[u8],
    bytes: &[u8],
    answer: &[u8],
) -> io::Result<()> {
    match str::from_utf8(out) {
        Ok(path) => save(rt, path, bytes, answer),
        Err(_) => {
            tell(rt, "desk: the file's name is not UTF-8");
            Ok(())
        }
    }
}

// The index of a catalogue's bytes, made in the lent room, and saved.
fn make(
    rt: &(impl Files + Print + Eprint),
    catalogue: &[u8],
    floor: i64,
    index: &mut [u8],
    out: &[u8],
) -> io::Result<()> {
    let mut line = [0u8; desk_lines::LINE];
    let made = desk_lines::index::index(catalogue, floor, index, &mut line);
    match made.bytes {
        Some(bytes) => keep(rt, out, &index[..bytes], &line[..made.line]),
        None => show(rt, &line[..made.line]),
    }
}

// The index of the catalogue that a word names.
fn index(
    rt: &(impl Files + Print + Eprint),
    name: &[u8],
    floor: i64,
    out: &[u8],
) -> io::Result<()> {
    let mut catalogue = [0u8; CATALOGUE_ROOM];
    let end = read_named(rt, name, &mut catalogue);
    let mut index = [0u8; INDEX_ROOM];
    make(rt, &catalogue[..end], floor, &mut index, out)
}

// Cuts a catalogue in its buffer, and saves the records that are kept.
fn trim(
    rt: &(impl Files + Print + Eprint),
    catalogue: &mut [u8],
    limit: i32,
    closeness: i64,
    out: &[u8],
) -> io::Result<()> {
    let mut line = [0u8; desk_lines::LINE];
    let made = desk_lines::cut::cut_text(catalogue, limit, closeness, &mut line);
    match made.bytes {
        Some(bytes) => keep(rt, out, &catalogue[..bytes], &line[..made.line]),
        None => show(rt, &line[..made.line]),
    }
}

// The cut of the catalogue that a word names.
fn cut(
    rt: &(impl Files + Print + Eprint),
    name: &[u8],
    limit: i32,
    closeness: i64,
    out: &[u8],
) -> io::Result<()> {
    let mut catalogue = [0u8; CATALOGUE_ROOM];
    let end = read_named(rt, name, &mut catalogue);
    trim(rt, &mut catalogue[..end], limit, closeness, out)
}

// What changed from the one catalogue to the other.
fn compare(rt: &(impl Files + Print + Eprint), old: &[u8], new: &[u8]) -> io::Result<()> {
    let mut first = [0u8; CATALOGUE_ROOM];
    let n = read_named(rt, old, &mut first);
    let mut second = [0u8; CATALOGUE_ROOM];
    let m = read_named(rt, new, &mut second);
    let mut lines = [0u8; desk_lines::compare::ROOM];
    let end = desk_lines::compare::compare_text(&first[..n], &second[..m], &mut lines);
    show(rt, &lines[..end])
}

// Whether what the three files show has a rival.
fn rival(rt: &(impl Files + Print + Eprint)) -> io::Result<()> {
    let mut settings = [0u8; SETTINGS_ROOM];
    let n = read(rt, "settings.bin", &mut settings);
    let mut frame = [0u8; FRAME_ROOM];
    let m = read(rt, "frame.bin", &mut frame);
    let mut catalogue = [0u8; CATALOGUE_ROOM];
    let k = read(rt, "catalogue.bin", &mut catalogue);
    let mut room = [0u8; listing::ROOM];
    let end = listing::rival::rival(&settings[..n], &frame[..m], &catalogue[..k], &mut room);
    show(rt, &room[..end])
}

fn answer(rt: &(impl Files + Print + Eprint), request: Request<'_>) -> io::Result<()> {
    match request {
        Request::Why { row, column } => why(rt, row, column),
        Request::Index {
            catalogue,
            floor,
            out,
        } => index(rt, catalogue, floor, out),
        Request::Cut {
            catalogue,
            limit,
            closeness,
            out,
        } => cut(rt, catalogue, limit, closeness, out),
        Request::Compare { old, new } => compare(rt, old, new),
        Request::Rival => rival(rt),
    }
}

// Answers what the words behind a subcommand ask, or tells how it is called.
fn run(
    rt: &(impl Files + Print + Eprint),
    subcommand: Subcommand,
    words: &[&[u8]],
) -> io::Result<()> {
    match request::asked(subcommand, words) {
        Some(request) => answer(rt, request),
        None => {
            tell(rt, subcommand.usage());
            Ok(())
        }
    }
}

fn main(rt: HostRuntime) -> io::Result<()> {
    let mut first = [0u8; WORD_ROOM];
    let first = word(&rt, 1, &mut first);
    let mut second = [0u8; WORD_ROOM];
    let second = word(&rt, 2, &mut second);
    let mut third = [0u8; WORD_ROOM];
    let third = word(&rt, 3, &mut third);
    let mut fourth = [0u8; WORD_ROOM];
    let fourth = word(&rt, 4, &mut fourth);
    let mut fifth = [0u8; WORD_ROOM];
    let fifth = word(&rt, 5, &mut fifth);
    let words = [first, second, third, fourth, fifth, &[]];
    match &words[..count(&rt)] {
        [subcommand, rest @ ..] => run(&rt, Subcommand::from(*subcommand), rest),
        [] => run(&rt, Subcommand::Why, &[]),
    }
}
