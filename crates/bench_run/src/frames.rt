// Cases A to F and T to W: verdicts on pixels of 7 x 7 frames, and the counts of each frame's list.
use crate::say;
use frame_verdict::{Kind, Verdict};
use refusal::Refusal;
use std::io;

fn kind(rt: &impl Print, kind: Kind) -> io::Result<()> {
    match kind {
        Kind::Dark => say::text(rt, " dark"),
        Kind::Beaten => say::text(rt, " beaten"),
        Kind::Edge => say::text(rt, " edge"),
        Kind::Lone => say::text(rt, " lone"),
        Kind::Measured(star) => {
            say::text(rt, " measured")?;
            say::number(rt, star.x)?;
            say::number(rt, star.y)?;
            say::number(rt, star.brightness)
        }
    }
}

fn judgement(rt: &impl Print, judgement: Result<Verdict, Refusal>) -> io::Result<()> {
    match judgement {
        Err(refusal) => say::refused(rt, refusal),
        Ok(verdict) => {
            let found = verdict.kind;
            kind(rt, found)
        }
    }
}

// The verdict on one pixel.
fn pixel(
    rt: &impl Print,
    letter: &str,
    samples: &[u16],
    threshold: usize,
    row: usize,
    column: usize,
) -> io::Result<()> {
    say::text(rt, letter)?;
    judgement(rt, frame_list::judge(samples, 7, 7, threshold, row, column))?;
    say::end(rt)
}

// How many pixels of the frame are measured, edge and lone.
fn counts(rt: &impl Print, letter: &str, samples: &[u16], threshold: usize) -> io::Result<()> {
    say::text(rt, letter)?;
    let listing = frame_list::list(samples, 7, 7, threshold);
    let outcome = listing.outcome;
    match outcome {
        Err(refusal) => say::refused(rt, refusal)?,
        Ok(()) => {
            let report = listing.report;
            say::text(rt, " counts")?;
            say::number(rt, report.measured)?;
            say::number(rt, report.edge)?;
            say::number(rt, report.lone)?;
        }
    }
    say::end(rt)
}

// Whether the pixel's verdict is beaten.
fn is_beaten(samples: &[u16], threshold: usize, row: usize, column: usize) -> bool {
    let answer = frame_list::judge(samples, 7, 7, threshold, row, column);
    answer.is_ok_and(|verdict| matches!(verdict.kind, Kind::Beaten))
}

// How many pixels of the frame are beaten.
fn beaten_pixels(samples: &[u16], threshold: usize) -> usize {
    (0..49)
        .filter(|k| is_beaten(samples, threshold, k / 7, k % 7))
        .count()
}

fn beaten(rt: &impl Print, letter: &str, samples: &[u16], threshold: usize) -> io::Result<()> {
    say::text(rt, letter)?;
    say::text(rt, " beaten")?;
    say::number(rt, beaten_pixels(samples, threshold))?;
    say::end(rt)
}

// A frame that is dark but for some samples, each behind its place.
fn frame(lit: &[(usize, u16)]) -> [u16; 49] {
    let mut samples = [0u16; 49];
    for (place, sample) in lit {
        if let Some(dark) = samples.get_mut(*place) {
            *dark = *sample;
        }
    }
    samples
}

// The verdict on the pixel in the middle, and the counts.
fn middle(rt: &impl Print, letter: &str, lit: &[(usize, u16)], threshold: usize) -> io::Result<()> {
    let samples = frame(lit);
    pixel(rt, letter, &samples, threshold, 3, 3)?;
    counts(rt, letter, &samples, threshold)
}

fn case_b(rt: &impl Print) -> io::Result<()> {
    let samples = frame(&[(24, 100), (25, 100)]);
    pixel(rt, "B", &samples, 50, 3, 3)?;
    pixel(rt, "B", &samples, 50, 3, 4)?;
    counts(rt, "B", &samples, 50)
}

fn case_e(rt: &impl Print) -> io::Result<()> {
    let samples = frame(&[(23, 100)]);
    pixel(rt, "E", &samples, 50, 3, 2)?;
    counts(rt, "E", &samples, 50)
}

fn case_f(rt: &impl Print) -> io::Result<()> {
    let samples = [4095u16; 49];
    pixel(rt, "F", &samples, 4095, 0, 0)?;
    beaten(rt, "F", &samples, 4095)?;
    counts(rt, "F", &samples, 4095)
}

pub fn run(rt: &impl Print) -> io::Result<()> {
    middle(rt, "A", &[(24, 100)], 50)?;
    case_b(rt)?;
    middle(rt, "C", &[(24, 100), (23, 50)], 50)?;
    middle(rt, "D", &[(24, 100), (0, 24)], 50)?;
    case_e(rt)?;
    case_f(rt)
}

pub fn run_lone(rt: &impl Print) -> io::Result<()> {
    middle(rt, "T", &[(24, 100), (23, 50), (25, 50), (0, 24)], 50)?;
    middle(rt, "U", &[(24, 100), (16, 25)], 51)?;
    middle(rt, "V", &[(24, 100), (16, 24)], 51)?;
    middle(rt, "W", &[(24, 100)], 1)
}
