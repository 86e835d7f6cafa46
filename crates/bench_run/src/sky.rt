// Cases G to S: directions, attitudes, direction cosines and searches.
use crate::say;
use attitude_gimbal::Cosines;
use camera_direction::camera;
use refusal::Refusal;
use std::io;
use vectors::Vec3;

const UNIT: i64 = 1000000000;

fn direction(rt: &impl Print, letter: &str, cx: i64, x: i64) -> io::Result<()> {
    say::text(rt, letter)?;
    let answer = camera::direction_of(cx, 0, camera_lens::of_settings(16384), x, 0);
    match answer {
        Err(refusal) => say::refused(rt, refusal)?,
        Ok(v) => say::vector(rt, v)?,
    }
    say::end(rt)
}

fn attitude(
    rt: &impl Print,
    letter: &str,
    v1: Vec3,
    v2: Vec3,
    w1: Vec3,
    w2: Vec3,
) -> io::Result<()> {
    say::text(rt, letter)?;
    let answer = attitude::triad(v1, v2, w1, w2);
    match answer {
        Err(refusal) => say::refused(rt, refusal)?,
        Ok(matrix) => {
            for row in [matrix.row0, matrix.row1, matrix.row2] {
                say::vector(rt, row)?;
            }
        }
    }
    say::end(rt)
}

// What the gimbal computer is sent: each float by its bits.
fn rows(rt: &impl Print, gimbal: Result<Cosines, Refusal>) -> io::Result<()> {
    match gimbal {
        Err(refusal) => say::refused(rt, refusal),
        Ok(cosines) => {
            for row in [cosines.row0, cosines.row1, cosines.row2] {
                say::triple(rt, row)?;
            }
            Ok(())
        }
    }
}

fn cosines(
    rt: &impl Print,
    letter: &str,
    v1: Vec3,
    v2: Vec3,
    w1: Vec3,
    w2: Vec3,
) -> io::Result<()> {
    say::text(rt, letter)?;
    say::text(rt, " cosines")?;
    let answer = attitude::triad(v1, v2, w1, w2);
    match answer {
        Err(refusal) => say::refused(rt, refusal)?,
        Ok(matrix) => rows(rt, attitude_gimbal::cosines_of(matrix))?,
    }
    say::end(rt)
}

// A star's record number, or "-" for none, which is the number of stars.
fn star(rt: &impl Print, word: u16) -> io::Result<()> {
    if word < 3 {
        say::number(rt, word)
    } else {
        say::text(rt, " -")
    }
}

// The stars of the first directions: three, or four where there is a fourth.
fn stars(rt: &impl Print, words: [u16; 8], directions: usize) -> io::Result<()> {
    for word in words.iter().take(directions.max(3).min(4)) {
        star(rt, *word)?;
    }
    Ok(())
}

// A catalogue of three stars, a needed count of 3, and a tolerance.
fn search(
    rt: &impl Print,
    letter: &str,
    directions: &[i32],
    catalogue: &[u8],
    tolerance: u64,
    ranking: &[u16],
) -> io::Result<()> {
    say::text(rt, letter)?;
    let answer = search::search(directions, catalogue, 3, tolerance, ranking);
    let outcome = answer.outcome;
    match outcome {
        Err(refusal) => say::refused(rt, refusal)?,
        Ok(()) => {
            let words = answer.stars;
            stars(rt, words, directions.len() / 3)?;
        }
    }
    say::end(rt)
}

// Whose stars are the three axes, as records 1, 2 and 3; 10^9 is 3b 9a ca 00 in bytes, and the magnitude of each 2,500, 00 00 09 c4.
fn search_axes(
    rt: &impl Print,
    letter: &str,
    directions: &[i32],
    ranking: &[u16],
) -> io::Result<()> {
    let axes =
        b"\0\0\0\x01\x3b\x9a\xca\0\0\0\0\0\0\0\0\0\0\0\x09\xc4\0\0\0\x02\0\0\0\0\x3b\x9a\xca\0\0\0\0\0\0\0\x09\xc4\0\0\0\x03\0\0\0\0\0\0\0\0\x3b\x9a\xca\0\0\0\x09\xc4";
    search(rt, letter, directions, axes, 0, ranking)
}

fn vectors(rt: &impl Print) -> io::Result<()> {
    let right = Vec3 {
        x: UNIT,
        y: 0,
        z: 0,
    };
    let down = Vec3 {
        x: 0,
        y: UNIT,
        z: 0,
    };
    let out = Vec3 {
        x: 0,
        y: 0,
        z: UNIT,
    };
    direction(rt, "G", 12288, 12288)?;
    direction(rt, "H", 12288, 0)?;
    attitude(rt, "I", out, right, out, right)?;
    cosines(rt, "I", out, right, out, right)?;
    attitude(rt, "J", out, down, out, right)?;
    cosines(rt, "J", out, down, out, right)?;
    attitude(rt, "K", out, out, out, right)
}

fn searches(rt: &impl Print) -> io::Result<()> {
    let three = [1000000000i32, 0, 0, 0, 1000000000, 0, 0, 0, 1000000000];
    search_axes(rt, "L", &three, &[0u16, 1, 2, 0, 1, 2, 0, 1, 2])?;
    search_axes(rt, "M", &three, &[2u16, 1, 0, 0, 1, 2, 0, 1, 2])?;
    let two = [1000000000i32, 0, 0, 0, 1000000000, 0];
    search_axes(rt, "N", &two, &[0u16, 1, 2, 0, 1, 2])?;
    let four = [
        600000000i32,
        800000000,
        0,
        1000000000,
        0,
        0,
        0,
        1000000000,
        0,
        0,
        0,
        1000000000,
    ];
    search_axes(rt, "O", &four, &[0u16, 1, 2, 0, 1, 2, 0, 1, 2, 0, 1, 2])
}

// The rule over threes. 600,000,000 is 23 c3 46 00, its opposite dc 3c ba 00, 800,000,000 2f af 08 00, and -1,000 ff ff fc 18.
fn mirrors(rt: &impl Print) -> io::Result<()> {
    let rising = [0u16, 1, 2, 0, 1, 2, 0, 1, 2];
    let listed = [
        -600000000i32,
        0,
        800000000,
        600000000,
        0,
        800000000,
        0,
        600000000,
        800000000,
    ];
    let exchanged =
        b"\0\0\0\x0b\x23\xc3\x46\0\0\0\0\0\x2f\xaf\x08\0\0\0\x09\xc4\0\0\0\x16\xdc\x3c\xba\0\0\0\0\0\x2f\xaf\x08\0\0\0\x09\xc4\0\0\0\x21\0\0\0\0\x23\xc3\x46\0\x2f\xaf\x08\0\0\0\x09\xc4";
    search(
        rt,
        "P",
        &listed,
        exchanged,
        0,
        &[0u16, 1, 2, 0, 1, 2, 2, 0, 1],
    )?;
    let small = [
        1000000000i32,
        0,
        0,
        600000000,
        800000000,
        0,
        0,
        1000000000,
        1000,
    ];
    let small_turn =
        b"\0\0\0\x01\x3b\x9a\xca\0\0\0\0\0\0\0\0\0\0\0\x09\xc4\0\0\0\x02\x23\xc3\x46\0\x2f\xaf\x08\0\0\0\0\0\0\0\x09\xc4\0\0\0\x03\0\0\0\0\x3b\x9a\xca\0\xff\xff\xfc\x18\0\0\x09\xc4";
    search(rt, "Q", &small, small_turn, 0, &rising)?;
    let least = [
        1000000000i32,
        0,
        0,
        0,
        1000000000,
        0,
        600000000,
        800000000,
        1000,
    ];
    let least_turn =
        b"\0\0\0\x01\x3b\x9a\xca\0\0\0\0\0\0\0\0\0\0\0\x09\xc4\0\0\0\x02\0\0\0\0\x3b\x9a\xca\0\0\0\0\0\0\0\x09\xc4\0\0\0\x03\x23\xc3\x46\0\x2f\xaf\x08\0\xff\xff\xfc\x18\0\0\x09\xc4";
    search(rt, "R", &least, least_turn, 0, &rising)?;
    let less = [
        999999000i32,
        0,
        0,
        0,
        1000000000,
        1000,
        1000000000,
        -1000,
        1000,
    ];
    let third_turn =
        b"\0\0\0\x01\x3b\x9a\xca\0\0\0\0\0\0\0\0\0\0\0\x09\xc4\0\0\0\x02\0\0\0\0\x3b\x9a\xca\0\0\0\0\0\0\0\x09\xc4\0\0\0\x03\x3b\x9a\xca\0\0\0\0\0\xff\xff\xfc\x18\0\0\x09\xc4";
    search(rt, "S", &less, third_turn, 10000000000000, &rising)
}

pub fn run(rt: &impl Print) -> io::Result<()> {
    vectors(rt)?;
    searches(rt)?;
    mirrors(rt)
}
