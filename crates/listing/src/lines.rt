// The lines of the listing, each put at a place of the room.
ghost use Rattle.std.specs.Prelude.{◌≡◌, ◌+◌, ◌<◌, ◌≤◌, min, is_some};
ghost use Rattle.text.specs.Written.{Wrote};
ghost use Rattle.listing.specs.lines.Lines.{counts_line, shown, shown_in, star_place, star_line, star_lines, report_lines, row_line, matrix_lines};
ghost use Rattle.listing.specs.lines.Given.{word_in, words_in, word_of};

use attitude::Matrix;
use frame_centroid::Centroid;
use frame_list::Report;
use vectors::Vec3;

// How many stars a list has at most.
const MOST_STARS: usize = 8;

// The counts of the whole frame.
fn counts(room: &mut [u8], at: usize, report: Report) -> usize
    ensures wrote { Wrote room.old at (counts_line report) room.new result }
    ensures upper_bound { result ≤ at + 82 }
{
    let measured = text::labelled(room, at, b"measured ", report.measured as u64);
    let edge = text::labelled(room, measured, b" edge ", report.edge as u64);
    let lone = text::labelled(room, edge, b" lone ", report.lone as u64);
    text::word(room, lone, b"\n")
}

// The identity of the star that a word names, or "-" where it names none or is not shown.
fn name(room: &mut [u8], at: usize, word: Option<u16>, catalogue: &[u8]) -> usize
    ensures wrote { Wrote room.old at (shown (is_some word) catalogue.now (word_in word)) room.new result }
    ensures upper_bound { result ≤ at + 20 }
{
    let Some(word) = word else {
        return text::word(room, at, b"-");
    };
    let i = word as usize;
    if catalogue::records(catalogue) <= i {
        return text::word(room, at, b"-");
    }
    text::number(room, at, catalogue::identity(catalogue, i) as u64)
}

// The number, position and brightness of a listed star.
fn place(room: &mut [u8], at: usize, k: usize, star: Centroid) -> usize
    ensures wrote { Wrote room.old at (star_place k star) room.new result }
    ensures upper_bound { result ≤ at + 84 }
{
    let number = text::number(room, at, k as u64);
    let x = text::labelled(room, number, b" ", star.x);
    let y = text::labelled(room, x, b" ", star.y);
    let brightness = text::labelled(room, y, b" ", star.brightness);
    text::word(room, brightness, b" ")
}

// The line of a listed star.
fn star(
    room: &mut [u8],
    at: usize,
    k: usize,
    star: Centroid,
    word: Option<u16>,
    catalogue: &[u8],
) -> usize
    ensures wrote { Wrote room.old at (star_line k star (shown (is_some word) catalogue.now (word_in word))) room.new result }
    ensures upper_bound { result ≤ at + 105 }
{
    let placed = place(room, at, k, star);
    let named = name(room, placed, word, catalogue);
    text::word(room, named, b"\n")
}

// The word of a listed star, where names are shown.
fn word_of(words: Option<[u16; 8]>, k: usize) -> Option<u16>
    requires { k < 8 }
    ensures { result ≡ word_of words k }
{
    let words = words?;
    Some(words[k])
}

// The lines of the first `count` stars.
fn star_lines(
    room: &mut [u8],
    at: usize,
    stars: [Centroid; 8],
    count: usize,
    words: Option<[u16; 8]>,
    catalogue: &[u8],
) -> usize
    requires { count ≤ 8 }
    ensures wrote { Wrote room.old at (star_lines stars (shown_in (is_some words) catalogue.now (words_in words)) count)
        room.new result }
    ensures upper_bound { result ≤ at + 840 }
{
    let mut next = at;
    for k in 0..count {
        next = star(room, next, k, stars[k], word_of(words, k), catalogue);
    }
    next
}

// A line for each listed star, with the names of an assignment's words or with none.
pub fn stars(
    room: &mut [u8],
    at: usize,
    report: Report,
    words: Option<[u16; 8]>,
    catalogue: &[u8],
) -> usize
    ensures wrote { Wrote room.old at
        (star_lines report.stars (shown_in (is_some words) catalogue.now (words_in words)) (min 8 report.count)) room.new result }
    ensures upper_bound { result ≤ at + 840 }
{
    let count = report.count.min(MOST_STARS);
    star_lines(room, at, report.stars, count, words, catalogue)
}

// The counts, and a line for each listed star.
pub fn report(
    room: &mut [u8],
    at: usize,
    report: Report,
    words: Option<[u16; 8]>,
    catalogue: &[u8],
) -> usize
    ensures wrote { Wrote room.old at (report_lines report (shown_in (is_some words) catalogue.now (words_in words)))
        room.new result }
    ensures upper_bound { result ≤ at + 922 }
{
    let first = counts(room, at, report);
    stars(room, first, report, words, catalogue)
}

// A row of the matrix.
fn row(room: &mut [u8], at: usize, row: Vec3) -> usize
    ensures wrote { Wrote room.old at (row_line row) room.new result }
    ensures upper_bound { result ≤ at + 66 }
{
    let x = text::signed(room, at, row.x);
    let before_y = text::word(room, x, b" ");
    let y = text::signed(room, before_y, row.y);
    let before_z = text::word(room, y, b" ");
    let z = text::signed(room, before_z, row.z);
    text::word(room, z, b"\n")
}

// The matrix, row by row.
pub fn matrix(room: &mut [u8], at: usize, matrix: Matrix) -> usize
    ensures wrote { Wrote room.old at (matrix_lines matrix) room.new result }
    ensures upper_bound { result ≤ at + 198 }
{
    let first = row(room, at, matrix.row0);
    let second = row(room, first, matrix.row1);
    row(room, second, matrix.row2)
}
