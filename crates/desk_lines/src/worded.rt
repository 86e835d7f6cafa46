// Lines of words, each with a number behind it.
ghost use Rattle.std.specs.Prelude.{◌+◌, ◌≤◌, length};
ghost use Rattle.text.specs.Written.{Wrote};
ghost use Rattle.desk_lines.specs.Worded.{numbered, numbered_twice};

// A word and a number.
pub fn one(room: &mut [u8], word: &[u8], n: u64) -> usize
    ensures wrote { Wrote room.old 0 (numbered word.now n) room.new result }
    ensures upper_bound { result ≤ length word.now + 21 }
{
    let end = text::labelled(room, 0, word, n);
    text::word(room, end, b"\n")
}

// A word and a number, and a second word and its number.
pub fn two(room: &mut [u8], word: &[u8], a: u64, between: &[u8], b: u64) -> usize
    ensures wrote { Wrote room.old 0 (numbered_twice word.now a between.now b) room.new result }
    ensures upper_bound { result ≤ length word.now + length between.now + 41 }
{
    let first = text::labelled(room, 0, word, a);
    let second = text::labelled(room, first, between, b);
    text::word(room, second, b"\n")
}
