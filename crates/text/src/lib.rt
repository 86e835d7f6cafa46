// Lines of text as bytes in a lent room: words and numbers in decimal, one behind the other. A place is handed in and the next one comes back, so a line is a
// run of calls. What does not fit is cut at the room's end. And the way back: a word as a number, with a sign or without.
// Stays: a room and a place, and no writer that holds both. Some thirty clauses would say `Wrote w.old.room w.old.at ..`, and bound the place in it, for no gain.
#![tactic(auto)]

mod parse;
mod sign;

ghost use Rattle.std.specs.Prelude.{[], ◌∷◌, ◌++◌, ◌+◌, ◌≤◌, length};
ghost use Rattle.text.specs.Decimal.{decimal, signed_decimal};
ghost use Rattle.text.specs.Refused.{refusal_line};
ghost use Rattle.text.specs.Written.{Wrote};

pub use parse::parse_number;
use refusal::Refusal;
pub use sign::parse_signed;

// Puts one byte at a place.
#[tactic(auto, unfolding(crate::specs::Written::written))]
fn byte(room: &mut [u8], at: usize, b: u8) -> usize
    ensures { Wrote room.old at (b ∷ []) room.new result }
{
    if at < room.len() {
        room[at] = b;
        return at + 1;
    }
    at
}

// Puts a word at a place.
pub fn word(room: &mut [u8], at: usize, bytes: &[u8]) -> usize
    ensures { Wrote room.old at bytes.now room.new result }
{
    let mut next = at;
    for b in bytes {
        next = byte(room, next, *b);
    }
    next
}

// Puts a number at a place, in decimal. Its tenth stands before its last digit.
// Stays: digit by digit and no `write!`: this is `decimal` in five lines, and `write!` wants a writer over the room that cuts at its end.
pub fn number(room: &mut [u8], at: usize, n: u64) -> usize
    ensures wrote { Wrote room.old at (decimal n) room.new result }
    ensures upper_bound { result ≤ at + 20 }
{
    if n < 10 {
        return byte(room, at, b'0' + n as u8);
    }
    let next = number(room, at, n / 10);
    byte(room, next, b'0' + (n % 10) as u8)
}

// Puts a signed number at a place: "-" before the size of one below zero.
pub fn signed(room: &mut [u8], at: usize, z: i64) -> usize
    ensures wrote { Wrote room.old at (signed_decimal z) room.new result }
    ensures upper_bound { result ≤ at + 21 }
{
    let size = z.unsigned_abs();
    let is_negative = z < 0;
    if is_negative {
        let next = byte(room, at, b'-');
        return number(room, next, size);
    }
    number(room, at, size)
}

// Puts a word and the number behind it.
pub fn labelled(room: &mut [u8], at: usize, bytes: &[u8], n: u64) -> usize
    ensures wrote { Wrote room.old at (bytes.now ++ decimal n) room.new result }
    ensures upper_bound { result ≤ at + length bytes.now + 20 }
{
    let next = word(room, at, bytes);
    number(room, next, n)
}

// Puts the line of a refusal: "refused", the number and the place.
pub fn refused(room: &mut [u8], at: usize, refusal: Refusal) -> usize
    ensures wrote { Wrote room.old at (refusal_line refusal) room.new result }
    ensures upper_bound { result ≤ at + 50 }
{
    let number = labelled(room, at, b"refused ", refusal.number as u64);
    let place = labelled(room, number, b" ", refusal.place as u64);
    word(room, place, b"\n")
}
