// A word as a signed number.
ghost use Rattle.std.specs.Prelude.{◌≡◌};
ghost use Rattle.text.specs.Sign.{positive_of, negative_of, parsed_signed_of, numbers_of, numbers_for};

use crate::parse::parse_number;

// A size without a sign.
fn positive(size: Option<usize>) -> Option<i64>
    ensures { result ≡ positive_of size }
{
    i64::try_from(size?).ok()
}

// A size behind a "-".
fn negative(size: Option<usize>) -> Option<i64>
    ensures { result ≡ negative_of size }
{
    0i64.checked_sub_unsigned(size? as u64)
}

// The signed number that a word spells in decimal, with a "-" in front where it is below zero.
pub fn parse_signed(word: &[u8]) -> Option<i64>
    ensures value { result ≡ parsed_signed_of word.now }
    ensures result_value { numbers_of result ≡ numbers_for word.now }
{
    if word.len() == 0 {
        return None;
    }
    let has_minus = word[0] == b'-';
    if has_minus {
        let size = parse_number(&word[1..]);
        return negative(size);
    }
    let size = parse_number(word);
    positive(size)
}
