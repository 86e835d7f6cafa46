// A word as a number.
ghost use Rattle.std.specs.Prelude.{◌≡◌, [], ◌∷◌};
ghost use Rattle.text.specs.Parse.{parsed_from, parsed_of, numbers_of, numbers_for};

// The value with one digit more, where the byte is a digit and 64 bits hold what comes out.
#[tactic(auto, unfolding(crate::specs::Parse::parsed_from, crate::specs::Parse::all_digits, crate::specs::Parse::is_digit, crate::specs::Parse::value_from))]
fn with_digit(value: usize, byte: u8) -> Option<usize>
    ensures { result ≡ parsed_from value (byte ∷ []) }
{
    if !byte.is_ascii_digit() {
        return None;
    }
    let digit = (byte - b'0') as usize;
    value.checked_mul(10)?.checked_add(digit)
}

// The number that a word spells in decimal. An empty word, one with another character and one whose value does not fit are no number.
// Stays: no `str::parse`, which takes a "+" in front that the rule has for no number.
pub fn parse_number(word: &[u8]) -> Option<usize>
    ensures value { result ≡ parsed_of word.now }
    ensures result_value { numbers_of result ≡ numbers_for word.now }
{
    let is_empty = word.len() == 0;
    if is_empty {
        return None;
    }
    let mut value: usize = 0;
    for byte in word {
        value = with_digit(value, *byte)?;
    }
    Some(value)
}
