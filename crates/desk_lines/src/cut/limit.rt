// The limit of magnitude as a word: a signed number of 32 bits.
ghost use Rattle.std.specs.Prelude.{◌≡◌};
ghost use Rattle.desk_lines.specs.cut.Limit.{limit_for, limit_of, numbers_of, numbers_for};

// A number, if 32 bits hold it.
fn narrow(z: i64) -> Option<i32>
    ensures { result ≡ limit_for z }
{
    i32::try_from(z).ok()
}

// The number that a word spells in decimal, with a "-" in front where it is below zero.
pub fn parse_limit(word: &[u8]) -> Option<i32>
    ensures value { result ≡ limit_of word.now }
    ensures result_value { numbers_of result ≡ numbers_for word.now }
{
    let number = text::parse_signed(word)?;
    narrow(number)
}
