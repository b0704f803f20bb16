// Words of 16 hexadecimal digits in lower case, as recorded answers are written.
ghost use Rattle.std.specs.Prelude.{◌≡◌};
ghost use Rattle.answers.specs.Hex.{digit_of, word_of};

// The value of a digit, or none for a byte that is none.
fn digit(b: u8) -> Option<u64>
    ensures { result ≡ digit_of b }
{
    match b {
        b'0'..=b'9' => Some((b - b'0') as u64),
        b'a'..=b'f' => Some((b - b'a') as u64 + 10),
        _ => None,
    }
}

// The number that text spells, or none if it is not 16 digits.
pub(crate) fn read_word(text: &[u8]) -> Option<u64>
    ensures { result ≡ word_of text.now }
{
    if text.len() != 16 {
        return None;
    }
    let mut value: u64 = 0;
    for b in text {
        value = value * 16 + digit(*b)?;
    }
    Some(value)
}
