//! The number that a word says.
ghost use Rattle.std.specs.Prelude.{◌≡◌, ◌≤◌};
ghost use Rattle.std.specs.Char.{digit_value};
ghost use Rattle.i9_text.specs.Text.{number_of};

/// The value of a digit or letter of either case, and 36 for any other byte.
fn digit(byte: u8) -> u8
    ensures { result ≡ digit_value byte }
{
    match byte {
        b'0'..=b'9' => byte - b'0',
        b'A'..=b'Z' => byte - b'A' + 10,
        b'a'..=b'z' => byte - b'a' + 10,
        _ => 36,
    }
}

/// The number of a word of one to `most` digits; None for any other word.
///
/// Digits above 9 are letters of either case, and leading zeros are read. There is no sign and no
/// prefix. With at most 15 digits of a radix up to 16 the value is below 2^60.
pub fn number(word: &[u8], radix: u8, most: usize) -> Option<u64>
    requires radix { (2 ≤ radix) × (radix ≤ 16) }
    requires most { most ≤ 15 }
    ensures { result ≡ number_of radix most word.now }
{
    if word.is_empty() || word.len() > most {
        return None;
    }
    let mut value = 0u64;
    for byte in word {
        let digit = digit(*byte);
        if digit >= radix {
            return None;
        }
        value = value * u64::from(radix) + u64::from(digit);
    }
    Some(value)
}
