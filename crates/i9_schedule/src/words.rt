//! Words, numbers and lines, as schedules and scripts of the debugger have them.
ghost use Rattle.std.specs.Prelude.{◌≡◌, ◌*◌, ◌≤◌, IfSome};
ghost use Rattle.std.specs.Option.{option_map, option_copied};
ghost use Rattle.i9_text.specs.Text.{words_of};
ghost use Rattle.i9_model.specs.Events.{number_in, one_of, two_of};
ghost use Rattle.i9_model.specs.ScheduleText.{is_ascii, is_skipped};

use i9_text::{number, split_word};

/// The word of a line that has one word alone; None for any other line.
///
/// Words stand between spaces and tabs.
pub fn one_word(words: &[u8]) -> Option<&[u8]>
    ensures { option_copied result ≡ one_of (words_of words.now) }
{
    let (word, rest) = split_word(words)?;
    match split_word(rest) {
        Some(_) => None,
        None => Some(word),
    }
}

/// The words of a line that has two words alone, in order; None for any other line.
///
/// Words stand between spaces and tabs.
pub fn two_words(words: &[u8]) -> Option<(&[u8], &[u8])>
    ensures { option_map (λ p. (p.0.now, p.1.now)) result ≡ two_of (words_of words.now) }
{
    let (first, rest) = split_word(words)?;
    let (second, rest) = split_word(rest)?;
    match split_word(rest) {
        Some(_) => None,
        None => Some((first, second)),
    }
}

/// The number of a word of one to `most` digits, where it is from `low` to `high`; None for any
/// other word.
///
/// Digits above 9 are letters of either case, and leading zeros are read. There is no sign and no
/// prefix.
#[tactic(auto, unfolding(i9_model::specs::Events::number_in))]
pub fn number_in(word: &[u8], radix: u8, most: usize, low: u64, high: u64) -> Option<u64>
    requires radix { (2 ≤ radix) × (radix ≤ 16) }
    requires most { most ≤ 15 }
    ensures value { result ≡ number_in radix most low high word.now }
    ensures inside { IfSome result (λ n. n ≤ high) }
{
    let n = number(word, radix, most)?;
    if n < low || n > high { None } else { Some(n) }
}

/// Whether every byte of a line is ASCII.
pub fn is_ascii(line: &[u8]) -> bool
    ensures { result ≡ is_ascii line.now }
{
    line.iter().all(|b| *b < 128)
}

/// Whether a line says nothing: its first character is `#`, or it has no words.
pub fn is_skipped(line: &[u8]) -> bool
    ensures { result ≡ is_skipped line.now }
{
    if let [b'#', ..] = line {
        return true;
    }
    split_word(line).is_none()
}
