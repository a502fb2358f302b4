//! The characters of a string.
ghost use Rattle.std.specs.Prelude.{◌≡◌, ◌∷◌, ◌++◌, ℕ, List, length, Some, None, MatchOption, OnOk};
ghost use Rattle.std.specs.Option.{option_map};
ghost use Rattle.i9_asm.specs.Lines.{quote};
ghost use Rattle.i9_asm.specs.Strings.{escaped, characters, string_of};
ghost use Rattle.i9_asm.specs.Reading.{IsFirst};

use crate::lines::skip_blanks;
use std::alloc::AllocError;

/// What stands first in a string behind its opening quote.
#[derive(Clone, Copy)]
pub(crate) enum First<'a> {
    /// A character, and what stands behind it.
    Character(u8, &'a [u8]),
    /// The closing quote, with nothing but blanks behind it.
    End,
    /// No string of this form.
    Malformed,
}

/// The character of an escape.
fn escaped(byte: u8) -> Option<u8>
    ensures { result ≡ escaped byte }
{
    match byte {
        b'n' => Some(b'\n'),
        b'0' => Some(0),
        b'"' | b'\\' => Some(byte),
        _ => None,
    }
}

/// The end of a string, where nothing but blanks stands behind the closing quote.
fn closing(rest: &[u8]) -> First<'_>
    ensures { IsFirst (quote ∷ rest.now) result }
{
    if skip_blanks(rest).is_empty() {
        First::End
    } else {
        First::Malformed
    }
}

/// The first character of a string, behind its opening quote.
#[tactic(auto, unfolding(crate::specs::Strings::characters))]
fn first_character(text: &[u8]) -> First<'_>
    ensures { IsFirst text.now result }
{
    match text {
        [] => First::Malformed,
        [b'"', rest @ ..] => closing(rest),
        [b'\\', escape, rest @ ..] => match escaped(*escape) {
            Some(character) => First::Character(character, rest),
            None => First::Malformed,
        },
        [b'\\'] => First::Malformed,
        [byte, rest @ ..] => First::Character(*byte, rest),
    }
}

/// What stands behind the opening quote.
#[tactic(auto, unfolding(crate::specs::Strings::string_of))]
fn opened(text: &[u8]) -> Option<&[u8]>
    ensures { MatchOption result (string_of text.now ≡ None) (λ rest. string_of text.now ≡ characters rest.now) }
{
    match skip_blanks(text) {
        [b'"', rest @ ..] => Some(rest),
        _ => None,
    }
}

/// How many characters a string has; None where the text has no form of a string.
pub(crate) fn string_size(text: &[u8]) -> Option<usize>
    ensures { result ≡ option_map length (string_of text.now) }
{
    let mut rest = opened(text)?;
    let mut count = 0;
    loop {
        match first_character(rest) {
            First::Character(_, behind) => {
                count += 1;
                rest = behind;
            }
            First::End => return Some(count),
            First::Malformed => return None,
        }
    }
}

/// Appends the characters of a string.
pub(crate) fn add_string(bytes: &mut Vec<u8>, text: &[u8]) -> Result<(), AllocError>
    ensures { OnOk result ((cs : List ℕ) → string_of text.now ≡ Some cs → bytes.new.items ≡ bytes.old.items ++ cs) }
{
    let Some(inside) = opened(text) else {
        return Ok(());
    };
    let mut rest = inside;
    while let First::Character(character, behind) = first_character(rest) {
        bytes.push(character)?;
        rest = behind;
    }
    Ok(())
}
