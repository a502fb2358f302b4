//! The operands of a statement, between commas.
ghost use Rattle.std.specs.Prelude.{◌≡◌, ◌<◌, ◌∷◌, [], length, map, IfSome, MatchOption, ⊤};
ghost use Rattle.std.specs.List.{position, slice_split};
ghost use Rattle.i9_statement.specs.Fields.{is_comma, field_of, fields_of, fields_left};

use i9_text::split_word;

/// The one word of a text; an empty text where it has none, or several.
fn field_of(part: &[u8]) -> &[u8]
    ensures { result.now ≡ field_of part.now }
{
    match split_word(part) {
        Some((word, rest)) => {
            if split_word(rest).is_none() {
                word
            } else {
                &[]
            }
        }
        None => &[],
    }
}

/// The place of the first comma.
fn place_of_comma(text: &[u8]) -> Option<usize>
    ensures place { result ≡ position is_comma text.now }
    ensures inside { IfSome result (λ n. n < length text.now) }
{
    text.iter().position(|byte| *byte == b',')
}

/// The first operand, and the text of the others.
pub fn split_field(text: &[u8]) -> (&[u8], Option<&[u8]>)
    ensures fields { map field_of (slice_split is_comma text.now) ≡ result.0.now ∷ fields_left result.1 }
    // So a loop over the operands ends.
    ensures shorter { MatchOption result.1 ⊤ (λ rest. length rest.now < length text.now) }
{
    match place_of_comma(text) {
        Some(end) => (field_of(&text[..end]), Some(&text[end + 1..])),
        None => (field_of(text), None),
    }
}

/// The operands of a text, or None where it is blank.
#[tactic(auto, unfolding(crate::specs::Fields::fields_of))]
pub fn fields_of(text: &[u8]) -> Option<&[u8]>
    ensures { fields_left result ≡ fields_of text.now }
{
    if split_word(text).is_some() {
        Some(text)
    } else {
        None
    }
}
