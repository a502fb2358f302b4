//! Cutting a text into its lines.
ghost use Rattle.std.specs.Prelude.{◌≡◌, ◌<◌, [], ◌∷◌, length, MatchOption, IfSome, ⊤};
ghost use Rattle.std.specs.List.{position};
ghost use Rattle.std.specs.Str.Lines.{strip_carriage_return};
ghost use Rattle.i9_text.specs.Text.{is_line_feed, lines_of};

/// A line without the one carriage return at its end.
fn without_carriage_return(line: &[u8]) -> &[u8]
    ensures { result.now ≡ strip_carriage_return line.now }
{
    match line {
        [front @ .., b'\r'] => front,
        _ => line,
    }
}

/// The index of the first line feed.
fn line_end(text: &[u8]) -> Option<usize>
    ensures place { result ≡ position is_line_feed text.now }
    ensures inside { IfSome result (λ end. end < length text.now) }
{
    text.iter().position(|byte| *byte == b'\n')
}

/// The first line of a text, and what stands after its line feed; None where no line feed stands.
///
/// Every text has a first line, which may be empty. One carriage return at the end of a line is
/// dropped, also on a last line without a line feed.
pub fn split_line(text: &[u8]) -> (&[u8], Option<&[u8]>)
    ensures lines { MatchOption result.1 (lines_of text.now ≡ result.0.now ∷ [])
        (λ rest. lines_of text.now ≡ result.0.now ∷ lines_of rest.now) }
    // So a loop over the lines ends.
    ensures shorter { MatchOption result.1 ⊤ (λ rest. length rest.now < length text.now) }
{
    match line_end(text) {
        Some(end) => (
            without_carriage_return(&text[..end]),
            Some(&text[end + 1..]),
        ),
        None => (without_carriage_return(text), None),
    }
}
