//! Cutting a line into its words.
ghost use Rattle.std.specs.Prelude.{◌≡◌, ◌<◌, [], ◌∷◌, length, slice_index, false, MatchOption};
ghost use Rattle.std.specs.List.{position};
ghost use Rattle.i9_text.specs.Text.{is_blank, is_in_word, words_of};

fn is_blank_byte(byte: u8) -> bool
    ensures { result ≡ is_blank byte }
{
    byte == b' ' || byte == b'\t'
}

/// The index of the first byte of a word.
fn word_start(line: &[u8]) -> Option<usize>
    ensures { result ≡ position is_in_word line.now }
{
    line.iter().position(|byte| !is_blank_byte(*byte))
}

/// The index of the first space or tab.
fn word_end(line: &[u8]) -> Option<usize>
    ensures { result ≡ position is_blank line.now }
{
    line.iter().position(|byte| is_blank_byte(*byte))
}

/// The line from its first word on, empty where it has none.
fn skip_blanks(line: &[u8]) -> &[u8]
    ensures words { words_of result.now ≡ words_of line.now }
    ensures first { 0 < length result.now → is_blank (slice_index result.now 0) ≡ false }
    ensures none { length result.now ≡ 0 → words_of line.now ≡ [] }
{
    match word_start(line) {
        Some(start) => line.split_at(start).1,
        None => &[],
    }
}

/// The first word of a line, and what stands after it; None where the line has no word.
///
/// Words stand between spaces and tabs.
pub fn split_word(line: &[u8]) -> Option<(&[u8], &[u8])>
    ensures { MatchOption result (words_of line.now ≡ [])
        (λ found. words_of line.now ≡ found.0.now ∷ words_of found.1.now) }
{
    let rest = skip_blanks(line);
    if rest.is_empty() {
        return None;
    }
    match word_end(rest) {
        Some(end) => Some(rest.split_at(end)),
        None => Some((rest, &[])),
    }
}
