//! A line without its comment.
ghost use Rattle.std.specs.Prelude.{◌≡◌};
ghost use Rattle.i9_asm.specs.Lines.{next_quote, is_comment, without_comment};

/// Where a byte of a line stands: outside of a string, in one, or behind a backslash in one.
#[derive(Clone, Copy)]
pub enum Quote {
    Outside,
    Quoted,
    Escaped,
}

/// Where the next byte stands.
fn next_quote(quote: Quote, byte: u8) -> Quote
    ensures { result ≡ next_quote quote byte }
{
    match (quote, byte) {
        (Quote::Outside, b'"') => Quote::Quoted,
        (Quote::Outside, _) => Quote::Outside,
        (Quote::Quoted, b'\\') => Quote::Escaped,
        (Quote::Quoted, b'"') => Quote::Outside,
        (Quote::Quoted, _) => Quote::Quoted,
        (Quote::Escaped, _) => Quote::Quoted,
    }
}

/// Whether a comment begins at a byte.
fn is_comment(quote: Quote, byte: u8) -> bool
    ensures { result ≡ is_comment quote byte }
{
    matches!((quote, byte), (Quote::Outside, b'#'))
}

/// A line without its comment, byte by byte.
fn cut_comment(line: &[u8]) -> &[u8]
    ensures { result.now ≡ without_comment line.now }
{
    let mut quote = Quote::Outside;
    for (i, byte) in line.iter().enumerate() {
        if is_comment(quote, *byte) {
            return line.split_at(i).0;
        }
        quote = next_quote(quote, *byte);
    }
    line
}

/// A line without its comment.
pub(crate) fn without_comment(line: &[u8]) -> &[u8]
    ensures { result.now ≡ without_comment line.now }
{
    if line.contains(&b'#') {
        cut_comment(line)
    } else {
        line
    }
}
