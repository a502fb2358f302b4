//! The words of a text.
ghost use Rattle.std.specs.Prelude.{map, IfOk};
ghost use Rattle.std.specs.String.{string_bytes};
ghost use Rattle.i9_buffers.specs.Line.{AsksWith};

use i9_text::split_line;
use std::alloc::{AllocError, Global};

/// The words of a text, of which each has a line of its own; none where one of them isn't UTF-8.
pub(crate) fn read_words(alloc: Global, text: &[u8]) -> Result<Vec<String>, AllocError>
    ensures { IfOk result (λ words. AsksWith text.now (map string_bytes words.items)) }
{
    let mut words = Vec::new(alloc);
    let mut rest = Some(text);
    while let Some(lines) = rest {
        let (line, after) = split_line(lines);
        match str::from_utf8(line) {
            Ok(word) => words.push(String::from_str(alloc, word)?)?,
            Err(_) => return Ok(Vec::new(alloc)),
        }
        rest = after;
    }
    Ok(words)
}
