//! Reading a text line by line.
ghost use Rattle.std.specs.Prelude.{ℕ, List, IfOk, IfErr, Ok, Err};
ghost use Rattle.i9_text.specs.Text.{lines_of};
ghost use Rattle.i9_model.specs.Image.{pairs_of};
ghost use Rattle.i9_model.specs.HexText.{IsImage, IsRefused};
ghost use Rattle.i9_hex.specs.Reading.{Reads, IfBad, place_of};

use crate::error::HexError;
use crate::reader::Reader;
use crate::segments::Segments;
use i9_text::split_line;
use std::alloc::Global;

/// Reads the image of an Intel HEX text.
///
/// Lines end with a line feed, which the last one may lack; one carriage return at a line's end is
/// dropped, and empty lines are skipped. Every other line is a record of the Intel HEX object
/// format, of type 00 to 05, in digits of either case. The start addresses of types 03 and 05 are
/// not kept. An image has at most 4,194,304 data bytes, which is this project's own limit.
///
/// A text that is no image is refused with its first fault; see `HexFault`.
pub fn read(alloc: Global, text: &[u8]) -> Result<Segments, HexError>
    // What is read is what the lines say.
    ensures found { IfOk result (λ image. IsImage (lines_of text.now) (pairs_of image)) }
    // What the lines say is read, unless memory runs out.
    ensures only { (pairs : List (ℕ × ℕ)) → IsImage (lines_of text.now) pairs → Reads result (Ok pairs) }
    // What is refused has this first fault.
    ensures refused { IfErr result (λ e. IfBad e (λ f. IsRefused (lines_of text.now) (place_of f))) }
    // A text with a first fault is refused for it, unless memory runs out.
    ensures first { (fault : ℕ × ℕ) → IsRefused (lines_of text.now) fault → Reads result (Err fault) }
{
    let mut reader = Reader::new(alloc);
    let mut number = 0u64;
    let mut rest = Some(text);
    while let Some(lines) = rest {
        let (line, after) = split_line(lines);
        number += 1;
        match reader.with_line(alloc, line) {
            Ok(next) => reader = next,
            Err(error) => return Err(error.at(number)),
        }
        rest = after;
    }
    reader.finish(number)
}
