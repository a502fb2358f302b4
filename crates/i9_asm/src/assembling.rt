//! Assembling a source line by line, in two passes.
ghost use Rattle.std.specs.Prelude.{◌≡◌, ◌≤◌, ℕ, List, length, IfOk, IfErr, Ok, Err};
ghost use Rattle.i9_statement.specs.Known.{definitions};
ghost use Rattle.i9_text.specs.Text.{lines_of};
ghost use Rattle.i9_model.specs.Image.{Part, pairs_of};
ghost use Rattle.i9_asm.specs.Places.{start_place};
ghost use Rattle.i9_asm.specs.Source.{most_bytes};
ghost use Rattle.i9_asm.specs.Numbered.{no_definitions, lines_entered};
ghost use Rattle.i9_asm.specs.Laws.{IsAssembly, IsRefusedSource};
ghost use Rattle.i9_asm.specs.Reading.{Answers, IfBad, fault_place};

use crate::error::AsmError;
use crate::naming::Naming;
use crate::source::Source;
use i9_hex::Segments;
use i9_isa::NoMemory;
use i9_statement::Table;
use i9_text::split_line;
use std::alloc::{AllocError, Global};

/// The names of a source with their definitions.
fn table_of(alloc: Global, text: &[u8]) -> Result<Table, AllocError>
    ensures { IfOk result (λ table. definitions table
        ≡ lines_entered start_place 0 (lines_of text.now) no_definitions) }
{
    let mut naming = Naming::new(alloc);
    let mut number = 0u64;
    let mut rest = Some(text);
    while let Some(lines) = rest {
        let (line, after) = split_line(lines);
        naming = naming.with_line(number, line)?;
        number += 1;
        rest = after;
    }
    Ok(naming.table)
}

/// The segments of a source whose names have these definitions.
fn segments_of(alloc: Global, table: &Table, text: &[u8]) -> Result<Segments, AsmError>
    requires { definitions table.now ≡ lines_entered start_place 0 (lines_of text.now) no_definitions }
    ensures found { IfOk result (λ image. IsAssembly (lines_of text.now) image) }
    ensures refused { IfErr result (λ e. IfBad e (λ f. IsRefusedSource (lines_of text.now) (fault_place f))) }
{
    let mut source = Source::new(alloc);
    let mut number = 0u64;
    let mut rest = Some(text);
    while let Some(lines) = rest {
        let (line, after) = split_line(lines);
        match source.with_line(alloc, table, number, line) {
            Ok(next) => source = next,
            Err(error) => return Err(error.at(number + 1)),
        }
        number += 1;
        rest = after;
    }
    match source.finish() {
        Ok(segments) => Ok(segments),
        Err(NoMemory) => Err(AsmError::Memory),
    }
}

/// Assembles a source for the i960.
///
/// Lines end with a line feed, which the last one may lack; one carriage return at a line's end is
/// dropped. A line may have a label, and a directive or an instruction, and a comment behind `#`.
/// A name is worth the address of the line that it labels, or what `.set` gave it. Each `.org`, and
/// each `.align` that moves, begins a new segment; empty segments are not kept. The language is this
/// project's own, near to that of Intel's assembler.
///
/// A source with a fault is refused with its first line at fault; see `AsmFault`.
pub fn assemble(alloc: Global, text: &[u8]) -> Result<Segments, AsmError>
    // What is assembled is what the lines say.
    ensures found { IfOk result (λ image. IsAssembly (lines_of text.now) image) }
    // It has at most 4,194,304 bytes, those counted twice that stand at one address.
    ensures most { IfOk result (λ image. length (pairs_of image) ≤ most_bytes) }
    // What the lines say is assembled, unless memory runs out.
    ensures only { (image : List Part) → IsAssembly (lines_of text.now) image → Answers result (Ok image) }
    // What is refused has this first fault.
    ensures refused { IfErr result (λ e. IfBad e (λ f. IsRefusedSource (lines_of text.now) (fault_place f))) }
    // A source with a first fault is refused for it, unless memory runs out.
    ensures first { (fault : ℕ × ℕ) → IsRefusedSource (lines_of text.now) fault → Answers result (Err fault) }
{
    match table_of(alloc, text) {
        Ok(table) => segments_of(alloc, &table, text),
        Err(AllocError) => Err(AsmError::Memory),
    }
}
