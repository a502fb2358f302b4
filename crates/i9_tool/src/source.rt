//! The forms `asm` and `asmelf`: the segments of a source as Intel HEX text, or as an ELF file.
ghost use Rattle.std.specs.Prelude.{◌≤◌, length, IfOk};
ghost use Rattle.i9_tool.specs.declared.words.Format.TheVariants as formats;
ghost use Rattle.i9_tool.specs.Outcome.{AsmGives};
ghost use Rattle.i9_tool.specs.Values.{CanPrint, IsMade};

use crate::made::Made;
use crate::words::Format;
use i9_elf::WriteError;
use i9_hex::Segments;
use i9_isa::NoMemory;
use std::alloc::Global;

/// The Intel HEX text of segments.
fn hex_of(alloc: Global, image: &Segments) -> Result<Made, NoMemory>
    ensures { IfOk result (IsMade (AsmGives formats.Hex image.now)) }
{
    match i9_hex::write(alloc, image) {
        Ok(text) => Ok(Made::Text(text)),
        Err(_) => Err(NoMemory),
    }
}

/// The ELF file of segments, unless they have too many runs of bytes for one.
fn elf_of(alloc: Global, image: &Segments) -> Result<Made, NoMemory>
    requires can { CanPrint image.now }
    ensures { IfOk result (IsMade (AsmGives formats.Elf image.now)) }
{
    match i9_elf::write(alloc, image) {
        Ok(file) => Ok(Made::Text(file)),
        Err(WriteError::Segments) => Ok(Made::TooManyRuns),
        Err(WriteError::Memory) => Err(NoMemory),
    }
}

/// Segments in a format.
pub(crate) fn image_of(alloc: Global, format: Format, image: &Segments) -> Result<Made, NoMemory>
    requires can { CanPrint image.now }
    ensures { IfOk result (IsMade (AsmGives format image.now)) }
{
    match format {
        Format::Hex => hex_of(alloc, image),
        Format::Elf => elf_of(alloc, image),
    }
}
