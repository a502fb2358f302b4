//! Reading an image by how its file begins.
ghost use Rattle.std.specs.Prelude.{◌≡◌, ℕ, List, IfOk, IfErr, Ok, Err};
ghost use Rattle.i9_model.specs.Image.{pairs_of};
ghost use Rattle.i9_elf.specs.Images.{Fault, IsImage, IsRefused};
ghost use Rattle.i9_elf.specs.ImageReading.{fault_in, Reads, IfBad, from_hex, from_elf};

use crate::{ElfError, has_magic};
use i9_hex::{HexError, HexFault, Segments};
use std::alloc::Global;
use thiserror::Error;

/// The first fault of an image.
#[derive(Clone, Copy, Debug, PartialEq, Eq)]
pub enum ImageFault {
    /// Of Intel HEX text.
    Line(HexFault),
    /// Of an ELF file, by its kind.
    Elf(u8),
}

/// Why an image is not read.
#[derive(Debug, Drop, Error)]
pub enum ImageError {
    /// The file is no image.
    #[error("refused")]
    Bad(ImageFault),
    /// Memory was refused.
    #[error("no memory")]
    Memory,
}

/// What the reader of Intel HEX answers, as this one's answer.
fn from_hex(read: Result<Segments, HexError>) -> Result<Segments, ImageError>
    ensures { result ≡ from_hex read }
{
    match read {
        Ok(image) => Ok(image),
        Err(HexError::Bad(fault)) => Err(ImageError::Bad(ImageFault::Line(fault))),
        Err(HexError::Memory) => Err(ImageError::Memory),
    }
}

/// What the reader of ELF files answers, as this one's answer.
fn from_elf(read: Result<Segments, ElfError>) -> Result<Segments, ImageError>
    ensures { result ≡ from_elf read }
{
    match read {
        Ok(image) => Ok(image),
        Err(ElfError::Bad(kind)) => Err(ImageError::Bad(ImageFault::Elf(kind))),
        Err(ElfError::Memory) => Err(ImageError::Memory),
    }
}

/// Reads an image: an ELF file where it begins as those do, with 7F and "ELF", and else Intel HEX
/// text.
pub fn read_image(alloc: Global, file: &[u8]) -> Result<Segments, ImageError>
    // What is read is what the file says.
    ensures found { IfOk result (λ image. IsImage file.now (pairs_of image)) }
    // What the file says is read, unless memory runs out.
    ensures only { (pairs : List (ℕ × ℕ)) → IsImage file.now pairs → Reads result (Ok pairs) }
    // What is refused has this first fault.
    ensures refused { IfErr result (λ e. IfBad e (λ f. IsRefused file.now (fault_in f))) }
    // A file with a first fault is refused for it, unless memory runs out.
    ensures first { (fault : Fault) → IsRefused file.now fault → Reads result (Err fault) }
{
    if has_magic(file) {
        from_elf(crate::read(alloc, file))
    } else {
        from_hex(i9_hex::read(alloc, file))
    }
}
