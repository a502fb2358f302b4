//! The listing of an image.
ghost use Rattle.std.specs.Prelude.{ℕ, ◌≤◌, List, IfOk};
ghost use Rattle.i9_model.specs.Image.{Part};
ghost use Rattle.i9_asm.specs.Source.{most_bytes};
ghost use Rattle.i9_hex.specs.Runs.{bytes_in, AreRuns};
ghost use Rattle.i9_asm.specs.Laws.{Reassembles};
ghost use Rattle.i9_asm.specs.Listing.{IsListing};

use crate::lines::lines_of;
use i9_hex::{Segments, runs_of};
use i9_isa::NoMemory;
use std::alloc::{AllocError, Global};

/// The listing of an image: of each run of loaded addresses, in ascending order, `.org` with its
/// address and then a line for each statement, word or byte, with its address and its bytes behind `#`.
///
/// Of bytes at one address the later counts. A run ends at FFFFFFFF; what goes on at 0 is another. One
/// byte stands in a line before the first multiple of 4, and where too few are left for a word. An
/// instruction whose second word isn't in the run is printed as a number. Each line ends with a line
/// feed. The form of listings is this project's own.
pub fn listing(alloc: Global, segments: &Segments) -> Result<Vec<u8>, NoMemory>
    ensures text { IfOk result (λ t. IsListing segments.now t.items) }
    // Where the assembler takes as many bytes, the listing assembles to the same ones.
    ensures again { (runs : List Part) → AreRuns segments.now runs → bytes_in runs ≤ most_bytes
        → IfOk result (λ t. Reassembles segments.now t.items) }
{
    let runs = runs_of(alloc, segments)?;
    match lines_of(alloc, runs.as_slice()) {
        Ok(text) => Ok(text),
        Err(AllocError) => Err(NoMemory),
    }
}
