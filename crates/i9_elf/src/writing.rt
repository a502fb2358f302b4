//! Writing an image as a file.
ghost use Rattle.std.specs.Prelude.{◌≡◌, ◌+◌, ◌*◌, ◌<◌, ◌≤◌, ◌^◌, ◌++◌, ℕ, List, length, map, OnOk, IfOk, IsErrOf};
ghost use Rattle.std.specs.List.{AllByRecursion};
ghost use Rattle.i9_model.specs.Image.{Part, pairs_of};
ghost use Rattle.i9_model.specs.HexText.{most_bytes};
ghost use Rattle.i9_hex.specs.Shown.{part_of};
ghost use Rattle.i9_hex.specs.Runs.{IsRun, bytes_in, AreRuns};
ghost use Rattle.i9_elf.specs.Written.{halves, words, most_headers, file_header, program_header, program_headers};
ghost use Rattle.i9_elf.specs.Written.{bytes_place, file_of, ReadsBack};

use crate::error::WriteError;
use crate::header::{HEADER_SIZE, LOAD};
use crate::reading::{BITS_32, EXECUTABLE, FILE_HEADER_SIZE, I960, LOW_FIRST};
use i9_hex::{Segment, Segments, runs_of};
use i9_isa::NoMemory;
use std::alloc::{AllocError, Global};

/// How many program headers a file has at most.
const MOST_HEADERS: usize = 65_535;

/// The flags of a header: read, write and execute.
const ALL_ACCESS: u32 = 7;

/// Appends halves, low byte first.
fn add_halves(file: &mut Vec<u8>, numbers: &[u16]) -> Result<(), AllocError>
    ensures { OnOk result (file.new.items ≡ file.old.items ++ halves numbers.now) }
{
    for number in numbers {
        file.extend_from_slice(&number.to_le_bytes())?;
    }
    Ok(())
}

/// Appends words, low byte first.
fn add_words(file: &mut Vec<u8>, numbers: &[u32]) -> Result<(), AllocError>
    ensures { OnOk result (file.new.items ≡ file.old.items ++ words numbers.now) }
{
    for number in numbers {
        file.extend_from_slice(&number.to_le_bytes())?;
    }
    Ok(())
}

/// Appends the header of a file with so many program headers.
fn add_file_header(file: &mut Vec<u8>, count: u16) -> Result<(), AllocError>
    ensures { OnOk result (file.new.items ≡ file.old.items ++ file_header count) }
{
    file.extend_from_slice(&[
        0x7F, b'E', b'L', b'F', BITS_32, LOW_FIRST, 1, 0, 0, 0, 0, 0, 0, 0, 0, 0,
    ])?;
    add_halves(file, &[EXECUTABLE, I960])?;
    // The version, no entry address, the place of the program headers, no section headers, no flags.
    add_words(file, &[1, 0, FILE_HEADER_SIZE as u32, 0, 0])?;
    add_halves(
        file,
        &[FILE_HEADER_SIZE as u16, HEADER_SIZE as u16, count, 0, 0, 0],
    )
}

/// Appends the program headers of runs, whose bytes stand one after the other from a place on.
fn add_headers(file: &mut Vec<u8>, runs: &[Segment], start: u32) -> Result<(), AllocError>
    requires { start + bytes_in (map part_of runs.now) < 2 ^ 32 }
    ensures { OnOk result (file.new.items ≡ file.old.items ++ program_headers start (map part_of runs.now)) }
{
    let mut place = start;
    for run in runs {
        let address = run.address;
        let size = run.bytes.len() as u32;
        // Both addresses, and both sizes; the last is the alignment.
        add_words(
            file,
            &[LOAD, place, address, address, size, size, ALL_ACCESS, 1],
        )?;
        place += size;
    }
    Ok(())
}

/// The file of runs.
#[tactic(auto, unfolding(crate::specs::Written::file_of))]
fn file_of(alloc: Global, runs: &[Segment]) -> Result<Vec<u8>, AllocError>
    requires count { length runs.now ≤ most_headers }
    requires bytes { bytes_in (map part_of runs.now) ≤ most_bytes }
    ensures { IfOk result (λ file. file.items ≡ file_of (map part_of runs.now)) }
{
    let mut file = Vec::new(alloc);
    add_file_header(&mut file, runs.len() as u16)?;
    add_headers(
        &mut file,
        runs,
        (FILE_HEADER_SIZE + HEADER_SIZE * runs.len()) as u32,
    )?;
    for run in runs {
        file.extend_from_slice(&run.bytes)?;
    }
    Ok(file)
}

/// The ELF file of an image: a program header for each maximal run of its addresses, in ascending order, and behind
/// them the bytes of the runs. The image has at most 4,194,304 bytes, of which those at one address count each.
///
/// The file has 32 bits, low byte first, is of type 2 and for machine 19. Each header has type 1, equal addresses and
/// sizes, all access, and alignment 1. There are no section headers, and no entry address, since the processor starts
/// by its boot record. The format is that of the System V ABI; which of the files of an image this is, is this
/// project's own.
pub fn write(alloc: Global, image: &Segments) -> Result<Vec<u8>, WriteError>
    requires { length (pairs_of image.now) ≤ most_bytes }
    // What is written is the file of the runs, and these are not too many.
    ensures file { (runs : List Part) → AreRuns image.now runs
        → IfOk result (λ file. (length runs ≤ most_headers) × (file.items ≡ file_of runs)) }
    // Only too many runs are refused.
    ensures segments { IsErrOf result WriteError.Segments
        → (runs : List Part) → AreRuns image.now runs → most_headers < length runs }
    // What is written says the bytes of the image.
    ensures again { IfOk result (λ file. ReadsBack file.items image.now) }
{
    let runs = match runs_of(alloc, image) {
        Ok(runs) => runs,
        Err(NoMemory) => return Err(WriteError::Memory),
    };
    if MOST_HEADERS < runs.as_slice().len() {
        return Err(WriteError::Segments);
    }
    match file_of(alloc, runs.as_slice()) {
        Ok(file) => Ok(file),
        Err(AllocError) => Err(WriteError::Memory),
    }
}
