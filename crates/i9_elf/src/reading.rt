//! Reading a file.
ghost use Rattle.std.specs.Prelude.{◌≡◌, ◌<◌, ◌≤◌, ◌^◌, ◌++◌, ℕ, List, [], length, take, true, None, OnOk, IfOk, IfErr};
ghost use Rattle.std.specs.Prelude.{Ok, Err};
ghost use Rattle.i9_model.specs.Image.{pairs_of};
ghost use Rattle.i9_elf.specs.Files.{magic, file_header_size, headers_place, header_count, loads_of, fault_of_file};
ghost use Rattle.i9_elf.specs.Files.{loaded_bytes, loaded_pairs, IsLoadable, IsImage, IsRefused};
ghost use Rattle.i9_elf.specs.Reading.{plain, load_all, Reads, IfBad};

use crate::error::{
    BAD_CLASS, BAD_HEADER_SIZE, BAD_MACHINE, BAD_ORDER, BAD_TYPE, ElfError, HEADERS_OUTSIDE,
    TOO_SHORT,
};
use crate::header::{HEADER_SIZE, Header, half_at, word_at};
use i9_hex::Segments;
use i9_isa::NoMemory;
use std::alloc::{AllocError, Global};

/// How many bytes the header of a file has.
pub(crate) const FILE_HEADER_SIZE: usize = 52;

/// Class 1: 32 bits.
pub(crate) const BITS_32: u8 = 1;

/// Order 1: low byte first.
pub(crate) const LOW_FIRST: u8 = 1;

/// Type 2: a linked program.
pub(crate) const EXECUTABLE: u16 = 2;

/// Machine 19: i960.
pub(crate) const I960: u16 = 19;

/// Whether a file begins as ELF files do, with 7F and "ELF".
pub fn has_magic(file: &[u8]) -> bool
    ensures yes { result ≡ true → take 4 file.now ≡ magic }
    ensures no { take 4 file.now ≡ magic → result ≡ true }
{
    matches!(file, [0x7F, b'E', b'L', b'F', ..])
}

/// The program headers of a file: where the first stands, and how many there are.
#[derive(Clone, Copy, Debug)]
struct HeaderTable {
    place: usize,
    count: usize,
}

impl HeaderTable {
    /// What the header of the file says of them.
    fn of(file: &[u8]) -> HeaderTable
        requires { file_header_size ≤ length file.now }
        ensures place { result.place ≡ headers_place file.now }
        ensures count { result.count ≡ header_count file.now }
        ensures low { (result.place < 2 ^ 32) × (result.count < 2 ^ 16) }
    {
        HeaderTable {
            place: word_at(file, 28) as usize,
            count: usize::from(half_at(file, 44)),
        }
    }
}

/// The kind of fault of a file before its program headers are looked at.
#[tactic(auto, unfolding(crate::specs::Files::fault_of_file))]
fn fault_of_file(file: &[u8]) -> Option<u8>
    ensures { result ≡ fault_of_file file.now }
{
    if file.len() < FILE_HEADER_SIZE {
        return Some(TOO_SHORT);
    }
    if file[4] != BITS_32 {
        return Some(BAD_CLASS);
    }
    if file[5] != LOW_FIRST {
        return Some(BAD_ORDER);
    }
    if half_at(file, 16) != EXECUTABLE {
        return Some(BAD_TYPE);
    }
    if half_at(file, 18) != I960 {
        return Some(BAD_MACHINE);
    }
    let table = HeaderTable::of(file);
    if 0 < table.count && usize::from(half_at(file, 42)) != HEADER_SIZE {
        return Some(BAD_HEADER_SIZE);
    }
    if 0 < table.count && file.len() < table.place + HEADER_SIZE * table.count {
        return Some(HEADERS_OUTSIDE);
    }
    None
}

/// The bytes that a header loads: those in the file, and zeros up to those in memory.
fn loaded_bytes(alloc: Global, file: &[u8], header: &Header) -> Result<Vec<u8>, AllocError>
    requires { IsLoadable file.now (plain header.now) }
    ensures { IfOk result (λ bytes. bytes.items ≡ loaded_bytes file.now (plain header.now)) }
{
    let mut bytes = Vec::with_capacity(alloc, header.in_memory as usize)?;
    if 0 < header.in_file {
        let start = header.offset as usize;
        bytes.extend_from_slice(&file[start..start + header.in_file as usize])?;
    }
    bytes.resize(header.in_memory as usize, 0)?;
    Ok(bytes)
}

/// Appends what a header loads.
fn load(
    alloc: Global,
    segments: &mut Segments,
    file: &[u8],
    header: &Header,
) -> Result<(), NoMemory>
    requires { IsLoadable file.now (plain header.now) }
    ensures { OnOk result (pairs_of segments.new ≡ pairs_of segments.old ++ loaded_pairs file.now (plain header.now)) }
{
    match loaded_bytes(alloc, file, header) {
        Ok(bytes) => segments.push(header.address, bytes),
        Err(AllocError) => Err(NoMemory),
    }
}

/// Reads what the program headers of a file load.
fn load_all(alloc: Global, file: &[u8]) -> Result<Segments, ElfError>
    requires { fault_of_file file.now ≡ None }
    ensures { Reads result (load_all file.now 0 [] (loads_of file.now)) }
{
    let table = HeaderTable::of(file);
    let mut segments = Segments::new(alloc);
    let mut size = 0u32;
    for index in 0..table.count {
        let header = Header::read(file, table.place + HEADER_SIZE * index);
        if header.is_load() {
            if let Some(kind) = header.fault(file, size) {
                return Err(ElfError::Bad(kind));
            }
            match load(alloc, &mut segments, file, &header) {
                Ok(()) => size += header.in_memory,
                Err(NoMemory) => return Err(ElfError::Memory),
            }
        }
    }
    Ok(segments)
}

/// Reads the image of an ELF file: what its program headers load, in their order.
///
/// A header of type 1 loads its bytes of the file at its physical address and upwards, modulo 2^32,
/// and zeros behind them up to its bytes in memory. Other headers, the entry address and all else
/// say nothing of an image. Of two bytes at one address the later counts. The format is that of the
/// System V ABI; that the physical address counts, and that an image has at most 4,194,304 bytes in
/// memory, is this project's own.
///
/// A file that is no image is refused with its first fault; see `ElfError`.
pub fn read(alloc: Global, file: &[u8]) -> Result<Segments, ElfError>
    requires { take 4 file.now ≡ magic }
    // What is read is what the file says.
    ensures found { IfOk result (λ image. IsImage file.now (pairs_of image)) }
    // What the file says is read, unless memory runs out.
    ensures only { (pairs : List (ℕ × ℕ)) → IsImage file.now pairs → Reads result (Ok pairs) }
    // What is refused has this first fault.
    ensures refused { IfErr result (λ e. IfBad e (λ kind. IsRefused file.now kind)) }
    // A file with a first fault is refused for it, unless memory runs out.
    ensures first { (kind : ℕ) → IsRefused file.now kind → Reads result (Err kind) }
{
    match fault_of_file(file) {
        Some(kind) => Err(ElfError::Bad(kind)),
        None => load_all(alloc, file),
    }
}
