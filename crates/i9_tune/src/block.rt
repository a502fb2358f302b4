//! The block that stands in an image.
ghost use Rattle.std.specs.Prelude.{◌≡◌, length, map, IfOk};
ghost use Rattle.i9_isa.specs.Valid.{IsValid};
ghost use Rattle.i9_model.specs.Writes.{last_put};
ghost use Rattle.i9_model.specs.Image.{pairs_of, pairs_of_part};
ghost use Rattle.i9_hex.specs.Shown.{part_of};
ghost use Rattle.i9_tune.specs.Greedy.{AreTunable};
ghost use Rattle.i9_tune.specs.Reading.{kind_of, word_at, fitting, inst_at, block_at, Answers, IsFitting};

use crate::kinds::allowed;
use i9_decode::decode;
use i9_hex::{Segment, Segments};
use i9_isa::{BadWord, Inst, word_count};
use std::alloc::Global;

/// After so many bytes addresses come again.
const ADDRESSES: usize = 0x1_0000_0000;

/// What keeps an instruction from a block. The kinds are this project's own.
#[derive(Clone, Copy, Debug, PartialEq, Eq)]
pub enum Flaw {
    /// Kind 1: a byte of its words is not loaded.
    NotLoaded,
    /// Kind 2: its word is refused, or a block may not have it.
    NotAllowed,
}

impl Flaw {
    /// The kind.
    #[tactic(auto, unfolding(crate::specs::Reading::kind_of))]
    pub fn kind(self) -> u8
        ensures { result ≡ kind_of self }
    {
        match self {
            Flaw::NotLoaded => 1,
            Flaw::NotAllowed => 2,
        }
    }
}

/// The first instruction at fault of a block: its address, and what keeps it from the block.
#[derive(Clone, Copy, Debug, PartialEq, Eq)]
pub struct BlockFault {
    pub flaw: Flaw,
    pub address: u32,
}

/// Why there is no block.
#[derive(Debug, Drop)]
pub enum BlockError {
    /// One of its instructions is at fault.
    Bad(BlockFault),
    /// Memory was refused.
    Memory,
}

/// The byte that a segment has at an address: of more than one the last.
fn byte_of(segment: &Segment, a: u32) -> Option<u8>
    ensures { result ≡ last_put (pairs_of_part (part_of segment.now)) a }
{
    let place = a.wrapping_sub(segment.address) as usize;
    let behind = segment.bytes.len().saturating_sub(place + 1);
    segment
        .bytes
        .get(place + behind / ADDRESSES * ADDRESSES)
        .copied()
}

/// The byte that an image has at an address: of more than one the last.
fn byte_in(image: &[Segment], a: u32) -> Option<u8>
    ensures { result ≡ last_put (pairs_of (map part_of image.now)) a }
{
    let mut found = None;
    for segment in image {
        found = byte_of(segment, a).or(found);
    }
    found
}

/// The word at an address, low byte first, where all of its bytes are loaded.
fn word_at(image: &[Segment], a: u32) -> Option<u32>
    ensures { result ≡ word_at (last_put (pairs_of (map part_of image.now))) a }
{
    let first = byte_in(image, a)?;
    let second = byte_in(image, a.wrapping_add(1))?;
    let third = byte_in(image, a.wrapping_add(2))?;
    let fourth = byte_in(image, a.wrapping_add(3))?;
    Some(u32::from_le_bytes([first, second, third, fourth]))
}

/// What was decoded, where a block may have it.
fn fitting(decoded: Result<Inst, BadWord>) -> Result<Inst, Flaw>
    requires { IfOk decoded (λ i. IsValid i) }
    ensures inst { result ≡ fitting decoded }
    ensures fits { IfOk result IsFitting }
{
    match decoded {
        Ok(inst) if allowed(&inst) => Ok(inst),
        _ => Err(Flaw::NotAllowed),
    }
}

/// The instruction at an address, where its words are loaded and a block may have it.
fn inst_at(image: &[Segment], a: u32) -> Result<Inst, Flaw>
    ensures inst { result ≡ inst_at (last_put (pairs_of (map part_of image.now))) a }
    ensures fits { IfOk result IsFitting }
{
    let Some(first) = word_at(image, a) else {
        return Err(Flaw::NotLoaded);
    };
    let alone = decode(first, 0);
    let long = match &alone {
        Ok(inst) => word_count(inst) == 2,
        Err(_) => false,
    };
    if !long {
        return fitting(alone);
    }
    match word_at(image, a.wrapping_add(4)) {
        Some(second) => fitting(decode(first, second)),
        None => Err(Flaw::NotLoaded),
    }
}

/// The block of so many instructions that stands in an image from an address on, by words whose low byte comes first.
/// Addresses run on from FFFFFFFF to 0. Where an instruction has a byte of its words that is not loaded, is refused, or
/// is one that a block may not have, the first such one is answered; a byte that is not loaded, also of its second
/// word, comes before the rest.
pub fn block_in(
    alloc: Global,
    image: &Segments,
    address: u32,
    count: u8,
) -> Result<Vec<Inst>, BlockError>
    ensures block { Answers result (block_at (last_put (pairs_of image.now)) count address) }
    ensures tunable { IfOk result (λ block. AreTunable block.items) }
    ensures count { IfOk result (λ block. length block.items ≡ count) }
{
    let mut block = Vec::new(alloc);
    let mut at = address;
    'more: for _ in 0..count {
        match inst_at(image.as_slice(), at) {
            Ok(inst) => {
                at = at.wrapping_add(4 * word_count(&inst));
                if block.push(inst).is_err() {
                    return Err(BlockError::Memory);
                }
            }
            Err(flaw) => return Err(BlockError::Bad(BlockFault { flaw, address: at })),
        }
    }
    Ok(block)
}
