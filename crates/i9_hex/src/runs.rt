//! The maximal runs of the bytes of an image.
ghost use Rattle.std.specs.Prelude.{◌≡◌, ◌++◌, map, OnOk, IfOk, if◌then◌else◌};
ghost use Rattle.std.specs.List.{All};
ghost use Rattle.i9_model.specs.Image.{upwards, pairs_of};
ghost use Rattle.i9_hex.specs.Put.{with_pair};
ghost use Rattle.i9_hex.specs.Shown.{part_of};
ghost use Rattle.i9_hex.specs.Runs.{SaySameBytes, AreRunsOf, AreRuns};
ghost use Rattle.i9_hex.specs.Pairs.{IsPlaced, AreInOrder, begins_at};

use crate::{Segment, Segments};
use i9_isa::NoMemory;
use std::alloc::{AllocError, Global};

/// A byte at an address.
type Placed = (u32, u8);

/// Appends bytes that stand from an address on.
fn add_bytes(pairs: &mut Vec<Placed>, start: u32, bytes: &[u8]) -> Result<(), AllocError>
    ensures { OnOk result (pairs.new.items ≡ pairs.old.items ++ upwards start bytes.now) }
{
    let mut address = start;
    for &byte in bytes {
        pairs.push((address, byte))?;
        address = address.wrapping_add(1);
    }
    Ok(())
}

/// The bytes of segments, each with its address.
fn bytes_of(alloc: Global, segments: &[Segment]) -> Result<Vec<Placed>, AllocError>
    ensures { IfOk result (λ pairs. pairs.items ≡ pairs_of (map part_of segments.now)) }
{
    let mut pairs = Vec::new(alloc);
    for segment in segments {
        add_bytes(&mut pairs, segment.address, &segment.bytes)?;
    }
    Ok(pairs)
}

/// The bytes of an image by their addresses. Of bytes at one address the later stands behind.
fn sorted_bytes(alloc: Global, image: &Segments) -> Result<Vec<Placed>, AllocError>
    ensures placed { IfOk result (λ pairs. All IsPlaced pairs.items) }
    ensures order { IfOk result (λ pairs. AreInOrder pairs.items) }
    ensures same { IfOk result (λ pairs. SaySameBytes (pairs_of image.now) pairs.items) }
{
    let mut pairs = bytes_of(alloc, image.as_slice())?;
    pairs.sort_by_key(|pair| pair.0)?;
    Ok(pairs)
}

/// Appends a byte to the runs, unless the next one has its address too.
fn put_last(runs: &mut Segments, byte: Placed, after: &[Placed]) -> Result<(), NoMemory>
    ensures { OnOk result (runs.new
        ≡ (if begins_at after.now byte.0 then runs.old else with_pair runs.old byte.0 byte.1)) }
{
    match after {
        [next, ..] if next.0 == byte.0 => Ok(()),
        _ => runs.put(byte.0, byte.1),
    }
}

/// The runs of bytes that stand in order.
fn joined(alloc: Global, pairs: &[Placed]) -> Result<Segments, NoMemory>
    requires placed { All IsPlaced pairs.now }
    requires order { AreInOrder pairs.now }
    ensures { IfOk result (λ runs. AreRunsOf pairs.now runs) }
{
    let mut runs = Segments::new(alloc);
    let mut rest = pairs;
    while let [byte, after @ ..] = rest {
        put_last(&mut runs, *byte, after)?;
        rest = after;
    }
    Ok(runs)
}

/// The maximal runs of an image's bytes, in ascending order. Of bytes at one address the later
/// counts; what goes on from FFFFFFFF to 0 is two runs.
pub fn runs_of(alloc: Global, image: &Segments) -> Result<Segments, NoMemory>
    ensures { IfOk result (λ runs. AreRuns image.now runs) }
{
    match sorted_bytes(alloc, image) {
        Ok(pairs) => joined(alloc, &pairs),
        Err(AllocError) => Err(NoMemory),
    }
}
