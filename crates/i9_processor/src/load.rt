//! The image in memory.
ghost use Rattle.std.specs.Prelude.{◌≡◌, OnOk, map};
ghost use Rattle.i9_hex.specs.Shown.{part_of};
ghost use Rattle.i9_memory.specs.Memory.{memory_of};
ghost use Rattle.i9_model.specs.Image.{pairs_of};
ghost use Rattle.i9_model.specs.Memory.{with_writes};
ghost use Rattle.i9_processor.specs.Pages.{AddsRoomFor};

use i9_hex::{Segment, Segments};
use i9_isa::NoMemory;
use i9_memory::Memory;

/// Stores the bytes of segments.
#[tactic(auto, using(crate::proofs::Loading::load_rules))]
fn load_all(memory: &mut Memory, segments: &[Segment]) -> Result<(), NoMemory>
    ensures ok { OnOk result
        (memory_of memory.new ≡ with_writes (memory_of memory.old) (pairs_of (map part_of segments.now))) }
    ensures only { AddsRoomFor memory.old memory.new (pairs_of (map part_of segments.now)) }
{
    for segment in segments {
        memory.load(segment.address, &segment.bytes)?;
    }
    Ok(())
}

/// Stores the bytes of an image, and makes room for no others but those of their pages.
pub(crate) fn load(memory: &mut Memory, image: &Segments) -> Result<(), NoMemory>
    ensures ok { OnOk result (memory_of memory.new ≡ with_writes (memory_of memory.old) (pairs_of image.now)) }
    ensures only { AddsRoomFor memory.old memory.new (pairs_of image.now) }
{
    load_all(memory, image.as_slice())
}
