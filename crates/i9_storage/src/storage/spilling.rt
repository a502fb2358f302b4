//! Frames that go from the sets to memory, where nothing waits to be stored there.
ghost use Rattle.std.specs.Prelude.{◌≡◌, ◌+◌, ◌<◌, [], length};
ghost use Rattle.i9_model.specs.declared.layout.TheConstants.{FRAME_SIZE};
ghost use Rattle.i9_model.specs.Memory.{with_words};
ghost use Rattle.i9_model.specs.HeldFrames.{spilled, holding, written_back};
ghost use Rattle.i9_queue.specs.Behind.{settled, waiting_of};
ghost use Rattle.i9_storage.specs.Kept.{cache_in, HaveRoom, KeepsBehind};

use i9_frames::{Frame, Sets};
use i9_queue::Behind;

/// Holds a frame. Where all sets are taken, the oldest frame goes to memory.
pub(super) fn hold(behind: &mut Behind, sets: &mut Sets, f: Frame)
    requires drained { waiting_of behind.old ≡ [] }
    requires room { HaveRoom behind.old sets.old.frames }
    ensures cache { cache_in behind.new sets.new ≡ holding sets.old.size f (cache_in behind.old sets.old) }
    ensures size { sets.new.size ≡ sets.old.size }
    ensures keeps { KeepsBehind behind.old behind.new }
{
    if let Some(oldest) = sets.push(f) {
        behind.put_words(oldest.address, &oldest.words);
    }
}

/// Writes the oldest held frame to memory.
#[tactic(auto, using(crate::proofs::HeldRooms::spill_rules))]
fn spill(behind: &mut Behind, sets: &mut Sets)
    requires some { 0 < length sets.old.frames }
    requires drained { waiting_of behind.old ≡ [] }
    requires room { HaveRoom behind.old sets.old.frames }
    ensures cache { cache_in behind.new sets.new ≡ spilled sets.old.frames (settled behind.old) }
    ensures fewer { length sets.new.frames + 1 ≡ length sets.old.frames }
    ensures room { HaveRoom behind.new sets.new.frames }
    ensures size { sets.new.size ≡ sets.old.size }
    ensures keeps { KeepsBehind behind.old behind.new }
{
    if let Some(f) = sets.drain_oldest() {
        behind.put_words(f.address, &f.words);
    }
}

/// Writes all held frames to memory, the oldest first.
#[tactic(auto, using(crate::proofs::HeldRooms::flush_rules))]
pub(super) fn write_back(behind: &mut Behind, sets: &mut Sets)
    requires drained { waiting_of behind.old ≡ [] }
    requires room { HaveRoom behind.old sets.old.frames }
    ensures cache { cache_in behind.new sets.new ≡ written_back (cache_in behind.old sets.old) }
    ensures size { sets.new.size ≡ sets.old.size }
    ensures keeps { KeepsBehind behind.old behind.new }
{
    for _ in 0..sets.len() {
        spill(behind, sets);
    }
}
