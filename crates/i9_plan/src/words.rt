//! Words.
ghost use Rattle.std.specs.Prelude.{◌≡◌, ◌+◌, ◌*◌, ◌<◌};
ghost use Rattle.i9_isa.specs.Words.{bit};
ghost use Rattle.i9_model.specs.Writes.{wrapped};
ghost use Rattle.i9_model.specs.Step.{merged, modified};
ghost use Rattle.i9_model.specs.Calls.{priority_of};

use i9_model::interrupts::PRIORITY_PLACE;

/// A bit of a word.
pub(crate) fn bit(w: u32, place: u32) -> bool
    requires { place < 32 }
    ensures { result ≡ bit w place }
{
    (w >> place) % 2 == 1
}

/// The priority in process controls.
pub(crate) fn priority_of(pc: u32) -> u32
    ensures { result ≡ priority_of pc }
{
    (pc >> PRIORITY_PLACE) % 32
}

/// An old word with other bits where a mask has them.
#[tactic(auto, unfolding(i9_model::specs::Numbers::complement))]
pub(crate) fn merged(old: u32, mask: u32, bits: u32) -> u32
    ensures { result ≡ merged old mask bits }
{
    bits & mask | old & !mask
}

/// Controls with other bits where a mask has them, of which some are kept.
pub(crate) fn modified(old: u32, mask: u32, bits: u32, kept: u32) -> u32
    ensures { result ≡ modified old mask bits kept }
{
    merged(old, mask, bits) & kept
}

/// The address of a word of a group.
pub(crate) fn word_address(a: u32, k: usize) -> u32
    requires { k < 16 }
    ensures { result ≡ wrapped (a + 4 * k) }
{
    a.wrapping_add(4 * k as u32)
}
