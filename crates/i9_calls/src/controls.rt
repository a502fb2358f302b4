//! Supervisor mode and trace enable in the process controls.
ghost use Rattle.std.specs.Prelude.{◌≡◌, ◌<◌};
ghost use Rattle.i9_model.specs.declared.layout.TheConstants.{PC_MASK};
ghost use Rattle.i9_model.specs.Calls.{in_supervisor_mode, trace_enable, with_supervisor, without_supervisor};
ghost use Rattle.i9_model.specs.Numbers.{IsWithin};

use crate::words::aligned;
use i9_model::layout::SUPERVISOR_PLACE;

/// Whether the process controls `pc` are those of supervisor mode, by bit 1 (i960 CA/CF User's
/// Manual, process controls).
pub fn in_supervisor_mode(pc: u32) -> bool
    ensures { result ≡ in_supervisor_mode pc }
{
    (pc >> SUPERVISOR_PLACE) % 2 == 1
}

/// Trace enable, 0 or 1, which is bit 0 of the process controls and of the supervisor stack word
/// (i960 CA/CF User's Manual, process controls).
pub fn trace_enable(word: u32) -> u32
    ensures value { result ≡ trace_enable word }
    ensures range { result < 2 }
{
    word % 2
}

/// The process controls in supervisor mode, with another trace enable, 0 or 1.
#[tactic(auto, using(i9_model::proofs::KeptBits::same_above))]
pub(crate) fn with_supervisor(pc: u32, trace: u32) -> u32
    requires { trace < 2 }
    ensures value { result ≡ with_supervisor pc trace }
    ensures kept { IsWithin PC_MASK pc → IsWithin PC_MASK result }
{
    aligned(pc) + (1 << SUPERVISOR_PLACE) + trace
}

/// The process controls in user mode, with another trace enable, 0 or 1 (i960 CA/CF User's Manual,
/// process controls).
#[tactic(auto, using(i9_model::proofs::KeptBits::same_above))]
pub fn without_supervisor(pc: u32, trace: u32) -> u32
    requires { trace < 2 }
    ensures value { result ≡ without_supervisor pc trace }

    // No bit of PC is set that is not kept.
    ensures kept { IsWithin PC_MASK pc → IsWithin PC_MASK result }
{
    aligned(pc) + trace
}
