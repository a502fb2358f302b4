//! What start-up sets, of the words that it read.
ghost use Rattle.std.specs.Prelude.{◌≡◌, ◌+◌, ◌∷◌, replicate, bit_and, slice_index};
ghost use Rattle.i9_model.specs.Boot.{tables_of};
ghost use Rattle.i9_model.specs.State.{first_frame, start_sets, start_interrupts, start_trace};
ghost use Rattle.i9_model.specs.Writes.{wrapped, written};
ghost use Rattle.i9_ints.specs.Ints.{interrupts_of};
ghost use Rattle.i9_regs.specs.declared.file.File.{File};
ghost use Rattle.i9_processor.specs.State.{registers_of, arithmetic_of};
ghost use Rattle.i9_processor.specs.Issued.{IsStartCovered, IsIssued, KeepsCode};

use crate::landing::Landing;
use crate::registers::{amend_frame, set_frame};
use i9_ints::{Cause, Ints};
use i9_model::layout::{FRAME_SIZE, LOCALS, TC_MASK};
use i9_model::{Breaks, Setup, Tables};
use i9_regs::File;

/// The first frame, at the interrupt stack rounded up.
fn first_frame(setup: &Setup) -> u32
    ensures { result ≡ first_frame setup.now }
{
    setup.interrupt_stack.wrapping_add(15) / 16 * 16
}

/// The locals of the first frame: sp is a frame above fp, and the others are 0.
fn first_locals(frame: u32) -> [u32; LOCALS]
    ensures { result ≡ 0 ∷ wrapped (frame + FRAME_SIZE) ∷ replicate 14 0 }
{
    let mut locals = [0; LOCALS];
    locals[1] = frame.wrapping_add(FRAME_SIZE);
    locals
}

/// Enters the first frame.
pub(crate) fn start_registers(file: &mut File, setup: &Setup)
    ensures registers { registers_of file.new ≡ written (registers_of file.old) (start_sets setup.now) }
    ensures keeps { KeepsCode file.old file.new }
{
    let frame = first_frame(setup);
    set_frame(file, &first_locals(frame), frame);
}

/// Plans the first frame and the condition code, over what the same record has planned, and sets the other arithmetic
/// controls.
pub(crate) fn issue_start(file: &mut File, flags: &mut u32, landing: &Landing, setup: &Setup)
    requires { IsStartCovered landing.now.writes }
    ensures registers { registers_of file.new ≡ written (registers_of file.old) (start_sets setup.now) }
    ensures ac { arithmetic_of flags.new file.new ≡ setup.now.ac }
    ensures issued { (cells : File) → IsIssued landing.now.writes landing.now.done flags.old cells file.old
        → IsIssued landing.now.writes landing.now.done flags.new cells file.new }
{
    let frame = first_frame(setup);
    amend_frame(file, flags, landing, &first_locals(frame), frame, setup.ac);
}

/// Nothing is posted any more, and every line is masked; words of the control table are the interrupt maps and the
/// control word of pins. The levels of pins stay.
pub(crate) fn start_interrupts(ints: &mut Ints, setup: &Setup)
    ensures { interrupts_of ints.new ≡ start_interrupts setup.now (interrupts_of ints.old).low }
{
    ints.set_pending(0);
    ints.set_mask(0);
    ints.clear(Cause::Nmi);
    ints.set_maps([setup.control[4], setup.control[5], setup.control[6]]);
    ints.set_icon(setup.control[7]);
}

/// The breakpoints.
pub(crate) fn start_breaks(setup: &Setup) -> Breaks
    ensures { result ≡ (start_trace setup.now).breaks }
{
    Breaks {
        ipb: [setup.control[0], setup.control[1]],
        dab: [setup.control[2], setup.control[3]],
        bpcon: setup.control[25],
    }
}

/// The trace controls.
pub(crate) fn start_trace_controls(setup: &Setup) -> u32
    ensures { result ≡ (start_trace setup.now).tc }
{
    setup.control[26] & TC_MASK
}

/// The words of the PRCB that are used afterwards.
pub(crate) fn tables_of(setup: &Setup) -> Tables
    ensures { result ≡ tables_of setup.now }
{
    Tables {
        fault_table: setup.fault_table,
        control_table: setup.control_table,
        fault_config: setup.fault_config,
        interrupt_table: setup.interrupt_table,
        system_table: setup.system_table,
        interrupt_stack: setup.interrupt_stack,
        sets: setup.sets,
    }
}
