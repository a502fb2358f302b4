//! The entry of an interrupt.
ghost use Rattle.std.specs.Prelude.{◌≡◌, ◌%◌, None, IfOk};
ghost use Rattle.i9_model.specs.Hazards.{save_hazard, record_write_hazard};
ghost use Rattle.i9_model.specs.Interrupts.{vector_place, base_for, interrupt_pc, interrupt_record, clearing_hazard};
ghost use Rattle.i9_model.specs.Interrupts.{planned_interrupt};
ghost use Rattle.i9_memory.specs.Memory.{memory_of};
ghost use Rattle.i9_watch.specs.Watch.{frames_of};
ghost use Rattle.i9_calls.specs.Callers.{caller_of};
ghost use Rattle.i9_ints.specs.After.{memory_after, frames_after};

use crate::after::cleared_hazard;
use crate::requests::VECTORS;
use crate::{IntEntry, Ints};
use i9_calls::{enter_here, read_word, record_write_hazard};
use i9_memory::Memory;
use i9_model::Chosen;
use i9_model::interrupts::{INTERRUPTED_PLACE, PRIORITY_PLACE, VECTOR_WORDS};
use i9_model::layout::{INTERRUPT_RETURN, RECORD_SIZE, SUPERVISOR_PLACE};
use i9_watch::Watch;

/// The address of a vector's word in the interrupt table.
pub fn vector_place(table: u32, vector: u8) -> u32
    ensures { result ≡ vector_place table vector }
{
    table.wrapping_add(VECTOR_WORDS + 4 * u32::from(vector))
}

/// Where a handler's frame begins: on the stack in use while an interrupt is handled, and else on
/// the interrupt stack.
fn base_for(pc: u32, sp: u32, stack: u32) -> u32
    ensures { result ≡ base_for pc sp stack }
{
    if (pc >> INTERRUPTED_PLACE) % 2 == 1 {
        sp
    } else {
        stack
    }
}

/// The process controls of a vector's handler: its priority, supervisor mode, interrupted, and no
/// trace.
fn interrupt_pc(vector: u8) -> u32
    ensures { result ≡ interrupt_pc vector }
{
    (u32::from(vector / VECTORS) << PRIORITY_PLACE)
        + (1 << INTERRUPTED_PLACE)
        + (1 << SUPERVISOR_PLACE)
}

/// The words of the record of an interrupt, from the process and arithmetic controls before its
/// entry.
fn interrupt_record(vector: u8, pc: u32, ac: u32) -> [u32; 4]
    ensures { result ≡ interrupt_record vector pc ac }
{
    [pc, ac, u32::from(vector), 0]
}

impl Ints {
    /// What the entry of an interrupt makes, from the addresses of the interrupt table and of the
    /// interrupt stack, the process and arithmetic controls, and the frame and stack pointers (i960
    /// CA/CF User's Manual, interrupts; the layout of the record is this project's own). The
    /// vector's word in the table is the handler's address. The handler's frame stands above the
    /// record, on the stack in use while an interrupt is handled and else on the interrupt stack,
    /// with the return type of an interrupt. The process controls get the priority of the vector,
    /// supervisor mode and the bit of an interrupt that is handled, and nothing else.
    ///
    /// `Err` is the hazard of the first access that meets one: the vector's word, the save area, the
    /// record, which is written once the frame is saved, and what `take` then reads and writes.
    #[tactic(auto, unfolding(i9_model::specs::Interrupts::planned_interrupt_by, i9_model::specs::Interrupts::interrupt_hazard))]
    pub fn plan_int(
        &self,
        m: &Memory,
        w: &Watch,
        table: u32,
        stack: u32,
        c: &Chosen,
        pc: u32,
        ac: u32,
        fp: u32,
        sp: u32,
    ) -> Result<IntEntry, u32>
        ensures entry { result
            ≡ planned_interrupt (caller_of (memory_of m.now) (frames_of w.now) pc fp sp) table stack c.now ac }

        // So the frame can be saved there.
        ensures free { IfOk result (λ e. save_hazard (frames_of w.now) e.push.save ≡ None) }
        ensures aligned { IfOk result (λ e. e.push.save % 16 ≡ 0) }

        // The record can be written below the new one.
        ensures record { IfOk result (λ e. record_write_hazard (frames_of w.now) e.push ≡ None) }

        // And then what chose the interrupt can be cleared.
        ensures take { IfOk result (λ e. clearing_hazard c.now.cause (memory_after (memory_of m.now) e.push e.words)
            (frames_after (memory_of m.now) (frames_of w.now) e.push e.words) table c.now.vector ≡ None) }
    {
        let target = read_word(m, w, vector_place(table, c.vector))?;
        let base = base_for(pc, sp, stack);
        let sys = enter_here(w, target, pc, fp, base, RECORD_SIZE, INTERRUPT_RETURN)?;
        if let Some(hazard) = record_write_hazard(w, sys.push) {
            return Err(hazard);
        }
        let entry = IntEntry {
            push: sys.push,
            target: sys.target,
            pc: interrupt_pc(c.vector),
            words: interrupt_record(c.vector, pc, ac),
        };
        match cleared_hazard(m, w, table, c, &entry) {
            Some(hazard) => Err(hazard),
            None => Ok(entry),
        }
    }
}
