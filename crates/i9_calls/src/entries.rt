//! Procedures that are entered at an address and by the system procedure table.
ghost use Rattle.std.specs.Prelude.{◌≡◌, ◌%◌, ◌<◌, ◌⊎◌, None, IfOk};
ghost use Rattle.i9_model.specs.declared.layout.TheConstants.{PC_MASK};
ghost use Rattle.i9_model.specs.Frames.{rounded_down};
ghost use Rattle.i9_model.specs.Hazards.{read_hazard, save_hazard, unless};
ghost use Rattle.i9_model.specs.Memory.{word_in};
ghost use Rattle.i9_model.specs.Calls.{entry_address, stack_address, is_switch, entered_here, entered_switched};
ghost use Rattle.i9_model.specs.Calls.{planned_system};
ghost use Rattle.i9_memory.specs.Memory.{memory_of};
ghost use Rattle.i9_watch.specs.Watch.{frames_of};
ghost use Rattle.i9_model.specs.Numbers.{IsWithin};
ghost use Rattle.i9_calls.specs.Callers.{caller_of};
ghost use Rattle.i9_calls.specs.Kinds.{kind_by};
ghost use Rattle.i9_calls.specs.Switches.{system_switch};

use crate::controls::{in_supervisor_mode, trace_enable, with_supervisor};
use crate::words::{WORD_SIZE, aligned, read_word};
use i9_memory::Memory;
use i9_model::Sys;
use i9_model::layout::{ASKS_SUPERVISOR_PLACE, SUPERVISOR_STACK, SYSTEM_TABLE_ENTRIES};
use i9_watch::Watch;

/// Whether an entry of the system procedure table is entered with a switch of stacks.
fn is_switch(entry: u32, pc: u32) -> bool
    ensures { result ≡ is_switch entry pc }
{
    (entry >> ASKS_SUPERVISOR_PLACE) % 2 == 1 && !in_supervisor_mode(pc)
}

/// What the entry of a procedure at an address makes: `target` is the address, of which the low two
/// bits do not count, and the process controls `pc` stay. The frame at `fp` is saved; the new one is
/// above `base`, which is the stack pointer or the beginning of another stack, and above a record of
/// `extra` bytes, 0 or 16; its return type is `kind`, the low three bits of pfp. `Err` is the hazard
/// of the save area. After the i960 CA/CF User's Manual, procedure calls, faults and interrupts.
pub fn enter_here(
    w: &Watch,
    target: u32,
    pc: u32,
    fp: u32,
    base: u32,
    extra: u32,
    kind: u8,
) -> Result<Sys, u32>
    requires extra { (extra ≡ 0) ⊎ (extra ≡ 16) }
    requires kind { kind < 8 }
    ensures sys { result ≡ unless (save_hazard (frames_of w.now) (rounded_down fp))
        (entered_here target pc fp base extra kind) }

    // So the frame can be saved there.
    ensures free { IfOk result (λ s. save_hazard (frames_of w.now) s.push.save ≡ None) }
    ensures aligned { IfOk result (λ s. s.push.save % 16 ≡ 0) }

    // And a record can be looked at below the new one.
    ensures above { IfOk result (λ s. s.push.frame % 16 ≡ 0) }

    // No bit of PC is set that is not kept.
    ensures kept { IsWithin PC_MASK pc → IfOk result (λ s. IsWithin PC_MASK s.pc) }
{
    let push = w.plan_push(fp, base, extra, kind)?;
    Ok(Sys {
        push,
        target: aligned(target),
        pc,
        switched: false,
    })
}

/// What the entry of a procedure makes, by its word in the table, on the supervisor stack, of which
/// `stack` is the word in the table.
fn enter_switched(
    w: &Watch,
    entry: u32,
    stack: u32,
    pc: u32,
    fp: u32,
    extra: u32,
    kind: u8,
) -> Result<Sys, u32>
    requires extra { (extra ≡ 0) ⊎ (extra ≡ 16) }
    requires kind { kind < 8 }
    ensures sys { result ≡ unless (save_hazard (frames_of w.now) (rounded_down fp))
        (entered_switched entry stack pc fp extra kind) }
    ensures free { IfOk result (λ s. save_hazard (frames_of w.now) s.push.save ≡ None) }
    ensures aligned { IfOk result (λ s. s.push.save % 16 ≡ 0) }
    ensures above { IfOk result (λ s. s.push.frame % 16 ≡ 0) }
    ensures kept { IsWithin PC_MASK pc → IfOk result (λ s. IsWithin PC_MASK s.pc) }
{
    let sys = enter_here(w, entry, pc, fp, aligned(stack), extra, kind)?;
    Ok(Sys {
        pc: with_supervisor(pc, trace_enable(stack)),
        switched: true,
        ..sys
    })
}

/// The word of procedure `n` in the system procedure table at `table`.
fn procedure_word(m: &Memory, w: &Watch, table: u32, n: u32) -> Result<u32, u32>
    ensures { result ≡ unless (read_hazard (frames_of w.now) (entry_address table n) 4)
        (word_in (memory_of m.now) (entry_address table n)) }
{
    let offset = SYSTEM_TABLE_ENTRIES.wrapping_add(n.wrapping_mul(WORD_SIZE));
    read_word(m, w, table.wrapping_add(offset))
}

/// The supervisor stack word of the system procedure table at `table`.
fn stack_word(m: &Memory, w: &Watch, table: u32) -> Result<u32, u32>
    ensures { result ≡ unless (read_hazard (frames_of w.now) (stack_address table) 4)
        (word_in (memory_of m.now) (stack_address table)) }
{
    read_word(m, w, table.wrapping_add(SUPERVISOR_STACK))
}

/// Whether the entry of procedure `n` of the system procedure table at `table` switches stacks, by
/// the process controls. `Err` is the hazard of the first read that meets one: the procedure's word
/// in the table, the supervisor stack word where stacks are switched. After the i960 CA/CF User's
/// Manual, system calls.
pub fn system_switches(m: &Memory, w: &Watch, table: u32, n: u32, pc: u32) -> Result<bool, u32>
    ensures { result ≡ system_switch (memory_of m.now) (frames_of w.now) table n pc }
{
    let entry = procedure_word(m, w, table, n)?;
    let is_switched = is_switch(entry, pc);
    if is_switched {
        let _stack = stack_word(m, w, table)?;
    }
    Ok(is_switched)
}

/// What the entry of procedure `n` of the system procedure table at `table` makes, from the process
/// controls and the frame and stack pointers; whether there is such a procedure is for the caller to
/// know. The new frame is above a record of `extra` bytes, 0 or 16; its return type, the low three
/// bits of pfp, is `kind_switched` where stacks are switched and `kind_here` elsewhere. `Err` is the
/// hazard of the first access that meets one: the procedure's word in the table, the supervisor
/// stack word where stacks are switched, the save area. After the i960 CA/CF User's Manual, system
/// calls.
#[tactic(auto, unfolding(i9_model::specs::Calls::system_hazard, i9_model::specs::Calls::system_entered))]
pub fn enter_system(
    m: &Memory,
    w: &Watch,
    table: u32,
    n: u32,
    pc: u32,
    fp: u32,
    sp: u32,
    extra: u32,
    kind_here: u8,
    kind_switched: u8,
) -> Result<Sys, u32>
    requires extra { (extra ≡ 0) ⊎ (extra ≡ 16) }
    requires here { kind_here < 8 }
    requires switched { kind_switched < 8 }
    ensures sys { result ≡ planned_system (caller_of (memory_of m.now) (frames_of w.now) pc fp sp) table n extra
        (kind_by kind_here kind_switched) }

    // So the frame can be saved there.
    ensures free { IfOk result (λ s. save_hazard (frames_of w.now) s.push.save ≡ None) }
    ensures aligned { IfOk result (λ s. s.push.save % 16 ≡ 0) }

    // And a record can be looked at below the new one.
    ensures above { IfOk result (λ s. s.push.frame % 16 ≡ 0) }

    // No bit of PC is set that is not kept.
    ensures kept { IsWithin PC_MASK pc → IfOk result (λ s. IsWithin PC_MASK s.pc) }
{
    let entry = procedure_word(m, w, table, n)?;
    if !is_switch(entry, pc) {
        return enter_here(w, entry, pc, fp, sp, extra, kind_here);
    }
    let stack = stack_word(m, w, table)?;
    enter_switched(w, entry, stack, pc, fp, extra, kind_switched)
}
