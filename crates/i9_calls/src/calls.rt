//! Calls to an address and by the system procedure table.
ghost use Rattle.std.specs.Prelude.{◌≡◌, ◌%◌, None, IfOk};
ghost use Rattle.i9_model.specs.declared.layout.TheConstants.{PC_MASK};
ghost use Rattle.i9_model.specs.Hazards.{save_hazard};
ghost use Rattle.i9_model.specs.Calls.{planned_call, planned_calls};
ghost use Rattle.i9_calls.specs.Callers.{caller_of};
ghost use Rattle.i9_memory.specs.Memory.{memory_of};
ghost use Rattle.i9_watch.specs.Watch.{frames_of};
ghost use Rattle.i9_model.specs.Numbers.{IsWithin};

use crate::{enter_system, trace_enable};
use i9_memory::Memory;
use i9_model::layout::{LOCAL_RETURN, MOST_SYSTEM_CALL, SUPERVISOR_RETURN};
use i9_model::{CallsStop, Push, Sys};
use i9_watch::Watch;

/// What a call to an address (call and callx) pushes, from the frame and stack pointers; or the
/// hazard of its save area. After the i960 CA/CF User's Manual, procedure calls.
pub fn plan_call(w: &Watch, fp: u32, sp: u32) -> Result<Push, u32>
    ensures push { result ≡ planned_call (frames_of w.now) fp sp }

    // So the frame can be saved there.
    ensures free { IfOk result (λ p. save_hazard (frames_of w.now) p.save ≡ None) }
    ensures aligned { IfOk result (λ p. p.save % 16 ≡ 0) }
{
    w.plan_push(fp, sp, 0, LOCAL_RETURN)
}

/// What a call of system procedure `n` makes, from the address of the system procedure table, the
/// process controls, and the frame and stack pointers. `Err` is `Length` where there is no such
/// number, which are 0 to 259; or else the hazard of the first access that meets one: the entry in
/// the table, the supervisor stack word where stacks are switched, the save area. After the i960
/// CA/CF User's Manual, system calls.
pub fn plan_calls(
    m: &Memory,
    w: &Watch,
    table: u32,
    n: u32,
    pc: u32,
    fp: u32,
    sp: u32,
) -> Result<Sys, CallsStop>
    ensures sys { result ≡ planned_calls (caller_of (memory_of m.now) (frames_of w.now) pc fp sp) table n }

    // So the frame can be saved there.
    ensures free { IfOk result (λ s. save_hazard (frames_of w.now) s.push.save ≡ None) }
    ensures aligned { IfOk result (λ s. s.push.save % 16 ≡ 0) }

    // No bit of PC is set that is not kept.
    ensures kept { IsWithin PC_MASK pc → IfOk result (λ s. IsWithin PC_MASK s.pc) }
{
    if n > MOST_SYSTEM_CALL {
        return Err(CallsStop::Length);
    }
    let kind_switched = SUPERVISOR_RETURN + trace_enable(pc) as u8;
    let sys = enter_system(m, w, table, n, pc, fp, sp, 0, LOCAL_RETURN, kind_switched);
    sys.map_err(CallsStop::Hazard)
}
