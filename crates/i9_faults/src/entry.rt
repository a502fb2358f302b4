//! The entry of a fault.
ghost use Rattle.std.specs.Prelude.{◌≡◌, ◌%◌, None, IfOk};
ghost use Rattle.i9_model.specs.Hazards.{save_hazard};
ghost use Rattle.i9_model.specs.Calls.{save_area};
ghost use Rattle.i9_model.specs.Faults.{without_trace, fault_record, table_entry, planned_frame, planned_fault};
ghost use Rattle.i9_model.specs.Hazards.{record_write_hazard};
ghost use Rattle.i9_memory.specs.Memory.{memory_of};
ghost use Rattle.i9_watch.specs.Watch.{frames_of};
ghost use Rattle.i9_calls.specs.Callers.{caller_of};
ghost use Rattle.i9_faults.specs.Switches.{handler_switch, fault_switch};

use crate::handlers::plan_handler;
use i9_calls::{enter_here, enter_system, record_write_hazard, system_switches};
use i9_memory::Memory;
use i9_model::faults::{FAULT_ENTRY_SIZE, TRACE_MASK};
use i9_model::layout::{FAULT_RETURN, RECORD_SIZE};
use i9_model::{Entry, Fault, FaultStop, Handler, Sys};
use i9_watch::Watch;

/// A handler is entered above a record, with the return type of a fault.
#[tactic(auto, unfolding(i9_model::specs::Faults::planned_frame, i9_model::specs::Calls::system_hazard, i9_model::specs::Calls::system_entered))]
fn enter_handler(
    m: &Memory,
    w: &Watch,
    system: u32,
    handler: Handler,
    pc: u32,
    fp: u32,
    sp: u32,
) -> Result<Sys, u32>
    ensures sys { result ≡ planned_frame (caller_of (memory_of m.now) (frames_of w.now) pc fp sp) system
        (save_area (frames_of w.now) fp) handler }
    ensures free { IfOk result (λ s. save_hazard (frames_of w.now) s.push.save ≡ None) }
    ensures aligned { IfOk result (λ s. s.push.save % 16 ≡ 0) }
    ensures above { IfOk result (λ s. s.push.frame % 16 ≡ 0) }
{
    match handler {
        Handler::Local(target) => enter_here(w, target, pc, fp, sp, RECORD_SIZE, FAULT_RETURN),
        Handler::System(n) => enter_system(
            m,
            w,
            system,
            n,
            pc,
            fp,
            sp,
            RECORD_SIZE,
            FAULT_RETURN,
            FAULT_RETURN,
        ),
    }
}

/// Process controls with trace enable and trace fault pending cleared.
fn without_trace(pc: u32) -> u32
    ensures { result ≡ without_trace pc }
{
    pc & !TRACE_MASK
}

/// The words of the record of a fault, from the process and arithmetic controls before its entry.
fn fault_record(f: &Fault, pc: u32, ac: u32) -> [u32; 4]
    ensures { result ≡ fault_record f.now pc ac }
{
    let number = (u32::from(f.kind) << 16) + u32::from(f.subtype);
    [pc, ac, number, f.address]
}

/// Where the fault table at `table` has the entry of a fault.
fn entry_of(table: u32, f: &Fault) -> u32
    ensures { result ≡ table_entry table f.now.kind }
{
    table.wrapping_add(FAULT_ENTRY_SIZE * u32::from(f.kind))
}

/// Whether a handler is entered with a switch of stacks.
fn handler_switches(
    m: &Memory,
    w: &Watch,
    system: u32,
    pc: u32,
    handler: Handler,
) -> Result<bool, u32>
    ensures { result ≡ handler_switch (memory_of m.now) (frames_of w.now) system pc handler }
{
    match handler {
        Handler::Local(_) => Ok(false),
        Handler::System(n) => system_switches(m, w, system, n, pc),
    }
}

/// Whether the entry of a fault switches stacks, from the addresses of the fault table and of the
/// system procedure table, and the process controls. `Err` is what stops it before its push: the
/// hazard of the entry's two words; a dead entry; the hazard of the procedure's word in its table,
/// and of the supervisor stack word where stacks are switched. After the i960 CA/CF User's Manual,
/// faults.
#[tactic(auto, unfolding(crate::specs::Switches::fault_switch))]
pub fn fault_switches(
    m: &Memory,
    w: &Watch,
    table: u32,
    system: u32,
    f: &Fault,
    pc: u32,
) -> Result<bool, FaultStop>
    ensures { result ≡ fault_switch (memory_of m.now) (frames_of w.now) table system f.now pc }
{
    let handler = plan_handler(m, w, entry_of(table, f))?;
    handler_switches(m, w, system, pc, handler).map_err(FaultStop::Hazard)
}

/// What the entry of a fault makes, from the addresses of the fault table and of the system
/// procedure table, the process and arithmetic controls, and the frame and stack pointers (i960
/// CA/CF User's Manual, faults; the layout of the record is this project's own). The fault table has
/// two words for each type: the address of a handler, which is entered on the stack in use, or the
/// number of a system procedure, which is entered as by a system call. The handler's frame stands
/// above the record and has the return type of a fault; trace enable and trace fault pending are
/// cleared.
///
/// `Err` is what comes first: the hazard of the entry's two words; a dead entry; the hazard of the
/// procedure's word in its table, of the supervisor stack word where stacks are switched, of the
/// save area, and of the record, which is written once the frame is saved.
#[tactic(auto, unfolding(i9_model::specs::Faults::planned_fault_by))]
pub fn plan_fault(
    m: &Memory,
    w: &Watch,
    table: u32,
    system: u32,
    f: &Fault,
    pc: u32,
    ac: u32,
    fp: u32,
    sp: u32,
) -> Result<Entry, FaultStop>
    ensures entry { result
        ≡ planned_fault (caller_of (memory_of m.now) (frames_of w.now) pc fp sp) table system f.now ac }

    // So the frame can be saved there.
    ensures free { IfOk result (λ e. save_hazard (frames_of w.now) e.push.save ≡ None) }
    ensures aligned { IfOk result (λ e. e.push.save % 16 ≡ 0) }

    // And the record can be written below the new one.
    ensures record { IfOk result (λ e. record_write_hazard (frames_of w.now) e.push ≡ None) }
{
    let handler = plan_handler(m, w, entry_of(table, f))?;
    let sys = enter_handler(m, w, system, handler, pc, fp, sp).map_err(FaultStop::Hazard)?;
    if let Some(hazard) = record_write_hazard(w, sys.push) {
        return Err(FaultStop::Hazard(hazard));
    }
    Ok(Entry {
        push: sys.push,
        target: sys.target,
        pc: without_trace(sys.pc),
        words: fault_record(f, pc, ac),
    })
}
