//! What modac, modtc, modpc and sysctl will do.
ghost use Rattle.std.specs.Prelude.{◌≡◌, ◌<◌, false};
ghost use Rattle.i9_isa.specs.declared.op.Op.TheVariants.{Sysctl};
ghost use Rattle.i9_isa.specs.Valid.{IsValid};
ghost use Rattle.i9_model.specs.Boot.{table_word};
ghost use Rattle.i9_model.specs.Frames.{flushed};
ghost use Rattle.i9_model.specs.Tables.{tables_hazard, group_hazard};
ghost use Rattle.i9_model.specs.Operands.{value};
ghost use Rattle.i9_model.specs.Faults.{is_invalid};
ghost use Rattle.i9_model.specs.Step.{Flushes, AsksRestart, AsksGroup, passing, moved, argument_of, interrupt_asked};
ghost use Rattle.i9_model.specs.Step.{asked_message};
ghost use Rattle.i9_model.specs.Step.{modac_action, modtc_action, modpc_action};
ghost use Rattle.i9_processor.specs.Effect.{CanControl, IsEffect, control_in};
ghost use Rattle.i9_processor.specs.State.{state_of, IsDrained};
ghost use Rattle.i9_plan.specs.Planned.{PlansMessage};

use crate::effects::{answering, passing};
use crate::sources::{argument, message, process_controls, value};
use crate::words::{modified, priority_of};
use i9_isa::Inst;
use i9_model::interrupts::FIRST_VECTOR;
use i9_model::layout::{AC_MASK, CONTROL_GROUP_SIZE, CONTROL_TABLE_SIZE, PRCB_SIZE, TC_MASK};
use i9_processor::{Control, Effect, Move, Processor};

/// The old arithmetic controls are answered, and changed under a mask.
pub(crate) fn plan_modac(p: &Processor, i: &Inst) -> Effect
    requires { IsValid i.now }
    ensures { IsEffect (state_of p.now) (modac_action i.now (state_of p.now)) result }
{
    let mut effect = answering(p, i, p.ac());
    effect.ac = modified(p.ac(), value(p, i.a), value(p, i.b), AC_MASK);
    effect
}

/// The old trace controls are answered, and changed under a mask.
pub(crate) fn plan_modtc(p: &Processor, i: &Inst) -> Effect
    requires { IsValid i.now }
    ensures { IsEffect (state_of p.now) (modtc_action i.now (state_of p.now)) result }
{
    let mut effect = answering(p, i, p.tc());
    effect.tc = modified(p.tc(), value(p, i.a), value(p, i.b), TC_MASK);
    effect
}

/// The old process controls are answered, and changed under a mask. Where that lowers the priority, the
/// next choice of an interrupt looks at what software asks for.
pub(crate) fn plan_modpc(p: &Processor, i: &Inst) -> Effect
    requires { IsValid i.now }
    ensures { IsEffect (state_of p.now) (modpc_action i.now (state_of p.now)) result }
{
    let mut effect = answering(p, i, p.pc());
    effect.pc = process_controls(p, i);
    effect.check = priority_of(effect.pc) < priority_of(p.pc());
    effect
}

/// Frames are flushed, and something is done to the controls that start-up reads.
fn controlling(p: &Processor, i: &Inst, control: Control) -> Effect
    requires { CanControl (moved (state_of p.now)
        (record (passing i.now (state_of p.now)) { move = Flushes; control = control_in control })) control }
    ensures { IsEffect (state_of p.now)
        (record (passing i.now (state_of p.now)) { move = Flushes; control = control_in control }) result }
{
    let mut effect = passing(p, i);
    effect.frames = Move::Flushes;
    effect.control = control;
    effect.plain = false;
    effect
}

/// The hazard of the reads of a PRCB and of its control table as after a flush.
#[tactic(auto, unfolding(i9_model::specs::Tables::tables_hazard))]
fn tables_hazard(p: &Processor, prcb: u32, control: u32) -> Option<u32>
    requires { control ≡ table_word (state_of p.now).memory prcb 1 }
    ensures { result ≡ tables_hazard (state_of p.now).memory (flushed (state_of p.now).frames) prcb }
{
    p.check_flushed_read(prcb, PRCB_SIZE)
        .or_else(|| p.check_flushed_read(control, CONTROL_TABLE_SIZE))
}

/// The processor starts anew.
fn plan_restart(p: &Processor, i: &Inst) -> Result<Effect, u32>
    requires { IsValid i.now }
    ensures { PlansMessage AsksRestart i.now (state_of p.now) result }
{
    let first = value(p, i.b);
    let prcb = value(p, i.c);
    if let Some(a) = tables_hazard(p, prcb, p.word(prcb.wrapping_add(4))) {
        return Err(a);
    }
    Ok(controlling(p, i, Control::Restarts { first, prcb }))
}

/// The hazard of the read of a control group as after a flush.
#[tactic(auto, unfolding(i9_model::specs::Tables::group_hazard))]
fn group_hazard(p: &Processor, group: u8) -> Option<u32>
    requires { group < 7 }
    ensures { result ≡ group_hazard (flushed (state_of p.now).frames) (state_of p.now).tables.control_table group }
{
    let place = CONTROL_GROUP_SIZE * u32::from(group);
    let a = p.tables().control_table.wrapping_add(place);
    p.check_flushed_read(a, CONTROL_GROUP_SIZE)
}

/// A group of the control table is loaded.
fn plan_group(p: &Processor, i: &Inst) -> Result<Effect, u32>
    requires valid { IsValid i.now }
    requires group { argument_of i.now (state_of p.now) < 7 }
    ensures { PlansMessage AsksGroup i.now (state_of p.now) result }
{
    let group = argument(p, i);
    if let Some(a) = group_hazard(p, group) {
        return Err(a);
    }
    Ok(controlling(p, i, Control::LoadsGroup(group)))
}

/// Software asks for an interrupt, unless its vector is below the first one; the next choice looks at what is asked
/// for.
fn plan_request(p: &Processor, i: &Inst) -> Result<Effect, u32>
    requires drained { IsDrained p.now }
    ensures { PlansMessage (interrupt_asked (argument_of i.now (state_of p.now))) i.now (state_of p.now) result }
{
    let vector = argument(p, i);
    let mut effect = passing(p, i);
    effect.plain = false;
    effect.check = true;
    if vector >= FIRST_VECTOR {
        effect.requests = p.plan_request(vector)?;
    }
    Ok(effect)
}

/// What a message of sysctl will do, or the hazard of its tables.
pub(crate) fn plan_message(p: &Processor, i: &Inst) -> Result<Effect, u32>
    requires valid { IsValid i.now }
    requires drained { IsDrained p.now }
    requires message { is_invalid Sysctl (value (state_of p.now) i.now.a) ≡ false }
    ensures { PlansMessage (asked_message i.now (state_of p.now)) i.now (state_of p.now) result }
{
    match message(p, i) {
        0 => plan_request(p, i),
        3 => plan_restart(p, i),
        4 => plan_group(p, i),
        _ => Ok(passing(p, i)),
    }
}
