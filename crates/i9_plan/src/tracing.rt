//! Trace events of an instruction that is done (the i960 CA/CF User's Manual, tracing and debugging).
ghost use Rattle.std.specs.Prelude.{◌≡◌, None, Ok};
ghost use Rattle.std.specs.Option.{option_map};
ghost use Rattle.i9_model.specs.Access.{access_of, data_of, hazard_of};
ghost use Rattle.i9_model.specs.Calls.{in_supervisor_mode, leaves_supervisor, return_type};
ghost use Rattle.i9_model.specs.Step.{action_of};
ghost use Rattle.i9_model.specs.Traced.{is_traced, seen_of, switches, traced_action};
ghost use Rattle.i9_model.specs.Standing.{Runs, by_word};
ghost use Rattle.i9_processor.specs.Effect.{IsEffect, action_in};
ghost use Rattle.i9_processor.specs.State.{state_of};
ghost use Rattle.i9_plan.specs.Moved.{Moves};
ghost use Rattle.i9_plan.specs.Planned.{IsInRow};

use crate::outcome::jump_of;
use crate::raised::data_access;
use crate::transfers::Moving;
use crate::words::bit;
use i9_events::{Seen, event};
use i9_isa::{Inst, Op};
use i9_model::layout::{PFP, SUPERVISOR_PLACE, SUPERVISOR_RETURN, TRACE_ENABLE_PLACE};
use i9_processor::{Effect, Processor};

/// Whether trace enable is set.
pub(crate) fn is_traced(p: &Processor) -> bool
    ensures { result ≡ is_traced (state_of p.now) }
{
    bit(p.pc(), TRACE_ENABLE_PLACE)
}

/// Whether process controls are in supervisor mode.
pub(crate) fn in_supervisor_mode(pc: u32) -> bool
    ensures { result ≡ in_supervisor_mode pc }
{
    bit(pc, SUPERVISOR_PLACE)
}

/// Whether a return by this pfp is that of a call that switched stacks.
fn leaves_supervisor(pfp: u32) -> bool
    ensures { result ≡ leaves_supervisor (return_type pfp) }
{
    let kind = pfp % 8;
    let switched = u32::from(SUPERVISOR_RETURN);
    kind == switched || kind == switched + 1
}

/// Whether a `calls` switches to supervisor mode, or a `ret` in that mode is that of one.
fn switches(p: &Processor, op: Op, effect: &Effect) -> bool
    ensures { result ≡ switches op (state_of p.now) (action_in (state_of p.now) effect.now) }
{
    match op {
        Op::Calls => !in_supervisor_mode(p.pc()) && in_supervisor_mode(effect.pc),
        Op::Ret => in_supervisor_mode(p.pc()) && leaves_supervisor(p.register(PFP)),
        _ => false,
    }
}

/// The effective address of a load, a store or an atomic instruction.
fn access_address(p: &Processor, i: &Inst, moving: Option<Moving>) -> Option<u32>
    requires { Moves (state_of p.now) i.now moving }
    ensures { result ≡ option_map (λ d. d.0) (data_of (access_of i.now (state_of p.now))) }
{
    match data_access(p, i, moving) {
        Some((address, _)) => Some(address),
        None => None,
    }
}

/// What trace events see of an instruction.
fn seen(p: &Processor, i: &Inst, moving: Option<Moving>, effect: &Effect) -> Seen
    requires { Moves (state_of p.now) i.now moving }
    ensures { result ≡ seen_of i.now (state_of p.now) (action_in (state_of p.now) effect.now) }
{
    Seen {
        address: p.ip(),
        access: access_address(p, i, moving),
        taken: jump_of(p, i).taken,
        switched: switches(p, i.op, effect),
    }
}

/// Adds to the effect of an instruction its trace events, where some count.
// Trace enable is seldom set, and this is no part of the code that calls it.
#[inline(never)]
fn trace(p: &Processor, i: &Inst, moving: Option<Moving>, effect: &mut Effect)
    requires moves { Moves (state_of p.now) i.now moving }
    requires clear { hazard_of i.now (state_of p.now) ≡ None }
    requires effect { IsEffect (state_of p.now) (action_of i.now (state_of p.now)) effect.old }
    ensures effect { IsEffect (state_of p.now) (traced_action i.now (state_of p.now)) effect.new }
    ensures row { IsInRow effect.old → IsInRow effect.new }
{
    let left = p.trace_left(effect);
    let seen = seen(p, i, moving, effect);
    effect.trace = event(left.tc, p.pc(), i, &seen, &left.breaks);
    effect.plain = false;
}

/// Adds to the effect of an instruction that runs its trace events, while trace enable is set.
#[inline(always)]
pub(crate) fn follow(p: &Processor, i: &Inst, moving: Option<Moving>, effect: &mut Effect)
    requires moves { Moves (state_of p.now) i.now moving }
    requires runs { Runs i.now ≡ by_word (state_of p.now) (Ok i.now) }
    requires effect { IsEffect (state_of p.now) (action_of i.now (state_of p.now)) effect.old }
    ensures effect { IsEffect (state_of p.now) (traced_action i.now (state_of p.now)) effect.new }
    ensures row { IsInRow effect.old → IsInRow effect.new }
{
    if is_traced(p) {
        trace(p, i, moving, effect);
    }
}
