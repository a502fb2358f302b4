//! What an instruction comes to that is a barrier by its name: a call, a return, a flush, an atomic
//! instruction, one that changes controls, and what asks something of the system.
ghost use Rattle.std.specs.Prelude.{◌≡◌, None, Ok, true};
ghost use Rattle.i9_isa.specs.Valid.{IsValid};
ghost use Rattle.i9_model.specs.Access.{access_by_name};
ghost use Rattle.i9_model.specs.Needs.{is_barrier_name};
ghost use Rattle.i9_model.specs.Step.{Flushes, passing, action_by_name};
ghost use Rattle.i9_model.specs.Standing.{raised_in, by_word};
ghost use Rattle.i9_processor.specs.Effect.{IsEffect};
ghost use Rattle.i9_processor.specs.State.{state_of, IsDrained};
ghost use Rattle.i9_plan.specs.Planned.{standing_in, HasEffect, IsPlanFor};

use crate::calls::{plan_call, plan_calls, plan_return};
use crate::dma::plan_sdma;
use crate::effects::passing;
use crate::misuses::misuses;
use crate::outcome::Outcome;
use crate::raised::raised_in;
use crate::sources::{address, target};
use crate::system::{plan_message, plan_modac, plan_modpc, plan_modtc};
use crate::transfers::{plan_atadd, plan_atmod};
use i9_exec::results_by_name;
use i9_isa::{Inst, Op};
use i9_processor::{Effect, Move, Processor};

/// Frames are flushed.
fn flushing(p: &Processor, i: &Inst) -> Effect
    ensures { IsEffect (state_of p.now) (record (passing i.now (state_of p.now)) { move = Flushes }) result }
{
    let mut effect = passing(p, i);
    effect.frames = Move::Flushes;
    effect.plain = false;
    effect
}

/// What a barrier does, or the hazard of its access.
fn plan_barrier(p: &Processor, i: &Inst) -> Result<Effect, u32>
    requires valid { IsValid i.now }
    requires drained { IsDrained p.now }
    requires calm { raised_in i.now (state_of p.now) ≡ None }
    requires barrier { is_barrier_name i.now.op ≡ true }
    ensures { IsPlanFor (state_of p.now) (access_by_name i.now.op i.now (state_of p.now))
        (action_by_name i.now.op i.now (state_of p.now)) result }
{
    results_by_name();
    match i.op {
        Op::Atadd => plan_atadd(p, i),
        Op::Atmod => plan_atmod(p, i),
        Op::Call => plan_call(p, i, target(p, i)),
        Op::Callx => plan_call(p, i, address(p, &i.ea)),
        Op::Calls => plan_calls(p, i),
        Op::Ret => plan_return(p),
        Op::Flushreg => Ok(flushing(p, i)),
        Op::Modac => Ok(plan_modac(p, i)),
        Op::Modtc => Ok(plan_modtc(p, i)),
        Op::Modpc => Ok(plan_modpc(p, i)),
        Op::Sdma => Ok(plan_sdma(p, i)),
        Op::Sysctl => plan_message(p, i),
        _ => Ok(passing(p, i)),
    }
}

/// What an instruction comes to that is a barrier by its name.
// Others call it, so that the effect stays where it is and is not moved piece by piece.
#[inline(never)]
pub(crate) fn barrier_outcome(p: &Processor, i: &Inst, effect: &mut Effect) -> Outcome
    requires valid { IsValid i.now }
    requires drained { IsDrained p.now }
    requires barrier { is_barrier_name i.now.op ≡ true }
    ensures standing { standing_in i.now result ≡ by_word (state_of p.now) (Ok i.now) }
    ensures effect { HasEffect (state_of p.now) i.now result effect.new }
{
    if misuses(p, i) {
        return Outcome::Meets(p.ip());
    }
    if let Some(number) = raised_in(p, i) {
        return Outcome::Faults(number);
    }
    results_by_name();
    match plan_barrier(p, i) {
        Ok(planned) => {
            *effect = planned;
            Outcome::Runs
        }
        Err(a) => Outcome::Meets(a),
    }
}
