//! What calls, returns, and the entries of faults and interrupts will do.
ghost use Rattle.std.specs.Prelude.{◌≡◌, ◌≤◌, ◌%◌, None};
ghost use Rattle.i9_model.specs.declared.layout.TheConstants.{PFP, MOST_SYSTEM_CALL};
ghost use Rattle.i9_model.specs.Hazards.{save_hazard};
ghost use Rattle.i9_model.specs.Operands.{value};
ghost use Rattle.i9_model.specs.Step.{pushing, call_action, calls_action, return_in, ret_action, entering};
ghost use Rattle.i9_model.specs.Access.{SavesFrame, CallsSystem, ReturnsBy};
ghost use Rattle.i9_processor.specs.Effect.{IsEffect};
ghost use Rattle.i9_processor.specs.Rest.{no_requests};
ghost use Rattle.i9_processor.specs.State.{state_of, IsDrained};
ghost use Rattle.i9_plan.specs.Planned.{IsPlanFor, PlansEntry, PlansInterrupt, recording};

use crate::sources::{following, value};
use crate::transfers::bytes_of_words;
use i9_calls::{CallsStop, Pop, Push, aligned};
use i9_faults::{Entry, Fault, FaultStop};
use i9_isa::Inst;
use i9_model::Chosen;
use i9_model::layout::{RECORD_SIZE, RIP};
use i9_processor::{Control, DmaChange, Effect, Move, Posting, Processor};

/// The locals are saved with a return address, and control goes on in a new frame.
fn pushing(p: &Processor, push: &Push, back: u32, next: u32) -> Effect
    requires free { save_hazard (state_of p.now).frames push.now.save ≡ None }
    requires place { push.now.save % 16 ≡ 0 }
    ensures effect { IsEffect (state_of p.now) (pushing (state_of p.now) push.now back next) result }
    ensures stale { result.stale ≡ 0 }
    ensures requests { result.requests ≡ no_requests }
    ensures posting { result.posting ≡ Posting.Keeps }
    ensures dma { result.dma ≡ DmaChange.Keeps }
    ensures control { result.control ≡ Control.Keeps }
{
    let mut effect = Effect::going(p, next);
    effect.frames = Move::Saves { push: *push, back };
    effect.plain = false;
    effect
}

/// A call to an address.
#[tactic(auto, using(crate::proofs::CallPlans::push_rules))]
pub(crate) fn plan_call(p: &Processor, i: &Inst, to: u32) -> Result<Effect, u32>
    ensures { IsPlanFor (state_of p.now) SavesFrame (call_action i.now (state_of p.now) to) result }
{
    let push = p.plan_call()?;
    Ok(pushing(p, &push, following(p, i), aligned(to)))
}

/// A call of a system procedure.
#[tactic(auto, using(crate::proofs::CallPlans::call_rules))]
pub(crate) fn plan_calls(p: &Processor, i: &Inst) -> Result<Effect, u32>
    requires drained { IsDrained p.now }
    requires number { value (state_of p.now) i.now.a ≤ MOST_SYSTEM_CALL }
    ensures { IsPlanFor (state_of p.now) (CallsSystem (value (state_of p.now) i.now.a))
        (calls_action i.now (state_of p.now)) result }
{
    let sys = match p.plan_calls(value(p, i.a)) {
        Ok(sys) => sys,
        Err(CallsStop::Hazard(a)) => return Err(a),
        // A number that is too great has raised a fault before.
        Err(CallsStop::Length) => return Err(p.ip()),
    };
    let mut effect = pushing(p, &sys.push, following(p, i), sys.target);
    effect.pc = sys.pc;
    Ok(effect)
}

/// The locals of a frame are read, with their marks, and it is entered again.
fn returning(p: &Processor, pop: &Pop) -> Effect
    requires { pop.now ≡ return_in (state_of p.now) }
    ensures { IsEffect (state_of p.now) (ret_action (state_of p.now)) result }
{
    let mut effect = Effect::going(p, aligned(p.left_word(pop.frame, RIP)));
    effect.frames = Move::Returns(pop.frame);
    effect.marks = pop.marks;
    effect.plain = false;
    effect.pc = pop.pc;
    effect.ac = pop.ac;
    effect.check = pop.check;
    effect
}

/// The frame that pfp names is entered again.
#[tactic(auto, using(crate::proofs::CallPlans::call_rules))]
pub(crate) fn plan_return(p: &Processor) -> Result<Effect, u32>
    requires drained { IsDrained p.now }
    ensures { IsPlanFor (state_of p.now) (ReturnsBy ((state_of p.now).regs PFP)) (ret_action (state_of p.now)) result }
{
    let pop = p.plan_ret()?;
    Ok(returning(p, &pop))
}

/// A handler is entered: the record of its entry is written below the new frame.
#[tactic(auto, using(i9_model::proofs::WordBytes::word_rules, crate::proofs::MarkLists::clean_rules))]
fn recording(p: &Processor, e: &Entry) -> Effect
    requires free { save_hazard (state_of p.now).frames e.now.push.save ≡ None }
    requires place { e.now.push.save % 16 ≡ 0 }
    ensures effect { IsEffect (state_of p.now) (recording e.now (state_of p.now)) result }
    ensures stale { result.stale ≡ 0 }
    ensures requests { result.requests ≡ no_requests }
    ensures posting { result.posting ≡ Posting.Keeps }
    ensures dma { result.dma ≡ DmaChange.Keeps }
    ensures control { result.control ≡ Control.Keeps }
{
    let record = (e.push.frame - e.push.frame % 16).wrapping_sub(RECORD_SIZE);
    let mut effect = pushing(p, &e.push, p.ip(), e.target);
    effect.address = record;
    effect.bytes = bytes_of_words(p, record, &e.words, 4);
    effect.plain = false;
    effect.pc = e.pc;
    effect
}

/// The entry of a fault, which leaves the check flag as it is.
fn entering(p: &Processor, e: &Entry) -> Effect
    requires free { save_hazard (state_of p.now).frames e.now.push.save ≡ None }
    requires place { e.now.push.save % 16 ≡ 0 }
    ensures { IsEffect (state_of p.now) (entering e.now (state_of p.now)) result }
{
    let mut effect = recording(p, e);
    effect.check = p.check();
    effect
}

/// How a fault is entered, or what stops that: a hazard or a dead entry of the fault table (the i960
/// CA/CF User's Manual, faults).
pub fn plan_entry(p: &Processor, fault: &Fault) -> Result<Effect, FaultStop>
    requires drained { IsDrained p.now }
    ensures { PlansEntry (state_of p.now) fault.now result }
{
    match p.plan_fault(fault) {
        Ok(entry) => Ok(entering(p, &entry)),
        Err(stop) => Err(stop),
    }
}

/// How an interrupt is entered that was chosen, or the hazard of the first access that meets one (the
/// i960 CA/CF User's Manual, interrupts).
pub fn plan_interrupt(p: &Processor, c: &Chosen) -> Result<Effect, u32>
    requires drained { IsDrained p.now }
    ensures { PlansInterrupt (state_of p.now) c.now result }
{
    let entry = p.plan_interrupt(c)?;
    let mut effect = recording(p, &entry);
    effect.requests = p.clearing_bytes(c, &entry);
    effect.posting = Posting::Clears(c.cause);
    effect.plain = false;
    Ok(effect)
}
