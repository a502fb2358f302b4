//! What stands at the instruction address while something is open.
ghost use Rattle.std.specs.Prelude.{◌≡◌, ◌||◌};
ghost use Rattle.i9_isa.specs.declared.inst.Inst.{Inst};
ghost use Rattle.i9_model.specs.Needs.{is_barrier_name, writes_sfr};
ghost use Rattle.i9_processor.specs.State.{state_of};
ghost use Rattle.i9_need.specs.Fixed.{fixed_need};
ghost use Rattle.i9_plan.specs.Open.{OpenStands, OpenPlanned, OpenLocated, OpenNeeds};

use crate::decode_cache::DecodeCache;
use crate::effects::pass;
use crate::fetched::fetch;
use crate::outcome::{Outcome, outcome_open};
use crate::tracing::follow;
use i9_model::faults::ARITHMETIC;
use i9_need::FixedNeed;
use i9_processor::{Effect, Processor};

/// What stands at the instruction address while something is open.
#[derive(Drop)]
pub enum Open {
    /// A barrier, a word that is refused, a fault that is raised before anything is done, or a hazard: it
    /// waits until all is done. Where `read` is set, it is the instruction in the decode cache.
    Waits { read: bool },
    /// The instruction in the decode cache, which is done.
    Runs,
    /// The instruction in the decode cache, whose result is an arithmetic fault of this type and subtype.
    Faults((u8, u16)),
}

/// Whether an instruction that needs this passes nothing, and nothing passes it, by its name, or since it
/// writes a special function register.
fn stands_apart(need: &FixedNeed) -> bool
    ensures { (i : Inst) → need.now ≡ fixed_need i → result ≡ (is_barrier_name i.op || writes_sfr i) }
{
    need.barrier
}

/// What stands at the instruction address while records are open: what they leave in the end is what is
/// read, so an instruction that is no barrier is planned at once, and its effect, with its trace events, is
/// made in `effect`; the instruction is in the decode cache. Whether it is a barrier by what it accesses, or by its
/// trace events, its need says.
// Each step calls it, and it is part of the code that does.
#[inline(always)]
pub fn plan_open(p: &Processor, decodes: &mut DecodeCache, effect: &mut Effect) -> Open
    ensures stands { OpenStands (state_of p.now) decodes.new result }
    ensures planned { OpenPlanned (state_of p.now) decodes.new result effect.new }
    ensures located { OpenLocated (state_of p.now) decodes.new result }
    ensures needs { OpenNeeds (state_of p.now) decodes.new result }
{
    if let Err(_) = fetch(p, decodes) {
        return Open::Waits { read: false };
    }
    if stands_apart(decodes.need()) {
        return Open::Waits { read: true };
    }
    let moving = decodes.locate(p);
    let inst = decodes.inst();
    pass(p, inst, effect);
    match outcome_open(p, inst, moving, decodes.gives(), effect) {
        Outcome::Runs => {
            follow(p, inst, moving, effect);
            Open::Runs
        }
        Outcome::Faults(number) => {
            if number.0 != ARITHMETIC {
                return Open::Waits { read: false };
            }
            Open::Faults(number)
        }
        Outcome::Meets(_) => Open::Waits { read: false },
    }
}
