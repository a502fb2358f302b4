//! What stands at the instruction address, and what it will do.
ghost use Rattle.std.specs.Prelude.{◌≡◌, true};
ghost use Rattle.i9_model.specs.Standing.{stands_at};
ghost use Rattle.i9_processor.specs.State.{state_of, IsDrained};
ghost use Rattle.i9_plan.specs.Planned.{standing_of, IsRead, IsUnread, IsPlanned, IsLocated};

use crate::decode_cache::DecodeCache;
use crate::effects::pass;
use crate::fetched::{Unread, Words, fetch};
use crate::outcome::{Outcome, outcome_of};
use crate::raised::word_fault;
use crate::tracing::follow;
use i9_processor::{Effect, Processor};

/// What stands at the instruction address.
#[derive(Drop)]
pub enum Planned {
    /// Its fetch or its access meets a hazard at this byte.
    Meets(u32),
    /// A word that is refused, with the type and the subtype of its fault.
    Refused { words: Words, number: (u8, u16) },
    /// The instruction in the decode cache, which raises a fault of this type and subtype.
    Faults((u8, u16)),
    /// The instruction in the decode cache, which is done.
    Runs,
}

/// What stands there where no instruction does.
#[inline(never)]
#[tactic(auto, unfolding(i9_model::specs::Standing::stands_at))]
fn unread(p: &Processor, why: Unread) -> Planned
    requires { IsUnread (state_of p.now) why }
    ensures standing { (m : DecodeCache) → standing_of m result ≡ stands_at (state_of p.now) }
    ensures planned { (m : DecodeCache) (e : Effect) → IsPlanned (state_of p.now) m result e }
    ensures located { (m : DecodeCache) → IsLocated (state_of p.now) m result }
{
    match why {
        Unread::Meets(a) => Planned::Meets(a),
        Unread::Refused { first, why } => Planned::Refused {
            words: Words { first, second: 0 },
            number: word_fault(why),
        },
    }
}

/// What the instruction in the decode cache comes to, which stands at the instruction address.
// It is no part of the code that calls it: LLVM would take the effect apart there, and move it piece by piece.
#[inline(never)]
#[tactic(auto, unfolding(i9_model::specs::Standing::stands_at))]
fn plan_read(p: &Processor, decodes: &mut DecodeCache, effect: &mut Effect) -> Planned
    requires drained { IsDrained p.now }
    requires read { IsRead (state_of p.now) decodes.old }
    ensures standing { standing_of decodes.new result ≡ stands_at (state_of p.now) }
    ensures planned { IsPlanned (state_of p.now) decodes.new result effect.new }
    ensures located { IsLocated (state_of p.now) decodes.new result }
{
    let moving = decodes.locate(p);
    let inst = decodes.inst();
    pass(p, inst, effect);
    match outcome_of(p, inst, moving, decodes.gives(), effect) {
        Outcome::Meets(a) => Planned::Meets(a),
        Outcome::Faults(number) => Planned::Faults(number),
        Outcome::Runs => {
            follow(p, inst, moving, effect);
            Planned::Runs
        }
    }
}

/// What stands at the instruction address: the hazard of its fetch, which comes first; an instruction
/// that is refused, or that faults; the hazard of its access; or what it does.
/// Each result is worked out once, and the effect of what is done, with its trace events, is made in
/// `effect`; the instruction is in the decode cache (the i960 CA/CF User's Manual, instruction set, faults and
/// tracing).
pub fn plan_next(p: &Processor, decodes: &mut DecodeCache, effect: &mut Effect) -> Planned
    requires drained { IsDrained p.now }
    ensures standing { standing_of decodes.new result ≡ stands_at (state_of p.now) }
    ensures planned { IsPlanned (state_of p.now) decodes.new result effect.new }
    ensures located { IsLocated (state_of p.now) decodes.new result }
{
    if let Err(why) = fetch(p, decodes) {
        return unread(p, why);
    }
    plan_read(p, decodes, effect)
}

/// As `plan_next`. Where `read` is set, the decode cache has the instruction that stands there, which is not read
/// again.
pub fn plan_here(
    p: &Processor,
    read: bool,
    decodes: &mut DecodeCache,
    effect: &mut Effect,
) -> Planned
    requires drained { IsDrained p.now }
    requires read { read ≡ true → IsRead (state_of p.now) decodes.old }
    ensures standing { standing_of decodes.new result ≡ stands_at (state_of p.now) }
    ensures planned { IsPlanned (state_of p.now) decodes.new result effect.new }
    ensures located { IsLocated (state_of p.now) decodes.new result }
{
    if read {
        plan_read(p, decodes, effect)
    } else {
        plan_next(p, decodes, effect)
    }
}
