//! What DMA will do: the set-up of a channel, and the next unit of one.
ghost use Rattle.std.specs.Prelude.{◌≡◌, ◌+◌, ◌<◌, if◌then◌else◌, List, ℕ, Option, Some};
ghost use Rattle.i9_model.specs.declared.interrupts.TheConstants.{FIRST_DMA_LINE};
ghost use Rattle.i9_model.specs.State.{Interrupts};
ghost use Rattle.i9_model.specs.Operands.{value};
ghost use Rattle.i9_model.specs.Interrupts.{posted};
ghost use Rattle.i9_model.specs.Dma.{unit_bytes, unit};
ghost use Rattle.i9_model.specs.Before.{moving_unit, unit_in, receiving};
ghost use Rattle.i9_model.specs.Step.{sdma_action};
ghost use Rattle.i9_dma.specs.Units.{given_in};
ghost use Rattle.i9_processor.specs.Effect.{IsEffect, CanPost, posting_in};
ghost use Rattle.i9_processor.specs.State.{state_of, IsDrained};
ghost use Rattle.i9_plan.specs.Planned.{PlansReceived};

use crate::effects::passing;
use crate::sources::{source_words, value};
use arrayvec::ArrayVec;
use i9_dma::Channel;
use i9_isa::Inst;
use i9_processor::{DmaChange, Effect, MOST_BYTES, Posting, Processor};

/// The channel of src1 is set up: with the control word src2, and with the byte count, the source and the
/// target of three registers.
pub(crate) fn plan_sdma(p: &Processor, i: &Inst) -> Effect
    requires { value (state_of p.now) i.now.a < 4 }
    ensures { IsEffect (state_of p.now) (sdma_action i.now (state_of p.now)) result }
{
    let [count, source, target, _] = source_words(p, i.c);
    let channel = Channel {
        control: value(p, i.b),
        count,
        source,
        target,
    };
    let mut effect = passing(p, i);
    effect.dma = DmaChange::SetsUp(value(p, i.a) as u8, channel);
    effect.plain = false;
    effect
}

/// The interrupt of channel `c` is posted, where a unit posts it.
fn posting_of(posts: bool, c: u8) -> Posting
    requires { c < 4 }
    ensures same { (i : Interrupts) → posting_in result i ≡ (if posts then posted i (FIRST_DMA_LINE + c) else i) }
    ensures posts { CanPost result }
{
    if posts {
        Posting::Dma(c)
    } else {
        Posting::Keeps
    }
}

/// The next unit of channel `c` is moved, which has these bytes.
#[tactic(auto, using(crate::proofs::MarkLists::clean_rules))]
fn moving(p: &Processor, c: u8, bytes: ArrayVec<u8, MOST_BYTES>) -> Effect
    requires { c < 4 }
    ensures { (given : Option (List ℕ))
        → bytes.items ≡ unit_bytes (state_of p.now).memory ((state_of p.now).dma.channels c) given
        → IsEffect (state_of p.now) (receiving (moving_unit (state_of p.now) c
        (Some (unit (state_of p.now).memory (state_of p.now).dma c given))) (state_of p.now)) result }
{
    let mut effect = Effect::going(p, p.ip());
    effect.address = p.unit_target(c);
    effect.bytes = bytes;
    effect.dma = DmaChange::Passes(c);
    effect.posting = posting_of(p.posts_behind_unit(c), c);
    effect.plain = false;
    effect
}

/// The next unit of channel `c`, from memory or with the bytes of a device: it is moved, or nothing is;
/// or its hazard.
pub(crate) fn plan_unit(p: &Processor, c: u8, given: Option<&[u8]>) -> Result<Effect, u32>
    requires drained { IsDrained p.now }
    requires channel { c < 4 }
    ensures { PlansReceived (state_of p.now) (unit_in (state_of p.now) c (given_in given.entry)) result }
{
    match p.plan_unit(c, given) {
        Ok(Some(bytes)) => Ok(moving(p, c, bytes)),
        Ok(None) => Ok(Effect::going(p, p.ip())),
        Err(a) => Err(a),
    }
}
