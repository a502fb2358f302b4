//! The effects that others are made of.
ghost use Rattle.std.specs.Prelude.{◌≡◌, ◌+◌, ◌≤◌, ◌∷◌, ◌++◌, [], Option, length};
ghost use Rattle.i9_isa.specs.Valid.{IsValid};
ghost use Rattle.i9_model.specs.Step.{going, passing, assigning, answering, jumping, linking, faulting};
ghost use Rattle.i9_model.specs.Run.{faulted_words};
ghost use Rattle.i9_isa.specs.declared.inst.Operand.TheVariants.{Sfr};
ghost use Rattle.i9_model.specs.State.{Interrupts, Dma};
ghost use Rattle.i9_model.specs.Operands.{interrupts_assigned, dma_assigned};
ghost use Rattle.i9_processor.specs.Effect.{IsEffect, CanPost, CanChange, posting_in, change_in};
ghost use Rattle.i9_processor.specs.Rest.{no_requests};
ghost use Rattle.i9_processor.specs.State.{state_of};
ghost use Rattle.i9_plan.specs.Names.{HasGroup};
ghost use Rattle.i9_plan.specs.Planned.{Passes, IsInRow};

use crate::sources::following;
use arrayvec::ArrayVec;
use i9_calls::aligned;
use i9_isa::{Inst, Operand};
use i9_processor::{DmaChange, Effect, MOST_BYTES, MOST_VALUES, Posting, Processor};

/// Nothing is done.
pub(crate) fn passing(p: &Processor, i: &Inst) -> Effect
    ensures { Passes (state_of p.now) i.now result }
{
    Effect::going(p, following(p, i))
}

/// An effect becomes the one by which nothing is done.
pub(crate) fn pass(p: &Processor, i: &Inst, effect: &mut Effect)
    ensures { Passes (state_of p.now) i.now effect.new }
{
    effect.go(p, following(p, i));
}

/// What an instruction of so many words does that faults: control goes behind it.
pub fn plan_faulting(p: &Processor, words: u32, effect: &mut Effect)
    ensures effect { IsEffect (state_of p.now) (faulting words (state_of p.now)) effect.new }
    ensures row { IsInRow effect.new }
{
    effect.go(p, p.ip().wrapping_add(words.wrapping_mul(4)));
}

/// What is done to interrupts where a special function register gets a value: sf0 is the pending word,
/// and sf1 the mask word.
pub(crate) fn posting(k: u8, values: &[u32]) -> Posting
    ensures same { (i : Interrupts) → posting_in result i ≡ interrupts_assigned (Sfr k) values.now i }
    ensures posts { CanPost result }
{
    match (k, values) {
        (0, [v, ..]) => Posting::Pending(*v),
        (1, [v, ..]) => Posting::Mask(*v),
        _ => Posting::Keeps,
    }
}

/// What is done to DMA where a special function register gets a value: sf2 is the command word.
pub(crate) fn dma_change(k: u8, values: &[u32]) -> DmaChange
    ensures same { (d : Dma) → change_in result d ≡ dma_assigned (Sfr k) values.now d }
    ensures changes { CanChange result }
{
    match (k, values) {
        (2, [v, ..]) => DmaChange::Command(*v),
        _ => DmaChange::Keeps,
    }
}

/// Control goes to an address, and a destination gets values.
pub(crate) fn assigning(
    p: &Processor,
    next: u32,
    o: Operand,
    values: ArrayVec<u32, MOST_VALUES>,
) -> Effect
    requires { HasGroup o (length values.items) }
    ensures effect { IsEffect (state_of p.now) (assigning o values.items (going (state_of p.now) next)) result }
    ensures stale { result.stale ≡ 0 }
    ensures requests { result.requests ≡ no_requests }
{
    match o {
        Operand::Reg(r) => Effect::setting(p, next, r, values),
        Operand::Lit(_) => Effect::going(p, next),
        Operand::Sfr(k) => {
            let mut effect = Effect::going(p, next);
            effect.posting = posting(k, values.as_slice());
            effect.dma = dma_change(k, values.as_slice());
            effect.plain = false;
            effect
        }
    }
}

/// A destination gets values.
#[tactic(auto, using(crate::proofs::MarkLists::clean_rules))]
pub(crate) fn assign(
    p: &Processor,
    i: &Inst,
    o: Operand,
    values: ArrayVec<u32, MOST_VALUES>,
    effect: &mut Effect,
)
    requires group { HasGroup o (length values.items) }
    requires passes { Passes (state_of p.now) i.now effect.old }
    ensures effect { IsEffect (state_of p.now) (assigning o values.items (passing i.now (state_of p.now))) effect.new }
    ensures row { IsInRow effect.new }
{
    match o {
        Operand::Reg(r) => {
            effect.register = r;
            effect.values = values;
        }
        Operand::Lit(_) => {}
        Operand::Sfr(k) => {
            effect.posting = posting(k, values.as_slice());
            effect.dma = dma_change(k, values.as_slice());
            effect.plain = false;
        }
    }
}

/// One word.
pub(crate) fn one_word(v: u32) -> ArrayVec<u32, MOST_VALUES>
    ensures { result.items ≡ v ∷ [] }
{
    let mut words = ArrayVec::new();
    words.push(v);
    words
}

/// src/dst gets one value.
pub(crate) fn answering(p: &Processor, i: &Inst, v: u32) -> Effect
    requires { IsValid i.now }
    ensures effect { IsEffect (state_of p.now) (answering i.now (state_of p.now) v) result }
    ensures stale { result.stale ≡ 0 }
    ensures requests { result.requests ≡ no_requests }
{
    assigning(p, following(p, i), i.c, one_word(v))
}

/// Control goes to an address.
pub(crate) fn jumping(p: &Processor, i: &Inst, to: u32) -> Effect
    ensures { IsEffect (state_of p.now) (jumping i.now (state_of p.now) to) result }
{
    Effect::going(p, aligned(to))
}

/// Control goes to an address, and a destination gets the one behind the instruction.
pub(crate) fn linking(p: &Processor, o: Operand, i: &Inst, to: u32) -> Effect
    requires { HasGroup o 1 }
    ensures { IsEffect (state_of p.now) (linking o i.now (state_of p.now) to) result }
{
    assigning(p, aligned(to), o, one_word(following(p, i)))
}

/// Bytes are appended for which there is room.
#[tactic(auto, using(crate::proofs::WordBytes::append_rules))]
pub(crate) fn append(bytes: &mut ArrayVec<u8, MOST_BYTES>, more: &[u8])
    requires { length bytes.old.items + length more.now ≤ MOST_BYTES }
    ensures { bytes.new.items ≡ bytes.old.items ++ more.now }
{
    for b in more {
        bytes.push(*b);
    }
}

/// The bytes of one value, as a list.
pub(crate) fn listed(value: &[u8]) -> ArrayVec<u8, MOST_BYTES>
    requires { length value.now ≤ MOST_BYTES }
    ensures { result.items ≡ value.now }
{
    let mut bytes = ArrayVec::new();
    append(&mut bytes, value);
    bytes
}
