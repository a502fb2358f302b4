//! What is needed by what is planned: by an instruction that is done or that faults, by a word that is
//! refused, by the entry of a fault or of an interrupt, and by an event.
ghost use Rattle.std.specs.Prelude.{◌≡◌, ◌≤◌, ℕ, List, Some, None, true, false, length};
ghost use Rattle.i9_model.specs.declared.faults.Entry.{Entry};
ghost use Rattle.i9_model.specs.declared.interrupts.Chosen.{Chosen};
ghost use Rattle.i9_model.specs.State.{State};
ghost use Rattle.i9_model.specs.HeldFrames.{Cache};
ghost use Rattle.i9_model.specs.Before.{Received, interrupting};
ghost use Rattle.i9_model.specs.Step.{Saves, entering};
ghost use Rattle.i9_model.specs.Traced.{traced_action};
ghost use Rattle.i9_model.specs.Run.{Instruction, Faulted, Entered, Interrupted, Reached, fault_at};
ghost use Rattle.i9_model.specs.Needs.{inst_need};
ghost use Rattle.i9_course.specs.NeedOf.{is_of_dma, moved_frames, need_of, stands_alone};
ghost use Rattle.i9_processor.specs.Effect.{IsEffect, move_in};
ghost use Rattle.i9_processor.specs.State.{state_of, cache_of, size_of};
ghost use Rattle.i9_plan.specs.Kept.{inst_in, need_in, Locates};
ghost use Rattle.i9_plan.specs.Plain.{plain_facts};

use crate::decode_cache::DecodeCache;
use crate::known::{facts, plain_facts, stands_alone};
use i9_model::faults::ARITHMETIC;
use i9_model::{Event, Need};
use i9_need::{entry_need, event_need, need_by, refused_need};
use i9_processor::{Effect, Move, Processor};

/// How many frames are held: at most 15, since there are no more sets.
fn held_frames(p: &Processor) -> u8
    ensures value { result ≡ length (cache_of p.now).held }
    ensures few { result ≤ 15 }
{
    let sets = p.sets();
    sets.len().min(sets.size())
}

/// How many frames a save spills: one where all sets are taken.
fn spilled_frames(p: &Processor) -> u8
    ensures value { (save : ℕ) (words : List ℕ)
        → result ≡ moved_frames (size_of p.now) (cache_of p.now) (Saves save words) }
    ensures few { result ≤ 1 }
{
    u8::from(held_frames(p) >= p.sets().size())
}

/// How many frames an effect spills, refills or flushes.
#[inline(always)]
fn moved_frames(p: &Processor, effect: &Effect) -> u8
    ensures value { result
        ≡ moved_frames (size_of p.now) (cache_of p.now) (move_in (state_of p.now) effect.now.frames) }
    ensures few { result ≤ 15 }
{
    if effect.plain {
        return 0;
    }
    match &effect.frames {
        Move::Stays => 0,
        Move::Saves { .. } => spilled_frames(p),
        Move::Returns(_) => u8::from(held_frames(p) == 0),
        Move::Flushes => held_frames(p),
    }
}

/// Whether the instruction in the decode cache has no data access and does not stand alone, and its effect is told to
/// be plain.
#[inline(always)]
fn is_plain(p: &Processor, decodes: &DecodeCache, effect: &Effect) -> bool
    ensures access { result ≡ true → (need_in decodes.now).access ≡ false }
    ensures alone { result ≡ true → stands_alone (state_of p.now) ≡ false }
    ensures frames { result ≡ true → effect.now.frames ≡ Move.Stays }
    ensures trace { result ≡ true → effect.now.trace ≡ None }
{
    effect.plain && !decodes.need().access && !stands_alone(p)
}

/// What the instruction in the decode cache needs, which has no data access, and of which nothing is known but its
/// address.
#[inline(always)]
fn plain_need(p: &Processor, decodes: &DecodeCache) -> Need
    requires { (need_in decodes.now).access ≡ false }
    ensures need { result ≡ inst_need (inst_in decodes.now) (plain_facts (state_of p.now).ip) }
    ensures cost { result.cost ≤ 248 }
{
    need_by(decodes.need(), &plain_facts(p))
}

/// What the instruction in the decode cache needs, which is done by this effect, whatever is known of it.
#[inline(always)]
#[tactic(auto, unfolding(i9_course::specs::NeedOf::need_of))]
fn known_need(p: &Processor, decodes: &DecodeCache, effect: &Effect) -> Need
    requires located { Locates (state_of p.now) decodes.now }
    requires effect { IsEffect (state_of p.now) (traced_action (inst_in decodes.now) (state_of p.now)) effect.now }
    ensures need { result
        ≡ need_of (size_of p.now) (cache_of p.now) (state_of p.now) (Instruction (inst_in decodes.now)) }
    ensures cost { result.cost ≤ 248 }
{
    let frames = moved_frames(p, effect);
    let known = facts(p, decodes, frames, false, effect.trace.is_some());
    need_by(decodes.need(), &known)
}

/// What the instruction in the decode cache needs, which is done by this effect.
// Each step asks for it, and it is made where the step is. Most have no access, and nothing is asked of their facts.
#[inline(always)]
pub fn need_done(p: &Processor, decodes: &DecodeCache, effect: &Effect) -> Need
    requires located { Locates (state_of p.now) decodes.now }
    requires effect { IsEffect (state_of p.now) (traced_action (inst_in decodes.now) (state_of p.now)) effect.now }
    ensures need { result
        ≡ need_of (size_of p.now) (cache_of p.now) (state_of p.now) (Instruction (inst_in decodes.now)) }
    ensures cost { result.cost ≤ 248 }
{
    if is_plain(p, decodes, effect) {
        plain_need(p, decodes)
    } else {
        known_need(p, decodes, effect)
    }
}

/// What the instruction in the decode cache needs, which raises a fault of this type and subtype.
#[tactic(auto, unfolding(i9_course::specs::NeedOf::need_of))]
pub fn need_faulted(p: &Processor, decodes: &DecodeCache, number: (u8, u16)) -> Need
    requires { Locates (state_of p.now) decodes.now }
    ensures need { (n : ℕ) (c : Cache)
        → result ≡ need_of n c (state_of p.now)
        (Faulted (Some (inst_in decodes.now)) (fault_at (state_of p.now) number)) }
    ensures cost { result.cost ≤ 248 }
{
    let known = facts(p, decodes, 0, number.0 != ARITHMETIC, false);
    need_by(decodes.need(), &known)
}

/// What a word needs that is refused by a fault of this type and subtype.
#[tactic(auto, unfolding(i9_course::specs::NeedOf::need_of))]
pub fn need_refused(p: &Processor, number: (u8, u16)) -> Need
    ensures need { (n : ℕ) (c : Cache)
        → result ≡ need_of n c (state_of p.now) (Faulted None (fault_at (state_of p.now) number)) }
    ensures cost { result.cost ≤ 248 }
{
    // It is the same for each fault.
    let _ = number;
    refused_need(p.ip())
}

/// How many frames an entry spills that does this to frames.
fn entry_frames(p: &Processor, m: &Move) -> u8
    ensures value { (save : ℕ) (words : List ℕ) → move_in (state_of p.now) m.now ≡ Saves save words
        → result ≡ moved_frames (size_of p.now) (cache_of p.now) (Saves save words) }
    ensures few { result ≤ 1 }
{
    match m {
        Move::Saves { .. } => spilled_frames(p),
        _ => 0,
    }
}

/// What the entry of a fault or of an interrupt needs that is done by this effect.
#[tactic(auto, unfolding(i9_course::specs::NeedOf::need_of))]
pub fn need_entered(p: &Processor, effect: &Effect) -> Need
    ensures fault { (x : Entry) → IsEffect (state_of p.now) (entering x (state_of p.now)) effect.now
        → result ≡ need_of (size_of p.now) (cache_of p.now) (state_of p.now) (Entered x) }
    ensures interrupt { (c : Chosen) (x : Entry)
        → IsEffect (state_of p.now) (interrupting c x (state_of p.now)) effect.now
        → result ≡ need_of (size_of p.now) (cache_of p.now) (state_of p.now) (Interrupted c x) }
    ensures cost { result.cost ≤ 248 }
{
    entry_need(entry_frames(p, &effect.frames))
}

/// Whether an event is one of DMA.
fn is_of_dma(event: &Event) -> bool
    ensures { result ≡ is_of_dma event.now }
{
    matches!(event, Event::Dma(_) | Event::Feed(_, _))
}

/// What an event needs that is reached and does something.
#[tactic(auto, unfolding(i9_course::specs::NeedOf::need_of))]
pub fn need_reached(event: &Event) -> Need
    ensures reached { (n : ℕ) (c : Cache) (s : State) (u : Received)
        → result ≡ need_of n c s (Reached event.now u) }
    ensures cost { result.cost ≤ 248 }
{
    event_need(is_of_dma(event), 0)
}
