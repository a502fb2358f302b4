//! The last instruction before another behind which a stop holds.
ghost use Rattle.std.specs.Prelude.{◌≡◌, ◌-◌, ◌<◌, ◌≤◌, ℕ, IfOk, IfSome};
ghost use Rattle.i9_model.specs.declared.layout.TheConstants.{MAX_LENGTH};
ghost use Rattle.i9_model.specs.Given.{Given, given};
ghost use Rattle.i9_model.specs.Image.{pairs_of};
ghost use Rattle.i9_back.specs.Earlier.{HasInstructions};
ghost use Rattle.i9_back.specs.Stands.{StandsEarlier, CanGoOn};
ghost use Rattle.i9_back.specs.Trail.{IsTrail, FoundBetween};
ghost use Rattle.i9_debug.specs.Last.{IsLastIn, HeldLast};
ghost use Rattle.i9_debug.specs.Driven.{given_of};

use i9_back::{Trail, next_stop};
use i9_hex::Segments;
use i9_isa::NoMemory;
use i9_machine::{Machine, Turn};
use i9_model::View;
use i9_model::layout::MAX_LENGTH;
use i9_schedule::Schedule;
use i9_tracer::{Stop, ViewTest};
use std::alloc::Global;

/// Goes on from the state after `from` instructions to the one after `to`, and tells of those on the way that come
/// before instruction `n` the last one behind which a stop holds of the view: how many instructions there are up to it.
fn seek<F: Fn(&View) -> bool + ViewTest>(
    alloc: Global,
    m: &mut Machine,
    plan: &mut Schedule,
    from: u64,
    to: u64,
    n: u64,
    s: &Stop<F>,
) -> Result<Option<u64>, NoMemory>
    requires order { from ≤ to }
    requires stands { CanGoOn from to m.old plan.old }
    ensures found { (g : Given) → StandsEarlier g from m.old plan.old
        → IfOk result (λ o. FoundBetween (HeldLast (F.ViewTest.allows s.now) n) g from to o
        × StandsEarlier g to m.new plan.new) }
    ensures events { plan.new.events ≡ plan.old.events }
{
    let mut lines = Vec::new(alloc);
    let mut done = from;
    let mut found = None;
    'steps: while done < to {
        lines.clear();
        match m.proceed(plan, &mut lines) {
            Turn::On => {}
            Turn::Issued(_) => {
                done += 1;
                if done < n && s.holds(&m.view()) {
                    found = Some(done);
                }
            }
            // The run has as many instructions, so it does not end before.
            Turn::End(_) => unreachable!(),
            Turn::Memory => return Err(NoMemory),
        }
    }
    Ok(found)
}

/// How many instructions there are up to the last one, before instruction `n` of a run, behind which a stop holds of
/// the view; 0 where it holds behind none of them. The run is done again from its start. The place of the schedule is
/// open afterwards.
pub fn last<F: Fn(&View) -> bool + ViewTest>(
    alloc: Global,
    image: &Segments,
    sets: Option<u8>,
    length: u64,
    plan: &mut Schedule,
    n: u64,
    s: &Stop<F>,
) -> Result<u64, NoMemory>
    requires sets { IfSome sets (λ n. 0 < n × n < 16) }
    requires length { length ≤ MAX_LENGTH }
    requires reaches { HasInstructions (given (pairs_of image.now) plan.old.events length sets) n }
    ensures last { IfOk result
        (λ c. IsLastIn (F.ViewTest.allows s.now) (given (pairs_of image.now) plan.old.events length sets) n c) }
    ensures events { plan.new.events ≡ plan.old.events }
{
    plan.rewind();
    let mut m = Machine::new(alloc, image, sets, length)?;
    let found = seek(alloc, &mut m, plan, 0, n, n, s)?;
    Ok(found.unwrap_or(0))
}

/// The last instruction up to instruction `to`, and before instruction `n`, behind which a stop holds, from the nearest
/// machine on that is kept before `to`; and how many instructions that one had done.
fn seek_last<F: Fn(&View) -> bool + ViewTest>(
    alloc: Global,
    image: &Segments,
    sets: Option<u8>,
    trail: &mut Trail,
    plan: &mut Schedule,
    to: u64,
    n: u64,
    s: &Stop<F>,
) -> Result<(Option<u64>, u64), NoMemory>
    requires sets { IfSome sets (λ n. 0 < n × n < 16) }
    requires reaches { HasInstructions (given_of image.now sets plan.old) to }
    requires trail { IsTrail (given_of image.now sets plan.old) trail.old }
    ensures found { IfOk result
        (λ p. FoundBetween (HeldLast (F.ViewTest.allows s.now) n) (given_of image.now sets plan.old) p.1 to p.0) }
    ensures order { IfOk result (λ p. p.1 ≤ to - 1) }
    ensures trail { IsTrail (given_of image.now sets plan.old) trail.new }
    ensures events { plan.new.events ≡ plan.old.events }
{
    let before = to.saturating_sub(1);
    let (mut m, from) = trail.nearest(alloc, image, sets, MAX_LENGTH, plan, before)?;
    let mut done = from;
    let mut found = None;
    'stops: while done < to {
        let next = next_stop(done, to);
        found = seek(alloc, &mut m, plan, done, next, n, s)?.or(found);
        done = next;
        trail.keep(alloc, &m, plan, done, to);
    }
    Ok((found, from))
}

/// As `last`, in a session: it is looked for from instruction `n` backwards, from one machine that is kept to the one
/// before. The place of the schedule is open afterwards.
pub(crate) fn last_on<F: Fn(&View) -> bool + ViewTest>(
    alloc: Global,
    image: &Segments,
    sets: Option<u8>,
    trail: &mut Trail,
    plan: &mut Schedule,
    n: u64,
    s: &Stop<F>,
) -> Result<u64, NoMemory>
    requires sets { IfSome sets (λ n. 0 < n × n < 16) }
    requires reaches { HasInstructions (given_of image.now sets plan.old) n }
    requires trail { IsTrail (given_of image.now sets plan.old) trail.old }
    ensures last { IfOk result (λ c. IsLastIn (F.ViewTest.allows s.now) (given_of image.now sets plan.old) n c) }
    ensures trail { IsTrail (given_of image.now sets plan.old) trail.new }
    ensures events { plan.new.events ≡ plan.old.events }
{
    let (mut found, mut from) = seek_last(alloc, image, sets, trail, plan, n, n, s)?;
    'strides: while found.is_none() && from > 0 {
        (found, from) = seek_last(alloc, image, sets, trail, plan, from, n, s)?;
    }
    Ok(found.unwrap_or(0))
}
