//! Machines that are kept at earlier states of a run, so that it is not done again from its start each time.
ghost use Rattle.std.specs.Prelude.{◌≡◌, ◌-◌, ◌<◌, ◌≤◌, ℕ, IfOk, IfSome, OnOk, OnErr};
ghost use Rattle.std.specs.List.{AllByRecursion};
ghost use Rattle.i9_model.specs.declared.layout.TheConstants.{MAX_LENGTH};
ghost use Rattle.i9_model.specs.Given.{Given, given};
ghost use Rattle.i9_model.specs.Image.{pairs_of};
ghost use Rattle.i9_back.specs.Earlier.{HasInstructions};
ghost use Rattle.i9_back.specs.Stands.{StandsEarlier, StaysAt, IsLastChange};
ghost use Rattle.i9_back.specs.Trail.{IsKept, IsTrail, FoundBetween, ChangedLast, FollowsEarlier};

use crate::rerun::{forward, watch};
use i9_hex::Segments;
use i9_isa::NoMemory;
use i9_machine::Machine;
use i9_schedule::Schedule;
use std::alloc::Global;

/// How many instructions lie between two machines that are kept, of a run of at most 10,000,000.
const STRIDE: u64 = 250_000;

/// One more is kept halfway in a stride.
const HALF: u64 = STRIDE / 2;

/// A machine that is kept right after so many instructions, with the place of the schedule behind it.
#[derive(Drop)]
pub(crate) struct Kept {
    count: u64,
    place: u64,
    machine: Machine,
}

/// Machines that are kept at earlier states of one run, on the way there: one at the start of each stride of 250,000
/// instructions, and one halfway in the stride that was done again last, so 40 at most. As long as nothing is done
/// again there is none.
#[derive(Drop)]
pub struct Trail {
    kept: Vec<Kept>,
}

/// Of the machines that stand for so many instructions or fewer, the one that stands for most.
fn nearest_of(kept: &[Kept], c: u64) -> Option<&Kept>
    ensures { (g : Given) → AllByRecursion (IsKept g) kept.now
        → IfSome result (λ k. IsKept g k.now × (k.now.count ≤ c)) }
{
    let mut best: Option<&Kept> = None;
    for k in kept {
        if k.count <= c && best.is_none_or(|b| b.count < k.count) {
            best = Some(k);
        }
    }
    best
}

/// The next place on the way from instruction `done` to `to` at which a machine may be kept, or `to`.
pub fn next_stop(done: u64, to: u64) -> u64
    requires { done < to }
    ensures on { done < result }
    ensures within { result ≤ to }
{
    done + (HALF - done % HALF).min(to - done)
}

/// Whether a machine is kept right after instruction `count`, which is such a place, on the way to instruction `to`: at
/// the start of a stride, and halfway in the stride that leads there.
fn is_stop(count: u64, to: u64) -> bool {
    count < to && (count % STRIDE == 0 || count / STRIDE == (to - 1) / STRIDE)
}

impl Trail {
    /// No machine is kept. No memory is asked for.
    pub fn new(alloc: Global) -> Trail
        ensures { (g : Given) → IsTrail g result }
    {
        Trail {
            kept: Vec::new(alloc),
        }
    }

    /// Where a machine is to be kept halfway in a stride, the one that was kept so before goes.
    fn make_room(&mut self, count: u64)
        ensures { (g : Given) → IsTrail g self.old → IsTrail g self.new }
    {
        if count % STRIDE != 0 {
            self.kept.retain(|k| k.count % STRIDE == 0);
        }
    }

    /// Keeps a copy of a machine that stands right after instruction `count`, on the way to instruction `to`, where one
    /// is to be kept there. Where memory is refused none is kept.
    pub fn keep(&mut self, alloc: Global, m: &Machine, plan: &Schedule, count: u64, to: u64)
        ensures { (g : Given) → IsTrail g self.old → StandsEarlier g count m.now plan.now → IsTrail g self.new }
    {
        if !is_stop(count, to) {
            return;
        }
        self.make_room(count);
        if let Ok(machine) = m.copy(alloc) {
            let place = plan.place();
            let _refused = self.kept.push(Kept {
                count,
                place,
                machine,
            });
        }
    }

    /// A machine at the nearest state that is not behind instruction `c`, of those that are kept and the start of the
    /// run, and how many instructions it has done; the schedule stands behind it. Where memory is refused it has the
    /// same events, and its place is open.
    pub fn nearest(
        &self,
        alloc: Global,
        image: &Segments,
        sets: Option<u8>,
        length: u64,
        plan: &mut Schedule,
        c: u64,
    ) -> Result<(Machine, u64), NoMemory>
        requires sets { IfSome sets (λ n. 0 < n × n < 16) }
        requires length { length ≤ MAX_LENGTH }
        requires trail { IsTrail (given (pairs_of image.now) plan.old.events length sets) self.now }
        ensures stands { IfOk result
            (λ p. StandsEarlier (given (pairs_of image.now) plan.old.events length sets) p.1 p.0 plan.new) }
        ensures order { IfOk result (λ p. p.1 ≤ c) }
        ensures events { plan.new.events ≡ plan.old.events }
    {
        match nearest_of(&self.kept, c) {
            Some(kept) => {
                let machine = kept.machine.copy(alloc)?;
                plan.seek(kept.place);
                Ok((machine, kept.count))
            }
            None => {
                plan.rewind();
                let machine = Machine::new(alloc, image, sets, length)?;
                Ok((machine, 0))
            }
        }
    }

    /// As `replay` of this crate, from the nearest machine that is kept; others are kept on the way, as far as memory
    /// is at hand.
    pub fn replay(
        &mut self,
        alloc: Global,
        image: &Segments,
        sets: Option<u8>,
        length: u64,
        plan: &mut Schedule,
        c: u64,
    ) -> Result<Machine, NoMemory>
        requires sets { IfSome sets (λ n. 0 < n × n < 16) }
        requires length { length ≤ MAX_LENGTH }
        requires reaches { HasInstructions (given (pairs_of image.now) plan.old.events length sets) c }
        requires trail { IsTrail (given (pairs_of image.now) plan.old.events length sets) self.old }
        ensures stands { IfOk result
            (λ m. StandsEarlier (given (pairs_of image.now) plan.old.events length sets) c m plan.new) }
        ensures trail { IsTrail (given (pairs_of image.now) plan.old.events length sets) self.new }
        ensures events { plan.new.events ≡ plan.old.events }
    {
        let (mut m, from) = self.nearest(alloc, image, sets, length, plan, c)?;
        let mut done = from;
        'stops: while done < c {
            let next = next_stop(done, c);
            forward(alloc, &mut m, plan, done, next)?;
            done = next;
            self.keep(alloc, &m, plan, done, c);
        }
        Ok(m)
    }

    /// The run goes to right after its instruction `c`: the machine and the schedule do, or where memory is refused
    /// both are as before.
    pub fn go_back(
        &mut self,
        alloc: Global,
        image: &Segments,
        sets: Option<u8>,
        length: u64,
        m: &mut Machine,
        plan: &mut Schedule,
        c: u64,
    ) -> Result<(), NoMemory>
        requires sets { IfSome sets (λ n. 0 < n × n < 16) }
        requires length { length ≤ MAX_LENGTH }
        requires reaches { HasInstructions (given (pairs_of image.now) plan.old.events length sets) c }
        requires trail { IsTrail (given (pairs_of image.now) plan.old.events length sets) self.old }
        ensures stands { OnOk result
            (StandsEarlier (given (pairs_of image.now) plan.old.events length sets) c m.new plan.new) }
        ensures same { OnErr result ((m.new ≡ m.old) × StaysAt plan.old plan.new) }
        ensures trail { IsTrail (given (pairs_of image.now) plan.old.events length sets) self.new }
    {
        let place = plan.place();
        match self.replay(alloc, image, sets, length, plan, c) {
            Ok(machine) => {
                *m = machine;
                Ok(())
            }
            Err(_) => {
                plan.seek(place);
                Err(NoMemory)
            }
        }
    }

    /// What last changed a byte among the instructions up to `to`, from the nearest machine on that is kept before it,
    /// and how many instructions that one had done.
    fn watch_last(
        &mut self,
        alloc: Global,
        image: &Segments,
        sets: Option<u8>,
        length: u64,
        plan: &mut Schedule,
        to: u64,
        a: u32,
    ) -> Result<(Option<(u64, u32)>, u64), NoMemory>
        requires sets { IfSome sets (λ n. 0 < n × n < 16) }
        requires length { length ≤ MAX_LENGTH }
        requires reaches { HasInstructions (given (pairs_of image.now) plan.old.events length sets) to }
        requires trail { IsTrail (given (pairs_of image.now) plan.old.events length sets) self.old }
        ensures found { IfOk result
            (λ p. FoundBetween (ChangedLast a) (given (pairs_of image.now) plan.old.events length sets) p.1 to p.0) }
        ensures order { IfOk result (λ p. p.1 ≤ to - 1) }
        ensures behind { OnOk result
            (FollowsEarlier (given (pairs_of image.now) plan.old.events length sets) to plan.new) }
        ensures trail { IsTrail (given (pairs_of image.now) plan.old.events length sets) self.new }
        ensures events { plan.new.events ≡ plan.old.events }
    {
        let (mut m, from) = self.nearest(alloc, image, sets, length, plan, to.saturating_sub(1))?;
        let mut done = from;
        let mut found = None;
        'stops: while done < to {
            let next = next_stop(done, to);
            found = watch(alloc, &mut m, plan, done, next, a)?.or(found);
            done = next;
            self.keep(alloc, &m, plan, done, to);
        }
        Ok((found, from))
    }

    /// As `last_change` of this crate, looked for from instruction `n` backwards, from one machine that is kept to the
    /// one before.
    pub fn last_change(
        &mut self,
        alloc: Global,
        image: &Segments,
        sets: Option<u8>,
        length: u64,
        plan: &mut Schedule,
        n: u64,
        a: u32,
    ) -> Result<Option<(u64, u32)>, NoMemory>
        requires sets { IfSome sets (λ n. 0 < n × n < 16) }
        requires length { length ≤ MAX_LENGTH }
        requires reaches { HasInstructions (given (pairs_of image.now) plan.old.events length sets) n }
        requires trail { IsTrail (given (pairs_of image.now) plan.old.events length sets) self.old }
        ensures found { IfOk result
            (λ o. IsLastChange (given (pairs_of image.now) plan.old.events length sets) n a o plan.new) }
        ensures trail { IsTrail (given (pairs_of image.now) plan.old.events length sets) self.new }
        ensures events { plan.new.events ≡ plan.old.events }
    {
        let (mut found, mut from) = self.watch_last(alloc, image, sets, length, plan, n, a)?;
        let place = plan.place();
        'strides: while found.is_none() && from > 0 {
            (found, from) = self.watch_last(alloc, image, sets, length, plan, from, a)?;
        }
        plan.seek(place);
        Ok(found)
    }
}
