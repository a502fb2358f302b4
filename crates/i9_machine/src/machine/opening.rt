//! What comes next for the machine, and when.
ghost use Rattle.std.specs.Prelude.{◌≡◌, ℕ, ◌<◌, List, None, Some, Ok, true, false, IfSome, IsNone};
ghost use Rattle.i9_model.specs.Run.{Faulted, fault_at};
ghost use Rattle.i9_model.specs.Standing.{stands_at, Faults};
ghost use Rattle.i9_model.specs.declared.need.TimedNeed.{TimedNeed};
ghost use Rattle.i9_model.specs.Turns.{StandsFor, IssuesAt, last_issue, issue_turn};
ghost use Rattle.i9_plan.specs.Kept.{inst_in, Locates};
ghost use Rattle.i9_plan.specs.Open.{OpenStands, OpenPlanned, WaitsForAll};
ghost use Rattle.i9_processor.specs.State.{state_of};
ghost use Rattle.i9_schedule.specs.Plan.{Plan};
ghost use Rattle.i9_machine.specs.Contents.{situation, outlook, contents_of, IsLike};
ghost use Rattle.i9_machine.specs.Opening.{IsFreeToIssue, NextWaits, HasNeed, HasOpenNeed, HasKept};

use super::Machine;
use super::planning::standing;
use crate::step::Coming;
use i9_model::Due;
use i9_model::faults::ARITHMETIC;
use i9_plan::{Open, need_done, need_faulted, plan_open};
use i9_schedule::Schedule;

impl Machine {
    ghost use Rattle.i9_machine.specs.Coming.{Arrives, IsReadyFor, IsNextInstruction};
    ghost use Rattle.i9_pipeline.specs.Flow.{IsEndTurn};
    ghost use Rattle.i9_machine.specs.Overtaking.{late_due, HasPace, IssuesAhead};
    ghost use Rattle.i9_machine.specs.StandsFor.{IsUnderWay};
    ghost use Rattle.i9_machine.specs.Step.{event_for};

    /// Whether nothing is due, and the length is not reached.
    #[inline(always)]
    fn goes_on(&self) -> bool
        ensures free { result ≡ true → (self.now.due ≡ Due.Nothing)
            × ((state_of self.now.pipeline.processor).count < self.now.length) }
        ensures waits { (plan : Plan) → result ≡ false → NextWaits (situation self.now) plan }
    {
        match &self.due {
            Due::Nothing => self.pipeline.processor.count() != self.length,
            Due::End(_) => false,
            Due::Entry(_) => false,
        }
    }

    /// Whether nothing is due, the length is not reached, and no interrupt is chosen, so that the instruction
    /// comes next where no event stands there. While software's requests are to be looked at, a barrier is open.
    #[inline(always)]
    fn is_free(&self) -> bool
        ensures free { result ≡ true → IsFreeToIssue (situation self.now) }
        ensures waits { (plan : Plan) → result ≡ false → NextWaits (situation self.now) plan }
    {
        if !self.goes_on() || self.pipeline.processor.check() {
            return false;
        }
        match self.pipeline.processor.choose() {
            Ok(None) => true,
            Ok(Some(_)) => false,
            Err(_) => false,
        }
    }

    /// The need of the instruction at the instruction address is kept, which faults.
    // Few do, and this is no part of the code for the others.
    #[inline(never)]
    fn keep_faulted(&mut self, number: (u8, u16))
        requires stands { stands_at (state_of self.old.pipeline.processor) ≡ Faults (inst_in self.old.decodes) number }
        requires located { Locates (state_of self.old.pipeline.processor) self.old.decodes }
        ensures need { HasNeed (situation self.old)
            (Faulted (Some (inst_in self.old.decodes)) (fault_at (state_of self.old.pipeline.processor) number))
            self.new.need }
        ensures like { IsLike self.old self.new }
        ensures decodes { self.new.decodes ≡ self.old.decodes }
        ensures effect { self.new.effect ≡ self.old.effect }
    {
        let need = need_faulted(&self.pipeline.processor, &self.decodes, number);
        self.keep(need);
    }

    /// What the instruction at the instruction address would do, as if nothing came before it. Its need is kept, and
    /// where it runs its effect is made in the machine.
    // It is no part of the code that calls it: `proceed` would grow so large that the build would keep it apart itself.
    #[inline(never)]
    fn plan_instruction(&mut self) -> Open
        ensures stands { OpenStands (state_of self.old.pipeline.processor) self.new.decodes result }
        ensures planned { OpenPlanned (state_of self.old.pipeline.processor) self.new.decodes result self.new.effect }
        ensures need { HasOpenNeed (situation self.old) result self.new.decodes self.new.need }
        ensures like { IsLike self.old self.new }
    {
        let open = plan_open(
            &self.pipeline.processor,
            &mut self.decodes,
            &mut self.effect,
        );
        match open {
            Open::Waits { .. } => {}
            Open::Runs => {
                let need = need_done(&self.pipeline.processor, &self.decodes, &self.effect);
                self.keep(need);
            }
            Open::Faults(number) => self.keep_faulted(number),
        }
        open
    }

    /// The turn at which a record issues whose need is kept.
    #[inline(always)]
    pub(super) fn issue_turn(&self) -> u64
        requires pace { HasPace (contents_of self.now) }
        requires need { HasKept self.now.pipeline.floor self.now.need }
        ensures computed { (rs : List TimedNeed) → StandsFor self.now.pipeline.board rs
            → result ≡ issue_turn (last_issue rs) rs self.now.need }
        ensures least { IssuesAt self.now.pipeline.board.last self.now.pipeline.board.records self.now.need result }
    {
        self.pipeline.board.next_turn(&self.need)
    }

    /// The turn at which the instruction at the instruction address would issue, as if no entry and no event
    /// stood before it; nothing where it waits for all that is open.
    fn issue_ahead(&mut self) -> Option<u64>
        requires pace { HasPace (contents_of self.old) }
        ensures like { IsLike self.old self.new }
        ensures turn { IfSome result (λ t. IssuesAhead (contents_of self.old) t) }
        ensures waits { IsNone result
            → WaitsForAll (state_of self.old.pipeline.processor) (stands_at (state_of self.old.pipeline.processor)) }
    {
        match self.plan_instruction() {
            Open::Waits { .. } => None,
            Open::Runs => Some(self.issue_turn()),
            Open::Faults(_) => Some(self.issue_turn()),
        }
    }

    /// What comes next where the entry of an arithmetic fault of the instruction at this address is due while
    /// something is open until a turn: an instruction that would issue before the fault is known overtakes it, which
    /// ends the run at that turn. Events that wait do not come before it, so it does not look at the schedule.
    // It is seldom so, and this is no part of the code that calls it.
    #[inline(never)]
    fn look_behind(&mut self, address: u32, until: u64) -> (u64, Coming)
        requires pace { HasPace (contents_of self.old) }
        requires until { IsEndTurn self.old.pipeline.board until }
        requires open { self.old.pipeline.turn < until }
        requires late { late_due (situation self.old) ≡ Some address }
        ensures like { IsLike self.old self.new }
        ensures arrives { (plan : Plan) → Arrives (contents_of self.old) plan result.0 result.1 }
        ensures ready { (plan : Plan) → IsReadyFor (outlook self.new) plan result.0 result.1 }
    {
        match self.issue_ahead() {
            Some(issue) if issue < self.pipeline.done => (issue, Coming::Overtaking(address)),
            _ => (until, Coming::Waiting { read: false }),
        }
    }

    /// The instruction that is planned comes next at its turn, unless an event stands before it, which waits for all
    /// that is open.
    #[inline(always)]
    fn look_at(&self, until: u64, plan: &Schedule, coming: Coming) -> (u64, Coming)
        requires stands { IsUnderWay self.now plan.now }
        requires until { IsEndTurn self.now.pipeline.board until }
        requires open { self.now.pipeline.turn < until }
        requires precise { late_due (situation self.now) ≡ None }
        requires next { IsNextInstruction (outlook self.now) coming }
        requires ready { (t : ℕ) → event_for (situation self.now) plan.now ≡ None
            → IssuesAt self.now.pipeline.board.last self.now.pipeline.board.records self.now.need t
            → IsReadyFor (outlook self.now) plan.now t coming }
        ensures arrives { Arrives (contents_of self.now) plan.now result.0 result.1 }
        ensures ready { IsReadyFor (outlook self.now) plan.now result.0 result.1 }
    {
        let turn = self.issue_turn();
        if standing(plan, self.pipeline.processor.count(), turn).is_some() {
            (until, Coming::Waiting { read: false })
        } else {
            (turn, coming)
        }
    }

    /// What comes next while something is open until a turn, and no fault is imprecise: an instruction, or what waits
    /// for all.
    #[inline(always)]
    fn look_open(&mut self, until: u64, plan: &Schedule) -> (u64, Coming)
        requires stands { IsUnderWay self.old plan.now }
        requires until { IsEndTurn self.old.pipeline.board until }
        requires open { self.old.pipeline.turn < until }
        requires precise { late_due (situation self.old) ≡ None }
        ensures like { IsLike self.old self.new }
        ensures arrives { Arrives (contents_of self.old) plan.now result.0 result.1 }
        ensures ready { IsReadyFor (outlook self.new) plan.now result.0 result.1 }
    {
        if !self.is_free() {
            return (until, Coming::Waiting { read: false });
        }
        match self.plan_instruction() {
            Open::Waits { read } => (until, Coming::Waiting { read }),
            Open::Runs => self.look_at(until, plan, Coming::Running),
            Open::Faults(number) => self.look_at(until, plan, Coming::Faulting(number)),
        }
    }

    /// What comes next, and at which turn: an instruction, unless what comes next waits for all that is open, or the
    /// end at an arithmetic fault that is overtaken. Nothing changes but what the machine has of what is planned.
    #[inline(always)]
    pub(super) fn look(&mut self, plan: &Schedule) -> (u64, Coming)
        requires stands { IsUnderWay self.old plan.now }
        ensures like { IsLike self.old self.new }
        ensures arrives { Arrives (contents_of self.old) plan.now result.0 result.1 }
        ensures ready { IsReadyFor (outlook self.new) plan.now result.0 result.1 }
    {
        let until = self.pipeline.board.all_done();
        if until <= self.pipeline.turn {
            return (until, Coming::Waiting { read: false });
        }
        if matches!(self.due, Due::Nothing) {
            return self.look_open(until, plan);
        }
        match self.late_fault() {
            Some(address) => self.look_behind(address, until),
            None => (until, Coming::Waiting { read: false }),
        }
    }

    /// The address of the instruction whose arithmetic fault is to be entered, where it may be imprecise.
    #[inline(always)]
    fn late_fault(&self) -> Option<u32>
        ensures { result ≡ late_due (situation self.now) }
    {
        if self.pipeline.processor.count() >= self.length {
            return None;
        }
        match &self.due {
            Due::Entry(fault) if fault.kind == ARITHMETIC => Some(fault.address),
            _ => None,
        }
    }
}
