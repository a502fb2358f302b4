//! What comes next for the machine: a step, or the end.
ghost use Rattle.std.specs.Prelude.{◌≡◌, ◌<◌, ◌≤◌, ℕ, Option, Some, None, Ok, IfSome, true, false};
ghost use Rattle.std.specs.Option.{option_copied};
ghost use Rattle.i9_model.specs.Events.{IsInRange};
ghost use Rattle.i9_model.specs.ScheduleText.{has_come_by, standing_by};
ghost use Rattle.i9_model.specs.Before.{choice_in};
ghost use Rattle.i9_model.specs.declared.event.Event as event;
ghost use Rattle.i9_schedule.specs.Plan.{Plan};
ghost use Rattle.i9_machine.specs.Opening.{IsTimely};
ghost use Rattle.i9_isa.specs.declared.inst.Inst.{Inst};
ghost use Rattle.i9_isa.specs.Words.{words_of};
ghost use Rattle.i9_model.specs.Needs.{is_barrier_name};
ghost use Rattle.i9_model.specs.Turns.{waiting_until};
ghost use Rattle.i9_model.specs.Traced.{traced_action};
ghost use Rattle.i9_model.specs.Run.{Does, Instruction, Faulted, faulted_words, fault_at, record_of, point_by_name};
ghost use Rattle.i9_model.specs.Run.{action_due};
ghost use Rattle.i9_plan.specs.Kept.{inst_in, words_in};
ghost use Rattle.i9_plan.specs.Planned.{TellsWords, IsRead, AreRequestsInRow};
ghost use Rattle.i9_processor.specs.Effect.{action_in, IsEffect, IsLight};
ghost use Rattle.i9_processor.specs.State.{state_of, IsDrained};
ghost use Rattle.i9_machine.specs.Issue.{TellsIssue};
ghost use Rattle.i9_pipeline.specs.Issuing.{most_turns};

use super::Machine;
use crate::line::{Issued, Turn};
use crate::step::{Ending, Step};
use i9_faults::{Fault, FaultStop};
use i9_isa::{Op, word_count};
use i9_model::faults::TRACE;
use i9_model::{Chosen, Due, End, Event, Need, Point, When};
use i9_plan::{
    Planned, Words, need_done, need_entered, need_faulted, need_reached, need_refused, plan_entry,
    plan_event, plan_faulting, plan_here, plan_interrupt,
};
use i9_processor::Effect;
use i9_schedule::Schedule;

/// The drained point behind an instruction. Barriers alone have one: nothing is asked for that where `light` is set.
#[inline(always)]
fn point_by_name(op: Op, light: bool) -> Option<Point>
    requires { light ≡ true → is_barrier_name op ≡ false }
    ensures { result ≡ point_by_name op }
{
    if light {
        return None;
    }
    match op {
        Op::Flushreg => Some(Point::Flush),
        Op::Syncf => Some(Point::Sync),
        _ => None,
    }
}

/// The entry of a fault or of an interrupt, behind which there is this drained point.
fn entered(point: Point) -> Step
    ensures reaches { result.reaches ≡ false }
    ensures point { result.point ≡ Some point }
    ensures counts { result.counts ≡ 0 }
    ensures due { result.due ≡ Due.Nothing }
    ensures answer { result.answer ≡ Turn.On }
{
    Step {
        reaches: false,
        point: Some(point),
        counts: 0,
        due: Due::Nothing,
        answer: Turn::On,
    }
}

/// An event that is reached, behind which there is a drained point.
fn reached() -> Step
    ensures reaches { result.reaches ≡ true }
    ensures point { result.point ≡ Some Point.Event }
    ensures counts { result.counts ≡ 0 }
    ensures due { result.due ≡ Due.Nothing }
    ensures answer { result.answer ≡ Turn.On }
{
    Step {
        reaches: true,
        point: Some(Point::Event),
        counts: 0,
        due: Due::Nothing,
        answer: Turn::On,
    }
}

/// Whether a time has come after so many instructions, where the next one would issue at a turn.
fn has_come(when: When, count: u64, turn: u64) -> bool
    ensures { result ≡ has_come_by count turn when }
{
    match when {
        When::At(time) => time == count,
        When::Turn(time) => time <= turn,
    }
}

/// The next event of a schedule, where its time has come after so many instructions, where the next one would
/// issue at a turn.
pub(super) fn standing(plan: &Schedule, count: u64, turn: u64) -> Option<&Event>
    ensures event { option_copied result ≡ standing_by plan.now.events plan.now.place count turn }
    ensures ranges { IfSome result (λ e. IsInRange e.now) }
{
    let next = plan.next()?;
    if has_come(next.when, count, turn) {
        Some(&next.event)
    } else {
        None
    }
}

impl Machine {
    ghost use Rattle.i9_machine.specs.Coming.{HasRead};
    ghost use Rattle.i9_machine.specs.Contents.{situation, outlook, IsLike};
    ghost use Rattle.i9_machine.specs.Step.{IsStepIn, IsNext, event_for, next_where, need_in};

    /// What is told of an instruction of these words.
    #[inline(always)]
    fn issued(&self, words: Words) -> Issued
        ensures { (n : ℕ) → TellsWords n (state_of self.now.pipeline.processor) words
            → TellsIssue n (state_of self.now.pipeline.processor) result }
    {
        Issued {
            count: self.pipeline.processor.count(),
            address: self.pipeline.processor.ip(),
            first: words.first,
            second: words.second,
        }
    }

    /// What an effect makes due: an exit, where it brings one, or else the entry of the fault of its trace
    /// events, where some count.
    #[inline(always)]
    fn due_by(&self, e: &Effect, light: bool) -> Due
        requires { light ≡ true → IsLight e.now }
        ensures { result ≡ action_due (state_of self.now.pipeline.processor)
            (action_in (state_of self.now.pipeline.processor) e.now) }
    {
        if let Some(w) = e.exit_word(&self.pipeline.processor, light) {
            return Due::End(End::Exit(w));
        }
        match e.trace_by(light) {
            Some(trace) => Due::Entry(Fault {
                kind: TRACE,
                subtype: trace.subtype,
                address: self.pipeline.processor.ip(),
            }),
            None => Due::Nothing,
        }
    }

    /// The need of a record is kept, behind the last fence.
    #[inline(always)]
    pub(super) fn keep(&mut self, need: Need)
        ensures need { self.new.need ≡ waiting_until self.old.pipeline.floor need }
        ensures like { IsLike self.old self.new }
        ensures decodes { self.new.decodes ≡ self.old.decodes }
        ensures effect { self.new.effect ≡ self.old.effect }
    {
        self.need = Need {
            not_before: self.pipeline.floor.max(need.not_before),
            ..need
        };
    }

    /// An instruction is done, by the effect that was planned, where it comes next.
    #[inline(always)]
    pub(super) fn does(&self, light: bool) -> Step
        requires light { light ≡ true → IsLight self.now.effect }
        requires named { light ≡ true → is_barrier_name (inst_in self.now.decodes).op ≡ false }
        requires words { TellsWords (words_of (inst_in self.now.decodes)) (state_of self.now.pipeline.processor)
            (words_in self.now.decodes) }
        requires effect { IsEffect (state_of self.now.pipeline.processor)
            (traced_action (inst_in self.now.decodes) (state_of self.now.pipeline.processor)) self.now.effect }
        requires row { AreRequestsInRow (inst_in self.now.decodes) self.now.effect }
        ensures { (need : Need) (stands : Option event.Event) (plan : Plan)
            → next_where (situation self.now) stands
            ≡ Does (record_of (Instruction (inst_in self.now.decodes)) (state_of self.now.pipeline.processor))
            → need ≡ need_in (situation self.now) (Instruction (inst_in self.now.decodes))
            → need.cost ≤ most_turns → IsStepIn (situation self.now) stands plan result need self.now.effect }
    {
        Step {
            reaches: false,
            point: point_by_name(self.decodes.inst().op, light),
            counts: 1,
            due: self.due_by(&self.effect, light),
            answer: Turn::Issued(self.issued(self.decodes.words())),
        }
    }

    /// An instruction of so many words faults where it comes next, and the entry of its fault is due.
    pub(super) fn faults(&mut self, words: Words, count: u32, number: (u8, u16)) -> Step
        requires words { TellsWords count (state_of self.old.pipeline.processor) words }
        ensures step { (need : Need) (inst : Option Inst) (stands : Option event.Event) (plan : Plan)
            → count ≡ faulted_words inst
            → next_where (situation self.old) stands
            ≡ Does (record_of (Faulted inst (fault_at (state_of self.old.pipeline.processor) number))
            (state_of self.old.pipeline.processor))
            → need ≡ need_in (situation self.old)
            (Faulted inst (fault_at (state_of self.old.pipeline.processor) number))
            → need.cost ≤ most_turns → IsStepIn (situation self.old) stands plan result need self.new.effect }
        ensures like { IsLike self.old self.new }
        ensures need { self.new.need ≡ self.old.need }
    {
        let fault = Fault {
            kind: number.0,
            subtype: number.1,
            address: self.pipeline.processor.ip(),
        };
        plan_faulting(&self.pipeline.processor, count, &mut self.effect);
        Step {
            reaches: false,
            point: None,
            counts: 1,
            due: Due::Entry(fault),
            answer: Turn::Issued(self.issued(words)),
        }
    }

    /// The instruction that was read last faults where it comes next.
    pub(super) fn faults_by(&mut self, number: (u8, u16)) -> Step
        requires words { TellsWords (words_of (inst_in self.old.decodes)) (state_of self.old.pipeline.processor)
            (words_in self.old.decodes) }
        ensures step { (need : Need) (stands : Option event.Event) (plan : Plan)
            → next_where (situation self.old) stands
            ≡ Does (record_of (Faulted (Some (inst_in self.old.decodes))
            (fault_at (state_of self.old.pipeline.processor) number)) (state_of self.old.pipeline.processor))
            → need ≡ need_in (situation self.old)
            (Faulted (Some (inst_in self.old.decodes)) (fault_at (state_of self.old.pipeline.processor) number))
            → need.cost ≤ most_turns → IsStepIn (situation self.old) stands plan result need self.new.effect }
        ensures like { IsLike self.old self.new }
        ensures need { self.new.need ≡ self.old.need }
    {
        let count = word_count(self.decodes.inst());
        let words = self.decodes.words();
        self.faults(words, count, number)
    }

    /// The next instruction, or the end that stands in its place. Where `read` is set, it is in the decode cache.
    fn next_instruction(&mut self, read: bool, plan: &Schedule) -> Result<Step, Ending>
        requires below { (state_of self.old.pipeline.processor).count < self.old.length }
        requires free { self.old.due ≡ Due.Nothing }
        requires chosen { choice_in (state_of self.old.pipeline.processor) ≡ Ok None }
        requires stands { event_for (situation self.old) plan.now ≡ None }
        requires drained { IsDrained self.old.pipeline.processor }
        requires read { read ≡ true → IsRead (state_of self.old.pipeline.processor) self.old.decodes }
        ensures next { IsNext (situation self.old) plan.now result self.new }
        ensures like { IsLike self.old self.new }
    {
        match plan_here(
            &self.pipeline.processor,
            read,
            &mut self.decodes,
            &mut self.effect,
        ) {
            Planned::Meets(a) => Err(Ending::Alone(End::Hazard(a))),
            Planned::Refused { words, number } => {
                let need = need_refused(&self.pipeline.processor, number);
                let step = self.faults(words, 1, number);
                self.keep(need);
                Ok(step)
            }
            Planned::Faults(number) => {
                let need = need_faulted(&self.pipeline.processor, &self.decodes, number);
                let step = self.faults_by(number);
                self.keep(need);
                Ok(step)
            }
            Planned::Runs => {
                let need = need_done(&self.pipeline.processor, &self.decodes, &self.effect);
                let step = self.does(false);
                self.keep(need);
                Ok(step)
            }
        }
    }

    /// The entry of a fault, or the hazard or the dead entry of the fault table that ends the run.
    fn entry(&mut self, fault: &Fault, plan: &Schedule) -> Result<Step, Ending>
        requires due { self.old.due ≡ Due.Entry fault.now }
        requires drained { IsDrained self.old.pipeline.processor }
        ensures next { IsNext (situation self.old) plan.now result self.new }
        ensures like { IsLike self.old self.new }
    {
        match plan_entry(&self.pipeline.processor, fault) {
            Ok(entry) => {
                self.effect = entry;
                let need = need_entered(&self.pipeline.processor, &self.effect);
                self.keep(need);
                Ok(entered(Point::Fault))
            }
            Err(FaultStop::Hazard(a)) => Err(Ending::Alone(End::Hazard(a))),
            Err(FaultStop::Dead { code, address }) => Err(Ending::Alone(End::Dead(code, address))),
        }
    }

    /// The entry of an interrupt that is chosen, or the hazard that ends the run.
    fn interrupt(&mut self, choice: &Chosen, plan: &Schedule) -> Result<Step, Ending>
        requires below { (state_of self.old.pipeline.processor).count < self.old.length }
        requires free { self.old.due ≡ Due.Nothing }
        requires chosen { choice_in (state_of self.old.pipeline.processor) ≡ Ok (Some choice.now) }
        requires drained { IsDrained self.old.pipeline.processor }
        ensures next { IsNext (situation self.old) plan.now result self.new }
        ensures like { IsLike self.old self.new }
    {
        match plan_interrupt(&self.pipeline.processor, choice) {
            Ok(entry) => {
                self.effect = entry;
                let need = need_entered(&self.pipeline.processor, &self.effect);
                self.keep(need);
                Ok(entered(Point::Int))
            }
            Err(a) => Err(Ending::Alone(End::Hazard(a))),
        }
    }

    /// An event is reached: it does something, or it meets a hazard, which ends the run.
    fn reaches(&mut self, event: &Event, plan: &Schedule) -> Result<Step, Ending>
        requires below { (state_of self.old.pipeline.processor).count < self.old.length }
        requires free { self.old.due ≡ Due.Nothing }
        requires chosen { choice_in (state_of self.old.pipeline.processor) ≡ Ok None }
        requires stands { event_for (situation self.old) plan.now ≡ Some event.now }
        requires ranges { IsInRange event.now }
        requires drained { IsDrained self.old.pipeline.processor }
        ensures next { IsNext (situation self.old) plan.now result self.new }
        ensures like { IsLike self.old self.new }
    {
        match plan_event(&self.pipeline.processor, event) {
            Ok(planned) => {
                self.effect = planned;
                self.keep(need_reached(event));
                Ok(reached())
            }
            Err(a) => Err(Ending::AtEvent(a)),
        }
    }

    /// The event that stands there, where no interrupt is chosen, or else the next instruction, which is in the decode
    /// cache where `read` is set.
    fn event_or_instruction(&mut self, read: bool, plan: &Schedule) -> Result<Step, Ending>
        requires below { (state_of self.old.pipeline.processor).count < self.old.length }
        requires free { self.old.due ≡ Due.Nothing }
        requires chosen { choice_in (state_of self.old.pipeline.processor) ≡ Ok None }
        requires drained { IsDrained self.old.pipeline.processor }
        requires timely { IsTimely (situation self.old) self.old.pipeline.turn plan.now }
        requires read { read ≡ true → IsRead (state_of self.old.pipeline.processor) self.old.decodes }
        ensures next { IsNext (situation self.old) plan.now result self.new }
        ensures like { IsLike self.old self.new }
    {
        match standing(plan, self.pipeline.processor.count(), self.pipeline.turn) {
            Some(event) => self.reaches(event, plan),
            None => self.next_instruction(read, plan),
        }
    }

    /// What comes next where nothing is due and the length is not reached: the entry of an interrupt that is
    /// chosen, an event, or one instruction.
    fn next_freely(&mut self, plan: &Schedule) -> Result<Step, Ending>
        requires below { (state_of self.old.pipeline.processor).count < self.old.length }
        requires free { self.old.due ≡ Due.Nothing }
        requires drained { IsDrained self.old.pipeline.processor }
        requires timely { IsTimely (situation self.old) self.old.pipeline.turn plan.now }
        ensures next { IsNext (situation self.old) plan.now result self.new }
        ensures like { IsLike self.old self.new }
    {
        match self.pipeline.processor.choose() {
            Ok(None) => self.event_or_instruction(false, plan),
            Ok(Some(choice)) => self.interrupt(&choice, plan),
            Err(a) => Err(Ending::Alone(End::Hazard(a))),
        }
    }

    /// What comes next where nothing is open: what is due, the end of the length, or what comes before or is
    /// the next instruction. Its effect is made in the machine. Where `read` is set, nothing comes before the
    /// instruction in the decode cache but an event.
    pub(super) fn next_step(&mut self, read: bool, plan: &Schedule) -> Result<Step, Ending>
        requires drained { IsDrained self.old.pipeline.processor }
        requires timely { IsTimely (situation self.old) self.old.pipeline.turn plan.now }
        requires read { read ≡ true → HasRead (outlook self.old) }
        ensures next { IsNext (situation self.old) plan.now result self.new }
        ensures like { IsLike self.old self.new }
    {
        if read {
            return self.event_or_instruction(true, plan);
        }
        match self.due {
            Due::End(e) => Err(Ending::Alone(e)),
            Due::Entry(fault) => self.entry(&fault, plan),
            Due::Nothing if self.pipeline.processor.count() == self.length => Err(Ending::Alone(
                End::Limit,
            )),
            Due::Nothing => self.next_freely(plan),
        }
    }
}
