//! The machine, one step at a time.
ghost use Rattle.std.specs.Prelude.{◌≡◌, ◌+◌, ◌-◌, ◌^◌, ◌<◌, ◌≤◌, [], ◌∷◌, length, max, List, Option, None, Some};
ghost use Rattle.std.specs.Prelude.{IfOk, IfSome, IsSome, vec_len, vec_capacity, true, false};
ghost use Rattle.std.proofs.Props.{props};
ghost use Rattle.i9_model.specs.declared.layout.TheConstants.{MAX_LENGTH};
ghost use Rattle.i9_model.specs.declared.event.Timed.{Timed};
ghost use Rattle.i9_model.specs.Image.{pairs_of};
ghost use Rattle.i9_model.specs.Overlay.{overlay};
ghost use Rattle.i9_model.specs.HeldFrames.{cache_after, sets_in};
ghost use Rattle.i9_model.specs.Given.{Given, given};
ghost use Rattle.i9_model.specs.declared.run.End.{End};
ghost use Rattle.i9_model.specs.ScheduleText.{IsPlan};
ghost use Rattle.i9_model.specs.Run.{Faulted, fault_at, state_after, Finish};
ghost use Rattle.i9_model.specs.declared.need.TimedNeed.{TimedNeed};
ghost use Rattle.i9_model.specs.Turns.{end_turn};
ghost use Rattle.i9_model.specs.Turns as board;
ghost use Rattle.i9_course.specs.Course.{Item, Fence, records_of, comes_next};
ghost use Rattle.i9_model.specs.PrintedText.{view_of};
ghost use Rattle.i9_plan.specs.Kept.{inst_in};
ghost use Rattle.i9_frames.specs.Sets.{held};
ghost use Rattle.i9_processor.specs.State.{state_of, IsDrained};
ghost use Rattle.i9_processor.specs.Effect.{KeepsRoom};
ghost use Rattle.i9_processor.specs.Pages.{AddsNoPage, HasPagesFor};
ghost use Rattle.std.specs.Option.{option_map};

mod copying;
mod doing;
mod opening;
mod planning;
mod turning;

use crate::line::{Line, Turn};
use crate::step::{Coming, Ending};
use i9_frames::Sets;
use i9_hex::Segments;
use i9_isa::NoMemory;
use i9_model::layout::MAX_LENGTH;
use i9_model::{Due, End, Need, View};
use i9_pipeline::Pipeline;
use i9_plan::DecodeCache;
use i9_processor::{Effect, Processor};
use i9_schedule::Schedule;
use std::alloc::Global;

/// A machine that runs an image: its pipeline; what it is given, which is the sets that are asked for and the
/// length of the run; what comes next whatever the length, a turn below which nothing does, and the end that
/// was answered; and what is planned: instructions that were decoded, and the effect and the need of the next
/// record.
#[derive(Drop)]
pub struct Machine {
    pipeline: Pipeline,
    alloc: Global,
    sets: Option<u8>,
    length: u64,
    due: Due,
    wait: u64,
    ended: Option<End>,
    decodes: DecodeCache,
    effect: Effect,
    need: Need,
    ghost short: { length ≤ MAX_LENGTH },
    ghost below: { (state_of pipeline.processor).count ≤ length },
    ghost few: { IfSome sets (λ n. 0 < n × n < 16) } by { Prim.hlevel props },
}

impl Machine {
    ghost use Rattle.i9_machine.specs.Coming.{HasArrived, HasRead, IsAhead, RunsAhead, IsReadyFor, Came};
    ghost use Rattle.i9_machine.specs.Contents.{situation, outlook, contents_of, IsMovedTo, IsPassedTo};
    ghost use Rattle.i9_machine.specs.StandsFor.{StandsFor, Follows, Advances, Proceeds, ProceedsUntil, AnswersAgain};
    ghost use Rattle.i9_machine.specs.StandsFor.{IsUnderWay, HasCome};
    ghost use Rattle.i9_pipeline.specs.Flow.{flow_of, IsQuiet};
    ghost use Rattle.i9_machine.specs.NewPages.{AddsNextOnly};
    ghost use Rattle.i9_machine.specs.Progress.{progress};
    ghost use Rattle.i9_machine.specs.Doing.{PlansLight};
    ghost use Rattle.i9_machine.specs.Opening.{IsTimely};
    ghost use Rattle.i9_machine.specs.Raw.{IsLevel};
    ghost use Rattle.i9_machine.specs.Step.{HasRoom, LeavesFewer, Steps, Costs, stage, steps_left};

    /// A machine before its first step: its run has the image's bytes, so many register sets or as many
    /// as the PRCB asks for, and at most so many instructions. It has pages for the image's bytes alone.
    pub fn new(
        alloc: Global,
        image: &Segments,
        sets: Option<u8>,
        length: u64,
    ) -> Result<Machine, NoMemory>
        requires sets { IfSome sets (λ n. 0 < n × n < 16) }
        requires length { length ≤ MAX_LENGTH }
        ensures stands { (plan : List Timed) → IsPlan plan
            → IfOk result (λ m. StandsFor (given (pairs_of image.now) plan length sets) [] None m) }
        ensures turn { IfOk result (λ m. m.pipeline.turn ≡ 1) }
        ensures pages { IfOk result (λ m. HasPagesFor m.pipeline.processor (pairs_of image.now)) }
    {
        let processor = Processor::boot(alloc, image, sets)?;
        let decodes = DecodeCache::new(alloc)?;
        Ok(Machine {
            pipeline: Pipeline::new(processor),
            alloc,
            sets,
            length,
            due: Due::Nothing,
            wait: 0,
            ended: None,
            decodes,
            effect: Effect::blank(),
            need: Need::default(),
        })
    }

    /// What a drained point shows: the state after the records so far.
    pub fn view(&self) -> View
        ensures shown { (g : Given) (h : List Item) (end : Option Finish) → StandsFor g h end self.now
            → result ≡ view_of (state_after g (records_of h)) }
        ensures count { result.count ≤ MAX_LENGTH }
    {
        self.pipeline.processor.view()
    }

    /// A byte of overlaid memory: `None` exactly where it is not compared, which is where only the save
    /// of a frame wrote it and that frame is not live any more.
    pub fn byte(&self, a: u32) -> Option<u8>
        ensures { (g : Given) (h : List Item) (end : Option Finish) → StandsFor g h end self.now
            → result ≡ overlay (state_after g (records_of h)) a }
    {
        self.pipeline.processor.overlay(a)
    }

    /// The end of the run that was answered; `None` where none was.
    pub fn ended(&self) -> Option<End>
        ensures { (g : Given) (h : List Item) (end : Option Finish) → StandsFor g h end self.now
            → result ≡ option_map (λ f. f.end) end }
    {
        self.ended
    }

    /// The frames that are held, each in a set.
    pub fn held(&self) -> &Sets
        ensures { (g : Given) (h : List Item) (end : Option Finish) → StandsFor g h end self.now
            → result.now ≡ held (sets_in g.sets (state_after g (records_of h))) (cache_after g (records_of h)).held }
    {
        self.pipeline.processor.sets()
    }

    /// Lands all that is open: the turn becomes one at which all records are done. Where no end was answered a
    /// fence is set, so that nothing issues below the turn at which they are; after an end none is. It succeeds
    /// at every moment, and takes no memory.
    pub fn settle(&mut self)
        ensures fenced { (g : Given) (h : List Item) → StandsFor g h None self.old
            → StandsFor g (Fence ∷ h) None self.new }
        ensures ended { (g : Given) (h : List Item) (f : Finish) → StandsFor g h (Some f) self.old
            → StandsFor g h (Some f) self.new }
        ensures turn { (rs : List TimedNeed) → board.StandsFor self.old.pipeline.board rs
            → self.new.pipeline.turn ≡ max self.old.pipeline.turn (end_turn rs) }
        ensures quiet { (g : Given) (h : List Item) (end : Option Finish) → StandsFor g h end self.old
            → IsQuiet (flow_of self.new.pipeline) }
        ensures level { (g : Given) (h : List Item) (end : Option Finish) → StandsFor g h end self.old
            → IsLevel g h self.new.pipeline.turn }
        ensures room { KeepsRoom self.old.pipeline.processor self.new.pipeline.processor }
        ensures no_more { AddsNoPage self.old.pipeline.processor self.new.pipeline.processor }
    {
        let fenced = self.ended.is_none();
        self.pipeline.settle(fenced);
        self.wait = 0;
    }

    /// The turn becomes this one, where it is below it, and what is due by then lands.
    #[inline(always)]
    fn pass_to(&mut self, turn: u64)
        ensures passed { IsPassedTo turn self.old self.new }
        ensures keeps { outlook self.new ≡ outlook self.old }
        ensures room { KeepsRoom self.old.pipeline.processor self.new.pipeline.processor }
        ensures no_more { AddsNoPage self.old.pipeline.processor self.new.pipeline.processor }
    {
        if self.pipeline.turn < turn {
            self.pipeline.move_to(turn);
        }
    }

    /// The turn moves by one, to which something waits, and what is due lands.
    fn move_on(&mut self)
        requires { self.old.pipeline.turn < self.old.wait }
        ensures moved { IsMovedTo (self.old.pipeline.turn + 1) self.old self.new }
        ensures no_more { AddsNoPage self.old.pipeline.processor self.new.pipeline.processor }
    {
        let turn = self.pipeline.turn + 1;
        self.pipeline.move_to(turn);
    }

    /// The turn moves by one, and nothing comes below another one.
    fn wait_until(&mut self, turn: u64) -> Turn
        requires { self.old.pipeline.turn < turn }
        ensures answer { result ≡ Turn.On }
        ensures moved { IsMovedTo (self.old.pipeline.turn + 1) (record self.old { wait = turn }) self.new }
        ensures no_more { AddsNoPage self.old.pipeline.processor self.new.pipeline.processor }
    {
        self.wait = turn;
        self.move_on();
        Turn::On
    }

    /// One step of a machine for which nothing is open. Where `read` is set, nothing comes before the instruction in
    /// the decode cache but an event.
    // Loops seldom come here, and this is no part of their code.
    #[inline(never)]
    fn step_drained(&mut self, read: bool, plan: &mut Schedule, out: &mut Vec<Line>) -> Turn
        requires running { self.old.ended ≡ None }
        requires come { HasCome (contents_of self.old) plan.old }
        requires drained { IsDrained self.old.pipeline.processor }
        requires timely { IsTimely (situation self.old) self.old.pipeline.turn plan.old }
        requires read { read ≡ true → HasRead (outlook self.old) }
        ensures steps { Steps (stage self.old plan.old out.old) result (stage self.new plan.new out.new) }
        ensures costs { Costs (stage self.old plan.old out.old) result (stage self.new plan.new out.new) }
    {
        match self.next_step(read, plan) {
            Ok(step) => {
                let issue = self.issue_turn();
                self.perform(&step, false, issue, plan, out)
            }
            Err(end) => self.answer_end(end, plan, out),
        }
    }

    /// An instruction that is planned faults by its result.
    // Few do, and this is no part of the code that calls it.
    #[inline(never)]
    fn step_faulting(
        &mut self,
        number: (u8, u16),
        issue: u64,
        plan: &mut Schedule,
        out: &mut Vec<Line>,
    ) -> Turn
        requires running { self.old.ended ≡ None }
        requires come { HasCome (contents_of self.old) plan.old }
        requires ahead { IsAhead (outlook self.old) plan.old issue
            (Faulted (Some (inst_in self.old.decodes)) (fault_at (state_of self.old.pipeline.processor) number)) }
        ensures steps { Steps (stage self.old plan.old out.old) result (stage self.new plan.new out.new) }
        ensures costs { Costs (stage self.old plan.old out.old) result (stage self.new plan.new out.new) }
    {
        let step = self.faults_by(number);
        self.perform(&step, false, issue, plan, out)
    }

    /// An instruction that is planned runs. Nothing is asked for that it does not have where `light` is set.
    // Each caller passes a literal, and has its own code for it.
    #[inline(always)]
    fn step_running(
        &mut self,
        light: bool,
        issue: u64,
        plan: &mut Schedule,
        out: &mut Vec<Line>,
    ) -> Turn
        requires light { light ≡ true → PlansLight self.old }
        requires running { self.old.ended ≡ None }
        requires come { HasCome (contents_of self.old) plan.old }
        requires runs { RunsAhead (outlook self.old) plan.old issue }
        ensures steps { Steps (stage self.old plan.old out.old) result (stage self.new plan.new out.new) }
        ensures costs { Costs (stage self.old plan.old out.old) result (stage self.new plan.new out.new) }
    {
        let step = self.does(light);
        self.perform(&step, light, issue, plan, out)
    }

    /// An instruction that is planned runs, which may do more than to set registers, or be a barrier.
    // It has code of its own, so that the code for most instructions asks for nothing of that.
    #[inline(never)]
    fn step_storing(&mut self, issue: u64, plan: &mut Schedule, out: &mut Vec<Line>) -> Turn
        requires running { self.old.ended ≡ None }
        requires come { HasCome (contents_of self.old) plan.old }
        requires runs { RunsAhead (outlook self.old) plan.old issue }
        ensures steps { Steps (stage self.old plan.old out.old) result (stage self.new plan.new out.new) }
        ensures costs { Costs (stage self.old plan.old out.old) result (stage self.new plan.new out.new) }
    {
        self.step_running(false, issue, plan, out)
    }

    /// Whether what is planned is no barrier, and sets registers at most.
    #[inline(always)]
    fn is_light(&self) -> bool
        ensures plain { result ≡ true → self.now.effect.plain ≡ true }
        ensures bytes { result ≡ true → length self.now.effect.bytes.items ≡ 0 }
        ensures barrier { result ≡ true → self.now.need.barrier ≡ false }
    {
        self.effect.plain && self.effect.bytes.is_empty() && !self.need.barrier
    }

    /// What comes next is done, whose turn has come.
    #[inline(always)]
    fn come(&mut self, turn: u64, coming: Coming, plan: &mut Schedule, out: &mut Vec<Line>) -> Turn
        requires running { self.old.ended ≡ None }
        requires arrived { HasArrived (contents_of self.old) plan.old coming }
        requires turn { turn ≤ self.old.pipeline.turn }
        requires ready { IsReadyFor (outlook self.old) plan.old turn coming }
        ensures came { Came coming (stage self.old plan.old out.old) result (stage self.new plan.new out.new) }
        ensures costs { Costs (stage self.old plan.old out.old) result (stage self.new plan.new out.new) }
    {
        match coming {
            Coming::Waiting { read } => self.step_drained(read, plan, out),
            Coming::Overtaking(address) => {
                self.answer_end(Ending::Alone(End::Imprecise(address)), plan, out)
            }
            Coming::Running if self.is_light() => self.step_running(true, turn, plan, out),
            Coming::Running => self.step_storing(turn, plan, out),
            Coming::Faulting(number) => self.step_faulting(number, turn, plan, out),
        }
    }

    /// One step of the run: an issue, an event, an entry, or a move of the turn. Where the turn of what
    /// comes next has come, the next instruction is done or faults, or its fault is entered, or before it an
    /// interrupt that is chosen is entered or the event of the schedule that stands there is reached, or the
    /// end is answered; and the lines of it are appended to `out`. Where the instruction behind an arithmetic
    /// fault would issue before that is known, the fault is imprecise, and ends the run at this turn. Else
    /// the turn moves by one, and what is due by then lands. The schedule is the one of the run, behind the
    /// events that were reached so far, and goes on where an event is reached. Memory is refused only where
    /// room is lacking in the machine or in `out`, or where new sets are to be made, and never where the turn
    /// moves; then all three are as before, and some room is lacking still. A page of memory is new only for
    /// what comes next. Once an end was answered, each call answers it again and changes nothing.
    pub fn advance(&mut self, plan: &mut Schedule, out: &mut Vec<Line>) -> Turn
        requires stands { self.old.ended ≡ None → IsUnderWay self.old plan.old }
        ensures next { (g : Given) (h : List Item) → StandsFor g h None self.old → Follows g h plan.old
            → Advances g h result (progress self.old plan.old out.old.items)
            (progress self.new plan.new out.new.items) }
        ensures again { (g : Given) (h : List Item) (f : Finish) → StandsFor g h (Some f) self.old
            → AnswersAgain f result self.old self.new out.old.items out.new.items × (plan.new ≡ plan.old) }
        ensures lacking { (g : Given) (h : List Item) → StandsFor g h None self.old → Follows g h plan.old
            → result ≡ Turn.Memory
            → HasRoom self.old.pipeline.processor (vec_capacity out.old - vec_len out.old) (comes_next g h) → ⊥ }
        ensures still_lacking { (g : Given) (h : List Item) → StandsFor g h None self.new → Follows g h plan.new
            → result ≡ Turn.Memory
            → HasRoom self.new.pipeline.processor (vec_capacity out.new - vec_len out.new) (comes_next g h) → ⊥ }
        ensures only { (g : Given) (h : List Item) → StandsFor g h None self.old → Follows g h plan.old
            → AddsNextOnly self.old.pipeline.processor self.new.pipeline.processor (comes_next g h) }
        ensures fewer { LeavesFewer result (steps_left self.old plan.old) (steps_left self.new plan.new) }
    {
        match self.ended {
            Some(e) => Turn::End(e),
            None if self.pipeline.turn < self.wait => {
                self.move_on();
                Turn::On
            }
            None => {
                let (turn, coming) = self.look(plan);
                if self.pipeline.turn < turn {
                    self.wait_until(turn)
                } else {
                    self.come(turn, coming, plan, out)
                }
            }
        }
    }

    /// As `advance`, behind the turns at which nothing comes, which it passes in one go: what comes next is done, or
    /// the end is answered, and never does it answer that the turn moved alone. Memory is refused only where room was
    /// lacking before, or where new sets are to be made.
    // Each caller goes round a loop with it, and has its answer where it is made.
    #[inline(always)]
    pub fn proceed(&mut self, plan: &mut Schedule, out: &mut Vec<Line>) -> Turn
        requires stands { self.old.ended ≡ None → IsUnderWay self.old plan.old }
        ensures next { (g : Given) (h : List Item) → StandsFor g h None self.old → Follows g h plan.old
            → Proceeds g h result (vec_capacity out.old - vec_len out.old)
            (progress self.old plan.old out.old.items) (progress self.new plan.new out.new.items) }
        ensures again { (g : Given) (h : List Item) (f : Finish) → StandsFor g h (Some f) self.old
            → AnswersAgain f result self.old self.new out.old.items out.new.items × (plan.new ≡ plan.old) }
        ensures only { (g : Given) (h : List Item) → StandsFor g h None self.old → Follows g h plan.old
            → AddsNextOnly self.old.pipeline.processor self.new.pipeline.processor (comes_next g h) }
        ensures fewer { LeavesFewer result (steps_left self.old plan.old) (steps_left self.new plan.new) }
    {
        match self.ended {
            Some(e) => Turn::End(e),
            None => match self.proceed_until(None, plan, out) {
                Some(turn) => turn,
                // Something always comes.
                None => Turn::On,
            },
        }
    }

    /// As `proceed`, where something comes below this turn. Where nothing does, there is no answer: the turn becomes
    /// this one, unless it is above it, what is due by then lands, and nothing else changes.
    #[inline(always)]
    pub fn proceed_below(
        &mut self,
        until: u64,
        plan: &mut Schedule,
        out: &mut Vec<Line>,
    ) -> Option<Turn>
        requires stands { self.old.ended ≡ None → IsUnderWay self.old plan.old }
        ensures next { (g : Given) (h : List Item) → StandsFor g h None self.old → Follows g h plan.old
            → ProceedsUntil g h (Some until) result (vec_capacity out.old - vec_len out.old)
            (progress self.old plan.old out.old.items) (progress self.new plan.new out.new.items) }
        ensures again { (g : Given) (h : List Item) (f : Finish) → StandsFor g h (Some f) self.old
            → IsSome result × IfSome result (λ t. AnswersAgain f t self.old self.new out.old.items out.new.items)
            × (plan.new ≡ plan.old) }
        ensures only { (g : Given) (h : List Item) → StandsFor g h None self.old → Follows g h plan.old
            → AddsNextOnly self.old.pipeline.processor self.new.pipeline.processor (comes_next g h) }
        ensures fewer { IfSome result
            (λ t. LeavesFewer t (steps_left self.old plan.old) (steps_left self.new plan.new)) }
    {
        match self.ended {
            Some(e) => Some(Turn::End(e)),
            None => self.proceed_until(Some(until), plan, out),
        }
    }

    /// What comes next is done, at its turn, where no turn is given or it comes below that; else the turn becomes the
    /// one that is given, unless it is above it.
    #[inline(always)]
    fn proceed_until(
        &mut self,
        until: Option<u64>,
        plan: &mut Schedule,
        out: &mut Vec<Line>,
    ) -> Option<Turn>
        requires running { self.old.ended ≡ None }
        requires stands { IsUnderWay self.old plan.old }
        ensures next { (g : Given) (h : List Item) → StandsFor g h None self.old → Follows g h plan.old
            → ProceedsUntil g h until result (vec_capacity out.old - vec_len out.old)
            (progress self.old plan.old out.old.items) (progress self.new plan.new out.new.items) }
        ensures only { (g : Given) (h : List Item) → StandsFor g h None self.old → Follows g h plan.old
            → AddsNextOnly self.old.pipeline.processor self.new.pipeline.processor (comes_next g h) }
        ensures fewer { IfSome result
            (λ t. LeavesFewer t (steps_left self.old plan.old) (steps_left self.new plan.new)) }
    {
        let (turn, coming) = self.look(plan);
        match until {
            Some(until) if until <= turn.max(self.pipeline.turn) => {
                self.pass_to(until);
                None
            }
            _ => {
                self.pass_to(turn);
                Some(self.come(turn, coming, plan, out))
            }
        }
    }
}
