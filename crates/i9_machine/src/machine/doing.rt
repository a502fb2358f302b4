//! A step done, or an end answered, once there is room for what it needs.
ghost use Rattle.std.specs.Prelude.{◌≡◌, [], ◌∷◌, ◌+◌, ◌-◌, ◌<◌, ◌≤◌, ◌^◌, ◌++◌, None, Some, IfSome, IfOk, OnOk, OnErr};
ghost use Rattle.std.specs.Prelude.{vec_len, vec_capacity, length, nat_lt, true, false, ℕ};
ghost use Rattle.std.specs.Option.{option_copied};
ghost use Rattle.i9_model.specs.Alike.{AreAlike};
ghost use Rattle.i9_model.specs.HeldFrames.{AreWhole};
ghost use Rattle.i9_model.specs.declared.view.View.{View as Shown};
ghost use Rattle.i9_model.specs.PrintedText.{Drained, view_of, out_lines, point_lines, last_lines, overlays};
ghost use Rattle.i9_model.specs.PrintedText.{journal_lines};
ghost use Rattle.i9_course.specs.PipelinedRun.{is_imprecise};
ghost use Rattle.i9_processor.specs.Effect.{move_in, control_in, AreMade};
ghost use Rattle.i9_processor.specs.Effect.{CanTake, HasSpaceFor, IsLight, cache_through, size_with};
ghost use Rattle.i9_processor.specs.Effect.{is_restart};
ghost use Rattle.i9_processor.specs.State.{state_of, cache_of, size_of};
ghost use Rattle.i9_processor.specs.Pages.{AddsActionOnly, AddsNoPage};
ghost use Rattle.i9_model.specs.Events.{IsInRange};
ghost use Rattle.i9_model.specs.Turns.{HasCost, IssuesAt, waiting_until};
ghost use Rattle.i9_issue.specs.Room.{IsEarly};
ghost use Rattle.i9_regs.specs.Covered.{IsCovered};
ghost use Rattle.i9_machine.specs.Doing.{point_count, reached_lines, reached_count, plan_behind_event};
ghost use Rattle.i9_machine.specs.Line.{AddsLines};

use super::Machine;
use crate::line::{Line, MOST_SHOWN, Turn, put_line};
use crate::step::{Ending, Step, next_event};
use arrayvec::ArrayVec;
use i9_frames::Sets;
use i9_isa::NoMemory;
use i9_model::{End, Event, Need, Point, View};
use i9_processor::{Control, Effect, Processor};
use i9_schedule::{Schedule, copied};

/// Makes room for so many lines.
#[inline(always)]
fn reserve_lines(lines: usize, out: &mut Vec<Line>) -> Result<(), NoMemory>
    ensures items { out.new.items ≡ out.old.items }
    ensures room { OnOk result (vec_len out.new + lines ≤ vec_capacity out.new) }
    ensures needed { OnErr result (nat_lt 0 lines ≡ true) }
    ensures lacking { OnErr result (vec_capacity out.old < vec_len out.old + lines) }
    ensures spare { OnErr result (vec_capacity out.new - vec_len out.new ≡ vec_capacity out.old - vec_len out.old) }
{
    if lines == 0 {
        return Ok(());
    }
    match out.reserve(lines) {
        Ok(()) => Ok(()),
        Err(_) => Err(NoMemory),
    }
}

/// Whether an end is that of an imprecise fault.
fn is_imprecise(e: End) -> bool
    ensures { result ≡ is_imprecise e }
{
    match e {
        End::Imprecise(_) => true,
        End::Exit(_) | End::Limit | End::Hazard(_) | End::Dead(_, _) => false,
    }
}

/// How many lines an end has, behind that of an event that is reached with it, where one is.
fn end_count(event: Option<&Event>, e: End) -> usize
    ensures { (k : ℕ) (v : Shown) → result ≡ length (journal_lines k (option_copied event.entry) ++ last_lines v e) }
{
    usize::from(event.is_some()) + if is_imprecise(e) { 1 } else { 2 }
}

/// Adds the line of an event that is reached with an end, where one is.
fn put_journal(event: Option<&Event>, count: u64, out: &mut Vec<Line>)
    requires room { vec_len out.old + length (journal_lines count (option_copied event)) ≤ vec_capacity out.old }
    requires ranges { IfSome event (λ e. IsInRange e.now) }
    ensures lines { AddsLines out.old.items out.new.items (journal_lines count (option_copied event.entry)) }
    ensures len { vec_len out.new ≡ vec_len out.old + length (journal_lines count (option_copied event.entry)) }
    ensures capacity { vec_capacity out.old ≤ vec_capacity out.new }
{
    if let Some(event) = event {
        let event = copied(event);
        put_line(out, Line::Event { count, event });
    }
}

/// Adds the line of an end, and its end point, which there is none of before an imprecise fault.
fn put_last(e: End, view: View, out: &mut Vec<Line>)
    requires { vec_len out.old + length (last_lines view e) ≤ vec_capacity out.old }
    ensures { AddsLines out.old.items out.new.items (last_lines view e) }
{
    if !is_imprecise(e) {
        let kind = Point::End;
        put_line(out, Line::Point { kind, view });
    }
    put_line(out, Line::End(e));
}

/// Adds the lines of an end, behind that of an event that is reached with it, where one is.
fn put_end(event: Option<&Event>, e: End, view: View, out: &mut Vec<Line>) -> Result<(), NoMemory>
    requires { IfSome event (λ x. IsInRange x.now) }
    ensures ok { OnOk result
        (AddsLines out.old.items out.new.items
        (journal_lines view.count (option_copied event.entry) ++ last_lines view e)) }
    ensures err { OnErr result (out.new.items ≡ out.old.items) }
    ensures lacking { OnErr result (vec_capacity out.old
        < vec_len out.old + length (journal_lines view.count (option_copied event.entry) ++ last_lines view e)) }
    ensures spare { OnErr result (vec_capacity out.new - vec_len out.new ≡ vec_capacity out.old - vec_len out.old) }
{
    reserve_lines(end_count(event, e), out)?;
    put_journal(event, view.count, out);
    put_last(e, view, out);
    Ok(())
}

/// Adds the line of a byte that goes out at the console.
#[inline(always)]
fn put_out(byte: Option<u8>, out: &mut Vec<Line>)
    requires { vec_len out.old + length (out_lines byte) ≤ vec_capacity out.old }
    ensures lines { AddsLines out.old.items out.new.items (out_lines byte) }
    ensures len { vec_len out.new ≡ vec_len out.old + length (out_lines byte) }
    ensures capacity { vec_capacity out.old ≤ vec_capacity out.new }
{
    if let Some(b) = byte {
        put_line(out, Line::Out(b));
    }
}

/// Adds a drained point.
// Few steps have one, and this is no part of their code.
#[inline(never)]
fn put_view(kind: Point, p: &Processor, out: &mut Vec<Line>)
    requires { vec_len out.old + 1 ≤ vec_capacity out.old }
    ensures { AddsLines out.old.items out.new.items (Drained kind (view_of (state_of p.now)) ∷ []) }
{
    let view = p.view();
    put_line(out, Line::Point { kind, view });
}

/// Adds a drained point, where there is one.
#[inline(always)]
fn put_point(point: Option<Point>, p: &Processor, out: &mut Vec<Line>)
    requires { vec_len out.old + point_count (point) ≤ vec_capacity out.old }
    ensures { AddsLines out.old.items out.new.items (point_lines (point) (state_of p.now)) }
{
    if let Some(kind) = point {
        put_view(kind, p, out);
    }
}

/// The bytes from an address up, as far as they are compared.
#[tactic(auto, using(crate::proofs::Showing::overlay_rules))]
fn shown(p: &Processor, a: u32, n: u8) -> ArrayVec<Option<u8>, MOST_SHOWN>
    requires { n ≤ MOST_SHOWN }
    ensures bytes { result.items ≡ overlays (state_of p.now) a n }
    ensures count { length result.items ≡ n }
{
    let mut list = ArrayVec::new();
    for k in 0..n {
        list.push(p.overlay(a.wrapping_add(u32::from(k))));
    }
    list
}

/// Adds the lines of an event that is reached.
// Most steps reach none, and this is no part of their code.
#[inline(never)]
fn put_reached(event: &Event, p: &Processor, out: &mut Vec<Line>)
    requires room { vec_len out.old + reached_count (Some event.now) ≤ vec_capacity out.old }
    requires ranges { IsInRange event.now }
    ensures lines { AddsLines out.old.items out.new.items (reached_lines (Some event.now) (state_of p.now)) }
    ensures len { vec_len out.new ≡ vec_len out.old + reached_count (Some event.now) }
    ensures capacity { vec_capacity out.old ≤ vec_capacity out.new }
{
    let line = Line::Event {
        count: p.count(),
        event: copied(event),
    };
    put_line(out, line);
    if let Event::Show(address, n) = event {
        let list = shown(p, *address, *n);
        let address = *address;
        put_line(out, Line::Bytes { address, list });
    }
}

/// Adds the lines of an event that is reached, where one is.
#[inline(always)]
fn put_event(event: Option<&Event>, p: &Processor, out: &mut Vec<Line>)
    requires room { vec_len out.old + reached_count (option_copied event) ≤ vec_capacity out.old }
    requires ranges { IfSome event (λ e. IsInRange e.now) }
    ensures lines { AddsLines out.old.items out.new.items (reached_lines (option_copied event.entry) (state_of p.now)) }
    ensures len { vec_len out.new ≡ vec_len out.old + reached_count (option_copied event.entry) }
    ensures capacity { vec_capacity out.old ≤ vec_capacity out.new }
{
    if let Some(event) = event {
        put_reached(event, p, out);
    }
}

/// How many lines an event has that is reached, where one is.
#[inline(always)]
fn reached_count(event: Option<&Event>) -> usize
    ensures { result ≡ reached_count (option_copied event.entry) }
{
    match event {
        None => 0,
        Some(Event::Show(_, _)) => 2,
        Some(_) => 1,
    }
}

impl Step {
    ghost use Rattle.i9_machine.specs.Doing.{line_count};

    /// How many lines it prints: those of an event that it reaches, a byte of the console, and a drained
    /// point.
    #[inline(always)]
    fn line_count(&self, effect: &Effect, light: bool, event: Option<&Event>) -> usize
        requires { light ≡ true → IsLight effect.now }
        ensures { result ≡ line_count effect.now self.now (option_copied event.entry) }
    {
        let console = usize::from(effect.console_byte(light).is_some());
        reached_count(event) + (console + usize::from(self.point.is_some()))
    }
}

/// A schedule goes on behind the event that is reached, where one is.
#[inline(always)]
fn go_on(reaches: bool, plan: &mut Schedule)
    requires { reaches ≡ true → plan.old.place < length plan.old.events }
    ensures { plan.new ≡ plan_behind_event plan.old reaches }
{
    if reaches {
        plan.step();
    }
}

impl Machine {
    ghost use Rattle.i9_machine.specs.Contents.{contents_of};
    ghost use Rattle.i9_machine.specs.Step.{IsPlanned, Steps, Costs, Finishes, finish_in, stage};
    ghost use Rattle.i9_machine.specs.Doing.{lines_of, line_count, asks_room, HasRoomForStep, action_for};
    ghost use Rattle.i9_machine.specs.Doing.{PlansLight};
    ghost use Rattle.i9_pipeline.specs.Flow.{flow_of};
    ghost use Rattle.i9_pipeline.specs.Issuing.{most_turns, state_behind, IsIssued, IsReady, CanActPlaced};
    ghost use Rattle.i9_machine.specs.StandsFor.{HasCome};

    /// Answers an end, once its lines are written; the schedule goes on behind an event that is reached with it.
    pub(super) fn answer_end(&mut self, f: Ending, plan: &mut Schedule, out: &mut Vec<Line>) -> Turn
        requires running { self.old.ended ≡ None }
        ensures finishes { Finishes (stage self.old plan.old out.old) (finish_in plan.old f) result
            (stage self.new plan.new out.new) }
        ensures processor { self.new.pipeline.processor ≡ self.old.pipeline.processor }
    {
        let event = next_event(plan, f.reaches());
        let reaches = event.is_some();
        let end = f.end();
        match put_end(event, end, self.pipeline.processor.view(), out) {
            Ok(()) => {
                self.ended = Some(end);
                go_on(reaches, plan);
                Turn::End(end)
            }
            Err(_) => Turn::Memory,
        }
    }

    /// New sets where the processor starts anew: as many as were asked for, or as the PRCB asks for.
    #[inline(always)]
    fn make_sets(&self, light: bool) -> Result<Option<Sets>, NoMemory>
        requires { light ≡ true → PlansLight self.now }
        ensures made { IfOk result
            (AreMade self.now.sets (state_of self.now.pipeline.processor).memory self.now.effect.control) }
        ensures needed { OnErr result (is_restart (control_in self.now.effect.control) ≡ true) }
    {
        if self.effect.is_plain(light) {
            return Ok(None);
        }
        match self.effect.control {
            Control::Restarts { first: _, prcb } => {
                let n = match self.sets {
                    Some(n) => n,
                    None => self.pipeline.processor.sets_at(prcb),
                };
                Ok(Some(Sets::new(self.alloc, n)?))
            }
            _ => Ok(None),
        }
    }

    /// Makes room for what a step stores, saves and prints, and the new sets that it asks for.
    #[inline(always)]
    fn make_room(
        &mut self,
        step: &Step,
        light: bool,
        event: Option<&Event>,
        out: &mut Vec<Line>,
    ) -> Result<Option<Sets>, NoMemory>
        requires light { light ≡ true → PlansLight self.old }
        ensures same { contents_of self.new ≡ contents_of self.old }
        ensures effect { self.new.effect ≡ self.old.effect }
        ensures need { self.new.need ≡ self.old.need }
        ensures items { out.new.items ≡ out.old.items }
        ensures space { OnOk result (HasSpaceFor self.new.pipeline.processor self.new.effect) }
        ensures lines { OnOk result
            (vec_len out.new + line_count self.new.effect step.now (option_copied event.entry) ≤ vec_capacity out.new) }
        ensures made { IfOk result
            (AreMade self.old.sets (state_of self.old.pipeline.processor).memory self.new.effect.control) }
        ensures needed { OnErr result
            (asks_room (state_of self.old.pipeline.processor) self.old.effect step.now (option_copied event.entry)
            ≡ true) }
        ensures lacking { OnErr result
            (HasRoomForStep self.old.pipeline.processor (vec_capacity out.old - vec_len out.old) self.old.effect
            step.now (option_copied event.entry) → ⊥) }
        ensures still_lacking { OnErr result
            (HasRoomForStep self.new.pipeline.processor (vec_capacity out.new - vec_len out.new) self.new.effect
            step.now (option_copied event.entry) → ⊥) }
        ensures only { AddsActionOnly self.old.pipeline.processor self.new.pipeline.processor
            (action_for self.old self.old.effect) }
    {
        let sets = self.make_sets(light)?;
        self.pipeline.processor.reserve(&self.effect, light)?;
        reserve_lines(step.line_count(&self.effect, light, event), out)?;
        Ok(sets)
    }

    /// Places what a step needs, and does what is planned, whose results land when it is done; prints its
    /// lines, and keeps what is due afterwards.
    #[inline(always)]
    fn act(
        &mut self,
        step: &Step,
        light: bool,
        issue: u64,
        event: Option<&Event>,
        sets: Option<Sets>,
        out: &mut Vec<Line>,
    ) -> Turn
        requires light { light ≡ true → PlansLight self.old }
        requires cost { HasCost self.old.need }
        requires turns { self.old.need.cost ≤ most_turns }
        requires early { IsEarly self.old.pipeline.board self.old.need }
        requires issue { IssuesAt self.old.pipeline.board.last self.old.pipeline.board.records self.old.need issue }
        requires ready { IsReady (state_of self.old.pipeline.processor) self.old.effect step.now.counts }
        requires below { (state_of self.old.pipeline.processor).count + step.now.counts ≤ self.old.length }
        requires space { HasSpaceFor self.old.pipeline.processor self.old.effect }
        requires made { CanTake (move_in (state_of self.old.pipeline.processor) self.old.effect.frames) sets }
        requires covered { IsCovered self.old.need.writes (state_of self.old.pipeline.processor)
            (action_for self.old self.old.effect) }
        requires acts { CanActPlaced self.old.pipeline self.old.need self.old.effect }
        requires lines { vec_len out.old + line_count self.old.effect step.now
            (option_copied event) ≤ vec_capacity out.old }
        requires ranges { IfSome event (λ e. IsInRange e.now) }
        requires whole { AreWhole (cache_of self.old.pipeline.processor).held }
        ensures state { AreAlike
            (state_behind (state_of self.old.pipeline.processor) self.old.effect step.now.counts)
            (state_of self.new.pipeline.processor) }
        ensures cache { cache_of self.new.pipeline.processor
            ≡ cache_through self.old.pipeline.processor (action_for self.old self.old.effect)
            self.new.pipeline.processor }
        ensures size { size_of self.new.pipeline.processor ≡ size_with sets (size_of self.old.pipeline.processor) }
        ensures due { self.new.due ≡ step.now.due }
        ensures rest { contents_of self.new
            ≡ record (contents_of self.old) { pipeline = flow_of self.new.pipeline; due = self.new.due } }
        ensures turn { self.new.pipeline.turn ≡ self.old.pipeline.turn }
        ensures answer { result ≡ step.now.answer }
        ensures count { (state_of self.new.pipeline.processor).count
            ≡ (state_of self.old.pipeline.processor).count + step.now.counts }
        ensures issued { (need : Need) → self.old.need ≡ waiting_until self.old.pipeline.floor need
            → IsIssued (flow_of self.old.pipeline) need (action_for self.old self.old.effect)
            (flow_of self.new.pipeline) }
        ensures lines { AddsLines out.old.items out.new.items
            (lines_of self.old.effect step.now (option_copied event.entry) (state_of self.old.pipeline.processor)
            (state_behind (state_of self.old.pipeline.processor) self.old.effect step.now.counts)) }
        ensures no_more { AddsNoPage self.old.pipeline.processor self.new.pipeline.processor }
    {
        put_event(event, &self.pipeline.processor, out);
        self.pipeline
            .issue(&self.need, issue, &self.effect, light, step.counts, sets);
        self.due = step.due;
        put_out(self.effect.console_byte(light), out);
        put_point(step.point, &self.pipeline.processor, out);
        step.answer
    }

    /// Makes room for a step and does it, at the turn at which it issues. Where it reaches an event, the schedule
    /// goes on behind that. Nothing is asked for that a light step does not have where `light` is set.
    // Each caller passes a literal, and has its own code for it.
    #[inline(always)]
    pub(super) fn perform(
        &mut self,
        step: &Step,
        light: bool,
        issue: u64,
        plan: &mut Schedule,
        out: &mut Vec<Line>,
    ) -> Turn
        requires light { light ≡ true → PlansLight self.old }
        requires running { self.old.ended ≡ None }
        requires step { IsPlanned self.old plan.old step.now }
        requires issue { IssuesAt self.old.pipeline.board.last self.old.pipeline.board.records self.old.need issue }
        requires come { HasCome (contents_of self.old) plan.old }
        ensures steps { Steps (stage self.old plan.old out.old) result (stage self.new plan.new out.new) }
        ensures costs { Costs (stage self.old plan.old out.old) result (stage self.new plan.new out.new) }
    {
        let event = next_event(plan, step.reaches);
        match self.make_room(step, light, event, out) {
            Ok(sets) => {
                let answer = self.act(step, light, issue, event, sets, out);
                go_on(step.reaches, plan);
                answer
            }
            Err(_) => Turn::Memory,
        }
    }
}
