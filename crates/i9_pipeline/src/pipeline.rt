//! A processor with its scoreboard and its clock.
ghost use Rattle.std.specs.Prelude.{◌≡◌, ◌+◌, ◌≤◌, ℕ, true, false, IfOk, if◌then◌else◌};
ghost use Rattle.i9_model.specs.Alike.{AreAlike};
ghost use Rattle.i9_model.specs.HeldFrames.{AreWhole};
ghost use Rattle.i9_model.specs.Turns.{HasCost, IssuesAt, waiting_until};
ghost use Rattle.i9_model.specs.declared.need.Need.{Need};
ghost use Rattle.i9_issue.specs.Room.{IsEarly};
ghost use Rattle.i9_regs.specs.Covered.{IsCovered};
ghost use Rattle.i9_course.specs.Course.{puts_of};
ghost use Rattle.i9_pipeline.specs.Issuing.{Hidden};
ghost use Rattle.i9_processor.specs.Effect.{action_in, move_in, CanTake, HasSpaceFor, IsLight, KeepsRoom, size_with};
ghost use Rattle.i9_processor.specs.Effect.{cache_through};
ghost use Rattle.i9_processor.specs.Pages.{AddsNoPage};
ghost use Rattle.i9_processor.specs.State.{state_of, cache_of, size_of, bytes_of};

use crate::shading::hide;
use i9_frames::Sets;
use i9_isa::NoMemory;
use i9_issue::Board;
use i9_model::Need;
use i9_processor::{Effect, Landing, Processor};
use i9_shade::Shade;
use std::alloc::Global;

/// A processor whose results land late: the scoreboard of the records that are open, the clock, and what
/// stood in memory under an open barrier's writes. Each part but the last is read where it stands.
#[derive(Drop)]
pub struct Pipeline {
    /// Registers, controls and memory, with what is planned and what waits.
    pub processor: Processor,
    /// When records issue.
    pub board: Board,
    /// The turn.
    pub turn: u64,
    /// That of the last fence, below which nothing issues.
    pub floor: u64,
    /// That at which the last record is done.
    pub done: u64,
    shade: Shade,
}

/// As `hide`. Nothing is asked where `light` is set, since a light step is no barrier.
#[inline(always)]
fn hide_under(p: &Processor, e: &Effect, need: &Need, light: bool, done: u64, shade: &mut Shade)
    requires light { light ≡ true → need.now.barrier ≡ false }
    requires whole { AreWhole (cache_of p.now).held }
    ensures { Hidden (bytes_of p.now) (puts_of (size_of p.now) (cache_of p.now) (action_in (state_of p.now) e.now))
        shade.old need.now done shade.new }
{
    if light {
        return;
    }
    hide(p, e, need, done, shade);
}

impl Pipeline {
    ghost use Rattle.i9_pipeline.specs.Flow.{flow_of, moved_to, IsFresh, IsSettled};
    ghost use Rattle.i9_pipeline.specs.Issuing.{most_turns, keeping, IsIssued, CanActPlaced, IsReady, state_behind};
    ghost use Rattle.i9_pipeline.specs.Raw.{standing};

    /// Nothing was issued yet: the turn is 1.
    pub fn new(processor: Processor) -> Pipeline
        ensures { IsFresh processor result }
    {
        Pipeline {
            processor,
            board: Board::new(),
            turn: 1,
            floor: 0,
            done: 1,
            shade: Shade::new(),
        }
    }

    /// One that stands where this does, and goes on by itself. It takes as much memory as its pages, of which
    /// none is new.
    pub fn copy(&self, alloc: Global) -> Result<Pipeline, NoMemory>
        ensures same { IfOk result (λ p. flow_of p ≡ flow_of self.now) }
        ensures no_more { IfOk result (λ p. AddsNoPage self.now.processor p.processor) }
    {
        let processor = self.processor.copy(alloc)?;
        let board = self.board.copy();
        let shade = self.shade.copy();
        Ok(Pipeline {
            processor,
            board,
            turn: self.turn,
            floor: self.floor,
            done: self.done,
            shade,
        })
    }

    /// The turn becomes this one, and what is due lands.
    #[inline(always)]
    pub fn move_to(&mut self, turn: u64)
        ensures moved { flow_of self.new ≡ moved_to turn (flow_of self.old) }
        ensures room { KeepsRoom self.old.processor self.new.processor }
        ensures no_more { AddsNoPage self.old.processor self.new.processor }
    {
        self.turn = turn;
        self.processor.land(turn);
    }

    /// The turn of the last fence, once one is set at this turn where `fenced` says so.
    fn fence_at(&self, turn: u64, fenced: bool) -> u64
        ensures { result ≡ (if fenced then turn else self.now.floor) }
    {
        if fenced { turn } else { self.floor }
    }

    /// Lands all that is open: the turn becomes one at which all records are done. A fence is set there where `fenced`
    /// says so.
    pub fn settle(&mut self, fenced: bool)
        ensures settled { IsSettled fenced (flow_of self.old) (flow_of self.new) }
        ensures room { KeepsRoom self.old.processor self.new.processor }
        ensures no_more { AddsNoPage self.old.processor self.new.processor }
    {
        let until = self.board.all_done();
        let floor = self.fence_at(until, fenced);
        self.move_to(self.turn.max(until));
        self.floor = floor;
    }

    /// A record issues at this turn: its need is placed, what it brings to memory at once is hidden where it is a
    /// barrier, and its effect is applied, whose results land when it is done. It needs no memory. Nothing is asked for
    /// that a light effect does not have where `light` is set.
    #[inline(always)]
    pub fn issue(
        &mut self,
        need: &Need,
        turn: u64,
        effect: &Effect,
        light: bool,
        counts: u64,
        sets: Option<Sets>,
    )
        requires light { light ≡ true → IsLight effect.now }
        requires no_barrier { light ≡ true → need.now.barrier ≡ false }
        requires cost { HasCost need.now }
        requires turns { need.now.cost ≤ most_turns }
        requires early { IsEarly self.old.board need.now }
        requires issue { IssuesAt self.old.board.last self.old.board.records need.now turn }
        requires ready { IsReady (state_of self.old.processor) effect.now counts }
        requires space { HasSpaceFor self.old.processor effect.now }
        requires made { CanTake (move_in (state_of self.old.processor) effect.now.frames) sets }
        requires covered { IsCovered need.now.writes (state_of self.old.processor)
            (action_in (state_of self.old.processor) effect.now) }
        requires acts { CanActPlaced self.old need.now effect.now }
        requires whole { AreWhole (cache_of self.old.processor).held }
        ensures state { AreAlike (state_behind (state_of self.old.processor) effect.now counts)
            (state_of self.new.processor) }
        ensures cache { cache_of self.new.processor ≡ cache_through self.old.processor
            (action_in (state_of self.old.processor) effect.now) self.new.processor }
        ensures size { size_of self.new.processor ≡ size_with sets (size_of self.old.processor) }
        ensures count { (state_of self.new.processor).count ≡ (state_of self.old.processor).count + counts }
        ensures keeps { flow_of self.new ≡ keeping (flow_of self.old) self.new.done (flow_of self.new) }
        ensures issued { (n : Need) → need.now ≡ waiting_until self.old.floor n
            → IsIssued (flow_of self.old) n (action_in (state_of self.old.processor) effect.now) (flow_of self.new) }
        ensures no_more { AddsNoPage self.old.processor self.new.processor }
    {
        let placed = self.board.place_at(need, turn);
        self.done = placed.done;
        let landing = Landing {
            writes: need.writes,
            done: placed.done,
            request: need.request,
        };
        hide_under(
            &self.processor,
            effect,
            need,
            light,
            placed.done,
            &mut self.shade,
        );
        self.processor.apply(effect, light, &landing, counts, sets);
    }

    /// The byte at `a` of raw memory: what stood there under the writes of an open barrier, or else what memory has,
    /// whatever waits.
    pub fn raw_byte(&self, a: u32) -> u8
        ensures { result ≡ standing self.now.shade self.now.turn (bytes_of self.now.processor) a }
    {
        match self.shade.look(a, self.turn) {
            Some(byte) => byte,
            None => self.processor.acted_byte(a),
        }
    }
}
