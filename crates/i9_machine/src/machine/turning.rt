//! A whole turn of the machine, and what it leaves.
ghost use Rattle.std.specs.Prelude.{◌≡◌, ◌-◌, ◌^◌, ◌<◌, List, Option, None, Some, vec_len, vec_capacity};
ghost use Rattle.i9_model.specs.Given.{Given};
ghost use Rattle.i9_model.specs.declared.run.End.{End};
ghost use Rattle.i9_model.specs.State.{boot};
ghost use Rattle.i9_model.specs.Run.{state_after, Finish};
ghost use Rattle.i9_course.specs.Course.{Item, records_of, course, comes_next};
ghost use Rattle.i9_schedule.specs.Plan.{Plan};
ghost use Rattle.i9_pipeline.specs.Raw.{raw_memory};
ghost use Rattle.i9_machine.specs.Raw.{raw_at, IsFlushed};

use super::Machine;
use crate::line::{Line, Raw, Turn};
use i9_schedule::Schedule;

impl Machine {
    ghost use Rattle.i9_machine.specs.StandsFor.{StandsFor, Follows, AnswersAgain, IsUnderWay};
    ghost use Rattle.i9_machine.specs.Step.{HasRoom};
    ghost use Rattle.i9_machine.specs.Progress.{progress};
    ghost use Rattle.i9_machine.specs.Turned.{Turns};

    /// One turn: steps until the turn has risen by one, which is then answered as `On`, or until the end or want
    /// of memory; an instruction is never answered. All that issues at the turn is done, and its lines are
    /// appended to `out`. Where memory is refused the steps before are done, the machine stands between two of
    /// them, and room for what comes next is lacking. A page of memory is new only for what was done, or for
    /// what comes next. The schedule is the one of the run, as `advance` has it. Once an end was answered, each call
    /// answers it again and changes nothing.
    pub fn turn(&mut self, plan: &mut Schedule, out: &mut Vec<Line>) -> Turn
        requires stands { self.old.ended ≡ None → IsUnderWay self.old plan.old }
        ensures next { (g : Given) (h : List Item) → StandsFor g h None self.old → Follows g h plan.old
            → Turns g h result (progress self.old plan.old out.old.items) (progress self.new plan.new out.new.items) }
        ensures again { (g : Given) (h : List Item) (f : Finish) → StandsFor g h (Some f) self.old
            → AnswersAgain f result self.old self.new out.old.items out.new.items × (plan.new ≡ plan.old) }
        ensures lacking { (g : Given) (h : List Item) → StandsFor g h None self.new → Follows g h plan.new
            → result ≡ Turn.Memory
            → HasRoom self.new.pipeline.processor (vec_capacity out.new - vec_len out.new) (comes_next g h) → ⊥ }
    {
        match self.ended {
            Some(e) => Turn::End(e),
            None => self.turn_on(plan, out),
        }
    }

    /// One turn of a machine that has answered no end.
    fn turn_on(&mut self, plan: &mut Schedule, out: &mut Vec<Line>) -> Turn
        requires stands { IsUnderWay self.old plan.old }
        ensures next { (g : Given) (h : List Item) → StandsFor g h None self.old → Follows g h plan.old
            → Turns g h result (progress self.old plan.old out.old.items) (progress self.new plan.new out.new.items) }
        ensures lacking { (g : Given) (h : List Item) → StandsFor g h None self.new → Follows g h plan.new
            → result ≡ Turn.Memory
            → HasRoom self.new.pipeline.processor (vec_capacity out.new - vec_len out.new) (comes_next g h) → ⊥ }
    {
        let begun = self.pipeline.turn;
        'steps: loop {
            match self.advance(plan, out) {
                Turn::On => {
                    if self.pipeline.turn != begun {
                        return Turn::On;
                    }
                }
                Turn::Issued(_) => {}
                Turn::End(e) => return Turn::End(e),
                Turn::Memory => return Turn::Memory,
            }
        }
    }

    /// The turn at which the machine stands.
    pub fn at_turn(&self) -> u64
        ensures value { result ≡ self.now.pipeline.turn }
        ensures small { (plan : Plan) → IsUnderWay self.now plan → result < 2 ^ 62 }
    {
        self.pipeline.turn
    }

    /// The registers as they stand at the machine's turn, and which of them are busy.
    pub fn raw(&self) -> Raw
        ensures { (g : Given) (h : List Item) (end : Option Finish) → StandsFor g h end self.now
            → result ≡ raw_at g h self.now.pipeline.turn }
    {
        Raw {
            turn: self.pipeline.turn,
            regs: self.pipeline.processor.raw_registers(self.pipeline.turn),
            busy: self.pipeline.processor.busy_registers(self.pipeline.turn),
        }
    }

    /// The byte at `a` of raw memory: the image's, with what the records brought there that are done by the
    /// machine's turn, in order. A frame that is saved brings nothing there until it is spilled or flushed; where
    /// nothing is open and no frame is live, it is the state's memory, but for soft bytes.
    pub fn raw_byte(&self, a: u32) -> u8
        ensures raw { (g : Given) (h : List Item) (end : Option Finish) → StandsFor g h end self.now
            → result ≡ raw_memory (boot g.image).memory.bytes self.now.pipeline.turn (course g h).late a }
        ensures flushed { (g : Given) (h : List Item) (end : Option Finish) → StandsFor g h end self.now
            → IsFlushed g h self.now.pipeline.turn a
            → result ≡ (state_after g (records_of h)).memory.bytes a }
    {
        self.pipeline.raw_byte(a)
    }
}
