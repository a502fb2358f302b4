//! A machine that stands where another stands.
ghost use Rattle.std.specs.Prelude.{◌≡◌, List, None, IfOk};
ghost use Rattle.i9_model.specs.Given.{Given};
ghost use Rattle.i9_course.specs.Course.{Item};

use super::Machine;
use i9_isa::NoMemory;
use i9_model::Need;
use i9_plan::DecodeCache;
use i9_processor::Effect;
use std::alloc::Global;

impl Machine {
    ghost use Rattle.i9_machine.specs.StandsFor.{StandsFor};
    ghost use Rattle.i9_processor.specs.Pages.{AddsNoPage};

    /// A machine that stands for the same records at the same turn, and goes on by itself. It takes as much memory as
    /// its pages, of which none is new, however long the run was.
    // What was decoded isn't copied, since it changes no answer.
    pub fn copy(&self, alloc: Global) -> Result<Machine, NoMemory>
        ensures stands { (g : Given) (h : List Item) → StandsFor g h None self.now
            → IfOk result (λ m. StandsFor g h None m) }
        ensures turn { IfOk result (λ m. m.pipeline.turn ≡ self.now.pipeline.turn) }
        ensures no_more { IfOk result (λ m. AddsNoPage self.now.pipeline.processor m.pipeline.processor) }
    {
        let pipeline = self.pipeline.copy(alloc)?;
        let decodes = DecodeCache::new(alloc)?;
        Ok(Machine {
            pipeline,
            alloc,
            sets: self.sets,
            length: self.length,
            due: self.due,
            wait: self.wait,
            ended: self.ended,
            decodes,
            effect: Effect::blank(),
            need: Need::default(),
        })
    }
}
