//! What events from outside will do.
ghost use Rattle.i9_model.specs.Events.{IsInRange};
ghost use Rattle.i9_processor.specs.Effect.{CanPost, IsEffect, posting_in};
ghost use Rattle.i9_processor.specs.State.{state_of, IsDrained};
ghost use Rattle.i9_model.specs.Before.{posting, receiving};
ghost use Rattle.i9_plan.specs.Planned.{PlansEvent};

use crate::dma::plan_unit;
use i9_model::Event;
use i9_processor::{Effect, Posting, Processor};

/// Something is posted, or nothing.
fn posting(p: &Processor, what: Posting) -> Effect
    requires { CanPost what }
    ensures { IsEffect (state_of p.now)
        (receiving (posting (state_of p.now) (posting_in what (state_of p.now).interrupts)) (state_of p.now)) result }
{
    let mut effect = Effect::going(p, p.ip());
    effect.posting = what;
    effect.plain = false;
    effect
}

/// What an event does that is reached: it posts its interrupt, changes the level of its pin, moves a
/// unit of a DMA channel, or does nothing; or the hazard that it meets, which is one of such a unit.
/// The events are this project's own.
#[tactic(auto, unfolding(i9_model::specs::Before::received_in))]
pub fn plan_event(p: &Processor, event: &Event) -> Result<Effect, u32>
    requires drained { IsDrained p.now }
    requires range { IsInRange event.now }
    ensures { PlansEvent (state_of p.now) event.now result }
{
    match event {
        Event::Pin(x) => Ok(posting(p, Posting::Pin(*x))),
        Event::Low(x) => Ok(posting(p, Posting::Level(*x, true))),
        Event::High(x) => Ok(posting(p, Posting::Level(*x, false))),
        Event::Nmi => Ok(posting(p, Posting::Nmi)),
        Event::Dma(c) => plan_unit(p, *c, None),
        Event::Feed(c, bytes) => plan_unit(p, *c, Some(bytes.as_slice())),
        Event::Show(_, _) => Ok(posting(p, Posting::Keeps)),
    }
}
