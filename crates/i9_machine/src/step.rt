//! What one step is to do, as data.
ghost use Rattle.std.specs.Prelude.{◌≡◌, IfSome};
ghost use Rattle.std.specs.Option.{option_copied};
ghost use Rattle.i9_model.specs.Events.{IsInRange};
ghost use Rattle.i9_machine.specs.Doing.{next_event};

use crate::line::Turn;
use i9_model::{Due, End, Event, Point};
use i9_schedule::Schedule;

/// What a step does beside its effect: whether it reaches the next event of the schedule, the drained
/// point behind it, how many instructions it counts, what is due after it, and what it is answered as.
#[derive(Clone, Copy)]
pub(crate) struct Step {
    pub(crate) reaches: bool,
    pub(crate) point: Option<Point>,
    pub(crate) counts: u64,
    pub(crate) due: Due,
    pub(crate) answer: Turn,
}

/// How a run ends.
#[derive(Clone, Copy)]
pub(crate) enum Ending {
    /// At this end, with which no event is reached.
    Alone(End),
    /// At this hazard of the next event of the schedule, which is reached with the end.
    AtEvent(u32),
}

impl Ending {
    ghost use Rattle.i9_machine.specs.Step.{reaches_event, end_in};

    /// Whether an event is reached with it.
    pub(crate) fn reaches(self) -> bool
        ensures { result ≡ reaches_event self }
    {
        matches!(self, Ending::AtEvent(_))
    }

    /// The end itself.
    pub(crate) fn end(self) -> End
        ensures { result ≡ end_in self }
    {
        match self {
            Ending::Alone(end) => end,
            Ending::AtEvent(hazard) => End::Hazard(hazard),
        }
    }
}

/// The event that is reached, the next one of the schedule, where one is.
pub(crate) fn next_event<'a>(plan: &'a Schedule, reaches: bool) -> Option<&'a Event>
    ensures event { option_copied result ≡ next_event plan.now reaches }
    ensures ranges { IfSome result (λ e. IsInRange e.now) }
{
    if reaches {
        Some(&plan.next()?.event)
    } else {
        None
    }
}

/// What comes next.
#[derive(Clone, Copy)]
pub(crate) enum Coming {
    /// What waits for all that is open. Where `read` is set, that is the instruction in the decode cache, unless an
    /// event stands before it.
    Waiting { read: bool },
    /// The end at the arithmetic fault of the instruction at this address, which the next one overtakes.
    Overtaking(u32),
    /// The instruction that is planned in the machine, which runs.
    Running,
    /// The instruction that is planned in the machine, whose result is an arithmetic fault of this type and
    /// subtype.
    Faulting((u8, u16)),
}
