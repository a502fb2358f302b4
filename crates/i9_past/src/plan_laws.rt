//! Laws of runs that meet the events of a plan, as the contracts of calls that do nothing.

ghost use Rattle.std.specs.Prelude.{◌≡◌, ◌++◌, List, Option};
ghost use Rattle.i9_model.specs.declared.event.Event as events;
ghost use Rattle.i9_model.specs.declared.event.Timed as timed;
ghost use Rattle.i9_model.specs.Run.{Record, Ends, IsPastOfSome, Finish};
ghost use Rattle.i9_model.specs.PlannedRuns.{Stepping, Tally, IsHeedful, IsCounted, next_by, reached_with, IsPastBy};

/// A run that reaches each event of its plan as it comes to stand reaches the first events of the
/// plan, in order, and the next one where that is reached with its end; and it is also the run of
/// these events alone.
pub fn runs_reach_the_front_of_their_plan()
    ensures front { (next : Stepping) (t : Tally) → IsHeedful next t → (plan : List timed.Timed) (rs : List Record)
        → IsPastBy next t plan rs → (rest : List timed.Timed) × (t.reached rs ++ rest ≡ plan) }
    ensures again { (next : Stepping) (t : Tally) → IsHeedful next t
        → (plan : List timed.Timed) (rs : List Record) (f : Finish) → IsPastBy next t plan rs
        → next_by next t plan rs ≡ Ends f
        → IsPastBy next t (reached_with t rs f) rs × (next_by next t (reached_with t rs f) rs ≡ Ends f) }
    ensures whole { (next : Stepping) (t : Tally) → IsHeedful next t
        → (plan : List timed.Timed) (rs : List Record) (f : Finish) → IsPastBy next t plan rs
        → next_by next t plan rs ≡ Ends f → (rest : List timed.Timed) × (reached_with t rs f ++ rest ≡ plan) }
{}

/// Records each of which comes next with some event or with none, whatever let it stand there, are those of the
/// plan of the events that they reached, each at its count; and so is an end that comes next, with the event that it
/// reached, and the records before it.
pub fn events_that_are_reached_are_a_plan()
    ensures past { (next : Stepping) (t : Tally) → IsHeedful next t → (rs : List Record) → IsCounted next t
        → IsPastOfSome next rs → IsPastBy next t (t.reached rs) rs }
    ensures end { (next : Stepping) (t : Tally) → IsHeedful next t
        → (rs : List Record) (f : Finish) (o : Option events.Event) → next o rs ≡ Ends f
        → next_by next t (reached_with t rs f) rs ≡ Ends f }
    ensures before { (next : Stepping) (t : Tally) → IsHeedful next t → (rs : List Record) (f : Finish)
        → IsCounted next t
        → IsPastBy next t (t.reached rs) rs → IsPastBy next t (reached_with t rs f) rs }
{}
