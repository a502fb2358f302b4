//! A law of turns, as the contract of a call that does nothing.

ghost use Rattle.std.specs.Prelude.{◌≤◌, List, length};
ghost use Rattle.std.specs.List.{AllByRecursion};
ghost use Rattle.i9_model.specs.declared.need.TimedNeed.{TimedNeed};
ghost use Rattle.i9_model.specs.Turns.{IsTimed, HasCost, open_at, last_issue};

/// At most seven records are open when one issues, itself among them: three requests, a
/// multiplication or division, and one of each side; or a barrier alone.
pub fn at_most_seven_are_open()
    ensures { (rs : List TimedNeed) → IsTimed rs → AllByRecursion (λ r. HasCost r.need) rs
        → length (open_at (last_issue rs) rs) ≤ 7 }
{}
