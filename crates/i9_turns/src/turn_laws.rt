//! Laws of turns, as the contracts of calls that do nothing. Lists have the newest record first.

ghost use Rattle.std.specs.Prelude.{◌≡◌, ◌≤◌, ◌-◌, ◌∷◌, ◌++◌, ◌↔◌, ℕ, List, map, IsTrue};
ghost use Rattle.std.specs.List.{AllZip};
ghost use Rattle.i9_model.specs.declared.need.Need.{Need};
ghost use Rattle.i9_model.specs.declared.need.TimedNeed.{TimedNeed};
ghost use Rattle.i9_model.specs.Turns.{IsTimed, TakesTurns, HaveCosts, WaitForNone, Follows, FollowsOpen, Solves};
ghost use Rattle.i9_model.specs.Turns.{IsNoLater, IsAlike, AreAllDone, IsAllDone, pending_of, pending_after, timed};
ghost use Rattle.i9_model.specs.Turns.{later_by, overtakes, last_issue, issue_turn, issues_at};
ghost use Rattle.i9_model.specs.Fences.{Item, Placed, Fence, fenced};

/// Each list of needs has its turns, and no others.
pub fn turns_exist()
    ensures exist { (ns : List Need) → IsTimed (timed ns) }
    ensures needs { (ns : List Need) → map (λ r. r.need) (timed ns) ≡ ns }
    ensures unique { (rs : List TimedNeed) → IsTimed rs → rs ≡ timed (map (λ r. r.need) rs) }
{}

/// The turns solve the rules, and no solution has an earlier turn anywhere.
pub fn turns_are_least()
    ensures solve { (rs : List TimedNeed) → IsTimed rs → Solves rs }
    ensures least { (rs others : List TimedNeed) → IsTimed rs → Solves others
        → map (λ r. r.need) rs ≡ map (λ r. r.need) others → AllZip IsNoLater rs others }
{}

/// A record that is done by the last issue turn decides nothing later: the open ones alone decide
/// the turns of the next record, what is open after it, and when all is done.
pub fn open_records_decide()
    ensures turns { (rs : List TimedNeed) (r : TimedNeed) → IsTimed rs → TakesTurns rs
        → (Follows rs r ↔ FollowsOpen (pending_of rs) r) }
    ensures next { (rs : List TimedNeed) (r : TimedNeed) → IsTimed (r ∷ rs) → TakesTurns (r ∷ rs)
        → pending_of (r ∷ rs) ≡ pending_after (pending_of rs) r }
    ensures done { (rs : List TimedNeed) (t : ℕ) → (AreAllDone rs t ↔ IsAllDone (pending_of rs) t) }
{}

/// What follows a barrier depends on nothing before it: the records have the turns that they would
/// have alone, from the barrier's done turn on.
#[tactic(auto, using(crate::proofs::TurnBetween::between))]
pub fn barriers_forget()
    ensures { (rs : List TimedNeed) (b : TimedNeed) (before : List TimedNeed) → IsTrue b.need.barrier
        → IsTimed (rs ++ b ∷ before) → TakesTurns (rs ++ b ∷ before) → WaitForNone rs
        → rs ≡ later_by (b.done - 1) (timed (map (λ r. r.need) rs)) }
{}

/// Whether the last record issues before the one before it is done depends neither on what barriers
/// cost nor on the turns that they wait for.
pub fn barriers_decide_no_overtaking()
    ensures { (ns ms : List Need) → HaveCosts ns → HaveCosts ms → AllZip IsAlike ns ms
        → overtakes (timed ns) ≡ overtakes (timed ms) }
{}

/// All barriers issue alike, at the least turn at which all before them is done.
#[tactic(auto, using(crate::proofs::Barriers::barriers_alike))]
pub fn barriers_issue_alike()
    ensures { (n m : Need) (rs : List TimedNeed) → IsTimed rs → TakesTurns rs → IsTrue n.barrier → IsTrue m.barrier
        → n.not_before ≡ m.not_before → issue_turn (last_issue rs) rs n ≡ issue_turn (last_issue rs) rs m }
{}

/// At most three records issue in one turn.
pub fn three_issue_in_a_turn()
    ensures { (t : ℕ) (rs : List TimedNeed) → IsTimed rs → issues_at t rs ≤ 3 }
{}

/// Nothing behind a fence issues before all that stands before it is done.
pub fn fences_wait()
    ensures timed { (items : List Item) → IsTimed (fenced items).records }
    ensures done { (items : List Item) → AreAllDone (fenced (Fence ∷ items)).records (fenced (Fence ∷ items)).fence }
    ensures waits { (items : List Item) (n : Need)
        → (fenced (Fence ∷ items)).fence ≤ last_issue (fenced (Placed n ∷ Fence ∷ items)).records }
{}
