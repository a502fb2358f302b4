//! What a machine may rely on that stands for a course, as the contracts of calls that do nothing. Lists
//! have the newest item first.

ghost use Rattle.std.specs.Prelude.{◌≡◌, ◌≤◌, ◌∷◌, ◌⊎◌, [], ℕ, List, None, true, false};
ghost use Rattle.std.specs.List.{AllByRecursion};
ghost use Rattle.i9_isa.specs.declared.inst.Inst.{Inst};
ghost use Rattle.i9_model.specs.declared.need.Need.{Need};
ghost use Rattle.i9_model.specs.declared.need.Placed.{Placed};
ghost use Rattle.i9_model.specs.Memory.{stored};
ghost use Rattle.i9_model.specs.State.{State};
ghost use Rattle.i9_model.specs.HeldFrames.{Cache, cache_after};
ghost use Rattle.i9_model.specs.Controls.{KeepsControls};
ghost use Rattle.i9_model.specs.Step.{Stays};
ghost use Rattle.i9_model.specs.Run.{Given, Record, Kind, Instruction, Does, IsPast, action_by_kind, state_after};
ghost use Rattle.i9_model.specs.Needs.{is_request_name};
ghost use Rattle.i9_model.specs.Turns.{HasCost, Pending, StandsFor, last_issue, issue_turn, end_turn, waiting_until};
ghost use Rattle.i9_model.specs.Turns.{placed_record};
ghost use Rattle.i9_model.specs.Late.{turns};
ghost use Rattle.i9_regs.specs.Covered.{IsCovered};
ghost use Rattle.i9_course.specs.NeedOf.{need_of, record_need};
ghost use Rattle.i9_course.specs.Course.{Item, records_of, course, late_after, need_after, ahead, IsCourse};
ghost use Rattle.i9_course.specs.Kernel.{Kernel, Lands};

/// The writes of a need cover the registers and the condition code that a record changes.
pub fn needs_cover_actions()
    ensures { (n : ℕ) (c : Cache) (s : State) (k : Kind) → IsCovered (need_of n c s k).writes s (action_by_kind k s) }
{}

/// What is neither a request nor a barrier writes no memory, moves no frames and keeps the controls of
/// start-up and of control groups. A request moves no frames and keeps these controls too, and where it
/// writes memory it is a load or a store that is done.
pub fn needs_tell_what_acts()
    ensures still { (n : ℕ) (c : Cache) (s : State) (k : Kind) → (need_of n c s k).request ≡ false
        → (need_of n c s k).barrier ≡ false
        → ((action_by_kind k s).writes ≡ []) × ((action_by_kind k s).move ≡ Stays)
        × ((action_by_kind k s).control ≡ KeepsControls) }
    ensures request { (n : ℕ) (c : Cache) (s : State) (k : Kind) → (need_of n c s k).request ≡ true
        → ((action_by_kind k s).move ≡ Stays) × ((action_by_kind k s).control ≡ KeepsControls) }
    ensures name { (n : ℕ) (c : Cache) (s : State) (k : Kind) → (need_of n c s k).request ≡ true
        → ((i : Inst) × (k ≡ Instruction i) × (is_request_name i.op ≡ true)) ⊎ ((action_by_kind k s).writes ≡ []) }
{}

/// Each need takes a turn at least, and a plain one no more.
pub fn needs_take_turns()
    ensures { (n : ℕ) (c : Cache) (s : State) (k : Kind) → HasCost (need_of n c s k) }
{}

/// What lies ahead issues no later than at the turn at which all records are done.
pub fn nothing_issues_later()
    ensures { (g : Given) (h : List Item) → (ahead g h).turn ≤ end_turn (turns (course g h).late) }
{}

/// Where the check flag is set, what comes next waits for all records.
pub fn a_check_waits_for_all()
    ensures { (g : Given) (h : List Item) → IsCourse g h → (ahead g h).imprecise ≡ None
        → (state_after g (records_of h)).check ≡ true → (ahead g h).turn ≡ end_turn (turns (course g h).late) }
{}

/// Once all records are done, no request waits.
pub fn what_is_done_has_landed()
    ensures { (g : Given) (h : List Item) (k : Kernel) → Lands g h k
        → end_turn (turns (course g h).late) ≤ k.turn → k.queue ≡ [] }
{}

/// A request that issues is done no earlier than those that wait.
pub fn requests_land_in_order()
    ensures { (g : Given) (h : List Item) (r : Record) (k : Kernel) → Lands g h k
        → (late_after g h r).timed.need.request ≡ true
        → AllByRecursion (λ w. w.due ≤ (late_after g h r).timed.done) k.queue }
{}

/// The turn of what comes next is the one that a board gives to its need, and a record has the turns
/// with which a board places its need.
pub fn turns_are_those_of_the_board()
    ensures next { (g : Given) (h : List Item) (n : Need) → (ahead g h).imprecise ≡ None
        → need_after g h (ahead g h).next ≡ n → (ahead g h).turn ≡ issue_turn (last_issue (turns (course g h).late))
        (turns (course g h).late) (waiting_until (course g h).fence n) }
    ensures placed { (g : Given) (h : List Item) (r : Record) (n : Need) (p : Placed) (b : Pending)
        → record_need g.sets (cache_after g (records_of h)) r ≡ n
        → StandsFor b (placed_record (waiting_until (course g h).fence n) p ∷ turns (course g h).late)
        → ((late_after g h r).timed.need ≡ waiting_until (course g h).fence n)
        × ((late_after g h r).timed.done ≡ p.done) }
{}

/// Where nothing waits before a record, memory behind the held frames gets the bytes of the record and
/// no others.
pub fn memory_acts_at_once()
    ensures { (g : Given) (h : List Item) (r : Record) (k j : Kernel) → Lands g h k → k.queue ≡ []
        → j.bytes ≡ (cache_after g (r ∷ records_of h)).behind.bytes
        → j.bytes ≡ stored k.bytes (late_after g h r).puts }
{}
