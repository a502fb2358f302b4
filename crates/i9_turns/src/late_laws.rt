//! Laws of results that land late, as the contracts of calls that do nothing. Lists have the newest
//! record first, and queues the oldest request.

ghost use Rattle.std.specs.Prelude.{◌≡◌, ◌<◌, ◌≤◌, ◌∷◌, ◌++◌, [], ℕ, List, length, true, false};
ghost use Rattle.i9_model.specs.declared.need.Need.{Need};
ghost use Rattle.i9_model.specs.declared.need.Cell.{Cell};
ghost use Rattle.i9_model.specs.Memory.{stored};
ghost use Rattle.i9_model.specs.State.{State};
ghost use Rattle.i9_model.specs.Turns.{IsTimed, TakesTurns, CanIssue, last_issue, open_requests};
ghost use Rattle.i9_model.specs.Late.{Late, Wait, turns, last_state, resource, resources, cell_at, planned, is_busy};
ghost use Rattle.i9_model.specs.Late.{is_plan_open, landed, latest, issued_cell, wait_of, waiting, acted_memory};
ghost use Rattle.i9_model.specs.Late.{settled_memory, due_puts, left_waiting, all_puts, AreDueInOrder, IsOrderly};
ghost use Rattle.i9_model.specs.Late.{IssuedBy, AreQuiet, Leaves, Shows, IsClear};

/// Records that have their turns issue and land in order.
pub fn turns_keep_order()
    ensures issued { (t : ℕ) (xs : List Late) → IsTimed (turns xs) → last_issue (turns xs) ≤ t → IssuedBy t xs }
    ensures orderly { (xs : List Late) → IsTimed (turns xs) → TakesTurns (turns xs) → AreQuiet xs → IsOrderly xs }
{}

/// From a turn to a later one registers, memory and the waiting requests change by what is due, and
/// by nothing else.
pub fn what_is_due_lands()
    ensures registers { (first : State) (t u r : ℕ) (xs : List Late) → t ≤ u → IssuedBy t xs → IsOrderly xs
        → cell_at first u xs r ≡ landed u (cell_at first t xs r) }
    ensures memory { (m : ℕ → ℕ) (t u : ℕ) (xs : List Late) → t ≤ u → IssuedBy t xs → IsOrderly xs
        → acted_memory m u xs ≡ stored (acted_memory m t xs) (due_puts u (waiting t xs)) }
    ensures requests { (t u : ℕ) (xs : List Late) → t ≤ u → waiting u xs ≡ left_waiting u (waiting t xs) }
    ensures busy { (t r : ℕ) (xs : List Late) → is_plan_open t (planned t xs r) ≡ is_busy t xs r }
{}

/// With all that is planned and waits, registers and memory are those after all records; and what
/// lands leaves that as it is.
pub fn landing_settles()
    ensures registers { (first : State) (t r : ℕ) (xs : List Late) → r < resources → IssuedBy t xs → IsOrderly xs
        → Leaves first xs → latest (cell_at first t xs r) ≡ resource (last_state first xs) r }
    ensures memory { (m : ℕ → ℕ) (t : ℕ) (xs : List Late) → IssuedBy t xs → IsOrderly xs
        → stored (acted_memory m t xs) (all_puts (waiting t xs)) ≡ settled_memory m xs }
    ensures cell { (u : ℕ) (c : Cell) → latest (landed u c) ≡ latest c }
    ensures queue { (m : ℕ → ℕ) (u : ℕ) (ws : List Wait) → AreDueInOrder ws
        → stored (stored m (due_puts u ws)) (all_puts (left_waiting u ws)) ≡ stored m (all_puts ws) }
{}

/// Requests wait in the order in which they are due, and as many as are open.
pub fn requests_wait_in_order()
    ensures order { (t : ℕ) (xs : List Late) → IsOrderly xs → AreDueInOrder (waiting t xs) }
    ensures count { (t : ℕ) (xs : List Late) → length (waiting t xs) ≡ open_requests t (turns xs) }
{}

/// Registers, memory and a queue that show what records show at a turn go on doing so: where what is
/// due lands as the turn moves, and where a record issues and a request of it waits, or it acts at
/// once. Before a record may issue there is room for what it does.
pub fn shown_records_stay_shown()
    ensures moves { (first : State) (t u : ℕ) (xs : List Late) (cells new_cells : ℕ → Cell)
        (bytes new_bytes : ℕ → ℕ) (queue new_queue : List Wait)
        → Shows first t xs cells bytes queue → t ≤ u → IssuedBy t xs → IsOrderly xs
        → ((r : ℕ) → r < resources → new_cells r ≡ landed u (cells r))
        → new_bytes ≡ stored bytes (due_puts u queue) → new_queue ≡ left_waiting u queue
        → Shows first u xs new_cells new_bytes new_queue }
    ensures request { (first : State) (t : ℕ) (x : Late) (xs : List Late) (cells new_cells : ℕ → Cell)
        (bytes new_bytes : ℕ → ℕ) (queue new_queue : List Wait)
        → Shows first t xs cells bytes queue → t < x.timed.done → x.timed.need.request ≡ true
        → ((r : ℕ) → r < resources
        → new_cells r ≡ issued_cell x.timed.need.writes x.timed.done r (resource x.after r) (cells r))
        → new_bytes ≡ bytes → new_queue ≡ queue ++ wait_of x ∷ []
        → Shows first t (x ∷ xs) new_cells new_bytes new_queue }
    ensures other { (first : State) (t : ℕ) (x : Late) (xs : List Late) (cells new_cells : ℕ → Cell)
        (bytes new_bytes : ℕ → ℕ) (queue new_queue : List Wait)
        → Shows first t xs cells bytes queue → t < x.timed.done → x.timed.need.request ≡ false
        → ((r : ℕ) → r < resources
        → new_cells r ≡ issued_cell x.timed.need.writes x.timed.done r (resource x.after r) (cells r))
        → new_bytes ≡ stored bytes x.puts → new_queue ≡ queue
        → Shows first t (x ∷ xs) new_cells new_bytes new_queue }
    ensures clear { (first : State) (t : ℕ) (xs : List Late) (cells : ℕ → Cell) (bytes : ℕ → ℕ) (queue : List Wait)
        (n : Need) → Shows first t xs cells bytes queue → CanIssue (last_issue (turns xs)) (turns xs) n t
        → IsClear cells queue n }
{}
