//! What is hidden along a run, and what shows of memory, as the contracts of calls that do nothing.
ghost use Rattle.std.specs.Prelude.{◌≡◌, ◌≤◌, ◌∷◌, [], ℕ, List, true, false};
ghost use Rattle.i9_model.specs.Late.{Late, turns, acted_memory, settled_memory};
ghost use Rattle.i9_model.specs.declared.need.Need.{Need};
ghost use Rattle.i9_model.specs.Alike.{is_hard};
ghost use Rattle.i9_model.specs.Run.{Given, Record, state_after};
ghost use Rattle.i9_model.specs.State.{boot};
ghost use Rattle.i9_model.specs.Turns.{last_issue, end_turn};
ghost use Rattle.i9_course.specs.Course.{Item, Step, Fence, records_of, course, IsCourse};
ghost use Rattle.i9_shade.specs.Shade.{Kept};
ghost use Rattle.i9_pipeline.specs.declared.pipeline.Pipeline.{Pipeline};
ghost use Rattle.i9_pipeline.specs.Flow.{Flow, flow_of, moved_to, settled_to, IsEndTurn, IsQuiet};
ghost use Rattle.i9_pipeline.specs.InRun.{IsFlowOf, IssuesNext};
ghost use Rattle.i9_pipeline.specs.Raw.{raw_memory, Hides, standing, shades, IsShaded};

/// Before anything is done nothing is hidden.
pub fn nothing_is_hidden()
    ensures { (first : ℕ → ℕ) (k : Kept) → k.due ≡ 0 → IsShaded first [] k }
{}

/// A barrier that is no request hides what stood under its writes, and any other record leaves what is
/// hidden.
pub fn a_record_hides()
    ensures hides { (first : ℕ → ℕ) (x : Late) (xs : List Late) (k : Kept)
        → shades x ≡ true → Hides (settled_memory first xs) x.puts k.pieces → k.due ≡ x.timed.done
        → IsShaded first (x ∷ xs) k }
    ensures leaves { (first : ℕ → ℕ) (x : Late) (xs : List Late) (k : Kept)
        → shades x ≡ false → IsShaded first xs k → IsShaded first (x ∷ xs) k }
{}

/// With what is hidden laid over the memory in which all has acted but what waits, raw memory shows.
pub fn memory_shows()
    ensures { (g : Given) (h : List Item) (t : ℕ) (k : Kept) (a : ℕ) → last_issue (turns (course g h).late) ≤ t
        → IsShaded (boot g.image).memory.bytes (course g h).late k
        → standing k t (acted_memory (boot g.image).memory.bytes t (course g h).late) a
        ≡ raw_memory (boot g.image).memory.bytes t (course g h).late a }
{}

/// Where all records are done and no frame is live, raw memory is the state's at each byte that is not soft: what
/// was saved has gone to memory by then, or is not there to be returned to.
pub fn flushed_memory_is_raw()
    ensures { (g : Given) (h : List Item) (t a : ℕ) → IsCourse g h → end_turn (turns (course g h).late) ≤ t
        → (state_after g (records_of h)).frames.live ≡ [] → is_hard (state_after g (records_of h)).frames a ≡ true
        → raw_memory (boot g.image).memory.bytes t (course g h).late a ≡ (state_after g (records_of h)).memory.bytes a }
{}

/// A pipeline keeps to its run: as the turn moves, as a fence is set once all is done, and as what comes next issues;
/// and it is quiet at the turn at which all is done.
pub fn a_pipeline_keeps_to_its_run()
    ensures moves { (g : Given) (h : List Item) (t : ℕ) (f : Flow) → f.turn ≤ t → IsFlowOf g h f
        → IsFlowOf g h (moved_to t f) }
    ensures fenced { (g : Given) (h : List Item) (f : Flow) (until : ℕ) → IsEndTurn f.board until → IsFlowOf g h f
        → IsFlowOf g (Fence ∷ h) (settled_to until until f) }
    ensures issues { (g : Given) (h : List Item) (r q : Record) (need : Need) (old new : Pipeline)
        → IsFlowOf g h (flow_of old) → IssuesNext g h r q need old new → IsFlowOf g (Step r ∷ h) (flow_of new) }
    ensures quiet { (g : Given) (h : List Item) (f : Flow) → IsFlowOf g h f
        → end_turn (turns (course g h).late) ≤ f.turn → IsQuiet f }
{}
