//! Laws of courses, as the contracts of calls that do nothing. Lists have the newest item first.

ghost use Rattle.std.specs.List.{slice_get};
ghost use Rattle.i9_model.specs.declared.event.Event.{Event};
ghost use Rattle.std.specs.Prelude.{◌≡◌, ◌≢◌, ◌<◌, ◌≤◌, ◌↔◌, ◌*◌, ◌∷◌, [], length, max, ℕ, Bool, List, Option, Some};
ghost use Rattle.std.specs.Prelude.{None, IsTrue};
ghost use Rattle.i9_isa.specs.declared.inst.Inst.{Inst};
ghost use Rattle.i9_model.specs.declared.faults.TheConstants.{ARITHMETIC};
ghost use Rattle.i9_model.specs.declared.layout.TheConstants.{FRAME_SIZE};
ghost use Rattle.i9_model.specs.declared.faults.Fault.{Fault};
ghost use Rattle.i9_model.specs.declared.run.End.{End};
ghost use Rattle.i9_model.specs.Memory.{stored};
ghost use Rattle.i9_model.specs.State.{State, boot};
ghost use Rattle.i9_model.specs.Alike.{AreAlike, AreNextAlike, NextsAgree};
ghost use Rattle.i9_model.specs.HeldFrames.{Cache, AreWhole, cache_after};
ghost use Rattle.i9_model.specs.Fences.{fenced};
ghost use Rattle.i9_model.specs.Step.{Move, Returns};
ghost use Rattle.i9_model.specs.Run.{Given, Record, Kind, Faulted, Next, Does, Ends, IsPast, state_after, reached_by};
ghost use Rattle.i9_model.specs.Run.{reached_after, Finish};
ghost use Rattle.i9_model.specs.ScheduleText.{IsByCounts, timed_by_turn};
ghost use Rattle.i9_model.specs.Turns.{IsTimed, TakesTurns, last_issue, end_turn, pending_of};
ghost use Rattle.i9_model.specs.Late.{turns, cell, resource, resources, latest, all_puts, settled_memory};
ghost use Rattle.i9_model.specs.Late.{AreDueInOrder, AreQuiet, Leaves, IsOrderly, IsClear};
ghost use Rattle.i9_course.specs.NeedOf.{need_of, need_ahead, is_barrier_kind, moved_frames, stands_alone};
ghost use Rattle.i9_course.specs.Course.{Item, Step, Fence, records_of, course, needs_of, turns_of, move_writes};
ghost use Rattle.i9_course.specs.Course.{late_after, need_after, issue_of_next, instruction_turn, event_ahead};
ghost use Rattle.i9_course.specs.Course.{last_done, ahead, IsCourse};
ghost use Rattle.i9_course.specs.Kernel.{Kernel, Lands, MovesTo, Issues};

/// With everything landed, memory is that behind the held frames.
pub fn a_course_settles()
    ensures { (g : Given) (h : List Item)
        → settled_memory (boot g.image).memory.bytes (course g h).late ≡ (cache_after g (records_of h)).behind.bytes }
{}

/// With all that is planned and waits, registers are those of the state after the run, and memory is
/// that behind the held frames; and requests wait in the order in which they are due.
pub fn what_waits_settles()
    ensures registers { (g : Given) (h : List Item) (k : Kernel) (r : ℕ) → IsCourse g h → Lands g h k → r < resources
        → latest (k.cells r) ≡ resource (state_after g (records_of h)) r }
    ensures memory { (g : Given) (h : List Item) (k : Kernel) → Lands g h k
        → stored k.bytes (all_puts k.queue) ≡ (cache_after g (records_of h)).behind.bytes }
    ensures order { (g : Given) (h : List Item) (k : Kernel) → Lands g h k → AreDueInOrder k.queue }
{}

/// The records of a course are those of the run that meets the same events after the same instructions; they have the
/// turns of their needs with the fences between them, issue and land in order, and each leaves what its need does not
/// write. Where the plan is by counts, that run has the same plan.
pub fn courses_are_orderly()
    ensures past { (g : Given) (h : List Item) → IsCourse g h
        → IsPast (record g { plan = reached_after (records_of h) }) (records_of h) }
    ensures counted { (g : Given) (h : List Item) → IsByCounts g.plan → IsCourse g h → IsPast g (records_of h) }
    ensures fenced { (g : Given) (h : List Item) → fenced (needs_of g h) ≡ turns_of (course g h) }
    ensures timed { (g : Given) (h : List Item) → IsTimed (turns (course g h).late) }
    ensures costs { (g : Given) (h : List Item) → TakesTurns (turns (course g h).late) }
    ensures quiet { (g : Given) (h : List Item) → AreQuiet (course g h).late }
    ensures leaves { (g : Given) (h : List Item) → IsCourse g h → Leaves (boot g.image) (course g h).late }
    ensures orderly { (g : Given) (h : List Item) → IsOrderly (course g h).late }
{}

/// What lies ahead issues neither before what has issued nor before the last fence; where no fault is
/// imprecise, it is what comes next.
pub fn nothing_issues_earlier()
    ensures issued { (g : Given) (h : List Item) → last_issue (turns (course g h).late) ≤ (ahead g h).turn }
    ensures fence { (g : Given) (h : List Item) → (course g h).fence ≤ (ahead g h).turn }
    ensures precise { (g : Given) (h : List Item) → (ahead g h).imprecise ≡ None
        → (ahead g h).turn ≡ issue_of_next g h (ahead g h).next }
{}

/// What passes nothing issues at the turn at which all records are done: an end, an entry, an event, a
/// refused word, an instruction that faults before anything is done, and each barrier.
pub fn barriers_wait_for_all()
    ensures need { (g : Given) (h : List Item) (o : Next) → IsTrue (need_after g h o).barrier
        → issue_of_next g h o ≡ end_turn (turns (course g h).late) }
    ensures kind { (g : Given) (h : List Item) (r : Record) → IsTrue (is_barrier_kind r.kind)
        → issue_of_next g h (Does r) ≡ end_turn (turns (course g h).late) }
    ensures end { (g : Given) (h : List Item) (f : Finish)
        → issue_of_next g h (Ends f) ≡ end_turn (turns (course g h).late) }
{}

/// Only an arithmetic fault is imprecise, of which the last record is, and that is overtaken within the
/// length; none is behind a fence, nor where bit 15 of AC or trace enable is set.
pub fn overtaken_faults_are_imprecise()
    ensures only { (g : Given) (h : List Item) (a : ℕ) → (ahead g h).imprecise ≡ Some a
        → (r : Record) × (rs : List Record) × (inst : Option Inst) × (f : Fault) × (records_of h ≡ r ∷ rs)
        × (r.kind ≡ Faulted inst f) × (f.kind ≡ ARITHMETIC) × (f.address ≡ a) }
    ensures overtaken { (g : Given) (h : List Item) (a : ℕ) → (ahead g h).imprecise ≡ Some a
        → ((ahead g h).turn < last_done (course g h).late) × ((state_after g (records_of h)).count < g.length) }
    ensures fence { (g : Given) (h : List Item) → (ahead g (Fence ∷ h)).imprecise ≡ None }
    ensures alone { (g : Given) (h : List Item) → IsTrue (stands_alone (state_after g (records_of h)))
        → (ahead g h).imprecise ≡ None }
{}

/// Before anything is done, what lands late stands for no items.
pub fn a_course_begins()
    ensures { (g : Given) (k : Kernel) → k.board ≡ pending_of [] → k.turn ≡ 1 → k.floor ≡ 0 → k.done ≡ 1
        → ((r : ℕ) → k.cells r ≡ cell (resource (boot g.image) r) None) → k.bytes ≡ (boot g.image).memory.bytes
        → k.queue ≡ [] → Lands g [] k }
{}

/// The turn moves, no further than to that of what lies ahead, and what is due lands.
pub fn a_turn_moves()
    ensures { (g : Given) (h : List Item) (t : ℕ) (k j : Kernel) → Lands g h k
        → k.turn ≤ t → t ≤ (ahead g h).turn → MovesTo t k j → j.floor ≡ k.floor → Lands g h j }
{}

/// The record that comes next issues at its turn; there is room then for what it does.
pub fn a_record_issues()
    ensures lands { (g : Given) (h : List Item) (r : Record) (k j : Kernel) → Lands g h k
        → (ahead g h).imprecise ≡ None → (ahead g h).next ≡ Does r → (ahead g h).turn ≤ k.turn
        → Issues (late_after g h r) k j → Lands g (Step r ∷ h) j }
    ensures clear { (g : Given) (h : List Item) (k : Kernel) → Lands g h k
        → (ahead g h).imprecise ≡ None → (ahead g h).turn ≤ k.turn
        → IsClear k.cells k.queue (need_after g h (ahead g h).next) }
{}

/// A fence is set: the turn becomes one at which all records are done, everything lands, and nothing
/// issues below that turn.
pub fn a_fence_is_set()
    ensures { (g : Given) (h : List Item) (k j : Kernel) → Lands g h k
        → MovesTo (max k.turn (end_turn (turns (course g h).late))) k j
        → j.floor ≡ end_turn (turns (course g h).late) → Lands g (Fence ∷ h) j }
{}

/// What is done needs the same in states that are alike, and so does what comes next.
pub fn alike_states_need_alike()
    ensures kind { (n : ℕ) (c : Cache) (s t : State) (k : Kind) → AreAlike s t → need_of n c t k ≡ need_of n c s k }
    ensures next { (asked : Option ℕ) (c : Cache) (o p : Next) → AreNextAlike o p
        → need_ahead asked c p ≡ need_ahead asked c o }
{}

/// A need counts a frame for each 64 bytes that a spill or a flush writes.
pub fn written_frames_are_counted()
    ensures { (n : ℕ) (c : Cache) (v : Move) → 1 ≤ n → AreWhole c.held → v ≢ Returns
        → length (move_writes n c v) ≡ FRAME_SIZE * moved_frames n c v }
{}

/// An event that waits for a turn stands exactly where the instruction at the instruction address would issue at that
/// turn or later, if no event came before it; and it issues at no earlier turn itself.
pub fn events_wait_for_their_turn()
    ensures stands { (g : Given) (h : List Item) (n : ℕ) (e : Event)
        → slice_get g.plan (length (reached_after (records_of h))) ≡ Some (timed_by_turn n e)
        → (event_ahead g h ≡ Some e ↔ n ≤ instruction_turn g h) }
    ensures turn { (g : Given) (h : List Item) (n : ℕ) (e : Event) (r : Record)
        → slice_get g.plan (length (reached_after (records_of h))) ≡ Some (timed_by_turn n e)
        → (ahead g h).imprecise ≡ None → (ahead g h).next ≡ Does r → reached_by r.kind r.before ≢ []
        → n ≤ (ahead g h).turn }
{}

/// What comes next needs the same in states that agree, whatever is read at soft bytes.
pub fn agreeing_states_need_alike()
    ensures { (hides : Bool) (asked : Option ℕ) (c : Cache) (o p : Next) → NextsAgree hides o p
        → need_ahead asked c p ≡ need_ahead asked c o }
{}
