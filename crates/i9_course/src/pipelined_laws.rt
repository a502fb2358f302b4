//! Laws of runs whose results land late, as the contracts of calls that do nothing. Lists have the newest
//! record first.

ghost use Rattle.std.specs.Prelude.{◌≡◌, ◌≢◌, ◌<◌, ◌≤◌, ◌∷◌, ◌++◌, ◌⊎◌, ◌↔◌, ℕ, false, List, Option, Some, None};
ghost use Rattle.i9_isa.specs.declared.inst.Inst.{Inst};
ghost use Rattle.i9_model.specs.declared.faults.TheConstants.{ARITHMETIC};
ghost use Rattle.i9_model.specs.declared.faults.Fault.{Fault};
ghost use Rattle.i9_model.specs.declared.event.Timed.{Timed};
ghost use Rattle.i9_model.specs.declared.run.End.{End};
ghost use Rattle.i9_model.specs.declared.run.End.TheVariants.{Limit, Imprecise};
ghost use Rattle.i9_model.specs.ScheduleText.{IsByCounts};
ghost use Rattle.i9_model.specs.State.{State};
ghost use Rattle.i9_model.specs.HeldFrames.{Cache};
ghost use Rattle.i9_model.specs.Run.{Given, Record, Kind, Faulted, IsPast, IsRun, state_after, reached_after, finish};
ghost use Rattle.i9_model.specs.Run.{Finish, reached_in};
ghost use Rattle.i9_model.specs.Turns.{IsAlike};
ghost use Rattle.i9_course.specs.NeedOf.{need_of};
ghost use Rattle.i9_course.specs.Course.{records_of, last_fault, imprecise_at};
ghost use Rattle.i9_course.specs.PipelinedRun.{steps, IsPipelinedPast, end_ahead, finish_after, IsPipelinedRun};
ghost use Rattle.i9_course.specs.PipelinedRun.{is_imprecise, HaveNoLateFault};

/// Every pipelined run ends, whatever was done so far, and none counts more instructions than its length.
pub fn every_pipelined_run_ends()
    ensures ends { (g : Given) (rs : List Record) → IsPipelinedPast g rs
        → (more : List Record) × (f : Finish) × IsPipelinedRun g (more ++ rs) f }
    ensures within { (g : Given) (rs : List Record) → IsPipelinedPast g rs → (state_after g rs).count ≤ g.length }
{}

/// A pipelined run is the only one of what it is given: an imprecise fault ends it, whatever comes next, and
/// nothing is done behind its end.
pub fn one_pipelined_run()
    ensures records { (g : Given) (rs qs : List Record) (e f : Finish) → IsPipelinedRun g rs e → IsPipelinedRun g qs f
        → rs ≡ qs }
    ensures finish { (g : Given) (rs qs : List Record) (e f : Finish) → IsPipelinedRun g rs e → IsPipelinedRun g qs f
        → e ≡ f }
    ensures fault { (g : Given) (rs : List Record) (a : ℕ) → imprecise_at g (steps rs) ≡ Some a
        → finish_after g rs ≡ Some (finish (Imprecise a)) }
    ensures behind { (g : Given) (rs : List Record) (r : Record) (f : Finish) → IsPipelinedRun g rs f
        → ¬ IsPipelinedPast g (r ∷ rs) }
{}

/// What is done late is done by the precise machine that meets the same events after the same instructions, and a late
/// run has the first records of the run of that machine. One that ends otherwise than at an imprecise fault is its run;
/// one that ends at such a fault stops behind the instruction at its address, which raised an arithmetic fault. Where
/// the plan is by counts, that machine has the same plan; and where no instruction raises an arithmetic fault then, all
/// that it does is done late, and its run is the pipelined run.
pub fn pipelined_runs_are_runs()
    ensures records { (rs : List Record) → records_of (steps rs) ≡ rs }
    ensures past { (g : Given) (rs : List Record) → IsPipelinedPast g rs
        → IsPast (record g { plan = reached_after rs }) rs }
    ensures first { (g : Given) (rs qs : List Record) (e : Finish) (f : Finish)
        → IsRun (record g { plan = reached_after qs }) rs e
        → IsPipelinedRun g qs f → (more : List Record) × (more ++ qs ≡ rs) }
    ensures run { (g : Given) (rs : List Record) (e : Finish) → is_imprecise e.end ≡ false → IsPipelinedRun g rs e
        → IsRun (record g { plan = reached_in g rs e }) rs e }
    ensures counted_past { (g : Given) (rs : List Record) → IsByCounts g.plan → IsPipelinedPast g rs → IsPast g rs }
    ensures counted_first { (g : Given) (rs qs : List Record) (e : Finish) (f : Finish) → IsByCounts g.plan
        → IsRun g rs e → IsPipelinedRun g qs f → (more : List Record) × (more ++ qs ≡ rs) }
    ensures counted_run { (g : Given) (rs : List Record) (e : Finish) → IsByCounts g.plan → is_imprecise e.end ≡ false
        → IsPipelinedRun g rs e → IsRun g rs e }
    ensures plain { (g : Given) (rs : List Record) (e : Finish) → IsRun g rs e → is_imprecise e.end ≡ false }
    ensures imprecise { (g : Given) (rs : List Record) (a : ℕ) → IsPipelinedRun g rs (finish (Imprecise a))
        → (r : Record) × (qs : List Record) × (i : Inst) × (f : Fault) × (rs ≡ r ∷ qs)
        × (r.kind ≡ Faulted (Some i) f) × (f.kind ≡ ARITHMETIC) × (r.before.ip ≡ a) }
    ensures same_past { (g : Given) (rs : List Record) → IsByCounts g.plan → HaveNoLateFault rs → IsPast g rs
        → IsPipelinedPast g rs }
    ensures same_run { (g : Given) (rs : List Record) (e : Finish) → IsByCounts g.plan → HaveNoLateFault rs
        → IsRun g rs e
        → IsPipelinedRun g rs e }
{}

/// Sets decide no overtaking. What is done needs the same with any number of sets and any frames that
/// are held, but that a barrier may take other turns; so the same faults are imprecise, and where the plan is by
/// counts, pipelined runs are the same. An event that waits for a turn may come after another instruction.
pub fn lateness_does_not_depend_on_sets()
    ensures needs { (n m : ℕ) (c d : Cache) (s : State) (k : Kind) → IsAlike (need_of n c s k) (need_of m d s k) }
    ensures imprecise { (g : Given) (asked : Option ℕ) (rs : List Record)
        → imprecise_at (record g { sets = asked }) (steps rs) ≡ imprecise_at g (steps rs) }
    ensures past { (g : Given) (asked : Option ℕ) (rs : List Record) → IsByCounts g.plan
        → (IsPipelinedPast (record g { sets = asked }) rs ↔ IsPipelinedPast g rs) }
    ensures run { (g : Given) (asked : Option ℕ) (rs : List Record) (f : Finish) → IsByCounts g.plan
        → (IsPipelinedRun (record g { sets = asked }) rs f ↔ IsPipelinedRun g rs f) }
{}

/// Nor does the plan of events: which fault is imprecise depends on the records, and a pipelined run is also
/// that of the events alone that it reached, each at its count, also where its own plan is by turns.
pub fn lateness_does_not_depend_on_the_plan()
    ensures imprecise { (g : Given) (p : List Timed) (rs : List Record)
        → imprecise_at (record g { plan = p }) (steps rs) ≡ imprecise_at g (steps rs) }
    ensures past { (g : Given) (rs : List Record) → IsPipelinedPast g rs
        → IsPipelinedPast (record g { plan = reached_after rs }) rs }
    ensures run { (g : Given) (rs : List Record) (f : Finish) → IsPipelinedRun g rs f
        → IsPipelinedRun (record g { plan = reached_in g rs f }) rs f }
{}

/// The length of a pipelined run cuts it, and changes nothing below the length. At the length itself an
/// arithmetic fault is precise, which at a greater one may be imprecise. So what is done late at a
/// length, but for the entry of such a fault, is done late at every greater one; and a pipelined run that
/// ends otherwise than by its length has the same records at every greater one, and the same end, but
/// where such a fault, whose entry cannot be made, is imprecise there.
pub fn a_length_cuts_the_pipelined_run()
    ensures imprecise { (g : Given) (more : ℕ) (rs : List Record) → g.length ≤ more
        → (state_after g rs).count < g.length
        → imprecise_at (record g { length = more }) (steps rs) ≡ imprecise_at g (steps rs) }
    ensures below { (g : Given) (more : ℕ) (rs : List Record) → g.length ≤ more
        → (state_after g rs).count < g.length → IsPipelinedPast g rs → IsPipelinedPast (record g { length = more }) rs }
    ensures past { (g : Given) (more : ℕ) (rs : List Record) (r : Record) → g.length ≤ more → IsPipelinedPast g (r ∷ rs)
        → (last_fault rs ≡ None) ⊎ ((state_after g rs).count < g.length)
        → IsPipelinedPast (record g { length = more }) (r ∷ rs) }
    ensures past_where { (g : Given) (more : ℕ) (rs : List Record) (r : Record) → g.length ≤ more
        → IsPipelinedPast g (r ∷ rs) → (IsPipelinedPast (record g { length = more }) (r ∷ rs)
        ↔ imprecise_at (record g { length = more }) (steps rs) ≡ None) }
    ensures fault { (g : Given) (more : ℕ) (rs : List Record) (a : ℕ) → g.length ≤ more
        → IsPipelinedRun g rs (finish (Imprecise a))
        → IsPipelinedRun (record g { length = more }) rs (finish (Imprecise a)) }
    ensures run { (g : Given) (more : ℕ) (rs : List Record) (e : Finish) → g.length ≤ more → e.end ≢ Limit
        → is_imprecise e.end ≡ false → IsPipelinedRun g rs e
        → (last_fault rs ≡ None) ⊎ ((state_after g rs).count < g.length)
        → IsPipelinedRun (record g { length = more }) rs e }
    ensures run_where { (g : Given) (more : ℕ) (rs : List Record) (e : Finish) → g.length ≤ more → e.end ≢ Limit
        → is_imprecise e.end ≡ false → IsPipelinedRun g rs e → (IsPipelinedRun (record g { length = more }) rs e
        ↔ imprecise_at (record g { length = more }) (steps rs) ≡ None) }
    ensures run_otherwise { (g : Given) (more : ℕ) (rs : List Record) (e : Finish) (a : ℕ) → g.length ≤ more
        → e.end ≢ Limit → is_imprecise e.end ≡ false → IsPipelinedRun g rs e
        → imprecise_at (record g { length = more }) (steps rs) ≡ Some a
        → IsPipelinedRun (record g { length = more }) rs (finish (Imprecise a)) }
{}
