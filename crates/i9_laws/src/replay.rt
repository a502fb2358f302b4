//! The printed text of a run as a schedule of its events, as the contract of a call that does nothing.

ghost use Rattle.std.specs.Prelude.{◌≡◌, ◌≤◌, ◌++◌, ℕ, List, Option, length, drop};
ghost use Rattle.i9_text.specs.Text as texts;
ghost use Rattle.i9_model.specs.declared.event.Timed.{Timed};
ghost use Rattle.i9_model.specs.declared.layout.TheConstants.{MAX_LENGTH};
ghost use Rattle.i9_model.specs.declared.run.End.{End};
ghost use Rattle.i9_model.specs.ScheduleText.{InOrder, IsByCounts, IsVersion, AreOfVersion, IsPlan, IsSchedule};
ghost use Rattle.i9_model.specs.Run.{Given, Record, IsPast, IsRun, state_after, reached_after, Finish, finish};
ghost use Rattle.i9_model.specs.Run.{reached_in};
ghost use Rattle.i9_model.specs.PrintedText.{heading_text, run_text};
ghost use Rattle.i9_course.specs.PipelinedRun.{IsPipelinedPast, IsPipelinedRun};

/// The printed text of a run replays it. A run reaches the first events of its plan, in order; where the plan is one of
/// a schedule by counts, no event that is left stands at a count that is past, since an event comes before the
/// instruction at its count. An event that waits for a turn stands at no count, so this machine, which does one thing
/// after the other, never reaches it. The printed text, behind the line of the schedule's version, is a schedule of
/// this version, of the events that were reached, each at its count, the one that met a hazard and so ended the run
/// too; and with these as its plan the run is the same and prints the same. A text that is cut behind some record is a
/// schedule of the events up to there, whatever end it tells.
pub fn printed_text_replays_its_run()
    ensures reached { (g : Given) (rs : List Record) → IsPast g rs
        → (rest : List Timed) × (reached_after rs ++ rest ≡ g.plan) }
    ensures whole { (g : Given) (rs : List Record) (f : Finish) → IsRun g rs f
        → (rest : List Timed) × (reached_in g rs f ++ rest ≡ g.plan) }
    ensures passed { (g : Given) (rs : List Record) → IsPlan g.plan → IsByCounts g.plan → IsPast g rs
        → InOrder (state_after g rs).count (drop (length (reached_after rs)) g.plan) }
    ensures text { (version : ℕ) (g : Given) (rs : List Record) (f : Finish) → IsVersion version → IsPlan g.plan
        → AreOfVersion version g.plan → IsRun g rs f
        → IsSchedule (texts.lines_of (heading_text version ++ run_text g rs f))
        (record { version = version; events = reached_in g rs f }) }
    ensures cut { (version : ℕ) (g : Given) (rs : List Record) (e : End) → IsVersion version → IsPlan g.plan
        → AreOfVersion version g.plan → IsPast g rs
        → IsSchedule (texts.lines_of (heading_text version ++ run_text g rs (finish e)))
        (record { version = version; events = reached_in g rs (finish e) }) }
    ensures shown { (g : Given) (plan : List Timed) (rs : List Record) (f : Finish)
        → run_text (record g { plan = plan }) rs f ≡ run_text g rs f }
    ensures again { (g : Given) (rs : List Record) (f : Finish) → IsRun g rs f
        → IsRun (record g { plan = reached_in g rs f }) rs f
        × (run_text (record g { plan = reached_in g rs f }) rs f ≡ run_text g rs f) }
{}

/// The printed text of a run whose results land late replays it, under a schedule by counts and by turns. The text,
/// behind the line of the schedule's version, is a schedule of this version, of the events that were reached, each at
/// its count; and with these as its plan the run has the same records and the same end, and prints the same, in any
/// number of sets.
pub fn printed_text_replays_its_pipelined_run()
    ensures counted { (g : Given) (rs : List Record) (f : Finish) → IsByCounts (reached_in g rs f) }
    ensures text { (version : ℕ) (g : Given) (rs : List Record) (f : Finish) → IsVersion version → IsPlan g.plan
        → AreOfVersion version g.plan → g.length ≤ MAX_LENGTH → IsPipelinedRun g rs f
        → IsSchedule (texts.lines_of (heading_text version ++ run_text g rs f))
        (record { version = version; events = reached_in g rs f }) }
    ensures cut { (version : ℕ) (g : Given) (rs : List Record) (e : End) → IsVersion version → IsPlan g.plan
        → AreOfVersion version g.plan → g.length ≤ MAX_LENGTH → IsPipelinedPast g rs
        → IsSchedule (texts.lines_of (heading_text version ++ run_text g rs (finish e)))
        (record { version = version; events = reached_in g rs (finish e) }) }
    ensures again { (g : Given) (asked : Option ℕ) (rs : List Record) (f : Finish) → IsPipelinedRun g rs f
        → IsPipelinedRun (record g { plan = reached_in g rs f; sets = asked }) rs f
        × (run_text (record g { plan = reached_in g rs f; sets = asked }) rs f ≡ run_text g rs f) }
{}
