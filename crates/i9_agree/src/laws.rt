//! Laws of states that are alike or agree, and of frames, as the contracts of calls that do nothing.

ghost use Rattle.std.specs.Prelude.{◌≡◌, List, ℕ, Bool, true, Option, None};
ghost use Rattle.i9_model.specs.declared.event.Event.{Event};
ghost use Rattle.i9_model.specs.State.{State, Frames, as_zero};
ghost use Rattle.i9_model.specs.Frames.{no_frames, saved, returned, flushed, wrote};
ghost use Rattle.i9_model.specs.Hazards.{writes_hazard, save_hazard};
ghost use Rattle.i9_model.specs.Sound.{AreApart, IsSound};
ghost use Rattle.i9_model.specs.Run.{Given, Record, next_in, IsRun, IsPast, state_after, Finish};
ghost use Rattle.i9_model.specs.declared.run.Due.{Due};
ghost use Rattle.i9_model.specs.Overlay.{overlay};
ghost use Rattle.i9_model.specs.Alike.{AreAlike, AreNextAlike, Agree, DoAgree, NextsAgree};
ghost use Rattle.i9_model.specs.HeldFrames.{cache_after, IsCached, AreInMemory};
ghost use Rattle.i9_model.specs.RunInSets.{IsRunInSets};
ghost use Rattle.i9_model.specs.ReadingRuns.{boot_reading, state_from, IsRunReading, reading_text, AreViewsAlike};
ghost use Rattle.i9_model.specs.PrintedText.{text_of, record_lines, run_text, view_of};

/// Live frames never overlap: no frame is live at first, and saves without a hazard, returns,
/// flushes and stores keep live frames apart.
pub fn live_frames_never_overlap()
    ensures none { AreApart no_frames.live }
    ensures saved { (s : Frames) (a : ℕ) → AreApart s.live → save_hazard s a ≡ None → AreApart (saved s a).live }
    ensures returned { (s : Frames) → AreApart s.live → AreApart (returned s).live }
    ensures flushed { (s : Frames) → AreApart s.live → AreApart (flushed s).live }
    ensures wrote { (s : Frames) (ps : List (ℕ × ℕ)) → AreApart s.live → AreApart (wrote s ps).live }
{}

/// Frames stay sound, as they are at first, through saves and stores without a hazard, returns
/// and flushes, and so along every run: live frames are apart and outside the port page, and their
/// bytes are soft.
pub fn frames_stay_sound()
    ensures none { IsSound no_frames }
    ensures saved { (s : Frames) (a : ℕ) → IsSound s → save_hazard s a ≡ None → IsSound (saved s a) }
    ensures returned { (s : Frames) → IsSound s → IsSound (returned s) }
    ensures flushed { (s : Frames) → IsSound s → IsSound (flushed s) }
    ensures wrote { (s : Frames) (ps : List (ℕ × ℕ)) → IsSound s → writes_hazard s ps ≡ None → IsSound (wrote s ps) }
    ensures run { (g : Given) (rs : List Record) → IsPast g rs → IsSound (state_after g rs).frames }
{}

/// Bytes that are not compared are not seen: states that are the same but for these show the same, and what comes
/// next in them is the same end, or a record that does the same and leaves states that are again the same but for
/// such bytes.
pub fn only_compared_bytes_are_seen()
    ensures next { (limit : ℕ) (due : Due) (stands : Option Event) (s t : State) → IsSound s.frames
        → s.reading ≡ as_zero
        → AreAlike s t → AreNextAlike (next_in limit due stands s) (next_in limit due stands t) }
    ensures view { (s t : State) → AreAlike s t → view_of t ≡ view_of s }
    ensures overlay { (s t : State) (a : ℕ) → AreAlike s t → overlay t a ≡ overlay s a }
{}

/// In any number of sets, along every run the frames that are held, laid over the memory behind them, are memory as far
/// as it is compared, they are the youngest live frames, and their words are those in memory.
pub fn held_frames_stand_for_memory()
    ensures cached { (g : Given) (rs : List Record) → IsPast g rs → IsCached (state_after g rs) (cache_after g rs) }
    ensures words { (g : Given) (rs : List Record) → IsPast g rs
        → AreInMemory (state_after g rs).memory (cache_after g rs).held }
{}

/// The text of a run does not depend on the number of sets: a machine that keeps its frames in any number of them, and
/// reads all through the held frames, has a run beside the run of the one-at-a-time machine, and no run of another
/// end or of another text.
pub fn text_does_not_depend_on_sets()
    ensures some { (g : Given) (rs : List Record) (f : Finish)
        → IsRun g rs f → (qs : List Record) × IsRunInSets g qs f × (run_text g qs f ≡ run_text g rs f) }
    ensures only { (g : Given) (qs rs : List Record) (e f : Finish)
        → IsRunInSets g qs e → IsRun g rs f → (e ≡ f) × (run_text g qs e ≡ run_text g rs f) }
    ensures any { (g : Given) (others : Option ℕ) (qs ps : List Record) (e f : Finish)
        → IsRunInSets g qs e → IsRunInSets (record g { sets = others }) ps f
        → run_text g qs e ≡ run_text (record g { sets = others }) ps f }
{}

/// Stale values are not seen: from states that are the same but for the values of marked registers and for bytes that
/// are not compared, whatever either machine reads at a soft byte, comes the same end, or a record of the same kind, of
/// the same words, of an action that is the same but for marked values, and of the same text, and the states after it
/// agree again. Where marks do not hide, two machines agree that read soft bytes alike, with all values of registers
/// and of live frames.
pub fn stale_values_are_not_seen()
    ensures next { (hides : Bool) (limit : ℕ) (due : Due) (stands : Option Event) (s t : State) → IsSound s.frames
        → Agree hides s t → NextsAgree hides (next_in limit due stands s) (next_in limit due stands t) }
    ensures view { (s t : State) → Agree true s t → AreViewsAlike (view_of s) (view_of t) }
    ensures overlay { (s t : State) (a : ℕ) → Agree true s t → overlay t a ≡ overlay s a }
    ensures text { (r q : Record) → DoAgree true r q → text_of (record_lines q) ≡ text_of (record_lines r) }
{}

/// The text of a run does not depend on what is read at stale bytes: a machine that reads soft bytes in any other way
/// has a run beside each run of the one-at-a-time machine, of the same end and the same text, and no run of another end
/// or of another text.
pub fn runs_do_not_depend_on_stale_bytes()
    ensures some { (reading : ℕ → ℕ) (g : Given) (rs : List Record) (f : Finish) → IsRun g rs f
        → (qs : List Record) × IsRunReading reading g qs f × (reading_text reading g qs f ≡ run_text g rs f)
        × Agree true (state_after g rs) (state_from (boot_reading reading g.image) qs) }
    ensures only { (reading : ℕ → ℕ) (g : Given) (qs rs : List Record) (e f : Finish) → IsRunReading reading g qs e
        → IsRun g rs f → (e ≡ f) × (reading_text reading g qs e ≡ run_text g rs f) }
{}
