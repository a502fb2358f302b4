//! Laws of runs, as the contracts of calls that do nothing.

ghost use Rattle.std.specs.Prelude.{◌≡◌, ◌≢◌, ◌≤◌, ◌++◌, List, ℕ};
ghost use Rattle.i9_model.specs.Run.{Given, Record, IsRun, IsPast, state_after, Finish};
ghost use Rattle.i9_model.specs.declared.run.End.TheVariants.{Limit};
ghost use Rattle.i9_model.specs.PrintedText.{text_of, lines_of, run_text};

/// Every run ends, whatever was done so far; no run counts more instructions than its length; and
/// what was printed so far is the front of the text of the whole run.
pub fn every_run_ends()
    ensures ends { (g : Given) (rs : List Record) → IsPast g rs
        → (later : List Record) × (f : Finish) × IsRun g (later ++ rs) f }
    ensures within { (g : Given) (rs : List Record) → IsPast g rs → (state_after g rs).count ≤ g.length }
    ensures front { (g : Given) (rs : List Record) → IsPast g rs
        → (later : List Record) × (f : Finish) × (rest : List ℕ) × IsRun g (later ++ rs) f
        × (text_of (lines_of rs) ++ rest ≡ run_text g (later ++ rs) f) }
{}

/// A run is the only one of what it is given.
pub fn one_run()
    ensures records { (g : Given) (rs qs : List Record) (e f : Finish) → IsRun g rs e → IsRun g qs f → rs ≡ qs }
    ensures end { (g : Given) (rs qs : List Record) (e f : Finish) → IsRun g rs e → IsRun g qs f → e ≡ f }
{}

/// The length of a run cuts it and changes nothing before the cut: what is done at a length is done at every greater
/// one, and a run that ends before its length is the run of every greater one.
pub fn a_length_cuts_the_run()
    ensures past { (g : Given) (more : ℕ) (rs : List Record) → g.length ≤ more
        → IsPast g rs → IsPast (record g { length = more }) rs }
    ensures run { (g : Given) (more : ℕ) (rs : List Record) (f : Finish) → g.length ≤ more
        → f.end ≢ Limit → IsRun g rs f → IsRun (record g { length = more }) rs f }
{}
