//! The levels of pins, as the contract of a call that does nothing.

ghost use Rattle.std.specs.Prelude.{◌≡◌, List};
ghost use Rattle.i9_model.specs.Pins.{pending_word};
ghost use Rattle.i9_model.specs.ScheduleText.{first_version, AreOfVersion};
ghost use Rattle.i9_model.specs.Run.{Given, Record, IsPast, state_after};

/// Under a schedule of version 1, which has no levels, all pins stay high along every run, whatever the control word of
/// pins is; so the pending word is the kept one.
#[tactic(auto, using(crate::proofs::HighPins::high_after, crate::proofs::HighPins::kept_alone))]
pub fn pins_stay_high_without_levels()
    ensures high { (g : Given) (rs : List Record) → AreOfVersion first_version g.plan → IsPast g rs
        → (state_after g rs).interrupts.low ≡ 0 }
    ensures kept { (g : Given) (rs : List Record) → AreOfVersion first_version g.plan → IsPast g rs
        → pending_word (state_after g rs).interrupts ≡ (state_after g rs).interrupts.pending }
{}
