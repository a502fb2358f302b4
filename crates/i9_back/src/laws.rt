//! A law of earlier states, as the contract of a call that does nothing. Lists have the newest record first.

ghost use Rattle.std.specs.Prelude.{◌≡◌, ◌++◌, ◌≤◌, ℕ, List};
ghost use Rattle.i9_model.specs.Run.{Given, Record, state_after};
ghost use Rattle.i9_back.specs.Earlier.{IsEarlier, HasInstructions};

/// A run has one state after each number of its instructions, whose count is that number, and the state after fewer is
/// the first part of the state after more.
pub fn one_earlier_state()
    ensures one { (g : Given) (c : ℕ) (rs qs : List Record) → IsEarlier g c rs → IsEarlier g c qs → rs ≡ qs }
    ensures some { (g : Given) (c : ℕ) → HasInstructions g c → (rs : List Record) × IsEarlier g c rs }
    ensures count { (g : Given) (c : ℕ) (rs : List Record) → IsEarlier g c rs → (state_after g rs).count ≡ c }
    ensures part { (g : Given) (c d : ℕ) (rs qs : List Record) → c ≤ d → IsEarlier g c rs → IsEarlier g d qs
        → (more : List Record) × (more ++ rs ≡ qs) }
{}
