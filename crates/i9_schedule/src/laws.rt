//! A law of schedules, as the contract of a call that does nothing.

ghost use Rattle.std.specs.Prelude.{◌≡◌, ◌⊎◌, ℕ, List};
ghost use Rattle.i9_text.specs.Text.{lines_of};
ghost use Rattle.i9_model.specs.ScheduleText.{Contents, IsSchedule, IsRefused};

/// Each text has one answer: it says the version and the events of one schedule, or it is refused for one fault.
pub fn one_answer()
    ensures some { (text : List ℕ) → ((c : Contents) × IsSchedule (lines_of text) c)
        ⊎ ((fault : ℕ × ℕ) × IsRefused (lines_of text) fault) }
    ensures apart { (text : List ℕ) (c : Contents) (fault : ℕ × ℕ)
        → IsSchedule (lines_of text) c → IsRefused (lines_of text) fault → ⊥ }
    ensures one_schedule { (text : List ℕ) (c d : Contents)
        → IsSchedule (lines_of text) c → IsSchedule (lines_of text) d → c ≡ d }
    ensures one_fault { (text : List ℕ) (f g : ℕ × ℕ)
        → IsRefused (lines_of text) f → IsRefused (lines_of text) g → f ≡ g }
{}
