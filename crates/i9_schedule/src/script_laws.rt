//! A law of scripts, as the contract of a call that does nothing.

ghost use Rattle.std.specs.Prelude.{◌≡◌, ◌⊎◌, ℕ, List};
ghost use Rattle.i9_text.specs.Text.{lines_of};
ghost use Rattle.i9_schedule.specs.declared.command.Command as command;
ghost use Rattle.i9_schedule.specs.ScriptText.{IsScript, IsRefused};

/// Each text has one answer: it says the commands of one script, or it is refused for one fault.
pub fn one_script()
    ensures some { (text : List ℕ) → ((cs : List command.Command) × IsScript (lines_of text) cs)
        ⊎ ((fault : ℕ × ℕ) × IsRefused (lines_of text) fault) }
    ensures apart { (text : List ℕ) (cs : List command.Command) (fault : ℕ × ℕ)
        → IsScript (lines_of text) cs → IsRefused (lines_of text) fault → ⊥ }
    ensures one_script { (text : List ℕ) (cs ds : List command.Command)
        → IsScript (lines_of text) cs → IsScript (lines_of text) ds → cs ≡ ds }
    ensures one_fault { (text : List ℕ) (f g : ℕ × ℕ)
        → IsRefused (lines_of text) f → IsRefused (lines_of text) g → f ≡ g }
{}
