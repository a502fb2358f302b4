//! Laws of Intel HEX text and of runs, as the contracts of calls that do nothing.
ghost use Rattle.std.specs.Prelude.{◌≡◌, ◌<◌, ◌≤◌, ◌⊎◌, ℕ, List, length};
ghost use Rattle.std.specs.List.{AllByRecursion};
ghost use Rattle.i9_hex.specs.Runs.{AreRuns};
ghost use Rattle.i9_model.specs.HexText.{IsImage, IsRefused};
ghost use Rattle.i9_model.specs.Image.{Part, pairs_of};
ghost use Rattle.i9_text.specs.Text.{lines_of};

/// Each text has one answer: it says the pairs of one image, or it is refused for one fault.
pub fn one_answer()
    ensures some { (text : List ℕ) → ((pairs : List (ℕ × ℕ)) × IsImage (lines_of text) pairs)
        ⊎ ((fault : ℕ × ℕ) × IsRefused (lines_of text) fault) }
    ensures apart { (text : List ℕ) (pairs : List (ℕ × ℕ)) (fault : ℕ × ℕ)
        → IsImage (lines_of text) pairs → IsRefused (lines_of text) fault → ⊥ }
    ensures one_image { (text : List ℕ) (ps qs : List (ℕ × ℕ))
        → IsImage (lines_of text) ps → IsImage (lines_of text) qs → ps ≡ qs }
    ensures one_fault { (text : List ℕ) (f g : ℕ × ℕ)
        → IsRefused (lines_of text) f → IsRefused (lines_of text) g → f ≡ g }
{}

/// Each image has one list of runs, which has no more bytes than the image.
pub fn one_list()
    ensures some { (image : List Part) → AllByRecursion (λ (p : ℕ × ℕ). p.1 < 256) (pairs_of image)
        → (runs : List Part) × AreRuns image runs }
    ensures one { (image a b : List Part) → AreRuns image a → AreRuns image b → a ≡ b }
    ensures few { (image runs : List Part) → AreRuns image runs
        → length (pairs_of runs) ≤ length (pairs_of image) }
{}
