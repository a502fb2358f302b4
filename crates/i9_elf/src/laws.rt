//! A law of ELF files, as the contract of a call that does nothing.
ghost use Rattle.std.specs.Prelude.{◌≡◌, ◌⊎◌, ℕ, List, take};
ghost use Rattle.i9_elf.specs.Files.{magic, IsImage, IsRefused};

/// Each file that begins with the magic bytes has one answer: it says the pairs of one image, or it
/// is refused for one fault.
pub fn one_answer()
    ensures some { (file : List ℕ) → take 4 file ≡ magic → ((pairs : List (ℕ × ℕ)) × IsImage file pairs)
        ⊎ ((kind : ℕ) × IsRefused file kind) }
    ensures apart { (file : List ℕ) (pairs : List (ℕ × ℕ)) (kind : ℕ)
        → IsImage file pairs → IsRefused file kind → ⊥ }
    ensures one_image { (file : List ℕ) (ps qs : List (ℕ × ℕ)) → IsImage file ps → IsImage file qs → ps ≡ qs }
    ensures one_fault { (file : List ℕ) (f g : ℕ) → IsRefused file f → IsRefused file g → f ≡ g }
{}
