//! A law of images, as the contract of a call that does nothing.

ghost use Rattle.std.specs.Prelude.{◌≡◌, ◌⊎◌, ℕ, List};
ghost use Rattle.i9_elf.specs.Images.{Fault, IsImage, IsRefused};

/// Each file has one answer: it says the pairs of one image, or it is refused for one fault.
pub fn one_image()
    ensures some { (file : List ℕ) → ((pairs : List (ℕ × ℕ)) × IsImage file pairs)
        ⊎ ((fault : Fault) × IsRefused file fault) }
    ensures apart { (file : List ℕ) (pairs : List (ℕ × ℕ)) (fault : Fault)
        → IsImage file pairs → IsRefused file fault → ⊥ }
    ensures one_image { (file : List ℕ) (ps qs : List (ℕ × ℕ)) → IsImage file ps → IsImage file qs → ps ≡ qs }
    ensures one_fault { (file : List ℕ) (f g : Fault) → IsRefused file f → IsRefused file g → f ≡ g }
{}
