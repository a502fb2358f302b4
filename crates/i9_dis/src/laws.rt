//! Laws of the definitions, as the contracts of a call that does nothing.
ghost use Rattle.std.specs.Prelude.{◌≡◌, ◌<◌, ℕ, List};
ghost use Rattle.std.specs.List.{AllByRecursion};
ghost use Rattle.i9_model.specs.Image.{Part, pairs_of};
ghost use Rattle.i9_asm.specs.Listing.{IsListing};

/// Each image has one listing, which depends on its pairs alone.
pub fn one_listing()
    ensures text { (image : List Part) (a b : List ℕ) → IsListing image a → IsListing image b → a ≡ b }
    ensures some { (image : List Part) → AllByRecursion (λ (p : ℕ × ℕ). p.1 < 256) (pairs_of image)
        → (text : List ℕ) × IsListing image text }
    ensures pairs { (image other : List Part) (text : List ℕ) → pairs_of image ≡ pairs_of other
        → IsListing image text → IsListing other text }
{}
