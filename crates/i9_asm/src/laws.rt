//! Laws of the definitions, as the contracts of calls that do nothing.
ghost use Rattle.std.specs.Prelude.{◌≡◌, ◌≤◌, ◌⊎◌, ◌+◌, ℕ, List, length, None};
ghost use Rattle.std.specs.List.{AllByRecursion};
ghost use Rattle.i9_model.specs.Image.{Part};
ghost use Rattle.i9_statement.specs.Values.{Names};
ghost use Rattle.i9_asm.specs.Lines.{item_of};
ghost use Rattle.i9_asm.specs.Places.{size_of, moved_to, past_line};
ghost use Rattle.i9_asm.specs.Source.{Source, Gives, line_fault, most_bytes};
ghost use Rattle.i9_asm.specs.Listing.{ListsAll};
ghost use Rattle.i9_hex.specs.Runs.{IsRun, bytes_in};
ghost use Rattle.i9_asm.specs.Laws.{item_place, IsAssembly, IsRefusedSource};

/// The lines of a listing of at most 4,194,304 bytes assemble without a fault, to the listed runs.
pub fn listings_assemble()
    ensures { (runs : List Part) (lines : List (List ℕ)) → ListsAll runs lines
        → AllByRecursion IsRun runs → bytes_in runs ≤ most_bytes → IsAssembly lines runs }
{}

/// A source has one list of segments, or one first line at fault with its least kind, and not both.
pub fn one_answer()
    ensures some { (lines : List (List ℕ)) → ((a : List Part) × IsAssembly lines a)
        ⊎ ((f : ℕ × ℕ) × IsRefusedSource lines f) }
    ensures segments { (lines : List (List ℕ)) (a b : List Part) → IsAssembly lines a
        → IsAssembly lines b → a ≡ b }
    ensures fault { (lines : List (List ℕ)) (f g : ℕ × ℕ) → IsRefusedSource lines f
        → IsRefusedSource lines g → f ≡ g }
    ensures both { (lines : List (List ℕ)) (a : List Part) (f : ℕ × ℕ) → IsAssembly lines a
        → IsRefusedSource lines f → ⊥ }
{}

/// The bytes that the second pass makes of a line without fault are as many as the line counts, which
/// does not depend on what names are worth. Where the line moves to no place of its own, the first
/// pass moves the location on by so many.
pub fn lines_give_what_they_count()
    ensures counted { (names : Names) (s : Source) (line bs : List ℕ) → line_fault names s line ≡ None
        → Gives names (item_place s line) (item_of line) bs
        → length bs ≡ size_of (item_place s line) (item_of line) }
    ensures moved { (names : Names) (s : Source) (line bs : List ℕ) → line_fault names s line ≡ None
        → Gives names (item_place s line) (item_of line) bs
        → moved_to (item_place s line) (item_of line) ≡ None
        → (past_line s.place line).location ≡ s.place.location + length bs }
{}
