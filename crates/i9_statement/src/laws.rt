//! Laws of the definitions, as the contracts of calls that do nothing.
ghost use Rattle.std.specs.Prelude.{◌≡◌, ◌<◌, ◌^◌, ℕ, List, None, Ok};
ghost use Rattle.std.specs.Int.Bits.{bit_and};
ghost use Rattle.i9_isa.specs.declared.inst.Inst.{Inst};
ghost use Rattle.i9_isa.specs.Valid.{IsValid};
ghost use Rattle.i9_isa.specs.Words.{decoded};
ghost use Rattle.i9_decode.specs.Ignored.{ignored_bits};
ghost use Rattle.i9_statement.specs.Noted.{fine};
ghost use Rattle.i9_statement.specs.Values.{Names};
ghost use Rattle.i9_statement.specs.Statements.{said, statement_of, statement_text};
ghost use Rattle.i9_statement.specs.Codes.{Stands, taken};

/// What is printed is read back, whatever names are worth: of a valid instruction with set ignored
/// bits the same instruction and bits, and of two words the words that the instruction has of them.
pub fn statements_read_back()
    ensures read { (names : Names) (ip bits : ℕ) (i : Inst) → ip < 2 ^ 32 → IsValid i
        → bits < 2 ^ 32 → bit_and bits (ignored_bits i) ≡ bits
        → statement_of ip names (statement_text ip i bits) ≡ fine (said i bits) }
    ensures words { (names : Names) (ip w0 w1 : ℕ) (i : Inst) → ip < 2 ^ 32 → w0 < 2 ^ 32 → w1 < 2 ^ 32
        → decoded w0 w1 ≡ Ok i
        → Stands names ip (statement_text ip i (bit_and w0 (ignored_bits i))) (taken w0 w1 i) }
{}

/// A statement without fault stands for words, and a statement stands for one list of them.
pub fn words_are_one()
    ensures some { (names : Names) (ip : ℕ) (s : List ℕ) → (statement_of ip names s).fault ≡ None
        → (ws : List ℕ) × Stands names ip s ws }
    ensures one { (names : Names) (ip : ℕ) (s us vs : List ℕ) → Stands names ip s us → Stands names ip s vs
        → us ≡ vs }
{}
