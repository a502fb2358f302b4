//! The words of a statement.
ghost use Rattle.std.specs.Prelude.{◌≡◌, ◌↔◌, ℕ, IsNone, IsSome, IfSome};
ghost use Rattle.std.specs.Int.Bits.{bit_and};
ghost use Rattle.i9_isa.specs.Valid.{IsValid};
ghost use Rattle.i9_isa.specs.Words.{words_of};
ghost use Rattle.i9_decode.specs.Ignored.{ignored_bits};
ghost use Rattle.i9_statement.specs.Codes.{IsCode};

use crate::statements::Statement;
use i9_decode::{Code, encode};

/// The words of a statement: those of its instruction, with its ignored bits set in the first.
pub fn code_of(statement: &Statement) -> Code
    requires valid { IsValid statement.now.inst }
    requires ignored { bit_and statement.now.spare (ignored_bits statement.now.inst) ≡ statement.now.spare }
    ensures one { IsNone result.second → (w1 : ℕ) → IsCode statement.now.inst statement.now.spare result.first w1 }
    ensures two { IfSome result.second (λ w1. IsCode statement.now.inst statement.now.spare result.first w1) }
    ensures count { IsSome result.second ↔ (words_of statement.now.inst ≡ 2) }
{
    let code = encode(&statement.inst);
    Code {
        first: code.first | statement.spare,
        second: code.second,
    }
}
