//! Results of one word and new condition codes, of frequent names, which raise nothing.
ghost use Rattle.std.specs.Prelude.{◌≡◌, ℕ, [], Some, IfSome};
ghost use Rattle.i9_isa.specs.Operands.{words_written};
ghost use Rattle.i9_isa.specs.Table.{row_of};
ghost use Rattle.i9_model.specs.Results.{destination_words, result_of, word, words};

use crate::bits::{bit_word, shift_left, shift_right, shift_signed_right};
use crate::compare::{bit_in, code_where, compare, signed_compare};
use crate::done::with_code;
use crate::signed::product;
use i9_isa::Op;

/// The word that a name gives of a word of src1 and one of src2, where it gives one, raises nothing and leaves the
/// controls as they are. It tells that of frequent names alone.
// Each step asks for it, and it is part of the code that does.
#[inline(always)]
pub fn word_by(op: Op, a: u32, b: u32) -> Option<u32>
    ensures table { (c ac : ℕ) → IfSome result (λ v. result_of op a b c ac ≡ Some (word v ac)) }
    ensures third { IfSome result (λ v. words_written (row_of op).a ≡ 0) }
    ensures one { IfSome result (λ v. destination_words op ≡ 1) }
{
    match op {
        Op::And => Some(b & a),
        Op::Or => Some(b | a),
        Op::Xor => Some(b ^ a),
        Op::Andnot => Some(b & !a),
        Op::Not => Some(!a),
        Op::Mov => Some(a),
        Op::Setbit => Some(b | bit_word(a)),
        Op::Clrbit => Some(b & !bit_word(a)),
        Op::Notbit => Some(b ^ bit_word(a)),
        Op::Addo => Some(b.wrapping_add(a)),
        Op::Subo => Some(b.wrapping_sub(a)),
        Op::Mulo => Some(b.wrapping_mul(a)),
        Op::Muli => product(a, b),
        Op::Divo if a != 0 => Some(b / a),
        Op::Remo if a != 0 => Some(b % a),
        Op::Shro => Some(shift_right(b, a)),
        Op::Shlo => Some(shift_left(b, a)),
        Op::Shri => Some(shift_signed_right(b, a)),
        _ => None,
    }
}

/// The controls behind a name that gives no word, but a condition code by a word of src1 and one of src2, and raises
/// nothing. It tells that of frequent names alone.
#[inline(always)]
pub fn controls_by(op: Op, a: u32, b: u32, ac: u32) -> Option<u32>
    ensures table { (c : ℕ) → IfSome result (λ n. result_of op a b c ac ≡ Some (words [] n)) }
    ensures none { IfSome result (λ n. destination_words op ≡ 0) }
{
    match op {
        Op::Cmpo => Some(with_code(ac, compare(a, b))),
        Op::Cmpi => Some(with_code(ac, signed_compare(a, b))),
        Op::Chkbit => Some(with_code(ac, code_where(bit_in(b, a)))),
        _ => None,
    }
}
