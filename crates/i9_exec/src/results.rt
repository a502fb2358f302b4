//! The table of results.
ghost use Rattle.std.specs.Prelude.{◌≡◌, [], true, Some, IsNone, IsSome, length};
ghost use Rattle.i9_model.specs.Results.{destination_words, has_result, results};
ghost use Rattle.i9_exec.specs.Shown.{answer_of};

use crate::bits::{
    bit_word, highest_one, low_bits, shift_dividing, shift_left, shift_right, shift_signed_right,
    turn_left,
};
use crate::compare::{
    bit_in, code_unless_less, code_where, compare, shares_byte, signed_compare, test,
};
use crate::done::{
    Done, code, faulting, found, four_words, three_words, two_words, word, word_and_code,
};
use crate::signed::{
    add, add_with_carry, divide, long_divide, long_product, modulo, multiply, remainder,
    shift_multiplying, subtract,
};
use i9_isa::{Inst, Op};
use i9_model::Arith;

/// Whether `compute` has the results of a name: those of the register format but for the ones that work on
/// memory, controls or frames, and the tests of the condition code.
pub fn has_result(op: Op) -> bool
    ensures { result ≡ has_result op }
{
    match op {
        Op::And | Op::Or | Op::Xor | Op::Nor | Op::Xnor | Op::Nand => true,
        Op::Andnot | Op::Notand | Op::Ornot | Op::Notor | Op::Not | Op::Modify => true,
        Op::Mov | Op::Movl | Op::Movt | Op::Movq | Op::Setbit | Op::Clrbit => true,
        Op::Notbit | Op::Alterbit | Op::Chkbit | Op::Addo | Op::Subo | Op::Mulo => true,
        Op::Addi | Op::Subi | Op::Muli | Op::Addc | Op::Subc | Op::Emul => true,
        Op::Divo | Op::Remo | Op::Divi | Op::Remi | Op::Modi | Op::Ediv => true,
        Op::Shro | Op::Shlo | Op::Shri | Op::Shrdi | Op::Shli | Op::Rotate => true,
        Op::Extract | Op::Cmpo | Op::Cmpi | Op::Cmpinco | Op::Cmpinci | Op::Cmpdeco => true,
        Op::Cmpdeci | Op::Concmpo | Op::Concmpi | Op::Scanbyte | Op::Spanbit | Op::Scanbit => true,
        Op::Testno | Op::Testg | Op::Teste | Op::Testge | Op::Testl | Op::Testne => true,
        Op::Testle | Op::Testo => true,
        _ => false,
    }
}

/// The table of results.
fn result_of(i: &Inst, a: &[u32; 4], b: &[u32; 2], c: u32, ac: u32) -> Done
    requires { has_result i.now.op ≡ true }
    ensures { Some (answer_of result) ≡ results i.now a.now b.now c ac }
{
    let sources = a;
    let high = b[1];
    let a = a[0];
    let b = b[0];
    match i.op {
        Op::And => word(b & a, ac),
        Op::Or => word(b | a, ac),
        Op::Xor => word(b ^ a, ac),
        Op::Nor => word(!(b | a), ac),
        Op::Xnor => word(!(b ^ a), ac),
        Op::Nand => word(!(b & a), ac),
        Op::Andnot => word(b & !a, ac),
        Op::Notand => word(!b & a, ac),
        Op::Ornot => word(b | !a, ac),
        Op::Notor => word(!b | a, ac),
        Op::Not => word(!a, ac),
        Op::Modify => word(b & a | c & !a, ac),
        Op::Mov => word(a, ac),
        Op::Movl => two_words(a, sources[1], ac),
        Op::Movt => three_words(sources, ac),
        Op::Movq => four_words(sources, ac),
        Op::Setbit => word(b | bit_word(a), ac),
        Op::Clrbit => word(b & !bit_word(a), ac),
        Op::Notbit => word(b ^ bit_word(a), ac),
        Op::Alterbit => if ac >> 1 & 1 == 1 {
            word(b | bit_word(a), ac)
        } else {
            word(b & !bit_word(a), ac)
        },
        Op::Chkbit => code(code_where(bit_in(b, a)), ac),
        Op::Addo => word(b.wrapping_add(a), ac),
        Op::Subo => word(b.wrapping_sub(a), ac),
        Op::Mulo => word(b.wrapping_mul(a), ac),
        Op::Addi => add(a, b, ac),
        Op::Subi => subtract(a, b, ac),
        Op::Muli => multiply(a, b, ac),
        Op::Addc => add_with_carry(a, b, ac),
        Op::Subc => add_with_carry(!a, b, ac),
        Op::Emul => long_product(a, b, ac),
        Op::Divo | Op::Remo | Op::Divi | Op::Remi | Op::Modi | Op::Ediv if a == 0 => {
            faulting(Arith::ZeroDivide, ac)
        }
        Op::Divo => word(b / a, ac),
        Op::Remo => word(b % a, ac),
        Op::Divi => divide(a, b, ac),
        Op::Remi => word(remainder(a, b), ac),
        Op::Modi => word(modulo(a, b), ac),
        Op::Ediv => long_divide(a, b, high, ac),
        Op::Shro => word(shift_right(b, a), ac),
        Op::Shlo => word(shift_left(b, a), ac),
        Op::Shri => word(shift_signed_right(b, a), ac),
        Op::Shrdi => word(shift_dividing(b, a), ac),
        Op::Shli => shift_multiplying(b, a, ac),
        Op::Rotate => word(turn_left(b, a), ac),
        Op::Extract => word(low_bits(b, shift_right(c, a)), ac),
        Op::Cmpo => code(compare(a, b), ac),
        Op::Cmpi => code(signed_compare(a, b), ac),
        Op::Cmpinco => word_and_code(b.wrapping_add(1), compare(a, b), ac),
        Op::Cmpinci => word_and_code(b.wrapping_add(1), signed_compare(a, b), ac),
        Op::Cmpdeco => word_and_code(b.wrapping_sub(1), compare(a, b), ac),
        Op::Cmpdeci => word_and_code(b.wrapping_sub(1), signed_compare(a, b), ac),
        Op::Concmpo => code_unless_less(a <= b, ac),
        Op::Concmpi => code_unless_less(a.cast_signed() <= b.cast_signed(), ac),
        Op::Scanbyte => code(code_where(shares_byte(a, b)), ac),
        Op::Spanbit => found(highest_one(!a), ac),
        Op::Scanbit => found(highest_one(a), ac),
        Op::Testno => test(0, ac),
        Op::Testg => test(1, ac),
        Op::Teste => test(2, ac),
        Op::Testge => test(3, ac),
        Op::Testl => test(4, ac),
        Op::Testne => test(5, ac),
        Op::Testle => test(6, ac),
        Op::Testo => test(7, ac),
        _ => unreachable!(),
    }
}

/// What an instruction gives (i960 CA/CF User's Manual, instruction set): `a` has the words of src1 and `b` those
/// of src2, as many as the instruction reads and 0 behind them; `c` is the old word of src/dst, and `ac` the
/// arithmetic controls. The name is one that `has_result` tells; the operands of `i` aren't looked at.
pub fn compute(i: &Inst, a: &[u32; 4], b: &[u32; 2], c: u32, ac: u32) -> Done
    requires { has_result i.now.op ≡ true }
    ensures table { Some (answer_of result) ≡ results i.now a.now b.now c ac }

    // What follows from the table for every name in it.
    ensures words { IsNone result.fault → length result.values.items ≡ destination_words i.now.op }
    ensures unwritten { IsSome result.fault → result.values.items ≡ [] }
    ensures unchanged { IsSome result.fault → result.ac ≡ ac }
{
    result_of(i, a, b, c, ac)
}
