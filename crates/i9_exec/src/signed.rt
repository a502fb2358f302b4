//! Arithmetic over signed and over long numbers.
ghost use Rattle.std.specs.Prelude.{◌≡◌, ℕ, IfSome, ◌<◌, ◌/◌, ◌%◌, ◌*◌, ◌^◌, ◌∷◌, [], not, ◌+ℤ◌, ◌-ℤ◌, ◌*ℤ◌, pos};
ghost use Rattle.std.specs.Int.RustNames.{int_div, int_rem};
ghost use Rattle.i9_model.specs.Operands.{reduced};
ghost use Rattle.i9_model.specs.Numbers.{fits, modulo, sign_matched, signed};
ghost use Rattle.i9_model.specs.Results.{checked, carry_code, long, long_divided, with_carry, word, words};
ghost use Rattle.i9_exec.specs.Shown.{answer_of};

use crate::bits::shift_left;
use crate::done::{Done, checked, two_words, word_and_code};

/// `b` plus `a`.
pub fn add(a: u32, b: u32, ac: u32) -> Done
    ensures { answer_of result ≡ checked (signed b +ℤ signed a) ac }
{
    let (sum, overflows) = b.cast_signed().overflowing_add(a.cast_signed());
    checked(sum.cast_unsigned(), overflows, ac)
}

/// `b` minus `a`.
pub fn subtract(a: u32, b: u32, ac: u32) -> Done
    ensures { answer_of result ≡ checked (signed b -ℤ signed a) ac }
{
    let (difference, overflows) = b.cast_signed().overflowing_sub(a.cast_signed());
    checked(difference.cast_unsigned(), overflows, ac)
}

/// Whether a product leaves the signed range.
fn product_overflows(a: u32, b: u32) -> bool
    ensures { result ≡ not (fits (signed b *ℤ signed a)) }
{
    b.cast_signed().checked_mul(a.cast_signed()).is_none()
}

/// `b` times `a`. The low word of the product doesn't depend on the signs.
pub fn multiply(a: u32, b: u32, ac: u32) -> Done
    ensures { answer_of result ≡ checked (signed b *ℤ signed a) ac }
{
    checked(b.wrapping_mul(a), product_overflows(a, b), ac)
}

/// `b` times `a`, where that does not leave the signed range.
pub fn product(a: u32, b: u32) -> Option<u32>
    ensures { (ac : ℕ) → IfSome result (λ v. checked (signed b *ℤ signed a) ac ≡ word v ac) }
{
    if product_overflows(a, b) {
        None
    } else {
        Some(b.wrapping_mul(a))
    }
}

/// The quotient of `b` by `a`, and whether it leaves the signed range.
fn quotient(a: u32, b: u32) -> (u32, bool)
    requires { 0 < a }
    ensures value { result.0 ≡ reduced (int_div (signed b) (signed a)) }
    ensures overflows { result.1 ≡ not (fits (int_div (signed b) (signed a))) }
{
    let (quotient, overflows) = b.cast_signed().overflowing_div(a.cast_signed());
    (quotient.cast_unsigned(), overflows)
}

/// `b` over `a`, towards zero.
pub fn divide(a: u32, b: u32, ac: u32) -> Done
    requires { 0 < a }
    ensures { answer_of result ≡ checked (int_div (signed b) (signed a)) ac }
{
    let (value, overflows) = quotient(a, b);
    checked(value, overflows, ac)
}

/// The remainder of `b` by `a`, with the sign of `b`.
pub fn remainder(a: u32, b: u32) -> u32
    requires { 0 < a }
    ensures { result ≡ reduced (int_rem (signed b) (signed a)) }
{
    b.cast_signed()
        .wrapping_rem(a.cast_signed())
        .cast_unsigned()
}

/// A remainder, with the divisor added where their signs differ.
fn sign_matched(rest: i32, divisor: i32) -> u32
    ensures { result ≡ reduced (sign_matched rest divisor) }
{
    if rest > 0 && divisor < 0 {
        return (rest + divisor).cast_unsigned();
    }
    if rest < 0 && divisor >= 0 {
        return (rest + divisor).cast_unsigned();
    }
    rest.cast_unsigned()
}

/// The remainder of `b` by `a`, with the sign of `a`.
pub fn modulo(a: u32, b: u32) -> u32
    requires { 0 < a }
    ensures { result ≡ reduced (modulo (signed b) (signed a)) }
{
    let divisor = a.cast_signed();
    sign_matched(b.cast_signed().wrapping_rem(divisor), divisor)
}

/// Whether a shift to the left leaves the signed range.
fn shift_overflows(word: u32, places: u32) -> bool
    ensures { result ≡ not (fits (signed word *ℤ pos (2 ^ places))) }
{
    if places >= 32 {
        return word != 0;
    }
    if word < 1 << 31 {
        word >> (31 - places) != 0
    } else {
        !word >> (31 - places) != 0
    }
}

/// A signed number times a power of two.
pub fn shift_multiplying(word: u32, places: u32, ac: u32) -> Done
    ensures { answer_of result ≡ checked (signed word *ℤ pos (2 ^ places)) ac }
{
    checked(shift_left(word, places), shift_overflows(word, places), ac)
}

/// Whether a number is out of the signed range of a word.
fn is_outside(number: i64) -> bool
    ensures { result ≡ not (fits number) }
{
    if number < -(1 << 31) {
        return true;
    }
    number >= 1 << 31
}

/// Whether a signed sum with a carry is out of range.
fn carry_overflows(a: u32, b: u32, carry: u32) -> bool
    requires { carry < 2 }
    ensures { result ≡ not (fits (signed b +ℤ signed a +ℤ pos carry)) }
{
    is_outside(b.cast_signed() as i64 + a.cast_signed() as i64 + carry as i64)
}

/// `b` plus `a` plus the carry of bit 1 of the condition code.
pub fn add_with_carry(a: u32, b: u32, ac: u32) -> Done
    ensures { answer_of result ≡ with_carry a b ac }
{
    let carry = ac >> 1 & 1;
    let sum = b as u64 + a as u64 + carry as u64;
    let overflow = carry_overflows(a, b, carry) as u32;
    word_and_code(
        (sum % (1 << 32)) as u32,
        2 * (sum >> 32) as u32 + overflow,
        ac,
    )
}

/// The product of two words, the low word first.
pub fn long_product(a: u32, b: u32, ac: u32) -> Done
    ensures { answer_of result ≡ words (a * b % 2 ^ 32 ∷ a * b / 2 ^ 32 ∷ []) ac }
{
    let product = a as u64 * b as u64;
    two_words((product % (1 << 32)) as u32, (product >> 32) as u32, ac)
}

/// The remainder of a long number by `a`, and then the low word of the quotient.
pub fn long_divide(a: u32, low: u32, high: u32, ac: u32) -> Done
    requires { 0 < a }
    ensures { answer_of result ≡ words (long_divided (long low high) a) ac }
{
    let number = (high as u64) << 32 | low as u64;
    let divisor = a as u64;
    two_words(
        (number % divisor) as u32,
        (number / divisor % (1 << 32)) as u32,
        ac,
    )
}
