//! Conditions, comparisons and the condition code.
ghost use Rattle.std.specs.Prelude.{◌≡◌, ◌<◌, if◌then◌else◌};
ghost use Rattle.i9_model.specs.Conditions.{bit_in, code_where, compared, holds, signed_compared};
ghost use Rattle.i9_model.specs.Results.{code_unless_less, same_byte, shares_byte, tested};
ghost use Rattle.i9_exec.specs.Shown.{answer_of};

use crate::done::{Done, code, word, words};
use arrayvec::ArrayVec;

/// The condition code of less.
const LESS: u32 = 0b100;

/// The condition code of equal, and of what is so.
const EQUAL: u32 = 0b010;

/// The condition code of greater.
const GREATER: u32 = 0b001;

/// Whether the condition of a mask holds: mask and code have a bit in common, or both are 0.
pub fn holds(mask: u32, code: u32) -> bool
    ensures { result ≡ holds mask code }
{
    if mask == 0 {
        code == 0
    } else {
        mask & code != 0
    }
}

/// The code 010 where something is so, else 000.
pub fn code_where(so: bool) -> u32
    ensures { result ≡ code_where so }
{
    if so { EQUAL } else { 0 }
}

/// The code of `a` against `b`.
pub fn compare(a: u32, b: u32) -> u32
    ensures { result ≡ compared a b }
{
    if a < b {
        LESS
    } else if a == b {
        EQUAL
    } else {
        GREATER
    }
}

/// The code of `a` against `b` as signed numbers.
pub fn signed_compare(a: u32, b: u32) -> u32
    ensures { result ≡ signed_compared a b }
{
    if a.cast_signed() < b.cast_signed() {
        LESS
    } else if a == b {
        EQUAL
    } else {
        GREATER
    }
}

/// Whether the bit of a word at a place modulo 32 is 1.
pub fn bit_in(word: u32, place: u32) -> bool
    ensures { result ≡ bit_in word place }
{
    word >> (place % 32) & 1 == 1
}

/// The code 010 or 001 where bit 2 of the code is clear; else the code stays.
pub fn code_unless_less(at_most: bool, ac: u32) -> Done
    ensures { answer_of result ≡ code_unless_less at_most ac }
{
    if ac >> 2 & 1 == 1 {
        words(ArrayVec::new(), ac)
    } else {
        code(if at_most { EQUAL } else { GREATER }, ac)
    }
}

/// Whether the bytes of two words at a place are the same.
fn is_same_byte(a: u32, b: u32, place: u32) -> bool
    requires { place < 4 }
    ensures { result ≡ same_byte a b place }
{
    (a >> (8 * place)) % 256 == (b >> (8 * place)) % 256
}

/// Whether two words have the same byte at some place.
pub fn shares_byte(a: u32, b: u32) -> bool
    ensures { result ≡ shares_byte a b }
{
    is_same_byte(a, b, 0) || is_same_byte(a, b, 1) || is_same_byte(a, b, 2) || is_same_byte(a, b, 3)
}

/// 1 where the condition of a mask holds, else 0.
pub fn test(mask: u32, ac: u32) -> Done
    ensures { answer_of result ≡ tested mask ac }
{
    word(if holds(mask, ac % 8) { 1 } else { 0 }, ac)
}
