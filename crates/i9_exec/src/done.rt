//! The result of an instruction, and how the kinds of results are made.
ghost use Rattle.std.specs.Prelude.{◌≡◌, ◌∷◌, [], slice_index};
ghost use Rattle.i9_model.specs.Conditions.{with_code};
ghost use Rattle.i9_model.specs.Results.{words, word, word_and_code, code, faulting, overflowing, word_or_overflow};
ghost use Rattle.i9_model.specs.Results.{found};
ghost use Rattle.i9_exec.specs.Shown.{answer_of};

use arrayvec::ArrayVec;
use i9_model::Arith;

/// The overflow flag of the arithmetic controls.
const OVERFLOW_FLAG: u32 = 1 << 8;

/// The condition code where a bit was found.
const FOUND: u32 = 0b010;

/// What an instruction gives: the words for its destination, from the lowest register up; the arithmetic
/// controls afterwards, with the condition code in bits 0 to 2 and the overflow flag in bit 8; and the
/// fault that it raises. With a fault there are no words, and the controls are as before.
#[derive(Drop)]
pub struct Done {
    pub values: ArrayVec<u32, 4>,
    pub ac: u32,
    pub fault: Option<Arith>,
}

/// The arithmetic controls with another condition code.
pub fn with_code(ac: u32, code: u32) -> u32
    ensures { result ≡ with_code ac code }
{
    ac / 8 * 8 + code % 8
}

/// Words, and the controls as they are.
pub fn words(values: ArrayVec<u32, 4>, ac: u32) -> Done
    ensures { answer_of result ≡ words values.items ac }
{
    Done {
        values,
        ac,
        fault: None,
    }
}

/// One word.
pub fn word(value: u32, ac: u32) -> Done
    ensures { answer_of result ≡ word value ac }
{
    let mut values = ArrayVec::new();
    values.push(value);
    words(values, ac)
}

/// Two words.
pub fn two_words(first: u32, second: u32, ac: u32) -> Done
    ensures { answer_of result ≡ words (first ∷ second ∷ []) ac }
{
    let mut values = ArrayVec::new();
    values.push(first);
    values.push(second);
    words(values, ac)
}

/// The first three words of a source.
pub fn three_words(source: &[u32; 4], ac: u32) -> Done
    ensures { answer_of result
        ≡ words (slice_index source.now 0 ∷ slice_index source.now 1 ∷ slice_index source.now 2 ∷ []) ac }
{
    let mut values = ArrayVec::new();
    values.push(source[0]);
    values.push(source[1]);
    values.push(source[2]);
    words(values, ac)
}

/// The four words of a source.
pub fn four_words(source: &[u32; 4], ac: u32) -> Done
    ensures { answer_of result ≡ words (slice_index source.now 0 ∷ slice_index source.now 1
        ∷ slice_index source.now 2 ∷ slice_index source.now 3 ∷ []) ac }
{
    let mut values = ArrayVec::new();
    values.push(source[0]);
    values.push(source[1]);
    values.push(source[2]);
    values.push(source[3]);
    words(values, ac)
}

/// A new condition code alone.
pub fn code(new: u32, ac: u32) -> Done
    ensures { answer_of result ≡ code new ac }
{
    words(ArrayVec::new(), with_code(ac, new))
}

/// One word and a new condition code.
pub fn word_and_code(value: u32, new: u32, ac: u32) -> Done
    ensures { answer_of result ≡ word_and_code value new ac }
{
    word(value, with_code(ac, new))
}

/// A fault.
pub fn faulting(fault: Arith, ac: u32) -> Done
    ensures { answer_of result ≡ faulting fault ac }
{
    Done {
        values: ArrayVec::new(),
        ac,
        fault: Some(fault),
    }
}

/// The low word of a result out of range, or the fault where bit 12 of the controls doesn't mask it.
fn overflowing(value: u32, ac: u32) -> Done
    ensures { answer_of result ≡ overflowing value ac }
{
    if ac >> 12 & 1 == 1 {
        word(value, ac | OVERFLOW_FLAG)
    } else {
        faulting(Arith::Overflow, ac)
    }
}

/// The low word of a signed result, and whether it is out of range.
pub fn checked(value: u32, overflows: bool, ac: u32) -> Done
    ensures { answer_of result ≡ word_or_overflow value overflows ac }
{
    if overflows {
        overflowing(value, ac)
    } else {
        word(value, ac)
    }
}

/// The place of a bit, or all ones where there is none.
pub fn found(place: Option<u32>, ac: u32) -> Done
    ensures { answer_of result ≡ found place ac }
{
    match place {
        Some(place) => word_and_code(place, FOUND, ac),
        None => word_and_code(u32::MAX, 0, ac),
    }
}
