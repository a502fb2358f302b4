//! Single bits, shifts and rotations of words.
ghost use Rattle.std.specs.Prelude.{◌≡◌, ◌%◌, ◌^◌, nat_lt, if◌then◌else◌, pos};
ghost use Rattle.std.specs.Int.RustNames.{int_div};
ghost use Rattle.i9_model.specs.Operands.{reduced};
ghost use Rattle.i9_model.specs.Numbers.{bit_word, highest_one, shifted_down, signed};
ghost use Rattle.i9_model.specs.Results.{low_bits, shifted_left, shifted_right, turned_left};

/// The word with one bit, at a place modulo 32.
pub fn bit_word(place: u32) -> u32
    ensures { result ≡ bit_word place }
{
    1 << (place % 32)
}

/// A word shifted right; 0 from 32 places on.
pub fn shift_right(word: u32, places: u32) -> u32
    ensures { result ≡ shifted_right word places }
{
    if places < 32 { word >> places } else { 0 }
}

/// A word shifted left; 0 from 32 places on.
pub fn shift_left(word: u32, places: u32) -> u32
    ensures { result ≡ shifted_left word places }
{
    if places < 32 { word << places } else { 0 }
}

/// A signed number over a power of two, rounded down; more than 31 places act as 31.
pub fn shift_signed_right(word: u32, places: u32) -> u32
    ensures { result ≡ reduced (shifted_down (signed word) (if nat_lt places 32 then places else 31)) }
{
    (word.cast_signed() >> places.min(31)).cast_unsigned()
}

/// A signed number over a power of two, towards zero; 0 from 32 places on.
pub fn shift_dividing(word: u32, places: u32) -> u32
    ensures { result ≡ (if nat_lt places 32 then reduced (int_div (signed word) (pos (2 ^ places))) else 0) }
{
    if places >= 32 {
        return 0;
    }
    let value = word.cast_signed();
    let size = value.unsigned_abs() >> places;
    if value < 0 { size.wrapping_neg() } else { size }
}

/// A word turned left by a number of places modulo 32.
pub fn turn_left(word: u32, places: u32) -> u32
    ensures { result ≡ turned_left word (places % 32) }
{
    word.rotate_left(places % 32)
}

/// The low bits of a word; all from 32 on.
pub fn low_bits(count: u32, word: u32) -> u32
    ensures { result ≡ low_bits count word }
{
    if count < 32 {
        word & ((1 << count) - 1)
    } else {
        word
    }
}

/// The place of the highest 1.
pub fn highest_one(word: u32) -> Option<u32>
    ensures { result ≡ highest_one 32 word }
{
    if word == 0 {
        None
    } else {
        Some(31 - word.leading_zeros())
    }
}
