//! Single bits of words.
ghost use Rattle.std.specs.Prelude.{◌≡◌, ◌<◌, ◌^◌, if◌then◌else◌};
ghost use Rattle.i9_isa.specs.Words.{bit};

/// Whether bit `place`, 0 to 31, of a word is set.
pub(crate) fn has_bit(word: u32, place: u32) -> bool
    requires { place < 32 }
    ensures { result ≡ bit word place }
{
    (word >> place) % 2 == 1
}

/// A word with bit `place`, 0 to 31, where it is set, and 0 elsewhere.
pub(crate) fn bit_where(is_set: bool, place: u32) -> u32
    requires { place < 32 }
    ensures { result ≡ (if is_set then 2 ^ place else 0) }
{
    if is_set { 1 << place } else { 0 }
}
