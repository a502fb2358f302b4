//! Single bits of words.
ghost use Rattle.std.specs.Prelude.{◌≡◌, ◌<◌, ◌≤◌};
ghost use Rattle.i9_isa.specs.Words.{bit};
ghost use Rattle.i9_model.specs.Requests.{with_bit, without_bit};

/// Whether bit `k`, 0 to 31, of a word is set.
pub(crate) fn has_bit(word: u32, k: u32) -> bool
    requires { k < 32 }
    ensures { result ≡ bit word k }
{
    (word >> k) % 2 == 1
}

/// A word with bit `k`, 0 to 31, set.
pub(crate) fn with_bit(word: u32, k: u8) -> u32
    requires { k < 32 }
    ensures { result ≡ with_bit word k }
{
    word | 1 << k
}

/// A word with bit `k`, 0 to 31, cleared.
pub(crate) fn without_bit(word: u32, k: u8) -> u32
    requires { k < 32 }
    ensures { result ≡ without_bit word k }
{
    word & (u32::MAX - (1 << k))
}
