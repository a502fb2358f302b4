//! Single bits.
ghost use Rattle.std.specs.Prelude.{◌≡◌, ◌<◌, ◌≤◌, ◌^◌};
ghost use Rattle.i9_isa.specs.Words.{bit};
ghost use Rattle.i9_model.specs.Interrupts.{with_bit, without_bit};

/// Whether bit `k`, 0 to 7, of a byte is set.
pub(crate) fn has_bit(byte: u8, k: u8) -> bool
    requires { k < 8 }
    ensures { result ≡ bit byte k }
{
    (byte >> k) % 2 == 1
}

/// A byte with bit `k`, 0 to 7, set.
pub(crate) fn with_bit(byte: u8, k: u8) -> u8
    requires { k < 8 }
    ensures { result ≡ with_bit byte k }
{
    byte | 1 << k
}

/// A word without bit `k`; 0 where it has no such bit.
#[tactic(auto, using(std::proofs::lemmas::Nat::and_le_l, crate::proofs::WithoutBits::without_bit_past))]
pub(crate) fn without_bit(word: u32, k: u8) -> u32
    ensures value { result ≡ without_bit word k }
    ensures no_greater { result ≤ word }
{
    if k < 32 {
        word & (u32::MAX - (1 << k))
    } else {
        0
    }
}

/// A byte with bit `k`, 0 to 7, cleared.
pub(crate) fn byte_without_bit(byte: u8, k: u8) -> u8
    requires { k < 8 }
    ensures { result ≡ without_bit byte k }
{
    without_bit(u32::from(byte), k) as u8
}
