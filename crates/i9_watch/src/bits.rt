//! Bits of 16-bit sets.
ghost use Rattle.std.specs.Prelude.{◌≡◌, ℕ, Bool, ◌<◌, ◌≤◌, ◌==◌, ◌&&◌, ◌||◌, nat_lt};
ghost use Rattle.i9_isa.specs.Words.{bit};

/// A set with one number more, where this is asked for.
#[tactic(auto, using(crate::proofs::SetBits::bit_set))]
fn with_bit(bits: u16, k: u32, is_set: bool) -> u16
    requires { k < 16 }
    ensures { (j : ℕ) → bit result j ≡ ((is_set && (j == k)) || bit bits j) }
{
    if is_set { bits | 1 << k } else { bits }
}

/// The numbers below `n` that pass a test.
#[tactic(auto, using(crate::proofs::SetBits::no_bits))]
pub(crate) fn bits_where<F: Fn(u32) -> bool>(n: u32, test: F) -> u16
    requires callable { F.IsAlwaysCallable test }
    requires few { n ≤ 16 }
    ensures { (p : ℕ → Bool) → ((x : ℕ) (r : Bool) → F.post test x r → r ≡ p x)
        → (j : ℕ) → bit result j ≡ (nat_lt j n && p j) }
{
    let mut bits = 0;
    for k in 0..n {
        bits = with_bit(bits, k, test(k));
    }
    bits
}
