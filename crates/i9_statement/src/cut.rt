//! Cutting a text at the first byte that passes a test, and at brackets.
ghost use Rattle.std.specs.Prelude.{◌≡◌, ℕ, Bool, MatchOption, None, Some};
ghost use Rattle.i9_text.specs.Text.{is_blank};
ghost use Rattle.i9_statement.specs.Cut.{before, from, is_byte, behind, closed};
ghost use Rattle.i9_statement.specs.Values.{is_sign};

/// A text before the first byte that passes a test, and from it on. Where none does, the whole text
/// is before it.
pub fn cut_where<F: Fn(u8) -> bool>(text: &[u8], passes: F) -> (&[u8], &[u8])
    requires { F.IsAlwaysCallable passes }
    ensures { (p : ℕ → Bool) → ((b : ℕ) (r : Bool) → F.post passes b r → r ≡ p b)
        → (result.0.now ≡ before p text.now) × (result.1.now ≡ from p text.now) }
{
    for (place, byte) in text.iter().enumerate() {
        if passes(*byte) {
            return text.split_at(place);
        }
    }
    (text, &[])
}

/// A text before the first byte like this one, and from it on.
pub fn cut_byte(text: &[u8], byte: u8) -> (&[u8], &[u8])
    ensures front { result.0.now ≡ before (is_byte byte) text.now }
    ensures back { result.1.now ≡ from (is_byte byte) text.now }
{
    cut_where(text, |found| found == byte)
}

/// A text before the first sign, and from it on.
pub(crate) fn cut_sign(text: &[u8]) -> (&[u8], &[u8])
    ensures front { result.0.now ≡ before is_sign text.now }
    ensures back { result.1.now ≡ from is_sign text.now }
{
    cut_where(text, |byte| byte == b'-' || byte == b'+')
}

/// A text before the first blank, and from it on.
pub fn cut_blank(text: &[u8]) -> (&[u8], &[u8])
    ensures front { result.0.now ≡ before is_blank text.now }
    ensures back { result.1.now ≡ from is_blank text.now }
{
    cut_where(text, |byte| byte == b' ' || byte == b'\t')
}

/// What stands behind this byte, where the text begins with it.
pub fn behind(text: &[u8], byte: u8) -> Option<&[u8]>
    ensures { MatchOption result (behind byte text.now ≡ None) (λ s. behind byte text.now ≡ Some s.now) }
{
    match text {
        [first, rest @ ..] if *first == byte => Some(rest),
        _ => None,
    }
}

/// What stands before a closing bracket, and behind it.
#[tactic(auto, unfolding(crate::specs::Cut::closed))]
pub fn closed(text: &[u8], bracket: u8) -> Option<(&[u8], &[u8])>
    ensures { MatchOption result (closed bracket text.now ≡ None)
        (λ c. closed bracket text.now ≡ Some (c.0.now, c.1.now)) }
{
    let (inside, rest) = cut_byte(text, bracket);
    match rest {
        [_, after @ ..] => Some((inside, after)),
        [] => None,
    }
}
