//! The marks of registers: bit r of a word is the mark of register r.
ghost use Rattle.std.specs.Prelude.{◌≡◌, ℕ, List, ◌+◌, ◌≤◌, false, length};
ghost use Rattle.i9_isa.specs.Words.{bit};
ghost use Rattle.i9_model.specs.declared.layout.TheConstants.{LOCALS, RIP};
ghost use Rattle.i9_model.specs.Writes.{pairs_at};
ghost use Rattle.i9_model.specs.State.{State, frame_sets};
ghost use Rattle.i9_model.specs.Controls.{marks_after};
ghost use Rattle.i9_model.specs.Stale.{picked, saved_marks};
ghost use Rattle.i9_watch.specs.Bits.{bits_of};

use i9_model::layout::RIP;

/// The registers beside those of a frame, which are the locals and fp.
const BESIDE_FRAME: u32 = 0x7FFF_0000;

/// The marks once `n` registers from `r` up are set, of which the one that many above `r` is marked where that bit of
/// `new` is set.
#[inline(always)]
pub(crate) fn with_group(marks: u32, r: u8, n: usize, new: u16) -> u32
    requires few { n ≤ 4 }
    requires range { r + n ≤ 32 }
    ensures { (words : List ℕ) → length words ≡ n
        → bit result ≡ marks_after (bit marks) (pairs_at (λ k. k) r words) (picked (λ k. k) r (bits_of new n)) }
{
    if marks == 0 && new == 0 {
        return 0;
    }
    let group = (1u64 << n) - 1;
    let set = (u64::from(new) & group) << r;
    let left = u64::from(marks) & !(group << r);
    (left | set) as u32
}

/// The marks once the locals and fp are set, of which local k is marked where bit k of `new` is set.
pub(crate) fn with_frame(marks: u32, new: u16) -> u32
    ensures { (locals : List ℕ) (fp : ℕ) → length locals ≡ LOCALS
        → bit result ≡ marks_after (bit marks) (frame_sets locals fp) (picked (λ k. k) 0 (bits_of new LOCALS)) }
{
    (marks & BESIDE_FRAME) | u32::from(new)
}

/// The marks of the locals as a push saves them: the return address has none.
pub(crate) fn saved(marks: u32) -> u16
    ensures marks { (s : State) → s.marks ≡ bit marks → bits_of result LOCALS ≡ saved_marks s }
    ensures known { bit result RIP ≡ false }
{
    (marks % 0x1_0000) as u16 & !(1 << RIP)
}
