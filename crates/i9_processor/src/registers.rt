//! The registers and the condition code, and what they are set to.
ghost use Rattle.std.specs.Prelude.{◌≡◌, ◌+◌, ◌%◌, ◌<◌, ◌≤◌, length};
ghost use Rattle.i9_model.specs.Writes.{put, written, pairs_at};
ghost use Rattle.i9_model.specs.State.{frame_sets};
ghost use Rattle.i9_regs.specs.declared.file.File.{File};
ghost use Rattle.i9_regs.specs.File.{cell_in, still};
ghost use Rattle.i9_processor.specs.State.{registers_of, arithmetic_of};
ghost use Rattle.i9_processor.specs.Issued.{AreCovered, IsCodeCovered, IsIssued, AreStill, KeepsCode};

use crate::landing::Landing;
use i9_isa::CONDITION_CODE;
use i9_model::layout::{FP, LOCALS};
use i9_regs::File;

/// Sets a register.
fn set(file: &mut File, r: u8, v: u32)
    requires { r < 32 }
    ensures registers { registers_of file.new ≡ put (registers_of file.old) r v }
    ensures keeps { KeepsCode file.old file.new }
{
    file.set(r, v);
}

/// Sets registers from one up.
#[tactic(auto, using(crate::proofs::RegisterList::group_rules))]
pub(crate) fn set_group(file: &mut File, r: u8, words: &[u32])
    requires { r + length words.now ≤ 32 }
    ensures registers { registers_of file.new ≡ written (registers_of file.old) (pairs_at (λ k. k) r words.now) }
    ensures keeps { KeepsCode file.old file.new }
{
    for k in 0..words.len() {
        set(file, r + k as u8, words[k]);
    }
}

/// Sets the locals and fp of a frame.
#[tactic(auto, using(crate::proofs::RegisterList::frame_written))]
pub(crate) fn set_frame(file: &mut File, locals: &[u32; LOCALS], frame: u32)
    ensures registers { registers_of file.new ≡ written (registers_of file.old) (frame_sets locals.now frame) }
    ensures keeps { KeepsCode file.old file.new }
{
    set_group(file, 0, locals);
    set(file, FP, frame);
}

/// Sets the arithmetic controls.
pub(crate) fn set_arithmetic(file: &mut File, flags: &mut u32, ac: u32)
    ensures registers { registers_of file.new ≡ registers_of file.old }
    ensures ac { arithmetic_of flags.new file.new ≡ ac }
    ensures code { cell_in file.new CONDITION_CODE ≡ still (ac % 8) }
    ensures still { AreStill file.old → AreStill file.new }
{
    *flags = ac - ac % 8;
    file.set(CONDITION_CODE, ac % 8);
}

/// Plans registers from one up and the condition code, and sets the other arithmetic controls.
#[inline(always)]
pub(crate) fn issue_group(
    file: &mut File,
    flags: &mut u32,
    landing: &Landing,
    r: u8,
    words: &[u32],
    ac: u32,
)
    requires range { r + length words.now ≤ 32 }
    requires sets { AreCovered landing.now.writes (pairs_at (λ k. k) r words.now) }
    requires code { IsCodeCovered landing.now.writes (arithmetic_of flags.old file.old) ac }
    ensures registers { registers_of file.new ≡ written (registers_of file.old) (pairs_at (λ k. k) r words.now) }
    ensures ac { arithmetic_of flags.new file.new ≡ ac }
    ensures issued { IsIssued landing.now.writes landing.now.done flags.new file.old file.new }
{
    *flags = ac - ac % 8;
    file.issue(landing.writes, landing.done, r, words, ac % 8);
}

/// Plans the locals and fp of a frame and the condition code, and sets the other arithmetic controls.
// Calls and returns alone enter frames, and this is no part of the code that calls it.
#[inline(never)]
pub(crate) fn issue_frame(
    file: &mut File,
    flags: &mut u32,
    landing: &Landing,
    locals: &[u32; LOCALS],
    frame: u32,
    ac: u32,
)
    requires sets { AreCovered landing.now.writes (frame_sets locals.now frame) }
    requires code { IsCodeCovered landing.now.writes (arithmetic_of flags.old file.old) ac }
    ensures registers { registers_of file.new ≡ written (registers_of file.old) (frame_sets locals.now frame) }
    ensures ac { arithmetic_of flags.new file.new ≡ ac }
    ensures issued { IsIssued landing.now.writes landing.now.done flags.new file.old file.new }
{
    *flags = ac - ac % 8;
    file.issue_frame(landing.writes, landing.done, locals, frame, ac % 8);
}

/// As `issue_frame`, over what the same record has planned.
#[inline(never)]
pub(crate) fn amend_frame(
    file: &mut File,
    flags: &mut u32,
    landing: &Landing,
    locals: &[u32; LOCALS],
    frame: u32,
    ac: u32,
)
    requires sets { AreCovered landing.now.writes (frame_sets locals.now frame) }
    requires code { IsCodeCovered landing.now.writes (arithmetic_of flags.old file.old) ac }
    ensures registers { registers_of file.new ≡ written (registers_of file.old) (frame_sets locals.now frame) }
    ensures ac { arithmetic_of flags.new file.new ≡ ac }
    ensures issued { (cells : File) → IsIssued landing.now.writes landing.now.done flags.old cells file.old
        → IsIssued landing.now.writes landing.now.done flags.new cells file.new }
{
    *flags = ac - ac % 8;
    file.amend_frame(landing.writes, landing.done, locals, frame, ac % 8);
}
