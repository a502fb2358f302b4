//! The bytes that stand under what an effect stores at once.
ghost use Rattle.std.specs.Prelude.{◌≡◌, ◌+◌, ◌<◌, ◌≤◌, ◌++◌, ◌∷◌, [], nat_lt, if◌then◌else◌, length, map, reverse};
ghost use Rattle.std.specs.Prelude.{true, false};
ghost use Rattle.i9_model.specs.Frames.{places};
ghost use Rattle.i9_model.specs.Step.{Action};
ghost use Rattle.i9_model.specs.HeldFrames.{AreWhole};
ghost use Rattle.i9_model.specs.declared.layout.TheConstants.{FRAME_SIZE};
ghost use Rattle.i9_course.specs.Course.{move_writes, all_writes, oldest_writes, puts_of};
ghost use Rattle.i9_processor.specs.Effect.{action_in, move_in, run_in, one_in, requests_in, writes_in};
ghost use Rattle.i9_processor.specs.State.{state_of, cache_of, size_of, bytes_of};
ghost use Rattle.i9_pipeline.specs.Raw.{stood, Hides, shades_need};
ghost use Rattle.i9_pipeline.specs.Adding.{under, Adds};

use arrayvec::ArrayVec;
use i9_frames::Frame;
use i9_model::Need;
use i9_model::layout::FRAME_SIZE;
use i9_processor::{Effect, Move, Processor};
use i9_shade::Shade;

/// The bytes from an address up, as memory has them.
#[tactic(auto, using(crate::proofs::Pieces::bytes_rules))]
fn bytes_at(p: &Processor, a: u32, n: u32) -> ArrayVec<u8, 64>
    requires { n ≤ 64 }
    ensures bytes { result.items ≡ map (bytes_of p.now) (places a n) }
    ensures count { length result.items ≡ n }
{
    let mut bytes = ArrayVec::new();
    for k in 0..n {
        bytes.push(p.acted_byte(a.wrapping_add(k)));
    }
    bytes
}

/// Keeps the bytes from an address up.
fn keep(p: &Processor, a: u32, n: u32, shade: &mut Shade)
    requires some { 0 < n }
    requires fits { n ≤ 64 }
    requires few { length shade.old.pieces < 18 }
    ensures pieces { shade.new.pieces ≡ shade.old.pieces ++ stood (bytes_of p.now) a n ∷ [] }
    ensures due { shade.new.due ≡ shade.old.due }
{
    shade.keep(a, bytes_at(p, a, n).as_slice());
}

/// Keeps the bytes under the frame that is held with `k` younger ones.
fn keep_frame(p: &Processor, f: &Frame, shade: &mut Shade)
    requires few { length shade.old.pieces < 18 }
    ensures pieces { shade.new.pieces ≡ shade.old.pieces ++ stood (bytes_of p.now) f.now.address FRAME_SIZE ∷ [] }
    ensures due { shade.new.due ≡ shade.old.due }
{
    keep(p, f.address, FRAME_SIZE, shade);
}

/// Keeps the bytes under all frames that are held.
fn keep_held(p: &Processor, shade: &mut Shade)
    requires empty { shade.old.pieces ≡ [] }
    ensures pieces { shade.new.pieces ≡ under (bytes_of p.now) (reverse (cache_of p.now).held) }
    ensures few { length (cache_of p.now).held ≤ 15 }
    ensures due { shade.new.due ≡ shade.old.due }
{
    let sets = p.sets();
    let _ = sets.size();
    for k in 0..sets.len() {
        if let Some(f) = sets.at(k) {
            keep_frame(p, f, shade);
        }
    }
}

/// Keeps the bytes under the oldest frame that is held, where all sets are taken.
fn keep_oldest(p: &Processor, shade: &mut Shade)
    requires empty { shade.old.pieces ≡ [] }
    requires whole { AreWhole (cache_of p.now).held }
    ensures adds { Adds (bytes_of p.now)
        (if nat_lt (length (cache_of p.now).held) (size_of p.now) then [] else oldest_writes (cache_of p.now).behind
        (cache_of p.now).held)
        1 [] shade.new.pieces }
    ensures due { shade.new.due ≡ shade.old.due }
{
    let sets = p.sets();
    let held = sets.len();
    if held < sets.size() {
        return;
    }
    if let Some(f) = sets.at(held - 1) {
        keep_frame(p, f, shade);
    }
}

/// Keeps the bytes under what goes to memory where frames are moved.
fn keep_moved(p: &Processor, m: &Move, shade: &mut Shade)
    requires empty { shade.old.pieces ≡ [] }
    requires whole { AreWhole (cache_of p.now).held }
    ensures adds { Adds (bytes_of p.now)
        (move_writes (size_of p.now) (cache_of p.now) (move_in (state_of p.now) m.now)) 15 [] shade.new.pieces }
    ensures due { shade.new.due ≡ shade.old.due }
{
    match m {
        Move::Stays => {}
        Move::Saves { .. } => keep_oldest(p, shade),
        Move::Returns(_) => {}
        Move::Flushes => keep_held(p, shade),
    }
}

/// Keeps the bytes under those in a row of an effect.
fn keep_run(p: &Processor, e: &Effect, shade: &mut Shade)
    requires few { length shade.old.pieces < 18 }
    ensures adds { Adds (bytes_of p.now) (run_in e.now) 1 shade.old.pieces shade.new.pieces }
    ensures due { shade.new.due ≡ shade.old.due }
{
    if !e.bytes.is_empty() {
        keep(p, e.address, e.bytes.len() as u32, shade);
    }
}

/// Keeps the byte under one that is stored at an address, where one is.
fn keep_one(p: &Processor, byte: Option<(u32, u8)>, shade: &mut Shade)
    requires few { length shade.old.pieces < 18 }
    ensures adds { Adds (bytes_of p.now) (one_in byte) 1 shade.old.pieces shade.new.pieces }
    ensures due { shade.new.due ≡ shade.old.due }
{
    match byte {
        Some((address, _)) => keep(p, address, 1, shade),
        None => {}
    }
}

/// Keeps the bytes under all that an effect stores.
fn keep_stored(p: &Processor, e: &Effect, shade: &mut Shade)
    requires few { length shade.old.pieces ≤ 15 }
    ensures adds { Adds (bytes_of p.now) (writes_in e.now) 3 shade.old.pieces shade.new.pieces }
    ensures due { shade.new.due ≡ shade.old.due }
{
    keep_run(p, e, shade);
    keep_one(p, e.requests.first, shade);
    keep_one(p, e.requests.second, shade);
}

/// Keeps in an empty shade the bytes that stand in memory under all that an effect brings there at once: what
/// it stores, and the frames that a spill or a flush writes.
fn keep_all(p: &Processor, e: &Effect, shade: &mut Shade)
    requires empty { shade.old.pieces ≡ [] }
    requires whole { AreWhole (cache_of p.now).held }
    ensures hides { Hides (bytes_of p.now)
        (puts_of (size_of p.now) (cache_of p.now) (action_in (state_of p.now) e.now)) shade.new.pieces }
    ensures due { shade.new.due ≡ shade.old.due }
{
    keep_moved(p, &e.frames, shade);
    keep_stored(p, e, shade);
}

/// Keeps until a turn, in place of what was kept, the bytes that stand in memory under all that an effect brings
/// there at once.
// Few records hide anything, and this is no part of their code.
#[inline(never)]
fn hide_all(p: &Processor, e: &Effect, done: u64, shade: &mut Shade)
    requires whole { AreWhole (cache_of p.now).held }
    ensures hides { Hides (bytes_of p.now)
        (puts_of (size_of p.now) (cache_of p.now) (action_in (state_of p.now) e.now)) shade.new.pieces }
    ensures due { shade.new.due ≡ done }
{
    shade.due(0);
    shade.land(0);
    keep_all(p, e, shade);
    shade.due(done);
}

/// Where a need is that of a barrier that is no request, keeps until a turn, in place of what was kept, the
/// bytes that stand in memory under all that an effect brings there at once: what it stores, and the frames
/// that a spill or a flush writes. Else what is kept stays.
// Each step asks for it, and most are no barriers.
#[inline(always)]
pub fn hide(p: &Processor, e: &Effect, need: &Need, done: u64, shade: &mut Shade)
    requires whole { AreWhole (cache_of p.now).held }
    ensures bytes { shades_need need.now ≡ true → Hides (bytes_of p.now)
        (puts_of (size_of p.now) (cache_of p.now) (action_in (state_of p.now) e.now)) shade.new.pieces }
    ensures due { shades_need need.now ≡ true → shade.new.due ≡ done }
    ensures keeps { shades_need need.now ≡ false → shade.new ≡ shade.old }
{
    if need.barrier && !need.request {
        hide_all(p, e, done, shade);
    }
}
