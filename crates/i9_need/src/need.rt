//! The needs of an instruction, of a refused word, of an event and of an entry. Which instructions are
//! barriers, and the turns that records take, are this project's own, after the i960 CA/CF User's
//! Manual, instruction execution in parallel.

ghost use Rattle.std.specs.Prelude.{◌≡◌, ◌≤◌, ◌&&◌, ◌||◌, if◌then◌else◌, None};
ghost use Rattle.std.specs.Option.{is_some};
ghost use Rattle.i9_isa.specs.declared.inst.Inst.{Inst};
ghost use Rattle.i9_isa.specs.Valid.{IsValid};
ghost use Rattle.i9_model.specs.Needs.{blank_need, is_store_name, is_calm, inst_need, refused_need, event_need};
ghost use Rattle.i9_model.specs.Needs.{entry_need};
ghost use Rattle.i9_need.specs.Known.{AreFacts};
ghost use Rattle.i9_need.specs.Fixed.{fixed_need, AreFactsBy, calm_turns};

use crate::fixed::{FixedNeed, fixed_need};
use i9_isa::{FRAME_POINTER, Inst, LOCALS, Side};
use i9_model::{Facts, Need};

/// The local registers and the frame pointer, as a set of resources.
const FRAME: u64 = ((1 << LOCALS) - 1) | (1 << FRAME_POINTER);

/// Whether it neither faults, but by its result or by a trace, nor meets a hazard.
fn is_calm(f: &Facts) -> bool
    ensures { result ≡ is_calm f.now }
{
    !(f.fault || f.hazard)
}

/// The address and number of bytes of a store.
#[tactic(auto, using(crate::proofs::Unchanging::store_known))]
fn stored(fixed: &FixedNeed, f: &Facts) -> Option<(u32, u32)>
    requires { AreFactsBy fixed.now f.now }
    ensures value { result ≡ (if fixed.now.store && is_calm f.now then f.now.access else None) }
    ensures known { is_some result ≡ (fixed.now.store && is_calm f.now) }
{
    if fixed.store && is_calm(f) {
        f.access
    } else {
        None
    }
}

/// Whether the instruction passes nothing, and nothing passes it.
fn stands_apart(fixed: &FixedNeed, f: &Facts) -> bool
    ensures { result ≡ (fixed.now.barrier || f.now.port || f.now.fault || f.now.trace || f.now.hazard) }
{
    fixed.barrier || f.port || f.fault || f.trace || f.hazard
}

/// The turns of a calm instruction: those of its name, its waits, and 16 for each frame that it moves.
#[tactic(auto, using(crate::proofs::Costs::few_turns_by))]
fn calm_cost(fixed: &FixedNeed, f: &Facts) -> u64
    requires { AreFactsBy fixed.now f.now }
    ensures cost { result ≡ calm_turns fixed.now f.now }
    ensures bound { result ≤ 248 }
{
    let waits = if fixed.access { f.waits } else { 0 };
    let frames = if fixed.frames { f.frames } else { 0 };
    fixed.latency + waits + 16 * u64::from(frames)
}

/// The turns of an instruction: of one that is not calm, one.
fn cost(fixed: &FixedNeed, f: &Facts) -> u64
    requires { AreFactsBy fixed.now f.now }
    ensures cost { result ≡ (if is_calm f.now then calm_turns fixed.now f.now else 1) }
    ensures bound { result ≤ 248 }
{
    if is_calm(f) { calm_cost(fixed, f) } else { 1 }
}

/// The need of an instruction that has this fixed need, and of which these facts are known. One that
/// faults, but by its result or by a trace, or that meets a hazard is no request and takes one turn; it
/// keeps its resources.
// Each step asks for it, of facts that its caller has just made.
#[inline(always)]
pub fn need_by(fixed: &FixedNeed, f: &Facts) -> Need
    requires { AreFactsBy fixed.now f.now }
    ensures need { (i : Inst) → fixed.now ≡ fixed_need i → result ≡ inst_need i f.now }
    ensures store { is_some result.store ≡ (fixed.now.store && is_calm f.now) }
    ensures cost { result.cost ≤ 248 }
{
    Need {
        side: fixed.side,
        reads: fixed.reads,
        writes: fixed.writes,
        request: fixed.request && is_calm(f),
        store: stored(fixed, f),
        slow: fixed.slow,
        barrier: stands_apart(fixed, f),
        alone: f.alone,
        cost: cost(fixed, f),
        code: (f.ip, fixed.length),
        not_before: 0,
    }
}

/// The need of an instruction of which these facts are known.
pub fn inst_need(i: &Inst, f: &Facts) -> Need
    requires valid { IsValid i.now }
    requires facts { AreFacts i.now f.now }
    ensures need { result ≡ inst_need i.now f.now }
    ensures store { is_some result.store ≡ (is_store_name i.now.op && is_calm f.now) }
    ensures cost { result.cost ≤ 248 }
{
    need_by(&fixed_need(i), f)
}

/// The need of what does nothing but wait for all before it.
fn blank_need() -> Need
    ensures { result ≡ blank_need }
{
    Need {
        side: Side::Ctl,
        reads: 0,
        writes: 0,
        request: false,
        store: None,
        slow: false,
        barrier: true,
        alone: false,
        cost: 1,
        code: (0, 0),
        not_before: 0,
    }
}

/// The need of a refused word at `ip`, and of a fetch there that meets a hazard.
pub fn refused_need(ip: u32) -> Need
    ensures { result ≡ refused_need ip }
{
    Need {
        code: (ip, 4),
        ..blank_need()
    }
}

/// The need of an event, which may move a unit of a channel, and which does not issue below a turn.
pub fn event_need(moves: bool, not_before: u64) -> Need
    ensures { result ≡ event_need moves not_before }
{
    Need {
        cost: if moves { 4 } else { 1 },
        not_before,
        ..blank_need()
    }
}

/// The need of the entry of a fault or of an interrupt, which spills a frame or none.
#[tactic(auto, using(crate::proofs::Sets::frame_set))]
pub fn entry_need(frames: u8) -> Need
    requires { frames ≤ 1 }
    ensures { result ≡ entry_need frames }
{
    Need {
        writes: FRAME,
        cost: 8 + 16 * u64::from(frames),
        ..blank_need()
    }
}
