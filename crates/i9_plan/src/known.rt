//! What is known of an instruction beside its fields.
ghost use Rattle.std.specs.Prelude.{◌≡◌, ◌<◌, ◌≤◌, true};
ghost use Rattle.i9_model.specs.Memory.{region_of};
ghost use Rattle.i9_model.specs.Access.{access_of, data_of};
ghost use Rattle.i9_course.specs.NeedOf.{touches_port, access_waits, stands_alone, facts_of};
ghost use Rattle.i9_need.specs.Known.{AreFacts, moves_a_frame};
ghost use Rattle.i9_processor.specs.State.{state_of};
ghost use Rattle.i9_plan.specs.Kept.{inst_in, Locates};
ghost use Rattle.i9_plan.specs.Plain.{plain_facts};
ghost use Rattle.i9_plan.specs.Moved.{Moves};

use crate::decode_cache::DecodeCache;
use crate::raised::data_access;
use crate::sources::atomic_address;
use crate::tracing::is_traced;
use crate::transfers::Moving;
use crate::words::bit;
use i9_isa::{Direction, Inst, Op};
use i9_model::Facts;
use i9_model::layout::PRECISE_FAULTS_PLACE;
use i9_processor::Processor;
use i9_watch::Watch;

/// Whether a data access has a byte in the port page.
pub(crate) fn touches_port(access: Option<(u32, u32)>) -> bool
    ensures { result ≡ touches_port access }
{
    match access {
        None => false,
        Some((address, n)) => Watch::touches_port(address, n).is_some(),
    }
}

/// The region of an address.
fn region_of(a: u32) -> u8
    ensures value { result ≡ region_of a }
    ensures few { result < 16 }
{
    (a >> 28) as u8
}

/// The wait states of an instruction's data access, to read and to write together for an atomic one.
#[inline(always)]
fn access_waits(p: &Processor, i: &Inst, moving: Option<Moving>) -> u64
    requires { Moves (state_of p.now) i.now moving }
    ensures { result ≡ access_waits (state_of p.now).memory (access_of i.now (state_of p.now)) }
{
    if let Some(m) = moving {
        let writes = m.transfer.direction == Direction::Store;
        return p.waits(region_of(m.address), writes);
    }
    match i.op {
        Op::Atadd | Op::Atmod => {
            let region = region_of(atomic_address(p, i));
            p.waits(region, false) + p.waits(region, true)
        }
        _ => 0,
    }
}

/// Whether bit 15 of AC or trace enable is set, so that an instruction passes nothing.
pub(crate) fn stands_alone(p: &Processor) -> bool
    ensures { result ≡ stands_alone (state_of p.now) }
{
    bit(p.ac(), PRECISE_FAULTS_PLACE) || is_traced(p)
}

/// The data access of an instruction, and the wait states of it.
#[inline(always)]
fn access_and_waits(p: &Processor, i: &Inst, moving: Option<Moving>) -> (Option<(u32, u32)>, u64)
    requires { Moves (state_of p.now) i.now moving }
    ensures access { result.0 ≡ data_of (access_of i.now (state_of p.now)) }
    ensures waits { result.1 ≡ access_waits (state_of p.now).memory (access_of i.now (state_of p.now)) }
{
    (data_access(p, i, moving), access_waits(p, i, moving))
}

/// The data access of the instruction in the decode cache, and the wait states of it. Most have none.
#[inline(always)]
#[tactic(auto, using(crate::proofs::KnownFacts::no_access_rules))]
fn accessed(p: &Processor, decodes: &DecodeCache) -> (Option<(u32, u32)>, u64)
    requires { Locates (state_of p.now) decodes.now }
    ensures access { result.0 ≡ data_of (access_of (inst_in decodes.now) (state_of p.now)) }
    ensures waits { result.1 ≡ access_waits (state_of p.now).memory (access_of (inst_in decodes.now) (state_of p.now)) }
{
    if !decodes.need().access {
        return (None, 0);
    }
    access_and_waits(p, decodes.inst(), decodes.moving())
}

/// What is known of the instruction in the decode cache, which meets no hazard, with the number of frames that it
/// moves, whether it raises another fault than an arithmetic or a trace fault, and whether it raises a trace
/// fault.
// Each step asks for it, for its need alone.
#[inline(always)]
pub fn facts(p: &Processor, decodes: &DecodeCache, frames: u8, fault: bool, trace: bool) -> Facts
    requires { Locates (state_of p.now) decodes.now }
    ensures facts { result ≡ facts_of (inst_in decodes.now) (state_of p.now) frames fault trace }
    ensures known { frames ≤ 15 → (moves_a_frame (inst_in decodes.now).op ≡ true → frames ≤ 1)
        → AreFacts (inst_in decodes.now) result }
{
    let (access, waits) = accessed(p, decodes);
    Facts {
        ip: p.ip(),
        access,
        port: touches_port(access),
        waits,
        frames,
        fault,
        trace,
        hazard: false,
        alone: stands_alone(p),
    }
}

/// What is known of an instruction without a data access that meets no hazard, moves no frame, raises no fault, and
/// does not stand alone.
#[inline(always)]
pub(crate) fn plain_facts(p: &Processor) -> Facts
    ensures { result ≡ plain_facts (state_of p.now).ip }
{
    Facts {
        ip: p.ip(),
        access: None,
        port: false,
        waits: 0,
        frames: 0,
        fault: false,
        trace: false,
        hazard: false,
        alone: false,
    }
}
