//! The fault that an instruction raises before it does anything.
ghost use Rattle.std.specs.Prelude.{◌≡◌, ◌&&◌, None, not};
ghost use Rattle.i9_isa.specs.Transfers.{transfer_of};
ghost use Rattle.i9_isa.specs.Valid.{IsValid};
ghost use Rattle.i9_model.specs.Access.{access_of, data_of};
ghost use Rattle.i9_model.specs.Calls.{in_supervisor_mode};
ghost use Rattle.i9_model.specs.Faults.{uses_special};
ghost use Rattle.i9_model.specs.Standing.{word_fault, arithmetic_fault, raised_in};
ghost use Rattle.i9_processor.specs.State.{state_of};
ghost use Rattle.i9_plan.specs.Moved.{IsMove, Moves};

use crate::names::uses_special;
use crate::sources::{atomic_address, value};
use crate::tracing::in_supervisor_mode;
use crate::transfers::Moving;
use i9_decode::BadWord;
use i9_faults::{is_unaligned, raises};
use i9_isa::{Inst, Op};
use i9_model::Arith;
use i9_model::faults::{
    ARITHMETIC, INVALID_OPCODE, INVALID_OPERAND, MISMATCH, OPERATION, OVERFLOW, TYPE, UNALIGNED,
    ZERO_DIVIDE,
};
use i9_processor::Processor;

/// The fault of a word that is refused.
pub(crate) fn word_fault(e: BadWord) -> (u8, u16)
    ensures { result ≡ word_fault e }
{
    match e {
        BadWord::Opcode => (OPERATION, INVALID_OPCODE),
        BadWord::Operand => (OPERATION, INVALID_OPERAND),
    }
}

/// The fault of a result.
pub(crate) fn arithmetic_fault(f: Arith) -> (u8, u16)
    ensures { result ≡ arithmetic_fault f }
{
    match f {
        Arith::Overflow => (ARITHMETIC, OVERFLOW),
        Arith::ZeroDivide => (ARITHMETIC, ZERO_DIVIDE),
    }
}

/// The address and the number of bytes of an instruction's data access, where it has one.
#[inline(always)]
pub(crate) fn data_access(p: &Processor, i: &Inst, moving: Option<Moving>) -> Option<(u32, u32)>
    requires { Moves (state_of p.now) i.now moving }
    ensures { result ≡ data_of (access_of i.now (state_of p.now)) }
{
    if let Some(m) = moving {
        return Some((m.address, m.transfer.size.bytes()));
    }
    match i.op {
        Op::Atadd | Op::Atmod => Some((atomic_address(p, i), 4)),
        _ => None,
    }
}

/// The fault that an instruction raises before it does anything that is no load and no store.
pub(crate) fn raised_in(p: &Processor, i: &Inst) -> Option<(u8, u16)>
    requires valid { IsValid i.now }
    requires still { transfer_of i.now.op ≡ None }
    ensures { result ≡ raised_in i.now (state_of p.now) }
{
    let access = data_access(p, i, None);
    let config = p.tables().fault_config;
    raises(i, value(p, i.a), value(p, i.b), access, p.pc(), config)
}

/// The fault that a load or a store raises before it does anything, whatever its sources are.
pub(crate) fn raised_by_transfer(p: &Processor, i: &Inst, m: Moving) -> Option<(u8, u16)>
    requires valid { IsValid i.now }
    requires moves { IsMove (state_of p.now) i.now m }
    ensures { result ≡ raised_in i.now (state_of p.now) }
{
    if mismatches(p, i) {
        return Some((TYPE, MISMATCH));
    }
    let access = Some((m.address, m.transfer.size.bytes()));
    if is_unaligned(access, p.tables().fault_config) {
        return Some((OPERATION, UNALIGNED));
    }
    None
}

/// Whether an instruction uses special function registers outside supervisor mode.
pub(crate) fn mismatches(p: &Processor, i: &Inst) -> bool
    ensures { result ≡ (not (in_supervisor_mode (state_of p.now).pc) && uses_special i.now) }
{
    !in_supervisor_mode(p.pc()) && uses_special(i)
}
