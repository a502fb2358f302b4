//! Faults that come before an instruction does anything.
ghost use Rattle.std.specs.Prelude.{◌≡◌};
ghost use Rattle.i9_isa.specs.Valid.{IsValid};
ghost use Rattle.i9_model.specs.Faults.{alignment, is_invalid, is_message, is_past_table, is_special};
ghost use Rattle.i9_model.specs.Faults.{is_supervisor_only, is_unaligned, mismatches, raised, uses_special};

use i9_calls::in_supervisor_mode;
use i9_isa::{Inst, Op, Operand};
use i9_model::faults::{INVALID_OPERAND, LENGTH, MISMATCH, OPERATION, PROTECTION, TYPE, UNALIGNED};
use i9_model::layout::MOST_SYSTEM_CALL;

/// The bit of the fault configuration that masks the fault of an access that is not aligned.
const UNALIGNED_MASK: u32 = 30;

/// The message of sysctl that loads a control group, which is the greatest.
const LOAD_GROUP: u32 = 4;

/// How many control groups there are.
const GROUPS: u32 = 7;

/// How many DMA channels there are.
const CHANNELS: u32 = 4;

/// Whether only supervisor mode may do this with the value `b` of src2.
fn is_supervisor_only(op: Op, b: u32) -> bool
    ensures { result ≡ is_supervisor_only op b }
{
    match op {
        Op::Sysctl | Op::Sdma => true,
        Op::Modpc => b != 0,
        _ => false,
    }
}

/// Whether an operand is a special function register.
fn is_special(operand: Operand) -> bool
    ensures { result ≡ is_special operand }
{
    matches!(operand, Operand::Sfr(_))
}

/// Whether an operand of an instruction is a special function register.
fn uses_special(i: &Inst) -> bool
    ensures { result ≡ uses_special i.now }
{
    is_special(i.a) || is_special(i.b) || is_special(i.c)
}

/// Whether an instruction does in user mode what only supervisor mode may.
fn mismatches(i: &Inst, b: u32, pc: u32) -> bool
    ensures { result ≡ mismatches i.now b pc }
{
    !in_supervisor_mode(pc) && (is_supervisor_only(i.op, b) || uses_special(i))
}

/// Whether sysctl has the message of this word.
fn is_message(a: u32) -> bool
    ensures { result ≡ is_message a }
{
    let message = (a >> 8) % 256;
    message < LOAD_GROUP || message == LOAD_GROUP && a % 256 < GROUPS
}

/// Whether the value `a` of src1 is a message or a DMA channel that there is not.
fn is_invalid(op: Op, a: u32) -> bool
    ensures { result ≡ is_invalid op a }
{
    match op {
        Op::Sysctl => !is_message(a),
        Op::Sdma => a >= CHANNELS,
        _ => false,
    }
}

/// Whether the value `a` of src1 is past the end of the system procedure table.
fn is_past_table(op: Op, a: u32) -> bool
    ensures { result ≡ is_past_table op a }
{
    op == Op::Calls && a > MOST_SYSTEM_CALL
}

/// What the address of an access of `n` bytes is to be a multiple of.
fn alignment(n: u32) -> u32
    ensures { result ≡ alignment n }
{
    match n {
        2 | 4 | 8 => n,
        12 | 16 => 16,
        _ => 1,
    }
}

/// Whether an access, of an address and a number of bytes, faults since it is unaligned, which bit 30 of the fault
/// configuration masks.
#[inline(always)]
pub fn is_unaligned(access: Option<(u32, u32)>, config: u32) -> bool
    ensures { result ≡ is_unaligned access config }
{
    match access {
        None => false,
        // The mask comes first: most firmware sets it, and then nothing is divided.
        Some((address, n)) => (config >> UNALIGNED_MASK) % 2 == 0 && address % alignment(n) != 0,
    }
}

/// The first fault, as type and subtype, that an instruction raises before it does anything: type
/// mismatch, invalid operand, protection length, unaligned access, in this order (i960 CA/CF User's
/// Manual, faults; the order, and what the faults of sysctl and sdma are, is this project's own).
/// `a` and `b` are the values of src1 and src2, `access` is the address and the number of bytes of
/// its data access where it has one, `pc` is the process controls, and bit 30 of the fault
/// configuration `config` masks the fault of an unaligned access.
#[tactic(auto, unfolding(i9_model::specs::Faults::raised))]
pub fn raises(
    i: &Inst,
    a: u32,
    b: u32,
    access: Option<(u32, u32)>,
    pc: u32,
    config: u32,
) -> Option<(u8, u16)>
    requires { IsValid i.now }
    ensures { result ≡ raised i.now a b access pc config }
{
    if mismatches(i, b, pc) {
        Some((TYPE, MISMATCH))
    } else if is_invalid(i.op, a) {
        Some((OPERATION, INVALID_OPERAND))
    } else if is_past_table(i.op, a) {
        Some((PROTECTION, LENGTH))
    } else if is_unaligned(access, config) {
        Some((OPERATION, UNALIGNED))
    } else {
        None
    }
}
