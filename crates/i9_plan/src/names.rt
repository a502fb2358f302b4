//! Which operands are special function registers, and which names do what.
ghost use Rattle.std.specs.Prelude.{◌≡◌};
ghost use Rattle.i9_model.specs.Needs.{is_barrier_name};
ghost use Rattle.i9_model.specs.Standing.{is_fault_name};
ghost use Rattle.i9_model.specs.Faults.{is_special, uses_special};
ghost use Rattle.i9_plan.specs.Names.{is_atomic, is_branch, reads_more};

use i9_isa::{Inst, Op, Operand};

/// Whether a name is that of a fault instruction.
pub(crate) fn is_fault_name(op: Op) -> bool
    ensures { result ≡ is_fault_name op }
{
    match op {
        Op::Faultno | Op::Faultg | Op::Faulte | Op::Faultge => true,
        Op::Faultl | Op::Faultne | Op::Faultle | Op::Faulto => true,
        _ => false,
    }
}

/// Whether a name branches, or faults by its condition, and does nothing else.
pub(crate) fn is_branch(op: Op) -> bool
    ensures { result ≡ is_branch op }
{
    match op {
        Op::B | Op::Bno | Op::Bg | Op::Be | Op::Bge | Op::Bl | Op::Bne | Op::Ble => true,
        Op::Bo | Op::Bbc | Op::Bbs | Op::Cmpobg | Op::Cmpobe | Op::Cmpobge => true,
        Op::Cmpobl | Op::Cmpobne | Op::Cmpoble | Op::Cmpibno | Op::Cmpibg | Op::Cmpibe => true,
        Op::Cmpibge | Op::Cmpibl | Op::Cmpibne | Op::Cmpible | Op::Cmpibo => true,
        _ => is_fault_name(op),
    }
}

/// Whether an operand is a special function register.
pub(crate) fn is_special(o: Operand) -> bool
    ensures { result ≡ is_special o }
{
    matches!(o, Operand::Sfr(_))
}

/// Whether an instruction uses special function registers.
pub(crate) fn uses_special(i: &Inst) -> bool
    ensures { result ≡ uses_special i.now }
{
    is_special(i.a) || is_special(i.b) || is_special(i.c)
}

/// Whether a name is that of an atomic instruction.
pub(crate) fn is_atomic(op: Op) -> bool
    ensures { result ≡ is_atomic op }
{
    matches!(op, Op::Atadd | Op::Atmod)
}

/// Whether a name with a result looks at more than one word of src1 and one of src2.
pub(crate) fn reads_more(op: Op) -> bool
    ensures { result ≡ reads_more op }
{
    matches!(
        op,
        Op::Movl | Op::Movt | Op::Movq | Op::Ediv | Op::Modify | Op::Extract
    )
}

/// Whether a name passes nothing, and nothing passes it, whatever its operands are.
pub(crate) fn is_barrier(op: Op) -> bool
    ensures { result ≡ is_barrier_name op }
{
    match op {
        Op::Call | Op::Callx | Op::Calls | Op::Ret | Op::Flushreg | Op::Syncf => true,
        Op::Modac | Op::Modpc | Op::Modtc | Op::Atadd | Op::Atmod => true,
        Op::Sysctl | Op::Sdma => true,
        _ => false,
    }
}
