//! Branches, and instructions that fault on a condition.
ghost use Rattle.std.specs.Prelude.{◌≡◌};
ghost use Rattle.i9_model.specs.Branches.{branch_controls, code_after, is_taken, question_of, says_yes};

use crate::compare::{bit_in, code_where, compare, holds, signed_compare};
use crate::done::with_code;
use i9_isa::{Inst, Op};

/// What a branch does.
#[derive(Clone, Copy, Debug, PartialEq, Eq)]
pub struct Jump {
    /// The arithmetic controls afterwards.
    pub ac: u32,
    /// Whether a branch goes to its target, and whether a fault instruction raises its fault.
    pub taken: bool,
}

/// The condition code afterwards, and whether the branch is taken.
fn outcome(op: Op, a: u32, b: u32, code: u32) -> (u32, bool)
    ensures code { result.0 ≡ code_after (question_of op) a b code }
    ensures taken { result.1 ≡ says_yes (question_of op) a b code }
{
    let bit = bit_in(b, a);
    let ordinal = compare(a, b);
    let integer = signed_compare(a, b);
    match op {
        Op::B | Op::Bal => (code, true),
        Op::Bno | Op::Faultno => (code, holds(0, code)),
        Op::Bg | Op::Faultg => (code, holds(1, code)),
        Op::Be | Op::Faulte => (code, holds(2, code)),
        Op::Bge | Op::Faultge => (code, holds(3, code)),
        Op::Bl | Op::Faultl => (code, holds(4, code)),
        Op::Bne | Op::Faultne => (code, holds(5, code)),
        Op::Ble | Op::Faultle => (code, holds(6, code)),
        Op::Bo | Op::Faulto => (code, holds(7, code)),
        Op::Bbc => (code_where(bit), !bit),
        Op::Bbs => (code_where(bit), bit),
        Op::Cmpobg => (ordinal, holds(1, ordinal)),
        Op::Cmpobe => (ordinal, holds(2, ordinal)),
        Op::Cmpobge => (ordinal, holds(3, ordinal)),
        Op::Cmpobl => (ordinal, holds(4, ordinal)),
        Op::Cmpobne => (ordinal, holds(5, ordinal)),
        Op::Cmpoble => (ordinal, holds(6, ordinal)),
        Op::Cmpibno => (integer, holds(0, integer)),
        Op::Cmpibg => (integer, holds(1, integer)),
        Op::Cmpibe => (integer, holds(2, integer)),
        Op::Cmpibge => (integer, holds(3, integer)),
        Op::Cmpibl => (integer, holds(4, integer)),
        Op::Cmpibne => (integer, holds(5, integer)),
        Op::Cmpible => (integer, holds(6, integer)),
        Op::Cmpibo => (integer, holds(7, integer)),
        _ => (code, false),
    }
}

/// What a branch or a fault instruction does with the values `a` of src1 and `b` of src2 and the arithmetic
/// controls `ac` (i960 CA/CF User's Manual, instruction set; that bbc and bbs set the condition code is this
/// project's own). A branch without a condition is always taken. For a name that is neither, as `call`, `ret`
/// and the tests, nothing is taken and the controls stay.
pub fn branch(i: &Inst, a: u32, b: u32, ac: u32) -> Jump
    ensures ac { result.ac ≡ branch_controls i.now a b ac }
    ensures taken { result.taken ≡ is_taken i.now a b ac }
{
    let (code, taken) = outcome(i.op, a, b, ac % 8);
    Jump {
        ac: with_code(ac, code),
        taken,
    }
}
