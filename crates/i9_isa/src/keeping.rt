//! Which instructions keep marks of stale values, and need none of their sources to be known.
ghost use Rattle.std.specs.Prelude.{◌≡◌};
ghost use Rattle.i9_isa.specs.Keeping.{keeps_marks};

use crate::inst::Inst;
use crate::op::Op;

/// Whether a mark of a source goes with the result to the destination, and decides nothing: logic, single bits,
/// shifts and fields, sums and products without overflow, moves, and `lda`. This is this project's own.
fn keeps(op: Op) -> bool
    ensures { result ≡ keeps_marks op }
{
    match op {
        Op::And | Op::Andnot | Op::Notand | Op::Xor | Op::Or | Op::Nor => true,
        Op::Xnor | Op::Not | Op::Ornot | Op::Notor | Op::Nand => true,
        Op::Setbit | Op::Clrbit | Op::Notbit | Op::Alterbit => true,
        Op::Addo | Op::Subo | Op::Mulo | Op::Emul => true,
        Op::Shro | Op::Shlo | Op::Shri | Op::Shrdi | Op::Rotate => true,
        Op::Modify | Op::Extract => true,
        Op::Mov | Op::Movl | Op::Movt | Op::Movq | Op::Lda => true,
        _ => false,
    }
}

/// Whether the instruction keeps marks, by its name.
pub fn keeps_marks(i: &Inst) -> bool
    ensures { result ≡ keeps_marks i.now.op }
{
    keeps(i.op)
}
