//! Where an instruction issues, and how long it takes. Sides are those of the i960 CA/CF User's
//! Manual, instruction scheduling; the numbers of turns are this project's own.
ghost use Rattle.std.specs.Prelude.{◌≡◌, ◌≤◌};
ghost use Rattle.i9_isa.specs.Costs.{issue_side, latency_of};

use crate::format::Format;
use crate::inst::{Inst, Side};
use crate::op::Op;
use crate::table::row;

/// The side of the processor on which the instruction issues.
pub fn side_of(i: &Inst) -> Side
    ensures { result ≡ issue_side i.now }
{
    match row(i.op).format {
        Format::Reg => Side::Reg,
        Format::Cobr | Format::Ctrl => Side::Ctl,
        Format::Mem => match i.op {
            Op::Bx | Op::Balx | Op::Callx => Side::Ctl,
            _ => Side::Mem,
        },
    }
}

/// How many turns pass from issue to result, by the name alone. Frames that are moved and waits of
/// memory add to them.
pub fn latency(i: &Inst) -> u64
    ensures turns { result ≡ latency_of i.now.op }
    ensures few { result ≤ 37 }
{
    match i.op {
        Op::Mulo | Op::Muli | Op::Emul => 5,
        Op::Divo | Op::Divi | Op::Remo | Op::Remi | Op::Modi | Op::Ediv => 37,
        Op::Call | Op::Callx | Op::Calls | Op::Ret => 4,
        Op::Sysctl | Op::Sdma => 8,
        Op::Atadd | Op::Atmod => 2,
        _ => 1,
    }
}
