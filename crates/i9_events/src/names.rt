//! Names that trace events come with.
ghost use Rattle.std.specs.Prelude.{◌≡◌, ◌||◌};
ghost use Rattle.i9_model.specs.Tracing.{branches, is_call, is_return, is_mark, is_fmark};

use i9_isa::Op;

/// Whether a name branches: always, or where it is taken.
pub(crate) fn branches(op: Op, taken: bool) -> bool
    ensures { result ≡ branches op taken }
{
    match op {
        Op::B | Op::Bx => true,
        Op::Bno | Op::Bg | Op::Be | Op::Bge | Op::Bl | Op::Bne | Op::Ble | Op::Bo => taken,
        Op::Bbc | Op::Bbs => taken,
        Op::Cmpobg | Op::Cmpobe | Op::Cmpobge | Op::Cmpobl | Op::Cmpobne | Op::Cmpoble => taken,
        Op::Cmpibno | Op::Cmpibg | Op::Cmpibe | Op::Cmpibge => taken,
        Op::Cmpibl | Op::Cmpibne | Op::Cmpible | Op::Cmpibo => taken,
        _ => false,
    }
}

/// Whether a name calls, or branches and links.
pub(crate) fn is_call(op: Op) -> bool
    ensures { result ≡ is_call op }
{
    matches!(op, Op::Bal | Op::Balx | Op::Call | Op::Callx | Op::Calls)
}

/// Whether a name returns.
pub(crate) fn is_return(op: Op) -> bool
    ensures { result ≡ is_return op }
{
    matches!(op, Op::Ret)
}

/// Whether a name marks, or a breakpoint matches.
pub(crate) fn marks(op: Op, matched: bool) -> bool
    ensures { result ≡ (is_mark op || is_fmark op || matched) }
{
    matched || matches!(op, Op::Mark | Op::Fmark)
}

/// Whether a name marks where the mode is clear too, or a breakpoint matches.
pub(crate) fn always_marks(op: Op, matched: bool) -> bool
    ensures { result ≡ (is_fmark op || matched) }
{
    matched || matches!(op, Op::Fmark)
}
