//! Kinds of instructions by their names.

ghost use Rattle.std.specs.Prelude.{◌≡◌};
ghost use Rattle.i9_model.specs.Needs.{is_request_name, is_store_name, has_access, moves_frames, is_slow_name};
ghost use Rattle.i9_model.specs.Needs.{is_barrier_name};

use i9_isa::{Direction, Op, transfer};

/// A store.
pub(crate) fn is_store(op: Op) -> bool
    ensures { result ≡ is_store_name op }
{
    match transfer(op) {
        Some(t) => t.direction == Direction::Store,
        None => false,
    }
}

/// A load or a store; `lda` is none.
pub(crate) fn is_request(op: Op) -> bool
    ensures { result ≡ is_request_name op }
{
    transfer(op).is_some()
}

/// An atomic, a load or a store.
pub(crate) fn has_access(op: Op) -> bool
    ensures { result ≡ has_access op }
{
    matches!(op, Op::Atadd | Op::Atmod) || is_request(op)
}

/// A name that spills, refills or flushes frames.
pub(crate) fn moves_frames(op: Op) -> bool
    ensures { result ≡ moves_frames op }
{
    match op {
        Op::Call | Op::Callx | Op::Calls | Op::Ret => true,
        Op::Flushreg | Op::Sysctl => true,
        _ => false,
    }
}

/// A multiplication or a division.
pub(crate) fn is_slow(op: Op) -> bool
    ensures { result ≡ is_slow_name op }
{
    match op {
        Op::Mulo | Op::Muli | Op::Emul => true,
        Op::Divo | Op::Divi | Op::Remo | Op::Remi | Op::Modi | Op::Ediv => true,
        _ => false,
    }
}

/// A name that passes nothing, and that nothing passes, whatever its operands are.
pub(crate) fn is_barrier(op: Op) -> bool
    ensures { result ≡ is_barrier_name op }
{
    match op {
        Op::Call | Op::Callx | Op::Calls | Op::Ret | Op::Flushreg | Op::Syncf => true,
        Op::Modac | Op::Modpc | Op::Modtc | Op::Atadd | Op::Atmod => true,
        Op::Sysctl | Op::Sdma => true,
        _ => false,
    }
}
