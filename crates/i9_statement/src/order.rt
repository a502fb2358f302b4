//! Where src/dst stands among the operands.
ghost use Rattle.std.specs.Prelude.{◌≡◌};
ghost use Rattle.i9_statement.specs.Instructions.{comes_first, first_use, last_use};

use i9_isa::{Format, Row, Use};

/// Whether what is stored stands before the address.
pub(crate) fn comes_first(format: Format, used: Use) -> bool
    ensures { result ≡ comes_first format used }
{
    matches!((format, used), (Format::Mem, Use::Store(_)))
}

/// The use of src/dst where it stands before the address.
pub(crate) fn first_use(row: &Row) -> Use
    ensures { result ≡ first_use row.now }
{
    if comes_first(row.format, row.c) {
        row.c
    } else {
        Use::Unused
    }
}

/// The use of src/dst where it is the last operand.
pub(crate) fn last_use(row: &Row) -> Use
    ensures { result ≡ last_use row.now }
{
    if comes_first(row.format, row.c) {
        Use::Unused
    } else {
        row.c
    }
}
