//! Which instructions a block may have.
ghost use Rattle.std.specs.Prelude.{◌≡◌};
ghost use Rattle.i9_model.specs.Faults.{is_special};
ghost use Rattle.i9_tune.specs.Blocks.{is_register_format, is_lda, is_relative, is_allowed_name, is_allowed};

use i9_exec::has_result;
use i9_isa::{Format, Inst, Mode, Op, Operand, row, transfer};

/// Whether it is the register format.
fn is_register_format(format: Format) -> bool
    ensures { result ≡ is_register_format format }
{
    matches!(format, Format::Reg)
}

/// Whether it is `lda`.
fn is_lda(op: Op) -> bool
    ensures { result ≡ is_lda op }
{
    matches!(op, Op::Lda)
}

/// Whether a block may have the name.
fn is_allowed_name(op: Op) -> bool
    ensures { result ≡ is_allowed_name op }
{
    (is_register_format(row(op).format) && has_result(op)) || is_lda(op) || transfer(op).is_some()
}

/// Whether it is a special function register.
fn is_special(operand: Operand) -> bool
    ensures { result ≡ is_special operand }
{
    matches!(operand, Operand::Sfr(_))
}

/// Whether the address is relative to that of the instruction.
fn is_relative(mode: Mode) -> bool
    ensures { result ≡ is_relative mode }
{
    matches!(mode, Mode::Ip)
}

/// Whether a block may have the instruction: one of the register format that has a result, `lda`, a load or a
/// store, with no special function register, and not relative to its own address.
pub fn allowed(i: &Inst) -> bool
    ensures { result ≡ is_allowed i.now }
{
    let special = is_special(i.a) || is_special(i.b) || is_special(i.c);
    is_allowed_name(i.op) && !special && !is_relative(i.ea.mode)
}
