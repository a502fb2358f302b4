//! Operands of the register and the compare-and-branch format.
ghost use Rattle.std.specs.Prelude.{◌≡◌};
ghost use Rattle.i9_statement.specs.Known.{known_in};
ghost use Rattle.i9_statement.specs.Operands.{small_literal, literal, takes_literals, operand_as, operand_of};

use crate::{Fault, Known, Noted, Value, fine, register_of, value_of, wrong};
use i9_isa::{Operand, Use};

/// What stands for an operand that is missing or at fault.
pub(crate) const NO_OPERAND: Operand = Operand::Reg(0);

/// A literal from 0 to 31.
fn small_literal(n: u32) -> Noted<Operand>
    ensures { result ≡ small_literal n }
{
    if n < 32 {
        fine(Operand::Lit(n as u8))
    } else {
        wrong(Fault::Range, NO_OPERAND)
    }
}

/// A value as a literal.
fn literal(value: Value) -> Noted<Operand>
    ensures { result ≡ literal value }
{
    match value {
        Value::Number(n) | Value::Named(n) => small_literal(n),
        Value::Beyond => wrong(Fault::Range, NO_OPERAND),
        Value::Unknown => wrong(Fault::UnknownName, NO_OPERAND),
    }
}

/// Whether a literal may stand here.
fn takes_literals(used: Use) -> bool
    ensures { result ≡ takes_literals used }
{
    matches!(used, Use::Source(_) | Use::Left)
}

/// The operand of a use that a text says.
#[inline(never)]
#[tactic(auto, unfolding(crate::specs::Operands::operand_of))]
pub(crate) fn operand_of(used: Use, names: Known<'_>, text: &[u8]) -> Noted<Operand>
    ensures { result ≡ operand_of used (known_in names.entry) text.now }
{
    if let Some(operand) = register_of(text) {
        return if used.takes(operand) {
            fine(operand)
        } else {
            wrong(Fault::Register, NO_OPERAND)
        };
    }
    match value_of(names, text) {
        Some(value) if takes_literals(used) => literal(value),
        _ => wrong(Fault::Form, NO_OPERAND),
    }
}
