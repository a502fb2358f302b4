//! Instructions: their operands in the order of the row.
ghost use Rattle.std.specs.Prelude.{◌≡◌, true};
ghost use Rattle.i9_isa.specs.Table.{row_of};
ghost use Rattle.i9_isa.specs.Valid.{IsValid};
ghost use Rattle.i9_statement.specs.Known.{known_in};
ghost use Rattle.i9_statement.specs.Fields.{fields_of, fields_left};
ghost use Rattle.i9_statement.specs.Instructions.{take_operand, take_address, take_target, left_over, chosen};
ghost use Rattle.i9_statement.specs.Instructions.{instruction_of};

use crate::addresses::address_of;
use crate::fields::{fields_of, split_field};
use crate::operands::{NO_OPERAND, operand_of};
use crate::order::{comes_first, first_use, last_use};
use crate::targets::target_of;
use crate::{Fault, Known, Noted, fine, least, wrong};
use i9_isa::{Ea, Format, Inst, NO_ADDRESS, Op, Operand, Row, Use, row};

/// The operand of a use, where the use has one, and the operands that are left.
#[inline(always)]
fn take_operand<'a>(
    used: Use,
    names: Known<'_>,
    fields: Option<&'a [u8]>,
) -> (Noted<Operand>, Option<&'a [u8]>)
    ensures { take_operand used (known_in names.entry) (fields_left fields.entry) ≡ (result.0, fields_left result.1) }
{
    if used.is_unused() {
        return (fine(NO_OPERAND), fields);
    }
    let Some(text) = fields else {
        return (wrong(Fault::Form, NO_OPERAND), None);
    };
    let (field, rest) = split_field(text);
    (operand_of(used, names, field), rest)
}

/// The address, in the memory format, and the operands that are left.
fn take_address<'a>(
    format: Format,
    names: Known<'_>,
    fields: Option<&'a [u8]>,
) -> (Noted<Ea>, Option<&'a [u8]>)
    ensures { take_address format (known_in names.entry) (fields_left fields.entry) ≡ (result.0, fields_left result.1) }
{
    if !matches!(format, Format::Mem) {
        return (fine(NO_ADDRESS), fields);
    }
    let Some(text) = fields else {
        return (wrong(Fault::Form, NO_ADDRESS), None);
    };
    let (field, rest) = split_field(text);
    (address_of(names, field), rest)
}

/// The displacement from ip, where the row has one, and the operands that are left.
fn take_target<'a>(
    used: bool,
    ip: u32,
    format: Format,
    names: Known<'_>,
    fields: Option<&'a [u8]>,
) -> (Noted<i32>, Option<&'a [u8]>)
    ensures { take_target used ip format (known_in names.entry) (fields_left fields.entry)
        ≡ (result.0, fields_left result.1) }
{
    if !used {
        return (fine(0), fields);
    }
    let Some(text) = fields else {
        return (wrong(Fault::Form, 0), None);
    };
    let (field, rest) = split_field(text);
    (target_of(ip, format, names, field), rest)
}

/// The fault of operands that are left over.
fn left_over(fields: Option<&[u8]>) -> Option<Fault>
    ensures { result ≡ left_over (fields_left fields.entry) }
{
    match fields {
        Some(_) => Some(Fault::Form),
        None => None,
    }
}

/// Of an operand that is read in one of two places that which was.
fn chosen(first: bool, a: Operand, b: Operand) -> Operand
    ensures { result ≡ chosen first a b }
{
    if first { a } else { b }
}

/// The answer of `instruction_of`.
#[tactic(auto, unfolding(crate::specs::Instructions::instruction_of))]
fn read(ip: u32, op: Op, hint: bool, names: Known<'_>, text: &[u8]) -> Noted<Inst>
    ensures { result ≡ instruction_of ip op hint (known_in names.entry) (fields_of text.now) }
{
    let row = row(op);
    let (a, rest) = take_operand(row.a, names, fields_of(text));
    let (b, rest) = take_operand(row.b, names, rest);
    let (first, rest) = take_operand(first_use(&row), names, rest);
    let (ea, rest) = take_address(row.format, names, rest);
    let (disp, rest) = take_target(row.disp, ip, row.format, names, rest);
    let (last, rest) = take_operand(last_use(&row), names, rest);
    let later = least(
        ea.fault,
        least(disp.fault, least(last.fault, left_over(rest))),
    );
    Noted {
        value: Inst {
            op,
            a: a.value,
            b: b.value,
            c: chosen(comes_first(row.format, row.c), first.value, last.value),
            ea: ea.value,
            disp: disp.value,
            hint,
        },
        fault: least(a.fault, least(b.fault, least(first.fault, later))),
    }
}

/// The instruction at ip that a name and the text of its operands say.
pub(crate) fn instruction_of(
    ip: u32,
    op: Op,
    hint: bool,
    names: Known<'_>,
    text: &[u8],
) -> Noted<Inst>
    requires { hint ≡ true → (row_of op).hint ≡ true }
    ensures value { result ≡ instruction_of ip op hint (known_in names.entry) (fields_of text.now) }
    ensures valid { IsValid result.value }
{
    read(ip, op, hint, names, text)
}
