//! The text of a statement.
ghost use Rattle.std.specs.Prelude.{◌≡◌, ◌++◌, ◌∷◌, [], ◌<◌, ◌^◌, IfOk, OnOk, true, false};
ghost use Rattle.std.specs.Int.Bits.{bit_and};
ghost use Rattle.i9_isa.specs.Operands.{is_unused, takes};
ghost use Rattle.i9_isa.specs.Valid.{FitsAddress, IsValid};
ghost use Rattle.i9_statement.specs.Mnemonics.{mnemonic_text};
ghost use Rattle.i9_statement.specs.Instructions.{operand_field, address_field, target_field, operand_fields};
ghost use Rattle.i9_statement.specs.Statements.{fields_text, spare_text, statement_text};
ghost use Rattle.i9_statement.specs.Pieces.{separator, pieces, started_by, Added};

use crate::add_digits;
use crate::names::mnemonic;
use crate::operand_text::{add_address, add_operand, add_target};
use crate::order::{first_use, last_use};
use crate::statements::Statement;
use i9_isa::{Ea, Format, Inst, Op, Operand, Use, row};
use std::alloc::{AllocError, Global};

/// What stands before an operand.
fn separator(started: bool) -> &'static [u8]
    ensures { result.now ≡ separator started }
{
    if started { b", " } else { b" " }
}

/// Appends an operand where it is used, and says whether an operand stands before what follows.
#[tactic(auto, unfolding(crate::specs::Pieces::pieces))]
fn add_used(
    alloc: Global,
    text: &mut Vec<u8>,
    started: bool,
    used: Use,
    operand: Operand,
) -> Result<bool, AllocError>
    requires { is_unused used ≡ false → takes used operand ≡ true }
    ensures { IfOk result (λ now. Added text.old.items text.new.items started (operand_field used operand) now) }
{
    if used.is_unused() {
        return Ok(started);
    }
    text.extend_from_slice(separator(started))?;
    add_operand(alloc, text, operand)?;
    Ok(true)
}

/// Appends the address, in the memory format.
#[tactic(auto, unfolding(crate::specs::Pieces::pieces))]
fn add_place(
    alloc: Global,
    text: &mut Vec<u8>,
    started: bool,
    format: Format,
    ea: &Ea,
) -> Result<bool, AllocError>
    requires { FitsAddress format ea.now }
    ensures { IfOk result (λ now. Added text.old.items text.new.items started (address_field format ea.now) now) }
{
    if !matches!(format, Format::Mem) {
        return Ok(started);
    }
    text.extend_from_slice(separator(started))?;
    add_address(alloc, text, ea)?;
    Ok(true)
}

/// Appends the target of a branch at ip, where the row has a displacement.
#[tactic(auto, unfolding(crate::specs::Pieces::pieces))]
fn add_branch(
    alloc: Global,
    text: &mut Vec<u8>,
    started: bool,
    used: bool,
    ip: u32,
    disp: i32,
) -> Result<bool, AllocError>
    ensures { IfOk result (λ now. Added text.old.items text.new.items started (target_field used ip disp) now) }
{
    if !used {
        return Ok(started);
    }
    text.extend_from_slice(separator(started))?;
    add_target(alloc, text, ip, disp)?;
    Ok(true)
}

/// Appends the operands of an instruction at ip, in the order of its row.
fn add_operands(alloc: Global, text: &mut Vec<u8>, ip: u32, i: &Inst) -> Result<bool, AllocError>
    requires { IsValid i.now }
    ensures { IfOk result (λ now. Added text.old.items text.new.items false (operand_fields ip i.now) now) }
{
    let row = row(i.op);
    let started = add_used(alloc, text, false, row.a, i.a)?;
    let started = add_used(alloc, text, started, row.b, i.b)?;
    let started = add_used(alloc, text, started, first_use(&row), i.c)?;
    let started = add_place(alloc, text, started, row.format, &i.ea)?;
    let started = add_branch(alloc, text, started, row.disp, ip, i.disp)?;
    add_used(alloc, text, started, last_use(&row), i.c)
}

/// Appends a mnemonic with its prediction.
fn add_mnemonic(text: &mut Vec<u8>, op: Op, hint: bool) -> Result<(), AllocError>
    ensures { OnOk result (text.new.items ≡ text.old.items ++ mnemonic_text op hint) }
{
    text.extend_from_slice(mnemonic(op))?;
    if hint {
        text.extend_from_slice(b".f")?;
    }
    Ok(())
}

/// Appends the set ignored bits in braces.
fn add_spare(alloc: Global, text: &mut Vec<u8>, bits: u32) -> Result<(), AllocError>
    ensures { OnOk result (text.new.items ≡ text.old.items ++ spare_text bits) }
{
    if bits != 0 {
        text.extend_from_slice(b" {")?;
        add_digits(alloc, text, bits)?;
        text.push(b'}')?;
    }
    Ok(())
}

/// Appends the text of a statement at `ip`.
///
/// Registers print with the names pfp, sp, rip and fp where they have them, literals and offsets in
/// decimal, displacements and targets as `0x` and eight digits, and set ignored bits as `{H}`. `!`
/// stands before an address whose mode would else be another one.
#[tactic(auto, unfolding(crate::specs::Statements::statement_text))]
pub fn add_statement(
    alloc: Global,
    text: &mut Vec<u8>,
    ip: u32,
    statement: &Statement,
) -> Result<(), AllocError>
    requires { IsValid statement.now.inst }
    ensures { OnOk result
        (text.new.items ≡ text.old.items ++ statement_text ip statement.now.inst statement.now.spare) }
{
    let inst = &statement.inst;
    add_mnemonic(text, inst.op, inst.hint)?;
    add_operands(alloc, text, ip, inst)?;
    add_spare(alloc, text, statement.spare)
}
