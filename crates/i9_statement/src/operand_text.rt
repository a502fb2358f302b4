//! The text of operands, addresses and branch targets.
ghost use Rattle.std.specs.Prelude.{◌≡◌, ◌++◌, ◌<◌, ◌^◌, OnOk, true, get_or, []};
ghost use Rattle.i9_isa.specs.Operands.{is_address};
ghost use Rattle.i9_statement.specs.Addresses.{scale_names};
ghost use Rattle.i9_statement.specs.Printed.{HasText, operand_text, needs_bang, bang_text, front_text, base_text};
ghost use Rattle.i9_statement.specs.Printed.{index_text, address_text, target, target_text};

use crate::{add_decimal, add_hex, register_name};
use i9_isa::{Ea, Mode, Operand};
use std::alloc::{AllocError, Global};

/// Appends a literal or the name of a register.
#[tactic(auto, unfolding(crate::specs::Printed::operand_text))]
pub(crate) fn add_operand(
    alloc: Global,
    text: &mut Vec<u8>,
    operand: Operand,
) -> Result<(), AllocError>
    requires { HasText operand }
    ensures { OnOk result (text.new.items ≡ text.old.items ++ operand_text operand) }
{
    match operand {
        Operand::Reg(r) => text.extend_from_slice(register_name(r)),
        Operand::Lit(l) => add_decimal(alloc, text, l as u32),
        Operand::Sfr(s) => text.extend_from_slice(register_name(32 + s)),
    }
}

/// Whether the form without `!` would be another mode.
fn needs_bang(mode: Mode, disp: u32) -> bool
    ensures { result ≡ needs_bang mode disp }
{
    match mode {
        Mode::Base => true,
        Mode::Disp | Mode::BaseDisp => disp < 4096,
        _ => false,
    }
}

/// Appends `!` where it is needed.
fn add_bang(text: &mut Vec<u8>, mode: Mode, disp: u32) -> Result<(), AllocError>
    ensures { OnOk result (text.new.items ≡ text.old.items ++ bang_text mode disp) }
{
    if needs_bang(mode, disp) {
        text.push(b'!')?;
    }
    Ok(())
}

/// Appends a displacement or an offset.
fn add_front(alloc: Global, text: &mut Vec<u8>, mode: Mode, disp: u32) -> Result<(), AllocError>
    ensures { OnOk result (text.new.items ≡ text.old.items ++ front_text mode disp) }
{
    match mode {
        Mode::Offset => add_decimal(alloc, text, disp),
        Mode::BaseOffset if disp == 0 => Ok(()),
        Mode::BaseOffset => add_decimal(alloc, text, disp),
        Mode::Base | Mode::BaseIndex => Ok(()),
        Mode::Ip | Mode::Disp | Mode::BaseDisp | Mode::IndexDisp | Mode::BaseIndexDisp => {
            add_hex(alloc, text, disp)
        }
    }
}

/// Appends the base in round brackets.
fn add_base(text: &mut Vec<u8>, mode: Mode, base: u8) -> Result<(), AllocError>
    requires { base < 32 }
    ensures { OnOk result (text.new.items ≡ text.old.items ++ base_text mode base) }
{
    if matches!(mode, Mode::Ip) {
        return text.extend_from_slice(b"(ip)");
    }
    if mode.has_base() {
        text.push(b'(')?;
        text.extend_from_slice(register_name(base))?;
        text.push(b')')?;
    }
    Ok(())
}

/// A scale, from its power of 2.
fn scale_name(scale: u8) -> &'static [u8]
    requires { scale < 5 }
    ensures { result.now ≡ get_or scale_names scale [] }
{
    match scale {
        0 => b"1",
        1 => b"2",
        2 => b"4",
        3 => b"8",
        _ => b"16",
    }
}

/// Appends the index in square brackets.
fn add_index(text: &mut Vec<u8>, mode: Mode, index: u8, scale: u8) -> Result<(), AllocError>
    requires index { index < 32 }
    requires scale { scale < 5 }
    ensures { OnOk result (text.new.items ≡ text.old.items ++ index_text mode index scale) }
{
    if mode.has_index() {
        text.push(b'[')?;
        text.extend_from_slice(register_name(index))?;
        text.push(b'*')?;
        text.extend_from_slice(scale_name(scale))?;
        text.push(b']')?;
    }
    Ok(())
}

/// Appends an address.
#[tactic(auto, unfolding(crate::specs::Printed::address_text))]
pub(crate) fn add_address(alloc: Global, text: &mut Vec<u8>, ea: &Ea) -> Result<(), AllocError>
    requires { is_address ea.now ≡ true }
    ensures { OnOk result (text.new.items ≡ text.old.items ++ address_text ea.now) }
{
    add_bang(text, ea.mode, ea.disp)?;
    add_front(alloc, text, ea.mode, ea.disp)?;
    add_base(text, ea.mode, ea.base)?;
    add_index(text, ea.mode, ea.index, ea.scale)
}

/// The target of a branch at ip.
fn target(ip: u32, disp: i32) -> u32
    ensures { result ≡ target ip disp }
{
    if disp < 0 {
        ip.wrapping_sub(disp.unsigned_abs())
    } else {
        ip.wrapping_add(disp as u32)
    }
}

/// Appends the target of a branch at ip.
#[tactic(auto, unfolding(crate::specs::Printed::target_text))]
pub(crate) fn add_target(
    alloc: Global,
    text: &mut Vec<u8>,
    ip: u32,
    disp: i32,
) -> Result<(), AllocError>
    ensures { OnOk result (text.new.items ≡ text.old.items ++ target_text ip disp) }
{
    add_hex(alloc, text, target(ip, disp))
}
