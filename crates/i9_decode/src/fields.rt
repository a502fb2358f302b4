//! The fields of instruction words (i960 CA/CF User's Manual, instruction formats), and what they
//! stand for.
ghost use Rattle.std.specs.Prelude.{◌≡◌, ◌+◌, ◌^◌, ◌<◌, ◌≤◌};
ghost use Rattle.i9_isa.specs.Words.{field, bit, signed_of, operand_by, operand_in, src1_in, src2_in, src_dst_in};
ghost use Rattle.i9_isa.specs.Words.{disp_in, mode_in, address_in, ea_in, has_form};

use i9_isa::{Ea, Format, Mode, NO_ADDRESS, Operand, Row, Use};

/// What is not used.
const NO_OPERAND: Operand = Operand::Reg(0);

/// Bits 31 to 24.
pub(crate) fn opcode(w: u32) -> u8
    ensures { result ≡ field w 24 8 }
{
    (w >> 24) as u8
}

/// Bits 10 to 7.
pub(crate) fn extension(w: u32) -> u8
    ensures { result ≡ field w 7 4 }
{
    (w >> 7 & 15) as u8
}

/// Five bits from `low` up, as of a register number.
fn five(w: u32, low: u32) -> u8
    requires { low + 5 ≤ 32 }
    ensures { result ≡ field w low 5 }
{
    (w >> low & 31) as u8
}

/// Whether bit k is set.
pub(crate) fn flag(w: u32, k: u32) -> bool
    requires { k < 32 }
    ensures { result ≡ bit w k }
{
    w >> k & 1 == 1
}

/// What a field stands for under its bits M and S; a source with both set stands for nothing.
fn operand_by(used: Use, m: bool, s: bool, number: u8) -> Option<Operand>
    ensures { result ≡ operand_by used m s number }
{
    match used {
        Use::Source(_) => match (m, s) {
            (true, true) => None,
            (true, false) => Some(Operand::Lit(number)),
            (false, true) => Some(Operand::Sfr(number)),
            (false, false) => Some(Operand::Reg(number)),
        },
        Use::Left => Some(if m {
            Operand::Lit(number)
        } else {
            Operand::Reg(number)
        }),
        Use::Right => Some(if s {
            Operand::Sfr(number)
        } else {
            Operand::Reg(number)
        }),
        _ => Some(if m {
            Operand::Sfr(number)
        } else {
            Operand::Reg(number)
        }),
    }
}

/// The operand in a field with these bits M and S, if the use allows it.
fn operand_in(used: Use, m: bool, s: bool, number: u8) -> Option<Operand>
    ensures { result ≡ operand_in used m s number }
{
    if used.is_unused() {
        return Some(NO_OPERAND);
    }
    let operand = operand_by(used, m, s, number)?;
    if used.takes(operand) {
        Some(operand)
    } else {
        None
    }
}

/// src1.
pub(crate) fn src1(row: &Row, w: u32) -> Option<Operand>
    ensures { result ≡ src1_in row.now.format row.now.a w }
{
    match row.format {
        Format::Reg => operand_in(row.a, flag(w, 11), flag(w, 5), five(w, 0)),
        Format::Cobr => operand_in(row.a, flag(w, 13), false, five(w, 19)),
        Format::Ctrl | Format::Mem => Some(NO_OPERAND),
    }
}

/// src2.
pub(crate) fn src2(row: &Row, w: u32) -> Option<Operand>
    ensures { result ≡ src2_in row.now.format row.now.b w }
{
    match row.format {
        Format::Reg => operand_in(row.b, flag(w, 12), flag(w, 6), five(w, 14)),
        Format::Cobr => operand_in(row.b, false, flag(w, 0), five(w, 14)),
        Format::Ctrl | Format::Mem => Some(NO_OPERAND),
    }
}

/// src/dst.
pub(crate) fn src_dst(row: &Row, w: u32) -> Option<Operand>
    ensures { result ≡ src_dst_in row.now.format row.now.c w }
{
    match row.format {
        Format::Reg => operand_in(row.c, flag(w, 13), false, five(w, 19)),
        Format::Mem => operand_in(row.c, false, false, five(w, 19)),
        Format::Cobr | Format::Ctrl => Some(NO_OPERAND),
    }
}

/// A number of 13 bits in two's complement.
fn signed_13(n: u32) -> i32
    requires { n < 2 ^ 13 }
    ensures { result ≡ signed_of 13 n }
{
    if n < 1 << 12 {
        n as i32
    } else {
        n as i32 - (1 << 13)
    }
}

/// A number of 24 bits in two's complement.
fn signed_24(n: u32) -> i32
    requires { n < 2 ^ 24 }
    ensures { result ≡ signed_of 24 n }
{
    if n < 1 << 23 {
        n as i32
    } else {
        n as i32 - (1 << 24)
    }
}

/// The displacement, where the row has one.
pub(crate) fn displacement(row: &Row, w: u32) -> i32
    ensures { result ≡ disp_in row.now.format row.now.disp w }
{
    if !row.disp {
        return 0;
    }
    match row.format {
        Format::Cobr => signed_13((w >> 2 & 0x7FF) * 4),
        Format::Ctrl => signed_24((w >> 2 & 0x3F_FFFF) * 4),
        Format::Reg | Format::Mem => 0,
    }
}

/// The addressing mode, unless it is the reserved one.
fn mode(w: u32) -> Option<Mode>
    ensures { result ≡ mode_in w }
{
    if !flag(w, 12) {
        return Some(if flag(w, 13) {
            Mode::BaseOffset
        } else {
            Mode::Offset
        });
    }
    match w >> 10 & 0b1111 {
        0b0100 => Some(Mode::Base),
        0b0101 => Some(Mode::Ip),
        0b0111 => Some(Mode::BaseIndex),
        0b1100 => Some(Mode::Disp),
        0b1101 => Some(Mode::BaseDisp),
        0b1110 => Some(Mode::IndexDisp),
        0b1111 => Some(Mode::BaseIndexDisp),
        _ => None,
    }
}

/// Whether the word has a mode, where its format needs one.
pub(crate) fn has_form(format: Format, w: u32) -> bool
    ensures { result ≡ has_form format w }
{
    match format {
        Format::Mem => mode(w).is_some(),
        Format::Reg | Format::Cobr | Format::Ctrl => true,
    }
}

/// The address of a mode, whatever its scale is.
fn address(mode: Mode, w: u32, w1: u32) -> Ea
    ensures { result ≡ address_in mode w w1 }
{
    let base = if mode.has_base() { five(w, 14) } else { 0 };
    let (index, scale) = if mode.has_index() {
        (five(w, 0), (w >> 7 & 7) as u8)
    } else {
        (0, 0)
    };
    let disp = if mode.has_disp() {
        w1
    } else if mode.has_offset() {
        w & 0xFFF
    } else {
        0
    };
    Ea {
        mode,
        base,
        index,
        scale,
        disp,
    }
}

/// The effective address, unless its mode is reserved or its scale above 4.
pub(crate) fn effective_address(row: &Row, w: u32, w1: u32) -> Option<Ea>
    ensures { result ≡ ea_in row.now.format w w1 }
{
    match row.format {
        Format::Mem => {
            let ea = address(mode(w)?, w, w1);
            if ea.scale < 5 { Some(ea) } else { None }
        }
        Format::Reg | Format::Cobr | Format::Ctrl => Some(NO_ADDRESS),
    }
}
