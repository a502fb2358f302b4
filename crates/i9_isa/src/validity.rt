//! Instructions that have words.
ghost use Rattle.std.specs.Prelude.{◌≡◌, ◌↔◌, IsTrue, nat_lt, if◌then◌else◌};
ghost use Rattle.i9_isa.specs.Operands.{is_address, disp_limit};
ghost use Rattle.i9_isa.specs.Valid.{IsValid, FitsAddress, FitsDisp};

use crate::format::Format;
use crate::inst::{Ea, Inst, Mode, NO_ADDRESS};
use crate::table::row;

/// What a field is below: `limit` where it is used, else 1, so that it is 0.
fn limit_where(used: bool, limit: u8) -> u8
    ensures { result ≡ (if used then limit else 1) }
{
    if used { limit } else { 1 }
}

/// Whether a displacement or an offset is in the range of the mode.
fn is_disp(mode: Mode, disp: u32) -> bool
    ensures { result ≡ nat_lt disp (disp_limit mode) }
{
    match mode {
        Mode::Offset | Mode::BaseOffset => disp < 1 << 12,
        Mode::Base | Mode::BaseIndex => disp == 0,
        _ => true,
    }
}

/// Whether the parts of the address that its mode has are in range, and the others 0.
fn is_address(e: &Ea) -> bool
    ensures { result ≡ is_address e.now }
{
    if e.base >= limit_where(e.mode.has_base(), 32) {
        return false;
    }
    let index = e.mode.has_index();
    if e.index >= limit_where(index, 32) {
        return false;
    }
    if e.scale >= limit_where(index, 5) {
        return false;
    }
    is_disp(e.mode, e.disp)
}

/// Whether the displacement fits the format, or is 0 where there is none.
fn fits_disp(format: Format, used: bool, disp: i32) -> bool
    ensures { IsTrue result ↔ FitsDisp format used disp }
{
    if !used {
        return disp == 0;
    }
    match format {
        Format::Cobr => -(1 << 12) <= disp && disp < 1 << 12 && disp % 4 == 0,
        Format::Ctrl => -(1 << 23) <= disp && disp < 1 << 23 && disp % 4 == 0,
        _ => disp == 0,
    }
}

/// Whether the address fits the format.
fn fits_address(format: Format, e: &Ea) -> bool
    ensures { IsTrue result ↔ FitsAddress format e.now }
{
    match format {
        Format::Mem => is_address(e),
        _ => *e == NO_ADDRESS,
    }
}

/// Whether the instruction has words: the fields that its name uses are in range, and the others
/// are as `Inst` says of what is not used.
pub fn valid(i: &Inst) -> bool
    ensures { IsTrue result ↔ IsValid i.now }
{
    let row = row(i.op);
    row.a.takes(i.a)
        && row.b.takes(i.b)
        && row.c.takes(i.c)
        && fits_address(row.format, &i.ea)
        && fits_disp(row.format, row.disp, i.disp)
        && (!i.hint || row.hint)
}
