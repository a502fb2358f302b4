//! Effective addresses.
ghost use Rattle.std.specs.Prelude.{◌≡◌, ◌*◌, ◌^◌};
ghost use Rattle.i9_model.specs.Addresses.{address_of};
ghost use Rattle.i9_model.specs.Writes.{wrapped};

use i9_isa::{Ea, Mode};

/// An index times a power of two, modulo 2^32.
fn scaled(index: u32, scale: u8) -> u32
    ensures { result ≡ wrapped (index * 2 ^ scale) }
{
    if scale < 32 { index << scale } else { 0 }
}

/// The effective address, modulo 2^32 (i960 CA/CF User's Manual, addressing modes): `base` and `index` are the
/// values of the registers that `e` names, and count only where its mode has them; `ip` is the address of the
/// instruction itself.
pub fn address(e: &Ea, base: u32, index: u32, ip: u32) -> u32
    ensures { result ≡ address_of e.now base index ip }
{
    let disp = e.disp;
    let scaled_index = scaled(index, e.scale);
    match e.mode {
        Mode::Offset | Mode::Disp => disp,
        Mode::BaseOffset | Mode::BaseDisp => base.wrapping_add(disp),
        Mode::Base => base,
        Mode::Ip => ip.wrapping_add(disp).wrapping_add(8),
        Mode::BaseIndex => base.wrapping_add(scaled_index),
        Mode::IndexDisp => scaled_index.wrapping_add(disp),
        Mode::BaseIndexDisp => base.wrapping_add(scaled_index).wrapping_add(disp),
    }
}
