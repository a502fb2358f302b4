//! The bits of a first word that are ignored.
ghost use Rattle.std.specs.Prelude.{◌≡◌, ℕ, ◌+◌, if◌then◌else◌};
ghost use Rattle.i9_isa.specs.Operands.{has_index, has_offset};
ghost use Rattle.i9_isa.specs.Valid.{IsValid};
ghost use Rattle.i9_isa.specs.Words.{Encodes};
ghost use Rattle.i9_decode.specs.Ignored.{reg_fields, cobr_fields, ctrl_fields, mem_fields, fields_of, ignored_in};
ghost use Rattle.i9_decode.specs.Ignored.{ignored_bits, SameOutside};

use i9_isa::{Format, Inst, Mode, Row, row};

/// M1, S1 and src1 of the register format.
const REG_SRC1: u32 = 0x83F;

/// M2, S2 and src2 of the register format.
const REG_SRC2: u32 = 0x7_D040;

/// M3 and src/dst of the register format.
const REG_SRC_DST: u32 = 0xF8_2000;

/// S2 and src2 of the compare-and-branch format.
const COBR_SRC2: u32 = 0x7_C001;

/// The displacement of the compare-and-branch format.
const COBR_DISP: u32 = 0x1FFC;

/// The displacement of the control format.
const CTRL_DISP: u32 = 0xFF_FFFC;

/// The lowest bit of the control format.
const CTRL_LAST: u32 = 1;

/// The prediction of both.
const HINT: u32 = 2;

/// src/dst of the memory format.
const MEM_SRC_DST: u32 = 0xF8_0000;

/// The base of the memory format.
const MEM_BASE: u32 = 0x7_C000;

/// The bits between scale and index of the memory format.
const MEM_GAP: u32 = 0x60;

/// The scale and the index of the memory format.
const MEM_INDEX: u32 = 0x39F;

/// Bits of a word, unless they are used.
fn unless(used: bool, bits: u32) -> u32
    ensures { result ≡ (if used then 0 else bits) }
{
    if used { 0 } else { bits }
}

/// The ignored bits of the register format, by whether src1, src2 and src/dst are used.
fn register_bits(a: bool, b: bool, c: bool) -> u32
    ensures { result ≡ ignored_in (reg_fields a b c) }
{
    unless(a, REG_SRC1) + unless(b, REG_SRC2) + unless(c, REG_SRC_DST)
}

/// Those of the compare-and-branch format, by whether src2, a displacement and a prediction are
/// used.
fn branch_bits(b: bool, disp: bool, hint: bool) -> u32
    ensures { result ≡ ignored_in (cobr_fields b disp hint) }
{
    unless(b, COBR_SRC2) + unless(disp, COBR_DISP) + unless(hint, HINT)
}

/// Those of the control format, by whether a displacement and a prediction are used.
fn control_bits(disp: bool, hint: bool) -> u32
    ensures { result ≡ ignored_in (ctrl_fields disp hint) }
{
    unless(disp, CTRL_DISP) + unless(hint, HINT) + CTRL_LAST
}

/// Those below the mode of the memory format.
fn low_bits(mode: Mode) -> u32
    ensures { result ≡ (if has_offset mode then 0
        else MEM_GAP + (if has_index mode then 0 else MEM_INDEX)) }
{
    if mode.has_offset() {
        0
    } else {
        MEM_GAP + unless(mode.has_index(), MEM_INDEX)
    }
}

/// Those of the memory format, by whether src/dst is used, and by the mode.
fn memory_bits(c: bool, mode: Mode) -> u32
    ensures { result ≡ ignored_in (mem_fields c mode) }
{
    unless(c, MEM_SRC_DST) + unless(mode.has_base(), MEM_BASE) + low_bits(mode)
}

/// The ignored bits of words of a row and a mode.
fn bits_of(row: &Row, mode: Mode) -> u32
    ensures { result ≡ ignored_in (fields_of row.now.format row.now mode) }
{
    let a = !row.a.is_unused();
    let b = !row.b.is_unused();
    let c = !row.c.is_unused();
    match row.format {
        Format::Reg => register_bits(a, b, c),
        Format::Cobr => branch_bits(b, row.disp, row.hint),
        Format::Ctrl => control_bits(row.disp, row.hint),
        Format::Mem => memory_bits(c, mode),
    }
}

/// The bits of the first word that are ignored: a word that differs in them alone stands for the
/// same instruction, and one that differs in another bit does not.
pub fn spare_bits(i: &Inst) -> u32
    requires { IsValid i.now }
    ensures value { result ≡ ignored_bits i.now }
    ensures same { (w v w1 : ℕ) → SameOutside result w v → Encodes w w1 i.now → Encodes v w1 i.now }
    ensures only { (w v w1 : ℕ) → Encodes w w1 i.now → Encodes v w1 i.now → SameOutside result w v }
{
    bits_of(&row(i.op), i.ea.mode)
}
