//! The instruction table: one row for each name.
//!
//! Names, formats and operands are those of the i960 CA/CF User's Manual, instruction formats; the
//! numbers of opcodes and extensions are this project's profile of it.
ghost use Rattle.std.specs.Prelude.{◌≡◌};
ghost use Rattle.i9_isa.specs.Table.{row_of, reg_row, test_row, branch_row, ctrl_row, mem_row};

use crate::format::Use::{Change, Destination, Load, Source, Store, Unused};
use crate::format::{Format, Row, Use};
use crate::op::Op;

/// A row of the register format: opcode, extension, and the uses of src1, src2 and src/dst.
fn reg_row(opcode: u8, extension: u8, a: Use, b: Use, c: Use) -> Row
    ensures { result ≡ reg_row opcode extension a b c }
{
    Row {
        opcode,
        extension,
        format: Format::Reg,
        a,
        b,
        c,
        disp: false,
        hint: false,
    }
}

/// A row of the compare-and-branch format that writes the register of src1 and uses nothing else.
fn test_row(opcode: u8) -> Row
    ensures { result ≡ test_row opcode }
{
    Row {
        opcode,
        extension: 0,
        format: Format::Cobr,
        a: Load(1),
        b: Unused,
        c: Unused,
        disp: false,
        hint: false,
    }
}

/// A row of the compare-and-branch format with two sources, a displacement and a prediction.
fn branch_row(opcode: u8) -> Row
    ensures { result ≡ branch_row opcode }
{
    Row {
        opcode,
        extension: 0,
        format: Format::Cobr,
        a: Use::Left,
        b: Use::Right,
        c: Unused,
        disp: true,
        hint: true,
    }
}

/// A row of the control format, with or without a displacement and a prediction.
fn ctrl_row(opcode: u8, disp: bool, hint: bool) -> Row
    ensures { result ≡ ctrl_row opcode disp hint }
{
    Row {
        opcode,
        extension: 0,
        format: Format::Ctrl,
        a: Unused,
        b: Unused,
        c: Unused,
        disp,
        hint,
    }
}

/// A row of the memory format: what is done with src/dst.
fn mem_row(opcode: u8, c: Use) -> Row
    ensures { result ≡ mem_row opcode c }
{
    Row {
        opcode,
        extension: 0,
        format: Format::Mem,
        a: Unused,
        b: Unused,
        c,
        disp: false,
        hint: false,
    }
}

/// The row of a name in the instruction table.
#[inline(always)]
pub fn row(op: Op) -> Row
    ensures { result ≡ row_of op }
{
    match op {
        // Register format: two sources and a destination.
        Op::Notbit => reg_row(0x58, 0x0, Source(1), Source(1), Destination(1)),
        Op::And => reg_row(0x58, 0x1, Source(1), Source(1), Destination(1)),
        Op::Andnot => reg_row(0x58, 0x2, Source(1), Source(1), Destination(1)),
        Op::Setbit => reg_row(0x58, 0x3, Source(1), Source(1), Destination(1)),
        Op::Notand => reg_row(0x58, 0x4, Source(1), Source(1), Destination(1)),
        Op::Xor => reg_row(0x58, 0x6, Source(1), Source(1), Destination(1)),
        Op::Or => reg_row(0x58, 0x7, Source(1), Source(1), Destination(1)),
        Op::Nor => reg_row(0x58, 0x8, Source(1), Source(1), Destination(1)),
        Op::Xnor => reg_row(0x58, 0x9, Source(1), Source(1), Destination(1)),
        Op::Ornot => reg_row(0x58, 0xB, Source(1), Source(1), Destination(1)),
        Op::Clrbit => reg_row(0x58, 0xC, Source(1), Source(1), Destination(1)),
        Op::Notor => reg_row(0x58, 0xD, Source(1), Source(1), Destination(1)),
        Op::Nand => reg_row(0x58, 0xE, Source(1), Source(1), Destination(1)),
        Op::Alterbit => reg_row(0x58, 0xF, Source(1), Source(1), Destination(1)),
        Op::Addo => reg_row(0x59, 0x0, Source(1), Source(1), Destination(1)),
        Op::Addi => reg_row(0x59, 0x1, Source(1), Source(1), Destination(1)),
        Op::Subo => reg_row(0x59, 0x2, Source(1), Source(1), Destination(1)),
        Op::Subi => reg_row(0x59, 0x3, Source(1), Source(1), Destination(1)),
        Op::Shro => reg_row(0x59, 0x8, Source(1), Source(1), Destination(1)),
        Op::Shrdi => reg_row(0x59, 0xA, Source(1), Source(1), Destination(1)),
        Op::Shri => reg_row(0x59, 0xB, Source(1), Source(1), Destination(1)),
        Op::Shlo => reg_row(0x59, 0xC, Source(1), Source(1), Destination(1)),
        Op::Rotate => reg_row(0x59, 0xD, Source(1), Source(1), Destination(1)),
        Op::Shli => reg_row(0x59, 0xE, Source(1), Source(1), Destination(1)),
        Op::Cmpinco => reg_row(0x5A, 0x4, Source(1), Source(1), Destination(1)),
        Op::Cmpinci => reg_row(0x5A, 0x5, Source(1), Source(1), Destination(1)),
        Op::Cmpdeco => reg_row(0x5A, 0x6, Source(1), Source(1), Destination(1)),
        Op::Cmpdeci => reg_row(0x5A, 0x7, Source(1), Source(1), Destination(1)),
        Op::Addc => reg_row(0x5B, 0x0, Source(1), Source(1), Destination(1)),
        Op::Subc => reg_row(0x5B, 0x2, Source(1), Source(1), Destination(1)),
        Op::Atadd => reg_row(0x61, 0x2, Source(1), Source(1), Destination(1)),
        Op::Modac => reg_row(0x64, 0x5, Source(1), Source(1), Destination(1)),
        Op::Modtc => reg_row(0x65, 0x4, Source(1), Source(1), Destination(1)),
        Op::Emul => reg_row(0x67, 0x0, Source(1), Source(1), Destination(2)),
        Op::Ediv => reg_row(0x67, 0x1, Source(1), Source(2), Destination(2)),
        Op::Mulo => reg_row(0x70, 0x1, Source(1), Source(1), Destination(1)),
        Op::Remo => reg_row(0x70, 0x8, Source(1), Source(1), Destination(1)),
        Op::Divo => reg_row(0x70, 0xB, Source(1), Source(1), Destination(1)),
        Op::Muli => reg_row(0x74, 0x1, Source(1), Source(1), Destination(1)),
        Op::Remi => reg_row(0x74, 0x8, Source(1), Source(1), Destination(1)),
        Op::Modi => reg_row(0x74, 0x9, Source(1), Source(1), Destination(1)),
        Op::Divi => reg_row(0x74, 0xB, Source(1), Source(1), Destination(1)),
        // Register format: a source and a destination.
        Op::Not => reg_row(0x58, 0xA, Source(1), Unused, Destination(1)),
        Op::Mov => reg_row(0x5C, 0xC, Source(1), Unused, Destination(1)),
        Op::Movl => reg_row(0x5D, 0xC, Source(2), Unused, Destination(2)),
        Op::Movt => reg_row(0x5E, 0xC, Source(3), Unused, Destination(3)),
        Op::Movq => reg_row(0x5F, 0xC, Source(4), Unused, Destination(4)),
        Op::Spanbit => reg_row(0x64, 0x0, Source(1), Unused, Destination(1)),
        Op::Scanbit => reg_row(0x64, 0x1, Source(1), Unused, Destination(1)),
        // Register format: two sources.
        Op::Cmpo => reg_row(0x5A, 0x0, Source(1), Source(1), Unused),
        Op::Cmpi => reg_row(0x5A, 0x1, Source(1), Source(1), Unused),
        Op::Concmpo => reg_row(0x5A, 0x2, Source(1), Source(1), Unused),
        Op::Concmpi => reg_row(0x5A, 0x3, Source(1), Source(1), Unused),
        Op::Scanbyte => reg_row(0x5A, 0xC, Source(1), Source(1), Unused),
        Op::Chkbit => reg_row(0x5A, 0xE, Source(1), Source(1), Unused),
        // Register format: two sources and a register that is read and written.
        Op::Atmod => reg_row(0x61, 0x0, Source(1), Source(1), Change),
        Op::Modify => reg_row(0x65, 0x0, Source(1), Source(1), Change),
        Op::Extract => reg_row(0x65, 0x1, Source(1), Source(1), Change),
        Op::Modpc => reg_row(0x65, 0x5, Source(1), Source(1), Change),
        // Register format: three sources.
        Op::Sdma => reg_row(0x63, 0x0, Source(1), Source(1), Store(3)),
        Op::Sysctl => reg_row(0x65, 0x9, Source(1), Source(1), Store(1)),
        // Register format: one source.
        Op::Calls => reg_row(0x66, 0x0, Source(1), Unused, Unused),
        // Register format: no operand.
        Op::Udma => reg_row(0x63, 0x1, Unused, Unused, Unused),
        Op::Mark => reg_row(0x66, 0xB, Unused, Unused, Unused),
        Op::Fmark => reg_row(0x66, 0xC, Unused, Unused, Unused),
        Op::Flushreg => reg_row(0x66, 0xD, Unused, Unused, Unused),
        Op::Syncf => reg_row(0x66, 0xF, Unused, Unused, Unused),
        // Compare-and-branch format: tests of the condition code.
        Op::Testno => test_row(0x20),
        Op::Testg => test_row(0x21),
        Op::Teste => test_row(0x22),
        Op::Testge => test_row(0x23),
        Op::Testl => test_row(0x24),
        Op::Testne => test_row(0x25),
        Op::Testle => test_row(0x26),
        Op::Testo => test_row(0x27),
        // Compare-and-branch format: compare and branch.
        Op::Bbc => branch_row(0x30),
        Op::Cmpobg => branch_row(0x31),
        Op::Cmpobe => branch_row(0x32),
        Op::Cmpobge => branch_row(0x33),
        Op::Cmpobl => branch_row(0x34),
        Op::Cmpobne => branch_row(0x35),
        Op::Cmpoble => branch_row(0x36),
        Op::Bbs => branch_row(0x37),
        Op::Cmpibno => branch_row(0x38),
        Op::Cmpibg => branch_row(0x39),
        Op::Cmpibe => branch_row(0x3A),
        Op::Cmpibge => branch_row(0x3B),
        Op::Cmpibl => branch_row(0x3C),
        Op::Cmpibne => branch_row(0x3D),
        Op::Cmpible => branch_row(0x3E),
        Op::Cmpibo => branch_row(0x3F),
        // Control format: branches, calls and returns.
        Op::B => ctrl_row(0x08, true, false),
        Op::Call => ctrl_row(0x09, true, false),
        Op::Ret => ctrl_row(0x0A, false, false),
        Op::Bal => ctrl_row(0x0B, true, false),
        Op::Bno => ctrl_row(0x10, true, true),
        Op::Bg => ctrl_row(0x11, true, true),
        Op::Be => ctrl_row(0x12, true, true),
        Op::Bge => ctrl_row(0x13, true, true),
        Op::Bl => ctrl_row(0x14, true, true),
        Op::Bne => ctrl_row(0x15, true, true),
        Op::Ble => ctrl_row(0x16, true, true),
        Op::Bo => ctrl_row(0x17, true, true),
        // Control format: faults on a condition.
        Op::Faultno => ctrl_row(0x18, false, false),
        Op::Faultg => ctrl_row(0x19, false, false),
        Op::Faulte => ctrl_row(0x1A, false, false),
        Op::Faultge => ctrl_row(0x1B, false, false),
        Op::Faultl => ctrl_row(0x1C, false, false),
        Op::Faultne => ctrl_row(0x1D, false, false),
        Op::Faultle => ctrl_row(0x1E, false, false),
        Op::Faulto => ctrl_row(0x1F, false, false),
        // Memory format: loads, stores and addresses.
        Op::Ldob => mem_row(0x80, Load(1)),
        Op::Stob => mem_row(0x82, Store(1)),
        Op::Bx => mem_row(0x84, Unused),
        Op::Balx => mem_row(0x85, Load(1)),
        Op::Callx => mem_row(0x86, Unused),
        Op::Ldos => mem_row(0x88, Load(1)),
        Op::Stos => mem_row(0x8A, Store(1)),
        Op::Lda => mem_row(0x8C, Load(1)),
        Op::Ld => mem_row(0x90, Load(1)),
        Op::St => mem_row(0x92, Store(1)),
        Op::Ldl => mem_row(0x98, Load(2)),
        Op::Stl => mem_row(0x9A, Store(2)),
        Op::Ldt => mem_row(0xA0, Load(3)),
        Op::Stt => mem_row(0xA2, Store(3)),
        Op::Ldq => mem_row(0xB0, Load(4)),
        Op::Stq => mem_row(0xB2, Store(4)),
        Op::Ldib => mem_row(0xC0, Load(1)),
        Op::Stib => mem_row(0xC2, Store(1)),
        Op::Ldis => mem_row(0xC8, Load(1)),
        Op::Stis => mem_row(0xCA, Store(1)),
    }
}
