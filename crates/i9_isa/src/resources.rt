//! The resources that an instruction reads and writes, as sets: bit r for register r, and bit 32
//! for the condition code.
ghost use Rattle.std.specs.Prelude.{◌≡◌, ◌==◌, ◌&&◌, ◌<◌, ◌≤◌};
ghost use Rattle.i9_isa.specs.Operands.{field_number};
ghost use Rattle.i9_isa.specs.Resources.{IsSetOf, is_in_group, is_in_operand, is_in_frame, is_read, is_written};
ghost use Rattle.i9_isa.specs.Resources.{reads_code, writes_code, writes_link, changes_frame};
ghost use Rattle.i9_isa.specs.Valid.{IsValid};

use crate::inst::{Inst, Operand};
use crate::op::Op;
use crate::table::row;

/// The number of the condition code among the resources, after the 32 registers.
pub const CONDITION_CODE: u8 = 32;

/// The register that `bal` links by, g14.
pub const LINK: u8 = 30;

/// The frame pointer, g15.
pub const FRAME_POINTER: u8 = 31;

/// How many local registers there are, from register 0 up.
pub const LOCALS: u8 = 16;

/// The resources from `first` up, `count` of them.
fn group(first: u8, count: u8) -> u64
    requires first { first ≤ 32 }
    requires count { count ≤ 16 }
    ensures { IsSetOf result (is_in_group first count) }
{
    ((1 << count) - 1) << first
}

/// The registers of an operand of so many words.
fn registers(operand: Operand, count: u8) -> u64
    requires number { field_number operand < 32 }
    requires count { count ≤ 16 }
    ensures { IsSetOf result (is_in_operand operand count) }
{
    match operand {
        Operand::Reg(r) => group(r, count),
        Operand::Lit(_) | Operand::Sfr(_) => 0,
    }
}

/// One resource, where it is used.
fn one(used: bool, resource: u8) -> u64
    requires { resource ≤ 32 }
    ensures { IsSetOf result (λ k. used && (k == resource)) }
{
    if used { 1 << resource } else { 0 }
}

/// The local registers and the frame pointer.
fn frame() -> u64
    ensures { IsSetOf result is_in_frame }
{
    group(0, LOCALS) | one(true, FRAME_POINTER)
}

/// The frame, where the name changes it.
fn frame_where(changed: bool) -> u64
    ensures { IsSetOf result (λ k. changed && is_in_frame k) }
{
    if changed { frame() } else { 0 }
}

/// Whether the condition code is an input: a bit of it, a carry, a condition, or the old controls.
fn reads_code(op: Op) -> bool
    ensures { result ≡ reads_code op }
{
    match op {
        Op::Alterbit | Op::Addc | Op::Subc | Op::Concmpo | Op::Concmpi | Op::Modac => true,
        Op::Testno | Op::Testg | Op::Teste | Op::Testge => true,
        Op::Testl | Op::Testne | Op::Testle | Op::Testo => true,
        Op::Bno | Op::Bg | Op::Be | Op::Bge | Op::Bl | Op::Bne | Op::Ble | Op::Bo => true,
        Op::Faultno | Op::Faultg | Op::Faulte | Op::Faultge => true,
        Op::Faultl | Op::Faultne | Op::Faultle | Op::Faulto => true,
        _ => false,
    }
}

/// Whether the condition code is a result: of a comparison, of a search, of a sum with carry, of a
/// branch on a bit or a comparison, or as part of new controls.
fn writes_code(op: Op) -> bool
    ensures { result ≡ writes_code op }
{
    match op {
        Op::Cmpo | Op::Cmpi | Op::Cmpinco | Op::Cmpinci | Op::Cmpdeco | Op::Cmpdeci => true,
        Op::Concmpo | Op::Concmpi | Op::Chkbit | Op::Scanbyte => true,
        Op::Spanbit | Op::Scanbit | Op::Addc | Op::Subc | Op::Bbc | Op::Bbs => true,
        Op::Cmpobg | Op::Cmpobe | Op::Cmpobge | Op::Cmpobl | Op::Cmpobne | Op::Cmpoble => true,
        Op::Cmpibno | Op::Cmpibg | Op::Cmpibe | Op::Cmpibge => true,
        Op::Cmpibl | Op::Cmpibne | Op::Cmpible | Op::Cmpibo => true,
        Op::Modac | Op::Ret | Op::Sysctl => true,
        _ => false,
    }
}

/// Whether the name gives new local registers and a new frame pointer.
fn changes_frame(op: Op) -> bool
    ensures { result ≡ changes_frame op }
{
    matches!(op, Op::Call | Op::Callx | Op::Calls | Op::Ret | Op::Sysctl)
}

/// Whether the name keeps the next address in the link register.
fn writes_link(op: Op) -> bool
    ensures { result ≡ writes_link op }
{
    matches!(op, Op::Bal)
}

/// The resources that the instruction reads: those of its operands and its address, and the
/// condition code.
pub fn reads(i: &Inst) -> u64
    requires { IsValid i.now }
    ensures { IsSetOf result (is_read i.now) }
{
    let row = row(i.op);
    registers(i.a, row.a.words_read())
        | registers(i.b, row.b.words_read())
        | registers(i.c, row.c.words_read())
        | one(i.ea.mode.has_base(), i.ea.base)
        | one(i.ea.mode.has_index(), i.ea.index)
        | one(reads_code(i.op), CONDITION_CODE)
}

/// The resources that the instruction writes: those of its operands, the link register of `bal`,
/// the frame of a call, a return or `sysctl`, and the condition code.
pub fn writes(i: &Inst) -> u64
    requires { IsValid i.now }
    ensures { IsSetOf result (is_written i.now) }
{
    let row = row(i.op);
    registers(i.a, row.a.words_written())
        | registers(i.c, row.c.words_written())
        | one(writes_link(i.op), LINK)
        | frame_where(changes_frame(i.op))
        | one(writes_code(i.op), CONDITION_CODE)
}
