//! Encoding.
ghost use Rattle.std.specs.Prelude.{◌≡◌, ℕ, ◌+◌, ◌*◌, ◌%◌, ◌^◌, ◌<◌, true, false, not, ◌↔◌, IsNone, IsSome, IfSome};
ghost use Rattle.i9_isa.specs.Operands.{field_number, has_offset, has_disp, is_address};
ghost use Rattle.i9_isa.specs.Table.{row_of};
ghost use Rattle.i9_isa.specs.Valid.{IsValid, FitsDisp};
ghost use Rattle.i9_isa.specs.Words.{field, bit, signed_of, mode_in, words_of, Encodes};
ghost use Rattle.i9_isa.specs.declared.format.Format.TheVariants.{Reg, Cobr, Ctrl, Mem};
ghost use Rattle.i9_decode.specs.Ignored.{HasNone, ignored_bits};
ghost use Rattle.i9_decode.specs.Spelling.{m_of, s_of};

use crate::decoder::decode;
use i9_isa::{BadWord, Ea, Format, Inst, Mode, Operand, Row, Use, row, word_count};

/// The words of an instruction: the first, and where its mode has a displacement of 32 bits that
/// one.
#[derive(Clone, Copy, Debug, PartialEq, Eq)]
pub struct Code {
    pub first: u32,
    pub second: Option<u32>,
}

/// Bit M of an operand's field.
fn m_bit(used: Use, operand: Operand) -> bool
    ensures { result ≡ m_of used operand }
{
    matches!(
        (used, operand),
        (Use::Source(_) | Use::Left, Operand::Lit(_)) | (Use::Destination(_), Operand::Sfr(_))
    )
}

/// Bit S of an operand's field.
fn s_bit(used: Use, operand: Operand) -> bool
    ensures { result ≡ s_of used operand }
{
    matches!(
        (used, operand),
        (Use::Source(_) | Use::Right, Operand::Sfr(_))
    )
}

/// A word of the register format.
fn register_word(row: &Row, a: Operand, b: Operand, c: Operand) -> u32
    requires extension { row.now.extension < 16 }
    requires a { field_number a < 32 }
    requires b { field_number b < 32 }
    requires c { field_number c < 32 }
    ensures opcode { field result 24 8 ≡ row.now.opcode }
    ensures extension { field result 7 4 ≡ row.now.extension }
    ensures a { field result 0 5 ≡ field_number a }
    ensures m1 { bit result 11 ≡ m_of row.now.a a }
    ensures s1 { bit result 5 ≡ s_of row.now.a a }
    ensures b { field result 14 5 ≡ field_number b }
    ensures m2 { bit result 12 ≡ m_of row.now.b b }
    ensures s2 { bit result 6 ≡ s_of row.now.b b }
    ensures c { field result 19 5 ≡ field_number c }
    ensures m3 { bit result 13 ≡ m_of row.now.c c }
{
    ((row.opcode as u32) << 24)
        + ((c.number() as u32) << 19)
        + ((b.number() as u32) << 14)
        + ((m_bit(row.c, c) as u32) << 13)
        + ((m_bit(row.b, b) as u32) << 12)
        + ((m_bit(row.a, a) as u32) << 11)
        + ((row.extension as u32) << 7)
        + ((s_bit(row.b, b) as u32) << 6)
        + ((s_bit(row.a, a) as u32) << 5)
        + a.number() as u32
}

/// The low 13 bits of the displacement of a compare and branch.
fn branch_low(row: &Row, disp: i32) -> u32
    requires { FitsDisp Cobr row.now.disp disp }
    ensures low { result < 2 ^ 13 }
    ensures fours { result % 4 ≡ 0 }
    ensures disp { disp ≡ signed_of 13 result }
{
    if disp < 0 {
        (disp + (1 << 13)) as u32
    } else {
        disp as u32
    }
}

/// A word of the compare-and-branch format.
fn branch_word(row: &Row, a: Operand, b: Operand, disp: i32, hint: bool) -> u32
    requires a { field_number a < 32 }
    requires b { field_number b < 32 }
    requires disp { FitsDisp Cobr row.now.disp disp }
    ensures opcode { field result 24 8 ≡ row.now.opcode }
    ensures a { field result 19 5 ≡ field_number a }
    ensures m1 { bit result 13 ≡ m_of row.now.a a }
    ensures b { field result 14 5 ≡ field_number b }
    ensures s2 { bit result 0 ≡ s_of row.now.b b }
    ensures disp { disp ≡ signed_of 13 (field result 2 11 * 4) }
    ensures hint { bit result 1 ≡ hint }
{
    let low = branch_low(row, disp);
    ((row.opcode as u32) << 24)
        + ((a.number() as u32) << 19)
        + ((b.number() as u32) << 14)
        + ((m_bit(row.a, a) as u32) << 13)
        + low
        + ((hint as u32) << 1)
        + s_bit(row.b, b) as u32
}

/// A word of the control format.
fn control_word(row: &Row, disp: i32, hint: bool) -> u32
    requires disp { FitsDisp Ctrl row.now.disp disp }
    ensures opcode { field result 24 8 ≡ row.now.opcode }
    ensures disp { disp ≡ signed_of 24 (field result 2 22 * 4) }
    ensures hint { bit result 1 ≡ hint }
    ensures rest { field result 0 1 ≡ 0 }
{
    let low = if disp < 0 {
        (disp + (1 << 24)) as u32
    } else {
        disp as u32
    };
    ((row.opcode as u32) << 24) + low + ((hint as u32) << 1)
}

/// A mode in bits 13 to 10.
fn mode_bits(mode: Mode) -> u32
    ensures small { result < 2 ^ 14 }
    ensures mode { mode_in result ≡ Some mode }
    ensures low { result % 2 ^ 10 ≡ 0 }
    ensures long { bit result 12 ≡ not (has_offset mode) }
    ensures short { has_offset mode ≡ true → result % 2 ^ 12 ≡ 0 }
{
    match mode {
        Mode::Offset => 0,
        Mode::BaseOffset => 1 << 13,
        Mode::Base => 0b0100 << 10,
        Mode::Ip => 0b0101 << 10,
        Mode::BaseIndex => 0b0111 << 10,
        Mode::Disp => 0b1100 << 10,
        Mode::BaseDisp => 0b1101 << 10,
        Mode::IndexDisp => 0b1110 << 10,
        Mode::BaseIndexDisp => 0b1111 << 10,
    }
}

/// The bits below the mode: the offset, or the scale and the index.
fn address_low(ea: &Ea) -> u32
    requires { is_address ea.now ≡ true }
    ensures small { result < 2 ^ 12 }
    ensures short { has_offset ea.now.mode ≡ true → result ≡ ea.now.disp }
    ensures long { has_offset ea.now.mode ≡ false → result ≡ ea.now.scale * 128 + ea.now.index }
    ensures long_small { has_offset ea.now.mode ≡ false → result < 2 ^ 10 }
    ensures index { has_offset ea.now.mode ≡ false → field result 0 5 ≡ ea.now.index }
    ensures scale { has_offset ea.now.mode ≡ false → field result 7 3 ≡ ea.now.scale }
    ensures gap { has_offset ea.now.mode ≡ false → field result 5 2 ≡ 0 }
{
    match ea.mode {
        Mode::Offset | Mode::BaseOffset => ea.disp,
        _ => ((ea.scale as u32) << 7) + ea.index as u32,
    }
}

/// The first word of the memory format.
fn memory_word(row: &Row, c: Operand, ea: &Ea) -> u32
    requires c { field_number c < 32 }
    requires ea { is_address ea.now ≡ true }
    ensures opcode { field result 24 8 ≡ row.now.opcode }
    ensures c { field result 19 5 ≡ field_number c }
    ensures mode { mode_in result ≡ Some ea.now.mode }
    ensures base { field result 14 5 ≡ ea.now.base }
    ensures index { has_offset ea.now.mode ≡ false → field result 0 5 ≡ ea.now.index }
    ensures scale { has_offset ea.now.mode ≡ false → field result 7 3 ≡ ea.now.scale }
    ensures gap { has_offset ea.now.mode ≡ false → field result 5 2 ≡ 0 }
    ensures offset { has_offset ea.now.mode ≡ true → field result 0 12 ≡ ea.now.disp }
{
    let low = address_low(ea);
    ((row.opcode as u32) << 24)
        + ((c.number() as u32) << 19)
        + ((ea.base as u32) << 14)
        + mode_bits(ea.mode)
        + low
}

/// The word of an instruction in the register format.
fn register_code(i: &Inst) -> u32
    requires valid { IsValid i.now }
    requires format { (row_of i.now.op).format ≡ Reg }
    ensures form { (w1 : ℕ) → Encodes result w1 i.now }
    ensures clear { HasNone (ignored_bits i.now) result }
{
    register_word(&row(i.op), i.a, i.b, i.c)
}

/// The word of an instruction in the compare-and-branch format.
fn branch_code(i: &Inst) -> u32
    requires valid { IsValid i.now }
    requires format { (row_of i.now.op).format ≡ Cobr }
    ensures form { (w1 : ℕ) → Encodes result w1 i.now }
    ensures clear { HasNone (ignored_bits i.now) result }
{
    branch_word(&row(i.op), i.a, i.b, i.disp, i.hint)
}

/// The word of an instruction in the control format.
fn control_code(i: &Inst) -> u32
    requires valid { IsValid i.now }
    requires format { (row_of i.now.op).format ≡ Ctrl }
    ensures form { (w1 : ℕ) → Encodes result w1 i.now }
    ensures clear { HasNone (ignored_bits i.now) result }
{
    control_word(&row(i.op), i.disp, i.hint)
}

/// The first word of an instruction in the memory format.
fn memory_code(i: &Inst) -> u32
    requires valid { IsValid i.now }
    requires format { (row_of i.now.op).format ≡ Mem }
    ensures form { (w1 : ℕ) → (has_disp i.now.ea.mode ≡ true → i.now.ea.disp ≡ w1)
        → Encodes result w1 i.now }
    ensures clear { HasNone (ignored_bits i.now) result }
{
    memory_word(&row(i.op), i.c, &i.ea)
}

/// The first word.
fn first_word(i: &Inst) -> u32
    requires { IsValid i.now }
    ensures form { (w1 : ℕ) → (has_disp i.now.ea.mode ≡ true → i.now.ea.disp ≡ w1)
        → Encodes result w1 i.now }
    ensures clear { HasNone (ignored_bits i.now) result }
{
    match row(i.op).format {
        Format::Reg => register_code(i),
        Format::Cobr => branch_code(i),
        Format::Ctrl => control_code(i),
        Format::Mem => memory_code(i),
    }
}

/// The words of an instruction, with the ignored bits of the first word 0. Where one word suffices,
/// it stands for the instruction whatever the second word is.
pub fn encode(i: &Inst) -> Code
    requires { IsValid i.now }
    ensures one { IsNone result.second → (w1 : ℕ) → Encodes result.first w1 i.now }
    ensures two { IfSome result.second (λ w1. Encodes result.first w1 i.now) }
    ensures count { IsSome result.second ↔ (words_of i.now ≡ 2) }
    ensures clear { HasNone (ignored_bits i.now) result.first }
{
    let first = first_word(i);
    let second = if word_count(i) == 2 {
        Some(i.ea.disp)
    } else {
        None
    };
    Code { first, second }
}

/// The answer of `decode` to the words of an instruction, with `after` behind a single word: the
/// instruction.
pub fn decode_encoded(i: &Inst, after: u32) -> Result<Inst, BadWord>
    requires { IsValid i.now }
    ensures { result ≡ Ok i.now }
{
    let code = encode(i);
    match code.second {
        Some(second) => decode(code.first, second),
        None => decode(code.first, after),
    }
}
