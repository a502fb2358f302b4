//! The marks that planning gives to registers and to bytes, and those of the sources that it reads. Marks of stale
//! values are this project's own.
ghost use Rattle.std.specs.Prelude.{◌≡◌, ◌+◌, ◌*◌, ◌<◌, ◌≤◌, ◌^◌, ◌∷◌, ◌||◌, [], true};
ghost use Rattle.i9_isa.specs.Operands.{no_address};
ghost use Rattle.i9_isa.specs.Transfers.{byte_count, register_count};
ghost use Rattle.i9_isa.specs.Valid.{IsValid};
ghost use Rattle.i9_model.specs.Results.{has_result, destination_words};
ghost use Rattle.i9_model.specs.Stale.{registers_of, address_registers, sources, is_marked};
ghost use Rattle.i9_model.specs.Stale.{byte_marks, mark_of, marks_of, word_mark};
ghost use Rattle.i9_model.specs.Stale.{result_marks, loaded_marks, stored_marks};
ghost use Rattle.i9_processor.specs.State.{state_of};
ghost use Rattle.i9_watch.specs.Bits.{bits_of};

use crate::words::{bit, word_address};
use i9_isa::{Ea, Inst, Op, Operand, Size, reads};
use i9_processor::Processor;

/// All four marks.
const ALL: u16 = 0xF;

/// Whether the register that is `k` above another is marked.
fn marked_above(p: &Processor, r: u8, k: u8) -> bool
    ensures { result ≡ (state_of p.now).marks (r + k) }
{
    let marks = p.marks();
    let register = u32::from(r) + u32::from(k);
    register < 32 && bit(marks, register)
}

/// Whether a word of a source of several is marked.
pub(crate) fn mark_of(p: &Processor, o: Operand, k: u8) -> bool
    ensures { result ≡ mark_of (state_of p.now) o k }
{
    match o {
        Operand::Reg(r) => marked_above(p, r, k),
        _ => false,
    }
}

/// Whether a source of one word is marked.
pub(crate) fn source_marked(p: &Processor, o: Operand) -> bool
    ensures { result ≡ is_marked (state_of p.now) (registers_of o 1) }
{
    mark_of(p, o, 0)
}

/// The marks of the words of a source of several.
fn marks_of(p: &Processor, o: Operand) -> [bool; 4]
    ensures { result ≡ marks_of (state_of p.now) o 4 }
{
    [
        mark_of(p, o, 0),
        mark_of(p, o, 1),
        mark_of(p, o, 2),
        mark_of(p, o, 3),
    ]
}

/// Whether a register is marked that the effective address is made of.
// Most often none is.
#[inline(always)]
pub(crate) fn address_marked(p: &Processor, e: &Ea) -> bool
    ensures { result ≡ is_marked (state_of p.now) (address_registers e.now) }
{
    if p.marks() == 0 {
        return false;
    }
    let base_marked = e.mode.has_base() && p.is_marked(e.base);
    base_marked || e.mode.has_index() && p.is_marked(e.index)
}

/// Whether a source is marked, of an instruction without an effective address.
pub(crate) fn sources_marked(p: &Processor, i: &Inst) -> bool
    requires valid { IsValid i.now }
    requires plain { i.now.ea ≡ no_address }
    ensures { result ≡ is_marked (state_of p.now) (sources i.now) }
{
    u64::from(p.marks()) & reads(i) != 0
}

/// Whether a byte of a word is soft.
pub(crate) fn is_stale(p: &Processor, a: u32) -> bool
    ensures { result ≡ word_mark (state_of p.now).frames.soft a }
{
    p.stale(a, 4) != 0
}

/// Four marks as bits, the first one lowest.
#[tactic(auto, using(crate::proofs::MarkLists::four_rules))]
fn value_bits(marks: &[bool; 4]) -> u16
    ensures { bits_of result 4 ≡ marks.now }
{
    let [a, b, c, d] = *marks;
    u16::from(a) + 2 * u16::from(b) + 4 * u16::from(c) + 8 * u16::from(d)
}

/// The marks of four words as those of their bytes.
#[tactic(auto, using(crate::proofs::MarkLists::four_rules))]
fn byte_bits(marks: &[bool; 4]) -> u16
    ensures { bits_of result 16 ≡ byte_marks marks.now }
{
    let [a, b, c, d] = *marks;
    15 * (u16::from(a) + 16 * u16::from(b) + 256 * u16::from(c) + 4096 * u16::from(d))
}

/// The marks of the bytes of a word that is made of two, each of which is marked or is not.
pub(crate) fn word_bits(first: bool, second: bool) -> u16
    ensures marks { bits_of result 4 ≡ byte_marks ((first || second) ∷ []) }
    ensures few { result < 2 ^ 4 }
{
    if first || second { ALL } else { 0 }
}

/// The marks of a result, where some register is marked: word by word where words are moved, and else one for all.
#[inline(never)]
fn given_marks(p: &Processor, i: &Inst) -> u16
    requires valid { IsValid i.now }
    requires result { has_result i.now.op ≡ true }
    ensures { bits_of result (destination_words i.now.op) ≡ result_marks i.now (state_of p.now) }
{
    match i.op {
        Op::Mov | Op::Movl | Op::Movt | Op::Movq => value_bits(&marks_of(p, i.a)),
        _ if sources_marked(p, i) => ALL,
        _ => 0,
    }
}

/// The marks of a result.
#[inline(always)]
pub(crate) fn result_marks(p: &Processor, i: &Inst) -> u16
    requires valid { IsValid i.now }
    requires result { has_result i.now.op ≡ true }
    ensures { bits_of result (destination_words i.now.op) ≡ result_marks i.now (state_of p.now) }
{
    if p.marks() == 0 { 0 } else { given_marks(p, i) }
}

/// The marks of the registers that a load of a size sets, by the soft bytes that it reads.
#[inline(never)]
pub(crate) fn loaded_marks(p: &Processor, size: Size, a: u32) -> u16
    requires { byte_count size ≤ 16 }
    ensures { bits_of result (register_count size) ≡ loaded_marks size (state_of p.now).frames.soft a }
{
    match size {
        Size::Byte => u16::from(p.stale(a, 1) != 0),
        Size::Half => u16::from(p.stale(a, 2) != 0),
        Size::Words(_) => value_bits(&[
            is_stale(p, a),
            is_stale(p, word_address(a, 1)),
            is_stale(p, word_address(a, 2)),
            is_stale(p, word_address(a, 3)),
        ]),
    }
}

/// The marks of the bytes that a store of a size writes, where some register is marked.
#[inline(never)]
pub(crate) fn marked_bytes(p: &Processor, size: Size, o: Operand) -> u16
    requires { byte_count size ≤ 16 }
    ensures marks { bits_of result (byte_count size) ≡ stored_marks size (state_of p.now) o }
    ensures few { result < 2 ^ byte_count size }
{
    match size {
        Size::Byte => u16::from(mark_of(p, o, 0)),
        Size::Half => 3 * u16::from(mark_of(p, o, 0)),
        Size::Words(n) => (u32::from(byte_bits(&marks_of(p, o))) % (1 << (4 * n))) as u16,
    }
}

/// The marks of the bytes that a store of a size writes.
#[inline(always)]
pub(crate) fn stored_marks(p: &Processor, size: Size, o: Operand) -> u16
    requires { byte_count size ≤ 16 }
    ensures marks { bits_of result (byte_count size) ≡ stored_marks size (state_of p.now) o }
    ensures few { result < 2 ^ byte_count size }
{
    if p.marks() == 0 {
        0
    } else {
        marked_bytes(p, size, o)
    }
}
