//! What an instruction reads of its operands, and where it goes on.
ghost use Rattle.std.specs.Prelude.{◌≡◌, ◌<◌, ◌∷◌, [], ℕ, Some, IsNone, IsSome, length, true};
ghost use Rattle.i9_model.specs.Operands.{value, higher_word, source_words, address, target};
ghost use Rattle.i9_model.specs.Step.{following, answer_in, process_controls, message_of, argument_of, atomic_address};
ghost use Rattle.i9_model.specs.Results.{has_result, destination_words, results};
ghost use Rattle.i9_exec.specs.Shown.{answer_of};
ghost use Rattle.i9_processor.specs.State.{state_of};

use crate::names::reads_more;
use crate::words::modified;
use i9_calls::aligned;
use i9_exec::{Done, address as effective_address, compute};
use i9_isa::{Ea, Inst, Operand, word_count};
use i9_model::layout::PC_MASK;
use i9_processor::Processor;

/// The value of a source.
pub(crate) fn value(p: &Processor, o: Operand) -> u32
    ensures { result ≡ value (state_of p.now) o }
{
    match o {
        Operand::Reg(r) => p.register(r),
        Operand::Lit(n) => u32::from(n),
        Operand::Sfr(k) => p.special(k),
    }
}

/// A further word of a source of several.
fn higher_word(p: &Processor, o: Operand, k: u8) -> u32
    requires { k < 4 }
    ensures { result ≡ higher_word (state_of p.now) o k }
{
    match o {
        Operand::Reg(r) => p.register_above(r, k),
        _ => 0,
    }
}

/// The words of a source of several.
pub(crate) fn source_words(p: &Processor, o: Operand) -> [u32; 4]
    ensures { result ≡ source_words (state_of p.now) o 4 }
{
    [
        value(p, o),
        higher_word(p, o, 1),
        higher_word(p, o, 2),
        higher_word(p, o, 3),
    ]
}

/// The effective address.
pub(crate) fn address(p: &Processor, e: &Ea) -> u32
    ensures { result ≡ address (state_of p.now) e.now }
{
    effective_address(e, p.register(e.base), p.register(e.index), p.ip())
}

/// The address of the word that an atomic instruction works on.
pub(crate) fn atomic_address(p: &Processor, i: &Inst) -> u32
    ensures { result ≡ atomic_address i.now (state_of p.now) }
{
    aligned(value(p, i.a))
}

/// Where a branch or a call goes.
pub(crate) fn target(p: &Processor, i: &Inst) -> u32
    ensures { result ≡ target i.now (state_of p.now) }
{
    p.ip().wrapping_add_signed(i.disp)
}

/// The address behind an instruction.
pub(crate) fn following(p: &Processor, i: &Inst) -> u32
    ensures { result ≡ following i.now (state_of p.now) }
{
    p.ip().wrapping_add(4 * word_count(i))
}

/// The process controls after modpc.
pub(crate) fn process_controls(p: &Processor, i: &Inst) -> u32
    ensures { result ≡ process_controls i.now (state_of p.now) }
{
    modified(p.pc(), value(p, i.b), value(p, i.c), PC_MASK)
}

/// The message of sysctl.
pub(crate) fn message(p: &Processor, i: &Inst) -> u8
    ensures { result ≡ message_of i.now (state_of p.now) }
{
    (value(p, i.a) / 256 % 256) as u8
}

/// The argument of a message of sysctl.
pub(crate) fn argument(p: &Processor, i: &Inst) -> u8
    ensures { result ≡ argument_of i.now (state_of p.now) }
{
    (value(p, i.a) % 256) as u8
}

/// The words of src1 and of src2, and the value of src/dst, of which a result is made; zeros stand for those that the
/// name does not look at.
// Most names look at one word of each source, and then no other is read.
#[inline(always)]
#[tactic(auto, using(crate::proofs::Answering::source_rules))]
fn sources_of(p: &Processor, i: &Inst) -> ([u32; 4], [u32; 2], u32)
    ensures { (ac : ℕ) → results i.now result.0 result.1 result.2 ac
        ≡ results i.now (source_words (state_of p.now) i.now.a 4) (source_words (state_of p.now) i.now.b 2)
        (value (state_of p.now) i.now.c) ac }
{
    if reads_more(i.op) {
        let b = [value(p, i.b), higher_word(p, i.b, 1)];
        (source_words(p, i.a), b, value(p, i.c))
    } else {
        ([value(p, i.a), 0, 0, 0], [value(p, i.b), 0], 0)
    }
}

/// What an instruction with a result gives.
pub(crate) fn answer(p: &Processor, i: &Inst) -> Done
    requires { has_result i.now.op ≡ true }
    ensures answer { Some (answer_of result) ≡ answer_in i.now (state_of p.now) }
    ensures words { IsNone result.fault → length result.values.items ≡ destination_words i.now.op }
    ensures unwritten { IsSome result.fault → result.values.items ≡ [] }
{
    let (a, b, c) = sources_of(p, i);
    compute(i, &a, &b, c, p.ac())
}
