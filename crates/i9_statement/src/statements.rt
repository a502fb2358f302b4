//! Statements: a mnemonic, operands, and ignored bits in braces.
ghost use Rattle.std.specs.Prelude.{◌≡◌};
ghost use Rattle.std.specs.Int.Bits.{bit_and};
ghost use Rattle.i9_statement.specs.Known.{known_in};
ghost use Rattle.i9_decode.specs.Ignored.{ignored_bits};
ghost use Rattle.i9_statement.specs.Statements.{if_nothing_left, braced, spare_of, spare_noted, with_spare};
ghost use Rattle.i9_statement.specs.Statements.{statement_by, statement_of};
ghost use Rattle.i9_isa.specs.Valid.{IsValid};

use crate::instructions::instruction_of;
use crate::mnemonics::named_by;
use crate::operands::NO_OPERAND;
use crate::{Fault, Known, Noted, behind, closed, cut_blank, cut_byte, fine, least, wrong};
use i9_decode::spare_bits;
use i9_isa::{Inst, NO_ADDRESS, Op};
use i9_text::{number, split_word};

/// Digits between braces.
fn braced(word: &[u8]) -> Option<u32>
    ensures { result ≡ braced word.now }
{
    let inner = behind(word, b'{')?;
    let (digits, rest) = closed(inner, b'}')?;
    if !rest.is_empty() {
        return None;
    }
    let bits = number(digits, 16, 8)?;
    Some(bits as u32)
}

/// The bits in braces; a blank text says 0.
#[tactic(auto, unfolding(crate::specs::Statements::spare_of))]
fn spare_of(text: &[u8]) -> Option<u32>
    ensures { result ≡ spare_of text.now }
{
    let Some((word, rest)) = split_word(text) else {
        return Some(0);
    };
    if split_word(rest).is_some() {
        return None;
    }
    braced(word)
}

/// An instruction, and the ignored bits that are set in its first word.
#[derive(Clone, Copy, Debug, PartialEq, Eq)]
pub struct Statement {
    pub inst: Inst,
    pub spare: u32,
}

/// What stands where no mnemonic is known.
const NO_STATEMENT: Statement = Statement {
    inst: Inst {
        op: Op::Notbit,
        a: NO_OPERAND,
        b: NO_OPERAND,
        c: NO_OPERAND,
        ea: NO_ADDRESS,
        disp: 0,
        hint: false,
    },
    spare: 0,
};

/// The bits in braces, which must be ignored bits of the instruction.
fn spare_noted(inst: &Inst, bits: Option<u32>) -> Noted<u32>
    requires { IsValid inst.now }
    ensures value { result ≡ spare_noted inst.now bits }
    ensures ignored { bit_and result.value (ignored_bits inst.now) ≡ result.value }
{
    match bits {
        Some(bits) if bits & spare_bits(inst) == bits => fine(bits),
        _ => wrong(Fault::Form, 0),
    }
}

/// An instruction with the bits in braces, where they have a form.
fn with_spare(read: Noted<Inst>, bits: Option<u32>) -> Noted<Statement>
    requires { IsValid read.value }
    ensures value { result ≡ with_spare read bits }
    ensures valid { IsValid result.value.inst }
    ensures ignored { bit_and result.value.spare (ignored_bits result.value.inst) ≡ result.value.spare }
{
    let spare = spare_noted(&read.value, bits);
    Noted {
        value: Statement {
            inst: read.value,
            spare: spare.value,
        },
        fault: least(read.fault, spare.fault),
    }
}

/// The instruction at `ip` that a statement says, with values for names. The text begins with the
/// mnemonic; operands stand between commas, and set ignored bits in braces behind them.
///
/// At fault the statement is still one that has words, and its instruction is of the size that was
/// read.
#[tactic(auto, unfolding(crate::specs::Statements::statement_of))]
pub fn statement_of(ip: u32, names: Known<'_>, text: &[u8]) -> Noted<Statement>
    ensures value { result ≡ statement_of ip (known_in names.entry) text.now }
    ensures valid { IsValid result.value.inst }
    ensures ignored { bit_and result.value.spare (ignored_bits result.value.inst) ≡ result.value.spare }
{
    let (word, rest) = cut_blank(text);
    let Some((op, hint)) = named_by(word) else {
        return wrong(Fault::UnknownMnemonic, NO_STATEMENT);
    };
    let (operands, braces) = cut_byte(rest, b'{');
    let read = instruction_of(ip, op, hint, names, operands);
    with_spare(read, spare_of(braces))
}
