//! Words against instructions that were worked out by hand from the instruction formats.
ghost use Rattle.std.specs.Prelude.{IfOk};
ghost use Rattle.i9_isa.specs.Valid.{IsValid};

use crate::rows::{hex_words, pairs_hold};
use i9_decode::{decode, decode_encoded, encode, spare_bits};
use i9_isa::{Inst, valid};
use std::alloc::Global;
use std::test::*;

/// What stands behind an instruction of one word.
const AFTER: u32 = 0xDEAD_BEEF;

/// The instruction of words, which is valid.
fn decoded(first: u32, second: u32) -> Result<Inst, Fail>
    ensures { IfOk result (λ i. IsValid i) }
{
    match decode(first, second) {
        Ok(inst) if valid(&inst) => Ok(inst),
        _ => Err("no valid instruction".into()),
    }
}

/// The words of an instruction.
fn code_text(alloc: Global, i: &Inst) -> Result<String, Fail>
    requires { IsValid i.now }
{
    let code = encode(i);
    match code.second {
        Some(second) => Ok(format!(in alloc; "{:08X} {second:08X}", code.first)?),
        None => Ok(format!(in alloc; "{:08X}", code.first)?),
    }
}

/// The fields of an instruction: its name, src1, src2 and src/dst; mode, base, index, scale and displacement of its
/// effective address; the displacement of a branch, and its hint.
fn inst_text(alloc: Global, i: &Inst) -> Result<String, Fail> {
    let Inst {
        op,
        a,
        b,
        c,
        ea,
        ..
    } = i;
    let operands = format!(in alloc; "{op:?} {a:?} {b:?} {c:?}")?;
    let address = format!(in alloc;
        "{:?} {} {} {} {:X}",
        ea.mode, ea.base, ea.index, ea.scale, ea.disp
    )?;
    Ok(format!(in alloc; "{operands}, {address}, {} {}", i.disp, i.hint)?)
}

/// The words of instructions, and their fields.
const WORDS: &str = "\
5CA00E07          | Mov Lit(7) Reg(0) Reg(20), Offset 0 0 0 0, 0 false
5C200E05          | Mov Lit(5) Reg(0) Reg(4), Offset 0 0 0 0, 0 false
5C102E01          | Mov Lit(1) Reg(0) Sfr(2), Offset 0 0 0 0, 0 false
59B58901          | Subo Lit(1) Reg(22) Reg(22), Offset 0 0 0 0, 0 false
59A09801          | Addo Lit(1) Lit(2) Reg(20), Offset 0 0 0 0, 0 false
66000680          | Flushreg Reg(0) Reg(0) Reg(0), Offset 0 0 0 0, 0 false
66000780          | Syncf Reg(0) Reg(0) Reg(0), Offset 0 0 0 0, 0 false
8CA00041          | Lda Reg(0) Reg(0) Reg(20), Offset 0 0 0 41, 0 false
8CA83000 E0000000 | Lda Reg(0) Reg(0) Reg(21), Disp 0 0 0 E0000000, 0 false
82A56000          | Stob Reg(0) Reg(0) Reg(20), BaseOffset 21 0 0 0, 0 false
92A56004          | St Reg(0) Reg(0) Reg(20), BaseOffset 21 0 0 4, 0 false
90A02010          | Ld Reg(0) Reg(0) Reg(20), BaseOffset 0 0 0 10, 0 false
90B51D15          | Ld Reg(0) Reg(0) Reg(22), BaseIndex 20 21 2 0, 0 false
08000010          | B Reg(0) Reg(0) Reg(0), Offset 0 0 0 0, 16 false
1200000A          | Be Reg(0) Reg(0) Reg(0), Offset 0 0 0 0, 8 true
3505BFF8          | Cmpobne Lit(0) Reg(22) Reg(0), Offset 0 0 0 0, -8 false
";

/// The fields of the instruction of words, which gives these words again, and from them itself.
fn fields_text(alloc: Global, words: &str) -> Result<String, Fail> {
    let numbers = hex_words(alloc, words)?;
    let inst = match numbers.as_slice() {
        [first] => decoded(*first, AFTER)?,
        [first, second] => decoded(*first, *second)?,
        _ => return Err("an instruction has one word or two".into()),
    };
    if code_text(alloc, &inst)?.as_str() != words {
        return Err("it has other words".into());
    }
    if decode_encoded(&inst, AFTER) != Ok(inst) {
        return Err("its words have another instruction".into());
    }
    inst_text(alloc, &inst)
}

#[test]
fn words_and_instructions(rt: HostRuntime) -> Result<(), Fail> {
    pairs_hold(&rt, rt.alloc(), &[WORDS], fields_text)
}

/// Words that are no instruction, each before a remark, and why.
const REFUSED: &str = "\
5CA00E27, both M1 and S1 | Operand
5CA00623, a source sf3 | Operand
5C182E01, a destination sf3 | Operand
3200C001, a src2 sf3 of a branch | Operand
5D200621, a pair from sf1 | Operand
5D280604, a pair to r5 | Operand
5E300604, three words to r6 | Operand
B0902000, four words loaded to g2 | Operand
65002000, M3 of a register that is read | Operand
22A02000, M1 of a test | Operand
90B51E95, scale 5 | Operand
90A01800, mode 0110 | Opcode
00000000, opcode 00 | Opcode
60000000, opcode 60 | Opcode
FFFFFFFF, opcode FF | Opcode
58000280, opcode 58 with extension 5 | Opcode
58000AA0, the same with M1 and S1 | Opcode
98A81800, mode 0110 of a pair to g5 | Opcode
";

/// Why a word is refused.
fn refusal_text(alloc: Global, given: &str) -> Result<String, Fail> {
    let (word, _) = given.split_once(",").unwrap_or((given, ""));
    match decode(u32::from_str_radix(word, 16)?, AFTER) {
        Ok(_) => Err("it is an instruction".into()),
        Err(refusal) => Ok(format!(in alloc; "{refusal:?}")?),
    }
}

#[test]
fn refused_words(rt: HostRuntime) -> Result<(), Fail> {
    pairs_hold(&rt, rt.alloc(), &[REFUSED], refusal_text)
}

/// A word, one of its instruction that has further bits set, and all the bits that are ignored.
const IGNORED: &str = "\
66000680 66003E80 | FFF87F
5CA00E07 5CA55E47 | 7D040
5A058001 5AF5A001 | F82000
22A00000 22A54FFF | 7DFFF
3505BFF8 3505BFF8 | 0
08000010 08000013 | 3
0A000000 0ABCDEF1 | FFFFFF
8CA00041 8CA54041 | 7C000
90B51D15 90B51D55 | 60
84051000 84AD13FF | F803FF
";

/// The bits that are ignored, of two words of one instruction, of which the first has none set.
fn ignored_text(alloc: Global, words: &str) -> Result<String, Fail> {
    let numbers = hex_words(alloc, words)?;
    let [first, other] = numbers.as_slice() else {
        return Err("a row has two words".into());
    };
    let inst = decoded(*first, AFTER)?;
    if decode(*other, AFTER) != Ok(inst) {
        return Err("they have two instructions".into());
    }
    if encode(&inst).first != *first {
        return Err("it has another word".into());
    }
    Ok(format!(in alloc; "{:X}", spare_bits(&inst))?)
}

#[test]
fn ignored_bits(rt: HostRuntime) -> Result<(), Fail> {
    pairs_hold(&rt, rt.alloc(), &[IGNORED], ignored_text)
}
