//! Which faults instructions raise, worked out by hand.
use crate::rows::{hex_words, rows_hold};
use crate::told::Told;
use Operand::{Lit, Reg, Sfr};
use i9_faults::{is_unaligned, raises};
use i9_isa::{Inst, NO_ADDRESS, Op, Operand, valid};
use std::alloc::Global;
use std::test::Fail;

/// The instructions that load and store.
fn access_op(name: &str) -> Result<Op, Fail> {
    match name {
        "ldob" => Ok(Op::Ldob),
        "stib" => Ok(Op::Stib),
        "ldos" => Ok(Op::Ldos),
        "stos" => Ok(Op::Stos),
        "ldl" => Ok(Op::Ldl),
        "stl" => Ok(Op::Stl),
        "ldt" => Ok(Op::Ldt),
        "stt" => Ok(Op::Stt),
        _ => Err("no such instruction".into()),
    }
}

/// Those that load and store one word or four, and `addo`, `atadd`, `cmpobe` and `mov`.
fn common_op(name: &str) -> Result<Op, Fail> {
    match name {
        "ld" => Ok(Op::Ld),
        "st" => Ok(Op::St),
        "ldq" => Ok(Op::Ldq),
        "stq" => Ok(Op::Stq),
        "addo" => Ok(Op::Addo),
        "atadd" => Ok(Op::Atadd),
        "cmpobe" => Ok(Op::Cmpobe),
        "mov" => Ok(Op::Mov),
        _ => access_op(name),
    }
}

/// The instruction of a name.
fn op(name: &str) -> Result<Op, Fail> {
    match name {
        "calls" => Ok(Op::Calls),
        "modpc" => Ok(Op::Modpc),
        "sdma" => Ok(Op::Sdma),
        "sysctl" => Ok(Op::Sysctl),
        _ => common_op(name),
    }
}

/// A register, a special function register or a literal, whose number is decimal.
fn operand(text: &str) -> Result<Operand, Fail> {
    if let Some(number) = text.strip_prefix("sf") {
        return Ok(Sfr(number.parse::<u8>()?));
    }
    if let Some(number) = text.strip_prefix("r") {
        return Ok(Reg(number.parse::<u8>()?));
    }
    Ok(Lit(text.parse::<u8>()?))
}

/// An instruction without an address, of a name and three operands.
fn inst(text: &str) -> Result<Inst, Fail> {
    let mut parts = text.split_whitespace();
    match (parts.next(), parts.next(), parts.next(), parts.next()) {
        (Some(name), Some(a), Some(b), Some(c)) => Ok(Inst {
            op: op(name)?,
            a: operand(a)?,
            b: operand(b)?,
            c: operand(c)?,
            ea: NO_ADDRESS,
            disp: 0,
            hint: false,
        }),
        _ => Err("no instruction".into()),
    }
}

/// The type and the subtype of a fault, which are decimal.
fn number_text(alloc: Global, number: Option<(u8, u16)>) -> Told {
    match number {
        Some((kind, subtype)) => Ok(format!(in alloc; "fault {kind} {subtype}")?),
        None => Ok(format!(in alloc; "none")?),
    }
}

/// What a valid instruction raises, from the values of its sources, PC, the configuration and its access, and whether
/// that is unaligned.
fn raised_text(
    alloc: Global,
    i: &Inst,
    (a, b, pc, config): (u32, u32, u32, u32),
    access: Option<(u32, u32)>,
) -> Told {
    if !valid(i) {
        return Err("no valid instruction".into());
    }
    let mut text = number_text(alloc, raises(i, a, b, access, pc, config))?;
    if is_unaligned(access, config) {
        text.push_str(", unaligned")?;
    }
    Ok(text)
}

/// What an instruction raises in the state of a row.
fn told(alloc: Global, text: &str, state: &str) -> Told {
    let i = inst(text)?;
    match hex_words(alloc, state)?.as_slice() {
        &[a, b, pc, config] => raised_text(alloc, &i, (a, b, pc, config), None),
        &[a, b, pc, config, address, n] => {
            raised_text(alloc, &i, (a, b, pc, config), Some((address, n)))
        }
        _ => Err("no such state".into()),
    }
}

/// An instruction; the values of its two sources, PC, the configuration, and the address and the bytes of its access,
/// if there is one; and the fault. In user mode PC is 1F2401, with every kept bit but that of supervisor mode, and in
/// supervisor mode it is that bit alone. A mismatch comes before all.
const MISMATCHES: &str = "\
modpc r4 r5 r6   | 7 0 1F2401 0             | none
modpc r4 r5 r6   | 0 1 1F2401 0             | fault 10 1
modpc r4 r5 r6   | 0 80000000 1F2401 0      | fault 10 1
modpc r4 r5 r6   | 0 1 2 0                  | none
modpc r4 sf1 r6  | 0 0 1F2401 0             | fault 10 1
modpc r4 sf1 r6  | 0 0 2 0                  | none
sysctl r4 r5 r6  | 100 0 1F2401 0           | fault 10 1
sysctl r4 r5 r6  | 900 0 1F2401 0           | fault 10 1
sdma r4 r5 r8    | 0 0 1F2401 0             | fault 10 1
sdma r4 r5 r8    | 4 0 1F2401 0             | fault 10 1
mov sf0 r0 r4    | 0 0 1F2401 0             | fault 10 1
mov sf0 r0 r4    | 0 0 2 0                  | none
mov 1 r0 sf2     | 1 0 1F2401 0             | fault 10 1
mov 1 r0 sf2     | 1 0 2 0                  | none
cmpobe r4 sf1 r0 | 0 0 1F2401 0             | fault 10 1
cmpobe r4 sf1 r0 | 0 0 2 0                  | none
calls sf0 r0 r0  | 104 0 1F2401 0           | fault 10 1
calls sf0 r0 r0  | 104 0 2 0                | fault 7 2
atadd r4 sf0 r6  | 1002 0 1F2401 0 1002 4   | fault 10 1, unaligned
atadd r4 sf0 r6  | 1002 0 2 0 1002 4        | fault 2 3, unaligned
";

/// Values that are refused. sysctl has messages 0 to 3, whatever stands below and above them, and groups 0 to 6 of
/// message 4; sdma has channels 0 to 3; calls has system procedures 0 to 259.
const VALUES: &str = "\
sysctl r4 r5 r6  | 0 0 2 0                  | none
sysctl r4 r5 r6  | FF 0 2 0                 | none
sysctl r4 r5 r6  | FFFF03FF 0 2 0           | none
sysctl r4 r5 r6  | 400 0 2 0                | none
sysctl r4 r5 r6  | FFFF0406 0 2 0           | none
sysctl r4 r5 r6  | 407 0 2 0                | fault 2 4
sysctl r4 r5 r6  | 4FF 0 2 0                | fault 2 4
sysctl r4 r5 r6  | 500 0 2 0                | fault 2 4
sysctl r4 r5 r6  | 900 0 2 0                | fault 2 4
sysctl r4 r5 r6  | FF06 0 2 0               | fault 2 4
sdma r4 r5 r8    | 3 0 2 0                  | none
sdma r4 r5 r8    | 4 0 2 0                  | fault 2 4
sdma r4 r5 r8    | FFFFFF00 0 2 0           | fault 2 4
calls r4 r0 r0   | 103 0 1F2401 0           | none
calls r4 r0 r0   | 104 0 1F2401 0           | fault 7 2
calls r4 r0 r0   | 104 0 2 0                | fault 7 2
calls r4 r0 r0   | FFFFFFFF 0 1F2401 0      | fault 7 2
addo r4 r5 r6    | 104 0 1F2401 0           | none | these numbers are nothing to other instructions
addo r4 r5 r6    | 900 0 1F2401 0           | none
sysctl r4 r5 r6  | 500 0 2 0 1002 4         | fault 2 4, unaligned | an unaligned access comes after them
calls r4 r0 r0   | 104 0 1F2401 0 1002 4    | fault 7 2, unaligned
calls r4 r0 r0   | 103 0 1F2401 0 1002 4    | fault 2 3, unaligned
";

/// Accesses. Three words are aligned as four are: 1008 is a multiple of 12, and 1010 is none. Bit 30 of the
/// configuration masks the fault, and no other bit does.
const ACCESSES: &str = "\
ldob r0 r0 r4    | 0 0 1F2401 0 1001 1      | none
stib r0 r0 r4    | 0 0 1F2401 0 1003 1      | none
ldos r0 r0 r4    | 0 0 1F2401 0 1001 2      | fault 2 3, unaligned
stos r0 r0 r4    | 0 0 1F2401 0 1002 2      | none
ld r0 r0 r4      | 0 0 1F2401 0 1002 4      | fault 2 3, unaligned
st r0 r0 r4      | 0 0 1F2401 0 1001 4      | fault 2 3, unaligned
ld r0 r0 r4      | 0 0 1F2401 0 1004 4      | none
ldl r0 r0 r4     | 0 0 1F2401 0 1004 8      | fault 2 3, unaligned
stl r0 r0 r4     | 0 0 1F2401 0 1008 8      | none
ldt r0 r0 r4     | 0 0 1F2401 0 1008 C      | fault 2 3, unaligned
stt r0 r0 r4     | 0 0 1F2401 0 100C C      | fault 2 3, unaligned
ldt r0 r0 r4     | 0 0 1F2401 0 1010 C      | none
ldq r0 r0 r4     | 0 0 1F2401 0 1008 10     | fault 2 3, unaligned
stq r0 r0 r4     | 0 0 1F2401 0 FFFFFFF0 10 | none
ldq r0 r0 r4     | 0 0 1F2401 40000000 1008 10 | none
ld r0 r0 r4      | 0 0 1F2401 40000000 1001 4 | none
ld r0 r0 r4      | 0 0 1F2401 BFFFFFFF 1001 4 | fault 2 3, unaligned
ldq r0 r0 r4     | 0 0 1F2401 0             | none
";

#[test]
fn raises_faults(rt: HostRuntime) -> Result<(), Fail> {
    rows_hold(&rt, rt.alloc(), &[MISMATCHES, VALUES, ACCESSES], told)
}
