//! Resources, sides, latencies and transfers, worked out by hand from the descriptions of the instructions.
use crate::check::must_at;
use crate::rows::{instruction, pairs_hold, rows_hold};
use i9_isa::{Ea, Inst, Operand, keeps_marks, latency, reads, side_of, transfer, valid, writes};
use std::alloc::Global;
use std::test::*;

/// What instructions of the register format read and write, as sets of resources, their sides and their turns.
const REGISTERS: &str = "\
addo 1, g0, g1     | 10000 20000 Reg 1
mov g0, sf2        | 10000 0 Reg 1
alterbit 1, g0, g1 | 100010000 20000 Reg 1
addc 1, g0, g1     | 100010000 100020000 Reg 1
addi 1, g0, g1     | 10000 20000 Reg 1
cmpo g1, g0        | 30000 100000000 Reg 1
concmpi 0, g0      | 100010000 100000000 Reg 1
modify g0, 0, g1   | 30000 20000 Reg 1
modac g0, 0, g1    | 100010000 100020000 Reg 1
emul 1, g0, g2     | 10000 C0000 Reg 5
ediv 1, g2, g0     | C0000 30000 Reg 37
movt g0, g4        | 70000 700000 Reg 1
sdma 0, 0, g0      | 70000 0 Reg 8
sysctl g0, 0, g1   | 30000 18000FFFF Reg 8
calls g0           | 10000 8000FFFF Reg 4
atadd g0, 1, g1    | 10000 20000 Reg 2
atmod g0, 1, g1    | 30000 20000 Reg 2
";

/// The same of branches, loads and stores.
const OTHERS: &str = "\
teste g0          | 100000000 10000 Ctl 1
cmpobe g0, g1, 0  | 30000 100000000 Ctl 1
be 0              | 100000000 0 Ctl 1
faulte            | 100000000 0 Ctl 1
b 0               | 0 0 Ctl 1
bal 0             | 0 40000000 Ctl 1
call 0            | 0 8000FFFF Ctl 4
ret               | 0 18000FFFF Ctl 4
ld (g4)[g5*4], g6 | 300000 400000 Mem 1
stq g4, !(g8)     | 1F00000 0 Mem 1
lda 0, g0         | 0 10000 Mem 1
balx !(g8), g0    | 1000000 10000 Ctl 1
callx !(g8)       | 1000000 8000FFFF Ctl 4
";

/// What a valid instruction reads and writes, its side and its turns.
fn resources_text(alloc: Global, statement: &str) -> Result<String, Fail> {
    let i = &instruction(statement)?;
    if !valid(i) {
        return Err("it is not valid".into());
    }
    let side = side_of(i);
    Ok(format!(in alloc; "{:X} {:X} {side:?} {}", reads(i), writes(i), latency(i))?)
}

#[test]
fn resources_of_instructions(rt: HostRuntime) -> Result<(), Fail> {
    pairs_hold(&rt, rt.alloc(), &[REGISTERS, OTHERS], resources_text)
}

/// The direction of each load and store, the bytes and registers that it moves, and its sign; and names that move none.
const TRANSFERS: &str = "\
ldob 0, g0      | Load 1 1 false
ldib 0, g0      | Load 1 1 true
ldos 0, g0      | Load 2 1 false
ldis 0, g0      | Load 2 1 true
ld 0, g0        | Load 4 1 false
ldl 0, g0       | Load 8 2 false
ldt 0, g0       | Load 12 3 false
ldq 0, g0       | Load 16 4 false
stob g0, 0      | Store 1 1 false
stib g0, 0      | Store 1 1 true
stos g0, 0      | Store 2 1 false
stis g0, 0      | Store 2 1 true
st g0, 0        | Store 4 1 false
stl g0, 0       | Store 8 2 false
stt g0, 0       | Store 12 3 false
stq g0, 0       | Store 16 4 false
lda 0, g0       | none
bx 0            | none
balx 0, g0      | none
callx 0         | none
atadd g0, 1, g1 | none
mov 0, g0       | none
";

/// What a name moves.
fn transfer_text(alloc: Global, statement: &str) -> Result<String, Fail> {
    let Some(moved) = transfer(instruction(statement)?.op) else {
        return Ok(format!(in alloc; "none")?);
    };
    let (direction, size) = (moved.direction, moved.size);
    Ok(format!(in alloc;
        "{direction:?} {} {} {}",
        size.bytes(),
        size.registers(),
        moved.signed
    )?)
}

#[test]
fn transfers_of_names(rt: HostRuntime) -> Result<(), Fail> {
    pairs_hold(&rt, rt.alloc(), &[TRANSFERS], transfer_text)
}

/// Names that keep marks of stale values, each of them.
const KEEP_MARKS: &str = "\
and 1, g0, g1
andnot 1, g0, g1
notand 1, g0, g1
xor 1, g0, g1
or 1, g0, g1
nor 1, g0, g1
xnor 1, g0, g1
not g0, g1
ornot 1, g0, g1
notor 1, g0, g1
nand 1, g0, g1
setbit 1, g0, g1
clrbit 1, g0, g1
notbit 1, g0, g1
alterbit 1, g0, g1
addo 1, g0, g1
subo 1, g0, g1
mulo 1, g0, g1
emul 1, g0, g2
shro 1, g0, g1
shlo 1, g0, g1
shri 1, g0, g1
shrdi 1, g0, g1
rotate 1, g0, g1
modify g0, 0, g1
extract 1, 2, g1
mov g0, g1
movl g0, g2
movt g0, g4
movq g0, g4
lda 0, g0
";

/// Names that do not: their sources decide a fault, a condition, an address or a control, or they have none.
const KEEP_NO_MARKS: &str = "\
addc 1, g0, g1
subc 1, g0, g1
addi 1, g0, g1
subi 1, g0, g1
muli 1, g0, g1
divo 1, g0, g1
remi 1, g0, g1
modi 1, g0, g1
ediv 1, g2, g0
shli 1, g0, g1
cmpo g1, g0
cmpinco 1, g0, g1
concmpi 0, g0
chkbit 1, g0
scanbit g0, g1
scanbyte g0, g1
teste g0
cmpobe g0, g1, 0
bbs 1, g0, 0
be 0
faulte
b 0
bal 0
bx 0
balx 0, g0
call 0
callx 0
calls g0
ret
ld 0, g0
st g0, 0
atadd g0, 1, g1
atmod g0, 1, g1
modac g0, 0, g1
modpc g0, g0, g1
sysctl g0, 0, g1
sdma 0, 0, g0
flushreg
syncf
";

#[test]
fn names_that_keep_marks(rt: HostRuntime) -> Result<(), Fail> {
    for statement in KEEP_MARKS.lines() {
        must_at(&rt, keeps_marks(&instruction(statement)?), statement);
    }
    for statement in KEEP_NO_MARKS.lines() {
        must_at(&rt, !keeps_marks(&instruction(statement)?), statement);
    }
    Ok(())
}

/// Whether an instruction is valid by the uses of its operands, its mode and its format, where a field of it is another
/// one.
const VALIDITY: &str = "\
addo 31, sf2, g15  |                  | valid
addo 1, g0, g1     | src1 literal 32  | invalid
addo 1, g0, g1     | src2 special 3   | invalid
addo 1, g0, g1     | dst literal 17   | invalid
cmpo 1, g0         |                  | valid
cmpo 1, g0         | dst register 17  | invalid
movl g0, g2        |                  | valid
movl g0, g2        | src1 register 17 | invalid
movt g4, g8        |                  | valid
movt g4, g8        | dst register 22  | invalid
ld (g4)[g5*16], g0 |                  | valid
ld (g4)[g5*16], g0 | scale 5          | invalid
be.f 0xFF800000    |                  | valid
be 0x7FFFFC        |                  | valid
be 0               | target 8388608   | invalid
be 0               | target 6         | invalid
";

/// An operand of a kind and a number.
fn operand(text: &str) -> Result<Operand, Fail> {
    let (kind, number) = text.split_once(" ").unwrap_or((text, ""));
    let number = number.parse::<u8>()?;
    match kind {
        "register" => Ok(Operand::Reg(number)),
        "literal" => Ok(Operand::Lit(number)),
        "special" => Ok(Operand::Sfr(number)),
        _ => Err("no such operand".into()),
    }
}

/// An instruction with another field, where one is named.
fn changed(i: Inst, change: &str) -> Result<Inst, Fail> {
    let (field, value) = change.split_once(" ").unwrap_or((change, ""));
    let mut i = i;
    match field {
        "" => {}
        "src1" => i.a = operand(value)?,
        "src2" => i.b = operand(value)?,
        "dst" => i.c = operand(value)?,
        "scale" => {
            i.ea = Ea {
                scale: value.parse::<u8>()?,
                ..i.ea
            }
        }
        "target" => i.disp = value.parse::<i32>()?,
        _ => return Err("no such field".into()),
    }
    Ok(i)
}

/// Whether an instruction is valid, where a field of it is another one.
fn validity_text(alloc: Global, i: &Inst, change: &str) -> Result<String, Fail> {
    let is_valid = valid(&changed(*i, change)?);
    let told = if is_valid { "valid" } else { "invalid" };
    Ok(told.to_string(alloc)?)
}

#[test]
fn valid_instructions(rt: HostRuntime) -> Result<(), Fail> {
    rows_hold(&rt, rt.alloc(), &[VALIDITY], validity_text)
}
