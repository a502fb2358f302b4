//! Plans in the state of the other tests, where registers are marked: a mark of a source goes with the result, and
//! decides nothing. What is marked is told as dashes.
ghost use Rattle.std.specs.Prelude.{IfOk, OnOk};
ghost use Rattle.i9_processor.specs.State.{IsDrained};

use crate::check::same;
use crate::plan_open::open_text;
use crate::plan_state::{PC, goes, ready, saves, sets};
use crate::plan_told::next_text;
use crate::rows::{hex_words, rows_hold};
use i9_faults::{Fault, FaultStop};
use i9_model::{Cause, Chosen};
use i9_plan::{DecodeCache, plan_entry, plan_interrupt};
use i9_processor::Processor;
use std::alloc::Global;
use std::test::Fail;

/// The registers of a set get marks, and keep their values.
fn marks(p: &mut Processor, set: u32) -> Result<(), Fail>
    requires { IsDrained p.old }
    ensures { OnOk result (IsDrained p.new) }
{
    for r in 0..32 {
        if (set >> r) % 2 == 1 {
            sets(p, r, p.register(r), true)?;
        }
    }
    Ok(())
}

/// The processor that is about to do the words of a row, with the registers of a set marked.
fn marked(alloc: Global, text: &str) -> Result<Processor, Fail>
    ensures { IfOk result (λ p. IsDrained p) }
{
    match hex_words(alloc, text)?.as_slice() {
        [ac, pc, at, first, second, set] => {
            let mut p = ready(alloc, *at, (*first, *second), *ac, *pc)?;
            marks(&mut p, *set)?;
            goes(&mut p, *ac, *pc, *at)?;
            Ok(p)
        }
        _ => Err("a row has six numbers".into()),
    }
}

/// What loads give marks to, by the bytes that only the save of the frame at 3000 wrote.
const LOADED: &str = "\
ld of the live frame | 0 1F2002 1000 90A42000 0 0    | Ld 90A42000 0: 0 1F2002 0 1004, r20 --------
ldob of it         | 0 1F2002 1000 80A03000 3011 0   | Ldob 80A03000 3011: 0 1F2002 0 1008, r20 --------
ldos of it         | 0 1F2002 1000 88A03000 3012 0   | Ldos 88A03000 3012: 0 1F2002 0 1008, r20 --------
ldq of it          | 0 1F2002 1000 B0A03000 3010 0   | Ldq B0A03000 3010: 0 1F2002 0 1008, r20 -------- -------- -------- --------
ld of a word below | 0 1F2002 1000 90A03000 2FFC 0   | Ld 90A03000 2FFC: 0 1F2002 0 1008, r20 0
ld, all but its base marked | 0 1F2002 1000 90A76000 0 DFFFFFFF | Ld 90A76000 0: 0 1F2002 0 1004, r20 0
";

/// What gets the marks of registers: g4 to g7 are bits 20 to 23 of the set.
const GIVEN: &str = "\
mov g5, g4         | 0 1F2002 1000 5CA00615 0 200000 | Mov 5CA00615 0: 0 1F2002 0 1004, r20 --------
mov 5, g4          | 0 1F2002 1000 5CA01E05 0 100000 | Mov 5CA01E05 0: 0 1F2002 0 1004, r20 5
movl g6, g4        | 0 1F2002 1000 5DA00616 0 800000 | Movl 5DA00616 0: 0 1F2002 0 1004, r20 1 --------
movq g4, g8        | 0 1F2002 1000 5FC00614 0 A00000 | Movq 5FC00614 0: 0 1F2002 0 1004, r24 5 -------- 1 --------
addo g5, g6, g4    | 0 1F2002 1000 59A58015 0 400000 | Addo 59A58015 0: 0 1F2002 0 1004, r20 --------
shlo 1, g5, g4     | 0 1F2002 1000 59A54E01 0 200000 | Shlo 59A54E01 0: 0 1F2002 0 1004, r20 --------
emul g5, g6, g4    | 0 1F2002 1000 67A58015 0 200000 | Emul 67A58015 0: 0 1F2002 0 1004, r20 -------- --------
modify g3, g6, g4  | 0 1F2002 1000 65A58013 0 100000 | Modify 65A58013 0: 0 1F2002 0 1004, r20 --------
lda 4(g5), g4      | 0 1F2002 1000 8CA56004 0 200000 | Lda 8CA56004 0: 0 1F2002 0 1004, r20 --------
lda (g3)[g6*4], g4 | 0 1F2002 1000 8CA4DD16 0 400000 | Lda 8CA4DD16 0: 0 1F2002 0 1004, r20 --------
st g4              | 0 1F2002 1000 92A76000 0 100000 | St 92A76000 0: 0 1F2002 0 1004, 4008 -- -- -- --
st g4, g5 marked   | 0 1F2002 1000 92A76000 0 200000 | St 92A76000 0: 0 1F2002 0 1004, 4008 05 00 00 00
stob g4            | 0 1F2002 1000 82A76000 0 100000 | Stob 82A76000 0: 0 1F2002 0 1004, 4008 --
stos g4            | 0 1F2002 1000 8AA76000 0 100000 | Stos 8AA76000 0: 0 1F2002 0 1004, 4008 -- --
stl g4             | 0 1F2002 1000 9AA76000 0 200000 | Stl 9AA76000 0: 0 1F2002 0 1004, 4008 05 00 00 00 -- -- -- --
stob g4 to the console, g5 marked | 0 1F2002 1000 82A03000 E0000000 200000 | Stob 82A03000 E0000000: 0 1F2002 0 1008, E0000000 05
atadd g1, g6, g4   | 0 1F2002 1000 61A58111 0 400000 | Atadd 61A58111 0: 0 1F2002 0 1004, r20 65438721, 4000 -- -- -- --
atmod g1, g6, g4   | 0 1F2002 1000 61A58011 0 100000 | Atmod 61A58011 0: 0 1F2002 0 1004, r20 65438721, 4000 -- -- -- --
modpc g8, g6, g6   | 0 1F2002 1000 65B58298 0 1000000 | Modpc 65B58298 0: 0 1F2003 0 1004, r22 1F2002
sysctl 4, src/dst marked | 0 1F2002 1000 65A0149C 0 100000 | Sysctl 65A0149C 0: 0 1F2002 0 1004, flushes, group 6
bal, all marked    | 0 1F2002 1000 B000008 0 FFFFFFFF | Bal B000008 0: 0 1F2002 0 1008, r30 1004
flushreg, all marked | 0 1F2002 1000 66000680 0 FFFFFFFF | Flushreg 66000680 0: 0 1F2002 0 1004, flushes
";

/// What a marked register may not decide. This comes before faults and accesses, but not before the words of the
/// instruction.
const DECIDED: &str = "\
ld (g5)            | 0 1F2002 1000 90A56000 0 200000 | meets 1000
ld at 4001, g1 marked | 0 1F2002 1000 90A46000 0 20000 | meets 1000
st, its base marked | 0 1F2002 1000 92A76000 0 20000000 | meets 1000
stob g4 to the console | 0 1F2002 1000 82A03000 E0000000 100000 | meets 1000
cmpo g5, g4        | 0 1F2002 1000 5A050015 0 200000 | meets 1000
chkbit 3, g5       | 0 1F2002 1000 5A054F03 0 200000 | meets 1000
addc g5, g6, g4    | 0 1F2002 1000 5BA58015 0 400000 | meets 1000
addi g5, g6, g4    | 0 1F2002 1000 59A58095 0 200000 | meets 1000
divo g5, g6, g4    | 0 1F2002 1000 70A58595 0 200000 | meets 1000
scanbit g5, g4     | 0 1F2002 1000 64A00095 0 200000 | meets 1000
cmpobe g5, g4      | 0 1F2002 1000 32AD0010 0 100000 | meets 1000
bx (g5)            | 0 1F2002 1000 84056000 0 200000 | meets 1000
balx (g5), g14     | 0 1F2002 1000 85F56000 0 200000 | meets 1000
callx (g5)         | 0 1F2002 1000 86056000 0 200000 | meets 1000
calls g4           | 0 1F2002 1000 66000014 0 100000 | meets 1000
atadd, g1 marked   | 0 1F2002 1000 61A05111 0 20000 | meets 1000
modpc g6, g8, g6   | 0 1F2002 1000 65B60296 0 1000000 | meets 1000
modpc in user mode, all marked | 0 1F2000 1000 65B58296 0 FFFFFFFF | meets 1000
sysctl, src1 marked | 0 1F2002 1000 65A0149C 0 10000000 | meets 1000
sysctl 3, src/dst marked | 0 1F2002 1000 65DE8499 0 8000000 | meets 1000
sdma 1, g4, g8     | 0 1F2002 1000 63C50801 0 100000 | meets 1000
mov g5, sf0        | 0 1F2002 1000 5C002615 0 200000 | meets 1000
ret, pfp marked    | 0 1F2002 1000 A000000 0 1       | meets 1000
ret, fp marked     | 0 1F2002 1000 A000000 0 80000000 | Ret A000000 0: 0 1F2002 0 8, returns 3000 0
call, fp marked    | 0 1F2002 1000 9000008 0 80000000 | meets 1000
call, sp marked    | 0 1F2002 1000 9000008 0 2       | meets 1000
calls 5, sp marked | 0 1F2002 1000 66000805 0 2      | meets 1000
calls past the table, fp marked | 0 1F2002 1000 66000015 0 80000000 | Calls 66000015 0: fault 7 2
st to the live frame | 0 1F2002 1000 92A42000 0 100000 | meets 3010
a wrong operand, all marked | 0 1F2002 1000 5DA00611 0 FFFFFFFF | refused 2 4
a first word in the live frame, all marked | 0 1F2002 3002 8CA83000 0 FFFFFFFF | meets 3002
";

/// What is planned in the state of a row.
fn planned(alloc: Global, state: &str) -> Result<String, Fail> {
    let p = marked(alloc, state)?;
    next_text(alloc, &p, &mut DecodeCache::new(alloc)?)
}

#[test]
fn plans_by_marks(rt: HostRuntime) -> Result<(), Fail> {
    rows_hold(&rt, rt.alloc(), &[LOADED, GIVEN, DECIDED], planned)
}

/// While something is open marks go with values too, and what they may not decide waits.
const OPEN: &str = "\
addo g5, g6, g4    | 0 1F2002 1000 59A58015 0 400000 | Addo 59A58015 0: 0 1F2002 0 1004, r20 --------
addi g5, g6, g4    | 0 1F2002 1000 59A58095 0 200000 | waits
";

/// What is planned while something is open, in the state of a row.
fn planned_open(alloc: Global, state: &str) -> Result<String, Fail> {
    let p = marked(alloc, state)?;
    open_text(alloc, &p)
}

#[test]
fn plans_by_marks_while_something_is_open(rt: HostRuntime) -> Result<(), Fail> {
    rows_hold(&rt, rt.alloc(), &[OPEN], planned_open)
}

#[test]
fn enters_nothing_by_marked_pointers(rt: HostRuntime) -> Result<(), Fail> {
    let nmi = Chosen {
        vector: 248,
        cause: Cause::Nmi,
    };
    let fault = Fault {
        kind: 2,
        subtype: 1,
        address: 0x0FFC,
    };
    // fp, and sp, on whose stack both handlers would stand.
    for set in ["80000000", "2"] {
        let text = format!(in rt.alloc(); "0 1F2002 1000 0 0 {set}")?;
        let p = marked(rt.alloc(), text.as_str())?;
        same(&rt, plan_interrupt(&p, &nmi).err(), Some(0x1000));
        same(
            &rt,
            plan_entry(&p, &fault).err(),
            Some(FaultStop::Hazard(0x1000)),
        );
        // What comes before the push stops the entry first.
        let dead = FaultStop::Dead {
            code: 1,
            address: 0x1118,
        };
        let other = Fault { kind: 3, ..fault };
        same(&rt, plan_entry(&p, &other).err(), Some(dead));
    }
    Ok(())
}

#[test]
fn returns_to_marked_words(rt: HostRuntime) -> Result<(), Fail> {
    let mut p = ready(rt.alloc(), 0x1000, (0x0A00_0000, 0), 0, PC)?;
    // The marks of r3 and r15 are saved with them, and that of rip is not.
    marks(&mut p, 0x0000_800C)?;
    saves(&mut p)?;
    goes(&mut p, 0, PC, 0x1000)?;
    same(
        &rt,
        next_text(rt.alloc(), &p, &mut DecodeCache::new(rt.alloc())?)?.as_str(),
        "Ret A000000 0: 0 1F2002 0 8, returns 3040 8008",
    );
    Ok(())
}
