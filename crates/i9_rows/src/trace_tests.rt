//! Traces through the command, at texts worked out by hand: the statements from the instruction formats, and the rest
//! from the rules of a run.
use crate::check::{must, must_at, same};
use crate::rows::{BOOT, PRCB, held, hold};
use crate::tests::{AT_ONCE, PRINTED, SMALLEST, answers, leaves_lines};
use std::test::*;

/// What is printed of the smallest image where the instruction at 1010 is traced.
pub(crate) const TRACED: &str = "#out 41
#t 3 00001010 mov 7, g4
#point 5 end 00001018 00000000 001F2002
#g 00000000 00000000 00000000 00000000 00000007 E0000000 00000000 00000000 00000000 00000000 00000000 00000000 00000000 00000000 00000000 00000000
#l 00000000 00000040 00000000 00000000 00000000 00000000 00000000 00000000 00000000 00000000 00000000 00000000 00000000 00000000 00000000 00000000
#end exit 00000007
";

/// What is printed of it where the last instruction is, the one at 1014.
const TRACED_AT_LAST: &str = "#out 41
#t 4 00001014 st g4, 4(g5)
#point 5 end 00001018 00000000 001F2002
#g 00000000 00000000 00000000 00000000 00000007 E0000000 00000000 00000000 00000000 00000000 00000000 00000000 00000000 00000000 00000000 00000000
#l 00000000 00000040 00000000 00000000 00000000 00000000 00000000 00000000 00000000 00000000 00000000 00000000 00000000 00000000 00000000 00000000
#end exit 00000007
";

/// Words whose range has 1010 and no other address of an instruction.
const WORDS: &str = "trace a - - 100 1010 1010
trace a - - 5 00001010 00001010
trace a - 1 100 100d 1013
trace a - 15 10000000 100D 1011";

/// Words whose range has 1014 and no other address of an instruction.
const LAST_WORDS: &str = "trace a - - 100 1011 ffffffff
trace a - - 100 1014 FFFFFFFF
trace a - - 100 1014 1014";

/// Words whose range has no address of an instruction: the one that begins at 1004 has two words. The range may be
/// empty, as one is whose end comes before its start.
const NO_WORDS: &str = "trace a - - 100 1011 1010
trace a - - 100 ffffffff 0
trace a - - 100 0 fff
trace a - - 100 1005 100b
trace a - - 100 1018 FFFFFFFF";

/// Words in no form.
const FORMLESS: &str = "trace a - - 100
trace a - - 100 1010
trace a - - 100 1010 1010 1010
trace a - - 100 001001010 1010
trace a - - 100 1010 001001010
trace a - - 100 0x1010 1010
trace a - - 100 1010 0x1010
trace a - - 100  1010
trace a - - 100 1010\x20
trace a - - 100 - 1010
trace a - - 100 1010 -
trace a - - 100 +10 1010
trace a - - 100 1010 101g
trace  - - 100 1010 1010
trace a  - 100 1010 1010
trace a - 16 100 1010 1010
trace a - - 10000001 1010 1010
run a - - 100 1010 1010
Trace a - - 100 1010 1010";

/// Room for bytes, the write that fails, and the lines of `TRACED` that are printed: of eight bytes, of 24, and of 40.
const FAILING_WRITES: &str = "4096 1 0
4096 2 1
4096 3 2
4096 4 3
0 0 0
8 0 1
31 0 1
32 0 2
71 0 2
72 0 3";

/// Traces of runs without a PRCB.
const ALONE: &str = "
== The line of an instruction comes before what it prints.
        lda   0x41, g4
        lda   0xE0000000, g5
        stob  g4, (g5)
        mov   7, g4
        st    g4, 4(g5)
trace 9 0 FFFFFFFF
#t 0 00001000 lda 65, g4
#t 1 00001004 lda 0xE0000000, g5
#t 2 0000100C stob g4, (g5)
#out 41
#t 3 00001010 mov 7, g4
#t 4 00001014 st g4, 4(g5)
#point 5 end 00001018 00000000 001F2002
#g 4=7 5=E0000000
#l 1=40
#end exit 00000007
status 0
== An instruction that is done twice, and a branch to it.
loop:   addo  1, g4, g4
        cmpobne 2, g4, loop
trace 4 1000 1004
#t 0 00001000 addo 1, g4, g4
#t 1 00001004 cmpobne 2, g4, 0x00001000
#t 2 00001000 addo 1, g4, g4
#t 3 00001004 cmpobne 2, g4, 0x00001000
#point 4 end 00001008 00000002 001F2002
#g 4=2
#l 1=40
#end limit
status 0
-- The first of both alone.
trace 4 fff 1003
#t 0 00001000 addo 1, g4, g4
#t 2 00001000 addo 1, g4, g4
#point 4 end 00001008 00000002 001F2002
#g 4=2
#l 1=40
#end limit
status 0
";

/// Traces of runs with faults and events.
const WITH_TABLES: &str = "
== An instruction of two words that faults, and those of its handler.
        ld    0x2001, g4
        .org  fault_configuration
        .word 0                 # unaligned accesses are faults
        .org  operation_faults
        .word handler, 0
        .org  0x1100
handler:
        flushreg
        ld    stack+8, g4
trace 3 1000 1104
#t 0 00001000 ld 0x00002001, g4
#point 1 fault 00001100 00000000 001F2002
#g 15=3050
#l 0=3001 1=3090
#t 1 00001100 flushreg
#point 2 flush 00001104 00000000 001F2002
#g 15=3050
#l 0=3001 1=3090
#t 2 00001104 ld 0x00003008, g4
#point 3 end 0000110C 00000000 001F2002
#g 4=1008 15=3050
#l 0=3001 1=3090
#end limit
status 0
== A word that is refused, whose second word is not told.
        .word 0x90A03E85, 0x2000
        .org  operation_faults
        .word handler, 0
        .org  0x1100
handler:
        flushreg
trace 2 1000 1004
#t 0 00001000 .word 0x90A03E85
#point 1 fault 00001100 00000000 001F2002
#g 15=3050
#l 0=3001 1=3090
#point 2 flush 00001104 00000000 001F2002
#g 15=3050
#l 0=3001 1=3090
#point 2 end 00001104 00000000 001F2002
#g 15=3050
#l 0=3001 1=3090
#end limit
status 0
== An instruction whose fault is imprecise has its line, and the one that overtakes it has none.
        divi  0, 7, g4
        addo  1, 2, g5
trace 5 0 ffffffff
#t 0 00001000 divi 0, 7, g4
#end imprecise 00001000
status 4
-- The fault is precise, by an entry that is dead.
        .org  ac_image
        .word 0x8000            # no imprecise faults
        .org  arithmetic_faults
        .word 6, 0x27E
trace 5 1000 1000
#t 0 00001000 divi 0, 7, g4
#point 1 end 00001004 00008000 001F2002
#g 15=3000
#l 1=3040
#end dead 2 0000091C
status 4
== Events and the entry of an interrupt have no line of an instruction.
        mov   1, g4
        .org  0x23E4            # vector 248
        .word handler
        .org  0x1100
handler:
        mov   2, g5
at 0 nmi
at 0 dma 3
trace 1 0 FFFFFFFF
at 0 nmi
#point 0 event 00001000 00000000 001F2002
#g 15=3000
#l 1=3040
#point 0 int 00001100 00000000 001F2002
#g 15=3050
#l 0=3007 1=3090
at 0 dma 3
#point 0 event 00001100 00000000 001F2002
#g 15=3050
#l 0=3007 1=3090
#t 0 00001100 mov 2, g5
#point 1 end 00001104 00000000 001F2002
#g 5=2 15=3050
#l 0=3007 1=3090
#end limit
status 0
";

#[test]
fn traces_a_range(rt: HostRuntime) -> Result<(), Fail> {
    let alloc = rt.alloc();
    must(&rt, answers(alloc, SMALLEST, WORDS, 0, TRACED)?);
    must(
        &rt,
        answers(alloc, SMALLEST, LAST_WORDS, 0, TRACED_AT_LAST)?,
    );
    must(&rt, answers(alloc, SMALLEST, NO_WORDS, 0, PRINTED)?);
    must(
        &rt,
        answers(alloc, SMALLEST, "trace a - - 0 0 ffffffff", 0, AT_ONCE)?,
    );
    Ok(())
}

#[test]
fn refuses_as_a_run_does(rt: HostRuntime) -> Result<(), Fail> {
    let alloc = rt.alloc();
    let some = "trace a - - 10 0 0";
    let unread = "trace b - - 10 0 0\ntrace a b - 10 0 0";
    must(&rt, answers(alloc, SMALLEST, FORMLESS, 1, "#words\n")?);
    must(&rt, answers(alloc, SMALLEST, unread, 5, "#read\n")?);
    must(&rt, answers(alloc, "", some, 2, "#image line 1 kind 6\n")?);
    must(
        &rt,
        answers(
            alloc,
            SMALLEST,
            "trace a a - 10 0 0",
            3,
            "#schedule line 1 kind 1\n",
        )?,
    );
    Ok(())
}

#[test]
fn traces_instructions_at_each_number_of_sets(rt: HostRuntime) -> Result<(), Fail> {
    same(&rt, held(rt.alloc(), &[BOOT], ALONE)?, 3);
    hold(&rt, rt.alloc(), &[PRCB], WITH_TABLES, 5)
}

#[test]
fn writes_that_fail_leave_the_lines_before(rt: HostRuntime) -> Result<(), Fail> {
    for row in FAILING_WRITES.lines() {
        let words = "trace a - - 100 1010 1010";
        must_at(&rt, leaves_lines(rt.alloc(), words, TRACED, row)?, row);
    }
    Ok(())
}
