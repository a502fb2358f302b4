//! The table of results through the command, at registers worked out by hand.
use crate::rows::{BOOT, PRCB, hold};
use std::test::*;

/// The table of results.
const RESULTS: &str = "
== Results of many kinds, an overflow that is masked, and instructions without a result.
        lda   0x12345678, g0
        extract 4, 8, g0
        lda   -7, g1
        shrdi 1, g1, g2
        lda   0x00340000, g3
        lda   0x12345678, g4
        subo  1, g5, g6
        movl  5, g8
        scanbyte g4, g3
        teste g10
        lda   0x1000, g11
        modac g11, g11, g12     # integer overflow is masked
        lda   0x7FFFFFFF, g13
        addi  1, g13, g13
        syncf
        mark
        fmark
        udma
        modtc 2, 2, g14
        modtc 0, 0, r4
run 20
#point 15 sync 00001054 00001102 001F2002
#g 0=67 1=FFFFFFF9 2=FFFFFFFD 3=340000 4=12345678 6=FFFFFFFF 8=5 10=1 11=1000 12=2 13=80000000
#l 1=40
#point 20 end 00001068 00001102 001F2002
#g 0=67 1=FFFFFFF9 2=FFFFFFFD 3=340000 4=12345678 6=FFFFFFFF 8=5 10=1 11=1000 12=2 13=80000000
#l 1=40 4=2
#end limit
status 0
== A zero divisor, behind which an instruction is issued in the next turn.
        divo  0, 7, g4
        addo  1, 2, g5
run 9
#end imprecise 00001000
status 4
== An overflow that is not masked, behind which an instruction of another side is issued in the same turn.
        lda   0x7FFFFFFF, g13
        addi  1, g13, g13
        lda   3, g5
run 9
#end imprecise 00001008
status 4
== The DMA command word keeps eight bits.
        lda   0x1FF, g4
        mov   g4, sf2
        mov   sf2, g0
run 3
#point 3 end 0000100C 00000000 001F2002
#g 0=FF 4=1FF
#l 1=40
#end limit
status 0
";

/// The front of a source, behind that with a PRCB: the handler of arithmetic faults.
const HANDLER: &str = "
        .org  arithmetic_faults
        .word handler, 0
        .org  0x1100
handler:
        syncf
        .org  start
";

/// Arithmetic faults, which are imprecise where the next instruction is issued before they are known.
const OVERTAKING: &str = "
== The next instruction needs nothing of the one that faults.
        divi  0, 7, g4
        addo  1, 2, g5
run 5
#end imprecise 00001000
status 4
-- It is the last one of the length.
run 2
#end imprecise 00001000
status 4
-- It is not within the length.
run 1
#point 1 fault 00001100 00000000 001F2002
#g 15=3050
#l 0=3001 1=3090
#point 1 end 00001100 00000000 001F2002
#g 15=3050
#l 0=3001 1=3090
#end limit
status 0
== It waits for all before it.
        divi  0, 7, g4
        syncf
run 2
#point 1 fault 00001100 00000000 001F2002
#g 15=3050
#l 0=3001 1=3090
#point 2 sync 00001104 00000000 001F2002
#g 15=3050
#l 0=3001 1=3090
#point 2 end 00001104 00000000 001F2002
#g 15=3050
#l 0=3001 1=3090
#end limit
status 0
== It waits for the result.
        divi  0, 7, g4
        addo  1, g4, g5
run 2
#point 1 fault 00001100 00000000 001F2002
#g 15=3050
#l 0=3001 1=3090
#point 2 sync 00001104 00000000 001F2002
#g 15=3050
#l 0=3001 1=3090
#point 2 end 00001104 00000000 001F2002
#g 15=3050
#l 0=3001 1=3090
#end limit
status 0
== It has the side of the one that overflows, and so it is issued when the overflow is known.
        lda   0x7FFFFFFF, g4
        addi  1, g4, g4
        addo  1, 2, g5
run 3
#point 2 fault 00001100 00000000 001F2002
#g 4=7FFFFFFF 15=3050
#l 0=3001 1=3090
#point 3 sync 00001104 00000000 001F2002
#g 4=7FFFFFFF 15=3050
#l 0=3001 1=3090
#point 3 end 00001104 00000000 001F2002
#g 4=7FFFFFFF 15=3050
#l 0=3001 1=3090
#end limit
status 0
";

#[test]
fn results_and_faults(rt: HostRuntime) -> Result<(), Fail> {
    hold(&rt, rt.alloc(), &[BOOT], RESULTS, 4)
}

#[test]
fn arithmetic_faults_are_overtaken(rt: HostRuntime) -> Result<(), Fail> {
    hold(&rt, rt.alloc(), &[PRCB, HANDLER], OVERTAKING, 6)
}
