//! Calls by table, returns and faults through the command, at registers worked out by hand.
use crate::check::same;
use crate::rows::{PRCB, TO_USER_MODE, held, hold};
use std::test::*;

/// Calls and returns.
const CALLS: &str = "
== Calls the last entry of the system procedure table in supervisor mode: the stack stays.
        lda   259, g1
        calls g1
        .org  procedure_259
        .word callee+2          # to supervisor mode
        .org  0x1100
callee:
run 2
#point 2 end 00001100 00000000 001F2002
#g 1=103 15=3040
#l 0=3000 1=3080
#end limit
status 0
== Calls past the system procedure table; the handler loads the last two words of the record.
        lda   260, g1
        calls g1
        .org  protection_faults
        .word handler, 0
        .org  0x1100
handler:
        ld    record+8, g4
        ld    record+12, g5
        .set  record, 0x3040
run 4
#point 2 fault 00001100 00000000 001F2002
#g 1=104 15=3050
#l 0=3001 1=3090
#point 4 end 00001110 00000000 001F2002
#g 1=104 4=70002 5=1004 15=3050
#l 0=3001 1=3090
#end limit
status 0
== The two low bits of the address are ignored.
        lda   callee+3, g1
        callx (g1)
        .org  0x1100
callee:
run 2
#point 2 end 00001100 00000000 001F2002
#g 1=1103 15=3040
#l 0=3000 1=3080
#end limit
status 0
== Returns by type 001 in supervisor mode, from a record of ones: AC and PC are taken, masked.
        subo  1, 0, g3
        st    g3, stack-16      # PC
        st    g3, stack-12      # AC
        lda   0x5001, pfp
        ret
run 5
#point 5 end 00000000 00009107 001F2403
#g 3=FFFFFFFF 15=5000
#l
#end limit
status 0
== Returns by type 111 in supervisor mode to a frame of zeros at 5000, from a record of zeros.
        lda   0x5007, pfp
        ret
run 2
#point 2 end 00000000 00000000 00000000
#g 15=5000
#l
#end limit
status 0
";

/// Calls and returns in user mode.
const CALLS_IN_USER_MODE: &str = "
== Calls to supervisor mode from user mode: the supervisor stack is taken, and the return gives the old one back.
        calls 5
        mov   9, g6
        .org  supervisor_stack
        .word 0x6000
        .org  procedure_5
        .word callee+2          # to supervisor mode
        .org  0x1100
callee: ret
run 6
#point 6 end 00001014 00000000 001F2000
#g 1=2 2=1F2002 6=9 15=3000
#l 1=3040 2=1010
#end limit
status 0
-- The same up to the call.
run 4
#point 4 end 00001100 00000000 001F2002
#g 1=2 2=1F2002 15=6000
#l 0=3002 1=6040
#end limit
status 0
== Returns by type 001 to a frame of zeros at 5000, from a record of ones. AC is taken, masked, and PC is not.
        subo  1, 0, g3
        st    g3, stack-16      # PC
        st    g3, stack-12      # AC
        lda   0x5001, pfp
        ret
run 8
#point 8 end 00000000 00009107 001F2000
#g 1=2 2=1F2002 3=FFFFFFFF 15=5000
#l
#end limit
status 0
";

/// Faults and their entries.
const FAULTS: &str = "
== Faults where no fault may be imprecise.
        divi  0, 7, g4
        addo  1, 2, g5
        .org  ac_image
        .word 0x8000            # no imprecise faults
        .org  arithmetic_faults
        .word handler, 0
        .org  0x1100
handler:
        syncf
run 2
#point 1 fault 00001100 00008000 001F2002
#g 15=3050
#l 0=3001 1=3090
#point 2 sync 00001104 00008000 001F2002
#g 15=3050
#l 0=3001 1=3090
#point 2 end 00001104 00008000 001F2002
#g 15=3050
#l 0=3001 1=3090
#end limit
status 0
== The record of the same fault.
        divi  0, 7, g4
        addo  1, 2, g5
        .org  ac_image
        .word 0x8000            # no imprecise faults
        .org  arithmetic_faults
        .word handler, 0
        .org  0x1100
handler:
        ldq   0x3040, g4
run 2
#point 1 fault 00001100 00008000 001F2002
#g 15=3050
#l 0=3001 1=3090
#point 2 end 00001108 00008000 001F2002
#g 4=1F2002 5=8000 6=30002 7=1000 15=3050
#l 0=3001 1=3090
#end limit
status 0
== The next instruction is issued before the fault is known.
        divi  0, 7, g4
        addo  1, 2, g5
run 5
#end imprecise 00001000
status 4
-- Faults by an entry whose first word asks for a system procedure, where the second is not 27F.
        .org  ac_image
        .word 0x8000            # no imprecise faults
        .org  arithmetic_faults
        .word 6, 0x27E
run 5
#point 1 end 00001004 00008000 001F2002
#g 15=3000
#l 1=3040
#end dead 2 0000091C
status 4
== A word that is no instruction, and an entry with 01 in its two low bits, as no entry has.
        .word 0
        .org  operation_faults
        .word 1, 0x27F
run 5
#point 1 end 00001004 00000000 001F2002
#g 15=3000
#l 1=3040
#end dead 1 00000910
status 4
== The same with an entry of procedure 260, which there is not.
        .word 0
        .org  operation_faults
        .word 0x412, 0x27F
run 5
#point 1 end 00001004 00000000 001F2002
#g 15=3000
#l 1=3040
#end dead 3 00000910
status 4
== The same with an entry of procedure 259.
        .word 0
        .org  operation_faults
        .word 0x40E, 0x27F      # 4 * 259 + 2
        .org  procedure_259
        .word callee+2          # to supervisor mode
        .org  0x1100
callee:
run 1
#point 1 fault 00001100 00000000 001F2002
#g 15=3050
#l 0=3001 1=3090
#point 1 end 00001100 00000000 001F2002
#g 15=3050
#l 0=3001 1=3090
#end limit
status 0
== An instruction of two words that faults; the handler loads the saved rip.
        ld    0x2001, g4
        .org  fault_configuration
        .word 0                 # unaligned accesses are faults
        .org  operation_faults
        .word handler, 0
        .org  0x1100
handler:
        flushreg
        ld    stack+8, g4
run 3
#point 1 fault 00001100 00000000 001F2002
#g 15=3050
#l 0=3001 1=3090
#point 2 flush 00001104 00000000 001F2002
#g 15=3050
#l 0=3001 1=3090
#point 3 end 0000110C 00000000 001F2002
#g 4=1008 15=3050
#l 0=3001 1=3090
#end limit
status 0
== The same with a scale of 32 in a word of two words, which is refused.
        .word 0x90A03E85, 0x2000
        .org  operation_faults
        .word handler, 0
        .org  0x1100
handler:
        flushreg
        ld    stack+8, g4
run 3
#point 1 fault 00001100 00000000 001F2002
#g 15=3050
#l 0=3001 1=3090
#point 2 flush 00001104 00000000 001F2002
#g 15=3050
#l 0=3001 1=3090
#point 3 end 0000110C 00000000 001F2002
#g 4=1004 15=3050
#l 0=3001 1=3090
#end limit
status 0
";

/// A fault in user mode.
const FAULTS_IN_USER_MODE: &str = "
== Faults by an entry of procedure 2, which takes the supervisor stack and returns.
        lda   0x8000, g3
        modac g3, g3, g4        # no imprecise faults
        divo  0, 7, g5
        mov   9, g6
        .org  arithmetic_faults
        .word 0xA, 0x27F        # 4 * 2 + 2
        .org  supervisor_stack
        .word 0x6001
        .org  procedure_2
        .word handler+2         # to supervisor mode
        .org  0x1100
handler:
        ret
run 8
#point 6 fault 00001100 00008000 001F2002
#g 1=2 2=1F2002 3=8000 15=6010
#l 0=3001 1=6050
#point 8 end 00001020 00008000 001F2000
#g 1=2 2=1F2002 3=8000 6=9 15=3000
#l 1=3040 2=101C
#end limit
status 0
";

/// Entries that meet a hazard.
const ENTRY_HAZARDS: &str = "
== The entry for operation faults is in the frame that the call saved at 3000.
        call  f
f:      .word 0
        .org  fault_table_address
        .word stack-0x10
run 5
#point 2 end 00001008 00000000 001F2002
#g 15=3040
#l 0=3000 1=3080
#end hazard 00003000
status 4
== The record would lie in the frame that the call saved at 3000.
        call  f
f:      lda   stack, sp
        .word 0
run 5
#point 3 end 00001010 00000000 001F2002
#g 15=3040
#l 0=3000 1=3000
#end hazard 00003000
status 4
== The record would lie in the port page.
        lda   0xE0000000, sp
        .word 0
run 5
#point 2 end 0000100C 00000000 001F2002
#g 15=3000
#l 1=E0000000
#end hazard E0000000
status 4
";

#[test]
fn calls_and_returns(rt: HostRuntime) -> Result<(), Fail> {
    same(&rt, held(rt.alloc(), &[PRCB], CALLS)?, 5);
    hold(
        &rt,
        rt.alloc(),
        &[PRCB, TO_USER_MODE],
        CALLS_IN_USER_MODE,
        3,
    )
}

#[test]
fn faults_are_entered(rt: HostRuntime) -> Result<(), Fail> {
    same(&rt, held(rt.alloc(), &[PRCB], FAULTS)?, 9);
    hold(
        &rt,
        rt.alloc(),
        &[PRCB, TO_USER_MODE],
        FAULTS_IN_USER_MODE,
        1,
    )
}

#[test]
fn entries_meet_hazards(rt: HostRuntime) -> Result<(), Fail> {
    hold(&rt, rt.alloc(), &[PRCB], ENTRY_HAZARDS, 3)
}
