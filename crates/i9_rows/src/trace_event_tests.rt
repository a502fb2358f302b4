//! Trace events through the command, at texts worked out by hand.
use crate::check::same;
use crate::rows::{PRCB, held};
use std::test::*;

/// The front of a source, behind that with a PRCB: the handler of trace faults and of arithmetic faults. It leaves the
/// trace controls in g12, and the record of the fault (PC, AC, type and subtype, address) in g8 to g11.
const HANDLER: &str = "
        .set  breakpoints, control_table
        .set  breakpoint_controls, control_table+0x64
        .set  trace_controls, control_table+0x68
        .org  fault_table+0x8
        .word handler
        .org  arithmetic_faults
        .word handler
        .org  0x1100
handler:
        modtc 0, 0, g12
        subo  16, fp, r3
        ldq   (r3), g8
        ret
        .org  start
";

/// Each mode alone, with instructions that raise its event and others that do not; and modes together.
const MODES: &str = "
== Instruction: each one has its event.
        mov   2, r6
        modtc r6, r6, r7
        mov   1, r4
        mov   1, r5
        modpc 0, r4, r5         # trace enable
        mov   7, g0
run 9
#point 6 fault 00001100 00000000 001F2002
#g 0=7 15=3050
#l 0=3001 1=3090
#point 9 end 0000110C 00000000 001F2002
#g 0=7 8=1F2003 10=10002 11=1014 12=20002 15=3050
#l 0=3001 1=3090 3=3040
#end limit
status 0
== Branch: not a move, and not a compare branch that is not taken.
        mov   4, r6
        modtc r6, r6, r7
        mov   1, r4
        mov   1, r5
        modpc 0, r4, r5
        mov   7, g0
        cmpobne 0, g4, there
        b     there
        mov   9, g1
there:
run 11
#point 8 fault 00001100 00000002 001F2002
#g 0=7 15=3050
#l 0=3001 1=3090
#point 11 end 0000110C 00000002 001F2002
#g 0=7 8=1F2003 9=2 10=10004 11=101C 12=40004 15=3050
#l 0=3001 1=3090 3=3040
#end limit
status 0
== Call: a branch that links, not another one.
        mov   8, r6
        modtc r6, r6, r7
        mov   1, r4
        mov   1, r5
        modpc 0, r4, r5
        b     go
go:     bal   there
        mov   9, g1
there:
run 10
#point 7 fault 00001100 00000000 001F2002
#g 14=101C 15=3050
#l 0=3001 1=3090
#point 10 end 0000110C 00000000 001F2002
#g 8=1F2003 10=10008 11=1018 12=80008 14=101C 15=3050
#l 0=3001 1=3090 3=3040
#end limit
status 0
== Return and prereturn come together, and not with the call.
        lda   0x30, r6
        modtc r6, r6, r7
        mov   1, r4
        mov   1, r5
        modpc 0, r4, r5
        call  f
        mov   9, g1
f:      ret
run 10
#point 7 fault 00001100 00000000 001F2002
#g 15=3050
#l 0=3001 1=3090
#point 10 end 0000110C 00000000 001F2002
#g 8=1F2003 10=10030 11=101C 12=300030 15=3050
#l 0=3001 1=3090 3=3040
#end limit
status 0
== Supervisor: a call by the table that switches, and its return in supervisor mode.
        lda   0x40, r6
        modtc r6, r6, r7
        mov   3, r4
        mov   1, r5
        modpc 0, r4, r5         # trace enable, and user mode
        calls 2
        mov   9, g1
f:      ret
        .org  supervisor_stack
        .word 0x5001            # trace enable stays set
        .org  procedure_2
        .word f+2
run 14
#point 6 fault 00001100 00000000 001F2002
#g 15=5050
#l 0=5001 1=5090
#point 11 fault 00001100 00000000 001F2000
#g 8=1F2003 10=10040 11=1014 12=400040 15=3050
#l 0=3001 1=3090
#point 14 end 0000110C 00000000 001F2000
#g 8=1F2001 10=10040 11=101C 12=400040 15=3050
#l 0=3001 1=3090 3=3040
#end limit
status 0
== Mark asks for its mode; fmark does not, and then sets no flag.
        mov   1, r4
        mov   1, r5
        modpc 0, r4, r5
        mark
        fmark
run 8
#point 5 fault 00001100 00000000 001F2002
#g 15=3050
#l 0=3001 1=3090
#point 8 end 0000110C 00000000 001F2002
#g 8=1F2003 10=10080 11=1010 15=3050
#l 0=3001 1=3090 3=3040
#end limit
status 0
== Mark with its mode.
        lda   0x80, r6
        modtc r6, r6, r7
        mov   1, r4
        mov   1, r5
        modpc 0, r4, r5
        mark
run 9
#point 6 fault 00001100 00000000 001F2002
#g 15=3050
#l 0=3001 1=3090
#point 9 end 0000110C 00000000 001F2002
#g 8=1F2003 10=10080 11=1014 12=800080 15=3050
#l 0=3001 1=3090 3=3040
#end limit
status 0
== Two modes: one fault, whose subtype has both.
        mov   6, r6
        modtc r6, r6, r7
        mov   1, r4
        mov   1, r5
        modpc 0, r4, r5
        b     there
there:
run 9
#point 6 fault 00001100 00000000 001F2002
#g 15=3050
#l 0=3001 1=3090
#point 9 end 0000110C 00000000 001F2002
#g 8=1F2003 10=10006 11=1014 12=60006 15=3050
#l 0=3001 1=3090 3=3040
#end limit
status 0
";

/// The four breakpoints, each with its flag.
const BREAKPOINTS: &str = "
== IPB0, at the second move.
        mov   1, r4
        mov   1, r5
        modpc 0, r4, r5
        mov   7, g0
        mov   8, g1
        .org  breakpoints
        .word 0x1011
run 8
#point 5 fault 00001100 00000000 001F2002
#g 0=7 1=8 15=3050
#l 0=3001 1=3090
#point 8 end 0000110C 00000000 001F2002
#g 0=7 1=8 8=1F2003 10=10080 11=1010 12=1000000 15=3050
#l 0=3001 1=3090 3=3040
#end limit
status 0
== IPB1, with the mark mode; IPB0 is not enabled.
        mov   1, r4
        mov   1, r5
        modpc 0, r4, r5
        mov   7, g0
        mov   8, g1
        .org  breakpoints
        .word 0x100C, 0x1011
        .org  trace_controls
        .word 0x80
run 8
#point 5 fault 00001100 00000000 001F2002
#g 0=7 1=8 15=3050
#l 0=3001 1=3090
#point 8 end 0000110C 00000000 001F2002
#g 0=7 1=8 8=1F2003 10=10080 11=1010 12=2800080 15=3050
#l 0=3001 1=3090 3=3040
#end limit
status 0
== DAB0, at an unaligned load, and not where the address is made.
        mov   1, r4
        mov   1, r5
        modpc 0, r4, r5
        lda   0x2801, r8
        ld    (r8), g0
        .org  breakpoints
        .word 0, 0, 0x2801, 0x2801
        .org  breakpoint_controls
        .word 1
run 8
#point 5 fault 00001100 00000000 001F2002
#g 15=3050
#l 0=3001 1=3090
#point 8 end 0000110C 00000000 001F2002
#g 8=1F2003 10=10080 11=1014 12=4000000 15=3050
#l 0=3001 1=3090 3=3040
#end limit
status 0
== DAB1, at the word of an atomic instruction, whose address has low bits.
        mov   1, r4
        mov   1, r5
        modpc 0, r4, r5
        lda   0x2802, r8
        atadd r8, 5, g0
        .org  breakpoints
        .word 0, 0, 0x2800, 0x2800
        .org  breakpoint_controls
        .word 2
run 8
#point 5 fault 00001100 00000000 001F2002
#g 15=3050
#l 0=3001 1=3090
#point 8 end 0000110C 00000000 001F2002
#g 8=1F2003 10=10080 11=1014 12=8000000 15=3050
#l 0=3001 1=3090 3=3040
#end limit
status 0
";

/// What comes before the trace fault, and what there is none of.
const AROUND: &str = "
== The point of a flush comes first.
        mov   2, r6
        modtc r6, r6, r7
        mov   1, r4
        mov   1, r5
        modpc 0, r4, r5
        flushreg
run 6
#point 6 flush 00001018 00000000 001F2003
#g 15=3000
#l 1=3040 4=1 5=1F2002 6=2
#point 6 fault 00001100 00000000 001F2002
#g 15=3050
#l 0=3001 1=3090
#point 6 end 00001100 00000000 001F2002
#g 15=3050
#l 0=3001 1=3090
#end limit
status 0
== An exit comes before the fault.
        mov   7, g4
        lda   0xE0000000, g5
        mov   2, r6
        modtc r6, r6, r7
        mov   1, r4
        mov   1, r5
        modpc 0, r4, r5
        st    g4, 4(g5)
run 100
#point 8 end 00001024 00000000 001F2003
#g 4=7 5=E0000000 15=3000
#l 1=3040 4=1 5=1F2002 6=2
#end exit 00000007
status 0
== What turns tracing on is not traced, and what turns it off is.
        mov   2, r6
        modtc r6, r6, r7
        mov   1, r4
        mov   1, r5
        mov   0, r8
        modpc 0, r4, r5
        modpc 0, r4, r8
run 10
#point 7 fault 00001100 00000000 001F2002
#g 15=3050
#l 0=3001 1=3090
#point 10 end 0000110C 00000000 001F2002
#g 8=1F2002 10=10002 11=1018 12=20002 15=3050
#l 0=3001 1=3090 3=3040
#end limit
status 0
== What faults otherwise has no trace events; while trace enable is set an arithmetic fault is precise.
        mov   2, r6
        modtc r6, r6, r7
        mov   1, r4
        mov   1, r5
        modpc 0, r4, r5
        divo  0, r4, g0
        addo  1, 2, g1
run 9
#point 6 fault 00001100 00000000 001F2002
#g 15=3050
#l 0=3001 1=3090
#point 9 end 0000110C 00000000 001F2002
#g 8=1F2003 10=30002 11=1014 12=2 15=3050
#l 0=3001 1=3090 3=3040
#end limit
status 0
== The modes are those that modtc leaves, and the flag is set in them.
        mov   2, r6
        mov   1, r4
        mov   1, r5
        modpc 0, r4, r5
        modtc r6, r6, r7
run 8
#point 5 fault 00001100 00000000 001F2002
#g 15=3050
#l 0=3001 1=3090
#point 8 end 0000110C 00000000 001F2002
#g 8=1F2003 10=10002 11=1010 12=20002 15=3050
#l 0=3001 1=3090 3=3040
#end limit
status 0
== The modes are those that sysctl loads.
        mov   2, r6
        mov   0, r8
        modtc r6, r8, r7        # clears them
        lda   0x406, r9         # loads group 6
        mov   1, r4
        mov   1, r5
        modpc 0, r4, r5
        sysctl r9, r8, r8
        .org  trace_controls
        .word 2
run 11
#point 8 fault 00001100 00000000 001F2002
#g 15=3050
#l 0=3001 1=3090
#point 11 end 0000110C 00000000 001F2002
#g 8=1F2003 10=10002 11=101C 12=20002 15=3050
#l 0=3001 1=3090 3=3040
#end limit
status 0
";

/// How many cases of a table hold.
fn count(rt: &HostRuntime, table: &str) -> Result<u32, Fail> {
    held(rt.alloc(), &[PRCB, HANDLER], table)
}

#[test]
fn modes(rt: HostRuntime) -> Result<(), Fail> {
    same(&rt, count(&rt, MODES)?, 8);
    Ok(())
}

#[test]
fn breakpoints(rt: HostRuntime) -> Result<(), Fail> {
    same(&rt, count(&rt, BREAKPOINTS)?, 4);
    Ok(())
}

#[test]
fn faults_and_ends(rt: HostRuntime) -> Result<(), Fail> {
    same(&rt, count(&rt, AROUND)?, 6);
    Ok(())
}
