//! Start-up, sysctl and modpc through the command, at registers worked out by hand.
use crate::check::same;
use crate::rows::{PRCB, TO_USER_MODE, held, hold};
use std::test::*;

/// Start-up, by the tables of the image and by sysctl.
const STARTS: &str = "
== A frame in region 1, which sysctl makes big-endian: it is flushed in little-endian order, and the return reads it
== in the other.
        lda   0x10000000, fp
        lda   64(fp), sp
        mov   9, r5
        call  f
f:      lda   0x400000, g1
        st    g1, 0xA24         # region 1 in the control table
        lda   0x402, g2
        sysctl g2, g2, g2       # loads group 2
        ret
run 9
#point 9 end 14100000 00000000 001F2002
#g 1=400000 2=402 15=10000000
#l 1=40000010 2=14100000 5=9000000
#end limit
status 0
== Starts anew at 1200 with a PRCB at C00.
        lda   0x300, g1
        lda   0x1200, g2
        lda   0xC00, g3
        sysctl g1, g2, g3
        .org  0xC1C
        .word 0x5000            # the interrupt stack
        .word 0
        .word 15                # the register sets
run 4
#point 4 end 00001200 00000000 001F2002
#g 1=300 2=1200 3=C00 15=5000
#l 1=5040
#end limit
status 0
== A boot record in big-endian order, as the third boot byte says. The control table is of zeros, by which region 15
== is little-endian afterwards.
        ld    0xFFFFFF10, g0
        .org  0xFFFFFF08
        .byte 0x40              # the third boot byte
        .org  0xFFFFFF10
        .word 0x00100000        # the bytes of 1000
        .word 0x00080000        # and of 800
run 1
#point 1 end 00001008 00000000 001F2002
#g 0=100000 15=3000
#l 1=3040
#end limit
status 0
-- With this in its control table it stays big-endian.
        .org  control_table+0x5C
        .word 0x400000
run 1
#point 1 end 00001008 00000000 001F2002
#g 0=1000 15=3000
#l 1=3040
#end limit
status 0
== An AC image and a TC word of ones, and an interrupt stack at 3001.
        modtc 0, 0, r4
        .org  ac_image
        .word 0xFFFFFFFF
        .org  interrupt_stack
        .word stack+1
        .org  control_table+0x68
        .word 0xFFFFFFFF        # TC
run 1
#point 1 end 00001004 00009107 001F2002
#g 15=3010
#l 1=3050 4=FFE00FE
#end limit
status 0
== Makes the regions 1, 5, 9 and 13 big-endian in the control table, and TC ones, and loads the groups 2 to 6. Behind
== each of the first four a word 1 goes to its region, whose last byte is then 1. In the end r9 gets TC, and r10 shows
== that region 0 stays little-endian.
        lda   0x400000, g1
        st    g1, 0xA24         # region 1, of group 2
        st    g1, 0xA34         # region 5, of group 3
        st    g1, 0xA44         # region 9, of group 4
        st    g1, 0xA54         # region 13, of group 5
        lda   0xFFFFFFFF, g2
        st    g2, 0xA68         # TC, of group 6
        lda   0x402, g3
        lda   0x403, g4
        lda   0x404, g5
        lda   0x405, g6
        lda   0x406, g7

        lda   0x10000000, g8
        mov   1, g9
        st    g9, (g8)
        sysctl g3, g3, g3
        ldob  (g8), r4          # from before
        st    g9, (g8)
        ldob  3(g8), r5
        sysctl g4, g4, g4
        lda   0x50000000, g10
        st    g9, (g10)
        ldob  3(g10), r6
        sysctl g5, g5, g5
        lda   0x90000000, g11
        st    g9, (g11)
        ldob  3(g11), r7
        sysctl g6, g6, g6
        lda   0xD0000000, g12
        st    g9, (g12)
        ldob  3(g12), r8

        sysctl g7, g7, g7
        modtc 0, 0, r9
        st    g9, 0x3100
        ldob  0x3100, r10
run 35
#point 35 end 000010AC 00000000 001F2002
#g 1=400000 2=FFFFFFFF 3=402 4=403 5=404 6=405 7=406 8=10000000 9=1 10=50000000 11=90000000 12=D0000000 15=3000
#l 1=3040 4=1 5=1 6=1 7=1 8=1 9=FFE00FE 10=1
#end limit
status 0
";

/// Messages of sysctl, and modpc.
const MESSAGES: &str = "
== Messages 1 and 2, and a fault at message 5.
        lda   0x100, g1
        sysctl g1, g1, g1
        lda   0x2FF, g2
        sysctl g2, g2, g2
        lda   0x500, g3
        sysctl g3, g3, g3
run 6
#point 6 fault 00000000 00000000 001F2002
#g 1=100 2=2FF 3=500 15=3050
#l 0=3001 1=3090
#point 6 end 00000000 00000000 001F2002
#g 1=100 2=2FF 3=500 15=3050
#l 0=3001 1=3090
#end limit
status 0
== Message 0 asks for vector 9, which isn't let in, by two bits of the interrupt table.
        mov   9, g1
        sysctl g1, g1, g1
        ldob  0x2000, g2        # that of its priority, 1
        ldob  0x2005, g3        # its own
run 4
#point 4 end 00001018 00000000 001F2002
#g 1=9 2=2 3=2 15=3000
#l 1=3040
#end limit
status 0
== A fault at a group that there is not.
        lda   0x407, g1
        sysctl g1, g1, g1
run 2
#point 2 fault 00000000 00000000 001F2002
#g 1=407 15=3050
#l 0=3001 1=3090
#point 2 end 00000000 00000000 001F2002
#g 1=407 15=3050
#l 0=3001 1=3090
#end limit
status 0
== Clears a bit of PC, and then lowers the priority.
        lda   0x2000, g1
        mov   0, g2
        modpc 0, g1, g2
        lda   0x1F0000, g3
        mov   0, g4
        modpc 0, g3, g4
run 6
#point 6 end 00001020 00000000 00000002
#g 1=2000 2=1F2002 3=1F0000 4=1F0002 15=3000
#l 1=3040
#end limit
status 0
== Sets the trace enable bit; no mode is set.
        mov   1, g1
        modpc 0, g1, g1
        mov   2, g2
run 3
#point 3 end 0000100C 00000000 001F2003
#g 1=1F2002 2=2 15=3000
#l 1=3040
#end limit
status 0
";

/// Behind code that leaves supervisor mode.
const IN_USER_MODE: &str = "
== In user mode a mask of 0 is no fault, and another is.
        mov   31, g3
        modpc 0, 0, g3
        modpc 0, g1, g4
run 6
#point 6 fault 00000000 00000000 001F2000
#g 1=2 2=1F2002 3=1F2000 15=3050
#l 0=3001 1=3090
#point 6 end 00000000 00000000 001F2000
#g 1=2 2=1F2002 3=1F2000 15=3050
#l 0=3001 1=3090
#end limit
status 0
";

/// Unaligned accesses, and tables in frames.
const TABLE_HAZARDS: &str = "
== Unaligned accesses, which the fault configuration allows, also over the end of a region and the last address, and
== to the exit word.
        lda   0x2001, g0
        lda   0x11223344, g1
        st    g1, (g0)
        ld    0x2000, g2
        ldl   (g0), g4
        lda   0x0FFFFFFE, g6
        st    g1, (g6)
        ldos  0x10000000, g7
        lda   0xFFFFFFFE, g8
        st    g1, (g8)
        ldos  0, g9
        ld    (g8), g10
        lda   0xE0000002, g11
        stl   g4, (g11)
run 20
#point 14 end 00001054 00000000 001F2002
#g 0=2001 1=11223344 2=22334400 4=11223344 6=FFFFFFE 7=1122 8=FFFFFFFE 9=1122 10=11223344 11=E0000002 15=3000
#l 1=3040
#end exit 00001122
status 0
== Starts anew by a PRCB at 3000, in the frame that a call saved and a return took back.
        call  f
        lda   0x300, g1
        lda   0x3000, g2
        sysctl g1, g1, g2
f:      ret
run 9
#point 4 end 00001010 00000000 001F2002
#g 1=300 2=3000 15=3000
#l 1=3040 2=1004
#end hazard 00003000
status 4
== Starts anew by a PRCB at C00, whose control table reaches into that frame.
        call  f
        lda   0x300, g1
        lda   0xC00, g2
        sysctl g1, g1, g2
f:      ret
        .org  0xC04
        .word stack-0x10        # the control table
run 9
#point 4 end 0000100C 00000000 001F2002
#g 1=300 2=C00 15=3000
#l 1=3040 2=1004
#end hazard 00003000
status 4
== Loads group 1, which is before that frame, and then group 2, which is in it.
        call  f
        lda   0x401, g1
        sysctl g1, g1, g1
        lda   0x402, g2
        sysctl g2, g2, g2
f:      ret
        .org  control_table_address
        .word stack-0x20
run 9
#point 5 end 00001010 00000000 001F2002
#g 1=401 2=402 15=3000
#l 1=3040 2=1004
#end hazard 00003000
status 4
== The flush writes the frame that is read as the PRCB, with its rip as the AC image and r7 as the interrupt stack.
        lda   0x5000, r7
        call  f
f:      lda   0x300, g1
        lda   0x3000, g2
        lda   0x1200, g3
        sysctl g1, g3, g2
run 6
#point 6 end 00001200 00001004 001F2002
#g 1=300 2=3000 3=1200 15=5000
#l 1=5040
#end limit
status 0
== The exit word in big-endian order is the low half of the first word and the high half of the second.
        lda   0x400000, g1
        st    g1, 0xA58         # region 14 in the control table
        lda   0x405, g2
        sysctl g2, g2, g2
        lda   0xE0000002, g3
        lda   0x11223344, g4
        stl   g4, (g3)
run 9
#point 7 end 00001028 00000000 001F2002
#g 1=400000 2=405 3=E0000002 4=11223344 15=3000
#l 1=3040
#end exit 33440000
status 0
";

#[test]
fn starts_by_its_tables(rt: HostRuntime) -> Result<(), Fail> {
    hold(&rt, rt.alloc(), &[PRCB], STARTS, 6)
}

#[test]
fn messages_and_process_controls(rt: HostRuntime) -> Result<(), Fail> {
    same(&rt, held(rt.alloc(), &[PRCB], MESSAGES)?, 5);
    hold(&rt, rt.alloc(), &[PRCB, TO_USER_MODE], IN_USER_MODE, 1)
}

#[test]
fn unaligned_accesses_and_table_hazards(rt: HostRuntime) -> Result<(), Fail> {
    hold(&rt, rt.alloc(), &[PRCB], TABLE_HAZARDS, 6)
}
