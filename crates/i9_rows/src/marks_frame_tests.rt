//! Marks of stale values and frames, through the command: locals that are saved, spilled, flushed and returned, returns
//! without a live frame, what a marked fp or sp forbids, and sessions of the debugger. The texts were worked out by
//! hand, and hold at every number of sets.
use crate::check::same;
use crate::marks_tests::LEFT;
use crate::rows::{PRCB, TO_USER_MODE, held, hold};
use std::test::*;

/// Locals that are marked, and saved.
const SAVED: &str = "
== A call saves the marks of the locals, and its return takes them back. A word that is not marked is compared.
        ld    (g1), r4
        mov   7, r5
        call  f
        addo  1, r4, g3
        addo  1, r5, g4
        .org  0x1100
f:      ret
at 7 show 3010 8
run 10
at 7 show 00003010 8
#mem 00003010 -- -- -- -- 07 00 00 00
#point 7 event 00001100 00000000 001F2002
#g 0=- 1=3010 15=3040
#l 0=3000 1=3080
#point 10 end 00001024 00000000 001F2002
#g 0=- 1=3010 3=- 4=8 15=3000
#l 1=3040 2=101C 4=- 5=7
#end limit
status 0
== Calls within calls, with which a frame is spilled where there is one set.
        ld    (g1), r4
        mov   7, r5
        call  f
        mov   r4, g3
        mov   r5, g4
        .org  0x1100
f:      mov   6, r4
        ld    (g1), r6          # in the first frame
        call  g
        mov   r4, g5
        mov   r6, g6
        ret
g:      call  h
        ret
h:      ret
at 11 show 3010 8
at 11 show 3050 12
run 18
at 11 show 00003010 8
#mem 00003010 -- -- -- -- 07 00 00 00
#point 11 event 00001120 00000000 001F2002
#g 0=- 1=3010 15=30C0
#l 0=3080 1=3100
at 11 show 00003050 12
#mem 00003050 06 00 00 00 00 00 00 00 -- -- -- --
#point 11 event 00001120 00000000 001F2002
#g 0=- 1=3010 15=30C0
#l 0=3080 1=3100
#point 18 end 00001024 00000000 001F2002
#g 0=- 1=3010 3=- 4=7 5=6 6=- 15=3000
#l 1=3040 2=101C 4=- 5=7
#end limit
status 0
== A flush leaves the marked word stale, and the next word is one that may be read. The return takes the mark from
== memory.
        ld    (g1), r4
        mov   7, r5
        call  f
        mov   r4, g3
        mov   r5, g4
        .org  0x1100
f:      flushreg
        ld    0x3010, g5
        ld    0x3014, g6
        ret
at 8 show 3010 8
run 13
#point 8 flush 00001104 00000000 001F2002
#g 0=- 1=3010 15=3040
#l 0=3000 1=3080
at 8 show 00003010 8
#mem 00003010 -- -- -- -- 07 00 00 00
#point 8 event 00001104 00000000 001F2002
#g 0=- 1=3010 15=3040
#l 0=3000 1=3080
#point 13 end 00001024 00000000 001F2002
#g 0=- 1=3010 3=- 4=7 5=- 6=7 15=3000
#l 1=3040 2=101C 4=- 5=7
#end limit
status 0
-- A store to that word takes the mark away.
        .org  0x1104
        st    g1, 0x3010
        ret
run 12
#point 8 flush 00001104 00000000 001F2002
#g 0=- 1=3010 15=3040
#l 0=3000 1=3080
#point 12 end 00001024 00000000 001F2002
#g 0=- 1=3010 3=3010 4=7 15=3000
#l 1=3040 2=101C 4=3010 5=7
#end limit
status 0
== The saved return address has no mark, whatever rip has. That of pfp comes back, and pfp decides a return.
        mov   g0, rip
        mov   g0, pfp
        call  f
        ret
        .org  0x1100
f:      ret
at 6 show 100 1
run 20
at 6 show 00000100 1
#mem 00000100 00
#point 6 event 00001018 00000000 001F2002
#g 0=- 1=3010 15=3000
#l 0=- 1=3040 2=-
#point 8 end 0000101C 00000000 001F2002
#g 0=- 1=3010 15=3000
#l 0=- 1=3040 2=101C
#end hazard 0000101C
status 4
== The entry of a fault saves them too. The instruction that faults leaves its destination as it is.
        ld    (g1), r4
        divi  0, 7, r4
        mov   r4, g3
        .org  ac_image
        .word 0x8000            # no imprecise faults
        .org  arithmetic_faults
        .word handler, 0
        .org  0x1100
handler:
        ret
run 8
#point 6 fault 00001100 00008000 001F2002
#g 0=- 1=3010 15=3050
#l 0=3001 1=3090
#point 8 end 0000101C 00008000 001F2002
#g 0=- 1=3010 3=- 15=3000
#l 1=3040 2=1018 4=-
#end limit
status 0
== So does that of an interrupt.
        ld    (g1), r4
        mov   r4, g3
        .org  0x23E4            # the vector of the interrupt that is never masked
        .word handler
        .org  0x1100
handler:
        mov   5, r4
        ret
at 5 nmi
run 8
at 5 nmi
#point 5 event 00001014 00000000 001F2002
#g 0=- 1=3010 15=3000
#l 1=3040 2=1004 4=-
#point 5 int 00001100 00000000 001F2002
#g 0=- 1=3010 15=3050
#l 0=3007 1=3090
#point 8 end 00001018 00000000 001F2002
#g 0=- 1=3010 3=- 15=3000
#l 1=3040 2=1014 4=-
#end limit
status 0
";

/// Frames that sysctl flushes.
const RESTARTED: &str = "
== Starting anew leaves g0 to g14 their marks, and the new locals and fp have none.
        ld    (g1), r4
        mov   g0, g14
        mov   g0, fp
        lda   0x300, g2
        lda   0x1200, g3
        lda   prcb, g4
        sysctl g2, g3, g4
run 11
#point 11 end 00001200 00000000 001F2002
#g 0=- 1=3010 2=300 3=1200 4=800 14=- 15=3000
#l 1=3040
#end limit
status 0
== A PRCB in a live frame counts as flushed, but for a word that is marked: r5, at 3014.
        ld    (g1), r5
        call  f
        .org  0x1100
f:      lda   0x300, g2
        lda   0x3000, g3
        lda   0x1200, g4
        sysctl g2, g4, g3
run 20
#point 9 end 00001114 00000000 001F2002
#g 0=- 1=3010 2=300 3=3000 4=1200 15=3040
#l 0=3000 1=3080
#end hazard 00003014
status 4
== So does a control group: r3, at 300C, is the last word of group 2.
        ld    (g1), r3
        call  f
        .org  control_table_address
        .word stack-0x20
        .org  0x1100
f:      lda   0x402, g2
        sysctl g2, g2, g2
run 20
#point 7 end 00001104 00000000 001F2002
#g 0=- 1=3010 2=402 15=3040
#l 0=3000 1=3080
#end hazard 0000300C
status 4
";

/// Returns where no frame is live.
const RETURNS: &str = "
== To the frame that was left: its return address is stale.
        lda   0x3000, pfp
        ret
run 20
#point 5 end 00001018 00000000 001F2002
#g 0=- 1=3010 15=3000
#l 0=3000 1=3040 2=1004
#end hazard 00003008
status 4
== The same where one byte of it was stored.
        lda   0x3000, pfp
        stob  g1, 8(pfp)
        ret
run 20
#point 6 end 0000101C 00000000 001F2002
#g 0=- 1=3010 15=3000
#l 0=3000 1=3040 2=1004
#end hazard 00003009
status 4
== Where all of it was, and of two more words a byte and all four: the others are marked, pfp and sp too. The call that
== follows would make its frame from sp.
        lda   0x3000, pfp
        lda   there, r3
        st    r3, 8(pfp)
        stob  g1, 16(pfp)
        st    g1, 20(pfp)
        ret
        .org  0x1100
there:  addo  1, r5, g3
        call  there
run 20
#point 11 end 00001104 00000000 001F2002
#g 0=- 1=3010 3=3011 15=3000
#l 0=- 1=- 2=1100 3=- 4=- 5=3010 6=- 7=- 8=- 9=- 10=- 11=- 12=- 13=- 14=- 15=-
#end hazard 00001104
status 4
-- A return would go by pfp.
        .org  0x1104
        ret
run 20
#point 11 end 00001104 00000000 001F2002
#g 0=- 1=3010 3=3011 15=3000
#l 0=- 1=- 2=1100 3=- 4=- 5=3010 6=- 7=- 8=- 9=- 10=- 11=- 12=- 13=- 14=- 15=-
#end hazard 00001104
status 4
-- With another sp the call is made, and its return takes all marks back.
        .org  0x1104
        lda   0x3040, sp
        call  f
        mov   r5, g4
        .org  0x1200
f:      ret
run 15
#point 15 end 00001114 00000000 001F2002
#g 0=- 1=3010 3=3011 4=3010 15=3000
#l 0=- 1=3040 2=1110 3=- 4=- 5=3010 6=- 7=- 8=- 9=- 10=- 11=- 12=- 13=- 14=- 15=-
#end limit
status 0
== To words that were stored, of which one was marked.
        lda   0x5000, pfp
        lda   there, r3
        st    r3, 8(pfp)
        st    g0, 20(pfp)
        ret
        .org  0x1100
there:  mov   r5, g3
run 10
#point 10 end 00001104 00000000 001F2002
#g 0=- 1=3010 3=- 15=5000
#l 2=1100 5=-
#end limit
status 0
== A marked word as return address.
        lda   0x5000, pfp
        st    g0, 8(pfp)
        ret
run 20
#point 6 end 0000101C 00000000 001F2002
#g 0=- 1=3010 15=3000
#l 0=5000 1=3040 2=1004
#end hazard 00005008
status 4
== Of type 001: its record, below fp, is in the frame that was left. PC is read first.
        lda   0x5001, pfp
        lda   0x3020, fp
        ret
run 20
#point 6 end 00001020 00000000 001F2002
#g 0=- 1=3010 15=3020
#l 0=5001 1=3040 2=1004
#end hazard 00003010
status 4
-- Then AC is.
        .org  0x1020
        st    g1, (g1)
        ret
run 20
#point 7 end 00001024 00000000 001F2002
#g 0=- 1=3010 15=3020
#l 0=5001 1=3040 2=1004
#end hazard 00003014
status 4
-- Where both were stored, the return is done.
        .org  0x1024
        st    g1, 4(g1)
        ret
run 9
#point 9 end 00000000 00001000 00002000
#g 0=- 1=3010 15=5000
#l
#end limit
status 0
== Of type 000, with a marked fp, which it does not use.
        lda   0x5000, pfp
        mov   g0, fp
        ret
run 7
#point 7 end 00000000 00000000 001F2002
#g 0=- 1=3010 15=5000
#l
#end limit
status 0
== Of type 001, which reads a record below it.
        lda   0x5001, pfp
        mov   g0, fp
        ret
run 20
#point 6 end 0000101C 00000000 001F2002
#g 0=- 1=3010 15=-
#l 0=5001 1=3040 2=1004
#end hazard 0000101C
status 4
== Of type 111.
        lda   0x5007, pfp
        mov   g0, fp
        ret
run 20
#point 6 end 0000101C 00000000 001F2002
#g 0=- 1=3010 15=-
#l 0=5007 1=3040 2=1004
#end hazard 0000101C
status 4
== By a marked pfp while a frame is live: which frame it means is not known.
        call  f
        .org  0x1100
f:      mov   g0, pfp
        ret
run 20
#point 6 end 00001104 00000000 001F2002
#g 0=- 1=3010 15=3040
#l 0=- 1=3080
#end hazard 00001104
status 4
";

/// Calls that a marked fp or sp forbids.
const PUSHES: &str = "
== A call saves its frame at fp.
        mov   g0, fp
        call  f
f:
run 20
#point 5 end 00001014 00000000 001F2002
#g 0=- 1=3010 15=-
#l 1=3040 2=1004
#end hazard 00001014
status 4
== It makes the new one at sp; so does callx.
        mov   g0, sp
        callx f
f:
run 20
#point 5 end 00001014 00000000 001F2002
#g 0=- 1=3010 15=3000
#l 1=- 2=1004
#end hazard 00001014
status 4
== A system call in supervisor mode does the same.
        mov   g0, sp
        calls 2
        .org  procedure_2
        .word start+2           # to supervisor mode
run 20
#point 5 end 00001014 00000000 001F2002
#g 0=- 1=3010 15=3000
#l 1=- 2=1004
#end hazard 00001014
status 4
== With a marked fp; its entry in the table is read before.
        st    g0, procedure_2
        mov   g0, fp
        calls 2
run 20
#point 6 end 0000101C 00000000 001F2002
#g 0=- 1=3010 15=-
#l 1=3040 2=1004
#end hazard 00000B38
status 4
-- An entry that may be read.
        .org  start+0x10
        st    g1, procedure_2
run 20
#point 6 end 0000101C 00000000 001F2002
#g 0=- 1=3010 15=-
#l 1=3040 2=1004
#end hazard 0000101C
status 4
== A number past the table is a fault before that, and its entry meets the hazard: its address is that of the next
== instruction.
        mov   g0, fp
        lda   260, g3
        calls g3
run 20
#point 7 end 0000101C 00000000 001F2002
#g 0=- 1=3010 3=104 15=-
#l 1=3040 2=1004
#end hazard 0000101C
status 4
== What a marked sp forbids comes before the save area, which would be in the port page.
        lda   0xE0000000, fp
        mov   g0, sp
        call  f
f:
run 20
#point 6 end 0000101C 00000000 001F2002
#g 0=- 1=3010 15=E0000000
#l 1=- 2=1004
#end hazard 0000101C
status 4
== The entry of a fault by a handler's address: its frame is at sp.
        mov   g0, sp
        .word 0
run 20
#point 6 end 00001018 00000000 001F2002
#g 0=- 1=3010 15=3000
#l 1=- 2=1004
#end hazard 00001018
status 4
== With a marked fp; the record comes later, which would be in the port page.
        mov   g0, fp
        lda   0xE0000000, sp
        .word 0
run 20
#point 7 end 00001020 00000000 001F2002
#g 0=- 1=3010 15=-
#l 1=E0000000 2=1004
#end hazard 00001020
status 4
== An entry that is dead comes before.
        mov   g0, fp
        .word 0
        .org  operation_faults
        .word 1, 0x27F
run 20
#point 6 end 00001018 00000000 001F2002
#g 0=- 1=3010 15=-
#l 1=3040 2=1004
#end dead 1 00000910
status 4
== So does one that is stale.
        st    g0, operation_faults
        mov   g0, fp
        .word 0
run 20
#point 7 end 00001020 00000000 001F2002
#g 0=- 1=3010 15=-
#l 1=3040 2=1004
#end hazard 00000910
status 4
== An entry by a system procedure in supervisor mode has its frame at sp too.
        mov   g0, sp
        .word 0
        .org  operation_faults
        .word 0xA, 0x27F        # procedure 2
        .org  procedure_2
        .word start+2
run 20
#point 6 end 00001018 00000000 001F2002
#g 0=- 1=3010 15=3000
#l 1=- 2=1004
#end hazard 00001018
status 4
== The fault of a trace event: the hazard's address is where its instruction led.
        mov   2, r6             # each instruction
        modtc r6, r6, r7
        mov   1, r4
        mov   1, r5
        modpc 0, r4, r5         # trace enable
        mov   g0, sp
run 20
#point 10 end 00001028 00000000 001F2003
#g 0=- 1=3010 15=3000
#l 1=- 2=1004 4=1 5=1F2002 6=2
#end hazard 00001028
status 4
";

/// Interrupts whose entry a marked fp or sp forbids.
const INTERRUPTED: &str = "
== While an interrupt is handled the frame is at sp: the event is told, and the entry meets the hazard.
        mov   g0, sp
at 5 nmi
run 20
at 5 nmi
#point 5 event 00001014 00000000 001F2002
#g 0=- 1=3010 15=3000
#l 1=- 2=1004
#point 5 end 00001014 00000000 001F2002
#g 0=- 1=3010 15=3000
#l 1=- 2=1004
#end hazard 00001014
status 4
== The vector's word is read before that.
        st    g0, 0x23E4
        mov   g0, fp
at 6 nmi
run 20
at 6 nmi
#point 6 event 0000101C 00000000 001F2002
#g 0=- 1=3010 15=-
#l 1=3040 2=1004
#point 6 end 0000101C 00000000 001F2002
#g 0=- 1=3010 15=-
#l 1=3040 2=1004
#end hazard 000023E4
status 4
== On the interrupt stack a marked sp is saved, and taken back. The record is over the frame that was left.
        lda   0x5000, fp
        lda   0x2000, g3
        mov   0, g4
        modpc 0, g3, g4         # no interrupt is handled
        mov   g0, sp
        mov   sp, g5
        .org  0x23E4
        .word handler
        .org  0x1100
handler:
        ret
at 9 nmi
run 11
at 9 nmi
#point 9 event 0000102C 00000000 001F0002
#g 0=- 1=3010 3=2000 4=1F2002 15=5000
#l 1=- 2=1004
#point 9 int 00001100 00000000 001F2002
#g 0=- 1=3010 3=2000 4=1F2002 15=3010
#l 0=5007 1=3050
#point 11 end 00001030 00000000 001F0002
#g 0=- 1=3010 3=2000 4=1F2002 5=- 15=5000
#l 1=- 2=102C
#end limit
status 0
-- A marked fp is none the less.
        .org  0x1028
        mov   g0, fp
at 9 nmi
run 20
at 9 nmi
#point 9 event 0000102C 00000000 001F0002
#g 0=- 1=3010 3=2000 4=1F2002 15=-
#l 1=3040 2=1004
#point 9 end 0000102C 00000000 001F0002
#g 0=- 1=3010 3=2000 4=1F2002 15=-
#l 1=3040 2=1004
#end hazard 0000102C
status 4
";

/// The same in user mode, where stacks may be switched.
const SWITCHED: &str = "
== The frame is on the supervisor stack: the marked sp is saved, and taken back. A call does not switch.
        mov   g0, sp
        calls 5
        call  callee
        .org  supervisor_stack
        .word 0x6000
        .org  procedure_5
        .word callee+2          # to supervisor mode
        .org  0x1100
callee: ret
at 9 show 3000 8
run 20
at 9 show 00003000 8
#mem 00003000 00 00 00 00 -- -- -- --
#point 9 event 00001100 00000000 001F2002
#g 0=- 1=2 2=1F2002 15=6000
#l 0=3002 1=6040
#point 10 end 00001024 00000000 001F2000
#g 0=- 1=2 2=1F2002 15=3000
#l 1=- 2=1024
#end hazard 00001024
status 4
== It is saved at fp, which may not be marked.
        mov   g0, fp
        calls 5
        .org  procedure_5
        .word start+2
run 20
#point 8 end 00001020 00000000 001F2000
#g 0=- 1=2 2=1F2002 15=-
#l 1=3040 2=1004
#end hazard 00001020
status 4
== The supervisor stack's word is read before that.
        st    g0, supervisor_stack
        mov   g0, fp
        calls 5
        .org  procedure_5
        .word start+2
run 20
#point 9 end 00001028 00000000 001F2000
#g 0=- 1=2 2=1F2002 15=-
#l 1=3040 2=1004
#end hazard 00000B0C
status 4
== A procedure that does not ask for the supervisor stack has its frame at sp.
        mov   g0, sp
        calls 5
        .org  procedure_5
        .word start
run 20
#point 8 end 00001020 00000000 001F2000
#g 0=- 1=2 2=1F2002 15=3000
#l 1=- 2=1004
#end hazard 00001020
status 4
== The entry of a fault switches as well.
        mov   g0, sp
        .word 0
        .org  operation_faults
        .word 0xA, 0x27F        # procedure 2
        .org  supervisor_stack
        .word 0x6000
        .org  procedure_2
        .word handler+2
        .org  0x1100
handler:
        ret
run 10
#point 9 fault 00001100 00000000 001F2002
#g 0=- 1=2 2=1F2002 15=6010
#l 0=3001 1=6050
#point 10 end 00001024 00000000 001F2000
#g 0=- 1=2 2=1F2002 15=3000
#l 1=- 2=1024
#end limit
status 0
-- With a marked fp it does not come.
        .org  0x101C
        mov   g0, fp
run 20
#point 9 end 00001024 00000000 001F2000
#g 0=- 1=2 2=1F2002 15=-
#l 1=3040 2=1004
#end hazard 00001024
status 4
";

/// Sessions of the debugger.
const SESSIONS: &str = "
== What the program sees has dashes for what is marked. What stands at a turn has values: a stale word was read as 0.
        .org  start
        lda   0x41, r4
        call  f
f:      ld    16(pfp), g4
        addo  1, g4, g5
        st    g4, 0x4000
        mov   0, g0
        .org  0x4000
        .word 0x11223344
> until 1018
> regs
> raw
> mem 3010 4
> mem 4000 4
> rawmem 4000 4
> turn 1
> raw
> rawmem 4000 4
> mem 4000 4
debug script
#turn 7 5
#view 5 00001018 00000000 001F2002
#g 4=- 5=- 15=3040
#l 0=3000 1=3080
#raw 7 00200000
#rg 15=3040
#rl 0=3000 1=3080
#mem 00003010 41 00 00 00
#mem 00004000 -- -- -- --
#rawmem 00004000 44 33 22 11
#turn 8 5
#raw 8 00000000
#rg 5=1 15=3040
#rl 0=3000 1=3080
#rawmem 00004000 00 00 00 00
#mem 00004000 -- -- -- --
status 0
== The store of a marked word makes its bytes ones that are not compared, and a store over one of them that one again.
        st    g0, 0x4000
        stob  g1, 0x4001
        mov   0, g3
        .org  0x4000
        .word 0x11223344
> until 1020
> mem 4000 4
> who 4000
> who 4001
> who 3010
> back 1
> mem 4000 4
> regs
> back 1
> mem 4000 4
> until 1018
> mem 4000 4
debug script
#turn 12 6
#mem 00004000 -- 10 -- --
#who 5 00001010
#who 6 00001018
#who 2 00000FFC
#turn 11 5
#mem 00004000 -- -- -- --
#view 5 00001018 00000000 001F2002
#g 0=- 1=3010 15=3000
#l 1=3040 2=1004
#turn 10 4
#mem 00004000 44 33 22 11
#turn 11 5
#mem 00004000 -- -- -- --
status 0
";

#[test]
fn locals_are_saved_with_their_marks(rt: HostRuntime) -> Result<(), Fail> {
    hold(&rt, rt.alloc(), &[PRCB, LEFT], SAVED, 7)
}

#[test]
fn starts_flush_marked_words(rt: HostRuntime) -> Result<(), Fail> {
    hold(&rt, rt.alloc(), &[PRCB, LEFT], RESTARTED, 3)
}

#[test]
fn returns_without_a_live_frame(rt: HostRuntime) -> Result<(), Fail> {
    hold(&rt, rt.alloc(), &[PRCB, LEFT], RETURNS, 14)
}

#[test]
fn marked_frame_and_stack_pointers(rt: HostRuntime) -> Result<(), Fail> {
    same(&rt, held(rt.alloc(), &[PRCB, LEFT], PUSHES)?, 13);
    same(&rt, held(rt.alloc(), &[PRCB, LEFT], INTERRUPTED)?, 4);
    hold(&rt, rt.alloc(), &[PRCB, LEFT, TO_USER_MODE], SWITCHED, 6)
}

#[test]
fn sessions_show_marks(rt: HostRuntime) -> Result<(), Fail> {
    hold(&rt, rt.alloc(), &[PRCB, LEFT], SESSIONS, 2)
}
