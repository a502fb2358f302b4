//! Going back in the debugger through the command, at texts worked out by hand.
use crate::rows::{BOOT, PRCB, hold};
use std::test::*;

/// Sessions that go back, over images that begin at once.
const BACK: &str = "
== Back from the third turn to the first instruction, and forward again.
        muli  3, 4, g2
        addo  1, 2, g5
        ld    0x100, g6
        b     next
next:   mov   0, g7
> turn 2
> back 3
> regs
> turn 1
debug script
#turn 3 4
#turn 1 1
#view 1 00001004 00000000 001F2002
#g 2=C
#l 1=40
#turn 2 1
status 0
-- The last arrival, by the second instruction, and the one before it, by the first.
> turn 2
> last 1008
> last 1004
> last 1004
debug script
#turn 3 4
#turn 2 2
#turn 1 1
#turn 1 0
status 0
-- The present arrival is none before it.
> until 1008
> last 1008
> until 1008
debug script
#turn 2 2
#turn 1 0
#turn 2 2
status 0
-- No more instructions than there are.
> turn 2
> back 9
> back 10000000
debug script
#turn 3 4
#turn 1 0
#turn 1 0
status 0
-- Back to before an event, which is reached again, and to right behind it.
at 2 show 100 4
> turn 7
> back 2
> turn 6
> back 1
> turn 1
debug script
at 2 show 00000100 4
#mem 00000100 00 00 00 00
#point 2 event 00001008 00000000 001F2002
#g 2=C 5=3
#l 1=40
#turn 8 4
#turn 2 2
at 2 show 00000100 4
#mem 00000100 00 00 00 00
#point 2 event 00001008 00000000 001F2002
#g 2=C 5=3
#l 1=40
#turn 8 4
#turn 7 3
#turn 8 4
status 0
-- Numbers out of range.
> back 0
debug script
#script line 1 kind 2
status 3
-- An instruction more than a run has.
> back 10000001
debug script
#script line 1 kind 2
status 3
== A frame that a call saved is held no more before the call. The call changed what the program sees there.
        mov   5, r4
        call  f
f:      flushreg
        mov   0, g0
> until 1008
> held
> who 10
> back 1
> held
> mem 10 1
> who 10
> until 100C
> who 10
> back 1
> held
debug script
#turn 2 2
#held 5 1 00000000
#who 2 00001004
#turn 1 1
#held 5 0
#mem 00000010 00
#who none
#point 3 flush 0000100C 00000000 001F2002
#g 15=40
#l 1=80
#turn 6 3
#who 2 00001004
#turn 2 2
#held 5 1 00000000
status 0
== A return leaves its frame's bytes uncompared, and a store makes a byte of them one that is compared.
        call  f
        st    g4, 16
        ld    16, g5
        ld    12, g6
f:      ret
> turn 100
> who 10
debug script
#point 5 end 00001010 00000000 001F2002
#g 6=-
#l 1=40 2=1004
#end hazard 00000008
#turn 12 5
#who 3 00001004
status 4
-- Back from a hazard, to right behind the return.
> turn 100
> back 3
> mem 10 1
> who 10
> until 100C
debug script
#point 5 end 00001010 00000000 001F2002
#g 6=-
#l 1=40 2=1004
#end hazard 00000008
#turn 12 5
#turn 5 2
#mem 00000010 --
#who 2 00001010
#turn 10 4
status 0
-- And to the hazard again.
> turn 100
> back 5
> turn 100
debug script
#point 5 end 00001010 00000000 001F2002
#g 6=-
#l 1=40 2=1004
#end hazard 00000008
#turn 12 5
#turn 1 0
#point 5 end 00001010 00000000 001F2002
#g 6=-
#l 1=40 2=1004
#end hazard 00000008
#turn 12 5
status 4
== Calls that call, of which the sixth writes the first frame to memory. Back over it the frame is in a set.
f:      call  f
> turn 45
> held
> rawmem 4 1
> back 2
> held
> rawmem 4 1
> last 1000
> last 1000
> last 1004
> until 1000
> turn 45
debug script
#turn 46 7
#held 5 5 00000180 00000140 00000100 000000C0 00000080
#rawmem 00000004 40
#turn 17 5
#held 5 5 00000100 000000C0 00000080 00000040 00000000
#rawmem 00000004 00
#turn 13 4
#turn 9 3
#turn 1 0
#turn 1 1
#turn 46 7
status 0
== Each store changes the bytes that it writes, where they were others; an atomic does too, and the image none.
        lda   0x11223344, g4
        stob  g4, 0x200
        stos  g4, 0x202
        st    g4, 0x204
        stl   g4, 0x208
        lda   0x204, g7
        atadd g7, 1, g6
> until 1020
> who 200
> who 203
> who 207
> who 208
> who 20C
> who 204
> who 1000
debug script
#turn 7 7
#who 2 00001008
#who 3 0000100C
#who 4 00001010
#who 5 00001014
#who none
#who 7 0000101C
#who none
status 0
== Back from an exit, and to it again.
        mov   7, g4
        st    g4, 0x200
        lda   0xE0000000, g5
        st    g4, 4(g5)
> turn 1000
> back 1
> who 200
> turn 5
> turn 5
debug script
#point 4 end 00001014 00000000 001F2002
#g 4=7 5=E0000000
#l 1=40
#end exit 00000007
#turn 5 4
#turn 3 3
#who 2 00001004
#point 4 end 00001014 00000000 001F2002
#g 4=7 5=E0000000
#l 1=40
#end exit 00000007
#turn 5 4
#turn 5 4
status 0
== Back from an imprecise fault, and to it again.
        divi  0, 7, g4
        addo  1, 2, g5
> turn 9
> back 1
> turn 9
debug script
#end imprecise 00001000
#turn 2 1
#turn 1 0
#end imprecise 00001000
#turn 2 1
status 4
-- The run does not stand at it when the script is over.
> turn 9
> back 1
debug script
#end imprecise 00001000
#turn 2 1
#turn 1 0
status 0
";

#[test]
fn sessions_that_go_back(rt: HostRuntime) -> Result<(), Fail> {
    hold(&rt, rt.alloc(), &[BOOT], BACK, 16)
}

/// The session of docs/DEBUGGING.md that finds who wrote a wrong byte.
const OVERRUN: &str = "
== A loop that clears a buffer of four bytes, and the byte behind it.
        mov     7, g0
        stob    g0, 0x204       # the count, behind the buffer at 200
        mov     4, g1
        mov     0, g2
fill:   stob    g2, 0x200(g1)
        subi    1, g1, g1
        cmpible 0, g1, fill
> until 101C
> mem 200 5
> who 204
> back 15
> mem 200 5
> regs
> until 1014
> mem 200 5
debug script
#turn 13 19
#mem 00000200 00 00 00 00 00
#who 5 00001010
#turn 3 4
#mem 00000200 00 00 00 00 07
#view 4 00001010 00000000 001F2002
#g 0=7 1=4
#l 1=40
#turn 4 5
#mem 00000200 00 00 00 00 00
status 0
";

#[test]
fn who_wrote_a_wrong_byte(rt: HostRuntime) -> Result<(), Fail> {
    hold(&rt, rt.alloc(), &[BOOT], OVERRUN, 1)
}

/// Sessions that go back, over images with a PRCB.
const ENTRIES: &str = "
== Back over the entry of an interrupt and the event that brought it. The entry wrote the vector, and no instruction did.
        mov   1, g4
        mov   2, g5
        .org  0x23E4            # the vector of the interrupt that is never masked
        .word handler
        .org  0x1100
handler:
        mov   3, g6
        ret
at 1 nmi
> until 1104
> mem 3048 1
> who 3048
> back 1
> regs
> until 1104
> last 1004
debug script
at 1 nmi
#point 1 event 00001004 00000000 001F2002
#g 4=1 15=3000
#l 1=3040
#point 1 int 00001100 00000000 001F2002
#g 4=1 15=3050
#l 0=3007 1=3090
#turn 11 2
#mem 00003048 F8
#who none
#turn 1 1
#view 1 00001004 00000000 001F2002
#g 4=1 15=3000
#l 1=3040
at 1 nmi
#point 1 event 00001004 00000000 001F2002
#g 4=1 15=3000
#l 1=3040
#point 1 int 00001100 00000000 001F2002
#g 4=1 15=3050
#l 0=3007 1=3090
#turn 11 2
#turn 1 1
status 0
== Back over the entry of a fault.
        divi  0, 7, g4
        addo  1, 2, g5
        .org  ac_image
        .word 0x8000            # no imprecise faults
        .org  arithmetic_faults
        .word handler, 0
        .org  0x1100
handler:
        syncf
> until 1104
> back 1
> held
> until 1104
debug script
#point 1 fault 00001100 00008000 001F2002
#g 15=3050
#l 0=3001 1=3090
#point 2 sync 00001104 00008000 001F2002
#g 15=3050
#l 0=3001 1=3090
#turn 46 2
#turn 1 1
#held 5 0
#point 1 fault 00001100 00008000 001F2002
#g 15=3050
#l 0=3001 1=3090
#point 2 sync 00001104 00008000 001F2002
#g 15=3050
#l 0=3001 1=3090
#turn 46 2
status 0
== Back from an entry that names no handler, and to it again.
        .word 0
        .org  operation_faults
        .word 1, 0x27F
> turn 9
> back 1
> turn 9
debug script
#point 1 end 00001004 00000000 001F2002
#g 15=3000
#l 1=3040
#end dead 1 00000910
#turn 2 1
#turn 1 0
#point 1 end 00001004 00000000 001F2002
#g 15=3000
#l 1=3040
#end dead 1 00000910
#turn 2 1
status 4
== A unit of DMA changes what a store wrote: the store is told, and before the unit its word stands there.
        mov   4, r4
        lda   0x2800, r5
        lda   0x2900, r6
        st    r4, (r6)
        sdma  0, 2, r4
        mov   1, sf2
        mov   0, g0
        .org  0x2800
        .word 0x11223344
at 6 dma 0
> until 1024
> mem 2900 4
> who 2900
> who 2901
> back 1
> mem 2900 4
> until 1024
debug script
at 6 dma 0
#point 6 event 00001020 00000000 001F2002
#g 15=3000
#l 1=3040 4=4 5=2800 6=2900
#turn 17 7
#mem 00002900 44 33 22 11
#who 4 00001014
#who none
#turn 12 6
#mem 00002900 04 00 00 00
at 6 dma 0
#point 6 event 00001020 00000000 001F2002
#g 15=3000
#l 1=3040 4=4 5=2800 6=2900
#turn 17 7
status 0
";

#[test]
fn sessions_that_go_back_over_entries(rt: HostRuntime) -> Result<(), Fail> {
    hold(&rt, rt.alloc(), &[PRCB], ENTRIES, 4)
}
