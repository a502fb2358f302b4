//! DMA through the command, at texts worked out by hand.
use crate::rows::{PRCB, hold};
use std::test::*;

/// The front of a source, behind that with a PRCB: names of words of the interrupt table and of the control table.
const VECTORS: &str = "
        .set  vector_242, 0x23CC
        .set  interrupt_maps, control_table+0x10
";

/// Channels that are set up, and the events that move their units.
const UNITS: &str = "
== Two units: four bytes, and the two that are left. Then the channel has ended, and nothing moves.
        mov   6, r4
        lda   0x2800, r5
        lda   0x3100, r6
        sdma  2, 2, r4
        mov   4, sf2
        mov   sf2, g0
        mov   sf2, g1
        .org  0x2800
        .byte 1, 2, 3, 4, 5, 6, 7, 8
at 5 dma 2
at 6 dma 2
at 6 dma 2
at 6 show 3100 8
run 7
at 5 dma 2
#point 5 event 0000101C 00000000 001F2002
#g 15=3000
#l 1=3040 4=6 5=2800 6=3100
at 6 dma 2
#point 6 event 00001020 00000000 001F2002
#g 0=4 15=3000
#l 1=3040 4=6 5=2800 6=3100
at 6 dma 2
#point 6 event 00001020 00000000 001F2002
#g 0=4 15=3000
#l 1=3040 4=6 5=2800 6=3100
at 6 show 00003100 8
#mem 00003100 01 02 03 04 05 06 00 00
#point 6 event 00001020 00000000 001F2002
#g 0=4 15=3000
#l 1=3040 4=6 5=2800 6=3100
#point 7 end 00001024 00000000 001F2002
#g 0=4 1=40 15=3000
#l 1=3040 4=6 5=2800 6=3100
#end limit
status 0
== A device gives the bytes: a whole unit of four, and no other number of them.
        mov   4, r4
        lda   0x2800, r5
        lda   0x3100, r6
        sdma  0, 18, r4
        mov   1, sf2
        mov   sf2, g0
at 5 feed 0 0102
at 5 dma 0
at 5 show 3100 4
at 5 feed 0 01020304
at 5 show 3100 4
run 6
at 5 feed 0 0102
#point 5 event 0000101C 00000000 001F2002
#g 15=3000
#l 1=3040 4=4 5=2800 6=3100
at 5 dma 0
#point 5 event 0000101C 00000000 001F2002
#g 15=3000
#l 1=3040 4=4 5=2800 6=3100
at 5 show 00003100 4
#mem 00003100 00 00 00 00
#point 5 event 0000101C 00000000 001F2002
#g 15=3000
#l 1=3040 4=4 5=2800 6=3100
at 5 feed 0 01020304
#point 5 event 0000101C 00000000 001F2002
#g 15=3000
#l 1=3040 4=4 5=2800 6=3100
at 5 show 00003100 4
#mem 00003100 01 02 03 04
#point 5 event 0000101C 00000000 001F2002
#g 15=3000
#l 1=3040 4=4 5=2800 6=3100
#point 6 end 00001020 00000000 001F2002
#g 0=10 15=3000
#l 1=3040 4=4 5=2800 6=3100
#end limit
status 0
== The target is in the frame of a call that is not left.
        mov   4, r4
        lda   0x2800, r5
        lda   0x3010, r6
        sdma  0, 2, r4
        mov   1, sf2
        call  f
f:      mov   0, g0
at 6 dma 0
run 9
at 6 dma 0
#point 6 end 00001020 00000000 001F2002
#g 15=3040
#l 0=3000 1=3080
#end hazard 00003010
status 4
== Beside that frame the unit is moved.
        mov   4, r4
        lda   0x2800, r5
        lda   0x3100, r6
        sdma  0, 2, r4
        mov   1, sf2
        call  f
f:      mov   sf2, g0
at 6 dma 0
run 7
at 6 dma 0
#point 6 event 00001020 00000000 001F2002
#g 15=3040
#l 0=3000 1=3080
#point 7 end 00001024 00000000 001F2002
#g 0=10 15=3040
#l 0=3000 1=3080
#end limit
status 0
== The source is read before the target is written: it is in the frame, and the target in the port page.
        mov   2, r4
        lda   0x303F, r5
        lda   0xE0000FFF, r6
        sdma  3, 1, r4
        mov   8, sf2
        call  f
f:      mov   0, g0
at 6 dma 3
run 9
at 6 dma 3
#point 6 end 00001020 00000000 001F2002
#g 15=3040
#l 0=3000 1=3080
#end hazard 0000303F
status 4
== The last byte of a unit goes to the first of the port page.
        mov   2, r4
        lda   0x2800, r5
        lda   0xDFFFFFFF, r6
        sdma  3, 1, r4
        mov   8, sf2
at 5 dma 3
run 9
at 5 dma 3
#point 5 end 0000101C 00000000 001F2002
#g 15=3000
#l 1=3040 4=2 5=2800 6=DFFFFFFF
#end hazard E0000000
status 4
== At its end the channel posts its interrupt, whose handler finds it posted no more.
        mov   1, r4
        lda   0x2800, r5
        lda   0x3200, r6
        lda   0x40, r7          # posts at the end
        sdma  1, r7, r4
        mov   2, sf2
        lda   0x200, g4         # line 9
        mov   g4, sf1
        lda   0x1F0000, g5
        mov   0, g6
        modpc 0, g5, g6         # lowers the priority to 0
        mov   sf0, g9
        .org  interrupt_maps
        .word 0, 0, 0xF0        # line 9 has vector 15 * 16 + 2
        .org  vector_242
        .word handler
        .org  0x2800
        .byte 0xAB
        .org  0x1100
handler:
        mov   sf2, g8
        mov   sf0, g9
at 11 dma 1
at 12 show 3200 1
run 13
at 11 dma 1
#point 11 event 00001038 00000000 00002002
#g 4=200 5=1F0000 6=1F2002 15=3000
#l 1=3040 4=1 5=2800 6=3200 7=40
#point 11 int 00001100 00000000 001E2002
#g 4=200 5=1F0000 6=1F2002 15=3050
#l 0=3007 1=3090
at 12 show 00003200 1
#mem 00003200 AB
#point 12 event 00001104 00000000 001E2002
#g 4=200 5=1F0000 6=1F2002 8=20 15=3050
#l 0=3007 1=3090
#point 13 end 00001108 00000000 001E2002
#g 4=200 5=1F0000 6=1F2002 8=20 15=3050
#l 0=3007 1=3090
#end limit
status 0
== The interrupt of a channel that is masked stays posted.
        mov   1, r4
        lda   0x2800, r5
        lda   0x3200, r6
        lda   0x40, r7          # posts at the end
        sdma  1, r7, r4
        mov   2, sf2
        lda   0x200, g4
        mov   0, sf1
        lda   0x1F0000, g5
        mov   0, g6
        modpc 0, g5, g6         # lowers the priority to 0
        mov   sf0, g9
        .org  interrupt_maps
        .word 0, 0, 0xF0
at 11 dma 1
run 12
at 11 dma 1
#point 11 event 00001038 00000000 00002002
#g 4=200 5=1F0000 6=1F2002 15=3000
#l 1=3040 4=1 5=2800 6=3200 7=40
#point 12 end 0000103C 00000000 00002002
#g 4=200 5=1F0000 6=1F2002 9=200 15=3000
#l 1=3040 4=1 5=2800 6=3200 7=40
#end limit
status 0
";

#[test]
fn units(rt: HostRuntime) -> Result<(), Fail> {
    hold(&rt, rt.alloc(), &[PRCB, VECTORS], UNITS, 8)
}
