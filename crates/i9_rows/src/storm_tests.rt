//! What comes from outside to firmware that is not ready for it, and accesses and code that no good firmware has,
//! through the command, at texts worked out by hand.
use crate::rows::{BOOT, PRCB, hold};
use std::test::*;

/// The front of a source, behind that with a PRCB: the words of the vectors 18, 34, .. 130, which are those of the
/// fields 1 to 8, and of the interrupt that is never masked, and a name of words of the control table.
const VECTORS: &str = "
        .set  maps_of_pins, control_table+0x10
        .org  0x204C
        .word handler
        .org  0x208C
        .word handler
        .org  0x20CC
        .word handler
        .org  0x210C
        .word handler
        .org  0x214C
        .word handler
        .org  0x218C
        .word handler
        .org  0x21CC
        .word handler
        .org  0x220C
        .word handler
        .org  0x23E4            # vector 248
        .word handler
        .org  start
";

/// Many interrupts.
const STORM: &str = "
== All pins are posted at priority 31, where the interrupt that is never masked is let in. Behind modpc the pins come
== by their priorities, each when the handler of the one before it has returned. The handler adds the field to g0.
        mov   0, g6
        lda   0xFF, g4
        mov   g4, sf1
        lda   0x1F0000, g5
        mov   g4, sf0           # posts all pins
        modpc 0, g5, g6         # lowers the priority to 0
        mov   7, g7
        .org  maps_of_pins
        .word 0x4321, 0x8765    # pin n has field n + 1
        .org  0x1100
handler:
        ld    -8(fp), r4        # the vector, in the record
        shro  4, r4, r4
        shlo  4, g0, g0
        or    r4, g0, g0
        ret
at 5 nmi
run 52
at 5 nmi
#point 5 event 00001018 00000000 001F2002
#g 4=FF 5=1F0000 15=3000
#l 1=3040
#point 5 int 00001100 00000000 001F2002
#g 4=FF 5=1F0000 15=3050
#l 0=3007 1=3090
#point 11 int 00001100 00000000 00102002
#g 0=F 4=FF 5=1F0000 6=1F2002 15=3050
#l 0=3007 1=3090
#point 16 int 00001100 00000000 000E2002
#g 0=F8 4=FF 5=1F0000 6=1F2002 15=3050
#l 0=3007 1=3090
#point 21 int 00001100 00000000 000C2002
#g 0=F87 4=FF 5=1F0000 6=1F2002 15=3050
#l 0=3007 1=3090
#point 26 int 00001100 00000000 000A2002
#g 0=F876 4=FF 5=1F0000 6=1F2002 15=3050
#l 0=3007 1=3090
#point 31 int 00001100 00000000 00082002
#g 0=F8765 4=FF 5=1F0000 6=1F2002 15=3050
#l 0=3007 1=3090
#point 36 int 00001100 00000000 00062002
#g 0=F87654 4=FF 5=1F0000 6=1F2002 15=3050
#l 0=3007 1=3090
#point 41 int 00001100 00000000 00042002
#g 0=F876543 4=FF 5=1F0000 6=1F2002 15=3050
#l 0=3007 1=3090
#point 46 int 00001100 00000000 00022002
#g 0=F8765432 4=FF 5=1F0000 6=1F2002 15=3050
#l 0=3007 1=3090
#point 52 end 00001020 00000000 00002002
#g 0=87654321 4=FF 5=1F0000 6=1F2002 7=7 15=3000
#l 1=3040 2=101C
#end limit
status 0
";

/// Interrupts at one count.
const AT_ONE_COUNT: &str = "
== Three pins: an interrupt that is let in is entered before the next event of its count, also over a handler of less
== priority, and one that is not waits for the returns.
        mov   7, g4
        mov   g4, sf1
        lda   0x1F0000, g5
        mov   0, g6
        modpc 0, g5, g6         # lowers the priority to 0
        mov   9, g7
        .org  maps_of_pins
        .word 0x321             # priorities 2, 4 and 6
        .org  0x1100
handler:
        addo  1, g0, g0
        ret
at 5 pin 1
at 5 pin 2
at 5 pin 0
run 12
at 5 pin 1
#point 5 event 00001018 00000000 00002002
#g 4=7 5=1F0000 6=1F2002 15=3000
#l 1=3040
#point 5 int 00001100 00000000 00042002
#g 4=7 5=1F0000 6=1F2002 15=3050
#l 0=3007 1=3090
at 5 pin 2
#point 5 event 00001100 00000000 00042002
#g 4=7 5=1F0000 6=1F2002 15=3050
#l 0=3007 1=3090
#point 5 int 00001100 00000000 00062002
#g 4=7 5=1F0000 6=1F2002 15=30A0
#l 0=3057 1=30E0
at 5 pin 0
#point 5 event 00001100 00000000 00062002
#g 4=7 5=1F0000 6=1F2002 15=30A0
#l 0=3057 1=30E0
#point 9 int 00001100 00000000 00022002
#g 0=2 4=7 5=1F0000 6=1F2002 15=3050
#l 0=3007 1=3090
#point 12 end 0000101C 00000000 00002002
#g 0=3 4=7 5=1F0000 6=1F2002 7=9 15=3000
#l 1=3040 2=1018
#end limit
status 0
";

/// Interrupts whose stack or mask is odd.
const INTERRUPTS: &str = "
== An interrupt stack that is rounded up over the last address: the record is at 0.
        lda   0x5000, fp
        lda   0x5040, sp
        lda   0x2000, g5
        mov   0, g6
        modpc 0, g5, g6         # no interrupt is handled
        mov   7, g7
        .org  interrupt_stack
        .word 0xFFFFFFF1
        .org  0x1100
handler:
        ret
at 5 nmi
at 5 show 0 16
run 7
at 5 nmi
#point 5 event 00001020 00000000 001F0002
#g 5=2000 6=1F2002 15=5000
#l 1=5040
#point 5 int 00001100 00000000 001F2002
#g 5=2000 6=1F2002 15=10
#l 0=5007 1=50
at 5 show 00000000 16
#mem 00000000 02 00 1F 00 00 00 00 00 F8 00 00 00 00 00 00 00
#point 5 event 00001100 00000000 001F2002
#g 5=2000 6=1F2002 15=10
#l 0=5007 1=50
#point 7 end 00001024 00000000 001F0002
#g 5=2000 6=1F2002 7=7 15=5000
#l 1=5040 2=1020
#end limit
status 0
== Words of ones post all twelve lines and let them in. Pin 5 has vector 18; the others have vector 2, which is none.
        subo  1, 0, sf1
        subo  1, 0, sf0
        mov   sf0, g0
        mov   sf1, g1
        lda   0x1F0000, g5
        mov   0, g6
        modpc 0, g5, g6         # lowers the priority to 0
        mov   7, g7
        .org  maps_of_pins
        .word 0, 0x10
        .org  0x1100
handler:
        mov   sf0, g2
        ret
run 10
#point 7 int 00001100 00000000 00022002
#g 0=FFF 1=FFF 5=1F0000 6=1F2002 15=3050
#l 0=3007 1=3090
#point 10 end 00001024 00000000 00002002
#g 0=FFF 1=FFF 2=FDF 5=1F0000 6=1F2002 7=7 15=3000
#l 1=3040 2=1020
#end limit
status 0
";

/// An interrupt in its own handler.
const NESTED: &str = "
== The interrupt that is never masked interrupts its own handler, twice at one count.
        mov   1, g4
        .org  0x1100
handler:
        ret
at 0 nmi
at 0 nmi
at 0 nmi
run 4
at 0 nmi
#point 0 event 00001000 00000000 001F2002
#g 15=3000
#l 1=3040
#point 0 int 00001100 00000000 001F2002
#g 15=3050
#l 0=3007 1=3090
at 0 nmi
#point 0 event 00001100 00000000 001F2002
#g 15=3050
#l 0=3007 1=3090
#point 0 int 00001100 00000000 001F2002
#g 15=30A0
#l 0=3057 1=30E0
at 0 nmi
#point 0 event 00001100 00000000 001F2002
#g 15=30A0
#l 0=3057 1=30E0
#point 0 int 00001100 00000000 001F2002
#g 15=30F0
#l 0=30A7 1=3130
#point 4 end 00001004 00000000 001F2002
#g 4=1 15=3000
#l 1=3040 2=1000
#end limit
status 0
";

/// Requests of software whose bits lie in frames.
const REQUESTS: &str = "
== A lower priority has software's requests looked at: their 36 bytes reach into a frame that is not left.
        call  f
f:      lda   0x1F0000, g5
        mov   0, g6
        modpc 0, g5, g6         # lowers the priority to 0
        .org  0x810
        .word stack-0x10        # the interrupt table
run 5
#point 4 end 00001014 00000000 00002002
#g 5=1F0000 6=1F2002 15=3040
#l 0=3000 1=3080
#end hazard 00003000
status 4
-- At the length they are not looked at.
run 4
#point 4 end 00001014 00000000 00002002
#g 5=1F0000 6=1F2002 15=3040
#l 0=3000 1=3080
#end limit
status 0
== A handler's word in a frame that is not left: the event is told, and the entry meets the hazard.
        call  f
f:      mov   1, g4
        .org  0x810
        .word stack-0x3C4       # the interrupt table, so that the word of vector 248 is at stack+0x20
at 1 nmi
run 9
at 1 nmi
#point 1 event 00001004 00000000 001F2002
#g 15=3040
#l 0=3000 1=3080
#point 1 end 00001004 00000000 001F2002
#g 15=3040
#l 0=3000 1=3080
#end hazard 00003020
status 4
== The record of the entry lies over the bits of the requests. They are cleared behind it, by what it has there: the
== byte of the priorities is the lowest one of PC, 02, and loses the bit of priority 1; so the handler returns to user
== mode.
        lda   0x1F0000, g5
        mov   0, g6
        modpc 0, g5, g6         # lowers the priority to 0
        lda   0x2000, sp        # the interrupt table
        sysctl 9, 9, g7         # asks for vector 9
        mov   7, g8
        .org  0x2028
        .word handler
        .org  0x1100
handler:
        ret
at 5 show 2000 16
run 7
#point 5 int 00001100 00000000 00012002
#g 5=1F0000 6=1F2002 15=2010
#l 0=3007 1=2050
at 5 show 00002000 16
#mem 00002000 00 20 00 00 00 00 00 00 09 00 00 00 00 00 00 00
#point 5 event 00001100 00000000 00012002
#g 5=1F0000 6=1F2002 15=2010
#l 0=3007 1=2050
#point 7 end 00001020 00000000 00002000
#g 5=1F0000 6=1F2002 8=7 15=3000
#l 1=2000 2=101C
#end limit
status 0
";

/// What is let in where nothing seems to be.
const LET_IN: &str = "
== A request of software for vector 255 is let in at priority 31. Its two bits are cleared.
        lda   0xFF, g6
        sysctl g6, g6, g6
        mov   7, g7
        .org  0x2400
        .word handler
        .org  0x1100
handler:
        ldob  0x2003, g4
        ldob  0x2023, g5
        ld    -8(fp), g8        # the vector, in the record
        ret
run 7
#point 2 int 00001100 00000000 001F2002
#g 6=FF 15=3050
#l 0=3007 1=3090
#point 7 end 0000100C 00000000 001F2002
#g 6=FF 7=7 8=FF 15=3000
#l 1=3040 2=1008
#end limit
status 0
== A pin that has no vector is posted and let in; a store into the control table and sysctl give it one, and it comes.
        mov   1, g4
        mov   g4, sf0
        mov   g4, sf1
        lda   0x1F0000, g5
        mov   0, g6
        modpc 0, g5, g6         # lowers the priority to 0
        st    g4, control_table+0x10
        lda   0x401, g7
        sysctl g7, g7, g7       # loads group 1
        mov   9, g8
        .org  0x204C
        .word handler
        .org  0x1100
handler:
        ret
run 11
#point 9 int 00001100 00000000 00022002
#g 4=1 5=1F0000 6=1F2002 7=401 15=3050
#l 0=3007 1=3090
#point 11 end 00001030 00000000 00002002
#g 4=1 5=1F0000 6=1F2002 7=401 8=9 15=3000
#l 1=3040 2=102C
#end limit
status 0
";

/// Units of DMA over code and frames.
const UNITS: &str = "
== A unit over the next instruction, which is done as the unit left it.
        mov   4, r4
        lda   0x2800, r5
        lda   next, r6
        sdma  0, 2, r4
        mov   1, sf2
next:   mov   1, g0
        .org  0x2800
        mov   2, g0
at 5 dma 0
run 6
at 5 dma 0
#point 5 event 0000101C 00000000 001F2002
#g 15=3000
#l 1=3040 4=4 5=2800 6=101C
#point 6 end 00001020 00000000 001F2002
#g 0=2 15=3000
#l 1=3040 4=4 5=2800 6=101C
#end limit
status 0
== A unit into a frame that was left: its word has no mark then, and the next one has one.
        call  f
        mov   4, r4
        lda   0x2800, r5
        lda   0x3010, r6
        sdma  0, 2, r4
        mov   1, sf2
        ld    0x3010, g0
        ld    0x3014, g1
f:      ret
        .org  0x2800
        .word 0x11223344
at 7 dma 0
run 9
at 7 dma 0
#point 7 event 00001020 00000000 001F2002
#g 15=3000
#l 1=3040 2=1004 4=4 5=2800 6=3010
#point 9 end 00001030 00000000 001F2002
#g 0=11223344 1=- 15=3000
#l 1=3040 2=1004 4=4 5=2800 6=3010
#end limit
status 0
== A device gives a whole unit of four where one byte is left: the first of them is moved, and the channel ends.
        mov   1, r4
        lda   0x2800, r5
        lda   0x3100, r6
        sdma  0, 18, r4
        mov   1, sf2
        mov   sf2, g0
at 5 feed 0 AABBCCDD
at 5 show 3100 4
run 6
at 5 feed 0 AABBCCDD
#point 5 event 0000101C 00000000 001F2002
#g 15=3000
#l 1=3040 4=1 5=2800 6=3100
at 5 show 00003100 4
#mem 00003100 AA 00 00 00
#point 5 event 0000101C 00000000 001F2002
#g 15=3000
#l 1=3040 4=1 5=2800 6=3100
#point 6 end 00001020 00000000 001F2002
#g 0=10 15=3000
#l 1=3040 4=1 5=2800 6=3100
#end limit
status 0
";

/// Accesses over the last address and over the start of the port page.
const ACROSS: &str = "
== A unit of sixteen bytes over the last address, to four bytes behind its source: all are read before one is written.
        mov   16, r4
        lda   0xFFFFFFF8, r5
        lda   0xFFFFFFFC, r6
        sdma  0, 3, r4
        mov   1, sf2
        mov   sf2, g0
        .org  0xFFFFFFF8
        .byte 1, 2, 3, 4, 5, 6, 7, 8
        .org  0
        .byte 9, 10, 11, 12, 13, 14, 15, 16
at 5 dma 0
at 5 show FFFFFFF8 21
run 6
at 5 dma 0
#point 5 event 0000101C 00000000 001F2002
#g 15=3000
#l 1=3040 4=10 5=FFFFFFF8 6=FFFFFFFC
at 5 show FFFFFFF8 21
#mem FFFFFFF8 01 02 03 04 01 02 03 04 05 06 07 08 09 0A 0B 0C 0D 0E 0F 10 00
#point 5 event 0000101C 00000000 001F2002
#g 15=3000
#l 1=3040 4=10 5=FFFFFFF8 6=FFFFFFFC
#point 6 end 00001020 00000000 001F2002
#g 0=10 15=3000
#l 1=3040 4=10 5=FFFFFFF8 6=FFFFFFFC
#end limit
status 0
== Four words over the start of the port page: two go to memory, then come the console and the exit.
        lda   0xDFFFFFF8, g0
        mov   1, g4
        mov   2, g5
        lda   0x141, g6
        lda   0xDEADBEEF, g7
        stq   g4, (g0)
run 9
#out 41
#point 6 end 00001020 00000000 001F2002
#g 0=DFFFFFF8 4=1 5=2 6=141 7=DEADBEEF 15=3000
#l 1=3040
#end exit DEADBEEF
status 0
== A word over the start of the port page is in the order of the region where it begins, 13: the console gets its
== greatest byte, and, once that region is big-endian, its least. A load has 0 in its place.
        lda   0xDFFFFFFD, g0
        lda   0x44332211, g1
        st    g1, (g0)
        lda   0x400000, g2
        st    g2, 0xA54         # region 13, of group 5
        lda   0x405, g3
        sysctl g3, g3, g3
        st    g1, (g0)
        ld    (g0), g4
run 9
#out 44
#out 11
#point 9 end 00001030 00000000 001F2002
#g 0=DFFFFFFD 1=44332211 2=400000 3=405 4=44332200 15=3000
#l 1=3040
#end limit
status 0
";

/// Accesses and frames at the ends of the port page.
const PORT_PAGE: &str = "
== Four words over the end of the port page: two are dropped, and two go to memory.
        lda   0xE0000FF8, g0
        mov   1, g4
        mov   2, g5
        mov   3, g6
        mov   4, g7
        stq   g4, (g0)
        ldq   (g0), g8
run 7
#point 7 end 00001020 00000000 001F2002
#g 0=E0000FF8 4=1 5=2 6=3 7=4 10=3 11=4 15=3000
#l 1=3040
#end limit
status 0
== A fault where the stack pointer is next to the port page: the record is before it, and the handler's frame is in it,
== where it can't be saved.
        lda   0xDFFFFFF0, sp
        .word 0
        .org  operation_faults
        .word handler, 0
        .org  0x1100
handler:
        call  handler
run 9
#point 2 fault 00001100 00000000 001F2002
#g 15=E0000000
#l 0=3001 1=E0000040
#point 2 end 00001100 00000000 001F2002
#g 15=E0000000
#l 0=3001 1=E0000040
#end hazard E0000000
status 4
== Returns to a frame whose end is in the port page.
        lda   0xDFFFFFE0, pfp
        ret
run 9
#point 1 end 00001008 00000000 001F2002
#g 15=3000
#l 0=DFFFFFE0 1=3040
#end hazard E0000000
status 4
";

/// Code that is stored over as it is issued, and a turn that does not come.
const CODE: &str = "
== Each store changes an instruction that would else be issued in its own turn: the second of the turn, behind the
== store; the third, with the store as the second; and the third, with the store as the first.
        lda   0x5CA00E02, g1    # mov 2, g4
        lda   0x08000008, g2    # b, two words on
        st    g1, first
first:  mov   1, g4
        mov   3, g5
        st    g2, second
second: b     wrong
        mov   4, g6
        st    g2, third
        mov   5, g7
third:  b     wrong
wrong:  mov   31, g9
        mov   6, g10
run 11
#point 11 end 00001048 00000000 001F2002
#g 1=5CA00E02 2=8000008 4=2 5=3 7=5 10=6
#l 1=40
#end limit
status 0
-- Their turns: the stores are issued at 3, 5 and 7.
> until 101C
> until 1030
> until 1044
debug script
#turn 4 4
#turn 6 7
#turn 8 10
status 0
== A frame whose locals are code: the flush writes it over code that was done before, and so r4 is done in its place.
        lda   0x1100, fp
        lda   0x5CA00E02, r4    # mov 2, g4
        ld    code+4, r5
        bal   code
        call  f
f:      flushreg
        bal   code
        .org  0x1110
code:   mov   1, g4
        bx    (g14)
run 11
#point 8 flush 00001024 00000000 001F2002
#g 4=1 14=101C 15=40
#l 0=1100 1=80
#point 11 end 00001028 00000000 001F2002
#g 4=2 14=1028 15=40
#l 0=1100 1=80
#end limit
status 0
== The greatest turn that a schedule may have does not come.
loop:   b     loop
turn 1000000000000 nmi
run 1000
#point 1000 end 00001000 00000000 001F2002
#g
#l 1=40
#end limit
status 0
";

/// Events beside an imprecise fault, and bytes that a session looks at.
const LOOKS: &str = "
== An imprecise fault ends the run before an event that waits behind its instruction.
        divi  0, 7, g4
        addo  1, 2, g5
at 1 show 100 1
run 5
#end imprecise 00001000
status 4
-- The same with an event that waits for turn 2, when the sum would be issued.
turn 2 show 100 1
run 5
#end imprecise 00001000
status 4
-- An event that waits for turn 1 comes before the division.
turn 1 show 100 1
run 5
at 0 show 00000100 1
#mem 00000100 00
#point 0 event 00001000 00000000 001F2002
#g
#l 1=40
#end imprecise 00001000
status 4
== Bytes over the start of the port page, where the image's are dropped, and over the last address.
        mov   1, g4
        .org  0xDFFFFFFE
        .byte 0x11, 0x22, 0x33
        .org  0xFFFFFFFE
        .byte 0x44, 0x55
        .org  0
        .byte 0x66
> mem DFFFFFFE 4
> rawmem DFFFFFFE 4
> mem FFFFFFFE 4
> rawmem FFFFFFFE 4
debug script
#mem DFFFFFFE 11 22 00 00
#rawmem DFFFFFFE 11 22 00 00
#mem FFFFFFFE 44 55 66 00
#rawmem FFFFFFFE 44 55 66 00
status 0
";

/// Events beside a hazard.
const EVENTS: &str = "
== What meets a hazard waits for the multiplication: it would be issued at turn 10, and an event of that turn comes
== before it.
        call  f
f:      muli  3, 4, g2
        st    g4, 16(pfp)       # in the caller's frame
turn 10 show 100 1
run 9
at 2 show 00000100 1
#mem 00000100 00
#point 2 event 00001008 00000000 001F2002
#g 2=C 15=40
#l 1=80
#point 2 end 00001008 00000000 001F2002
#g 2=C 15=40
#l 1=80
#end hazard 00000010
status 4
-- One of the next turn is not.
turn 11 show 100 1
run 9
#point 2 end 00001008 00000000 001F2002
#g 2=C 15=40
#l 1=80
#end hazard 00000010
status 4
== A load from there waits for nothing, and the refused word behind it waits for the multiplication: the event of turn
== 10 comes before that word, whose entry of the fault table is in the frame.
        call  f
f:      muli  3, 4, g2
        ld    16(pfp), g4
turn 10 show 100 1
run 9
at 3 show 00000100 1
#mem 00000100 00
#point 3 event 0000100C 00000000 001F2002
#g 2=C 4=- 15=40
#l 1=80
#point 4 end 00001010 00000000 001F2002
#g 2=C 4=- 15=40
#l 1=80
#end hazard 00000010
status 4
== Events of the count where a hazard ends the run come before it: a show reads where the store may not write. The one
== of the next count does not come.
        mov   5, r4
        call  f
f:      st    g4, 16(pfp)
at 2 pin 7
at 2 dma 3
at 2 show 10 4
at 3 nmi
run 9
at 2 pin 7
#point 2 event 00001008 00000000 001F2002
#g 15=40
#l 1=80
at 2 dma 3
#point 2 event 00001008 00000000 001F2002
#g 15=40
#l 1=80
at 2 show 00000010 4
#mem 00000010 05 00 00 00
#point 2 event 00001008 00000000 001F2002
#g 15=40
#l 1=80
#point 2 end 00001008 00000000 001F2002
#g 15=40
#l 1=80
#end hazard 00000010
status 4
";

#[test]
fn pins_all_at_once(rt: HostRuntime) -> Result<(), Fail> {
    hold(&rt, rt.alloc(), &[PRCB, VECTORS], STORM, 1)
}

#[test]
fn pins_in_an_order(rt: HostRuntime) -> Result<(), Fail> {
    hold(&rt, rt.alloc(), &[PRCB, VECTORS], AT_ONE_COUNT, 1)
}

#[test]
fn odd_stacks_and_masks(rt: HostRuntime) -> Result<(), Fail> {
    hold(&rt, rt.alloc(), &[PRCB, VECTORS], INTERRUPTS, 2)
}

#[test]
fn an_interrupt_in_its_own_handler(rt: HostRuntime) -> Result<(), Fail> {
    hold(&rt, rt.alloc(), &[PRCB, VECTORS], NESTED, 1)
}

#[test]
fn requests_in_frames(rt: HostRuntime) -> Result<(), Fail> {
    hold(&rt, rt.alloc(), &[PRCB], REQUESTS, 4)
}

#[test]
fn interrupts_that_are_let_in(rt: HostRuntime) -> Result<(), Fail> {
    hold(&rt, rt.alloc(), &[PRCB], LET_IN, 2)
}

#[test]
fn units_over_code_and_frames(rt: HostRuntime) -> Result<(), Fail> {
    hold(&rt, rt.alloc(), &[PRCB], UNITS, 3)
}

#[test]
fn accesses_across_borders(rt: HostRuntime) -> Result<(), Fail> {
    hold(&rt, rt.alloc(), &[PRCB], ACROSS, 3)
}

#[test]
fn ends_of_the_port_page(rt: HostRuntime) -> Result<(), Fail> {
    hold(&rt, rt.alloc(), &[PRCB], PORT_PAGE, 3)
}

#[test]
fn code_that_is_stored_over(rt: HostRuntime) -> Result<(), Fail> {
    hold(&rt, rt.alloc(), &[BOOT], CODE, 4)
}

#[test]
fn events_beside_an_imprecise_fault(rt: HostRuntime) -> Result<(), Fail> {
    hold(&rt, rt.alloc(), &[BOOT], LOOKS, 4)
}

#[test]
fn events_beside_a_hazard(rt: HostRuntime) -> Result<(), Fail> {
    hold(&rt, rt.alloc(), &[BOOT], EVENTS, 4)
}
