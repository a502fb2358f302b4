//! The board of `demo/`, and the copy of a stack there: their sources, their images, their schedules and the texts of
//! their runs, which were worked out by hand.
use crate::check::must;
use crate::rows::hold;
use crate::tests::answers;
use std::test::*;

/// `board.s`.
const BOARD: &str =
    "# A small board. It prints its banner, counts the ticks of a timer at pin 0, and has DMA channel 0 copy the banner. Once
# the timer has ticked twice and the copy is there, it prints the copy and ends with the number of ticks.

        .set  console, 0xE0000000
        .set  copy, 0x4000
        .set  control_table, 0xA00
        .set  interrupt_table, 0x2000

        .org  0xFFFFFF10
        .word start, prcb
        .org  0x800
prcb:   .word 0x900, control_table, 0, 0x40000000       # fault table, control table, AC, fault configuration
        .word interrupt_table, 0xB00, 0, 0x3000         # interrupt table, system procedures, reserved, stack
        .word 0, 0
        .org  control_table+0x10
        .word 1, 0, 2           # pin 0 has vector 18, DMA channel 0 has vector 34
        .org  interrupt_table+0x4C
        .word tick
        .org  interrupt_table+0x8C
        .word copied

        .org  0x1000
start:  lda   banner, g0
        call  print
        lda   0x101, g1         # pin 0 and DMA channel 0
        mov   g1, sf1           # are not masked
        lda   0x1F0000, g1
        mov   0, g2
        modpc 0, g1, g2         # and let in
        mov   8, r4             # eight bytes
        lda   banner, r5        # from here
        lda   copy, r6          # to here
        lda   66, r7            # in units of four bytes, with an interrupt at the end
        sdma  0, r7, r4
        mov   1, sf2            # enables channel 0
wait:   cmpobg 2, g12, wait
        cmpobne 1, g13, wait
        lda   copy, g0
        call  print
        lda   console, g5
        st    g12, 4(g5)        # ends the run

# Prints the bytes from g0 on, up to a zero.
print:  lda   console, r5
next:   ldob  (g0), r4
        cmpobe 0, r4, printed
        stob  r4, (r5)
        addo  1, g0, g0
        b     next
printed:
        ret

# The handlers.
tick:   addo  1, g12, g12
        ret
copied: mov   1, g13
        ret

banner: .ascii \"i960CA\\n\"
        .byte 0
";

/// `board.hex`.
const BOARD_IMAGE: &str = ":02000004FFFFFC
:08FF10000010000000080000D1
:020000040000FA
:1008000000090000000A0000000000000000004095
:1008100000200000000B000000000000003000007D
:080820000000000000000000D0
:0C0A1000010000000000000002000000D7
:04204C0084100000FC
:04208C008C100000B4
:101000000030808C941000005C0000090101888C85
:101010001126085C0030888C00001F00000E905CD8
:10102000804A9465080E205C0030288C94100000E3
:101030000030308C004000004200388C00C8216332
:10104000012E105C00201731FC7F0F350030808CA2
:1010500000400000100000090030A88C000000E0F3
:101060000460E5920030288C000000E0002024801D
:10107000102001320060218201088459F0FFFF082E
:101080000000000A0108E7590000000A010EE85CB0
:0C1090000000000A6939363043410A00B4
:00000001FF
";

/// The events of `board.sch`, and `board.out`.
const BOARD_RUN: &str = "
== The board.
at 60 pin 0
at 70 dma 0
at 80 pin 0
at 90 dma 0
at 95 show 4000 8
run 1000
#out 69
#out 39
#out 36
#out 30
#out 43
#out 41
#out 0A
at 60 pin 0
#point 60 event 00001044 00000001 00002002
#g 0=109B 1=1F0000 2=1F2002 15=3000
#l 1=3040 2=100C 4=8 5=1094 6=4000 7=42
#point 60 int 00001084 00000001 00022002
#g 0=109B 1=1F0000 2=1F2002 15=3050
#l 0=3007 1=3090
at 70 dma 0
#point 70 event 00001044 00000001 00002002
#g 0=109B 1=1F0000 2=1F2002 12=1 15=3000
#l 1=3040 2=1044 4=8 5=1094 6=4000 7=42
at 80 pin 0
#point 80 event 00001044 00000001 00002002
#g 0=109B 1=1F0000 2=1F2002 12=1 15=3000
#l 1=3040 2=1044 4=8 5=1094 6=4000 7=42
#point 80 int 00001084 00000001 00022002
#g 0=109B 1=1F0000 2=1F2002 12=1 15=3050
#l 0=3007 1=3090
at 90 dma 0
#point 90 event 00001044 00000001 00002002
#g 0=109B 1=1F0000 2=1F2002 12=2 15=3000
#l 1=3040 2=1044 4=8 5=1094 6=4000 7=42
#point 90 int 0000108C 00000001 00042002
#g 0=109B 1=1F0000 2=1F2002 12=2 15=3050
#l 0=3007 1=3090
at 95 show 00004000 8
#mem 00004000 69 39 36 30 43 41 0A 00
#point 95 event 00001054 00000002 00002002
#g 0=4000 1=1F0000 2=1F2002 12=2 13=1 15=3000
#l 1=3040 2=1044 4=8 5=1094 6=4000 7=42
#out 69
#out 39
#out 36
#out 30
#out 43
#out 41
#out 0A
#point 137 end 00001064 00000002 00002002
#g 0=4007 1=1F0000 2=1F2002 5=E0000000 12=2 13=1 15=3000
#l 1=3040 2=1058 4=8 5=1094 6=4000 7=42
#end exit 00000002
status 0
";

/// `marks.s`.
const MARKS: &str =
    "# Copies a part of its stack, as a dump or a switch of tasks does, with the frames of routines that have returned,
# and prints a text out of the copy. It adds up the words of the copy too, and keeps the sum behind it. The words of
# those frames are stale: they are marked, and so is the sum. The run goes on, since none of them decides anything.

        .set  console, 0xE0000000
        .set  stack, 0x3000
        .set  copy, 0x5000

        .org  0xFFFFFF10
        .word start, prcb
        .org  0x800
prcb:   .word 0x900, 0xA00, 0, 0x40000000       # fault table, control table, AC, fault configuration
        .word 0x2000, 0xB00, 0, stack           # interrupt table, system procedures, reserved, stack
        .word 0, 0

        .org  0x1000
start:  call  work
        lda   stack, g0         # from here
        lda   copy, g1          # to here
        lda   36, g2            # so many words
        mov   0, g4
next:   ld    (g0), g3
        st    g3, (g1)
        addo  g3, g4, g4        # the sum
        addo  4, g0, g0
        addo  4, g1, g1
        subo  1, g2, g2
        cmpobne 0, g2, next
        st    g4, (g1)          # behind the copy
        lda   copy+0x80, g0     # the text, which was at stack+0x80
        lda   console, g5
each:   ldob  (g0), g6
        cmpobe 0, g6, done
        stob  g6, (g5)
        addo  1, g0, g0
        b     each
done:   st    g6, 4(g5)         # ends the run with 0

# Leaves a text on the stack, above its frame, which is at stack+0x40.
work:   lda   16(sp), sp
        lda   0x000A6B6F, r4    # the letters o and k, and a line feed
        st    r4, 64(fp)
        call  leaf
        ret
leaf:   ret
";

/// `marks.hex`.
const MARKS_IMAGE: &str = ":02000004FFFFFC
:08FF10000010000000080000D1
:020000040000FA
:1008000000090000000A0000000000000000004095
:1008100000200000000B000000000000003000007D
:080820000000000000000000D0
:10100000640000090030808C003000000030888CC3
:10101000005000002400908C000EA05C00209C90EA
:1010200000609C921300A5590408845904488C5907
:1010300001899459E8BF04350060A4920030808C87
:10104000805000000030A88C000000E00020B48038
:1010500010A005320060B58201088459F0FFFF0836
:101060000460B5921060088C0030208C6F6B0A0011
:1010700040E02792080000090000000A0000000A72
:00000001FF
";

/// The event of `marks.sch`, and `marks.out`.
const MARKS_RUN: &str = "
== The words of frames that were left are copied and added up, and a text behind them is printed.
at 264 show 5078 28
run 1000
at 264 show 00005078 28
#mem 00005078 -- -- -- -- -- -- -- -- 6F 6B 0A 00 00 00 00 00 00 00 00 00 00 00 00 00 -- -- -- --
#point 264 event 0000103C 00000002 001F2002
#g 0=3090 1=5090 4=- 15=3000
#l 1=3040 2=1004
#out 6F
#out 6B
#out 0A
#point 284 end 00001064 00000002 001F2002
#g 0=5083 1=5090 4=- 5=E0000000 15=3000
#l 1=3040 2=1004
#end exit 00000000
status 0
-- Where the run is to end with the sum, it ends before that.
        .org  done
        st    g4, 4(g5)
run 1000
#out 6F
#out 6B
#out 0A
#point 283 end 00001060 00000002 001F2002
#g 0=5083 1=5090 4=- 5=E0000000 15=3000
#l 1=3040 2=1004
#end hazard 00001060
status 4
";

#[test]
fn the_board_runs(rt: HostRuntime) -> Result<(), Fail> {
    must(&rt, answers(rt.alloc(), BOARD, "asm a", 0, BOARD_IMAGE)?);
    hold(&rt, rt.alloc(), &[BOARD], BOARD_RUN, 1)
}

#[test]
fn the_copy_of_a_stack_runs(rt: HostRuntime) -> Result<(), Fail> {
    must(&rt, answers(rt.alloc(), MARKS, "asm a", 0, MARKS_IMAGE)?);
    hold(&rt, rt.alloc(), &[MARKS], MARKS_RUN, 2)
}
