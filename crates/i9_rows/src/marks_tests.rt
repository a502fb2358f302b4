//! Marks of stale values through the command: which registers and bytes have them, and what keeps them. The texts were
//! worked out by hand, and hold at every number of sets.
use crate::rows::{PRCB, hold};
use std::test::*;

/// The front of a source, behind that with a PRCB. A routine was called and left, so that only its save wrote the bytes
/// from 3000 to 303F. g1 has the address 3010, and g0 the word there, so it is marked. That is four instructions.
pub(crate) const LEFT: &str = "
        .org  0xFFC
left:   ret
        .org  start
        call  left
        lda   0x3010, g1
        ld    (g1), g0          # marked
";

/// The names that keep marks: of three operands, of two, and of groups.
const KEEPING: &str = "
== The first source is marked, and so is each destination.
        and   g0, 5, r3
        andnot g0, 5, r4
        notand g0, 5, r5
        xor   g0, 5, r6
        or    g0, 5, r7
        nor   g0, 5, r8
        xnor  g0, 5, r9
        not   g0, r10
        ornot g0, 5, r11
        notor g0, 5, r12
        nand  g0, 5, r13
        setbit g0, 5, r14
        clrbit g0, 5, r15
        notbit g0, 5, g2
        alterbit g0, 5, g3
        addo  g0, 5, g4
        subo  g0, 5, g5
        mulo  g0, 5, g6
        shro  g0, 5, g7
        shlo  g0, 5, g8
        shri  g0, 5, g9
        shrdi g0, 5, g10
        rotate g0, 5, g11
        emul  g0, 5, g12        # and g13
run 28
#point 28 end 00001070 00000000 001F2002
#g 0=- 1=3010 2=- 3=- 4=- 5=- 6=- 7=- 8=- 9=- 10=- 11=- 12=- 13=- 15=3000
#l 1=3040 2=1004 3=- 4=- 5=- 6=- 7=- 8=- 9=- 10=- 11=- 12=- 13=- 14=- 15=-
#end limit
status 0
== The second source is marked.
        and   5, g0, r3
        andnot 5, g0, r4
        notand 5, g0, r5
        xor   5, g0, r6
        or    5, g0, r7
        nor   5, g0, r8
        xnor  5, g0, r9
        ornot 5, g0, r11
        notor 5, g0, r12
        nand  5, g0, r13
        setbit 5, g0, r14
        clrbit 5, g0, r15
        notbit 5, g0, g2
        alterbit 5, g0, g3
        addo  5, g0, g4
        subo  5, g0, g5
        mulo  5, g0, g6
        shro  5, g0, g7
        shlo  5, g0, g8
        shri  5, g0, g9
        shrdi 5, g0, g10
        rotate 5, g0, g11
        emul  5, g0, g12
run 27
#point 27 end 0000106C 00000000 001F2002
#g 0=- 1=3010 2=- 3=- 4=- 5=- 6=- 7=- 8=- 9=- 10=- 11=- 12=- 13=- 15=3000
#l 1=3040 2=1004 3=- 4=- 5=- 6=- 7=- 8=- 9=- 11=- 12=- 13=- 14=- 15=-
#end limit
status 0
== No source is marked: the destinations, which were, are not any more.
        ld    (g1), r3
        ldq   (g1), r4
        ldq   (g1), r8
        ldq   (g1), r12
        ldl   (g1), g2
        ldq   (g1), g4
        ldq   (g1), g8
        ldl   (g1), g12
        lda   0x80000016, g14
        and   3, g14, r3
        andnot 3, g14, r4
        notand 3, g14, r5
        xor   3, g14, r6
        or    3, g14, r7
        nor   3, g14, r8
        xnor  3, g14, r9
        not   3, r10
        ornot 3, g14, r11
        notor 3, g14, r12
        nand  3, g14, r13
        setbit 3, g14, r14
        clrbit 3, g14, r15
        notbit 3, g14, g2
        alterbit 3, g14, g3
        addo  3, g14, g4
        subo  3, g14, g5
        mulo  3, g14, g6
        shro  3, g14, g7
        shlo  3, g14, g8
        shri  3, g14, g9
        shrdi 3, g14, g10
        rotate 3, g14, g11
        emul  3, g14, g12
run 37
#point 37 end 00001098 00000000 001F2002
#g 0=- 1=3010 2=8000001E 3=80000016 4=80000019 5=80000013 6=80000042 7=10000002 8=B0 9=F0000002 10=F0000003 11=B4 \
    12=80000042 13=1 14=80000016 15=3000
#l 1=3040 2=1004 3=2 4=80000014 5=1 6=80000015 7=80000017 8=7FFFFFE8 9=7FFFFFEA 10=FFFFFFFC 11=FFFFFFFE 12=7FFFFFEB \
    13=FFFFFFFD 14=8000001E 15=80000016
#end limit
status 0
== The third operand of modify and of extract counts too, also where no bit of it is left; so does a source of which no
== bit is.
        modify g0, g1, r4
        modify g1, g0, r5
        ld    (g1), r6
        modify g1, 5, r6
        subo  1, 0, g2          # all bits
        ld    (g1), r7
        modify g2, 5, r7
        mov   8, r8
        modify 3, 5, r8         # not marked: 9
        extract g0, 4, r9
        extract 4, g0, r10
        ld    (g1), r11
        extract 4, 4, r11
        ld    (g1), r12
        extract 4, 0, r12
        lda   0xABC, r13
        extract 4, 4, r13       # not marked: B
        and   0, g0, r14
run 22
#point 22 end 00001058 00000000 001F2002
#g 0=- 1=3010 2=FFFFFFFF 15=3000
#l 1=3040 2=1004 4=- 5=- 6=- 7=- 8=9 9=- 10=- 11=- 12=- 13=B 14=-
#end limit
status 0
== Moves go word by word: of g4 to g7 the first and the third are marked.
        st    g1, 4(g1)
        st    g1, 12(g1)
        ldq   (g1), g4
        movq  g4, r4
        movt  g4, r8
        movl  g4, r12
        movl  g6, g8
        mov   g4, r14
        mov   g5, r15
run 13
#point 13 end 00001034 00000000 001F2002
#g 0=- 1=3010 4=- 5=3010 6=- 7=3010 8=- 9=3010 15=3000
#l 1=3040 2=1004 4=- 5=3010 6=- 7=3010 8=- 9=3010 10=- 12=- 13=3010 14=- 15=3010
#end limit
status 0
-- Words of literals have no marks.
        movq  5, g4
        movt  6, r8
        movl  7, r4
        mov   8, g0
run 17
#point 17 end 00001044 00000000 001F2002
#g 0=8 1=3010 4=5 8=- 9=3010 15=3000
#l 1=3040 2=1004 4=7 6=- 7=3010 8=6 12=- 13=3010 14=- 15=3010
#end limit
status 0
== An address that lda gives is marked by its base and by its index, and not by a register that the mode leaves out.
        lda   4(g0), r4
        lda   !(g0), r5
        lda   0x2000(g0), r6
        lda   (g1)[g0*4], r7
        lda   8[g0*2], r8
        lda   (g0)[g1*1], r9
        lda   0x100(g1)[g0*16], r10
        lda   4(g1), r11
        lda   8(ip), r12        # at 103C
        lda   0x123, r13 {40000}        # g0 in the place of a base
        lda   5(r13), g0
        lda   5(g0), r14
run 16
#point 16 end 00001050 00000000 001F2002
#g 0=128 1=3010 15=3000
#l 1=3040 2=1004 4=- 5=- 6=- 7=- 8=- 9=- 10=- 11=3014 12=104C 13=123 14=12D
#end limit
status 0
";

/// What uses no marked register, and what takes marks away.
const OTHERS: &str = "
== Each of these leaves pfp alone, the register whose number stands where a word has no operand; modpc leaves its first.
        mov   g0, pfp
        flushreg
        syncf
        mark
        fmark
        udma
        not   5, r4
        testno r5
        bal   next
next:   be    next
        lda   6, r6
        ld    0x100, r7 {40000} # g0 in the place of a base
        st    r4, 0x200
        addo  1, pfp, r8
        modpc g0, 0, r9
run 19
#point 6 flush 00001018 00000000 001F2002
#g 0=- 1=3010 15=3000
#l 0=- 1=3040 2=1004
#point 7 sync 0000101C 00000000 001F2002
#g 0=- 1=3010 15=3000
#l 0=- 1=3040 2=1004
#point 19 end 0000104C 00000000 001F2002
#g 0=- 1=3010 14=1034 15=3000
#l 0=- 1=3040 2=1004 4=FFFFFFFA 5=1 6=6 8=- 9=1F2002
#end limit
status 0
== The names that keep no marks take those of their destinations away.
        ldq   (g1), r4
        ldq   (g1), r8
        ldq   (g1), r12
        ldq   (g1), g4
        ldq   (g1), g8
        ldl   (g1), g12
        ld    (g1), g14
        addi  3, 7, r4
        subi  3, 7, r5
        muli  3, 7, r6
        shli  3, 7, r7
        divo  3, 7, r8
        remo  3, 7, r9
        divi  3, 7, r10
        remi  3, 7, r11
        modi  3, 7, r12
        addc  3, 7, r13
        subc  3, 7, r14
        cmpinco 3, 7, r15
        cmpinci 3, 7, g4
        cmpdeco 3, 7, g5
        cmpdeci 3, 7, g6
        spanbit 3, g7
        scanbit 3, g8
        testo g9
        modac 0, 0, g10
        modtc 0, 0, g11
        ediv  3, 7, g12
        bal   next
next:
run 33
#point 33 end 00001084 00000002 001F2002
#g 0=- 1=3010 4=8 5=6 6=6 7=1F 8=1 9=1 10=2 12=1 13=2 14=1084 15=3000
#l 1=3040 2=1004 4=A 5=4 6=15 7=38 8=2 9=1 10=2 11=1 12=1 13=A 14=3 15=8
#end limit
status 0
== So do a load of bytes without marks, an address, a link and a special function register.
        ldq   (g1), r4
        ldob  0x100, r4
        lda   0x100, r5
        balx  next, r6
next:   mov   sf1, r7
        ld    0x100, g0
run 10
#point 10 end 0000102C 00000000 001F2002
#g 1=3010 15=3000
#l 1=3040 2=1004 5=100 6=1024
#end limit
status 0
";

/// Loads and stores of some of a word's bytes.
const BYTES: &str = "
== A frame that was left is stored to byte by byte: a register is marked as long as one of its bytes is one of the
== save's.
        ldob  0x3017, r4
        stob  g1, 4(g1)
        ldob  4(g1), r5
        ldob  5(g1), r6
        ldos  4(g1), r7
        ld    4(g1), r8
        stob  g1, 5(g1)
        ldos  4(g1), r9
        ldis  4(g1), r10
        ldos  5(g1), r11
        ldos  3(g1), r12
        stos  g1, 6(g1)
        ld    4(g1), r13
        ldl   4(g1), r14
        ldob  3(g1), g3
run 19
#point 19 end 00001050 00000000 001F2002
#g 0=- 1=3010 3=- 15=3000
#l 1=3040 2=1004 4=- 5=10 6=- 7=- 8=- 9=1010 10=1010 11=- 12=- 13=30101010 14=30101010 15=-
#end limit
status 0
== Groups are marked word by word, also over the ends of the frame.
        ldib  (g1), g2
        ldis  (g1), g3
        st    g1, 8(g1)
        ldt   (g1), r8
        ldq   (g1), r12
        ldl   8(g1), g4
        ldq   0x2FFC, g8
        ldq   0x3038, r4
run 12
#point 12 end 00001038 00000000 001F2002
#g 0=- 1=3010 2=- 3=- 4=3010 5=- 9=- 10=- 11=- 15=3000
#l 1=3040 2=1004 4=- 5=- 8=- 9=- 10=3010 12=- 13=- 14=3010 15=-
#end limit
status 0
== A marked word is stored, and loaded back in bytes and halves; other bytes are stored over it until it has none left.
        lda   0x4000, g2
        st    g0, (g2)
        ldob  (g2), r4
        ldob  1(g2), r5
        ldob  2(g2), r6
        ldob  3(g2), r7
        ldob  4(g2), r8
        ldos  2(g2), r9
        ldos  4(g2), r10
        ldos  3(g2), r11
        stob  g1, 1(g2)
        ldob  1(g2), r12
        ld    (g2), r13
        stos  g1, 2(g2)
        ldos  2(g2), r14
        ld    (g2), r15
        stob  g1, (g2)
        ld    (g2), g3
        .org  0x4000
        .word 0x11223344, 0
at 5 show 4000 8
at 6 show 4000 8
at 18 show 4000 4
run 22
at 5 show 00004000 8
#mem 00004000 44 33 22 11 00 00 00 00
#point 5 event 00001018 00000000 001F2002
#g 0=- 1=3010 2=4000 15=3000
#l 1=3040 2=1004
at 6 show 00004000 8
#mem 00004000 -- -- -- -- 00 00 00 00
#point 6 event 0000101C 00000000 001F2002
#g 0=- 1=3010 2=4000 15=3000
#l 1=3040 2=1004
at 18 show 00004000 4
#mem 00004000 -- 10 10 30
#point 18 event 0000104C 00000000 001F2002
#g 0=- 1=3010 2=4000 15=3000
#l 1=3040 2=1004 4=- 5=- 6=- 7=- 9=- 11=- 12=10 13=-
#point 22 end 0000105C 00000000 001F2002
#g 0=- 1=3010 2=4000 3=30101010 15=3000
#l 1=3040 2=1004 4=- 5=- 6=- 7=- 9=- 11=- 12=10 13=- 14=3010 15=-
#end limit
status 0
== Marked bytes and halves are stored beside others.
        lda   0x4000, g2
        stob  g0, 1(g2)
        ldob  (g2), r4
        ldob  1(g2), r5
        ldob  2(g2), r6
        ld    (g2), r7
        stos  g0, 6(g2)
        ldos  4(g2), r8
        ldos  6(g2), r9
        ldob  7(g2), r10
        ld    4(g2), r11
        stib  g0, 8(g2)
        ldob  8(g2), r12
        ldob  9(g2), r13
        stis  g0, 10(g2)
        ldis  10(g2), r14
        ldob  11(g2), r15
        ldob  12(g2), g3
run 22
#point 22 end 0000105C 00000000 001F2002
#g 0=- 1=3010 2=4000 15=3000
#l 1=3040 2=1004 5=- 7=- 9=- 10=- 11=- 12=- 14=- 15=-
#end limit
status 0
== Groups are stored word by word: of g4 to g7 the second and the fourth are marked.
        lda   0x4000, g2
        ld    (g1), g5
        mov   6, g6
        ld    (g1), g7
        stq   g4, (g2)
        ldq   (g2), r4
        stt   g4, 16(g2)
        ldq   16(g2), r8
        stl   g4, 32(g2)
        ldq   32(g2), r12
run 14
#point 14 end 0000103C 00000000 001F2002
#g 0=- 1=3010 2=4000 5=- 6=6 7=- 15=3000
#l 1=3040 2=1004 5=- 6=6 7=- 9=- 10=6 13=-
#end limit
status 0
== In region 1, which is big-endian, a marked half has two bytes as well.
        lda   0x400000, g3
        st    g3, 0xA24         # region 1 in the control table
        lda   0x402, g4
        sysctl g4, g4, g4       # loads group 2
        lda   0x10000000, g2
        stos  g0, 2(g2)
        ldob  1(g2), r4
        ldob  2(g2), r5
        ldob  3(g2), r6
        ldob  4(g2), r7
        stob  g1, 3(g2)
        ldob  3(g2), r8
        ldos  2(g2), r9
        stob  g1, 2(g2)
        ldos  2(g2), r10
        st    g1, 4(g2)
        ldob  7(g2), r11
run 21
#point 21 end 0000105C 00000000 001F2002
#g 0=- 1=3010 2=10000000 3=400000 4=402 15=3000
#l 1=3040 2=1004 5=- 6=- 8=10 9=- 10=1010 11=10
#end limit
status 0
";

/// Atomic instructions.
const ATOMICS: &str = "
== Over a stale word, and over one with a stale byte, the answer is marked and the new word is stale; over another one
== neither is.
        atadd g1, 1, r4
        ld    (g1), r5
        lda   0x3014, g2
        mov   7, r6
        atmod g2, 7, r6
        ldob  (g2), r7
        stob  g1, 8(g1)
        lda   0x301A, g3        # the word at 3018
        atadd g3, 1, r8
        ldob  8(g1), r9         # the byte that was stored
        st    g1, 12(g1)
        lda   0x301C, g4
        atadd g4, 1, r10
        ld    (g4), r11
run 18
#point 18 end 00001054 00000000 001F2002
#g 0=- 1=3010 2=3014 3=301A 4=301C 15=3000
#l 1=3040 2=1004 4=- 5=- 6=- 7=- 8=- 9=- 10=3010 11=3011
#end limit
status 0
== With a marked term, mask or value the new word is stale, and the answer, the old word, is not marked.
        lda   0x4000, g2
        mov   5, r4
        st    r4, (g2)
        st    r4, 4(g2)
        st    r4, 8(g2)
        atadd g2, g0, r5
        ld    (g2), r6
        addo  4, g2, g3
        mov   3, r7
        atmod g3, g0, r7
        ld    4(g2), r8
        addo  8, g2, g4
        mov   g0, r9
        atmod g4, 7, r9
        ld    8(g2), r10
        atadd g2, 1, r11        # stale by now
        st    r4, (g2)
        ld    (g2), r12
        atadd g2, 1, g0
run 23
#point 23 end 00001060 00000000 001F2002
#g 0=5 1=3010 2=4000 3=4004 4=4008 15=3000
#l 1=3040 2=1004 4=5 5=5 6=- 7=5 8=- 9=5 10=- 11=- 12=5
#end limit
status 0
";

#[test]
fn names_that_keep_marks(rt: HostRuntime) -> Result<(), Fail> {
    hold(&rt, rt.alloc(), &[PRCB, LEFT], KEEPING, 7)
}

#[test]
fn names_that_keep_none(rt: HostRuntime) -> Result<(), Fail> {
    hold(&rt, rt.alloc(), &[PRCB, LEFT], OTHERS, 3)
}

#[test]
fn bytes_that_are_stale(rt: HostRuntime) -> Result<(), Fail> {
    hold(&rt, rt.alloc(), &[PRCB, LEFT], BYTES, 6)
}

#[test]
fn atomics_over_stale_words(rt: HostRuntime) -> Result<(), Fail> {
    hold(&rt, rt.alloc(), &[PRCB, LEFT], ATOMICS, 2)
}
