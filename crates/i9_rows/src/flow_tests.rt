//! Branches, loads, stores and atomics through the command, at registers worked out by hand.
use crate::check::same;
use crate::rows::{BOOT, held, hold};
use std::alloc::Global;
use std::test::*;

/// The end of the loop over the codes, behind the branches, and what its run prints.
const NEXT_CODE: &str = "
== Takes the bits for the codes 0 to 3 to g5, and goes on with the next code.
        cmpobne 3, g0, more
        mov   g4, g5
more:   addo  1, g0, g0
        cmpobne 8, g0, again
run 226
#point 226 end 00001098 00000002 001F2002
#g 0=8 1=1 4=F5F3F7F 5=80553377
#l 1=40
#end limit
status 0
";

/// The end of the subroutine, behind the branches, and what the run prints.
const LEAVES: &str = "
== Returns with the bits of the branches that a pair takes.
        bx    (g14)
done:
run 144
#point 144 end 00001118 00000004 001F2002
#g 0=FFFFFFFF 1=1 4=2A0F 5=755 6=1933 14=102C
#l 1=40
#end limit
status 0
";

/// Branches and jumps.
const JUMPS: &str = "
== Loads an instruction and stores it over one that comes later.
        ld    two, g1
        st    g1, changed
changed:
        mov   1, g4
        .org  0x2000
two:    mov   2, g4
run 3
#point 3 end 00001014 00000000 001F2002
#g 1=5CA00E02 4=2
#l 1=40
#end limit
status 0
== A procedure that calls itself while g0 is not 0. The exit word is g0 in the end.
        lda   19, g0
        call  down
        lda   0xE0000000, g5
        st    g0, 4(g5)
down:   cmpobe 0, g0, back
        subo  1, g0, g0
        call  down
back:   ret
run 100
#point 82 end 00001014 00000002 001F2002
#g 5=E0000000
#l 1=40 2=1008
#end exit 00000000
status 0
== Branches on bits that are set and clear, tests of the codes that these leave, and faults on a condition, of which
== the last is taken.
        mov   4, g0
        bbs   2, g0, set        # leaves code 010
        b     bad
set:    teste g4
        lda   34, g1            # bit 2 too, as 34 is 2 modulo 32
        bbc   g1, g0, bad       # leaves code 010
        testne g6
        bbc   3, g0, clear      # leaves code 000
        b     bad
clear:  testno g5
        bbs   3, g0, bad
        faulto
        faulte
        faultno
bad:    mov   31, g7
run 20
#point 12 fault 00000000 00000000 001F2002
#g 0=4 1=22 4=1 5=1 15=50
#l 0=1 1=90
#point 12 end 00000000 00000000 001F2002
#g 0=4 1=22 4=1 5=1 15=50
#l 0=1 1=90
#end hazard 00000000
status 4
== Jumps by register, which ignore the two low bits, and over the last address. What they jump over sets g9.
        lda   third+3, g0
        bx    (g0)
        mov   31, g9
third:  balx  7(g0), g1
        mov   31, g9
        bal   fifth
        mov   31, g9
fifth:  bx    0xFFFFFFFC
        .org  0xFFFFFFFC
        .word 0x8CA47400        # lda !0(g1), g4
        .org  0
        .word 0                 # its second word
run 6
#point 6 end 00000004 00000000 001F2002
#g 0=1013 1=1014 4=1014 14=101C
#l 1=40
#end limit
status 0
";

/// Loads, stores, addresses and atomics.
const ACCESSES: &str = "
== Loads of bytes, halves and groups.
        lda   bytes, g0
        ldob  (g0), g1
        ldib  (g0), g2
        ldib  2(g0), g3
        ldos  2(g0), g4
        ldis  2(g0), g5
        ldis  (g0), g6
        ldos  (g0), g7
        ldl   (g0), g8
        ldt   (g0), r4
        ldq   (g0), r8
        ldib  7(g0), g10
        ldob  15(g0), g11
        .org  0x2000
bytes:  .byte 0x80, 0xFF, 0x7F, 0x01, 0x02, 0x03, 0x84, 0x85
        .byte 0x44, 0x33, 0x22, 0x11, 0xAA, 0xBB, 0xCC, 0xDD
run 13
#point 13 end 00001038 00000000 001F2002
#g 0=2000 1=80 2=FFFFFF80 3=7F 4=17F 5=17F 6=FFFFFF80 7=FF80 8=17FFF80 9=85840302 10=FFFFFF85 11=DD
#l 1=40 4=17FFF80 5=85840302 6=11223344 8=17FFF80 9=85840302 10=11223344 11=DDCCBBAA
#end limit
status 0
== Stores of bytes, halves and groups, and loads of what they left.
        lda   0x3000, g0
        lda   0x11223344, g4
        lda   0x55667788, g5
        lda   0x99AABBCC, g6
        lda   0xDDEEFF00, g7
        stob  g4, (g0)
        stib  g5, 1(g0)
        stos  g6, 2(g0)
        stis  g7, 4(g0)
        ld    (g0), g8
        ld    4(g0), g9
        stl   g4, 8(g0)
        ld    12(g0), g10
        stt   g4, 16(g0)
        ld    24(g0), g11
        ld    28(g0), g12
        stq   g4, 32(g0)
        ldq   32(g0), r4
        st    g7, 28(g0)
        ldt   16(g0), r8
        ldos  22(g0), g13
run 21
#point 21 end 00001068 00000000 001F2002
#g 0=3000 4=11223344 5=55667788 6=99AABBCC 7=DDEEFF00 8=BBCC8844 9=FF00 10=55667788 11=99AABBCC 13=5566
#l 1=40 4=11223344 5=55667788 6=99AABBCC 7=DDEEFF00 8=11223344 9=55667788 10=99AABBCC
#end limit
status 0
== Each addressing mode, most of them over the last address.
        lda   -8, g0
        mov   3, g1
        lda   16(g0), g2
        lda   (g0), g3
        lda   (g0)[g1*16], g4
        lda   0x20(ip), g5      # at 1018
        lda   0x10[g0*2], g6
        lda   -16(g0)[g1*4], g7
        lda   !(g0), g8
        lda   0xFFFFFF00(g1), g9
        lda   0xABC, g10
        lda   0x80000000[g1*8], g11
        ld    0x1008(g0), g12   # the word at 1000
        ld    -8(ip), g13       # its own first word
run 14
#point 14 end 00001058 00000000 001F2002
#g 0=FFFFFFF8 1=3 2=8 3=FFFFFFF8 4=28 5=1040 7=FFFFFFF4 8=FFFFFFF8 9=FFFFFF03 10=ABC 11=80000018 12=8C803000 13=90E81400
#l 1=40
#end limit
status 0
== Atomics at an address whose two low bits are ignored.
        lda   cell+2, g0
        lda   0x12345678, g1
        st    g1, cell
        atadd g0, 8, g2
        lda   0xFFFF, g3
        lda   0xABCDEF01, g4
        atmod g0, g3, g4
        ld    cell, g5
        subo  1, 0, g6
        atadd g0, g6, g6
        ld    cell, g7
        .set  cell, 0x2000
run 11
#point 11 end 00001048 00000000 001F2002
#g 0=2002 1=12345678 2=12345678 3=FFFF 4=12345680 5=1234EF01 6=1234EF01 7=1234EF00
#l 1=40
#end limit
status 0
== Only the byte of the console and the exit word do anything; loads give 0.
        lda   0xE0000000, g0
        lda   0x44434241, g4
        mov   9, g5
        stos  g4, (g0)          # 41
        stob  g5, 1(g0)
        st    g4, (g0)          # 41
        ldq   (g0), r4
        lda   0xE0000003, g1
        atadd g1, g5, g6        # 9
        stl   g4, (g0)          # 41, and the exit
run 20
#out 41
#out 41
#out 09
#out 41
#point 10 end 00001034 00000000 001F2002
#g 0=E0000000 1=E0000003 4=44434241 5=9
#l 1=40
#end exit 00000009
status 0
== The exit word is what atmod writes.
        lda   0xE0000004, g0
        lda   0x00FF00FF, g1
        lda   0x12345678, g2
        atmod g0, g1, g2
run 20
#point 4 end 0000101C 00000000 001F2002
#g 0=E0000004 1=FF00FF
#l 1=40
#end exit 00340078
status 0
== Bytes 2 GiB apart.
        lda   0x80003000, g0
        mov   7, g4
        stob  g4, 0x3000
        mov   9, g5
        stob  g5, (g0)
        ldob  0x3000, g6
        ldob  (g0), g7
run 7
#point 7 end 00001028 00000000 001F2002
#g 0=80003000 4=7 5=9 6=7 7=9
#l 1=40
#end limit
status 0
";

/// Accesses that meet a hazard or a fault.
const HAZARDS: &str = "
== A procedure whose caller's frame, at 0, is kept in a set, adds to that frame's bytes.
        call  f
f:
        atadd 16, 1, g4
run 9
#point 1 end 00001004 00000000 001F2002
#g 15=40
#l 1=80
#end hazard 00000010
status 4
== It stores there.
        call  f
f:
        stt   g4, 32
run 9
#point 1 end 00001004 00000000 001F2002
#g 15=40
#l 1=80
#end hazard 00000020
status 4
== It loads a byte from there, and the register is marked. The word behind it is refused, and its entry of the fault
== table is there.
        call  f
f:
        ldib  5, g4
run 9
#point 3 end 0000100C 00000000 001F2002
#g 4=- 15=40
#l 1=80
#end hazard 00000010
status 4
== It stores to the last byte.
        call  f
f:
        stib  g4, 63
run 9
#point 1 end 00001004 00000000 001F2002
#g 15=40
#l 1=80
#end hazard 0000003F
status 4
== A byte is stored in the frame at 0, which a call saved and a return took back; the rest of the group marks all four
== registers. A second return finds no return address there.
        call  f
        stob  g4, 16
        ldq   16, r4
f:      ret
run 9
#point 4 end 0000100C 00000000 001F2002
#g
#l 1=40 2=1004 4=- 5=- 6=- 7=-
#end hazard 00000008
status 4
== The same with a word, which atmod then answers, and the next word, which it answers with a mark.
        call  f
        st    g4, 16
        atmod 16, g1, g2
        atmod 20, g1, g2
f:      ret
run 9
#point 5 end 00001010 00000000 001F2002
#g 2=-
#l 1=40 2=1004
#end hazard 00000008
status 4
== An address that suits bytes alone: a load of a half.
        mov   1, g0
        ldos  (g0), g4
run 9
#point 2 fault 00000000 00000000 001F2002
#g 0=1 15=50
#l 0=1 1=90
#point 2 end 00000000 00000000 001F2002
#g 0=1 15=50
#l 0=1 1=90
#end hazard 00000000
status 4
== A store of two words.
        mov   1, g0
        stl   g4, 3(g0)
run 9
#point 2 fault 00000000 00000000 001F2002
#g 0=1 15=50
#l 0=1 1=90
#point 2 end 00000000 00000000 001F2002
#g 0=1 15=50
#l 0=1 1=90
#end hazard 00000000
status 4
== A load of three words.
        mov   1, g0
        ldt   11(g0), g4
run 9
#point 2 fault 00000000 00000000 001F2002
#g 0=1 15=50
#l 0=1 1=90
#point 2 end 00000000 00000000 001F2002
#g 0=1 15=50
#l 0=1 1=90
#end hazard 00000000
status 4
";

/// Sets the condition code to g0, from 0 to 7 in turn, for the branches that are to follow.
const FOR_EACH_CODE: &str = "
        mov   0, g0
again:  modac 7, g0, g1
";

/// Compares 1 with FFFFFFFF, 7 with 7, and FFFFFFFF with 1, by the subroutine behind it, which is entered by `bal` and
/// ends with the `bx` of `LEAVES`; g5, g6 and g4 get the bits.
const COMPARES_THREE_PAIRS: &str = "
        mov   1, g0
        subo  1, 0, g1
        bal   compare
        mov   g4, g5
        mov   7, g0
        mov   7, g1
        bal   compare
        mov   g4, g6
        subo  1, 0, g0
        mov   1, g1
        bal   compare
        b     done
compare:
        mov   0, g4
";

/// The branches on the condition code, in the order of their codes.
const BRANCHES: &str = "bno bg be bge bl bne ble bo";

/// The compare branches but `bbc` and `bbs`.
const COMPARE_BRANCHES: &str =
    "cmpobg cmpobe cmpobge cmpobl cmpobne cmpoble cmpibno cmpibg cmpibe cmpibge cmpibl cmpibne cmpible cmpibo";

/// For each of these branches a bit of g4, that of the first one the highest: 1 where it is taken.
fn blocks(alloc: Global, branches: &str, operands: &str) -> Result<String, Fail> {
    let mut text = String::new(alloc);
    for branch in branches.split(' ') {
        text.push_str(&format!(in alloc;
            "
        shlo  1, g4, g4
        {branch} {operands}{branch}_taken
        b     {branch}_next
{branch}_taken:
        setbit 0, g4, g4
{branch}_next:
"
        )?)?;
    }
    Ok(text)
}

#[test]
fn branches_by_code(rt: HostRuntime) -> Result<(), Fail> {
    let by_code = blocks(rt.alloc(), BRANCHES, "")?;
    let fronts = [BOOT, FOR_EACH_CODE, &by_code];
    same(&rt, held(rt.alloc(), &fronts, NEXT_CODE)?, 1);
    Ok(())
}

#[test]
fn branches_by_comparison(rt: HostRuntime) -> Result<(), Fail> {
    let by_comparison = blocks(rt.alloc(), COMPARE_BRANCHES, "g0, g1, ")?;
    let fronts = [BOOT, COMPARES_THREE_PAIRS, &by_comparison];
    same(&rt, held(rt.alloc(), &fronts, LEAVES)?, 1);
    Ok(())
}

#[test]
fn branches_and_jumps(rt: HostRuntime) -> Result<(), Fail> {
    hold(&rt, rt.alloc(), &[BOOT], JUMPS, 4)
}

#[test]
fn loads_stores_and_addresses(rt: HostRuntime) -> Result<(), Fail> {
    hold(&rt, rt.alloc(), &[BOOT], ACCESSES, 7)
}

#[test]
fn accesses_meet_hazards_and_faults(rt: HostRuntime) -> Result<(), Fail> {
    hold(&rt, rt.alloc(), &[BOOT], HAZARDS, 9)
}
