//! Uses of marked registers through the command: those that end a run, and what comes before them; and reads of stale
//! bytes that are hazards. The texts were worked out by hand, and hold at every number of sets.
use crate::check::same;
use crate::marks_tests::LEFT;
use crate::rows::{PRCB, TO_USER_MODE, held, hold};
use std::alloc::Global;
use std::test::*;

/// The front of a statement, behind that of a frame that was left: g2 is the port page's address; g6, the third of g4
/// to g6 and the first of g6 and g7, is marked, and so is r5, the second of r4 and r5. That is seven instructions.
const USES: &str = "
        lda   0xE0000000, g2
        ld    (g1), g6
        ld    (g1), r5
";

/// What stands behind the statement, and what is printed where the run ends before it.
const STOPS: &str = "
there:
run 20
#point 7 end 00001020 00000000 001F2002
#g 0=- 1=3010 2=E0000000 6=- 15=3000
#l 1=3040 2=1004 5=-
#end hazard 00001020
status 4
";

/// A marked register decides an address.
const ADDRESSES: &str = "ld (g0), g3
ld 4(g0), g3
ld !(g0), g3
ld 0x2000(g0), g3
ld (g1)[g0*4], g3
ld (g0)[g1*4], g3
ld 0x2000[g0*1], g3
ld 0x2000(g1)[g0*1], g3
ldob (g0), g3
ldib (g0), g3
ldos (g0), g3
ldis (g0), g3
ldl (g0), g4
ldt (g0), g4
ldq (g0), g4
ld (g0), g0
st g1, (g0)
st g0, (g0)
stob g1, 4(g0)
stib g1, (g0)
stos g1, (g0)
stis g1, (g0)
stl g4, (g0)
stt g8, (g0)
stq g8, (g1)[g0*1]
bx (g0)
bx 0x100(g0)
balx (g0), g3
callx (g0)
callx (g1)[g0*1]
atadd g0, 1, g3
atmod g0, 1, g3";

/// It decides a condition.
const CONDITIONS: &str = "cmpo g0, 1
cmpo 1, g0
cmpi g0, 1
cmpi 1, g0
concmpo g0, 1
concmpo 1, g0
concmpi g0, 1
concmpi 1, g0
cmpinco g0, 1, g3
cmpinco 1, g0, g3
cmpinci g0, 1, g3
cmpinci 1, g0, g3
cmpdeco g0, 1, g3
cmpdeco 1, g0, g3
cmpdeci g0, 1, g3
cmpdeci 1, g0, g3
scanbyte g0, g1
scanbyte g1, g0
chkbit g0, 1
chkbit 1, g0
spanbit g0, g3
scanbit g0, g3
addc g0, 1, g3
addc 1, g0, g3
subc g0, 1, g3
subc 1, g0, g3
bbc g0, g1, there
bbc 1, g0, there
bbs g0, g1, there
bbs 1, g0, there
cmpobg g0, g1, there
cmpobg 1, g0, there
cmpobe g0, g1, there
cmpobe 1, g0, there
cmpobge 1, g0, there
cmpobl g0, g1, there
cmpobne 1, g0, there
cmpoble g0, g1, there
cmpibno 1, g0, there
cmpibg g0, g1, there
cmpibe 1, g0, there
cmpibge g0, g1, there
cmpibl 1, g0, there
cmpibne g0, g1, there
cmpible 1, g0, there
cmpibo g0, g1, there";

/// It decides whether there is a fault.
const FAULTS: &str = "addi g0, 1, g3
addi 1, g0, g3
subi g0, 1, g3
subi 1, g0, g3
muli g0, 1, g3
muli 1, g0, g3
shli g0, 1, g3
shli 1, g0, g3
divo g0, 1, g3
divo 1, g0, g3
remo g0, 1, g3
remo 1, g0, g3
divi g0, 1, g3
divi 1, g0, g3
remi g0, 1, g3
remi 1, g0, g3
modi g0, 1, g3
modi 1, g0, g3
divo 0, g0, g3
divi 0, g0, g3
ediv g0, g8, g10
ediv 1, g6, g10
ediv 0, r4, g10";

/// It is a control word, or a part of one.
const CONTROLS: &str = "modac g0, 1, g3
modac 1, g0, g3
modtc g0, 1, g3
modtc 1, g0, g3
modpc 0, g0, g3
modpc 0, 0, g0
modpc 0, 1, g0
sysctl g0, 1, g3
calls g0
sdma g0, 1, g8
sdma 0, g0, g8
sdma 0, 1, g0
sdma 0, 1, g4
sdma 0, 1, r4
sdma 4, g0, g8
mov g0, sf0
mov g0, sf1
mov g0, sf2
not g0, sf1
and g0, 1, sf1
or 1, g0, sf1
addo 1, g0, sf0
subo g0, 1, sf0
mulo 1, g0, sf2
shlo g0, 1, sf2
rotate 1, g0, sf1
alterbit 1, g0, sf1
atadd 16, g0, sf1
atadd g1, 1, sf1";

/// It goes out to the port page, or is beside what does.
const OUTPUTS: &str = "stob g0, (g2)
stib g0, (g2)
stos g0, (g2)
stis g0, (g2)
st g0, (g2)
st g0, 4(g2)
st g0, 16(g2)
stob g0, 8(g2)
stl g0, 8(g2)
stl g6, 8(g2)
stl r4, 8(g2)
stt g4, 16(g2)
stq g4, 32(g2)
st g0, 0xDFFFFFFD
stq g0, 0xDFFFFFF4
stob g0, 0xE0000FFF
st g0, 0xE0000FFF
atadd g2, g0, g3
atmod g2, g0, g3
atmod g2, 1, g0
atadd g2, g0, g0";

/// What is no such use.
const ALLOWED: &str = "
== Beside the port page marked values are stored, and others in it; a load over its start is marked by the bytes before.
        st    g0, 0xDFFFFFFC
        stob  g0, 0xE0001000
        stq   g8, 16(g2)
        stob  g1, (g2)
        ld    0xDFFFFFFC, r6
        ldob  0xE0001000, r7
        ld    0xDFFFFFFE, r8
        ldob  16(g2), r9
run 15
#out 10
#point 15 end 00001054 00000000 001F2002
#g 0=- 1=3010 2=E0000000 6=- 15=3000
#l 1=3040 2=1004 5=- 6=- 7=- 8=-
#end limit
status 0
== What an instruction does not use: the first source of modpc, and of sysctl the second source and the third, but for
== message 3.
        modpc g0, 0, r6
        lda   0x100, r7
        sysctl r7, g0, g0
        lda   0x2FF, r7
        sysctl r7, g0, g0
        sysctl 3, g0, g0
        lda   0x406, r7         # loads group 6
        sysctl r7, g0, g0
        mov   9, r8
run 16
#point 16 end 00001044 00000000 001F2002
#g 0=- 1=3010 2=E0000000 6=- 15=3000
#l 1=3040 2=1004 5=- 6=1F2002 7=406 8=9
#end limit
status 0
== Message 3 starts at its second source.
        lda   0x300, r7
        sysctl r7, g0, g1
run 20
#point 8 end 00001024 00000000 001F2002
#g 0=- 1=3010 2=E0000000 6=- 15=3000
#l 1=3040 2=1004 5=- 7=300
#end hazard 00001024
status 4
== By the PRCB at its third.
        lda   0x300, r7
        sysctl r7, g1, g0
run 20
#point 8 end 00001024 00000000 001F2002
#g 0=- 1=3010 2=E0000000 6=- 15=3000
#l 1=3040 2=1004 5=- 7=300
#end hazard 00001024
status 4
== At the length the run ends before it meets one.
        cmpo  0, g0
run 7
#point 7 end 00001020 00000000 001F2002
#g 0=- 1=3010 2=E0000000 6=- 15=3000
#l 1=3040 2=1004 5=-
#end limit
status 0
== A trace tells what has marks like all else.
        addo  1, g0, g3
        cmpo  0, g3
trace 20 1020 FFFFFFFF
#t 7 00001020 addo 1, g0, g3
#point 8 end 00001024 00000000 001F2002
#g 0=- 1=3010 2=E0000000 3=- 6=- 15=3000
#l 1=3040 2=1004 5=-
#end hazard 00001024
status 4
";

/// Uses that end a run in user mode, where each of these faults too, or may fault.
const IN_USER_MODE: &str = "mov g0, sf1
modpc 0, g0, g3
modpc 0, 1, g0
sysctl g0, 1, g3
sdma g0, 1, g8
sdma 0, 1, g0
calls g0";

/// What stands behind one of them, and what is printed.
const STOPS_IN_USER_MODE: &str = "
run 20
#point 7 end 0000101C 00000000 001F2000
#g 0=- 1=2 2=1F2002 15=3000
#l 1=3040 2=1004
#end hazard 0000101C
status 4
";

/// What comes before such a use, and what behind it.
const ORDER: &str = "
== The second word of an instruction lies in the frame that was left, and its base is marked.
        bx    0x2FFC
        .org  0x2FFC
        ld    0x2000(g0), g3
run 20
#point 5 end 00002FFC 00000000 001F2002
#g 0=- 1=3010 15=3000
#l 1=3040 2=1004
#end hazard 00003000
status 4
== A word that is refused, with a scale of 32 and a marked index. The handler loads the fault's number.
        .word 0x909C5E90        # ld (g1)[g0*32], g3
        .org  operation_faults
        .word handler, 0
        .org  0x1100
handler:
        ld    -8(fp), g3
run 6
#point 5 fault 00001100 00000000 001F2002
#g 0=- 1=3010 15=3050
#l 0=3001 1=3090
#point 6 end 00001108 00000000 001F2002
#g 0=- 1=3010 3=20004 15=3050
#l 0=3001 1=3090
#end limit
status 0
-- One that is no instruction.
        .org  0x1010
        .word 0x59000290        # number 595, of g0
run 6
#point 5 fault 00001100 00000000 001F2002
#g 0=- 1=3010 15=3050
#l 0=3001 1=3090
#point 6 end 00001108 00000000 001F2002
#g 0=- 1=3010 3=20001 15=3050
#l 0=3001 1=3090
#end limit
status 0
-- One with an odd register for a pair.
        .org  0x1010
        .word 0x67C4C090        # ediv g0, g3, g8
run 6
#point 5 fault 00001100 00000000 001F2002
#g 0=- 1=3010 15=3050
#l 0=3001 1=3090
#point 6 end 00001108 00000000 001F2002
#g 0=- 1=3010 3=20004 15=3050
#l 0=3001 1=3090
#end limit
status 0
== An unaligned store of a marked word in the port page.
        st    g0, 0xE0000001
        .org  fault_configuration
        .word 0                 # unaligned accesses are faults
run 20
#point 4 end 00001010 00000000 001F2002
#g 0=- 1=3010 15=3000
#l 1=3040 2=1004
#end hazard 00001010
status 4
-- Elsewhere it faults.
        .org  0x1010
        st    g0, 0x4001
        .org  operation_faults
        .word handler, 0
        .org  0x1100
handler:
        ld    -8(fp), g3
run 6
#point 5 fault 00001100 00000000 001F2002
#g 0=- 1=3010 15=3050
#l 0=3001 1=3090
#point 6 end 00001108 00000000 001F2002
#g 0=- 1=3010 3=20003 15=3050
#l 0=3001 1=3090
#end limit
status 0
== A store of a marked word to a live frame is no such use, and meets that frame's hazard.
        call  f
        .org  0x1100
f:      st    g0, 0x3010
run 20
#point 5 end 00001100 00000000 001F2002
#g 0=- 1=3010 15=3040
#l 0=3000 1=3080
#end hazard 00003010
status 4
-- So does an atomic instruction.
        .org  0x1100
        atmod g1, g0, g3
run 20
#point 5 end 00001100 00000000 001F2002
#g 0=- 1=3010 15=3040
#l 0=3000 1=3080
#end hazard 00003010
status 4
== Four words over the last byte of a live frame and the start of the port page, of which the first is marked.
        lda   0xDFFFFFC0, fp
        lda   0x4000, sp
        call  f
        .org  0x1100
f:      stq   g0, 0xDFFFFFF4
run 20
#point 7 end 00001100 00000000 001F2002
#g 0=- 1=3010 15=4000
#l 0=DFFFFFC0 1=4040
#end hazard 00001100
status 4
-- None of them is.
        .org  0x1100
        stq   g8, 0xDFFFFFF4
run 20
#point 7 end 00001100 00000000 001F2002
#g 0=- 1=3010 15=4000
#l 0=DFFFFFC0 1=4040
#end hazard DFFFFFF4
status 4
== What uses a marked register so waits for all before it, and overtakes nothing: the fault before it is precise.
        divi  0, 7, g3
        cmpo  0, g0
        .org  arithmetic_faults
        .word handler, 0
        .org  0x1100
handler:
        ret
run 20
#point 5 fault 00001100 00000000 001F2002
#g 0=- 1=3010 15=3050
#l 0=3001 1=3090
#point 6 end 00001014 00000000 001F2002
#g 0=- 1=3010 15=3000
#l 1=3040 2=1014
#end hazard 00001014
status 4
-- A sum of it does not wait.
        .org  0x1014
        addo  1, g0, g4
run 20
#end imprecise 00001010
status 4
== It would be issued at turn 15, when the multiplication is done: an event of that turn comes before it.
        muli  3, 4, g3
        cmpo  0, g0
turn 15 show 100 1
run 20
at 5 show 00000100 1
#mem 00000100 00
#point 5 event 00001014 00000000 001F2002
#g 0=- 1=3010 3=C 15=3000
#l 1=3040 2=1004
#point 5 end 00001014 00000000 001F2002
#g 0=- 1=3010 3=C 15=3000
#l 1=3040 2=1004
#end hazard 00001014
status 4
-- One of the next turn does not.
turn 16 show 100 1
run 20
#point 5 end 00001014 00000000 001F2002
#g 0=- 1=3010 3=C 15=3000
#l 1=3040 2=1004
#end hazard 00001014
status 4
";

/// Marked words that are stored where other things than data are read.
const TABLES: &str = "
== Over the next instruction.
        st    g0, next
next:   mov   1, g3
run 20
#point 5 end 00001018 00000000 001F2002
#g 0=- 1=3010 15=3000
#l 1=3040 2=1004
#end hazard 00001018
status 4
== In the system procedure table.
        st    g0, procedure_2
        calls 2
run 20
#point 5 end 00001018 00000000 001F2002
#g 0=- 1=3010 15=3000
#l 1=3040 2=1004
#end hazard 00000B38
status 4
== In the fault table: of an entry both words are read.
        stob  g0, operation_faults+6
        .word 0
run 20
#point 6 end 0000101C 00000000 001F2002
#g 0=- 1=3010 15=3000
#l 1=3040 2=1004
#end hazard 00000916
status 4
== In a control group.
        st    g0, control_table+0x18
        lda   0x401, g3
        sysctl g3, g3, g3       # loads group 1
run 20
#point 6 end 0000101C 00000000 001F2002
#g 0=- 1=3010 3=401 15=3000
#l 1=3040 2=1004
#end hazard 00000A18
status 4
== In a PRCB.
        st    g0, 0x824
        lda   0x300, g3
        lda   prcb, g4
        sysctl g3, g3, g4       # starts anew
run 20
#point 7 end 00001020 00000000 001F2002
#g 0=- 1=3010 3=300 4=800 15=3000
#l 1=3040 2=1004
#end hazard 00000824
status 4
== In the interrupt table, as the word of a vector.
        st    g0, 0x23E4
at 5 nmi
run 20
at 5 nmi
#point 5 event 00001018 00000000 001F2002
#g 0=- 1=3010 15=3000
#l 1=3040 2=1004
#point 5 end 00001018 00000000 001F2002
#g 0=- 1=3010 15=3000
#l 1=3040 2=1004
#end hazard 000023E4
status 4
== There too, as the byte of a request.
        stob  g0, 0x2005
        sysctl 9, 0, g3         # asks for vector 9
run 20
#point 5 end 00001018 00000000 001F2002
#g 0=- 1=3010 15=3000
#l 1=3040 2=1004
#end hazard 00002005
status 4
== As one that is only looked at, before the next instruction.
        stob  g0, 0x2010
        sysctl 3, 0, g3         # asks for none
        mov   1, g3
run 20
#point 6 end 0000101C 00000000 001F2002
#g 0=- 1=3010 15=3000
#l 1=3040 2=1004
#end hazard 00002010
status 4
";

/// Records and units of DMA over stale bytes.
const WRITES: &str = "
== The record of a fault lies over the frame that was left: its words have no marks then, and the next one has one.
        lda   0x5000, fp
        lda   0x3000, sp
        .word 0
        .org  operation_faults
        .word handler, 0
        .org  0x1100
handler:
        ldq   -16(fp), r4
        ld    (fp), r8
run 9
#point 7 fault 00001100 00000000 001F2002
#g 0=- 1=3010 15=3010
#l 0=5001 1=3050
#point 9 end 0000110C 00000000 001F2002
#g 0=- 1=3010 15=3010
#l 0=5001 1=3050 4=1F2002 6=20001 7=1020 8=-
#end limit
status 0
== So does that of an interrupt.
        lda   0x5000, fp
        lda   0x3000, sp
        mov   1, g3
        .org  0x23E4
        .word handler
        .org  0x1100
handler:
        ldq   -16(fp), r4
        ld    (fp), r8
at 6 nmi
run 8
at 6 nmi
#point 6 event 00001020 00000000 001F2002
#g 0=- 1=3010 15=5000
#l 1=3000 2=1004
#point 6 int 00001100 00000000 001F2002
#g 0=- 1=3010 15=3010
#l 0=5007 1=3050
#point 8 end 0000110C 00000000 001F2002
#g 0=- 1=3010 15=3010
#l 0=5007 1=3050 4=1F2002 6=F8 8=-
#end limit
status 0
== A unit of DMA reads the frame that was left.
        mov   4, r4
        lda   0x3010, r5
        lda   0x4000, r6
        sdma  0, 2, r4
        mov   1, sf2
        mov   0, g3
at 9 dma 0
run 20
at 9 dma 0
#point 9 end 0000102C 00000000 001F2002
#g 0=- 1=3010 15=3000
#l 1=3040 2=1004 4=4 5=3010 6=4000
#end hazard 00003010
status 4
== It reads a word of which a byte was stored with a mark.
        stob  g0, 0x4002
        mov   4, r4
        lda   0x4000, r5
        lda   0x5000, r6
        sdma  0, 2, r4
        mov   1, sf2
at 10 dma 0
run 20
at 10 dma 0
#point 10 end 00001034 00000000 001F2002
#g 0=- 1=3010 15=3000
#l 1=3040 2=1004 4=4 5=4000 6=5000
#end hazard 00004002
status 4
== It writes two bytes of a word that was stored with a mark; then a device gives one.
        st    g0, 0x4000
        mov   2, r4
        lda   0x2800, r5
        lda   0x4001, r6
        sdma  0, 1, r4
        mov   1, r8
        lda   0x4000, r10
        sdma  1, 16, r8
        mov   3, sf2
        ldob  0x4000, g3
        ldos  0x4001, g4
        ldob  0x4003, g5
        .org  0x2800
        .byte 0x11, 0x22
at 13 dma 0
at 13 show 4000 4
at 14 feed 1 33
at 14 show 4000 4
run 16
at 13 dma 0
#point 13 event 00001044 00000000 001F2002
#g 0=- 1=3010 15=3000
#l 1=3040 2=1004 4=2 5=2800 6=4001 8=1 10=4000
at 13 show 00004000 4
#mem 00004000 -- 11 22 --
#point 13 event 00001044 00000000 001F2002
#g 0=- 1=3010 15=3000
#l 1=3040 2=1004 4=2 5=2800 6=4001 8=1 10=4000
at 14 feed 1 33
#point 14 event 0000104C 00000000 001F2002
#g 0=- 1=3010 3=- 15=3000
#l 1=3040 2=1004 4=2 5=2800 6=4001 8=1 10=4000
at 14 show 00004000 4
#mem 00004000 33 11 22 --
#point 14 event 0000104C 00000000 001F2002
#g 0=- 1=3010 3=- 15=3000
#l 1=3040 2=1004 4=2 5=2800 6=4001 8=1 10=4000
#point 16 end 0000105C 00000000 001F2002
#g 0=- 1=3010 3=- 4=2211 5=- 15=3000
#l 1=3040 2=1004 4=2 5=2800 6=4001 8=1 10=4000
#end limit
status 0
";

/// A run with events between its instructions.
const EVENTS: &str = "
== The handler of an interrupt stores over the marked word that it finds. The frame at 3000 is live while it runs.
        st    g0, 0x4000
        addo  1, g0, r4
        st    r4, 0x4004
        cmpo  0, r4
        .org  0x23E4
        .word handler
        .org  0x1100
handler:
        ld    0x4000, g3
        st    g1, 0x4000
        ret
at 4 show 3010 4
at 5 show 4000 4
at 5 nmi
at 5 show 3010 4
at 9 show 4000 8
at 10 pin 3
run 20
at 4 show 00003010 4
#mem 00003010 -- -- -- --
#point 4 event 00001010 00000000 001F2002
#g 0=- 1=3010 15=3000
#l 1=3040 2=1004
at 5 show 00004000 4
#mem 00004000 -- -- -- --
#point 5 event 00001018 00000000 001F2002
#g 0=- 1=3010 15=3000
#l 1=3040 2=1004
at 5 nmi
#point 5 event 00001018 00000000 001F2002
#g 0=- 1=3010 15=3000
#l 1=3040 2=1004
#point 5 int 00001100 00000000 001F2002
#g 0=- 1=3010 15=3050
#l 0=3007 1=3090
at 5 show 00003010 4
#mem 00003010 00 00 00 00
#point 5 event 00001100 00000000 001F2002
#g 0=- 1=3010 15=3050
#l 0=3007 1=3090
at 9 show 00004000 8
#mem 00004000 10 30 00 00 00 00 00 00
#point 9 event 0000101C 00000000 001F2002
#g 0=- 1=3010 3=- 15=3000
#l 1=3040 2=1018 4=-
at 10 pin 3
#point 10 event 00001024 00000000 001F2002
#g 0=- 1=3010 3=- 15=3000
#l 1=3040 2=1018 4=-
#point 10 end 00001024 00000000 001F2002
#g 0=- 1=3010 3=- 15=3000
#l 1=3040 2=1018 4=-
#end hazard 00001024
status 4
== An interrupt and its handler come before an instruction that uses a marked register, and it ends the run behind them.
        st    g0, 4(g0)
        .org  0x23E4
        .word handler
        .org  0x1100
handler:
        ret
at 4 nmi
run 20
at 4 nmi
#point 4 event 00001010 00000000 001F2002
#g 0=- 1=3010 15=3000
#l 1=3040 2=1004
#point 4 int 00001100 00000000 001F2002
#g 0=- 1=3010 15=3050
#l 0=3007 1=3090
#point 5 end 00001010 00000000 001F2002
#g 0=- 1=3010 15=3000
#l 1=3040 2=1010
#end hazard 00001010
status 4
";

/// How many of these statements are not reached, where each stands between the fronts and an end.
fn stopped(alloc: Global, fronts: &[&str], statements: &str, end: &str) -> Result<u32, Fail> {
    let mut count: u32 = 0;
    for statement in statements.lines() {
        let table = format!(in alloc; "== {statement}\n{statement}{end}")?;
        count = count.saturating_add(held(alloc, fronts, &table)?);
    }
    Ok(count)
}

#[test]
fn marked_registers_decide_nothing(rt: HostRuntime) -> Result<(), Fail> {
    let fronts = [PRCB, LEFT, USES];
    same(&rt, stopped(rt.alloc(), &fronts, ADDRESSES, STOPS)?, 32);
    same(&rt, stopped(rt.alloc(), &fronts, CONDITIONS, STOPS)?, 46);
    same(&rt, stopped(rt.alloc(), &fronts, FAULTS, STOPS)?, 23);
    same(&rt, stopped(rt.alloc(), &fronts, CONTROLS, STOPS)?, 29);
    same(&rt, stopped(rt.alloc(), &fronts, OUTPUTS, STOPS)?, 21);
    same(&rt, held(rt.alloc(), &fronts, ALLOWED)?, 6);
    Ok(())
}

#[test]
fn marks_come_before_mismatches(rt: HostRuntime) -> Result<(), Fail> {
    let fronts = [PRCB, LEFT, TO_USER_MODE];
    same(
        &rt,
        stopped(rt.alloc(), &fronts, IN_USER_MODE, STOPS_IN_USER_MODE)?,
        7,
    );
    Ok(())
}

#[test]
fn marks_beside_other_ends(rt: HostRuntime) -> Result<(), Fail> {
    hold(&rt, rt.alloc(), &[PRCB, LEFT], ORDER, 14)
}

#[test]
fn tables_and_code_are_not_stale(rt: HostRuntime) -> Result<(), Fail> {
    hold(&rt, rt.alloc(), &[PRCB, LEFT], TABLES, 8)
}

#[test]
fn records_and_units_over_stale_bytes(rt: HostRuntime) -> Result<(), Fail> {
    hold(&rt, rt.alloc(), &[PRCB, LEFT], WRITES, 5)
}

#[test]
fn marks_with_events_between(rt: HostRuntime) -> Result<(), Fail> {
    hold(&rt, rt.alloc(), &[PRCB, LEFT], EVENTS, 2)
}
