//! The debugger through the command, at texts worked out by hand.
use crate::rows::{BOOT, PRCB, hold};
use std::test::*;

/// Sessions over images that begin at once.
const SESSIONS: &str = "
== Three instructions issue in turn 2, and their results land in turn 3; the multiplication is done at turn 6.
        muli  3, 4, g2
        addo  1, 2, g5
        ld    0x100, g6
        b     next
next:   mov   0, g7
> turn 2
> raw
> regs
debug script
#turn 3 4
#raw 3 00040000
#rg 5=3
#rl 1=40
#view 4 00001010 00000000 001F2002
#g 2=C 5=3
#l 1=40
status 0
-- An event that waits for turn 3 comes before the instruction that would issue then; it is a barrier, and issues at 6.
turn 3 show 100 4
> turn 5
> raw
> turn 1
> turn 1
debug script
#turn 6 4
#raw 6 00000000
#rg 2=C 5=3
#rl 1=40
at 4 show 00000100 4
#mem 00000100 00 00 00 00
#point 4 event 00001010 00000000 001F2002
#g 2=C 5=3
#l 1=40
#turn 7 4
#turn 8 5
status 0
== A frame that is saved stands in a set, and not yet in memory.
        mov   5, r4
        call  f
f:      mov   0, g0
> until 1008
> rawmem 10 4
> mem 10 4
> held
debug script
#turn 2 2
#rawmem 00000010 00 00 00 00
#mem 00000010 05 00 00 00
#held 5 1 00000000
status 0
== A flush writes all frames of the sets, the caller's and its caller's, and is done 33 turns later.
        mov   5, r4
        call  f
f:      mov   6, r4
        call  h
h:      flushreg
        mov   0, g0
> until 1014
> rawmem 50 4
> until 1018
> rawmem 10 4
> rawmem 50 4
> held
debug script
#point 5 flush 00001014 00000000 001F2002
#g 15=80
#l 0=40 1=C0
#turn 11 5
#rawmem 00000050 00 00 00 00
#turn 44 6
#rawmem 00000010 05 00 00 00
#rawmem 00000050 06 00 00 00
#held 5 0
status 0
== A store is seen by the program at once, and stands in memory when it is done. Behind the end nothing is run.
        mov   7, g4
        st    g4, 0x200
        lda   0xE0000000, g5
        st    g4, 4(g5)
> until 1008
> rawmem 200 4
> mem 200 4
> turn 1
> rawmem 200 4
> turn 1000
> turn 5
> until 1000
debug script
#turn 2 2
#rawmem 00000200 00 00 00 00
#mem 00000200 07 00 00 00
#turn 3 2
#rawmem 00000200 07 00 00 00
#point 4 end 00001014 00000000 001F2002
#g 4=7 5=E0000000
#l 1=40
#end exit 00000007
#turn 5 4
#turn 5 4
#turn 5 4
status 0
== A hazard ends the run, and the session goes on behind it. The load marks its register; the word behind it is refused,
== and the entry of its fault would save the frame at 40 a second time.
        lda   0x40, fp
        call  f
f:      ld    0x40, g4
> until 9999
> held
debug script
#point 4 end 00001010 00000000 001F2002
#g 4=- 15=40
#l 0=40 1=80
#end hazard 00000040
#turn 8 4
#held 5 1 00000040
status 4
== A script at fault.
        mov   0, g0
> turn 0
debug script
#script line 1 kind 2
status 3
-- A word that is no command.
> regs
> step 1
debug script
#script line 2 kind 1
status 3
";

#[test]
fn sessions(rt: HostRuntime) -> Result<(), Fail> {
    hold(&rt, rt.alloc(), &[BOOT], SESSIONS, 8)
}

/// The front of the sources of `demo/`: the boot record, and a PRCB with which no unaligned access faults.
const DEMO: &str = "
        .org    0xFFFFFF10
        .word   start, 0x800
        .org    0x800
        .word   0x900, 0xA00, 0, 0x40000000, 0x2000, 0xB00, 0, 0x3000, 0, 0
        .org    0x1000
";

/// The sessions of docs/DEBUGGING.md over the images of `demo/`.
const FRAMES: &str = "
== The frame is read before it is in memory.
start:  lda     0x41, r4
        call    show
        lda     0xE0000000, g5
        mov     0, g4
        st      g4, 4(g5)
show:   ld      16(pfp), g4
        lda     0xE0000000, g5
        stob    g4, (g5)
        ret
> until 1018
> held
> mem 3010 4
> rawmem 3010 4
> until 101C
> regs
> turn 100
debug script
#turn 2 2
#held 5 1 00003000
#mem 00003010 41 00 00 00
#rawmem 00003010 00 00 00 00
#turn 6 3
#view 3 0000101C 00000000 001F2002
#g 4=- 15=3040
#l 0=3000 1=3080
#point 4 end 00001024 00000000 001F2002
#g 4=- 5=E0000000 15=3040
#l 0=3000 1=3080
#end hazard 00001024
#turn 8 4
status 4
== It is flushed first.
start:  lda     0x41, r4
        call    show
        lda     0xE0000000, g5
        mov     0, g4
        st      g4, 4(g5)
show:   flushreg
        ld      16(pfp), g4
        lda     0xE0000000, g5
        stob    g4, (g5)
        ret
> until 101C
> held
> rawmem 3010 4
> until 1020
> rawmem 3010 4
debug script
#point 3 flush 0000101C 00000000 001F2002
#g 15=3040
#l 0=3000 1=3080
#turn 6 3
#held 5 0
#rawmem 00003010 00 00 00 00
#turn 23 4
#rawmem 00003010 41 00 00 00
status 0
";

#[test]
fn frames_that_are_not_in_memory(rt: HostRuntime) -> Result<(), Fail> {
    hold(&rt, rt.alloc(), &[DEMO], FRAMES, 2)
}

/// Sessions over an image with a PRCB.
const SETS: &str = "
== The processor starts anew with a PRCB that asks for fifteen sets.
        lda   0x300, g1
        lda   0x1200, g2
        lda   0xC00, g3
        sysctl g1, g2, g3
        .org  0xC1C
        .word 0x5000, 0, 15
> until 1200
> held
debug script
#turn 4 4
#held 15 0
status 0
";

#[test]
fn sets_are_shown(rt: HostRuntime) -> Result<(), Fail> {
    hold(&rt, rt.alloc(), &[PRCB], SETS, 1)
}

/// An event of DMA that meets a hazard ends the run in one step, at the turn at which all is done: a unit of a channel
/// whose target is in the frame of a call that is not left.
const HAZARDS: &str = "
== The unit comes from memory. The call issues at turn 12 and is done at turn 16.
        mov   4, r4
        lda   0x2800, r5
        lda   0x3010, r6
        sdma  0, 2, r4
        mov   1, sf2
        call  f
f:      mov   0, g0
at 6 dma 0
> turn 1000
debug script
at 6 dma 0
#point 6 end 00001020 00000000 001F2002
#g 15=3040
#l 0=3000 1=3080
#end hazard 00003010
#turn 16 6
status 4
-- Turn 16 comes first, and then the end at that turn.
at 6 dma 0
> turn 15
> turn 1
debug script
#turn 16 6
at 6 dma 0
#point 6 end 00001020 00000000 001F2002
#g 15=3040
#l 0=3000 1=3080
#end hazard 00003010
#turn 16 6
status 4
== A device gives the unit.
        mov   4, r4
        lda   0x2800, r5
        lda   0x3010, r6
        sdma  0, 18, r4
        mov   1, sf2
        call  f
f:      mov   0, g0
at 6 feed 0 01020304
> turn 1000
debug script
at 6 feed 0 01020304
#point 6 end 00001020 00000000 001F2002
#g 15=3040
#l 0=3000 1=3080
#end hazard 00003010
#turn 16 6
status 4
-- It comes before the first instruction that would issue at turn 14 or later, which is the one in the routine.
turn 14 feed 0 01020304
> turn 15
> turn 1
debug script
#turn 16 6
at 6 feed 0 01020304
#point 6 end 00001020 00000000 001F2002
#g 15=3040
#l 0=3000 1=3080
#end hazard 00003010
#turn 16 6
status 4
";

#[test]
fn an_event_meets_a_hazard(rt: HostRuntime) -> Result<(), Fail> {
    hold(&rt, rt.alloc(), &[PRCB], HAZARDS, 4)
}
