//! Events and interrupts through the command, at texts worked out by hand.
use crate::check::{same, same_at};
use crate::rows::{BOOT, PRCB, hold};
use crate::tests::{SMALLEST, words_of};
use i9_outside::{MemFiles, MemSink};
use i9_tool::i960;
use std::alloc::Global;
use std::test::*;

/// The front of a source, behind that with a PRCB: names of words of the interrupt table and of the control table.
const VECTORS: &str = "
        .set  interrupt_table, 0x2000
        .set  vector_242, interrupt_table+0x3CC
        .set  vector_248, interrupt_table+0x3E4
        .set  interrupt_maps, control_table+0x10
";

/// Events, and the interrupts that they bring.
const EVENTS: &str = "
== The interrupt that is never masked, before the first instruction: its handler prints a byte and exits.
        mov   1, g4
        .org  vector_248
        .word handler
        .org  0x1100
handler:
        lda   0xE0000000, g5
        lda   0x42, g6
        stob  g6, (g5)
        st    g6, 4(g5)
at 0 nmi
run 9
at 0 nmi
#point 0 event 00001000 00000000 001F2002
#g 15=3000
#l 1=3040
#point 0 int 00001100 00000000 001F2002
#g 15=3050
#l 0=3007 1=3090
#out 42
#point 4 end 00001114 00000000 001F2002
#g 5=E0000000 6=42 15=3050
#l 0=3007 1=3090
#end exit 00000042
status 0
== The handler returns to where the run was interrupted.
        mov   1, g4
        mov   2, g5
        .org  vector_248
        .word handler
        .org  0x1100
handler:
        mov   3, g6
        ret
at 00001 nmi
run 4
at 1 nmi
#point 1 event 00001004 00000000 001F2002
#g 4=1 15=3000
#l 1=3040
#point 1 int 00001100 00000000 001F2002
#g 4=1 15=3050
#l 0=3007 1=3090
#point 4 end 00001008 00000000 001F2002
#g 4=1 5=2 6=3 15=3000
#l 1=3040 2=1004
#end limit
status 0
== An interrupt that is chosen comes before an event of the same count. Channels that are not set up move nothing.
        mov   1, g4
        .org  vector_248
        .word handler
        .org  0x1100
handler:
        mov   2, g5
at 0 nmi
at 0 dma 3
at 0 feed 0 0a0B
run 1
at 0 nmi
#point 0 event 00001000 00000000 001F2002
#g 15=3000
#l 1=3040
#point 0 int 00001100 00000000 001F2002
#g 15=3050
#l 0=3007 1=3090
at 0 dma 3
#point 0 event 00001100 00000000 001F2002
#g 15=3050
#l 0=3007 1=3090
at 0 feed 0 0A0B
#point 0 event 00001100 00000000 001F2002
#g 15=3050
#l 0=3007 1=3090
#point 1 end 00001104 00000000 001F2002
#g 5=2 15=3050
#l 0=3007 1=3090
#end limit
status 0
== A pin's line waits for its bit of the mask, and for a priority below its own, 30. The record below the handler's
== frame has PC from before the entry and the vector, 242. The handler finds the line posted no more.
        mov   1, g4
        mov   g4, sf1
        lda   0x1F0000, g5
        mov   0, g6
        modpc 0, g5, g6         # lowers the priority to 0
        mov   7, g7
        .org  interrupt_maps
        .word 0xF               # line 0 has vector 15 * 16 + 2
        .org  vector_242
        .word handler
        .org  0x1100
handler:
        mov   sf0, g8
        ret
at 1 pin 0
at 5 show 3040 16
run 8
at 1 pin 0
#point 1 event 00001004 00000000 001F2002
#g 4=1 15=3000
#l 1=3040
#point 5 int 00001100 00000000 001E2002
#g 4=1 5=1F0000 6=1F2002 15=3050
#l 0=3007 1=3090
at 5 show 00003040 16
#mem 00003040 02 20 00 00 00 00 00 00 F2 00 00 00 00 00 00 00
#point 5 event 00001100 00000000 001E2002
#g 4=1 5=1F0000 6=1F2002 15=3050
#l 0=3007 1=3090
#point 8 end 0000101C 00000000 00002002
#g 4=1 5=1F0000 6=1F2002 7=7 15=3000
#l 1=3040 2=1018
#end limit
status 0
== Where PC doesn't say that an interrupt is handled, the handler's frame is on the interrupt stack. The two low bits of
== the vector's word are ignored.
        lda   0x5000, fp
        lda   0x5040, sp
        lda   0x1F2000, g5
        mov   0, g6
        modpc 0, g5, g6
        mov   7, g7
        .org  vector_248
        .word handler+3
        .org  0x1100
handler:
        ret
at 5 nmi
run 7
at 5 nmi
#point 5 event 00001020 00000000 00000002
#g 5=1F2000 6=1F2002 15=5000
#l 1=5040
#point 5 int 00001100 00000000 001F2002
#g 5=1F2000 6=1F2002 15=3010
#l 0=5007 1=3050
#point 7 end 00001024 00000000 00000002
#g 5=1F2000 6=1F2002 7=7 15=5000
#l 1=5040 2=1020
#end limit
status 0
== The record would lie in the frame that the entry saves at 3000.
        lda   0x2000, g5
        mov   0, g6
        modpc 0, g5, g6
at 3 nmi
run 9
at 3 nmi
#point 3 event 00001010 00000000 001F0002
#g 5=2000 6=1F2002 15=3000
#l 1=3040
#point 3 end 00001010 00000000 001F0002
#g 5=2000 6=1F2002 15=3000
#l 1=3040
#end hazard 00003000
status 4
== Events at the length and behind it are not reached.
        mov   1, g4
at 1 nmi
at 2 pin 0
run 1
#point 1 end 00001004 00000000 001F2002
#g 4=1 15=3000
#l 1=3040
#end limit
status 0
== Neither is an event behind the exit.
        lda   0xE0000000, g5
        st    g5, 4(g5)
at 2 nmi
run 9
#point 2 end 0000100C 00000000 001F2002
#g 5=E0000000 15=3000
#l 1=3040
#end exit E0000000
status 0
";

/// Bytes that are shown.
const SHOWN: &str = "
== The record of a fault, behind its entry.
        divi  0, 7, g4
        .org  ac_image
        .word 0x8000            # no imprecise faults
        .org  arithmetic_faults
        .word handler, 0
        .org  0x1100
handler:
        mov   1, g5
at 1 show 3040 16
run 2
#point 1 fault 00001100 00008000 001F2002
#g 15=3050
#l 0=3001 1=3090
at 1 show 00003040 16
#mem 00003040 02 20 1F 00 00 80 00 00 02 00 03 00 00 10 00 00
#point 1 event 00001100 00008000 001F2002
#g 15=3050
#l 0=3001 1=3090
#point 2 end 00001104 00008000 001F2002
#g 5=1 15=3050
#l 0=3001 1=3090
#end limit
status 0
== The words of a live frame; bytes that only its save wrote, once it was left; and a byte of the port page.
        lda   0x41, g4
        lda   0xE0000000, g5
        stob  g4, (g5)
        call  f
        mov   9, g6
f:      ret
        .org  0x2FFE
        .byte 0x11, 0x22
at 4 show 3004 8
at 5 show 2ffe 4
at 5 show E0000000 01
run 6
#out 41
at 4 show 00003004 8
#mem 00003004 40 30 00 00 14 10 00 00
#point 4 event 00001018 00000000 001F2002
#g 4=41 5=E0000000 15=3040
#l 0=3000 1=3080
at 5 show 00002FFE 4
#mem 00002FFE 11 22 -- --
#point 5 event 00001014 00000000 001F2002
#g 4=41 5=E0000000 15=3000
#l 1=3040 2=1014
at 5 show E0000000 1
#mem E0000000 00
#point 5 event 00001014 00000000 001F2002
#g 4=41 5=E0000000 15=3000
#l 1=3040 2=1014
#point 6 end 00001018 00000000 001F2002
#g 4=41 5=E0000000 6=9 15=3000
#l 1=3040 2=1014
#end limit
status 0
== Bytes over the last address.
        mov   1, g4
        .org  0
        .byte 0x33
        .org  0xFFFFFFFE
        .byte 0x11, 0x22
at 0 show FFFFFFFE 4
run 0001
at 0 show FFFFFFFE 4
#mem FFFFFFFE 11 22 33 00
#point 0 event 00001000 00000000 001F2002
#g 15=3000
#l 1=3040
#point 1 end 00001004 00000000 001F2002
#g 4=1 15=3000
#l 1=3040
#end limit
status 0
";

#[test]
fn events_and_interrupts(rt: HostRuntime) -> Result<(), Fail> {
    hold(&rt, rt.alloc(), &[PRCB, VECTORS], EVENTS, 8)
}

#[test]
fn bytes_are_shown(rt: HostRuntime) -> Result<(), Fail> {
    hold(&rt, rt.alloc(), &[PRCB, VECTORS], SHOWN, 3)
}

/// The status of a run of the smallest image with this schedule, and whether this line is printed.
fn answers_planned(alloc: Global, schedule: &[u8], printed: &str) -> Result<(u8, bool), Fail> {
    let mut files = MemFiles::new(alloc);
    files.add("a", SMALLEST.as_bytes())?;
    files.add("b", schedule)?;
    let mut sink = MemSink::new(alloc);
    sink.room(64)?;
    let words = words_of(alloc, "run a b - 10")?;
    let status = i960(alloc, &words, &mut files, &mut sink);
    Ok((status.code, sink.bytes() == printed.as_bytes()))
}

/// Events that wait for turns. The multiplication issues at turn 1 and is done at 6; the sum, the load and the branch
/// issue at 2, and the last instruction at 3, where no event comes before them.
const TURNS: &str = "
== Before the first instruction that would issue at turn 3.
        muli  3, 4, g2
        addo  1, 2, g5
        ld    0x100, g6
        b     next
next:   mov   0, g7
turn 3 show 100 4
run 5
at 4 show 00000100 4
#mem 00000100 00 00 00 00
#point 4 event 00001010 00000000 001F2002
#g 2=C 5=3
#l 1=40
#point 5 end 00001014 00000000 001F2002
#g 2=C 5=3
#l 1=40
#end limit
status 0
-- An event is a barrier, so behind the first one the sum would issue at 7, and the second one comes at the same count.
turn 2 show 100 1
turn 2 show 101 1
run 2
at 1 show 00000100 1
#mem 00000100 00
#point 1 event 00001004 00000000 001F2002
#g 2=C
#l 1=40
at 1 show 00000101 1
#mem 00000101 00
#point 1 event 00001004 00000000 001F2002
#g 2=C
#l 1=40
#point 2 end 00001008 00000000 001F2002
#g 2=C 5=3
#l 1=40
#end limit
status 0
-- Turn 0 has come before the first instruction; no instruction within the length would issue at turn 4.
turn 0 show 100 1
run 0
#point 0 end 00001000 00000000 001F2002
#g
#l 1=40
#end limit
status 0
-- The first of them at a greater length.
turn 0 show 100 1
run 1
at 0 show 00000100 1
#mem 00000100 00
#point 0 event 00001000 00000000 001F2002
#g
#l 1=40
#point 1 end 00001004 00000000 001F2002
#g 2=C
#l 1=40
#end limit
status 0
-- The second.
turn 4 show 100 1
run 5
#point 5 end 00001014 00000000 001F2002
#g 2=C 5=3
#l 1=40
#end limit
status 0
-- Behind the last instruction a word is refused, which waits for all: it would issue at turn 6.
turn 6 show 100 1
run 6
at 5 show 00000100 1
#mem 00000100 00
#point 5 event 00001014 00000000 001F2002
#g 2=C 5=3
#l 1=40
#point 6 fault 00000000 00000000 001F2002
#g 2=C 5=3 15=50
#l 0=1 1=90
#point 6 end 00000000 00000000 001F2002
#g 2=C 5=3 15=50
#l 0=1 1=90
#end limit
status 0
";

#[test]
fn events_wait_for_turns(rt: HostRuntime) -> Result<(), Fail> {
    hold(&rt, rt.alloc(), &[BOOT], TURNS, 6)
}

#[test]
fn schedules_are_refused(rt: HostRuntime) -> Result<(), Fail> {
    let rows = [
        ("at 5 pin 8", "#schedule line 1 kind 3\n"),
        ("at 5 nmi\nat 4 nmi\n", "#schedule line 2 kind 5\n"),
        ("until 1 nmi", "#schedule line 1 kind 1\n"),
        ("at 1 nmi\nturn 2 nmi", "#schedule line 2 kind 4\n"),
        ("turn 2 nmi\nturn 1 nmi", "#schedule line 2 kind 5\n"),
        ("turn 1000000000001 nmi", "#schedule line 1 kind 3\n"),
        (
            "# an odd digit\nat 1 feed 0 012",
            "#schedule line 2 kind 3\n",
        ),
        ("at 1 frob", "#schedule line 1 kind 2\n"),
        // `low` and `high` are of version 2, which the first line tells.
        ("at 1 low 0", "#schedule line 1 kind 2\n"),
        ("schedule 2\nat 1 low 8", "#schedule line 2 kind 3\n"),
        ("at 0 nmi\nschedule 2", "#schedule line 2 kind 1\n"),
        ("schedule 3", "#schedule line 1 kind 3\n"),
    ];
    for (schedule, line) in rows {
        same_at(
            &rt,
            answers_planned(rt.alloc(), schedule.as_bytes(), line)?,
            (3, true),
            line,
        );
    }
    Ok(())
}

#[test]
fn long_schedules_are_refused(rt: HostRuntime) -> Result<(), Fail> {
    let alloc = rt.alloc();
    let long = vec![in alloc; b'#'; 16_777_217]?;
    same(
        &rt,
        answers_planned(alloc, &long, "#schedule too long\n")?,
        (3, true),
    );
    let mut many = Vec::new(alloc);
    for _ in 0..1_000_001 {
        many.extend_from_slice(b"at 1 nmi\n")?;
    }
    same(
        &rt,
        answers_planned(alloc, &many, "#schedule line 1000001 kind 6\n")?,
        (3, true),
    );
    Ok(())
}

/// `sysctl` with message 0 and a vector below 8 sets the check flag, and does nothing else.
const LOW_VECTORS: &str = "
== Vector 3 leaves the interrupt table as it is.
        mov   3, g1
        sysctl g1, g1, g1
        mov   0, g0
at 2 show 2000 8
run 3
at 2 show 00002000 8
#mem 00002000 00 00 00 00 00 00 00 00
#point 2 event 00001008 00000000 001F2002
#g 1=3 15=3000
#l 1=3040
#point 3 end 0000100C 00000000 001F2002
#g 1=3 15=3000
#l 1=3040
#end limit
status 0
== It meets no hazard either: the table is in the port page, where nothing may be written.
        .org  0x810
        .word 0xE0000000
        .org  0x1000
        mov   3, g1
        sysctl g1, g1, g1
        mov   0, g0
        mov   0, g0
run 4
#point 4 end 00001010 00000000 001F2002
#g 1=3 15=3000
#l 1=3040
#end limit
status 0
== Vector 8 would write there.
        .org  0x810
        .word 0xE0000000
        .org  0x1000
        mov   8, g1
        sysctl g1, g1, g1
run 4
#point 1 end 00001004 00000000 001F2002
#g 1=8 15=3000
#l 1=3040
#end hazard E0000000
status 4
== Vector 7 leaves its bit clear, and vector 8, at the next byte, sets one.
        mov   7, g1
        sysctl g1, 0, g1
        ldob  0x2004, g3
        mov   8, g1
        sysctl g1, 0, g1
        ldob  0x2005, g4
run 6
#point 6 end 00001020 00000000 001F2002
#g 1=8 4=1 15=3000
#l 1=3040
#end limit
status 0
== The look at what is asked for meets a hazard, and not the instruction: a live frame lies over the table.
        .org  0x81C
        .word 0x1FF0
        .org  0x1000
        call  f
f:      mov   0, g1
        sysctl g1, 0, g1
        mov   1, g2
run 4
#point 3 end 0000100C 00000000 001F2002
#g 15=2030
#l 0=1FF0 1=2070
#end hazard 00002000
status 4
-- At the length there is none.
run 3
#point 3 end 0000100C 00000000 001F2002
#g 15=2030
#l 0=1FF0 1=2070
#end limit
status 0
";

#[test]
fn low_vectors_are_not_requested(rt: HostRuntime) -> Result<(), Fail> {
    hold(&rt, rt.alloc(), &[PRCB], LOW_VECTORS, 6)
}
