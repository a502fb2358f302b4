//! Levels of pins through the command, at texts worked out by hand.
use crate::check::{must, same};
use crate::rows::{PRCB, hex_of, hold};
use crate::tests::words_of;
use i9_outside::{MemFiles, MemSink};
use i9_tool::i960;
use std::alloc::Global;
use std::test::*;

/// The front of a source, behind that with a PRCB: names of the words of the control table with the maps of interrupts
/// and the control word of pins, and the word of vector 18, which is that of a pin with field 1 and has priority 2.
const PINS: &str = "
        .set  interrupt_maps, control_table+0x10
        .set  pin_controls, control_table+0x1C
        .org  0x204C
        .word handler
        .org  start
";

/// What firmware sees of pins, and what enters their handler.
const LEVELS: &str = "
== By level a pin is seen in sf0 as long as it is low.
        mov   sf0, g0
        mov   sf0, g1
        mov   sf0, g2
handler:
schedule 2
at 1 low 3
at 2 high 3
run 3
schedule 2
at 1 low 3
#point 1 event 00001004 00000000 001F2002
#g 15=3000
#l 1=3040
at 2 high 3
#point 2 event 00001008 00000000 001F2002
#g 1=8 15=3000
#l 1=3040
#point 3 end 0000100C 00000000 001F2002
#g 1=8 15=3000
#l 1=3040
#end limit
status 0
-- The version is printed first where instructions are traced, too.
schedule 2
at 1 low 3
trace 2 1004 1004
schedule 2
at 1 low 3
#point 1 event 00001004 00000000 001F2002
#g 15=3000
#l 1=3040
#t 1 00001004 mov sf0, g1
#point 2 end 00001008 00000000 001F2002
#g 1=8 15=3000
#l 1=3040
#end limit
status 0
-- It is printed where no event is reached.
schedule 2
run 0
schedule 2
#point 0 end 00001000 00000000 001F2002
#g 15=3000
#l 1=3040
#end limit
status 0
-- A schedule by turns has levels too; the journal has them at their counts.
schedule 2
turn 1 low 3
run 1
schedule 2
at 0 low 3
#point 0 event 00001000 00000000 001F2002
#g 15=3000
#l 1=3040
#point 1 end 00001004 00000000 001F2002
#g 0=8 15=3000
#l 1=3040
#end limit
status 0
-- A session of the debugger does not print it.
schedule 2
at 1 low 3
> mem 100 1
debug script
#mem 00000100 00
status 0
== By edge a falling pin is kept, when it goes high too; one that is low already has no edge. What is written to sf0 is
== the kept word.
        mov   sf0, g0
        mov   sf0, g1
        mov   0, sf0
        mov   sf0, g2
        mov   0, sf0
        mov   sf0, g3
handler:
        .org  pin_controls
        .word 0x20              # bit 2 + 3
schedule 2
at 1 low 3
at 1 high 3
at 3 low 3
at 5 low 3
run 6
schedule 2
at 1 low 3
#point 1 event 00001004 00000000 001F2002
#g 15=3000
#l 1=3040
at 1 high 3
#point 1 event 00001004 00000000 001F2002
#g 15=3000
#l 1=3040
at 3 low 3
#point 3 event 0000100C 00000000 001F2002
#g 1=8 15=3000
#l 1=3040
at 5 low 3
#point 5 event 00001014 00000000 001F2002
#g 1=8 2=8 15=3000
#l 1=3040
#point 6 end 00001018 00000000 001F2002
#g 1=8 2=8 15=3000
#l 1=3040
#end limit
status 0
== A handler that returns while its pin is low is entered again. Once the pin is high it is not.
        mov   1, g4
        mov   g4, sf1
        lda   0x1F0000, g5
        mov   0, g6
        modpc 0, g5, g6         # lowers the priority to 0
        mov   7, g7
        .org  interrupt_maps
        .word 1                 # pin 0 has vector 18
        .org  0x1100
handler:
        addo  1, g8, g8
        ret
schedule 2
at 0 low 0
at 8 high 0
run 10
schedule 2
at 0 low 0
#point 0 event 00001000 00000000 001F2002
#g 15=3000
#l 1=3040
#point 5 int 00001100 00000000 00022002
#g 4=1 5=1F0000 6=1F2002 15=3050
#l 0=3007 1=3090
#point 7 int 00001100 00000000 00022002
#g 4=1 5=1F0000 6=1F2002 8=1 15=3050
#l 0=3007 1=3090
at 8 high 0
#point 8 event 00001104 00000000 00022002
#g 4=1 5=1F0000 6=1F2002 8=2 15=3050
#l 0=3007 1=3090
#point 10 end 0000101C 00000000 00002002
#g 4=1 5=1F0000 6=1F2002 7=7 8=2 15=3000
#l 1=3040 2=1018
#end limit
status 0
== A low pin that is masked waits for its bit of the mask.
        lda   0x1F0000, g5
        mov   0, g6
        modpc 0, g5, g6         # lowers the priority to 0
        mov   sf0, g7
        mov   1, sf1
        mov   7, g9
        .org  interrupt_maps
        .word 1
        .org  0x1100
handler:
        addo  1, g8, g8
        ret
schedule 2
at 0 low 0
run 6
schedule 2
at 0 low 0
#point 0 event 00001000 00000000 001F2002
#g 15=3000
#l 1=3040
#point 5 int 00001100 00000000 00022002
#g 5=1F0000 6=1F2002 7=1 15=3050
#l 0=3007 1=3090
#point 6 end 00001104 00000000 00022002
#g 5=1F0000 6=1F2002 7=1 8=1 15=3050
#l 0=3007 1=3090
#end limit
status 0
== Start-up by sysctl leaves the levels, and what was kept is gone: of pins 0, by level, and 1, by edge, which are low,
== and pin 5, which asked.
        mov   sf0, g0
        lda   0x300, g1
        lda   0x1200, g2
        lda   0x800, g3         # the PRCB
        sysctl g1, g2, g3
handler:
        .org  0x1200
        mov   sf0, g4
        mov   sf0, g5
        .org  pin_controls
        .word 8                 # bit 2 + 1
schedule 2
at 0 low 0
at 0 low 1
at 0 pin 5
at 6 high 0
run 7
schedule 2
at 0 low 0
#point 0 event 00001000 00000000 001F2002
#g 15=3000
#l 1=3040
at 0 low 1
#point 0 event 00001000 00000000 001F2002
#g 15=3000
#l 1=3040
at 0 pin 5
#point 0 event 00001000 00000000 001F2002
#g 15=3000
#l 1=3040
at 6 high 0
#point 6 event 00001204 00000000 001F2002
#g 0=23 1=300 2=1200 3=800 4=1 15=3000
#l 1=3040
#point 7 end 00001208 00000000 001F2002
#g 0=23 1=300 2=1200 3=800 4=1 15=3000
#l 1=3040
#end limit
status 0
== The control word of pins is the fourth word of group 1. A pin that is low is by level from then on, and asks at once.
        mov   sf0, g0           # what the falling edge left
        mov   0, sf0
        st    g9, 0xA1C
        lda   0x401, g1
        sysctl g1, g1, g1       # loads group 1
        mov   sf0, g2
handler:
        .org  pin_controls
        .word 4                 # bit 2 + 0
schedule 2
at 0 low 0
run 6
schedule 2
at 0 low 0
#point 0 event 00001000 00000000 001F2002
#g 15=3000
#l 1=3040
#point 6 end 00001018 00000000 001F2002
#g 0=1 1=401 2=1 15=3000
#l 1=3040
#end limit
status 0
-- Group 6 leaves it.
        .org  0x100C
        lda   0x406, g1
schedule 2
at 0 low 0
run 6
schedule 2
at 0 low 0
#point 0 event 00001000 00000000 001F2002
#g 15=3000
#l 1=3040
#point 6 end 00001018 00000000 001F2002
#g 0=1 1=406 15=3000
#l 1=3040
#end limit
status 0
";

#[test]
fn firmware_follows_levels(rt: HostRuntime) -> Result<(), Fail> {
    hold(&rt, rt.alloc(), &[PRCB, PINS], LEVELS, 11)
}

/// A handler that lowers its priority while its pin is low: behind each second instruction it is entered again, on a
/// frame that begins 50 above the one before.
const NESTED: &str = "
        mov   1, g4
        mov   g4, sf1
        lda   0x1F0000, g5
        mov   0, g6
        modpc 0, g5, g6         # lowers the priority to 0
        .org  interrupt_maps
        .word 1
        .org  0x1100
handler:
        mov   0, g9
        modpc 0, g5, g9
";

/// The end of its run at length 2004, one instruction behind the thousandth entry: frames begin at 3050, 30A0, and so
/// on up to 16880, since 3050 + 3E7 * 50 is 16880.
const NESTED_END: &str = "\
#point 2004 end 00001104 00000000 00022002
#g 00000000 00000000 00000000 00000000 00000001 001F0000 001F2002 00000000 \
00000000 00000000 00000000 00000000 00000000 00000000 00000000 00016880
#l 00016837 000168C0 00000000 00000000 00000000 00000000 00000000 00000000 \
00000000 00000000 00000000 00000000 00000000 00000000 00000000 00000000
#end limit
";

/// What `i960` prints for the words `run a b SETS 2004`, where the files are an image and a schedule.
fn nested_text(alloc: Global, image: &[u8], sets: &str) -> Result<Vec<u8>, Fail> {
    let mut files = MemFiles::new(alloc);
    files.add("a", image)?;
    files.add("b", b"schedule 2\nat 0 low 0")?;
    let mut sink = MemSink::new(alloc);
    sink.room(1_000_000)?;
    let line = format!(in alloc; "run a b {sets} 2004")?;
    let words = words_of(alloc, &line)?;
    let status = i960(alloc, &words, &mut files, &mut sink);
    if status.code != 0 {
        return Err("another status".into());
    }
    Ok(Vec::from_slice(alloc, sink.bytes())?)
}

// One low pin enters its handler a thousand times, and its run comes to its end.
#[test]
fn a_low_pin_enters_a_thousand_times(rt: HostRuntime) -> Result<(), Fail> {
    let mut source = String::new(rt.alloc());
    for part in [PRCB, PINS, NESTED] {
        source.push_str(part)?;
    }
    let image = hex_of(rt.alloc(), &source)?;
    for sets in ["-", "1"] {
        let bytes = nested_text(rt.alloc(), &image, sets)?;
        let text = std::str::from_utf8(&bytes)?;
        let mut entries: u32 = 0;
        for line in text.lines() {
            if line.contains(" int 00001100 00000000 00022002") {
                entries = entries.saturating_add(1);
            }
        }
        same(&rt, entries, 1000);
        must(&rt, text.ends_with(NESTED_END));
    }
    Ok(())
}

/// `level.s` of `demo/`.
const DEMO: &str =
    "# Firmware that polls a pin, and serves a device that holds another one low. It waits until pin 3 goes low and then
# until it is high again, prints `v` and `^` for that, and lets pin 0 in. Its handler counts, and is entered as long as
# the device is not served; the run ends with the count.

        .set  console, 0xE0000000
        .set  control_table, 0xA00
        .set  interrupt_table, 0x2000

        .org  0xFFFFFF10
        .word start, prcb
        .org  0x800
prcb:   .word 0x900, control_table, 0, 0x40000000       # fault table, control table, AC, fault configuration
        .word interrupt_table, 0xB00, 0, 0x3000         # interrupt table, system procedures, reserved, stack
        .word 0, 0
        .org  control_table+0x10
        .word 1, 0, 0, 0        # pin 0 has vector 18; every pin is detected by its level
        .org  interrupt_table+0x4C
        .word serve

        .org  0x1000
start:  lda   console, g5
down:   mov   sf0, g0
        bbc   3, g0, down       # until pin 3 is low
        lda   0x76, g1
        stob  g1, (g5)
up:     mov   sf0, g0
        bbs   3, g0, up         # until it is high
        lda   0x5E, g1
        stob  g1, (g5)
        mov   1, sf1            # pin 0 is not masked
        lda   0x1F0000, g1
        mov   0, g2
        modpc 0, g1, g2         # and let in
        st    g12, 4(g5)        # ends the run with the count

serve:  addo  1, g12, g12
        ret
";

/// The events of `level.sch`, and `level.out`.
const DEMO_RUN: &str = "
== A pin that is polled, and one that enters its handler as long as it is low.
schedule 2
at 4 low 3
at 11 high 3
at 16 low 0
at 24 high 0
run 1000
schedule 2
at 4 low 3
#point 4 event 0000100C 00000000 001F2002
#g 5=E0000000 15=3000
#l 1=3040
#out 76
at 11 high 3
#point 11 event 00001018 00000002 001F2002
#g 0=8 1=76 5=E0000000 15=3000
#l 1=3040
#out 5E
at 16 low 0
#point 16 event 0000102C 00000000 001F2002
#g 1=5E 5=E0000000 15=3000
#l 1=3040
#point 19 int 00001040 00000000 00022002
#g 1=1F0000 2=1F2002 5=E0000000 15=3050
#l 0=3007 1=3090
#point 21 int 00001040 00000000 00022002
#g 1=1F0000 2=1F2002 5=E0000000 12=1 15=3050
#l 0=3007 1=3090
#point 23 int 00001040 00000000 00022002
#g 1=1F0000 2=1F2002 5=E0000000 12=2 15=3050
#l 0=3007 1=3090
at 24 high 0
#point 24 event 00001044 00000000 00022002
#g 1=1F0000 2=1F2002 5=E0000000 12=3 15=3050
#l 0=3007 1=3090
#point 26 end 00001040 00000000 00002002
#g 1=1F0000 2=1F2002 5=E0000000 12=3 15=3000
#l 1=3040 2=103C
#end exit 00000003
status 0
";

#[test]
fn the_demo_of_levels_runs(rt: HostRuntime) -> Result<(), Fail> {
    hold(&rt, rt.alloc(), &[DEMO], DEMO_RUN, 1)
}
