//! The machine at images of a few instructions, worked out by hand.
use crate::script::tables_hold;
use std::test::*;

/// From the start of a run to its end. The last instruction stores the exit word.
const STEPS: &str = "\
a run              | image 1000 8CA00041 8CA83000 E0000000 82A56000 5CA00E07 92A56004, run 100, end? | no end
lda 0x41, g4       | count?, issue | 0, 0 1000 8CA00041 0
lda 0xE0000000, g5 | count?, issue | 1, 1 1004 8CA83000 E0000000
stob g4, (g5)      | count?, issue | 2, 2 100C 82A56000 0
mov 7, g4          | count?, issue | 3, 3 1010 5CA00E07 0
st g4, 4(g5)       | count?, issue | 4, 4 1014 92A56004 0
the end, twice     | step, step, end? | exit 7, exit 7, exit 7
its view           | count?, ip?, controls?, regs? 20 21 1 | 5, 1018, 0 1F2002 0, 7 E0000000 40
its lines          | lines? | out 41, point End, exit 7
";

/// The word 0 is no instruction. The fault table is at 0, and so is its handler. The record is at 40, with the
/// subtype, 1, at 48 and the type, 2, at 4A.
const FAULT: &str = "\
a word 0           | image 1000 0, run 1, issue, count?, ip?, lines? | 0 1000 0 0, 1, 1004, no lines
its fault          | step, count?, ip?, controls?, lines? | on, 1, 0, 0 1F2002 0, point Fault
the handler's frame | regs? 31 0 1, bytes? 48 4A | 50 1 90, 1 2
the length         | step | limit
";

/// Ends, and how many instructions came before them. A word 0 is no instruction, whose fault's entry is at 10. Behind a
/// division by 0, whose fault's entry is at 18, `addo 1, 2, g5`, `ld 0x100, g6` and `b 4` overtake it; `addo 1, g4, g5`
/// waits for its quotient; `syncf`, a word that is refused, and a store into a saved frame wait for all, and a load of
/// that frame overtakes as any load does. The frame stands at 0, over the fault table.
const ENDS: &str = "\
the program above  | image 1000 8CA00041 8CA83000 E0000000 82A56000 5CA00E07 92A56004, run 100, end, count? | exit 7, 5
just long enough   | run 5, end, count? | exit 7, 5
too short by one   | run 4, end, count? | limit, 4
of no length       | run 0, end, count? | limit, 0
call f; f: st g5, 16(pfp) | image 1000 9000004 92A82010, run 100, end, count? | hazard 10, 1
call f; f: ld 16(pfp), g4 | image 1000 9000004 90A02010, run 2, end, count? | limit, 2
a word 0 behind it | run 100, end, count? | hazard 10, 3
a word 0, entry 1  | image 1000 0, put 10 1, run 100, end, count? | dead 1 10, 1
entry 3            | image 1000 0, put 10 3, run 100, end, count? | dead 1 10, 1
entry 2 27E        | image 1000 0, put 10 2 27E, run 100, end, count? | dead 2 14, 1
entry 412 27F      | image 1000 0, put 10 412 27F, run 100, end, count? | dead 3 10, 1
divo 0, g6, g4; addo 1, 2, g5 | image 1000 70A11D80 59A89801, put 18 1, run 100, end, count? | imprecise 1000, 1
as long            | run 2, end, count? | imprecise 1000, 1
shorter            | run 1, end, count? | dead 1 18, 1
divo; ld 0x100, g6 | image 1000 70A11D80 90B00100, put 18 1, run 100, end, count? | imprecise 1000, 1
divo; b 4          | image 1000 70A11D80 8000004, put 18 1, run 100, end, count? | imprecise 1000, 1
divo; addo 1, g4, g5 | image 1000 70A11D80 59A85014, put 18 1, run 100, end, count? | dead 1 18, 1
divo; syncf; addo  | image 1000 70A11D80 66000780 59A89801, put 18 1, run 100, end, count? | dead 1 18, 1
divo; a word 0     | image 1000 70A11D80, put 18 1, run 100, end, count? | dead 1 18, 1
call f; f: divo; st g5, 16(pfp) | image 1000 9000004 70A11D80 92A82010, run 100, end, count? | hazard 18, 2
call f; f: divo; ld 16(pfp), g6 | image 1000 9000004 70A11D80 90B02010, run 100, end, count? | imprecise 1004, 2
";

#[test]
fn goes_to_an_end(rt: HostRuntime) -> Result<(), Fail> {
    tables_hold(&rt, rt.alloc(), &[STEPS, FAULT, ENDS])
}

/// Bytes of live frames alone are compared: three of the first frame, one behind it, one of code, and one of the port
/// page. The frame of a call is held, with the words of the caller.
const FRAMES: &str = "\
call f; f: ret     | image 1000 9000004 A000000, run 2, bytes? 4 8 9 40 1000 E0000000 | 0 0 0 0 4 0
the call           | steps 1, bytes? 4 8 9 40 1000 E0000000 | 40 4 10 0 4 0
the return         | steps 1, bytes? 4 8 9 40 1000 E0000000, step | none none none 0 4 0, limit
of two sets        | run 2 2, frame? 0 | no frame
the call           | steps 1, frame? 0 | 0: 0 40 1004 0 0 0 0 0 0 0 0 0 0 0 0 0
the return         | steps 1, frames? | 0
";

/// The most frames that a machine holds, by its own sets or those of its PRCB at 800, and what it shows at its end. The
/// program: `lda 19, g0`, `call f`, `lda 0xE0000000, g5`, `st g0, 4(g5)`, `f: cmpobe 0, g0, back`, `subo 1, g0, g0`,
/// `call f`, `back: ret`.
const NESTED: &str = "\
the program        | image 1000 8C800013 9000010 8CA83000 E0000000 92856004 3204200C 59840901 9FFFFF8 A000000 |
with a PRCB        | put FFFFFF14 800, put C24 0 |
one                | put 824 F, run 100 1, most 83, count?, ip?, regs? 1 2 21 | 1 exit 0, 82, 1014, 40 1008 E0000000
five               | put 824 0, run 100 5, most 83, count?, ip?, regs? 1 2 21 | 5 exit 0, 82, 1014, 40 1008 E0000000
all                | put 824 0, run 100 15, most 83, count?, ip?, regs? 1 2 21 | 15 exit 0, 82, 1014, 40 1008 E0000000
the PRCB's 0       | put 824 0, run 100, most 83, count?, ip?, regs? 1 2 21 | 5 exit 0, 82, 1014, 40 1008 E0000000
the PRCB's 4       | put 824 4, run 100, most 83, count?, ip?, regs? 1 2 21 | 5 exit 0, 82, 1014, 40 1008 E0000000
the PRCB's 5       | put 824 5, run 100, most 83, count?, ip?, regs? 1 2 21 | 5 exit 0, 82, 1014, 40 1008 E0000000
the PRCB's 15      | put 824 F, run 100, most 83, count?, ip?, regs? 1 2 21 | 15 exit 0, 82, 1014, 40 1008 E0000000
the PRCB's 31      | put 824 1F, run 100, most 83, count?, ip?, regs? 1 2 21 | 15 exit 0, 82, 1014, 40 1008 E0000000
";

/// A new PRCB makes fewer sets and more, and none is held then. It is at C00: `call f`, `f: lda 0x300, g1`,
/// `lda 0x1200, g2`, `lda 0xC00, g3`, `sysctl g1, g2, g3`. Then it is the frame at 0, whose second word is sp and whose
/// last word is r9: `mov 7, r9`, `call f`, and the same with `lda 0, g3`.
const ANEW: &str = "\
a new PRCB         | image 1000 9000004 8C880300 8C903000 1200 8C980C00 659C8491, put FFFFFF14 800 |
15 and 0           | put 824 F, put C24 0, run 100, steps 1, sets?, steps 4, sets?, frames? | 15, 5, 0
0 and 15           | put 824 0, put C24 F, run 100, steps 1, sets?, steps 4, sets?, frames? | 5, 15, 0
31 and 22          | put 824 1F, put C24 16, run 100, steps 1, sets?, steps 4, sets?, frames? | 15, 6, 0
three of its own   | put 824 F, put C24 9, run 100 3, steps 1, sets?, steps 4, sets?, frames? | 3, 3, 0
in a held frame    | image 1000 5C480E07 9000004 8C880300 8C903000 1200 8C980000 659C8491, put FFFFFF14 800 |
before sysctl      | put 824 F, put C24 0, run 100, steps 5, sets?, frames? | 15, 1
sysctl             | steps 1, sets?, frames?, count?, ip?, bytes? 24 | 7, 0, 6, 1200, 7
";

#[test]
fn holds_frames(rt: HostRuntime) -> Result<(), Fail> {
    tables_hold(&rt, rt.alloc(), &[FRAMES, NESTED, ANEW])
}

/// A run of `lda 0x41, g4` and, at 1200, where the interrupt that is never masked is handled, `mov 7, g4`. The event
/// at the start comes before the first instruction, and the others before the second one: the pin is masked, and then
/// the interrupt that is never masked is entered at once. No event at the length is reached. The frame of the handler
/// stands above sp, since an interrupt is handled, and above its record, which has PC at 40 and the vector at 48.
const EVENTS: &str = "\
an image           | image 1000 8CA00041 8CA83000 E0000000 82A56000 5CA00E07 92A56004, put 3E4 1200, put 1200 5CA00E07 |
its events         | run 2: at 0 show 1000 4; at 1 pin 3; at 1 nmi; at 2 dma 0 |
what is shown      | step, count?, ip?, lines? | on, 0, 1000, event 0 Show(4096, 4), bytes 1000 41 0 A0 8C, point Event
lda                | step, count?, ip?, lines? | issued, 1, 1004, no lines
the pin            | step, count?, ip?, lines? | on, 1, 1004, event 1 Pin(3), point Event
what is not masked | step, count?, ip?, lines? | on, 1, 1004, event 1 Nmi, point Event
its entry          | step, count?, ip?, lines? | on, 1, 1200, point Int
the handler's frame | regs? 31 0 1, controls? | 50 7 90, 0 1F2002 0
mov                | step, count?, ip?, lines? | issued, 2, 1204, no lines
the length         | step, count?, ip?, lines? | limit, 2, 1204, point End, limit
what is left       | planned?, bytes? 48 42 | true, F8 1F
";

/// How often the turn moves before each instruction, and last before the end. The words: `mulo g5, g6, g4`, of five
/// turns; `addo 1, g4, g8`, which reads the product; `mov g8, g9`, which reads the sum; `lda 16, g7`, on another
/// side; `mov 7, g9`, which reads nothing; `call` of the next word, a barrier of four turns; and `mov 1, sf1`, which
/// waits for all before it, since it writes a special function register, as all behind it wait for it. The product is
/// there at 6, and the end is answered when all is done; one multiplication is done at a time.
const MOVES: &str = "\
mulo; addo; mov g8 | image 1000 70A58095 59C50801 5CC80618, run 3, moves, moves, moves, moves | 0 issued, 5 issued, 1 issued, 1 limit
mulo; lda; mov 7; addo | image 1000 70A58095 8CB80010 5CC80E07 59C50801, run 4, moves, moves, moves, moves, moves | 0 issued, 0 issued, 1 issued, 4 issued, 1 limit
lda; mulo          | image 1000 8CB80010 70A58095, run 2, moves, moves, moves | 0 issued, 0 issued, 5 limit
mov 7; mulo; lda   | image 1000 5CC80E07 70A58095 8CB80010, run 3, moves, moves, moves, moves | 0 issued, 1 issued, 0 issued, 5 limit
mulo; mulo         | image 1000 70A58095 70A58095, run 2, moves, moves, moves | 0 issued, 5 issued, 5 limit
mulo; call; lda    | image 1000 70A58095 9000004 8CB80010, run 3, moves, moves, moves, moves | 0 issued, 5 issued, 4 issued, 1 limit
mulo; mov sf1; lda | image 1000 70A58095 5C082E01 8CB80010, run 3, moves, moves, moves, moves | 0 issued, 5 issued, 1 issued, 1 limit
";

/// What is open lands: `mov 3, g5`, `mov 7, g6`, their product, which issues at 3 and is there at 8, and its sum with
/// 1, which is there at 9. Then the end is answered, at once where the turn is 9 before. Last `addo 1, 2, g5`
/// overtakes the arithmetic fault of `divo 0, g6, g4`, which is open then, and the end stays; where it is settled
/// before, it is entered.
const SETTLES: &str = "\
nothing is open    | image 1000 5CA80E03 5CB00E07 70A58095 59C50801, run 4, settle | true
up to the product  | moves, moves, moves | 0 issued, 1 issued, 1 issued
the product        | settle, settle | true, true
the sum            | moves, count?, regs? 20 24 | 0 issued, 4, 15 16
the end            | settle, moves | true, 0 limit
again              | settle, moves | true, 0 limit
overtaken          | image 1000 70A11D80 59A89801, run 2, steps 1, step, settle, step | imprecise 1000, true, imprecise 1000
settled before     | run 2, steps 1, settle, moves, count?, ip? | true, 0 on, 1, 0
";

#[test]
fn meets_events_and_settles(rt: HostRuntime) -> Result<(), Fail> {
    tables_hold(&rt, rt.alloc(), &[EVENTS, MOVES, SETTLES])
}
