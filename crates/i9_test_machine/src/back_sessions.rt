//! Sessions that go far back, with turns and texts worked out by hand.
use crate::check::{must, must_at, same, same_at};
use crate::debug_sessions::{holds, session_of};
use i9_asm::assemble;
use i9_debug::SessionEnd;
use i9_hex::Segments;
use std::alloc::Global;
use std::test::*;

/// The boot record, and where the code begins. The PRCB is the zeros at 0, and so the first frame is there too.
const BOOT: &str = "
        .org  0xFFFFFF10
        .word start
        .org  0x1000
start:
";

/// Two instructions, and then passes of three: the first of pass p, from 1 on, is instruction 3p and issues in turn 2p
/// + 1, the others in the turn behind it. The store writes p.
const PASSES: &str = "
        mov   0, g4             # 1000
        mov   0, g5             # 1004
pass:   addo  1, g4, g4         # 1008
        st    g4, 0x200         # 100C
        b     pass              # 1010
";

/// The third byte of what is stored changes in the passes 65,536, 131,072 and 196,608, and the fourth in none.
const FAR_SCRIPT: &str = "turn 400002
back 2
mem 200 4
who 202
last 1004
turn 400002
back 70002
who 202
who 203
mem 200 4
last 1010
last 1010
back 529996
last 1000
until 1004
last 1004
until 1008
last 1004
";

const FAR_TEXT: &str = "#turn 400003 600002
#turn 400001 600000
#mem 00000200 3F 0D 03 00
#who 589825 0000100C
#turn 1 1
#turn 400003 600002
#turn 353334 530000
#who 393217 0000100C
#who none
#mem 00000200 1A B2 02 00
#turn 353334 529999
#turn 353332 529996
#turn 1 0
#turn 1 0
#turn 1 1
#turn 1 0
#turn 2 2
#turn 1 1
";

/// The event is reached right behind the first instruction of pass 90,000, in the turn behind it, and what comes later
/// issues one turn later than it would.
const EVENT: &str = "at 270000 show 200 4\n";

const EVENT_SCRIPT: &str = "turn 240002
back 60000
back 20000
back 20000
turn 6670
who 200
back 1
back 1
turn 1
";

const EVENT_TEXT: &str = "at 270000 show 00000200 4
#mem 00000200 8F 5F 01 00
#point 270000 event 0000100C 00000000 001F2002
#g 00000000 00000000 00000000 00000000 00015F90 00000000 00000000 00000000 00000000 00000000 00000000 00000000 00000000 00000000 00000000 00000000
#l 00000000 00000040 00000000 00000000 00000000 00000000 00000000 00000000 00000000 00000000 00000000 00000000 00000000 00000000 00000000 00000000
#turn 240003 360000
#turn 200002 300000
#turn 186669 280000
#turn 173334 260000
at 270000 show 00000200 4
#mem 00000200 8F 5F 01 00
#point 270000 event 0000100C 00000000 001F2002
#g 00000000 00000000 00000000 00000000 00015F90 00000000 00000000 00000000 00000000 00000000 00000000 00000000 00000000 00000000 00000000 00000000
#l 00000000 00000040 00000000 00000000 00000000 00000000 00000000 00000000 00000000 00000000 00000000 00000000 00000000 00000000 00000000 00000000
#turn 180004 270002
#who 270001 0000100C
#turn 180003 270001
#turn 180001 270000
#turn 180002 270000
";

/// Passes of two instructions that issue in one turn, up to the longest length of a run.
const LONG: &str = "
pass:   addo  1, g4, g4
        b     pass
";

const LONG_TEXT: &str = "#point 10000000 end 00001000 00000000 001F2002
#g 00000000 00000000 00000000 00000000 004C4B40 00000000 00000000 00000000 00000000 00000000 00000000 00000000 00000000 00000000 00000000 00000000
#l 00000000 00000040 00000000 00000000 00000000 00000000 00000000 00000000 00000000 00000000 00000000 00000000 00000000 00000000 00000000 00000000
#end limit
#turn 5000001 10000000
#turn 1 1
#turn 2 2
";

/// Stores of other widths, of three words and of four, and an atomic that changes one byte of its word.
const STORES: &str = "
        lda   0x11223344, g4    # 1000
        lda   0x55667788, g5    # 1008
        lda   0x99AABBCC, g6    # 1010
        lda   0xDDEEFF01, g7    # 1018
        stib  g4, 0x200         # 1020
        stis  g4, 0x202         # 1024
        stt   g4, 0x210         # 1028
        stq   g4, 0x220         # 102C
        lda   0x220, g8         # 1030
        lda   0xFF000000, g9    # 1034
        atmod g8, g9, g10       # 103C
";

const STORES_SCRIPT: &str = "until 1040
who 200
who 201
who 203
who 210
who 21B
who 21C
who 220
who 22F
who 223
who 103C
";

const STORES_TEXT: &str = "#turn 11 11
#who 5 00001020
#who none
#who 6 00001024
#who 7 00001028
#who 7 00001028
#who none
#who 8 0000102C
#who 8 0000102C
#who 11 0000103C
#who none
";

/// A frame that a flush wrote is read back by the return, which leaves its bytes as they are: the call is told. The
/// flush is done 17 turns after it has issued, and the return 20.
const REFILL: &str = "
        mov   5, r4             # 1000
        call  f                 # 1004
        mov   0, g0             # 1008
rest:   b     rest
f:      flushreg                # 1010
        ret                     # 1014
";

const REFILL_SCRIPT: &str = "until 100C
mem 10 1
who 10
back 1
held
back 1
who 10
until 100C
";

const REFILL_TEXT: &str = "#point 3 flush 00001014 00000000 001F2002
#g 00000000 00000000 00000000 00000000 00000000 00000000 00000000 00000000 00000000 00000000 00000000 00000000 00000000 00000000 00000000 00000040
#l 00000000 00000080 00000000 00000000 00000000 00000000 00000000 00000000 00000000 00000000 00000000 00000000 00000000 00000000 00000000 00000000
#turn 43 5
#mem 00000010 05
#who 2 00001004
#turn 23 4
#held 5 0
#turn 6 3
#who 2 00001004
#turn 43 5
";

/// The image of a source behind the boot record.
fn image_of(alloc: Global, source: &str) -> Result<Segments, Fail> {
    let mut whole = String::new(alloc);
    whole.push_str(BOOT)?;
    whole.push_str(source)?;
    Ok(assemble(alloc, whole.as_bytes())?)
}

#[test]
fn goes_far_back(rt: HostRuntime) -> Result<(), Fail> {
    let rows = [
        (PASSES, "", FAR_SCRIPT, FAR_TEXT),
        (PASSES, EVENT, EVENT_SCRIPT, EVENT_TEXT),
        (LONG, "", "until 0\nback 9999999\nturn 1\n", LONG_TEXT),
        (STORES, "", STORES_SCRIPT, STORES_TEXT),
        (REFILL, "", REFILL_SCRIPT, REFILL_TEXT),
    ];
    for (source, events, script, text) in rows {
        let image = image_of(rt.alloc(), source)?;
        let (answer, sink) = session_of(rt.alloc(), &image, 0, events, script, 0)?;
        same_at(&rt, answer, SessionEnd::Done, script);
        must_at(&rt, holds(&sink, text), script);
    }
    Ok(())
}

// As many commands as a script may have: one turn on, and one instruction back.
#[test]
fn goes_back_as_often_as_a_script_may(rt: HostRuntime) -> Result<(), Fail> {
    let script = "turn 1\nback 1\n".repeat(rt.alloc(), 50_000)?;
    let text = "#turn 2 2\n#turn 1 1\n".repeat(rt.alloc(), 50_000)?;
    let image = image_of(rt.alloc(), LONG)?;
    let (answer, sink) = session_of(rt.alloc(), &image, 0, "", &script, 0)?;
    same(&rt, answer, SessionEnd::Done);
    must(&rt, holds(&sink, &text));
    Ok(())
}
