//! Sessions over images of a few instructions, with turns and texts worked out by hand.
ghost use Rattle.std.specs.Prelude.{◌≡◌, ◌<◌, [], IfSome, IfOk};
ghost use Rattle.i9_model.specs.ScheduleText.{IsPlan};
ghost use Rattle.i9_debug.specs.Session.{at};
ghost use Rattle.i9_debug.specs.Driven.{StandsAt, given_of};

use crate::check::{must, must_at, same, same_at};
use i9_debug::{SessionEnd, session};
use i9_hex::Segments;
use i9_machine::{End, Machine};
use i9_model::layout::MAX_LENGTH;
use i9_outside::{MemSink, Sink};
use i9_schedule::{Schedule, Script, read, read_script};
use std::alloc::Global;
use std::test::*;

/// `muli 3, 4, g2`, `addo 1, 2, g5`, `ld 0x100, g6`, `b next`, `next: mov 0, g7`: they issue at 1, 2, 2, 2 and 3, and
/// the product is there at 6.
const PACKET: [u32; 5] = [
    0x7491_1883,
    0x59A8_9801,
    0x90B0_0100,
    0x0800_0004,
    0x5CB8_0E00,
];

/// `mov 5, r4`, `call f`, `f: flushreg`: they issue at 1, 2 and 6, and the frame of the call is in memory at 23. Then
/// `lda 0xE0000000, g5`, `st g4, 4(g5)`, at 23 and 24, and an exit at 25.
const FLUSH: [u32; 6] = [
    0x5C20_0E05,
    0x0900_0004,
    0x6600_0680,
    0x8CA8_3000,
    0xE000_0000,
    0x92A5_6004,
];

/// `mov 5, r4`, `call f`, `f: call g`, `g: mov 0, g0`: the second call issues at 6. With one set it spills the frame of
/// the first, which is in memory at 26. Then the same as above, at 26 and 27, and an exit at 28.
const SPILL: [u32; 7] = [
    0x5C20_0E05,
    0x0900_0004,
    0x0900_0004,
    0x5C80_0E00,
    0x8CA8_3000,
    0xE000_0000,
    0x92A5_6004,
];

/// `lda 0x300, g1`, `lda 0x1200, g2`, `lda 0xC00, g3`, `sysctl g1, g2, g3`: it goes on at 1200 with the PRCB at C00,
/// whose interrupt stack is at 5000, and which asks for 15 sets.
const RESTART: [u32; 5] = [
    0x8C88_0300,
    0x8C90_3000,
    0x0000_1200,
    0x8C98_0C00,
    0x659C_8491,
];

fn put_word(image: &mut Segments, address: u32, word: u32) -> Result<(), Fail> {
    let mut at = address;
    for byte in word.to_le_bytes() {
        image.put(at, byte)?;
        at = at.wrapping_add(1);
    }
    Ok(())
}

/// Words from an address up.
fn put_words(image: &mut Segments, address: u32, words: &[u32]) -> Result<(), Fail> {
    let mut at = address;
    for word in words {
        put_word(image, at, *word)?;
        at = at.wrapping_add(4);
    }
    Ok(())
}

/// A program at 1000, which the boot record names.
fn image_of(alloc: Global, program: &[u32]) -> Result<Segments, Fail> {
    let mut image = Segments::new(alloc);
    put_word(&mut image, 0xFFFF_FF10, 0x1000)?;
    put_words(&mut image, 0x1000, program)?;
    Ok(image)
}

/// A machine, and the schedule without events.
#[derive(Drop)]
struct Run {
    machine: Machine,
    plan: Schedule,
}

/// The schedule that a text says.
fn plan_of(alloc: Global, text: &str) -> Result<Schedule, Fail>
    ensures plan { IfOk result (λ p. IsPlan p.events) }
    ensures place { IfOk result (λ p. p.place ≡ 0) }
{
    match read(alloc, text.as_bytes()) {
        Ok(plan) => Ok(plan),
        Err(_) => Err("no schedule".into()),
    }
}

/// A machine before its first step, with the events of a text ahead.
fn run_of(alloc: Global, image: &Segments, sets: Option<u8>, events: &str) -> Result<Run, Fail>
    requires { IfSome sets (λ n. 0 < n × n < 16) }
    ensures { IfOk result (λ r. StandsAt (given_of image.now sets r.plan) (at [] 1) r.machine r.plan) }
{
    let plan = plan_of(alloc, events)?;
    let machine = Machine::new(alloc, image, sets, MAX_LENGTH)?;
    Ok(Run { machine, plan })
}

/// The commands that a text says.
fn script_of(alloc: Global, text: &str) -> Result<Script, Fail> {
    match read_script(alloc, text.as_bytes()) {
        Ok(script) => Ok(script),
        Err(_) => Err("no script".into()),
    }
}

/// A sink with room for what is shown and for the short lines of so many commands, whose write of this number fails;
/// none where it is 0.
fn sink_failing(alloc: Global, commands: usize, failing: u64) -> Result<MemSink, Fail> {
    let mut sink = MemSink::new(alloc);
    sink.room((commands as u64).saturating_mul(16).saturating_add(16384))?;
    sink.fail_at(failing)?;
    Ok(sink)
}

/// The number of sets that is asked for, and 0 for those of the PRCB.
fn asked(sets: u8) -> Option<u8>
    ensures { IfSome result (λ n. 0 < n × n < 16) }
{
    match sets {
        0 => None,
        n => Some(n.min(15)),
    }
}

/// What a session of a run with these events answers, and what it writes to a sink whose write of this number fails.
pub(crate) fn session_of(
    alloc: Global,
    image: &Segments,
    sets: u8,
    events: &str,
    text: &str,
    failing: u64,
) -> Result<(SessionEnd, MemSink), Fail> {
    let sets = asked(sets);
    let script = script_of(alloc, text)?;
    let mut run = run_of(alloc, image, sets, events)?;
    let mut sink = sink_failing(alloc, script.commands().len(), failing)?;
    let end = session(
        alloc,
        image,
        sets,
        &mut run.machine,
        &mut run.plan,
        &script,
        &mut sink,
    );
    Ok((end, sink))
}

/// Whether a sink holds this text.
pub(crate) fn holds(sink: &MemSink, text: &str) -> bool {
    sink.bytes() == text.as_bytes()
}

const PACKET_SCRIPT: &str = "turn 2\nraw\nregs\n";

const PACKET_TEXT: &str = "#turn 3 4
#raw 3 00040000
#rg 00000000 00000000 00000000 00000000 00000000 00000003 00000000 00000000 00000000 00000000 00000000 00000000 00000000 00000000 00000000 00000000
#rl 00000000 00000040 00000000 00000000 00000000 00000000 00000000 00000000 00000000 00000000 00000000 00000000 00000000 00000000 00000000 00000000
#view 4 00001010 00000000 001F2002
#g 00000000 00000000 0000000C 00000000 00000000 00000003 00000000 00000000 00000000 00000000 00000000 00000000 00000000 00000000 00000000 00000000
#l 00000000 00000040 00000000 00000000 00000000 00000000 00000000 00000000 00000000 00000000 00000000 00000000 00000000 00000000 00000000 00000000
";

/// The frame of the call is held, and is at 0. A flush is a drained point. After the end nothing is run.
const FLUSH_SCRIPT: &str =
    "turn 2\nheld\nrawmem 10 1\nturn 19\nrawmem 10 2\nmem 10 2\nturn 1\nrawmem 10 2\nheld\nturn 1\nturn 5\nuntil 0\nmem FFFFFFFF 2\n";

const FLUSH_TEXT: &str = "#turn 3 2
#held 5 1 00000000
#rawmem 00000010 00
#point 3 flush 0000100C 00000000 001F2002
#g 00000000 00000000 00000000 00000000 00000000 00000000 00000000 00000000 00000000 00000000 00000000 00000000 00000000 00000000 00000000 00000040
#l 00000000 00000080 00000000 00000000 00000000 00000000 00000000 00000000 00000000 00000000 00000000 00000000 00000000 00000000 00000000 00000000
#turn 22 3
#rawmem 00000010 00 00
#mem 00000010 05 00
#turn 23 3
#rawmem 00000010 05 00
#held 5 0
#turn 24 4
#point 5 end 00001018 00000000 001F2002
#g 00000000 00000000 00000000 00000000 00000000 E0000000 00000000 00000000 00000000 00000000 00000000 00000000 00000000 00000000 00000000 00000040
#l 00000000 00000080 00000000 00000000 00000000 00000000 00000000 00000000 00000000 00000000 00000000 00000000 00000000 00000000 00000000 00000000
#end exit 00000000
#turn 25 5
#turn 25 5
#mem FFFFFFFF 00 00
";

/// The frame of the first call is spilled by the second one, whose own is at 40; nothing leaves the address at 2000.
const SPILL_SCRIPT: &str =
    "turn 5\nheld\nturn 1\nheld\nturn 18\nrawmem 10 1\nturn 1\nrawmem 10 1\nuntil 2000\n";

const SPILL_TEXT: &str = "#turn 6 2
#held 1 1 00000000
#turn 7 3
#held 1 1 00000040
#turn 25 3
#rawmem 00000010 00
#turn 26 3
#rawmem 00000010 05
#point 6 end 0000101C 00000000 001F2002
#g 00000000 00000000 00000000 00000000 00000000 E0000000 00000000 00000000 00000000 00000000 00000000 00000000 00000000 00000000 00000000 00000080
#l 00000040 000000C0 00000000 00000000 00000000 00000000 00000000 00000000 00000000 00000000 00000000 00000000 00000000 00000000 00000000 00000000
#end exit 00000000
#turn 28 6
";

/// Back from the end to right behind the flush, whose frame was not in memory at its turn, and to before the call; and
/// a byte that the call changed.
const BACK_SCRIPT: &str =
    "turn 30\nback 2\nrawmem 10 1\nlast 1004\nheld\nuntil 1008\nheld\nwho 10\nback 9\nwho 10\n";

const BACK_TEXT: &str = "#point 3 flush 0000100C 00000000 001F2002
#g 00000000 00000000 00000000 00000000 00000000 00000000 00000000 00000000 00000000 00000000 00000000 00000000 00000000 00000000 00000000 00000040
#l 00000000 00000080 00000000 00000000 00000000 00000000 00000000 00000000 00000000 00000000 00000000 00000000 00000000 00000000 00000000 00000000
#point 5 end 00001018 00000000 001F2002
#g 00000000 00000000 00000000 00000000 00000000 E0000000 00000000 00000000 00000000 00000000 00000000 00000000 00000000 00000000 00000000 00000040
#l 00000000 00000080 00000000 00000000 00000000 00000000 00000000 00000000 00000000 00000000 00000000 00000000 00000000 00000000 00000000 00000000
#end exit 00000000
#turn 25 5
#turn 6 3
#rawmem 00000010 00
#turn 1 1
#held 5 0
#turn 2 2
#held 5 1 00000000
#who 2 00001004
#turn 1 0
#who none
";

#[test]
fn tells_what_is_asked(rt: HostRuntime) -> Result<(), Fail> {
    let rows = [
        (
            PACKET.as_slice(),
            0u8,
            PACKET_SCRIPT,
            SessionEnd::Done,
            PACKET_TEXT,
        ),
        // An instruction stops, and not its turn; then the rest of that is run.
        (&PACKET, 0, "until 1008\n", SessionEnd::Done, "#turn 2 2\n"),
        (
            &PACKET,
            0,
            "until 1008\nturn 1\n",
            SessionEnd::Done,
            "#turn 2 2\n#turn 3 4\n",
        ),
        (&PACKET, 0, "", SessionEnd::Done, ""),
        (
            &FLUSH,
            0,
            FLUSH_SCRIPT,
            SessionEnd::Stopped(End::Exit(0)),
            FLUSH_TEXT,
        ),
        (
            &SPILL,
            1,
            SPILL_SCRIPT,
            SessionEnd::Stopped(End::Exit(0)),
            SPILL_TEXT,
        ),
        // With two sets both frames are held, the youngest first.
        (
            &SPILL,
            2,
            "turn 6\nheld\n",
            SessionEnd::Done,
            "#turn 7 3\n#held 2 2 00000040 00000000\n",
        ),
        // Back over the spill, with one set.
        (
            &SPILL,
            1,
            "turn 6\nheld\nback 1\nheld\nturn 4\nheld\n",
            SessionEnd::Done,
            "#turn 7 3\n#held 1 1 00000040\n#turn 2 2\n#held 1 1 00000000\n#turn 6 2\n#held 1 1 00000000\n",
        ),
        (&FLUSH, 0, BACK_SCRIPT, SessionEnd::Done, BACK_TEXT),
    ];
    for (program, sets, script, end, text) in rows {
        let image = image_of(rt.alloc(), program)?;
        let (answer, sink) = session_of(rt.alloc(), &image, sets, "", script, 0)?;
        same_at(&rt, answer, end, script);
        must_at(&rt, holds(&sink, text), script);
    }
    Ok(())
}

#[test]
fn holds_as_many_frames_as_a_new_start_asks_for(rt: HostRuntime) -> Result<(), Fail> {
    let mut image = image_of(rt.alloc(), &RESTART)?;
    put_word(&mut image, 0xFFFF_FF14, 0x800)?;
    let prcb = [0x900, 0xA00, 0, 0x4000_0000, 0x2000, 0xB00, 0, 0x3000, 0, 0];
    put_words(&mut image, 0x800, &prcb)?;
    put_words(&mut image, 0xC1C, &[0x5000, 0, 15])?;
    let (answer, sink) = session_of(rt.alloc(), &image, 0, "", "until 1200\nheld\n", 0)?;
    same(&rt, answer, SessionEnd::Done);
    must(&rt, holds(&sink, "#turn 4 4\n#held 15 0\n"));
    Ok(())
}

// The third write fails, that of the globals of the drained point, which is printed at the end of turn 6.
#[test]
fn stops_where_a_write_fails(rt: HostRuntime) -> Result<(), Fail> {
    let image = image_of(rt.alloc(), &FLUSH)?;
    let (answer, sink) = session_of(rt.alloc(), &image, 0, "", "turn 2\nturn 20\nheld\n", 3)?;
    same(&rt, answer, SessionEnd::Write);
    must(
        &rt,
        holds(
            &sink,
            "#turn 3 2\n#point 3 flush 0000100C 00000000 001F2002\n",
        ),
    );
    Ok(())
}
