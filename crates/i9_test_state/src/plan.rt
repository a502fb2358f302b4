//! Plans in a state that is worked out by hand.
ghost use Rattle.std.specs.Prelude.{IfOk};
ghost use Rattle.i9_model.specs.Events.{IsInRange};
ghost use Rattle.i9_processor.specs.State.{IsDrained};

use crate::check::{same, same_at};
use crate::plan_state::{PC, changes, ready};
use crate::plan_told::{effect_text, next_text};
use crate::rows::{columns, hex_words, rows_hold};
use arrayvec::ArrayVec;
use i9_dma::Channel;
use i9_faults::{Fault, FaultStop};
use i9_model::{Cause, Chosen, Event};
use i9_plan::{DecodeCache, plan_entry, plan_event, plan_faulting, plan_interrupt};
use i9_processor::{DmaChange, Effect, Processor};
use std::alloc::Global;
use std::process::Abort;
use std::test::Fail;

/// The processor that is about to do the words of a row. Its columns are a statement, which is for the reader; the
/// arithmetic and process controls, an address and two words there; and what is planned, as `plan_told` writes it.
pub(crate) fn given(alloc: Global, text: &str) -> Result<Processor, Fail>
    ensures { IfOk result (λ p. IsDrained p) }
{
    match hex_words(alloc, text)?.as_slice() {
        [ac, pc, at, first, second] => ready(alloc, *at, (*first, *second), *ac, *pc),
        _ => Err("a row has five numbers".into()),
    }
}

/// Where nothing is done.
const STOPS: &str = "\
a word without an instruction    | 0 1F2002 1000 0 0        | refused 2 1
a word with a wrong operand      | 0 1F2002 1000 5DA00611 0 | refused 2 4
modpc in user mode               | 0 1F2000 1000 65A48292 0 | Modpc 65A48292 0: fault 10 1
sysctl by message 5              | 0 1F2002 1000 65A01493 0 | Sysctl 65A01493 0: fault 2 4
calls past the table             | 0 1F2002 1000 66000015 0 | Calls 66000015 0: fault 7 2
ld at 4001                       | 0 1F2002 1000 90A46000 0 | Ld 90A46000 0: fault 2 3
st to the live frame             | 0 1F2002 1000 92A42000 0 | meets 3010
atadd of the live frame          | 0 1F2002 1000 61A05110 0 | meets 3010
addi that overflows              | 0 1F2002 1000 59A48092 0 | Addi 59A48092 0: fault 3 1
addi that overflows, precise     | 8000 1F2002 1000 59A48092 0 | Addi 59A48092 0: fault 3 1
divo by 0, precise               | 8000 1F2002 1000 70A11D80 0 | Divo 70A11D80 0: fault 3 2
faulte where it is equal         | 2 1F2002 1000 1A000000 0 | Faulte 1A000000 0: fault 5 1
mov of sf0 in user mode          | 0 1F2000 1000 5CA00620 0 | Mov 5CA00620 0: fault 10 1
sdma in user mode                | 0 1F2000 1000 63C50801 0 | Sdma 63C50801 0: fault 10 1
sdma of channel 4                | 0 1F2002 1000 63C50804 0 | Sdma 63C50804 0: fault 2 4
addi that overflows, traced      | 0 1F2003 1000 59A48092 0 | Addi 59A48092 0: fault 3 1
a word without one, traced       | 0 1F2003 1000 0 0        | refused 2 1
a first word in the live frame   | 0 1F2002 3002 8CA83000 0 | meets 3002
a second word in the live frame  | 0 1F2002 2FFC 8CA83000 0 | meets 3000
";

/// What is done to registers and controls.
const RESULTS: &str = "\
addo 3, 4, g4                    | 0 1F2002 1000 59A11803 1234 | Addo 59A11803 0: 0 1F2002 0 1004, r20 7
cmpo 3, 4                        | 1 1F2002 1000 5A011803 1234 | Cmpo 5A011803 0: 4 1F2002 0 1004
lda 0x1234, g5                   | 0 1F2002 1000 8CA83000 1234 | Lda 8CA83000 1234: 0 1F2002 0 1008, r21 1234
addi that overflows, masked      | 1000 1F2002 1000 59A48092 1234 | Addi 59A48092 0: 1100 1F2002 0 1004, r20 0
ldib at 4001                     | 0 1F2002 1000 C0A46000 1234 | Ldib C0A46000 0: 0 1F2002 0 1004, r20 FFFFFF87
mov of sf1, which is 0           | 0 1F2002 1000 5CA00621 1234 | Mov 5CA00621 0: 0 1F2002 0 1004, r20 0
cmpobe, taken                    | 0 1F2002 1000 3200E010 1234 | Cmpobe 3200E010 0: 2 1F2002 0 1010
cmpobe, not taken                | 0 1F2002 1000 3208E010 1234 | Cmpobe 3208E010 0: 1 1F2002 0 1004
faulte where it is greater       | 1 1F2002 1000 1A000000 1234 | Faulte 1A000000 0: 1 1F2002 0 1004
b 0x1008                         | 0 1F2002 1000 8000008 1234  | B 8000008 0: 0 1F2002 0 1008
bal 0x1008                       | 0 1F2002 1000 B000008 1234  | Bal B000008 0: 0 1F2002 0 1008, r30 1004
modac                            | 8001 1F2002 1000 64A09A87 1234 | Modac 64A09A87 0: 8002 1F2002 0 1004, r20 8001
modtc                            | 0 1F2002 1000 65A7DA06 1234 | Modtc 65A7DA06 0: 0 1F2002 6 1004, r20 0
modpc that sets trace enable     | 0 1F2002 1000 65B58296 1234 | Modpc 65B58296 0: 0 1F2003 0 1004, r22 1F2002
addo where no mode is set        | 0 1F2003 1000 59A11803 0 | Addo 59A11803 0: 0 1F2003 0 1004, r20 7
modtc that sets two modes        | 0 1F2003 1000 65A7DA06 0 | Modtc 65A7DA06 0: 0 1F2003 6 1004, r20 0, trace 20006 2
fmark                            | 0 1F2003 1000 66000600 0 | Fmark 66000600 0: 0 1F2003 0 1004, trace 0 80
fmark, not traced                | 0 1F2002 1000 66000600 0 | Fmark 66000600 0: 0 1F2002 0 1004
";

/// What is done to frames, memory, start-up, interrupts and DMA.
const MOVES: &str = "\
call 0x1008       | 0 1F2002 1000 9000008 0  | Call 9000008 0: 0 1F2002 0 1008, saves 3040 3080 3040 30C0 back 1004
calls 5           | 0 1F2002 1000 66000805 0 | Calls 66000805 0: 0 1F2002 0 1204, saves 3040 3080 3040 30C0 back 1004
ret, whose rip is 9 | 0 1F2002 1000 A000000 0 | Ret A000000 0: 0 1F2002 0 8, returns 3000 0
flushreg          | 0 1F2002 1000 66000680 0 | Flushreg 66000680 0: 0 1F2002 0 1004, flushes
stl g4 at 4008    | 0 1F2002 1000 9AA76000 0 | Stl 9AA76000 0: 0 1F2002 0 1004, 4008 05 00 00 00 04 01 00 06
sysctl 3          | 0 1F2002 1000 65DE8499 0 | Sysctl 65DE8499 0: 0 1F2002 0 1004, flushes, restarts 1234 3000
sysctl 4          | 0 1F2002 1000 65A0149C 0 | Sysctl 65A0149C 0: 0 1F2002 0 1004, flushes, group 6
mov 5, sf0        | 0 1F2002 1000 5C002E05 0 | Mov 5C002E05 0: 0 1F2002 0 1004, Pending(5)
mov 5, sf1        | 0 1F2002 1000 5C082E05 0 | Mov 5C082E05 0: 0 1F2002 0 1004, Mask(5)
sysctl 0, vector 0 | 0 1F2002 1000 65A01483 0 | Sysctl 65A01483 0: 0 1F2002 0 1004, check
sysctl 0, vector 7 | 0 1F2002 1000 65A01C87 0 | Sysctl 65A01C87 0: 0 1F2002 0 1004, check
sysctl 0, vector 8 | 0 1F2002 1000 65A01C88 0 | Sysctl 65A01C88 0: 0 1F2002 0 1004, request 1400 6, request 1405 1, check
sysctl 0, vector 12 | 0 1F2002 1000 65A01C8C 0 | Sysctl 65A01C8C 0: 0 1F2002 0 1004, request 1400 6, request 1405 10, check
modpc that lowers | 0 1F2002 1000 65C5C297 0 | Modpc 65C5C297 0: 0 2002 0 1004, r24 1F2002, check
modpc that keeps  | 0 1F2002 1000 65B58296 0 | Modpc 65B58296 0: 0 1F2003 0 1004, r22 1F2002
modpc that raises | 0 2 1000 65BDC297 0      | Modpc 65BDC297 0: 0 1F0002 0 1004, r23 2
mov 5, sf2        | 0 1F2002 1000 5C102E05 0 | Mov 5C102E05 0: 0 1F2002 0 1004, Command(5)
mov sf2, g4       | 0 1F2002 1000 5CA00622 0 | Mov 5CA00622 0: 0 1F2002 0 1004, r20 0
sdma 1, g4, g8    | 0 1F2002 1000 63C50801 0 | Sdma 63C50801 0: 0 1F2002 0 1004, SetsUp(1, Channel { control: 5, count: 0, source: 768, target: 4660 })
";

/// What is planned in the state of a row.
fn planned(alloc: Global, state: &str) -> Result<String, Fail> {
    let p = given(alloc, state)?;
    next_text(alloc, &p, &mut DecodeCache::new(alloc)?)
}

#[test]
fn plans_instructions(rt: HostRuntime) -> Result<(), Fail> {
    rows_hold(&rt, rt.alloc(), &[STOPS, RESULTS, MOVES], planned)
}

/// What is kept of words that were decoded changes no answer: the third word stands where another one stood, and the
/// fourth in the same place of the decode cache, 512 words on.
const KEPT: &str = "\
mov 5, g4     | 0 1F2002 1000 5CA01E05 0 | Mov 5CA01E05 0: 0 1F2002 0 1004, r20 5
mov 5, g4     | 0 1F2002 1000 5CA01E05 0 | Mov 5CA01E05 0: 0 1F2002 0 1004, r20 5
addo 1, 2, g4 | 0 1F2002 1000 59A09801 0 | Addo 59A09801 0: 0 1F2002 0 1004, r20 3
flushreg      | 0 1F2002 1800 66000680 0 | Flushreg 66000680 0: 0 1F2002 0 1804, flushes
addo 1, 2, g4 | 0 1F2002 1000 59A09801 0 | Addo 59A09801 0: 0 1F2002 0 1004, r20 3
no instruction | 0 1F2002 1000 0 0       | refused 2 1
flushreg      | 0 1F2002 1800 66000680 0 | Flushreg 66000680 0: 0 1F2002 0 1804, flushes
";

#[test]
fn keeps_instructions(rt: HostRuntime) -> Result<(), Fail> {
    let mut decodes = DecodeCache::new(rt.alloc())?;
    for row in KEPT.lines() {
        let (_, state, wanted) = columns(row)?;
        let p = given(rt.alloc(), state)?;
        let text = next_text(rt.alloc(), &p, &mut decodes)?;
        same_at(&rt, text.as_str(), wanted, row);
    }
    Ok(())
}

/// The frame of the handler stands above its record, of PC, AC, the type with the subtype, and the address.
const FAULT_ENTRY: &str =
    "8000 1F2002 0 1300, 3080 02 20 1F 00 00 80 00 00 01 00 02 00 FC 0F 00 00, \
saves 3040 3090 3041 30D0 back 1000";

#[test]
fn plans_faults(rt: HostRuntime) -> Result<(), Fail> {
    let p = ready(rt.alloc(), 0x1000, (0, 0), 0x8000, PC)?;
    let mut faulting = Effect::blank();
    plan_faulting(&p, 2, &mut faulting);
    same(
        &rt,
        effect_text(rt.alloc(), &faulting)?.as_str(),
        "8000 1F2002 0 1008",
    );
    let fault = Fault {
        kind: 2,
        subtype: 1,
        address: 0x0FFC,
    };
    let text = match plan_entry(&p, &fault) {
        Ok(effect) => effect_text(rt.alloc(), &effect)?,
        Err(_) => return Err("no entry".into()),
    };
    same(&rt, text.as_str(), FAULT_ENTRY);
    let dead = FaultStop::Dead {
        code: 1,
        address: 0x1118,
    };
    let other = Fault { kind: 3, ..fault };
    same(&rt, plan_entry(&p, &other).err(), Some(dead));
    Ok(())
}

/// The handler's frame stands on the stack in use, since an interrupt is handled, and above its record, of PC, AC, the
/// vector and 0.
const NMI_ENTRY: &str = "8000 1F2002 0 1600, 3080 02 20 1F 00 00 80 00 00 F8 00 00 00 00 00 00 00, \
saves 3040 3090 3047 30D0 back 1000, Clears(Nmi)";

const SOFT_ENTRY: &str = "8000 22002 0 1700, 3080 02 20 1F 00 00 80 00 00 12 00 00 00 00 00 00 00, \
saves 3040 3090 3047 30D0 back 1000, request 1400 0, request 1406 0, Clears(Soft)";

#[test]
fn plans_interrupts(rt: HostRuntime) -> Result<(), Fail> {
    let rows = [(248, Cause::Nmi, NMI_ENTRY), (18, Cause::Soft, SOFT_ENTRY)];
    for (vector, cause, wanted) in rows {
        let p = ready(rt.alloc(), 0x1000, (0, 0), 0x8000, PC)?;
        let text = match plan_interrupt(&p, &Chosen { vector, cause }) {
            Ok(effect) => effect_text(rt.alloc(), &effect)?,
            Err(_) => return Err("no entry".into()),
        };
        same(&rt, text.as_str(), wanted);
    }
    Ok(())
}

/// What is planned of an event, or the hazard that it meets.
fn told(alloc: Global, planned: Result<Effect, u32>) -> Result<String, Fail> {
    match planned {
        Ok(effect) => effect_text(alloc, &effect),
        Err(a) => Ok(format!(in alloc; "meets {a:X}")?),
    }
}

/// What is planned of an event is what is wanted of it.
fn plans(
    rt: &impl Abort,
    alloc: Global,
    p: &Processor,
    event: &Event,
    wanted: &str,
) -> Result<(), Fail>
    requires drained { IsDrained p.now }
    requires range { IsInRange event.now }
{
    same(rt, told(alloc, plan_event(p, event))?.as_str(), wanted);
    Ok(())
}

#[test]
fn plans_events(rt: HostRuntime) -> Result<(), Fail> {
    let p = ready(rt.alloc(), 0x1000, (0, 0), 1, PC)?;
    plans(
        &rt,
        rt.alloc(),
        &p,
        &Event::Pin(3),
        "1 1F2002 0 1000, Pin(3)",
    )?;
    plans(&rt, rt.alloc(), &p, &Event::Nmi, "1 1F2002 0 1000, Nmi")?;
    plans(&rt, rt.alloc(), &p, &Event::Dma(1), "1 1F2002 0 1000")?;
    plans(
        &rt,
        rt.alloc(),
        &p,
        &Event::Show(0x3000, 4),
        "1 1F2002 0 1000",
    )
}

/// A processor whose channel 0 moves four bytes from 4000 to a target, with an interrupt at the end.
fn with_channel(alloc: Global, target: u32) -> Result<Processor, Fail>
    ensures { IfOk result (λ p. IsDrained p) }
{
    let mut p = ready(alloc, 0x1000, (0, 0), 1, PC)?;
    let channel = Channel {
        control: 0x42,
        count: 4,
        source: 0x4000,
        target,
    };
    changes(&mut p, DmaChange::SetsUp(0, channel))?;
    changes(&mut p, DmaChange::Command(1))?;
    Ok(p)
}

#[test]
fn plans_units(rt: HostRuntime) -> Result<(), Fail> {
    let p = with_channel(rt.alloc(), 0x5000)?;
    let moved = "1 1F2002 0 1000, 5000 21 87 43 65, Dma(0), Passes(0)";
    plans(&rt, rt.alloc(), &p, &Event::Dma(0), moved)?;
    // The channel has its bytes from memory.
    let fed = Event::Feed(0, ArrayVec::from([9; 16]));
    plans(&rt, rt.alloc(), &p, &fed, "1 1F2002 0 1000")?;
    // The frame at 3000 is live.
    let p = with_channel(rt.alloc(), 0x300D)?;
    plans(&rt, rt.alloc(), &p, &Event::Dma(0), "meets 300D")
}
