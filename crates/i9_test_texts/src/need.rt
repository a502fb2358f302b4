//! Needs, worked out by hand from the table of costs and the list of barriers.
ghost use Rattle.std.specs.Prelude.{◌≡◌};
ghost use Rattle.i9_model.specs.Needs.{has_access};
ghost use Rattle.i9_need.specs.Known.{moves_a_frame};

use crate::check::same;
use crate::rows::{rows_hold, where_so};
use i9_isa::{Inst, Op, transfer, valid};
use i9_model::{Facts, Need};
use i9_need::{entry_need, event_need, inst_need, refused_need};
use std::alloc::Global;
use std::test::Fail;

/// A load, a store or an atomic.
fn has_access(op: Op) -> bool
    ensures { result ≡ has_access op }
{
    matches!(op, Op::Atadd | Op::Atmod) || transfer(op).is_some()
}

fn moves_a_frame(op: Op) -> bool
    ensures { result ≡ moves_a_frame op }
{
    matches!(op, Op::Call | Op::Callx | Op::Calls | Op::Ret)
}

/// The need of an instruction, where it is one and can have these facts.
fn need_of(i: &Inst, f: &Facts) -> Result<Need, Fail> {
    let most = if moves_a_frame(i.op) { 1 } else { 15 };
    if f.frames > most || f.waits > 62 || f.access.is_some() != has_access(i.op) || !valid(i) {
        return Err("it cannot have these facts".into());
    }
    Ok(inst_need(i, f))
}

/// What is known of an instruction at 1000, of bytes that it accesses at 2000, if any, of waits and of frames.
fn counted(bytes: u32, waits: u64, frames: u8) -> Facts {
    Facts {
        ip: 0x1000,
        access: if bytes == 0 {
            None
        } else {
            Some((0x2000, bytes))
        },
        port: false,
        waits,
        frames,
        fault: false,
        trace: false,
        hazard: false,
        alone: false,
    }
}

/// What is known of an instruction: its bytes, waits and frames, and what else is so.
fn facts(text: &str) -> Result<Facts, Fail> {
    let mut words = text.split_whitespace();
    let (Some(bytes), Some(waits), Some(frames)) = (words.next(), words.next(), words.next()) else {
        return Err("three numbers are known".into());
    };
    let mut known = counted(
        bytes.parse::<u32>()?,
        waits.parse::<u64>()?,
        frames.parse::<u8>()?,
    );
    for word in words {
        match word {
            "port" => known.port = true,
            "fault" => known.fault = true,
            "trace" => known.trace = true,
            "hazard" => known.hazard = true,
            "alone" => known.alone = true,
            _ => return Err("no such fact".into()),
        }
    }
    Ok(known)
}

/// The turns of a need, and whether it is a request, slow or a barrier.
fn kinds_text(alloc: Global, n: &Need) -> Result<String, Fail> {
    let mut text = format!(in alloc; "{}", n.cost)?;
    text.push_str(where_so(n.request, " request"))?;
    text.push_str(where_so(n.slow, " slow"))?;
    text.push_str(where_so(n.barrier, " barrier"))?;
    Ok(text)
}

/// The side of a need, the sets of what it reads and of what it writes, its own words, its turns and kinds, and, where
/// it is so, that it stands alone, the bytes that it stores, and the turn that it waits for.
fn need_text(alloc: Global, n: &Need) -> Result<String, Fail> {
    let (at, size) = n.code;
    let kinds = kinds_text(alloc, n)?;
    let mut text = format!(in alloc;
        "{:?} {:X} {:X} {at:X}+{size} {kinds}",
        n.side, n.reads, n.writes
    )?;
    text.push_str(where_so(n.alone, " alone"))?;
    if let Some((address, bytes)) = n.store {
        text.push_str(&format!(in alloc; " stores {address:X}+{bytes}")?)?;
    }
    if n.not_before != 0 {
        text.push_str(&format!(in alloc; " from {}", n.not_before)?)?;
    }
    Ok(text)
}

/// A name with its bytes, waits and frames; its turns, and whether it is a request, slow or a barrier.
const ONE_TURN: &str = "\
addo r4, r4, r4   | 0 0 0 | 1
lda 0, r4         | 0 0 0 | 1
cmpo r4, r4       | 0 0 0 | 1
modify r4, r4, r4 | 0 0 0 | 1
udma              | 0 0 0 | 1
mark              | 0 0 0 | 1
fmark             | 0 0 0 | 1
testno r4         | 0 0 0 | 1
cmpobg r4, r4, 0  | 0 0 0 | 1
b 0               | 0 0 0 | 1
bal 0             | 0 0 0 | 1
bx 0              | 0 0 0 | 1
balx 0, r4        | 0 0 0 | 1
faultno           | 0 0 0 | 1
";

/// The same of what is slow.
const SLOW: &str = "\
mulo r4, r4, r4 | 0 0 0 | 5 slow
muli r4, r4, r4 | 0 0 0 | 5 slow
emul r4, r4, r4 | 0 0 0 | 5 slow
divo r4, r4, r4 | 0 0 0 | 37 slow
divi r4, r4, r4 | 0 0 0 | 37 slow
remo r4, r4, r4 | 0 0 0 | 37 slow
remi r4, r4, r4 | 0 0 0 | 37 slow
modi r4, r4, r4 | 0 0 0 | 37 slow
ediv r4, r4, r4 | 0 0 0 | 37 slow
";

/// The same of loads and stores, with the waits of their region.
const REQUESTS: &str = "\
ldob 0, r4 | 4 0 0  | 1 request
ldib 0, r4 | 4 1 0  | 2 request
ldos 0, r4 | 4 2 0  | 3 request
ldis 0, r4 | 4 3 0  | 4 request
ld 0, r4   | 4 31 0 | 32 request
ldl 0, r4  | 4 5 0  | 6 request
ldt 0, r4  | 4 6 0  | 7 request
ldq 0, r4  | 4 7 0  | 8 request
stob r4, 0 | 4 0 0  | 1 request
stib r4, 0 | 4 1 0  | 2 request
stos r4, 0 | 4 2 0  | 3 request
stis r4, 0 | 4 3 0  | 4 request
st r4, 0   | 4 31 0 | 32 request
stl r4, 0  | 4 5 0  | 6 request
stt r4, 0  | 4 6 0  | 7 request
stq r4, 0  | 4 7 0  | 8 request
";

/// The same of barriers: both waits of an atomic, a frame that is spilled or refilled, frames that are flushed, and
/// others.
const BARRIERS: &str = "\
atadd r4, r4, r4  | 4 0 0  | 2 barrier
atadd r4, r4, r4  | 4 62 0 | 64 barrier
atmod r4, r4, r4  | 4 3 0  | 5 barrier
call 0            | 0 0 0  | 4 barrier
call 0            | 0 0 1  | 20 barrier
callx 0           | 0 0 0  | 4 barrier
callx 0           | 0 0 1  | 20 barrier
calls r4          | 0 0 0  | 4 barrier
calls r4          | 0 0 1  | 20 barrier
ret               | 0 0 0  | 4 barrier
ret               | 0 0 1  | 20 barrier
flushreg          | 0 0 0  | 1 barrier
flushreg          | 0 0 1  | 17 barrier
flushreg          | 0 0 15 | 241 barrier
sysctl r4, r4, r4 | 0 0 0  | 8 barrier
sysctl r4, r4, r4 | 0 0 2  | 40 barrier
sysctl r4, r4, r4 | 0 0 15 | 248 barrier
sdma r4, r4, r4   | 0 0 0  | 8 barrier
syncf             | 0 0 0  | 1 barrier
modac r4, r4, r4  | 0 0 0  | 1 barrier
modpc r4, r4, r4  | 0 0 0  | 1 barrier
modtc r4, r4, r4  | 0 0 0  | 1 barrier
";

/// Waits and frames of what has none count nothing.
const UNCOUNTED: &str = "\
addo r4, r4, r4  | 0 62 15 | 1
mulo r4, r4, r4  | 0 62 15 | 5 slow
divo r4, r4, r4  | 0 62 15 | 37 slow
ld 0, r4         | 4 1 15  | 2 request
atadd r4, r4, r4 | 4 1 15  | 3 barrier
sdma r4, r4, r4  | 0 62 15 | 8 barrier
call 0           | 0 62 1  | 20 barrier
";

/// The turns and kinds of the need of an instruction of which this is known.
fn kinds_of(alloc: Global, i: &Inst, known: &str) -> Result<String, Fail> {
    let need = need_of(i, &facts(known)?)?;
    kinds_text(alloc, &need)
}

#[test]
fn costs_and_kinds_of_names(rt: HostRuntime) -> Result<(), Fail> {
    let tables = [ONE_TURN, SLOW, REQUESTS, BARRIERS, UNCOUNTED];
    rows_hold(&rt, rt.alloc(), &tables, kinds_of)
}

/// Whole needs. A load reads a group, and stores have their own bytes; a second word is the instruction's own. An
/// access to the port page is a barrier and a request, and a write of a special function register is a barrier. Both
/// waits of an atomic count, which stores nothing of its own and is no request. Calls, returns and sysctl change the
/// frame.
const NEEDS: &str = "\
addo 1, g0, g1      | 0 0 0       | Reg 10000 20000 1000+4 1
addc 1, g0, g1      | 0 0 0       | Reg 100010000 100020000 1000+4 1
testno r4           | 0 0 0       | Ctl 100000000 10 1000+4 1
cmpobg r4, r4, 0    | 0 0 0       | Ctl 10 100000000 1000+4 1
bal 0               | 0 0 0       | Ctl 0 40000000 1000+4 1
lda !(g8), g0       | 0 0 0       | Mem 1000000 10000 1000+4 1
mulo g0, g1, g2     | 0 0 0       | Reg 30000 40000 1000+4 5 slow
mulo g0, g1, g2     | 0 0 0 alone | Reg 30000 40000 1000+4 5 slow alone
ldq !(g8), g0       | 16 2 0      | Mem 1000000 F0000 1000+4 3 request
stl g0, (g8)[g9*4]  | 8 2 0       | Mem 3030000 0 1000+4 3 request stores 2000+8
stob g0, 0x12345678 | 1 2 0       | Mem 10000 0 1000+8 3 request stores 2000+1
lda 0x12345678, g0  | 0 0 0       | Mem 0 10000 1000+8 1
ld !(g8), g0        | 4 2 0 port  | Mem 1000000 10000 1000+4 3 request barrier
st g0, !(g8)        | 4 2 0 port  | Mem 1010000 0 1000+4 3 request barrier stores 2000+4
mov g0, sf2         | 0 0 0       | Reg 10000 0 1000+4 1 barrier
mov sf1, g0         | 0 0 0       | Reg 0 10000 1000+4 1
atadd g0, g1, g2    | 4 2 0       | Reg 30000 40000 1000+4 4 barrier
atmod g0, g1, g2    | 4 2 0       | Reg 70000 40000 1000+4 4 barrier
call 0              | 0 0 0       | Ctl 0 8000FFFF 1000+4 4 barrier
callx !(g8)         | 0 0 0       | Ctl 1000000 8000FFFF 1000+4 4 barrier
calls r4            | 0 0 1       | Reg 10 8000FFFF 1000+4 20 barrier
ret                 | 0 0 1       | Ctl 0 18000FFFF 1000+4 20 barrier
sysctl g0, g1, g2   | 0 0 0       | Reg 70000 18000FFFF 1000+4 8 barrier
";

/// The same where it faults or meets a hazard: but by its result or by a trace, what faults keeps its resources, is no
/// request and takes one turn, and so does what meets a hazard. A trace fault comes after the instruction.
const FAULTING: &str = "\
addo 1, g0, g1   | 0 0 0 fault  | Reg 10000 20000 1000+4 1 barrier
divo g0, g1, g2  | 0 0 0 fault  | Reg 30000 40000 1000+4 1 slow barrier
ldq !(g8), g0    | 16 2 0 fault | Mem 1000000 F0000 1000+4 1 barrier
st g0, !(g8)     | 4 2 0 fault  | Mem 1010000 0 1000+4 1 barrier
atadd g0, g1, g2 | 4 2 0 fault  | Reg 30000 40000 1000+4 1 barrier
calls r4         | 0 0 1 fault  | Reg 10 8000FFFF 1000+4 1 barrier
faultno          | 0 0 0 fault  | Ctl 100000000 0 1000+4 1 barrier
st g0, !(g8)     | 4 2 0 hazard | Mem 1010000 0 1000+4 1 barrier
ret              | 0 0 1 hazard | Ctl 0 18000FFFF 1000+4 1 barrier
flushreg         | 0 0 5 hazard | Reg 0 0 1000+4 1 barrier
divo g0, g1, g2  | 0 0 0 trace  | Reg 30000 40000 1000+4 37 slow barrier
st g0, !(g8)     | 4 2 0 trace  | Mem 1010000 0 1000+4 3 request barrier stores 2000+4
call 0           | 0 0 0 trace  | Ctl 0 8000FFFF 1000+4 4 barrier
bx !(g8)         | 0 0 0 trace  | Ctl 1000000 0 1000+4 1 barrier
";

/// The need of an instruction of which this is known.
fn need_answer(alloc: Global, i: &Inst, known: &str) -> Result<String, Fail> {
    let need = need_of(i, &facts(known)?)?;
    need_text(alloc, &need)
}

#[test]
fn needs_of_instructions(rt: HostRuntime) -> Result<(), Fail> {
    rows_hold(&rt, rt.alloc(), &[NEEDS, FAULTING], need_answer)
}

#[test]
fn needs_of_other_records(rt: HostRuntime) -> Result<(), Fail> {
    let rows = [
        (refused_need(0xFFFF_FFFC), "Ctl 0 0 FFFFFFFC+4 1 barrier"),
        (event_need(false, 0), "Ctl 0 0 0+0 1 barrier"),
        (event_need(true, 12), "Ctl 0 0 0+0 4 barrier from 12"),
        (entry_need(0), "Ctl 0 8000FFFF 0+0 8 barrier"),
        (entry_need(1), "Ctl 0 8000FFFF 0+0 24 barrier"),
    ];
    for (need, wanted) in rows {
        same(&rt, need_text(rt.alloc(), &need)?.as_str(), wanted);
    }
    Ok(())
}
