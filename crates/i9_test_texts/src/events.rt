//! Trace events, worked out by hand from the places of the modes and the flags.
use crate::check::same_at;
use crate::rows::{instruction, rows_hold};
use i9_events::{Breaks, Seen, event};
use i9_isa::Inst;
use std::alloc::Global;
use std::test::Fail;

/// What is given with an instruction: the trace and process controls, what it shows, and the breakpoints.
#[derive(Drop)]
struct Given {
    tc: u32,
    pc: u32,
    seen: Seen,
    breaks: Breaks,
}

/// An instruction at 1000 that shows nothing else, where trace enable is set and no breakpoint is enabled.
const PLAIN: Given = Given {
    tc: 0,
    pc: 1,
    seen: Seen {
        address: 0x1000,
        access: None,
        taken: false,
        switched: false,
    },
    breaks: Breaks {
        ipb: [0, 0],
        dab: [0, 0],
        bpcon: 0,
    },
};

fn number(digits: &str) -> Result<u32, Fail> {
    Ok(u32::from_str_radix(digits, 16)?)
}

fn two_numbers(text: &str) -> Result<[u32; 2], Fail> {
    let (first, second) = text.split_once(" ").unwrap_or((text, ""));
    Ok([number(first)?, number(second)?])
}

/// Sets one thing that is given: that a branch is taken or a call or a return switches, where the instruction is and
/// which address it accesses, and the controls and breakpoints.
fn set(given: &mut Given, item: &str) -> Result<(), Fail> {
    let (name, value) = item.split_once(" ").unwrap_or((item, ""));
    match name {
        "tc" => given.tc = number(value)?,
        "pc" => given.pc = number(value)?,
        "taken" => given.seen.taken = true,
        "switched" => given.seen.switched = true,
        "at" => given.seen.address = number(value)?,
        "to" => given.seen.access = Some(number(value)?),
        "ipb" => given.breaks.ipb = two_numbers(value)?,
        "dab" => given.breaks.dab = two_numbers(value)?,
        "bpcon" => given.breaks.bpcon = number(value)?,
        _ => return Err("nothing such is given".into()),
    }
    Ok(())
}

/// The trace controls and the subtype behind an instruction where this is given, if a trace fault comes.
fn trace_text(alloc: Global, i: &Inst, text: &str) -> Result<String, Fail> {
    let mut given = PLAIN;
    for item in text.split(',') {
        set(&mut given, item.trim())?;
    }
    match event(given.tc, given.pc, i, &given.seen, &given.breaks) {
        Some(trace) => Ok(format!(in alloc; "{:X} {:X}", trace.tc, trace.subtype)?),
        None => Ok(format!(in alloc; "none")?),
    }
}

/// Each mode alone, from that of instructions to that of marks, and none, with instructions that raise its event and
/// others that do not.
const ONE_MODE: &str = "\
mov r4, g6     | tc 2            | 20002 2
ld 8(g5), g6   | tc 2            | 20002 2
ret            | tc 2            | 20002 2
b 0x40         | tc 4            | 40004 4
bx 8(g5)       | tc 4            | 40004 4
mov r4, g6     | tc 4, taken     | none
lda 8(g5), g6  | tc 4, taken     | none
bal 0x40       | tc 4, taken     | none
balx 8(g5), g6 | tc 4, taken     | none
call 0x40      | tc 4, taken     | none
ret            | tc 4, taken     | none
faulte         | tc 4, taken     | none
faultno        | tc 4, taken     | none
teste g6       | tc 4, taken     | none
cmpo r4, g5    | tc 4, taken     | none
bal 0x40       | tc 8            | 80008 8
balx 8(g5), g6 | tc 8            | 80008 8
call 0x40      | tc 8            | 80008 8
callx 8(g5)    | tc 8            | 80008 8
calls r4       | tc 8            | 80008 8
b 0x40         | tc 8            | none
bx 8(g5)       | tc 8            | none
be 0x40        | tc 8, taken     | none
ret            | tc 8, switched  | none
ret            | tc 10           | 100010 10
call 0x40      | tc 10           | none
calls r4       | tc 10, switched | none
ret            | tc 20           | 200020 20
callx 8(g5)    | tc 20           | none
bx 8(g5)       | tc 20           | none
calls r4       | tc 40, switched | 400040 40
ret            | tc 40, switched | 400040 40
calls r4       | tc 40           | none
ret            | tc 40           | none
mark           | tc 80           | 800080 80
fmark          | tc 80           | 800080 80
syncf          | tc 80           | none
mov r4, g6     | tc 80, taken    | none
calls r4       | tc 80, switched | none
mov r4, g6     | tc 0, taken     | none
b 0x40         | tc 0, taken     | none
ret            | tc 0, switched  | none
";

/// Several events make one fault, whose subtype has a bit for each.
const SEVERAL_MODES: &str = "\
b 0x40              | tc 6            | 60006 6
be 0x40             | tc 6, taken     | 60006 6
be 0x40             | tc 6            | 20006 2
ret                 | tc 30           | 300030 30
ret                 | tc 3A           | 32003A 32
calls r4            | tc 48, switched | 480048 48
calls r4            | tc 48           | 80048 8
calls r4            | tc FE, switched | 4A00FE 4A
ret                 | tc FE, switched | 7200FE 72
cmpobl r4, g5, 0x40 | tc FE, taken    | 600FE 6
mark                | tc FE           | 8200FE 82
mov r4, g6          | tc FE           | 200FE 2
";

/// `fmark` counts in any mode, and sets the flag of its event where the mode is set.
const FORCED_MARKS: &str = "\
fmark | tc 0  | 0 80
mark  | tc 0  | none
fmark | tc 7C | 7C 80
mark  | tc 7C | none
fmark | tc 2  | 20002 82
mark  | tc 2  | 20002 2
fmark | tc 82 | 820082 82
mark  | tc 82 | 820082 82
";

/// The words of IPB0 and IPB1, and the address of the instruction: the low bit of a word enables, the two low bits of
/// both do not count, and all others do.
const INSTRUCTION_BREAKPOINTS: &str = "\
ld 8(g5), g6 | ipb 1001 0, to 2000                  | 1000000 80
ld 8(g5), g6 | ipb 0 1001, to 2000                  | 2000000 80
ld 8(g5), g6 | ipb 1001 1001, to 2000               | 3000000 80
ld 8(g5), g6 | ipb 1000 0, to 2000                  | none
ld 8(g5), g6 | ipb 0 1000, to 2000                  | none
ld 8(g5), g6 | ipb 1002 1002, to 2000               | none
ld 8(g5), g6 | ipb 1000 1001, to 2000               | 2000000 80
ld 8(g5), g6 | ipb 1003 0, to 2000                  | 1000000 80
ld 8(g5), g6 | ipb 1001 0, at 1002, to 2000         | 1000000 80
ld 8(g5), g6 | ipb 0 1003, at 1003, to 2000         | 2000000 80
ld 8(g5), g6 | ipb 1005 FFD, to 2000                | none
ld 8(g5), g6 | ipb 80001001 40001001, to 2000       | none
ld 8(g5), g6 | ipb FFFFFFFD 1, at FFFFFFFC, to 2000 | 1000000 80
ld 8(g5), g6 | ipb FFFFFFFD 1, at 0, to 2000        | 2000000 80
";

/// DAB0, DAB1 and the breakpoint controls, whose bits enable, and the effective address, all of whose bits count. There
/// may be none, and the address of the instruction does not count.
const DATA_BREAKPOINTS: &str = "\
st g6, 8(g5) | dab 2000 0, bpcon 1, to 2000           | 4000000 80
st g6, 8(g5) | dab 0 2000, bpcon 2, to 2000           | 8000000 80
st g6, 8(g5) | dab 2000 2000, bpcon 3, to 2000        | C000000 80
st g6, 8(g5) | dab 2000 0, bpcon 0, to 2000           | none
st g6, 8(g5) | dab 2000 0, bpcon 2, to 2000           | none
st g6, 8(g5) | dab 0 2000, bpcon 0, to 2000           | none
st g6, 8(g5) | dab 0 2000, bpcon 1, to 2000           | none
st g6, 8(g5) | dab 2000 2000, bpcon FFFFFFFC, to 2000 | none
st g6, 8(g5) | dab 2000 2000, bpcon FFFFFFFD, to 2000 | 4000000 80
st g6, 8(g5) | dab 2000 2000, bpcon 3, to 2001        | none
st g6, 8(g5) | dab 2000 2000, bpcon 3, to 1FFF        | none
st g6, 8(g5) | dab 2000 2000, bpcon 3, to 80002000    | none
st g6, 8(g5) | dab 2001 2003, bpcon 3, to 2003        | 8000000 80
st g6, 8(g5) | dab 0 1, bpcon 3, to 0                 | 4000000 80
st g6, 8(g5) | dab 0 0, bpcon 3                       | none
st g6, 8(g5) | dab 1000 1000, bpcon 3                 | none
st g6, 8(g5) | dab 1000 1000, bpcon 3, to 2000        | none
";

/// A breakpoint raises the mark event, beside the others.
const BREAKPOINTS_AND_EVENTS: &str = "\
atadd r4, g5, g6 | tc 0, to 2000, ipb 1001 1001, dab 2000 2000, bpcon 3   | F000000 80
atadd r4, g5, g6 | tc 2, to 2000, ipb 1001 1001, dab 2000 2000, bpcon 3   | F020002 82
atadd r4, g5, g6 | tc 80, to 2000, ipb 1001 1001, dab 2000 2000, bpcon 3  | F800080 80
atadd r4, g5, g6 | tc FE, to 2000, ipb 1001 1001, dab 2000 2000, bpcon 3  | F8200FE 82
mark             | tc 0, ipb 1001 1001, dab 2000 2000, bpcon 3            | 3000000 80
fmark            | tc 0, ipb 1001 1001, dab 2000 2000, bpcon 3            | 3000000 80
ret              | tc 7C, switched, ipb 1001 1001, dab 2000 2000, bpcon 3 | 370007C F0
be 0x40          | tc FE, taken, ipb 1001 1001, dab 2000 2000, bpcon 3    | 38600FE 86
";

/// Where trace enable is clear there is no event, whatever else is set, as all other bits of the process controls that
/// are kept.
const TRACE_ENABLE: &str = "\
mov r4, g6 | pc 0, tc FE                  | none
fmark      | pc 0, tc FE                  | none
fmark      | pc 0, tc 0                   | none
mov r4, g6 | pc 0, tc FE, ipb 1001 0      | none
fmark      | pc 1F2402, tc FE, ipb 1001 0 | none
mov r4, g6 | pc 1F2403, tc FE             | 200FE 2
mov r4, g6 | pc 1F2403, tc 0, ipb 1001 0  | 1000000 80
mov r4, g6 | pc 1, tc 0                   | none
";

/// Flags that were set stay, and neither count nor make an event count.
const FLAGS: &str = "\
mov r4, g6 | tc FFE0000 | none
mark       | tc FFE0000 | none
fmark      | tc FFE0000 | FFE0000 80
mov r4, g6 | tc FFE00FE | FFE00FE 2
mov r4, g6 | tc 8800002 | 8820002 2
mov r4, g6 | tc 1020002 | 1020002 2
b 0x40     | tc 4000004 | 4040004 4
fmark      | tc 100000  | 100000 80
";

const EVENTS: [&str; 8] = [
    ONE_MODE,
    SEVERAL_MODES,
    FORCED_MARKS,
    INSTRUCTION_BREAKPOINTS,
    DATA_BREAKPOINTS,
    BREAKPOINTS_AND_EVENTS,
    TRACE_ENABLE,
    FLAGS,
];

#[test]
fn counts_events(rt: HostRuntime) -> Result<(), Fail> {
    rows_hold(&rt, rt.alloc(), &EVENTS, trace_text)
}

/// Each conditional branch and each compare branch.
const BRANCHES: &str = "\
bno 0x40
bg 0x40
be 0x40
bge 0x40
bl 0x40
bne 0x40
ble 0x40
bo 0x40
bbc r4, g5, 0x40
bbs r4, g5, 0x40
cmpobg r4, g5, 0x40
cmpobe r4, g5, 0x40
cmpobge r4, g5, 0x40
cmpobl r4, g5, 0x40
cmpobne r4, g5, 0x40
cmpoble r4, g5, 0x40
cmpibno r4, g5, 0x40
cmpibg r4, g5, 0x40
cmpibe r4, g5, 0x40
cmpibge r4, g5, 0x40
cmpibl r4, g5, 0x40
cmpibne r4, g5, 0x40
cmpible r4, g5, 0x40
cmpibo r4, g5, 0x40
";

/// The trace by the branch mode where the branch is taken, and where it is not.
fn branch_text(alloc: Global, i: &Inst) -> Result<String, Fail> {
    let taken = trace_text(alloc, i, "tc 4, taken")?;
    let other = trace_text(alloc, i, "tc 4")?;
    Ok(format!(in alloc; "{taken}, {other}")?)
}

#[test]
fn counts_branches_that_are_taken(rt: HostRuntime) -> Result<(), Fail> {
    for statement in BRANCHES.lines() {
        let text = branch_text(rt.alloc(), &instruction(statement)?)?;
        same_at(&rt, text.as_str(), "40004 4, none", statement);
    }
    Ok(())
}
