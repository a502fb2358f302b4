//! Calls and returns, worked out by hand.
use crate::check::same_at;
use crate::rows::{add, columns, hex_words, named};
use crate::storage::{left, live, put_bytes, put_words, save};
use crate::told::{Told, call_text, pop_text, sys_text};
use i9_calls::{Pop, Sys, plan_call, plan_calls, plan_ret};
use i9_memory::Memory;
use i9_watch::Watch;
use std::alloc::Global;
use std::process::Abort;
use std::test::Fail;

/// Bit 22 of a configuration word, which makes its region big-endian.
const BIG_ENDIAN: u32 = 0x0040_0000;

/// A memory and frames.
#[derive(Drop)]
struct Scene {
    memory: Memory,
    watch: Watch,
}

/// A memory of which region 1 is big-endian, without frames.
fn fresh(alloc: Global) -> Scene {
    let mut memory = Memory::new(alloc);
    memory.configure(1, BIG_ENDIAN);
    Scene {
        memory,
        watch: Watch::new(alloc),
    }
}

/// The entries 0, 5 and 259 of a system procedure table at B00, and its supervisor stack word: only the second entry
/// and the third ask for the supervisor stack.
fn put_table(memory: &mut Memory, stack: u32) -> Result<(), Fail> {
    put_words(memory, 0xB0C, &[stack])?;
    put_words(memory, 0xB30, &[0x1201])?;
    put_words(memory, 0xB44, &[0x1106])?;
    put_words(memory, 0xF3C, &[0x1102])
}

/// Does a step.
fn does(alloc: Global, scene: &mut Scene, step: &str) -> Result<(), Fail> {
    let (name, numbers) = named(step);
    let numbers = hex_words(alloc, numbers)?;
    match (name, numbers.as_slice()) {
        ("", []) => {}
        ("fresh", []) => *scene = fresh(alloc),
        ("table", &[stack]) => {
            *scene = fresh(alloc);
            put_table(&mut scene.memory, stack)?;
        }
        ("words", [a, words @ ..]) => put_words(&mut scene.memory, *a, words)?,
        ("bytes", [a, bytes @ ..]) => put_bytes(&mut scene.memory, *a, bytes)?,
        ("unsaved", []) => scene.watch = Watch::new(alloc),
        ("live", frames) => live(&mut scene.watch, frames)?,
        ("left", frames) => left(&mut scene.watch, frames)?,
        ("marked", &[fp, marks]) => save(&mut scene.watch, fp, u16::try_from(marks)?)?,
        ("wrote", &[a, n]) => scene.watch.wrote(a, n),
        _ => return Err("no such step".into()),
    }
    Ok(())
}

/// Returns as it is planned, if there is no hazard.
fn return_by(memory: &Memory, watch: &mut Watch, pfp: u32, fp: u32, pc: u32) -> Result<Pop, u32> {
    let pop = plan_ret(memory, watch, pfp, fp, pc, 0)?;
    if pop.live {
        let _ = watch.returned();
    }
    Ok(pop)
}

/// Calls system procedure `n` of the table at B00.
fn call(memory: &Memory, watch: &mut Watch, n: u32, pc: u32, fp: u32) -> Result<Sys, Fail> {
    match plan_calls(memory, watch, 0xB00, n, pc, fp, fp.wrapping_add(64)) {
        Ok(sys) => {
            watch.reserve(sys.push.save)?;
            watch.called(sys.push.save, 0);
            Ok(sys)
        }
        Err(_) => Err("refused".into()),
    }
}

/// The answer to a question: what is planned, or what is done by `enter` and `return`.
fn answer(alloc: Global, scene: &mut Scene, question: &str) -> Told {
    let (name, numbers) = named(question);
    let numbers = hex_words(alloc, numbers)?;
    let Scene { memory, watch } = scene;
    match (name, numbers.as_slice()) {
        ("call", &[fp, sp]) => call_text(alloc, plan_call(watch, fp, sp)),
        ("calls", &[table, n, pc, fp, sp]) => {
            sys_text(alloc, plan_calls(memory, watch, table, n, pc, fp, sp))
        }
        ("ret", &[pfp, fp, pc, ac]) => pop_text(alloc, plan_ret(memory, watch, pfp, fp, pc, ac)),
        ("enter", &[n, pc, fp]) => sys_text(alloc, Ok(call(memory, watch, n, pc, fp)?)),
        ("return", &[pfp, fp, pc]) => pop_text(alloc, return_by(memory, watch, pfp, fp, pc)),
        _ => Err("no such question".into()),
    }
}

/// Does the steps of a row, and answers its questions.
fn told(alloc: Global, scene: &mut Scene, steps: &str, questions: &str) -> Told {
    for step in steps.split(',') {
        does(alloc, scene, step)?;
    }
    let mut text = String::new(alloc);
    for question in questions.split(',') {
        add(&mut text, ", ", &answer(alloc, scene, question)?)?;
    }
    Ok(text)
}

/// Does the rows of tables one after the other, each of which has to be answered as it says.
fn tables_hold(rt: &impl Abort, alloc: Global, tables: &[&str]) -> Result<(), Fail> {
    let mut scene = fresh(alloc);
    for table in tables {
        for row in table.lines() {
            let (steps, questions, wanted) = columns(row)?;
            let text = told(alloc, &mut scene, steps, questions)?;
            same_at(rt, text.as_str(), wanted, row);
        }
    }
    Ok(())
}

/// Calls to addresses, and system calls. In user mode stacks are switched, and the return type keeps the old trace
/// enable. The low two bits of the stack word are no address, and its lowest is the new trace enable.
const CALLS: &str = "\
fresh, live 1000 | call 3000 3040 | saves 3000 3040 3000 3080 | the new frame is above sp, on the next multiple of 16
 | call 300F 3051 | saves 3000 3060 3000 30A0
 | call 3000 FFFFFFF1 | saves 3000 0 3000 40
 | call 1000 3040 | hazard 1000 | the save area may not meet a live frame or the port page
 | call FC1 3040 | saves FC0 3040 FC0 3080
 | call FD1 3040 | hazard 1000
 | call DFFFFFF0 3040 | hazard E0000000
table 5013 | calls B00 5 1F2000 3004 3051 | 1104 1F2003 true saves 3000 5010 3002 5050
table 5013 | calls B00 5 1F2001 3004 3051 | 1104 1F2003 true saves 3000 5010 3003 5050
table 5012 | calls B00 5 1F2000 3004 3051 | 1104 1F2002 true saves 3000 5010 3002 5050
table 5006 | calls B00 5 1F2001 3004 3051 | 1104 1F2002 true saves 3000 5010 3003 5050
table FFFFFFF8 | calls B00 5 0 3004 3051 | 1104 2 true saves 3000 0 3002 40
table 5013 | calls B00 0 1F2001 3004 3051 | \
1200 1F2001 false saves 3000 3060 3000 30A0 | the entry does not ask for it, or supervisor mode is on already
table 5013 | calls B00 0 1F2002 3004 3051 | 1200 1F2002 false saves 3000 3060 3000 30A0
table 5013 | calls B00 5 1F2003 3004 3051 | 1104 1F2003 false saves 3000 3060 3000 30A0
table 5013 | calls B00 103 1F2002 3004 3051 | \
1100 1F2002 false saves 3000 3060 3000 30A0 | the last procedure, and none behind it
table 5013 | calls B00 104 1F2002 3004 3051 | no procedure
table 5013 | calls B00 FFFFFFFF 1F2000 3004 3051 | no procedure
fresh, words FFFFFFFC 5001, words 20 1102, bytes 1000000E 60 1, bytes 10000032 13 2 | calls FFFFFFF0 0 0 3000 3040 | \
1100 3 true saves 3000 5000 3002 5040 | words run on from the last address to 0
 | calls 10000000 0 0 3000 3040 | 1300 3 true saves 3000 6000 3002 6040 | in region 1 their highest byte is the first
";

/// System calls and returns that are refused.
const REFUSED: &str = "\
fresh, words B0C 5013, words 36 1102, words B44 1106, words F3C 1102, live B00 B40 | calls B00 5 1F2000 B10 3040 | \
hazard B44 | the entry, then the stack word, then the save area
unsaved, live B00 | calls B00 5 1F2000 B10 3040 | hazard B0C
unsaved, live 3000 | calls B00 5 1F2000 301F 3040 | hazard 3010
unsaved, live B00 | calls B00 5 1F2002 B10 3040 | hazard B10 | the stack word is not read in supervisor mode
unsaved, live B00 | calls B00 0 1F2002 B10 3040 | hazard B30
unsaved, live B40 | calls AFA 5 1F2000 3000 3040 | hazard B40 | of a word the least soft byte counts
unsaved, live FFFFFFC0 | calls FFFFFFF2 5 1F2000 3000 3040 | hazard FFFFFFFE
unsaved | calls B00 5 1F2000 DFFFFFD8 3040 | hazard E0000000
unsaved, live B00 B40 | calls B00 104 1F2000 B10 3040 | no procedure | the number comes before all
fresh, words 5040 ABCDEF12 1234567D, live 5040, wrote 5040 0 | ret 3001 5050 1F2002 0 | \
hazard 5040 | the record comes before the frame, for types 001 and 111 alone
unsaved, live 5040, wrote 5040 4 | ret 3007 5050 1F2002 0 | hazard 5044
unsaved, live 5040, wrote 5040 6 | ret 3001 5050 1F2002 0 | hazard 5046
unsaved, live 5040, wrote 5040 8 | ret 3001 5050 1F2002 0 | hazard 3000
unsaved, live 5040, wrote 5040 0 | ret 3002 5050 1F2002 0 | hazard 3000
unsaved, live 5040, wrote 5040 0 | ret 3000 5050 1F2002 0 | hazard 3000
unsaved, live 3000 4000, wrote 5040 0 | ret 3000 5050 1F2002 0 | \
hazard 3000 | only the youngest live frame is returned to
unsaved, wrote 5040 0 | ret DFFFFFD0 5050 1F2002 0 | hazard E0000000 | no frame may lie in the port page
unsaved, wrote 5040 0 | ret E0000FF0 5050 1F2002 0 | hazard E0000FF0
";

/// Returns to frames with marked words, and to frames that were left: of these only the return address has to be known.
const MARKED: &str = "\
fresh, marked 3000 8013 | ret 3000 5050 1F2002 0 | 3000 1F2002 0 true false marks 8013
, live 4000 | ret 4000 5050 1F2002 0 | 4000 1F2002 0 true false | the marks of an older frame stay its own
unsaved, left 3000 | ret 3000 5050 1F2002 0 | hazard 3008
, wrote 3008 3 | ret 3000 5050 1F2002 0 | hazard 300B
, wrote 300B 1 | ret 3000 5050 1F2002 0 | 3000 1F2002 0 false false marks FFFB
, wrote 3000 3B | ret 3000 5050 1F2002 0 | 3000 1F2002 0 false false marks C000 | a word with a soft byte is marked
, wrote 303B 5 | ret 3000 5050 1F2002 0 | 3000 1F2002 0 false false
";

#[test]
fn plans_calls(rt: HostRuntime) -> Result<(), Fail> {
    tables_hold(&rt, rt.alloc(), &[CALLS, REFUSED, MARKED])
}

/// Returns of each type, in supervisor mode and in user mode. Bits in PC and AC of the record that are not kept don't
/// count, nor do the low four bits of fp and bit 3 of pfp. A record below 0 is at the end of memory. At the end
/// system calls are returned from: the procedure is traced, by bit 0 of the stack word, and a call from it stays on
/// its stack.
const RETURNS: &str = "\
fresh, words 5040 ABCDEF12 1234567D | ret 3008 505B 1F2003 8001, ret 3008 505B 1F2001 8001 | \
3000 1F2003 8001 false false, 3000 1F2001 8001 false false
 | ret 3009 505B 1F2003 8001, ret 3009 505B 1F2001 8001 | 3000 D2402 1005 false false, 3000 1F2001 1005 false false
 | ret 300A 505B 1F2003 8001, ret 300A 505B 1F2001 8001 | 3000 1F2000 8001 false false, 3000 1F2001 8001 false false
 | ret 300B 505B 1F2002 8001, ret 300B 505B 1F2000 8001 | 3000 1F2001 8001 false false, 3000 1F2000 8001 false false
 | ret 300C 505B 1F2003 8001, ret 300C 505B 1F2001 8001 | 3000 1F2003 8001 false false, 3000 1F2001 8001 false false
 | ret 300D 505B 1F2003 8001, ret 300D 505B 1F2001 8001 | 3000 1F2003 8001 false false, 3000 1F2001 8001 false false
 | ret 300E 505B 1F2003 8001, ret 300E 505B 1F2001 8001 | 3000 1F2003 8001 false false, 3000 1F2001 8001 false false
 | ret 300F 505B 1F2003 8001, ret 300F 505B 1F2001 8001 | 3000 D2402 1005 false true, 3000 1F2001 1005 false true
live 4000 3000 | ret 3008 5050 1F2003 8001, ret 3008 5050 1F2001 8001 | \
3000 1F2003 8001 true false, 3000 1F2001 8001 true false
 | ret 3009 5050 1F2003 8001, ret 3009 5050 1F2001 8001 | 3000 D2402 1005 true false, 3000 1F2001 1005 true false
 | ret 300A 5050 1F2003 8001, ret 300A 5050 1F2001 8001 | 3000 1F2000 8001 true false, 3000 1F2001 8001 true false
 | ret 300B 5050 1F2002 8001, ret 300B 5050 1F2000 8001 | 3000 1F2001 8001 true false, 3000 1F2000 8001 true false
 | ret 300C 5050 1F2003 8001, ret 300C 5050 1F2001 8001 | 3000 1F2003 8001 true false, 3000 1F2001 8001 true false
 | ret 300D 5050 1F2003 8001, ret 300D 5050 1F2001 8001 | 3000 1F2003 8001 true false, 3000 1F2001 8001 true false
 | ret 300E 5050 1F2003 8001, ret 300E 5050 1F2001 8001 | 3000 1F2003 8001 true false, 3000 1F2001 8001 true false
 | ret 300F 5050 1F2003 8001, ret 300F 5050 1F2001 8001 | 3000 D2402 1005 true true, 3000 1F2001 1005 true true
fresh, words FFFFFFF0 2000 8002, live 3000 | return 3001 F 2, return 3001 F 2 | 3000 2000 8002 true false, hazard 3008
wrote 3000 40 | return 3001 F 2 | 3000 2000 8002 false false | the return address is known once it is stored
table 5001 | enter 5 1F2000 3000, enter 103 1F2003 5000 | \
1104 1F2003 true saves 3000 5000 3002 5040, 1100 1F2003 false saves 5000 5040 5000 5080
 | return 5000 5040 1F2003, return 3002 5000 1F2003 | 5000 1F2003 0 true false, 3000 1F2000 0 true false
 | enter 5 1F2001 3000, enter 103 1F2003 5000 | \
1104 1F2003 true saves 3000 5000 3003 5040, 1100 1F2003 false saves 5000 5040 5000 5080
 | return 5000 5040 1F2003, return 3003 5000 1F2003 | 5000 1F2003 0 true false, 3000 1F2001 0 true false
";

#[test]
fn returns(rt: HostRuntime) -> Result<(), Fail> {
    tables_hold(&rt, rt.alloc(), &[RETURNS])
}
