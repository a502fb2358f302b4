//! Entries, worked out by hand.
use crate::check::{same, same_at};
use crate::rows::{hex_words, pair};
use crate::storage::{left, live};
use i9_calls::{
    Push, Sys, enter_here, enter_system, in_supervisor_mode, read_word, record_write_hazard,
    system_switches, trace_enable, without_supervisor,
};
use i9_memory::Memory;
use i9_watch::Watch;
use std::alloc::Global;
use std::test::Fail;

/// A memory with these words.
fn memory(alloc: Global, words: &[(u32, u32)]) -> Result<Memory, Fail> {
    let mut memory = Memory::new(alloc);
    for (a, word) in words {
        memory.reserve(*a, 4)?;
        memory.put_word(*a, *word);
    }
    Ok(memory)
}

/// A watch of frames that were saved at these addresses: the first ones were left again, so that
/// their bytes are soft, and the others are live.
fn watch(alloc: Global, first: &[u32], others: &[u32]) -> Result<Watch, Fail> {
    let mut watch = Watch::new(alloc);
    left(&mut watch, first)?;
    live(&mut watch, others)?;
    Ok(watch)
}

/// The two numbers of a row.
fn two_numbers(alloc: Global, given: &str) -> Result<(u32, u32), Fail> {
    match hex_words(alloc, given)?.as_slice() {
        [n, pc] => Ok((*n, *pc)),
        _ => Err("a row has two numbers".into()),
    }
}

/// What an entry makes: its target and PC, whether stacks are switched, the save area, and the new frame with its pfp
/// and its sp; or the hazard that it meets.
fn entry_text(alloc: Global, planned: Result<Sys, u32>) -> Result<String, Fail> {
    match planned {
        Ok(sys) => {
            let Push {
                save,
                frame,
                pfp,
                sp,
            } = sys.push;
            let push = format!(in alloc; "{save:X} {frame:X} {pfp:X} {sp:X}")?;
            Ok(format!(in alloc; "{:X} {:X} {} {push}", sys.target, sys.pc, sys.switched)?)
        }
        Err(a) => Ok(format!(in alloc; "hazard {a:X}")?),
    }
}

#[test]
fn reads_controls(rt: HostRuntime) {
    let rows = [
        // The last words are those in user mode, with trace enable and without it.
        (0x001F_2403, true, 1, 0x001F_2401, 0x001F_2400),
        (0x0000_0002, true, 0, 0x0000_0001, 0x0000_0000),
        (0x001F_2001, false, 1, 0x001F_2001, 0x001F_2000),
        (0xFFFF_FFFC, false, 0, 0xFFFF_FFFD, 0xFFFF_FFFC),
    ];
    for (pc, is_supervisor, trace, traced, untraced) in rows {
        same(
            &rt,
            (in_supervisor_mode(pc), trace_enable(pc)),
            (is_supervisor, trace),
        );
        let left = [without_supervisor(pc, 1), without_supervisor(pc, 0)];
        same(&rt, left, [traced, untraced]);
    }
}

#[test]
fn reads_words(rt: HostRuntime) -> Result<(), Fail> {
    let memory = memory(
        rt.alloc(),
        &[(0x1000, 0x1234_5678), (0xFFFF_FFFE, 0x9ABC_DEF0)],
    )?;
    let watch = watch(rt.alloc(), &[0x1040], &[0x2000])?;
    let rows = [
        (0x1000, Ok(0x1234_5678)),
        (0x1001, Ok(0x0012_3456)),
        (0xFFFF_FFFE, Ok(0x9ABC_DEF0)),
        (0x103C, Ok(0)),
        // The bytes of a frame that was left are soft as those of a live one are.
        (0x103D, Err(0x1040)),
        (0x107F, Err(0x107F)),
        (0x2004, Err(0x2004)),
    ];
    for (a, wanted) in rows {
        same(&rt, read_word(&memory, &watch, a), wanted);
    }
    Ok(())
}

/// The frame pointer and the base of entries with the return type of an interrupt: from sp, and from the beginning of
/// another stack; the base, and so the new frame, is past the last address, or the new frame alone; the save area may
/// not meet a live frame or the port page.
const ENTRIES: &str = "\
300F 3041     | 1100 1F2401 false 3000 3060 3007 30A0
3000 8000     | 1100 1F2401 false 3000 8010 3007 8050
3000 FFFFFFF1 | 1100 1F2401 false 3000 10 3007 50
3000 FFFFFFE1 | 1100 1F2401 false 3000 0 3007 40
FD8 3040      | hazard 1000
DFFFFFF0 3040 | hazard E0000000
";

/// What such an entry makes.
fn above_text(alloc: Global, watch: &Watch, given: &str) -> Result<String, Fail> {
    let (fp, base) = two_numbers(alloc, given)?;
    let planned = enter_here(watch, 0x1103, 0x001F_2401, fp, base, 16, 7);
    entry_text(alloc, planned)
}

#[test]
fn enters_above_a_record(rt: HostRuntime) -> Result<(), Fail> {
    let watch = watch(rt.alloc(), &[], &[0x1000])?;
    for row in ENTRIES.lines() {
        let (given, wanted) = pair(row)?;
        let text = above_text(rt.alloc(), &watch, given)?;
        same_at(&rt, text.as_str(), wanted, row);
    }
    Ok(())
}

/// A system procedure table at B00 with the entries 0, 5 and 260, and its supervisor stack word: only
/// entry 5 asks for the supervisor stack.
const TABLE: [(u32, u32); 4] = [
    (0xB0C, 0x5013),
    (0xB30, 0x1201),
    (0xB44, 0x1106),
    (0xF40, 0x1300),
];

/// The number and PC, and what a call makes. In user mode entry 5 switches stacks, and its trace enable is that of the
/// stack word; in supervisor mode it does not, and entry 0 never does. Words run on behind the table, and from the last
/// address to 0.
const CALLS: &str = "\
5 1F2000   | 1104 1F2003 true 3000 5010 3003 5050
5 1F2002   | 1104 1F2002 false 3000 3060 3000 30A0
0 1F2000   | 1200 1F2000 false 3000 3060 3000 30A0
104 0      | 1300 0 false 3000 3060 3000 30A0
40000000 0 | 1200 0 false 3000 3060 3000 30A0
";

/// The same of the entry of a fault, which leaves room for a record.
const FAULTS: &str = "\
5 1F2000   | 1104 1F2003 true 3000 5020 3001 5060
5 1F2002   | 1104 1F2002 false 3000 3070 3001 30B0
0 1F2000   | 1200 1F2000 false 3000 3070 3001 30B0
104 0      | 1300 0 false 3000 3070 3001 30B0
40000000 0 | 1200 0 false 3000 3070 3001 30B0
";

#[test]
fn enters_by_the_table(rt: HostRuntime) -> Result<(), Fail> {
    let memory = memory(rt.alloc(), &TABLE)?;
    let watch = watch(rt.alloc(), &[], &[])?;
    for row in CALLS.lines() {
        let (given, wanted) = pair(row)?;
        let (n, pc) = two_numbers(rt.alloc(), given)?;
        let planned = enter_system(&memory, &watch, 0xB00, n, pc, 0x3004, 0x3051, 0, 0, 3);
        same_at(&rt, entry_text(rt.alloc(), planned)?.as_str(), wanted, row);
    }
    for row in FAULTS.lines() {
        let (given, wanted) = pair(row)?;
        let (n, pc) = two_numbers(rt.alloc(), given)?;
        let planned = enter_system(&memory, &watch, 0xB00, n, pc, 0x3004, 0x3051, 16, 1, 1);
        same_at(&rt, entry_text(rt.alloc(), planned)?.as_str(), wanted, row);
    }
    Ok(())
}

/// The frames that were left, the number and PC, and the hazard; a frame is live at 3010. The stack word is not read
/// where stacks are not switched.
const HAZARDS: &str = "\
B40 B00, 5 1F2000 | hazard B44
B00, 5 1F2000     | hazard B0C
B00, 5 1F2002     | hazard 3010
B00, 0 1F2000     | hazard B30
, 5 1F2000        | hazard 3010
";

/// The frames and numbers of a row.
fn scene(alloc: Global, given: &str) -> Result<(Watch, u32, u32), Fail> {
    let (left, numbers) = given.split_once(",").unwrap_or((given, ""));
    let left = hex_words(alloc, left)?;
    let watch = watch(alloc, left.as_slice(), &[0x3010])?;
    let (n, pc) = two_numbers(alloc, numbers)?;
    Ok((watch, n, pc))
}

/// What an entry by the table makes where these frames were left.
fn left_text(alloc: Global, memory: &Memory, given: &str) -> Result<String, Fail> {
    let (watch, n, pc) = scene(alloc, given)?;
    let planned = enter_system(memory, &watch, 0xB00, n, pc, 0x3000, 0x3040, 0, 0, 2);
    entry_text(alloc, planned)
}

#[test]
fn meets_hazards_in_order(rt: HostRuntime) -> Result<(), Fail> {
    let memory = memory(rt.alloc(), &TABLE)?;
    for row in HAZARDS.lines() {
        let (given, wanted) = pair(row)?;
        let text = left_text(rt.alloc(), &memory, given)?;
        same_at(&rt, text.as_str(), wanted, row);
    }
    Ok(())
}

/// The same, and whether stacks are switched: the live frame, over the save area, is not looked at.
const SWITCHES: &str = "\
, 5 1F2000        | true
, 5 1F2002        | false
, 0 1F2000        | false
B40 B00, 5 1F2000 | hazard B44
B00, 5 1F2000     | hazard B0C
B00, 5 1F2002     | false
B00, 0 1F2000     | hazard B30
";

/// Whether an entry by the table switches stacks where these frames were left.
fn switch_text(alloc: Global, memory: &Memory, given: &str) -> Result<String, Fail> {
    let (watch, n, pc) = scene(alloc, given)?;
    match system_switches(memory, &watch, 0xB00, n, pc) {
        Ok(is_switched) => Ok(format!(in alloc; "{is_switched}")?),
        Err(a) => Ok(format!(in alloc; "hazard {a:X}")?),
    }
}

#[test]
fn tells_switches_of_stacks(rt: HostRuntime) -> Result<(), Fail> {
    let memory = memory(rt.alloc(), &TABLE)?;
    for row in SWITCHES.lines() {
        let (given, wanted) = pair(row)?;
        let text = switch_text(rt.alloc(), &memory, given)?;
        same_at(&rt, text.as_str(), wanted, row);
    }
    Ok(())
}

/// The save address and the new frame, and the hazard: over the saved frame and beside it, over the live frame and
/// beside it, and in the port page.
const RECORDS: &str = "\
3000 3050     | none
3000 3000     | none
3000 3010     | 3000
3000 3040     | 3030
FFFFFFE0 20   | 10
FFFFFFE0 30   | none
3000 4000     | none
3000 4010     | 4000
3000 4040     | 4030
3000 4050     | none
3000 E0000000 | none
3000 E0000010 | E0000000
3000 E0001000 | E0000FF0
3000 E0001010 | none
";

/// The hazard of a record below a new frame.
fn record_text(alloc: Global, watch: &Watch, given: &str) -> Result<String, Fail> {
    let (save, frame) = two_numbers(alloc, given)?;
    let push = Push {
        save: save - save % 16,
        frame: frame - frame % 16,
        pfp: save,
        sp: frame,
    };
    match record_write_hazard(watch, push) {
        Some(a) => Ok(format!(in alloc; "{a:X}")?),
        None => Ok(format!(in alloc; "none")?),
    }
}

#[test]
fn finds_records_in_the_way(rt: HostRuntime) -> Result<(), Fail> {
    // The bytes at 3040 are soft, and a frame is live at 4000.
    let watch = watch(rt.alloc(), &[0x3040], &[0x4000])?;
    for row in RECORDS.lines() {
        let (given, wanted) = pair(row)?;
        let text = record_text(rt.alloc(), &watch, given)?;
        same_at(&rt, text.as_str(), wanted, row);
    }
    Ok(())
}
