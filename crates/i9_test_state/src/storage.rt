//! What storage answers, in rows that are worked out by hand.
use crate::check::same_at;
use crate::rows::{columns, hex_words, named};
use crate::storage_steps::{does, drained, with_waiting};
use crate::told::{
    Told, add, entry_text, hazard_text, hex_text, pop_text, sets_text, switch_text, sys_text,
    words_text,
};
use i9_faults::{Fault, FaultStop};
use i9_ints::{Chosen, Ints};
use i9_model::{Cause, Setup};
use i9_storage::Storage;
use std::alloc::Global;
use std::test::Fail;

/// A division by zero.
const DIVISION: Fault = Fault {
    kind: 3,
    subtype: 2,
    address: 0x1000,
};

/// Vector 23, which software asks for.
const SOFT: Chosen = Chosen {
    vector: 23,
    cause: Cause::Soft,
};

/// A word; where none of its bytes is soft it is read as such too, and is the same.
fn word_text(alloc: Global, storage: &Storage, a: u32) -> Told {
    let word = storage.word(a);
    let hard = match storage.watch().check_read(a, 4) {
        None => storage.hard_word(a),
        Some(_) => word,
    };
    if hard != word {
        return Err("a hard word is another one".into());
    }
    hex_text(alloc, word)
}

/// The word that is kept of an address.
fn kept_text(alloc: Global, storage: &Storage, a: u32) -> Told {
    match storage.kept_word(a) {
        Some(word) => hex_text(alloc, word),
        None => Ok(format!(in alloc; "none")?),
    }
}

/// Four words as a load finds them.
fn legible_words_text(alloc: Global, storage: &Storage, a: u32) -> Told {
    words_text(alloc, &storage.legible_words::<4>(a))
}

/// Four words, none of whose bytes is soft.
fn hard_words_text(alloc: Global, storage: &Storage, a: u32) -> Told {
    match storage.watch().check_read(a, 16) {
        None => words_text(alloc, &storage.hard_words::<4>(a)),
        Some(a) => hazard_text(alloc, a),
    }
}

/// The vector that is chosen, and its cause.
fn chosen_text(alloc: Global, chosen: Result<Option<Chosen>, u32>) -> Told {
    match chosen {
        Ok(Some(c)) => Ok(format!(in alloc; "{:X} {:?}", c.vector, c.cause)?),
        Ok(None) => Ok(format!(in alloc; "none")?),
        Err(a) => hazard_text(alloc, a),
    }
}

/// Bytes behind their addresses.
fn places_text(alloc: Global, bytes: &[(u32, u8)]) -> Told {
    let mut text = String::new(alloc);
    for (a, byte) in bytes {
        add(&mut text, " ", &format!(in alloc; "{a:X} {byte:02X}")?)?;
    }
    Ok(text)
}

/// The bytes of the priority and of the vectors that a request of software stores.
fn request_text(alloc: Global, planned: Result<[(u32, u8); 2], u32>) -> Told {
    match planned {
        Ok(bytes) => places_text(alloc, &bytes),
        Err(a) => hazard_text(alloc, a),
    }
}

/// The bytes that clear what chose an interrupt, once it is entered by the interrupt table at 6000.
fn clearing_text(alloc: Global, storage: &Storage, c: &Chosen) -> Told {
    drained(storage)?;
    match storage.plan_interrupt(&Ints::new(), 0x6000, 0x8008, c, 0, 0, 0x3000, 0x3040) {
        Ok(entry) => {
            let bytes = storage.clearing_bytes(0x6000, c, &entry);
            places_text(alloc, bytes.as_slice())
        }
        Err(a) => hazard_text(alloc, a),
    }
}

/// The answer to a question about the frames of calls, returns and faults.
fn call_answer(alloc: Global, storage: &Storage, name: &str, numbers: &[u32]) -> Told {
    drained(storage)?;
    match (name, numbers) {
        ("calls", &[table, n, pc, fp, sp]) => {
            sys_text(alloc, storage.plan_calls(table, n, pc, fp, sp))
        }
        ("call_switches", &[table, n, pc]) => match storage.system_switches(table, n, pc) {
            Ok(is_switched) => switch_text(alloc, is_switched),
            Err(a) => hazard_text(alloc, a),
        },
        ("fault_switches", &[table, system, pc]) => {
            match storage.fault_switches(table, system, &DIVISION, pc) {
                Ok(is_switched) => switch_text(alloc, is_switched),
                Err(stop) => entry_text(alloc, Err(stop)),
            }
        }
        ("ret", &[pfp, fp, pc, ac]) => pop_text(alloc, storage.plan_ret(pfp, fp, pc, ac)),
        ("fault", &[table, system, pc, ac, fp, sp]) => {
            let planned = storage.plan_fault(table, system, &DIVISION, pc, ac, fp, sp);
            entry_text(alloc, planned)
        }
        _ => Err("no such question".into()),
    }
}

/// The answer to a question about interrupts.
fn interrupt_answer(alloc: Global, storage: &Storage, name: &str, numbers: &[u32]) -> Told {
    drained(storage)?;
    let ints = Ints::new();
    match (name, numbers) {
        ("choose", &[table, pc]) => chosen_text(alloc, storage.choose_soft(&ints, table, pc)),
        ("request", &[table, v]) => {
            request_text(alloc, storage.plan_request(table, u8::try_from(v)?))
        }
        ("interrupt", &[table, stack, pc, ac, fp, sp]) => {
            let planned = storage.plan_interrupt(&ints, table, stack, &SOFT, pc, ac, fp, sp);
            entry_text(alloc, planned.map_err(FaultStop::Hazard))
        }
        ("clearing_soft", []) => clearing_text(alloc, storage, &SOFT),
        ("clearing_line_5", []) => {
            let cause = Cause::Line(5);
            clearing_text(alloc, storage, &Chosen { cause, ..SOFT })
        }
        _ => call_answer(alloc, storage, name, numbers),
    }
}

/// A group of a control table, behind a flush.
fn group_text(alloc: Global, storage: &mut Storage, table: u32, n: u8) -> Told {
    if n > 6 {
        return Err("no such group".into());
    }
    drained(storage)?;
    storage.flush();
    match storage.control_group(table, n) {
        Ok(words) => words_text(alloc, &words),
        Err(a) => hazard_text(alloc, a),
    }
}

/// What start-up reads: the first address, the words of the PRCB and the number of sets, and those of the control
/// table.
fn setup_text(alloc: Global, s: &Setup) -> Told {
    let memory = words_text(alloc, &[s.first, s.fault_table, s.control_table, s.ac])?;
    let words = [s.fault_config, s.interrupt_table, s.system_table];
    let words = words_text(alloc, &words)?;
    let control = words_text(alloc, &s.control)?;
    Ok(format!(in alloc;
        "{memory} {words} {:X} {:X} control {control}",
        s.interrupt_stack, s.sets
    )?)
}

/// A start anew, behind a flush.
fn reinit_text(alloc: Global, storage: &mut Storage, first: u32, prcb: u32) -> Told {
    drained(storage)?;
    storage.flush();
    match storage.reinit(first, prcb) {
        Ok(setup) => setup_text(alloc, &setup),
        Err(a) => hazard_text(alloc, a),
    }
}

/// The answer to a question about memory.
fn memory_answer(alloc: Global, storage: &Storage, name: &str, numbers: &[u32]) -> Told {
    match (name, numbers) {
        ("byte", &[a]) => hex_text(alloc, u32::from(storage.byte(a))),
        ("word", &[a]) => word_text(alloc, storage, a),
        ("kept", &[a]) => kept_text(alloc, storage, a),
        ("hard_words", &[a]) => hard_words_text(alloc, storage, a),
        ("legible_byte", &[a]) => hex_text(alloc, u32::from(storage.legible_byte(a))),
        ("legible_half", &[a]) => hex_text(alloc, u32::from(storage.legible_half(a))),
        ("legible_word", &[a]) => hex_text(alloc, storage.legible_word(a)),
        ("legible_words", &[a]) => legible_words_text(alloc, storage, a),
        ("left_words", &[a]) => words_text(alloc, &storage.left_words(a)),
        ("left_word", &[a, k]) if k < 16 => hex_text(alloc, storage.left_word(a, k as u8)),
        ("acted_byte", &[a]) => hex_text(alloc, u32::from(storage.acted_byte(a))),
        _ => interrupt_answer(alloc, storage, name, numbers),
    }
}

/// The answer to a question.
fn answer(alloc: Global, storage: &mut Storage, question: &str) -> Told {
    let (name, numbers) = named(question);
    let numbers = hex_words(alloc, numbers)?;
    match (name, numbers.as_slice()) {
        ("sets", []) => sets_text(alloc, storage.sets()),
        ("is_drained", []) => Ok(format!(in alloc; "{}", storage.is_drained())?),
        ("soft", &[a]) => Ok(format!(in alloc; "{}", storage.watch().soft(a))?),
        ("lost", &[a]) => Ok(format!(in alloc; "{}", storage.watch().live_mark(a))?),
        ("big", &[region]) if region < 16 => {
            Ok(format!(in alloc; "{}", storage.big(region as u8))?)
        }
        ("group", &[table, n]) => group_text(alloc, storage, table, u8::try_from(n)?),
        ("reinit", &[first, prcb]) => reinit_text(alloc, storage, first, prcb),
        (_, numbers) => memory_answer(alloc, storage, name, numbers),
    }
}

/// Does the steps of a row, and answers its questions.
fn answers(alloc: Global, storage: &mut Storage, steps: &str, questions: &str) -> Told {
    for step in steps.split(',') {
        does(alloc, storage, step)?;
    }
    let mut text = String::new(alloc);
    for question in questions.split(',') {
        add(&mut text, ", ", &answer(alloc, storage, question)?)?;
    }
    Ok(text)
}

/// Frames that are saved, held, spilled, flushed and returned to.
const FRAMES: &str = "\
zeros, save 1000 100, save 1040 200 | sets | 2 of 2 1040 1000
save 1080 300 | sets | 2 of 2 1080 1040 | the oldest of three goes to memory
 | word 1000, word 103C, word 1040, byte 1085 | 100, 10F, 200, 3
 | left_words 1080 | 300 301 302 303 304 305 306 307 308 309 30A 30B 30C 30D 30E 30F | the youngest
 | left_words 1000 | 100 101 102 103 104 105 106 107 108 109 10A 10B 10C 10D 10E 10F | in memory
 | left_words 1020 | 108 109 10A 10B 10C 10D 10E 10F 200 201 202 203 204 205 206 207 | in part
 | left_word 1080 2, left_word 1000 F | 302, 10F
 | word 107E | 3000000 | the last two bytes of a frame, and the first two of the next
return | sets, word 1080, soft 1080 | 1 of 2 1040, 0, true | memory never gets it
return | word 1040 | 0
return | sets, word 1000, left_word 1000 2, soft 1000 | 0 of 2, 100, 0, true
 | left_words 1000 | 0 0 0 0 0 0 0 0 0 0 0 0 0 0 0 0 | where none is live, as a load
zeros, save 1000 100, save 1040 200, save 1080 300, return, flush | sets | 0 of 2 | two are written
 | word 1000, word 107C, word 1080, soft 1000, soft 1080 | 100, 20F, 0, false, true
zeros, save 1000 100, flush, save 1000 200 | word 1004 | 201 | it hides what memory has there
return | word 1004 | 101
zeros, save 1000 100, restart 1 | sets, word 1000, soft 1000 | 0 of 1, 100, false
save 1000 200, save 1040 300 | sets, word 1000 | 1 of 1 1040, 200 | other sets take over
return | word 1040, word 1000 | 0, 200
";

/// Stores beside the frames, whose bytes are soft no more, and region 1, which is big-endian, of memory and of frames.
const STORES: &str = "\
zeros, save 1000 100, return, save 1040 200, store_word 103C 12345678 | soft 103B, soft 103C | true, false
 | legible_half 103E | 1234
 | word 103E | 2001234 | the last two bytes of the word, and the first two of the frame
 | legible_word 103E | 1234 | a load does not see these
store_word E0000010 12345678 | word E0000010 | 0
zeros, store_word 10000000 12345678, store_half 10000004 9ABC | hard_words 10000000 | 12345678 9ABC0000 0 0
 | hard_words FFFFFF8 | 0 0 12345678 9ABC0000
 | byte 10000000, byte 10000005, legible_half 10000002, word 10000002 | 12, BC, 5678, 56789ABC
store_half 20000004 9ABC | byte 20000005 | 9A
save 10000040 1020304 | byte 10000040, byte 10000047 | 1, 5
 | left_word 10000040 1, word 1000007C | 1020305, 1020313
save FFFFFFE0 100 | byte FFFFFFFC, word 0, word FFFFFFFE | 7, 108, 1080000 | it runs on to 0
waiting, land 4, land 5, land 6, land 7, land 8, land 9, flush | word 103E, acted_byte 1041 | 2001433, 2
";

/// Marks of words 3 and 8 of a frame, and of bytes that are stored. A flush leaves marked bytes soft, and a load finds
/// 0 there.
const MARKS: &str = "\
zeros, save_marked 1000 100 | lost 100B, lost 100C, lost 1023, lost 1024 | false, true, true, false
 | left_words 1000 | 100 101 102 103 104 105 106 107 108 109 10A 10B 10C 10D 10E 10F | it is live
flush | lost 100C, soft 100B, soft 100C, soft 1023, soft 1024 | false, false, true, true, false
 | legible_byte 1008, legible_byte 100C, legible_half 1008, legible_word 100C, word 100C | 2, 0, 102, 0, 103
 | legible_words 1004 | 101 102 0 104
 | left_words 1000 | 100 101 102 0 104 105 106 107 0 109 10A 10B 10C 10D 10E 10F
 | left_word 1000 3, left_word 1000 4 | 0, 104
zeros, store_marked 2000 12345678 6 | soft 2000, soft 2001, soft 2002, soft 2003 | false, true, true, false
 | legible_word 2000, word 2000 | 12000078, 12345678
store_half 2001 ABCD | soft 2001, legible_word 2000 | false, 12ABCD78 | it is stored to again
marked_waiting | soft 2000, soft 2001, legible_word 2000, word 2000 | false, true, 14000011, 14131211
";

/// Words that are kept, each at the place of its address, until one of their bytes is stored to: by a store, one that
/// waits or one that runs on to 0, by a save, or where the order of their region may change. Nothing else drops them.
const KEPT: &str = "\
zeros, store_word 1000 12345678, keep 1000 | kept 1000, kept 1004 | 12345678, none
store_word 1004 1, keep 1004, store_word FF8 2 | kept 1000, kept 1004 | 12345678, 1
store_half 1002 ABCD | kept 1000, kept 1004 | none, 1 | two of its bytes
store_half FFF 9876 | kept 1000, kept 1004 | none, 1
keep 1000 | kept 1000 | ABCD5698
store_word FFE 0, keep FFC | kept FFC, kept 1000, kept 1004 | 0, none, 1 | the last two bytes are in the next word
store_word 1400 5, keep 1000, keep 1400 | kept 1400, kept 1000 | 5, none | both have one place
keep 1002, keep 1401 | kept 1002, kept 1401 | none, none | no word of an instruction
save 1400 100 | kept 1400, kept 1004 | none, 1
keep 1404 | kept 1404 | none | only the save wrote it
flush, keep 1404, keep 1440 | kept 1404, kept 1440 | 101, 0
save 1440 200, return | kept 1404, kept 1440 | 101, none | a return drops none, and a save those that it writes
store_word FFFFFFFC 12345678, store_word 0 9, keep FFFFFFFC, keep 0 | kept FFFFFFFC, kept 0 | 12345678, 9
store_word FFFFFFFE ABCDEF12 | kept FFFFFFFC, kept 0 | none, none
keep FFFFFFFC, keep 0 | kept FFFFFFFC, kept 0 | EF125678, ABCD
store_word 20000000 12345678, keep 20000000, configure 2 400000 0 | kept 20000000 | none
keep 20000000 | kept 20000000 | 78563412
waiting, keep 1038, keep 103C | kept 103C, kept 1040 | 14331211, none | after all that waits
land 5, land 6, land 9 | kept 103C, kept 1038 | 14331211, 0
tables, keep 2000 | kept 2000, reinit 1236 2000, kept 2000 | 1110, 1236 1110 3000 7 40000000 4440 5550 7770 7 \
control A0 A1 A2 A3 0 0 0 0 0 0 400000 0 0 0 0 0 0 0 0 0 0 0 0 0 0 0 0 C3, none
";

/// Calls, faults and returns beside a frame that is held at 4040 and one that was spilled at 4000: a hazard is in one
/// of them. The record gives back PC and AC; then only the youngest frame is returned to.
const PLANS: &str = "\
entries, save 4000 100, save 4040 200 | calls B00 5 1F2000 3004 3051 | 1104 1F2003 true saves 3000 5010 3002 5050
 | calls 4000 5 1F2000 3004 3051, calls 3FC0 5 1F2000 3004 3051 | hazard 4044, hazard 4004
 | fault 900 B00 1F2002 8000 3000 3040 | 1100 1F2002 saves 3000 3050 3001 3090 record 1F2002 8000 30002 1000
 | call_switches B00 5 1F2000, call_switches B00 5 1F2002, call_switches 4000 5 1F2000 | true, false, hazard 4044
 | fault_switches 900 B00 1F2002, fault_switches 4000 B00 1F2002 | false, hazard 4018
 | ret 4041 5050 1F2003 8001, ret 4001 5050 1F2003 8001 | 4040 D2402 1005 true false marks 0, hazard 4000
requests, save 4000 100, save 4040 200 | choose 6000 10000, choose 6000 20000 | 17 Soft, none
 | choose 4040 0, choose 3FE0 0 | hazard 4040, hazard 4000
 | request 6000 10, request 6000 FA | 6000 06 6006 85, 6003 80 6023 04
 | request 4040 10, request 3FFC 10 | hazard 4040, hazard 4002
 | interrupt 6000 8008 12403 8084 3004 3041 | 1100 22002 saves 3000 3060 3007 30A0 record 12403 8084 17 0
 | interrupt 3FE0 8008 12403 8084 3004 3041, interrupt 3FA0 8008 12403 8084 3004 3041 | hazard 4040, hazard 4000
 | clearing_line_5 |  | a line asks in no table
 | clearing_soft | 6006 04 | of both vectors 18 is left
tables, save 3040 100, return, save 1000 100, flush | group 3000 2, group 3000 4 | 0 0 400000 0, hazard 3040
configure 3 400000 0 | big 1, big 2, big 3, big 4 | true, false, true, false
 | reinit 1236 2000, big 1, big 2, big 3, big 4 | hazard 3040, true, false, true, false
tables, save 1000 100, flush | reinit 1236 2000 | 1236 1110 3000 7 40000000 4440 5550 7770 7 \
control A0 A1 A2 A3 0 0 0 0 0 0 400000 0 0 0 0 0 0 0 0 0 0 0 0 0 0 0 0 C3
 | big 1, big 2, big 3, big 4, word 1000, soft 1000 | false, true, false, false, 100, false
";

#[test]
fn answers_rows(rt: HostRuntime) -> Result<(), Fail> {
    let mut storage = with_waiting(rt.alloc())?;
    for table in [FRAMES, STORES, MARKS, KEPT, PLANS] {
        for row in table.lines() {
            let (steps, questions, wanted) = columns(row)?;
            let told = answers(rt.alloc(), &mut storage, steps, questions)?;
            same_at(&rt, told.as_str(), wanted, row);
        }
    }
    Ok(())
}

/// What is read over what waits, at each turn.
const READS: &str = "\
 | byte 103C, byte 103D, byte 103E, byte 103F | 11, 12, 33, 14
 | legible_half 103C, legible_half 103D, word 103C, left_word 103C 0 | 1211, 3312, 14331211, 14331211
 | legible_half 103F, word 103E | 14, 2001433 | the last two bytes that wait, and the first two of the frame
 | left_words 1040 | 200 201 202 203 204 205 206 207 208 209 20A 20B 20C 20D 20E 20F
 | byte 10000001, legible_half 10000000, word 10000000 | 22, 2122, 21220000
 | hard_words 1030 | 0 0 0 14331211
 | hard_words FFFFFFC | 0 21220000 0 0
 | soft 103F, soft 1040, sets | false, true, 1 of 2 1040
";

/// How many of these rows are answered as they should be.
fn answered(alloc: Global, storage: &mut Storage) -> Result<usize, Fail> {
    let mut count = 0usize;
    for row in READS.lines() {
        let (steps, questions, wanted) = columns(row)?;
        if answers(alloc, storage, steps, questions)?.as_str() == wanted {
            count = count.saturating_add(1);
        }
    }
    Ok(count)
}

/// What is in memory before any turn, and at each one.
const TURNS: &str = "\
       | acted_byte 103C, acted_byte 103E, acted_byte 10000001, is_drained | 1, 3, 0, false
land 4 | acted_byte 103C, acted_byte 103E, acted_byte 10000001, is_drained | 1, 3, 0, false
land 5 | acted_byte 103C, acted_byte 103E, acted_byte 10000001, is_drained | 11, 13, 0, false
land 6 | acted_byte 103C, acted_byte 103E, acted_byte 10000001, is_drained | 11, 13, 0, false
land 7 | acted_byte 103C, acted_byte 103E, acted_byte 10000001, is_drained | 11, 13, 22, false
land 8 | acted_byte 103C, acted_byte 103E, acted_byte 10000001, is_drained | 11, 13, 22, false
land 9 | acted_byte 103C, acted_byte 103E, acted_byte 10000001, is_drained | 11, 33, 22, true
";

#[test]
fn reads_over_what_waits(rt: HostRuntime) -> Result<(), Fail> {
    let mut storage = with_waiting(rt.alloc())?;
    for row in TURNS.lines() {
        let (steps, questions, wanted) = columns(row)?;
        // Each turn is landed in a copy of what the turns before it left.
        storage = storage.copy(rt.alloc())?;
        let told = answers(rt.alloc(), &mut storage, steps, questions)?;
        same_at(&rt, told.as_str(), wanted, row);
        same_at(&rt, answered(rt.alloc(), &mut storage)?, 8, row);
    }
    Ok(())
}
