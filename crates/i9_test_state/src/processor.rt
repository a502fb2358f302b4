//! What a processor answers, in rows that are worked out by hand.
use crate::check::same_at;
use crate::processor_steps::{booted, does, posts};
use crate::rows::{columns, hex_words, named};
use crate::told::{
    Told, add, bytes_text, entry_text, hazard_text, hex_text, number_text, pop_text, push_text,
    sets_text, sys_text, words_text,
};
use arrayvec::ArrayVec;
use i9_faults::Fault;
use i9_model::Tables;
use i9_processor::{Effect, Posting, Processor};
use std::alloc::Global;
use std::test::Fail;

/// What a drained point shows: the count, the controls, and the registers with their marks.
fn view_text(alloc: Global, p: &Processor) -> Told {
    let v = p.view();
    let words = words_text(alloc, &[u32::try_from(v.count)?, v.ip, v.ac, v.pc, v.tc])?;
    let regs = words_text(alloc, &v.regs)?;
    Ok(format!(in alloc; "{words} registers {regs} marks {:X}", v.marks)?)
}

/// The words of the PRCB that the processor goes by, and the number of its sets.
fn tables_text(alloc: Global, t: &Tables) -> Told {
    let memory = [t.fault_table, t.control_table, t.fault_config];
    let words = [t.interrupt_table, t.system_table, t.interrupt_stack];
    let (memory, words) = (words_text(alloc, &memory)?, words_text(alloc, &words)?);
    Ok(format!(in alloc; "{memory} {words} {:X}", t.sets)?)
}

/// The breakpoints, as they stay where an effect leaves them.
#[tactic(auto, unfolding(i9_model::specs::Free::ComesAfterFlush))]
fn breaks_text(alloc: Global, p: &Processor) -> Told {
    let b = p.trace_left(&Effect::going(p, 0)).breaks;
    words_text(alloc, &[b.ipb[0], b.ipb[1], b.dab[0], b.dab[1], b.bpcon])
}

/// The regions that are big-endian.
fn regions_text(alloc: Global, p: &Processor) -> Told {
    let mut text = String::new(alloc);
    for region in 0..16_u8 {
        if p.big(region) {
            add(&mut text, " ", &hex_text(alloc, u32::from(region))?)?;
        }
    }
    Ok(text)
}

/// The word at the instruction address.
fn first_word_text(alloc: Global, p: &Processor) -> Told {
    match p.first_word() {
        Ok(word) => hex_text(alloc, word),
        Err(a) => hazard_text(alloc, a),
    }
}

/// The vector that comes next, where one does.
fn chosen_text(alloc: Global, p: &Processor) -> Told {
    if !p.is_drained() {
        return Err("a request waits".into());
    }
    match p.choose() {
        Ok(chosen) => number_text(alloc, chosen.map(|c| u32::from(c.vector))),
        Err(a) => hazard_text(alloc, a),
    }
}

/// The vectors of lines 0, 4 and 8, the first of each interrupt map, where they can be chosen.
fn vectors_text(alloc: Global, p: &mut Processor) -> Told {
    let mut text = String::new(alloc);
    posts(p, Posting::Mask(0x111))?;
    for pending in [0x001, 0x010, 0x100] {
        posts(p, Posting::Pending(pending))?;
        add(&mut text, " ", &chosen_text(alloc, p)?)?;
    }
    Ok(text)
}

/// The bytes of the next unit of channel 2, of memory or as they are given, and where they go.
fn unit_text(alloc: Global, p: &Processor, given: Option<&[u8]>) -> Told {
    if !p.is_drained() {
        return Err("a request waits".into());
    }
    match p.plan_unit(2, given) {
        Ok(Some(bytes)) => {
            let bytes = bytes_text(alloc, bytes.as_slice())?;
            Ok(format!(in alloc; "{bytes} to {:X}", p.unit_target(2))?)
        }
        Ok(None) => Ok(format!(in alloc; "none")?),
        Err(a) => hazard_text(alloc, a),
    }
}

/// The byte of the console and the word that ends the run, of 1 to 16 that are stored from an address on.
fn port_text(alloc: Global, p: &Processor, address: u32) -> Told {
    let mut effect = Effect::going(p, 0);
    effect.address = address;
    effect.bytes = ArrayVec::from([1, 2, 3, 4, 5, 6, 7, 8, 9, 10, 11, 12, 13, 14, 15, 16]);
    effect.plain = false;
    let byte = number_text(
        alloc,
        effect.console_byte(false).map(|byte| u32::from(byte)),
    )?;
    let word = number_text(alloc, effect.exit_word(p, false))?;
    Ok(format!(in alloc; "{byte} {word}")?)
}

/// Four words as a load finds them.
fn legible_words_text(alloc: Global, p: &Processor, a: u32) -> Told {
    words_text(alloc, &p.legible_words::<4>(a))
}

/// Four words, none of whose bytes is soft.
fn hard_words_text(alloc: Global, p: &Processor, a: u32) -> Told {
    match p.check_read(a, 16) {
        None => words_text(alloc, &p.hard_words::<4>(a)),
        Some(a) => hazard_text(alloc, a),
    }
}

/// A word, none of whose bytes is soft.
fn hard_word_text(alloc: Global, p: &Processor, a: u32) -> Told {
    match p.check_read(a, 4) {
        None => hex_text(alloc, p.hard_word(a)),
        Some(a) => hazard_text(alloc, a),
    }
}

/// The words of the youngest frame that is held.
fn held_text(alloc: Global, p: &Processor) -> Told {
    match p.sets().at(0) {
        Some(frame) => words_text(alloc, &frame.words),
        None => Ok(format!(in alloc; "none")?),
    }
}

/// The answer to a question about a plan, which asks that nothing waits.
fn plan_answer(alloc: Global, p: &Processor, name: &str, numbers: &[u32]) -> Told {
    if !p.is_drained() {
        return Err("a request waits".into());
    }
    match (name, numbers) {
        ("call", []) => match p.plan_call() {
            Ok(push) => push_text(alloc, &push),
            Err(a) => hazard_text(alloc, a),
        },
        ("calls", &[n]) => sys_text(alloc, p.plan_calls(n)),
        ("ret", []) => pop_text(alloc, p.plan_ret()),
        ("fault", &[kind]) => {
            let fault = Fault {
                kind: u8::try_from(kind)?,
                subtype: 4,
                address: 0x1234,
            };
            entry_text(alloc, p.plan_fault(&fault))
        }
        _ => Err("no such question".into()),
    }
}

/// The answer to a question about memory.
fn memory_answer(alloc: Global, p: &Processor, name: &str, numbers: &[u32]) -> Told {
    match (name, numbers) {
        ("byte", &[a]) => hex_text(alloc, u32::from(p.byte(a))),
        ("word", &[a]) => hex_text(alloc, p.word(a)),
        ("hard_word", &[a]) => hard_word_text(alloc, p, a),
        ("hard_words", &[a]) => hard_words_text(alloc, p, a),
        ("stale", &[a, n]) if n <= 16 => hex_text(alloc, u32::from(p.stale(a, n))),
        ("legible_byte", &[a]) => hex_text(alloc, u32::from(p.legible_byte(a))),
        ("legible_half", &[a]) => hex_text(alloc, u32::from(p.legible_half(a))),
        ("legible_word", &[a]) => hex_text(alloc, p.legible_word(a)),
        ("legible_words", &[a]) => legible_words_text(alloc, p, a),
        ("left_word", &[a, k]) if k < 16 => hex_text(alloc, p.left_word(a, k as u8)),
        ("half_bytes", &[a, v]) => bytes_text(alloc, &p.half_bytes(a, u16::try_from(v)?)),
        ("word_bytes", &[a, v]) => bytes_text(alloc, &p.word_bytes(a, v)),
        _ => plan_answer(alloc, p, name, numbers),
    }
}

/// The answer to a question about frames, or about what lands late.
fn frame_answer(alloc: Global, p: &Processor, name: &str, numbers: &[u32]) -> Told {
    match (name, numbers) {
        ("sets", []) => sets_text(alloc, p.sets()),
        ("held", []) => held_text(alloc, p),
        ("sets_at", &[prcb]) => hex_text(alloc, u32::from(p.sets_at(prcb))),
        ("check_read", &[a, n]) => number_text(alloc, p.check_read(a, n)),
        ("check_write", &[a, n]) => number_text(alloc, p.check_write(a, n)),
        ("check_flushed_read", &[a, n]) => number_text(alloc, p.check_flushed_read(a, n)),
        ("overlay", &[a]) => number_text(alloc, p.overlay(a).map(|byte| u32::from(byte))),
        ("raw_register_4", &[turn]) => hex_text(alloc, p.raw_registers(u64::from(turn))[4]),
        ("is_drained", []) => Ok(format!(in alloc; "{}", p.is_drained())?),
        _ => memory_answer(alloc, p, name, numbers),
    }
}

/// The answer to a question about interrupts, DMA or what start-up reads.
fn start_answer(alloc: Global, p: &mut Processor, name: &str, numbers: &[u32]) -> Told {
    match (name, numbers) {
        ("view", []) => view_text(alloc, p),
        ("tables", []) => tables_text(alloc, p.tables()),
        ("breaks", []) => breaks_text(alloc, p),
        ("regions", []) => regions_text(alloc, p),
        ("vectors", []) => vectors_text(alloc, p),
        ("unit", []) => unit_text(alloc, p, None),
        ("unit_given", []) => unit_text(alloc, p, Some(&[1, 2])),
        ("posts_behind_unit", []) => Ok(format!(in alloc; "{}", p.posts_behind_unit(2))?),
        ("port", &[a]) => port_text(alloc, p, a),
        _ => frame_answer(alloc, p, name, numbers),
    }
}

/// The answer to a question.
fn answer(alloc: Global, p: &mut Processor, question: &str) -> Told {
    let (name, numbers) = named(question);
    let numbers = hex_words(alloc, numbers)?;
    match (name, numbers.as_slice()) {
        ("count", []) => hex_text(alloc, u32::try_from(p.count())?),
        ("ip", []) => hex_text(alloc, p.ip()),
        ("first_word", []) => first_word_text(alloc, p),
        ("ac", []) => hex_text(alloc, p.ac()),
        ("pc", []) => hex_text(alloc, p.pc()),
        ("tc", []) => hex_text(alloc, p.tc()),
        ("register", &[r]) => hex_text(alloc, p.register(u8::try_from(r)?)),
        ("marks", []) => hex_text(alloc, p.marks()),
        ("is_marked", &[r]) => Ok(format!(in alloc; "{}", p.is_marked(u8::try_from(r)?))?),
        ("register_above", &[r, k]) => {
            hex_text(alloc, p.register_above(u8::try_from(r)?, u8::try_from(k)?))
        }
        ("special", &[k]) => hex_text(alloc, p.special(u8::try_from(k)?)),
        (_, numbers) => start_answer(alloc, p, name, numbers),
    }
}

/// Does the steps of a row, and answers its questions.
fn answers(alloc: Global, p: &mut Processor, steps: &str, questions: &str) -> Told {
    for step in steps.split(',') {
        does(alloc, p, step)?;
    }
    let mut text = String::new(alloc);
    for question in questions.split(',') {
        add(&mut text, ", ", &answer(alloc, p, question)?)?;
    }
    Ok(text)
}

/// What a processor reads and plans after boot. The first frame is at the interrupt stack rounded up, the port page
/// reads as 0, whatever the image says, and the handler's frame of a fault stands above a record of sixteen bytes. Then
/// which of sixteen bytes reach the console, and which words end the run, where region 14 is little-endian, and where
/// it is not.
const READS: &str = "\
boots 0 | ip, ac, pc, tc, count, sets | 1234, 7, 1F2002, 23400FE, 0, 0 of 7
 | tables | 1100 3000 40000000 4440 5500 7771 7
 | view | 0 1234 7 1F2002 23400FE registers 0 77C0 0 0 0 0 0 0 0 0 0 0 0 0 0 0 0 0 0 0 0 0 0 0 0 0 0 0 0 0 0 7780 marks 0
 | register_above 1F 0, register_above 1 0, register_above 1E 1 | 7780, 77C0, 7780
 | register_above 1F 1, register_above FF FF, register 1F, register 20 | 0, 0, 7780, 0
 | sets_at 2000, sets_at 2100, sets_at 2200, sets_at 2300 | 7, F, 5, 5
 | byte 4000, legible_half 4000, word 4000, hard_word 4000 | 21, 4321, 87654321, 87654321
 | byte 4002, legible_half 4002, word 4002, hard_word 4002 | 65, 8765, 8765, 8765
 | byte 10004000, legible_half 10004000, word 10004000, hard_word 10004000 | 21, 2143, 21436587, 21436587
 | byte E0000008, legible_half E0000008, word E0000008, hard_word E0000008 | 0, 0, 0, 0
 | hard_words 6000, regions | 11 12 13 14, 1
 | half_bytes FFFFFFF 1234, word_bytes FFFFFFF 12345678 | 34 12, 78 56 34 12
 | half_bytes 10000000 1234, word_bytes 10000000 12345678 | 12 34, 12 34 56 78
 | call | saves 7780 77C0 7780 7800
 | calls 5, calls 104 | 1204 1F2002 false saves 7780 77C0 7780 7800, no procedure
 | ret | 0 1F2002 7 false false marks 0
 | fault 2 | 1300 1F2002 saves 7780 77D0 7781 7810 record 1F2002 7 20004 1234
 | fault 3 | dead 1 1118
 | port E0000000, port E0000001, port E0000005 | 1 8070605, none 7060504, none none
 | port DFFFFFF8, port DFFFFFF7, port DFFFFFF0 | 9 100F0E0D, A none, none none
boots 400000 | port E0000000 | 1 5060708
";

/// Stores to the word at the instruction address.
const FETCHES: &str = "\
boots 0 | first_word | 0
stores 4000 1 2 | ip, first_word | 1308, 0
stores 1308 33 44 | ip, first_word | 1308, 4433
stores 130A 55 66 | ip, first_word | 1308, 66554433
stores_marked 1309 77 88 2 | ip, first_word | 1308, hazard 130A | one byte of it is marked
";

/// Frames, and starts anew.
const FRAMES: &str = "\
boots 0, saves 9 | count, ip, register 0, register 1, register 1F | 1, 1300, 7780, 7800, 77C0
 | check_read 777C 8, check_write 77BE 4, check_flushed_read 7780 40 | 7780, 77BE, none | soft, live and held
 | word 7788, left_word 7780 2 | 9, 9
 | overlay 7788, overlay 4000, overlay E0000008 | 9, 21, 0
 | sets, held | 1 of 7 7780, 0 77C0 9 0 0 0 0 0 0 0 0 0 0 0 0 0
returns 7780 | register 1, register 2, register 1F, count | 77C0, 9, 7780, 2 | its locals are there again
 | check_read 777C 8, check_write 77BE 4, check_flushed_read 7780 40 | 7780, none, 7780 | its bytes stay soft
 | overlay 7780, sets | none, 0 of 7
stores 7780 7 8 | check_read 777C 40, overlay 7781, overlay 7782 | 7782, 8, none | until they are stored to
saves 5, flushes | check_read 7780 40, overlay 7788, sets, ip | none, 5, 0 of 7, 1304 | live frames go to memory
boots 0, sets 5 6 7 8, saves 9, restarts 1403 2100 | tables | 1500 6000 40000001 4450 5600 8881 F
 | view | 3 1400 9105 1F2002 FFE00FE registers 0 88D0 0 0 0 0 0 0 0 0 0 0 0 0 0 0 5 6 7 8 0 0 0 0 0 0 0 0 0 0 0 8890 marks 0
 | breaks, regions | 11 12 13 14 31, 2 | the globals stay
 | sets, check_read 7780 40, word 7788 | 0 of F, none, 9 | the frame that was held is in memory
 | vectors | 12 22 32 | the interrupt maps are 21, 22 and 23
";

/// Groups of the control table that are loaded, each behind stores of two bytes at two of its places. Then units of two
/// bytes, of which three are left, with an interrupt at the end; a register whose value lands at turn 5, and a store
/// that lands at turn 6.
const CHANGES: &str = "\
boots 0, stores 3000 11 12, stores 300C 13 14, loads 0 | breaks, tc, regions | 1211 0 0 1413 5, 23400FE, 1
 | ip, count, sets, vectors | 1310, 3, 0 of 7, none none none
boots 0, stores 3014 21 22, stores 3018 23 24, loads 1 | breaks, tc, regions | 0 0 0 0 5, 23400FE, 1
 | ip, count, sets, vectors | 1310, 3, 0 of 7, none 12 32
boots 0, stores 3026 0 0, stores 302E 40 0, loads 2 | breaks, tc, regions | 0 0 0 0 5, 23400FE, 3
 | ip, count, sets, vectors | 1310, 3, 0 of 7, none none none
boots 0, stores 3032 40 0, stores 303E 40 0, loads 3 | breaks, tc, regions | 0 0 0 0 5, 23400FE, 1 4 7
 | ip, count, sets, vectors | 1310, 3, 0 of 7, none none none
boots 0, stores 3046 40 0, stores 304E 40 0, loads 4 | breaks, tc, regions | 0 0 0 0 5, 23400FE, 1 9 B
 | ip, count, sets, vectors | 1310, 3, 0 of 7, none none none
boots 0, stores 3052 40 0, stores 305A 40 0, loads 5 | breaks, tc, regions | 0 0 0 0 5, 23400FE, 1 C E
 | ip, count, sets, vectors | 1310, 3, 0 of 7, none none none
boots 0, stores 3064 77 22, stores 306A FF FF, loads 6 | breaks, tc, regions | 0 0 0 0 2277, FFE00FE, 1
 | ip, count, sets, vectors | 1310, 3, 0 of 7, none none none
boots 0, sets_up 41 3 4001 5000 | unit | none
commands 1F4 | special 2, unit_given, unit, posts_behind_unit | F4, none, 43 65 to 5000, false
passes | unit, posts_behind_unit | 87 to 5002, true
passes | unit, special 2 | none, F0
saves 9, sets_up 41 3 4001 77BF, commands 4 | is_drained, unit | true, hazard 77BF | it is written to a live frame
posts_dma_0 | special 0 | 100 | line 8
boots 0, sets_late 7, stores_late 4001 8, lands 0 | register 4, byte 4001, raw_register_4 0, is_drained | 7, 8, 0, false
lands 4 | register 4, byte 4001, raw_register_4 4, is_drained | 7, 8, 0, false | what is read is the same
lands 5 | register 4, byte 4001, raw_register_4 5, is_drained | 7, 8, 7, false
lands 6 | register 4, byte 4001, raw_register_4 6, is_drained | 7, 8, 7, true
";

/// Marks of registers that are set, of a frame that is saved and returned to, and of bytes that are stored, which a
/// load finds as 0. A push by a marked stack pointer or frame pointer is refused, but a dead entry comes before that.
const MARKS: &str = "\
boots 0, sets_marked 5 | marks, is_marked 10, is_marked 11, is_marked 12, is_marked 20 | 50000, true, false, true, false
sets 5 6 7 8 | marks | 0
boots 0, sets_one 5 77 1, sets_one 6 78 0 | marks, register 5 | 20, 77
saves 9 | marks, overlay 7794, overlay 7797, overlay 7798 | 0, none, none, 78
returns_marked 7780 20 | marks, register 5, register 6 | 20, 77, 78
saves 9, flushes | marks, word 7794, legible_word 7794, overlay 7794 | 0, 77, 0, none
sets_one 5 77 1, sets_marked 5, restarts 1403 2100 | marks, register 10 | 50000, 1 | the globals keep theirs
boots 0, stores_marked 4000 11 22 1 | stale 4000 4, stale 3FFF 2, word 4000 | 1, 2, 87652211
 | legible_byte 4000, legible_half 4000, legible_word 4000, left_word 4000 0 | 0, 2200, 87652200, 87652200
 | legible_words 3FFC, hard_word 4000 | 0 87652200 0 0, hazard 4000
stores 4000 33 44 | stale 4000 4, legible_word 4000 | 0, 87654433
boots 0, sets_one 1 77C0 1 | call, calls 5, calls 104 | hazard 130C, hazard 130C, no procedure
 | fault 2, fault 3 | hazard 130C, dead 1 1118
sets_one 1 77C0 0, sets_one 1F 7780 1 | call, calls 5, fault 2 | hazard 130C, hazard 130C, hazard 130C
sets_one 1F 7780 0 | call | saves 7780 77C0 7780 7800
";

#[test]
fn answers_rows(rt: HostRuntime) -> Result<(), Fail> {
    let mut p = booted(rt.alloc(), 0)?;
    for table in [READS, FETCHES, FRAMES, MARKS, CHANGES] {
        for row in table.lines() {
            let (steps, questions, wanted) = columns(row)?;
            // The steps of each row are done to a copy of what the rows before it left.
            p = p.copy(rt.alloc())?;
            let told = answers(rt.alloc(), &mut p, steps, questions)?;
            same_at(&rt, told.as_str(), wanted, row);
        }
    }
    Ok(())
}
