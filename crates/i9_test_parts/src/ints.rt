//! Interrupts, worked out by hand.
use crate::check::same_at;
use crate::rows::{add, columns, hex_words, named};
use crate::storage::{left, live, put_bytes};
use crate::told::{Told, entry_text, hazard_text, hex_text};
use arrayvec::ArrayVec;
use i9_faults::FaultStop;
use i9_ints::{Cause, Chosen, Ints, clearing_bytes, plan_request};
use i9_memory::Memory;
use i9_watch::Watch;
use std::alloc::Global;
use std::process::Abort;
use std::test::Fail;

/// The interrupt table of most rows.
const TABLE: u32 = 0x4000;

/// The choice of the interrupt that is never masked.
const NMI: Chosen = Chosen {
    vector: 248,
    cause: Cause::Nmi,
};

/// A controller over a memory with an interrupt table, and frames; what was chosen, and where it is entered: PC, and
/// the frame and stack pointers.
#[derive(Drop)]
struct Scene {
    ints: Ints,
    memory: Memory,
    watch: Watch,
    table: u32,
    chosen: Chosen,
    at: (u32, u32, u32),
}

/// Nothing is posted, and no frame was saved. There is room for 36 bytes at the table. Software asks for vector 23
/// while an interrupt is handled.
fn fresh(alloc: Global, table: u32) -> Result<Scene, Fail> {
    let mut memory = Memory::new(alloc);
    memory.reserve(table, 36)?;
    Ok(Scene {
        ints: Ints::new(),
        memory,
        watch: Watch::new(alloc),
        table,
        chosen: soft(23),
        at: (0x0001_2403, 0x3004, 0x3041),
    })
}

/// The choice of a vector that software asks for.
fn soft(vector: u8) -> Chosen {
    Chosen {
        vector,
        cause: Cause::Soft,
    }
}

/// Sets the pending word, the mask word and the map words.
fn controls(ints: &mut Ints, pending: u32, mask: u32, maps: (u32, u32, u32)) {
    ints.set_pending(pending);
    ints.set_mask(mask);
    ints.set_maps([maps.0, 0, 0]);
    ints.set_map(1, maps.1);
    ints.set_map(2, maps.2);
}

/// Changes the controller.
fn posts(ints: &mut Ints, name: &str, numbers: &[u32]) -> Result<(), Fail> {
    match (name, numbers) {
        ("nmi", []) => ints.post_nmi(),
        ("pin", &[k]) if k < 8 => ints.post_pin(k as u8),
        ("dma", &[k]) if k < 4 => ints.post_dma(k as u8),
        ("low", &[k]) if k < 8 => ints.level(k as u8, true),
        ("high", &[k]) if k < 8 => ints.level(k as u8, false),
        ("icon", &[word]) => ints.set_icon(word),
        ("pending", &[word]) => ints.set_pending(word),
        ("mask", &[word]) => ints.set_mask(word),
        ("lines", &[pending, mask, a, b, c]) => controls(ints, pending, mask, (a, b, c)),
        _ => return Err("no such step".into()),
    }
    Ok(())
}

/// Chooses an interrupt, or the place where it is entered.
fn chooses(scene: &mut Scene, name: &str, numbers: &[u32]) -> Result<(), Fail> {
    match (name, numbers) {
        ("chosen_soft", &[vector]) => scene.chosen = soft(u8::try_from(vector)?),
        ("chosen_line", &[k, vector]) => {
            scene.chosen = Chosen {
                vector: u8::try_from(vector)?,
                cause: Cause::Line(u8::try_from(k)?),
            };
        }
        ("chosen_nmi", []) => scene.chosen = NMI,
        ("at", &[pc, fp, sp]) => scene.at = (pc, fp, sp),
        _ => posts(&mut scene.ints, name, numbers)?,
    }
    Ok(())
}

/// Does a step.
fn does(alloc: Global, scene: &mut Scene, step: &str) -> Result<(), Fail> {
    let (name, numbers) = named(step);
    let numbers = hex_words(alloc, numbers)?;
    match (name, numbers.as_slice()) {
        ("", []) => {}
        ("table", &[table]) => *scene = fresh(alloc, table)?,
        ("bytes", [a, bytes @ ..]) => put_bytes(&mut scene.memory, *a, bytes)?,
        ("left", frames) => left(&mut scene.watch, frames)?,
        ("live", frames) => live(&mut scene.watch, frames)?,
        ("wrote", &[a, n]) => scene.watch.wrote(a, n),
        (_, numbers) => chooses(scene, name, numbers)?,
    }
    Ok(())
}

/// The vector that is chosen, and its cause.
fn chosen_text(alloc: Global, chosen: Option<Chosen>) -> Told {
    match chosen {
        Some(c) => Ok(format!(in alloc; "{:X} {:?}", c.vector, c.cause)?),
        None => Ok(format!(in alloc; "none")?),
    }
}

/// What is chosen of what is posted and of what software asks for.
fn choice_text(alloc: Global, scene: &Scene, pc: u32) -> Told {
    let ints = &scene.ints;
    match ints.choose_soft(&scene.memory, &scene.watch, scene.table, pc) {
        Ok(chosen) => chosen_text(alloc, chosen),
        Err(a) => hazard_text(alloc, a),
    }
}

/// The entry of what was chosen, where AC is 8084 and the interrupt stack is at 8008.
fn plan_text(alloc: Global, scene: &Scene) -> Told {
    let (pc, fp, sp) = scene.at;
    let planned = scene.ints.plan_int(
        &scene.memory,
        &scene.watch,
        scene.table,
        0x8008,
        &scene.chosen,
        pc,
        0x8084,
        fp,
        sp,
    );
    entry_text(alloc, planned.map_err(FaultStop::Hazard))
}

/// Bytes behind their addresses.
fn places_text(alloc: Global, bytes: &[(u32, u8)]) -> Told {
    let mut text = String::new(alloc);
    for (a, byte) in bytes {
        add(&mut text, " ", &format!(in alloc; "{a:X} {byte:X}")?)?;
    }
    Ok(text)
}

/// The bytes that clear what was chosen, once it is entered.
#[tactic(auto, using(i9_ints::proofs::AfterRecords::record_free))]
fn cleared(
    memory: &Memory,
    watch: &Watch,
    table: u32,
    chosen: &Chosen,
    (pc, fp, sp): (u32, u32, u32),
) -> Result<ArrayVec<(u32, u8), 2>, Fail> {
    let ints = Ints::new();
    match ints.plan_int(memory, watch, table, 0x8008, chosen, pc, 0x8084, fp, sp) {
        Ok(entry) => Ok(clearing_bytes(memory, table, chosen, &entry)),
        Err(_) => Err("a hazard".into()),
    }
}

/// The bytes that a request of software stores.
fn request_text(alloc: Global, scene: &Scene, vector: u8) -> Told {
    match plan_request(&scene.memory, &scene.watch, scene.table, vector) {
        Ok(bytes) => places_text(alloc, &bytes),
        Err(a) => hazard_text(alloc, a),
    }
}

/// Software asks for a vector.
fn requests(alloc: Global, memory: &mut Memory, watch: &mut Watch, table: u32, vector: u8) -> Told {
    memory.reserve(table, 36)?;
    match Ints::request(memory, watch, table, vector) {
        Ok(()) => Ok(format!(in alloc; "done")?),
        Err(a) => hazard_text(alloc, a),
    }
}

/// Enters an interrupt: plans it, saves the frame, writes the record, and clears what chose it.
fn enter(
    ints: &mut Ints,
    memory: &mut Memory,
    watch: &mut Watch,
    chosen: &Chosen,
) -> Result<(), Fail> {
    match ints.plan_int(memory, watch, TABLE, 0x8000, chosen, 0, 0, 0x3000, 0x3040) {
        Ok(entry) => {
            let record = (entry.push.frame - entry.push.frame % 16).wrapping_sub(16);
            memory.reserve(record, 16)?;
            memory.reserve(TABLE, 36)?;
            watch.reserve(entry.push.save)?;
            watch.called(entry.push.save, 0);
            memory.put_words(record, &entry.words);
            watch.wrote(record, 16);
            ints.take(memory, watch, TABLE, chosen);
            Ok(())
        }
        Err(_) => Err("a hazard".into()),
    }
}

/// The interrupt that is never masked is taken.
fn take_nmi(ints: &mut Ints, memory: &mut Memory, watch: &mut Watch) -> Result<(), Fail> {
    memory.reserve(TABLE, 36)?;
    ints.take(memory, watch, TABLE, &NMI);
    Ok(())
}

/// A pin, which has vector 18, is taken.
fn take_pin(ints: &mut Ints, memory: &mut Memory, watch: &mut Watch, pin: u8) -> Result<(), Fail> {
    let chosen = Chosen {
        vector: 18,
        cause: Cause::Line(pin),
    };
    memory.reserve(TABLE, 36)?;
    ints.take(memory, watch, TABLE, &chosen);
    Ok(())
}

/// Takes an interrupt: one of software is entered first.
fn takes(alloc: Global, scene: &mut Scene, name: &str) -> Told {
    let Scene {
        ints,
        memory,
        watch,
        chosen,
        ..
    } = scene;
    match name {
        "take_nmi" => take_nmi(ints, memory, watch)?,
        "take_pin_0" => take_pin(ints, memory, watch, 0)?,
        "take_pin_2" => take_pin(ints, memory, watch, 2)?,
        "enter" => enter(ints, memory, watch, chosen)?,
        _ => return Err("no such question".into()),
    }
    Ok(format!(in alloc; "taken")?)
}

/// The answer to a question of what software asks for, and of the bytes that have it.
fn request_answer(alloc: Global, scene: &mut Scene, name: &str, numbers: &[u32]) -> Told {
    match (name, numbers) {
        ("plan_request", &[vector]) => request_text(alloc, scene, u8::try_from(vector)?),
        ("request", &[vector]) => {
            let vector = u8::try_from(vector)?;
            let table = scene.table;
            requests(alloc, &mut scene.memory, &mut scene.watch, table, vector)
        }
        ("byte", &[a]) => hex_text(alloc, u32::from(scene.memory.byte(a))),
        _ => takes(alloc, scene, name),
    }
}

/// The answer to a question.
fn answer(alloc: Global, scene: &mut Scene, question: &str) -> Told {
    let (name, numbers) = named(question);
    let numbers = hex_words(alloc, numbers)?;
    match (name, numbers.as_slice()) {
        ("pending", []) => hex_text(alloc, scene.ints.pending()),
        ("mask", []) => hex_text(alloc, scene.ints.mask()),
        ("choose", &[pc]) => chosen_text(alloc, scene.ints.choose(pc)),
        ("choose_soft", &[pc]) => choice_text(alloc, scene, pc),
        ("plan", []) => plan_text(alloc, scene),
        ("cleared", []) => {
            let (table, at) = (scene.table, scene.at);
            let bytes = cleared(&scene.memory, &scene.watch, table, &scene.chosen, at)?;
            places_text(alloc, bytes.as_slice())
        }
        (_, numbers) => request_answer(alloc, scene, name, numbers),
    }
}

/// Does the steps of a row, and answers its questions.
fn told(alloc: Global, scene: &mut Scene, steps: &str, questions: &str) -> Told {
    for step in steps.split(',') {
        does(alloc, scene, step)?;
    }
    let mut text = String::new(alloc);
    for question in questions.split(',') {
        add(&mut text, ", ", &answer(alloc, scene, question)?)?;
    }
    Ok(text)
}

/// Does the rows of tables one after the other, each of which has to be answered as it says.
fn tables_hold(rt: &impl Abort, alloc: Global, tables: &[&str]) -> Result<(), Fail> {
    let mut scene = fresh(alloc, TABLE)?;
    for table in tables {
        for row in table.lines() {
            let (steps, questions, wanted) = columns(row)?;
            let text = told(alloc, &mut scene, steps, questions)?;
            same_at(rt, text.as_str(), wanted, row);
        }
    }
    Ok(())
}

/// What is posted, masked and chosen: the vector and its cause. The interrupt that is never masked comes first.
const LINES: &str = "\
table 4000 | pending, mask | 0, 0
pin 0, pin 7, dma 0, dma 3 | pending, mask | 981, 0
pending FFFFF123, mask FFFFFFFE | pending, mask | 123, FFE | twelve bits are kept
pin 1 | pending | 123
table 4000, lines 1 FFF 1 0 0 | choose 20000 | none | pin 0 has vector 18, of priority 2
table 4000, lines 1 FFF 1 0 0 | choose 10000 | 12 Line(0)
table 4000, lines 1 FFF 1 0 0 | choose FFE1FFFF | 12 Line(0) | the other bits of PC don't count
table 4000, lines 1 FFE 1 0 0 | choose 0 | none | it is masked
table 4000, lines 2 FFF 1 0 0 | choose 0 | none | another pin is posted
table 4000, lines FFF FFF 0 0 0 | choose 0 | none | no vector below 8 is entered
table 4000, lines FFF FFF 1432 5 0 | choose 0 | 52 Line(4) | the greatest vector, and of one vector the lowest line
table 4000, lines FFF FFF 400 0 40 | choose 0 | 42 Line(2)
table 4000, lines FFF FFF 7001 0 0 | choose 0 | 72 Line(3) | fields of the maps, as far as line 11 with vector 242
table 4000, lines FFF FFF 0 7001 0 | choose 0 | 72 Line(7)
table 4000, lines FFF FFF 0 0 1 | choose 0 | 12 Line(8)
table 4000, lines FFF FFF 0 0 FFFFF000 | choose 1D0000 | F2 Line(11)
table 4000, lines FFF FFF 0 0 FFFFF000 | choose 1E0000 | none
table 4000, lines 0 0 FFFF FFFF FFFF, nmi | choose 1F2002 | F8 Nmi
table 4000, lines FFF 0 FFFF FFFF FFFF, nmi | choose 1F2002 | F8 Nmi
table 4000, lines FFF FFF FFFF FFFF FFFF, nmi | choose 1F2002 | F8 Nmi
table 4000, lines FFF FFF 100 0 0, nmi | take_nmi, pending, choose 0 | taken, FFF, 12 Line(2)
 | take_pin_2, pending, choose 0 | taken, FFB, none
";

/// The levels of pins. Bit 2 + x of the control word chooses a falling edge for pin x where it is set, and level
/// detection where it is clear.
const LEVELS: &str = "\
table 4000, low 0 | pending | 1 | each pin by level: its bit stands as long as it is low
high 0, low 1 | pending | 2
high 1, low 2 | pending | 4
high 2, low 3 | pending | 8
high 3, low 4 | pending | 10
high 4, low 5 | pending | 20
high 5, low 6 | pending | 40
high 6, low 7 | pending | 80
high 7 | pending | 0
icon 3FC, low 0, high 0 | pending | 1 | each pin by falling edge: its bit is kept
pending 0, low 1, high 1 | pending | 2
pending 0, low 2, high 2 | pending | 4
pending 0, low 3, high 3 | pending | 8
pending 0, low 4, high 4 | pending | 10
pending 0, low 5, high 5 | pending | 20
pending 0, low 6, high 6 | pending | 40
pending 0, low 7, high 7 | pending | 80
table 4000, icon 154, low 0, low 1, low 2, low 3, low 4, low 5, low 6, low 7 | pending | FF | pins 0, 2, 4, 6 by edge
high 0, high 1, high 2, high 3, high 4, high 5, high 6, high 7 | pending | 55
table 4000, icon FFFFFC03, low 0, low 7 | pending | 81 | the other bits choose nothing
high 0, high 7 | pending | 0
table 4000, icon 4, low 0, pending 0, low 0 | pending | 0 | a pin that is low already has no falling edge
high 0, high 0 | pending | 0 | to go high posts nothing
low 0 | pending | 1
table 4000, low 0, low 0 | pending | 1
high 0, high 0 | pending | 0
pin 0 | pending | 1 | a pin that asks is kept, under level detection too
low 0, high 0 | pending | 1
low 0, pending 0 | pending | 1 | what is written is the kept word
pending FFFFFFFF | pending | FFF
high 0 | pending | FFF
low 1, pending 0 | pending | 2
pending 1 | pending | 3
high 1 | pending | 1
table 4000, lines 0 1 1 0 0, low 0 | choose 10000, choose 20000 | 12 Line(0), none | pin 0 has vector 18, of priority 2
 | take_pin_0, pending, choose 10000 | taken, 1, 12 Line(0) | an entry leaves the level
high 0 | pending, choose 0 | 0, none
table 4000, lines 0 1 1 0 0, icon 4, low 0 | choose 10000, choose 20000 | 12 Line(0), none
 | take_pin_0, pending, choose 0 | taken, 0, none
low 0 | pending, choose 0 | 0, none
table 4000, lines 1 1 1 0 0, low 0 | take_pin_0, pending | taken, 1 | kept and low: the kept bit goes
high 0 | pending | 0
table 4000, lines 0 0 1 0 0, low 0 | choose 0 | none | masked
mask 1 | choose 0 | 12 Line(0) | and not masked any more
mask 0 | choose 0 | none
table 4000, lines 0 3 11 0 0, low 1, low 0 | choose 0 | 12 Line(0) | of one priority the lower pin comes first
high 0 | choose 0 | 12 Line(1)
low 0, high 1 | choose 0 | 12 Line(0)
table 4000, lines 0 FFF 21 0 3, low 0, low 1, dma 0 | choose 0 | 32 Line(8) | a channel has no level
table 4000, icon 4, low 0, pending 0, icon 0 | pending | 1 | by level from now on: it asks at once
icon 4 | pending | 0 | by edge again: no edge
table 4000, low 0, icon 4, high 0 | pending | 0
low 0 | pending | 1
table 4000, lines 0 1 F 0 0, low 0 | choose 1D0000, choose 1E0000 | F2 Line(0), none | the greatest vector of a pin
";

/// What software asks for, in two bytes of the table. Pin 0 has vector 18: of one priority it comes first, whatever
/// vector software asks for. Requests are read where the interrupt that is never masked is posted too.
const CHOICES: &str = "\
table 4000, bytes 4003 80, bytes 4023 4 | choose_soft 1F2002 | \
FA Soft | vector 250 has priority 31: bit 7 of byte 3, and bit 2 of byte 35
table 4000, bytes 4003 40, bytes 4023 4 | choose_soft 0 | none | one of the two bits is not set
table 4000, bytes 4003 80, bytes 4022 4 | choose_soft 0 | none
table 4000, bytes 4000 4, bytes 4006 84 | choose_soft 10000 | \
17 Soft | vectors 18 and 23 have priority 2, and vector 24 has priority 3
table 4000, bytes 4000 4, bytes 4006 4 | choose_soft 10000 | 12 Soft
table 4000, bytes 4000 4, bytes 4006 84 | choose_soft 20000 | none
table 4000, bytes 4000 C, bytes 4007 1 | choose_soft 20000 | 18 Soft
table 4000, bytes 4000 1, bytes 4004 FF | choose_soft 0 | none | priority 0 is never let in
table 4000, lines 1 1 1 0 0, bytes 4000 4, bytes 4006 80 | choose_soft 0 | 12 Line(0)
table 4000, lines 1 1 1 0 0, bytes 4000 2, bytes 4005 80 | choose_soft 0 | 12 Line(0)
table 4000, lines 1 1 1 0 0, bytes 4000 8, bytes 4007 1 | choose_soft 0 | 18 Soft
table 4000, nmi, left 3FC0 | choose_soft 0 | F8 Nmi
table 4000, nmi, left 3FD0 | choose_soft 0 | hazard 4000
table 4000, nmi, left 4020 | choose_soft 0 | hazard 4020
table 4000, nmi, left 4030 | choose_soft 0 | F8 Nmi
";

#[test]
fn chooses_interrupts(rt: HostRuntime) -> Result<(), Fail> {
    tables_hold(&rt, rt.alloc(), &[LINES, CHOICES])
}

// What a low pin asks for, by level and by edge, and what is left of it.
#[test]
fn follows_levels(rt: HostRuntime) -> Result<(), Fail> {
    tables_hold(&rt, rt.alloc(), &[LEVELS])
}

/// Entries, with a handler at 1100, whose word has low bits that don't count: on the stack in use while an interrupt
/// is handled, and else on the interrupt stack. The words of vectors 18, 23 and 248 are at 404C, 4060 and 43E4.
const ENTRIES: &str = "\
table 4000, bytes 4060 3 11 | plan | 1100 22002 saves 3000 3060 3007 30A0 record 12403 8084 17 0
table 4000, bytes 4060 3 11, at 1DFFF 3004 3041 | plan | 1100 22002 saves 3000 8020 3007 8060 record 1DFFF 8084 17 0
table 4000, bytes 404D 11, bytes 43E5 11, chosen_line 0 12, at 0 3004 3041 | plan | \
1100 22002 saves 3000 8020 3007 8060 record 0 8084 12 0
table 4000, bytes 404D 11, bytes 43E5 11, chosen_nmi | plan | \
1100 1F2002 saves 3000 3060 3007 30A0 record 12403 8084 F8 0
table 3FFE, bytes 4004 80, bytes 405F 11, live 3FC0, wrote 3FFE 2, at 12403 3004 4000 | plan | \
1100 22002 saves 3000 4010 3007 4050 record 12403 8084 17 0 | the record is at 4000, and AC at 4004, where the bits of the vectors are
table 4000, bytes 4060 3 11, left 4000, at 12403 3004 4000 | plan | \
1100 22002 saves 3000 4010 3007 4050 record 12403 8084 17 0 | soft bytes under the record are not soft any more
table 4000, bytes 4060 3 11, left 4000, chosen_line 5 17 | plan | \
1100 22002 saves 3000 3060 3007 30A0 record 12403 8084 17 0 | a line reads nothing of the requests
";

/// Hazards in their order, the first ones with everything later. Live bytes that were written to are not soft; the
/// byte of the priority is written where no other vector is left.
const HAZARDS: &str = "\
table 4000, bytes 4060 3 11, left 4060 4000, live 3010 3050 | plan | hazard 4060 | the word of the vector
table 4000, bytes 4060 3 11, left 4000, live 3010 3050 | plan | hazard 3010 | the save area
table 4000, bytes 4060 3 11, left 4000, live 3050 | plan | hazard 3050 | the record
table 4000, bytes 4060 3 11, live 8000, at 0 3004 3041 | plan | hazard 8010
table 4000, bytes 4060 3 11, at 2000 3004 2FF1 | plan | hazard 3000
table 4000, bytes 4060 3 11, at 0 DFFFFFDF 3041 | plan | hazard E0000000 | the same in the port page
table 4000, bytes 4060 3 11, at 2000 3004 DFFFFFF1 | plan | hazard E0000000
table 4000, bytes 4060 3 11, left 4000 | plan | \
hazard 4000 | the byte of the priority, and that of the vectors: they are soft
table 3FFC, bytes 4060 3 11, left 4000 | plan | hazard 4002
table 4000, bytes 4060 3 11, at 0 4000 3041 | plan | hazard 4000 | the entry saves them
table 3FFC, bytes 4060 3 11, at 0 4000 3041 | plan | hazard 4002
table E0000000, bytes 4060 3 11 | plan | hazard E0000000 | they are written in the port page
table DFFFFFFC, bytes 4060 3 11 | plan | hazard E0000002
table 4000, bytes 4006 84, live 4000, wrote 4000 24 | plan | hazard 4006
table 4000, bytes 4006 80, live 4000, wrote 4000 24 | plan | hazard 4000
table 4000, bytes 4006 0, live 4000, wrote 4000 24 | plan | hazard 4000
";

/// Bytes with the bits of requests: those that a request stores, those that are left once it is entered, and those
/// that clear it. Vectors 18 and 23 have priority 2, and another vector has priority 1.
const REQUESTS: &str = "\
table 4000 | plan_request 17, request 17, byte 4000, byte 4006 | 4000 4 4006 80, done, 4, 80
table 4000, bytes 4000 10, bytes 4006 1 | plan_request 17, request 17, byte 4000, byte 4006 | \
4000 14 4006 81, done, 14, 81
table 4000, bytes 4000 4, bytes 4006 80 | plan_request 17, request 17, byte 4000, byte 4006 | \
4000 4 4006 80, done, 4, 80
table 4000 | plan_request FA, request FA, byte 4003, byte 4023 | 4003 80 4023 4, done, 80, 4
table 4000 | plan_request 0, request 0, byte 4000, byte 4004 | \
4000 1 4004 1, done, 1, 1 | sysctl asks for none below 8; here they are vectors as any other
table 4000 | plan_request 7, request 7, byte 4000, byte 4004 | 4000 1 4004 80, done, 1, 80
table 4000 | plan_request 8, request 8, byte 4000, byte 4005 | 4000 2 4005 1, done, 2, 1
table 4000 | plan_request FF, request FF, byte 4003, byte 4023 | 4003 80 4023 80, done, 80, 80
table 4000, left 4000 | request 17, byte 4000 | hazard 4000, 0
table 3FFC, left 4000 | request 17, byte 3FFC | hazard 4002, 0
table 4000, live 4000, wrote 4000 24 | request 17, byte 4000 | \
hazard 4000, 0 | live bytes that were written to are not soft
table 3FFC, live 4000, wrote 4000 24 | request 17, byte 3FFC | hazard 4002, 0
table 3FFC, left 4000, live 3FC0, wrote 3FFC 4 | request 17, byte 3FFC | \
hazard 4002, 0 | the byte of the priority is live, and that of the vectors is soft
table E0000000 | request 17, byte E0000000 | hazard E0000000, 0
table DFFFFFFC | request 17, byte DFFFFFFC | hazard E0000002, 0
table 4000, bytes 4000 6, bytes 4006 84, lines FFF FFF 0 0 0, chosen_soft 17 | enter, byte 4000, byte 4006, pending | \
taken, 6, 4, FFF
table 4000, bytes 4000 6, bytes 4006 84, lines FFF FFF 0 0 0, chosen_soft 12 | enter, byte 4000, byte 4006, pending | \
taken, 6, 80, FFF
table 4000, bytes 4000 6, bytes 4006 80, lines FFF FFF 0 0 0, chosen_soft 17 | enter, byte 4000, byte 4006, pending | \
taken, 2, 0, FFF
table 4000, bytes 4000 4, bytes 4006 4, lines FFF FFF 0 0 0, chosen_soft 12 | enter, byte 4000, byte 4006, pending | \
taken, 0, 0, FFF
table 4000, bytes 4000 6, bytes 4006 84 | cleared | 4006 4
table 4000, bytes 4000 6, bytes 4006 80 | cleared | 4000 2 4006 0
table 3FFE, bytes 3FFE 6, bytes 4004 80, at 12403 3004 4000 | cleared | \
4004 4 | the record at 4000 has AC, 8084, at 4004
table 4000, bytes 4000 6, bytes 4006 80, chosen_line 5 17 | cleared | 
table 4000, bytes 4000 6, bytes 4006 80, chosen_nmi | cleared | 
";

#[test]
fn enters_interrupts(rt: HostRuntime) -> Result<(), Fail> {
    tables_hold(&rt, rt.alloc(), &[ENTRIES, HAZARDS, REQUESTS])
}
