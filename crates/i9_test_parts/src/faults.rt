//! Entries of faults, worked out by hand.
use crate::rows::{hex_words, named, rows_hold};
use crate::storage::{left, live, put_words};
use crate::told::{Told, entry_text};
use i9_faults::{Fault, fault_switches, plan_fault};
use i9_memory::Memory;
use i9_watch::Watch;
use std::alloc::Global;
use std::test::Fail;

/// Where a fault is entered: memory and frames, the fault, the fault table, the system procedure table, and registers.
#[derive(Drop)]
struct Scene {
    memory: Memory,
    watch: Watch,
    fault: Fault,
    table: u32,
    system: u32,
    pc: u32,
    fp: u32,
    sp: u32,
}

/// A division by 0 at 1000 in supervisor mode, with nothing in memory; its entry is at 918.
fn division(alloc: Global) -> Scene {
    Scene {
        memory: Memory::new(alloc),
        watch: Watch::new(alloc),
        fault: Fault {
            kind: 3,
            subtype: 2,
            address: 0x1000,
        },
        table: 0x900,
        system: 0xB00,
        pc: 0x001F_2002,
        fp: 0x3000,
        sp: 0x3040,
    }
}

/// Words of memory, from an address on each.
fn remembers(alloc: Global, scene: &mut Scene, words: &str) -> Result<(), Fail> {
    for run in words.split(',') {
        match hex_words(alloc, run)?.as_slice() {
            [address, words @ ..] => put_words(&mut scene.memory, *address, words)?,
            _ => return Err("no address".into()),
        }
    }
    Ok(())
}

/// Sets a table or a register.
fn sets(scene: &mut Scene, name: &str, value: u32) -> Result<(), Fail> {
    match name {
        "table" => scene.table = value,
        "system" => scene.system = value,
        "pc" => scene.pc = value,
        "fp" => scene.fp = value,
        "sp" => scene.sp = value,
        _ => return Err("no such register".into()),
    }
    Ok(())
}

/// Changes what a scene has.
fn changes(alloc: Global, scene: &mut Scene, change: &str) -> Result<(), Fail> {
    let (name, numbers) = named(change);
    let numbers = hex_words(alloc, numbers)?;
    match (name, numbers.as_slice()) {
        ("", []) => {}
        ("left", frames) => left(&mut scene.watch, frames)?,
        ("live", frames) => live(&mut scene.watch, frames)?,
        ("fault", &[kind, subtype, address]) => {
            scene.fault = Fault {
                kind: u8::try_from(kind)?,
                subtype: u16::try_from(subtype)?,
                address,
            };
        }
        (_, &[value]) => sets(scene, name, value)?,
        _ => return Err("no such change".into()),
    }
    Ok(())
}

/// The scene of a row.
fn scene_of(alloc: Global, words: &str, scene_text: &str) -> Result<Scene, Fail> {
    let mut scene = division(alloc);
    remembers(alloc, &mut scene, words)?;
    for change in scene_text.split(',') {
        changes(alloc, &mut scene, change)?;
    }
    Ok(scene)
}

/// What the entry of the fault makes in the scene of a row, where AC is 8000.
fn told(alloc: Global, words: &str, scene_text: &str) -> Told {
    let scene = scene_of(alloc, words, scene_text)?;
    let planned = plan_fault(
        &scene.memory,
        &scene.watch,
        scene.table,
        scene.system,
        &scene.fault,
        scene.pc,
        0x8000,
        scene.fp,
        scene.sp,
    );
    entry_text(alloc, planned)
}

/// Words of memory, what else there is than the division, and its entry: the target and PC, the frames, and the
/// record, of PC, AC, the type with the subtype, and the address. Frames that are left have soft bytes. System
/// procedure 5 has its word at B44, and 259 at F3C.
const ENTRIES: &str = "\
918 1100 FFFFFFFF |      | 1100 1F2002 saves 3000 3050 3001 3090 record 1F2002 8000 30002 1000
918 1100 FFFFFFFF | fp 300F, sp 3041, pc 1F2401 | 1100 1F2000 saves 3000 3060 3001 30A0 \
record 1F2401 8000 30002 1000 | addresses are rounded, and trace enable and bit 10 are cleared, in user mode too
918 1100 FFFFFFFF | pc FFFFFFFF | 1100 FFFFFBFE saves 3000 3050 3001 3090 record FFFFFFFF 8000 30002 1000
918 16 27F, B44 1200 | pc 1 | 1200 0 saves 3000 3050 3001 3090 record 1 8000 30002 1000 | it asks for no other stack
918 16 27F, B44 1202, B0C 5007 | pc 403 | 1200 2 saves 3000 3050 3001 3090 \
record 403 8000 30002 1000 | it asks for one, with supervisor mode on already
918 16 27F, B44 1202, B0C 5007 | pc 400 | 1200 2 saves 3000 5020 3001 5060 \
record 400 8000 30002 1000 | the same in user mode: the stack is at 5004, and its trace enable does not come
918 40E 27F, F3C 1203 |  | 1200 1F2002 saves 3000 3050 3001 3090 record 1F2002 8000 30002 1000
938 1100  | fault 7 2 1004 | 1100 1F2002 saves 3000 3050 3001 3090 record 1F2002 8000 70002 1004
908 1100  | fault 1 82 FFFFFFFC | 1100 1F2002 saves 3000 3050 3001 3090 record 1F2002 8000 10082 FFFFFFFC
10F8 1100 | fault FF FFFF 0 | 1100 1F2002 saves 3000 3050 3001 3090 record 1F2002 8000 FFFFFF 0
918 1101 27F     | fp E0000000 | dead 1 918 | words are read before the save area in the port page counts
918 1103 27F     | fp E0000000 | dead 1 918
918 1103 27E     | fp E0000000 | dead 1 918
918 6 27E        | fp E0000000 | dead 2 91C
918 6 1027F      | fp E0000000 | dead 2 91C
918 412 27F      | fp E0000000 | dead 3 918
918 FFFFFFFE 27F | fp E0000000 | dead 3 918
918 412 0        | fp E0000000 | dead 2 91C
";

/// Hazards in their order: where there is a next one, all that could be a hazard later is one. System procedure 5 asks
/// for the supervisor stack at 5008, whose word is at B0C.
const HAZARDS: &str = "\
918 16 27F, B44 1202, B0C 5008 | pc 1F2000, left 8E0 B40 B00, live 3020 5010 | hazard 918
91C 1101 | table 904, left 920 | hazard 920 | of its entry only the second word is soft, and the first is dead
918 16 27F, B44 1202, B0C 5008 | pc 1F2000, left B40 B00, live 3020 5010 | hazard B44
918 16 27F, B44 1202, B0C 5008 | pc 1F2000, left B00, live 3020 5010 | hazard B0C
918 16 27F, B44 1202, B0C 5008 | pc 1F2000, live 3020 5010 | hazard 3020
918 16 27F, B44 1202, B0C 5008 | pc 2, left B00, live 3020 5010 | hazard 3020 | the stack word is not read
918 16 27F, B44 1202, B0C 5008 | pc 1F2000, live 5010 | hazard 5010
918 1100 | fp DFFFFFDF | hazard E0000000 | the save area in the port page
918 1100 | fp E0000FFF | hazard E0000FF0
918 1100 | live 3040 | hazard 3040 | the record over the first bytes of a live frame, and over its last
918 1100 | live 4000, sp 4021 | hazard 4030
918 1100 | sp 2FF1 | hazard 3000 | the record over the frame that is saved by the entry itself
918 1100 | sp 3021 | hazard 3030
918 16 27F, B44 1202, B0C 5008 | pc 1F2000, fp 5000 | hazard 5010
918 1100 | sp 3010, live 2FC0 3040 | hazard 3010 | over both
918 1100 | sp DFFFFFF1 | hazard E0000000 | the record in the port page
918 1100 | sp E0000FF0 | hazard E0000FF0
";

/// Entries that meet no hazard, and what runs on from the last address to 0.
const EDGES: &str = "\
918 1100 | left 3000 3040 | 1100 1F2002 saves 3000 3050 3001 3090 \
record 1F2002 8000 30002 1000 | soft bytes are written to as others are
918 1100 | live 2FC0 3050 | 1100 1F2002 saves 3000 3050 3001 3090 \
record 1F2002 8000 30002 1000 | beside live frames, and beside the one that is saved
918 1100 | sp 2FE1 | 1100 1F2002 saves 3000 3000 3001 3040 record 1F2002 8000 30002 1000
918 1100 | sp E0000FF1 | 1100 1F2002 saves 3000 E0001010 3001 E0001050 record 1F2002 8000 30002 1000
918 1100 | sp FFFFFFF1 | 1100 1F2002 saves 3000 10 3001 50 record 1F2002 8000 30002 1000 | the base and the new frame
918 1100 | sp FFFFFFE5 | 1100 1F2002 saves 3000 0 3001 40 record 1F2002 8000 30002 1000 | the new frame alone
918 1100 | fp FFFFFFE0, sp 10 | hazard 10 | the save area, which the record meets at its end
918 1100 | fp FFFFFFE0, sp 11 | 1100 1F2002 saves FFFFFFE0 30 FFFFFFE1 70 record 1F2002 8000 30002 1000 | or not
8 1100   | table FFFFFFF0 | 1100 1F2002 saves 3000 3050 3001 3090 record 1F2002 8000 30002 1000 | the fault table
FFFFFFFC 16 | table FFFFFFE4 | dead 2 0 | the entry in it
918 12 27F, 0 1200 | system FFFFFFC0 | 1200 1F2002 saves 3000 3050 3001 3090 record 1F2002 8000 30002 1000
";

/// Whether stacks are switched, or what stops an entry before its push: neither the save area nor the record is looked
/// at.
const SWITCHES: &str = "\
918 1100 FFFFFFFF                        | fp E0000000                      | false
918 16 27F, B44 1200                     | pc 1                             | false
918 16 27F, B44 1202, B0C 5008           | pc 1F2000, live 3020 5010        | true
918 16 27F, B44 1202, B0C 5008           | pc 2, left B00                   | false
918 16 27F, B44 1202, B0C 5008           | pc 1F2000, left B00              | hazard B0C
918 16 27F, B44 1202, B0C 5008           | pc 1F2000, left B40 B00          | hazard B44
918 16 27F, B44 1202, B0C 5008           | pc 1F2000, left 8E0 B40 B00      | hazard 918
91C 1101                                 | table 904, left 920              | hazard 920
918 1101 27F                             | fp E0000000                      | dead 1 918
918 6 27E                                | fp E0000000                      | dead 2 91C
918 412 27F                              | fp E0000000                      | dead 3 918
";

/// Whether the entry of the fault switches stacks in the scene of a row.
fn switch_told(alloc: Global, words: &str, scene_text: &str) -> Told {
    let scene = scene_of(alloc, words, scene_text)?;
    let (memory, watch) = (&scene.memory, &scene.watch);
    match fault_switches(
        memory,
        watch,
        scene.table,
        scene.system,
        &scene.fault,
        scene.pc,
    ) {
        Ok(is_switched) => Ok(format!(in alloc; "{is_switched}")?),
        Err(stop) => entry_text(alloc, Err(stop)),
    }
}

#[test]
fn tells_switches_of_stacks(rt: HostRuntime) -> Result<(), Fail> {
    rows_hold(&rt, rt.alloc(), &[SWITCHES], switch_told)
}

#[test]
fn enters_handlers(rt: HostRuntime) -> Result<(), Fail> {
    rows_hold(&rt, rt.alloc(), &[ENTRIES, HAZARDS, EDGES], told)
}
