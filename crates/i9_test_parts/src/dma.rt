//! DMA, worked out by hand.
use crate::check::same_at;
use crate::rows::{add, columns, hex_words, named};
use crate::storage::{left, live};
use crate::told::{Told, bytes_text, hazard_text, hex_text, truth_text, words_text};
use i9_dma::{Channels, Unit};
use i9_memory::Memory;
use i9_model::dma::CHANNELS;
use i9_watch::Watch;
use std::alloc::Global;
use std::process::Abort;
use std::test::Fail;

/// The channel whose units move.
const CHANNEL: u8 = 2;

/// The command word that enables that channel alone.
const ENABLED: u32 = 4;

/// Bit 22 of a configuration word, which makes its region big-endian.
const BIG_ENDIAN: u32 = 0x0040_0000;

/// The bytes from 1 on.
const COUNTING: [u8; 24] = [
    1, 2, 3, 4, 5, 6, 7, 8, 9, 10, 11, 12, 13, 14, 15, 16, 17, 18, 19, 20, 21, 22, 23, 24,
];

/// Channels over a memory and frames.
#[derive(Drop)]
struct Scene {
    channels: Channels,
    memory: Memory,
    watch: Watch,
}

/// A memory of which region 1 is big-endian, without frames, and channels that are not set up.
fn fresh(alloc: Global) -> Scene {
    let mut memory = Memory::new(alloc);
    memory.configure(1, BIG_ENDIAN);
    Scene {
        channels: Channels::new(),
        memory,
        watch: Watch::new(alloc),
    }
}

/// The bytes of numbers.
fn bytes_of(alloc: Global, numbers: &[u32]) -> Result<Vec<u8>, Fail> {
    let mut bytes = Vec::new(alloc);
    for number in numbers {
        bytes.push(u8::try_from(*number)?)?;
    }
    Ok(bytes)
}

/// Sets up a channel with a control word, a count, a source and a target.
fn sets_up(
    channels: &mut Channels,
    c: u8,
    (control, count, source, target): (u32, u32, u32, u32),
) -> Result<(), Fail> {
    if c >= CHANNELS {
        return Err("no such channel".into());
    }
    channels.setup(c, control, count, source, target);
    Ok(())
}

/// Does a step.
fn does(alloc: Global, scene: &mut Scene, step: &str) -> Result<(), Fail> {
    let (name, numbers) = named(step);
    let numbers = hex_words(alloc, numbers)?;
    match (name, numbers.as_slice()) {
        ("", []) => {}
        ("fresh", []) => *scene = fresh(alloc),
        ("fresh", &[a]) => {
            *scene = fresh(alloc);
            scene.memory.load(a, &COUNTING)?;
        }
        ("left", frames) => left(&mut scene.watch, frames)?,
        ("live", frames) => live(&mut scene.watch, frames)?,
        ("command", &[word]) => scene.channels.set_dmac(word),
        ("enabled", &[control, count, source, target]) => {
            let words = (control, count, source, target);
            sets_up(&mut scene.channels, CHANNEL, words)?;
            scene.channels.set_dmac(ENABLED);
        }
        ("setup", &[c, control, count, source, target]) => {
            let words = (control, count, source, target);
            sets_up(&mut scene.channels, u8::try_from(c)?, words)?;
        }
        _ => return Err("no such step".into()),
    }
    Ok(())
}

/// What comes of a unit.
fn unit_text(alloc: Global, unit: Unit) -> Told {
    match unit {
        Unit::Idle => Ok(format!(in alloc; "idle")?),
        Unit::Moved => Ok(format!(in alloc; "moved")?),
        Unit::Ended => Ok(format!(in alloc; "ended")?),
        Unit::Hazard(a) => hazard_text(alloc, a),
    }
}

/// Moves a unit, for whose target room is made.
fn step(
    channels: &mut Channels,
    memory: &mut Memory,
    watch: &mut Watch,
    given: Option<&[u8]>,
) -> Result<Unit, Fail> {
    let (target, length) = channels.target(CHANNEL);
    memory.reserve(target, length)?;
    Ok(channels.unit(memory, watch, CHANNEL, given))
}

/// Moves a unit, and tells what comes of it.
fn moves(alloc: Global, scene: &mut Scene, given: Option<&[u8]>) -> Told {
    let Scene {
        channels,
        memory,
        watch,
    } = scene;
    unit_text(alloc, step(channels, memory, watch, given)?)
}

/// The bytes of a unit that is planned.
fn plan_text(alloc: Global, scene: &Scene, given: Option<&[u8]>) -> Told {
    let channels = &scene.channels;
    match channels.plan_unit(&scene.memory, &scene.watch, CHANNEL, given) {
        Ok(Some(bytes)) => bytes_text(alloc, bytes.as_slice()),
        Ok(None) => Ok(format!(in alloc; "none")?),
        Err(a) => hazard_text(alloc, a),
    }
}

/// So many bytes of memory from an address on.
fn memory_text(alloc: Global, memory: &Memory, a: u32, n: u32) -> Told {
    let mut text = String::new(alloc);
    for k in 0..n {
        let byte = memory.byte(a.wrapping_add(k));
        add(&mut text, " ", &hex_text(alloc, u32::from(byte))?)?;
    }
    Ok(text)
}

/// Whether memory has the bytes from 1 on at an address.
fn counts(memory: &Memory, a: u32) -> bool {
    let mut at = a;
    for byte in COUNTING {
        if memory.byte(at) != byte {
            return false;
        }
        at = at.wrapping_add(1);
    }
    true
}

/// The answer to a question about a channel: where its next unit goes and how long that is, whether its interrupt is
/// posted at its end, and whether it has ended once a unit was passed.
fn channel_answer(alloc: Global, channels: &mut Channels, name: &str, c: u8) -> Told {
    if c >= CHANNELS {
        return Err("no such channel".into());
    }
    match name {
        "next" => {
            let (target, length) = channels.target(c);
            words_text(alloc, &[target, length])
        }
        "posts" => truth_text(alloc, channels.posts(c)),
        "pass" => truth_text(alloc, channels.pass_unit(c)),
        _ => Err("no such question".into()),
    }
}

/// The answer to a question.
fn answer(alloc: Global, scene: &mut Scene, question: &str) -> Told {
    let (name, numbers) = named(question);
    let numbers = hex_words(alloc, numbers)?;
    match (name, numbers.as_slice()) {
        ("unit", []) => moves(alloc, scene, None),
        ("given", list) => moves(alloc, scene, Some(bytes_of(alloc, list)?.as_slice())),
        ("plan", []) => plan_text(alloc, scene, None),
        ("plan_given", list) => plan_text(alloc, scene, Some(bytes_of(alloc, list)?.as_slice())),
        ("at", &[a, n]) => memory_text(alloc, &scene.memory, a, n),
        ("counts", &[a]) => truth_text(alloc, counts(&scene.memory, a)),
        ("soft", &[a]) => truth_text(alloc, scene.watch.soft(a)),
        ("dmac", []) => hex_text(alloc, scene.channels.dmac()),
        (_, &[c]) => channel_answer(alloc, &mut scene.channels, name, u8::try_from(c)?),
        _ => Err("no such question".into()),
    }
}

/// Does the steps of a row, and answers its questions.
fn told(alloc: Global, scene: &mut Scene, steps: &str, questions: &str) -> Told {
    for step in steps.split(',') {
        does(alloc, scene, step)?;
    }
    let mut text = String::new(alloc);
    for question in questions.split(',') {
        add(&mut text, ", ", &answer(alloc, scene, question)?)?;
    }
    Ok(text)
}

/// Does the rows of tables one after the other, each of which has to be answered as it says.
fn tables_hold(rt: &impl Abort, alloc: Global, tables: &[&str]) -> Result<(), Fail> {
    let mut scene = fresh(alloc);
    for table in tables {
        for row in table.lines() {
            let (steps, questions, wanted) = columns(row)?;
            let text = told(alloc, &mut scene, steps, questions)?;
            same_at(rt, text.as_str(), wanted, row);
        }
    }
    Ok(())
}

/// Units of 1, 2, 4 and 16 bytes: what comes of each, the address and the length of the next one, and the bytes at the
/// target and the source behind all. The other bits of the control word don't count.
const MOVES: &str = "\
fresh 1000, enabled 0 2 1000 2000 | unit, next 2, unit, next 2, at 2000 3, counts 1000 | \
moved, 2001 1, ended, 2002 0, 1 2 0, true
fresh 1000, enabled 1 4 1000 2000 | unit, next 2, unit, next 2, at 2000 5, counts 1000 | \
moved, 2002 2, ended, 2004 0, 1 2 3 4 0, true
fresh 1000, enabled 2 8 1000 2000 | unit, next 2, unit, next 2, at 2000 9, counts 1000 | \
moved, 2004 4, ended, 2008 0, 1 2 3 4 5 6 7 8 0, true
fresh 1000, enabled 3 20 1000 2000 | unit, next 2, at 2000 11, counts 1000 | \
moved, 2010 10, 1 2 3 4 5 6 7 8 9 A B C D E F 10 0, true
fresh 1000, enabled 3 14 1000 2000 | unit, next 2, unit, next 2, at 2000 15, counts 1000 | \
moved, 2010 4, ended, 2014 0, 1 2 3 4 5 6 7 8 9 A B C D E F 10 11 12 13 14 0, true | the last unit is short
fresh 1000, enabled 2 5 1000 2000 | unit, next 2, unit, next 2, at 2000 6, counts 1000 | \
moved, 2004 1, ended, 2005 0, 1 2 3 4 5 0, true
fresh 1000, enabled 3 3 1000 2000 | unit, next 2, at 2000 4, counts 1000 | \
ended, 2003 0, 1 2 3 0, true | the only one is
fresh 1000, enabled 5 4 1000 2000 | unit, next 2, unit, next 2, at 2000 5, counts 1000 | \
moved, 2002 2, ended, 2004 0, 1 2 1 2 0, true | the source is held
fresh 1000, enabled 9 4 1000 2000 | unit, next 2, unit, next 2, at 2000 3, counts 1000 | \
moved, 2000 2, ended, 2000 0, 3 4 0, true | the target is
fresh 1000, enabled D 4 1000 2000 | unit, next 2, unit, next 2, at 2000 3, counts 1000 | \
moved, 2000 2, ended, 2000 0, 1 2 0, true | both are
fresh 1000, enabled FFFFFFA1 3 1000 2000 | unit, next 2, unit, next 2, at 2000 4, counts 1000 | \
moved, 2002 1, ended, 2003 0, 1 2 3 0, true
";

/// All bytes of a unit are read before one is written. They move one for one over the last address and over the ends
/// of a big-endian region, and addresses run on from the last to 0. The port page reads as 0, and is never written
/// to.
const PLACES: &str = "\
fresh 1000, enabled 2 4 1000 1001 | unit, at 1000 7 | ended, 1 1 2 3 4 6 7
fresh 1000, enabled 2 4 1000 1003 | unit, at 1000 7 | ended, 1 2 3 1 2 3 4
fresh 1000, enabled 2 4 1001 1000 | unit, at 1000 7 | ended, 2 3 4 5 5 6 7
fresh 1000, enabled 2 4 1002 1001 | unit, at 1000 7 | ended, 1 3 4 5 6 6 7
fresh 1000, enabled 2 4 1000 1000 | unit, at 1000 7 | ended, 1 2 3 4 5 6 7
fresh FFFFFFFE, enabled 2 8 FFFFFFFE 2000 | unit, next 2, at 2000 4 | moved, 2004 4, 1 2 3 4
 | unit, at 2000 8 | ended, 1 2 3 4 5 6 7 8
fresh 2000, enabled 2 8 2000 FFFFFFFD | unit, next 2, at FFFFFFFD 4 | moved, 1 4, 1 2 3 4
 | unit, at FFFFFFFD 8 | ended, 1 2 3 4 5 6 7 8
fresh 2000, enabled 2 8 2000 FFFFFFFC | unit, next 2, at FFFFFFFC 4 | moved, 0 4, 1 2 3 4
 | unit, at FFFFFFFC 8 | ended, 1 2 3 4 5 6 7 8
fresh 1FFFFFFE, enabled 2 8 1FFFFFFE 3000 | unit, next 2, at 3000 4 | moved, 3004 4, 1 2 3 4
 | unit, at 3000 8 | ended, 1 2 3 4 5 6 7 8
fresh 3000, enabled 2 8 3000 1FFFFFFF | unit, next 2, at 1FFFFFFF 4 | moved, 20000003 4, 1 2 3 4
 | unit, at 1FFFFFFF 8 | ended, 1 2 3 4 5 6 7 8
fresh FFFFFFD, enabled 2 8 FFFFFFD 10000100 | unit, next 2, at 10000100 4 | moved, 10000104 4, 1 2 3 4
 | unit, at 10000100 8 | ended, 1 2 3 4 5 6 7 8
fresh 10000100, enabled 2 8 10000100 FFFFFFF | unit, next 2, at FFFFFFF 4 | moved, 10000003 4, 1 2 3 4
 | unit, at FFFFFFF 8 | ended, 1 2 3 4 5 6 7 8
fresh 1000, enabled 2 4 1000 DFFFFFFC | unit, at DFFFFFFC 4 | ended, 1 2 3 4
fresh 1000, enabled 2 4 1000 DFFFFFFD | unit, at DFFFFFFD 4 | hazard E0000000, 0 0 0 0
fresh 1000, enabled 2 1 1000 E0000000 | unit, at E0000000 4 | hazard E0000000, 0 0 0 0
fresh 1000, enabled 2 4 1000 E0000FFF | unit, at E0000FFF 4 | hazard E0000FFF, 0 0 0 0
fresh 1000, enabled 2 4 1000 E0001000 | unit, at E0001000 4 | ended, 1 2 3 4
fresh DFFFFFFE, enabled 2 4 DFFFFFFE 2000 | unit, at 2000 4 | ended, 1 2 0 0
fresh E0000FFE, enabled 2 4 E0000FFE 2000 | unit, at 2000 4 | ended, 0 0 3 4
";

/// The source may have no soft byte; the target may be soft, and may not be in a live frame. The source comes first. A
/// plan has the bytes, and changes nothing.
const HAZARDS: &str = "\
fresh 3FFC, left 4000, enabled 2 4 3FFC 2000 | unit, at 2000 4, soft 2000, dmac | ended, 1 2 3 4, false, 40
fresh 3FFD, left 4000, enabled 2 4 3FFD 2000 | unit, next 2, dmac | hazard 4000, 2000 4, 4
fresh 403F, left 4000, enabled 2 4 403F 2000 | unit, next 2, dmac | hazard 403F, 2000 4, 4
fresh 4040, left 4000, enabled 2 4 4040 2000 | unit, at 2000 4, soft 2000, dmac | ended, 1 2 3 4, false, 40
fresh 1000, left 4000, enabled 2 4 1000 4000 | unit, at 4000 4, soft 4000, dmac | ended, 1 2 3 4, false, 40
fresh 1000, live 4000, enabled 2 4 1000 3FFC | unit, at 3FFC 4, soft 3FFC, dmac | ended, 1 2 3 4, false, 40
fresh 1000, live 4000, enabled 2 4 1000 3FFD | unit, next 2, dmac | hazard 4000, 3FFD 4, 4
fresh 1000, live 4000, enabled 2 4 1000 403F | unit, next 2, dmac | hazard 403F, 403F 4, 4
fresh 1000, live 4000, enabled 2 4 1000 4040 | unit, at 4040 4, soft 4040, dmac | ended, 1 2 3 4, false, 40
fresh 4010, live 4000, enabled 2 4 4010 4000 | unit, next 2, dmac | hazard 4010, 4000 4, 4
fresh 4010, left 4000, enabled 2 4 4010 E0000000 | unit, next 2, dmac | hazard 4010, E0000000 4, 4
fresh 1000, live 4000, enabled 2 8 1000 2000 | plan | 1 2 3 4
fresh 1000, live 4000, enabled 2 3 1001 2000 | plan | 2 3 4
fresh 1000, live 4000, enabled 12 3 1000 2000 | plan_given 9 8 7 6 | 9 8 7
fresh 1000, live 4000, enabled 2 0 1000 2000 | plan | none
fresh 1000, live 4000, enabled 2 8 3FFF 2000 | plan | hazard 4000
fresh 1000, live 4000, enabled 2 8 1000 4001 | plan | hazard 4001
";

#[test]
fn moves_units(rt: HostRuntime) -> Result<(), Fail> {
    tables_hold(&rt, rt.alloc(), &[MOVES, PLACES, HAZARDS])
}

/// Nothing moves where the channel is not enabled, nothing is left, or the bytes come from elsewhere, and where a
/// device gives fewer bytes or more than a whole unit has. A device gives whole units, of which the last may count in
/// part; the source is not read then, so its bytes may be soft.
const GIFTS: &str = "\
fresh 1000, enabled 2 8 1000 2000, command 0 | unit, next 2, dmac, at 2000 5 | idle, 2000 4, 0, 0 0 0 0 0
fresh 1000, enabled 2 8 1000 2000, command FB | unit, next 2, dmac, at 2000 5 | idle, 2000 4, FB, 0 0 0 0 0
fresh 1000, enabled 12 8 1000 2000, command FB | given 9 8 7 6, next 2, dmac, at 2000 5 | idle, 2000 4, FB, 0 0 0 0 0
fresh 1000, enabled 2 0 1000 2000, command 4 | unit, next 2, dmac, at 2000 5 | idle, 2000 0, 4, 0 0 0 0 0
fresh 1000, enabled 12 0 1000 2000, command 4 | given 9 8 7 6, next 2, dmac, at 2000 5 | idle, 2000 0, 4, 0 0 0 0 0
fresh 1000, enabled 12 8 1000 2000, command 4 | unit, next 2, dmac, at 2000 5 | idle, 2000 4, 4, 0 0 0 0 0
fresh 1000, enabled 2 8 1000 2000, command 4 | given 9 8 7 6, next 2, dmac, at 2000 5 | idle, 2000 4, 4, 0 0 0 0 0
fresh 1000, enabled 12 8 1000 2000, command 4 | given 9 8 7, next 2, dmac, at 2000 5 | idle, 2000 4, 4, 0 0 0 0 0
fresh 1000, enabled 12 8 1000 2000, command 4 | given 9 8 7 6 5, next 2, dmac, at 2000 5 | idle, 2000 4, 4, 0 0 0 0 0
fresh 1000, enabled 12 3 1000 2000, command 4 | given 9 8 7, next 2, dmac, at 2000 5 | idle, 2000 3, 4, 0 0 0 0 0
fresh 1000, enabled 10 8 1000 2000, command 4 | given, next 2, dmac, at 2000 5 | idle, 2000 1, 4, 0 0 0 0 0
fresh 1000, left 1000, enabled 12 6 1000 2000 | given 9 8 7 6, next 2 | moved, 2004 2
 | given 5 4 3 2, next 2, at 2000 7 | ended, 2006 0, 9 8 7 6 5 4 0
 | given 5 4 3 2, dmac | idle, 40
";

/// The bits of the command word, of which eight are kept: after the set-up of each channel, with all bits set before,
/// and after its end, with all enabled. Each channel keeps what it was set up with. Then the interrupts at ends.
const COMMANDS: &str = "\
fresh | dmac, next 3 | 0, 0 0
command FFFFFFA5 | dmac | A5
command FF, setup 0 0 2 1000 0 | dmac, next 0 | EE, 0 1
command F | pass 0, dmac, pass 0, dmac | false, F, true, 1E
command FF, setup 1 0 2 1000 2000 | dmac, next 1 | DD, 2000 1
command F | pass 1, dmac, pass 1, dmac | false, F, true, 2D
command FF, setup 2 0 2 1000 4000 | dmac, next 2 | BB, 4000 1
command F | pass 2, dmac, pass 2, dmac | false, F, true, 4B
command FF, setup 3 0 2 1000 6000 | dmac, next 3 | 77, 6000 1
command F | pass 3, dmac, pass 3, dmac | false, F, true, 87
 | next 0, next 1, next 2, next 3 | 2 0, 2002 0, 4002 0, 6002 0
fresh, enabled 0 1 1000 2000 | posts 2, posts 0 | false, false
fresh, enabled 40 1 1000 2000 | posts 2, posts 0 | true, false
fresh, enabled FFFFFFBF 1 1000 2000 | posts 2, posts 0 | false, false
fresh, enabled 53 1 1000 2000 | posts 2, posts 0 | true, false
";

#[test]
fn keeps_channels(rt: HostRuntime) -> Result<(), Fail> {
    tables_hold(&rt, rt.alloc(), &[GIFTS, COMMANDS])
}
