//! The processor after boot of an image of a few words, worked out by hand, and the steps that change it.
ghost use Rattle.std.specs.Prelude.{◌≡◌, ◌<◌, [], None, IfSome};
ghost use Rattle.i9_model.specs.Frames.{flushed};
ghost use Rattle.i9_model.specs.Free.{IsFree};
ghost use Rattle.i9_model.specs.Step.{moved};
ghost use Rattle.i9_processor.specs.Effect.{action_in, CanPost, CanChange, move_in, AreRegisters, CanControl, CanMove};
ghost use Rattle.i9_processor.specs.Effect.{CanTake};
ghost use Rattle.i9_processor.specs.State.{state_of};

use crate::rows::{hex_words, named};
use arrayvec::ArrayVec;
use i9_dma::Channel;
use i9_frames::Sets;
use i9_hex::Segments;
use i9_model::layout::{CONTROL_GROUP_SIZE, CONTROL_TABLE_SIZE, PRCB_SIZE};
use i9_processor::{Control, DmaChange, Effect, Landing, Move, Posting, Processor};
use std::alloc::Global;
use std::test::Fail;

/// Words of memory in little-endian order, from an address on: the boot record, the PRCB at 2000, its control table at
/// 3000, which makes region 1 big-endian, a fault table, a system procedure table, words for reads, a PRCB at 2100, its
/// control table at 6000, which makes region 2 big-endian, and the register cache word of another PRCB.
const IMAGE: &str = "\
FFFFFF10 1236 2000
2000 1100 3000 FFFF6EFF 40000000 4440 5500
201C 7771
2024 9997
3024 400000
3064 5 123456FF
1110 1300
1118 1
5544 1204
4000 87654321
10004000 87654321
E0000008 87654321
2100 1500 6000 12349105 40000001 4450 5600
211C 8881
2124 F
6000 11 12 13 14 21 22 23
6028 400000
6064 31 FFFFFFFF
2224 13
";

/// Puts a word at an address, its low byte first.
pub(crate) fn put_word(image: &mut Segments, address: u32, word: u32) -> Result<(), Fail> {
    let mut at = address;
    for byte in word.to_le_bytes() {
        image.put(at, byte)?;
        at = at.wrapping_add(1);
    }
    Ok(())
}

/// Puts words from an address on.
fn put_words(image: &mut Segments, address: u32, words: &[u32]) -> Result<(), Fail> {
    let mut at = address;
    for word in words {
        put_word(image, at, *word)?;
        at = at.wrapping_add(4);
    }
    Ok(())
}

/// The processor after boot of the image, with this configuration word of region 14.
pub(crate) fn booted(alloc: Global, region: u32) -> Result<Processor, Fail> {
    let mut image = Segments::new(alloc);
    for line in IMAGE.lines() {
        match hex_words(alloc, line)?.as_slice() {
            [address, words @ ..] => put_words(&mut image, *address, words)?,
            _ => return Err("no address".into()),
        }
    }
    put_word(&mut image, 0x3058, region)?;
    Ok(Processor::boot(alloc, &image, None)?)
}

/// All resources, at once.
const AT_ONCE: Landing = Landing {
    writes: u64::MAX,
    done: 1,
    request: false,
};

/// Makes room for an effect, applies it, and counts an instruction. All of it lands.
fn applies(p: &mut Processor, effect: &Effect, sets: Option<Sets>) -> Result<(), Fail>
    requires registers { AreRegisters effect.now }
    requires posts { CanPost effect.now.posting }
    requires changes { CanChange effect.now.dma }
    requires can { CanMove (state_of p.old).frames effect.now.frames }
    requires free { IsFree (state_of p.old) (action_in (state_of p.old) effect.now) }
    requires controls { CanControl (moved (state_of p.old) (action_in (state_of p.old) effect.now)) effect.now.control }
    requires sets { CanTake (move_in (state_of p.old) effect.now.frames) sets }
{
    if p.count() > 100 {
        return Err("too many".into());
    }
    if !p.is_drained() {
        return Err("a request waits".into());
    }
    p.reserve(effect, false)?;
    p.apply(effect, false, &AT_ONCE, 1, sets);
    p.land(1);
    Ok(())
}

/// Saves a frame with a return address, and goes on in a new one at 1300.
#[tactic(auto, unfolding(i9_model::specs::Hazards::writes_hazard), using(i9_processor::proofs::Applying::locals_whole))]
fn saves(p: &mut Processor, back: u32) -> Result<(), Fail> {
    let push = match p.plan_call() {
        Ok(push) => push,
        Err(_) => return Err("a hazard".into()),
    };
    let mut effect = Effect::going(p, 0x1300);
    effect.frames = Move::Saves { push, back };
    effect.plain = false;
    applies(p, &effect, None)
}

/// Stores two bytes, of which byte k gets a mark where bit k is set.
#[tactic(auto, unfolding(i9_model::specs::Hazards::writes_hazard, i9_model::specs::Hazards::write_hazard))]
fn stores(p: &mut Processor, a: u32, bytes: (u8, u8), stale: u16) -> Result<(), Fail> {
    if stale > 3 || p.check_write(a, 2).is_some() {
        return Err("no such marks, or a hazard".into());
    }
    let mut effect = Effect::blank();
    effect.go(p, 0x1308);
    effect.address = a;
    effect.bytes.push(bytes.0);
    effect.bytes.push(bytes.1);
    effect.stale = stale;
    effect.plain = false;
    applies(p, &effect, None)
}

/// Returns to the youngest live frame, whose words have these marks, or flushes all of them.
#[tactic(auto, unfolding(i9_model::specs::Hazards::writes_hazard))]
fn leaves(p: &mut Processor, by: Move, marks: u16) -> Result<(), Fail> {
    let mut effect = Effect::going(p, 0x1304);
    effect.marks = marks;
    match by {
        Move::Saves { .. } => return Err("a save".into()),
        other => effect.frames = other,
    }
    effect.plain = false;
    applies(p, &effect, None)
}

/// Sets g0 to g3, with these marks.
#[tactic(auto, unfolding(i9_model::specs::Hazards::writes_hazard))]
fn sets_four(p: &mut Processor, values: [u32; 4], marks: u16) -> Result<(), Fail> {
    let mut effect = Effect::setting(p, 0x130C, 16, ArrayVec::from(values));
    effect.marks = marks;
    applies(p, &effect, None)
}

/// Sets a register, with this mark.
#[tactic(auto, unfolding(i9_model::specs::Hazards::writes_hazard))]
fn sets_one(p: &mut Processor, register: u8, value: u32, mark: u16) -> Result<(), Fail> {
    if register > 31 {
        return Err("no such register".into());
    }
    let mut values = ArrayVec::new();
    values.push(value);
    let mut effect = Effect::setting(p, 0x130C, register, values);
    effect.marks = mark;
    applies(p, &effect, None)
}

/// Flushes, and does something to the controls.
#[tactic(auto, unfolding(i9_model::specs::Hazards::writes_hazard))]
fn controls(p: &mut Processor, control: Control, sets: Option<Sets>) -> Result<(), Fail>
    requires can { CanControl (record (state_of p.old) { frames = flushed (state_of p.old).frames }) control }
    requires sets { IfSome sets (λ h. h.frames ≡ []) }
{
    let mut effect = Effect::going(p, 0x1310);
    effect.frames = Move::Flushes;
    effect.control = control;
    effect.plain = false;
    applies(p, &effect, sets)
}

/// Starts anew by the PRCB at an address, with as many sets as it asks for.
#[tactic(auto, unfolding(i9_model::specs::Tables::tables_hazard))]
fn restarts(alloc: Global, p: &mut Processor, first: u32, prcb: u32) -> Result<(), Fail> {
    let table = p.word(prcb.wrapping_add(4));
    if p.check_flushed_read(prcb, PRCB_SIZE).is_some()
        || p.check_flushed_read(table, CONTROL_TABLE_SIZE).is_some()
    {
        return Err("a hazard".into());
    }
    let sets = Sets::new(alloc, p.sets_at(prcb))?;
    controls(p, Control::Restarts { first, prcb }, Some(sets))
}

/// Loads a group of the control table.
#[tactic(auto, unfolding(i9_model::specs::Tables::group_hazard))]
fn loads(p: &mut Processor, group: u8) -> Result<(), Fail> {
    if group > 6 {
        return Err("no such group".into());
    }
    let table = p.tables().control_table;
    let at = table.wrapping_add(CONTROL_GROUP_SIZE * u32::from(group));
    if p.check_flushed_read(at, CONTROL_GROUP_SIZE).is_some() {
        return Err("a hazard".into());
    }
    controls(p, Control::LoadsGroup(group), None)
}

/// Does something to interrupts, with the process controls of priority 0.
#[tactic(auto, unfolding(i9_model::specs::Hazards::writes_hazard))]
pub(crate) fn posts(p: &mut Processor, posting: Posting) -> Result<(), Fail>
    requires { CanPost posting }
{
    let mut effect = Effect::going(p, 0x1310);
    effect.pc = 2;
    effect.posting = posting;
    effect.plain = false;
    applies(p, &effect, None)
}

/// Does something to DMA.
#[tactic(auto, unfolding(i9_model::specs::Hazards::writes_hazard))]
fn changes(p: &mut Processor, change: DmaChange) -> Result<(), Fail>
    requires { CanChange change }
{
    let mut effect = Effect::going(p, 0x1310);
    effect.dma = change;
    effect.plain = false;
    applies(p, &effect, None)
}

/// Sets r4, which lands at turn 5.
#[tactic(auto, unfolding(i9_model::specs::Hazards::writes_hazard))]
fn sets_late(p: &mut Processor, value: u32) -> Result<(), Fail> {
    if p.count() > 100 {
        return Err("too many".into());
    }
    let mut values = ArrayVec::new();
    values.push(value);
    let effect = Effect::setting(p, 0x1314, 4, values);
    let landing = Landing {
        writes: 1 << 4,
        done: 5,
        request: false,
    };
    p.reserve(&effect, false)?;
    p.apply(&effect, false, &landing, 1, None);
    Ok(())
}

/// Stores a byte at an address, by a request that is done at turn 6.
#[tactic(auto, unfolding(i9_model::specs::Hazards::writes_hazard, i9_model::specs::Hazards::write_hazard))]
fn stores_late(p: &mut Processor, a: u32, byte: u8) -> Result<(), Fail> {
    if p.count() > 100 || p.check_write(a, 1).is_some() {
        return Err("too many, or a hazard".into());
    }
    if !p.is_drained() {
        return Err("a request waits".into());
    }
    let mut effect = Effect::going(p, 0x1318);
    effect.address = a;
    effect.bytes.push(byte);
    effect.plain = false;
    let landing = Landing {
        writes: 0,
        done: 6,
        request: true,
    };
    p.reserve(&effect, false)?;
    p.apply(&effect, false, &landing, 1, None);
    Ok(())
}

/// Sets channel 2 up.
fn sets_up(p: &mut Processor, control: u32, count: u32, from: u32, to: u32) -> Result<(), Fail> {
    let channel = Channel {
        control,
        count,
        source: from,
        target: to,
    };
    changes(p, DmaChange::SetsUp(2, channel))
}

/// Does a step to interrupts or DMA, or one that lands late.
fn does_beside(p: &mut Processor, name: &str, numbers: &[u32]) -> Result<(), Fail> {
    match (name, numbers) {
        ("posts_dma_0", []) => posts(p, Posting::Dma(0))?,
        ("commands", &[word]) => changes(p, DmaChange::Command(word))?,
        ("sets_up", &[control, count, from, to]) => sets_up(p, control, count, from, to)?,
        ("passes", []) => changes(p, DmaChange::Passes(2))?,
        ("sets_late", &[value]) => sets_late(p, value)?,
        ("stores_late", &[a, byte]) => stores_late(p, a, u8::try_from(byte)?)?,
        ("lands", &[turn]) => p.land(u64::from(turn)),
        _ => return Err("no such step".into()),
    }
    Ok(())
}

/// Does a step.
pub(crate) fn does(alloc: Global, p: &mut Processor, step: &str) -> Result<(), Fail> {
    let (name, numbers) = named(step);
    let numbers = hex_words(alloc, numbers)?;
    match (name, numbers.as_slice()) {
        ("", []) => {}
        ("boots", &[region]) => *p = booted(alloc, region)?,
        ("saves", &[back]) => saves(p, back)?,
        ("returns", &[frame]) => leaves(p, Move::Returns(frame), 0)?,
        ("returns_marked", &[frame, marks]) => {
            leaves(p, Move::Returns(frame), u16::try_from(marks)?)?;
        }
        ("flushes", []) => leaves(p, Move::Flushes, 0)?,
        ("stores", &[a, one, other]) => {
            stores(p, a, (u8::try_from(one)?, u8::try_from(other)?), 0)?;
        }
        ("stores_marked", &[a, one, other, stale]) => {
            let bytes = (u8::try_from(one)?, u8::try_from(other)?);
            stores(p, a, bytes, u16::try_from(stale)?)?;
        }
        ("sets", &[g0, g1, g2, g3]) => sets_four(p, [g0, g1, g2, g3], 0)?,
        ("sets_marked", &[marks]) => sets_four(p, [1, 2, 3, 4], u16::try_from(marks)?)?,
        ("sets_one", &[register, value, mark]) => {
            sets_one(p, u8::try_from(register)?, value, u16::try_from(mark)?)?;
        }
        ("restarts", &[first, prcb]) => restarts(alloc, p, first, prcb)?,
        ("loads", &[group]) => loads(p, u8::try_from(group)?)?,
        (_, numbers) => does_beside(p, name, numbers)?,
    }
    Ok(())
}
