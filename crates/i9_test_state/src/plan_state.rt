//! A state that is worked out by hand: one frame is saved at 3000, whose words are all 9, and the processor is about to
//! do given words in the next one, at 3040.
ghost use Rattle.std.specs.Prelude.{◌≡◌, IfOk, OnOk, []};
ghost use Rattle.i9_model.specs.Free.{IsFree};
ghost use Rattle.i9_model.specs.Step.{moved};
ghost use Rattle.i9_processor.specs.Effect.{action_in, AreRegisters, CanPost, CanChange, CanControl, CanMove};
ghost use Rattle.i9_processor.specs.State.{state_of, IsDrained};

use crate::processor_steps::put_word;
use crate::rows::hex_words;
use i9_hex::Segments;
use i9_processor::{DmaChange, Effect, Landing, Move, Processor};
use std::alloc::Global;
use std::test::Fail;

/// Process controls in supervisor mode.
pub(crate) const PC: u32 = 0x001F_2002;

/// g0 to g14.
const GLOBALS: [u32; 15] = [
    0x3010,
    0x4001,
    0x8000_0000,
    0x0500,
    5,
    0x0600_0104,
    1,
    0x001F_0000,
    0,
    0x0300,
    0x1234,
    0x3000,
    0x0406,
    0x4008,
    0,
];

/// Words of memory, each behind its address: the PRCB at 2000, a fault table, a system procedure table, and a word to
/// load; region 0 waits 3 turns at a read and 5 at a write; software asks for vector 18; the handlers of 18 and 248.
const IMAGE: &str = "\
FFFFFF14 2000
2000 1100
2004 6000
2010 1400
2014 5500
201C 3000
1110 1300
1118 0001
5544 1204
4000 65438721
6020 5018
1400 4
1404 40000
144C 1700
17E4 1600
";

/// The processor after boot of the image with two words of a program.
fn booted(alloc: Global, at: u32, program: (u32, u32)) -> Result<Processor, Fail>
    ensures { IfOk result (λ p. IsDrained p) }
{
    let mut image = Segments::new(alloc);
    put_word(&mut image, at, program.0)?;
    put_word(&mut image, at.wrapping_add(4), program.1)?;
    for line in IMAGE.lines() {
        match hex_words(alloc, line)?.as_slice() {
            [address, word] => put_word(&mut image, *address, *word)?,
            _ => return Err("no address and word".into()),
        }
    }
    Ok(Processor::boot(alloc, &image, None)?)
}

/// What is done lands at once, whatever it writes.
const AT_ONCE: Landing = Landing {
    writes: u64::MAX,
    done: 0,
    request: false,
};

/// Makes room for an effect that keeps the controls, and applies it.
pub(crate) fn applies(p: &mut Processor, effect: &Effect) -> Result<(), Fail>
    requires drained { IsDrained p.old }
    requires registers { AreRegisters effect.now }
    requires posts { CanPost effect.now.posting }
    requires changes { CanChange effect.now.dma }
    requires can { CanMove (state_of p.old).frames effect.now.frames }
    requires free { IsFree (state_of p.old) (action_in (state_of p.old) effect.now) }
    requires controls { CanControl (moved (state_of p.old) (action_in (state_of p.old) effect.now)) effect.now.control }
    ensures { OnOk result (IsDrained p.new) }
{
    if p.count() > 100 {
        return Err("too many".into());
    }
    p.reserve(effect, false)?;
    p.apply(effect, false, &AT_ONCE, 0, None);
    Ok(())
}

/// Saves the frame at 3000, and goes on in a new one.
#[tactic(auto, unfolding(i9_model::specs::Hazards::writes_hazard), using(i9_processor::proofs::Applying::locals_whole))]
pub(crate) fn saves(p: &mut Processor) -> Result<(), Fail>
    requires { IsDrained p.old }
    ensures { OnOk result (IsDrained p.new) }
{
    let push = match p.plan_call() {
        Ok(push) => push,
        Err(_) => return Err("a hazard".into()),
    };
    let mut effect = Effect::going(p, 0);
    effect.frames = Move::Saves { push, back: 9 };
    effect.plain = false;
    applies(p, &effect)
}

/// Sets a register, which is marked or is not.
#[tactic(auto, unfolding(i9_model::specs::Hazards::writes_hazard))]
pub(crate) fn sets(p: &mut Processor, r: u8, value: u32, marked: bool) -> Result<(), Fail>
    requires { IsDrained p.old }
    ensures { OnOk result (IsDrained p.new) }
{
    if r > 31 {
        return Err("no such register".into());
    }
    let mut effect = Effect::going(p, 0);
    effect.register = r;
    effect.values.push(value);
    effect.marks = u16::from(marked);
    applies(p, &effect)
}

/// Sets the controls and the instruction address.
#[tactic(auto, unfolding(i9_model::specs::Hazards::writes_hazard))]
pub(crate) fn goes(p: &mut Processor, ac: u32, pc: u32, next: u32) -> Result<(), Fail>
    requires { IsDrained p.old }
    ensures { OnOk result (IsDrained p.new) }
{
    let mut effect = Effect::going(p, next);
    effect.ac = ac;
    effect.pc = pc;
    effect.tc = 0;
    applies(p, &effect)
}

/// A processor that is about to do these words: its frame is at 3040, and the one at 3000 is live.
pub(crate) fn ready(
    alloc: Global,
    at: u32,
    program: (u32, u32),
    ac: u32,
    pc: u32,
) -> Result<Processor, Fail>
    ensures { IfOk result (λ p. IsDrained p) }
{
    let mut p = booted(alloc, at, program)?;
    saves(&mut p)?;
    for k in 0..15 {
        sets(&mut p, 16 + k, GLOBALS[usize::from(k)], false)?;
    }
    goes(&mut p, ac, pc, at)?;
    Ok(p)
}

/// Does something to DMA.
#[tactic(auto, unfolding(i9_model::specs::Hazards::writes_hazard))]
pub(crate) fn changes(p: &mut Processor, change: DmaChange) -> Result<(), Fail>
    requires drained { IsDrained p.old }
    requires change { CanChange change }
    ensures { OnOk result (IsDrained p.new) }
{
    let mut effect = Effect::going(p, 0x1000);
    effect.dma = change;
    effect.plain = false;
    applies(p, &effect)
}
