//! Needs of what is planned, in the state of the other tests: one of five sets is taken, and region 0 waits 3
//! turns at a read and 5 at a write.
ghost use Rattle.std.specs.Prelude.{IfOk, OnOk};
ghost use Rattle.i9_processor.specs.State.{IsDrained};

use crate::check::{must_at, same, same_at};
use crate::plan_state::{PC, applies, goes, ready, saves};
use arrayvec::ArrayVec;
use i9_faults::Fault;
use i9_model::{Cause, Chosen, Event, Need};
use i9_plan::{
    DecodeCache, Planned, need_done, need_entered, need_faulted, need_reached, need_refused,
    plan_entry, plan_interrupt, plan_next,
};
use i9_processor::{Effect, Move, Processor};
use std::alloc::Global;
use std::test::Fail;

/// The local registers and g15, the condition code, and g4.
const FRAME: u64 = 0x8000_FFFF;

const CODE: u64 = 0x1_0000_0000;

const G4: u64 = 0x10_0000;

/// Whether it is a request, slow or a barrier.
const REQUEST: (bool, bool, bool) = (true, false, false);

const SLOW: (bool, bool, bool) = (false, true, false);

const BARRIER: (bool, bool, bool) = (false, false, true);

/// Flushes what is held.
#[tactic(auto, unfolding(i9_model::specs::Hazards::writes_hazard))]
fn flushes(p: &mut Processor) -> Result<(), Fail>
    requires { IsDrained p.old }
    ensures { OnOk result (IsDrained p.new) }
{
    let mut effect = Effect::going(p, 0);
    effect.frames = Move::Flushes;
    effect.plain = false;
    applies(p, &effect)
}

/// A processor that is about to do a word, and that holds one frame and at most four more, or none.
fn holding(alloc: Global, word: u32, more: Option<u8>) -> Result<Processor, Fail>
    ensures { IfOk result (λ p. IsDrained p) }
{
    let mut p = ready(alloc, 0x1000, (word, 0), 0, PC)?;
    for k in 0..4 {
        if more.is_some_and(|n| k < n) {
            saves(&mut p)?;
        }
    }
    if more.is_none() {
        flushes(&mut p)?;
    }
    goes(&mut p, 0, PC, 0x1000)?;
    Ok(p)
}

/// What is needed by what stands at the instruction address, where it meets no hazard.
fn need_of(alloc: Global, p: &Processor) -> Option<Need>
    requires { IsDrained p.now }
{
    let mut effect = Effect::blank();
    let mut decodes = DecodeCache::new(alloc).ok()?;
    match plan_next(p, &mut decodes, &mut effect) {
        Planned::Runs => Some(need_done(p, &decodes, &effect)),
        Planned::Faults(number) => Some(need_faulted(p, &decodes, number)),
        Planned::Refused { number, .. } => Some(need_refused(p, number)),
        Planned::Meets(_) => None,
    }
}

/// A word, the frames that are held beside the one, its cost, the resources that it writes, whether it is a
/// request, slow or a barrier, and the bytes that it stores.
type Row = (
    u32,
    Option<u8>,
    u64,
    u64,
    (bool, bool, bool),
    Option<(u32, u32)>,
);

const ROWS: [Row; 11] = [
    // st at 4008, ld at 1110, and mulo g2, g2, g4.
    (0x92AF_6000, Some(0), 6, 0, REQUEST, Some((0x4008, 4))),
    (0x90A7_2D0A, Some(0), 4, G4, REQUEST, None),
    (0x70A4_8092, Some(0), 5, G4, SLOW, None),
    // call with four sets free, with one, and with none.
    (0x0900_0008, Some(0), 4, FRAME, BARRIER, None),
    (0x0900_0008, Some(3), 4, FRAME, BARRIER, None),
    (0x0900_0008, Some(4), 20, FRAME, BARRIER, None),
    // ret to a frame that is held, and to one that is not; flushreg of two frames.
    (0x0A00_0000, Some(0), 4, FRAME | CODE, BARRIER, None),
    (0x0A00_0000, None, 20, FRAME | CODE, BARRIER, None),
    (0x6600_0680, Some(1), 33, 0, BARRIER, None),
    // ld at 4001, which faults, and a word that is refused.
    (0x90A4_6000, Some(0), 1, G4, BARRIER, None),
    (0x0000_0000, Some(0), 1, 0, BARRIER, None),
];

#[test]
fn needs_of_words(rt: HostRuntime) -> Result<(), Fail> {
    for (word, more, cost, writes, kind, store) in ROWS {
        let p = holding(rt.alloc(), word, more)?;
        match need_of(rt.alloc(), &p) {
            Some(need) => {
                same_at(
                    &rt,
                    (need.cost, need.writes, need.store),
                    (cost, writes, store),
                    word,
                );
                same_at(&rt, (need.request, need.slow, need.barrier), kind, word);
                same_at(&rt, (need.code, need.alone), ((0x1000, 4), false), word);
            }
            None => must_at(&rt, false, word),
        }
    }
    Ok(())
}

#[test]
fn needs_of_entries(rt: HostRuntime) -> Result<(), Fail> {
    let fault = Fault {
        kind: 2,
        subtype: 1,
        address: 0x0FFC,
    };
    let chosen = Chosen {
        vector: 248,
        cause: Cause::Nmi,
    };
    // A set is free, or none is.
    for (more, cost) in [(3, 8), (4, 24)] {
        let p = holding(rt.alloc(), 0, Some(more))?;
        let effects = [
            plan_entry(&p, &fault).ok(),
            plan_interrupt(&p, &chosen).ok(),
        ];
        for effect in effects {
            match effect {
                Some(effect) => {
                    let need = need_entered(&p, &effect);
                    same(
                        &rt,
                        (need.cost, need.writes, need.barrier),
                        (cost, FRAME, true),
                    );
                }
                None => must_at(&rt, false, "no entry"),
            }
        }
    }
    Ok(())
}

#[test]
fn needs_of_events(rt: HostRuntime) -> Result<(), Fail> {
    let rows = [
        (Event::Dma(1), 4),
        (Event::Feed(1, ArrayVec::from([9; 16])), 4),
        (Event::Pin(3), 1),
        (Event::Nmi, 1),
        (Event::Show(0x3000, 4), 1),
    ];
    for (event, cost) in rows {
        let need = need_reached(&event);
        same(&rt, (need.cost, need.writes, need.barrier), (cost, 0, true));
        same(&rt, need.not_before, 0);
    }
    Ok(())
}
