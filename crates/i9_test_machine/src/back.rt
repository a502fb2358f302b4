//! The state of a run before its first instruction; states behind others are gone to by sessions.
ghost use Rattle.i9_tracer.specs.Closures.{TakesEachView};

use crate::check::{must, same};
use i9_back::{Trail, last_change, next_stop, one_earlier_state, replay};
use i9_debug::last;
use i9_hex::Segments;
use i9_model::View;
use i9_schedule::{Schedule, read};
use i9_tracer::{Stop, ViewTest};
use std::alloc::Global;
use std::test::*;

/// An image with the boot record alone: its run begins at 1000.
fn image_of(alloc: Global) -> Result<Segments, Fail> {
    let mut image = Segments::new(alloc);
    image.put(0xFFFF_FF11, 0x10)?;
    Ok(image)
}

/// A schedule with an event at the start, which was reached.
fn plan_of(alloc: Global) -> Result<Schedule, Fail> {
    let Ok(mut plan) = read(alloc, b"at 0 nmi\n") else {
        return Err("no schedule".into());
    };
    if plan.next().is_some() {
        plan.step();
    }
    Ok(plan)
}

/// Where a stop held last before the first instruction, which is nowhere.
#[tactic(auto, using(crate::proofs::Starts::has_none))]
fn last_by<F: Fn(&View) -> bool + ViewTest>(
    alloc: Global,
    image: &Segments,
    plan: &mut Schedule,
    f: F,
) -> Result<u64, Fail>
    requires { TakesEachView (F.ViewTest.can_test f) }
{
    Ok(last(alloc, image, None, 100, plan, 0, &Stop::new(f))?)
}

#[test]
#[tactic(auto, using(crate::proofs::Starts::has_none))]
fn begins_again(rt: HostRuntime) -> Result<(), Fail> {
    let alloc = rt.alloc();
    let image = image_of(alloc)?;
    let mut plan = plan_of(alloc)?;
    same(&rt, plan.place(), 1);
    let m = replay(alloc, &image, None, 100, &mut plan, 0)?;
    same(&rt, m.view().ip, 0x1000);
    same(&rt, plan.place(), 0);
    must(
        &rt,
        last_change(alloc, &image, None, 100, &mut plan, 0, 0x1000)?.is_none(),
    );
    same(&rt, plan.place(), 0);
    let is_there = |v: &View| v.ip == 0x1000;
    same(&rt, last_by(alloc, &image, &mut plan, is_there)?, 0);
    one_earlier_state();
    Ok(())
}

// A trail does so from what it keeps, which is nothing yet.
#[test]
#[tactic(auto, using(crate::proofs::Starts::has_none))]
fn a_trail_begins_again(rt: HostRuntime) -> Result<(), Fail> {
    let alloc = rt.alloc();
    let image = image_of(alloc)?;
    let mut plan = plan_of(alloc)?;
    let mut trail = Trail::new(alloc);
    let mut m = trail.replay(alloc, &image, None, 100, &mut plan, 0)?;
    same(&rt, m.view().ip, 0x1000);
    same(&rt, plan.place(), 0);
    trail.keep(alloc, &m, &plan, 0, 1);
    let (again, done) = trail.nearest(alloc, &image, None, 100, &mut plan, 7)?;
    same(&rt, again.view().ip, 0x1000);
    same(&rt, done, 0);
    trail.go_back(alloc, &image, None, 100, &mut m, &mut plan, 0)?;
    same(&rt, m.view().count, 0);
    must(
        &rt,
        trail
            .last_change(alloc, &image, None, 100, &mut plan, 0, 0x1000)?
            .is_none(),
    );
    Ok(())
}

// Machines are kept at multiples of 125,000 instructions, and one goes on to there or to where it is to stop.
#[test]
fn stops_where_machines_are_kept(rt: HostRuntime) -> Result<(), Fail> {
    let rows = [
        (0, 1, 1),
        (0, 125_000, 125_000),
        (0, 125_001, 125_000),
        (1, 10_000_000, 125_000),
        (124_999, 10_000_000, 125_000),
        (125_000, 10_000_000, 250_000),
        (9_999_999, 10_000_000, 10_000_000),
    ];
    for (done, to, stop) in rows {
        if done < to {
            same(&rt, next_stop(done, to), stop);
        }
    }
    Ok(())
}
