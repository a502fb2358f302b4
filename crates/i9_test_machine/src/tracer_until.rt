//! Running until a stop holds, with turns worked out by hand.
ghost use Rattle.std.specs.Prelude.{◌≡◌, IfOk};
ghost use Rattle.i9_model.specs.ScheduleText.{IsPlan};
ghost use Rattle.i9_machine.specs.InRun.{IsInRun};
ghost use Rattle.i9_tracer.specs.Closures.{TakesEachView};

use crate::check::same_at;
use i9_hex::Segments;
use i9_machine::{End, Issued, Line, Machine, Turn};
use i9_model::View;
use i9_schedule::{Schedule, read};
use i9_tracer::{Stop, ViewTest, run_until};
use std::alloc::Global;
use std::test::*;

/// `muli 3, 4, g2`, `addo 1, 2, g5`, `ld 0x100, g6`, `b next`, `next: mov 0, g7`.
const PACKET: [u32; 5] = [
    0x7491_1883,
    0x59A8_9801,
    0x90B0_0100,
    0x0800_0004,
    0x5CB8_0E00,
];

fn put_word(image: &mut Segments, address: u32, word: u32) -> Result<(), Fail> {
    let mut at = address;
    for byte in word.to_le_bytes() {
        image.put(at, byte)?;
        at = at.wrapping_add(1);
    }
    Ok(())
}

/// The program at 1000, which the boot record names.
fn image(alloc: Global) -> Result<Segments, Fail> {
    let mut image = Segments::new(alloc);
    put_word(&mut image, 0xFFFF_FF10, 0x1000)?;
    let mut address = 0x1000u32;
    for word in &PACKET {
        put_word(&mut image, address, *word)?;
        address = address.wrapping_add(4);
    }
    Ok(image)
}

/// The schedule that a text says.
fn events(alloc: Global, text: &[u8]) -> Result<Schedule, Fail>
    ensures plan { IfOk result (λ p. IsPlan p.events) }
    ensures place { IfOk result (λ p. p.place ≡ 0) }
{
    match read(alloc, text) {
        Ok(plan) => Ok(plan),
        Err(_) => Err("no schedule".into()),
    }
}

/// A machine with its schedule and the lines so far.
#[derive(Drop)]
struct Run {
    machine: Machine,
    plan: Schedule,
    lines: Vec<Line>,
}

/// A machine before its first step, with the schedule that a text says.
fn run_of(alloc: Global, text: &[u8]) -> Result<Run, Fail>
    ensures { IfOk result (λ r. IsInRun r.machine r.plan) }
{
    let image = image(alloc)?;
    let plan = events(alloc, text)?;
    let machine = Machine::new(alloc, &image, None, 5)?;
    Ok(Run {
        machine,
        plan,
        lines: Vec::new(alloc),
    })
}

/// Runs until the stop of a closure holds.
fn until_by<F: Fn(&View) -> bool + ViewTest>(run: &mut Run, f: F) -> Turn
    requires run { IsInRun run.old.machine run.old.plan }
    requires takes { TakesEachView (F.ViewTest.can_test f) }
{
    run_until(
        &mut run.machine,
        &mut run.plan,
        &mut run.lines,
        &Stop::new(f),
    )
}

#[test]
fn runs_until_an_address(rt: HostRuntime) -> Result<(), Fail> {
    let sum = Issued {
        count: 1,
        address: 0x1004,
        first: 0x59A8_9801,
        second: 0,
    };
    let branch = Issued {
        count: 3,
        address: 0x100C,
        first: 0x0800_0004,
        second: 0,
    };
    let product = Issued {
        count: 0,
        address: 0x1000,
        first: 0x7491_1883,
        second: 0,
    };
    // The product issues at 1, the sum, the load and the branch at 2, the last one at 3, and the end is at 6. An event
    // takes one turn, and prints three lines; the address at which it leaves the machine is not asked about.
    let rows = [
        (b"".as_slice(), 0x1008, Turn::Issued(sum), 2u64, 0usize),
        (b"", 0x1010, Turn::Issued(branch), 2, 0),
        (b"", 0x1000, Turn::End(End::Limit), 6, 2),
        (b"at 0 show 100 1", 0x1004, Turn::Issued(product), 2, 3),
        (b"at 0 show 100 1", 0x1000, Turn::End(End::Limit), 7, 5),
    ];
    for (text, ip, answer, now, lines) in rows {
        let mut run = run_of(rt.alloc(), text)?;
        let answered = until_by(&mut run, |v| v.ip == ip);
        same_at(&rt, answered, answer, ip);
        same_at(
            &rt,
            (run.machine.raw().turn, run.lines.len()),
            (now, lines),
            ip,
        );
    }
    Ok(())
}
