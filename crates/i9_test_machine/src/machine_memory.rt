//! What machines take of memory, and runs that go on where memory was refused.
ghost use Rattle.std.specs.Prelude.{◌≡◌, ◌≤◌};
ghost use Rattle.i9_model.specs.declared.layout.TheConstants.{MAX_LENGTH};
ghost use Rattle.i9_machine.specs.InRun.{IsInRun};

use crate::check::{must_at, same, same_at};
use crate::run::{Run, idle, image_of, settle, step};
use crate::script::{columns, told};
use crate::told::{add, answer, turn_text};
use i9_hex::Segments;
use i9_machine::{Machine, Turn};
use i9_model::layout::MAX_LENGTH;
use i9_outside::{Fetch, Files};
use i9_system::RealFiles;
use std::alloc::Global;
use std::test::*;

/// `lda 0x80003000, g0`, `mov 7, g4`, `stob g4, 0x3000`, `mov 9, g5`, `stob g5, (g0)`, `ldob 0x3000, g6`,
/// `ldob (g0), g7`.
const STORES_FAR_APART: &str = "image 1000 8C803000 80003000 5CA00E07 82A03000 3000 5CA80E09 \
82AC2000 80B03000 3000 80BC2000, run 7, steps 7";

/// So many machines at once, each of which has stored two bytes 2 GiB apart.
fn far_apart(alloc: Global, count: usize) -> Result<Vec<Machine>, Fail> {
    let mut machines = Vec::new(alloc);
    for _ in 0..count {
        let mut run = idle(alloc)?;
        let _ = told(alloc, &mut run, STORES_FAR_APART)?;
        machines.push(run.machine)?;
    }
    Ok(machines)
}

/// How many instructions a machine has done, what it has loaded, and the bytes that it has stored.
fn stored(alloc: Global, machine: &Machine) -> Result<String, Fail> {
    let mut text = answer(alloc, machine, "count?", "")?;
    add(&mut text, &answer(alloc, machine, "regs?", "22 23")?)?;
    let bytes = answer(alloc, machine, "bytes?", "3000 80003000")?;
    add(&mut text, &bytes)?;
    Ok(text)
}

#[test]
fn memory_grows_with_the_pages_that_are_touched(rt: HostRuntime) -> Result<(), Fail> {
    // With all bytes from the first to the second these machines would hold 2 TiB.
    let machines = far_apart(rt.alloc(), 1000)?;
    same(&rt, machines.len(), 1000);
    for machine in &machines {
        same(&rt, stored(rt.alloc(), machine)?.as_str(), "7, 7 9, 7 9");
    }
    Ok(())
}

/// How many pages of addresses this process has, by the system's own count: the first number of its line.
fn pages_held(rt: &HostRuntime) -> Result<u64, Fail> {
    let mut line = Vec::new(rt.alloc());
    if RealFiles::new(rt).fetch(rt.alloc(), "/proc/self/statm", &mut line) != Fetch::Ok {
        return Err("the system tells no count".into());
    }
    let line = std::str::from_utf8(&line).unwrap_or("");
    Ok(line.split(' ').next().unwrap_or("").parse::<u64>()?)
}

/// So many machines of one length, before their first step.
fn machines_of(
    alloc: Global,
    image: &Segments,
    length: u64,
    count: usize,
) -> Result<Vec<Machine>, Fail>
    requires { length ≤ MAX_LENGTH }
{
    let mut machines = Vec::new(alloc);
    for _ in 0..count {
        machines.push(Machine::new(alloc, image, None, length)?)?;
    }
    Ok(machines)
}

// With a byte for each instruction of its run each of the machines would take 2,441 pages; it takes three.
#[test]
fn a_length_takes_no_memory(rt: HostRuntime) -> Result<(), Fail> {
    let image = image_of(
        rt.alloc(),
        "1000 8CA00041 8CA83000 E0000000 82A56000 5CA00E07 92A56004",
    )?;
    let before = pages_held(&rt)?;
    let machines = machines_of(rt.alloc(), &image, MAX_LENGTH, 200)?;
    let taken = pages_held(&rt)?.saturating_sub(before);
    same(&rt, machines.len(), 200);
    must_at(&rt, taken < 200 * 25, taken);
    Ok(())
}

/// The next step that is no move of the turn, and whether the view stays as it is where memory is refused: then all
/// that is open lands, and the step is asked for again.
fn step_again(run: &mut Run) -> (Turn, bool)
    requires { IsInRun run.old.machine run.old.plan }
    ensures { IsInRun run.new.machine run.new.plan }
{
    let before = run.machine.view();
    match step(run) {
        Turn::Memory => {
            let is_settled = settle(run);
            let is_same = run.machine.view() == before;
            (step(run), is_settled && is_same)
        }
        turn => (turn, true),
    }
}

/// Goes on to the end of a run, at most 101 steps, or to where the view changes although memory is refused.
fn go_through(run: &mut Run) -> (Turn, bool)
    requires { IsInRun run.old.machine run.old.plan }
    ensures { IsInRun run.new.machine run.new.plan }
{
    for _ in 0..101usize {
        let (turn, is_same) = step_again(run);
        if !is_same || matches!(turn, Turn::End(_)) {
            return (turn, is_same);
        }
    }
    (Turn::On, true)
}

/// How the run of a row ends, with how many instructions and lines, and whether the view stayed as it was wherever
/// memory was refused.
fn gone_through(alloc: Global, steps: &str) -> Result<String, Fail> {
    let mut run = idle(alloc)?;
    let _ = told(alloc, &mut run, steps)?;
    let (turn, has_stayed) = go_through(&mut run);
    let turn = turn_text(alloc, turn)?;
    let (count, lines) = (run.machine.view().count, run.lines.len());
    Ok(format!(in alloc; "{turn}, {count}, {lines}, {has_stayed}")?)
}

/// How each run ends, after how many instructions and with how many lines: runs of stores on the console and far
/// apart, of nested calls, of a flush and of a start anew, whose programs are those of the other tests.
const ROWS: &str = "\
console and exit   | image 1000 8CA00041 8CA83000 E0000000 82A56000 5CA00E07 92A56004, run 100 | exit 7, 5, 3, true
stores far apart   | image 1000 8C803000 80003000 5CA00E07 82A03000 3000 5CA80E09 82AC2000 80B03000 3000 80BC2000, run 7 | limit, 7, 2, true
calls in one set   | image 1000 8C800013 9000010 8CA83000 E0000000 92856004 3204200C 59840901 9FFFFF8 A000000, run 100 1 | exit 0, 82, 2, true
in fifteen         | image 1000 8C800013 9000010 8CA83000 E0000000 92856004 3204200C 59840901 9FFFFF8 A000000, run 100 15 | exit 0, 82, 2, true
call f; f: flushreg | image 1000 9000004 66000680, run 2 5 | limit, 2, 3, true
call f; f: sysctl  | image 1000 9000004 8C880300 8C903000 1200 8C980C00 659C8491, run 5 | limit, 5, 2, true
";

// Nothing is refused here. With `rt try --test --fail-alloc N` one allocation is, and where it is one of a step the run
// goes on all the same.
#[test]
fn runs_go_on_behind_refused_memory(rt: HostRuntime) -> Result<(), Fail> {
    for row in ROWS.lines() {
        let (steps, wanted) = columns(row)?;
        same_at(&rt, gone_through(rt.alloc(), steps)?.as_str(), wanted, row);
    }
    Ok(())
}
