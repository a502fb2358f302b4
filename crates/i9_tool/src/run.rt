//! Running an image to its end, and printing its lines or counting what was done.
ghost use Rattle.std.specs.Prelude.{◌≡◌, ◌≤◌, ◌&&◌, nat_le, false, [], None, IfOk};
ghost use Rattle.i9_model.specs.Given.{Given, given};
ghost use Rattle.i9_model.specs.declared.layout.TheConstants.{MAX_LENGTH};
ghost use Rattle.i9_model.specs.Image.{pairs_of};
ghost use Rattle.i9_model.specs.ScheduleText.{IsPlan};
ghost use Rattle.i9_machine.specs.StandsFor.{StandsFor, Follows, IsUnderWay};
ghost use Rattle.i9_tracer.specs.Closures.{TakesEachAddress};
ghost use Rattle.i9_debug.specs.Driven.{target};
ghost use Rattle.i9_lines.specs.Print.{account, output};
ghost use Rattle.i9_tool.specs.Run.{Counts, DrivesBy, PrintsBy, Runs, RunsHeaded, TracesBy, step_text, turn_text};
ghost use Rattle.i9_tool.specs.Words.{AreFew};

use crate::words::Range;
use i9_debug::{Printed, print_heading, print_lines, print_text};
use i9_hex::Segments;
use i9_isa::NoMemory;
use i9_machine::{End, Line, Machine, Turn};
use i9_outside::Sink;
use i9_schedule::Schedule;
use i9_tracer::{AddressTest, Filter, trace_line};
use std::alloc::Global;

/// How running went.
#[derive(Clone, Copy)]
pub(crate) enum Ran {
    /// To this end, and all was printed.
    Done(End),
    /// A write failed.
    Write,
    /// Memory was refused.
    Memory,
}

/// Prints the line of the instruction of a step where its address passes a filter, and nothing otherwise.
fn print_turn<K: Sink, F: Fn(u32) -> bool + AddressTest>(
    alloc: Global,
    f: &Filter<F>,
    turn: &Turn,
    out: &mut K,
) -> Printed
    ensures { PrintsBy result (F.AddressTest.allows f.now) turn.now (λ passes. turn_text passes turn.now)
        (output (account K.told K.faults K.writes K.sure K.pieces) out.old out.new) }
{
    let Turn::Issued(issued) = turn else {
        return Printed::Done;
    };
    match trace_line(alloc, f, issued) {
        Ok(Some(line)) => print_text(&line, out),
        Ok(None) => Printed::Done,
        Err(NoMemory) => Printed::Memory,
    }
}

/// Prints the lines of a step, and before them that of its instruction where its address passes a filter. They are made
/// in a text that is lent, whatever it holds.
fn print_step<K: Sink, F: Fn(u32) -> bool + AddressTest>(
    alloc: Global,
    f: &Filter<F>,
    turn: &Turn,
    text: &mut Vec<u8>,
    lines: &[Line],
    out: &mut K,
) -> Printed
    ensures { PrintsBy result (F.AddressTest.allows f.now) turn.now (λ passes. step_text passes turn.now lines.now)
        (output (account K.told K.faults K.writes K.sure K.pieces) out.old out.new) }
{
    match print_turn(alloc, f, turn, out) {
        Printed::Done => print_lines(alloc, text, lines, out),
        Printed::Write => Printed::Write,
        Printed::Memory => Printed::Memory,
    }
}

/// Runs a machine to the end of its run, and prints the lines of each step as they come, and before those of an
/// instruction its own, where its address passes a filter.
fn run_machine<K: Sink, F: Fn(u32) -> bool + AddressTest>(
    alloc: Global,
    m: &mut Machine,
    plan: &mut Schedule,
    f: &Filter<F>,
    out: &mut K,
) -> Ran
    requires stands { IsUnderWay m.old plan.old }
    ensures { (g : Given) → StandsFor g [] None m.old → Follows g [] plan.old
        → DrivesBy result (F.AddressTest.allows f.now) g
        (output (account K.told K.faults K.writes K.sure K.pieces) out.old out.new) (target m.new plan.new) }
{
    let mut text = Vec::new(alloc);
    let mut lines = Vec::new(alloc);
    loop {
        lines.clear();
        let turn = m.proceed(plan, &mut lines);
        match print_step(alloc, f, &turn, &mut text, &lines, out) {
            Printed::Done => {}
            Printed::Write => return Ran::Write,
            Printed::Memory => return Ran::Memory,
        }
        match turn {
            Turn::On => {}
            Turn::Issued(_) => {}
            Turn::End(end) => return Ran::Done(end),
            Turn::Memory => return Ran::Memory,
        }
    }
}

/// Runs an image with the events of a schedule and its frames in so many sets, for at most so many instructions, and
/// prints what `run_machine` does.
fn run_filtered<K: Sink, F: Fn(u32) -> bool + AddressTest>(
    alloc: Global,
    image: &Segments,
    plan: &mut Schedule,
    sets: Option<u8>,
    limit: u64,
    f: &Filter<F>,
    out: &mut K,
) -> Ran
    requires begins { plan.old.place ≡ 0 }
    requires plan { IsPlan plan.old.events }
    requires few { AreFew sets }
    requires short { limit ≤ MAX_LENGTH }
    ensures { TracesBy result (F.AddressTest.allows f.now) (given (pairs_of image.now) plan.old.events limit sets)
        (output (account K.told K.faults K.writes K.sure K.pieces) out.old out.new) }
{
    match Machine::new(alloc, image, sets, limit) {
        Ok(mut machine) => run_machine(alloc, &mut machine, plan, f, out),
        Err(NoMemory) => Ran::Memory,
    }
}

/// Runs an image as `run_filtered` does, under the filter of a closure.
fn run_with<K: Sink, F: Fn(u32) -> bool + AddressTest>(
    alloc: Global,
    image: &Segments,
    plan: &mut Schedule,
    sets: Option<u8>,
    limit: u64,
    f: F,
    out: &mut K,
) -> Ran
    requires begins { plan.old.place ≡ 0 }
    requires plan { IsPlan plan.old.events }
    requires few { AreFew sets }
    requires short { limit ≤ MAX_LENGTH }
    requires takes { TakesEachAddress (F.AddressTest.can_test f) }
    ensures { TracesBy result (F.AddressTest.allows f) (given (pairs_of image.now) plan.old.events limit sets)
        (output (account K.told K.faults K.writes K.sure K.pieces) out.old out.new) }
{
    run_filtered(alloc, image, plan, sets, limit, &Filter::new(f), out)
}

/// Runs an image with the events of a schedule and its frames in so many sets, for at most so many instructions, and
/// prints the lines of the run as they come. Where a range is traced, the line of each instruction of it comes before
/// the lines of its step.
fn run<K: Sink>(
    alloc: Global,
    image: &Segments,
    plan: &mut Schedule,
    sets: Option<u8>,
    limit: u64,
    traced: Option<Range>,
    out: &mut K,
) -> Ran
    requires begins { plan.old.place ≡ 0 }
    requires plan { IsPlan plan.old.events }
    requires few { AreFew sets }
    requires short { limit ≤ MAX_LENGTH }
    ensures { Runs result traced (given (pairs_of image.now) plan.old.events limit sets)
        (output (account K.told K.faults K.writes K.sure K.pieces) out.old out.new) }
{
    match traced {
        None => {
            let passes = |_address: u32|
                ensures { result ≡ false }
            { false };
            run_with(alloc, image, plan, sets, limit, passes, out)
        }
        Some(Range { low, high }) => {
            let passes = |address: u32|
                ensures { result ≡ (nat_le low address && nat_le address high) }
            { low <= address && address <= high };
            run_with(alloc, image, plan, sets, limit, passes, out)
        }
    }
}

/// Prints the line of the version of a schedule, and then the run that `run` makes.
pub(crate) fn run_headed<K: Sink>(
    alloc: Global,
    image: &Segments,
    plan: &mut Schedule,
    sets: Option<u8>,
    limit: u64,
    traced: Option<Range>,
    out: &mut K,
) -> Ran
    requires begins { plan.old.place ≡ 0 }
    requires plan { IsPlan plan.old.events }
    requires few { AreFew sets }
    requires short { limit ≤ MAX_LENGTH }
    ensures { RunsHeaded result plan.old.version traced (given (pairs_of image.now) plan.old.events limit sets)
        (output (account K.told K.faults K.writes K.sure K.pieces) out.old out.new) }
{
    match print_heading(plan.version(), out) {
        Printed::Done => run(alloc, image, plan, sets, limit, traced, out),
        Printed::Write => Ran::Write,
        Printed::Memory => Ran::Memory,
    }
}

/// What a run came to: the instructions that were done, the events that were taken, and its end.
#[derive(Clone, Copy)]
pub(crate) struct Counted {
    pub(crate) count: u64,
    pub(crate) events: u64,
    pub(crate) end: End,
}

/// Runs an image with the events of a schedule and its frames in so many sets, for at most so many
/// instructions, and prints nothing.
pub(crate) fn count_run(
    alloc: Global,
    image: &Segments,
    plan: &mut Schedule,
    sets: Option<u8>,
    limit: u64,
) -> Result<Counted, NoMemory>
    requires begins { plan.old.place ≡ 0 }
    requires plan { IsPlan plan.old.events }
    requires few { AreFew sets }
    requires short { limit ≤ MAX_LENGTH }
    ensures { IfOk result (λ counted. Counts counted (given (pairs_of image.now) plan.old.events limit sets)) }
{
    let mut machine = Machine::new(alloc, image, sets, limit)?;
    let mut lines = Vec::new(alloc);
    loop {
        lines.clear();
        match machine.proceed(plan, &mut lines) {
            Turn::On => {}
            Turn::Issued(_) => {}
            Turn::End(end) => {
                let count = machine.view().count;
                let events = plan.place();
                return Ok(Counted { count, events, end });
            }
            Turn::Memory => return Err(NoMemory),
        }
    }
}
