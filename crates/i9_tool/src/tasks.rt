//! What is done once all files are read. No file is fetched here.
ghost use Rattle.std.specs.Prelude.{◌≡◌, ◌≢◌, ◌≤◌, IfOk};
ghost use Rattle.i9_model.specs.Run.{Finish};
ghost use Rattle.i9_model.specs.Image.{pairs_of};
ghost use Rattle.i9_model.specs.ScheduleText.{IsPlan};
ghost use Rattle.i9_model.specs.PrintedText.{end_code};
ghost use Rattle.i9_model.specs.declared.layout.TheConstants.{MAX_LENGTH};
ghost use Rattle.i9_schedule.specs.Plan.{contents};
ghost use Rattle.i9_lines.specs.Print.{account};
ghost use Rattle.i9_tool.specs.Inputs.{Runs, no_schedule};
ghost use Rattle.i9_tool.specs.Outcome.{Answers, AnswersSome, RunGives, TaskGives, code_for};
ghost use Rattle.i9_tool.specs.Run.{TellsEnd, printed_of};
ghost use Rattle.i9_tool.specs.Values.{code_of, plan_by, drive_by, run_by, task_by, IsDriven, CanRun, CanDo};
ghost use Rattle.i9_tool.specs.Words.{AreFew};

use crate::inputs::{Drive, Run, Task};
use crate::job::do_job;
use crate::listing::listing_of;
use crate::made::print_made;
use crate::run::{Ran, run_headed};
use crate::script::run_script;
use crate::source::image_of;
use crate::status::{Ending, ending_of};
use crate::tuned::tuned_of;
use crate::words::Range;
use i9_hex::Segments;
use i9_isa::NoMemory;
use i9_outside::Sink;
use i9_schedule::Schedule;
use std::alloc::Global;

/// How the command ends behind a run that went so.
fn ending_of_run(ran: Ran) -> Ending
    ensures ended { (f : Finish) → TellsEnd ran f → code_of result ≡ code_for (printed_of ran) (end_code f.end) }
    ensures read { code_of result ≢ 5 }
{
    match ran {
        Ran::Done(end) => ending_of(end),
        Ran::Write => Ending::Unwritten,
        Ran::Memory => Ending::NoMemory,
    }
}

/// Runs an image with the events of a schedule to its end, and prints the run.
fn print_run<K: Sink>(
    alloc: Global,
    image: &Segments,
    plan: &mut Schedule,
    sets: Option<u8>,
    limit: u64,
    traced: Option<Range>,
    out: &mut K,
) -> Ending
    requires few { AreFew sets }
    requires short { limit ≤ MAX_LENGTH }
    requires begins { plan.old.place ≡ 0 }
    requires plan { IsPlan plan.old.events }
    ensures answers { Answers (RunGives sets limit traced (pairs_of image.now) (contents plan.old))
        (code_of result) (account K.told K.faults K.writes K.sure K.pieces) out.old out.new }
    ensures read { code_of result ≢ 5 }
{
    ending_of_run(run_headed(alloc, image, plan, sets, limit, traced, out))
}

/// Runs an image with the events of a schedule, as far as it is driven.
fn drive_run<K: Sink>(
    alloc: Global,
    image: &Segments,
    plan: &mut Schedule,
    sets: Option<u8>,
    drive: &Drive,
    out: &mut K,
) -> Ending
    requires few { AreFew sets }
    requires driven { IsDriven drive.now }
    requires begins { plan.old.place ≡ 0 }
    requires plan { IsPlan plan.old.events }
    ensures answers { AnswersSome (TaskGives (Runs (pairs_of image.now) (contents plan.old) sets (drive_by drive.now)))
        (code_of result) (account K.told K.faults K.writes K.sure K.pieces) out.old out.new }
    ensures read { code_of result ≢ 5 }
{
    match drive {
        Drive::Length(limit, traced) => print_run(alloc, image, plan, sets, *limit, *traced, out),
        Drive::Script(script) => run_script(alloc, image, plan, sets, script, out),
    }
}

/// A schedule without events.
fn no_events(alloc: Global) -> Result<Schedule, NoMemory>
    ensures { IfOk result (λ s. contents s ≡ no_schedule) }
{
    match i9_schedule::read(alloc, b"") {
        Ok(schedule) => Ok(schedule),
        Err(_) => Err(NoMemory),
    }
}

/// The schedule that was named, or one without events.
fn plan_of(alloc: Global, named: Option<Schedule>) -> Result<Schedule, NoMemory>
    ensures { IfOk result (λ s. contents s ≡ plan_by named) }
{
    match named {
        Some(plan) => Ok(plan),
        None => no_events(alloc),
    }
}

/// Runs an image.
fn do_run<K: Sink>(alloc: Global, run: Run, out: &mut K) -> Ending
    requires can { CanRun run }
    ensures answers { AnswersSome (TaskGives (run_by run))
        (code_of result) (account K.told K.faults K.writes K.sure K.pieces) out.old out.new }
    ensures read { code_of result ≢ 5 }
{
    let Run {
        image,
        plan,
        sets,
        drive,
    } = run;
    match plan_of(alloc, plan) {
        Ok(mut plan) => {
            plan.rewind();
            drive_run(alloc, &image, &mut plan, sets, &drive, out)
        }
        Err(NoMemory) => Ending::NoMemory,
    }
}

/// Does what is to be done, and prints what it gives.
pub(crate) fn do_task<K: Sink>(alloc: Global, task: Task, out: &mut K) -> Ending
    requires can { CanDo task }
    ensures answers { AnswersSome (TaskGives (task_by task))
        (code_of result) (account K.told K.faults K.writes K.sure K.pieces) out.old out.new }
    ensures read { code_of result ≢ 5 }
{
    match task {
        Task::Run(run) => do_run(alloc, run, out),
        Task::Asm(format, image) => print_made(image_of(alloc, format, &image), out),
        Task::Dis(image) => print_made(listing_of(alloc, &image), out),
        Task::Gen(words) => do_job(alloc, words, out),
        Task::Tune(image, block) => print_made(tuned_of(alloc, &image, block), out),
    }
}
