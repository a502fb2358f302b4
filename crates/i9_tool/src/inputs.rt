//! The inputs of each form of the command: its files are read in order, before anything is done with them.
ghost use Rattle.std.specs.Prelude.{IfOk};
ghost use Rattle.std.specs.Option.{option_copied};
ghost use Rattle.i9_tool.specs.CommandLine.{driver_files, plan_files, files_of};
ghost use Rattle.i9_tool.specs.Fetches.{ReadsFiles, shelf};
ghost use Rattle.i9_tool.specs.Inputs.{SaysPlan, SaysDrive, IsTaskOf};
ghost use Rattle.i9_tool.specs.Values.{stop_of, plan_by, drive_by, task_by, IsDriven, CanDo};
ghost use Rattle.i9_tool.specs.Words.{driver_by, run_by, asked_by, CanRun, IsShort, Fits};
ghost use Rattle.i9_tool.specs.Values as values;

use crate::files::{read_commands, read_image, read_schedule, read_source};
use crate::refusal::InputError;
use crate::words::{Asked, Block, Driver, Format, JobWords, Range, RunWords};
use i9_hex::Segments;
use i9_outside::Files;
use i9_schedule::{Schedule, Script};
use std::alloc::Global;

/// What drives a run: a length with what is traced, or the commands of a script.
#[derive(Drop)]
pub(crate) enum Drive {
    Length(u64, Option<Range>),
    Script(Script),
}

/// A run of an image, with the events of a schedule, if one is named, in so many register sets, as far as it is driven.
#[derive(Drop)]
pub(crate) struct Run {
    pub(crate) image: Segments,
    pub(crate) plan: Option<Schedule>,
    pub(crate) sets: Option<u8>,
    pub(crate) drive: Drive,
}

/// What is to be done, with all that the files say.
#[derive(Drop)]
pub(crate) enum Task {
    Run(Run),
    Asm(Format, Segments),
    Dis(Segments),
    Gen(JobWords),
    Tune(Segments, Block),
}

/// Reads the schedule that is named, if one is.
fn read_plan<F: Files>(
    alloc: Global,
    words: &RunWords<'_>,
    files: &mut F,
) -> Result<Option<Schedule>, InputError>
    ensures reads { ReadsFiles (shelf F.told F.faults F.fetches F.sure) (plan_files (option_copied words.now.schedule))
        (stop_of result) files.old files.new }
    ensures says { IfOk result (λ plan. SaysPlan (F.told files.old) (option_copied words.now.schedule) (plan_by plan)) }
{
    match words.schedule {
        Some(name) => {
            let plan = read_schedule(alloc, name, files)?;
            Ok(Some(plan))
        }
        None => Ok(None),
    }
}

/// Reads the script that drives a run, if one does.
fn read_drive<F: Files>(
    alloc: Global,
    words: &RunWords<'_>,
    files: &mut F,
) -> Result<Drive, InputError>
    requires short { IsShort words.now.driver }
    ensures reads { ReadsFiles (shelf F.told F.faults F.fetches F.sure) (driver_files (driver_by words.now.driver))
        (stop_of result) files.old files.new }
    ensures says { IfOk result (λ drive. SaysDrive (F.told files.old) (driver_by words.now.driver) (drive_by drive)) }
    ensures short { IfOk result IsDriven }
{
    match words.driver {
        Driver::Length(limit, traced) => Ok(Drive::Length(limit, traced)),
        Driver::Script(name) => {
            let script = read_commands(alloc, name, files)?;
            Ok(Drive::Script(script))
        }
    }
}

/// Reads the image, the schedule and the script of a run, as far as they are named.
fn read_run<F: Files>(alloc: Global, words: &RunWords<'_>, files: &mut F) -> Result<Run, InputError>
    requires can { CanRun words.now }
    ensures reads { ReadsFiles (shelf F.told F.faults F.fetches F.sure) (files_of (run_by words.now))
        (stop_of result) files.old files.new }
    ensures says { IfOk result (λ run. IsTaskOf (F.told files.old) (run_by words.now) (values.run_by run)) }
    ensures can { IfOk result values.CanRun }
{
    let image = read_image(alloc, words.image, files)?;
    let plan = read_plan(alloc, words, files)?;
    let drive = read_drive(alloc, words, files)?;
    Ok(Run {
        image,
        plan,
        sets: words.sets,
        drive,
    })
}

/// Reads all files that the words name, one after the other, each once.
pub(crate) fn read_inputs<F: Files>(
    alloc: Global,
    asked: &Asked<'_>,
    files: &mut F,
) -> Result<Task, InputError>
    requires fits { Fits asked.now }
    ensures reads { ReadsFiles (shelf F.told F.faults F.fetches F.sure) (files_of (asked_by asked.now))
        (stop_of result) files.old files.new }
    ensures says { IfOk result (λ task. IsTaskOf (F.told files.old) (asked_by asked.now) (task_by task)) }
    ensures can { IfOk result CanDo }
{
    match asked {
        Asked::Run(words) => {
            let run = read_run(alloc, words, files)?;
            Ok(Task::Run(run))
        }
        Asked::Asm(format, source) => {
            let image = read_source(alloc, source, files)?;
            Ok(Task::Asm(*format, image))
        }
        Asked::Dis(image) => {
            let image = read_image(alloc, image, files)?;
            Ok(Task::Dis(image))
        }
        Asked::Gen(words) => Ok(Task::Gen(*words)),
        Asked::Tune(tune) => {
            let image = read_image(alloc, tune.image, files)?;
            Ok(Task::Tune(image, tune.block))
        }
    }
}
