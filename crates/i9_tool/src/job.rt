//! The command `gen`: the run of the job that is made from a number.
ghost use Rattle.std.specs.Prelude.{◌≡◌, ◌≢◌};
ghost use Rattle.i9_text.specs.Text.{lines_of};
ghost use Rattle.i9_model.specs.ScheduleText.{IsSchedule, IsPlan};
ghost use Rattle.i9_asm.specs.Laws.{IsAssembly};
ghost use Rattle.i9_generator.specs.Generator.{generated_source, generated_schedule};
ghost use Rattle.i9_tool.specs.Words.{AreFew};
ghost use Rattle.i9_schedule.specs.Plan.{contents};
ghost use Rattle.i9_lines.specs.Print.{account};
ghost use Rattle.i9_tool.specs.Outcome.{AnswersSome, GenGives};
ghost use Rattle.i9_tool.specs.Values.{code_of};

use crate::run::count_run;
use crate::status::{Ending, ending_for, ending_of};
use crate::words::JobWords;
use i9_asm::{AsmError, assemble};
use i9_debug::print_generated;
use i9_generator::generate;
use i9_hex::Segments;
use i9_isa::NoMemory;
use i9_model::layout::MAX_LENGTH;
use i9_outside::Sink;
use i9_schedule::{LineError, Schedule};
use std::alloc::Global;

/// Runs the image of a job with its events, and prints the line of what the run comes to.
fn run_job<K: Sink>(
    alloc: Global,
    words: JobWords,
    image: &Segments,
    plan: &mut Schedule,
    out: &mut K,
) -> Ending
    requires few { AreFew words.sets }
    requires begins { plan.old.place ≡ 0 }
    requires plan { IsPlan plan.old.events }
    requires assembled { IsAssembly (lines_of (generated_source words.number)) image.now }
    requires said { IsSchedule (lines_of (generated_schedule words.number)) (contents plan.old) }
    ensures answers { AnswersSome (GenGives words.number words.sets)
        (code_of result) (account K.told K.faults K.writes K.sure K.pieces) out.old out.new }
    ensures read { code_of result ≢ 5 }
{
    match count_run(alloc, image, plan, words.sets, MAX_LENGTH) {
        Ok(counted) => {
            let printed = print_generated(
                alloc,
                words.number,
                counted.count,
                counted.events,
                counted.end,
                out,
            );
            ending_for(printed, ending_of(counted.end))
        }
        Err(NoMemory) => Ending::NoMemory,
    }
}

/// Runs the image of a job with the events of its schedule, which is accepted as every one that is made.
fn schedule_job<K: Sink>(
    alloc: Global,
    words: JobWords,
    image: &Segments,
    schedule: &[u8],
    out: &mut K,
) -> Ending
    requires few { AreFew words.sets }
    requires assembled { IsAssembly (lines_of (generated_source words.number)) image.now }
    requires schedule { schedule.now ≡ generated_schedule words.number }
    ensures answers { AnswersSome (GenGives words.number words.sets)
        (code_of result) (account K.told K.faults K.writes K.sure K.pieces) out.old out.new }
    ensures read { code_of result ≢ 5 }
{
    match i9_schedule::read(alloc, schedule) {
        Ok(mut plan) => run_job(alloc, words, image, &mut plan, out),
        Err(LineError::Bad(_)) => unreachable!(),
        Err(LineError::Memory) => Ending::NoMemory,
    }
}

/// Assembles the source of a job, which is accepted as every one that is made, and runs it with its schedule.
fn assemble_job<K: Sink>(
    alloc: Global,
    words: JobWords,
    source: &[u8],
    schedule: &[u8],
    out: &mut K,
) -> Ending
    requires few { AreFew words.sets }
    requires source { source.now ≡ generated_source words.number }
    requires schedule { schedule.now ≡ generated_schedule words.number }
    ensures answers { AnswersSome (GenGives words.number words.sets)
        (code_of result) (account K.told K.faults K.writes K.sure K.pieces) out.old out.new }
    ensures read { code_of result ≢ 5 }
{
    match assemble(alloc, source) {
        Ok(image) => schedule_job(alloc, words, &image, schedule, out),
        Err(AsmError::Bad(_)) => unreachable!(),
        Err(AsmError::Memory) => Ending::NoMemory,
    }
}

/// Makes the job of a number, runs it, and prints the line of what its run comes to.
pub(crate) fn do_job<K: Sink>(alloc: Global, words: JobWords, out: &mut K) -> Ending
    requires few { AreFew words.sets }
    ensures answers { AnswersSome (GenGives words.number words.sets)
        (code_of result) (account K.told K.faults K.writes K.sure K.pieces) out.old out.new }
    ensures read { code_of result ≢ 5 }
{
    match generate(alloc, words.number) {
        Ok((source, schedule)) => assemble_job(alloc, words, &source, &schedule, out),
        Err(NoMemory) => Ending::NoMemory,
    }
}
