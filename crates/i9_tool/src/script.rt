//! A script that drives the run of an image.
ghost use Rattle.std.specs.Prelude.{◌≡◌, ◌≢◌, Option};
ghost use Rattle.i9_model.specs.declared.run.End.{End as LastEnd};
ghost use Rattle.i9_model.specs.Image.{pairs_of};
ghost use Rattle.i9_model.specs.ScheduleText.{IsPlan};
ghost use Rattle.i9_debug.specs.Driven.{TellsEnd, printed_of};
ghost use Rattle.i9_lines.specs.Print.{account};
ghost use Rattle.i9_tool.specs.Outcome.{AnswersSome, ScriptGives, code_for, driven_code};
ghost use Rattle.i9_tool.specs.Values.{code_of};
ghost use Rattle.i9_tool.specs.Words.{AreFew};

use crate::status::{Ending, ending_of};
use i9_debug::{SessionEnd, session};
use i9_hex::Segments;
use i9_machine::Machine;
use i9_model::layout::MAX_LENGTH;
use i9_outside::Sink;
use i9_schedule::{Schedule, Script};
use std::alloc::Global;

/// How the command ends behind a session that ended so.
fn ending_of_session(end: SessionEnd) -> Ending
    ensures told { (e : Option LastEnd) → TellsEnd end e → code_of result ≡ code_for (printed_of end) (driven_code e) }
    ensures read { code_of result ≢ 5 }
{
    match end {
        SessionEnd::Done => Ending::Done,
        SessionEnd::Stopped(end) => ending_of(end),
        SessionEnd::Write => Ending::Unwritten,
        SessionEnd::Memory => Ending::NoMemory,
    }
}

/// Runs an image with the events of a schedule as far as a script drives it, and prints what its commands print.
pub(crate) fn run_script<K: Sink>(
    alloc: Global,
    image: &Segments,
    plan: &mut Schedule,
    sets: Option<u8>,
    script: &Script,
    out: &mut K,
) -> Ending
    requires few { AreFew sets }
    requires begins { plan.old.place ≡ 0 }
    requires plan { IsPlan plan.old.events }
    ensures answers { AnswersSome (ScriptGives sets (pairs_of image.now) plan.old.events script.now)
        (code_of result) (account K.told K.faults K.writes K.sure K.pieces) out.old out.new }
    ensures read { code_of result ≢ 5 }
{
    match Machine::new(alloc, image, sets, MAX_LENGTH) {
        Ok(mut machine) => {
            ending_of_session(session(alloc, image, sets, &mut machine, plan, script, out))
        }
        Err(_) => Ending::NoMemory,
    }
}
