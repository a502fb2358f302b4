//! Scripts over machines. A row has three columns: a remark for the reader, steps, and what they answer.
//!
//! - `image A W ..` takes another image, of a boot record and words from an address on; `put A W ..` adds words.
//! - `run N S: EVENTS` starts a machine of the image: of at most N instructions, of S sets where these are not those
//!   of the PRCB, with a schedule. It answers nothing, and neither do `steps N` and `turns N`, which go on.
//! - `advance`, `turn`, `proceed` and `settle` are calls of the machine, and `step` advances to the next step that is
//!   no move of the turn. `below N` proceeds below turn N, and answers `none` where nothing comes there. `issue` answers
//!   the instruction of that step, `moves` how often the turn moved before it, `most N` the most frames that were held
//!   in N of them, and `end` how the run ends.
//! - `copy` goes on with a copy of the machine, and keeps that.
//! - A word with a question mark asks for what it names; behind `kept` it asks the machine that was copied last.
//!
//! Counts, turns and the numbers of registers are decimal; addresses, words and bytes are hexadecimal.
ghost use Rattle.i9_machine.specs.InRun.{IsInRun};

use crate::check::same_at;
use crate::run::{
    Run, advance, copy, idle, image_of, moves_and_step, proceed, proceed_below, put_words, settle,
    start, step, steps, turn, turns,
};
use crate::told::{
    add, answer, below_text, counted_text, issue_text, lines_text, truth, turn_text,
};
use std::alloc::Global;
use std::process::Abort;
use std::test::Fail;

/// The steps and the answers of a row.
pub(crate) fn columns(row: &str) -> Result<(&str, &str), Fail> {
    let (_, rest) = row.split_once("|").unwrap_or((row, ""));
    match rest.split_once("|") {
        Some((steps, rest)) => {
            let (wanted, _) = rest.split_once("|").unwrap_or((rest, ""));
            Ok((steps.trim(), wanted.trim()))
        }
        None => Err("a row has three columns".into()),
    }
}

/// Tells the lines that were printed since they were told last.
fn tell_lines(alloc: Global, run: &mut Run) -> Result<String, Fail>
    requires { IsInRun run.old.machine run.old.plan }
    ensures { IsInRun run.new.machine run.new.plan }
{
    let text = lines_text(alloc, run.lines.as_slice(), &run.machine.view())?;
    run.lines.clear();
    Ok(text)
}

/// Goes on by more than one step, or asks.
fn goes_on(alloc: Global, run: &mut Run, name: &str, rest: &str) -> Result<String, Fail>
    requires { IsInRun run.old.machine run.old.plan }
    ensures { IsInRun run.new.machine run.new.plan }
{
    match name {
        "most" => {
            let (most, last) = steps(run, rest.parse::<usize>()?);
            counted_text(alloc, u64::from(most), last)
        }
        "end" => turn_text(alloc, steps(run, 201).1),
        "lines?" => tell_lines(alloc, run),
        "kept" => match &run.copied {
            Some(machine) => {
                let (name, rest) = rest.split_once(" ").unwrap_or((rest, ""));
                answer(alloc, machine, name, rest)
            }
            None => Err("no machine was copied".into()),
        },
        "planned?" => truth(alloc, run.plan.next().is_some()),
        _ => answer(alloc, &run.machine, name, rest),
    }
}

/// Goes on by one call of the machine, or by one step that is no move of the turn.
fn goes(alloc: Global, run: &mut Run, name: &str, rest: &str) -> Result<String, Fail>
    requires { IsInRun run.old.machine run.old.plan }
    ensures { IsInRun run.new.machine run.new.plan }
{
    match name {
        "advance" => turn_text(alloc, advance(run)),
        "step" => turn_text(alloc, step(run)),
        "turn" => turn_text(alloc, turn(run)),
        "proceed" => turn_text(alloc, proceed(run)),
        "below" => below_text(alloc, proceed_below(run, rest.parse::<u64>()?)),
        "settle" => {
            let stays = settle(run);
            truth(alloc, stays)
        }
        "issue" => issue_text(alloc, step(run)),
        "moves" => {
            let (moves, last) = moves_and_step(run);
            counted_text(alloc, moves, last)
        }
        _ => goes_on(alloc, run, name, rest),
    }
}

/// Does a step that answers nothing, where it is one.
fn changes(alloc: Global, run: &mut Run, name: &str, rest: &str) -> Result<bool, Fail>
    requires { IsInRun run.old.machine run.old.plan }
    ensures { IsInRun run.new.machine run.new.plan }
{
    match name {
        "image" => {
            run.image = image_of(alloc, rest)?;
            Ok(true)
        }
        "put" => {
            put_words(alloc, &mut run.image, rest)?;
            Ok(true)
        }
        "run" => {
            start(alloc, run, rest)?;
            Ok(true)
        }
        "copy" => {
            copy(alloc, run)?;
            Ok(true)
        }
        "steps" => {
            let _ = steps(run, rest.parse::<usize>()?);
            Ok(true)
        }
        "turns" => {
            turns(run, rest.parse::<usize>()?);
            Ok(true)
        }
        _ => Ok(false),
    }
}

/// Does a step, or asks.
fn does(alloc: Global, run: &mut Run, name: &str, rest: &str) -> Result<String, Fail>
    requires { IsInRun run.old.machine run.old.plan }
    ensures { IsInRun run.new.machine run.new.plan }
{
    if changes(alloc, run, name, rest)? {
        return Ok(String::new(alloc));
    }
    goes(alloc, run, name, rest)
}

/// Does the steps of a row, and tells what they answer.
pub(crate) fn told(alloc: Global, run: &mut Run, steps: &str) -> Result<String, Fail>
    requires { IsInRun run.old.machine run.old.plan }
    ensures { IsInRun run.new.machine run.new.plan }
{
    let mut text = String::new(alloc);
    for part in steps.split(", ") {
        let (name, rest) = part.split_once(" ").unwrap_or((part, ""));
        add(&mut text, &does(alloc, run, name, rest)?)?;
    }
    Ok(text)
}

/// Does the rows of a table one after the other, each of which has to be answered as it says.
fn table_holds(rt: &impl Abort, alloc: Global, run: &mut Run, table: &str) -> Result<(), Fail>
    requires { IsInRun run.old.machine run.old.plan }
    ensures { IsInRun run.new.machine run.new.plan }
{
    for row in table.lines() {
        let (steps, wanted) = columns(row)?;
        let answers = told(alloc, run, steps)?;
        same_at(rt, answers.as_str(), wanted, row);
    }
    Ok(())
}

/// Does the rows of tables, the first from the run on that a script begins with.
pub(crate) fn tables_hold(rt: &impl Abort, alloc: Global, tables: &[&str]) -> Result<(), Fail> {
    let mut run = idle(alloc)?;
    for table in tables {
        table_holds(rt, alloc, &mut run, table)?;
    }
    Ok(())
}
