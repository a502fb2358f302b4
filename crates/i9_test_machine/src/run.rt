//! A machine with its image, its schedule and its lines, and how it goes on.
ghost use Rattle.std.specs.Prelude.{◌≡◌, ◌<◌, ◌≤◌, IfSome, IfOk};
ghost use Rattle.i9_model.specs.declared.layout.TheConstants.{MAX_LENGTH};
ghost use Rattle.i9_model.specs.ScheduleText.{IsPlan};
ghost use Rattle.i9_machine.specs.InRun.{IsInRun};
ghost use Rattle.i9_schedule.specs.Plan.{Plan};

use i9_hex::Segments;
use i9_machine::{Line, Machine, Turn};
use i9_model::layout::MAX_LENGTH;
use i9_schedule::{Schedule, read};
use std::alloc::Global;
use std::mem;
use std::test::Fail;

/// An image, and a machine that was made of one, with its schedule and the lines that are not told yet; and the machine
/// that was copied last, as it was then.
#[derive(Drop)]
pub(crate) struct Run {
    pub(crate) image: Segments,
    pub(crate) machine: Machine,
    pub(crate) plan: Schedule,
    pub(crate) lines: Vec<Line>,
    pub(crate) copied: Option<Machine>,
}

/// Puts words into an image, in hexadecimal digits behind the address of the first.
pub(crate) fn put_words(alloc: Global, image: &mut Segments, text: &str) -> Result<(), Fail> {
    let (address, words) = text.split_once(" ").unwrap_or((text, ""));
    let mut bytes = Vec::new(alloc);
    for word in words.split_whitespace() {
        bytes.extend_from_slice(&u32::from_str_radix(word, 16)?.to_le_bytes())?;
    }
    image.push(u32::from_str_radix(address, 16)?, bytes)?;
    Ok(())
}

/// An image whose boot record names a program at 1000, with words.
pub(crate) fn image_of(alloc: Global, text: &str) -> Result<Segments, Fail> {
    let mut image = Segments::new(alloc);
    put_words(alloc, &mut image, "FFFFFF10 1000")?;
    put_words(alloc, &mut image, text)?;
    Ok(image)
}

/// The schedule of events, which are divided by semicolons.
fn schedule_of(alloc: Global, events: &str) -> Result<Schedule, Fail>
    ensures plan { IfOk result (λ p. IsPlan p.events) }
    ensures place { IfOk result (λ p. p.place ≡ 0) }
{
    let mut lines = String::new(alloc);
    for event in events.split("; ") {
        lines.push_str(event)?;
        lines.push_str("\n")?;
    }
    match read(alloc, lines.as_bytes()) {
        Ok(plan) => Ok(plan),
        Err(_) => Err("no schedule".into()),
    }
}

/// What a machine is asked for: that many sets, at most 15, or at 0 those of the PRCB.
fn asked(sets: u8) -> Option<u8>
    ensures { IfSome result (λ n. 0 < n × n < 16) }
{
    match sets {
        0 => None,
        n => Some(n.min(15)),
    }
}

/// A machine before its first step, with events.
fn run_of(alloc: Global, image: Segments, sets: u8, length: u64, events: &str) -> Result<Run, Fail>
    requires { length ≤ MAX_LENGTH }
    ensures { IfOk result (λ r. IsInRun r.machine r.plan) }
{
    let plan = schedule_of(alloc, events)?;
    let machine = Machine::new(alloc, &image, asked(sets), length)?;
    Ok(Run {
        image,
        machine,
        plan,
        lines: Vec::new(alloc),
        copied: None,
    })
}

/// The run that a script begins with: of no instruction, and of an image without bytes.
pub(crate) fn idle(alloc: Global) -> Result<Run, Fail>
    ensures { IfOk result (λ r. IsInRun r.machine r.plan) }
{
    run_of(alloc, Segments::new(alloc), 0, 0, "")
}

/// Starts another machine of the image: of so many instructions, of so many sets, and behind a colon its events.
pub(crate) fn start(alloc: Global, run: &mut Run, text: &str) -> Result<(), Fail>
    requires { IsInRun run.old.machine run.old.plan }
    ensures { IsInRun run.new.machine run.new.plan }
{
    let (numbers, events) = text.split_once(": ").unwrap_or((text, ""));
    let (length, sets) = numbers.split_once(" ").unwrap_or((numbers, "0"));
    let length = length.parse::<u32>()?;
    let sets = sets.parse::<u8>()?;
    let image = mem::replace(&mut run.image, Segments::new(alloc));
    *run = run_of(alloc, image, sets, u64::from(length.min(100)), events)?;
    Ok(())
}

/// A copy of a machine, which is in the same run; not behind the end.
fn copied(alloc: Global, machine: &Machine) -> Result<Machine, Fail>
    ensures { (plan : Plan) → IsInRun machine.now plan → IfOk result (λ m. IsInRun m plan) }
{
    match machine.ended() {
        Some(_) => Err("the run has ended".into()),
        None => {
            let copy = machine.copy(alloc)?;
            Ok(copy)
        }
    }
}

/// Goes on with a copy of the machine, and keeps that.
pub(crate) fn copy(alloc: Global, run: &mut Run) -> Result<(), Fail>
    requires { IsInRun run.old.machine run.old.plan }
    ensures { IsInRun run.new.machine run.new.plan }
{
    let copy = copied(alloc, &run.machine)?;
    run.copied = Some(mem::replace(&mut run.machine, copy));
    Ok(())
}

/// One step, which may be a move of the turn.
pub(crate) fn advance(run: &mut Run) -> Turn
    requires { IsInRun run.old.machine run.old.plan }
    ensures { IsInRun run.new.machine run.new.plan }
{
    run.machine.advance(&mut run.plan, &mut run.lines)
}

/// One whole turn.
pub(crate) fn turn(run: &mut Run) -> Turn
    requires { IsInRun run.old.machine run.old.plan }
    ensures { IsInRun run.new.machine run.new.plan }
{
    run.machine.turn(&mut run.plan, &mut run.lines)
}

/// One step, behind the turns at which nothing comes.
pub(crate) fn proceed(run: &mut Run) -> Turn
    requires { IsInRun run.old.machine run.old.plan }
    ensures { IsInRun run.new.machine run.new.plan }
{
    run.machine.proceed(&mut run.plan, &mut run.lines)
}

/// One step below a turn, behind the turns at which nothing comes; nothing where none comes below it.
pub(crate) fn proceed_below(run: &mut Run, until: u64) -> Option<Turn>
    requires { IsInRun run.old.machine run.old.plan }
    ensures { IsInRun run.new.machine run.new.plan }
{
    run.machine
        .proceed_below(until, &mut run.plan, &mut run.lines)
}

/// Lands all that is open, and says whether the view stays as it is.
pub(crate) fn settle(run: &mut Run) -> bool
    requires { IsInRun run.old.machine run.old.plan }
    ensures { IsInRun run.new.machine run.new.plan }
{
    let before = run.machine.view();
    run.machine.settle();
    run.machine.view() == before
}

/// How often the turn moves before the next step that is no move, at most 1000 times, and that step. A move
/// has no line, and each other step that is answered so has one.
pub(crate) fn moves_and_step(run: &mut Run) -> (u64, Turn)
    requires { IsInRun run.old.machine run.old.plan }
    ensures { IsInRun run.new.machine run.new.plan }
{
    let before = run.lines.len();
    for moves in 0..1000u64 {
        let last = advance(run);
        if last != Turn::On || run.lines.len() != before {
            return (moves, last);
        }
    }
    (1000, Turn::On)
}

/// The next step that is no move of the turn.
pub(crate) fn step(run: &mut Run) -> Turn
    requires { IsInRun run.old.machine run.old.plan }
    ensures { IsInRun run.new.machine run.new.plan }
{
    moves_and_step(run).1
}

/// So many steps that are no moves of the turn, the most frames that are held behind one of them, and the last.
pub(crate) fn steps(run: &mut Run, count: usize) -> (u8, Turn)
    requires { IsInRun run.old.machine run.old.plan }
    ensures { IsInRun run.new.machine run.new.plan }
{
    let mut most = 0u8;
    let mut last = Turn::On;
    for _ in 0..count {
        last = step(run);
        most = most.max(run.machine.held().len());
    }
    (most, last)
}

/// So many turns, or those up to the end.
pub(crate) fn turns(run: &mut Run, count: usize)
    requires { IsInRun run.old.machine run.old.plan }
    ensures { IsInRun run.new.machine run.new.plan }
{
    for _ in 0..count {
        let _ = turn(run);
    }
}
