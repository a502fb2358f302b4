//! A session of the debugger: what the commands of a script print, over a machine.
ghost use Rattle.std.specs.Prelude.{◌≡◌, ◌+◌, ◌<◌, ◌≤◌, nat_eq, [], List, Option, None, IfSome, OnOk, OnErr};
ghost use Rattle.i9_model.specs.Given.{Given};
ghost use Rattle.i9_course.specs.Course.{Item};
ghost use Rattle.i9_machine.specs.InRun.{IsInRun};
ghost use Rattle.i9_machine.specs.StandsFor.{StandsFor, Follows, IsUnderWay};
ghost use Rattle.i9_schedule.specs.ScriptText.{IsCommandInRange, most_turns};
ghost use Rattle.i9_tracer.specs.Closures.{TakesEachView};
ghost use Rattle.i9_back.specs.Stands.{StaysAt};
ghost use Rattle.i9_back.specs.Trail.{IsTrail};
ghost use Rattle.i9_lines.specs.Print.{Prints, account, output};
ghost use Rattle.i9_debug.specs.Session.{Place, at, UnlessOver, Stays, TurnsTo, ComesTo, Runs, Answers, told};
ghost use Rattle.i9_debug.specs.Driven.{StandsAt, IsOf, IsPlace, IsDebugged, given_of, target};
ghost use Rattle.i9_debug.specs.Driven.{Drives, AtMostOne, CutInRun, CutOnWay, CutInAnswer, StopsBy};
ghost use Rattle.i9_debug.specs.Driven.{RunsScript};
ghost use Rattle.i9_lines.specs.declared.print.Printed.TheVariants as printed;

use crate::backward::{back_by, back_to, change_told};
use crate::telling::told_text;
use i9_back::Trail;
use i9_hex::Segments;
use i9_isa::NoMemory;
use i9_lines::{Printed, print_lines, print_text};
use i9_machine::{End, Machine, Turn};
use i9_model::View;
use i9_outside::Sink;
use i9_schedule::{Command, Schedule, Script};
use i9_tracer::{Stop, ViewTest};
use std::alloc::Global;

/// How a session ended.
#[derive(Clone, Copy, Debug, PartialEq, Eq)]
pub enum SessionEnd {
    /// The whole text was written, and the run can go on behind it.
    Done,
    /// The whole text was written, and the run stands at this end.
    Stopped(End),
    /// A write failed; a front of the text was written, perhaps nothing.
    Write,
    /// Memory was refused; a front of the text was written, perhaps nothing.
    Memory,
}

/// Runs until so many turns have passed, fewer at an end, and prints the lines of each step.
fn run_turns<K: Sink>(
    alloc: Global,
    m: &mut Machine,
    plan: &mut Schedule,
    count: u64,
    out: &mut K,
) -> Printed
    requires stands { IsUnderWay m.old plan.old }
    requires some { 1 ≤ count }
    requires few { count ≤ most_turns }
    ensures { (g : Given) (h : List Item) → StandsFor g h None m.old → Follows g h plan.old
        → Drives (TurnsTo g h (m.old.pipeline.turn + count)) (CutInRun g AtMostOne h) result g
        (output (account K.told K.faults K.writes K.sure K.pieces) out.old out.new) (target m.new plan.new) }
{
    let until = m.at_turn() + count;
    let mut text = Vec::new(alloc);
    let mut lines = Vec::new(alloc);
    loop {
        lines.clear();
        let Some(turn) = m.proceed_below(until, plan, &mut lines) else {
            return Printed::Done;
        };
        match print_lines(alloc, &mut text, &lines, out) {
            Printed::Done => {}
            Printed::Write => return Printed::Write,
            Printed::Memory => return Printed::Memory,
        }
        match turn {
            Turn::On => {}
            Turn::Issued(_) => {}
            Turn::End(_) => return Printed::Done,
            Turn::Memory => return Printed::Memory,
        }
    }
}

/// Runs until the first instruction issued in this call after which a stop holds of the view, or else until the end,
/// and prints the lines of each step.
fn run_to_stop<K: Sink, F: Fn(&View) -> bool + ViewTest>(
    alloc: Global,
    m: &mut Machine,
    plan: &mut Schedule,
    s: &Stop<F>,
    out: &mut K,
) -> Printed
    requires stands { IsUnderWay m.old plan.old }
    ensures { (g : Given) (h : List Item) → StandsFor g h None m.old → Follows g h plan.old
        → Drives (StopsBy result (F.ViewTest.allows s.now) g h) (CutInRun g AtMostOne h) result g
        (output (account K.told K.faults K.writes K.sure K.pieces) out.old out.new) (target m.new plan.new) }
{
    let mut text = Vec::new(alloc);
    let mut lines = Vec::new(alloc);
    loop {
        lines.clear();
        let turn = m.proceed(plan, &mut lines);
        match print_lines(alloc, &mut text, &lines, out) {
            Printed::Done => {}
            Printed::Write => return Printed::Write,
            Printed::Memory => return Printed::Memory,
        }
        match turn {
            Turn::On => {}
            Turn::Issued(_) => {
                if s.holds(&m.view()) {
                    return Printed::Done;
                }
            }
            Turn::End(_) => return Printed::Done,
            Turn::Memory => return Printed::Memory,
        }
    }
}

/// Runs as `run_to_stop` does, under the stop of a closure.
fn run_while_not<K: Sink, F: Fn(&View) -> bool + ViewTest>(
    alloc: Global,
    m: &mut Machine,
    plan: &mut Schedule,
    f: F,
    out: &mut K,
) -> Printed
    requires stands { IsUnderWay m.old plan.old }
    requires takes { TakesEachView (F.ViewTest.can_test f) }
    ensures { (g : Given) (h : List Item) → StandsFor g h None m.old → Follows g h plan.old
        → Drives (StopsBy result (F.ViewTest.allows f) g h) (CutInRun g AtMostOne h) result g
        (output (account K.told K.faults K.writes K.sure K.pieces) out.old out.new) (target m.new plan.new) }
{
    run_to_stop(alloc, m, plan, &Stop::new(f), out)
}

/// Runs until the first instruction issued in this call after which the view's instruction address is this one, or
/// else until the end, and prints the lines of each step.
fn run_to<K: Sink>(
    alloc: Global,
    m: &mut Machine,
    plan: &mut Schedule,
    address: u32,
    out: &mut K,
) -> Printed
    requires stands { IsUnderWay m.old plan.old }
    ensures { (g : Given) (h : List Item) → StandsFor g h None m.old → Follows g h plan.old
        → Drives (ComesTo g h address) (CutInRun g AtMostOne h) result g
        (output (account K.told K.faults K.writes K.sure K.pieces) out.old out.new) (target m.new plan.new) }
{
    let is_there = |v: &View|
        ensures { result ≡ nat_eq v.now.ip address }
    { v.ip == address };
    run_while_not(alloc, m, plan, is_there, out)
}

/// Runs as `run_turns` does; at an end nothing.
fn turn_on<K: Sink>(
    alloc: Global,
    m: &mut Machine,
    plan: &mut Schedule,
    count: u64,
    out: &mut K,
) -> Printed
    requires stands { IsInRun m.old plan.old }
    requires some { 1 ≤ count }
    requires few { count ≤ most_turns }
    ensures { (g : Given) (p : Place) → StandsAt g p m.old plan.old
        → Drives (λ x q. UnlessOver p.end (TurnsTo g p.items (p.turn + count) x q) (Stays p x q))
        (CutInRun g AtMostOne p.items) result g
        (output (account K.told K.faults K.writes K.sure K.pieces) out.old out.new) (target m.new plan.new) }
{
    match m.ended() {
        None => run_turns(alloc, m, plan, count, out),
        Some(_) => Printed::Done,
    }
}

/// Runs as `run_to` does; at an end nothing.
fn come_to<K: Sink>(
    alloc: Global,
    m: &mut Machine,
    plan: &mut Schedule,
    address: u32,
    out: &mut K,
) -> Printed
    requires stands { IsInRun m.old plan.old }
    ensures { (g : Given) (p : Place) → StandsAt g p m.old plan.old
        → Drives (λ x q. UnlessOver p.end (ComesTo g p.items address x q) (Stays p x q))
        (CutInRun g AtMostOne p.items) result g
        (output (account K.told K.faults K.writes K.sure K.pieces) out.old out.new) (target m.new plan.new) }
{
    match m.ended() {
        None => run_to(alloc, m, plan, address, out),
        Some(_) => Printed::Done,
    }
}

/// What was printed on the way back, which is nothing, or memory was refused.
fn gone(went: Result<(), NoMemory>) -> Printed
    ensures done { OnOk went (result ≡ printed.Done) }
    ensures refused { OnErr went (result ≡ printed.Memory) }
{
    match went {
        Ok(()) => Printed::Done,
        Err(_) => Printed::Memory,
    }
}

/// Runs what a command runs, if anything, and prints the lines of it. At an end nothing is run; what goes back does so
/// from there too, and prints nothing.
fn run_command<K: Sink>(
    alloc: Global,
    image: &Segments,
    sets: Option<u8>,
    trail: &mut Trail,
    m: &mut Machine,
    plan: &mut Schedule,
    c: &Command,
    out: &mut K,
) -> Printed
    requires sets { IfSome sets (λ n. 0 < n × n < 16) }
    requires stands { IsDebugged image.now sets m.old plan.old }
    requires range { IsCommandInRange c.now }
    requires trail { IsTrail (given_of image.now sets plan.old) trail.old }
    ensures drives { (g : Given) (p : Place) → IsOf image.now sets g → IsPlace g p → StandsAt g p m.old plan.old
        → Drives (Runs g c.now p) (CutOnWay g p c.now) result g
        (output (account K.told K.faults K.writes K.sure K.pieces) out.old out.new) (target m.new plan.new) }
    ensures trail { IsTrail (given_of image.now sets plan.old) trail.new }
{
    match c {
        Command::Turn(count) => turn_on(alloc, m, plan, *count, out),
        Command::Until(address) => come_to(alloc, m, plan, *address, out),
        Command::Back(count) => gone(back_by(alloc, image, sets, trail, m, plan, *count)),
        Command::Last(address) => gone(back_to(alloc, image, sets, trail, m, plan, *address)),
        Command::Regs => Printed::Done,
        Command::Raw => Printed::Done,
        Command::Held => Printed::Done,
        Command::Mem(_, _) => Printed::Done,
        Command::RawMem(_, _) => Printed::Done,
        Command::Who(_) => Printed::Done,
    }
}

/// Prints what a command tells of the place at which a machine stands. The schedule stays where it is.
fn tell<K: Sink>(
    alloc: Global,
    image: &Segments,
    sets: Option<u8>,
    trail: &mut Trail,
    m: &Machine,
    plan: &mut Schedule,
    c: &Command,
    out: &mut K,
) -> Printed
    requires sets { IfSome sets (λ n. 0 < n × n < 16) }
    requires stands { IsDebugged image.now sets m.now plan.old }
    requires trail { IsTrail (given_of image.now sets plan.old) trail.old }
    ensures told { (g : Given) (p : Place) → IsOf image.now sets g → IsPlace g p → StandsAt g p m.now plan.old
        → Prints result (account K.told K.faults K.writes K.sure K.pieces) out.old out.new
        (told g p.items m.now.pipeline.turn c.now) }
    ensures same { StaysAt plan.old plan.new }
    ensures trail { IsTrail (given_of image.now sets plan.old) trail.new }
{
    match change_told(alloc, image, sets, trail, m, plan, c) {
        Ok(change) => match told_text(alloc, m, c, change) {
            Ok(text) => print_text(&text, out),
            Err(_) => Printed::Memory,
        },
        Err(_) => Printed::Memory,
    }
}

/// Runs what a command runs, if anything, and then tells what it tells.
fn answer<K: Sink>(
    alloc: Global,
    image: &Segments,
    sets: Option<u8>,
    trail: &mut Trail,
    m: &mut Machine,
    plan: &mut Schedule,
    c: &Command,
    out: &mut K,
) -> Printed
    requires sets { IfSome sets (λ n. 0 < n × n < 16) }
    requires stands { IsDebugged image.now sets m.old plan.old }
    requires range { IsCommandInRange c.now }
    requires trail { IsTrail (given_of image.now sets plan.old) trail.old }
    ensures drives { (g : Given) (p : Place) → IsOf image.now sets g → IsPlace g p → StandsAt g p m.old plan.old
        → Drives (Answers g c.now p) (CutInAnswer g c.now p) result g
        (output (account K.told K.faults K.writes K.sure K.pieces) out.old out.new) (target m.new plan.new) }
    ensures trail { IsTrail (given_of image.now sets plan.old) trail.new }
{
    match run_command(alloc, image, sets, trail, m, plan, c, out) {
        Printed::Done => tell(alloc, image, sets, trail, m, plan, c, out),
        Printed::Write => Printed::Write,
        Printed::Memory => Printed::Memory,
    }
}

/// Does the commands of a script in order, and writes what they print: each line by one call of the sink, as it
/// arises. The text is this project's own; `specs/Session.antt` defines it. The machine is new, from this image and
/// these sets, with the longest length, and the schedule stands at its first event.
///
/// A command that goes back has the run done again, the first one from its start, and later ones from the nearest of
/// the machines that are kept on the way; the lines that arise on the way are not written, and those that arise when
/// the run goes forward again are written again. `Done` and `Stopped` say that the whole text was written, and whether
/// the run stands at an end when the script is over. At an end nothing is run, and what stands then is told. Where a
/// write fails or memory is refused, the session stops there, and a front of the text was written.
pub fn session<K: Sink>(
    alloc: Global,
    image: &Segments,
    sets: Option<u8>,
    m: &mut Machine,
    plan: &mut Schedule,
    s: &Script,
    out: &mut K,
) -> SessionEnd
    requires sets { IfSome sets (λ n. 0 < n × n < 16) }
    requires stands { StandsAt (given_of image.now sets plan.old) (at [] 1) m.old plan.old }
    ensures { RunsScript result (given_of image.now sets plan.old) (at [] 1) s.now
        (output (account K.told K.faults K.writes K.sure K.pieces) out.old out.new) (target m.new plan.new) }
{
    let commands = s.commands();
    let mut trail = Trail::new(alloc);
    for c in commands {
        match answer(alloc, image, sets, &mut trail, m, plan, c, out) {
            Printed::Done => {}
            Printed::Write => return SessionEnd::Write,
            Printed::Memory => return SessionEnd::Memory,
        }
    }
    match m.ended() {
        None => SessionEnd::Done,
        Some(end) => SessionEnd::Stopped(end),
    }
}
