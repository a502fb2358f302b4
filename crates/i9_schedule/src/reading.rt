//! Reading a text line by line.
ghost use Rattle.std.specs.Prelude.{◌≡◌, ℕ, None, Ok, Err, IfOk, IfErr};
ghost use Rattle.i9_text.specs.Text.{lines_of};
ghost use Rattle.i9_model.specs.ScheduleText.{Contents, contents_of, IsSchedule, IsRefused, fault_of, version_in};
ghost use Rattle.i9_model.specs.ScheduleText.{with_event};
ghost use Rattle.i9_schedule.specs.Lines.{with_line};
ghost use Rattle.i9_schedule.specs.Plan.{contents};
ghost use Rattle.i9_schedule.specs.Reading.{said_by, Takes, Reads, IfBad};

use crate::error::{LineError, StepError};
use crate::parsing::{fault_after, said};
use crate::schedule::Schedule;
use crate::version::FIRST_VERSION;
use i9_model::{Said, Timed};
use i9_text::split_line;
use std::alloc::Global;

/// What the lines so far said: the version, once one told it, and events.
#[derive(Drop)]
struct SoFar {
    version: Option<u8>,
    events: Vec<Timed>,
}

impl SoFar {
    /// The version, which is the first one where no line told it.
    fn version(&self) -> u8
        ensures { result ≡ version_in self.now.version }
    {
        self.version.unwrap_or(FIRST_VERSION)
    }
}

/// What was said with one event more, which tells the version.
fn with_event(mut so_far: SoFar, next: Timed) -> Result<SoFar, StepError>
    ensures { Takes result None (with_event (said_by so_far) next) }
{
    let version = so_far.version();
    match so_far.events.push(next) {
        Ok(()) => Ok(SoFar {
            version: Some(version),
            events: so_far.events,
        }),
        Err(_) => Err(StepError::Memory),
    }
}

/// What was said with what a line says.
fn with_line(so_far: SoFar, line: &[u8]) -> Result<SoFar, StepError>
    ensures { Takes result (fault_of (said_by so_far) line.now) (with_line (said_by so_far) line.now) }
{
    match said(so_far.version, line) {
        Err(kind) => Err(StepError::Bad(kind)),
        Ok(Said::Nothing) => Ok(so_far),
        Ok(Said::Version(version)) => Ok(SoFar {
            version: Some(version),
            events: so_far.events,
        }),
        Ok(Said::Event(next)) => match fault_after(&so_far.events, &next) {
            Some(kind) => Err(StepError::Bad(kind)),
            None => with_event(so_far, next),
        },
    }
}

/// What the lines of a text say.
fn read_lines(alloc: Global, text: &[u8]) -> Result<SoFar, LineError>
    ensures found { IfOk result (λ s. IsSchedule (lines_of text.now) (contents_of (said_by s))) }
    ensures only { (c : Contents) → IsSchedule (lines_of text.now) c
        → Reads (λ s. contents_of (said_by s)) result (Ok c) }
    ensures refused { IfErr result (λ e. IfBad e (λ f. IsRefused (lines_of text.now) f)) }
    ensures first { (f : ℕ × ℕ) → IsRefused (lines_of text.now) f
        → Reads {Y = Contents} (λ s. contents_of (said_by s)) result (Err f) }
{
    let mut so_far = SoFar {
        version: None,
        events: Vec::new(alloc),
    };
    let mut number = 0u64;
    let mut rest = Some(text);
    while let Some(lines) = rest {
        let (line, after) = split_line(lines);
        number += 1;
        match with_line(so_far, line) {
            Ok(next) => so_far = next,
            Err(error) => return Err(error.at(number)),
        }
        rest = after;
    }
    Ok(so_far)
}

/// Reads a schedule; its place is before its first event. The format is this project's own.
///
/// Lines end with a line feed, which the last one may lack; one carriage return at a line's end is
/// dropped. Lines without words are skipped, and so are lines whose first character is `#`. Every
/// other line is `at K EVENT` or `turn T EVENT`, in words that are divided by spaces or tabs, and a
/// text has lines of one of these forms alone. The first line that is not skipped may also be
/// `schedule 2`; the schedule has version 2 then, and else version 1.
///
/// - `at K`: the event happens after K instructions; K is at most 10,000,000.
/// - `turn T`: the event happens before the first instruction that would issue at turn T or later,
///   after the events before it; T is at most 1,000,000,000,000.
///
/// K and T have one to thirteen decimal digits. `EVENT` is one of
///
/// | event | operands |
/// |---|---|
/// | `pin X` | X is 0 to 7 |
/// | `low X`, `high X` | X is 0 to 7; in version 2 alone |
/// | `nmi` | |
/// | `dma C` | C is 0 to 3 |
/// | `feed C H` | C is 0 to 3; H is 1, 2, 4 or 16 bytes in two hexadecimal digits each |
/// | `show A L` | A is one to eight hexadecimal digits; L is 1 to 64 |
///
/// with decimal numbers of one to ten digits. K and T do not fall from event to event, and there are
/// at most 1,000,000 events.
///
/// A text that is no schedule is refused with its first line at fault; see `LineFault`.
pub fn read(alloc: Global, text: &[u8]) -> Result<Schedule, LineError>
    // What is read is what the lines say.
    ensures found { IfOk result (λ s. IsSchedule (lines_of text.now) (contents s)) }
    ensures place { IfOk result (λ s. s.place ≡ 0) }
    // What the lines say is read, unless memory runs out.
    ensures only { (c : Contents) → IsSchedule (lines_of text.now) c → Reads contents result (Ok c) }
    // What is refused has this first fault.
    ensures refused { IfErr result (λ e. IfBad e (λ f. IsRefused (lines_of text.now) f)) }
    // A text with a first fault is refused for it, unless memory runs out.
    ensures first { (f : ℕ × ℕ) → IsRefused (lines_of text.now) f
        → Reads {Y = Contents} contents result (Err f) }
{
    match read_lines(alloc, text) {
        Ok(said) => {
            let version = said.version();
            Ok(Schedule::new(version, said.events))
        }
        Err(error) => Err(error),
    }
}
