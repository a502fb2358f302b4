//! Why a text is no schedule, or no script of the debugger.

use thiserror::Error;

// The kinds of faults of a schedule, as `LineFault` says them.
pub(crate) const UNKNOWN_LINE: u8 = 1;

pub(crate) const UNKNOWN_EVENT: u8 = 2;

pub(crate) const BAD_OPERAND: u8 = 3;

pub(crate) const MIXED_TIMES: u8 = 4;

pub(crate) const EARLIER_TIME: u8 = 5;

pub(crate) const TOO_MANY_EVENTS: u8 = 6;

/// The first fault of a text: its line, counted from 1, and the least kind that applies to it. The
/// kinds are this project's own. Those of a schedule are
///
/// | kind | the line |
/// |---|---|
/// | 1 | has a byte past ASCII, or its first word is neither `at` nor `turn`, nor is it `schedule` on the first line that is not skipped |
/// | 2 | has an event word that is unknown in the version, or none |
/// | 3 | has a number or operand out of its form or range, or lacks one, or has one too many |
/// | 4 | has `turn` where the event before has `at`, or the other way round |
/// | 5 | has a count or turn below that of the event before |
/// | 6 | comes to more than 1,000,000 events |
///
/// and those of a script of the debugger are listed by `read_script` of `i9_schedule`.
#[derive(Clone, Copy, Debug, PartialEq, Eq)]
pub struct LineFault {
    pub line: u64,
    pub kind: u8,
}

/// Why a text is not read.
#[derive(Debug, Drop, Error)]
pub enum LineError {
    /// The text is no schedule, or no script.
    #[error("refused")]
    Bad(LineFault),
    /// Memory was refused.
    #[error("no memory")]
    Memory,
}

/// Why a line is not taken.
#[derive(Debug, Drop)]
pub(crate) enum StepError {
    /// The line has a fault of this kind.
    Bad(u8),
    /// Memory was refused.
    Memory,
}

impl StepError {
    ghost use Rattle.std.specs.Prelude.{◌≡◌};
    ghost use Rattle.i9_schedule.specs.Reading.{error_at};

    /// The error of the text, for the line of this number.
    pub(crate) fn at(self, line: u64) -> LineError
        ensures { result ≡ error_at self line }
    {
        match self {
            StepError::Bad(kind) => LineError::Bad(LineFault { line, kind }),
            StepError::Memory => LineError::Memory,
        }
    }
}
