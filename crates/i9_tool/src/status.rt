//! How the command ends, and the status that says so.
ghost use Rattle.std.specs.Prelude.{◌≡◌};
ghost use Rattle.i9_model.specs.PrintedText.{end_code};
ghost use Rattle.i9_tool.specs.Outcome.{code_for};
ghost use Rattle.i9_tool.specs.Values.{code_of};

use i9_debug::Printed;
use i9_machine::End;

/// How the command ended: a code from 0 to 7.
#[derive(Clone, Copy, Debug, PartialEq, Eq)]
pub struct Status {
    pub code: u8,
}

/// How the command ended.
#[derive(Clone, Copy)]
pub(crate) enum Ending {
    /// All was done that was asked for.
    Done,
    /// The words are in no form.
    NoForm,
    /// The image was refused.
    BadImage,
    /// Another file was refused, or what it says was.
    BadText,
    /// The run ended early.
    Early,
    /// A file was not read.
    Unread,
    /// A write failed.
    Unwritten,
    /// Memory was refused.
    NoMemory,
}

impl Ending {
    /// The status that says so.
    pub(crate) fn status(self) -> Status
        ensures { result.code ≡ code_of self }
    {
        let code = match self {
            Ending::Done => 0,
            Ending::NoForm => 1,
            Ending::BadImage => 2,
            Ending::BadText => 3,
            Ending::Early => 4,
            Ending::Unread => 5,
            Ending::Unwritten => 6,
            Ending::NoMemory => 7,
        };
        Status { code }
    }
}

/// How the command ends where a text was printed so, and its ending is this where it was printed whole.
pub(crate) fn ending_for(printed: Printed, whole: Ending) -> Ending
    ensures { code_of result ≡ code_for printed (code_of whole) }
{
    match printed {
        Printed::Done => whole,
        Printed::Write => Ending::Unwritten,
        Printed::Memory => Ending::NoMemory,
    }
}

/// How the command ends behind a whole run with this end.
pub(crate) fn ending_of(end: End) -> Ending
    ensures { code_of result ≡ end_code end }
{
    match end {
        End::Exit(_) | End::Limit => Ending::Done,
        End::Hazard(_) | End::Dead(_, _) | End::Imprecise(_) => Ending::Early,
    }
}
