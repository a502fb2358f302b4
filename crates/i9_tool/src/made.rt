//! What a form makes of its inputs, which is printed at once.
ghost use Rattle.std.specs.Prelude.{◌≢◌};
ghost use Rattle.i9_lines.specs.Print.{account};
ghost use Rattle.i9_tool.specs.Values.{PrintsMade, code_of};

use crate::status::{Ending, ending_for};
use i9_debug::{print_piece, print_text};
use i9_isa::NoMemory;
use i9_outside::Sink;

/// What a form makes of its inputs.
#[derive(Drop)]
pub(crate) enum Made {
    /// The text that was asked for.
    Text(Vec<u8>),
    /// The line of a fault.
    Fault(Vec<u8>),
    /// More runs of bytes than an ELF file has headers.
    TooManyRuns,
}

/// Prints what was made.
pub(crate) fn print_made<K: Sink>(made: Result<Made, NoMemory>, out: &mut K) -> Ending
    ensures prints { PrintsMade made (code_of result)
        (account K.told K.faults K.writes K.sure K.pieces) out.old out.new }
    ensures read { code_of result ≢ 5 }
{
    match made {
        Ok(Made::Text(text)) => ending_for(print_text(&text, out), Ending::Done),
        Ok(Made::Fault(line)) => ending_for(print_text(&line, out), Ending::BadText),
        Ok(Made::TooManyRuns) => {
            ending_for(print_piece(b"#source segments\n", out), Ending::BadText)
        }
        Err(NoMemory) => Ending::NoMemory,
    }
}
