//! The line that tells the version of a schedule.
ghost use Rattle.std.specs.Prelude.{◌≢◌};
ghost use Rattle.i9_model.specs.PrintedText.{heading_text};
ghost use Rattle.i9_lines.specs.Print.{Prints, account};

use crate::print::{Printed, print_text};
use i9_outside::Sink;
use i9_schedule::LEVELS_VERSION;

/// Writes the line that tells the version of a schedule, where that has the levels of pins, and nothing for any other
/// version.
#[tactic(auto, using(crate::proofs::Prints::prints_rules), unfolding(i9_model::specs::PrintedText::heading_text))]
pub fn print_heading<K: Sink>(version: u8, out: &mut K) -> Printed
    ensures prints { Prints result (account K.told K.faults K.writes K.sure K.pieces) out.old out.new
        (heading_text version) }
    ensures takes_no_memory { result ≢ Printed.Memory }
{
    if version == LEVELS_VERSION {
        print_text(b"schedule 2\n", out)
    } else {
        Printed::Done
    }
}
