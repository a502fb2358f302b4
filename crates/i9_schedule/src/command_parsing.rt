//! What a line says by itself.
ghost use Rattle.std.specs.Prelude.{◌≡◌};
ghost use Rattle.i9_schedule.specs.CommandLines.{line_of};

use crate::command::Command;
use crate::command_operands::command;
use crate::kinds::UNKNOWN_COMMAND;
use crate::{is_ascii, is_skipped};

/// What a line says, nothing or a command, or the kind of its fault.
#[tactic(auto, unfolding(crate::specs::CommandLines::line_of))]
pub(crate) fn said(line: &[u8]) -> Result<Option<Command>, u8>
    ensures { result ≡ line_of line.now }
{
    if !is_ascii(line) {
        return Err(UNKNOWN_COMMAND);
    }
    if is_skipped(line) {
        return Ok(None);
    }
    Ok(Some(command(line)?))
}
