//! Versions of schedules, and the line that tells one.
ghost use Rattle.std.specs.Prelude.{◌≡◌};
ghost use Rattle.i9_text.specs.Text.{words_of};
ghost use Rattle.i9_model.specs.ScheduleText.{heading_of};

use crate::error::BAD_OPERAND;
use crate::words::one_word;
use i9_model::Said;

/// The version of a schedule that tells none.
pub(crate) const FIRST_VERSION: u8 = 1;

/// The version that has the levels of pins.
pub const LEVELS_VERSION: u8 = 2;

/// What the words behind `schedule` say, or the kind of their fault.
#[tactic(auto, unfolding(i9_model::specs::ScheduleText::heading_of))]
pub(crate) fn heading(words: &[u8]) -> Result<Said, u8>
    ensures { result ≡ heading_of (words_of words.now) }
{
    match one_word(words) {
        Some(word) if word == b"2".as_slice() => Ok(Said::Version(LEVELS_VERSION)),
        _ => Err(BAD_OPERAND),
    }
}
