//! What an entry of the fault table names.
ghost use Rattle.std.specs.Prelude.{◌≡◌};
ghost use Rattle.i9_model.specs.Faults.{handler_of, planned_handler};
ghost use Rattle.i9_memory.specs.Memory.{memory_of};
ghost use Rattle.i9_watch.specs.Watch.{frames_of};

use i9_calls::{WORD_SIZE, read_word};
use i9_memory::Memory;
use i9_model::faults::{NO_HANDLER, NO_PROCEDURE, NO_SYSTEM_ENTRY, SYSTEM_ENTRY};
use i9_model::layout::MOST_SYSTEM_CALL;
use i9_model::{FaultStop, Handler};
use i9_watch::Watch;

/// The low two bits of the first word of an entry that is a handler's address.
const LOCAL: u32 = 0b00;

/// The low two bits of the first word of an entry that names a system procedure.
const SYSTEM: u32 = 0b10;

/// What the two words of an entry name, of which the first stands at `at`.
fn handler_of(at: u32, first: u32, second: u32) -> Result<Handler, FaultStop>
    ensures { result ≡ handler_of at first second }
{
    let number = first / 4;
    let (code, address) = match first % 4 {
        LOCAL => return Ok(Handler::Local(first)),
        SYSTEM if second != SYSTEM_ENTRY => (NO_SYSTEM_ENTRY, at.wrapping_add(WORD_SIZE)),
        SYSTEM if number > MOST_SYSTEM_CALL => (NO_PROCEDURE, at),
        SYSTEM => return Ok(Handler::System(number)),
        _ => (NO_HANDLER, at),
    };
    Err(FaultStop::Dead { code, address })
}

/// What the entry at `at` names; both its words are read first.
#[tactic(auto, unfolding(i9_model::specs::Faults::planned_handler))]
pub(crate) fn plan_handler(m: &Memory, w: &Watch, at: u32) -> Result<Handler, FaultStop>
    ensures { result ≡ planned_handler (memory_of m.now) (frames_of w.now) at }
{
    let first = read_word(m, w, at).map_err(FaultStop::Hazard)?;
    let second = read_word(m, w, at.wrapping_add(WORD_SIZE)).map_err(FaultStop::Hazard)?;
    handler_of(at, first, second)
}
