//! The record below the frame of a handler.
ghost use Rattle.std.specs.Prelude.{◌≡◌, ◌%◌};
ghost use Rattle.i9_model.specs.Hazards.{record_write_hazard};
ghost use Rattle.i9_watch.specs.Watch.{frames_of};

use i9_model::Push;
use i9_model::layout::{FRAME_SIZE, RECORD_SIZE};
use i9_watch::Watch;

/// The hazard of the record of 16 bytes below a new frame, of a fault or an interrupt, which is
/// written once the old frame is saved: the least byte of a live frame or of the saved one, counted
/// upwards, or else the least in the port page. After the i960 CA/CF User's Manual, faults and
/// interrupts.
#[tactic(auto, unfolding(i9_model::specs::Hazards::record_write_hazard), using(crate::proofs::SavedRecords::record_rules))]
pub fn record_write_hazard(w: &Watch, push: Push) -> Option<u32>
    requires save { push.save % 16 ≡ 0 }
    requires frame { push.frame % 16 ≡ 0 }
    ensures { result ≡ record_write_hazard (frames_of w.now) push }
{
    // The record begins at a multiple of 16 as the saved frame does, so it lies wholly in that
    // frame or has no byte of it.
    let record = push.frame.wrapping_sub(RECORD_SIZE);
    if record.wrapping_sub(push.save) < FRAME_SIZE {
        return Some(record);
    }
    w.check_write(record, RECORD_SIZE)
        .or_else(|| Watch::touches_port(record, RECORD_SIZE))
}
