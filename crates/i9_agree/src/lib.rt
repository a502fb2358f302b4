//! Laws of states that are alike or agree: runs in sets, frames that are held, and stale values.
#![tactic(auto)]

mod laws;

pub use laws::{
    frames_stay_sound, held_frames_stand_for_memory, live_frames_never_overlap,
    only_compared_bytes_are_seen, runs_do_not_depend_on_stale_bytes, stale_values_are_not_seen,
    text_does_not_depend_on_sets,
};
