//! Laws of the one-at-a-time machine, on which nothing stands.
#![tactic(auto)]

mod constants;
mod laws;
mod pins;
mod replay;

pub use constants::shared_constants;
pub use laws::{
    a_live_frame_keeps_its_words, a_return_undoes_a_call, kept_bits_stay, returns_undo_system_calls,
};
pub use pins::pins_stay_high_without_levels;
pub use replay::{printed_text_replays_its_pipelined_run, printed_text_replays_its_run};
