//! Earlier states of a run.
#![tactic(auto)]

mod laws;
mod rerun;
mod trail;

pub use laws::one_earlier_state;
pub use rerun::{forward, last_change, replay, watch};
pub use trail::{Trail, next_stop};
