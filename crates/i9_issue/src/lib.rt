//! The least turn at which a record may issue.
#![tactic(auto)]

mod board;
mod laws;

pub use board::Board;
pub use i9_isa::Side;
pub use i9_model::{Need, Placed};
pub use laws::at_most_seven_are_open;
