//! The machine that a run goes through: it stands for the records so far of the one-at-a-time
//! machine, and each step brings the next record or the end.
#![tactic(auto)]

mod line;
mod machine;
mod step;

pub use i9_model::{End, Event, Point};
pub use line::{Issued, Line, Raw, Turn};
pub use machine::Machine;
