//! What each kind of record needs of the processor.
#![tactic(auto)]

mod fixed;
mod names;
mod need;

pub use fixed::{FixedNeed, fixed_need};
pub use i9_model::{Facts, Need};
pub use need::{entry_need, event_need, inst_need, need_by, refused_need};
