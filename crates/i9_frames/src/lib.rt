//! Frames held in sets.
#![tactic(auto)]

mod sets;

pub use i9_model::Frame;
pub use sets::Sets;
