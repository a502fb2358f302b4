//! The command over buffers of a caller: a line of words and three files are given, and its text is taken.
#![tactic(auto)]

mod line;
mod reply;
mod slots;

pub use crate::reply::{Reply, respond};
pub use crate::slots::SlotFiles;
