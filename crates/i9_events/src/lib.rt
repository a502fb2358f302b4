//! Trace events: those that come with an instruction, and the flags and the trace fault that they make (i960 CA/CF
//! User's Manual, tracing and debugging).
#![tactic(auto)]

mod bits;
mod breakpoints;
mod names;
mod raised;

pub use i9_model::{Breaks, Seen, Trace};
pub use raised::event;
