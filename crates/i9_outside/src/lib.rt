//! What the program does outside itself: files that it fetches by name, and a sink of bytes.
//!
//! The two traits have a pair in memory here; `i9_system` has the pair over the system.
#![tactic(auto)]

mod calls;
mod memory;
mod traits;

pub use memory::{MemFiles, MemSink};
pub use traits::{FILE_LIMIT, Fetch, Files, Sink, Wrote};
