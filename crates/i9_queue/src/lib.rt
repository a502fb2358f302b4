//! Requests that wait, over memory; the bytes of stores, and the values that loads see.
#![tactic(auto)]

mod behind;
mod queue;
mod values;

pub use behind::Behind;
pub use i9_isa::Size;
pub use queue::{Queue, Request};
pub use values::store_bytes;
