//! The frames that may be returned to, the bytes that only the save of a frame wrote, and the
//! accesses that lean on a frame that may not have been written to memory yet.
#![tactic(auto)]

mod bits;
mod marks;
mod page;
mod watch;

pub use i9_model::Push;
pub use watch::Watch;
