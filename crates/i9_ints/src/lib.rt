//! The interrupt controller: how interrupts are posted, which one is chosen, and what its entry
//! makes, with the interrupt maps in dedicated mode.
#![tactic(auto)]

mod after;
mod bits;
mod choice;
mod entry;
mod requests;
mod state;

pub use after::clearing_bytes;
pub use entry::vector_place;
pub use i9_model::{Cause, Chosen, Entry as IntEntry};
pub use requests::plan_request;
pub use state::Ints;
