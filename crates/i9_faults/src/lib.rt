//! Faults: which one an instruction raises before it does anything, and what the entry of a fault
//! makes.
#![tactic(auto)]

mod entry;
mod handlers;
mod raised;

pub use entry::{fault_switches, plan_fault};
pub use i9_model::{Entry, Fault, FaultStop, Push};
pub use raised::{is_unaligned, raises};
