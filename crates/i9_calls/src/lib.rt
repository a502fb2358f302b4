//! Calls and returns: what they make of frames and controls, or the hazard that they meet; and how a
//! procedure is entered, by a call, a fault or an interrupt: its word in the system procedure table,
//! the switch of stacks, the push of its frame, and the record below that frame.
#![tactic(auto)]

mod calls;
mod controls;
mod entries;
mod records;
mod returns;
mod words;

pub use calls::{plan_call, plan_calls};
pub use controls::{in_supervisor_mode, trace_enable, without_supervisor};
pub use entries::{enter_here, enter_system, system_switches};
pub use i9_model::{CallsStop, Pop, Push, Sys};
pub use records::record_write_hazard;
pub use returns::plan_ret;
pub use words::{WORD_SIZE, aligned, read_word};
