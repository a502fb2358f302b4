//! Start-up: the boot record, the processor control block (PRCB) and the control table, as read at
//! boot and by the messages of sysctl.
#![tactic(auto)]

mod regions;
mod start;
mod tables;

pub use i9_model::{CONTROL_WORDS, Setup};
pub use start::{boot, control_group, reinit};
pub use tables::{REGISTER_CACHE, sets_asked};
