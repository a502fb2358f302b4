//! The trace of a run: filters of addresses, stops at views, running until one holds, and the line of an
//! instruction.
#![tactic(auto)]

mod filter;
mod line;
mod stop;
mod until;

pub use filter::{AddressTest, Filter};
pub use line::trace_line;
pub use stop::{Stop, ViewTest};
pub use until::run_until;
