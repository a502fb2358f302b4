//! The one-at-a-time machine: its definitions, what they share with the code, and the lemmas that most crates use.
#![tactic(auto)]

mod arith;
mod calls;
pub mod dma;
mod event;
pub mod faults;
mod frame;
pub mod interrupts;
pub mod layout;
mod need;
mod port;
mod push;
mod run;
mod setup;
pub mod trace;
mod view;

pub use arith::Arith;
pub use calls::{CallsStop, Pop, Sys};
pub use event::{Event, Said, Timed, When};
pub use faults::{Entry, Fault, FaultStop, Handler};
pub use frame::Frame;
pub use interrupts::{Cause, Chosen};
pub use need::{Cell, Facts, Need, Placed, TimedNeed};
pub use port::in_port_page;
pub use push::Push;
pub use run::{Due, End, Point};
pub use setup::{Breaks, CONTROL_WORDS, Setup, Tables};
pub use trace::{Seen, Trace};
pub use view::View;
