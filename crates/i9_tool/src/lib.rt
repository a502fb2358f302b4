//! The command `i960`: a simulator of the core of the i960CA, over files and a sink.
#![tactic(auto)]

mod files;
mod inputs;
mod job;
pub mod laws;
mod listing;
mod made;
mod refusal;
mod run;
mod script;
mod source;
mod status;
mod tasks;
mod top;
mod tuned;
mod words;

pub use crate::status::Status;
pub use crate::top::i960;
pub use i9_generator::generate;
