//! The bytes that stood under the writes of an open barrier.
#![tactic(auto)]

mod shade;

pub use shade::Shade;
