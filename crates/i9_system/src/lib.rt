//! Files and a sink of the system, behind the traits of `i9_outside`.
#![tactic(auto)]

mod real;
mod system;

pub use real::{RealFiles, RealSink};
