//! The job that is made from a number, and the law that it is accepted.
#![tactic(auto)]

mod generator;
mod laws;

pub use generator::generate;
pub use laws::made_jobs_are_accepted;
