//! Laws of what comes next and of runs, with the events of their plans.
#![tactic(auto)]

mod laws;
mod plan_laws;

pub use laws::{a_length_cuts_the_run, every_run_ends, one_run};
pub use plan_laws::{events_that_are_reached_are_a_plan, runs_reach_the_front_of_their_plan};
