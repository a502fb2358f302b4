//! The tests of i9_storage, i9_processor and i9_plan, whose public calls they make.
#![tactic(auto)]

#[cfg(test)]
mod check;
#[cfg(test)]
mod marks;
#[cfg(test)]
mod plan;
#[cfg(test)]
mod plan_needs;
#[cfg(test)]
mod plan_open;
#[cfg(test)]
mod plan_state;
#[cfg(test)]
mod plan_told;
#[cfg(test)]
mod processor;
#[cfg(test)]
mod processor_steps;
#[cfg(test)]
mod rows;
#[cfg(test)]
mod storage;
#[cfg(test)]
mod storage_steps;
#[cfg(test)]
mod told;
