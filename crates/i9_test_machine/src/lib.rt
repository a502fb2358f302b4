//! The tests of i9_pipeline, i9_machine, i9_back, i9_tracer, i9_lines and i9_debug, whose public calls they make.
#![tactic(auto)]

#[cfg(test)]
mod back;
#[cfg(test)]
mod back_sessions;
#[cfg(test)]
mod check;
#[cfg(test)]
mod debug;
#[cfg(test)]
mod debug_sessions;
#[cfg(test)]
mod machine;
#[cfg(test)]
mod machine_memory;
#[cfg(test)]
mod machine_turns;
#[cfg(test)]
mod raw;
#[cfg(test)]
mod run;
#[cfg(test)]
mod script;
#[cfg(test)]
mod told;
#[cfg(test)]
mod tracer;
#[cfg(test)]
mod tracer_until;
