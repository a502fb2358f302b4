//! The tests of i9_outside and i9_system, whose public calls they make.
#![tactic(auto)]

#[cfg(test)]
mod outside;
#[cfg(test)]
mod system_calls;
#[cfg(test)]
mod system_disk;
#[cfg(test)]
mod system_files;
