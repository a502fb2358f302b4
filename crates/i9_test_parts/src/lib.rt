//! The tests of i9_memory, i9_watch, i9_frames, i9_queue, i9_regs, i9_shade and i9_boot, and of i9_calls, i9_faults,
//! i9_ints and i9_dma, whose public calls they make.
#![tactic(auto)]

#[cfg(test)]
mod boot;
#[cfg(test)]
mod calls;
#[cfg(test)]
mod check;
#[cfg(test)]
mod dma;
#[cfg(test)]
mod entry;
#[cfg(test)]
mod faults;
#[cfg(test)]
mod frames;
#[cfg(test)]
mod ints;
#[cfg(test)]
mod memory;
#[cfg(test)]
mod pages;
#[cfg(test)]
mod queue;
#[cfg(test)]
mod raised;
#[cfg(test)]
mod regs;
#[cfg(test)]
mod rows;
#[cfg(test)]
mod shade;
#[cfg(test)]
mod storage;
#[cfg(test)]
mod told;
#[cfg(test)]
mod watch;
