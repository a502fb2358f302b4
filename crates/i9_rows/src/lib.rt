//! The tests of the command `i960`: its words, its files, and what its runs print.
#![tactic(auto)]

#[cfg(test)]
mod asm_tests;
#[cfg(test)]
mod back_tests;
#[cfg(test)]
mod check;
#[cfg(test)]
mod debug_tests;
#[cfg(test)]
mod demo_tests;
#[cfg(test)]
mod dis_tests;
#[cfg(test)]
mod dma_tests;
#[cfg(test)]
mod edge_tests;
#[cfg(test)]
mod elf_tests;
#[cfg(test)]
mod event_tests;
#[cfg(test)]
mod fault_tests;
#[cfg(test)]
mod flow_tests;
#[cfg(test)]
mod frame_tests;
#[cfg(test)]
mod gen_tests;
#[cfg(test)]
mod hostile_tests;
#[cfg(test)]
mod level_tests;
#[cfg(test)]
mod marks_frame_tests;
#[cfg(test)]
mod marks_tests;
#[cfg(test)]
mod marks_use_tests;
#[cfg(test)]
mod result_tests;
#[cfg(test)]
mod rows;
#[cfg(test)]
mod sets_tests;
#[cfg(test)]
mod start_tests;
#[cfg(test)]
mod storm_tests;
#[cfg(test)]
mod tests;
#[cfg(test)]
mod trace_event_tests;
#[cfg(test)]
mod trace_tests;
#[cfg(test)]
mod tune_tests;
