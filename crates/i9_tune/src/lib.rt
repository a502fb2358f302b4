//! The block tuner: a block of instructions in an order that takes fewer turns and does the same.
#![tactic(auto)]

mod block;
mod front;
mod greedy;
mod kinds;
mod laws;
mod printing;
mod turns;

pub use block::{BlockError, BlockFault, Flaw, block_in};
pub use greedy::tune;
pub use kinds::allowed;
pub use laws::{
    a_block_has_one_text, a_block_is_tuned_one_way, a_result_sees_its_sources,
    an_instruction_sees_what_its_need_reads, instructions_stand_by_their_words,
    instructions_that_are_apart_change_places, orders_are_as_good, tuned_blocks_do_the_same,
};
pub use printing::{block_line, tuning};
pub use turns::span;
