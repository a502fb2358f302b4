//! The bytes of memory, and the configuration words of its regions, over a table of pages, which finds
//! a page by three reads.
#![tactic(auto)]

mod memory;
mod order;
mod pages;
mod table;

pub use memory::Memory;
pub use order::{bytes_of_half, bytes_of_word, half_of, word_of};
pub use table::PageTable;
