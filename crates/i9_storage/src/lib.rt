//! Storage: memory, and the frames that are held in the sets of the local register cache in place
//! of it.
#![tactic(auto)]

mod storage;
mod words;

pub use storage::Storage;
