//! Instruction words of the i960CA, both ways.
#![tactic(auto)]

mod branch_names;
mod decoder;
mod encoder;
mod fields;
mod memory_names;
mod names;
mod register_names;
mod spare;

pub use decoder::decode;
pub use encoder::{Code, decode_encoded, encode};
pub use i9_isa::BadWord;
pub use spare::spare_bits;
