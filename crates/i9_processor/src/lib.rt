//! The processor of the machine: its registers and controls, its memory, and the frames that it
//! holds. It is read by calls that speak of the state it stands for, and changed by effects.
#![tactic(auto)]

mod apply;
mod effect;
mod landing;
mod load;
mod marks;
mod processor;
mod registers;
mod start;

pub use effect::{Control, DmaChange, Effect, MOST_BYTES, MOST_VALUES, Move, Posting, Requests};
pub use landing::Landing;
pub use processor::{Processor, TraceControls};
