//! The assembler: lines of a source, and the bytes that they stand for.
//!
//! `specs/Places.antt` and `specs/Source.antt` define what the lines of a source say, in two passes:
//! the first gives each name its value, the second the bytes of each line or its fault.
//! `specs/Listing.antt` defines the listing of runs of bytes. That each listing is a source without
//! fault which gives these runs, that a source has one answer, and that a line gives as many bytes as
//! it counts, are laws.
#![tactic(auto)]

mod assembling;
mod comments;
mod data;
mod error;
mod items;
mod laws;
mod lines;
mod naming;
mod places;
mod source;
mod strings;

pub use assembling::assemble;
pub use error::{AsmError, AsmFault};
pub use laws::{lines_give_what_they_count, listings_assemble, one_answer};
pub use lines::{Line, Said, Width, read_line};
