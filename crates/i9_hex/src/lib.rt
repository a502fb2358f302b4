//! Images of memory: as Intel HEX text, and the maximal runs of their bytes.
#![tactic(auto)]

mod error;
mod laws;
mod reader;
mod reading;
mod record;
mod runs;
mod segments;
mod writing;

pub use error::{HexError, HexFault};
pub use laws::{one_answer, one_list};
pub use reading::read;
pub use runs::runs_of;
pub use segments::{Segment, Segments};
pub use writing::write;
