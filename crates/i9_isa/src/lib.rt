//! Instructions of the i960CA as values: names, operands, addressing modes, the table of what each
//! name is, and what follows from it for an instruction alone.
#![tactic(auto)]

mod cost;
mod format;
mod inst;
mod keeping;
mod laws;
mod op;
mod resources;
mod size;
mod table;
mod transfers;
mod validity;

pub use cost::{latency, side_of};
pub use format::{Format, Row, Use};
pub use inst::{BadWord, Ea, Inst, Mode, NO_ADDRESS, NoMemory, Operand, Side, word_count};
pub use keeping::keeps_marks;
pub use laws::{decoding_is_one, second_word_is_free};
pub use op::Op;
pub use resources::{CONDITION_CODE, FRAME_POINTER, LINK, LOCALS, reads, writes};
pub use size::{Direction, Size, Transfer};
pub use table::row;
pub use transfers::transfer;
pub use validity::valid;
