//! The lines that are printed, and printing them: those of a run, of what was refused, of the run of a made job, and
//! those that tell of the place at which a machine stands.
//!
//! `specs/Lines.antt` and `specs/PlaceText.antt` define the lines beside those of a run, `specs/Print.antt` what
//! printing a text does to a sink.
#![tactic(auto)]

mod heading;
mod place;
mod print;
mod text;

pub use heading::print_heading;
pub use place::{
    add_change, add_held, add_raw, add_raw_bytes, add_turn, add_view, shown_bytes, standing_bytes,
};
pub use print::{
    Printed, print_elf_refusal, print_generated, print_line, print_lines, print_piece,
    print_refusal, print_text,
};
pub use text::add_bytes_line;
