//! Sessions of the debugger: what the commands of a script do to a machine and print, and going back.
#![tactic(auto)]

mod backward;
mod seeking;
mod sessions;
mod telling;

pub use i9_lines::{
    Printed, print_elf_refusal, print_generated, print_heading, print_line, print_lines,
    print_piece, print_refusal, print_text,
};
pub use i9_schedule::{Command, Script, read_script};
pub use seeking::last;
pub use sessions::{SessionEnd, session};
