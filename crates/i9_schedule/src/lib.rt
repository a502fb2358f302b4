//! Texts with a line for each order: schedules of events from outside, and scripts of the debugger.
//!
//! `specs/ScriptText.antt` defines which words say a command, what a line of a script says, and which
//! fault it has.
#![tactic(auto)]

mod command;
mod command_operands;
mod command_parsing;
mod copying;
mod error;
mod journal;
mod kinds;
mod laws;
mod operands;
mod parsing;
mod reading;
mod schedule;
mod script;
mod script_laws;
mod script_reading;
mod version;
mod words;

pub use command::Command;
pub use copying::copied;
pub use error::{LineError, LineFault};
pub use i9_model::{Event, Timed, When};
pub use journal::{event_text, journal_line};
pub use laws::one_answer;
pub use reading::read;
pub use schedule::Schedule;
pub use script::Script;
pub use script_laws::one_script;
pub use script_reading::read_script;
pub use version::LEVELS_VERSION;
pub use words::{is_ascii, is_skipped, number_in, one_word, two_words};
