//! What the readers of text share: lines, words and numbers, and the first line at fault.
//!
//! A text is bytes. Its lines end with a line feed, before which one carriage return is dropped;
//! the words of a line stand between spaces and tabs. `specs/Text.antt` defines both, and
//! `specs/FirstFault.antt` what the first fault of a text is, for any reader that goes line by line.
#![tactic(auto)]

mod lines;
mod numbers;
mod words;

pub use lines::split_line;
pub use numbers::number;
pub use words::split_word;
