//! Laws of schedules, and of the printed text as one.
#![tactic(auto)]

mod schedule_laws;

pub use schedule_laws::{journal_is_read_back, printed_text_is_a_schedule, words_say_events};
