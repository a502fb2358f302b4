//! Planning: what stands at the instruction address, and what it will do. It looks at the state that
//! a processor stands for, and changes nothing.
#![tactic(auto)]

mod barriers;
mod calls;
mod decode_cache;
mod dma;
mod effects;
mod events;
mod fetched;
mod kept;
mod known;
mod marks;
mod misuses;
mod names;
mod needs;
mod open;
mod outcome;
mod places;
mod planned;
mod raised;
mod sources;
mod system;
mod tracing;
mod transfers;
mod words;

pub use calls::{plan_entry, plan_interrupt};
pub use decode_cache::DecodeCache;
pub use effects::plan_faulting;
pub use events::plan_event;
pub use fetched::Words;
pub use known::facts;
pub use needs::{need_done, need_entered, need_faulted, need_reached, need_refused};
pub use open::{Open, plan_open};
pub use planned::{Planned, plan_here, plan_next};
