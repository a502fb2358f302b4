//! The DMA controller: how its channels are set up, and the units that they move.
#![tactic(auto)]

mod bits;
mod channel;
mod channels;
mod moving;

pub use channel::Channel;
pub use channels::{Channels, Unit};
