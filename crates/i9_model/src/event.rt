//! Events from outside, and when they happen.

use arrayvec::ArrayVec;

/// What happens from outside.
#[derive(Clone, Debug, Drop, PartialEq, Eq)]
pub enum Event {
    /// The pin of this number, 0 to 7.
    Pin(u8),
    /// The pin of this number goes low,
    Low(u8),
    /// or high.
    High(u8),
    /// The non-maskable interrupt.
    Nmi,
    /// A unit of the DMA channel of this number, 0 to 3.
    Dma(u8),
    /// A unit of the DMA channel of this number with the bytes of a device: 1, 2, 4 or 16.
    Feed(u8, ArrayVec<u8, 16>),
    /// The bytes at this address are shown, 1 to 64 of them.
    Show(u32, u8),
}

/// When an event happens.
#[derive(Clone, Copy, Debug, PartialEq, Eq)]
pub enum When {
    /// After so many instructions.
    At(u64),
    /// Before the first instruction that would issue at this turn or a later one.
    Turn(u64),
}

/// An event, and when it happens.
#[derive(Clone, Debug, Drop, PartialEq, Eq)]
pub struct Timed {
    pub when: When,
    pub event: Event,
}

/// What a line of a schedule says.
#[derive(Debug, Drop)]
pub enum Said {
    /// Nothing: it is skipped.
    Nothing,
    /// The version of the schedule.
    Version(u8),
    /// An event, and when it happens.
    Event(Timed),
}
