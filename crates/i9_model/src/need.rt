//! What a record needs of the processor, and the turns that it gets.

use i9_isa::Side;

/// What is known of an instruction beside its fields.
#[derive(Clone, Copy)]
pub struct Facts {
    /// Its address.
    pub ip: u32,
    /// The address and number of bytes of its data access: of a load, a store or an atomic.
    pub access: Option<(u32, u32)>,
    /// Whether this access touches the port page.
    pub port: bool,
    /// The wait states of this access, to read and to write together for an atomic.
    pub waits: u64,
    /// How many frames it spills, refills or flushes.
    pub frames: u8,
    /// Whether it raises another fault than an arithmetic or a trace fault.
    pub fault: bool,
    /// Whether it raises a trace fault.
    pub trace: bool,
    /// Whether it meets a hazard.
    pub hazard: bool,
    /// Whether bit 15 of AC or trace enable is set before it.
    pub alone: bool,
}

/// What a record needs: an instruction, an event or an entry.
#[derive(Clone, Copy)]
pub struct Need {
    /// The side on which it issues.
    pub side: Side,
    /// The resources that it reads: bit r for register r, and bit 32 for the condition code.
    pub reads: u64,
    /// The resources that it writes, as such a set.
    pub writes: u64,
    /// Whether it is a load or a store.
    pub request: bool,
    /// The address and number of bytes of a store.
    pub store: Option<(u32, u32)>,
    /// Whether it multiplies or divides.
    pub slow: bool,
    /// Whether it passes nothing, and nothing passes it.
    pub barrier: bool,
    /// Whether it passes nothing.
    pub alone: bool,
    /// How many turns it takes from its issue, or, for a request, from the end of the last request
    /// where that is later.
    pub cost: u64,
    /// The address and number of bytes of its own words.
    pub code: (u32, u32),
    /// The turn below which it does not issue.
    pub not_before: u64,
}

/// The turns of a record.
#[derive(Clone, Copy)]
pub struct Placed {
    /// The turn at which it issues.
    pub issue: u64,
    /// The turn at which it is done.
    pub done: u64,
}

impl Default for Need {
    fn default() -> Need {
        Need {
            side: Side::Ctl,
            reads: 0,
            writes: 0,
            request: false,
            store: None,
            slow: false,
            barrier: false,
            alone: false,
            cost: 0,
            code: (0, 0),
            not_before: 0,
        }
    }
}

/// A record's need with its turns.
#[derive(Clone, Copy, Default)]
pub struct TimedNeed {
    pub need: Need,
    pub issue: u64,
    pub done: u64,
}

/// A register, or the condition code.
#[derive(Clone, Copy)]
pub struct Cell {
    pub value: u32,
    /// The value that an open record writes, with the turn at which it is done.
    pub plan: Option<(u32, u64)>,
}
