//! Tracing: the places of bits in the trace controls, in the words of the instruction breakpoints and in the breakpoint
//! controls (i960 CA/CF User's Manual, tracing and debugging).

/// The place of the mode of the instruction event in the trace controls.
pub const INSTRUCTION_TRACE_PLACE: u32 = 1;

/// The place of the mode of the branch event.
pub const BRANCH_TRACE_PLACE: u32 = 2;

/// The place of the mode of the call event.
pub const CALL_TRACE_PLACE: u32 = 3;

/// The place of the mode of the return event.
pub const RETURN_TRACE_PLACE: u32 = 4;

/// The place of the mode of the prereturn event.
pub const PRERETURN_TRACE_PLACE: u32 = 5;

/// The place of the mode of the supervisor event.
pub const SUPERVISOR_TRACE_PLACE: u32 = 6;

/// The place of the mode of the mark event.
pub const MARK_TRACE_PLACE: u32 = 7;

/// How far above the mode of an event its flag stands.
pub const FLAG_DISTANCE: u32 = 16;

/// The place of the flag of the instruction breakpoint IPB0.
pub const IPB0_FLAG_PLACE: u32 = 24;

/// The place of the flag of the instruction breakpoint IPB1.
pub const IPB1_FLAG_PLACE: u32 = 25;

/// The place of the flag of the data breakpoint DAB0.
pub const DAB0_FLAG_PLACE: u32 = 26;

/// The place of the flag of the data breakpoint DAB1.
pub const DAB1_FLAG_PLACE: u32 = 27;

/// The place in the word of an instruction breakpoint of the bit that enables it.
pub const IPB_ENABLE_PLACE: u32 = 0;

/// The place in the breakpoint controls (BPCON) of the bit that enables DAB0.
pub const DAB0_ENABLE_PLACE: u32 = 0;

/// The place in the breakpoint controls of the bit that enables DAB1.
pub const DAB1_ENABLE_PLACE: u32 = 1;

/// What an instruction showed: its address; the effective address of a load, a store or an atomic, and
/// None for every other name; that a conditional or compare branch was taken; and that a `calls`
/// switched to supervisor mode, or a `ret` of type 010 or 011 was done in it.
#[derive(Clone, Copy)]
pub struct Seen {
    pub address: u32,
    pub access: Option<u32>,
    pub taken: bool,
    pub switched: bool,
}

/// What a trace fault makes: the trace controls with the flags of its events and breakpoints, and its
/// subtype, with bit m for the event whose mode is bit m of the trace controls.
#[derive(Clone, Copy)]
pub struct Trace {
    pub tc: u32,
    pub subtype: u16,
}
