//! How a run goes on and ends, as definitions and code have it.

use crate::faults::Fault;

/// How a run ends.
#[derive(Clone, Copy, Debug, PartialEq, Eq)]
pub enum End {
    /// The program wrote this word at the exit word's address.
    Exit(u32),
    /// The length of the run was reached.
    Limit,
    /// An access met this byte, of a frame that may not have been written to memory or of the port page;
    /// or a return met another frame than the youngest live one, at this address.
    Hazard(u32),
    /// A fault met a dead entry of the fault table: its code (1 where its first word names no handler,
    /// 2 where its second word names no system procedure, 3 where that procedure's number is too
    /// great), and the address of that word.
    Dead(u8, u32),
    /// The instruction at this address raised an arithmetic fault, and the one behind it was issued before
    /// the fault was known. A machine that does one instruction after the other never ends so.
    Imprecise(u32),
}

/// The kinds of drained point.
#[derive(Clone, Copy, Debug, PartialEq, Eq)]
pub enum Point {
    /// After flushreg.
    Flush,
    /// After syncf.
    Sync,
    /// After an event from outside.
    Event,
    /// After the entry of an interrupt.
    Int,
    /// After the entry of a fault.
    Fault,
    /// At the end of the run.
    End,
}

/// What comes next whatever the length of the run.
#[derive(Clone, Copy)]
pub enum Due {
    /// Nothing.
    Nothing,
    /// The end of the run.
    End(End),
    /// The entry of a fault.
    Entry(Fault),
}
