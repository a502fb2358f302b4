//! What calls by table and returns make of the controls, and why a call by table is refused.

use crate::push::Push;

/// A procedure of the system procedure table is entered: the push of its frame, its address, the
/// process controls afterwards, and whether its frame is on the supervisor stack by a switch of
/// stacks.
#[derive(Clone, Copy)]
pub struct Sys {
    pub push: Push,
    pub target: u32,
    pub pc: u32,
    pub switched: bool,
}

/// Why a call by table is refused.
#[derive(Clone, Copy, Debug, PartialEq, Eq)]
pub enum CallsStop {
    /// An access meets a hazard, at this byte.
    Hazard(u32),
    /// The number is greater than that of the last system procedure.
    Length,
}

/// A return: the frame that is returned to, whether a live frame is left by it, the process and
/// arithmetic controls afterwards, and whether software interrupts are looked at next. Bit k of
/// `marks` is the mark of word k of the frame, whose value is stale where it is marked.
#[derive(Clone, Copy)]
pub struct Pop {
    pub frame: u32,
    pub live: bool,
    pub pc: u32,
    pub ac: u32,
    pub check: bool,
    pub marks: u16,
}
