//! Faults: their numbers, and what the entry of one makes (i960 CA/CF User's Manual, faults).

use crate::push::Push;

/// The type of trace faults.
pub const TRACE: u8 = 1;

/// The type of operation faults.
pub const OPERATION: u8 = 2;

/// The type of arithmetic faults.
pub const ARITHMETIC: u8 = 3;

/// The type of constraint faults.
pub const CONSTRAINT: u8 = 5;

/// The type of protection faults.
pub const PROTECTION: u8 = 7;

/// The type of type faults.
pub const TYPE: u8 = 10;

/// The subtype of the operation fault of a word that is no instruction.
pub const INVALID_OPCODE: u16 = 1;

/// The subtype of the operation fault of an access that is not aligned.
pub const UNALIGNED: u16 = 3;

/// The subtype of the operation fault of an operand that is not allowed.
pub const INVALID_OPERAND: u16 = 4;

/// The subtype of the arithmetic fault of a signed result that is out of range.
pub const OVERFLOW: u16 = 1;

/// The subtype of the arithmetic fault of a division by 0.
pub const ZERO_DIVIDE: u16 = 2;

/// The subtype of the constraint fault that an instruction raises by its condition.
pub const RANGE: u16 = 1;

/// The subtype of the protection fault of a number that is past the end of the system procedure
/// table.
pub const LENGTH: u16 = 2;

/// The subtype of the type fault of an instruction that only supervisor mode may do.
pub const MISMATCH: u16 = 1;

/// The bytes of an entry of the fault table: two words.
pub const FAULT_ENTRY_SIZE: u32 = 8;

/// The second word of an entry of the fault table that names a system procedure.
pub const SYSTEM_ENTRY: u32 = 0x0000_027F;

/// The bits of the process controls that the entry of a fault clears: trace enable and trace fault
/// pending.
pub const TRACE_MASK: u32 = 0x0000_0401;

/// The code of a dead entry whose first word is of no kind.
pub const NO_HANDLER: u8 = 1;

/// The code of a dead entry whose second word does not stand for a system procedure.
pub const NO_SYSTEM_ENTRY: u8 = 2;

/// The code of a dead entry of a system procedure past the end of its table.
pub const NO_PROCEDURE: u8 = 3;

/// A fault of an instruction: its type and subtype, and the address of the instruction.
#[derive(Clone, Copy, Debug, PartialEq, Eq)]
pub struct Fault {
    pub kind: u8,
    pub subtype: u16,
    pub address: u32,
}

/// What the entry of a fault makes: the frame of its handler, the handler's address, the process
/// controls, and the four words of the record below the frame.
#[derive(Clone, Copy)]
pub struct Entry {
    pub push: Push,
    pub target: u32,
    pub pc: u32,
    pub words: [u32; 4],
}

/// What an entry of the fault table names: a handler at an address, or the system procedure of a
/// number.
#[derive(Clone, Copy, Debug, PartialEq, Eq)]
pub enum Handler {
    Local(u32),
    System(u32),
}

/// Why a fault is not entered.
#[derive(Clone, Copy, Debug, PartialEq, Eq)]
pub enum FaultStop {
    /// An access is a hazard at this address.
    Hazard(u32),
    /// The entry of the fault table is dead, by its word at this address; the code is `NO_HANDLER`,
    /// `NO_SYSTEM_ENTRY` or `NO_PROCEDURE`.
    Dead { code: u8, address: u32 },
}
