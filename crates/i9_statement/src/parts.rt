//! The parts of addresses.

use crate::Value;

/// What stands before the brackets of an address.
#[derive(Clone, Copy)]
pub enum Front {
    Absent,
    /// It has no form of a value.
    Malformed,
    Valued(Value),
}

/// What stands in round brackets in an address.
#[derive(Clone, Copy)]
pub enum Base {
    Nothing,
    /// `ip`
    Ip,
    /// A register, by its place in the table of register names.
    Register(u8),
}

/// What stands in square brackets in an address.
#[derive(Clone, Copy)]
pub enum Index {
    Nothing,
    /// A register, by its place in the table of register names, and a scale as a power of 2.
    Scaled(u8, u8),
}
