//! Arithmetic faults.

/// An arithmetic fault of an instruction (i960 CA/CF User's Manual, faults).
#[derive(Clone, Copy, Debug, PartialEq, Eq)]
pub enum Arith {
    /// A signed result is out of range.
    Overflow,
    /// A divisor is 0.
    ZeroDivide,
}
