//! The kinds of faults of a line, as `read_script` says them.

pub(crate) const UNKNOWN_COMMAND: u8 = 1;

pub(crate) const BAD_OPERAND: u8 = 2;

pub(crate) const TOO_MANY_COMMANDS: u8 = 3;
