//! Why a source is not assembled.

use thiserror::Error;

/// The first fault of a source: its line, counted from 1, and its kind.
///
/// Of several faults of a line that with the least kind is answered. The kinds are this project's own.
///
/// | kind | the line has |
/// |---|---|
/// | 1 | an unknown mnemonic or directive |
/// | 2 | a wrong form, of the line, its label, a value, an operand or `{H}`, or a byte past ASCII |
/// | 3 | a register that is not allowed there |
/// | 4 | a number out of range, or bytes past FFFFFFFF |
/// | 5 | an unknown name |
/// | 6 | a name that was defined before |
/// | 7 | a branch target that is not a multiple of 4 away, or out of range |
/// | 8 | bytes that come to more than 4,194,304, with those of the lines before |
#[derive(Clone, Copy, Debug, PartialEq, Eq)]
pub struct AsmFault {
    pub line: u64,
    pub kind: u8,
}

/// Why a source is not assembled.
#[derive(Debug, Drop, Error)]
pub enum AsmError {
    /// The source has a fault.
    #[error("refused")]
    Bad(AsmFault),
    /// Memory was refused.
    #[error("no memory")]
    Memory,
}
