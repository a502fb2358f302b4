//! Why a text is no image.

use thiserror::Error;

// The kinds of faults, as `HexFault` says them.
pub(crate) const NO_COLON: u8 = 1;

pub(crate) const BAD_DIGITS: u8 = 2;

pub(crate) const BAD_COUNT: u8 = 3;

pub(crate) const BAD_CHECK: u8 = 4;

pub(crate) const BAD_TYPE: u8 = 5;

pub(crate) const NO_END: u8 = 6;

pub(crate) const AFTER_END: u8 = 7;

pub(crate) const TOO_MANY_BYTES: u8 = 8;

/// The first fault of a text: its line, counted from 1, and its kind.
///
/// A line has the first kind of this list that applies to it, the kinds being this project's own.
///
/// | kind | the line |
/// |---|---|
/// | 7 | stands after the end record, and is not empty |
/// | 1 | does not begin with a colon |
/// | 2 | has another character than a digit, or an odd number of digits |
/// | 3 | has fewer than 5 bytes, or another number of bytes than its count and 5 |
/// | 4 | has bytes that do not sum to 0 modulo 256 |
/// | 5 | has a type above 05 |
/// | 3 | has another count than 0 for type 01, 2 for types 02 and 04, or 4 for types 03 and 05 |
/// | 8 | comes to more than 4,194,304 data bytes, with those of the lines before |
///
/// Kind 6 is a text without an end record; its line is 1 and the number of line feeds.
#[derive(Clone, Copy, Debug, PartialEq, Eq)]
pub struct HexFault {
    pub line: u64,
    pub kind: u8,
}

/// Why a text is not read.
#[derive(Debug, Drop, Error)]
pub enum HexError {
    /// The text is no image.
    #[error("refused")]
    Bad(HexFault),
    /// Memory was refused.
    #[error("no memory")]
    Memory,
}
