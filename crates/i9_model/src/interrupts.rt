//! Interrupts: their vectors, and what was chosen (i960 CA/CF User's Manual, interrupts). Pins 0 to 7 and DMA channels
//! 0 to 3 are the lines 0 to 11.

/// How many lines there are: eight pins and four DMA channels.
pub const LINES: u8 = 12;

/// The line of the first DMA channel.
pub const FIRST_DMA_LINE: u8 = 8;

/// The bits of the pending and the mask word that are kept: one for each line.
pub const LINE_MASK: u32 = 0x0FFF;

/// The first vector that an interrupt can have.
pub const FIRST_VECTOR: u8 = 8;

/// The vector of the interrupt that is never masked.
pub const NMI_VECTOR: u8 = 248;

/// The priority that is let in whatever the process controls say.
pub const HIGHEST_PRIORITY: u8 = 31;

/// The place of the priority in the process controls.
pub const PRIORITY_PLACE: u32 = 16;

/// The place of the bit of the process controls that is set while an interrupt is handled.
pub const INTERRUPTED_PLACE: u32 = 13;

/// The bytes of the interrupt table that say which vectors software requested: four of priorities, and 32 of vectors.
pub const PENDING_SIZE: u32 = 36;

/// The offset of the bytes of vectors in the interrupt table.
pub const PENDING_VECTORS: u32 = 4;

/// The offset in the interrupt table from which the word of a vector stands at four times its number.
pub const VECTOR_WORDS: u32 = 4;

/// What chose an interrupt: the input that is never masked, a line, or a request of software.
#[derive(Clone, Copy, Debug, PartialEq, Eq)]
pub enum Cause {
    Nmi,
    Line(u8),
    Soft,
}

/// An interrupt that is chosen.
#[derive(Clone, Copy, Debug, PartialEq, Eq)]
pub struct Chosen {
    pub vector: u8,
    pub cause: Cause,
}
