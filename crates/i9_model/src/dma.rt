//! DMA: the places in control words and in the DMA command word. The i960 CA/CF User's Manual has DMA in its chapter on
//! the DMA controller; the control word, the units and the bits of the command word are this project's own.

/// How many DMA channels there are.
pub const CHANNELS: u8 = 4;

/// The bits of the DMA command word that are kept: which channels are enabled, from bit 0 up, and which have ended.
pub const COMMAND_MASK: u32 = 0xFF;

/// The place in the command word of the bit that says that channel 0 has ended.
pub const FIRST_ENDED_PLACE: u8 = 4;

/// The place in a control word of the bit that holds the source address.
pub const SOURCE_HELD_PLACE: u32 = 2;

/// The place in a control word of the bit that holds the target address.
pub const TARGET_HELD_PLACE: u32 = 3;

/// The place in a control word of the bit that has a device give the bytes.
pub const FED_PLACE: u32 = 4;

/// The place in a control word of the bit that has the channel's interrupt posted at the end.
pub const POSTS_PLACE: u32 = 6;
