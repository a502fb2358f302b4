//! A saved frame.

/// The sixteen local registers, and the address that they are saved at.
#[derive(Clone, Copy, Debug, PartialEq, Eq)]
pub struct Frame {
    pub address: u32,
    pub words: [u32; 16],
}
