//! What a push of a frame makes.

/// Where the locals are saved, where the new frame is, and the new pfp and sp.
#[derive(Clone, Copy, Debug, PartialEq, Eq)]
pub struct Push {
    pub save: u32,
    pub frame: u32,
    pub pfp: u32,
    pub sp: u32,
}
