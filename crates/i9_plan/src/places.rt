//! The places of a decode cache.
ghost use Rattle.std.specs.Prelude.{◌≡◌, ◌<◌, length};

use crate::kept::Kept;

/// Instructions that were decoded, each at a place by the address of its word, and the place of the one that was read
/// last.
#[derive(Drop)]
pub(crate) struct Places {
    pub known: Vec<Kept>,
    pub last: usize,
    ghost full: { length known.items ≡ 256 },
    ghost within: { last < 256 },
}
