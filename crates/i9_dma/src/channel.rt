//! One channel: how it was set up, and what its next unit is.
ghost use Rattle.std.specs.Prelude.{◌≡◌, ◌≤◌};
ghost use Rattle.i9_model.specs.Dma.{unit_size, unit_length, is_fit, source_hazard, unit_hazard, stepped};
ghost use Rattle.i9_model.specs.Dma.{channel_behind, posts_at_end};
ghost use Rattle.i9_isa.specs.Words.{bit};
ghost use Rattle.i9_watch.specs.Watch.{frames_of};
ghost use Rattle.i9_dma.specs.Channels.{channel_of};
ghost use Rattle.i9_dma.specs.Units.{given_in};

use crate::bits::has_bit;
use i9_model::dma::{FED_PLACE, POSTS_PLACE, SOURCE_HELD_PLACE, TARGET_HELD_PLACE};
use i9_watch::Watch;

/// The most bytes that a unit has.
pub(crate) const LARGEST_UNIT: usize = 16;

/// What a channel was set up with, as far as it has come: the control word, the number of bytes that
/// are left, and the addresses of the next ones. Bits 0 and 1 of the control word say how many bytes a
/// unit has, 1, 2, 4 or 16; bit 2 holds the source address and bit 3 the target address; with bit 4 a
/// device gives the bytes, and with bit 6 the channel's interrupt is posted at the end. The control
/// word is this project's own.
#[derive(Clone, Copy, Debug, PartialEq, Eq)]
pub struct Channel {
    pub control: u32,
    pub count: u32,
    pub source: u32,
    pub target: u32,
}

/// An address behind bytes that were moved, unless it is held.
fn stepped(is_held: bool, a: u32, n: u32) -> u32
    ensures { result ≡ stepped is_held a n }
{
    if is_held { a } else { a.wrapping_add(n) }
}

impl Channel {
    /// A channel that was never set up.
    pub(crate) const UNUSED: Channel = Channel {
        control: 0,
        count: 0,
        source: 0,
        target: 0,
    };

    /// How many bytes a whole unit has.
    fn unit_size(&self) -> u32
        ensures size { result ≡ unit_size self.now.control }
        ensures range { result ≤ 16 }
    {
        match self.control % 4 {
            0 => 1,
            1 => 2,
            2 => 4,
            _ => 16,
        }
    }

    /// How many bytes the next unit has: the lesser of a whole one's and of what is left.
    pub(crate) fn unit_length(&self) -> u32
        ensures length { result ≡ unit_length (channel_of self.now) }
        ensures range { result ≤ 16 }
    {
        let size = self.unit_size();
        if self.count < size { self.count } else { size }
    }

    /// Whether a device gives the bytes.
    fn is_fed(&self) -> bool
        ensures { result ≡ bit self.now.control FED_PLACE }
    {
        has_bit(self.control, FED_PLACE)
    }

    /// Whether the channel's interrupt is posted at the end.
    pub(crate) fn posts(&self) -> bool
        ensures { result ≡ posts_at_end (channel_of self.now) }
    {
        has_bit(self.control, POSTS_PLACE)
    }

    /// Whether the bytes come from where the control word says, and a device gives a whole unit.
    pub(crate) fn is_fit(&self, given: Option<&[u8]>) -> bool
        ensures { result ≡ is_fit (channel_of self.now) (given_in given.entry) }
    {
        match given {
            None => !self.is_fed(),
            Some(bytes) => self.is_fed() && bytes.len() == self.unit_size() as usize,
        }
    }

    /// The hazard of the bytes that are read, where they come from memory.
    fn source_hazard(&self, w: &Watch, given: Option<&[u8]>) -> Option<u32>
        ensures { result ≡ source_hazard (frames_of w.now) (channel_of self.now) (given_in given.entry) }
    {
        match given {
            None => w.check_read(self.source, self.unit_length()),
            Some(_) => None,
        }
    }

    /// The hazard of the next unit: its bytes are read, and then they are written.
    #[tactic(auto, unfolding(i9_model::specs::Dma::unit_hazard))]
    pub(crate) fn hazard(&self, w: &Watch, given: Option<&[u8]>) -> Option<u32>
        ensures { result ≡ unit_hazard (frames_of w.now) (channel_of self.now) (given_in given.entry) }
    {
        let n = self.unit_length();
        self.source_hazard(w, given)
            .or_else(|| w.check_write(self.target, n))
            .or_else(|| Watch::touches_port(self.target, n))
    }

    /// The channel behind its next unit.
    pub(crate) fn behind(&self) -> Channel
        ensures { channel_of result ≡ channel_behind (channel_of self.now) }
    {
        let n = self.unit_length();
        let holds_source = has_bit(self.control, SOURCE_HELD_PLACE);
        let holds_target = has_bit(self.control, TARGET_HELD_PLACE);
        Channel {
            control: self.control,
            count: self.count - n,
            source: stepped(holds_source, self.source, n),
            target: stepped(holds_target, self.target, n),
        }
    }
}
