//! The channels and the command word.
ghost use Rattle.std.specs.Prelude.{◌≡◌, ◌<◌, if◌then◌else◌};
ghost use Rattle.i9_model.specs.State.{no_dma};
ghost use Rattle.i9_model.specs.Dma.{set_up, unit_length, is_idle, is_last, ended, dma_behind, posts_at_end};
ghost use Rattle.i9_dma.specs.Channels.{with_command, channel_of};
ghost use Rattle.i9_dma.specs.Units.{given_in};

use crate::bits::{has_bit, with_bit, without_bit};
use crate::channel::Channel;
use i9_model::dma::{CHANNELS, COMMAND_MASK, FIRST_ENDED_PLACE};

/// What came of a unit: nothing moved; it moved; it moved, and was the channel's last; or it met a
/// hazard, the byte at this address, and nothing moved.
#[derive(Clone, Copy)]
pub enum Unit {
    Idle,
    Moved,
    Ended,
    Hazard(u32),
}

/// Four channels, and the DMA command word (DMAC), of which bits 0 to 3 say which channels are enabled
/// and bits 4 to 7 which have ended. After the i960 CA/CF User's Manual, DMA controller; the bits of the
/// words are this project's own.
#[derive(Clone, Copy)]
pub struct Channels {
    channels: [Channel; CHANNELS as usize],
    command: u32,
}

/// The command word behind a unit: a channel of which nothing is left has ended, and is enabled no
/// more.
fn command_behind(command: u32, is_last: bool, c: u8) -> u32
    requires { c < CHANNELS }
    ensures { result ≡ (if is_last then ended command c else command) }
{
    if is_last {
        with_bit(without_bit(command, c), FIRST_ENDED_PLACE + c)
    } else {
        command
    }
}

#[tactic(auto, unfolding(crate::specs::Channels::dma_of))]
impl Channels {
    ghost use Rattle.i9_dma.specs.Channels.{dma_of};

    /// No channel was set up, and none is enabled or has ended.
    pub fn new() -> Channels
        ensures { dma_of result ≡ no_dma }
    {
        Channels {
            channels: [Channel::UNUSED; CHANNELS as usize],
            command: 0,
        }
    }

    /// Sets up channel `c`, 0 to 3, with a control word, the number of bytes to move, and the addresses
    /// that they are read from and written to. It is neither enabled nor ended then. After the i960
    /// CA/CF User's Manual, DMA controller; the control word is this project's own.
    pub fn setup(&mut self, c: u8, control: u32, count: u32, source: u32, target: u32)
        requires { c < CHANNELS }
        ensures { dma_of self.new
            ≡ set_up (dma_of self.old) c
            (record { control = control; count = count; source = source; target = target }) }
    {
        self.channels[c as usize] = Channel {
            control,
            count,
            source,
            target,
        };
        self.command = without_bit(without_bit(self.command, c), FIRST_ENDED_PLACE + c);
    }

    /// The command word.
    pub fn dmac(&self) -> u32
        ensures { result ≡ (dma_of self.now).dmac }
    {
        self.command
    }

    /// Sets the command word, of which bits 0 to 7 are kept.
    pub fn set_dmac(&mut self, v: u32)
        ensures { dma_of self.new ≡ with_command (dma_of self.old) v }
    {
        self.command = v & COMMAND_MASK;
    }

    /// Channel `c`, 0 to 3.
    pub(crate) fn channel(&self, c: u8) -> Channel
        requires { c < CHANNELS }
        ensures { channel_of result ≡ (dma_of self.now).channels c }
    {
        self.channels[c as usize]
    }

    /// The address and the number of bytes of the next unit of channel `c`, 0 to 3, where it is
    /// written.
    pub fn target(&self, c: u8) -> (u32, u32)
        requires { c < CHANNELS }
        ensures { result ≡ (((dma_of self.now).channels c).target, unit_length ((dma_of self.now).channels c)) }
    {
        let channel = self.channel(c);
        (channel.target, channel.unit_length())
    }

    /// Whether the interrupt of channel `c`, 0 to 3, is posted at its end.
    pub fn posts(&self, c: u8) -> bool
        requires { c < CHANNELS }
        ensures { result ≡ posts_at_end ((dma_of self.now).channels c) }
    {
        self.channel(c).posts()
    }

    /// Whether the next unit of channel `c`, 0 to 3, is its last.
    pub fn is_last(&self, c: u8) -> bool
        requires { c < CHANNELS }
        ensures { result ≡ is_last ((dma_of self.now).channels c) }
    {
        self.channel(c).behind().count == 0
    }

    /// Whether nothing moves: channel `c` is not enabled, nothing is left, or the bytes come from
    /// elsewhere.
    pub(crate) fn is_idle(&self, c: u8, given: Option<&[u8]>) -> bool
        requires { c < CHANNELS }
        ensures { result ≡ is_idle (dma_of self.now) c (given_in given.entry) }
    {
        let channel = self.channel(c);
        !has_bit(self.command, u32::from(c)) || channel.count == 0 || !channel.is_fit(given)
    }

    /// Puts channel `c`, 0 to 3, behind its next unit, whose bytes were moved: the addresses that are
    /// not held go up, and the count goes down, by how many they were. Where none is left, the channel
    /// has ended, and is enabled no more. Answers whether it has ended.
    pub fn pass_unit(&mut self, c: u8) -> bool
        requires { c < CHANNELS }
        ensures dma { dma_of self.new ≡ dma_behind (dma_of self.old) c }
        ensures last { result ≡ is_last ((dma_of self.old).channels c) }
    {
        let behind = self.channel(c).behind();
        let is_last = behind.count == 0;
        self.channels[c as usize] = behind;
        self.command = command_behind(self.command, is_last, c);
        is_last
    }
}
