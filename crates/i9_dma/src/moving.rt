//! The bytes of a unit, and how they move.
ghost use Rattle.std.specs.Prelude.{◌≡◌, true, ◌<◌, ◌≤◌, map, length, take};
ghost use Rattle.i9_model.specs.declared.dma.TheConstants.{CHANNELS};
ghost use Rattle.i9_model.specs.Writes.{upwards};
ghost use Rattle.i9_model.specs.Memory.{with_bytes};
ghost use Rattle.i9_model.specs.Frames.{places, wrote};
ghost use Rattle.i9_model.specs.Dma.{unit_length, is_fit, is_last, unit_bytes, dma_behind, next_unit};
ghost use Rattle.i9_memory.specs.Memory.{memory_of, HasRoom, KeepsRoom};
ghost use Rattle.i9_watch.specs.Watch.{frames_of, spare_of, KeepsMarks};
ghost use Rattle.i9_dma.specs.Channels.{channel_of};
ghost use Rattle.i9_dma.specs.Units.{given_in, bytes_in, planned_bytes, moved_by, answer_by, memory_by, frames_by};
ghost use Rattle.i9_dma.specs.Units.{dma_by};

use crate::channel::{Channel, LARGEST_UNIT};
use crate::channels::{Channels, Unit};
use arrayvec::ArrayVec;
use i9_memory::Memory;
use i9_watch::Watch;

/// The bytes of a unit.
type Bytes = ArrayVec<u8, LARGEST_UNIT>;

/// Bytes of memory from an address up, at most 16.
fn read(m: &Memory, a: u32, n: u32) -> Bytes
    requires { n ≤ LARGEST_UNIT }
    ensures { result.items ≡ map (memory_of m.now).bytes (places a n) }
{
    let mut bytes = ArrayVec::new();
    for k in 0..n {
        bytes.push(m.byte(a.wrapping_add(k)));
    }
    bytes
}

/// The first bytes of those that a device gives, at most 16.
fn first_bytes(given: &[u8], n: u32) -> Bytes
    requires most { n ≤ LARGEST_UNIT }
    requires enough { n ≤ length given.now }
    ensures { result.items ≡ take n given.now }
{
    let mut bytes = ArrayVec::new();
    let _ = bytes.try_extend_from_slice(&given[..n as usize]);
    bytes
}

impl Channel {
    /// The bytes of the next unit, from memory or from a device.
    #[tactic(auto, unfolding(i9_model::specs::Dma::unit_bytes))]
    fn bytes(&self, m: &Memory, given: Option<&[u8]>) -> Bytes
        requires { is_fit (channel_of self.now) (given_in given) ≡ true }
        ensures { result.items ≡ unit_bytes (memory_of m.now) (channel_of self.now) (given_in given.entry) }
    {
        let n = self.unit_length();
        match given {
            None => read(m, self.source, n),
            Some(bytes) => first_bytes(bytes, n),
        }
    }
}

/// Stores bytes from `a` up, which are not soft any more.
fn store(m: &mut Memory, w: &mut Watch, a: u32, bytes: &Bytes)
    requires { HasRoom m.old a (length bytes.now.items) }
    ensures memory { memory_of m.new ≡ with_bytes (memory_of m.old) a bytes.now.items }
    ensures frames { frames_of w.new ≡ wrote (frames_of w.old) (upwards a bytes.now.items) }
    ensures room { KeepsRoom m.old m.new }
    ensures spare { spare_of w.new ≡ spare_of w.old }
    ensures marks { KeepsMarks w.old w.new }
{
    m.store(a, bytes.as_slice());
    w.wrote(a, bytes.len() as u32);
}

impl Channels {
    ghost use Rattle.i9_dma.specs.Channels.{dma_of};

    /// The bytes of the next unit of channel `c`, 0 to 3, from memory or as a device gives them; None
    /// where nothing moves, and `Err` with the hazard that the unit meets. Nothing moves where the
    /// channel is not enabled, where nothing is left, where bytes are given to a channel that reads
    /// memory or none to one that a device feeds, and where they are not as many as a whole unit has.
    /// The bytes are all read, and then written: a soft byte of the source, a byte of a live frame in
    /// the target, and a byte of the target in the port page are hazards, in this order. This project's
    /// own.
    pub fn plan_unit(
        &self,
        m: &Memory,
        w: &Watch,
        c: u8,
        given: Option<&[u8]>,
    ) -> Result<Option<ArrayVec<u8, 16>>, u32>
        requires { c < CHANNELS }
        ensures { bytes_in result
            ≡ planned_bytes (memory_of m.now) (frames_of w.now) (dma_of self.now) c (given_in given.entry) }
    {
        if self.is_idle(c, given) {
            return Ok(None);
        }
        let channel = self.channel(c);
        match channel.hazard(w, given) {
            Some(hazard) => Err(hazard),
            None => Ok(Some(channel.bytes(m, given))),
        }
    }

    /// Writes the bytes of the next unit of channel `c`, and puts the channel behind them.
    fn move_bytes(&mut self, m: &mut Memory, w: &mut Watch, c: u8, bytes: &Bytes) -> Unit
        requires channel { c < CHANNELS }
        requires room { HasRoom m.old ((dma_of self.old).channels c).target (length bytes.now.items) }
        ensures answer { result ≡ moved_by (is_last ((dma_of self.old).channels c)) }
        ensures memory { memory_of m.new
            ≡ with_bytes (memory_of m.old) ((dma_of self.old).channels c).target bytes.now.items }
        ensures frames { frames_of w.new
            ≡ wrote (frames_of w.old) (upwards ((dma_of self.old).channels c).target bytes.now.items) }
        ensures dma { dma_of self.new ≡ dma_behind (dma_of self.old) c }
        ensures room { KeepsRoom m.old m.new }
        ensures spare { spare_of w.new ≡ spare_of w.old }
        ensures marks { KeepsMarks w.old w.new }
    {
        store(m, w, self.target(c).0, bytes);
        if self.pass_unit(c) {
            Unit::Ended
        } else {
            Unit::Moved
        }
    }

    /// Moves the next unit of channel `c`, 0 to 3: its bytes are read from memory, or are those that a
    /// device gives, and then they are written, and the channel stands behind them. Nothing changes
    /// where nothing moves or where the unit meets a hazard; when that is, `plan_unit` says. This
    /// project's own.
    pub fn unit(&mut self, m: &mut Memory, w: &mut Watch, c: u8, given: Option<&[u8]>) -> Unit
        requires channel { c < CHANNELS }
        requires room { HasRoom m.old ((dma_of self.old).channels c).target
            (unit_length ((dma_of self.old).channels c)) }
        ensures answer { result ≡ answer_by (is_last ((dma_of self.old).channels c))
            (next_unit (memory_of m.old) (frames_of w.old) (dma_of self.old) c (given_in given.entry)) }
        ensures memory { memory_of m.new ≡ memory_by (memory_of m.old)
            (next_unit (memory_of m.old) (frames_of w.old) (dma_of self.old) c (given_in given.entry)) }
        ensures frames { frames_of w.new ≡ frames_by (frames_of w.old)
            (next_unit (memory_of m.old) (frames_of w.old) (dma_of self.old) c (given_in given.entry)) }
        ensures dma { dma_of self.new ≡ dma_by (dma_of self.old)
            (next_unit (memory_of m.old) (frames_of w.old) (dma_of self.old) c (given_in given.entry)) }
        ensures room { KeepsRoom m.old m.new }
        ensures spare { spare_of w.new ≡ spare_of w.old }
        ensures marks { KeepsMarks w.old w.new }
    {
        match self.plan_unit(m, w, c, given) {
            Err(hazard) => Unit::Hazard(hazard),
            Ok(None) => Unit::Idle,
            Ok(Some(bytes)) => self.move_bytes(m, w, c, &bytes),
        }
    }
}
