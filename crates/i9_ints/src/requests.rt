//! What software asks for, in the first bytes of the interrupt table.
ghost use Rattle.std.specs.Prelude.{◌≡◌, ◌∷◌, [], None, OnOk, OnErr};
ghost use Rattle.i9_model.specs.declared.interrupts.TheConstants.{PENDING_SIZE};
ghost use Rattle.i9_model.specs.Memory.{with_writes};
ghost use Rattle.i9_model.specs.Frames.{wrote};
ghost use Rattle.i9_model.specs.Hazards.{unless};
ghost use Rattle.i9_model.specs.Interrupts.{priority_place, pending_place, byte_hazard, request_hazard, request_writes};
ghost use Rattle.i9_model.specs.Interrupts.{taken_writes, cleared, clearing_writes, clearing_hazard};
ghost use Rattle.i9_memory.specs.Memory.{memory_of, HasRoom, KeepsRoom};
ghost use Rattle.i9_watch.specs.Watch.{frames_of, spare_of, KeepsMarks};

use crate::Ints;
use crate::bits::{byte_without_bit, with_bit};
use i9_memory::Memory;
use i9_model::interrupts::PENDING_VECTORS;
use i9_model::{Cause, Chosen};
use i9_watch::Watch;

/// How many vectors have one priority.
pub(crate) const VECTORS: u8 = 8;

/// How many bits a byte has.
pub(crate) const BITS: u8 = 8;

/// The address of the byte with the bit of a vector's priority.
pub(crate) fn priority_place(table: u32, vector: u8) -> u32
    ensures { result ≡ priority_place table vector }
{
    table.wrapping_add(u32::from(vector / VECTORS / BITS))
}

/// The address of the byte with the bits of the vectors of a priority.
pub(crate) fn pending_place(table: u32, vector: u8) -> u32
    ensures { result ≡ pending_place table vector }
{
    table.wrapping_add(PENDING_VECTORS + u32::from(vector / VECTORS))
}

/// The hazard of a byte that is written.
pub(crate) fn byte_hazard(w: &Watch, a: u32) -> Option<u32>
    ensures { result ≡ byte_hazard (frames_of w.now) a }
{
    w.check_write(a, 1).or_else(|| Watch::touches_port(a, 1))
}

/// The hazard of a request: both bytes are read, and then both are written.
#[tactic(auto, unfolding(i9_model::specs::Interrupts::request_hazard))]
fn request_hazard(w: &Watch, table: u32, vector: u8) -> Option<u32>
    ensures { result ≡ request_hazard (frames_of w.now) table vector }
{
    let priority = priority_place(table, vector);
    let pending = pending_place(table, vector);
    let read = w
        .check_read(priority, 1)
        .or_else(|| w.check_read(pending, 1));
    read.or_else(|| byte_hazard(w, priority))
        .or_else(|| byte_hazard(w, pending))
}

/// Stores a byte at `a`, which is not soft any more.
#[tactic(auto, using(crate::proofs::Storing::store_memory))]
fn store(m: &mut Memory, w: &mut Watch, a: u32, byte: u8)
    requires { HasRoom m.old a 1 }
    ensures memory { memory_of m.new ≡ with_writes (memory_of m.old) ((a, byte) ∷ []) }
    ensures frames { frames_of w.new ≡ wrote (frames_of w.old) ((a, byte) ∷ []) }
    ensures room { KeepsRoom m.old m.new }
    ensures spare { spare_of w.new ≡ spare_of w.old }
    ensures marks { KeepsMarks w.old w.new }
{
    m.put_byte(a, byte);
    w.wrote(a, 1);
}

/// Clears the bit of a vector, and that of its priority with the last of its vectors.
fn clear_request(m: &mut Memory, w: &mut Watch, table: u32, vector: u8)
    requires { HasRoom m.old table PENDING_SIZE }
    ensures memory { memory_of m.new ≡ with_writes (memory_of m.old) (taken_writes (memory_of m.old) table vector) }
    ensures frames { frames_of w.new ≡ wrote (frames_of w.old) (taken_writes (memory_of m.old) table vector) }
    ensures room { KeepsRoom m.old m.new }
    ensures spare { spare_of w.new ≡ spare_of w.old }
    ensures marks { KeepsMarks w.old w.new }
{
    let pending = pending_place(table, vector);
    let left = byte_without_bit(m.byte(pending), vector % BITS);
    if left == 0 {
        let priority = priority_place(table, vector);
        let priorities = byte_without_bit(m.byte(priority), vector / VECTORS % BITS);
        store(m, w, priority, priorities);
    }
    store(m, w, pending, left);
}

/// What a request of software for vector `v` stores, in the interrupt table at `table`: the byte with
/// the bit of its priority and the byte with its own, each with its address and with that bit set.
/// Both bytes are read, and then both are written; `Err` is the hazard of the first access that meets
/// one. After the i960 CA/CF User's Manual, interrupts.
#[tactic(auto, unfolding(i9_model::specs::Requests::request_writes))]
pub fn plan_request(m: &Memory, w: &Watch, table: u32, v: u8) -> Result<[(u32, u8); 2], u32>
    ensures { result ≡ unless (request_hazard (frames_of w.now) table v) (request_writes (memory_of m.now) table v) }
{
    if let Some(hazard) = request_hazard(w, table, v) {
        return Err(hazard);
    }
    let priority = priority_place(table, v);
    let pending = pending_place(table, v);
    Ok([
        (priority, with_bit(m.byte(priority), v / VECTORS % BITS)),
        (pending, with_bit(m.byte(pending), v % BITS)),
    ])
}

impl Ints {
    ghost use Rattle.i9_ints.specs.Ints.{interrupts_of};

    /// Software asks for vector `v`, in the interrupt table at `table`: the bit of its priority and
    /// its own are set. Both bytes are read, and then both are written; `Err` is the hazard of the
    /// first access that meets one, and then nothing changes. After the i960 CA/CF User's Manual,
    /// interrupts.
    pub fn request(m: &mut Memory, w: &mut Watch, table: u32, v: u8) -> Result<(), u32>
        requires { HasRoom m.old table PENDING_SIZE }
        ensures hazard { result ≡ unless (request_hazard (frames_of w.old) table v) tt }
        ensures memory { OnOk result
            (memory_of m.new ≡ with_writes (memory_of m.old) (request_writes (memory_of m.old) table v)) }
        ensures frames { OnOk result
            (frames_of w.new ≡ wrote (frames_of w.old) (request_writes (memory_of m.old) table v)) }
        ensures same_memory { OnErr result (memory_of m.new ≡ memory_of m.old) }
        ensures same_frames { OnErr result (frames_of w.new ≡ frames_of w.old) }
        ensures room { KeepsRoom m.old m.new }
        ensures spare { spare_of w.new ≡ spare_of w.old }
        ensures marks { KeepsMarks w.old w.new }
    {
        let [priority, pending] = plan_request(m, w, table, v)?;
        store(m, w, priority.0, priority.1);
        store(m, w, pending.0, pending.1);
        Ok(())
    }

    /// What chose an interrupt is not asked for any more: of a request of software the bit of the
    /// vector is cleared, and that of its priority with the last of its vectors. To be called once
    /// the frame is saved and the record is written. After the i960 CA/CF User's Manual, interrupts.
    pub fn take(&mut self, m: &mut Memory, w: &mut Watch, table: u32, c: &Chosen)
        requires room { HasRoom m.old table PENDING_SIZE }
        requires free { clearing_hazard c.now.cause (memory_of m.old) (frames_of w.old) table c.now.vector ≡ None }
        ensures interrupts { interrupts_of self.new ≡ cleared c.now.cause (interrupts_of self.old) }
        ensures memory { memory_of m.new
            ≡ with_writes (memory_of m.old) (clearing_writes c.now.cause (memory_of m.old) table c.now.vector) }
        ensures frames { frames_of w.new
            ≡ wrote (frames_of w.old) (clearing_writes c.now.cause (memory_of m.old) table c.now.vector) }
        ensures room { KeepsRoom m.old m.new }
        ensures spare { spare_of w.new ≡ spare_of w.old }
        ensures marks { KeepsMarks w.old w.new }
    {
        self.clear(c.cause);
        match c.cause {
            Cause::Soft => clear_request(m, w, table, c.vector),
            Cause::Nmi | Cause::Line(_) => {}
        }
    }
}
