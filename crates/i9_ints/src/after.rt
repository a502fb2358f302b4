//! Memory and frames as an entry leaves them: with a frame saved, and a record written.
ghost use Rattle.std.specs.Prelude.{◌≡◌, ◌%◌, None};
ghost use Rattle.i9_model.specs.declared.layout.TheConstants.{RECORD_SIZE};
ghost use Rattle.i9_model.specs.Memory.{Memory as Bytes};
ghost use Rattle.i9_model.specs.Frames.{record_address};
ghost use Rattle.i9_model.specs.Hazards.{port_hazard, record_write_hazard};
ghost use Rattle.i9_model.specs.Interrupts.{byte_hazard, priority_hazard, taken_hazard, taken_writes, cleared_hazard};
ghost use Rattle.i9_model.specs.Interrupts.{clearing_writes};
ghost use Rattle.i9_memory.specs.Memory.{memory_of};
ghost use Rattle.i9_watch.specs.Watch.{frames_of};
ghost use Rattle.i9_ints.specs.After.{memory_after, frames_after};

use crate::bits::byte_without_bit;
use crate::requests::{BITS, VECTORS, byte_hazard, pending_place, priority_place};
use arrayvec::ArrayVec;
use i9_calls::WORD_SIZE;
use i9_memory::Memory;
use i9_model::layout::{FRAME_SIZE, RECORD_SIZE};
use i9_model::{Cause, Chosen, Entry};
use i9_watch::Watch;

/// The address of an entry's record.
fn record_address(e: &Entry) -> u32
    ensures { result ≡ record_address e.now.push.frame }
{
    (e.push.frame - e.push.frame % 16).wrapping_sub(RECORD_SIZE)
}

/// Whether a byte is soft afterwards: of the frame that is saved, or soft before, and not of the
/// record.
fn is_soft_after(w: &Watch, e: &Entry, a: u32) -> bool
    ensures { (m : Bytes) → result ≡ (frames_after m (frames_of w.now) e.now.push e.now.words).soft a }
{
    if a.wrapping_sub(record_address(e)) < RECORD_SIZE {
        return false;
    }
    a.wrapping_sub(e.push.save) < FRAME_SIZE || w.soft(a)
}

/// A byte of memory afterwards, which is a byte of the record if the record has it.
fn byte_after(m: &Memory, e: &Entry, a: u32) -> u8
    requires { port_hazard (record_address e.now.push.frame) RECORD_SIZE ≡ None }
    ensures { result ≡ (memory_after (memory_of m.now) e.now.push e.now.words).bytes a }
{
    let record = record_address(e);
    let offset = a.wrapping_sub(record);
    if offset >= RECORD_SIZE {
        return m.byte(a);
    }
    let k = offset / WORD_SIZE;
    let bytes = m.word_bytes(record.wrapping_add(WORD_SIZE * k), e.words[k as usize]);
    bytes[(offset % WORD_SIZE) as usize]
}

/// The hazard of a byte that is written afterwards.
fn byte_hazard_after(w: &Watch, e: &Entry, a: u32) -> Option<u32>
    ensures { (m : Bytes) → result ≡ byte_hazard (frames_after m (frames_of w.now) e.now.push e.now.words) a }
{
    if a.wrapping_sub(e.push.save) < FRAME_SIZE {
        return Some(a);
    }
    byte_hazard(w, a)
}

/// The hazard of the byte of the priorities afterwards, which is written where a vector is the last
/// of its priority.
fn priority_hazard_after(m: &Memory, w: &Watch, e: &Entry, table: u32, vector: u8) -> Option<u32>
    requires { port_hazard (record_address e.now.push.frame) RECORD_SIZE ≡ None }
    ensures { result ≡ priority_hazard (memory_after (memory_of m.now) e.now.push e.now.words)
        (frames_after (memory_of m.now) (frames_of w.now) e.now.push e.now.words) table vector }
{
    let vectors = byte_after(m, e, pending_place(table, vector));
    if byte_without_bit(vectors, vector % BITS) != 0 {
        return None;
    }
    byte_hazard_after(w, e, priority_place(table, vector))
}

/// The hazard of what clears a request of software afterwards: both bytes are read, and those that
/// change are written.
fn taken_hazard_after(m: &Memory, w: &Watch, e: &Entry, table: u32, vector: u8) -> Option<u32>
    requires { port_hazard (record_address e.now.push.frame) RECORD_SIZE ≡ None }
    ensures { result ≡ taken_hazard (memory_after (memory_of m.now) e.now.push e.now.words)
        (frames_after (memory_of m.now) (frames_of w.now) e.now.push e.now.words) table vector }
{
    let priority = priority_place(table, vector);
    let pending = pending_place(table, vector);
    if is_soft_after(w, e, priority) {
        return Some(priority);
    }
    if is_soft_after(w, e, pending) {
        return Some(pending);
    }
    if let Some(hazard) = priority_hazard_after(m, w, e, table, vector) {
        return Some(hazard);
    }
    byte_hazard_after(w, e, pending)
}

/// The hazard of what clears the request of an interrupt afterwards.
#[tactic(auto, using(crate::proofs::AfterRecords::record_free))]
pub(crate) fn cleared_hazard(
    m: &Memory,
    w: &Watch,
    table: u32,
    c: &Chosen,
    e: &Entry,
) -> Option<u32>
    requires { record_write_hazard (frames_of w.now) e.now.push ≡ None }
    ensures { result ≡ cleared_hazard (memory_of m.now) (frames_of w.now) table c.now e.now.push e.now.words }
{
    match c.cause {
        Cause::Soft => taken_hazard_after(m, w, e, table, c.vector),
        Cause::Nmi | Cause::Line(_) => None,
    }
}

/// The bytes that clear a request of software afterwards: without the bit of the vector, and with the
/// last of its vectors without that of its priority.
fn taken_bytes(m: &Memory, table: u32, vector: u8, e: &Entry) -> ArrayVec<(u32, u8), 2>
    requires { port_hazard (record_address e.now.push.frame) RECORD_SIZE ≡ None }
    ensures { result.items ≡ taken_writes (memory_after (memory_of m.now) e.now.push e.now.words) table vector }
{
    let mut bytes = ArrayVec::new();
    let pending = pending_place(table, vector);
    let left = byte_without_bit(byte_after(m, e, pending), vector % BITS);
    if left == 0 {
        let priority = priority_place(table, vector);
        let priorities = byte_after(m, e, priority);
        bytes.push((
            priority,
            byte_without_bit(priorities, vector / VECTORS % BITS),
        ));
    }
    bytes.push((pending, left));
    bytes
}

/// The bytes that clear what chose an interrupt, each with its address, once the frame is saved and
/// the record is written: of a request of software the byte without the bit of the vector, and with
/// the last of its vectors before it the byte without the bit of its priority. After the i960 CA/CF
/// User's Manual, interrupts.
pub fn clearing_bytes(m: &Memory, table: u32, c: &Chosen, e: &Entry) -> ArrayVec<(u32, u8), 2>
    requires { port_hazard (record_address e.now.push.frame) RECORD_SIZE ≡ None }
    ensures { result.items
        ≡ clearing_writes c.now.cause (memory_after (memory_of m.now) e.now.push e.now.words) table c.now.vector }
{
    match c.cause {
        Cause::Soft => taken_bytes(m, table, c.vector, e),
        Cause::Nmi | Cause::Line(_) => ArrayVec::new(),
    }
}
