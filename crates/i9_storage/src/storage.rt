//! Memory, the requests that wait to be stored in it, and the frames that are held in place of it.
ghost use Rattle.std.specs.Prelude.{◌≡◌, ◌≢◌, false, ◌+◌, ◌-◌, ◌%◌, ◌^◌, ◌<◌, ◌≤◌, ◌↔◌, ◌∷◌, ◌++◌, [], length, take};
ghost use Rattle.std.specs.Prelude.{IsTrue, None, Some, OnOk, OnErr, IfOk};
ghost use Rattle.std.specs.List.{AllByRecursion};
ghost use Rattle.i9_model.specs.Memory.{with_words, stored};
ghost use Rattle.i9_isa.specs.Words.{bit};
ghost use Rattle.i9_model.specs.declared.layout.TheConstants.{RIP};
ghost use Rattle.i9_model.specs.Frames.{no_frames, saved, with_marked, returned, flushed, wrote, wrote_run, softened};
ghost use Rattle.i9_model.specs.Stale.{picked, byte_marks};
ghost use Rattle.i9_model.specs.Writes.{wrapped, upwards};
ghost use Rattle.i9_model.specs.Hazards.{writes_hazard, save_hazard};
ghost use Rattle.i9_model.specs.Sound.{IsSound};
ghost use Rattle.i9_model.specs.Alike.{is_compared, AgreeWhere};
ghost use Rattle.i9_model.specs.HeldFrames.{cache, AreYoungest, holding, taken, written_back};
ghost use Rattle.i9_model.specs.Late.{due_puts, left_waiting};
ghost use Rattle.i9_memory.specs.Memory.{memory_of};
ghost use Rattle.i9_queue.specs.Queue.{wait_in};
ghost use Rattle.i9_watch.specs.Bits.{bits_of};
ghost use Rattle.i9_watch.specs.Watch.{frames_of, HasRunMarks, KeepsMarks};
ghost use Rattle.i9_frames.specs.Sets.{held};
ghost use Rattle.i9_storage.specs.Kept.{IsKept, IsKept-prop, AreCurrent};

mod plans;
mod reading;
mod spilling;

use crate::words::Words;
use i9_frames::{Frame, Sets};
use i9_isa::NoMemory;
use i9_memory::Memory;
use i9_model::layout::FRAME_SIZE;
use i9_queue::{Behind, Request};
use i9_watch::Watch;
use spilling::{hold, write_back};
use std::alloc::Global;

/// Memory as the accesses of a run see it. A frame that is saved is held in a set of the local
/// register cache, and its words go to memory where another frame needs that set, or at a flush
/// (the i960 CA/CF User's Manual, local register cache). A store may wait before it is in memory, and
/// lies under the held frames too. What is read is memory after all that waits, with the held frames
/// laid over it, the oldest first.
///
/// It keeps true that
/// - live frames are apart and outside the port page, and all their bytes are soft;
/// - the frames that are held are the youngest live ones, with sixteen words each;
/// - memory has room for each held frame and for what waits, so that no spill, no flush and no store
///   that lands asks for memory;
/// - each word that is kept for a fetch is the one that is read, and none of its bytes is soft.
#[derive(Drop)]
pub struct Storage {
    behind: Behind,
    watch: Watch,
    sets: Sets,
    words: Words,
    ghost kept: { IsKept behind watch sets } by { IsKept-prop behind watch sets },
    ghost current: { AreCurrent words behind watch sets },
}

/// Drops the youngest live frame, where one is live.
#[tactic(auto, using(crate::proofs::FrameWords::return_rules))]
fn drop_frame(watch: &mut Watch)
    requires sound { IsSound (frames_of watch.old) }
    ensures frames { frames_of watch.new ≡ returned (frames_of watch.old) }
    ensures keeps { KeepsMarks watch.old watch.new }
    ensures no_more { KeepsMarks watch.new watch.old }
{
    if watch.first_live().is_some() {
        let _ = watch.returned();
    }
}

/// Bytes were stored to: byte k is soft where bit k of `stale` is set, and elsewhere it is not.
fn mark_stored(watch: &mut Watch, a: u32, n: u32, stale: u16)
    requires few { stale ≢ 0 → n ≤ 16 }
    requires room { stale ≢ 0 → HasRunMarks watch.old a n }
    ensures frames { frames_of watch.new
        ≡ softened (wrote_run (frames_of watch.old) a n) (picked wrapped a (bits_of stale n)) }
    ensures keeps { KeepsMarks watch.old watch.new }
    ensures no_more { KeepsMarks watch.new watch.old }
{
    // Those that load store nothing.
    if n == 0 {
        return;
    }
    // Few values are marked.
    if stale == 0 {
        watch.wrote(a, n);
    } else {
        watch.wrote_marked(a, n, stale);
    }
}

impl Storage {
    ghost use Rattle.i9_storage.specs.Storage.{cache_of, memory_in, frames_in, size_of, acted_in, waiting_in, Stores};
    ghost use Rattle.i9_storage.specs.Storage.{IsDrained, HasSpace, HasSoftSpace, HasFrameSpace, KeepsFrameSpace};
    ghost use Rattle.i9_storage.specs.Storage.{KeepsPages, KeepsRest, KeepsContents, KeepsAll};
    ghost use Rattle.i9_storage.specs.Storage.{AddsBytesOnly, AddsFrameOnly, AddsSoftOnly, HasPagesOf};

    /// Memory as it is, with `sets` sets. No frame is saved, and nothing waits.
    pub fn new(alloc: Global, memory: Memory, sets: u8) -> Result<Storage, NoMemory>
        requires { (0 < sets) × (sets < 16) }
        ensures cache { IfOk result (λ s. cache_of s ≡ cache [] (memory_of memory)) }
        ensures frames { IfOk result (λ s. frames_in s ≡ no_frames) }
        ensures size { IfOk result (λ s. size_of s ≡ sets) }
        ensures waiting { IfOk result (λ s. waiting_in s ≡ []) }
        ensures pages { IfOk result (λ s. HasPagesOf memory s) }
    {
        Ok(Storage {
            behind: Behind::new(memory),
            watch: Watch::new(alloc),
            sets: Sets::new(alloc, sets)?,
            words: Words::new(alloc)?,
        })
    }

    /// The same memory with the same frames and the same requests.
    pub fn copy(&self, alloc: Global) -> Result<Storage, NoMemory>
        ensures contents { IfOk result (λ s. KeepsContents self.now s) }
        ensures pages { IfOk result (λ s. KeepsPages self.now s) }
    {
        let behind = self.behind.copy()?;
        let watch = self.watch.copy()?;
        let sets = self.sets.copy(alloc)?;
        let words = Words::new(alloc)?;
        Ok(Storage {
            behind,
            watch,
            sets,
            words,
        })
    }

    /// Whether nothing waits to be stored in memory.
    pub fn is_drained(&self) -> bool
        ensures { IsTrue result ↔ IsDrained self.now }
    {
        self.behind.is_drained()
    }

    /// Stores bytes for which there is space, beside the live frames, where nothing waits. Byte k is
    /// soft then where bit k of `stale` is set.
    pub fn store(&mut self, a: u32, bytes: &[u8], stale: u16)
        requires drained { IsDrained self.old }
        requires space { HasSpace self.old a (length bytes.now) }
        requires free { writes_hazard (frames_in self.old) (upwards a bytes.now) ≡ None }
        requires few { length bytes.now < 2 ^ 32 }
        requires stale_few { stale ≢ 0 → length bytes.now ≤ 16 }
        requires stale_space { stale ≢ 0 → HasSoftSpace self.old a (length bytes.now) }
        ensures stores { Stores self.old self.new (upwards a bytes.now)
            (picked wrapped a (bits_of stale (length bytes.now))) }
        ensures keeps { KeepsRest self.old self.new }
    {
        self.words.forget(a, bytes.len() as u32);
        self.behind.store(a, bytes);
        mark_stored(&mut self.watch, a, bytes.len() as u32, stale);
    }

    /// A request waits, behind the others and due no earlier. There is space for its bytes, beside the
    /// live frames, and they are read from now on, though they go to memory later. Byte k is soft
    /// then where bit k of `stale` is set.
    #[inline(always)]
    pub fn enqueue(&mut self, request: Request, stale: u16)
        requires few { length (waiting_in self.old) < 3 }
        requires order { AllByRecursion (λ w. w.due ≤ request.due) (waiting_in self.old) }
        requires space { HasSpace self.old request.address (length request.bytes.items) }
        requires stale_space { stale ≢ 0 → HasSoftSpace self.old request.address (length request.bytes.items) }
        requires free { writes_hazard (frames_in self.old) (upwards request.address request.bytes.items) ≡ None }
        ensures stores { Stores self.old self.new (upwards request.address request.bytes.items)
            (picked wrapped request.address (bits_of stale (length request.bytes.items))) }
        ensures waiting { waiting_in self.new ≡ waiting_in self.old ++ wait_in request ∷ [] }
        ensures size { size_of self.new ≡ size_of self.old }
        ensures acted { acted_in self.new ≡ acted_in self.old }
        ensures pages { KeepsPages self.old self.new }
    {
        let a = request.address;
        let n = request.bytes.len() as u32;
        self.words.forget(a, n);
        self.behind.enqueue(request);
        mark_stored(&mut self.watch, a, n, stale);
    }

    /// What is due by `turn` goes to memory. Nothing else changes.
    // At most turns nothing waits, and this is no part of the code for these.
    #[inline(never)]
    pub fn land(&mut self, turn: u64)
        ensures cache { cache_of self.new ≡ cache_of self.old }
        ensures memory { memory_in self.new ≡ memory_in self.old }
        ensures frames { frames_in self.new ≡ frames_in self.old }
        ensures size { size_of self.new ≡ size_of self.old }
        ensures waiting { waiting_in self.new ≡ left_waiting turn (waiting_in self.old) }
        ensures acted { (acted_in self.new).bytes
            ≡ stored (acted_in self.old).bytes (due_puts turn (waiting_in self.old)) }
        ensures frame_space { KeepsFrameSpace self.old self.new }
        ensures pages { KeepsPages self.old self.new }
    {
        self.behind.land(turn);
    }

    /// Saves a frame for which there is space, with the marks of its words; its return address has
    /// none. It is held, and goes to memory later; where all sets are taken, the oldest held frame
    /// goes there now. Nothing waits.
    pub fn save_frame(&mut self, f: Frame, marks: u16)
        requires drained { IsDrained self.old }
        requires space { HasFrameSpace self.old f.address }
        requires free { save_hazard (frames_in self.old) f.address ≡ None }
        requires place { f.address % 16 ≡ 0 }
        requires known { bit marks RIP ≡ false }
        ensures cache { cache_of self.new ≡ holding (size_of self.old) f (cache_of self.old) }
        ensures memory { memory_in self.new ≡ with_words (memory_in self.old) f.address f.words }
        ensures frames { frames_in self.new ≡ with_marked (saved (frames_in self.old) f.address)
            (picked wrapped f.address (byte_marks (bits_of marks 16))) }
        ensures keeps { KeepsRest self.old self.new }
    {
        self.words.forget(f.address, FRAME_SIZE);
        hold(&mut self.behind, &mut self.sets, f);
        self.watch.called(f.address, marks);
    }

    /// The youngest live frame, where one is live, is returned to. It is held no more, and what is
    /// left is the same memory as far as that is compared.
    pub fn restore_frame(&mut self)
        ensures cache { cache_of self.new ≡ taken (cache_of self.old) }
        ensures memory { AgreeWhere (is_compared (returned (frames_in self.old))) (memory_in self.old)
            (memory_in self.new).bytes }
        ensures frames { frames_in self.new ≡ returned (frames_in self.old) }
        ensures acted { acted_in self.new ≡ acted_in self.old }
        ensures keeps { KeepsRest self.old self.new }
    {
        let _ = self.sets.pop();
        drop_frame(&mut self.watch);
    }

    /// All held frames go to memory, the oldest first, and no frame is live any more. Nothing waits.
    pub fn flush(&mut self)
        requires drained { IsDrained self.old }
        ensures cache { cache_of self.new ≡ written_back (cache_of self.old) }
        ensures memory { memory_in self.new ≡ memory_in self.old }
        ensures frames { frames_in self.new ≡ flushed (frames_in self.old) }
        ensures keeps { KeepsRest self.old self.new }
    {
        write_back(&mut self.behind, &mut self.sets);
        self.watch.flushed();
    }

    /// Makes space for `n` bytes from `a` up, and for no others but those of their pages. Memory is refused only where
    /// space is lacking, and then some is lacking still.
    pub fn reserve(&mut self, a: u32, n: u32) -> Result<(), NoMemory>
        ensures keeps { KeepsAll self.old self.new }
        ensures space { OnOk result (HasSpace self.new a n) }
        ensures needed { OnErr result (0 < n) }
        ensures lacking { OnErr result (HasSpace self.old a n → ⊥) }
        ensures still_lacking { OnErr result (HasSpace self.new a n → ⊥) }
        ensures only { AddsBytesOnly self.old self.new a n }
    {
        self.behind.reserve(a, n)
    }

    /// Makes space for a frame at `a`: for its words in memory, so that it can go there whenever it
    /// has to, and for its save; and for nothing else but what shares their pages. Memory is refused
    /// only where space is lacking, and then some is lacking still.
    pub fn reserve_frame(&mut self, a: u32) -> Result<(), NoMemory>
        ensures keeps { KeepsAll self.old self.new }
        ensures space { OnOk result (HasFrameSpace self.new a) }
        ensures lacking { OnErr result (HasFrameSpace self.old a → ⊥) }
        ensures still_lacking { OnErr result (HasFrameSpace self.new a → ⊥) }
        ensures only { AddsFrameOnly self.old self.new a }
    {
        self.behind.reserve(a, FRAME_SIZE)?;
        self.watch.reserve(a)
    }

    /// Makes space for the soft marks of `n` bytes from `a` up, and for no others but those of their
    /// pages. Memory is refused only where space is lacking.
    pub fn reserve_soft(&mut self, a: u32, n: u32) -> Result<(), NoMemory>
        requires few { n ≤ 16 }
        ensures keeps { KeepsAll self.old self.new }
        ensures space { OnOk result (HasSoftSpace self.new a n) }
        ensures lacking { OnErr result (HasSoftSpace self.old a n → ⊥) }
        ensures still_lacking { OnErr result (HasSoftSpace self.new a n → ⊥) }
        ensures only { AddsSoftOnly self.old self.new a n }
    {
        self.watch.reserve_bytes(a, n)
    }

    /// New sets, which hold nothing, take the place of the others, which hold nothing either.
    pub fn renew(&mut self, sets: Sets)
        requires empty { (cache_of self.old).held ≡ [] }
        requires new { sets.frames ≡ [] }
        ensures cache { cache_of self.new ≡ cache_of self.old }
        ensures frames { frames_in self.new ≡ frames_in self.old }
        ensures size { size_of self.new ≡ sets.size }
        ensures waiting { waiting_in self.new ≡ waiting_in self.old }
        ensures acted { acted_in self.new ≡ acted_in self.old }
        ensures pages { KeepsPages self.old self.new }
    {
        self.sets = sets;
    }

    /// The soft bytes and the live frames.
    pub fn watch(&self) -> &Watch
        ensures frames { frames_of result.now ≡ frames_in self.now }
        ensures sound { IsSound (frames_in self.now) }
    {
        &self.watch
    }

    /// The sets, with the frames that are held.
    pub fn sets(&self) -> &Sets
        ensures held { result.now ≡ held (size_of self.now) (cache_of self.now).held }
        ensures youngest { AreYoungest (cache_of self.now).held (frames_in self.now).live }
    {
        &self.sets
    }
}
