//! An effect applied.
ghost use Rattle.std.specs.Prelude.{◌≡◌, ℕ, List, ◌+◌, ◌*◌, ◌^◌, ◌<◌, ◌≤◌, OnOk, OnErr, IfSome, IsSome, None, [], ◌∷◌};
ghost use Rattle.std.specs.Prelude.{◌++◌, length, replicate, true, false};
ghost use Rattle.std.specs.List.{AllByRecursion};
ghost use Rattle.i9_model.specs.Late.{resource, resources, due_puts, left_waiting};
ghost use Rattle.i9_model.specs.Controls.{KeepsControls, marks_after, with_group, controlled};
ghost use Rattle.i9_model.specs.State.{State, start_sets, started};
ghost use Rattle.i9_model.specs.Memory.{stored, words_in};
ghost use Rattle.i9_model.specs.Frames.{with_marked};
ghost use Rattle.i9_model.specs.Stale.{picked};
ghost use Rattle.i9_model.specs.Hazards.{writes_hazard};
ghost use Rattle.i9_model.specs.Writes.{written};
ghost use Rattle.i9_model.specs.Step.{Stays, saved_locals, frames_after, moved, flagged, acted, counted};
ghost use Rattle.i9_model.specs.Free.{IsFree};
ghost use Rattle.i9_model.specs.Alike.{AreAlike};
ghost use Rattle.i9_model.specs.HeldFrames.{overlaid, cache_moved, cache_acted, cache_configured};
ghost use Rattle.i9_regs.specs.declared.file.File.{File};
ghost use Rattle.i9_regs.specs.File.{issued_over};
ghost use Rattle.i9_regs.specs.Covered.{IsCovered, StartsAnew};
ghost use Rattle.i9_storage.specs.Storage as stores;
ghost use Rattle.i9_storage.specs.Storage.{KeepsPages, KeepsAll, Stores};
ghost use Rattle.i9_watch.specs.Bits.{bits_of};
ghost use Rattle.i9_processor.specs.Issued.{AreCovered, IsCodeCovered, IsStartCovered, IsIssued};
ghost use Rattle.i9_processor.specs.Pages.{AddsRunOnly, AddsMoveOnly, AddsWritesOnly};
ghost use Rattle.i9_processor.specs.Acts.{CanPut, IsDrainedToMove, IsDrainedToControl};
ghost use Rattle.i9_processor.specs.Effect.{action_in, one_in, requests_in, run_in, writes_in, posting_in, change_in};
ghost use Rattle.i9_processor.specs.Effect.{move_in, group_in, sets_in, marked_in, stale_in, lost_by, control_in};
ghost use Rattle.i9_processor.specs.Effect.{cache_through, size_with, is_costly, has_writes};
ghost use Rattle.i9_processor.specs.Effect.{AreRegisters, AreSpacious, CanPost, CanChange, CanControl, CanMove};
ghost use Rattle.i9_processor.specs.Effect.{HasMoveSpace, HasRunSpace, HasSpaceFor, KeepsRoom, IsEmptied, CanTake};
ghost use Rattle.i9_processor.specs.Effect.{IsLight};

use crate::effect::{Control, DmaChange, Effect, MOST_BYTES, Move, Posting, Requests};
use crate::landing::Landing;
use crate::marks;
use crate::processor::Processor;
use crate::registers::{issue_frame, issue_group};
use crate::start::{issue_start, start_breaks, start_interrupts, start_trace_controls, tables_of};
use arrayvec::ArrayVec;
use i9_calls::aligned;
use i9_dma::{Channel, Channels};
use i9_frames::{Frame, Sets};
use i9_isa::NoMemory;
use i9_model::layout::{BOOT_PC, LOCALS, TC_MASK};
use i9_model::{Push, Setup, Trace};
use i9_queue::Request;
use i9_storage::Storage;

/// Makes room for what is done to frames.
// Two calls need it, and LLVM would keep it apart; most effects leave frames alone.
#[inline(always)]
fn reserve_move(storage: &mut Storage, m: &Move) -> Result<(), NoMemory>
    ensures keeps { KeepsAll storage.old storage.new }
    ensures only { AddsMoveOnly storage.old storage.new m.now }
    ensures space { OnOk result (HasMoveSpace storage.new m.now) }
    ensures needed { (s : State) → OnErr result (is_costly (move_in s m.now) ≡ true) }
    ensures lacking { OnErr result (HasMoveSpace storage.old m.now → ⊥) }
    ensures still_lacking { OnErr result (HasMoveSpace storage.new m.now → ⊥) }
{
    match m {
        Move::Saves { push, back: _ } => storage.reserve_frame(push.save),
        _ => Ok(()),
    }
}

/// Makes room for the bytes in a row of an effect, and for their marks where some get one. Most effects have none,
/// and then nothing is looked up.
#[inline(always)]
fn reserve_run(storage: &mut Storage, e: &Effect, light: bool) -> Result<(), NoMemory>
    requires light { light ≡ true → IsLight e.now }
    ensures keeps { KeepsAll storage.old storage.new }
    ensures only { AddsRunOnly storage.old storage.new e.now }
    ensures space { OnOk result (HasRunSpace storage.new e.now) }
    ensures needed { OnErr result (0 < length e.now.bytes.items) }
    ensures lacking { OnErr result (HasRunSpace storage.old e.now → ⊥) }
    ensures still_lacking { OnErr result (HasRunSpace storage.new e.now → ⊥) }
{
    if e.has_no_run(light) {
        return Ok(());
    }
    let n = e.bytes.len() as u32;
    storage.reserve(e.address, n)?;
    if e.stale == 0 {
        return Ok(());
    }
    storage.reserve_soft(e.address, n)
}

/// Makes room for a byte at an address, where there is one.
#[inline(always)]
fn reserve_one(storage: &mut Storage, byte: Option<(u32, u8)>) -> Result<(), NoMemory>
    ensures keeps { KeepsAll storage.old storage.new }
    ensures only { AddsWritesOnly storage.old storage.new (one_in byte) }
    ensures space { OnOk result (AreSpacious storage.new (one_in byte)) }
    ensures needed { OnErr result (0 < length (one_in byte)) }
    ensures lacking { OnErr result (AreSpacious storage.old (one_in byte) → ⊥) }
    ensures still_lacking { OnErr result (AreSpacious storage.new (one_in byte) → ⊥) }
{
    match byte {
        Some((address, _)) => storage.reserve(address, 1),
        None => Ok(()),
    }
}

/// Makes room for bytes with bits of requests.
// Few effects have any, and this is no part of the code that calls it.
#[inline(never)]
#[tactic(auto, using(crate::proofs::Appending::room_rules))]
fn reserve_requests(storage: &mut Storage, requests: &Requests) -> Result<(), NoMemory>
    ensures keeps { KeepsAll storage.old storage.new }
    ensures only { AddsWritesOnly storage.old storage.new (requests_in requests.now) }
    ensures space { OnOk result (AreSpacious storage.new (requests_in requests.now)) }
    ensures needed { OnErr result (0 < length (requests_in requests.now)) }
    ensures lacking { OnErr result (AreSpacious storage.old (requests_in requests.now) → ⊥) }
    ensures still_lacking { OnErr result (AreSpacious storage.new (requests_in requests.now) → ⊥) }
{
    reserve_one(storage, requests.first)?;
    reserve_one(storage, requests.second)
}

/// Stores the bytes in a row of an effect. Most effects have none, and then nothing is looked up.
#[inline(always)]
fn store_run(storage: &mut Storage, e: &Effect, light: bool)
    requires light { light ≡ true → IsLight e.now }
    requires drained { 0 < length e.now.bytes.items → stores.IsDrained storage.old }
    requires space { HasRunSpace storage.old e.now }
    requires free { writes_hazard (stores.frames_in storage.old) (run_in e.now) ≡ None }
    ensures stores { Stores storage.old storage.new (run_in e.now) (stale_in e.now) }
    ensures acted { length e.now.bytes.items ≡ 0 → stores.acted_in storage.new ≡ stores.acted_in storage.old }
    ensures keeps { stores.KeepsRest storage.old storage.new }
{
    if !e.has_no_run(light) {
        storage.store(e.address, e.bytes.as_slice(), e.stale);
    }
}

/// Stores a byte at an address, where there is one.
// Most effects have none, and then nothing is called.
#[inline(always)]
#[tactic(auto, using(crate::proofs::Appending::none_rules))]
fn store_one(storage: &mut Storage, byte: Option<(u32, u8)>)
    requires drained { 0 < length (one_in byte) → stores.IsDrained storage.old }
    requires space { AreSpacious storage.old (one_in byte) }
    requires free { writes_hazard (stores.frames_in storage.old) (one_in byte) ≡ None }
    ensures stores { Stores storage.old storage.new (one_in byte) [] }
    ensures acted { length (one_in byte) ≡ 0 → stores.acted_in storage.new ≡ stores.acted_in storage.old }
    ensures keeps { stores.KeepsRest storage.old storage.new }
{
    match byte {
        Some((address, value)) => storage.store(address, &[value], 0),
        None => {}
    }
}

/// Stores bytes with bits of requests.
#[inline(always)]
fn store_requests(storage: &mut Storage, requests: &Requests)
    requires drained { 0 < length (requests_in requests.now) → stores.IsDrained storage.old }
    requires space { AreSpacious storage.old (requests_in requests.now) }
    requires free { writes_hazard (stores.frames_in storage.old) (requests_in requests.now) ≡ None }
    ensures stores { Stores storage.old storage.new (requests_in requests.now) [] }
    ensures acted { length (requests_in requests.now) ≡ 0 → stores.acted_in storage.new ≡ stores.acted_in storage.old }
    ensures keeps { stores.KeepsRest storage.old storage.new }
{
    store_one(storage, requests.first);
    store_one(storage, requests.second);
}

/// Stores the bytes of an effect.
// Entries do, whose effects are not plain, and this is no part of the code that calls it.
#[inline(never)]
fn store_bytes(storage: &mut Storage, e: &Effect)
    requires drained { 0 < length (writes_in e.now) → stores.IsDrained storage.old }
    requires space { HasRunSpace storage.old e.now }
    requires requests { AreSpacious storage.old (requests_in e.now.requests) }
    requires free { writes_hazard (stores.frames_in storage.old) (writes_in e.now) ≡ None }
    ensures stores { Stores storage.old storage.new (writes_in e.now) (stale_in e.now) }
    ensures acted { length (writes_in e.now) ≡ 0 → stores.acted_in storage.new ≡ stores.acted_in storage.old }
    ensures keeps { stores.KeepsRest storage.old storage.new }
{
    store_run(storage, e, false);
    store_requests(storage, &e.requests);
}

/// Bytes as a list.
#[inline(always)]
fn listed_all(bytes: &[u8]) -> ArrayVec<u8, MOST_BYTES>
    requires { length bytes.now ≤ MOST_BYTES }
    ensures { result.items ≡ bytes.now }
{
    let mut list = ArrayVec::new();
    let _ = list.try_extend_from_slice(bytes);
    list
}

/// The same. A byte, a word and four words have code of their own, since a copy is a move or two where its length is
/// known.
#[inline(always)]
#[tactic(auto, using(i9_memory::proofs::Runs::first_rules))]
fn listed(bytes: &[u8]) -> ArrayVec<u8, MOST_BYTES>
    requires { length bytes.now ≤ MOST_BYTES }
    ensures { result.items ≡ bytes.now }
{
    match bytes.len() {
        1 => listed_all(&bytes[..1]),
        4 => listed_all(&bytes[..4]),
        16 => listed_all(&bytes[..16]),
        _ => listed_all(bytes),
    }
}

/// The bytes in a row of an effect as a list. Those that load have none, and then nothing is copied.
#[inline(always)]
fn listed_run(e: &Effect, light: bool) -> ArrayVec<u8, MOST_BYTES>
    requires { light ≡ true → IsLight e.now }
    ensures { result.items ≡ e.now.bytes.items }
{
    if e.has_no_run(light) {
        return ArrayVec::new();
    }
    listed(e.bytes.as_slice())
}

/// The bytes in a row of an effect wait until a turn, behind the others that wait.
#[inline(always)]
fn queue_run(storage: &mut Storage, e: &Effect, light: bool, done: u64)
    requires light { light ≡ true → IsLight e.now }
    requires few { length (stores.waiting_in storage.old) < 3 }
    requires order { AllByRecursion (λ w. w.due ≤ done) (stores.waiting_in storage.old) }
    requires space { HasRunSpace storage.old e.now }
    requires free { writes_hazard (stores.frames_in storage.old) (run_in e.now) ≡ None }
    ensures stores { Stores storage.old storage.new (run_in e.now) (stale_in e.now) }
    ensures size { stores.size_of storage.new ≡ stores.size_of storage.old }
    ensures waiting { stores.waiting_in storage.new
        ≡ stores.waiting_in storage.old ++ record { puts = run_in e.now; due = done } ∷ [] }
    ensures acted { stores.acted_in storage.new ≡ stores.acted_in storage.old }
    ensures pages { KeepsPages storage.old storage.new }
{
    let request = Request {
        address: e.address,
        bytes: listed_run(e, light),
        due: done,
    };
    storage.enqueue(request, e.stale);
}

/// The bytes of an effect wait where it is a request, and else they are stored.
#[inline(always)]
fn put_bytes(storage: &mut Storage, e: &Effect, light: bool, landing: &Landing)
    requires light { light ≡ true → IsLight e.now }
    requires acts { CanPut (stores.waiting_in storage.old) landing.now e.now }
    requires space { HasRunSpace storage.old e.now }
    requires requests { AreSpacious storage.old (requests_in e.now.requests) }
    requires free { writes_hazard (stores.frames_in storage.old) (writes_in e.now) ≡ None }
    ensures stores { Stores storage.old storage.new (writes_in e.now) (stale_in e.now) }
    ensures size { stores.size_of storage.new ≡ stores.size_of storage.old }
    ensures waits { landing.now.request ≡ true → (stores.acted_in storage.new ≡ stores.acted_in storage.old)
        × (stores.waiting_in storage.new
        ≡ stores.waiting_in storage.old ++ record { puts = writes_in e.now; due = landing.now.done } ∷ []) }
    ensures acts { landing.now.request ≡ false → stores.waiting_in storage.new ≡ stores.waiting_in storage.old }
    ensures still { landing.now.request ≡ false → length (writes_in e.now) ≡ 0
        → stores.acted_in storage.new ≡ stores.acted_in storage.old }
    ensures pages { KeepsPages storage.old storage.new }
{
    if landing.request {
        queue_run(storage, e, light, landing.done);
    } else if e.is_plain(light) {
        store_run(storage, e, light);
    } else {
        store_bytes(storage, e);
    }
}

/// The locals of a new frame: pfp, sp, and zeros.
fn new_locals(push: &Push) -> [u32; LOCALS]
    ensures { result ≡ push.now.pfp ∷ push.now.sp ∷ replicate 14 0 }
{
    [push.pfp, push.sp, 0, 0, 0, 0, 0, 0, 0, 0, 0, 0, 0, 0, 0, 0]
}

impl Processor {
    ghost use Rattle.i9_processor.specs.State.{state_of, cache_of, size_of, cells_of, bytes_of, queue_of};
    ghost use Rattle.i9_processor.specs.State.{KeepsState, KeepsContents, KeepsFile, KeepsStorage, KeepsParts};
    ghost use Rattle.i9_processor.specs.Effect.{CanAct, IsStill};
    ghost use Rattle.i9_processor.specs.Pages.{AddsActionOnly, AddsNoPage, KeepsRest};

    /// Makes room for what an effect stores and saves, and for nothing else but what shares their pages. Memory is
    /// refused only where room is lacking, and then some is lacking still.
    // Each step calls it, and most effects store and save nothing.
    #[inline(always)]
    #[tactic(auto, unfolding(crate::specs::State::state_of, crate::specs::State::cache_of, crate::specs::State::size_of, crate::specs::State::cells_of, crate::specs::State::bytes_of, crate::specs::State::queue_of), using(crate::proofs::Applying::room_rules))]
    pub fn reserve(&mut self, e: &Effect, light: bool) -> Result<(), NoMemory>
        requires light { light ≡ true → IsLight e.now }
        ensures keeps { KeepsContents self.old self.new }
        ensures space { OnOk result (HasSpaceFor self.new e.now) }
        ensures needed { OnErr result (has_writes (action_in (state_of self.old) e.now) ≡ true) }
        ensures lacking { OnErr result (HasSpaceFor self.old e.now → ⊥) }
        ensures still_lacking { OnErr result (HasSpaceFor self.new e.now → ⊥) }
        ensures only { AddsActionOnly self.old self.new (action_in (state_of self.old) e.now) }
    {
        reserve_run(&mut self.storage, e, light)?;
        if e.is_plain(light) {
            return Ok(());
        }
        reserve_requests(&mut self.storage, &e.requests)?;
        reserve_move(&mut self.storage, &e.frames)
    }

    /// Starts anew by what was read of the tables.
    // Few effects do, and this is no part of the code that calls it.
    #[inline(never)]
    #[tactic(auto, unfolding(crate::specs::State::state_of, crate::specs::State::cache_of, crate::specs::State::size_of, crate::specs::State::bytes_of, crate::specs::State::queue_of, i9_model::specs::State::started))]
    fn start(&mut self, landing: &Landing, setup: &Setup)
        requires { IsStartCovered landing.now.writes }
        ensures state { state_of self.new ≡ record (started setup.now (state_of self.old).regs (state_of self.old).count
            (state_of self.old).interrupts.low (state_of self.old).memory (state_of self.old).frames) {
              marks = marks_after (state_of self.old).marks (start_sets setup.now) [];
            } }
        ensures count { (state_of self.new).count ≡ (state_of self.old).count }
        ensures issued { (cells : File)
            → IsIssued landing.now.writes landing.now.done self.old.flags cells self.old.file
            → IsIssued landing.now.writes landing.now.done self.new.flags cells self.new.file }
        ensures keeps { KeepsStorage self.old self.new }
    {
        issue_start(&mut self.file, &mut self.flags, landing, setup);
        self.marks = marks::with_frame(self.marks, 0);
        self.ip = aligned(setup.first);
        self.pc = BOOT_PC;
        self.tc = start_trace_controls(setup);
        self.check = false;
        start_interrupts(&mut self.ints, setup);
        self.channels = Channels::new();
        self.breaks = start_breaks(setup);
        self.tables = tables_of(setup);
    }

    /// Loads a group of the control table.
    // Few effects do, and this is no part of the code that calls it.
    #[inline(never)]
    #[tactic(auto, unfolding(crate::specs::State::state_of, crate::specs::State::cache_of, crate::specs::State::size_of, crate::specs::State::bytes_of, crate::specs::State::queue_of))]
    fn load_group(&mut self, group: u8, words: [u32; 4])
        requires group { group < 7 }
        requires empty { (cache_of self.old).held ≡ [] }
        requires drained { queue_of self.old ≡ [] }
        ensures state { state_of self.new ≡ with_group (state_of self.old) group words }
        ensures cache { cache_of self.new ≡ cache_configured (state_of self.new).memory (cache_of self.old) }
        ensures count { (state_of self.new).count ≡ (state_of self.old).count }
        ensures registers { KeepsFile self.old self.new }
        ensures keeps { KeepsRest self.old self.new }
    {
        match group {
            0 => {
                self.breaks.ipb = [words[0], words[1]];
                self.breaks.dab = [words[2], words[3]];
            }
            1 => {
                self.ints.set_maps([words[0], words[1], words[2]]);
                self.ints.set_icon(words[3]);
            }
            6 => {
                self.tc = words[2] & TC_MASK;
                self.breaks.bpcon = words[1];
            }
            _ => self.storage.configure(4 * (group - 2), &words),
        }
    }

    /// Does what is done to the controls.
    #[inline(always)]
    #[tactic(auto, unfolding(crate::specs::State::state_of, crate::specs::State::cache_of, crate::specs::State::size_of, crate::specs::State::bytes_of, crate::specs::State::queue_of))]
    fn control(&mut self, landing: &Landing, c: Control)
        requires can { CanControl (state_of self.old) c }
        requires empty { IsEmptied (cache_of self.old) c }
        requires drained { IsDrainedToControl (queue_of self.old) c }
        requires covered { StartsAnew (control_in c) → IsStartCovered landing.now.writes }
        ensures state { state_of self.new ≡ controlled (state_of self.old) (control_in c) }
        ensures cache { cache_of self.new ≡ cache_configured (state_of self.new).memory (cache_of self.old) }
        ensures count { (state_of self.new).count ≡ (state_of self.old).count }
        ensures issued { (cells : File)
            → IsIssued landing.now.writes landing.now.done self.old.flags cells self.old.file
            → IsIssued landing.now.writes landing.now.done self.new.flags cells self.new.file }
        ensures keeps { KeepsRest self.old self.new }
        ensures bytes { control_in c ≡ KeepsControls → bytes_of self.new ≡ bytes_of self.old }
    {
        match c {
            Control::Keeps => {}
            Control::Restarts { first, prcb } => {
                if let Ok(setup) = self.storage.reinit(first, prcb) {
                    self.start(landing, &setup);
                }
            }
            Control::LoadsGroup(group) => {
                let table = self.tables.control_table;
                if let Ok(words) = self.storage.control_group(table, group) {
                    self.load_group(group, words);
                }
            }
        }
    }

    /// The locals as a push saves them: rip is the return address.
    // Calls alone save them, and this is no part of the code that calls it.
    #[inline(never)]
    #[tactic(auto, unfolding(crate::specs::State::state_of), using(crate::proofs::RegisterList::register_rules))]
    fn saved_locals(&self, back: u32) -> [u32; LOCALS]
        ensures { result ≡ saved_locals (state_of self.now) back }
    {
        let r = |k: u8| self.register(k);
        [
            r(0),
            r(1),
            back,
            r(3),
            r(4),
            r(5),
            r(6),
            r(7),
            r(8),
            r(9),
            r(10),
            r(11),
            r(12),
            r(13),
            r(14),
            r(15),
        ]
    }

    /// Marks the registers of the group that an effect sets, as it says.
    #[inline(always)]
    #[tactic(auto, unfolding(crate::specs::State::state_of, crate::specs::State::cache_of, crate::specs::State::size_of, crate::specs::State::bytes_of, crate::specs::State::queue_of))]
    fn mark_group(&mut self, e: &Effect)
        requires { AreRegisters e.now }
        ensures state { state_of self.new ≡ record (state_of self.old) {
          marks = marks_after (state_of self.old).marks (group_in e.now)
              (picked (λ r. r) e.now.register (bits_of e.now.marks (length e.now.values.items)));
        } }
        ensures keeps { KeepsParts self.old self.new }
    {
        self.marks = marks::with_group(self.marks, e.register, e.values.len(), e.marks);
    }

    /// Does what is done to frames, and plans registers and the condition code.
    // Calls and returns do, and this is no part of the code that calls it.
    #[inline(never)]
    #[tactic(auto, unfolding(crate::specs::State::state_of, crate::specs::State::cache_of, crate::specs::State::size_of, crate::specs::State::bytes_of, crate::specs::State::queue_of))]
    fn move_frames(&mut self, e: &Effect, landing: &Landing)
        requires registers { AreRegisters e.now }
        requires can { CanMove (state_of self.old).frames e.now.frames }
        requires space { HasMoveSpace self.old.storage e.now.frames }
        requires drained { IsDrainedToMove (queue_of self.old) e.now.frames }
        requires sets { AreCovered landing.now.writes (sets_in (state_of self.old) e.now) }
        requires code { IsCodeCovered landing.now.writes (state_of self.old).ac e.now.ac }
        ensures state { state_of self.new ≡ record (state_of self.old) {
          regs = written (state_of self.old).regs (sets_in (state_of self.old) e.now);
          marks = marks_after (state_of self.old).marks (sets_in (state_of self.old) e.now) (marked_in e.now);
          ac = e.now.ac;
          memory = (state_of self.new).memory;
          frames = with_marked (frames_after (state_of self.old).frames (move_in (state_of self.old) e.now.frames))
              (lost_by (state_of self.old) e.now.frames);
        } }
        ensures memory { (state_of self.new).memory ≡ overlaid (cache_of self.new) }
        ensures cache { cache_of self.new
            ≡ cache_moved (size_of self.old) (move_in (state_of self.old) e.now.frames) (cache_of self.old) }
        ensures keeps { KeepsRest self.old self.new }
        ensures issued { IsIssued landing.now.writes landing.now.done self.new.flags self.old.file self.new.file }
        ensures bytes { move_in (state_of self.old) e.now.frames ≡ Stays → bytes_of self.new ≡ bytes_of self.old }
    {
        match e.frames {
            Move::Stays => {
                let (file, flags) = (&mut self.file, &mut self.flags);
                let values = e.values.as_slice();
                issue_group(file, flags, landing, e.register, values, e.ac);
                self.mark_group(e);
            }
            Move::Saves { push, back } => {
                let address = push.save;
                let words = self.saved_locals(back);
                self.storage
                    .save_frame(Frame { address, words }, marks::saved(self.marks));
                self.marks = marks::with_frame(self.marks, 0);
                let (file, flags) = (&mut self.file, &mut self.flags);
                issue_frame(file, flags, landing, &new_locals(&push), push.frame, e.ac);
            }
            Move::Returns(frame) => {
                let locals = self.storage.left_words(frame);
                self.storage.restore_frame();
                self.marks = marks::with_frame(self.marks, e.marks);
                let (file, flags) = (&mut self.file, &mut self.flags);
                issue_frame(file, flags, landing, &locals, frame, e.ac);
            }
            Move::Flushes => {
                self.storage.flush();
                let (file, flags) = (&mut self.file, &mut self.flags);
                issue_group(file, flags, landing, 0, &[], e.ac);
            }
        }
    }

    /// Does what is done to interrupts.
    // Few effects do anything, and this is no part of the code that calls it.
    #[inline(never)]
    #[tactic(auto, unfolding(crate::specs::State::state_of, crate::specs::State::cache_of, crate::specs::State::size_of, crate::specs::State::bytes_of, crate::specs::State::queue_of))]
    fn post(&mut self, p: Posting)
        requires { CanPost p }
        ensures state { state_of self.new
            ≡ record (state_of self.old) { interrupts = posting_in p (state_of self.old).interrupts } }
        ensures keeps { KeepsParts self.old self.new }
    {
        match p {
            Posting::Keeps => {}
            Posting::Pin(x) => self.ints.post_pin(x),
            Posting::Level(x, low) => self.ints.level(x, low),
            Posting::Nmi => self.ints.post_nmi(),
            Posting::Dma(c) => self.ints.post_dma(c),
            Posting::Clears(cause) => self.ints.clear(cause),
            Posting::Pending(v) => self.ints.set_pending(v),
            Posting::Mask(v) => self.ints.set_mask(v),
        }
    }

    /// Does what is done to DMA.
    // Few effects do anything, and this is no part of the code that calls it.
    #[inline(never)]
    #[tactic(auto, unfolding(crate::specs::State::state_of, crate::specs::State::cache_of, crate::specs::State::size_of, crate::specs::State::bytes_of, crate::specs::State::queue_of))]
    fn change_dma(&mut self, change: DmaChange)
        requires { CanChange change }
        ensures state { state_of self.new
            ≡ record (state_of self.old) { dma = change_in change (state_of self.old).dma } }
        ensures keeps { KeepsParts self.old self.new }
    {
        match change {
            DmaChange::Keeps => {}
            DmaChange::Command(v) => self.channels.set_dmac(v),
            DmaChange::SetsUp(c, channel) => {
                let Channel {
                    control,
                    count,
                    source,
                    target,
                } = channel;
                self.channels.setup(c, control, count, source, target);
            }
            DmaChange::Passes(c) => {
                let _ = self.channels.pass_unit(c);
            }
        }
    }

    /// Does what an effect says, but for what is done to the controls that start-up reads.
    #[inline(always)]
    #[tactic(auto, unfolding(crate::specs::State::state_of, crate::specs::State::cache_of, crate::specs::State::size_of, crate::specs::State::bytes_of, crate::specs::State::queue_of, i9_model::specs::Step::moved))]
    fn do_moves(&mut self, e: &Effect, light: bool, landing: &Landing)
        requires light { light ≡ true → IsLight e.now }
        requires registers { AreRegisters e.now }
        requires posts { CanPost e.now.posting }
        requires changes { CanChange e.now.dma }
        requires can { CanMove (state_of self.old).frames e.now.frames }
        requires space { HasSpaceFor self.old e.now }
        requires free { IsFree (state_of self.old) (action_in (state_of self.old) e.now) }
        requires covered { IsCovered landing.now.writes (state_of self.old) (action_in (state_of self.old) e.now) }
        requires acts { CanAct self.old landing.now e.now }
        ensures state { state_of self.new ≡ record (moved (state_of self.old) (action_in (state_of self.old) e.now)) {
          memory = (state_of self.new).memory;
        } }
        ensures memory { (state_of self.new).memory ≡ overlaid (cache_of self.new) }
        ensures cache { cache_of self.new
            ≡ cache_acted (size_of self.old) (action_in (state_of self.old) e.now) (cache_of self.old) }
        ensures size { size_of self.new ≡ size_of self.old }
        ensures count { (state_of self.new).count ≡ (state_of self.old).count }
        ensures issued { IsIssued landing.now.writes landing.now.done self.new.flags self.old.file self.new.file }
        ensures waits { landing.now.request ≡ true → (bytes_of self.new ≡ bytes_of self.old)
            × (queue_of self.new ≡ queue_of self.old ++ record { puts = writes_in e.now; due = landing.now.done }
            ∷ []) }
        ensures acts { landing.now.request ≡ false → queue_of self.new ≡ queue_of self.old }
        ensures still { landing.now.request ≡ false → IsStill (action_in (state_of self.old) e.now)
            → bytes_of self.new ≡ bytes_of self.old }
        ensures no_more { AddsNoPage self.old self.new }
    {
        if e.is_plain(light) {
            let (file, flags) = (&mut self.file, &mut self.flags);
            issue_group(file, flags, landing, e.register, e.values.as_slice(), e.ac);
            self.mark_group(e);
            put_bytes(&mut self.storage, e, light, landing);
        } else {
            self.move_frames(e, landing);
            put_bytes(&mut self.storage, e, light, landing);
            self.post(e.posting);
            self.change_dma(e.dma);
        }
        self.pc = e.pc;
        self.tc = e.tc;
        self.check = e.check;
        self.ip = e.next;
    }

    /// Sets the flags of trace events, where some count.
    #[inline(always)]
    #[tactic(auto, unfolding(crate::specs::State::state_of, crate::specs::State::cache_of, crate::specs::State::size_of, crate::specs::State::bytes_of, crate::specs::State::queue_of))]
    fn flag(&mut self, trace: Option<Trace>)
        ensures state { state_of self.new ≡ flagged trace (state_of self.old) }
        ensures count { (state_of self.new).count ≡ (state_of self.old).count }
        ensures keeps { KeepsParts self.old self.new }
    {
        if let Some(trace) = trace {
            self.tc = trace.tc;
        }
    }

    /// New sets take the place of the others, where there are any.
    #[inline(always)]
    #[tactic(auto, unfolding(crate::specs::State::state_of, crate::specs::State::cache_of, crate::specs::State::size_of, crate::specs::State::bytes_of, crate::specs::State::queue_of))]
    fn renew(&mut self, sets: Option<Sets>)
        requires empty { IsSome sets → (cache_of self.old).held ≡ [] }
        requires new { IfSome sets (λ h. h.frames ≡ []) }
        ensures state { state_of self.new ≡ state_of self.old }
        ensures cache { cache_of self.new ≡ cache_of self.old }
        ensures size { size_of self.new ≡ size_with sets (size_of self.old) }
        ensures count { (state_of self.new).count ≡ (state_of self.old).count }
        ensures registers { KeepsFile self.old self.new }
        ensures queue { queue_of self.new ≡ queue_of self.old }
        ensures bytes { bytes_of self.new ≡ bytes_of self.old }
        ensures no_more { AddsNoPage self.old self.new }
    {
        if let Some(sets) = sets {
            self.storage.renew(sets);
        }
    }

    /// The word at the instruction address is kept, where none of its bytes is soft, so that a fetch finds it at once.
    #[inline(always)]
    #[tactic(auto, unfolding(crate::specs::State::state_of, crate::specs::State::cache_of, crate::specs::State::size_of, crate::specs::State::bytes_of, crate::specs::State::queue_of))]
    fn look_ahead(&mut self)
        ensures state { state_of self.new ≡ state_of self.old }
        ensures cache { cache_of self.new ≡ cache_of self.old }
        ensures size { size_of self.new ≡ size_of self.old }
        ensures count { (state_of self.new).count ≡ (state_of self.old).count }
        ensures registers { KeepsFile self.old self.new }
        ensures queue { queue_of self.new ≡ queue_of self.old }
        ensures bytes { bytes_of self.new ≡ bytes_of self.old }
        ensures no_more { AddsNoPage self.old self.new }
    {
        self.storage.keep_word(self.ip);
    }

    /// Counts so many instructions.
    #[tactic(auto, unfolding(crate::specs::State::state_of, crate::specs::State::cache_of, crate::specs::State::size_of, crate::specs::State::bytes_of, crate::specs::State::queue_of))]
    fn add_count(&mut self, n: u64)
        requires { (state_of self.old).count + n < 2 ^ 63 }
        ensures state { state_of self.new ≡ counted n (state_of self.old) }
        ensures keeps { KeepsParts self.old self.new }
    {
        self.count += n;
    }

    /// Does what an effect says, with the new sets that were made for it, and counts so many
    /// instructions. What it leaves in the resources that it writes is planned, and lands when it is done;
    /// where it is a request its bytes wait until then, and else they are stored at once. It needs no
    /// memory.
    // Each step calls it, and most effects set registers alone: all that they ask for is part of the code
    // that calls it, and what few effects do is kept apart.
    #[inline(always)]
    pub fn apply(
        &mut self,
        e: &Effect,
        light: bool,
        landing: &Landing,
        counts: u64,
        sets: Option<Sets>,
    )
        requires light { light ≡ true → IsLight e.now }
        requires registers { AreRegisters e.now }
        requires posts { CanPost e.now.posting }
        requires changes { CanChange e.now.dma }
        requires can { CanMove (state_of self.old).frames e.now.frames }
        requires space { HasSpaceFor self.old e.now }
        requires free { IsFree (state_of self.old) (action_in (state_of self.old) e.now) }
        requires controls { CanControl (moved (state_of self.old) (action_in (state_of self.old) e.now)) e.now.control }
        requires sets { CanTake (move_in (state_of self.old) e.now.frames) sets }
        requires count { (state_of self.old).count + counts < 2 ^ 63 }
        requires covered { IsCovered landing.now.writes (state_of self.old) (action_in (state_of self.old) e.now) }
        requires acts { CanAct self.old landing.now e.now }
        ensures state { AreAlike (counted counts (acted (state_of self.old) (action_in (state_of self.old) e.now)))
            (state_of self.new) }
        ensures cache { cache_of self.new ≡ cache_through self.old (action_in (state_of self.old) e.now) self.new }
        ensures size { size_of self.new ≡ size_with sets (size_of self.old) }
        ensures count { (state_of self.new).count ≡ (state_of self.old).count + counts }
        ensures cells { (r : ℕ) → r < resources → cells_of self.new r
            ≡ issued_over landing.now.writes landing.now.done r (resource (state_of self.new) r) (cells_of self.old r) }
        ensures waits { landing.now.request ≡ true → (bytes_of self.new ≡ bytes_of self.old)
            × (queue_of self.new ≡ queue_of self.old
            ++ record { puts = (action_in (state_of self.old) e.now).writes; due = landing.now.done } ∷ []) }
        ensures acts { landing.now.request ≡ false → queue_of self.new ≡ queue_of self.old }
        ensures still { landing.now.request ≡ false → IsStill (action_in (state_of self.old) e.now)
            → bytes_of self.new ≡ bytes_of self.old }
        ensures no_more { AddsNoPage self.old self.new }
    {
        self.do_moves(e, light, landing);
        self.control(landing, e.control_by(light));
        self.flag(e.trace_by(light));
        self.renew(sets);
        self.add_count(counts);
        self.look_ahead();
    }

    /// What is due by `turn` lands: bytes that wait are stored. Nothing else changes, and no room goes. Planned values
    /// take their place by themselves.
    // At most turns nothing waits, and then this test is all that is done: it is part of the code that calls it.
    #[inline(always)]
    #[tactic(auto, unfolding(crate::specs::State::state_of, crate::specs::State::cache_of, crate::specs::State::size_of, crate::specs::State::cells_of, crate::specs::State::bytes_of, crate::specs::State::queue_of))]
    pub fn land(&mut self, turn: u64)
        ensures seen { KeepsState self.old self.new }
        ensures bytes { bytes_of self.new ≡ stored (bytes_of self.old) (due_puts turn (queue_of self.old)) }
        ensures queue { queue_of self.new ≡ left_waiting turn (queue_of self.old) }
        ensures keeps { KeepsRoom self.old self.new }
        ensures no_more { AddsNoPage self.old self.new }
    {
        if self.storage.is_drained() {
            return;
        }
        self.storage.land(turn);
    }
}
