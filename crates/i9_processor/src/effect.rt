//! What is done to a processor, as data.
ghost use Rattle.std.specs.Prelude.{◌≡◌, ◌≢◌, ◌+◌, ◌<◌, ◌≤◌, ◌^◌, ◌↔◌, ◌==◌, IsTrue, [], length, true};
ghost use Rattle.i9_model.specs.Writes.{last_put, pairs_at, upwards};
ghost use Rattle.i9_model.specs.Step.{going};
ghost use Rattle.i9_model.specs.Memory.{console_byte, exit_word};
ghost use Rattle.i9_processor.specs.Rest.{AreMarked, LeavesRest};

use crate::processor::Processor;
use arrayvec::ArrayVec;
use i9_dma::Channel;
use i9_memory::word_of;
use i9_model::layout::{CONSOLE, EXIT_WORD, PORT_PAGE};
use i9_model::{Cause, Push, Trace};

/// The most registers that an effect sets beside those of a frame: a group of four.
pub const MOST_VALUES: usize = 4;

/// The most bytes that an effect stores: four words.
pub const MOST_BYTES: usize = 16;

/// Bytes with bits of requests of software that are stored after others, each at an address of its own:
/// at most that of a priority and that of its vectors.
#[derive(Clone, Copy)]
pub struct Requests {
    pub first: Option<(u32, u8)>,
    pub second: Option<(u32, u8)>,
}

/// What is done to frames.
#[derive(Clone, Copy)]
pub enum Move {
    /// Nothing.
    Stays,
    /// The locals are saved, with this return address as rip, and a new frame is entered.
    Saves { push: Push, back: u32 },
    /// The first live frame is returned to, where one is live: the frame at this address is entered
    /// again, with the locals that memory has there.
    Returns(u32),
    /// All live frames are in memory.
    Flushes,
}

/// What is done to the controls that start-up reads.
#[derive(Clone, Copy)]
pub enum Control {
    /// Nothing.
    Keeps,
    /// The processor starts anew at `first`, by the PRCB at `prcb`.
    Restarts { first: u32, prcb: u32 },
    /// A group of the control table is loaded.
    LoadsGroup(u8),
}

/// What is done to the interrupts that are posted, and to the lines that are not masked.
#[derive(Clone, Copy, Debug, PartialEq, Eq)]
pub enum Posting {
    /// Nothing.
    Keeps,
    /// The pin of this number, 0 to 7, is posted.
    Pin(u8),
    /// The pin of this number, 0 to 7, goes low, or high.
    Level(u8, bool),
    /// The interrupt that is never masked is posted.
    Nmi,
    /// The interrupt of the DMA channel of this number, 0 to 3, is posted.
    Dma(u8),
    /// What chose an interrupt is not posted any more.
    Clears(Cause),
    /// The kept pending word is set.
    Pending(u32),
    /// The mask word is set.
    Mask(u32),
}

/// What is done to DMA.
#[derive(Clone, Copy, Debug, PartialEq, Eq)]
pub enum DmaChange {
    /// Nothing.
    Keeps,
    /// The command word is set.
    Command(u32),
    /// The channel of this number, 0 to 3, is set up.
    SetsUp(u8, Channel),
    /// The channel of this number, 0 to 3, goes behind its next unit, whose bytes are moved.
    Passes(u8),
}

/// The values that go to registers from one up, where nothing is done to frames, and their marks: bit k is that of
/// value k, or of local k of a frame that is returned to; the bytes that are stored from an address on, of which byte
/// k gets a mark where bit k of `stale` is set, and then those with bits of requests, each at an address of its own;
/// what is done to frames; the arithmetic, process and trace controls and the check flag afterwards;
/// what is done to the other controls, to interrupts and to DMA; the next instruction address; and, where
/// trace events count, the trace controls with their flags and the subtype of their fault.
///
/// Most effects are plain: they store bytes in a row at most, and frames, interrupts, DMA and the controls that
/// start-up reads stay. Where `plain` is set nothing of that is asked for; where it is not, the effect may be plain
/// nevertheless. A light effect is plain and stores no byte; calls whose caller knows that take a `light`, which each
/// passes as a literal, so that the code for light effects asks for nothing of that.
#[derive(Drop)]
pub struct Effect {
    pub register: u8,
    pub values: ArrayVec<u32, MOST_VALUES>,
    pub marks: u16,
    pub address: u32,
    pub bytes: ArrayVec<u8, MOST_BYTES>,
    pub stale: u16,
    pub requests: Requests,
    pub frames: Move,
    pub ac: u32,
    pub pc: u32,
    pub tc: u32,
    pub check: bool,
    pub posting: Posting,
    pub dma: DmaChange,
    pub control: Control,
    pub next: u32,
    pub trace: Option<Trace>,
    pub plain: bool,
    pub ghost rest: { IsTrue plain → LeavesRest requests frames posting dma control trace },
    pub ghost marked: { stale ≢ 0 → AreMarked stale (length bytes.items) requests },
}

/// The byte at a place, of bytes that stand from an address on.
fn byte_of_run(address: u32, bytes: &[u8], place: u32) -> Option<u8>
    requires { length bytes.now < 2 ^ 32 }
    ensures { result ≡ last_put (upwards address bytes.now) place }
{
    bytes.get(place.wrapping_sub(address) as usize).copied()
}

impl Requests {
    ghost use Rattle.i9_processor.specs.Effect.{one_in, requests_in};

    /// No byte.
    pub const NONE: Requests = Requests {
        first: None,
        second: None,
    };

    /// Two bytes, one, or none.
    #[tactic(auto, using(crate::proofs::Appending::listed_rules))]
    pub fn listed(bytes: &[(u32, u8)]) -> Requests
        requires { length bytes.now ≤ 2 }
        ensures { requests_in result ≡ bytes.now }
    {
        Requests {
            first: bytes.first().copied(),
            second: bytes.get(1).copied(),
        }
    }

    /// Whether there is none.
    fn is_empty(&self) -> bool
        ensures { IsTrue result ↔ requests_in self.now ≡ [] }
    {
        self.first.is_none() && self.second.is_none()
    }

    /// The byte at a place, of one that stands at an address, where there is one.
    #[tactic(auto, unfolding(i9_model::specs::Writes::last_put))]
    fn byte_of_one(byte: Option<(u32, u8)>, place: u32) -> Option<u8>
        ensures { result ≡ last_put (one_in byte) place }
    {
        match byte {
            Some((at, value)) if place == at => Some(value),
            _ => None,
        }
    }

    /// The byte at a place: the second one where both stand there.
    fn byte_at(&self, place: u32) -> Option<u8>
        ensures { result ≡ last_put (requests_in self.now) place }
    {
        match Requests::byte_of_one(self.second, place) {
            Some(byte) => Some(byte),
            None => Requests::byte_of_one(self.first, place),
        }
    }
}

impl Effect {
    ghost use Rattle.i9_processor.specs.Effect.{requests_in, writes_in, AreBelowPort, IsEffect, IsLight, SetsOnly};
    ghost use Rattle.i9_processor.specs.State.{state_of};

    /// Values go to registers from one up, and control goes to an address.
    pub fn setting(
        processor: &Processor,
        next: u32,
        register: u8,
        values: ArrayVec<u32, MOST_VALUES>,
    ) -> Effect
        requires { register + length values.items ≤ 32 }
        ensures effect { IsEffect (state_of processor.now)
            (record (going (state_of processor.now) next) { sets = pairs_at (λ r. r) register values.items }) result }
        ensures values { result.values.items ≡ values.items }
        ensures keeps { SetsOnly result }
    {
        Effect {
            register,
            values,
            marks: 0,
            address: 0,
            bytes: ArrayVec::new(),
            stale: 0,
            requests: Requests::NONE,
            frames: Move::Stays,
            ac: processor.ac(),
            pc: processor.pc(),
            tc: processor.tc(),
            check: false,
            posting: Posting::Keeps,
            dma: DmaChange::Keeps,
            control: Control::Keeps,
            next,
            trace: None,
            plain: true,
        }
    }

    /// Nothing is done, but control goes to an address.
    pub fn going(processor: &Processor, next: u32) -> Effect
        ensures effect { IsEffect (state_of processor.now) (going (state_of processor.now) next) result }
        ensures values { result.values.items ≡ [] }
        ensures keeps { SetsOnly result }
    {
        Effect::setting(processor, next, 0, ArrayVec::new())
    }

    /// An effect to plan in: it sets no register, stores no byte, and leaves frames alone.
    pub fn blank() -> Effect
        ensures values { result.values.items ≡ [] }
        ensures keeps { SetsOnly result }
    {
        Effect {
            register: 0,
            values: ArrayVec::new(),
            marks: 0,
            address: 0,
            bytes: ArrayVec::new(),
            stale: 0,
            requests: Requests::NONE,
            frames: Move::Stays,
            ac: 0,
            pc: 0,
            tc: 0,
            check: false,
            posting: Posting::Keeps,
            dma: DmaChange::Keeps,
            control: Control::Keeps,
            next: 0,
            trace: None,
            plain: true,
        }
    }

    /// Becomes plain, with the bytes that it stores.
    // Most effects are, and this is no part of the code that calls it.
    #[inline(never)]
    fn clear(&mut self)
        ensures values { self.new.values.items ≡ self.old.values.items }
        ensures bytes { self.new.bytes.items ≡ self.old.bytes.items }
        ensures stale { self.new.stale ≡ self.old.stale }
        ensures plain { IsTrue self.new.plain }
    {
        self.requests = Requests::NONE;
        self.frames = Move::Stays;
        self.posting = Posting::Keeps;
        self.dma = DmaChange::Keeps;
        self.control = Control::Keeps;
        self.trace = None;
        self.plain = true;
    }

    /// Becomes the effect by which nothing is done, but control goes to an address.
    pub fn go(&mut self, processor: &Processor, next: u32)
        ensures effect { IsEffect (state_of processor.now) (going (state_of processor.now) next) self.new }
        ensures values { self.new.values.items ≡ [] }
        ensures keeps { SetsOnly self.new }
    {
        if !self.plain {
            self.clear();
        }
        self.register = 0;
        self.values = ArrayVec::new();
        self.marks = 0;
        self.bytes = ArrayVec::new();
        self.stale = 0;
        self.ac = processor.ac();
        self.pc = processor.pc();
        self.tc = processor.tc();
        self.check = false;
        self.next = next;
    }

    /// Whether it is plain. Nothing is read for that where `light` is set.
    #[inline(always)]
    pub fn is_plain(&self, light: bool) -> bool
        requires { light ≡ true → IsLight self.now }
        ensures { result ≡ self.now.plain }
    {
        light || self.plain
    }

    /// Whether it stores no bytes in a row. Nothing is read for that where `light` is set.
    #[inline(always)]
    pub(crate) fn has_no_run(&self, light: bool) -> bool
        requires { light ≡ true → IsLight self.now }
        ensures { result ≡ (length self.now.bytes.items == 0) }
    {
        light || self.bytes.is_empty()
    }

    /// What is done to the controls that start-up reads. Nothing is read for that where `light` is set.
    #[inline(always)]
    pub(crate) fn control_by(&self, light: bool) -> Control
        requires { light ≡ true → IsLight self.now }
        ensures { result ≡ self.now.control }
    {
        if light { Control::Keeps } else { self.control }
    }

    /// The trace controls with their flags and the subtype of their fault, where trace events count. Nothing is read
    /// for that where `light` is set.
    #[inline(always)]
    pub fn trace_by(&self, light: bool) -> Option<Trace>
        requires { light ≡ true → IsLight self.now }
        ensures { result ≡ self.now.trace }
    {
        if light { None } else { self.trace }
    }

    /// Whether no bits of requests are stored.
    #[inline(always)]
    fn asks_nothing(&self, light: bool) -> bool
        requires { light ≡ true → IsLight self.now }
        ensures { IsTrue result ↔ requests_in self.now.requests ≡ [] }
    {
        self.is_plain(light) || self.requests.is_empty()
    }

    /// Whether all bytes that are stored lie below the port page; it may say no.
    #[inline(always)]
    fn stores_below_port(&self, light: bool) -> bool
        requires { light ≡ true → IsLight self.now }
        ensures { IsTrue result → AreBelowPort (writes_in self.now) }
    {
        if !self.asks_nothing(light) {
            return false;
        }
        let end = self.address as usize + self.bytes.len();
        self.has_no_run(light) || end <= PORT_PAGE as usize
    }

    /// The byte that is stored at an address.
    // Most effects store none, and this is no part of the code that calls it.
    #[inline(never)]
    fn byte_at(&self, place: u32) -> Option<u8>
        ensures { result ≡ last_put (writes_in self.now) place }
    {
        if self.plain {
            return byte_of_run(self.address, self.bytes.as_slice(), place);
        }
        match self.requests.byte_at(place) {
            Some(byte) => Some(byte),
            None => byte_of_run(self.address, self.bytes.as_slice(), place),
        }
    }

    /// The word that ends the run, looked for in all bytes that are stored.
    // Most effects store none, and this is no part of the code that calls it.
    #[inline(never)]
    #[tactic(auto, unfolding(i9_model::specs::Memory::exit_word))]
    fn stored_exit_word(&self, processor: &Processor) -> Option<u32>
        ensures { result ≡ exit_word (state_of processor.now).memory (writes_in self.now) }
    {
        let bytes = [
            self.byte_at(EXIT_WORD)?,
            self.byte_at(EXIT_WORD + 1)?,
            self.byte_at(EXIT_WORD + 2)?,
            self.byte_at(EXIT_WORD + 3)?,
        ];
        Some(word_of(processor.big(14), bytes))
    }

    /// The word that ends the run, in the order of its region: stores to all four of its bytes.
    #[inline(always)]
    #[tactic(auto, using(crate::proofs::Appending::below_rules))]
    pub fn exit_word(&self, processor: &Processor, light: bool) -> Option<u32>
        requires { light ≡ true → IsLight self.now }
        ensures { result ≡ exit_word (state_of processor.now).memory (writes_in self.now) }
    {
        if self.stores_below_port(light) {
            return None;
        }
        self.stored_exit_word(processor)
    }

    /// The byte that goes out at the console.
    #[inline(always)]
    #[tactic(auto, using(crate::proofs::Appending::below_rules))]
    pub fn console_byte(&self, light: bool) -> Option<u8>
        requires { light ≡ true → IsLight self.now }
        ensures { result ≡ console_byte (writes_in self.now) }
    {
        if self.stores_below_port(light) {
            return None;
        }
        self.byte_at(CONSOLE)
    }
}
