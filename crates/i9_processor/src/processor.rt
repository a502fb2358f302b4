//! The registers, controls, memory and frames of the machine.
ghost use Rattle.std.specs.Prelude.{◌≡◌, ◌<◌, ℕ, IfOk, IfSome, unwrap_or, []};
ghost use Rattle.i9_model.specs.Image.{pairs_of};
ghost use Rattle.i9_model.specs.HeldFrames.{cache, sets_in};
ghost use Rattle.i9_model.specs.Boot.{setup_of};
ghost use Rattle.i9_model.specs.State.{boot};
ghost use Rattle.i9_model.specs.Late.{resource, resources};
ghost use Rattle.i9_regs.specs.File.{still};

mod plans;
mod raw;
mod reading;
mod tracing;

use crate::load::load;
use crate::registers::set_arithmetic;
use crate::start::{
    start_breaks, start_interrupts, start_registers, start_trace_controls, tables_of,
};
use i9_boot::{REGISTER_CACHE, boot, sets_asked};
use i9_calls::aligned;
use i9_dma::Channels;
use i9_hex::Segments;
use i9_ints::Ints;
use i9_isa::NoMemory;
use i9_memory::Memory;
use i9_model::layout::BOOT_PC;
use i9_model::{Breaks, Setup, Tables};
use i9_regs::File;
use i9_storage::Storage;
use std::alloc::Global;
pub use tracing::TraceControls;

/// All that an instruction may read or change: the registers and the controls, whether the next choice
/// of an interrupt looks at what software asks for, the interrupts that are posted, the DMA channels, the
/// tables that the processor goes by, the count of instructions, and the storage with its frames. Of the
/// arithmetic controls the low three bits, the condition code, are in the file, and `flags` is the others. Bit r of
/// `marks` is the mark of register r, that is, of its latest value: an effect that sets a register sets it at once.
#[derive(Drop)]
pub struct Processor {
    pub(crate) file: File,
    pub(crate) ip: u32,
    pub(crate) flags: u32,
    pub(crate) marks: u32,
    pub(crate) pc: u32,
    pub(crate) tc: u32,
    pub(crate) check: bool,
    pub(crate) ints: Ints,
    pub(crate) channels: Channels,
    pub(crate) breaks: Breaks,
    pub(crate) tables: Tables,
    pub(crate) count: u64,
    pub(crate) storage: Storage,
}

/// The number of sets: the one that is asked for, or the one of the PRCB.
fn set_count(sets: Option<u8>, setup: &Setup) -> u8
    requires asked { IfSome sets (λ n. 0 < n × n < 16) }
    requires read { 0 < setup.now.sets × setup.now.sets < 16 }
    ensures count { result ≡ unwrap_or sets setup.now.sets }
    ensures some { 0 < result }
    ensures few { result < 16 }
{
    match sets {
        Some(n) => n,
        None => setup.sets,
    }
}

impl Processor {
    ghost use Rattle.i9_processor.specs.State.{state_of, cache_of, size_of, cells_of, bytes_of, queue_of};
    ghost use Rattle.i9_processor.specs.State.{KeepsContents};
    ghost use Rattle.i9_processor.specs.Pages.{AddsNoPage, HasPagesFor};

    /// The state after boot, by the image's boot record, with so many sets or as many as its PRCB
    /// asks for (the i960 CA/CF User's Manual, initialization). Nothing is planned, and nothing waits.
    #[tactic(auto, unfolding(crate::specs::State::state_of, crate::specs::State::cache_of, crate::specs::State::size_of, crate::specs::State::cells_of, crate::specs::State::bytes_of, crate::specs::State::queue_of, i9_model::specs::State::boot, i9_model::specs::State::started))]
    pub fn boot(alloc: Global, image: &Segments, sets: Option<u8>) -> Result<Processor, NoMemory>
        requires { IfSome sets (λ n. 0 < n × n < 16) }
        ensures state { IfOk result (λ p. state_of p ≡ boot (pairs_of image.now)) }
        ensures cache { IfOk result (λ p. cache_of p ≡ cache [] (boot (pairs_of image.now)).memory) }
        ensures size { IfOk result (λ p. size_of p ≡ sets_in sets (boot (pairs_of image.now))) }
        ensures count { IfOk result (λ p. (state_of p).count ≡ 0) }
        ensures cells { IfOk result
            (λ p. (r : ℕ) → r < resources → cells_of p r ≡ still (resource (boot (pairs_of image.now)) r)) }
        ensures bytes { IfOk result (λ p. bytes_of p ≡ (boot (pairs_of image.now)).memory.bytes) }
        ensures queue { IfOk result (λ p. queue_of p ≡ []) }
        ensures pages { IfOk result (λ p. HasPagesFor p (pairs_of image.now)) }
    {
        let mut memory = Memory::new(alloc);
        load(&mut memory, image)?;
        let setup = boot(&mut memory);
        let storage = Storage::new(alloc, memory, set_count(sets, &setup))?;
        let mut file = File::new();
        let mut flags = 0;
        start_registers(&mut file, &setup);
        set_arithmetic(&mut file, &mut flags, setup.ac);
        let mut ints = Ints::new();
        start_interrupts(&mut ints, &setup);
        Ok(Processor {
            file,
            ip: aligned(setup.first),
            flags,
            marks: 0,
            pc: BOOT_PC,
            tc: start_trace_controls(&setup),
            check: false,
            ints,
            channels: Channels::new(),
            breaks: start_breaks(&setup),
            tables: tables_of(&setup),
            count: 0,
            storage,
        })
    }

    /// The same state, with the same frames in the same sets, the same plans, and the same requests that wait.
    #[tactic(auto, unfolding(crate::specs::State::state_of, crate::specs::State::cache_of, crate::specs::State::size_of, crate::specs::State::cells_of, crate::specs::State::bytes_of, crate::specs::State::queue_of))]
    pub fn copy(&self, alloc: Global) -> Result<Processor, NoMemory>
        ensures contents { IfOk result (λ p. KeepsContents self.now p) }
        ensures no_more { IfOk result (λ p. AddsNoPage self.now p) }
    {
        let storage = self.storage.copy(alloc)?;
        Ok(Processor {
            file: self.file.copy(),
            ip: self.ip,
            flags: self.flags,
            marks: self.marks,
            pc: self.pc,
            tc: self.tc,
            check: self.check,
            ints: self.ints,
            channels: self.channels,
            breaks: self.breaks,
            tables: self.tables,
            count: self.count,
            storage,
        })
    }

    /// The number of sets that the PRCB at an address asks for.
    #[tactic(auto, unfolding(crate::specs::State::state_of, i9_model::specs::Boot::setup_of))]
    pub fn sets_at(&self, prcb: u32) -> u8
        ensures value { (first : ℕ) → result ≡ (setup_of (state_of self.now).memory first prcb).sets }
        ensures some { 0 < result }
        ensures few { result < 16 }
    {
        sets_asked(self.storage.word(prcb.wrapping_add(4 * REGISTER_CACHE)))
    }
}
