//! What system calls, returns, faults, interrupts and DMA make, and what tables say. Each of their reads
//! ends them at a byte that is soft, as all bytes of held frames are, so memory alone answers them, where
//! nothing waits to be stored there.
ghost use Rattle.std.specs.Prelude.{◌≡◌, ◌+◌, ◌%◌, ◌<◌, ◌≤◌, ◌↔◌, IsTrue, None, IfOk, OnErr, [], length};
ghost use Rattle.i9_model.specs.declared.layout.TheConstants.{PC_MASK, AC_MASK};
ghost use Rattle.i9_model.specs.Hazards.{save_hazard};
ghost use Rattle.i9_model.specs.Boot.{with_regions, configured};
ghost use Rattle.i9_model.specs.Tables.{planned_setup, planned_group};
ghost use Rattle.i9_model.specs.Calls.{planned_calls, planned_ret};
ghost use Rattle.i9_model.specs.Faults.{planned_fault};
ghost use Rattle.i9_model.specs.Memory.{with_writes};
ghost use Rattle.i9_model.specs.Hazards.{record_write_hazard, unless};
ghost use Rattle.i9_model.specs.Requests.{request_hazard, request_writes};
ghost use Rattle.i9_model.specs.Interrupts.{chosen_soft, record_writes, cleared_hazard, clearing_writes};
ghost use Rattle.i9_model.specs.Interrupts.{planned_interrupt};
ghost use Rattle.i9_model.specs.HeldFrames.{cache_configured};
ghost use Rattle.i9_model.specs.Numbers.{IsWithin};
ghost use Rattle.i9_calls.specs.Switches.{system_switch};
ghost use Rattle.i9_faults.specs.Switches.{fault_switch};
ghost use Rattle.i9_queue.specs.Behind.{settled, waiting_of};
ghost use Rattle.i9_ints.specs.Ints.{interrupts_of};
ghost use Rattle.i9_dma.specs.Channels.{dma_of};
ghost use Rattle.i9_dma.specs.Units.{given_in, bytes_in, planned_bytes};
ghost use Rattle.i9_storage.specs.Kept.{KeepsBehind};

use super::Storage;
use arrayvec::ArrayVec;
use i9_boot::{control_group, reinit};
use i9_calls::{CallsStop, Pop, Sys, plan_calls, plan_ret, system_switches};
use i9_dma::Channels;
use i9_faults::{Entry, Fault, FaultStop, fault_switches, plan_fault};
use i9_ints::{Chosen, IntEntry, Ints, clearing_bytes, plan_request};
use i9_model::Setup;
use i9_queue::Behind;

/// Configures regions by words, from one region up.
#[tactic(auto, using(crate::proofs::Regions::region_rules))]
fn configure_regions(behind: &mut Behind, region: u8, words: &[u32])
    requires drained { waiting_of behind.old ≡ [] }
    requires few { region + length words.now ≤ 16 }
    ensures memory { settled behind.new ≡ with_regions (settled behind.old) region words.now }
    ensures keeps { KeepsBehind behind.old behind.new }
{
    for k in 0..words.len() {
        behind.configure(region + k as u8, words[k]);
    }
}

impl Storage {
    ghost use Rattle.i9_storage.specs.Storage.{cache_of, memory_in, frames_in, caller_from, IsDrained, KeepsRest};

    /// What a call of system procedure `n` makes, by the system procedure table at `table`, from the
    /// process controls and the frame and stack pointers. `Err` says that there is no procedure of
    /// this number, or names the hazard of the first access that meets one (the i960 CA/CF User's
    /// Manual, system calls).
    pub fn plan_calls(
        &self,
        table: u32,
        n: u32,
        pc: u32,
        fp: u32,
        sp: u32,
    ) -> Result<Sys, CallsStop>
        requires drained { IsDrained self.now }
        ensures sys { result ≡ planned_calls (caller_from self.now pc fp sp) table n }

        // So the frame can be saved there.
        ensures free { IfOk result (λ s. save_hazard (frames_in self.now) s.push.save ≡ None) }
        ensures aligned { IfOk result (λ s. s.push.save % 16 ≡ 0) }

        // No bit of PC is set that is not kept.
        ensures kept { IsWithin PC_MASK pc → IfOk result (λ s. IsWithin PC_MASK s.pc) }
    {
        plan_calls(self.behind.memory(), &self.watch, table, n, pc, fp, sp)
    }

    /// Whether a call of system procedure `n` switches stacks, by the system procedure table at `table`
    /// and the process controls. `Err` is the hazard of a word that tells it.
    pub fn system_switches(&self, table: u32, n: u32, pc: u32) -> Result<bool, u32>
        requires drained { IsDrained self.now }
        ensures { result ≡ system_switch (memory_in self.now) (frames_in self.now) table n pc }
    {
        system_switches(self.behind.memory(), &self.watch, table, n, pc)
    }

    /// What a return makes, from the previous frame pointer with its return type, the frame pointer,
    /// and the process and arithmetic controls; or the hazard of the first access that meets one
    /// (the i960 CA/CF User's Manual, returns).
    pub fn plan_ret(&self, pfp: u32, fp: u32, pc: u32, ac: u32) -> Result<Pop, u32>
        requires drained { IsDrained self.now }
        ensures pop { result ≡ planned_ret (memory_in self.now) (frames_in self.now) pfp fp pc ac }

        // So the youngest frame can be dropped.
        ensures live { IfOk result (λ p. IsTrue p.live ↔ (0 < length (frames_in self.now).live)) }

        // No bit of PC or AC is set that is not kept.
        ensures kept_pc { IsWithin PC_MASK pc → IfOk result (λ p. IsWithin PC_MASK p.pc) }
        ensures kept_ac { IsWithin AC_MASK ac → IfOk result (λ p. IsWithin AC_MASK p.ac) }
    {
        plan_ret(self.behind.memory(), &self.watch, pfp, fp, pc, ac)
    }

    /// What the entry of a fault makes, by the fault table at `table` and the system procedure table
    /// at `system`, from the controls and the frame and stack pointers. `Err` is a hazard or a dead
    /// entry, whichever comes first (the i960 CA/CF User's Manual, faults).
    pub fn plan_fault(
        &self,
        table: u32,
        system: u32,
        fault: &Fault,
        pc: u32,
        ac: u32,
        fp: u32,
        sp: u32,
    ) -> Result<Entry, FaultStop>
        requires drained { IsDrained self.now }
        ensures entry { result ≡ planned_fault (caller_from self.now pc fp sp) table system fault.now ac }

        // So the frame can be saved there.
        ensures free { IfOk result (λ e. save_hazard (frames_in self.now) e.push.save ≡ None) }
        ensures aligned { IfOk result (λ e. e.push.save % 16 ≡ 0) }

        // And the record can be written below the new one.
        ensures record { IfOk result (λ e. record_write_hazard (frames_in self.now) e.push ≡ None) }
    {
        plan_fault(
            self.behind.memory(),
            &self.watch,
            table,
            system,
            fault,
            pc,
            ac,
            fp,
            sp,
        )
    }

    /// Whether the entry of a fault switches stacks, by the fault table at `table` and the system
    /// procedure table at `system`. `Err` is what stops the entry before that is known.
    pub fn fault_switches(
        &self,
        table: u32,
        system: u32,
        fault: &Fault,
        pc: u32,
    ) -> Result<bool, FaultStop>
        requires drained { IsDrained self.now }
        ensures { result ≡ fault_switch (memory_in self.now) (frames_in self.now) table system fault.now pc }
    {
        fault_switches(self.behind.memory(), &self.watch, table, system, fault, pc)
    }

    /// The interrupt that comes next where the requests of software count too, by the interrupt
    /// table at `table` and the process controls. `Err` is the hazard of the bytes with the requests,
    /// which are read in any case (the i960 CA/CF User's Manual, interrupts).
    pub fn choose_soft(&self, ints: &Ints, table: u32, pc: u32) -> Result<Option<Chosen>, u32>
        requires drained { IsDrained self.now }
        ensures { result ≡ chosen_soft (interrupts_of ints.now) (memory_in self.now) (frames_in self.now) table pc }
    {
        ints.choose_soft(self.behind.memory(), &self.watch, table, pc)
    }

    /// What the entry of an interrupt makes, by the interrupt table at `table`, the interrupt stack
    /// at `stack`, the controls, and the frame and stack pointers. `Err` is the hazard of the first
    /// access that meets one: the word of the vector, the save area, the record, and what then clears
    /// a request of software (the i960 CA/CF User's Manual, interrupts).
    pub fn plan_interrupt(
        &self,
        ints: &Ints,
        table: u32,
        stack: u32,
        c: &Chosen,
        pc: u32,
        ac: u32,
        fp: u32,
        sp: u32,
    ) -> Result<IntEntry, u32>
        requires drained { IsDrained self.now }
        ensures entry { result ≡ planned_interrupt (caller_from self.now pc fp sp) table stack c.now ac }

        // So the frame can be saved there.
        ensures free { IfOk result (λ e. save_hazard (frames_in self.now) e.push.save ≡ None) }
        ensures aligned { IfOk result (λ e. e.push.save % 16 ≡ 0) }

        // The record can be written below the new one.
        ensures record { IfOk result (λ e. record_write_hazard (frames_in self.now) e.push ≡ None) }

        // And then what chose the interrupt can be cleared.
        ensures clear { IfOk result
            (λ e. cleared_hazard (memory_in self.now) (frames_in self.now) table c.now e.push e.words ≡ None) }
    {
        ints.plan_int(
            self.behind.memory(),
            &self.watch,
            table,
            stack,
            c,
            pc,
            ac,
            fp,
            sp,
        )
    }

    /// The bytes that clear what chose an interrupt, each with its address, once its frame is saved
    /// and its record is written: of a request of software the byte without the bit of the vector,
    /// and with the last of its vectors before it the byte without the bit of its priority (the i960
    /// CA/CF User's Manual, interrupts).
    pub fn clearing_bytes(&self, table: u32, c: &Chosen, e: &IntEntry) -> ArrayVec<(u32, u8), 2>
        requires drained { IsDrained self.now }
        requires record { record_write_hazard (frames_in self.now) e.now.push ≡ None }
        requires clear { cleared_hazard (memory_in self.now) (frames_in self.now) table c.now e.now.push e.now.words
            ≡ None }
        ensures { result.items ≡ clearing_writes c.now.cause
            (with_writes (memory_in self.now)
            (record_writes (memory_in self.now) e.now.push e.now.words)) table c.now.vector }
    {
        clearing_bytes(self.behind.memory(), table, c, e)
    }

    /// What a request of software for vector `v` stores, in the interrupt table at `table`: the byte
    /// with the bit of its priority and the byte with its own, each with its address and with that
    /// bit set. `Err` is the hazard of the first access that meets one: both bytes are read, and then
    /// both are written (after the i960 CA/CF User's Manual, interrupts).
    pub fn plan_request(&self, table: u32, v: u8) -> Result<[(u32, u8); 2], u32>
        requires drained { IsDrained self.now }
        ensures { result ≡ unless (request_hazard (frames_in self.now) table v)
            (request_writes (memory_in self.now) table v) }
    {
        plan_request(self.behind.memory(), &self.watch, table, v)
    }

    /// The bytes of the next unit of DMA channel `c`, 0 to 3, from memory or as a device gives them; None
    /// where nothing moves, and `Err` with the hazard that the unit meets (this project's own).
    pub fn plan_unit(
        &self,
        channels: &Channels,
        c: u8,
        given: Option<&[u8]>,
    ) -> Result<Option<ArrayVec<u8, 16>>, u32>
        requires drained { IsDrained self.now }
        requires channel { c < 4 }
        ensures { bytes_in result
            ≡ planned_bytes (memory_in self.now) (frames_in self.now) (dma_of channels.now) c (given_in given.entry) }
    {
        channels.plan_unit(self.behind.memory(), &self.watch, c, given)
    }

    /// Starts anew at the instruction address `first`, where nothing is held: reads the PRCB at
    /// `prcb` and its control table, and configures all regions by that table (the i960 CA/CF User's
    /// Manual, sysctl). `Err` is the hazard of these reads, and then nothing changes.
    #[tactic(auto, using(crate::proofs::Configured::empty_rules, i9_queue::proofs::Drained::lent_rules))]
    pub fn reinit(&mut self, first: u32, prcb: u32) -> Result<Setup, u32>
        requires drained { IsDrained self.old }
        requires empty { (cache_of self.old).held ≡ [] }
        ensures setup { result ≡ planned_setup (memory_in self.old) (frames_in self.old) first prcb }
        ensures memory { IfOk result (λ s. memory_in self.new ≡ configured (memory_in self.old) s.control) }
        ensures cache { cache_of self.new ≡ cache_configured (memory_in self.new) (cache_of self.old) }
        ensures frames { frames_in self.new ≡ frames_in self.old }
        ensures refused { OnErr result (cache_of self.new ≡ cache_of self.old) }
        ensures keeps { KeepsRest self.old self.new }
    {
        self.words.forget_all();
        reinit(self.behind.memory_mut(), &self.watch, first, prcb)
    }

    /// The four words of a group of the control table at `table`, where nothing is held. `Err` is the
    /// hazard of this read.
    #[tactic(auto, using(crate::proofs::Configured::empty_rules))]
    pub fn control_group(&self, table: u32, group: u8) -> Result<[u32; 4], u32>
        requires drained { IsDrained self.now }
        requires empty { (cache_of self.now).held ≡ [] }
        requires group { group < 7 }
        ensures { result ≡ planned_group (memory_in self.now) (frames_in self.now) table group }
    {
        control_group(self.behind.memory(), &self.watch, table, group)
    }

    /// Gives regions from `region` up other configuration words, where nothing is held.
    #[tactic(auto, using(crate::proofs::Configured::empty_rules))]
    pub fn configure(&mut self, region: u8, words: &[u32])
        requires drained { IsDrained self.old }
        requires empty { (cache_of self.old).held ≡ [] }
        requires few { region + length words.now ≤ 16 }
        ensures memory { memory_in self.new ≡ with_regions (memory_in self.old) region words.now }
        ensures cache { cache_of self.new ≡ cache_configured (memory_in self.new) (cache_of self.old) }
        ensures frames { frames_in self.new ≡ frames_in self.old }
        ensures keeps { KeepsRest self.old self.new }
    {
        self.words.forget_all();
        configure_regions(&mut self.behind, region, words);
    }
}
