//! What calls, returns, requests of software, the entries of faults and interrupts, and DMA make in the
//! state that a processor stands for.
ghost use Rattle.std.specs.Prelude.{◌≡◌, ◌%◌, ◌<◌, ◌&&◌, ◌||◌, true, None, Some, IfOk, IfErr};
ghost use Rattle.i9_model.specs.declared.layout.TheConstants.{FP, SP, PFP};
ghost use Rattle.i9_model.specs.Memory.{with_writes};
ghost use Rattle.i9_model.specs.Hazards.{unless, save_hazard, record_write_hazard};
ghost use Rattle.i9_model.specs.Requests.{request_hazard, request_writes};
ghost use Rattle.i9_model.specs.Interrupts.{cleared_hazard, clearing_writes, record_writes};
ghost use Rattle.i9_model.specs.Before.{choice_in, interrupt_in};
ghost use Rattle.i9_model.specs.Dma.{is_last, posts_at_end};
ghost use Rattle.i9_dma.specs.Units.{given_in, bytes_in, planned_bytes};
ghost use Rattle.i9_processor.specs.Effect.{requests_in};
ghost use Rattle.i9_model.specs.Calls.{caller_in, planned_calls, planned_ret};
ghost use Rattle.i9_model.specs.Faults.{planned_fault};
ghost use Rattle.i9_model.specs.Stale.{push_mark};
ghost use Rattle.i9_processor.specs.Entries.{call_in, calls_in};
ghost use Rattle.i9_model.specs.Run.{entry_in};

use super::Processor;
use crate::effect::{MOST_BYTES, Requests};
use arrayvec::ArrayVec;
use i9_calls::{CallsStop, Pop, Push, Sys, plan_call};
use i9_faults::{Entry, Fault, FaultStop};
use i9_ints::vector_place;
use i9_model::interrupts::INTERRUPTED_PLACE;
use i9_model::layout::{FP, MOST_SYSTEM_CALL, PFP, SP};
use i9_model::{Chosen, Tables};

impl Processor {
    ghost use Rattle.i9_processor.specs.State.{state_of, IsDrained};

    /// The instruction address, where a push takes its save address from a marked fp, or, where stacks are not
    /// switched, its base from a marked sp: neither may be.
    #[tactic(auto, unfolding(crate::specs::State::state_of))]
    fn push_mark(&self, is_switched: bool) -> Option<u32>
        ensures { result ≡ push_mark (state_of self.now) is_switched }
    {
        (self.is_marked(FP) || !is_switched && self.is_marked(SP)).then_some(self.ip)
    }

    /// Whether fp or sp is marked.
    #[tactic(auto, unfolding(crate::specs::State::state_of))]
    fn has_marked_pointer(&self) -> bool
        ensures { result ≡ ((state_of self.now).marks FP || (state_of self.now).marks SP) }
    {
        self.is_marked(FP) || self.is_marked(SP)
    }

    /// What a call to an address makes of the frames, or the hazard of its push.
    #[tactic(auto, unfolding(crate::specs::State::state_of), using(crate::proofs::Pushing::call_rules))]
    pub fn plan_call(&self) -> Result<Push, u32>
        ensures push { result ≡ call_in (state_of self.now) }
        ensures free { IfOk result (λ p. save_hazard (state_of self.now).frames p.save ≡ None) }
        ensures aligned { IfOk result (λ p. p.save % 16 ≡ 0) }
    {
        if let Some(mark) = self.push_mark(false) {
            return Err(mark);
        }
        plan_call(self.storage.watch(), self.register(FP), self.register(SP))
    }

    /// What a call of system procedure `n` makes, by pointers that are not marked.
    #[tactic(auto, unfolding(crate::specs::State::state_of, crate::specs::State::queue_of))]
    fn plan_plain_calls(&self, n: u32) -> Result<Sys, CallsStop>
        requires drained { IsDrained self.now }
        ensures sys { result
            ≡ planned_calls (caller_in (state_of self.now)) (state_of self.now).tables.system_table n }
        ensures free { IfOk result (λ s. save_hazard (state_of self.now).frames s.push.save ≡ None) }
        ensures aligned { IfOk result (λ s. s.push.save % 16 ≡ 0) }
    {
        self.storage.plan_calls(
            self.tables.system_table,
            n,
            self.pc,
            self.register(FP),
            self.register(SP),
        )
    }

    /// What a call of system procedure `n` makes; `Err` where there is no such number, or at a hazard.
    #[tactic(auto, unfolding(crate::specs::State::state_of, crate::specs::State::queue_of))]
    pub fn plan_calls(&self, n: u32) -> Result<Sys, CallsStop>
        requires drained { IsDrained self.now }
        ensures sys { result ≡ calls_in (state_of self.now) n }
        ensures free { IfOk result (λ s. save_hazard (state_of self.now).frames s.push.save ≡ None) }
        ensures aligned { IfOk result (λ s. s.push.save % 16 ≡ 0) }
    {
        if !self.has_marked_pointer() {
            return self.plan_plain_calls(n);
        }
        if n > MOST_SYSTEM_CALL {
            return Err(CallsStop::Length);
        }
        let table = self.tables.system_table;
        match self.storage.system_switches(table, n, self.pc) {
            Err(hazard) => Err(CallsStop::Hazard(hazard)),
            Ok(is_switched) => match self.push_mark(is_switched) {
                Some(mark) => Err(CallsStop::Hazard(mark)),
                None => self.plan_plain_calls(n),
            },
        }
    }

    /// What a return makes of the controls and of frames, or its hazard.
    #[tactic(auto, unfolding(crate::specs::State::state_of, crate::specs::State::queue_of))]
    pub fn plan_ret(&self) -> Result<Pop, u32>
        requires drained { IsDrained self.now }
        ensures { result ≡ planned_ret (state_of self.now).memory (state_of self.now).frames
            ((state_of self.now).regs PFP)
            ((state_of self.now).regs FP) (state_of self.now).pc (state_of self.now).ac }
    {
        self.storage
            .plan_ret(self.register(PFP), self.register(FP), self.pc, self.ac())
    }

    /// What the entry of a fault makes, by pointers that are not marked.
    #[tactic(auto, unfolding(crate::specs::State::state_of, crate::specs::State::queue_of))]
    fn plan_plain_fault(&self, fault: &Fault) -> Result<Entry, FaultStop>
        requires drained { IsDrained self.now }
        ensures entry { result ≡ planned_fault (caller_in (state_of self.now))
            (state_of self.now).tables.fault_table (state_of self.now).tables.system_table fault.now
            (state_of self.now).ac }
        ensures free { IfOk result (λ e. save_hazard (state_of self.now).frames e.push.save ≡ None) }
        ensures aligned { IfOk result (λ e. e.push.save % 16 ≡ 0) }
    {
        self.storage.plan_fault(
            self.tables.fault_table,
            self.tables.system_table,
            fault,
            self.pc,
            self.ac(),
            self.register(FP),
            self.register(SP),
        )
    }

    /// What the entry of a fault makes, or the hazard or the dead entry that comes first.
    #[tactic(auto, unfolding(crate::specs::State::state_of, crate::specs::State::queue_of, i9_model::specs::Run::entry_in))]
    pub fn plan_fault(&self, fault: &Fault) -> Result<Entry, FaultStop>
        requires drained { IsDrained self.now }
        ensures entry { result ≡ entry_in (state_of self.now) fault.now }
        ensures free { IfOk result (λ e. save_hazard (state_of self.now).frames e.push.save ≡ None) }
        ensures aligned { IfOk result (λ e. e.push.save % 16 ≡ 0) }
    {
        if !self.has_marked_pointer() {
            return self.plan_plain_fault(fault);
        }
        let Tables {
            fault_table,
            system_table,
            ..
        } = self.tables;
        match self
            .storage
            .fault_switches(fault_table, system_table, fault, self.pc)
        {
            Err(stop) => Err(stop),
            Ok(is_switched) => match self.push_mark(is_switched) {
                Some(mark) => Err(FaultStop::Hazard(mark)),
                None => self.plan_plain_fault(fault),
            },
        }
    }

    /// The interrupt that comes next, if there is one, or the hazard of a look at what software asks for.
    // Each step asks, and mostly what software asks for is not looked at.
    #[inline(always)]
    #[tactic(auto, unfolding(crate::specs::State::state_of, crate::specs::State::queue_of, i9_model::specs::Before::choice_in))]
    pub fn choose(&self) -> Result<Option<Chosen>, u32>
        requires drained { (state_of self.now).check ≡ true → IsDrained self.now }
        ensures { result ≡ choice_in (state_of self.now) }
    {
        if self.check {
            self.storage
                .choose_soft(&self.ints, self.tables.interrupt_table, self.pc)
        } else {
            Ok(self.ints.choose(self.pc))
        }
    }

    /// What the entry of an interrupt makes, or the hazard of the first access that meets one.
    #[tactic(auto, unfolding(crate::specs::State::state_of, crate::specs::State::queue_of, i9_model::specs::Before::interrupt_in))]
    pub fn plan_interrupt(&self, c: &Chosen) -> Result<Entry, u32>
        requires drained { IsDrained self.now }
        ensures entry { result ≡ interrupt_in (state_of self.now) c.now }
        ensures free { IfOk result (λ e. save_hazard (state_of self.now).frames e.push.save ≡ None) }
        ensures aligned { IfOk result (λ e. e.push.save % 16 ≡ 0) }
        // So the record can be written, and what chose the interrupt can be cleared behind it.
        ensures record { IfOk result (λ e. record_write_hazard (state_of self.now).frames e.push ≡ None) }
        ensures clear { IfOk result (λ e. cleared_hazard (state_of self.now).memory (state_of self.now).frames
            (state_of self.now).tables.interrupt_table c.now e.push e.words ≡ None) }
    {
        // The handler's frame is on another stack, where none is handled yet.
        let is_interrupted = (self.pc >> INTERRUPTED_PLACE) % 2 == 1;
        match self.push_mark(!is_interrupted) {
            Some(mark) => {
                let vector = vector_place(self.tables.interrupt_table, c.vector);
                Err(self.check_read(vector, 4).unwrap_or(mark))
            }
            None => self.storage.plan_interrupt(
                &self.ints,
                self.tables.interrupt_table,
                self.tables.interrupt_stack,
                c,
                self.pc,
                self.ac(),
                self.register(FP),
                self.register(SP),
            ),
        }
    }

    /// The bytes that clear what chose an interrupt, behind its frame and its record.
    #[tactic(auto, unfolding(crate::specs::State::state_of, crate::specs::State::queue_of))]
    pub fn clearing_bytes(&self, c: &Chosen, e: &Entry) -> Requests
        requires drained { IsDrained self.now }
        requires record { record_write_hazard (state_of self.now).frames e.now.push ≡ None }
        requires clear { cleared_hazard (state_of self.now).memory (state_of self.now).frames
            (state_of self.now).tables.interrupt_table c.now e.now.push e.now.words ≡ None }
        ensures { requests_in result ≡ clearing_writes c.now.cause
            (with_writes (state_of self.now).memory (record_writes (state_of self.now).memory e.now.push e.now.words))
            (state_of self.now).tables.interrupt_table c.now.vector }
    {
        let bytes = self
            .storage
            .clearing_bytes(self.tables.interrupt_table, c, e);
        Requests::listed(bytes.as_slice())
    }

    /// The bytes that a request of software for a vector stores, or the hazard of the first access that
    /// meets one.
    #[tactic(auto, unfolding(crate::specs::State::state_of, crate::specs::State::queue_of))]
    pub fn plan_request(&self, vector: u8) -> Result<Requests, u32>
        requires drained { IsDrained self.now }
        ensures ok { IfOk result
            (λ r. (request_hazard (state_of self.now).frames (state_of self.now).tables.interrupt_table vector ≡ None)
            × (requests_in r ≡ request_writes (state_of self.now).memory
            (state_of self.now).tables.interrupt_table vector)) }
        ensures err { IfErr result
            (λ a. request_hazard (state_of self.now).frames (state_of self.now).tables.interrupt_table vector
            ≡ Some a) }
    {
        let bytes = self
            .storage
            .plan_request(self.tables.interrupt_table, vector)?;
        Ok(Requests::listed(&bytes))
    }

    /// The bytes of the next unit of DMA channel `c`, from memory or as a device gives them; None where
    /// nothing moves, and `Err` with the hazard that the unit meets.
    #[tactic(auto, unfolding(crate::specs::State::state_of, crate::specs::State::queue_of))]
    pub fn plan_unit(
        &self,
        c: u8,
        given: Option<&[u8]>,
    ) -> Result<Option<ArrayVec<u8, MOST_BYTES>>, u32>
        requires drained { IsDrained self.now }
        requires channel { c < 4 }
        ensures { bytes_in result
            ≡ planned_bytes (state_of self.now).memory (state_of self.now).frames (state_of self.now).dma c
            (given_in given.entry) }
    {
        self.storage.plan_unit(&self.channels, c, given)
    }

    /// Where the next unit of DMA channel `c` goes.
    #[tactic(auto, unfolding(crate::specs::State::state_of))]
    pub fn unit_target(&self, c: u8) -> u32
        requires { c < 4 }
        ensures { result ≡ ((state_of self.now).dma.channels c).target }
    {
        self.channels.target(c).0
    }

    /// Whether the interrupt of DMA channel `c` is posted behind its next unit: where that is the last,
    /// and its control word asks for the interrupt.
    #[tactic(auto, unfolding(crate::specs::State::state_of))]
    pub fn posts_behind_unit(&self, c: u8) -> bool
        requires { c < 4 }
        ensures { result ≡ (is_last ((state_of self.now).dma.channels c)
            && posts_at_end ((state_of self.now).dma.channels c)) }
    {
        self.channels.is_last(c) && self.channels.posts(c)
    }
}
