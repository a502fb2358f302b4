//! Calls of a stand-in in memory: how many were made, and which are to fail.
ghost use Rattle.std.specs.Prelude.{◌≡◌, ◌≤◌, false, OnOk, OnErr};

use i9_isa::NoMemory;
use std::alloc::Global;

/// Calls that are counted from 1, of which some are set to fail.
#[derive(Drop)]
pub struct Calls {
    failing: Vec<u64>,
    made: u64,
    faults: u64,
}

impl Calls {
    ghost use Rattle.i9_outside.specs.Calls.{plan_of, no_calls, next_call, with_failing, fails_next, with_call};
    ghost use Rattle.i9_outside.specs.Calls.{with_fault, NoneToFail};

    /// No call was made, and none is to fail.
    pub fn new(alloc: Global) -> Calls
        ensures { plan_of result ≡ no_calls }
    {
        Calls {
            failing: Vec::new(alloc),
            made: 0,
            faults: 0,
        }
    }

    /// Sets the call of that number to fail.
    pub fn fail_at(&mut self, call: u64) -> Result<(), NoMemory>
        ensures ok { OnOk result (plan_of self.new ≡ with_failing (plan_of self.old) call) }
        ensures err { OnErr result (plan_of self.new ≡ plan_of self.old) }
    {
        match self.failing.push(call) {
            Ok(()) => Ok(()),
            Err(_) => Err(NoMemory),
        }
    }

    #[tactic(auto, using(crate::proofs::Failing::none_fails))]
    /// Counts a call, and answers whether it is set to fail.
    pub fn begin(&mut self) -> bool
        ensures answer { result ≡ fails_next (plan_of self.old) }
        ensures calm { NoneToFail (plan_of self.old) → result ≡ false }
        ensures counted { plan_of self.new ≡ with_call (plan_of self.old) }
    {
        self.made = self.made.saturating_add(1);
        self.failing.contains(&self.made)
    }

    /// Counts a fault.
    pub fn fault(&mut self)
        ensures counted { plan_of self.new ≡ with_fault (plan_of self.old) }
        ensures later { (plan_of self.old).faults ≤ (plan_of self.new).faults }
    {
        self.faults = self.faults.saturating_add(1);
    }
}
