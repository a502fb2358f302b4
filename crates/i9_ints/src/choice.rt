//! Which interrupt comes next.
ghost use Rattle.std.specs.Prelude.{◌≡◌, ℕ, ◌+◌, ◌*◌, ◌<◌, ◌≤◌, None, OnSome, IfSome};
ghost use Rattle.i9_model.specs.declared.interrupts.TheConstants.{LINES, PENDING_SIZE};
ghost use Rattle.i9_model.specs.declared.interrupts.Cause.TheVariants.{Line, Soft};
ghost use Rattle.i9_model.specs.Hazards.{read_hazard};
ghost use Rattle.i9_model.specs.Interrupts.{choice, chosen, chosen_soft, line_vector, is_requested};
ghost use Rattle.i9_memory.specs.Memory.{memory_of};
ghost use Rattle.i9_watch.specs.Watch.{frames_of};
ghost use Rattle.i9_ints.specs.Best.{is_let_in, is_ready, IsBestLine, IsGreatest, is_wanted, line_or_soft, preferred};

use crate::Ints;
use crate::bits::has_bit;
use crate::requests::{VECTORS, pending_place, priority_place};
use i9_memory::Memory;
use i9_model::interrupts::{HIGHEST_PRIORITY, LINES, NMI_VECTOR, PENDING_SIZE, PRIORITY_PLACE};
use i9_model::{Cause, Chosen};
use i9_watch::Watch;

/// The choice of the interrupt that is never masked.
const NMI: Chosen = Chosen {
    vector: NMI_VECTOR,
    cause: Cause::Nmi,
};

/// Whether a vector may be entered: it is not below 8, and its priority is above that of the
/// process controls or is 31.
fn is_let_in(vector: u8, pc: u32) -> bool
    ensures { result ≡ is_let_in pc vector }
{
    let priority = vector / VECTORS;
    let current = (pc >> PRIORITY_PLACE) % (1 << 5);
    vector >= VECTORS && (current < u32::from(priority) || priority == HIGHEST_PRIORITY)
}

/// The greatest vector of priority `p` that software asks for and that may be entered.
fn wanted_at(m: &Memory, table: u32, p: u8, pc: u32) -> Option<u8>
    requires { p < 32 }
    ensures { IsGreatest (is_wanted (is_requested (memory_of m.now) table) pc) (8 * p) (8 * p + 8) result }
{
    let first = VECTORS * p;
    let priorities = m.byte(priority_place(table, first));
    let vectors = m.byte(pending_place(table, first));
    if vectors == 0 || !has_bit(priorities, p % 8) || !is_let_in(first, pc) {
        return None;
    }
    Some(first + vectors.ilog2() as u8)
}

/// The greatest vector that software asks for and that may be entered.
fn best_request(m: &Memory, table: u32, pc: u32) -> Option<u8>
    ensures { IsGreatest (is_wanted (is_requested (memory_of m.now) table) pc) 8 256 result }
{
    for n in 0..HIGHEST_PRIORITY {
        if let Some(vector) = wanted_at(m, table, HIGHEST_PRIORITY - n, pc) {
            return Some(vector);
        }
    }
    None
}

/// The choice of a vector that software asks for.
fn soft_choice(vector: u8) -> Chosen
    ensures { result ≡ choice Soft vector }
{
    Chosen {
        vector,
        cause: Cause::Soft,
    }
}

impl Ints {
    ghost use Rattle.i9_ints.specs.Ints.{interrupts_of};

    /// Whether line `k` is posted and not masked, and its vector may be entered.
    fn is_ready(&self, k: u8, pc: u32) -> bool
        requires { k < LINES }
        ensures { result ≡ is_ready (interrupts_of self.now) pc k }
    {
        self.is_open(k) && is_let_in(self.line_vector(k), pc)
    }

    /// The best of the lines below `k`, or line `k` where that one is better.
    fn better(&self, best: Option<u8>, k: u8, pc: u32) -> Option<u8>
        requires line { k < LINES }
        requires best { IsBestLine (interrupts_of self.now) pc k best }
        ensures { IsBestLine (interrupts_of self.now) pc (k + 1) result }
    {
        if !self.is_ready(k, pc) {
            return best;
        }
        match best {
            Some(b) if self.line_vector(b) >= self.line_vector(k) => Some(b),
            _ => Some(k),
        }
    }

    /// The line that comes first: of those that are ready the one with the greatest vector, and
    /// the lowest of these.
    // Seldom is a line posted, and this is no part of the code that calls it.
    #[inline(never)]
    fn best_line(&self, pc: u32) -> Option<u8>
        ensures { IsBestLine (interrupts_of self.now) pc LINES result }
    {
        let mut best = None;
        for k in 0..LINES {
            best = self.better(best, k, pc);
        }
        best
    }

    /// The choice of a line.
    fn line_choice(&self, k: u8) -> Chosen
        requires { k < LINES }
        ensures { result ≡ choice (Line k) (line_vector (interrupts_of self.now).maps k) }
    {
        Chosen {
            vector: self.line_vector(k),
            cause: Cause::Line(k),
        }
    }

    /// The line, or the vector that software asks for where that one has the greater priority.
    fn line_or_soft(&self, k: u8, vector: u8) -> Chosen
        requires { k < LINES }
        ensures { result ≡ line_or_soft (interrupts_of self.now).maps k vector }
    {
        if self.line_vector(k) / VECTORS < vector / VECTORS {
            soft_choice(vector)
        } else {
            self.line_choice(k)
        }
    }

    /// Of the best line and the greatest vector that software asks for, the one of the greater
    /// priority; at one priority the line.
    fn preferred(&self, line: Option<u8>, vector: Option<u8>) -> Option<Chosen>
        requires { IfSome line (λ k. k < LINES) }
        ensures { result ≡ preferred (interrupts_of self.now).maps line vector }
    {
        match (line, vector) {
            (None, None) => None,
            (None, Some(v)) => Some(soft_choice(v)),
            (Some(k), None) => Some(self.line_choice(k)),
            (Some(k), Some(v)) => Some(self.line_or_soft(k, v)),
        }
    }

    /// The interrupt that comes next without a look at the requests of software, if there is one,
    /// from the process controls. The one that is never masked comes first. Of the lines, those
    /// count that are posted and not masked, with a vector of 8 or more whose priority, an eighth
    /// of it, is above that of the process controls or is 31; the greatest vector comes first, and
    /// of one vector the lowest line. After the i960 CA/CF User's Manual, interrupts; that the
    /// lowest line comes first is this project's own.
    // Each step asks, and mostly nothing is posted that counts: that much is part of the code that calls it.
    #[inline(always)]
    #[tactic(auto, using(crate::proofs::Choosing::choice_rules))]
    pub fn choose(&self, pc: u32) -> Option<Chosen>
        ensures { result ≡ chosen (interrupts_of self.now) pc }
    {
        if self.is_nmi_posted() {
            return Some(NMI);
        }
        if self.pending() & self.mask() == 0 {
            return None;
        }
        self.preferred(self.best_line(pc), None)
    }

    /// The interrupt that comes next where the requests of software count too, by the interrupt
    /// table at `table`. At one priority lines come before software, and of the vectors that
    /// software asks for the greatest comes first. `Err` is the hazard of the 36 bytes with the
    /// requests, which are read in any case. After the i960 CA/CF User's Manual, interrupts; the
    /// order of lines and software is this project's own.
    #[tactic(auto, using(crate::proofs::Choosing::choice_rules))]
    pub fn choose_soft(
        &self,
        m: &Memory,
        w: &Watch,
        table: u32,
        pc: u32,
    ) -> Result<Option<Chosen>, u32>
        ensures { result ≡ chosen_soft (interrupts_of self.now) (memory_of m.now) (frames_of w.now) table pc }
    {
        if let Some(hazard) = w.check_read(table, PENDING_SIZE) {
            return Err(hazard);
        }
        if self.is_nmi_posted() {
            return Ok(Some(NMI));
        }
        Ok(self.preferred(self.best_line(pc), best_request(m, table, pc)))
    }
}
