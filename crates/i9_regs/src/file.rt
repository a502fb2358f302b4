//! The register file: values, and values that take their place at a later turn.

ghost use Rattle.std.specs.Prelude.{◌≡◌, ℕ, ◌+◌, ◌<◌, ◌≤◌, ◌≢◌};
ghost use Rattle.std.specs.Prelude.{◌++◌, length, drop, replicate, slice_index};
ghost use Rattle.std.specs.Int.{IsBitSet, bit_at};
ghost use Rattle.i9_model.specs.Late.{resources, landed, latest, is_plan_open, issued_cell};
ghost use Rattle.i9_regs.specs.File.{cell_in, still, with_plan, planned_cell, rest_bit, issued_over};
ghost use Rattle.i9_regs.specs.File.{issued_value, framed_value};

use i9_isa::{CONDITION_CODE, FRAME_POINTER};
use i9_model::layout::LOCALS;

/// How many resources there are.
const RESOURCES: usize = 33;

/// The number of the condition code.
const CODE: usize = CONDITION_CODE as usize;

/// The first 16 bits of a set are those of the locals.
const LOCAL_BITS: u64 = 1 << 16;

/// The first 32 bits of a set are those of the registers.
const REGISTER_BITS: u64 = 1 << 32;

/// For each of 33 resources, the 32 registers and the condition code, the value that it had, the latest one, and the
/// turn from which on that one shows. So a value lands by itself, and nothing is done when the turn moves. A value that
/// is planned takes the place of the one before it, which has landed by then: a record waits for those that write the
/// same.
// Each of the three has its own array, so that a row of registers is set by copies.
#[derive(Drop)]
pub struct File {
    before: [u32; RESOURCES],
    latest: [u32; RESOURCES],
    due: [u64; RESOURCES],
}

/// Sets the first values, those of the locals.
#[inline(always)]
fn set_row(all: &mut [u32; RESOURCES], row: &[u32])
    requires { length row.now ≡ LOCALS }
    ensures { all.new ≡ row.now ++ drop LOCALS all.old }
{
    all[..LOCALS].copy_from_slice(row);
}

/// Sets the first turns, those of the locals.
#[inline(always)]
fn set_turns(due: &mut [u64; RESOURCES], done: u64)
    ensures { due.new ≡ replicate LOCALS done ++ drop LOCALS due.old }
{
    due[..LOCALS].fill(done);
}

impl File {
    /// The same values, at the same turns.
    pub fn copy(&self) -> File
        ensures { result ≡ self.now }
    {
        File {
            before: self.before,
            latest: self.latest,
            due: self.due,
        }
    }

    /// All values are 0.
    pub fn new() -> File
        ensures { (r : ℕ) → cell_in result r ≡ still 0 }
    {
        File {
            before: [0; RESOURCES],
            latest: [0; RESOURCES],
            due: [0; RESOURCES],
        }
    }

    /// The value that the resource has at a turn.
    pub fn value(&self, r: u8, turn: u64) -> u32
        requires { r < resources }
        ensures { result ≡ (landed turn (cell_in self.now r)).value }
    {
        let r = r as usize;
        if self.due[r] <= turn {
            self.latest[r]
        } else {
            self.before[r]
        }
    }

    /// The planned value where there is one, else the value.
    pub fn latest(&self, r: u8) -> u32
        requires { r < resources }
        ensures { result ≡ latest (cell_in self.now r) }
    {
        self.latest[r as usize]
    }

    /// The latest values of the registers.
    pub fn registers(&self) -> [u32; 32]
        ensures { (r : ℕ) → r < 32 → slice_index result r ≡ latest (cell_in self.now r) }
    {
        let mut registers = [0; 32];
        registers.copy_from_slice(&self.latest[..32]);
        registers
    }

    /// Whether a value is planned for a later turn than `turn`.
    pub fn busy(&self, r: u8, turn: u64) -> bool
        requires { r < resources }
        ensures { result ≡ is_plan_open turn (cell_in self.now r).plan }
    {
        turn < self.due[r as usize]
    }

    /// Plans a value, which takes its place at `turn`; until then the resource has the latest value.
    #[inline(always)]
    pub fn plan(&mut self, r: u8, value: u32, turn: u64)
        requires { r < resources }
        ensures cell { cell_in self.new r ≡ with_plan value turn (cell_in self.old r) }
        ensures others { (k : ℕ) → k ≢ r → cell_in self.new k ≡ cell_in self.old k }
    {
        let r = r as usize;
        self.before[r] = self.latest[r];
        self.latest[r] = value;
        self.due[r] = turn;
    }

    /// Sets the value at once, and what was planned is dropped.
    pub fn set(&mut self, r: u8, value: u32)
        requires { r < resources }
        ensures cell { cell_in self.new r ≡ still value }
        ensures others { (k : ℕ) → k ≢ r → cell_in self.new k ≡ cell_in self.old k }
    {
        let r = r as usize;
        self.before[r] = value;
        self.latest[r] = value;
        self.due[r] = 0;
    }

    /// Plans values from a register up, and gives the resources of a set that are left.
    #[inline(always)]
    fn plan_group(&mut self, writes: u64, done: u64, register: u8, values: &[u32]) -> u64
        requires { register + length values.now ≤ 32 }
        ensures cells { (r : ℕ) → cell_in self.new r
            ≡ planned_cell register (length values.now) values.now done r (cell_in self.old r) }
        ensures left { (r : ℕ) → r < 64 → bit_at result r ≡ rest_bit register (length values.now) writes r }
    {
        let mut left = writes;
        for k in 0..values.len() {
            let r = register + k as u8;
            self.plan(r, values[k], done);
            left &= !(1 << r);
        }
        left
    }

    /// Plans values for the locals, all at once, and gives the resources of a set that are left.
    fn plan_locals(&mut self, writes: u64, done: u64, locals: &[u32; LOCALS]) -> u64
        ensures cells { (r : ℕ) → cell_in self.new r
            ≡ planned_cell 0 (length locals.now) locals.now done r (cell_in self.old r) }
        ensures left { (r : ℕ) → r < 64 → bit_at result r ≡ rest_bit 0 (length locals.now) writes r }
    {
        let had = self.latest;
        set_row(&mut self.before, &had[..LOCALS]);
        set_row(&mut self.latest, locals);
        set_turns(&mut self.due, done);
        writes / LOCAL_BITS * LOCAL_BITS
    }

    /// Plans for each register of a set the latest value that it has.
    fn plan_each(&mut self, left: u64, done: u64)
        ensures registers { (r : ℕ) → r < 32 → cell_in self.new r
            ≡ issued_over left done r (latest (cell_in self.old r)) (cell_in self.old r) }
        ensures code { cell_in self.new CODE ≡ cell_in self.old CODE }
    {
        for r in 0..32 {
            if left >> r & 1 == 1 {
                self.plan(r, self.latest(r), done);
            }
        }
    }

    /// As `plan_each`. Most records leave no register, and then none is looked at.
    #[tactic(auto, using(crate::proofs::Issued::low_rules))]
    fn plan_left(&mut self, left: u64, done: u64)
        ensures registers { (r : ℕ) → r < 32 → cell_in self.new r
            ≡ issued_over left done r (latest (cell_in self.old r)) (cell_in self.old r) }
        ensures code { cell_in self.new CODE ≡ cell_in self.old CODE }
    {
        if left % REGISTER_BITS != 0 {
            self.plan_each(left, done);
        }
    }

    /// Plans the condition code where it is in a set.
    fn plan_code(&mut self, writes: u64, done: u64, code: u32)
        ensures code { cell_in self.new CODE ≡ issued_over writes done CODE code (cell_in self.old CODE) }
        ensures registers { (r : ℕ) → r < 32 → cell_in self.new r ≡ cell_in self.old r }
    {
        if writes >> CODE & 1 == 1 {
            self.plan(CONDITION_CODE, code, done);
        }
    }

    /// Plans what a record leaves in the resources of a set.
    // Most records write one register or none, and this is no part of their code.
    #[inline(never)]
    fn plan_many(&mut self, writes: u64, done: u64, register: u8, values: &[u32], code: u32)
        requires range { register + length values.now ≤ 32 }
        requires set { (k : ℕ) → k < length values.now → IsBitSet writes (register + k) }
        ensures { (r : ℕ) → r < resources → cell_in self.new r
            ≡ issued_over writes done r (issued_value self.old register values.now code r) (cell_in self.old r) }
    {
        let left = self.plan_group(writes, done, register, values);
        self.plan_left(left, done);
        self.plan_code(writes, done, code);
    }

    /// Plans a value for each resource of a set, which takes its place at `done`: `values` for the
    /// registers from `register` up, `code` for the condition code, and for each other one the latest
    /// value that it has.
    // Each step calls it. Most records write one register or none, and then none of the others is looked at.
    #[inline(always)]
    pub fn issue(&mut self, writes: u64, done: u64, register: u8, values: &[u32], code: u32)
        requires range { register + length values.now ≤ 32 }
        requires set { (k : ℕ) → k < length values.now → IsBitSet writes (register + k) }
        ensures { (r : ℕ) → r < resources → cell_in self.new r
            ≡ issued_over writes done r (issued_value self.old register values.now code r) (cell_in self.old r) }
    {
        if values.len() == 1 && writes == 1 << register {
            self.plan_group(writes, done, register, values);
            return;
        }
        if values.is_empty() && writes % REGISTER_BITS == 0 {
            self.plan_code(writes, done, code);
            return;
        }
        self.plan_many(writes, done, register, values, code);
    }

    /// As `issue`, of a record that enters a frame: `locals` for the locals, and `frame` for the frame
    /// pointer.
    pub fn issue_frame(
        &mut self,
        writes: u64,
        done: u64,
        locals: &[u32; LOCALS],
        frame: u32,
        code: u32,
    )
        requires locals { (k : ℕ) → k < LOCALS → IsBitSet writes k }
        requires frame { IsBitSet writes FRAME_POINTER }
        ensures { (r : ℕ) → r < resources → cell_in self.new r
            ≡ issued_over writes done r (framed_value self.old locals.now frame code r) (cell_in self.old r) }
    {
        let left = self.plan_group(writes, done, FRAME_POINTER, &[frame]);
        let rest = self.plan_locals(left, done, locals);
        self.plan_left(rest, done);
        self.plan_code(left, done, code);
    }

    /// As `issue_frame`, over what the same record has planned: until `done` each resource of the set keeps the value
    /// that it had.
    #[inline(never)]
    pub fn amend_frame(
        &mut self,
        writes: u64,
        done: u64,
        locals: &[u32; LOCALS],
        frame: u32,
        code: u32,
    )
        requires locals { (k : ℕ) → k < LOCALS → IsBitSet writes k }
        requires frame { IsBitSet writes FRAME_POINTER }
        ensures { (r : ℕ) → r < resources → cell_in self.new r
            ≡ issued_cell writes done r (framed_value self.old locals.now frame code r) (cell_in self.old r) }
    {
        let before = self.before;
        self.issue_frame(writes, done, locals, frame, code);
        self.before = before;
    }
}
