//! What an instruction needs by its name and its operands alone, whatever the state is.

ghost use Rattle.std.specs.Prelude.{◌≡◌, ◌==◌, ◌||◌, not};
ghost use Rattle.i9_isa.specs.Resources.{is_read, is_written};
ghost use Rattle.i9_isa.specs.Operands.{words_written};
ghost use Rattle.i9_isa.specs.Valid.{IsValid};
ghost use Rattle.i9_model.specs.Needs.{set_of, is_barrier_name, is_written_sfr, writes_sfr};
ghost use Rattle.i9_need.specs.Fixed.{fixed_need};

use crate::names::{has_access, is_barrier, is_request, is_slow, is_store, moves_frames};
use i9_isa::{Inst, Operand, Side, Use, latency, reads, row, side_of, word_count, writes};

/// What an instruction needs by its name and its operands alone. It is the same each time that the
/// instruction is done, so it can be kept with the instruction.
#[derive(Clone, Copy)]
pub struct FixedNeed {
    /// The side on which it issues.
    pub side: Side,
    /// The resources that it reads: bit r for register r, and bit 32 for the condition code.
    pub reads: u64,
    /// The resources that it writes, as such a set.
    pub writes: u64,
    /// Whether it is a load or a store.
    pub request: bool,
    /// Whether it is a store.
    pub store: bool,
    /// Whether it multiplies or divides.
    pub slow: bool,
    /// Whether it is a barrier by its name, or since it writes a special function register.
    pub barrier: bool,
    /// Whether it has a data access, for which it waits.
    pub access: bool,
    /// Whether the frames that it moves take turns.
    pub frames: bool,
    /// Its turns without waits and frames.
    pub latency: u64,
    /// The number of bytes of its words.
    pub length: u32,
}

/// Whether a use writes words.
fn writes_words(use_of: Use) -> bool
    ensures { result ≡ not (words_written use_of == 0) }
{
    match use_of {
        Use::Destination(n) | Use::Load(n) => n != 0,
        Use::Change => true,
        _ => false,
    }
}

/// Whether the operand is a special function register that is written.
fn is_written_sfr(operand: Operand, use_of: Use) -> bool
    ensures { result ≡ is_written_sfr operand (words_written use_of) }
{
    match operand {
        Operand::Sfr(_) => writes_words(use_of),
        Operand::Reg(_) | Operand::Lit(_) => false,
    }
}

/// Whether the instruction writes a special function register.
fn writes_sfr(i: &Inst) -> bool
    ensures { result ≡ writes_sfr i.now }
{
    let row = row(i.op);
    is_written_sfr(i.a, row.a) || is_written_sfr(i.c, row.c)
}

/// The resources that the instruction reads.
fn resources_read(i: &Inst) -> u64
    requires { IsValid i.now }
    ensures { result ≡ set_of (is_read i.now) }
{
    reads(i)
}

/// The resources that the instruction writes.
fn resources_written(i: &Inst) -> u64
    requires { IsValid i.now }
    ensures { result ≡ set_of (is_written i.now) }
{
    writes(i)
}

/// Whether the instruction is a barrier by its name, or since it writes a special function register.
fn always_stands_apart(i: &Inst) -> bool
    ensures { result ≡ (is_barrier_name i.now.op || writes_sfr i.now) }
{
    is_barrier(i.op) || writes_sfr(i)
}

/// What the instruction needs by its name and its operands alone.
pub fn fixed_need(i: &Inst) -> FixedNeed
    requires { IsValid i.now }
    ensures { result ≡ fixed_need i.now }
{
    FixedNeed {
        side: side_of(i),
        reads: resources_read(i),
        writes: resources_written(i),
        request: is_request(i.op),
        store: is_store(i.op),
        slow: is_slow(i.op),
        barrier: always_stands_apart(i),
        access: has_access(i.op),
        frames: moves_frames(i.op),
        latency: latency(i),
        length: 4 * word_count(i),
    }
}
