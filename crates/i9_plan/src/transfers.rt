//! Loads, stores and atomic instructions.
ghost use Rattle.std.specs.Prelude.{◌≡◌, ◌+◌, ◌*◌, ◌≤◌, ◌∷◌, ◌||◌, [], None, true, take, length};
ghost use Rattle.i9_isa.specs.declared.size.Direction.{Direction};
ghost use Rattle.i9_isa.specs.Transfers.{byte_count, register_count, transfer_of};
ghost use Rattle.i9_isa.specs.Valid.{IsValid};
ghost use Rattle.i9_model.specs.Writes.{wrapped, upwards};
ghost use Rattle.i9_model.specs.Hazards.{read_hazard};
ghost use Rattle.i9_model.specs.Memory.{words_in, word_bytes};
ghost use Rattle.i9_model.specs.Operands.{address, value};
ghost use Rattle.i9_model.specs.Access.{Writes, Changes, moved_access};
ghost use Rattle.i9_model.specs.Stale.{byte_marks, is_marked, legible, mark_of, picked, word_mark};
ghost use Rattle.i9_model.specs.Step.{extended, filled, loaded, stored_of, loading, storing, transferring};
ghost use Rattle.i9_model.specs.Step.{bytes_of_words};
ghost use Rattle.i9_model.specs.Step.{atomic_address, atomic, merged, marking, answering};
ghost use Rattle.i9_processor.specs.Effect.{IsEffect};
ghost use Rattle.i9_processor.specs.State.{state_of};
ghost use Rattle.i9_plan.specs.Names.{HasGroup};
ghost use Rattle.i9_plan.specs.Moved.{Moves};
ghost use Rattle.i9_plan.specs.Planned.{IsPlanFor, IsInRow, Plans, Passes};

use crate::effects::{answering, append, assign, listed, one_word};
use crate::marks::{is_stale, loaded_marks, mark_of, stored_marks, word_bits};
use crate::sources::{address, atomic_address, source_words, value};
use crate::words::{merged, word_address};
use arrayvec::ArrayVec;
use i9_isa::{Direction, Inst, Operand, Size, Transfer};
use i9_processor::{Effect, MOST_BYTES, MOST_VALUES, Processor};

/// A transfer between registers and memory, and the address where it begins.
#[derive(Clone, Copy)]
pub(crate) struct Moving {
    pub transfer: Transfer,
    pub address: u32,
}

/// The load or the store that an instruction is, where this is what its name moves.
#[tactic(auto, using(i9_isa::proofs::Moved::moves_few, i9_isa::proofs::Moved::loads_registers))]
pub(crate) fn moving_by(p: &Processor, i: &Inst, transfer: Option<Transfer>) -> Option<Moving>
    requires { transfer ≡ transfer_of i.now.op }
    ensures { Moves (state_of p.now) i.now result }
{
    match transfer {
        None => None,
        Some(transfer) => Some(Moving {
            transfer,
            address: address(p, &i.ea),
        }),
    }
}

/// A byte as a word, with its sign above or with zeros.
fn filled_byte(v: u8, signed: bool) -> u32
    ensures { result ≡ filled signed 8 v }
{
    let word = u32::from(v);
    if signed && word >= 128 {
        word + 0xFFFF_FF00
    } else {
        word
    }
}

/// A half as a word, with its sign above or with zeros.
fn filled_half(v: u16, signed: bool) -> u32
    ensures { result ≡ filled signed 16 v }
{
    let word = u32::from(v);
    if signed && word >= 32_768 {
        word + 0xFFFF_0000
    } else {
        word
    }
}

/// A group of words.
fn group(words: &[u32]) -> ArrayVec<u32, MOST_VALUES>
    requires { length words.now ≤ MOST_VALUES }
    ensures { result.items ≡ words.now }
{
    let mut group = ArrayVec::new();
    let _ = group.try_extend_from_slice(words);
    group
}

/// So many words, from an address up, of which no byte is soft.
#[tactic(auto, using(crate::proofs::WordBytes::few_words, crate::proofs::MarkLists::hard_rules))]
fn words(p: &Processor, a: u32, n: u8) -> ArrayVec<u32, MOST_VALUES>
    requires few { n ≤ 4 }
    requires hard { read_hazard (state_of p.now).frames a (4 * n) ≡ None }
    ensures words { result.items ≡ words_in (legible (state_of p.now)) a n }
    ensures count { length result.items ≡ n }
{
    match n {
        0 => ArrayVec::new(),
        1 => one_word(p.hard_word(a)),
        2 => group(&p.hard_words::<2>(a)),
        3 => group(&p.hard_words::<3>(a)),
        _ => group(&p.hard_words::<4>(a)),
    }
}

/// So many words, from an address up, as a load finds them, whose soft bytes are 0.
#[inline(never)]
#[tactic(auto, using(crate::proofs::WordBytes::few_words))]
fn partly_words(p: &Processor, a: u32, n: u8) -> ArrayVec<u32, MOST_VALUES>
    requires few { n ≤ 4 }
    ensures words { result.items ≡ words_in (legible (state_of p.now)) a n }
    ensures count { length result.items ≡ n }
{
    match n {
        0 => ArrayVec::new(),
        1 => one_word(p.legible_word(a)),
        2 => group(&p.legible_words::<2>(a)),
        3 => group(&p.legible_words::<3>(a)),
        _ => group(&p.legible_words::<4>(a)),
    }
}

/// The words that a load of a size reads, whose bytes are known to be not soft, or are not known to be.
fn loaded(
    p: &Processor,
    size: Size,
    signed: bool,
    a: u32,
    is_hard: bool,
) -> ArrayVec<u32, MOST_VALUES>
    requires few { byte_count size ≤ 16 }
    requires hard { is_hard ≡ true → read_hazard (state_of p.now).frames a (byte_count size) ≡ None }
    ensures words { result.items ≡ loaded size signed (legible (state_of p.now)) a }
    ensures count { length result.items ≡ register_count size }
{
    match size {
        Size::Byte => one_word(filled_byte(p.legible_byte(a), signed)),
        Size::Half => one_word(filled_half(p.legible_half(a), signed)),
        Size::Words(n) if is_hard => words(p, a, n),
        Size::Words(n) => partly_words(p, a, n),
    }
}

/// The bytes of the first words of a list, each in the order of its own region.
#[tactic(auto, using(i9_model::proofs::WordBytes::word_rules))]
pub(crate) fn bytes_of_words(
    p: &Processor,
    a: u32,
    words: &[u32],
    n: usize,
) -> ArrayVec<u8, MOST_BYTES>
    requires few { n ≤ 4 }
    requires there { n ≤ length words.now }
    ensures { result.items ≡ bytes_of_words (state_of p.now).memory a (take n words.now) }
{
    let mut bytes = ArrayVec::new();
    for k in 0..n {
        let word = p.word_bytes(word_address(a, k), words[k]);
        append(&mut bytes, &word);
    }
    bytes
}

/// The bytes that a store of a size writes of its source.
#[tactic(auto, using(crate::proofs::WordBytes::source_rules))]
fn stored(p: &Processor, size: Size, o: Operand, a: u32) -> ArrayVec<u8, MOST_BYTES>
    requires { byte_count size ≤ 16 }
    ensures { result.items ≡ stored_of size (state_of p.now) o a }
{
    match size {
        Size::Byte => listed(&[(value(p, o) % 256) as u8]),
        Size::Half => listed(&p.half_bytes(a, (value(p, o) % 65_536) as u16)),
        Size::Words(n) => bytes_of_words(p, a, &source_words(p, o), usize::from(n)),
    }
}

/// Registers are loaded, with their marks.
fn plan_load(p: &Processor, i: &Inst, m: Moving, effect: &mut Effect)
    requires few { byte_count m.transfer.size ≤ 16 }
    requires place { m.address ≡ address (state_of p.now) i.now.ea }
    requires group { HasGroup i.now.c (register_count m.transfer.size) }
    requires passes { Passes (state_of p.now) i.now effect.old }
    ensures effect { IsEffect (state_of p.now)
        (loading m.transfer.size m.transfer.signed i.now (state_of p.now)) effect.new }
    ensures row { IsInRow effect.new }
{
    let t = m.transfer;
    let is_hard = p.check_read(m.address, t.size.bytes()).is_none();
    let words = loaded(p, t.size, t.signed, m.address, is_hard);
    assign(p, i, i.c, words, effect);
    if !is_hard {
        effect.marks = loaded_marks(p, t.size, m.address);
    }
}

/// Registers are stored, with their marks.
fn plan_store(p: &Processor, i: &Inst, m: Moving, effect: &mut Effect) -> Option<u32>
    requires few { byte_count m.transfer.size ≤ 16 }
    requires place { m.address ≡ address (state_of p.now) i.now.ea }
    requires passes { Passes (state_of p.now) i.now effect.old }
    ensures plans { Plans (state_of p.now) (Writes (address (state_of p.now) i.now.ea) (byte_count m.transfer.size))
        (storing m.transfer.size i.now (state_of p.now)) result effect.new }
    ensures row { IsInRow effect.new }
{
    let size = m.transfer.size;
    if let Some(hazard) = p.check_write(m.address, size.bytes()) {
        return Some(hazard);
    }
    effect.address = m.address;
    effect.bytes = stored(p, size, i.c, m.address);
    effect.stale = stored_marks(p, size, i.c);
    None
}

/// A load or a store.
pub(crate) fn plan_transfer(p: &Processor, i: &Inst, m: Moving, effect: &mut Effect) -> Option<u32>
    requires few { byte_count m.transfer.size ≤ 16 }
    requires place { m.address ≡ address (state_of p.now) i.now.ea }
    requires group { m.transfer.direction ≡ Direction.Load → HasGroup i.now.c (register_count m.transfer.size) }
    requires passes { Passes (state_of p.now) i.now effect.old }
    ensures plans { Plans (state_of p.now)
        (moved_access m.transfer.direction (address (state_of p.now) i.now.ea) (byte_count m.transfer.size))
        (transferring m.transfer i.now (state_of p.now)) result effect.new }
    ensures row { IsInRow effect.new }
{
    match m.transfer.direction {
        Direction::Load => {
            plan_load(p, i, m, effect);
            None
        }
        Direction::Store => plan_store(p, i, m, effect),
    }
}

/// The old word is answered, and a new one is stored in its place. The answer is marked where a byte of the old one
/// is soft, and the bytes of the new one are where that is so or where the data are marked.
fn plan_atomic(
    p: &Processor,
    i: &Inst,
    data_marked: bool,
    old: u32,
    new: u32,
) -> Result<Effect, u32>
    requires { IsValid i.now }
    ensures { IsPlanFor (state_of p.now) (Changes (atomic_address i.now (state_of p.now)) 4)
        (record (marking i.now.c (word_mark (state_of p.now).frames.soft (atomic_address i.now (state_of p.now)) ∷ [])
        (answering i.now (state_of p.now) old)) {
          writes = upwards (atomic_address i.now (state_of p.now))
              (word_bytes (state_of p.now).memory (atomic_address i.now (state_of p.now)) new);
          stale = picked wrapped (atomic_address i.now (state_of p.now)) (byte_marks
              ((word_mark (state_of p.now).frames.soft (atomic_address i.now (state_of p.now)) || data_marked) ∷ []));
        }) result }
{
    let a = atomic_address(p, i);
    if let Some(hazard) = p.check_write(a, 4) {
        return Err(hazard);
    }
    let old_stale = is_stale(p, a);
    let mut effect = answering(p, i, old);
    effect.marks = u16::from(old_stale);
    effect.address = a;
    effect.bytes = listed(&p.word_bytes(a, new));
    effect.stale = word_bits(old_stale, data_marked);
    Ok(effect)
}

/// A word becomes its sum with src2.
pub(crate) fn plan_atadd(p: &Processor, i: &Inst) -> Result<Effect, u32>
    requires { IsValid i.now }
    ensures { IsPlanFor (state_of p.now) (Changes (atomic_address i.now (state_of p.now)) 4)
        (atomic i.now (state_of p.now) (mark_of (state_of p.now) i.now.b 0)
        (λ old. wrapped (old + value (state_of p.now) i.now.b))) result }
{
    let old = p.legible_word(atomic_address(p, i));
    let new = old.wrapping_add(value(p, i.b));
    plan_atomic(p, i, mark_of(p, i.b, 0), old, new)
}

/// A word gets the bits of src/dst where src2 has them.
pub(crate) fn plan_atmod(p: &Processor, i: &Inst) -> Result<Effect, u32>
    requires { IsValid i.now }
    ensures { IsPlanFor (state_of p.now) (Changes (atomic_address i.now (state_of p.now)) 4)
        (atomic i.now (state_of p.now) (mark_of (state_of p.now) i.now.b 0 || mark_of (state_of p.now) i.now.c 0)
        (λ old. merged old (value (state_of p.now) i.now.b) (value (state_of p.now) i.now.c))) result }
{
    let old = p.legible_word(atomic_address(p, i));
    let new = merged(old, value(p, i.b), value(p, i.c));
    let data_marked = mark_of(p, i.b, 0) || mark_of(p, i.c, 0);
    plan_atomic(p, i, data_marked, old, new)
}
