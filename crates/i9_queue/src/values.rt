//! The bytes that stores write of values, and the values that loads see.
ghost use Rattle.std.specs.Prelude.{◌≡◌, ◌+◌, ◌≤◌, ◌++◌, get_or, length, take};
ghost use Rattle.i9_isa.specs.Transfers.{register_count};
ghost use Rattle.i9_memory.specs.Memory.{memory_of};
ghost use Rattle.i9_model.specs.Memory.{half_in, word_in, words_in};
ghost use Rattle.i9_model.specs.Step.{bytes_of_words};
ghost use Rattle.i9_queue.specs.Values.{bytes_of, AreStored, four_of, seen};
ghost use Rattle.i9_queue.specs.Waits.{settled_over};

use crate::queue::Queue;
use arrayvec::ArrayVec;
use i9_isa::Size;
use i9_memory::{Memory, half_of, word_of};
use i9_model::in_port_page;

/// How many addresses a region has.
const REGION_SIZE: u32 = 0x1000_0000;

/// How many words the largest group has.
const MOST_WORDS: usize = 4;

/// How many bytes those have.
const MOST_BYTES: usize = 16;

/// The bytes of a store, from the lowest address up.
type Bytes = ArrayVec<u8, MOST_BYTES>;

/// Bytes are appended for which there is room.
fn append(bytes: &mut Bytes, more: &[u8])
    requires { length bytes.old.items + length more.now ≤ MOST_BYTES }
    ensures { bytes.new.items ≡ bytes.old.items ++ more.now }
{
    let _ = bytes.try_extend_from_slice(more);
}

/// The bytes of one value, as a list.
fn listed(value: &[u8]) -> Bytes
    requires { length value.now ≤ MOST_BYTES }
    ensures { result.items ≡ value.now }
{
    let mut bytes = ArrayVec::new();
    append(&mut bytes, value);
    bytes
}

/// The bytes of the first words of a group, each in the order of its own region.
#[tactic(auto, using(i9_model::proofs::WordBytes::word_rules))]
fn group_bytes(m: &Memory, a: u32, words: &[u32; MOST_WORDS], n: usize) -> Bytes
    ensures { result.items ≡ bytes_of_words (memory_of m.now) a (take n words.now) }
{
    let mut bytes = ArrayVec::new();
    for k in 0..n.min(MOST_WORDS) {
        let word = m.word_bytes(a.wrapping_add(4 * k as u32), words[k]);
        append(&mut bytes, &word);
    }
    bytes
}

/// The bytes of a store of these values at `a`, from the lowest address up (the i960 CA/CF User's
/// Manual, byte order, and store instructions). Those of a byte and of a half are the low ones of the
/// first value; a half and each word of a group have the order of the region of their own first
/// byte, and a group goes upwards, from FFFFFFFF on to 0. A group has four words at most. Bytes that
/// fall in the port page are among them.
pub fn store_bytes(m: &Memory, a: u32, s: Size, v: &[u32; MOST_WORDS]) -> ArrayVec<u8, MOST_BYTES>
    ensures bytes { result.items ≡ bytes_of s (memory_of m.now) a v.now }
    ensures machine { register_count s ≤ MOST_WORDS → AreStored s (memory_of m.now) a v.now result.items }
{
    match s {
        Size::Byte => listed(&[(v[0] % 256) as u8]),
        Size::Half => listed(&m.half_bytes(a, (v[0] % 65_536) as u16)),
        Size::Words(n) => group_bytes(m, a, v, usize::from(n)),
    }
}

impl Queue {
    /// A byte of memory after all waiting stores, of which one may be to it.
    #[inline(never)]
    #[tactic(auto, using(crate::proofs::Settled::land_rules))]
    fn mixed_byte(&self, m: &Memory, a: u32) -> u8
        ensures { result ≡ (settled_over (memory_of m.now) self.now).bytes a }
    {
        if in_port_page(a) {
            return m.byte(a);
        }
        match self.forward(a) {
            Some(b) => b,
            None => m.byte(a),
        }
    }

    /// A byte of memory after all waiting stores. Where none is to it memory has it.
    #[inline(always)]
    pub(crate) fn byte(&self, m: &Memory, a: u32) -> u8
        ensures { result ≡ (settled_over (memory_of m.now) self.now).bytes a }
    {
        if self.is_beside(a, 1) {
            return m.byte(a);
        }
        self.mixed_byte(m, a)
    }

    /// The two bytes from `a` up, one by one, in the order of the region of `a`.
    #[inline(never)]
    #[tactic(auto, unfolding(i9_model::specs::Memory::half_in))]
    fn mixed_half(&self, m: &Memory, a: u32) -> u16
        ensures { result ≡ half_in (settled_over (memory_of m.now) self.now) a }
    {
        let bytes = [self.mixed_byte(m, a), self.mixed_byte(m, a.wrapping_add(1))];
        half_of(m.big((a / REGION_SIZE) as u8), bytes)
    }

    /// The two bytes from `a` up, in the order of the region of `a`. Where no waiting store is to one of
    /// them memory has them.
    #[inline(always)]
    pub(crate) fn half(&self, m: &Memory, a: u32) -> u16
        ensures { result ≡ half_in (settled_over (memory_of m.now) self.now) a }
    {
        if self.is_beside(a, 2) {
            return m.half(a);
        }
        self.mixed_half(m, a)
    }

    /// The four bytes from `a` up, one by one, in the order of the region of `a`.
    #[inline(never)]
    #[tactic(auto, unfolding(i9_model::specs::Memory::word_in))]
    fn mixed_word(&self, m: &Memory, a: u32) -> u32
        ensures { result ≡ word_in (settled_over (memory_of m.now) self.now) a }
    {
        let bytes = [
            self.mixed_byte(m, a),
            self.mixed_byte(m, a.wrapping_add(1)),
            self.mixed_byte(m, a.wrapping_add(2)),
            self.mixed_byte(m, a.wrapping_add(3)),
        ];
        word_of(m.big((a / REGION_SIZE) as u8), bytes)
    }

    /// The four bytes from `a` up, in the order of the region of `a`. Where no waiting store is to one of
    /// them memory has them.
    #[inline(always)]
    pub(crate) fn word(&self, m: &Memory, a: u32) -> u32
        ensures { result ≡ word_in (settled_over (memory_of m.now) self.now) a }
    {
        if self.is_beside(a, 4) {
            return m.word(a);
        }
        self.mixed_word(m, a)
    }

    /// Word `k` of a group of `n` from `a` up, or 0 where the group has no such word.
    fn group_word(&self, m: &Memory, a: u32, n: u8, k: u8) -> u32
        ensures { result ≡ get_or (words_in (settled_over (memory_of m.now) self.now) a n) k 0 }
    {
        if k < n {
            self.word(m, a.wrapping_add(4 * u32::from(k)))
        } else {
            0
        }
    }

    /// The values that a load at `a` has in the memory after all waiting stores (the i960 CA/CF User's
    /// Manual, byte order, and load instructions). A byte and a half have zeros above. A half and each
    /// word of a group have the order of the region of their own first byte; a group goes upwards,
    /// from FFFFFFFF on to 0, and has four words at most. What is not read is 0.
    pub fn see(&self, m: &Memory, a: u32, s: Size) -> [u32; MOST_WORDS]
        ensures { result ≡ seen s (settled_over (memory_of m.now) self.now) a }
    {
        match s {
            Size::Byte => [u32::from(self.byte(m, a)), 0, 0, 0],
            Size::Half => [u32::from(self.half(m, a)), 0, 0, 0],
            Size::Words(n) => [
                self.group_word(m, a, n, 0),
                self.group_word(m, a, n, 1),
                self.group_word(m, a, n, 2),
                self.group_word(m, a, n, 3),
            ],
        }
    }
}
