//! Memory.
ghost use Rattle.std.specs.Prelude.{◌≡◌, ℕ, ◌+◌, ◌*◌, ◌/◌, ◌%◌, ◌<◌, ◌≤◌, ◌↔◌, ◌∷◌, [], IsTrue, Some, OnOk, OnErr};
ghost use Rattle.std.specs.Prelude.{IfOk, length};
ghost use Rattle.i9_model.specs.Memory.{region_of, is_big, waits_of, half_in, word_in, words_in, ordered_word};
ghost use Rattle.i9_model.specs.Memory.{half_bytes, word_bytes, with_bytes, with_words, with_mcon};

use crate::order::{bytes_of_half, bytes_of_word, half_of, word_of};
use crate::pages::{PAGE_SIZE, Page, Pages};
use i9_isa::NoMemory;
use std::alloc::Global;

/// How many addresses a region has.
const REGION_SIZE: u32 = 0x1000_0000;

/// A byte for each address below 2^32, and the memory configuration word of each of the sixteen
/// regions, which are told apart by the top four bits of an address (the i960 CA/CF User's Manual,
/// bus controller). Which bits of the word give the byte order and the waits, and the port page,
/// are this project's own.
#[derive(Drop)]
pub struct Memory {
    pages: Pages,
    mcon: [u32; 16],
}

/// The region of an address.
fn region_of(a: u32) -> u8
    ensures region { result ≡ region_of a }
    ensures range { result < 16 }
{
    (a / REGION_SIZE) as u8
}

#[tactic(auto, unfolding(crate::specs::Memory::memory_of, crate::specs::Memory::IsReserved))]
impl Memory {
    ghost use Rattle.i9_memory.specs.Memory.{no_memory, memory_of, IsReserved, HasRoom, HasNoRoom, KeepsRoom};
    ghost use Rattle.i9_memory.specs.Memory.{AddsRoomOnly};
    ghost use Rattle.i9_memory.specs.Pages.{page_of};

    /// All bytes and configuration words are 0, and there is room for none.
    pub fn new(alloc: Global) -> Memory
        ensures memory { memory_of result ≡ no_memory }
        ensures none { HasNoRoom result }
    {
        Memory {
            pages: Pages::new(alloc),
            mcon: [0; 16],
        }
    }

    /// The same memory, with room for the same bytes.
    pub fn copy(&self) -> Result<Memory, NoMemory>
        ensures memory { IfOk result (λ m. memory_of m ≡ memory_of self.now) }
        ensures room { IfOk result (λ m. KeepsRoom self.now m) }
        ensures no_more { IfOk result (λ m. KeepsRoom m self.now) }
    {
        let pages = self.pages.copy()?;
        Ok(Memory {
            pages,
            mcon: self.mcon,
        })
    }

    /// Makes room for `n` bytes from `a` up, and for no others but those of their pages. Memory is refused only where
    /// room is lacking, and then some is lacking still.
    pub fn reserve(&mut self, a: u32, n: u32) -> Result<(), NoMemory>
        ensures same { memory_of self.new ≡ memory_of self.old }
        ensures ok { OnOk result (HasRoom self.new a n) }
        ensures needed { OnErr result (0 < n) }
        ensures lacking { OnErr result (HasRoom self.old a n → ⊥) }
        ensures still_lacking { OnErr result (HasRoom self.new a n → ⊥) }
        ensures keeps { KeepsRoom self.old self.new }
        ensures only { AddsRoomOnly self.old self.new a n }
    {
        self.pages.reserve_run(a, n as usize)
    }

    /// Whether there is room for the byte at `a`, and so for those of its page.
    pub fn has_room(&self, a: u32) -> bool
        ensures { IsTrue result ↔ IsReserved self.now a }
    {
        self.pages.has_byte(a)
    }

    /// The byte at `a`; 0 in the port page.
    pub fn byte(&self, a: u32) -> u8
        ensures { result ≡ (memory_of self.now).bytes a }
    {
        self.pages.byte(a)
    }

    /// Whether the region of `a` is big-endian.
    fn is_big_at(&self, a: u32) -> bool
        ensures { result ≡ is_big (memory_of self.now) (region_of a) }
    {
        self.big(region_of(a))
    }

    /// The two bytes from `a` up, in the order of the region of `a`.
    #[tactic(auto, unfolding(crate::specs::Memory::memory_of, i9_model::specs::Memory::half_in))]
    pub fn half(&self, a: u32) -> u16
        ensures { result ≡ half_in (memory_of self.now) a }
    {
        half_of(self.is_big_at(a), self.pages.two(a))
    }

    /// Four bytes as a word, in the order of the region of `a`.
    fn ordered(&self, a: u32, bytes: [u8; 4]) -> u32
        ensures { result ≡ ordered_word (memory_of self.now) a bytes }
    {
        word_of(self.is_big_at(a), bytes)
    }

    /// The four bytes from `a` up, in the order of the region of `a`.
    #[inline(always)]
    #[tactic(auto, unfolding(crate::specs::Memory::memory_of, i9_model::specs::Memory::word_in))]
    pub fn word(&self, a: u32) -> u32
        ensures { result ≡ word_in (memory_of self.now) a }
    {
        self.ordered(a, self.pages.four(a))
    }

    /// Words from `a` up that one page has.
    fn page_words<const N: usize>(&self, a: u32, page: &Page) -> [u32; N]
        requires page { page_of self.now.pages (a / 256) ≡ Some page.now }
        requires within { a % 256 + 4 * N ≤ 256 }
        ensures { result ≡ words_in (memory_of self.now) a N }
    {
        let place = (a % PAGE_SIZE) as usize;
        let mut words = [0; N];
        for k in 0..N {
            words[k] = self.ordered(a, page.four(place + 4 * k));
        }
        words
    }

    /// Words from `a` up, one by one.
    fn words_apart<const N: usize>(&self, a: u32) -> [u32; N]
        requires { N ≤ 64 }
        ensures { result ≡ words_in (memory_of self.now) a N }
    {
        let mut words = [0; N];
        for k in 0..N {
            words[k] = self.word(a.wrapping_add(4 * k as u32));
        }
        words
    }

    /// Words from `a` up, each in the order of its own region; at most 64.
    pub fn words<const N: usize>(&self, a: u32) -> [u32; N]
        requires { N ≤ 64 }
        ensures { result ≡ words_in (memory_of self.now) a N }
    {
        match self.pages.page_of(a, 4 * N) {
            None => self.words_apart(a),
            Some(page) => self.page_words(a, page),
        }
    }

    /// Stores bytes from `a` up, but for those in the port page.
    pub fn store(&mut self, a: u32, bytes: &[u8])
        requires { HasRoom self.old a (length bytes.now) }
        ensures bytes { memory_of self.new ≡ with_bytes (memory_of self.old) a bytes.now }
        ensures keeps { KeepsRoom self.old self.new }
        ensures no_more { KeepsRoom self.new self.old }
    {
        self.pages.store(a, bytes);
    }

    /// Makes room for bytes from `a` up, and stores them, but for those in the port page. Memory is
    /// refused only where room is lacking, and then no byte changes.
    pub fn load(&mut self, a: u32, bytes: &[u8]) -> Result<(), NoMemory>
        ensures ok { OnOk result (memory_of self.new ≡ with_bytes (memory_of self.old) a bytes.now) }
        ensures same { OnErr result (memory_of self.new ≡ memory_of self.old) }
        ensures lacking { OnErr result (HasRoom self.old a (length bytes.now) → ⊥) }
        ensures keeps { KeepsRoom self.old self.new }
        ensures only { AddsRoomOnly self.old self.new a (length bytes.now) }
    {
        self.pages.reserve_run(a, bytes.len())?;
        self.pages.store(a, bytes);
        Ok(())
    }

    /// Stores a byte at `a`, unless it lies in the port page.
    pub fn put_byte(&mut self, a: u32, v: u8)
        requires { HasRoom self.old a 1 }
        ensures bytes { memory_of self.new ≡ with_bytes (memory_of self.old) a (v ∷ []) }
        ensures keeps { KeepsRoom self.old self.new }
        ensures no_more { KeepsRoom self.new self.old }
    {
        self.store(a, &[v]);
    }

    /// The bytes of a half that is stored at `a`, from the lowest address up: in the order of the
    /// region of `a`.
    #[tactic(auto, unfolding(i9_model::specs::Memory::half_bytes))]
    pub fn half_bytes(&self, a: u32, v: u16) -> [u8; 2]
        ensures { result ≡ half_bytes (memory_of self.now) a v }
    {
        bytes_of_half(self.is_big_at(a), v)
    }

    /// Stores a half from `a` up in the order of the region of `a`, but for bytes in the port page.
    pub fn put_half(&mut self, a: u32, v: u16)
        requires { HasRoom self.old a 2 }
        ensures bytes { memory_of self.new ≡ with_bytes (memory_of self.old) a (half_bytes (memory_of self.old) a v) }
        ensures keeps { KeepsRoom self.old self.new }
        ensures no_more { KeepsRoom self.new self.old }
    {
        let bytes = self.half_bytes(a, v);
        self.store(a, &bytes);
    }

    /// The bytes of a word that is stored at `a`, from the lowest address up: in the order of the
    /// region of `a`.
    #[tactic(auto, unfolding(i9_model::specs::Memory::word_bytes))]
    pub fn word_bytes(&self, a: u32, v: u32) -> [u8; 4]
        ensures { result ≡ word_bytes (memory_of self.now) a v }
    {
        bytes_of_word(self.is_big_at(a), v)
    }

    /// Stores a word from `a` up in the order of the region of `a`, but for bytes in the port page.
    pub fn put_word(&mut self, a: u32, v: u32)
        requires { HasRoom self.old a 4 }
        ensures bytes { memory_of self.new ≡ with_bytes (memory_of self.old) a (word_bytes (memory_of self.old) a v) }
        ensures keeps { KeepsRoom self.old self.new }
        ensures no_more { KeepsRoom self.new self.old }
    {
        let bytes = self.word_bytes(a, v);
        self.store(a, &bytes);
    }

    /// Stores words from `a` up, each in the order of its own region, but for bytes in the port page.
    #[tactic(auto, using(crate::proofs::WordRuns::words_rules))]
    pub fn put_words(&mut self, a: u32, words: &[u32])
        requires { HasRoom self.old a (4 * length words.now) }
        ensures bytes { memory_of self.new ≡ with_words (memory_of self.old) a words.now }
        ensures keeps { KeepsRoom self.old self.new }
        ensures no_more { KeepsRoom self.new self.old }
    {
        let mut at = a;
        for w in words {
            self.put_word(at, *w);
            at = at.wrapping_add(4);
        }
    }

    /// Gives a region another configuration word.
    pub fn configure(&mut self, region: u8, mcon: u32)
        requires { region < 16 }
        ensures word { memory_of self.new ≡ with_mcon (memory_of self.old) region mcon }
        ensures keeps { KeepsRoom self.old self.new }
        ensures no_more { KeepsRoom self.new self.old }
    {
        self.mcon[region as usize] = mcon;
    }

    /// Whether a region is big-endian, which bit 22 of its configuration word says.
    pub fn big(&self, region: u8) -> bool
        requires { region < 16 }
        ensures { result ≡ is_big (memory_of self.now) region }
    {
        (self.mcon[region as usize] >> 22) % 2 == 1
    }

    /// How many turns a region waits at a read, which bits 3 to 7 of its configuration word say, or
    /// at a write, which bits 12 to 16 say.
    pub fn waits(&self, region: u8, write: bool) -> u64
        requires { region < 16 }
        ensures { result ≡ waits_of (memory_of self.now) region write }
    {
        let low = if write { 12 } else { 3 };
        u64::from((self.mcon[region as usize] >> low) % 32)
    }
}
