//! Memory behind the held frames, with the requests that wait.

ghost use Rattle.std.specs.Prelude.{◌≡◌, ◌*◌, ◌<◌, ◌≤◌, ◌↔◌, ◌∷◌, ◌++◌, [], IsTrue, length, IfOk, OnOk, OnErr};
ghost use Rattle.std.specs.List.{AllByRecursion};
ghost use Rattle.std.specs.Borrow.{sem};
ghost use Rattle.i9_memory.specs.Memory.{memory_of, HasRoom, KeepsRoom};
ghost use Rattle.i9_model.specs.Memory.{with_bytes, with_words, with_mcon, is_big, waits_of, stored};
ghost use Rattle.i9_model.specs.Memory.{half_in, word_in, words_in, half_bytes, word_bytes};
ghost use Rattle.i9_model.specs.Late.{AreDueInOrder, due_puts, left_waiting, all_puts};
ghost use Rattle.i9_queue.specs.Queue.{wait_in};
ghost use Rattle.i9_queue.specs.Waits.{HasRoomFor, HasRoomFor-prop, AreDueInOrder-prop, with_puts};

use crate::queue::{Queue, Request};
use i9_isa::NoMemory;
use i9_memory::Memory;

/// The memory behind the held frames, and the requests that wait to be stored in it. There is room
/// for all of them, and they are due in order.
#[derive(Drop)]
pub struct Behind {
    memory: Memory,
    queue: Queue,
    ghost room: { HasRoomFor memory (all_puts queue) } by { HasRoomFor-prop memory (all_puts queue) },
    ghost order: { AreDueInOrder queue } by { AreDueInOrder-prop queue },
}

/// Stores the requests that are due by `turn`.
#[inline(always)]
fn land_all(memory: &mut Memory, queue: &mut Queue, turn: u64)
    requires room { HasRoomFor memory.old (all_puts queue.old) }
    requires order { AreDueInOrder queue.old }
    ensures memory { memory_of memory.new ≡ with_puts (memory_of memory.old) (due_puts turn queue.old) }
    ensures queue { queue.new ≡ left_waiting turn queue.old }
    ensures room { HasRoomFor memory.new (all_puts queue.new) }
    ensures order { AreDueInOrder queue.new }
    ensures keeps { KeepsRoom memory.old memory.new }
    ensures no_more { KeepsRoom memory.new memory.old }
{
    while let Some(r) = queue.first_due(turn) {
        memory.store(r.address, r.bytes.as_slice());
        queue.drop_first();
    }
}

#[tactic(auto, unfolding(crate::specs::Behind::settled), using(crate::proofs::Drained::drained_rules, crate::proofs::Settled::room_kept))]
impl Behind {
    ghost use Rattle.i9_queue.specs.Behind.{settled, acted, waiting_of, HasRoomIn, KeepsRoomIn, AddsRoomOnlyIn};
    ghost use Rattle.i9_queue.specs.Lending.{LendsMemory};

    /// Nothing waits.
    pub fn new(memory: Memory) -> Behind
        ensures settled { settled result ≡ memory_of memory }
        ensures acted { acted result ≡ memory_of memory }
        ensures queue { waiting_of result ≡ [] }
        ensures room { KeepsRoom memory result.memory }
        ensures no_more { KeepsRoom result.memory memory }
    {
        Behind {
            memory,
            queue: Queue::new(),
        }
    }

    /// The same memory with the same requests, and room for the same bytes.
    pub fn copy(&self) -> Result<Behind, NoMemory>
        ensures settled { IfOk result (λ b. settled b ≡ settled self.now) }
        ensures acted { IfOk result (λ b. acted b ≡ acted self.now) }
        ensures queue { IfOk result (λ b. waiting_of b ≡ waiting_of self.now) }
        ensures keeps { IfOk result (λ b. KeepsRoomIn self.now b) }
        ensures no_more { IfOk result (λ b. KeepsRoomIn b self.now) }
    {
        Ok(Behind {
            memory: self.memory.copy()?,
            queue: self.queue.copy(),
        })
    }

    /// Whether nothing waits.
    pub fn is_drained(&self) -> bool
        ensures { IsTrue result ↔ (waiting_of self.now ≡ []) }
    {
        self.queue.is_empty()
    }

    /// Makes room for `n` bytes from `a` up, and for no others but those of their pages. Memory is refused only where
    /// room is lacking, and then some is lacking still.
    pub fn reserve(&mut self, a: u32, n: u32) -> Result<(), NoMemory>
        ensures settled { settled self.new ≡ settled self.old }
        ensures acted { acted self.new ≡ acted self.old }
        ensures queue { waiting_of self.new ≡ waiting_of self.old }
        ensures ok { OnOk result (HasRoomIn self.new a n) }
        ensures needed { OnErr result (0 < n) }
        ensures lacking { OnErr result (HasRoomIn self.old a n → ⊥) }
        ensures still_lacking { OnErr result (HasRoomIn self.new a n → ⊥) }
        ensures keeps { KeepsRoomIn self.old self.new }
        ensures only { AddsRoomOnlyIn self.old self.new a n }
    {
        self.memory.reserve(a, n)
    }

    /// A request waits, behind the others and due no earlier; there is room for its bytes.
    #[inline(always)]
    #[tactic(auto, unfolding(crate::specs::Behind::settled), using(crate::proofs::Enqueued::wait_rules))]
    pub fn enqueue(&mut self, request: Request)
        requires few { length (waiting_of self.old) < 3 }
        requires room { HasRoomIn self.old request.address (length request.bytes.items) }
        requires order { AllByRecursion (λ w. w.due ≤ request.due) (waiting_of self.old) }
        ensures acted { acted self.new ≡ acted self.old }
        ensures queue { waiting_of self.new ≡ waiting_of self.old ++ wait_in request ∷ [] }
        ensures settled { settled self.new ≡ with_bytes (settled self.old) request.address request.bytes.items }
        ensures keeps { KeepsRoomIn self.old self.new }
        ensures no_more { KeepsRoomIn self.new self.old }
    {
        self.queue.put(request);
    }

    /// Stores what is due by `turn`. After all that waits memory is as it was.
    #[inline(always)]
    #[tactic(auto, unfolding(crate::specs::Behind::settled), using(crate::proofs::Settled::land_rules))]
    pub fn land(&mut self, turn: u64)
        ensures settled { settled self.new ≡ settled self.old }
        ensures bytes { (acted self.new).bytes ≡ stored (acted self.old).bytes (due_puts turn (waiting_of self.old)) }
        ensures queue { waiting_of self.new ≡ left_waiting turn (waiting_of self.old) }
        ensures keeps { KeepsRoomIn self.old self.new }
        ensures no_more { KeepsRoomIn self.new self.old }
    {
        land_all(&mut self.memory, &mut self.queue, turn);
    }

    /// Memory, where nothing waits.
    pub fn memory(&self) -> &Memory
        requires drained { waiting_of self.now ≡ [] }
        ensures { memory_of result.now ≡ settled self.now }
    {
        &self.memory
    }

    /// Memory, to be changed where nothing waits.
    pub fn memory_mut(&mut self) -> &mut Memory
        requires drained { waiting_of self.old ≡ [] }
        ensures* writes_back { sem 𝓛 (LendsMemory self.entry result) }
        ensures value { result.now ≡ self.old.memory }
    {
        &mut self.memory
    }

    /// Stores bytes from `a` up at once, where nothing waits, but for those in the port page.
    pub fn store(&mut self, a: u32, bytes: &[u8])
        requires drained { waiting_of self.old ≡ [] }
        requires room { HasRoomIn self.old a (length bytes.now) }
        ensures settled { settled self.new ≡ with_bytes (settled self.old) a bytes.now }
        ensures acted { acted self.new ≡ with_bytes (acted self.old) a bytes.now }
        ensures queue { waiting_of self.new ≡ waiting_of self.old }
        ensures keeps { KeepsRoomIn self.old self.new }
        ensures no_more { KeepsRoomIn self.new self.old }
    {
        self.memory.store(a, bytes);
    }

    /// Stores words from `a` up at once, where nothing waits: each in the order of its own region, but
    /// for bytes in the port page.
    pub fn put_words(&mut self, a: u32, words: &[u32])
        requires drained { waiting_of self.old ≡ [] }
        requires room { HasRoomIn self.old a (4 * length words.now) }
        ensures settled { settled self.new ≡ with_words (settled self.old) a words.now }
        ensures acted { acted self.new ≡ with_words (acted self.old) a words.now }
        ensures queue { waiting_of self.new ≡ waiting_of self.old }
        ensures keeps { KeepsRoomIn self.old self.new }
        ensures no_more { KeepsRoomIn self.new self.old }
    {
        self.memory.put_words(a, words);
    }

    /// Gives a region another configuration word, where nothing waits.
    pub fn configure(&mut self, region: u8, mcon: u32)
        requires drained { waiting_of self.old ≡ [] }
        requires region { region < 16 }
        ensures settled { settled self.new ≡ with_mcon (settled self.old) region mcon }
        ensures acted { acted self.new ≡ with_mcon (acted self.old) region mcon }
        ensures queue { waiting_of self.new ≡ waiting_of self.old }
        ensures keeps { KeepsRoomIn self.old self.new }
        ensures no_more { KeepsRoomIn self.new self.old }
    {
        self.memory.configure(region, mcon);
    }

    /// The byte at `a`, after all that waits; 0 in the port page.
    pub fn byte(&self, a: u32) -> u8
        ensures { result ≡ (settled self.now).bytes a }
    {
        self.queue.byte(&self.memory, a)
    }

    /// The two bytes from `a` up, in the order of the region of `a`, after all that waits.
    pub fn half(&self, a: u32) -> u16
        ensures { result ≡ half_in (settled self.now) a }
    {
        self.queue.half(&self.memory, a)
    }

    /// The four bytes from `a` up, in the order of the region of `a`, after all that waits.
    #[inline(always)]
    pub fn word(&self, a: u32) -> u32
        ensures { result ≡ word_in (settled self.now) a }
    {
        self.queue.word(&self.memory, a)
    }

    /// Words from `a` up, one by one.
    #[inline(never)]
    fn words_apart<const N: usize>(&self, a: u32) -> [u32; N]
        requires { N ≤ 64 }
        ensures { result ≡ words_in (settled self.now) a N }
    {
        let mut words = [0; N];
        for k in 0..N {
            words[k] = self.queue.word(&self.memory, a.wrapping_add(4 * k as u32));
        }
        words
    }

    /// Words from `a` up, each in the order of its own region, after all that waits; at most 64. Where no
    /// waiting store is to one of them memory has them.
    #[inline(always)]
    pub fn words<const N: usize>(&self, a: u32) -> [u32; N]
        requires { N ≤ 64 }
        ensures { result ≡ words_in (settled self.now) a N }
    {
        if 0 < N && self.queue.is_beside(a, 4 * N as u32) {
            return self.memory.words(a);
        }
        self.words_apart(a)
    }

    /// The byte at `a` that memory holds already, whatever waits; 0 in the port page.
    pub fn acted_byte(&self, a: u32) -> u8
        ensures { result ≡ (acted self.now).bytes a }
    {
        self.memory.byte(a)
    }

    /// Whether a region, 0 to 15, is big-endian.
    pub fn big(&self, region: u8) -> bool
        requires { region < 16 }
        ensures { result ≡ is_big (settled self.now) region }
    {
        self.memory.big(region)
    }

    /// How many turns a region waits at a read, or at a write.
    pub fn waits(&self, region: u8, write: bool) -> u64
        requires { region < 16 }
        ensures { result ≡ waits_of (settled self.now) region write }
    {
        self.memory.waits(region, write)
    }

    /// The bytes of a half that is stored at `a`, from the lowest address up: in the order of the
    /// region of `a`.
    #[tactic(auto, unfolding(crate::specs::Behind::settled, i9_model::specs::Memory::half_bytes))]
    pub fn half_bytes(&self, a: u32, v: u16) -> [u8; 2]
        ensures { result ≡ half_bytes (settled self.now) a v }
    {
        self.memory.half_bytes(a, v)
    }

    /// The bytes of a word that is stored at `a`, from the lowest address up: in the order of the
    /// region of `a`.
    #[tactic(auto, unfolding(crate::specs::Behind::settled, i9_model::specs::Memory::word_bytes))]
    pub fn word_bytes(&self, a: u32, v: u32) -> [u8; 4]
        ensures { result ≡ word_bytes (settled self.now) a v }
    {
        self.memory.word_bytes(a, v)
    }
}
