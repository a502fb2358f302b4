//! Words that were read before, by their address.
ghost use Rattle.std.specs.Prelude.{◌≡◌, ℕ, ◌+◌, ◌*◌, ◌-◌, ◌/◌, ◌%◌, ◌^◌, ◌<◌, ◌≤◌, ◌⊎◌, true, IfOk, IfSome};
ghost use Rattle.i9_model.specs.Writes.{wrapped};
ghost use Rattle.i9_storage.specs.Places.{IsNamed, AreWithin, IsBeside};

use i9_isa::NoMemory;
use std::alloc::Global;

/// How many words are kept. Those of a loop of so many words have each a place of its own.
const PLACES: usize = 256;

/// No word has this address.
const NOWHERE: u64 = 1 << 32;

/// The most bytes of a run whose words are looked for one by one.
const LONGEST_RUN: u32 = 64;

/// Words, and the address of each, or `NOWHERE` where there is no word.
#[derive(Drop)]
struct Places {
    addresses: [u64; 256],
    words: [u32; 256],
}

/// Words, each at a place by its address, and the addresses between which all of them lie.
#[derive(Drop)]
pub(crate) struct Words {
    places: Box<Places>,
    low: u64,
    end: u64,
    ghost within: { AreWithin places.value.addresses low end },
}

/// The place of the word at an address.
fn place_of(a: u32) -> usize
    ensures { result ≡ a / 4 % 256 }
{
    (a / 4) as usize % PLACES
}

impl Words {
    ghost use Rattle.i9_storage.specs.Words.{Keeps, KeepsNoOther, KeepsNone};

    /// No word is kept.
    pub(crate) fn new(alloc: Global) -> Result<Words, NoMemory>
        ensures { IfOk result KeepsNone }
    {
        let places = Places {
            addresses: [NOWHERE; 256],
            words: [0; 256],
        };
        match Box::new(alloc, places) {
            Ok(places) => Ok(Words {
                places,
                low: NOWHERE,
                end: 0,
            }),
            Err(_) => Err(NoMemory),
        }
    }

    /// The word at an address, where it is kept.
    #[inline(always)]
    pub(crate) fn get(&self, a: u32) -> Option<u32>
        ensures { IfSome result (Keeps self.now a) }
    {
        let k = place_of(a);
        if self.places.addresses[k] == u64::from(a) {
            Some(self.places.words[k])
        } else {
            None
        }
    }

    /// Keeps a word in place of another one, where its address is a multiple of 4.
    pub(crate) fn put(&mut self, a: u32, word: u32)
        ensures { (x v : ℕ) → Keeps self.new x v → ((x ≡ a) × (v ≡ word)) ⊎ Keeps self.old x v }
    {
        if a % 4 != 0 {
            return;
        }
        let k = place_of(a);
        let address = u64::from(a);
        self.low = self.low.min(address);
        self.end = self.end.max(address + 4);
        self.places.addresses[k] = address;
        self.places.words[k] = word;
    }

    /// The word at an address is not kept any more.
    fn forget_word(&mut self, a: u32)
        ensures others { KeepsNoOther self.old self.new }
        ensures gone { IsNamed self.new.places.value.addresses a → ⊥ }
    {
        let k = place_of(a);
        if self.places.addresses[k] == u64::from(a) {
            self.places.addresses[k] = NOWHERE;
        }
    }

    /// No word is kept any more.
    #[inline(never)]
    pub(crate) fn forget_all(&mut self)
        ensures { KeepsNone self.new }
    {
        self.places.addresses.fill(NOWHERE);
        self.low = NOWHERE;
        self.end = 0;
    }

    /// Whether all words that are kept lie beside the addresses from one on and below another.
    #[inline(always)]
    fn lie_beside(&self, from: u64, to: u64) -> bool
        ensures { result ≡ true → (to ≤ self.now.low) ⊎ ((self.now.end ≤ from) × (to ≤ 2 ^ 32)) }
    {
        to <= self.low || from >= self.end && to <= NOWHERE
    }

    /// No word with one of so many bytes is kept any more.
    #[inline(never)]
    fn forget_words(&mut self, a: u32, n: u32)
        ensures { (x v : ℕ) → Keeps self.new x v → Keeps self.old x v × IsBeside a n x }
    {
        if n > LONGEST_RUN {
            self.forget_all();
            return;
        }
        let first = a - a % 4;
        for k in 0..(a % 4 + n + 3) / 4 {
            self.forget_word(first.wrapping_add(4 * k));
        }
    }

    /// The same. Most runs lie apart from all words that are kept.
    #[inline(always)]
    pub(crate) fn forget(&mut self, a: u32, n: u32)
        ensures { (x v : ℕ) → Keeps self.new x v → Keeps self.old x v × IsBeside a n x }
    {
        let from = u64::from(a);
        if !self.lie_beside(from, from + u64::from(n)) {
            self.forget_words(a, n);
        }
    }
}
