//! Bytes by address, in pages.
ghost use Rattle.std.specs.Prelude.{◌≡◌, ◌≢◌, ℕ, ◌+◌, ◌/◌, ◌%◌, ◌^◌, ◌<◌, ◌≤◌, ◌↔◌, ◌∷◌, [], IsTrue, OnOk, OnErr, IfOk};
ghost use Rattle.std.specs.Prelude.{IfSome, Some, length};
ghost use Rattle.i9_model.specs.Writes.{wrapped, written, pairs_at, upwards};
ghost use Rattle.i9_model.specs.Memory.{stored};

use crate::PageTable;
use i9_isa::NoMemory;
use i9_model::in_port_page;
use std::alloc::{AllocError, Global};

/// How many bytes a page has.
pub(crate) const PAGE_SIZE: u32 = 256;

/// The bytes of a page.
#[derive(Drop)]
pub(crate) struct Page {
    bytes: Box<[u8; 256]>,
}

impl Clone for Page {
    ghost is_clone = { λ p q. q.bytes.value ≡ p.bytes.value };

    fn clone(&self) -> Result<Page, AllocError> {
        let bytes = Box::new(*Box::allocator(&self.bytes), *self.bytes)?;
        Ok(Page { bytes })
    }
}

impl Page {
    ghost use Rattle.i9_memory.specs.Pages.{byte_in};

    /// The four bytes from a place up.
    pub(crate) fn four(&self, place: usize) -> [u8; 4]
        requires { place + 4 ≤ 256 }
        ensures { result ≡ byte_in (Some self.now) place ∷ byte_in (Some self.now) (place + 1)
            ∷ byte_in (Some self.now) (place + 2) ∷ byte_in (Some self.now) (place + 3) ∷ [] }
    {
        [
            self.bytes[place],
            self.bytes[place + 1],
            self.bytes[place + 2],
            self.bytes[place + 3],
        ]
    }

    /// Writes bytes from a place up.
    #[inline(always)]
    fn store_all(&mut self, place: usize, bytes: &[u8])
        requires { place + length bytes.now ≤ 256 }
        ensures { byte_in (Some self.new) ≡ written (byte_in (Some self.old)) (pairs_at (λ k. k) place bytes.now) }
    {
        self.bytes[place..place + bytes.len()].copy_from_slice(bytes);
    }

    /// The same. A byte, a word and four words have code of their own, since a copy is a move or two where its length
    /// is known.
    #[inline(always)]
    #[tactic(auto, using(crate::proofs::Runs::first_rules))]
    fn store(&mut self, place: usize, bytes: &[u8])
        requires { place + length bytes.now ≤ 256 }
        ensures { byte_in (Some self.new) ≡ written (byte_in (Some self.old)) (pairs_at (λ k. k) place bytes.now) }
    {
        match bytes.len() {
            1 => self.store_all(place, &bytes[..1]),
            4 => self.store_all(place, &bytes[..4]),
            16 => self.store_all(place, &bytes[..16]),
            _ => self.store_all(place, bytes),
        }
    }
}

/// How many of `n` bytes from an address up its page has.
fn run_length(a: u32, n: usize) -> usize
    requires { 0 < n }
    ensures some { 0 < result }
    ensures within { a % 256 + result ≤ 256 }
    ensures enough { result ≤ n }
{
    n.min((PAGE_SIZE - a % PAGE_SIZE) as usize)
}

/// Pages by number. The bytes of a page that is lacking are 0.
#[derive(Drop)]
pub(crate) struct Pages {
    alloc: Global,
    pages: PageTable<Page>,
}

impl Pages {
    ghost use Rattle.i9_memory.specs.Pages.{byte_of, page_of, HasPage, HasByte, KeepsPages, AddsOnly};

    /// All bytes are 0, and there is no page.
    pub(crate) fn new(alloc: Global) -> Pages
        ensures bytes { byte_of result ≡ (λ _. 0) }
        ensures none { (p : ℕ) → HasPage result p → ⊥ }
    {
        Pages {
            alloc,
            pages: PageTable::new(alloc),
        }
    }

    /// The same bytes, with room for the same ones.
    pub(crate) fn copy(&self) -> Result<Pages, NoMemory>
        ensures bytes { IfOk result (λ m. byte_of m ≡ byte_of self.now) }
        ensures room { IfOk result (λ m. KeepsPages self.now m) }
        ensures no_more { IfOk result (λ m. KeepsPages m self.now) }
    {
        let pages = self.pages.copy()?;
        Ok(Pages {
            alloc: self.alloc,
            pages,
        })
    }

    /// Whether there is room for a byte.
    pub(crate) fn has_byte(&self, a: u32) -> bool
        ensures { IsTrue result ↔ HasByte self.now a }
    {
        self.pages.contains(a / PAGE_SIZE)
    }

    /// The byte at an address.
    pub(crate) fn byte(&self, a: u32) -> u8
        ensures { result ≡ byte_of self.now a }
    {
        match self.pages.get(a / PAGE_SIZE) {
            None => 0,
            Some(page) => page.bytes[(a % PAGE_SIZE) as usize],
        }
    }

    /// The two bytes from an address up, one by one.
    #[inline(never)]
    fn two_apart(&self, a: u32) -> [u8; 2]
        ensures { result ≡ byte_of self.now a ∷ byte_of self.now (wrapped (a + 1)) ∷ [] }
    {
        [self.byte(a), self.byte(a.wrapping_add(1))]
    }

    /// The two bytes from an address up.
    pub(crate) fn two(&self, a: u32) -> [u8; 2]
        ensures { result ≡ byte_of self.now a ∷ byte_of self.now (wrapped (a + 1)) ∷ [] }
    {
        let place = (a % PAGE_SIZE) as usize;
        if place > 254 {
            return self.two_apart(a);
        }
        match self.pages.get(a / PAGE_SIZE) {
            None => [0; 2],
            Some(page) => [page.bytes[place], page.bytes[place + 1]],
        }
    }

    /// The four bytes from an address up, one by one.
    #[inline(never)]
    fn four_apart(&self, a: u32) -> [u8; 4]
        ensures { result ≡ byte_of self.now a ∷ byte_of self.now (wrapped (a + 1)) ∷ byte_of self.now (wrapped (a + 2))
            ∷ byte_of self.now (wrapped (a + 3)) ∷ [] }
    {
        [
            self.byte(a),
            self.byte(a.wrapping_add(1)),
            self.byte(a.wrapping_add(2)),
            self.byte(a.wrapping_add(3)),
        ]
    }

    /// The four bytes from an address up.
    #[inline(always)]
    pub(crate) fn four(&self, a: u32) -> [u8; 4]
        ensures { result ≡ byte_of self.now a ∷ byte_of self.now (wrapped (a + 1)) ∷ byte_of self.now (wrapped (a + 2))
            ∷ byte_of self.now (wrapped (a + 3)) ∷ [] }
    {
        let place = (a % PAGE_SIZE) as usize;
        if place > 252 {
            return self.four_apart(a);
        }
        match self.pages.get(a / PAGE_SIZE) {
            None => [0; 4],
            Some(page) => page.four(place),
        }
    }

    /// The page that has all of `n` bytes from an address up, where there is one.
    pub(crate) fn page_of(&self, a: u32, n: usize) -> Option<&Page>
        requires { n ≤ 256 }
        ensures page { IfSome result (λ p. page_of self.now (a / 256) ≡ Some p.now) }
        ensures within { IfSome result (λ p. a % 256 + n ≤ 256) }
    {
        if (a % PAGE_SIZE) as usize + n > PAGE_SIZE as usize {
            return None;
        }
        self.pages.get(a / PAGE_SIZE)
    }

    /// Adds a page of zeros where there is none of its number.
    #[inline(never)]
    fn add_page(&mut self, number: u32) -> Result<(), NoMemory>
        requires small { number < 2 ^ 24 }
        requires lacking { HasPage self.old number → ⊥ }
        ensures same { byte_of self.new ≡ byte_of self.old }
        ensures ok { OnOk result (HasPage self.new number) }
        ensures still_lacking { OnErr result (HasPage self.new number → ⊥) }
        ensures keeps { KeepsPages self.old self.new }
        ensures only { (p : ℕ) → p ≢ number → HasPage self.new p → HasPage self.old p }
    {
        let bytes = match Box::new(self.alloc, [0; 256]) {
            Ok(bytes) => bytes,
            Err(_) => return Err(NoMemory),
        };
        self.pages.insert(number, Page { bytes })?;
        Ok(())
    }

    /// Makes room for the page of a byte.
    pub(crate) fn reserve(&mut self, a: u32) -> Result<(), NoMemory>
        ensures same { byte_of self.new ≡ byte_of self.old }
        ensures ok { OnOk result (HasByte self.new a) }
        ensures lacking { OnErr result (HasByte self.old a → ⊥) }
        ensures still_lacking { OnErr result (HasByte self.new a → ⊥) }
        ensures keeps { KeepsPages self.old self.new }
        ensures only { (p : ℕ) → p ≢ a / 256 → HasPage self.new p → HasPage self.old p }
    {
        let number = a / PAGE_SIZE;
        if self.pages.contains(number) {
            return Ok(());
        }
        self.add_page(number)
    }

    /// Makes room for `n` bytes from an address up, a page at a time.
    // Few runs lie in several pages, or in one that is lacking.
    #[inline(never)]
    fn reserve_across(&mut self, a: u32, n: usize) -> Result<(), NoMemory>
        ensures same { byte_of self.new ≡ byte_of self.old }
        ensures ok { OnOk result ((k : ℕ) → k < n → HasByte self.new (wrapped (a + k))) }
        ensures needed { OnErr result (0 < n) }
        ensures lacking { OnErr result (((k : ℕ) → k < n → HasByte self.old (wrapped (a + k))) → ⊥) }
        ensures still_lacking { OnErr result (((k : ℕ) → k < n → HasByte self.new (wrapped (a + k))) → ⊥) }
        ensures keeps { KeepsPages self.old self.new }
        ensures only { AddsOnly self.old self.new a n }
    {
        let mut at = a;
        let mut done = 0;
        while done < n {
            self.reserve(at)?;
            let run = run_length(at, n - done);
            at = at.wrapping_add(run as u32);
            done += run;
        }
        Ok(())
    }

    /// Makes room for `n` bytes from an address up. Where one page has them, and is there, that is all.
    #[inline(always)]
    pub(crate) fn reserve_run(&mut self, a: u32, n: usize) -> Result<(), NoMemory>
        ensures same { byte_of self.new ≡ byte_of self.old }
        ensures ok { OnOk result ((k : ℕ) → k < n → HasByte self.new (wrapped (a + k))) }
        ensures needed { OnErr result (0 < n) }
        ensures lacking { OnErr result (((k : ℕ) → k < n → HasByte self.old (wrapped (a + k))) → ⊥) }
        ensures still_lacking { OnErr result (((k : ℕ) → k < n → HasByte self.new (wrapped (a + k))) → ⊥) }
        ensures keeps { KeepsPages self.old self.new }
        ensures only { AddsOnly self.old self.new a n }
    {
        if n <= (PAGE_SIZE - a % PAGE_SIZE) as usize && self.pages.contains(a / PAGE_SIZE) {
            return Ok(());
        }
        self.reserve_across(a, n)
    }

    /// Writes bytes that one page has, for which there is room, from an address up. The port page is
    /// some of these pages, and keeps its bytes.
    #[inline(always)]
    fn store_run(&mut self, a: u32, bytes: &[u8])
        requires room { HasByte self.old a }
        requires within { a % 256 + length bytes.now ≤ 256 }
        ensures bytes { byte_of self.new ≡ stored (byte_of self.old) (upwards a bytes.now) }
        ensures keeps { KeepsPages self.old self.new }
        ensures no_more { KeepsPages self.new self.old }
    {
        if in_port_page(a) {
            return;
        }
        if let Some(page) = self.pages.get_mut(a / PAGE_SIZE) {
            page.store((a % PAGE_SIZE) as usize, bytes);
        }
    }

    /// Writes bytes for which there is room from an address up, but for those in the port page, a page at a time.
    // Few runs lie in several pages.
    #[inline(never)]
    fn store_across(&mut self, a: u32, bytes: &[u8])
        requires { (k : ℕ) → k < length bytes.now → HasByte self.old (wrapped (a + k)) }
        ensures bytes { byte_of self.new ≡ stored (byte_of self.old) (upwards a bytes.now) }
        ensures keeps { KeepsPages self.old self.new }
        ensures no_more { KeepsPages self.new self.old }
    {
        let mut at = a;
        let mut rest = bytes;
        while !rest.is_empty() {
            let (run, later) = rest.split_at(run_length(at, rest.len()));
            self.store_run(at, run);
            at = at.wrapping_add(run.len() as u32);
            rest = later;
        }
    }

    /// Writes bytes for which there is room from an address up, but for those in the port page.
    pub(crate) fn store(&mut self, a: u32, bytes: &[u8])
        requires { (k : ℕ) → k < length bytes.now → HasByte self.old (wrapped (a + k)) }
        ensures bytes { byte_of self.new ≡ stored (byte_of self.old) (upwards a bytes.now) }
        ensures keeps { KeepsPages self.old self.new }
        ensures no_more { KeepsPages self.new self.old }
    {
        if bytes.len() > (PAGE_SIZE - a % PAGE_SIZE) as usize {
            self.store_across(a, bytes);
        } else if !bytes.is_empty() {
            self.store_run(a, bytes);
        }
    }
}
