//! The marks of all addresses.
ghost use Rattle.std.specs.Prelude.{◌≡◌, ◌≢◌, ℕ, ◌+◌, ◌/◌, ◌%◌, ◌^◌, ◌<◌, ◌≤◌, ◌*◌, ◌⊎◌, ◌==◌, ◌↔◌, if◌then◌else◌};
ghost use Rattle.std.specs.Prelude.{◌&&◌, not, true, false, IsTrue, IfOk, OnOk, OnErr};
ghost use Rattle.i9_model.specs.Writes.{wrapped};
ghost use Rattle.i9_model.specs.Frames.{in_bytes, in_frames};

use crate::page::{Change, Mark, PAGE_SIZE, Page};
use i9_isa::NoMemory;
use i9_memory::PageTable;
use i9_model::layout::FRAME_SIZE;
use std::alloc::Global;
use std::collections::VecDeque;

/// Pages by number. No address of a page that is lacking is marked.
#[derive(Drop)]
pub(crate) struct Marks {
    alloc: Global,
    pages: PageTable<Page>,
}

/// How many of so many addresses from one on lie in its page.
fn count_in_page(a: u32, n: u32) -> u32
    ensures most { result ≤ n }
    ensures some { 0 < n → 0 < result }
    ensures within { a % 256 + result ≤ 256 }
    ensures blocks { a % 16 ≡ 0 → n % 16 ≡ 0 → result % 16 ≡ 0 }
{
    n.min(PAGE_SIZE - a % PAGE_SIZE)
}

impl Marks {
    ghost use Rattle.i9_watch.specs.Marks.{is_marked, changed_run, changed_where, HasPage, HasRoom, HasRunRoom};
    ghost use Rattle.i9_watch.specs.Marks.{KeepsPages, AddsOnly};
    ghost use Rattle.i9_watch.specs.Page.{is_blockwise, sets_marks};
    ghost use Rattle.i9_watch.specs.Bits.{bits_of, in_runs};
    ghost use Rattle.i9_watch.specs.Live.{AreAligned};

    /// No address is marked, and there is no page.
    pub(crate) fn new(alloc: Global) -> Marks
        ensures marks { (m : Mark) → is_marked m result ≡ (λ _. false) }
        ensures none { (p : ℕ) → HasPage result p → ⊥ }
    {
        Marks {
            alloc,
            pages: PageTable::new(alloc),
        }
    }

    /// The same marks, with room for the same ones.
    #[tactic(auto, using(crate::proofs::Marking::copied_marks, crate::proofs::Marking::same_values))]
    pub(crate) fn copy(&self) -> Result<Marks, NoMemory>
        ensures marks { IfOk result (λ s. (m : Mark) → is_marked m s ≡ is_marked m self.now) }
        ensures room { IfOk result (λ s. KeepsPages self.now s) }
        ensures no_more { IfOk result (λ s. KeepsPages s self.now) }
    {
        let pages = self.pages.copy()?;
        Ok(Marks {
            alloc: self.alloc,
            pages,
        })
    }

    /// Whether an address can be marked.
    pub(crate) fn has_room(&self, a: u32) -> bool
        ensures { IsTrue result ↔ HasRoom self.now a }
    {
        self.pages.contains(a / PAGE_SIZE)
    }

    /// Whether an address has a mark.
    pub(crate) fn is_marked(&self, mark: Mark, a: u32) -> bool
        ensures { result ≡ is_marked mark self.now a }
    {
        match self.pages.get(a / PAGE_SIZE) {
            None => false,
            Some(page) => page.has(mark, a % PAGE_SIZE),
        }
    }

    /// Whether one of so many addresses of a page has a mark.
    #[inline(always)]
    fn has_any_in_page(&self, mark: Mark, a: u32, n: u32) -> bool
        requires { a % 256 + n ≤ 256 }
        ensures { result ≡ false → (k : ℕ) → k < n → is_marked mark self.now (wrapped (a + k)) ≡ false }
    {
        match self.pages.get(a / PAGE_SIZE) {
            None => false,
            Some(page) => page.has_any(mark, a % PAGE_SIZE, n),
        }
    }

    /// Whether one of so many addresses from one on has a mark, which may lie in several pages.
    // Few runs do, and this is no part of the code that calls it.
    #[inline(never)]
    fn has_any_across(&self, mark: Mark, a: u32, n: u32) -> bool
        ensures { result ≡ false → (k : ℕ) → k < n → is_marked mark self.now (wrapped (a + k)) ≡ false }
    {
        let mut done = 0;
        while done < n {
            let first = a.wrapping_add(done);
            let count = count_in_page(first, n - done);
            if self.has_any_in_page(mark, first, count) {
                return true;
            }
            done += count;
        }
        false
    }

    /// Whether one of so many addresses from one on has a mark.
    #[inline(always)]
    pub(crate) fn has_any(&self, mark: Mark, a: u32, n: u32) -> bool
        ensures { result ≡ false → (k : ℕ) → k < n → is_marked mark self.now (wrapped (a + k)) ≡ false }
    {
        if n <= PAGE_SIZE - a % PAGE_SIZE {
            self.has_any_in_page(mark, a, n)
        } else {
            self.has_any_across(mark, a, n)
        }
    }

    /// Makes room for the marks of a page.
    fn reserve_page(&mut self, page: u32) -> Result<(), NoMemory>
        requires { page < 2 ^ 24 }
        ensures same { (m : Mark) → is_marked m self.new ≡ is_marked m self.old }
        ensures ok { OnOk result (HasPage self.new page) }
        ensures others { (p : ℕ) → p ≢ page → HasPage self.new p → HasPage self.old p }
        ensures keeps { KeepsPages self.old self.new }
        ensures err { OnErr result (KeepsPages self.new self.old) }
        ensures needed { OnErr result (HasPage self.old page → ⊥) }
    {
        if self.pages.contains(page) {
            return Ok(());
        }
        let marks = Page::new(self.alloc)?;
        self.pages.insert(page, marks)?;
        Ok(())
    }

    /// Takes away the room for the marks of a page, and with it the marks.
    fn remove_page(&mut self, page: u32)
        ensures marks { (m : Mark) (a : ℕ)
            → is_marked m self.new a ≡ (if a / 256 == page then false else is_marked m self.old a) }
        ensures keeps { (p : ℕ) → p ≢ page → HasPage self.old p → HasPage self.new p }
        ensures fewer { KeepsPages self.new self.old }
        ensures removed { HasPage self.new page → ⊥ }
    {
        self.pages.remove(page);
    }

    /// Makes room for the marks of so many addresses from one on.
    pub(crate) fn reserve(&mut self, a: u32, n: u32) -> Result<(), NoMemory>
        requires { n ≤ 64 }
        ensures same { (m : Mark) → is_marked m self.new ≡ is_marked m self.old }
        ensures ok { OnOk result (HasRunRoom self.new a n) }
        ensures keeps { KeepsPages self.old self.new }
        ensures only { AddsOnly self.old self.new a n }
        ensures err { OnErr result (KeepsPages self.new self.old) }
        ensures needed { OnErr result (HasRunRoom self.old a n → ⊥) }
    {
        if n == 0 {
            return Ok(());
        }
        let first = a / PAGE_SIZE;
        let last = a.wrapping_add(n - 1) / PAGE_SIZE;
        if first == last {
            return self.reserve_page(first);
        }
        let is_there = self.pages.contains(first);
        self.reserve_page(first)?;
        if let Err(error) = self.reserve_page(last) {
            if !is_there {
                self.remove_page(first);
            }
            return Err(error);
        }
        Ok(())
    }

    /// Changes the marks of so many addresses of a page. What is done to frames is done to whole blocks.
    fn change_in_page(&mut self, change: Change, a: u32, n: u32)
        requires within { a % 256 + n ≤ 256 }
        requires blocks { is_blockwise change ≡ true → (a % 16 ≡ 0) × (n % 16 ≡ 0) }
        requires room { sets_marks change ≡ true → HasRoom self.old a }
        ensures marks { (m : Mark) → is_marked m self.new ≡ changed_run change m a n (is_marked m self.old) }
        ensures keeps { KeepsPages self.old self.new }
        ensures no_more { KeepsPages self.new self.old }
    {
        if let Some(page) = self.pages.get_mut(a / PAGE_SIZE) {
            page.change(change, a % PAGE_SIZE, n);
        }
    }

    /// Changes the marks of so many addresses from one on. What is done to frames is done to whole blocks.
    pub(crate) fn change(&mut self, change: Change, a: u32, n: u32)
        requires blocks { is_blockwise change ≡ true → (a % 16 ≡ 0) × (n % 16 ≡ 0) }
        requires room { sets_marks change ≡ true → (k : ℕ) → k < n → HasRoom self.old (wrapped (a + k)) }
        ensures marks { (m : Mark) → is_marked m self.new ≡ changed_run change m a n (is_marked m self.old) }
        ensures keeps { KeepsPages self.old self.new }
        ensures no_more { KeepsPages self.new self.old }
    {
        let mut done = 0;
        while done < n {
            let first = a.wrapping_add(done);
            let count = count_in_page(first, n - done);
            self.change_in_page(change, first, count);
            done += count;
        }
    }

    /// Changes the marks of so many addresses from one on that are stored to.
    #[inline(always)]
    pub(crate) fn store(&mut self, a: u32, n: u32)
        ensures marks { (m : Mark) → is_marked m self.new ≡ changed_run Change.Store m a n (is_marked m self.old) }
        ensures keeps { KeepsPages self.old self.new }
        ensures no_more { KeepsPages self.new self.old }
    {
        if n <= PAGE_SIZE - a % PAGE_SIZE {
            self.change_in_page(Change::Store, a, n);
        } else {
            self.change(Change::Store, a, n);
        }
    }

    /// Changes the marks of so many addresses from one on, where this is asked for.
    fn change_if(&mut self, change: Change, a: u32, n: u32, is_asked: bool)
        requires blocks { is_blockwise change ≡ true → (a % 16 ≡ 0) × (n % 16 ≡ 0) }
        requires room { (k : ℕ) → k < n → HasRoom self.old (wrapped (a + k)) }
        ensures marks { (m : Mark) → is_marked m self.new ≡ (if is_asked
            then changed_run change m a n (is_marked m self.old)
            else is_marked m self.old) }
        ensures keeps { KeepsPages self.old self.new }
        ensures no_more { KeepsPages self.new self.old }
    {
        if is_asked {
            self.change(change, a, n);
        }
    }

    /// A byte of a live frame is not soft any more, where it is in no marked word.
    fn harden_byte(&mut self, a: u32)
        ensures soft { is_marked Mark.Soft self.new ≡ (if is_marked Mark.Lost self.old a
            then is_marked Mark.Soft self.old
            else changed_run Change.Store Mark.Soft a 1 (is_marked Mark.Soft self.old)) }
        ensures others { (m : Mark) → m ≢ Mark.Soft → is_marked m self.new ≡ is_marked m self.old }
        ensures keeps { KeepsPages self.old self.new }
        ensures no_more { KeepsPages self.new self.old }
    {
        if !self.is_marked(Mark::Lost, a) {
            self.store(a, 1);
        }
    }

    /// Changes the marks of those of so many runs of addresses, one behind the other from one on, whose bit is set.
    pub(crate) fn change_runs(&mut self, change: Change, a: u32, width: u32, count: u32, bits: u16)
        requires change { (change ≡ Change.Soften) ⊎ (change ≡ Change.Lose) }
        requires few { count ≤ 16 }
        requires most { width * count ≤ 64 }
        requires room { HasRunRoom self.old a (width * count) }
        ensures marks { (m : Mark) → is_marked m self.new ≡ (λ x.
            changed_where change m (in_runs a width (bits_of bits count) x) (is_marked m self.old x)) }
        ensures keeps { KeepsPages self.old self.new }
        ensures no_more { KeepsPages self.new self.old }
    {
        // Most frames are saved with no marked word.
        if bits == 0 {
            return;
        }
        for k in 0..count {
            let is_set = (bits >> k) % 2 == 1;
            self.change_if(change, a.wrapping_add(width * k), width, is_set);
        }
    }

    /// The bytes of a frame that are in no marked word are not soft any more.
    fn harden(&mut self, frame: u32)
        requires { frame % 16 ≡ 0 }
        ensures soft { is_marked Mark.Soft self.new ≡ (λ x.
            is_marked Mark.Soft self.old x
            && not (in_bytes frame FRAME_SIZE x && not (is_marked Mark.Lost self.old x))) }
        ensures others { (m : Mark) → m ≢ Mark.Soft → is_marked m self.new ≡ is_marked m self.old }
        ensures keeps { KeepsPages self.old self.new }
        ensures no_more { KeepsPages self.new self.old }
    {
        // Most frames have no marked word.
        if !self.has_any(Mark::Lost, frame, FRAME_SIZE) {
            self.store(frame, FRAME_SIZE);
            return;
        }
        for k in 0..FRAME_SIZE {
            self.harden_byte(frame.wrapping_add(k));
        }
    }

    /// The bytes of frames that are in no marked word are not soft any more.
    pub(crate) fn harden_all(&mut self, frames: &VecDeque<u32>)
        requires { AreAligned frames.now.items }
        ensures soft { is_marked Mark.Soft self.new ≡ (λ x.
            is_marked Mark.Soft self.old x
            && not (in_frames frames.now.items x && not (is_marked Mark.Lost self.old x))) }
        ensures others { (m : Mark) → m ≢ Mark.Soft → is_marked m self.new ≡ is_marked m self.old }
        ensures keeps { KeepsPages self.old self.new }
        ensures no_more { KeepsPages self.new self.old }
    {
        for frame in frames.iter() {
            self.harden(*frame);
        }
    }

    /// No byte of frames is live, or in a marked word of a live frame.
    pub(crate) fn leave_all(&mut self, frames: &VecDeque<u32>)
        requires { AreAligned frames.now.items }
        ensures soft { is_marked Mark.Soft self.new ≡ is_marked Mark.Soft self.old }
        ensures others { (m : Mark) → m ≢ Mark.Soft
            → is_marked m self.new ≡ (λ x. is_marked m self.old x && not (in_frames frames.now.items x)) }
        ensures keeps { KeepsPages self.old self.new }
        ensures no_more { KeepsPages self.new self.old }
    {
        for frame in frames.iter() {
            self.change(Change::Return, *frame, FRAME_SIZE);
        }
    }
}
