//! Pages by number.
ghost use Rattle.std.specs.Prelude.{◌≡◌, ℕ, ◌^◌, ◌<◌, ◌≤◌, ◌↔◌, IsTrue, IsSome, OnOk, OnErr, IfOk, option_copied};
ghost use Rattle.std.specs.Prelude.{slice_index_or, vec_len};
ghost use Rattle.std.specs.Option.{option_copied_mut};
ghost use Rattle.std.specs.Borrow.{sem};
ghost use Rattle.i9_memory.specs.Table.{list_at};

use i9_isa::NoMemory;
use std::alloc::Global;

/// How many places a level has.
const LEVEL_SIZE: usize = 256;

/// Pages by number, below 2^24, in three levels of 256 places. A level with no page below it takes
/// no room until one is put there.
// A list is empty or has 256 places, or fewer where memory was refused while it grew.
#[derive(Drop)]
pub struct PageTable<T> {
    alloc: Global,
    levels: Vec<Vec<Vec<Option<T>>>>,
}

/// Fills a list of lists up with empty ones.
#[inline(never)]
fn grow_lists<U: Drop>(alloc: Global, lists: &mut Vec<Vec<U>>) -> Result<(), NoMemory>
    ensures same { (k : ℕ) → list_at lists.new.items k ≡ list_at lists.old.items k }
    ensures ok { OnOk result (256 ≤ vec_len lists.new) }
{
    'more: for _ in lists.len()..LEVEL_SIZE {
        if lists.push(Vec::new(alloc)).is_err() {
            return Err(NoMemory);
        }
    }
    Ok(())
}

/// Fills the places of the lowest level up with empty ones.
#[inline(never)]
fn grow_places<T: Drop>(places: &mut Vec<Option<T>>) -> Result<(), NoMemory>
    ensures same { (k : ℕ) → slice_index_or places.new.items k None ≡ slice_index_or places.old.items k None }
    ensures ok { OnOk result (256 ≤ vec_len places.new) }
{
    'more: for _ in places.len()..LEVEL_SIZE {
        if places.push(None).is_err() {
            return Err(NoMemory);
        }
    }
    Ok(())
}

#[tactic(auto, unfolding(crate::specs::Table::page_at))]
impl<T: Drop> PageTable<T> {
    ghost use Rattle.i9_memory.specs.Table.{page_at, SamePages, Updates};
    ghost use Rattle.i9_memory.specs.Lends.{lends_page};

    /// No page is there. No memory is asked for.
    pub fn new(alloc: Global) -> PageTable<T>
        ensures { (n : ℕ) → page_at result n ≡ None }
    {
        PageTable {
            alloc,
            levels: Vec::new(alloc),
        }
    }

    /// The page of a number, if it is there.
    #[inline(always)]
    pub fn get(&self, number: u32) -> Option<&T>
        ensures { option_copied result ≡ page_at self.now number }
    {
        let middle = self.levels.get((number / 65536) as usize)?;
        let low = middle.get((number / 256 % 256) as usize)?;
        low.get((number % 256) as usize)?.as_ref()
    }

    /// Whether a page is there.
    #[inline(always)]
    pub fn contains(&self, number: u32) -> bool
        ensures { IsTrue result ↔ IsSome (page_at self.now number) }
    {
        self.get(number).is_some()
    }

    /// The page of a number, if it is there, to be changed in place.
    #[inline(always)]
    pub fn get_mut(&mut self, number: u32) -> Option<&mut T>
        ensures* ends { sem 𝓛 (lends_page T.row self.entry number result) }
        ensures value { option_copied_mut result ≡ page_at self.old number }
    {
        let middle = self.levels.get_mut((number / 65536) as usize)?;
        let low = middle.get_mut((number / 256 % 256) as usize)?;
        low.get_mut((number % 256) as usize)?.as_mut()
    }

    /// Puts a page in place of the one that was there. Where memory is refused no page changes.
    pub fn insert(&mut self, number: u32, page: T) -> Result<(), NoMemory>
        requires { number < 2 ^ 24 }
        ensures ok { OnOk result (Updates self.old number (Some page) self.new) }
        ensures same { OnErr result (SamePages self.old self.new) }
    {
        grow_lists(self.alloc, &mut self.levels)?;
        let middle = &mut self.levels[(number / 65536) as usize];
        grow_lists(self.alloc, middle)?;
        let low = &mut middle[(number / 256 % 256) as usize];
        grow_places(low)?;
        low[(number % 256) as usize] = Some(page);
        Ok(())
    }

    /// Takes a page away, if it is there.
    pub fn remove(&mut self, number: u32)
        ensures { Updates self.old number None self.new }
    {
        if let Some(middle) = self.levels.get_mut((number / 65536) as usize)
            && let Some(low) = middle.get_mut((number / 256 % 256) as usize)
            && let Some(place) = low.get_mut((number % 256) as usize)
        {
            *place = None;
        }
    }
}

#[tactic(auto, unfolding(crate::specs::Table::page_at))]
impl<T: Clone + Drop> PageTable<T> {
    ghost use Rattle.i9_memory.specs.Table.{page_at, IsCopy};

    /// A table that has a clone of each page, and no other page.
    pub fn copy(&self) -> Result<PageTable<T>, NoMemory>
        ensures { IfOk result (λ t. (n : ℕ) → IsCopy T.is_clone (page_at self.now n) (page_at t n)) }
    {
        match self.levels.clone() {
            Ok(levels) => Ok(PageTable {
                alloc: self.alloc,
                levels,
            }),
            Err(_) => Err(NoMemory),
        }
    }
}
