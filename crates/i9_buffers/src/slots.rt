//! Files that lie in buffers of a caller.
ghost use Rattle.std.specs.Prelude.{◌≡◌, ◌≢◌, ℕ, ◌≤◌, List, option_map};
ghost use Rattle.i9_outside.specs.Traits.{Fetches, FetchCause};

use i9_outside::{FILE_LIMIT, Fetch, Files};
use std::alloc::Global;

/// Three files that lie in buffers, by the names `1`, `2` and `3`. There is no other file.
#[derive(Drop)]
pub struct SlotFiles<'a> {
    first: &'a [u8],
    second: &'a [u8],
    third: &'a [u8],
    fetches: u64,
    misses: u64,
}

impl<'a> SlotFiles<'a> {
    ghost use Rattle.i9_buffers.specs.SlotFiles.{slot_of, slot_file, fetch_count, miss_count};

    /// These files; none was fetched.
    pub fn new(first: &'a [u8], second: &'a [u8], third: &'a [u8]) -> SlotFiles<'a>
        ensures files { (n : List ℕ) → slot_file result n ≡ slot_of first.now second.now third.now n }
        ensures fetches { fetch_count result ≡ 0 }
        ensures misses { miss_count result ≡ 0 }
    {
        SlotFiles {
            first,
            second,
            third,
            fetches: 0,
            misses: 0,
        }
    }

    /// The file of a name.
    #[tactic(auto, unfolding(crate::specs::SlotFiles::slot_of))]
    fn slot(&self, name: &str) -> Option<&[u8]>
        ensures { option_map (λ f. f.now) result ≡ slot_file self.now name.now }
    {
        match name {
            "1" => Some(self.first),
            "2" => Some(self.second),
            "3" => Some(self.third),
            _ => None,
        }
    }
}

impl<'a> Files for SlotFiles<'a> {
    ghost use Rattle.i9_outside.specs.Counts.{one_more};
    ghost use Rattle.i9_buffers.specs.SlotFiles.{slot_file, fetch_count, miss_count, IsSureOf};

    ghost told = { slot_file };

    // All names share one count.
    ghost faults = { λ s n. miss_count s };

    ghost fetches = { fetch_count };

    ghost sure = { IsSureOf };

    /// Fails where there is no such file.
    fn fetch(&mut self, _alloc: Global, name: &str, into: &mut Vec<u8>) -> Fetch
        ensures same { (n : List ℕ) → slot_file self.new n ≡ slot_file self.old n }
        ensures later { (n : List ℕ) → miss_count self.old ≤ miss_count self.new }
        ensures bytes { Fetches result (slot_file self.old name.now) into.old.items into.new.items }
        ensures cause { FetchCause result (miss_count self.old) (miss_count self.new) }
        ensures once { fetch_count self.new ≡ one_more (fetch_count self.old) }
        ensures calm { IsSureOf self.old name.now → (result ≢ Fetch.Failed)
            × ((n : List ℕ) → miss_count self.new ≡ miss_count self.old) }
        ensures stays { (n : List ℕ) → IsSureOf self.old n → IsSureOf self.new n }
    {
        self.fetches = self.fetches.saturating_add(1);
        let Some(bytes) = self.slot(name) else {
            self.misses = self.misses.saturating_add(1);
            return Fetch::Failed;
        };
        if bytes.len() as u64 > FILE_LIMIT {
            return Fetch::TooLong(FILE_LIMIT + 1);
        }
        match into.extend_from_slice(bytes) {
            Ok(()) => Fetch::Ok,
            Err(_) => Fetch::Memory,
        }
    }
}
