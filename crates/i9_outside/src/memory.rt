//! Files and a sink in memory, of which chosen calls fail.
ghost use Rattle.std.specs.Prelude.{◌≡◌, ◌≢◌, ◌↔◌, ◌⊎◌, ◌+◌, ◌<◌, ◌≤◌, Some, None, OnOk, OnErr, IsNone, IsTrue, List};
ghost use Rattle.std.specs.Prelude.{ℕ, [], length, vec_len, vec_capacity};
ghost use Rattle.i9_outside.specs.Traits.{Fetches, FetchCause, Writes, WriteCause, TakesPiece};

use crate::calls::Calls;
use crate::traits::{FILE_LIMIT, Fetch, Files, Sink, Wrote};
use i9_isa::NoMemory;
use std::alloc::Global;
use std::collections::BTreeMap;

/// Files by name, held in memory. The calls of `fetch` are counted from 1, and chosen ones fail.
#[derive(Drop)]
pub struct MemFiles {
    alloc: Global,
    files: BTreeMap<String, Vec<u8>>,
    calls: Calls,
}

impl MemFiles {
    ghost use Rattle.i9_outside.specs.Calls.{no_calls, with_failing};
    ghost use Rattle.i9_outside.specs.MemFiles.{held_file, calls_of, SameFiles};

    /// Holds no file, and no call is to fail.
    pub fn new(alloc: Global) -> MemFiles
        ensures files { (n : List ℕ) → held_file result n ≡ None }
        ensures calls { calls_of result ≡ no_calls }
    {
        MemFiles {
            alloc,
            files: BTreeMap::new(alloc),
            calls: Calls::new(alloc),
        }
    }

    /// Holds these bytes under that name, in place of those that it held there. Other names keep
    /// theirs. `Err` changes nothing.
    pub fn add(&mut self, name: &str, bytes: &[u8]) -> Result<(), NoMemory>
        ensures ok { OnOk result (held_file self.new name.now ≡ Some bytes.now) }
        ensures others { OnOk result ((n : List ℕ) → n ≢ name.now
            → held_file self.new n ≡ held_file self.old n) }
        ensures err { OnErr result (SameFiles self.old self.new) }
        ensures calls { calls_of self.new ≡ calls_of self.old }
    {
        let key = match String::from_str(self.alloc, name) {
            Ok(key) => key,
            Err(_) => return Err(NoMemory),
        };
        let value = match Vec::from_slice(self.alloc, bytes) {
            Ok(value) => value,
            Err(_) => return Err(NoMemory),
        };
        match self.files.insert(key, value) {
            Ok(_) => Ok(()),
            Err(_) => Err(NoMemory),
        }
    }

    /// Sets the fetch of that number to fail, the first being 1. `Err` changes nothing.
    pub fn fail_at(&mut self, call: u64) -> Result<(), NoMemory>
        ensures files { SameFiles self.old self.new }
        ensures ok { OnOk result (calls_of self.new ≡ with_failing (calls_of self.old) call) }
        ensures err { OnErr result (calls_of self.new ≡ calls_of self.old) }
    {
        self.calls.fail_at(call)
    }
}

impl Files for MemFiles {
    ghost use Rattle.i9_outside.specs.Calls.{fails_next, CountsCall};
    ghost use Rattle.i9_outside.specs.MemFiles.{held_file, calls_of, fault_count, fetch_count, IsSureOf};
    ghost use Rattle.i9_outside.specs.Counts.{one_more};

    ghost told = { held_file };

    // All names share one count.
    ghost faults = { λ m n. fault_count m };

    ghost fetches = { fetch_count };

    ghost sure = { IsSureOf };

    /// Fails exactly where the call is set to fail or the name isn't held.
    fn fetch(&mut self, _alloc: Global, name: &str, into: &mut Vec<u8>) -> Fetch
        ensures same { (n : List ℕ) → held_file self.new n ≡ held_file self.old n }
        ensures later { (n : List ℕ) → fault_count self.old ≤ fault_count self.new }
        ensures bytes { Fetches result (held_file self.old name.now) into.old.items into.new.items }
        ensures cause { FetchCause result (fault_count self.old) (fault_count self.new) }
        ensures once { fetch_count self.new ≡ one_more (fetch_count self.old) }
        ensures calm { IsSureOf self.old name.now → (result ≢ Fetch.Failed)
            × ((n : List ℕ) → fault_count self.new ≡ fault_count self.old) }
        ensures stays { (n : List ℕ) → IsSureOf self.old n → IsSureOf self.new n }
        ensures failed { (result ≡ Fetch.Failed)
            ↔ (IsTrue (fails_next (calls_of self.old)) ⊎ IsNone (held_file self.old name.now)) }
        ensures counted { CountsCall (calls_of self.old) (calls_of self.new) }
    {
        let is_set_to_fail = self.calls.begin();
        match self.files.get(name) {
            Some(bytes) if !is_set_to_fail => {
                if bytes.len() as u64 > FILE_LIMIT {
                    return Fetch::TooLong(FILE_LIMIT + 1);
                }
                match into.extend_from_slice(bytes) {
                    Ok(()) => Fetch::Ok,
                    Err(_) => Fetch::Memory,
                }
            }
            _ => {
                self.calls.fault();
                Fetch::Failed
            }
        }
    }
}

/// A sink that keeps what was written, and takes so many bytes more. The calls of `write` are
/// counted from 1, and chosen ones fail.
#[derive(Drop)]
pub struct MemSink {
    bytes: Vec<u8>,
    left: u64,
    calls: Calls,
    ghost fits: { vec_len bytes + left ≤ vec_capacity bytes },
}

impl MemSink {
    ghost use Rattle.i9_outside.specs.Calls.{no_calls, with_failing};
    ghost use Rattle.i9_outside.specs.MemSink.{written_bytes, room_left, calls_of};

    /// Has room for no byte, and no call is to fail.
    pub fn new(alloc: Global) -> MemSink
        ensures bytes { written_bytes result ≡ [] }
        ensures room { room_left result ≡ 0 }
        ensures calls { calls_of result ≡ no_calls }
    {
        MemSink {
            bytes: Vec::new(alloc),
            left: 0,
            calls: Calls::new(alloc),
        }
    }

    /// Sets the write of that number to fail, the first being 1. `Err` changes nothing.
    pub fn fail_at(&mut self, call: u64) -> Result<(), NoMemory>
        ensures bytes { written_bytes self.new ≡ written_bytes self.old }
        ensures room { room_left self.new ≡ room_left self.old }
        ensures ok { OnOk result (calls_of self.new ≡ with_failing (calls_of self.old) call) }
        ensures err { OnErr result (calls_of self.new ≡ calls_of self.old) }
    {
        self.calls.fail_at(call)
    }

    /// Makes room for exactly n more bytes, whatever was left. `Err` changes nothing.
    pub fn room(&mut self, n: u64) -> Result<(), NoMemory>
        ensures bytes { written_bytes self.new ≡ written_bytes self.old }
        ensures ok { OnOk result (room_left self.new ≡ n) }
        ensures err { OnErr result (room_left self.new ≡ room_left self.old) }
        ensures calls { calls_of self.new ≡ calls_of self.old }
    {
        match self.bytes.reserve(n as usize) {
            Ok(()) => {
                self.left = n;
                Ok(())
            }
            Err(_) => Err(NoMemory),
        }
    }

    /// What was written.
    pub fn bytes(&self) -> &[u8]
        ensures { result.now ≡ written_bytes self.now }
    {
        &self.bytes
    }
}

impl Sink for MemSink {
    ghost use Rattle.i9_outside.specs.Calls.{fails_next, CountsCall};
    ghost use Rattle.i9_outside.specs.MemSink.{written_bytes, room_left, calls_of, fault_count, write_count, IsSureOf};
    ghost use Rattle.i9_outside.specs.MemSink.{HasPieces};
    ghost use Rattle.i9_outside.specs.Counts.{one_more};

    ghost told = { λ s. Some (written_bytes s) };

    ghost faults = { fault_count };

    ghost writes = { write_count };

    ghost sure = { IsSureOf };

    ghost pieces = { HasPieces };

    ghost whole = { λ s ps has. has };

    /// Fails exactly where the call is set to fail or the piece is longer than the room left, and
    /// then writes nothing.
    fn write(&mut self, piece: &[u8]) -> Wrote
        ensures later { fault_count self.old ≤ fault_count self.new }
        ensures bytes { Writes result piece.now
            (Some (written_bytes self.old)) (Some (written_bytes self.new)) }
        ensures cause { WriteCause result (fault_count self.old) (fault_count self.new) }
        ensures once { write_count self.new ≡ one_more (write_count self.old) }
        ensures calm { (n : ℕ) → IsSureOf self.old (length piece.now + n)
            → (result ≡ Wrote.Ok) × (fault_count self.new ≡ fault_count self.old) × IsSureOf self.new n }
        ensures piece { TakesPiece HasPieces result piece.now self.old self.new }
        ensures failed { (result ≡ Wrote.Failed)
            ↔ (IsTrue (fails_next (calls_of self.old)) ⊎ (room_left self.old < length piece.now)) }
        ensures took { result ≡ Wrote.Ok → room_left self.new + length piece.now ≡ room_left self.old }
        ensures kept { result ≡ Wrote.Failed → (written_bytes self.new ≡ written_bytes self.old)
            × (room_left self.new ≡ room_left self.old) }
        ensures counted { CountsCall (calls_of self.old) (calls_of self.new) }
    {
        let is_set_to_fail = self.calls.begin();
        let size = piece.len() as u64;
        if is_set_to_fail || size > self.left {
            self.calls.fault();
            return Wrote::Failed;
        }
        self.bytes.extend_from_slice(piece).unwrap();
        self.left -= size;
        Wrote::Ok
    }
}
