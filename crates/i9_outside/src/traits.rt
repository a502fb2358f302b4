//! Files by name, and a sink of bytes: what a call answers, does, and why it fails.
ghost use Rattle.std.specs.Prelude.{◌≡◌, ◌≢◌, ℕ, ◌+◌, ◌≤◌, List, Option, length};
ghost use Rattle.i9_outside.specs.Counts.{one_more};
ghost use Rattle.i9_outside.specs.Traits.{Fetches, FetchCause, Writes, WriteCause, TakesPiece, EndsWithPieces};

use std::alloc::Global;

/// The most bytes that a file may have.
pub const FILE_LIMIT: u64 = 16_777_216;

/// How a fetch ended.
#[derive(Clone, Copy, Debug, PartialEq, Eq)]
pub enum Fetch {
    /// The whole file was fetched.
    Ok,
    /// The file could not be opened, or a read failed.
    Failed,
    /// The file has more than `FILE_LIMIT` bytes. The number says how many were taken.
    TooLong(u64),
    /// Memory was refused.
    Memory,
}

/// How a write ended.
#[derive(Clone, Copy, Debug, PartialEq, Eq)]
pub enum Wrote {
    /// The whole piece was written.
    Ok,
    /// A write failed; a front of the piece was written, perhaps nothing.
    Failed,
}

/// Files by name.
pub trait Files {
    /// The bytes of the file of a name, where they are told.
    ghost told: { Self → List ℕ → Option (List ℕ) };

    /// How many faults were met at a name; this never falls.
    ghost faults: { Self → List ℕ → ℕ };

    /// How many fetches were begun, of any name, up to the end of the count's type.
    ghost fetches: { Self → ℕ };

    /// From now on no fetch of a name can fail.
    ghost sure: { Self → List ℕ → Type 0 };

    /// Appends the bytes of the file of that name to `into`. After another answer than `Ok`,
    /// `into` has what it had and a front of the file, perhaps nothing. A longer file than
    /// `FILE_LIMIT` is answered `TooLong`, unless a read failed or memory was refused first.
    fn fetch(&mut self, alloc: Global, name: &str, into: &mut Vec<u8>) -> Fetch
        ensures same { (n : List ℕ) → told self.new n ≡ told self.old n }
        ensures later { (n : List ℕ) → faults self.old n ≤ faults self.new n }
        ensures bytes { Fetches result (told self.old name.now) into.old.items into.new.items }
        ensures cause { FetchCause result (faults self.old name.now) (faults self.new name.now) }
        ensures once { fetches self.new ≡ one_more (fetches self.old) }
        ensures calm { sure self.old name.now → (result ≢ Fetch.Failed)
            × ((n : List ℕ) → faults self.new n ≡ faults self.old n) }
        ensures stays { (n : List ℕ) → sure self.old n → sure self.new n };
}

/// What takes bytes.
pub trait Sink {
    /// The bytes written, where they are told.
    ghost told: { Self → Option (List ℕ) };

    /// How many faults were met; this never falls.
    ghost faults: { Self → ℕ };

    /// How many writes were begun, up to the end of the count's type.
    ghost writes: { Self → ℕ };

    /// Writes of so many bytes in all can't fail.
    ghost sure: { Self → ℕ → Type 0 };

    /// The last calls took these pieces, one a call, in this order; of a call that failed, the front that it wrote.
    ghost pieces: { Self → List (List ℕ) → Type 0 };

    /// Writes the piece after what was written before. `Failed` may leave a front of it there.
    fn write(&mut self, piece: &[u8]) -> Wrote
        ensures later { faults self.old ≤ faults self.new }
        ensures bytes { Writes result piece.now (told self.old) (told self.new) }
        ensures cause { WriteCause result (faults self.old) (faults self.new) }
        ensures once { writes self.new ≡ one_more (writes self.old) }
        ensures calm { (n : ℕ) → sure self.old (length piece.now + n)
            → (result ≡ Wrote.Ok) × (faults self.new ≡ faults self.old) × sure self.new n }
        ensures piece { TakesPiece pieces result piece.now self.old self.new };

    /// The bytes that are told end with those of the pieces.
    ghost whole: { (s : Self) (ps : List (List ℕ)) → pieces s ps → EndsWithPieces (told s) ps };
}
