//! Files and a sink of the system.
ghost use Rattle.std.specs.Prelude.{◌≡◌, ◌≢◌, ◌≤◌, None, ℕ, List, length};
ghost use Rattle.i9_outside.specs.Counts.{one_more};
ghost use Rattle.i9_system.specs.System.{FetchCalls, ReadsInto, WriteCalls};
ghost use Rattle.i9_outside.specs.Traits.{Fetches, FetchCause, Writes, WriteCause, TakesPiece};

use crate::system::{OpenOnce, ReadOnce, WriteOnce};
use i9_outside::{FILE_LIMIT, Fetch, Files, Sink, Wrote};
use std::alloc::Global;

/// How many bytes are asked of a file at a time.
const CHUNK: usize = 4096;

/// The files that `from` opens. Their bytes aren't told, and all names share the counts of fetches and of faults.
#[derive(Drop)]
pub struct RealFiles<O> {
    from: O,
    fetches: u64,
    faults: u64,
}

impl<O: OpenOnce + Drop> RealFiles<O> {
    ghost use Rattle.i9_system.specs.RealFiles.{fetch_count, fault_count, opener_of};

    /// The files that this runtime opens; none was fetched, and no fault was met.
    pub fn new(from: O) -> RealFiles<O>
        ensures opener { opener_of result ≡ from }
        ensures fetches { fetch_count result ≡ 0 }
        ensures faults { fault_count result ≡ 0 }
    {
        RealFiles {
            from,
            fetches: 0,
            faults: 0,
        }
    }
}

impl<O: OpenOnce + Drop> Files for RealFiles<O> {
    ghost use Rattle.i9_system.specs.RealFiles.{fetch_count, fault_count, opener_of, told_bytes};

    ghost told = { told_bytes };

    ghost faults = { λ s n. fault_count s };

    ghost fetches = { fetch_count };

    ghost sure = { λ s n. ⊥ };

    /// Opens the file once, and reads it to its end.
    fn fetch(&mut self, _alloc: Global, name: &str, into: &mut Vec<u8>) -> Fetch
        ensures same { (n : List ℕ) → told_bytes self.new n ≡ told_bytes self.old n }
        ensures later { (n : List ℕ) → fault_count self.old ≤ fault_count self.new }
        ensures bytes { Fetches result None into.old.items into.new.items }
        ensures cause { FetchCause result (fault_count self.old) (fault_count self.new) }
        ensures once { fetch_count self.new ≡ one_more (fetch_count self.old) }
        ensures calls { FetchCalls O.opens ⟦<O::File as ReadOnce>⟧.reads result name.now
            (opener_of self.old) (opener_of self.new) into.old.items into.new.items }
    {
        self.fetches = self.fetches.saturating_add(1);
        let answer = read_file(&mut self.from, name, into);
        if answer == Fetch::Failed {
            self.faults = self.faults.saturating_add(1);
        }
        answer
    }
}

/// Opens the file and reads it to its end.
#[tactic(auto, using(crate::proofs::Reading::reading_rules))]
fn read_file<O: OpenOnce>(from: &mut O, name: &str, into: &mut Vec<u8>) -> Fetch
    ensures bytes { Fetches result None into.old.items into.new.items }
    ensures calls { FetchCalls O.opens O.File.reads result name.now
        from.old from.new into.old.items into.new.items }
{
    match from.open_once(name) {
        Some(mut file) => read_all(&mut file, into),
        None => Fetch::Failed,
    }
}

/// Appends what a reader has left, as a file is fetched.
#[tactic(auto, using(crate::proofs::Asking::asking_rules, crate::proofs::Reading::read_whole))]
fn read_all<F: ReadOnce>(file: &mut F, into: &mut Vec<u8>) -> Fetch
    ensures bytes { Fetches result (F.remaining file.old) into.old.items into.new.items }
    ensures calls { ReadsInto F.reads result file.old file.new into.old.items into.new.items }
{
    let mut taken = 0u64;
    let mut buffer = [0u8; CHUNK];
    while taken <= FILE_LIMIT {
        let size = (FILE_LIMIT + 1 - taken).min(CHUNK as u64) as usize;
        match file.read_once(&mut buffer[..size]) {
            Err(_) => return Fetch::Failed,
            Ok(0) => return Fetch::Ok,
            Ok(n) => {
                if into.extend_from_slice(&buffer[..n]).is_err() {
                    return Fetch::Memory;
                }
                taken += n as u64;
            }
        }
    }
    Fetch::TooLong(taken)
}

/// A sink over a writer. It tells the bytes that the writer tells; those of the system tell none.
#[derive(Drop)]
pub struct RealSink<W> {
    out: W,
    writes: u64,
    faults: u64,
}

impl<W: WriteOnce + Drop> RealSink<W> {
    ghost use Rattle.i9_system.specs.RealSink.{write_count, fault_count, writer_of};

    /// A sink that writes to `out`; nothing was written, and no fault was met.
    pub fn new(out: W) -> RealSink<W>
        ensures writer { writer_of result ≡ out }
        ensures writes { write_count result ≡ 0 }
        ensures faults { fault_count result ≡ 0 }
    {
        RealSink {
            out,
            writes: 0,
            faults: 0,
        }
    }
}

impl<W: WriteOnce + Drop> Sink for RealSink<W> {
    ghost use Rattle.i9_system.specs.RealSink.{write_count, fault_count, writer_of, HasPieces};

    ghost told = { λ s. W.contents (writer_of s) };

    ghost faults = { fault_count };

    ghost writes = { write_count };

    ghost sure = { λ s n. ⊥ };

    ghost pieces = { HasPieces W.contents };

    ghost whole = { λ s ps has. has };

    /// Writes the piece on from where it was written to, by no call that isn't needed.
    fn write(&mut self, piece: &[u8]) -> Wrote
        ensures later { fault_count self.old ≤ fault_count self.new }
        ensures bytes { Writes result piece.now
            (W.contents (writer_of self.old)) (W.contents (writer_of self.new)) }
        ensures cause { WriteCause result (fault_count self.old) (fault_count self.new) }
        ensures once { write_count self.new ≡ one_more (write_count self.old) }
        ensures piece { TakesPiece (HasPieces W.contents) result piece.now self.old self.new }
        ensures calls { WriteCalls W.writes result piece.now (writer_of self.old) (writer_of self.new) }
    {
        self.writes = self.writes.saturating_add(1);
        let answer = write_all(&mut self.out, piece);
        if answer == Wrote::Failed {
            self.faults = self.faults.saturating_add(1);
        }
        answer
    }
}

/// Writes the whole piece, by as many writes as it takes.
#[tactic(auto, using(crate::proofs::Writing::writing_rules, crate::proofs::Asking::calling_rules))]
fn write_all<W: WriteOnce>(out: &mut W, piece: &[u8]) -> Wrote
    ensures bytes { Writes result piece.now (W.contents out.old) (W.contents out.new) }
    ensures calls { WriteCalls W.writes result piece.now out.old out.new }
{
    let mut rest = piece;
    while !rest.is_empty() {
        match out.write_once(rest) {
            Ok(0) => return Wrote::Failed,
            Ok(n) => rest = &rest[n..],
            Err(_) => return Wrote::Failed,
        }
    }
    Wrote::Ok
}
