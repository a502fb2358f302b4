//! The files and the sink of the system over a disk and a writer that keep what was asked of them.
use crate::system_disk::{Disk, Log, Taker};
use crate::system_files::some_bytes;
use i9_outside::{Fetch, Files, Sink, Wrote};
use i9_system::{RealFiles, RealSink};
use std::alloc::Global;
use std::test::*;

/// The first bytes, so many of them.
fn front(bytes: &[u8], size: usize) -> &[u8] {
    &bytes[..size.min(bytes.len())]
}

/// A `<`, and then these bytes.
fn behind_one(alloc: Global, bytes: &[u8]) -> Result<Vec<u8>, Fail> {
    let mut all = Vec::from_slice(alloc, b"<")?;
    all.extend_from_slice(bytes)?;
    Ok(all)
}

/// How many calls move so many bytes, where each moves at most so many.
fn calls_for(size: usize, most: usize) -> u64 {
    if most == 0 {
        0
    } else {
        size.div_ceil(most) as u64
    }
}

/// A fetch of a file: how it ended, the names that were opened for it, each behind a `<`, how many reads were made, and
/// what stands in the buffer, which had a `<`.
#[derive(Drop)]
struct Fetched {
    answer: Fetch,
    opened: String,
    reads: u64,
    into: Vec<u8>,
}

/// Fetches a file of these bytes.
fn fetch(
    rt: &HostRuntime,
    name: &str,
    bytes: &[u8],
    step: usize,
    failing: u64,
) -> Result<Fetched, Fail> {
    let log = Log::new(rt.alloc());
    let disk = Disk {
        bytes,
        step,
        failing,
        log: &log,
    };
    let mut into = Vec::from_slice(rt.alloc(), b"<")?;
    let answer = RealFiles::new(&disk).fetch(rt.alloc(), name, &mut into);
    let opened = match log.opened.try_borrow() {
        Ok(opened) => String::from_str(rt.alloc(), &opened)?,
        Err(_) => return Err(Fail::new("the log is in use")),
    };
    Ok(Fetched {
        answer,
        opened,
        reads: log.reads.get(),
        into,
    })
}

/// Whether a file is fetched so: by one open of its name and so many reads, with these bytes.
fn is_fetched(
    rt: &HostRuntime,
    got: &Fetched,
    answer: Fetch,
    name: &str,
    bytes: &[u8],
    reads: u64,
) -> Result<bool, Fail> {
    let opened = behind_one(rt.alloc(), name.as_bytes())?;
    let into = behind_one(rt.alloc(), bytes)?;
    Ok(
        got.answer == answer
            && got.opened.as_bytes() == opened.as_slice()
            && got.into.as_slice() == into.as_slice()
            && got.reads == reads,
    )
}

#[test]
fn names_of_all_lengths(rt: HostRuntime) -> Result<(), Fail> {
    let mut name = String::new(rt.alloc());
    for size in 1..=400usize {
        name.push(char::from(b'a' + (size % 26) as u8))?;
        let got = fetch(&rt, &name, b"file", 4096, 0)?;
        assert!(rt;
            is_fetched(&rt, &got, Fetch::Ok, &name, b"file", 2)?,
            "of {size} bytes"
        );
    }
    Ok(())
}

/// Sizes of files behind a multiple of 4096, which is what a read asks for.
const PLACES: [usize; 12] = [0, 1, 2, 77, 200, 255, 256, 776, 777, 778, 2048, 4095];

/// Whether files of sizes behind this one are fetched whole, with as few reads as there can be and one at the end.
fn are_fetched(rt: &HostRuntime, bytes: &[u8], size: usize, step: usize) -> Result<bool, Fail> {
    for place in PLACES {
        let file = front(bytes, size.saturating_add(place));
        let got = fetch(rt, "f", file, step, 0)?;
        let reads = calls_for(file.len(), step.min(4096)).saturating_add(1);
        if !is_fetched(rt, &got, Fetch::Ok, "f", file, reads)? {
            return Ok(false);
        }
    }
    Ok(true)
}

#[test]
fn files_of_many_sizes(rt: HostRuntime) -> Result<(), Fail> {
    let bytes = some_bytes(rt.alloc(), 20_480)?;
    for size in [0, 4096, 8192, 12_288, 16_384] {
        for step in [4096, 100, 5000] {
            assert!(rt;
                are_fetched(&rt, &bytes, size, step)?,
                "of {size} bytes, by {step}"
            );
        }
    }
    Ok(())
}

#[test]
fn reads_that_fail(rt: HostRuntime) -> Result<(), Fail> {
    let bytes = some_bytes(rt.alloc(), 1000)?;
    // Of the ten reads of a hundred bytes and the one at the end, this one fails, and those before it gave so many
    // bytes.
    for (failing, size) in [(1, 0), (2, 100), (3, 200), (10, 900), (11, 1000)] {
        let got = fetch(&rt, "f", &bytes, 100, failing)?;
        let given = front(&bytes, size);
        assert!(rt;
            is_fetched(&rt, &got, Fetch::Failed, "f", given, failing)?,
            "at {failing}"
        );
    }
    let got = fetch(&rt, "f", &bytes, 100, 12)?;
    assert!(rt; is_fetched(&rt, &got, Fetch::Ok, "f", &bytes, 11)?);
    Ok(())
}

/// Whether a piece is written so: with this answer, of so many bytes, by so many calls.
fn is_written(
    rt: &HostRuntime,
    piece: &[u8],
    step: usize,
    failing: u64,
    answer: Wrote,
    size: usize,
    writes: u64,
) -> Result<bool, Fail> {
    let mut out = Taker::new(rt.alloc(), step, failing);
    let got = RealSink::new(&mut out).write(piece);
    Ok(got == answer && out.held.as_slice() == front(piece, size) && out.writes == writes)
}

/// Whether pieces of the sizes from one up to another are written whole, with as few calls as there can be.
fn are_written(
    rt: &HostRuntime,
    bytes: &[u8],
    low: usize,
    high: usize,
    step: usize,
) -> Result<bool, Fail> {
    for size in low..high {
        let piece = front(bytes, size);
        let writes = calls_for(piece.len(), step);
        if !is_written(rt, piece, step, 0, Wrote::Ok, size, writes)? {
            return Ok(false);
        }
    }
    Ok(true)
}

#[test]
fn pieces_of_many_sizes(rt: HostRuntime) -> Result<(), Fail> {
    let bytes = some_bytes(rt.alloc(), 70_000)?;
    for (low, high) in [
        (0, 300),
        (774, 780),
        (4090, 4100),
        (8190, 8195),
        (65_530, 65_540),
    ] {
        for step in [7, 4096, 100_000] {
            assert!(rt;
                are_written(&rt, &bytes, low, high, step)?,
                "from {low} on, by {step}"
            );
        }
    }
    Ok(())
}

#[test]
fn writes_that_fail(rt: HostRuntime) -> Result<(), Fail> {
    let bytes = some_bytes(rt.alloc(), 1000)?;
    // Of the ten writes of a hundred bytes this one fails, and those before it took so many bytes.
    for (failing, size) in [(1, 0), (2, 100), (3, 200), (10, 900)] {
        assert!(rt;
            is_written(&rt, &bytes, 100, failing, Wrote::Failed, size, failing)?,
            "at {failing}"
        );
    }
    assert!(rt; is_written(&rt, &bytes, 100, 11, Wrote::Ok, 1000, 10)?);
    // A writer that takes nothing is asked once, and one that is given nothing is not asked.
    assert!(rt; is_written(&rt, b"a", 0, 0, Wrote::Failed, 0, 1)?);
    assert!(rt; is_written(&rt, b"", 0, 1, Wrote::Ok, 0, 0)?);
    Ok(())
}
