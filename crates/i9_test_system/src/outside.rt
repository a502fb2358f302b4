//! The pair in memory, at cases worked out by hand.
use i9_outside::{Fetch, Files, MemFiles, MemSink, Sink, Wrote};
use std::alloc::Global;
use std::test::*;

#[test]
fn files_in_memory(rt: HostRuntime) -> Result<(), Fail> {
    let alloc = rt.alloc();
    let mut files = MemFiles::new(alloc);
    files.add("a", b"one")?;
    files.add("b", b"two")?;
    files.add("a", b"three")?;
    files.fail_at(2)?;
    let cases = [
        ("a", Fetch::Ok, "<three"),
        ("a", Fetch::Failed, "<"),
        ("b", Fetch::Ok, "<two"),
        ("c", Fetch::Failed, "<"),
    ];
    for (name, answer, held) in cases {
        let mut into = Vec::from_slice(alloc, b"<")?;
        assert_eq!(rt; files.fetch(alloc, name, &mut into), answer, "at {name}");
        assert_eq!(rt; into.as_slice(), held.as_bytes(), "at {name}");
    }
    Ok(())
}

/// How a file of so many bytes is fetched, and how many bytes came.
fn fetch_of_size(alloc: Global, size: usize) -> Result<(Fetch, usize), Fail> {
    let mut files = MemFiles::new(alloc);
    files.add("a", &vec![in alloc; 7u8; size]?)?;
    let mut into = Vec::new(alloc);
    let answer = files.fetch(alloc, "a", &mut into);
    Ok((answer, into.len()))
}

#[test]
fn longest_file(rt: HostRuntime) -> Result<(), Fail> {
    let longest = fetch_of_size(rt.alloc(), 16_777_216)?;
    assert_eq!(rt; longest, (Fetch::Ok, 16_777_216));
    let (longer, _) = fetch_of_size(rt.alloc(), 16_777_217)?;
    assert_eq!(rt; longer, Fetch::TooLong(16_777_217));
    Ok(())
}

#[test]
fn sink_in_memory(rt: HostRuntime) -> Result<(), Fail> {
    let mut sink = MemSink::new(rt.alloc());
    assert_eq!(rt; sink.write(b"a"), Wrote::Failed, "with no room");
    sink.room(5)?;
    sink.fail_at(3)?;
    let cases = [
        ("abc", Wrote::Ok),
        ("de", Wrote::Failed),
        ("def", Wrote::Failed),
        ("de", Wrote::Ok),
        ("", Wrote::Ok),
        ("f", Wrote::Failed),
    ];
    for (piece, answer) in cases {
        assert_eq!(rt; sink.write(piece.as_bytes()), answer, "at {piece}");
    }
    assert_eq!(rt; sink.bytes(), b"abcde".as_slice());
    Ok(())
}
