//! The pair over the system, at cases worked out by hand.
use i9_outside::{Fetch, Files, Sink, Wrote};
use i9_system::{RealFiles, RealSink};
use std::alloc::Global;
use std::io::{ErrorKind, Write};
use std::test::*;
use std::{fs, io};

/// So many bytes, of which neighbours differ.
pub(crate) fn some_bytes(alloc: Global, size: usize) -> Result<Vec<u8>, Fail> {
    let mut bytes = Vec::new(alloc);
    for k in 0..size {
        bytes.push((k % 251) as u8)?;
    }
    Ok(bytes)
}

/// How a file of the system with so many bytes is fetched, and whether they then stand behind what a buffer had.
fn fetch_from_system(rt: &HostRuntime, size: usize) -> Result<(Fetch, bool), Fail> {
    let name = "system_test_file";
    let bytes = some_bytes(rt.alloc(), size)?;
    fs::write(rt, name, bytes.as_slice())?;
    let mut into = Vec::from_slice(rt.alloc(), b"<")?;
    let answer = RealFiles::new(rt).fetch(rt.alloc(), name, &mut into);
    fs::remove_file(rt, name)?;
    let mut whole = Vec::from_slice(rt.alloc(), b"<")?;
    whole.extend_from_slice(&bytes)?;
    Ok((answer, into.as_slice() == whole.as_slice()))
}

#[test]
fn files_of_the_system(rt: HostRuntime) -> Result<(), Fail> {
    for size in [0, 1, 4096, 8193, 16_777_216] {
        assert_eq!(rt;
            fetch_from_system(&rt, size)?,
            (Fetch::Ok, true),
            "of {size} bytes"
        );
    }
    let (answer, _) = fetch_from_system(&rt, 16_777_217)?;
    assert_eq!(rt; answer, Fetch::TooLong(16_777_217));
    Ok(())
}

#[test]
fn no_files_of_the_system(rt: HostRuntime) -> Result<(), Fail> {
    let mut files = RealFiles::new(&rt);
    let mut into = Vec::new(rt.alloc());
    for name in ["system_test_file_that_is_not_there", "."] {
        assert_eq!(rt;
            files.fetch(rt.alloc(), name, &mut into),
            Fetch::Failed,
            "at {name}"
        );
    }
    assert!(rt; into.is_empty());
    Ok(())
}

#[test]
fn sink_over_a_file(rt: HostRuntime) -> Result<(), Fail> {
    let name = "system_test_output";
    let mut sink = RealSink::new(fs::create(&rt, name)?);
    for piece in ["one", "", " and two"] {
        assert_eq!(rt; sink.write(piece.as_bytes()), Wrote::Ok, "at {piece}");
    }
    let mut into = Vec::new(rt.alloc());
    let answer = RealFiles::new(&rt).fetch(rt.alloc(), name, &mut into);
    fs::remove_file(&rt, name)?;
    assert_eq!(rt; answer, Fetch::Ok);
    assert_eq!(rt; into.as_slice(), b"one and two".as_slice());
    Ok(())
}

#[test]
fn devices_of_the_system(rt: HostRuntime) -> Result<(), Fail> {
    // Where the system has them: one that is full, and one that never ends.
    if let Ok(full) = fs::OpenOptions::new().write(true).open(&rt, "/dev/full") {
        assert_eq!(rt; RealSink::new(full).write(b"a"), Wrote::Failed);
    }
    if fs::open(&rt, "/dev/zero").is_ok() {
        let mut into = Vec::new(rt.alloc());
        let answer = RealFiles::new(&rt).fetch(rt.alloc(), "/dev/zero", &mut into);
        assert_eq!(rt; answer, Fetch::TooLong(16_777_217));
    }
    Ok(())
}

/// Takes at most two bytes a call, and refuses what comes after five.
#[derive(Drop)]
struct Narrow {
    held: Vec<u8>,
}

impl Write for Narrow {
    fn write(&mut self, buf: &[u8]) -> io::Result<usize> {
        let size = buf.len().min(2);
        if self.held.len() >= 5 || self.held.extend_from_slice(&buf[..size]).is_err() {
            return Err(io::Error::from(ErrorKind::StorageFull));
        }
        Ok(size)
    }

    fn flush(&mut self) -> io::Result<()> {
        Ok(())
    }
}

#[test]
fn sink_of_the_system(rt: HostRuntime) -> Result<(), Fail> {
    let mut out = Narrow {
        held: Vec::new(rt.alloc()),
    };
    let mut sink = RealSink::new(&mut out);
    assert_eq!(rt; sink.write(b"abc"), Wrote::Ok);
    assert_eq!(rt; sink.write(b"defg"), Wrote::Failed);
    assert_eq!(rt; out.held.as_slice(), b"abcde".as_slice());
    Ok(())
}
