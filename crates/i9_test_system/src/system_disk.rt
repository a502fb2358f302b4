//! A disk and a writer of the tests' own, which keep what was asked of them.
ghost use Rattle.std.specs.Prelude.{◌≤◌, length, IfOk, IsErr};

use std::alloc::{Allocator, Global};
use std::cell::{Cell, RefCell};
use std::fs::{Metadata, OpenFile, OpenOptions};
use std::io::{ErrorKind, Read, Seek, SeekFrom, Write};
use std::{io, rt};

/// One file, under every name. Each read gives at most `step` bytes of it, and the read of the number `failing` fails.
#[derive(Drop)]
pub struct Disk<'a> {
    pub bytes: &'a [u8],
    pub step: usize,
    pub failing: u64,
    pub log: &'a Log,
}

/// The names that were opened to be read, each behind a `<`, and how many reads were begun.
#[derive(Drop)]
pub struct Log {
    pub opened: RefCell<String>,
    pub reads: Cell<u64>,
}

impl Log {
    /// Nothing was asked.
    pub fn new(alloc: Global) -> Log {
        Log {
            opened: RefCell::new(String::new(alloc)),
            reads: Cell::new(0),
        }
    }
}

/// A file of a disk, with the bytes that it has left.
#[derive(Drop)]
pub struct DiskFile<'a> {
    rest: &'a [u8],
    step: usize,
    failing: u64,
    reads: &'a Cell<u64>,
}

/// What these tests ask of no disk.
fn unsupported<T>() -> io::Result<T>
    ensures { IsErr result }
{
    Err(io::Error::from(ErrorKind::Unsupported))
}

impl<'a> rt::Files for Disk<'a> {
    type File = DiskFile<'a>;

    type Dir = DiskFile<'a>;

    fn open_file(&self, how: &OpenOptions, path: &str) -> io::Result<DiskFile<'a>> {
        if how.asks_write() || how.asks_append() || how.asks_truncate() || how.asks_create() {
            return unsupported();
        }
        let Ok(mut opened) = self.log.opened.try_borrow_mut() else {
            return unsupported();
        };
        opened.push('<')?;
        opened.push_str(path)?;
        Ok(DiskFile {
            rest: self.bytes,
            step: self.step,
            failing: self.failing,
            reads: &self.log.reads,
        })
    }

    fn open_dir(&self, _path: &str) -> io::Result<DiskFile<'a>> {
        unsupported()
    }

    fn metadata(&self, _path: &str) -> io::Result<Metadata> {
        unsupported()
    }

    fn symlink_metadata(&self, _path: &str) -> io::Result<Metadata> {
        unsupported()
    }

    fn copy(&self, _from: &str, _to: &str) -> io::Result<u64> {
        unsupported()
    }

    fn rename(&self, _from: &str, _to: &str) -> io::Result<()> {
        unsupported()
    }

    fn remove_file(&self, _path: &str) -> io::Result<()> {
        unsupported()
    }

    fn create_dir(&self, _path: &str) -> io::Result<()> {
        unsupported()
    }

    fn remove_dir(&self, _path: &str) -> io::Result<()> {
        unsupported()
    }

    fn remove_dir_all<B: Allocator>(&self, _alloc: B, _path: &str) -> io::Result<()> {
        unsupported()
    }
}

impl Read for DiskFile<'_> {
    fn read(&mut self, buf: &mut [u8]) -> io::Result<usize> {
        let call = self.reads.get().saturating_add(1);
        self.reads.set(call);
        if call == self.failing {
            return Err(io::Error::from(ErrorKind::Interrupted));
        }
        let size = self.rest.len().min(self.step).min(buf.len());
        let (piece, rest) = self.rest.split_at(size);
        buf[..size].copy_from_slice(piece);
        self.rest = rest;
        Ok(size)
    }
}

impl Write for DiskFile<'_> {
    fn write(&mut self, _buf: &[u8]) -> io::Result<usize> {
        unsupported()
    }

    fn flush(&mut self) -> io::Result<()> {
        unsupported()
    }
}

impl Seek for DiskFile<'_> {
    fn seek(&mut self, _to: SeekFrom) -> io::Result<u64> {
        unsupported()
    }
}

impl OpenFile for DiskFile<'_> {
    fn metadata(&self) -> io::Result<Metadata> {
        unsupported()
    }

    fn set_len(&self, _size: u64) -> io::Result<()> {
        unsupported()
    }

    fn sync_all(&self) -> io::Result<()> {
        unsupported()
    }

    fn sync_data(&self) -> io::Result<()> {
        unsupported()
    }
}

/// Takes at most `step` bytes a call. The write of the number `failing` fails.
#[derive(Drop)]
pub struct Taker {
    pub held: Vec<u8>,
    pub step: usize,
    pub failing: u64,
    pub writes: u64,
}

impl Taker {
    /// Nothing was written.
    pub fn new(alloc: Global, step: usize, failing: u64) -> Taker {
        Taker {
            held: Vec::new(alloc),
            step,
            failing,
            writes: 0,
        }
    }
}

impl Write for Taker {
    fn write(&mut self, buf: &[u8]) -> io::Result<usize>
        ensures bound { IfOk result (λ n. n ≤ length buf.now) }
    {
        self.writes = self.writes.saturating_add(1);
        if self.writes == self.failing {
            return Err(io::Error::from(ErrorKind::Interrupted));
        }
        let size = buf.len().min(self.step);
        self.held.extend_from_slice(&buf[..size])?;
        Ok(size)
    }

    fn flush(&mut self) -> io::Result<()> {
        unsupported()
    }
}
