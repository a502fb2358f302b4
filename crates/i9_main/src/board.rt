//! A runtime of the tests' own: words, files that are read, and what is printed.
ghost use Rattle.std.specs.Prelude.{IsErr};

use crate::files::file_named;
use std::alloc::{Allocator, Global};
use std::cell::RefCell;
use std::env::FillError;
use std::fmt::Display;
use std::fs::{Metadata, OpenFile, OpenOptions};
use std::io::{ErrorKind, Print, Read, Seek, SeekFrom, Write};
use std::{io, rt};

/// Words between spaces, of which the first is the program's name, the files of `file_named`, and what was printed, for
/// which there is room for so many bytes.
#[derive(Drop)]
pub(crate) struct Board<'a> {
    pub(crate) alloc: Global,
    pub(crate) words: &'a [u8],
    pub(crate) room: usize,
    pub(crate) printed: RefCell<Vec<u8>>,
}

/// What the program asks of no board.
fn unsupported<T>() -> io::Result<T>
    ensures { IsErr result }
{
    Err(io::Error::from(ErrorKind::Unsupported))
}

impl Alloc for Board<'_> {
    type A = Global;

    fn alloc(&self) -> Global {
        self.alloc
    }
}

impl rt::Env for Board<'_> {
    fn arg(&self, i: usize, buf: &mut [u8]) -> Result<usize, FillError> {
        let Some(word) = self.words.split(|byte| *byte == b' ').nth(i) else {
            return Err(FillError::NotPresent);
        };
        let Some(room) = buf.get_mut(..word.len()) else {
            return Err(FillError::TooLong);
        };
        room.copy_from_slice(word);
        Ok(word.len())
    }

    fn var(&self, _name: &str, _buf: &mut [u8]) -> Result<usize, FillError> {
        Err(FillError::NotPresent)
    }

    fn var_at(&self, _i: usize, _buf: &mut [u8]) -> Result<usize, FillError> {
        Err(FillError::NotPresent)
    }
}

impl Print for Board<'_> {
    fn print<D: Display + Drop>(&self, _value: D) -> io::Result<()> {
        unsupported()
    }

    fn println<D: Display + Drop>(&self, _value: D) -> io::Result<()> {
        unsupported()
    }

    fn write_all(&self, bytes: &[u8]) -> io::Result<()> {
        let Ok(mut printed) = self.printed.try_borrow_mut() else {
            return unsupported();
        };
        if self.room.saturating_sub(printed.len()) < bytes.len() {
            return unsupported();
        }
        printed.extend_from_slice(bytes)?;
        Ok(())
    }
}

/// A file that was opened, with the bytes that it has left.
#[derive(Drop)]
pub(crate) struct BoardFile {
    rest: &'static [u8],
}

impl rt::Files for Board<'_> {
    type File = BoardFile;

    type Dir = BoardFile;

    fn open_file(&self, how: &OpenOptions, path: &str) -> io::Result<BoardFile> {
        if how.asks_write() || how.asks_append() || how.asks_truncate() || how.asks_create() {
            return unsupported();
        }
        match file_named(path) {
            Some(text) => Ok(BoardFile {
                rest: text.as_bytes(),
            }),
            None => Err(io::Error::from(ErrorKind::NotFound)),
        }
    }

    fn open_dir(&self, _path: &str) -> io::Result<BoardFile> {
        unsupported()
    }

    fn metadata(&self, _path: &str) -> io::Result<Metadata> {
        unsupported()
    }

    fn symlink_metadata(&self, _path: &str) -> io::Result<Metadata> {
        unsupported()
    }

    fn copy(&self, _from: &str, _to: &str) -> io::Result<u64> {
        unsupported()
    }

    fn rename(&self, _from: &str, _to: &str) -> io::Result<()> {
        unsupported()
    }

    fn remove_file(&self, _path: &str) -> io::Result<()> {
        unsupported()
    }

    fn create_dir(&self, _path: &str) -> io::Result<()> {
        unsupported()
    }

    fn remove_dir(&self, _path: &str) -> io::Result<()> {
        unsupported()
    }

    fn remove_dir_all<B: Allocator>(&self, _alloc: B, _path: &str) -> io::Result<()> {
        unsupported()
    }
}

impl Read for BoardFile {
    fn read(&mut self, buf: &mut [u8]) -> io::Result<usize> {
        let size = self.rest.len().min(buf.len());
        let (piece, rest) = self.rest.split_at(size);
        buf[..size].copy_from_slice(piece);
        self.rest = rest;
        Ok(size)
    }
}

impl Write for BoardFile {
    fn write(&mut self, _buf: &[u8]) -> io::Result<usize> {
        unsupported()
    }

    fn flush(&mut self) -> io::Result<()> {
        unsupported()
    }
}

impl Seek for BoardFile {
    fn seek(&mut self, _to: SeekFrom) -> io::Result<u64> {
        unsupported()
    }
}

impl OpenFile for BoardFile {
    fn metadata(&self) -> io::Result<Metadata> {
        unsupported()
    }

    fn set_len(&self, _size: u64) -> io::Result<()> {
        unsupported()
    }

    fn sync_all(&self) -> io::Result<()> {
        unsupported()
    }

    fn sync_data(&self) -> io::Result<()> {
        unsupported()
    }
}
