//! What is asked of the system, a call at a time: to open a file, to read a piece of it, to write one.
//!
//! Each trait has a relation that a call leaves between what was before it and what is after it. Code that is generic
//! over the trait has it from a call alone, so a clause that names it says which calls were made. Of the system it says
//! nothing.
ghost use Rattle.std.specs.Prelude.{ℕ, List, Option, Result, ⊤};
ghost use Rattle.std.specs.Io.{ReadsAtMost, WritesAtMost};
ghost use Rattle.std.specs.Io.KnownBytes.{ReadConsumes, WriteAppends};
ghost use Rattle.i9_system.specs.System.{read_piece, ok_value};

use std::io::{Read, Write};
use std::{fs, io, rt};

/// What opens files by name.
pub trait OpenOnce {
    type File: ReadOnce + Drop;

    /// What an open of a name may give, or `None` where it fails.
    ghost opens: { Self → List ℕ → Option Self.File → Self → Type 0 };

    /// Opens the file of that name to read it, by one call.
    fn open_once(&mut self, name: &str) -> Option<Self::File>
        ensures { opens self.old name.now result self.new };
}

/// What gives bytes, a piece a call.
pub trait ReadOnce: Read {
    /// What a read may give: its bytes, or `None` where it fails.
    ghost reads: { Self → Option (List ℕ) → Self → Type 0 };

    /// Reads the next bytes, by one call.
    fn read_once(&mut self, buf: &mut [u8]) -> io::Result<usize>
        ensures bound { ReadsAtMost result buf.new }
        ensures bytes { ReadConsumes (Self.remaining self.old) (Self.remaining self.new) result buf.new }
        ensures call { reads self.old (read_piece result buf.new) self.new };
}

/// What takes bytes, a piece a call.
pub trait WriteOnce: Write {
    /// How many bytes a write of a piece may take, or `None` where it fails.
    ghost writes: { Self → List ℕ → Option ℕ → Self → Type 0 };

    /// Writes a front of the piece, by one call.
    fn write_once(&mut self, piece: &[u8]) -> io::Result<usize>
        ensures bound { WritesAtMost result piece.now }
        ensures bytes { WriteAppends (Self.contents self.old) (Self.contents self.new) result piece.now }
        ensures call { writes self.old piece.now (ok_value result) self.new };
}

impl<'a, R: rt::Files> OpenOnce for &'a R {
    type File = R::File;

    ghost opens = { λ s name file t. ⊤ };

    fn open_once(&mut self, name: &str) -> Option<R::File> {
        fs::open(*self, name).ok()
    }
}

impl<F: Read> ReadOnce for F {
    ghost reads = { λ s piece t. ⊤ };

    fn read_once(&mut self, buf: &mut [u8]) -> io::Result<usize> {
        self.read(buf)
    }
}

impl<W: Write> WriteOnce for W {
    ghost writes = { λ s piece taken t. ⊤ };

    fn write_once(&mut self, piece: &[u8]) -> io::Result<usize> {
        self.write(piece)
    }
}
