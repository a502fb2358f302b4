//! Numbers and program headers of a file.
ghost use Rattle.std.specs.Prelude.{◌≡◌, ◌+◌, ◌≤◌, length, drop};
ghost use Rattle.i9_elf.specs.Files.{half_at, word_at, header_size, header_of, is_load, fault_of_load};
ghost use Rattle.i9_elf.specs.Reading.{plain};

use crate::error::{BAD_LOAD, TOO_MANY_BYTES};
use byteorder::{ByteOrder, LittleEndian};

/// How many bytes a program header has.
pub(crate) const HEADER_SIZE: usize = 32;

/// The type of a header that loads.
pub(crate) const LOAD: u32 = 1;

/// How many bytes an image has at most.
const MOST_BYTES: u32 = 4_194_304;

/// The half at a place, low byte first.
pub(crate) fn half_at(bytes: &[u8], at: usize) -> u16
    requires { at + 2 ≤ length bytes.now }
    ensures { result ≡ half_at at bytes.now }
{
    LittleEndian::read_u16(&bytes[at..])
}

/// The word at a place, low byte first.
pub(crate) fn word_at(bytes: &[u8], at: usize) -> u32
    requires { at + 4 ≤ length bytes.now }
    ensures { result ≡ word_at at bytes.now }
{
    LittleEndian::read_u32(&bytes[at..])
}

/// What a program header says, as far as it is used.
#[derive(Clone, Copy)]
pub(crate) struct Header {
    kind: u32,
    /// Where its bytes begin in the file.
    pub(crate) offset: u32,
    /// The physical address.
    pub(crate) address: u32,
    /// How many bytes it has in the file.
    pub(crate) in_file: u32,
    /// How many bytes it has in memory.
    pub(crate) in_memory: u32,
}

impl Header {
    /// Reads the header at a place of a file.
    pub(crate) fn read(file: &[u8], at: usize) -> Header
        requires { at + header_size ≤ length file.now }
        ensures { plain result ≡ header_of (drop at file.now) }
    {
        let bytes = &file[at..];
        Header {
            kind: word_at(bytes, 0),
            offset: word_at(bytes, 4),
            address: word_at(bytes, 12),
            in_file: word_at(bytes, 16),
            in_memory: word_at(bytes, 20),
        }
    }

    /// Whether it loads bytes.
    pub(crate) fn is_load(&self) -> bool
        ensures { result ≡ is_load (plain self.now) }
    {
        self.kind == LOAD
    }

    /// The kind of fault of a header that loads, behind so many bytes in memory.
    #[tactic(auto, unfolding(crate::specs::Files::fault_of_load))]
    pub(crate) fn fault(&self, file: &[u8], size: u32) -> Option<u8>
        ensures { result ≡ fault_of_load file.now size (plain self.now) }
    {
        let end = u64::from(self.offset) + u64::from(self.in_file);
        if self.in_memory < self.in_file || (0 < self.in_file && (file.len() as u64) < end) {
            return Some(BAD_LOAD);
        }
        if u64::from(MOST_BYTES) < u64::from(size) + u64::from(self.in_memory) {
            return Some(TOO_MANY_BYTES);
        }
        None
    }
}
