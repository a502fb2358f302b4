//! What is known after some lines of a text.
ghost use Rattle.std.specs.Prelude.{◌≡◌, ◌≤◌, length};
ghost use Rattle.i9_model.specs.Image.{pairs_of};
ghost use Rattle.i9_model.specs.HexText.{most_bytes};

use crate::error::{AFTER_END, BAD_DIGITS, HexError, HexFault, NO_COLON, NO_END, TOO_MANY_BYTES};
use crate::record::{BASE, DATA, END, UPPER, fault_of_bytes, short_at};
use crate::segments::Segments;
use hex::FromHexError;
use i9_isa::NoMemory;
use std::alloc::Global;

/// How many data bytes an image has at most.
const MOST_BYTES: u32 = 4_194_304;

/// Where the bytes of data records are.
#[derive(Clone, Copy, Debug)]
pub(crate) enum Place {
    /// At this upper half of the address.
    Upper(u16),
    /// In the segment whose base is 16 times this.
    Base(u16),
}

impl Place {
    ghost use Rattle.std.specs.Prelude.{◌<◌, ◌++◌, OnOk};
    ghost use Rattle.i9_model.specs.Image.{pairs_at};
    ghost use Rattle.i9_model.specs.HexText.{address_in};
    ghost use Rattle.i9_hex.specs.Reading.{origin_of};

    /// The address of a data byte, by the sum of its record's address field and its index.
    fn address(self, number: u32) -> u32
        requires { number < 131072 }
        ensures { result ≡ address_in (origin_of self) number }
    {
        match self {
            Place::Upper(half) => (u32::from(half) * 0x1_0000).wrapping_add(number),
            Place::Base(base) => u32::from(base) * 16 + number % 0x1_0000,
        }
    }

    /// Puts the bytes of a data record, whose address field this is.
    fn put_all(self, segments: &mut Segments, address: u16, bytes: &[u8]) -> Result<(), NoMemory>
        requires { length bytes.now < 256 }
        ensures { OnOk result (pairs_of segments.new
            ≡ pairs_of segments.old ++ pairs_at (address_in (origin_of self)) address bytes.now) }
    {
        for (index, byte) in bytes.iter().enumerate() {
            segments.put(self.address(u32::from(address) + index as u32), *byte)?;
        }
        Ok(())
    }
}

/// Why a line is not taken.
#[derive(Debug, Drop)]
pub(crate) enum LineError {
    /// The line has a fault of this kind.
    Bad(u8),
    /// Memory was refused.
    Memory,
}

impl LineError {
    ghost use Rattle.i9_hex.specs.Reading.{error_at};

    /// The error of the text, for the line of this number.
    pub(crate) fn at(self, line: u64) -> HexError
        ensures { result ≡ error_at self line }
    {
        match self {
            LineError::Bad(kind) => HexError::Bad(HexFault { line, kind }),
            LineError::Memory => HexError::Memory,
        }
    }
}

/// What the lines so far say.
#[derive(Drop)]
pub(crate) struct Reader {
    segments: Segments,
    place: Place,
    /// Whether the end record was read.
    ended: bool,
    /// How many data bytes were read.
    count: u32,
    ghost counted: { count ≡ length (pairs_of segments) },
    ghost limited: { count ≤ most_bytes },
}

impl Reader {
    ghost use Rattle.std.specs.Prelude.{◌<◌, Ok};
    ghost use Rattle.i9_text.specs.FirstFault.{or_fault};
    ghost use Rattle.i9_model.specs.HexText.{fault_of_more, fault_of_room, fault_of, missing_end, start};
    ghost use Rattle.i9_hex.specs.Lines.{with_pairs, with_record, with_line, IsSized};
    ghost use Rattle.i9_hex.specs.Reading.{state_of, Takes, Reads};

    /// Before the first line.
    pub(crate) fn new(alloc: Global) -> Reader
        ensures { state_of result ≡ start }
    {
        Reader {
            segments: Segments::new(alloc),
            place: Place::Upper(0),
            ended: false,
            count: 0,
        }
    }

    /// Takes the bytes of a data record, whose address field this is.
    fn with_bytes(self, address: u16, bytes: &[u8]) -> Result<Reader, LineError>
        requires { length bytes.now < 256 }
        ensures { Takes result (fault_of_more (state_of self) (length bytes.now))
            (with_pairs (state_of self) address bytes.now) }
    {
        let Reader {
            mut segments,
            place,
            ended,
            count,
        } = self;
        let count = count + bytes.len() as u32;
        if count > MOST_BYTES {
            return Err(LineError::Bad(TOO_MANY_BYTES));
        }
        match place.put_all(&mut segments, address, bytes) {
            Ok(()) => Ok(Reader {
                segments,
                place,
                ended,
                count,
            }),
            Err(NoMemory) => Err(LineError::Memory),
        }
    }

    /// Takes the bytes of a record that have no fault by themselves.
    #[tactic(auto, unfolding(crate::specs::Lines::with_record))]
    fn with_record(mut self, bytes: &[u8]) -> Result<Reader, LineError>
        requires { IsSized bytes.now }
        ensures { Takes result (fault_of_room (state_of self) bytes.now) (with_record (state_of self) bytes.now) }
    {
        match bytes[3] {
            DATA => {
                let end = 4 + usize::from(bytes[0]);
                return self.with_bytes(short_at(bytes, 1), &bytes[4..end]);
            }
            END => self.ended = true,
            BASE => self.place = Place::Base(short_at(bytes, 4)),
            UPPER => self.place = Place::Upper(short_at(bytes, 4)),
            // Start addresses are not kept.
            _ => {}
        }
        Ok(self)
    }

    /// Takes a line.
    #[tactic(auto, unfolding(i9_model::specs::HexText::fault_of))]
    pub(crate) fn with_line(self, alloc: Global, line: &[u8]) -> Result<Reader, LineError>
        ensures { Takes result (fault_of (state_of self) line.now) (with_line (state_of self) line.now) }
    {
        let [first, digits @ ..] = line else {
            return Ok(self);
        };
        if self.ended {
            return Err(LineError::Bad(AFTER_END));
        }
        if *first != b':' {
            return Err(LineError::Bad(NO_COLON));
        }
        match hex::decode(alloc, digits) {
            Ok(bytes) => match fault_of_bytes(&bytes) {
                Some(kind) => Err(LineError::Bad(kind)),
                None => self.with_record(&bytes),
            },
            Err(FromHexError::OutOfMemory) => Err(LineError::Memory),
            Err(_) => Err(LineError::Bad(BAD_DIGITS)),
        }
    }

    /// The image, at the end of a text of so many lines.
    pub(crate) fn finish(self, lines: u64) -> Result<Segments, HexError>
        ensures { Reads result (or_fault (missing_end (state_of self)) lines (Ok (pairs_of self.segments))) }
    {
        if !self.ended {
            return Err(HexError::Bad(HexFault {
                line: lines,
                kind: NO_END,
            }));
        }
        Ok(self.segments)
    }
}
