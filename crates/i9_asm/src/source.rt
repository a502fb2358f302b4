//! Sources: what each line adds, and the segments.
ghost use Rattle.std.specs.Prelude.{◌≡◌, ◌<◌, ◌≤◌, ◌^◌, ◌+◌, ◌*◌, IfOk};
ghost use Rattle.i9_statement.specs.Known.{definitions};
ghost use Rattle.i9_statement.specs.Values.{Names};
ghost use Rattle.i9_asm.specs.Said.{item_as};
ghost use Rattle.i9_asm.specs.Source.{most_bytes, fault_if};

use crate::error::{AsmError, AsmFault};
use crate::lines::{Said, read_line};
use crate::places::{Place, is_ascii};
use i9_hex::Segments;
use i9_isa::NoMemory;
use i9_statement::{Fault, Known, Table, least};
use std::alloc::{AllocError, Global};

/// How many addresses there are.
const ADDRESS_COUNT: u128 = 1 << 32;

/// How many bytes a source has at most.
const MOST_BYTES: u128 = 4_194_304;

/// A fault, where a test holds.
fn fault_if(test: bool, fault: Fault) -> Option<Fault>
    ensures { result ≡ fault_if test fault }
{
    if test { Some(fault) } else { None }
}

/// Why a line is not taken.
#[derive(Debug, Drop)]
pub(crate) enum LineError {
    /// The line has this least fault.
    Bad(Fault),
    /// Memory was refused.
    Memory,
}

impl LineError {
    ghost use Rattle.i9_asm.specs.Reading.{error_at};

    /// The error of the source, for the line of this number.
    pub(crate) fn at(self, line: u64) -> AsmError
        ensures { result ≡ error_at self line }
    {
        match self {
            LineError::Bad(fault) => AsmError::Bad(AsmFault {
                line,
                kind: fault.kind(),
            }),
            LineError::Memory => AsmError::Memory,
        }
    }
}

/// Where a source stands: the location, the segments that ended, the one that grows, and how many
/// bytes were counted.
#[derive(Drop)]
pub(crate) struct Source {
    location: u64,
    segments: Segments,
    address: u32,
    bytes: Vec<u8>,
    total: u32,
    ghost low: { location < 2 ^ 33 },
    ghost few: { total ≤ most_bytes },
}

/// A source with the bytes of an item that aren't counted yet, the item's least fault, and how many bytes it counts.
#[derive(Drop)]
pub(crate) struct Grown {
    source: Source,
    fault: Option<Fault>,
    size: u128,
}

impl Source {
    ghost use Rattle.i9_statement.specs.Noted.{least};
    ghost use Rattle.i9_statement.specs.Known.{known_in, values_of, values_before};
    ghost use Rattle.i9_asm.specs.Lines.{label_of};
    ghost use Rattle.i9_asm.specs.Places.{no_names, start_place, past_label, size_of, moved_to};
    ghost use Rattle.i9_asm.specs.Source.{start_source, item_fault, room_fault, rest_fault, begun, segments_of};
    ghost use Rattle.i9_asm.specs.Reading.{place_of, source_at, GrowsBy, Continues, Takes};

    /// Before the first line.
    pub(crate) fn new(alloc: Global) -> Source
        ensures { source_at no_names result ≡ start_source }
    {
        Source {
            location: 0,
            segments: Segments::new(alloc),
            address: 0,
            bytes: Vec::new(alloc),
            total: 0,
        }
    }

    /// The place there, where these names are known.
    fn place<'a>(&self, known: Known<'a>) -> Place<'a>
        ensures { place_of result ≡ (source_at (known_in known.entry) self.now).place }
    {
        Place {
            location: self.location,
            known,
        }
    }

    /// A new segment, where the location was moved.
    fn begun(self, alloc: Global, moved: Option<u64>) -> Result<Source, AllocError>
        ensures { IfOk result (λ s. (known : Names) → source_at known s ≡ begun moved (source_at known self)) }
    {
        let Some(location) = moved else {
            return Ok(self);
        };
        let mut segments = self.segments;
        if segments.push(self.address, self.bytes).is_err() {
            return Err(AllocError);
        }
        Ok(Source {
            location: self.location,
            segments,
            address: (location % 0x1_0000_0000) as u32,
            bytes: Vec::new(alloc),
            total: self.total,
        })
    }

    /// The fault of so many bytes more.
    fn room_fault(&self, size: u128) -> Option<Fault>
        requires { size ≤ 2 ^ 65 }
        ensures { result ≡ room_fault (source_at no_names self.now) size }
    {
        let range = self.location as u128 + size > ADDRESS_COUNT;
        let many = self.total as u128 + size > MOST_BYTES;
        least(
            fault_if(range, Fault::Range),
            fault_if(many, Fault::TooMany),
        )
    }

    /// The bytes of an item, in a new segment where it moves.
    fn grown(
        self,
        alloc: Global,
        names: Known<'_>,
        place: Place<'_>,
        said: &Said<'_>,
    ) -> Result<Grown, AllocError>
        requires { (place_of place).location ≡ self.location }
        ensures small { IfOk result (λ g. g.size ≤ 2 ^ 65) }
        ensures grows { IfOk result (λ g. GrowsBy (known_in names.entry)
            (source_at (place_of place.entry).known self) (item_as said.now) g) }
    {
        let moved = place.moved_to(said);
        let Source {
            location,
            segments,
            address,
            mut bytes,
            total,
        } = self.begun(alloc, moved)?;
        let old = bytes.len();
        let fault = place.add_item(names, said, &mut bytes)?;
        let size = if fault.is_some() {
            place.size_of(said)
        } else {
            (bytes.len() - old) as u128
        };
        let source = Source {
            location,
            segments,
            address,
            bytes,
            total,
        };
        Ok(Grown {
            source,
            fault,
            size,
        })
    }

    /// The source at a location, with so many bytes counted.
    fn counted(self, location: u64, size: u128) -> Source
        requires low { location < 2 ^ 33 }
        requires few { self.total + size ≤ most_bytes }
        ensures { (known : Names) → source_at known result ≡ record (source_at known self)
            { place = record { location = location; known = known }; total = self.total + size } }
    {
        Source {
            location,
            segments: self.segments,
            address: self.address,
            bytes: self.bytes,
            total: self.total + size as u32,
        }
    }

    /// Takes what a line says behind its label, where the line has this fault before.
    fn with_said(
        self,
        alloc: Global,
        names: Known<'_>,
        behind: Known<'_>,
        front: Option<Fault>,
        said: &Said<'_>,
    ) -> Result<Source, LineError>
        ensures { Continues (known_in names.entry) (source_at (known_in behind.entry) self) (item_as said.now)
            (least front (rest_fault (known_in names.entry) (source_at (known_in behind.entry) self)
            (item_as said.now))) result }
    {
        let place = self.place(behind);
        let Ok(grown) = self.grown(alloc, names, place, said) else {
            return Err(LineError::Memory);
        };
        let rest = least(grown.fault, grown.source.room_fault(grown.size));
        if let Some(fault) = least(front, rest) {
            return Err(LineError::Bad(fault));
        }
        let location = place.next_location(place.moved_to(said), grown.size);
        Ok(grown.source.counted(location, grown.size))
    }

    /// Takes a line with so many lines before it, where a table has the definitions of all names.
    pub(crate) fn with_line(
        self,
        alloc: Global,
        table: &Table,
        number: u64,
        text: &[u8],
    ) -> Result<Source, LineError>
        requires { values_before (2 * number + 1) (definitions table.now) ≡ (past_label (label_of text.now)
            (source_at (values_before (2 * number) (definitions table.now)) self).place).known }
        ensures { Takes (values_of (definitions table.now))
            (source_at (values_before (2 * number) (definitions table.now)) self) text.now result }
    {
        let line = read_line(text);
        let step = 2 * u128::from(number);
        let form = fault_if(!is_ascii(text), Fault::Form);
        let here = self.place(Known::Before(table, step));
        let front = least(form, here.label_fault(line.label));
        let behind = Known::Before(table, step + 1);
        self.with_said(alloc, Known::All(table), behind, front, &line.said)
    }

    /// The segments, at the end of the source.
    pub(crate) fn finish(self) -> Result<Segments, NoMemory>
        ensures { IfOk result (λ image. (known : Names) → image ≡ segments_of (source_at known self)) }
    {
        let mut segments = self.segments;
        segments.push(self.address, self.bytes)?;
        Ok(segments)
    }
}
