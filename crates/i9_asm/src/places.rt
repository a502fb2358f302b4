//! Places in a source: the location, and the names that are known there.
ghost use Rattle.std.specs.Prelude.{◌≡◌, ◌<◌, ◌≤◌, ◌+◌, ◌%◌, ◌^◌, true};
ghost use Rattle.std.specs.List.{list_all};
ghost use Rattle.i9_asm.specs.Lines.{item_of, label_of};
ghost use Rattle.i9_asm.specs.Said.{item_as, label_in};
ghost use Rattle.i9_asm.specs.Places.{is_alignment, space_of, alignment_of, is_ascii};
ghost use Rattle.i9_asm.specs.Places.{is_label, is_form_fault, statement_size, moved_up, effect_of};

use crate::data::{data_size, if_holds};
use crate::lines::{Line, Said};
use crate::strings::string_size;
use i9_isa::word_count;
use i9_statement::{
    Fault, Known, Noted, Statement, Value, is_name, settled, statement_of, value_of,
};

/// How many bytes `.space` has at most.
const MOST_SPACE: u32 = 1_048_576;

/// Where the location counts from 0 again.
const LOCATION_COUNT: u128 = 1 << 33;

/// A power of two from 2 to 4096.
fn is_alignment(n: u32) -> bool
    ensures { result ≡ is_alignment n }
{
    matches!(
        n,
        2 | 4 | 8 | 16 | 32 | 64 | 128 | 256 | 512 | 1024 | 2048 | 4096
    )
}

/// How many bytes `.space` counts.
pub(crate) fn space_of(value: Option<Value>) -> Noted<u32>
    ensures { result ≡ space_of value }
{
    let read = settled(value);
    if_holds(read.value <= MOST_SPACE, read)
}

/// To which multiples `.align` moves.
pub(crate) fn alignment_of(value: Option<Value>) -> Noted<u32>
    ensures { result ≡ alignment_of value }
{
    let read = settled(value);
    if_holds(is_alignment(read.value), read)
}

/// A fault with which a line counts as no bytes.
fn is_form_fault(fault: Option<Fault>) -> bool
    ensures { result ≡ is_form_fault fault }
{
    match fault {
        Some(fault) => fault.kind() < 4,
        None => false,
    }
}

/// The bytes of a statement.
fn statement_size(read: &Noted<Statement>) -> u128
    ensures { result ≡ statement_size read.now }
{
    if is_form_fault(read.fault) {
        0
    } else {
        4 * word_count(&read.value.inst) as u128
    }
}

/// A location moved up to a multiple, if it is none.
fn moved_up(location: u64, multiple: u32) -> Option<u64>
    requires location { location < 2 ^ 33 }
    requires multiple { is_alignment multiple ≡ true }
    ensures { result ≡ moved_up location multiple }
{
    let multiple = u64::from(multiple);
    let up = (location + (multiple - 1)) / multiple * multiple;
    if up == location { None } else { Some(up) }
}

/// Whether a line has no byte past ASCII. All bytes are tested, so many are at once.
pub(crate) fn is_ascii(line: &[u8]) -> bool
    ensures { result ≡ list_all is_ascii line.now }
{
    let mut ascii = true;
    for byte in line {
        ascii = ascii & (*byte < 128);
    }
    ascii
}

/// No label, or a name.
pub(crate) fn is_label(label: Option<&[u8]>) -> bool
    ensures { result ≡ is_label (label_in label.entry) }
{
    match label {
        Some(name) => is_name(name),
        None => true,
    }
}

/// What a line does behind its label: nothing, with a byte past ASCII or a label that is no name.
pub(crate) fn effect_of<'a>(text: &[u8], line: &Line<'a>, named: bool) -> Said<'a>
    requires label { named ≡ is_label (label_of text.now) }
    requires said { item_as line.now.said ≡ item_of text.now }
    ensures { item_as result ≡ effect_of text.now }
{
    if named && is_ascii(text) {
        line.said
    } else {
        Said::Empty
    }
}

/// Where a line stands: its location, and the names that are known there.
#[derive(Clone, Copy)]
pub(crate) struct Place<'a> {
    pub(crate) location: u64,
    pub(crate) known: Known<'a>,
    ghost low: { location < 2 ^ 33 },
}

impl Place<'_> {
    ghost use Rattle.i9_asm.specs.Places.{address_at, next_location, location_count, size_of, moved_to};
    ghost use Rattle.i9_asm.specs.Reading.{place_of};

    /// The address there.
    pub(crate) fn address(&self) -> u32
        ensures { result ≡ address_at (place_of self.now) }
    {
        (self.location % 0x1_0000_0000) as u32
    }

    /// How many bytes an item counts, whatever names are worth.
    pub(crate) fn size_of(&self, said: &Said<'_>) -> u128
        ensures small { result ≤ 2 ^ 65 }
        ensures size { result ≡ size_of (place_of self.now) (item_as said.now) }
    {
        match *said {
            Said::Space(field) => space_of(value_of(self.known, field)).value as u128,
            Said::Data(width, text) => data_size(width, text),
            Said::Ascii(text) => string_size(text).unwrap_or(0) as u128,
            Said::Instruction(text) => {
                statement_size(&statement_of(self.address(), Known::Nothing, text))
            }
            _ => 0,
        }
    }

    /// Where an item moves the location to, and so begins a new segment.
    pub(crate) fn moved_to(&self, said: &Said<'_>) -> Option<u64>
        ensures { result ≡ moved_to (place_of self.now) (item_as said.now) }
    {
        match *said {
            Said::Org(field) => {
                let read = settled(value_of(self.known, field));
                if read.fault.is_some() {
                    None
                } else {
                    Some(u64::from(read.value))
                }
            }
            Said::Align(field) => {
                let read = alignment_of(value_of(self.known, field));
                if read.fault.is_some() {
                    None
                } else {
                    moved_up(self.location, read.value)
                }
            }
            _ => None,
        }
    }

    /// The location behind an item that moves to another one, or counts so many bytes.
    pub(crate) fn next_location(&self, moved: Option<u64>, size: u128) -> u64
        requires { size ≤ 2 ^ 65 }
        ensures { result ≡ next_location moved (self.now.location + size) % location_count }
    {
        let next = match moved {
            Some(location) => location as u128,
            None => self.location as u128 + size,
        };
        (next % LOCATION_COUNT) as u64
    }
}
