//! The values of a directive.
ghost use Rattle.std.specs.Prelude.{◌≡◌, ◌≤◌, ◌^◌, ◌*◌, ◌++◌, ℕ, length, is_some, IfOk, OnOk, Some, if◌then◌else◌};
ghost use Rattle.std.specs.List.{list_all, flat_map};
ghost use Rattle.i9_statement.specs.Known.{known_in};
ghost use Rattle.i9_statement.specs.Values.{value_of};
ghost use Rattle.i9_statement.specs.Fields.{fields_left};
ghost use Rattle.i9_asm.specs.Places.{no_names, if_holds};
ghost use Rattle.i9_asm.specs.Source.{fits_width, data_value, data_fault, low_bytes};
ghost use Rattle.i9_asm.specs.Said.{bytes_of};

use crate::lines::Width;
use i9_statement::{Fault, Known, Noted, Value, least, settled, split_field, value_of};
use std::alloc::AllocError;

impl Width {
    /// How many bytes a value has.
    fn bytes(self) -> usize
        ensures { result ≡ bytes_of self }
    {
        match self {
            Width::Byte => 1,
            Width::Short => 2,
            Width::Word => 4,
        }
    }

    /// Whether a value is in range, with or without a sign.
    fn fits(self, value: u32) -> bool
        ensures { result ≡ fits_width (bytes_of self) value }
    {
        match self {
            Width::Byte => value < 1 << 8 || value >= u32::MAX - 0x7F,
            Width::Short => value < 1 << 16 || value >= u32::MAX - 0x7FFF,
            Width::Word => true,
        }
    }
}

/// A value that passes a test.
pub(crate) fn if_holds(test: bool, read: Noted<u32>) -> Noted<u32>
    ensures { result ≡ if_holds test read }
{
    if read.fault.is_some() || test {
        read
    } else {
        Noted {
            value: 0,
            fault: Some(Fault::Range),
        }
    }
}

/// A value of so many bytes.
fn data_value(width: Width, value: Option<Value>) -> Noted<u32>
    ensures { result ≡ data_value (bytes_of width) value }
{
    let read = settled(value);
    if_holds(width.fits(read.value), read)
}

/// How many bytes values count: none where one of them has no form of a value.
pub(crate) fn data_size(width: Width, text: &[u8]) -> u128
    ensures small { result ≤ 2 ^ 65 }
    ensures size { result ≡ (if list_all (λ f. is_some (value_of no_names f)) (fields_left (Some text.entry))
        then bytes_of width * length (fields_left (Some text.entry)) else 0) }
{
    let mut size = 0u128;
    let mut rest = Some(text);
    while let Some(fields) = rest {
        let (field, after) = split_field(fields);
        if value_of(Known::Nothing, field).is_none() {
            return 0;
        }
        size += width.bytes() as u128;
        rest = after;
    }
    size
}

/// Appends the bytes of values, and answers their least fault.
pub(crate) fn add_data(
    bytes: &mut Vec<u8>,
    width: Width,
    names: Known<'_>,
    text: &[u8],
) -> Result<Option<Fault>, AllocError>
    ensures fault { IfOk result (λ f. f
        ≡ data_fault (bytes_of width) (known_in names.entry) (fields_left (Some text.entry))) }
    ensures bytes { OnOk result (bytes.new.items ≡ bytes.old.items ++ flat_map
        (λ f. low_bytes (bytes_of width) (data_value (bytes_of width) (value_of (known_in names.entry) f)).value)
        (fields_left (Some text.entry))) }
{
    let mut fault = None;
    let mut rest = Some(text);
    while let Some(fields) = rest {
        let (field, after) = split_field(fields);
        let read = data_value(width, value_of(names, field));
        bytes.extend_from_slice(&read.value.to_le_bytes()[..width.bytes()])?;
        fault = least(fault, read.fault);
        rest = after;
    }
    Ok(fault)
}
