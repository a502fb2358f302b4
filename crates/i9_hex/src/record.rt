//! The bytes of a record: count, address in two bytes, type, data and check byte.
ghost use Rattle.std.specs.Prelude.{◌≡◌, ◌+◌, ◌<◌, ◌%◌, length, sum, IfNone};
ghost use Rattle.i9_model.specs.HexText.{fits_type, fault_of_bytes};
ghost use Rattle.i9_hex.specs.Lines.{short_at, IsSized};

use crate::error::{BAD_CHECK, BAD_COUNT, BAD_TYPE};

// The types of records; 03, a start segment address, needs no name.
pub(crate) const DATA: u8 = 0;

pub(crate) const END: u8 = 1;

pub(crate) const BASE: u8 = 2;

pub(crate) const UPPER: u8 = 4;

pub(crate) const START_ADDRESS: u8 = 5;

/// The sum modulo 256.
pub(crate) fn sum_of(bytes: &[u8]) -> u8
    ensures { result ≡ sum bytes.now % 256 }
{
    let mut sum = 0u8;
    for byte in bytes {
        sum = sum.wrapping_add(*byte);
    }
    sum
}

/// The number of two bytes, the high one first.
pub(crate) fn short_at(bytes: &[u8], at: usize) -> u16
    requires { at + 1 < length bytes.now }
    ensures { result ≡ short_at bytes.now at }
{
    u16::from_be_bytes([bytes[at], bytes[at + 1]])
}

/// Whether a record of this type may have this count.
fn fits_type(record_type: u8, count: u8) -> bool
    ensures { result ≡ fits_type record_type count }
{
    match record_type {
        DATA => true,
        END => count == 0,
        BASE | UPPER => count == 2,
        _ => count == 4,
    }
}

/// The fault of a record's bytes by themselves.
#[tactic(auto, unfolding(i9_model::specs::HexText::fault_of_bytes))]
pub(crate) fn fault_of_bytes(bytes: &[u8]) -> Option<u8>
    ensures fault { result ≡ fault_of_bytes bytes.now }
    ensures sized { IfNone result (IsSized bytes.now) }
{
    if bytes.len() < 5 || bytes.len() != usize::from(bytes[0]) + 5 {
        return Some(BAD_COUNT);
    }
    if sum_of(bytes) != 0 {
        return Some(BAD_CHECK);
    }
    if bytes[3] > START_ADDRESS {
        return Some(BAD_TYPE);
    }
    if !fits_type(bytes[3], bytes[0]) {
        return Some(BAD_COUNT);
    }
    None
}
