//! Which breakpoints match.
ghost use Rattle.std.specs.Prelude.{◌≡◌, ◌&&◌};
ghost use Rattle.i9_model.specs.Tracing.{is_at_address, is_at_access, break_flags, with_bits};

use crate::bits::{bit_where, has_bit};
use i9_model::trace::{
    DAB0_ENABLE_PLACE, DAB0_FLAG_PLACE, DAB1_ENABLE_PLACE, DAB1_FLAG_PLACE, IPB_ENABLE_PLACE,
    IPB0_FLAG_PLACE, IPB1_FLAG_PLACE,
};
use i9_model::{Breaks, Seen};

/// The bytes of a word, of which every instruction address is a multiple.
const WORD_SIZE: u32 = 4;

/// Whether an instruction breakpoint is enabled and at the address of the instruction.
fn is_at_address(ipb: u32, address: u32) -> bool
    ensures { result ≡ is_at_address ipb address }
{
    has_bit(ipb, IPB_ENABLE_PLACE) && ipb / WORD_SIZE == address / WORD_SIZE
}

/// Whether a data breakpoint is enabled and at the effective address.
fn is_at_access(is_enabled: bool, dab: u32, access: Option<u32>) -> bool
    ensures { result ≡ (is_enabled && is_at_access dab access) }
{
    match access {
        None => false,
        Some(address) => is_enabled && dab == address,
    }
}

/// The flags of the breakpoints that match.
pub(crate) fn break_flags(s: &Seen, b: &Breaks) -> u32
    ensures { result ≡ with_bits 0 (break_flags s.now b.now) }
{
    let first_enabled = has_bit(b.bpcon, DAB0_ENABLE_PLACE);
    let second_enabled = has_bit(b.bpcon, DAB1_ENABLE_PLACE);
    bit_where(is_at_address(b.ipb[0], s.address), IPB0_FLAG_PLACE)
        | bit_where(is_at_address(b.ipb[1], s.address), IPB1_FLAG_PLACE)
        | bit_where(
            is_at_access(first_enabled, b.dab[0], s.access),
            DAB0_FLAG_PLACE,
        )
        | bit_where(
            is_at_access(second_enabled, b.dab[1], s.access),
            DAB1_FLAG_PLACE,
        )
}
