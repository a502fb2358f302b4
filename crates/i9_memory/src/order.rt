//! Halves and words of bytes, in the order of a region.
ghost use Rattle.std.specs.Prelude.{◌≡◌, if◌then◌else◌};
ghost use Rattle.std.specs.Int.{w16, w32, from_le_bytes, from_be_bytes, to_le_bytes, to_be_bytes};

use byteorder::{BigEndian, ByteOrder, LittleEndian};

/// Two bytes as a half: the first is its high byte in a big-endian region, and its low byte in others.
#[inline(always)]
pub fn half_of(big: bool, bytes: [u8; 2]) -> u16
    ensures { result ≡ (if big then from_be_bytes w16 bytes else from_le_bytes w16 bytes) }
{
    if big {
        BigEndian::read_u16(&bytes)
    } else {
        LittleEndian::read_u16(&bytes)
    }
}

/// Four bytes as a word: the first is its highest byte in a big-endian region, and its lowest in others.
#[inline(always)]
pub fn word_of(big: bool, bytes: [u8; 4]) -> u32
    ensures { result ≡ (if big then from_be_bytes w32 bytes else from_le_bytes w32 bytes) }
{
    if big {
        BigEndian::read_u32(&bytes)
    } else {
        LittleEndian::read_u32(&bytes)
    }
}

/// The bytes of a half, from the lowest address up.
#[inline(always)]
pub fn bytes_of_half(big: bool, v: u16) -> [u8; 2]
    ensures { result ≡ (if big then to_be_bytes w16 v else to_le_bytes w16 v) }
{
    let mut bytes = [0; 2];
    if big {
        BigEndian::write_u16(&mut bytes, v);
    } else {
        LittleEndian::write_u16(&mut bytes, v);
    }
    bytes
}

/// The bytes of a word, from the lowest address up.
#[inline(always)]
pub fn bytes_of_word(big: bool, v: u32) -> [u8; 4]
    ensures { result ≡ (if big then to_be_bytes w32 v else to_le_bytes w32 v) }
{
    let mut bytes = [0; 4];
    if big {
        BigEndian::write_u32(&mut bytes, v);
    } else {
        LittleEndian::write_u32(&mut bytes, v);
    }
    bytes
}
