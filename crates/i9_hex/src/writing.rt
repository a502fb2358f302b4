//! Writing an image as text.
ghost use Rattle.std.specs.Prelude.{◌≡◌, ◌<◌, ◌≤◌, ◌++◌, length, OnOk, IfOk, map};
ghost use Rattle.std.specs.List.{flat_map};
ghost use Rattle.i9_text.specs.Text.{lines_of};
ghost use Rattle.i9_model.specs.Image.{Part, pairs_of};
ghost use Rattle.i9_model.specs.HexText.{most_bytes, IsImage};
ghost use Rattle.i9_hex.specs.Shown.{part_of};
ghost use Rattle.i9_hex.specs.Writing.{check_of, record_line, piece_len, pieces_of, upper_lines, piece_lines};
ghost use Rattle.i9_hex.specs.Writing.{body_lines, upper_after, hex_text, with_line_feed};

use crate::record::{DATA, END, UPPER, sum_of};
use crate::segments::{Segment, Segments};
use i9_isa::NoMemory;
use std::alloc::{AllocError, Global};

/// How many bytes a record has at most.
const RECORD_SIZE: u32 = 16;

/// The byte that brings the sum to 0 modulo 256.
fn check_byte(bytes: &[u8]) -> u8
    ensures { result ≡ check_of bytes.now }
{
    sum_of(bytes).wrapping_neg()
}

/// Appends the line of a record.
#[tactic(auto, unfolding(crate::specs::Writing::record_line))]
fn add_record(
    alloc: Global,
    text: &mut Vec<u8>,
    record_type: u8,
    address: u16,
    content: &[u8],
) -> Result<(), AllocError>
    requires { length content.now < 256 }
    ensures { OnOk result
        (text.new.items ≡ text.old.items ++ with_line_feed (record_line record_type address content.now)) }
{
    let [high, low] = address.to_be_bytes();
    let mut bytes = Vec::from_slice(alloc, &[content.len() as u8, high, low, record_type])?;
    bytes.extend_from_slice(content)?;
    let check = check_byte(&bytes);
    bytes.push(check)?;
    let digits = hex::encode_upper(alloc, bytes.as_slice())?;
    text.push(b':')?;
    text.extend_from_slice(digits.as_bytes())?;
    text.push(b'\n')?;
    Ok(())
}

/// Appends the line of an upper half, where it is not the one that stands.
fn add_upper(alloc: Global, text: &mut Vec<u8>, upper: u16, half: u16) -> Result<(), AllocError>
    ensures { OnOk result (text.new.items ≡ text.old.items ++ flat_map with_line_feed (upper_lines upper half)) }
{
    if half != upper {
        add_record(alloc, text, UPPER, 0, &half.to_be_bytes())?;
    }
    Ok(())
}

/// Appends the lines of a piece, after an upper half that stands.
fn add_piece(
    alloc: Global,
    text: &mut Vec<u8>,
    upper: u16,
    address: u32,
    bytes: &[u8],
) -> Result<(), AllocError>
    requires { length bytes.now < 256 }
    ensures { OnOk result (text.new.items ≡ text.old.items ++ flat_map with_line_feed
        (piece_lines upper (record { address = address; bytes = bytes.now }))) }
{
    add_upper(alloc, text, upper, (address / 0x1_0000) as u16)?;
    add_record(alloc, text, DATA, (address % 0x1_0000) as u16, bytes)
}

/// Appends the lines of a segment, after an upper half that stands, and says which one stands then.
fn add_segment(
    alloc: Global,
    text: &mut Vec<u8>,
    upper: u16,
    start: u32,
    bytes: &[u8],
) -> Result<u16, AllocError>
    ensures text { OnOk result (text.new.items ≡ text.old.items ++ flat_map with_line_feed
        (body_lines upper (pieces_of (record { address = start; bytes = bytes.now })))) }
    ensures upper { IfOk result (λ half. half
        ≡ upper_after upper (pieces_of (record { address = start; bytes = bytes.now }))) }
{
    let mut address = start;
    let mut half = upper;
    let mut rest = bytes;
    while !rest.is_empty() {
        let most = RECORD_SIZE.min(0x1_0000 - address % 0x1_0000);
        let (piece, after) = rest.split_at((most as usize).min(rest.len()));
        add_piece(alloc, text, half, address, piece)?;
        half = (address / 0x1_0000) as u16;
        address = address.wrapping_add(most);
        rest = after;
    }
    Ok(half)
}

/// The lines of segments, and the end record.
fn text_of(alloc: Global, segments: &[Segment]) -> Result<Vec<u8>, AllocError>
    ensures { IfOk result (λ text. text.items ≡ hex_text (map part_of segments.now)) }
{
    let mut text = Vec::new(alloc);
    let mut upper = 0u16;
    for segment in segments {
        upper = add_segment(alloc, &mut text, upper, segment.address, &segment.bytes)?;
    }
    add_record(alloc, &mut text, END, 0, &[])?;
    Ok(text)
}

/// The Intel HEX text of an image: its segments in order, in records of the Intel HEX object format.
///
/// Each segment is cut from its start into records of 16 bytes, shorter at its end and at a multiple
/// of 65536; a record of type 04 stands before one whose upper half of the address is another than
/// that of the record before it, at first 0. Digits are upper case, lines end with a line feed, and
/// the last is the end record. Which of the texts of an image this is, is this project's own.
pub fn write(alloc: Global, image: &Segments) -> Result<Vec<u8>, NoMemory>
    ensures text { IfOk result (λ t. t.items ≡ hex_text image.now) }
    // What is written says the pairs of the image, where it has at most as many as are read.
    ensures again { length (pairs_of image.now) ≤ most_bytes
        → IfOk result (λ t. IsImage (lines_of t.items) (pairs_of image.now)) }
{
    match text_of(alloc, image.as_slice()) {
        Ok(text) => Ok(text),
        Err(AllocError) => Err(NoMemory),
    }
}
