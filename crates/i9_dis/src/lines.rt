//! The lines of runs of bytes.
ghost use Rattle.std.specs.Prelude.{◌≡◌, ◌+◌, ◌^◌, ◌<◌, ◌≤◌, [], ◌∷◌, ◌++◌, length, map, codes, get_or, OnOk, IfOk};
ghost use Rattle.std.specs.List.{AllByRecursion};
ghost use Rattle.hex.specs.Hex.{encode_upper};
ghost use Rattle.i9_isa.specs.Words.{decoded};
ghost use Rattle.i9_text.specs.Text.{space};
ghost use Rattle.i9_statement.specs.NumberText.{hex_byte_text};
ghost use Rattle.i9_hex.specs.Shown.{part_of};
ghost use Rattle.i9_hex.specs.Writing.{with_line_feed};
ghost use Rattle.i9_hex.specs.Runs.{IsRun};
ghost use Rattle.i9_asm.specs.Listing.{word_at, whole_size, whole_text, line_size, said_text, noted_words, first_line};
ghost use Rattle.i9_asm.specs.Listing.{org_line};
ghost use Rattle.i9_dis.specs.Printed.{AddsLines, AddsRuns};

use crate::words::{add_instruction, add_number};
use i9_decode::decode;
use i9_hex::Segment;
use i9_isa::word_count;
use i9_statement::add_hex;
use std::alloc::{AllocError, Global};

/// The byte at a place, or 0.
fn byte_at(bytes: &[u8], place: usize) -> u8
    ensures { result ≡ get_or bytes.now place 0 }
{
    match bytes.get(place) {
        Some(byte) => *byte,
        None => 0,
    }
}

/// The word at a place, low byte first; bytes that aren't there count as 0.
fn word_at(bytes: &[u8], place: usize) -> u32
    requires { place ≤ 4 }
    ensures { result ≡ word_at place bytes.now }
{
    u32::from_le_bytes([
        byte_at(bytes, place),
        byte_at(bytes, place + 1),
        byte_at(bytes, place + 2),
        byte_at(bytes, place + 3),
    ])
}

/// Appends the statement of the word that these bytes begin with, or of the instruction where it is
/// whole, and answers how many bytes it says.
fn add_whole(alloc: Global, text: &mut Vec<u8>, ip: u32, bytes: &[u8]) -> Result<usize, AllocError>
    ensures text { OnOk result (text.new.items ≡ text.old.items
        ++ whole_text ip bytes.now (decoded (word_at 0 bytes.now) (word_at 4 bytes.now))) }
    ensures size { IfOk result (λ n. n
        ≡ whole_size (decoded (word_at 0 bytes.now) (word_at 4 bytes.now)) (length bytes.now)) }
{
    let word = word_at(bytes, 0);
    match decode(word, word_at(bytes, 4)) {
        Ok(inst) if 4 * word_count(&inst) as usize <= bytes.len() => {
            add_instruction(alloc, text, ip, word, inst)?;
            Ok(4 * word_count(&inst) as usize)
        }
        _ => {
            add_number(alloc, text, word)?;
            Ok(4)
        }
    }
}

/// Appends a byte behind `.byte`.
#[tactic(auto, unfolding(i9_statement::specs::NumberText::hex_byte_text, i9_text::specs::Written::byte_text))]
fn add_byte(alloc: Global, text: &mut Vec<u8>, byte: u8) -> Result<(), AllocError>
    ensures { OnOk result (text.new.items ≡ text.old.items ++ codes ".byte " ++ hex_byte_text byte) }
{
    let digits = hex::encode_upper(alloc, [byte])?;
    text.extend_from_slice(b".byte 0x")?;
    text.extend_from_slice(digits.as_bytes())
}

/// Appends what the first line of a run says, and answers how many bytes that is.
fn add_said(
    alloc: Global,
    text: &mut Vec<u8>,
    address: u32,
    bytes: &[u8],
) -> Result<usize, AllocError>
    ensures text { OnOk result (text.new.items ≡ text.old.items ++ said_text address bytes.now) }
    ensures size { IfOk result (λ n. n ≡ line_size address bytes.now) }
{
    if bytes.len() < 4 || address % 4 > 0 {
        add_byte(alloc, text, byte_at(bytes, 0))?;
        return Ok(1);
    }
    add_whole(alloc, text, address, bytes)
}

/// Appends a space and hexadecimal digits.
fn add_digits(alloc: Global, text: &mut Vec<u8>, bytes: &[u8]) -> Result<(), AllocError>
    ensures { OnOk result (text.new.items ≡ text.old.items ++ space ∷ encode_upper bytes.now) }
{
    let digits = hex::encode_upper(alloc, bytes)?;
    text.push(b' ')?;
    text.extend_from_slice(digits.as_bytes())
}

/// Appends the words or the byte of a line that says so many bytes.
#[tactic(auto, unfolding(i9_text::specs::Written::byte_text, i9_text::specs::Written::word_text))]
fn add_noted(alloc: Global, text: &mut Vec<u8>, size: usize, bytes: &[u8]) -> Result<(), AllocError>
    ensures { OnOk result (text.new.items ≡ text.old.items ++ noted_words size bytes.now) }
{
    if size == 1 {
        return add_digits(alloc, text, &[byte_at(bytes, 0)]);
    }
    add_digits(alloc, text, &word_at(bytes, 0).to_be_bytes())?;
    if size != 4 {
        add_digits(alloc, text, &word_at(bytes, 4).to_be_bytes())?;
    }
    Ok(())
}

/// Appends the first line of a run, and answers how many bytes it says.
#[tactic(auto, unfolding(i9_text::specs::Written::word_text))]
fn add_line(
    alloc: Global,
    text: &mut Vec<u8>,
    address: u32,
    bytes: &[u8],
) -> Result<usize, AllocError>
    ensures text { OnOk result (text.new.items ≡ text.old.items ++ with_line_feed (first_line address bytes.now)) }
    ensures size { IfOk result (λ n. n ≡ line_size address bytes.now) }
{
    let size = add_said(alloc, text, address, bytes)?;
    text.extend_from_slice(b" #")?;
    add_digits(alloc, text, &address.to_be_bytes())?;
    add_noted(alloc, text, size, bytes)?;
    text.push(b'\n')?;
    Ok(size)
}

/// Appends the lines of bytes that stand from an address on.
fn add_lines(alloc: Global, text: &mut Vec<u8>, start: u32, bytes: &[u8]) -> Result<(), AllocError>
    requires { start + length bytes.now ≤ 2 ^ 32 }
    ensures { OnOk result (AddsLines start bytes.now text.old.items text.new.items) }
{
    let mut place = u64::from(start);
    let mut rest = bytes;
    while !rest.is_empty() {
        let size = add_line(alloc, text, place as u32, rest)?;
        let (_, after) = rest.split_at(size);
        place += size as u64;
        rest = after;
    }
    Ok(())
}

/// Appends the line before a run.
fn add_org(alloc: Global, text: &mut Vec<u8>, address: u32) -> Result<(), AllocError>
    ensures { OnOk result (text.new.items ≡ text.old.items ++ with_line_feed (org_line address)) }
{
    text.extend_from_slice(b".org ")?;
    add_hex(alloc, text, address)?;
    text.push(b'\n')?;
    Ok(())
}

/// The lines of runs, each with a line feed behind it.
pub(crate) fn lines_of(alloc: Global, runs: &[Segment]) -> Result<Vec<u8>, AllocError>
    requires { AllByRecursion IsRun (map part_of runs.now) }
    ensures { IfOk result (λ text. AddsRuns (map part_of runs.now) [] text.items) }
{
    let mut text = Vec::new(alloc);
    for run in runs {
        add_org(alloc, &mut text, run.address)?;
        add_lines(alloc, &mut text, run.address, &run.bytes)?;
    }
    Ok(text)
}
