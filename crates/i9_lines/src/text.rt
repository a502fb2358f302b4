//! The text of lines.
ghost use Rattle.std.specs.Prelude.{◌≡◌, ◌++◌, ◌∷◌, [], ◌≤◌, ◌<◌, ◌/◌, ◌%◌};
ghost use Rattle.std.specs.Prelude.{length, drop, IfOk, OnOk, codes, slice_index};
ghost use Rattle.std.specs.Fmt.{decimal};
ghost use Rattle.std.specs.List.{flat_map, range_with_len};
ghost use Rattle.hex.specs.Hex.{upper_digits};
ghost use Rattle.i9_model.specs.PrintedText.{out_text, event_text, drained_text, point_text, point_shown, bytes_text};
ghost use Rattle.i9_model.specs.PrintedText.{end_text, shown_text, words_text, spaced, spaced_byte, line_feed};
ghost use Rattle.i9_model.specs.PrintedText.{spaced_register, registers_text};
ghost use Rattle.i9_machine.specs.Line.{shown_of};
ghost use Rattle.i9_lines.specs.Lines.{elf_line, generated_line, refused_line};
ghost use Rattle.i9_lines.specs.PlaceText.{view_registers};

use i9_machine::{End, Line, Point};
use i9_model::{Event, View};
use std::alloc::{AllocError, Global};

/// The digits. In upper case `hex` writes them only into a new `String`.
const DIGITS: &[u8; 16] = b"0123456789ABCDEF";

/// What the line of the end of a run begins with.
const END_LABEL: &[u8] = b"#end ";

/// Room for the three lines of a drained point.
const POINT_ROOM: usize = 360;

/// The first digit of a byte.
fn first_digit(byte: u8) -> u8
    ensures { result ≡ slice_index upper_digits (byte / 16) }
{
    DIGITS[usize::from(byte / 16)]
}

/// The second digit of a byte.
fn second_digit(byte: u8) -> u8
    ensures { result ≡ slice_index upper_digits (byte % 16) }
{
    DIGITS[usize::from(byte % 16)]
}

/// A space, and a word in eight upper-case hexadecimal digits.
#[tactic(auto, unfolding(i9_text::specs::Written::word_text, hex::specs::Hex::encode_with))]
fn spaced_word(word: u32) -> [u8; 9]
    ensures { result ≡ spaced word }
{
    let bytes = word.to_be_bytes();
    [
        b' ',
        first_digit(bytes[0]),
        second_digit(bytes[0]),
        first_digit(bytes[1]),
        second_digit(bytes[1]),
        first_digit(bytes[2]),
        second_digit(bytes[2]),
        first_digit(bytes[3]),
        second_digit(bytes[3]),
    ]
}

/// Appends a word after a space.
#[inline(always)]
pub(crate) fn add_word(text: &mut Vec<u8>, word: u32) -> Result<(), AllocError>
    ensures { OnOk result (text.new.items ≡ text.old.items ++ spaced word) }
{
    text.extend_from_slice(&spaced_word(word))
}

/// Appends words, each after a space, and a line feed.
pub(crate) fn add_words(text: &mut Vec<u8>, words: &[u32]) -> Result<(), AllocError>
    ensures { OnOk result (text.new.items ≡ text.old.items ++ flat_map spaced words.now ++ line_feed) }
{
    for word in words {
        add_word(text, *word)?;
    }
    text.push(b'\n')?;
    Ok(())
}

/// Appends a label, and words as `add_words` does.
#[tactic(auto, unfolding(i9_model::specs::PrintedText::words_text))]
pub(crate) fn add_words_line(
    text: &mut Vec<u8>,
    label: &[u8],
    words: &[u32],
) -> Result<(), AllocError>
    ensures { OnOk result (text.new.items ≡ text.old.items ++ words_text label.now words.now) }
{
    text.extend_from_slice(label)?;
    add_words(text, words)
}

/// Appends a count in decimal digits.
pub(crate) fn add_count(alloc: Global, text: &mut Vec<u8>, count: u64) -> Result<(), AllocError>
    ensures { OnOk result (text.new.items ≡ text.old.items ++ decimal count) }
{
    let digits = count.to_string(alloc)?;
    text.extend_from_slice(digits.as_bytes())
}

/// A space, and a byte in two upper-case hexadecimal digits.
#[tactic(auto, unfolding(i9_text::specs::Written::byte_text, hex::specs::Hex::encode_with))]
fn spaced_digits(byte: u8) -> [u8; 3]
    ensures { result ≡ spaced_byte (Some byte) }
{
    [b' ', first_digit(byte), second_digit(byte)]
}

/// Appends a byte after a space, or two dashes where none is compared.
fn add_byte(text: &mut Vec<u8>, byte: Option<u8>) -> Result<(), AllocError>
    ensures { OnOk result (text.new.items ≡ text.old.items ++ spaced_byte byte) }
{
    match byte {
        None => text.extend_from_slice(b" --"),
        Some(byte) => text.extend_from_slice(&spaced_digits(byte)),
    }
}

/// Appends bytes, each after a space, and a line feed.
pub(crate) fn add_bytes(text: &mut Vec<u8>, list: &[Option<u8>]) -> Result<(), AllocError>
    ensures { OnOk result (text.new.items ≡ text.old.items ++ flat_map spaced_byte list.now ++ line_feed) }
{
    for byte in list {
        add_byte(text, *byte)?;
    }
    text.push(b'\n')?;
    Ok(())
}

/// Appends the line of a byte of the console.
#[tactic(auto, unfolding(i9_model::specs::PrintedText::out_text))]
fn add_out(text: &mut Vec<u8>, byte: u8) -> Result<(), AllocError>
    ensures { OnOk result (text.new.items ≡ text.old.items ++ out_text byte) }
{
    text.extend_from_slice(b"#out")?;
    text.extend_from_slice(&spaced_digits(byte))?;
    text.push(b'\n')?;
    Ok(())
}

/// The name of a kind of drained point.
fn name_of(kind: Point) -> &'static [u8]
    ensures { result.now ≡ drained_text kind }
{
    match kind {
        Point::Flush => b"flush",
        Point::Sync => b"sync",
        Point::Event => b"event",
        Point::Int => b"int",
        Point::Fault => b"fault",
        Point::End => b"end",
    }
}

/// Appends the line of an event that was reached after so many instructions.
#[tactic(auto, unfolding(i9_model::specs::PrintedText::event_text))]
fn add_event(alloc: Global, text: &mut Vec<u8>, count: u64, event: &Event) -> Result<(), AllocError>
    ensures { OnOk result (text.new.items ≡ text.old.items ++ event_text count event.now) }
{
    let line = i9_schedule::event_text(alloc, count, event)?;
    text.extend_from_slice(&line)?;
    text.push(b'\n')?;
    Ok(())
}

/// Appends the line of the bytes from an address on.
#[tactic(auto, unfolding(i9_model::specs::PrintedText::bytes_text))]
pub fn add_bytes_line(
    text: &mut Vec<u8>,
    address: u32,
    list: &[Option<u8>],
) -> Result<(), AllocError>
    ensures { OnOk result (text.new.items ≡ text.old.items ++ bytes_text address list.now) }
{
    text.extend_from_slice(b"#mem")?;
    add_word(text, address)?;
    add_bytes(text, list)
}

/// Appends a register after a space: its value, or eight dashes where it is marked.
fn add_register(text: &mut Vec<u8>, view: &View, r: usize) -> Result<(), AllocError>
    requires { r < 32 }
    ensures { OnOk result (text.new.items ≡ text.old.items ++ spaced_register view.now r) }
{
    if (view.marks >> r) % 2 == 1 {
        return text.extend_from_slice(b" --------");
    }
    add_word(text, view.regs[r])
}

/// Appends sixteen registers of a view from one on.
fn add_sixteen(text: &mut Vec<u8>, view: &View, first: usize) -> Result<(), AllocError>
    requires { first ≤ 16 }
    ensures { OnOk result
        (text.new.items ≡ text.old.items ++ flat_map (spaced_register view.now) (range_with_len first 16)) }
{
    for k in 0..16 {
        add_register(text, view, first + k)?;
    }
    Ok(())
}

/// Appends a label, and sixteen registers of a view from one on.
#[tactic(auto, unfolding(i9_model::specs::PrintedText::registers_text))]
fn add_registers_line(
    text: &mut Vec<u8>,
    label: &[u8],
    view: &View,
    first: usize,
) -> Result<(), AllocError>
    requires { first ≤ 16 }
    ensures { OnOk result (text.new.items ≡ text.old.items ++ registers_text label.now view.now first) }
{
    text.extend_from_slice(label)?;
    add_sixteen(text, view, first)?;
    text.push(b'\n')?;
    Ok(())
}

/// Appends the lines of the global and of the local registers of a view.
pub(crate) fn add_registers(text: &mut Vec<u8>, view: &View) -> Result<(), AllocError>
    ensures { OnOk result (text.new.items ≡ text.old.items ++ view_registers view.now) }
{
    add_registers_line(text, b"#g", view, 16)?;
    add_registers_line(text, b"#l", view, 0)
}

/// Appends the first line of a drained point.
#[tactic(auto, unfolding(i9_model::specs::PrintedText::point_text, i9_model::specs::PrintedText::words_text))]
fn add_point_line(
    alloc: Global,
    text: &mut Vec<u8>,
    kind: Point,
    view: &View,
) -> Result<(), AllocError>
    ensures { OnOk result (text.new.items ≡ text.old.items ++ point_text kind view.now) }
{
    text.extend_from_slice(b"#point ")?;
    add_count(alloc, text, view.count)?;
    text.push(b' ')?;
    text.extend_from_slice(name_of(kind))?;
    add_words(text, &[view.ip, view.ac, view.pc])
}

/// Appends the three lines of a drained point.
fn add_point(alloc: Global, text: &mut Vec<u8>, kind: Point, view: &View) -> Result<(), AllocError>
    ensures { OnOk result (text.new.items ≡ text.old.items ++ point_shown kind view.now) }
{
    text.reserve(POINT_ROOM)?;
    add_point_line(alloc, text, kind, view)?;
    add_registers(text, view)
}

/// Appends the line of a dead entry of the fault table.
#[tactic(auto, unfolding(i9_model::specs::PrintedText::words_text))]
fn add_dead(alloc: Global, text: &mut Vec<u8>, code: u8, address: u32) -> Result<(), AllocError>
    ensures { OnOk result
        (text.new.items ≡ text.old.items ++ words_text (codes "#end dead " ++ decimal code) (address ∷ [])) }
{
    text.extend_from_slice(b"#end dead ")?;
    add_count(alloc, text, u64::from(code))?;
    add_words(text, &[address])
}

/// Appends the line of the end of a run.
#[tactic(auto, unfolding(i9_model::specs::PrintedText::end_text))]
fn add_end(alloc: Global, text: &mut Vec<u8>, end: End) -> Result<(), AllocError>
    ensures { OnOk result (text.new.items ≡ text.old.items ++ end_text end) }
{
    match end {
        End::Exit(word) => add_words_line(text, b"#end exit", &[word]),
        End::Limit => text.extend_from_slice(b"#end limit\n"),
        End::Hazard(address) => add_words_line(text, b"#end hazard", &[address]),
        End::Dead(code, address) => add_dead(alloc, text, code, address),
        End::Imprecise(address) => add_words_line(text, b"#end imprecise", &[address]),
    }
}

/// Appends what is printed of a line.
pub(crate) fn add_line(alloc: Global, text: &mut Vec<u8>, line: &Line) -> Result<(), AllocError>
    ensures { OnOk result (text.new.items ≡ text.old.items ++ shown_text (shown_of line.now)) }
{
    match line {
        Line::Out(byte) => add_out(text, *byte),
        Line::Event { count, event } => add_event(alloc, text, *count, event),
        Line::Point { kind, view } => add_point(alloc, text, *kind, view),
        Line::Bytes { address, list } => add_bytes_line(text, *address, list.as_slice()),
        Line::End(end) => add_end(alloc, text, *end),
    }
}

/// The line of the end of a run.
fn end_line(alloc: Global, end: End) -> Result<Vec<u8>, AllocError>
    ensures { IfOk result (λ t. t.items ≡ end_text end) }
{
    let mut line = Vec::new(alloc);
    add_end(alloc, &mut line, end)?;
    Ok(line)
}

/// What the line of an end has behind its label.
fn behind_label(line: &[u8]) -> &[u8]
    requires { length (codes "#end ") ≤ length line.now }
    ensures { result.now ≡ drop (length (codes "#end ")) line.now }
{
    &line[END_LABEL.len()..]
}

/// The line of the run that was made from a number: its instructions, its events, and what the line of its end has
/// behind `#end `.
#[tactic(auto, using(crate::proofs::LineCounts::end_labelled), unfolding(crate::specs::Lines::generated_line, crate::specs::Lines::ending))]
pub(crate) fn generated_line(
    alloc: Global,
    number: u32,
    count: u64,
    events: u64,
    end: End,
) -> Result<Vec<u8>, AllocError>
    ensures { IfOk result (λ t. t.items ≡ generated_line number count events end) }
{
    let mut text = Vec::from_slice(alloc, b"#gen ")?;
    add_count(alloc, &mut text, u64::from(number))?;
    text.push(b' ')?;
    add_count(alloc, &mut text, count)?;
    text.push(b' ')?;
    add_count(alloc, &mut text, events)?;
    text.push(b' ')?;
    let end = end_line(alloc, end)?;
    text.extend_from_slice(behind_label(&end))?;
    Ok(text)
}

/// The line of a refused file, with its first line at fault and its kind.
#[tactic(auto, unfolding(crate::specs::Lines::refused_line))]
pub(crate) fn refused_line(
    alloc: Global,
    what: &[u8],
    line: u64,
    kind: u8,
) -> Result<Vec<u8>, AllocError>
    ensures { IfOk result (λ t. t.items ≡ refused_line what.now (line, kind)) }
{
    let mut text = Vec::from_slice(alloc, b"#")?;
    text.extend_from_slice(what)?;
    text.extend_from_slice(b" line ")?;
    add_count(alloc, &mut text, line)?;
    text.extend_from_slice(b" kind ")?;
    add_count(alloc, &mut text, u64::from(kind))?;
    text.push(b'\n')?;
    Ok(text)
}

/// The line of a refused ELF image, with the kind of its fault.
#[tactic(auto, unfolding(crate::specs::Lines::elf_line))]
pub(crate) fn elf_line(alloc: Global, kind: u8) -> Result<Vec<u8>, AllocError>
    ensures { IfOk result (λ t. t.items ≡ elf_line kind) }
{
    let mut text = Vec::from_slice(alloc, b"#image elf kind ")?;
    add_count(alloc, &mut text, u64::from(kind))?;
    text.push(b'\n')?;
    Ok(text)
}
