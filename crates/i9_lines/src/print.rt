//! Printing of lines.
ghost use Rattle.std.specs.Prelude.{◌≡◌, ◌≢◌, flat_map};
ghost use Rattle.std.specs.List.{position};
ghost use Rattle.i9_text.specs.Text.{is_line_feed};
ghost use Rattle.i9_lines.specs.Lines.{elf_line, generated_line, refused_line};
ghost use Rattle.i9_lines.specs.Print.{Prints, IsLine, IsPiece, account, line_text};

use crate::text::{add_line, elf_line, generated_line, refused_line};
use i9_machine::{End, Line};
use i9_outside::{Sink, Wrote};
use std::alloc::Global;

/// How printing ended.
#[derive(Clone, Copy)]
pub enum Printed {
    /// The whole text was written.
    Done,
    /// A write failed; a front of the text was written, perhaps nothing.
    Write,
    /// Memory was refused; a front of the text was written, perhaps nothing.
    Memory,
}

/// Writes one line, which may lack its line feed, by one call of the sink.
pub fn print_piece<K: Sink>(piece: &[u8], out: &mut K) -> Printed
    requires line { IsPiece piece.now }
    ensures prints { Prints result (account K.told K.faults K.writes K.sure K.pieces) out.old out.new piece.now }
    ensures takes_no_memory { result ≢ Printed.Memory }
{
    match out.write(piece) {
        Wrote::Ok => Printed::Done,
        Wrote::Failed => Printed::Write,
    }
}

/// The place of the first line feed of a text.
#[tactic(auto, using(crate::proofs::Feeds::feed_position))]
fn feed_place(text: &[u8]) -> Option<usize>
    ensures { result ≡ position is_line_feed text.now }
{
    memchr::memchr(b'\n', text)
}

/// Writes the lines of a text, each by one call of the sink; the last one may lack its line feed.
#[tactic(auto, using(crate::proofs::Prints::prints_rules))]
pub fn print_text<K: Sink>(text: &[u8], out: &mut K) -> Printed
    ensures prints { Prints result (account K.told K.faults K.writes K.sure K.pieces) out.old out.new text.now }
    ensures takes_no_memory { result ≢ Printed.Memory }
{
    let mut rest = text;
    while let Some(place) = feed_place(rest) {
        let (line, after) = rest.split_at(place + 1);
        match print_piece(line, out) {
            Printed::Done => {}
            Printed::Write => return Printed::Write,
            Printed::Memory => return Printed::Memory,
        }
        rest = after;
    }
    if rest.is_empty() {
        Printed::Done
    } else {
        print_piece(rest, out)
    }
}

/// Writes the line of a refused file, with its first line at fault and its kind.
#[tactic(auto, using(crate::proofs::Prints::prints_rules))]
pub fn print_refusal<K: Sink>(
    alloc: Global,
    what: &[u8],
    line: u64,
    kind: u8,
    out: &mut K,
) -> Printed
    requires line { IsLine (refused_line what.now (line, kind)) }
    ensures { Prints result (account K.told K.faults K.writes K.sure K.pieces) out.old out.new
        (refused_line what.now (line, kind)) }
{
    match refused_line(alloc, what, line, kind) {
        Ok(text) => print_piece(&text, out),
        Err(_) => Printed::Memory,
    }
}

/// Writes the line of a refused ELF image, with the kind of its fault.
#[tactic(auto, using(crate::proofs::LineCounts::line_rules))]
pub fn print_elf_refusal<K: Sink>(alloc: Global, kind: u8, out: &mut K) -> Printed
    ensures { Prints result (account K.told K.faults K.writes K.sure K.pieces) out.old out.new (elf_line kind) }
{
    match elf_line(alloc, kind) {
        Ok(text) => print_piece(&text, out),
        Err(_) => Printed::Memory,
    }
}

/// Writes the line of the run of the job of a number: its instructions, its events, and its end.
#[tactic(auto, using(crate::proofs::LineCounts::line_rules))]
pub fn print_generated<K: Sink>(
    alloc: Global,
    number: u32,
    count: u64,
    events: u64,
    end: End,
    out: &mut K,
) -> Printed
    ensures { Prints result (account K.told K.faults K.writes K.sure K.pieces) out.old out.new
        (generated_line number count events end) }
{
    match generated_line(alloc, number, count, events, end) {
        Ok(text) => print_piece(&text, out),
        Err(_) => Printed::Memory,
    }
}

/// Writes the lines of l, each by one call of the sink. They are made in a text that is lent, whatever it holds.
#[tactic(auto, using(crate::proofs::Prints::prints_rules))]
fn print_by<K: Sink>(alloc: Global, text: &mut Vec<u8>, l: &Line, out: &mut K) -> Printed
    ensures { Prints result (account K.told K.faults K.writes K.sure K.pieces) out.old out.new (line_text l.now) }
{
    text.clear();
    match add_line(alloc, text, l) {
        Ok(()) => print_text(text, out),
        Err(_) => Printed::Memory,
    }
}

/// Writes the lines of l, each by one call of the sink.
pub fn print_line<K: Sink>(alloc: Global, l: &Line, out: &mut K) -> Printed
    ensures { Prints result (account K.told K.faults K.writes K.sure K.pieces) out.old out.new (line_text l.now) }
{
    let mut text = Vec::new(alloc);
    print_by(alloc, &mut text, l, out)
}

/// Writes lines in order.
#[inline(never)]
#[tactic(auto, using(crate::proofs::Prints::prints_rules))]
fn print_each<K: Sink>(alloc: Global, text: &mut Vec<u8>, lines: &[Line], out: &mut K) -> Printed
    ensures { Prints result (account K.told K.faults K.writes K.sure K.pieces) out.old out.new
        (flat_map line_text lines.now) }
{
    for line in lines {
        match print_by(alloc, text, line, out) {
            Printed::Done => {}
            Printed::Write => return Printed::Write,
            Printed::Memory => return Printed::Memory,
        }
    }
    Printed::Done
}

/// Writes lines in order. They are made in a text that is lent, whatever it holds. Most steps have none, and then
/// nothing is called.
#[inline(always)]
#[tactic(auto, using(crate::proofs::Prints::prints_rules))]
pub fn print_lines<K: Sink>(
    alloc: Global,
    text: &mut Vec<u8>,
    lines: &[Line],
    out: &mut K,
) -> Printed
    ensures { Prints result (account K.told K.faults K.writes K.sure K.pieces) out.old out.new
        (flat_map line_text lines.now) }
{
    if lines.is_empty() {
        Printed::Done
    } else {
        print_each(alloc, text, lines, out)
    }
}
