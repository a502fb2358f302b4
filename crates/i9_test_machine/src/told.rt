//! What a machine answers, as a text: counts and turns are decimal, and all else is hexadecimal.
use i9_frames::Sets;
use i9_machine::{End, Line, Machine, Point, Turn};
use i9_model::View;
use std::alloc::Global;
use std::test::Fail;

/// Puts an answer behind those that stand in a text; one without characters is left out.
pub(crate) fn add(text: &mut String, answer: &str) -> Result<(), Fail> {
    if answer.is_empty() {
        return Ok(());
    }
    if !text.is_empty() {
        text.push_str(", ")?;
    }
    text.push_str(answer.trim())?;
    Ok(())
}

/// Whether it is so.
pub(crate) fn truth(alloc: Global, is: bool) -> Result<String, Fail> {
    Ok(format!(in alloc; "{is}")?)
}

/// How often something was, and the last step.
pub(crate) fn counted_text(alloc: Global, count: u64, last: Turn) -> Result<String, Fail> {
    let last = turn_text(alloc, last)?;
    Ok(format!(in alloc; "{count} {last}")?)
}

/// A text of its own.
fn plain(alloc: Global, text: &str) -> Result<String, Fail> {
    Ok(String::from_str(alloc, text)?)
}

/// A number in decimal digits.
fn decimal(alloc: Global, number: u64) -> Result<String, Fail> {
    Ok(format!(in alloc; "{number}")?)
}

/// A number in hexadecimal digits.
fn hex(alloc: Global, number: u64) -> Result<String, Fail> {
    Ok(format!(in alloc; "{number:X}")?)
}

/// A word in hexadecimal digits behind its name.
fn named(alloc: Global, name: &str, word: u32) -> Result<String, Fail> {
    Ok(format!(in alloc; "{name} {word:X}")?)
}

/// How a run ends.
pub(crate) fn end_text(alloc: Global, end: Option<End>) -> Result<String, Fail> {
    match end {
        Some(End::Exit(word)) => named(alloc, "exit", word),
        Some(End::Limit) => plain(alloc, "limit"),
        Some(End::Hazard(a)) => named(alloc, "hazard", a),
        Some(End::Dead(code, a)) => Ok(format!(in alloc; "dead {code} {a:X}")?),
        Some(End::Imprecise(a)) => named(alloc, "imprecise", a),
        None => plain(alloc, "no end"),
    }
}

/// What a step was.
pub(crate) fn turn_text(alloc: Global, turn: Turn) -> Result<String, Fail> {
    match turn {
        Turn::On => plain(alloc, "on"),
        Turn::Issued(_) => plain(alloc, "issued"),
        Turn::End(end) => end_text(alloc, Some(end)),
        Turn::Memory => plain(alloc, "no memory"),
    }
}

/// What a step below a turn was, or that none comes there.
pub(crate) fn below_text(alloc: Global, turn: Option<Turn>) -> Result<String, Fail> {
    match turn {
        Some(turn) => turn_text(alloc, turn),
        None => plain(alloc, "none"),
    }
}

/// The instruction that was issued: how many came before it, its address and its words.
pub(crate) fn issue_text(alloc: Global, turn: Turn) -> Result<String, Fail> {
    match turn {
        Turn::Issued(t) => Ok(format!(in alloc;
            "{} {:X} {:X} {:X}",
            t.count, t.address, t.first, t.second
        )?),
        _ => turn_text(alloc, turn),
    }
}

/// Bytes of memory, where they are compared.
pub(crate) fn bytes_text(alloc: Global, bytes: &[Option<u8>]) -> Result<String, Fail> {
    let mut text = String::new(alloc);
    for byte in bytes {
        match byte {
            Some(byte) => text.push_str(&format!(in alloc; " {byte:X}")?)?,
            None => text.push_str(" none")?,
        }
    }
    Ok(text)
}

/// The bytes of overlaid memory at addresses.
fn overlaid_text(alloc: Global, machine: &Machine, addresses: &str) -> Result<String, Fail> {
    let mut bytes = Vec::new(alloc);
    for address in addresses.split_whitespace() {
        bytes.push(machine.byte(u32::from_str_radix(address, 16)?))?;
    }
    bytes_text(alloc, bytes.as_slice())
}

/// A drained point, whose view may be another one.
fn point_text(alloc: Global, kind: Point, is_viewed: bool) -> Result<String, Fail> {
    let place = if is_viewed { "" } else { " of another view" };
    Ok(format!(in alloc; "point {kind:?}{place}")?)
}

/// Bytes of memory that are shown, behind the address of the first.
fn shown_text(alloc: Global, address: u32, bytes: &[Option<u8>]) -> Result<String, Fail> {
    let bytes = bytes_text(alloc, bytes)?;
    Ok(format!(in alloc; "bytes {address:X}{bytes}")?)
}

/// A line. A point is told alone where its view is the one that is given.
fn line_text(alloc: Global, line: &Line, view: &View) -> Result<String, Fail> {
    match line {
        Line::Out(byte) => named(alloc, "out", u32::from(*byte)),
        Line::Event { count, event } => Ok(format!(in alloc; "event {count} {event:?}")?),
        Line::Point { kind, view: shown } => point_text(alloc, *kind, shown == view),
        Line::Bytes { address, list } => shown_text(alloc, *address, list.as_slice()),
        Line::End(end) => end_text(alloc, Some(*end)),
    }
}

/// Lines, with the points of a view.
pub(crate) fn lines_text(alloc: Global, lines: &[Line], view: &View) -> Result<String, Fail> {
    let mut text = String::new(alloc);
    for line in lines {
        add(&mut text, &line_text(alloc, line, view)?)?;
    }
    if text.is_empty() {
        text.push_str("no lines")?;
    }
    Ok(text)
}

/// Registers, by their numbers.
fn registers_text(alloc: Global, values: &[u32], numbers: &str) -> Result<String, Fail> {
    let mut text = String::new(alloc);
    for number in numbers.split_whitespace() {
        match values.get(number.parse::<usize>()?) {
            Some(value) => text.push_str(&format!(in alloc; " {value:X}")?)?,
            None => return Err("no such register".into()),
        }
    }
    Ok(text)
}

/// The frame that is held with so many younger ones: its address and its words.
fn frame_text(alloc: Global, held: &Sets, k: u8) -> Result<String, Fail> {
    let Some(frame) = held.at(k) else {
        return plain(alloc, "no frame");
    };
    let mut text = format!(in alloc; "{:X}:", frame.address)?;
    for word in frame.words {
        text.push_str(&named(alloc, "", word)?)?;
    }
    Ok(text)
}

/// What is asked of the frames that are held, and of the turn with what is raw at it.
fn raw_text(alloc: Global, machine: &Machine, name: &str, rest: &str) -> Result<String, Fail> {
    let (held, raw) = (machine.held(), machine.raw());
    match name {
        "frames?" => decimal(alloc, u64::from(held.len())),
        "sets?" => decimal(alloc, u64::from(held.size())),
        "frame?" => frame_text(alloc, held, rest.parse::<u8>()?),
        "turn?" => decimal(alloc, raw.turn),
        "at?" => decimal(alloc, machine.at_turn()),
        "busy?" => hex(alloc, u64::from(raw.busy)),
        "raw_regs?" => registers_text(alloc, raw.regs.as_slice(), rest),
        "raw_byte?" => {
            let byte = machine.raw_byte(u32::from_str_radix(rest, 16)?);
            hex(alloc, u64::from(byte))
        }
        _ => Err("no such step".into()),
    }
}

/// What a machine answers to a question.
pub(crate) fn answer(
    alloc: Global,
    machine: &Machine,
    name: &str,
    rest: &str,
) -> Result<String, Fail> {
    let view = machine.view();
    match name {
        "count?" => decimal(alloc, view.count),
        "ip?" => hex(alloc, u64::from(view.ip)),
        "controls?" => Ok(format!(in alloc; "{:X} {:X} {:X}", view.ac, view.pc, view.tc)?),
        "regs?" => registers_text(alloc, view.regs.as_slice(), rest),
        "bytes?" => overlaid_text(alloc, machine, rest),
        "end?" => end_text(alloc, machine.ended()),
        _ => raw_text(alloc, machine, name, rest),
    }
}
