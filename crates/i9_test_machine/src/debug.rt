//! Printing over a sink in memory, with texts worked out by hand.
use crate::check::{must, must_at};
use arrayvec::ArrayVec;
use i9_debug::{
    Printed, print_elf_refusal, print_generated, print_heading, print_line, print_lines,
    print_piece, print_refusal, print_text,
};
use i9_machine::{End, Line, Point};
use i9_model::{Event, View};
use i9_outside::MemSink;
use std::alloc::Global;
use std::test::*;

/// The lines of a run that writes a letter, shows bytes and exits, and those of the ends of other runs.
const LINES: &str = "#out 41
at 4 show 00000100 3
#mem 00000100 0A -- FF
#point 5 end 00001018 00000000 001F2002
#g 00000000 00000000 00000000 00000000 00000007 E0000000 -------- 00000000 00000000 00000000 00000000 00000000 00000000 00000000 00000000 --------
#l 00000000 00000040 -------- 00000000 00000000 00000000 00000000 00000000 00000000 00000000 00000000 00000000 00000000 00000000 00000000 00000000
#end exit 00000007
#end limit
#end hazard 00000010
#end dead 2 0000091C
#end imprecise 00001000
";

/// What the other calls print, one after the other.
const OTHERS: &str = "#words
:02FFFE0041427E
:00000001FF
#image line 2 kind 7
#image elf kind 9
#gen 1 338401 2000 exit 000007D0
#out 00
two lines,
of which the last has no line feed";

/// The first lines of what is printed where the write of this number fails, the first being 1: those before it.
const FRONTS: [(u64, &str); 3] = [
    (1, ""),
    (2, "#out 41\n"),
    (3, "#out 41\nat 4 show 00000100 3\n"),
];

/// A drained point at the end of a run. The registers r2, g6 and g15 are marked.
fn point() -> Line {
    let mut regs = [0; 32];
    regs[1] = 0x40;
    regs[20] = 7;
    regs[21] = 0xE000_0000;
    let view = View {
        count: 5,
        ip: 0x1018,
        ac: 0,
        pc: 0x001F_2002,
        tc: 0,
        regs,
        marks: (1 << 2) | (1 << 22) | (1 << 31),
    };
    Line::Point {
        kind: Point::End,
        view,
    }
}

/// The lines that `LINES` tells.
fn lines(alloc: Global) -> Result<Vec<Line>, Fail> {
    let mut list = ArrayVec::new();
    let _room = list.try_extend_from_slice(&[Some(0x0A), None, Some(0xFF)]);
    let mut lines = Vec::new(alloc);
    lines.push(Line::Out(0x41))?;
    lines.push(Line::Event {
        count: 4,
        event: Event::Show(0x100, 3),
    })?;
    lines.push(Line::Bytes {
        address: 0x100,
        list,
    })?;
    lines.push(point())?;
    lines.push(Line::End(End::Exit(7)))?;
    lines.push(Line::End(End::Limit))?;
    lines.push(Line::End(End::Hazard(0x10)))?;
    lines.push(Line::End(End::Dead(2, 0x91C)))?;
    lines.push(Line::End(End::Imprecise(0x1000)))?;
    Ok(lines)
}

/// A sink with room, whose write of this number fails; none where it is 0.
fn sink_failing(alloc: Global, failing: u64) -> Result<MemSink, Fail> {
    let mut sink = MemSink::new(alloc);
    sink.room(4096)?;
    sink.fail_at(failing)?;
    Ok(sink)
}

/// Whether all was printed.
fn done(printed: Printed) -> bool {
    matches!(printed, Printed::Done)
}

#[test]
fn prints_each_line(rt: HostRuntime) -> Result<(), Fail> {
    let alloc = rt.alloc();
    let mut sink = sink_failing(alloc, 0)?;
    let mut text = Vec::from_slice(alloc, b"left")?;
    must(
        &rt,
        done(print_lines(alloc, &mut text, &lines(alloc)?, &mut sink)),
    );
    must(&rt, sink.bytes() == LINES.as_bytes());
    Ok(())
}

#[test]
fn prints_what_else_there_is(rt: HostRuntime) -> Result<(), Fail> {
    let alloc = rt.alloc();
    let mut sink = sink_failing(alloc, 0)?;
    let end = End::Exit(0x7D0);
    let hex = b":02FFFE0041427E\n:00000001FF\n";
    let open = b"two lines,\nof which the last has no line feed";
    must(&rt, done(print_piece(b"#words\n", &mut sink)));
    must(&rt, done(print_text(hex, &mut sink)));
    must(&rt, done(print_refusal(alloc, b"image", 2, 7, &mut sink)));
    must(&rt, done(print_elf_refusal(alloc, 9, &mut sink)));
    must(
        &rt,
        done(print_generated(alloc, 1, 338_401, 2000, end, &mut sink)),
    );
    must(&rt, done(print_line(alloc, &Line::Out(0), &mut sink)));
    must(&rt, done(print_text(open, &mut sink)));
    must(&rt, sink.bytes() == OTHERS.as_bytes());
    Ok(())
}

// The line of a version comes first where it is 2; version 1 has none.
#[test]
fn prints_the_line_of_a_version(rt: HostRuntime) -> Result<(), Fail> {
    let mut sink = MemSink::new(rt.alloc());
    sink.room(100)?;
    must(&rt, done(print_heading(1, &mut sink)));
    must(&rt, sink.bytes().is_empty());
    must(&rt, done(print_heading(2, &mut sink)));
    must(&rt, sink.bytes() == b"schedule 2\n".as_slice());
    Ok(())
}

#[test]
fn a_write_that_fails_leaves_the_lines_before(rt: HostRuntime) -> Result<(), Fail> {
    let alloc = rt.alloc();
    let lines = lines(alloc)?;
    let mut text = Vec::new(alloc);
    for (failing, front) in FRONTS {
        let mut sink = sink_failing(alloc, failing)?;
        let printed = print_lines(alloc, &mut text, &lines, &mut sink);
        must_at(&rt, matches!(printed, Printed::Write), failing);
        must_at(&rt, sink.bytes() == front.as_bytes(), failing);
    }
    Ok(())
}
