//! The command `asm` over files and a sink in memory, at sources and texts worked out by hand.
use crate::check::{must, same};
use crate::tests::{Case, SMALLEST, SMALLEST_SOURCE, answers, answers_long, run_with};
use std::alloc::Global;
use std::test::*;

/// Seventeen bytes from 0000FFFE on: two before a multiple of 65536, and fifteen behind it.
const ACROSS_A_BOUNDARY: &str = "
        .org    0xFFFE
        .ascii  \"ABCDEFGHIJKLMNOPQ\"
";

const ACROSS_A_BOUNDARY_PRINTS: &str = ":02FFFE0041427E
:020000040001F9
:0F000000434445464748494A4B4C4D4E4F50519B
:00000001FF
";

/// Words in no form.
const FORMLESS: &str = "asm
asm\x20
asm a -
Asm a";

#[test]
fn assembles_and_refuses(rt: HostRuntime) -> Result<(), Fail> {
    let alloc = rt.alloc();
    let across = ACROSS_A_BOUNDARY;
    let empty = ":00000001FF\n";
    let two_faults = "mov 1, g0\nmov 32, g0\nfrob 1\n";
    must(&rt, answers(alloc, SMALLEST_SOURCE, "asm a", 0, SMALLEST)?);
    must(
        &rt,
        answers(alloc, across, "asm a", 0, ACROSS_A_BOUNDARY_PRINTS)?,
    );
    must(&rt, answers(alloc, "", "asm a", 0, empty)?);
    must(&rt, answers(alloc, "# nothing", "asm a", 0, empty)?);
    must(
        &rt,
        answers(alloc, "frob 1", "asm a", 3, "#source line 1 kind 1\n")?,
    );
    must(
        &rt,
        answers(alloc, two_faults, "asm a", 3, "#source line 2 kind 4\n")?,
    );
    must(&rt, answers(alloc, SMALLEST_SOURCE, "asm b", 5, "#read\n")?);
    must(
        &rt,
        answers(alloc, SMALLEST_SOURCE, FORMLESS, 1, "#words\n")?,
    );
    Ok(())
}

/// Whether a write that fails leaves this front of the text.
fn leaves(alloc: Global, failing: u64, printed: &str) -> Result<bool, Fail> {
    let case = Case {
        file: ACROSS_A_BOUNDARY.as_bytes(),
        words: "asm a",
        printed,
    };
    Ok(run_with(alloc, &case, 4096, failing)? == (6, true))
}

#[test]
fn each_line_of_a_text_is_one_write(rt: HostRuntime) -> Result<(), Fail> {
    let one = ":02FFFE0041427E\n";
    let two = ":02FFFE0041427E\n:020000040001F9\n";
    must(&rt, leaves(rt.alloc(), 1, "")?);
    must(&rt, leaves(rt.alloc(), 2, one)?);
    must(&rt, leaves(rt.alloc(), 3, two)?);
    Ok(())
}

#[test]
fn long_sources_are_refused(rt: HostRuntime) -> Result<(), Fail> {
    let line = "#source too long\n";
    same(
        &rt,
        answers_long(rt.alloc(), b'\n', 16_777_217, "asm a", line)?,
        (3, true),
    );
    Ok(())
}
