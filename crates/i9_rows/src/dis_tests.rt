//! The command `dis` over files and a sink in memory, at texts worked out by hand.
use crate::check::{must, same};
use crate::tests::{Case, answers, answers_long, run_with};
use std::test::*;

/// The word 66003E80 at 1000: `flushreg`, with three of the bits set that it ignores.
const FLUSHREG: &str = ":04100000803E0066C8
:00000001FF
";

const FLUSHREG_PRINTS: &str = ".org 0x00001000
flushreg {3800} # 00001000 66003E80
";

/// Words in no form.
const FORMLESS: &str = "dis
dis\x20
dis a -
Dis a";

#[test]
fn lists_and_refuses(rt: HostRuntime) -> Result<(), Fail> {
    let alloc = rt.alloc();
    let no_type = ":02000004FFFFFD\n";
    must(&rt, answers(alloc, FLUSHREG, "dis a", 0, FLUSHREG_PRINTS)?);
    must(&rt, answers(alloc, ":00000001FF\n", "dis a", 0, "")?);
    must(
        &rt,
        answers(alloc, no_type, "dis a", 2, "#image line 1 kind 4\n")?,
    );
    must(
        &rt,
        answers(alloc, "", "dis a", 2, "#image line 1 kind 6\n")?,
    );
    must(&rt, answers(alloc, FLUSHREG, "dis b", 5, "#read\n")?);
    must(&rt, answers(alloc, FLUSHREG, FORMLESS, 1, "#words\n")?);
    Ok(())
}

#[test]
fn each_line_of_a_listing_is_one_write(rt: HostRuntime) -> Result<(), Fail> {
    let rows = [(1, ""), (2, ".org 0x00001000\n")];
    for (failing, printed) in rows {
        let case = Case {
            file: FLUSHREG.as_bytes(),
            words: "dis a",
            printed,
        };
        same(&rt, run_with(rt.alloc(), &case, 4096, failing)?, (6, true));
    }
    Ok(())
}

#[test]
fn long_images_are_not_listed(rt: HostRuntime) -> Result<(), Fail> {
    let line = "#image too long\n";
    same(
        &rt,
        answers_long(rt.alloc(), b':', 16_777_217, "dis a", line)?,
        (2, true),
    );
    Ok(())
}
