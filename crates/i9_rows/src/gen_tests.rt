//! The command `gen` over a sink in memory, and the texts that it runs.
use crate::check::{must, same};
use crate::tests::{Case, answers, run_with};
use i9_tool::generate;
use std::test::*;

/// The source for number 1: the numbers drawn are 1015568748, 1586005467 and 2165703038, so that the depth is 20 and
/// there are 1967 rounds.
const SOURCE_OF_1: &str = ".org 0xFFFFFF10
.word 0x1000, 0x800
.org 0x800
.word 0x900, 0xA00, 0, 0x40000000, 0x2000, 0xB00, 0, 0x200000, 0, 0
.org 0xA10
.word 0x4321, 0x8765
.org 0x204C
.word tick
.org 0x208C
.word tick
.org 0x20CC
.word tick
.org 0x210C
.word tick
.org 0x214C
.word tick
.org 0x218C
.word tick
.org 0x21CC
.word tick
.org 0x220C
.word tick
.org 0x1000
lda 0x100000, fp
lda 64(fp), sp
lda 0xFF, g8
mov g8, sf1
lda 0x1F2000, g9
mov 0, g10
modpc g10, g9, g10
lda 1967, g6
lda 2165703038, g7
loop: lda 20, g0
call f
subo 1, g6, g6
cmpobne 0, g6, loop
lda 0xE0000000, g5
st g12, 4(g5)
f: addo g0, g7, g7
rotate 5, g7, g7
mov g0, r4
cmpobe 0, g0, leaf
subo 1, g0, g0
call f
leaf: xor r4, g7, g7
ret
tick: addo 1, g12, g12
ret
";

/// Words for number 1.
const RUNS_OF_1: &str = "gen 1 1
gen 1 15
gen 1 -
gen 0000000001 0000000005";

/// Words in no form.
const FORMLESS: &str = "gen
gen 1
gen 1 - -
gen 4294967296 1
gen 00000000001 1
gen -1 -
gen 0x1 -
gen  -
gen 1 16
gen 1 0
gen 1\x20
Gen 1 -";

#[test]
fn makes_the_job_of_a_number(rt: HostRuntime) -> Result<(), Fail> {
    let (source, schedule) = generate(rt.alloc(), 1)?;
    must(&rt, source.as_slice() == SOURCE_OF_1.as_bytes());
    must(
        &rt,
        schedule.starts_with(b"at 100 pin 5\nat 200 pin 0\nat 300 pin 7\n"),
    );
    must(
        &rt,
        schedule.ends_with(b"\nat 199900 pin 3\nat 200000 pin 6\n"),
    );
    same(&rt, schedule.len(), 30_893);
    Ok(())
}

/// Beside the set-up, of nine instructions, and the end, of two, a round takes 10 and 8 for each call within it, and an
/// event 2.
#[test]
fn runs_the_job_of_a_number(rt: HostRuntime) -> Result<(), Fail> {
    let alloc = rt.alloc();
    let one = "#gen 1 338401 2000 exit 000007D0\n";
    // 2262 rounds of depth 39, and 557 of depth 58.
    let least = "#gen 0 732375 2000 exit 000007D0\n";
    let greatest = "#gen 4294967295 268029 2000 exit 000007D0\n";
    must(&rt, answers(alloc, "", RUNS_OF_1, 0, one)?);
    must(&rt, answers(alloc, "", "gen 0 -", 0, least)?);
    must(&rt, answers(alloc, "", "gen 4294967295 15", 0, greatest)?);
    must(&rt, answers(alloc, "", FORMLESS, 1, "#words\n")?);
    Ok(())
}

#[test]
fn a_write_of_the_line_may_fail(rt: HostRuntime) -> Result<(), Fail> {
    let case = Case {
        file: b"",
        words: "gen 1 -",
        printed: "",
    };
    same(&rt, run_with(rt.alloc(), &case, 4096, 1)?, (6, true));
    Ok(())
}
