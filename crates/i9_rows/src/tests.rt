//! The command over files and a sink in memory, at cases worked out by hand.
use crate::check::{must, must_at, same, same_at};
use crate::rows::hex_of;
use i9_outside::{MemFiles, MemSink};
use i9_tool::i960;
use std::alloc::Global;
use std::test::*;

/// Writes the letter A to the console, and ends with the word 7.
pub(crate) const SMALLEST_SOURCE: &str = "
        .org  0xFFFFFF10
        .word start
        .org  0x1000
start:  lda   0x41, g4
        lda   0xE0000000, g5
        stob  g4, (g5)
        mov   7, g4
        st    g4, 4(g5)
";

/// Its image.
pub(crate) const SMALLEST: &str = ":02000004FFFFFC
:04FF100000100000DD
:020000040000FA
:101000004100A08C0030A88C000000E00060A582A8
:08101000070EA05C0460A5922C
:00000001FF
";

/// What its run prints.
pub(crate) const PRINTED: &str = "#out 41
#point 5 end 00001018 00000000 001F2002
#g 00000000 00000000 00000000 00000000 00000007 E0000000 00000000 00000000 00000000 00000000 00000000 00000000 00000000 00000000 00000000 00000000
#l 00000000 00000040 00000000 00000000 00000000 00000000 00000000 00000000 00000000 00000000 00000000 00000000 00000000 00000000 00000000 00000000
#end exit 00000007
";

/// What its run of no instruction prints.
pub(crate) const AT_ONCE: &str = "#point 0 end 00001000 00000000 001F2002
#g 00000000 00000000 00000000 00000000 00000000 00000000 00000000 00000000 00000000 00000000 00000000 00000000 00000000 00000000 00000000 00000000
#l 00000000 00000040 00000000 00000000 00000000 00000000 00000000 00000000 00000000 00000000 00000000 00000000 00000000 00000000 00000000 00000000
#end limit
";

/// Words that run the smallest image to its end.
const RUNS: &str = "run a - - 100
run a - - 5
run a - - 10000000
run a - 1 100
run a - 0000000015 100";

/// Words in no form.
const FORMLESS: &str = "run a
run a - - 10000001
run a - - 00000000010
run a - - +1
run a - -\x20
run  - - 1
run a  - 1
run a - - 1 -
run a - 00000000015 100
run a - 0 10
run a - 16 10
run a -  10
run a - -1 10
walk a - - 1";

/// Words that name a file that there is not.
const UNREAD: &str = "run b - - 10
run b - 15 10
run b a - 10
run a b - 10";

/// Room for bytes, the write that fails, and the lines that are printed. A line for which there is no room is not
/// begun: `#out 41` and its line feed are eight bytes, the line of the drained point is forty.
const FAILING_WRITES: &str = "4096 1 0
4096 2 1
4096 3 2
4096 4 3
4096 5 4
0 0 0
7 0 0
8 0 1
47 0 1
48 0 2";

/// A case: the file that is held as `a`, the words, and what is printed.
#[derive(Clone, Copy)]
pub(crate) struct Case<'a> {
    pub(crate) file: &'a [u8],
    pub(crate) words: &'a str,
    pub(crate) printed: &'a str,
}

/// The words between spaces.
pub(crate) fn words_of(alloc: Global, line: &str) -> Result<Vec<String>, Fail> {
    let mut words = Vec::new(alloc);
    for word in line.split(' ') {
        words.push(String::from_str(alloc, word)?)?;
    }
    Ok(words)
}

/// The status of a case whose sink takes so many bytes and fails at one write, the first being 1, and whether all that
/// was printed is what the case says.
pub(crate) fn run_with(
    alloc: Global,
    case: &Case<'_>,
    room: u64,
    failing: u64,
) -> Result<(u8, bool), Fail> {
    let mut files = MemFiles::new(alloc);
    files.add("a", case.file)?;
    let mut sink = MemSink::new(alloc);
    sink.room(room)?;
    sink.fail_at(failing)?;
    let words = words_of(alloc, case.words)?;
    let status = i960(alloc, &words, &mut files, &mut sink);
    Ok((status.code, sink.bytes() == case.printed.as_bytes()))
}

/// Whether each of these lines of words answers this status and prints this text.
pub(crate) fn answers(
    alloc: Global,
    file: &str,
    lines: &str,
    code: u8,
    printed: &str,
) -> Result<bool, Fail> {
    for words in lines.lines() {
        let case = Case {
            file: file.as_bytes(),
            words,
            printed,
        };
        if run_with(alloc, &case, 4096, 0)? != (code, true) {
            return Ok(false);
        }
    }
    Ok(true)
}

#[test]
fn runs_and_refuses(rt: HostRuntime) -> Result<(), Fail> {
    let alloc = rt.alloc();
    let some = "run a - - 10";
    let no_type = ":02000004FFFFFD\n";
    let no_record = ":00000001FF\nx\n";
    must(&rt, answers(alloc, SMALLEST, RUNS, 0, PRINTED)?);
    must(
        &rt,
        answers(alloc, SMALLEST, "run a - - 0000000000", 0, AT_ONCE)?,
    );
    must(&rt, answers(alloc, SMALLEST, FORMLESS, 1, "#words\n")?);
    must(&rt, answers(alloc, SMALLEST, UNREAD, 5, "#read\n")?);
    must(
        &rt,
        answers(alloc, no_type, some, 2, "#image line 1 kind 4\n")?,
    );
    must(
        &rt,
        answers(alloc, no_type, "run a b - 10", 2, "#image line 1 kind 4\n")?,
    );
    must(
        &rt,
        answers(
            alloc,
            SMALLEST,
            "run a a - 10",
            3,
            "#schedule line 1 kind 1\n",
        )?,
    );
    must(
        &rt,
        answers(alloc, no_record, some, 2, "#image line 2 kind 7\n")?,
    );
    must(&rt, answers(alloc, "", some, 2, "#image line 1 kind 6\n")?);
    Ok(())
}

/// The first so many lines of a text.
fn first_lines(alloc: Global, text: &str, count: usize) -> Result<String, Fail> {
    let mut front = String::new(alloc);
    for line in text.lines().take(count) {
        front.push_str(line)?;
        front.push_str("\n")?;
    }
    Ok(front)
}

/// Whether a row's room and failing write leave its lines of a text, which the smallest image prints by these words.
pub(crate) fn leaves_lines(
    alloc: Global,
    words: &str,
    text: &str,
    row: &str,
) -> Result<bool, Fail> {
    let mut numbers = row.split(' ');
    let room = numbers.next().unwrap_or("").parse::<u64>()?;
    let failing = numbers.next().unwrap_or("").parse::<u64>()?;
    let lines = numbers.next().unwrap_or("").parse::<usize>()?;
    let printed = first_lines(alloc, text, lines)?;
    let case = Case {
        file: SMALLEST.as_bytes(),
        words,
        printed: &printed,
    };
    Ok(run_with(alloc, &case, room, failing)? == (6, true))
}

#[test]
fn writes_that_fail_leave_the_lines_before(rt: HostRuntime) -> Result<(), Fail> {
    for row in FAILING_WRITES.lines() {
        must_at(
            &rt,
            leaves_lines(rt.alloc(), "run a - - 100", PRINTED, row)?,
            row,
        );
    }
    Ok(())
}

/// Prints a byte, and then goes round for ever.
const ENDLESS: &str = "
        .org  0xFFFFFF10
        .word start
        .org  0x1000
start:  lda   0xE0000000, g5
        stob  g4, (g5)
again:  b     again
";

#[test]
fn a_write_that_fails_ends_the_run_at_once(rt: HostRuntime) -> Result<(), Fail> {
    // A run to this length takes seconds, so two hundred would take longer than a test may.
    let alloc = rt.alloc();
    let image = hex_of(alloc, ENDLESS)?;
    for _again in 0..100 {
        for words in ["run a - - 10000000", "trace a - - 10000000 0 FFFFFFFF"] {
            let case = Case {
                file: &image,
                words,
                printed: "",
            };
            same_at(&rt, run_with(alloc, &case, 64, 1)?, (6, true), words);
        }
    }
    Ok(())
}

/// The status for a file of so many of this byte, and whether this line is printed.
pub(crate) fn answers_long(
    alloc: Global,
    byte: u8,
    size: usize,
    words: &str,
    printed: &str,
) -> Result<(u8, bool), Fail> {
    let long = vec![in alloc; byte; size]?;
    let case = Case {
        file: &long,
        words,
        printed,
    };
    run_with(alloc, &case, 64, 0)
}

#[test]
fn long_files_are_refused(rt: HostRuntime) -> Result<(), Fail> {
    let words = "run a - - 10";
    let line = "#image too long\n";
    same(
        &rt,
        answers_long(rt.alloc(), b':', 16_777_217, words, line)?,
        (2, true),
    );
    must(&rt, !answers_long(rt.alloc(), b':', 1_000, words, line)?.1);
    Ok(())
}
