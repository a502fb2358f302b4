//! Files that are cut, and devices that fail, at answers worked out by hand.
use crate::check::{must_at, same, same_at};
use crate::tests::{Case, PRINTED, SMALLEST, SMALLEST_SOURCE, run_with, words_of};
use i9_outside::{MemFiles, MemSink};
use i9_tool::i960;
use std::alloc::Global;
use std::test::*;

/// For each line of the smallest image the length of the text before it, and of the text up to its line feed. A text
/// that is cut at either has no end record, which is kind 6; the last line is the end record.
const LINES: &str = "0 15
16 35
36 51
52 95
96 123
124 135";

/// The line that refuses the smallest image where it is cut to this length. Whole lines are good. Of the line that is
/// cut, its colon alone and an even number of digits are too few bytes, kind 3; an odd number of digits is kind 2.
fn refusal(alloc: Global, length: u32) -> Result<String, Fail> {
    let mut line: u32 = 0;
    for row in LINES.lines() {
        line = line.saturating_add(1);
        let (before, whole) = row.split_once(" ").unwrap_or((row, row));
        let before = before.parse::<u32>()?;
        let whole = whole.parse::<u32>()?;
        if before <= length && length <= whole {
            let kind = match length - before {
                _ if length == before || length == whole => 6,
                characters if characters % 2 == 0 => 2,
                _ => 3,
            };
            return Ok(format!(in alloc; "#image line {line} kind {kind}\n")?);
        }
    }
    Ok(String::new(alloc))
}

#[test]
fn images_that_are_cut_are_refused(rt: HostRuntime) -> Result<(), Fail> {
    let alloc = rt.alloc();
    let mut front = Vec::new(alloc);
    let mut length: u32 = 0;
    for byte in SMALLEST.bytes() {
        let (code, printed) = if length == 135 {
            (0, String::from_str(alloc, PRINTED)?)
        } else {
            (2, refusal(alloc, length)?)
        };
        let case = Case {
            file: &front,
            words: "run a - - 100",
            printed: &printed,
        };
        same_at(&rt, run_with(alloc, &case, 4096, 0)?, (code, true), length);
        front.push(byte)?;
        length = length.saturating_add(1);
    }
    same(&rt, length, 136);
    Ok(())
}

/// A fetch that fails, the first being 1, words, and the status and the line that they have. The files `image`,
/// `events`, `script` and `source` are held. A fetch is not reached where the words are in no form, and where a file
/// before it is refused.
const REFUSED: &str = "1 run image - - 10|5 #read
1 run image events - 10|5 #read
2 run image events - 10|5 #read
1 trace image events - 10 0 0|5 #read
2 trace image events - 10 0 0|5 #read
1 debug image events - script|5 #read
2 debug image events - script|5 #read
3 debug image events - script|5 #read
2 debug image - - script|5 #read
1 asm source|5 #read
1 dis image|5 #read
0 run nothing - - 10|5 #read
0 debug image - - nothing|5 #read
1 run image|1 #words
2 run source events - 10|2 #image line 2 kind 1
2 trace script - - 10 0 0|2 #image line 1 kind 1
2 dis events|2 #image line 1 kind 1
3 debug image source - script|3 #schedule line 2 kind 1
3 debug image - - source|3 #script line 2 kind 1
2 asm events|3 #source line 1 kind 1";

/// Whether these words, over the four files, where this fetch and this write fail, have this status and print this.
fn answers_failing(
    alloc: Global,
    words: &str,
    fetch: u64,
    write: u64,
    code: u8,
    printed: &str,
) -> Result<bool, Fail> {
    let mut files = MemFiles::new(alloc);
    files.add("image", SMALLEST.as_bytes())?;
    files.add("events", b"at 9 nmi\n")?;
    files.add("script", b"regs\n")?;
    files.add("source", SMALLEST_SOURCE.as_bytes())?;
    files.fail_at(fetch)?;
    let mut sink = MemSink::new(alloc);
    sink.room(4096)?;
    sink.fail_at(write)?;
    let status = i960(alloc, &words_of(alloc, words)?, &mut files, &mut sink);
    Ok(status.code == code && sink.bytes() == printed.as_bytes())
}

/// Each row is run with a sink that takes its line, and with one that does not.
#[test]
fn fetches_that_fail_are_told(rt: HostRuntime) -> Result<(), Fail> {
    let alloc = rt.alloc();
    for row in REFUSED.lines() {
        let (case, answer) = row.split_once("|").unwrap_or((row, ""));
        let (fetch, words) = case.split_once(" ").unwrap_or((case, ""));
        let fetch = fetch.parse::<u64>()?;
        let (code, line) = answer.split_once(" ").unwrap_or((answer, ""));
        let code = code.parse::<u8>()?;
        let line = format!(in alloc; "{line}\n")?;
        must_at(
            &rt,
            answers_failing(alloc, words, fetch, 0, code, &line)?,
            row,
        );
        must_at(&rt, answers_failing(alloc, words, fetch, 1, 6, "")?, row);
    }
    Ok(())
}

#[test]
fn fetches_that_are_not_reached_do_not_fail(rt: HostRuntime) -> Result<(), Fail> {
    for (fetch, words) in [
        (2, "run image - - 100"),
        (3, "run image events - 100"),
        (3, "trace image events - 100 0 0"),
    ] {
        must_at(
            &rt,
            answers_failing(rt.alloc(), words, fetch, 0, 0, PRINTED)?,
            words,
        );
    }
    Ok(())
}
