//! ELF files through the command, both ways, at bytes worked out by hand from the layout of the format.
use crate::check::{same, same_at};
use crate::tests::{AT_ONCE, PRINTED, SMALLEST_SOURCE, words_of};
use crate::trace_tests::TRACED;
use i9_outside::{MemFiles, MemSink};
use i9_tool::i960;
use std::alloc::Global;
use std::test::*;

/// The smallest image: the file header of 52 bytes, a program header for each run, and the bytes of the runs. The first
/// run has 24 bytes from 116 on, at 00001000; the second has 4 from 140 on, at FFFFFF10.
const SMALLEST: &[u8] = b"\x7FELF\x01\x01\x01\0\0\0\0\0\0\0\0\0\
    \x02\0\x13\0\x01\0\0\0\0\0\0\0\x34\0\0\0\0\0\0\0\0\0\0\0\
    \x34\0\x20\0\x02\0\0\0\0\0\0\0\
    \x01\0\0\0\x74\0\0\0\0\x10\0\0\0\x10\0\0\x18\0\0\0\x18\0\0\0\x07\0\0\0\x01\0\0\0\
    \x01\0\0\0\x8C\0\0\0\x10\xFF\xFF\xFF\x10\xFF\xFF\xFF\x04\0\0\0\x04\0\0\0\x07\0\0\0\x01\0\0\0\
    \x41\0\xA0\x8C\0\x30\xA8\x8C\0\0\0\xE0\0\x60\xA5\x82\x07\x0E\xA0\x5C\x04\x60\xA5\x92\
    \0\x10\0\0";

/// Its listing.
const LISTING: &str = ".org 0x00001000
lda 65, g4 # 00001000 8CA00041
lda 0xE0000000, g5 # 00001004 8CA83000 E0000000
stob g4, (g5) # 0000100C 82A56000
mov 7, g4 # 00001010 5CA00E07
st g4, 4(g5) # 00001014 92A56004
.org 0xFFFFFF10
.word 0x00001000 # FFFFFF10 00001000
";

/// Its block, whose order stands as it is: each but the `mov` is of the side of loads and stores, which issues one
/// instruction a turn, and the last one, behind the `mov`, is done at turn 5.
const TUNED: &str = ".org 0x00001000
lda 65, g4 # 00001000 8CA00041
lda 0xE0000000, g5 # 00001004 8CA83000 E0000000
stob g4, (g5) # 0000100C 82A56000
mov 7, g4 # 00001010 5CA00E07
st g4, 4(g5) # 00001014 92A56004
#tune 00001000 5 5 5
";

/// What the words print where `a` is that file and `b` is a script with the line `turn 1`: in the first turn the first
/// instruction issues, and the second, which is of the same side, in the next.
const TAKES: [(&str, &str); 7] = [
    ("run a - - 100", PRINTED),
    ("run a - 1 100", PRINTED),
    ("run a - - 0", AT_ONCE),
    ("trace a - - 100 1010 1010", TRACED),
    ("debug a - - b", "#turn 2 1\n"),
    ("dis a", LISTING),
    ("tune a 1000 5", TUNED),
];

/// How many of its bytes a file has, and the line for it. A file that ends within the four bytes that ELF files begin
/// with is Intel HEX that does not begin with a colon.
const CUT: [(usize, &str); 7] = [
    (1, "#image line 1 kind 1\n"),
    (2, "#image line 1 kind 1\n"),
    (3, "#image line 1 kind 1\n"),
    (4, "#image elf kind 1\n"),
    (51, "#image elf kind 1\n"),
    (100, "#image elf kind 7\n"),
    (143, "#image elf kind 8\n"),
];

/// Two bytes at 0, of which the first is a line feed.
const FEED_SOURCE: &str = ".byte 10, 1";

/// They stand behind the one program header. The file is written up to its line feed, and then the byte behind it.
const FEED: &[u8] = b"\x7FELF\x01\x01\x01\0\0\0\0\0\0\0\0\0\
    \x02\0\x13\0\x01\0\0\0\0\0\0\0\x34\0\0\0\0\0\0\0\0\0\0\0\
    \x34\0\x20\0\x01\0\0\0\0\0\0\0\
    \x01\0\0\0\x54\0\0\0\0\0\0\0\0\0\0\0\x02\0\0\0\x02\0\0\0\x07\0\0\0\x01\0\0\0\
    \x0A\x01";

/// The number of the write that fails, or 0 for none, the status, and how many bytes of `FEED` are printed.
const WRITES: [(u64, u8, usize); 4] = [(1, 6, 0), (2, 6, 85), (3, 0, 86), (0, 0, 86)];

/// A source, words, a status and a line.
const REFUSES: [(&str, &str, u8, &str); 7] = [
    ("frob 1", "asmelf a", 3, "#source line 1 kind 1\n"),
    (
        "mov 1, g0\nmov 32, g0",
        "asmelf a",
        3,
        "#source line 2 kind 4\n",
    ),
    ("", "asmelf c", 5, "#read\n"),
    ("", "asmelf", 1, "#words\n"),
    ("", "asmelf\x20", 1, "#words\n"),
    ("", "asmelf a a", 1, "#words\n"),
    ("", "Asmelf a", 1, "#words\n"),
];

/// The status of words where `a` is this file and `b` the script, over a sink whose write of this number fails, and
/// whether these bytes are printed.
fn answers(
    alloc: Global,
    file: &[u8],
    words: &str,
    failing: u64,
    printed: &[u8],
) -> Result<(u8, bool), Fail> {
    let mut files = MemFiles::new(alloc);
    files.add("a", file)?;
    files.add("b", b"turn 1")?;
    let mut sink = MemSink::new(alloc);
    sink.room(4096)?;
    sink.fail_at(failing)?;
    let status = i960(alloc, &words_of(alloc, words)?, &mut files, &mut sink);
    Ok((status.code, sink.bytes() == printed))
}

#[test]
fn takes_elf_images(rt: HostRuntime) -> Result<(), Fail> {
    for (words, printed) in TAKES {
        let answer = answers(rt.alloc(), SMALLEST, words, 0, printed.as_bytes())?;
        same_at(&rt, answer, (0, true), words);
    }
    for (size, line) in CUT {
        let front = SMALLEST.get(..size).unwrap_or(b"");
        let answer = answers(rt.alloc(), front, "run a - - 100", 0, line.as_bytes())?;
        same_at(&rt, answer, (2, true), size);
    }
    Ok(())
}

#[test]
fn assembles_to_elf_files(rt: HostRuntime) -> Result<(), Fail> {
    let alloc = rt.alloc();
    let smallest = answers(alloc, SMALLEST_SOURCE.as_bytes(), "asmelf a", 0, SMALLEST)?;
    same(&rt, smallest, (0, true));
    for (failing, code, size) in WRITES {
        let front = FEED.get(..size).unwrap_or(b"none");
        let answer = answers(alloc, FEED_SOURCE.as_bytes(), "asmelf a", failing, front)?;
        same_at(&rt, answer, (code, true), failing);
    }
    for (source, words, code, line) in REFUSES {
        let answer = answers(alloc, source.as_bytes(), words, 0, line.as_bytes())?;
        same_at(&rt, answer, (code, true), words);
    }
    Ok(())
}

#[test]
fn long_elf_images_are_refused(rt: HostRuntime) -> Result<(), Fail> {
    let alloc = rt.alloc();
    let mut file = Vec::from_slice(alloc, SMALLEST)?;
    file.resize(16_777_217, 0)?;
    let answer = answers(alloc, &file, "dis a", 0, b"#image too long\n")?;
    same(&rt, answer, (2, true));
    file.truncate(16_777_216);
    let answer = answers(alloc, &file, "dis a", 0, LISTING.as_bytes())?;
    same(&rt, answer, (0, true));
    Ok(())
}

/// A source with a byte at every second address, so many of them.
fn source_apart(alloc: Global, count: u32) -> Result<String, Fail> {
    let mut source = String::new(alloc);
    for k in 0..count {
        source.push_str(&format!(in alloc; ".org {}\n.byte 1\n", u64::from(k) * 2)?)?;
    }
    Ok(source)
}

#[test]
fn a_source_may_have_too_many_runs(rt: HostRuntime) -> Result<(), Fail> {
    let alloc = rt.alloc();
    let source = source_apart(alloc, 65_536)?;
    let answer = answers(
        alloc,
        source.as_bytes(),
        "asmelf a",
        0,
        b"#source segments\n",
    )?;
    same(&rt, answer, (3, true));
    Ok(())
}
