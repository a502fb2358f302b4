//! Each form of the command by the program, over a runtime of the tests' own, at texts worked out by hand.
use crate::board::Board;
use crate::files::{FEED_ELF, SMALLEST};
use crate::program;
use std::alloc::Global;
use std::cell::RefCell;
use std::process::ExitCode;
use std::test::*;

/// What a run of the smallest image prints.
const RUN: &str = "#out 41
#point 5 end 00001018 00000000 001F2002
#g 00000000 00000000 00000000 00000000 00000007 E0000000 00000000 00000000 00000000 00000000 00000000 00000000 00000000 00000000 00000000 00000000
#l 00000000 00000040 00000000 00000000 00000000 00000000 00000000 00000000 00000000 00000000 00000000 00000000 00000000 00000000 00000000 00000000
#end exit 00000007
";

/// The same where the event of `show.sch` is met.
const RUN_SHOWN: &str = "#out 41
at 4 show 00001010 4
#mem 00001010 07 0E A0 5C
#point 4 event 00001014 00000000 001F2002
#g 00000000 00000000 00000000 00000000 00000007 E0000000 00000000 00000000 00000000 00000000 00000000 00000000 00000000 00000000 00000000 00000000
#l 00000000 00000040 00000000 00000000 00000000 00000000 00000000 00000000 00000000 00000000 00000000 00000000 00000000 00000000 00000000 00000000
#point 5 end 00001018 00000000 001F2002
#g 00000000 00000000 00000000 00000000 00000007 E0000000 00000000 00000000 00000000 00000000 00000000 00000000 00000000 00000000 00000000 00000000
#l 00000000 00000040 00000000 00000000 00000000 00000000 00000000 00000000 00000000 00000000 00000000 00000000 00000000 00000000 00000000 00000000
#end exit 00000007
";

/// The same where the instruction at 1010 is traced.
const RUN_TRACED: &str = "#out 41
#t 3 00001010 mov 7, g4
#point 5 end 00001018 00000000 001F2002
#g 00000000 00000000 00000000 00000000 00000007 E0000000 00000000 00000000 00000000 00000000 00000000 00000000 00000000 00000000 00000000 00000000
#l 00000000 00000040 00000000 00000000 00000000 00000000 00000000 00000000 00000000 00000000 00000000 00000000 00000000 00000000 00000000 00000000
#end exit 00000007
";

/// What the script of `unflushed.dbg` tells.
const TOLD: &str = "#turn 2 2
#held 5 1 00003000
#mem 00003010 41 00 00 00
#rawmem 00003010 00 00 00 00
#turn 6 3
#view 3 0000101C 00000000 001F2002
#g 00000000 00000000 00000000 00000000 -------- 00000000 00000000 00000000 00000000 00000000 00000000 00000000 00000000 00000000 00000000 00003040
#l 00003000 00003080 00000000 00000000 00000000 00000000 00000000 00000000 00000000 00000000 00000000 00000000 00000000 00000000 00000000 00000000
#point 4 end 00001024 00000000 001F2002
#g 00000000 00000000 00000000 00000000 -------- E0000000 00000000 00000000 00000000 00000000 00000000 00000000 00000000 00000000 00000000 00003040
#l 00003000 00003080 00000000 00000000 00000000 00000000 00000000 00000000 00000000 00000000 00000000 00000000 00000000 00000000 00000000 00000000
#end hazard 00001024
#turn 8 4
";

/// A listing of `flushreg.hex`.
const LISTED: &str = ".org 0x00001000
flushreg {3800} # 00001000 66003E80
";

/// A listing of `feed.elf`.
const FEED_LISTED: &str = ".org 0x00000000
.byte 0x0A # 00000000 0A
.byte 0x01 # 00000001 01
";

/// Words, of which the first is the program's name, the status, and what is printed.
const COMMANDS: [(&str, u8, &str); 19] = [
    ("i960 run smallest.hex - - 100", 0, RUN),
    ("i960 run smallest.hex - 15 5", 0, RUN),
    ("i960 run smallest.hex show.sch 1 100", 0, RUN_SHOWN),
    ("i960 trace smallest.hex - - 100 1010 1010", 0, RUN_TRACED),
    ("i960 debug unflushed.hex - - unflushed.dbg", 4, TOLD),
    ("i960 asm smallest.s", 0, SMALLEST),
    ("i960 asmelf feed.s", 0, FEED_ELF),
    ("i960 dis flushreg.hex", 0, LISTED),
    ("i960 dis feed.elf", 0, FEED_LISTED),
    ("i960 walk smallest.hex - - 100", 1, "#words\n"),
    ("i960", 1, "#words\n"),
    ("run smallest.hex - - 100", 1, "#words\n"),
    ("i960 run nowhere.hex - - 100", 5, "#read\n"),
    ("i960 run refused.hex - - 100", 2, "#image line 1 kind 4\n"),
    ("i960 dis refused.hex", 2, "#image line 1 kind 4\n"),
    ("i960 run cut.elf - - 100", 2, "#image elf kind 1\n"),
    ("i960 asm refused.s", 3, "#source line 1 kind 1\n"),
    (
        "i960 run smallest.hex refused.sch - 100",
        3,
        "#schedule line 1 kind 1\n",
    ),
    (
        "i960 debug smallest.hex - - refused.dbg",
        3,
        "#script line 2 kind 1\n",
    ),
];

/// Whether the program ends with this status over words and room for so many bytes, and prints this text.
fn ends(alloc: Global, words: &[u8], room: usize, code: u8, text: &str) -> bool {
    let board = Board {
        alloc,
        words,
        room,
        printed: RefCell::new(Vec::new(alloc)),
    };
    let status = program(&board);
    match board.printed.try_borrow() {
        Ok(printed) => status == ExitCode::from(code) && printed.as_slice() == text.as_bytes(),
        Err(_) => false,
    }
}

#[test]
fn each_form_of_the_command(rt: HostRuntime) {
    for (words, code, text) in COMMANDS {
        assert!(rt;
            ends(rt.alloc(), words.as_bytes(), 4096, code, text),
            "{words}"
        );
    }
}

/// A job of some 270,000 instructions.
#[test]
fn a_made_job(rt: HostRuntime) {
    let line = "#gen 4294967295 268029 2000 exit 000007D0\n";
    assert!(rt; ends(rt.alloc(), b"i960 gen 4294967295 -", 4096, 0, line));
}

#[test]
fn words_and_lines_that_fail(rt: HostRuntime) {
    let run = b"i960 run smallest.hex - - 100";
    assert!(rt; ends(rt.alloc(), b"i960 run smallest.hex - - \xFF", 4096, 8, ""));
    assert!(rt; ends(rt.alloc(), b"\xFF run smallest.hex - - 100", 4096, 8, ""));
    assert!(rt; ends(rt.alloc(), run, 0, 6, ""));
    assert!(rt; ends(rt.alloc(), run, 8, 6, "#out 41\n"));
}
