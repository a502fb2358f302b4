//! Sources whose lines and names have each length, against bytes and faults that no length changes. No clause of
//! `assemble` keeps it from answering want of memory for some of them.
use crate::asm_sources::{is_assembled, is_refused_source};
use crate::check::must_at;
use std::alloc::Global;
use std::test::Fail;

/// Sources with `~` for blanks, as rows of the images in `source_tests`.
const LINES: &str = "none;~
none;#~
0 00 00 00 0A;~ret
0 00 00 00 0A;ret~
0 00 00 00 0A;ret # again~
0 00 00 00 0A;x:~ret
0 07 0E A0 5C;mov~7, g4
0 07 0E A0 5C;mov 7,~g4
0 00 00 00 08;~b~0
0 08 00 A0 8C;lda~8, g4
0 01;.byte~1
0 01 02;.byte~1,~2
0 01 00;.short~1
0 01 00 00 00;.word~1
0 61 0A 62;.ascii~\"a\\nb\"~
0 61 23;.ascii \"a#\"#~
0 00 00;.space~2
0 01;.align~8|.byte~1
0 01;.org~0|.byte~1
0 05;.set~n,~5|.byte~n";

/// Sources with `%` for a name.
const NAMES: &str = "0 00;%: .byte %
0 00;.byte %|.set %, 0
0 05;.set %, 5|.byte %
0 06;.set %, 5|.byte %+1
0 FF FF;.set %, 5|.short %-6
0 08 00 00 00;.word %+8|.set %, 0
0 00 00 00 08;%: b %
0 00 20 14 32;%: cmpobe 2, g0, %
0 00 30 A0 8C 08 00 00 00;lda %, g4|%:
0 1F 0E A0 5C;mov %, g4|.set %, 31
0 00 00 00;.set %, 3|.space %
0 00;.set %, 8|.align %|.byte 0
0 00;.set %, 0|.org %|.byte 0";

/// Sources with `%` for a name, each behind the number of the first line at fault and its kind.
const FAULTS: &str = "1 1 % 1
1 1 .% 1
1 1 %: % 1
1 2 %: .byte %-
1 2 %: mov %
1 2 %-: ret
1 3 %: movl g5, g6
1 4 %: .byte 256
1 4 %: .space 1048577
1 5 .byte %
1 5 .org %|%:
1 5 b %
2 6 %:|%:
2 6 .set %, 1|%: ret
2 6 %:|.set %, 1
1 7 %: b %+2";

/// The same with a byte too many.
const TOO_MANY: &str = "5 8 .space 1048576|.space 1048576|.space 1048576|.space 1048576|%: .byte 1";

#[test]
fn assembles_lines_of_each_length(rt: HostRuntime) -> Result<(), Fail> {
    for length in 1..200 {
        let blanks = " ".repeat(rt.alloc(), length)?;
        for row in LINES.lines() {
            let row = row.replace(rt.alloc(), "~", blanks.as_str())?;
            must_at(&rt, is_assembled(rt.alloc(), row.as_str())?, row);
        }
    }
    Ok(())
}

#[test]
fn assembles_names_of_each_length(rt: HostRuntime) -> Result<(), Fail> {
    for length in 1..64 {
        let name = "n".repeat(rt.alloc(), length)?;
        for row in NAMES.lines() {
            let row = row.replace(rt.alloc(), "%", name.as_str())?;
            must_at(&rt, is_assembled(rt.alloc(), row.as_str())?, row);
        }
    }
    Ok(())
}

#[test]
fn refuses_names_of_each_length(rt: HostRuntime) -> Result<(), Fail> {
    for length in 1..64 {
        let name = "n".repeat(rt.alloc(), length)?;
        for row in FAULTS.lines() {
            let row = row.replace(rt.alloc(), "%", name.as_str())?;
            must_at(&rt, is_refused_source(rt.alloc(), row.as_str())?, row);
        }
    }
    for length in [1, 63] {
        let name = "n".repeat(rt.alloc(), length)?;
        let row = TOO_MANY.replace(rt.alloc(), "%", name.as_str())?;
        must_at(&rt, is_refused_source(rt.alloc(), row.as_str())?, row);
    }
    Ok(())
}
