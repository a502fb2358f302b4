//! The command `tune` over files and a sink in memory, at texts worked out by hand.
use crate::check::same_at;
use crate::rows::{BOOT, hex_of};
use crate::tests::{Case, run_with};
use std::test::*;

/// What stands at 1000, the words of the command, the status, and what is printed.
const BLOCKS: [(&str, &str, u8, &str); 12] = [
    (
        "mulo 3, 4, g2\naddo g2, g2, g3\nmov 1, g4\nmov 2, g5\n",
        "tune a 1000 4",
        0,
        ".org 0x00001000
mulo 3, 4, g2 # 00001000 70911883
mov 1, g4 # 00001004 5CA00E01
mov 2, g5 # 00001008 5CA80E02
addo g2, g2, g3 # 0000100C 599C8012
#tune 00001000 4 9 7
",
    ),
    (
        "addo 1, 2, g4\nmov g4, g5\n",
        "tune a 1000 2",
        0,
        ".org 0x00001000
addo 1, 2, g4 # 00001000 59A09801
mov g4, g5 # 00001004 5CA80614
#tune 00001000 2 3 3
",
    ),
    ("b start\n", "tune a 1000 1", 3, "#block kind 2 00001000\n"),
    (
        "mov 1, g4\n",
        "tune a 1000 2",
        3,
        "#block kind 1 00001004\n",
    ),
    ("mov 1, g4\n", "tune a 1000 65", 1, "#words\n"),
    ("mov 1, g4\n", "tune a 1000 0", 1, "#words\n"),
    ("mov 1, g4\n", "tune a 1002 1", 1, "#words\n"),
    ("mov 1, g4\n", "tune a 000001000 1", 1, "#words\n"),
    ("mov 1, g4\n", "tune a 1000", 1, "#words\n"),
    ("mov 1, g4\n", "tune a 1000 1 1", 1, "#words\n"),
    ("mov 1, g4\n", "Tune a 1000 1", 1, "#words\n"),
    ("mov 1, g4\n", "tune b 1000 1", 5, "#read\n"),
];

#[test]
fn tunes_and_refuses(rt: HostRuntime) -> Result<(), Fail> {
    let alloc = rt.alloc();
    for (code, words, status, printed) in BLOCKS {
        let source = format!(in alloc; "{BOOT}{code}")?;
        let file = hex_of(alloc, &source)?;
        let case = Case {
            file: &file,
            words,
            printed,
        };
        same_at(&rt, run_with(alloc, &case, 4096, 0)?, (status, true), words);
    }
    Ok(())
}
