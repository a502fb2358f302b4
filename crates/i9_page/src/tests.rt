//! The exported command, at rows whose texts are worked out by hand.
use crate::i9_page;
use std::test::*;

/// What is asked, with the three files, and the room for the text; the status, and what is printed.
type Row = (&'static str, [&'static str; 3], usize, u8, &'static str);

/// An image without bytes.
const NO_BYTES: &str = ":00000001FF\n";

/// A source of four bytes, its Intel HEX, and the first line of that.
const SOURCE: &str = ".org 16\n.word 0x01020304\n";

const HEX: &str = ":0400100004030201E2\n:00000001FF\n";

const FIRST_LINE: &str = ":0400100004030201E2\n";

const ROWS: [Row; 11] = [
    ("gen\n1", ["", "", ""], 64, 1, "#words\n"),
    ("", ["", "", ""], 64, 1, "#words\n"),
    ("asm\n1", [SOURCE, "", ""], 32, 0, HEX),
    // There is room for the line of 20 bytes, and then not for that of 12; and for none.
    ("asm\n1", [SOURCE, "", ""], 31, 6, FIRST_LINE),
    ("asm\n1", [SOURCE, "", ""], 19, 6, ""),
    ("asm\n3", ["", "", SOURCE], 64, 0, HEX),
    (
        "asm\n1",
        [".word\n", "", ""],
        64,
        3,
        "#source line 1 kind 2\n",
    ),
    (
        "run\n1\n-\n-\n0",
        ["no image", "", ""],
        64,
        2,
        "#image line 1 kind 1\n",
    ),
    (
        "run\n1\n2\n-\n0",
        [NO_BYTES, "at\n", ""],
        64,
        3,
        "#schedule line 1 kind 2\n",
    ),
    (
        "debug\n1\n2\n-\n3",
        [NO_BYTES, "", "\n?"],
        64,
        3,
        "#script line 2 kind 1\n",
    ),
    ("run\n9\n-\n-\n0", ["", "", ""], 64, 5, "#read\n"),
];

#[test]
fn answers(rt: HostRuntime) -> Result<(), Fail> {
    for (words, files, room, status, text) in ROWS {
        let mut out = vec![in rt.alloc(); 0u8; room]?;
        let mut printed = 0usize;
        let code = i9_page(
            rt.alloc(),
            words.as_bytes(),
            files[0].as_bytes(),
            files[1].as_bytes(),
            files[2].as_bytes(),
            &mut out,
            &mut printed,
        );
        assert_eq!(rt; code, status, "at {words}");
        assert_eq!(rt; &out[..printed], text.as_bytes(), "at {words}");
    }
    Ok(())
}
