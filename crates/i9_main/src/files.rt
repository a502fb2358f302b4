//! The files of the tests.

/// Writes the letter A to the console, and ends with the word 7.
const SMALLEST_SOURCE: &str = "
        .org  0xFFFFFF10
        .word start
        .org  0x1000
start:  lda   0x41, g4
        lda   0xE0000000, g5
        stob  g4, (g5)
        mov   7, g4
        st    g4, 4(g5)
";

/// Its image.
pub(crate) const SMALLEST: &str = ":02000004FFFFFC
:04FF100000100000DD
:020000040000FA
:101000004100A08C0030A88C000000E00060A582A8
:08101000070EA05C0460A5922C
:00000001FF
";

/// The word 66003E80 at 1000: `flushreg`, with three of the bits set that it ignores.
const FLUSHREG: &str = ":04100000803E0066C8
:00000001FF
";

/// A routine that reads its caller's r4 in a frame that is not in memory: `unflushed.hex` of `demo/`.
const UNFLUSHED: &str = ":02000004FFFFFC
:08FF10000010000000080000D1
:020000040000FA
:1008000000090000000A0000000000000000004095
:1008100000200000000B000000000000003000007D
:080820000000000000000000D0
:101000004100208C140000090030A88C000000E092
:10101000000EA05C0460A5921020A0900030A88C67
:0C102000000000E00060A5820000000A53
:00000001FF
";

/// What tells of that: `unflushed.dbg` of `demo/`.
const TELLS: &str = "until 1018
held
mem 3010 4
rawmem 3010 4
until 101C
regs
turn 100
";

/// Two bytes at 0, of which the first is a line feed, as an ELF file: its header, one program header, and the bytes.
pub(crate) const FEED_ELF: &str = "\x7FELF\x01\x01\x01\0\0\0\0\0\0\0\0\0\
    \x02\0\x13\0\x01\0\0\0\0\0\0\0\x34\0\0\0\0\0\0\0\0\0\0\0\
    \x34\0\x20\0\x01\0\0\0\0\0\0\0\
    \x01\0\0\0\x54\0\0\0\0\0\0\0\0\0\0\0\x02\0\0\0\x02\0\0\0\x07\0\0\0\x01\0\0\0\
    \x0A\x01";

/// The text of the file of this name.
pub(crate) fn file_named(name: &str) -> Option<&'static str> {
    match name {
        "smallest.s" => Some(SMALLEST_SOURCE),
        "smallest.hex" => Some(SMALLEST),
        "flushreg.hex" => Some(FLUSHREG),
        "unflushed.hex" => Some(UNFLUSHED),
        "unflushed.dbg" => Some(TELLS),
        "feed.s" => Some(".byte 10, 1\n"),
        "feed.elf" => Some(FEED_ELF),
        "cut.elf" => Some("\x7FELF"),
        "show.sch" => Some("at 4 show 1010 4\n"),
        "refused.hex" => Some(":02000004FFFFFD\n"),
        "refused.s" => Some("frob 1\n"),
        "refused.sch" => Some("walk 4 pin 1\n"),
        "refused.dbg" => Some("turn 1\nstep 1\n"),
        _ => None,
    }
}
