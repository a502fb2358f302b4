//! Lines, words and numbers of texts, cut by hand.
use i9_text::{number, split_line, split_word};
use std::test::Fail;

// Each text is cut by hand: its first line, and what is left.
#[test]
fn cuts_lines(rt: HostRuntime) -> Result<(), Fail> {
    let rows: [(&[u8], &[u8], Option<&[u8]>); 7] = [
        (b"", b"", None),
        (b"ab", b"ab", None),
        (b"ab\r", b"ab", None),
        (b"ab\ncd", b"ab", Some(b"cd")),
        (b"ab\r\n", b"ab", Some(b"")),
        (b"a\r\r\nb", b"a\r", Some(b"b")),
        (b"\n\n", b"", Some(b"\n")),
    ];
    for (text, line, rest) in rows {
        let (found, left) = split_line(text);
        assert_eq!(rt; found, line);
        assert_eq!(rt; left, rest);
    }
    Ok(())
}

#[test]
fn cuts_words(rt: HostRuntime) -> Result<(), Fail> {
    let rows: [(&[u8], Option<(&[u8], &[u8])>); 6] = [
        (b"", None),
        (b" \t ", None),
        (b"pin", Some((b"pin", b""))),
        (b"\tat 5 pin", Some((b"at", b" 5 pin"))),
        (b"a\tb", Some((b"a", b"\tb"))),
        (b"#a b", Some((b"#a", b" b"))),
    ];
    for (line, found) in rows {
        assert_eq!(rt; split_word(line), found);
    }
    Ok(())
}

#[test]
fn reads_numbers(rt: HostRuntime) -> Result<(), Fail> {
    let rows: [(&[u8], u8, usize, Option<u64>); 9] = [
        (b"", 10, 10, None),
        (b"0", 10, 10, Some(0)),
        (b"0064", 10, 10, Some(64)),
        (b"1000000000000", 10, 13, Some(1_000_000_000_000)),
        (b"12345678901", 10, 10, None),
        (b"fFff0010", 16, 8, Some(0xFFFF_0010)),
        (b"0FFFF0010", 16, 8, None),
        (b"1f", 10, 10, None),
        (b"+1", 10, 10, None),
    ];
    for (word, radix, most, found) in rows {
        assert_eq!(rt; number(word, radix, most), found);
    }
    Ok(())
}
