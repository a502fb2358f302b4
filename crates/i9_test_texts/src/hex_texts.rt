use crate::check::{must, same};
use crate::segments::has;
use i9_hex::{HexError, HexFault, Segments, read, write};
use std::alloc::{AllocError, Global};
use std::test::Fail;

/// The line and kind that a text is refused for.
fn refusal(alloc: Global, text: &[u8]) -> Option<(u64, u8)> {
    match read(alloc, text) {
        Err(HexError::Bad(HexFault { line, kind })) => Some((line, kind)),
        _ => None,
    }
}

// Each image is worked by hand from the rule of its records' types.
#[test]
fn reads_images(rt: HostRuntime) -> Result<(), Fail> {
    let two_segments = b":02000004FFFFFC\n:04FF100000100000DD\n:020000040000FA\n\
          :101000004100A08C0030A88C000000E00060A582A8\n:08101000070EA05C0460A5922C\n:00000001FF\n";
    let code =
        b"\x41\x00\xA0\x8C\x00\x30\xA8\x8C\x00\x00\x00\xE0\x00\x60\xA5\x82\x07\x0E\xA0\x5C\x04\x60\xA5\x92";
    let rows: [(&[u8], &[(u32, &[u8])]); 8] = [
        (
            two_segments,
            &[(0xFFFF_FF10, b"\x00\x10\x00\x00"), (0x1000, code)],
        ),
        // No data. The last line may lack its line feed, and empty lines may follow the end.
        (b":00000001FF", &[]),
        (b"\n:00000001FF\r\n\r\n\r", &[]),
        // Addresses wrap within a segment of type 02,
        (
            b":020000021000EC\n:02FFFF00AABB9B\n:00000001FF\n",
            &[(0x1_FFFF, b"\xAA"), (0x1_0000, b"\xBB")],
        ),
        // run on into the next upper half after type 04, in digits of either case,
        (
            b":020000040001f9\r\n:02ffff00aAbB9b\r\n:00000001ff\r",
            &[(0x1_FFFF, b"\xAA\xBB")],
        ),
        // and from the last address to 0.
        (
            b":02000004FFFFFC\n:02FFFF00AABB9B\n:00000001FF\n",
            &[(0xFFFF_FFFF, b"\xAA\xBB")],
        ),
        // Types 02 and 04 replace each other.
        (
            b":02000004FFFFFC\n:020000021000EC\n:0100000000FF\n:020000040001F9\n:0100010000FE\n:00000001FF\n",
            &[(0x1_0000, b"\x00\x00")],
        ),
        // Types 03 and 05 say nothing of the image.
        (
            b":0400000300003800C1\n:04000005000000CD2A\n:0100000000FF\n:00000001FF\n",
            &[(0, b"\x00")],
        ),
    ];
    for (text, wanted) in rows {
        let image = read(rt.alloc(), text)?;
        must(&rt, has(&image, wanted));
    }
    Ok(())
}

// Each text is refused for the first row of the table of kinds that applies to its first line at
// fault.
#[test]
fn refuses_the_first_fault(rt: HostRuntime) -> Result<(), Fail> {
    let rows: [(&[u8], (u64, u8)); 20] = [
        (b"00000001FF\n", (1, 1)),
        (b"\r\n\n :00000001FF\n", (3, 1)),
        (b":0000000gFF\n", (1, 2)),
        (b":00000001F\n", (1, 2)),
        (b":00000001FF\r\r\n", (1, 2)),
        (b":000000\n", (1, 3)),
        (b":0200000000FE\n", (1, 3)),
        (b":02000004FFFFFD\n", (1, 4)),
        (b":00000006FB\n", (1, 4)),
        (b":00000006FA\n", (1, 5)),
        (b":0100000100FE\n", (1, 3)),
        (b":0100000200FD\n", (1, 3)),
        (b":020000030000FB\n", (1, 3)),
        (b":00000004FC\n", (1, 3)),
        (b":00000005FB\n", (1, 3)),
        (b"", (1, 6)),
        (b":0100000000FF\n", (2, 6)),
        (b"\n\n", (3, 6)),
        (b":00000001FF\nx", (2, 7)),
        (b":00000001FF\n\n:00000001FF\n", (3, 7)),
    ];
    for (text, wanted) in rows {
        same(&rt, refusal(rt.alloc(), text), Some(wanted));
    }
    Ok(())
}

/// A line whose record has this many zero bytes of data.
fn zeros(alloc: Global, front: &[u8], count: usize, check: &[u8]) -> Result<Vec<u8>, AllocError> {
    let mut line = Vec::from_slice(alloc, front)?;
    for _ in 0..count {
        line.extend_from_slice(b"00")?;
    }
    line.extend_from_slice(check)?;
    Ok(line)
}

/// The text of 16,448 records of 255 bytes, a last record and the end. The limit of 4,194,304
/// bytes is 16,448 * 255 + 64.
fn large_text(alloc: Global, last: &[u8]) -> Result<Vec<u8>, AllocError> {
    let record = zeros(alloc, b":FF000000", 255, b"01\n")?;
    let mut text = Vec::new(alloc);
    for _ in 0..16_448 {
        text.extend_from_slice(&record)?;
    }
    text.extend_from_slice(last)?;
    text.extend_from_slice(b":00000001FF\n")?;
    Ok(text)
}

#[test]
fn reads_the_largest_image(rt: HostRuntime) -> Result<(), Fail> {
    let last = zeros(rt.alloc(), b":40000000", 64, b"C0\n")?;
    let text = large_text(rt.alloc(), &last)?;
    must(&rt, read(rt.alloc(), &text).is_ok());
    Ok(())
}

#[test]
fn refuses_one_byte_more(rt: HostRuntime) -> Result<(), Fail> {
    let last = zeros(rt.alloc(), b":41000000", 65, b"BF\n")?;
    let text = large_text(rt.alloc(), &last)?;
    same(&rt, refusal(rt.alloc(), &text), Some((16_449, 8)));
    Ok(())
}

#[test]
fn joins_bytes_in_a_row(rt: HostRuntime) -> Result<(), Fail> {
    let mut image = Segments::new(rt.alloc());
    for (address, byte) in [(5, 1), (6, 2), (6, 3), (0xFFFF_FFFF, 4), (0, 5), (2, 6)] {
        same(&rt, image.put(address, byte), Ok(()));
    }
    // A segment that is pushed is not joined, and one without bytes is not kept.
    let bytes = Vec::from_slice(rt.alloc(), b"\x07")?;
    same(&rt, image.push(3, bytes), Ok(()));
    same(&rt, image.push(4, Vec::new(rt.alloc())), Ok(()));
    let wanted: [(u32, &[u8]); 5] = [
        (5, b"\x01\x02"),
        (6, b"\x03"),
        (0xFFFF_FFFF, b"\x04\x05"),
        (2, b"\x06"),
        (3, b"\x07"),
    ];
    must(&rt, has(&image, &wanted));
    Ok(())
}

#[test]
fn shows_errors(rt: HostRuntime) -> Result<(), Fail> {
    let bad = format!(in rt.alloc(); "{}", HexError::Bad(HexFault { line: 3, kind: 4 }))?;
    same(&rt, bad.as_str(), "refused");
    let memory = format!(in rt.alloc(); "{}", HexError::Memory)?;
    same(&rt, memory.as_str(), "no memory");
    Ok(())
}

// A text, and the text that is written for its image; both are worked by hand.
#[test]
fn writes_images(rt: HostRuntime) -> Result<(), Fail> {
    let rows: [(&[u8], &[u8]); 6] = [
        (b":00000001FF", b":00000001FF\n"),
        // Records of 16, and the upper half before the first record that has another one.
        (
            b":02000004FFFFFC\n:04FF100000100000DD\n:020000040000FA\n\
              :181000004100A08C0030A88C000000E00060A582070EA05C0460A592F4\n:00000001FF\n",
            b":02000004FFFFFC\n:04FF100000100000DD\n:020000040000FA\n\
              :101000004100A08C0030A88C000000E00060A582A8\n:08101000070EA05C0460A5922C\n:00000001FF\n",
        ),
        // A cut at a multiple of 65536, where records of 16 begin anew,
        (
            b":17FFFA000000000000000000000000000000000000000000000000F0\n:00000001FF\n",
            b":06FFFA0000000000000001\n:020000040001F9\n\
              :1000000000000000000000000000000000000000F0\n:0100100000EF\n:00000001FF\n",
        ),
        // and at the last address, behind which 0 stands.
        (
            b":02000004ffffFC\n:02FFFF00AABB9B\n:00000001FF\n",
            b":02000004FFFFFC\n:01FFFF00AA57\n:020000040000FA\n:01000000BB44\n:00000001FF\n",
        ),
        // Segments with one upper half, which is written once,
        (
            b":020000040001F9\n:01000000AA55\n:020000040001F9\n:01002000BB24\n:00000001FF\n",
            b":020000040001F9\n:01000000AA55\n:01002000BB24\n:00000001FF\n",
        ),
        // and segments that overlap, in their order.
        (
            b":020010000102EB\n:0100110003EB\n:00000001FF\n",
            b":020010000102EB\n:0100110003EB\n:00000001FF\n",
        ),
    ];
    for (text, written) in rows {
        let image = read(rt.alloc(), text)?;
        let again = write(rt.alloc(), &image)?;
        same(&rt, again.as_slice(), written);
    }
    Ok(())
}
