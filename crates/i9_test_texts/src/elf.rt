//! Files and images that were worked out by hand from the format.
ghost use Rattle.std.specs.Prelude.{◌≡◌, ◌≤◌, length, IfOk};
ghost use Rattle.i9_model.specs.Image.{pairs_of};
ghost use Rattle.i9_model.specs.HexText.{most_bytes};

use crate::check::{must, must_at, same};
use crate::segments::segments_text;
use i9_elf::{ElfError, WriteError, has_magic, one_answer, read, write};
use i9_hex::{Segments, runs_of};
use i9_isa::NoMemory;
use std::alloc::Global;
use std::test::Fail;

/// A file of 118 bytes: its header; at 52 a program header that loads 2 bytes from 116 at 1000, where it has 4 bytes
/// in memory, with another virtual address; at 84 one that loads a byte from 117 at FFFFFFFF, and has 2 in memory; and
/// two bytes.
const FILE: &[u8] = b"\x7FELF\x01\x01\x01\0\0\0\0\0\0\0\0\0\
    \x02\0\x13\0\x01\0\0\0\0\0\0\0\x34\0\0\0\0\0\0\0\0\0\0\0\
    \x34\0\x20\0\x02\0\0\0\0\0\0\0\
    \x01\0\0\0\x74\0\0\0\0\0\0\x80\0\x10\0\0\x02\0\0\0\x04\0\0\0\x07\0\0\0\x01\0\0\0\
    \x01\0\0\0\x75\0\0\0\0\0\0\0\xFF\xFF\xFF\xFF\x01\0\0\0\x02\0\0\0\x07\0\0\0\x01\0\0\0\
    \xAA\xBB";

/// The runs of the images of files. A row has the addresses and bytes of the runs in hexadecimal digits, and behind the
/// semicolon how many bytes of `FILE` there are, and which of them are others.
const IMAGES: &str = "0 00, 1000 AA BB 00 00, FFFFFFFF BB; 118
0 00, 1000 AA BB, FFFFFFFF BB; 118 72=02
1000 AA BB 00 00, FFFFFFFF BB; 118 104=01
0 00, 1000 00 00 00 00, FFFFFFFF BB; 118 68=00 56=FF 57=FF 58=FF 59=FF
0 00, FFFFFFFF BB; 118 68=00 72=00
1000 AA BB 00 00; 118 84=04 88=FF 104=00 107=80
0 00, FFFFFFFF BB; 118 52=00
1000 AA BB 00 00; 118 84=01 85=01
1000 AA BB BB 00; 118 96=02 97=10 98=00 99=00
1000 AA 00 00 00; 118 96=00 97=10 98=00 99=00 88=74
FFF BB 00 BB 00 00; 118 96=FF 97=0F 98=00 99=00
0 00, FFFFFFFF BB; 118 28=54 44=01
none; 118 28=36
none; 52 44=00
none; 52 44=00 28=FF 31=FF 42=21
0 00, 1000 AA BB 00 00, FFFFFFFF BB; 118 6=00 7=09 20=09 27=09 32=09 36=09 40=09 46=09 48=09 50=09 76=00 80=09";

/// The kinds of faults of files, in the form of `IMAGES`. Of kinds that follow each other in their order, some file has
/// both.
const REFUSED: &str = "1; 51
1; 51 4=02
2; 118 4=00
2; 118 4=02 5=02
3; 118 5=00
3; 118 5=02 16=01
4; 118 16=01
4; 118 16=03 18=12
4; 118 17=01
5; 118 18=12
5; 118 18=14 42=21
5; 118 19=01
6; 118 42=1F
6; 115 42=21
6; 118 43=01
7; 52
7; 115
7; 118 28=37
7; 118 44=03
7; 118 45=01
7; 118 31=01
7; 118 28=FF 29=FF 30=FF 31=FF
8; 116
8; 117
8; 118 56=75
8; 118 56=FF 57=FF 58=FF 59=FF
8; 118 72=01
8; 118 104=00
8; 118 74=40 71=FF
8; 118 72=01 106=50
9; 118 74=50 104=00
9; 118 72=01 74=40
9; 118 72=00 74=40
9; 118 72=FF 73=FF 74=3F
9; 118 104=FD 106=40
9; 118 107=80";

/// The bytes of a text, in pairs of hexadecimal digits.
fn bytes_of(alloc: Global, text: &str) -> Result<Vec<u8>, Fail> {
    let mut bytes = Vec::new(alloc);
    for digits in text.split_whitespace() {
        bytes.push(u8::from_str_radix(digits, 16)?)?;
    }
    Ok(bytes)
}

/// The file of a row: a front of `FILE`, with other bytes at some places.
fn file_of(alloc: Global, words: &str) -> Result<Vec<u8>, Fail> {
    let (length, edits) = words.split_once(" ").unwrap_or((words, ""));
    let mut file = Vec::from_slice(alloc, FILE)?;
    file.truncate(usize::from_str_radix(length, 10)?);
    for edit in edits.split_whitespace() {
        let (place, digits) = edit.split_once("=").unwrap_or((edit, ""));
        if let Some(byte) = file.get_mut(usize::from_str_radix(place, 10)?) {
            *byte = u8::from_str_radix(digits, 16)?;
        }
    }
    Ok(file)
}

/// Whether the file of a row is read as its image, or refused for its kind.
fn is_answered(alloc: Global, row: &str) -> Result<bool, Fail> {
    let (wanted, words) = row.split_once("; ").unwrap_or((row, ""));
    let file = file_of(alloc, words)?;
    if !has_magic(&file) {
        return Ok(false);
    }
    match read(alloc, &file) {
        Ok(image) => Ok(segments_text(alloc, &runs_of(alloc, &image)?)?.as_str() == wanted),
        Err(ElfError::Bad(kind)) => Ok(format!(in alloc; "{kind}")?.as_str() == wanted),
        Err(ElfError::Memory) => Ok(false),
    }
}

#[test]
fn knows_the_magic(rt: HostRuntime) -> Result<(), Fail> {
    must(&rt, has_magic(b"\x7FELF"));
    must(&rt, !has_magic(b"\x7FEL"));
    must(&rt, !has_magic(b"\x7FELf\x01\x01\x01"));
    must(&rt, !has_magic(b":00000001FF\n"));
    Ok(())
}

#[test]
fn answers_files(rt: HostRuntime) -> Result<(), Fail> {
    for table in [IMAGES, REFUSED] {
        for row in table.lines() {
            must_at(&rt, is_answered(rt.alloc(), row)?, row);
        }
    }
    one_answer();
    Ok(())
}

// With the two bytes of the second header there are 4,194,304 bytes in memory; `REFUSED` has one more.
#[test]
fn reads_the_largest_image(rt: HostRuntime) -> Result<(), Fail> {
    let file = file_of(rt.alloc(), "118 72=FE 73=FF 74=3F")?;
    assert!(rt; has_magic(&file));
    let image = read(rt.alloc(), &file)?;
    let mut total = 0u64;
    for segment in image.as_slice() {
        total = total.saturating_add(segment.bytes.len() as u64);
    }
    same(&rt, total, 4_194_304);
    Ok(())
}

/// Images as they are put, and their files. Each image has the addresses of its bytes in a row and these bytes in
/// hexadecimal digits. The first is that of `demo/smallest.s`; the second has a byte twice, and runs over the last
/// address; the third is empty.
const WRITTEN: [(&str, &str); 3] = [
    (
        "FFFFFF10 00 10 00 00, 1000 41 00 A0 8C 00 30 A8 8C 00 00 00 E0 00 60 A5 82 07 0E A0 5C 04 60 A5 92",
        "7F 45 4C 46 01 01 01 00 00 00 00 00 00 00 00 00 02 00 13 00 01 00 00 00 00 00 00 00 34 00 00 00
        00 00 00 00 00 00 00 00 34 00 20 00 02 00 00 00 00 00 00 00
        01 00 00 00 74 00 00 00 00 10 00 00 00 10 00 00 18 00 00 00 18 00 00 00 07 00 00 00 01 00 00 00
        01 00 00 00 8C 00 00 00 10 FF FF FF 10 FF FF FF 04 00 00 00 04 00 00 00 07 00 00 00 01 00 00 00
        41 00 A0 8C 00 30 A8 8C 00 00 00 E0 00 60 A5 82 07 0E A0 5C 04 60 A5 92
        00 10 00 00",
    ),
    (
        "FFFFFFFF 01 02 03, 1 04",
        "7F 45 4C 46 01 01 01 00 00 00 00 00 00 00 00 00 02 00 13 00 01 00 00 00 00 00 00 00 34 00 00 00
        00 00 00 00 00 00 00 00 34 00 20 00 02 00 00 00 00 00 00 00
        01 00 00 00 74 00 00 00 00 00 00 00 00 00 00 00 02 00 00 00 02 00 00 00 07 00 00 00 01 00 00 00
        01 00 00 00 76 00 00 00 FF FF FF FF FF FF FF FF 01 00 00 00 01 00 00 00 07 00 00 00 01 00 00 00
        02 04
        01",
    ),
    (
        "",
        "7F 45 4C 46 01 01 01 00 00 00 00 00 00 00 00 00 02 00 13 00 01 00 00 00 00 00 00 00 34 00 00 00
        00 00 00 00 00 00 00 00 34 00 20 00 00 00 00 00 00 00 00 00",
    ),
];

/// The bytes of a text, each with its address.
fn placed(alloc: Global, text: &str) -> Result<Vec<(u32, u8)>, Fail> {
    let mut pairs = Vec::new(alloc);
    for part in text.split(", ") {
        let (start, digits) = part.split_once(" ").unwrap_or(("0", ""));
        let mut address = u32::from_str_radix(start, 16)?;
        let bytes = bytes_of(alloc, digits)?;
        for &byte in &bytes {
            pairs.push((address, byte))?;
            address = address.wrapping_add(1);
        }
    }
    Ok(pairs)
}

/// The image of bytes.
fn image_of(alloc: Global, pairs: &[(u32, u8)]) -> Result<Segments, NoMemory>
    requires { length pairs.now ≤ most_bytes }
    ensures { IfOk result (λ image. length (pairs_of image) ≤ most_bytes) }
{
    let mut image = Segments::new(alloc);
    for pair in pairs {
        image.put(pair.0, pair.1)?;
    }
    Ok(image)
}

#[test]
fn writes_images(rt: HostRuntime) -> Result<(), Fail> {
    for (text, wanted) in WRITTEN {
        let pairs = placed(rt.alloc(), text)?;
        assert!(rt; pairs.len() < 100);
        let image = image_of(rt.alloc(), &pairs)?;
        let file = write(rt.alloc(), &image)?;
        let bytes = bytes_of(rt.alloc(), wanted)?;
        must(&rt, file.as_slice() == bytes.as_slice());
    }
    Ok(())
}

/// An image of so many zeros, each so many addresses from the one before.
fn zeros_apart(alloc: Global, count: u32, step: u32) -> Result<Segments, NoMemory>
    requires { count ≤ most_bytes }
    ensures { IfOk result (λ image. length (pairs_of image) ≤ most_bytes) }
{
    let mut image = Segments::new(alloc);
    for index in 0..count {
        image.put(index.wrapping_mul(step), 0)?;
    }
    Ok(image)
}

/// How many bytes its file has, unless there are too many runs.
fn written_size(alloc: Global, count: u32, step: u32) -> Result<Option<usize>, Fail>
    requires { count ≤ most_bytes }
{
    let image = zeros_apart(alloc, count, step)?;
    match write(alloc, &image) {
        Err(WriteError::Segments) => Ok(None),
        file => Ok(Some(file?.len())),
    }
}

// A file has 52 bytes, 32 for each run, and those of the runs.
#[test]
fn writes_the_largest_images(rt: HostRuntime) -> Result<(), Fail> {
    same(&rt, written_size(rt.alloc(), 65_535, 2)?, Some(2_162_707));
    same(&rt, written_size(rt.alloc(), 65_536, 2)?, None);
    same(
        &rt,
        written_size(rt.alloc(), 4_194_304, 1)?,
        Some(4_194_388),
    );
    Ok(())
}

#[test]
fn tells_what_is_wrong(rt: HostRuntime) -> Result<(), Fail> {
    let bad = format!(in rt.alloc(); "{}, {}", ElfError::Bad(3), ElfError::Memory)?;
    same(&rt, bad.as_str(), "refused, no memory");
    let unwritten = format!(in rt.alloc(); "{}, {}", WriteError::Segments, WriteError::Memory)?;
    same(&rt, unwritten.as_str(), "too many segments, no memory");
    Ok(())
}
