//! Memory, worked out by hand.
use crate::check::{must_at, same, same_at};
use i9_memory::Memory;
use i9_model::in_port_page;
use std::alloc::Global;
use std::test::Fail;

/// Bit 22 of a configuration word, which makes its region big-endian.
const BIG_ENDIAN: u32 = 0x0040_0000;

/// Writes a byte.
fn put(memory: &mut Memory, a: u32, byte: u8) -> Result<(), Fail> {
    memory.reserve(a, 1)?;
    memory.put_byte(a, byte);
    Ok(())
}

/// A memory with a word across two pages of region 1, which is big-endian, and a byte at the last address.
fn across_pages(alloc: Global) -> Result<Memory, Fail> {
    let mut memory = Memory::new(alloc);
    memory.configure(1, BIG_ENDIAN);
    memory.reserve(0x1000_00FE, 4)?;
    memory.put_word(0x1000_00FE, 0x0102_0304);
    put(&mut memory, 0xFFFF_FFFF, 5)?;
    Ok(memory)
}

/// A memory and its copy, with a byte of each changed behind that, and the order of a region of the copy.
fn changed(memory: Memory) -> Result<(Memory, Memory), Fail> {
    let mut memory = memory;
    let mut copy = memory.copy()?;
    put(&mut memory, 0x1000_00FE, 7)?;
    put(&mut copy, 0x1000_0101, 8)?;
    copy.configure(1, 0);
    Ok((memory, copy))
}

// The word 01020304 stands across two pages of region 1, which is big-endian. Then 7 is written to its first byte, and
// 8 to its last one in the copy, whose region 1 is made little-endian.
#[test]
fn copies_are_apart(rt: HostRuntime) -> Result<(), Fail> {
    let memory = across_pages(rt.alloc())?;
    same(&rt, memory.copy()?.word(0x1000_00FE), 0x0102_0304);
    let (memory, copy) = changed(memory)?;
    let rows = [
        (0x1000_00FD, 0, 0),
        (0x1000_00FE, 7, 1),
        (0x1000_00FF, 2, 2),
        (0x1000_0100, 3, 3),
        (0x1000_0101, 4, 8),
        (0x1000_0102, 0, 0),
        (0xFFFF_FFFF, 5, 5),
    ];
    for (address, byte, of_copy) in rows {
        same_at(&rt, memory.byte(address), byte, address);
        same_at(&rt, copy.byte(address), of_copy, ("of the copy", address));
    }
    let words = [memory.word(0x1000_00FE), copy.word(0x1000_00FE)];
    same(&rt, words, [0x0702_0304, 0x0803_0201]);
    Ok(())
}

/// What is done to a memory, or what it has to hold.
#[derive(Clone, Copy)]
enum Step {
    PutByte(u32, u8),
    PutHalf(u32, u16),
    PutWord(u32, u32),
    Byte(u32, u8),
    Half(u32, u16),
    Word(u32, u32),
}

use Step::{Byte, Half, PutByte, PutHalf, PutWord, Word};

/// Does a step; false where memory holds something else.
fn does(memory: &mut Memory, step: Step) -> Result<bool, Fail> {
    match step {
        PutByte(a, v) => {
            memory.reserve(a, 1)?;
            memory.put_byte(a, v);
        }
        PutHalf(a, v) => {
            memory.reserve(a, 2)?;
            memory.put_half(a, v);
        }
        PutWord(a, v) => {
            memory.reserve(a, 4)?;
            memory.put_word(a, v);
        }
        Byte(a, wanted) => return Ok(memory.byte(a) == wanted),
        Half(a, wanted) => return Ok(memory.half(a) == wanted),
        Word(a, wanted) => return Ok(memory.word(a) == wanted),
    }
    Ok(true)
}

/// A memory whose regions 1 and 15 are big-endian.
fn memory(alloc: Global) -> Memory {
    let mut memory = Memory::new(alloc);
    memory.configure(1, BIG_ENDIAN);
    memory.configure(15, BIG_ENDIAN);
    memory
}

#[test]
fn holds_bytes(rt: HostRuntime) -> Result<(), Fail> {
    let stories: [&[Step]; 6] = [
        // In a big-endian region the highest byte is the first, in others the last.
        &[
            PutWord(0x1000_0000, 0x0102_0304),
            Byte(0x1000_0000, 1),
            Byte(0x1000_0001, 2),
            Byte(0x1000_0002, 3),
            Byte(0x1000_0003, 4),
            Half(0x1000_0001, 0x0203),
            PutHalf(0x2000_0000, 0x0506),
            Byte(0x2000_0000, 6),
            Byte(0x2000_0001, 5),
            Word(0x2000_0000, 0x0506),
        ],
        // A value over the end of a region has the order of the region of its first byte.
        &[
            PutWord(0x1FFF_FFFE, 0x0102_0304),
            Byte(0x1FFF_FFFF, 2),
            Byte(0x2000_0000, 3),
            Word(0x1FFF_FFFE, 0x0102_0304),
            Half(0x1FFF_FFFF, 0x0203),
            Half(0x2000_0000, 0x0403),
            PutHalf(0x0FFF_FFFF, 0x0708),
            Byte(0x0FFF_FFFF, 8),
            Byte(0x1000_0000, 7),
        ],
        // Addresses run on from the last to 0.
        &[
            PutWord(0xFFFF_FFFE, 0x0102_0304),
            Byte(0xFFFF_FFFF, 2),
            Byte(0, 3),
            Byte(1, 4),
            Word(0xFFFF_FFFE, 0x0102_0304),
        ],
        // The port page holds 0 whatever is stored there.
        &[
            PutWord(0xE000_0004, 0x0102_0304),
            Word(0xE000_0004, 0),
            PutWord(0xDFFF_FFFE, 0x0102_0304),
            Word(0xDFFF_FFFE, 0x0304),
            PutHalf(0xE000_0FFF, 0x0506),
            Half(0xE000_0FFF, 0x0500),
        ],
        // Addresses 2 GiB apart are two.
        &[
            PutByte(0x0000_1234, 1),
            PutByte(0x8000_1234, 2),
            Byte(0x0000_1234, 1),
            Byte(0x8000_1234, 2),
            Byte(0x4000_1234, 0),
        ],
        // So are the bytes on either side of a page's end.
        &[
            PutHalf(0x20FF, 0x0102),
            Byte(0x20FF, 2),
            Byte(0x2100, 1),
            Byte(0x2000, 0),
        ],
    ];
    for (number, story) in stories.iter().enumerate() {
        let mut memory = memory(rt.alloc());
        for (index, step) in story.iter().enumerate() {
            let is_right = does(&mut memory, *step)?;
            must_at(&rt, is_right, (number, index));
        }
    }
    Ok(())
}

/// Each word of a run has the order of its own region.
#[test]
fn holds_words(rt: HostRuntime) -> Result<(), Fail> {
    let words = [0x0102_0304, 0x0506_0708, 0x090A_0B0C];
    let rows = [
        // Within a page, over a page's end between two words and within one.
        (0x2010, words, [4, 3, 2, 1, 8, 7, 6, 5, 12, 11, 10, 9]),
        (0x20F8, words, [4, 3, 2, 1, 8, 7, 6, 5, 12, 11, 10, 9]),
        (0x20FA, words, [4, 3, 2, 1, 8, 7, 6, 5, 12, 11, 10, 9]),
        (0x1000_20FB, words, [1, 2, 3, 4, 5, 6, 7, 8, 9, 10, 11, 12]),
        // Over the end of a region, between two words and within one.
        (0x1FFF_FFFC, words, [1, 2, 3, 4, 8, 7, 6, 5, 12, 11, 10, 9]),
        (0x1FFF_FFFA, words, [1, 2, 3, 4, 5, 6, 7, 8, 12, 11, 10, 9]),
        // From the last address to 0.
        (0xFFFF_FFF8, words, [1, 2, 3, 4, 5, 6, 7, 8, 12, 11, 10, 9]),
        (0xFFFF_FFFE, words, [1, 2, 3, 4, 8, 7, 6, 5, 12, 11, 10, 9]),
        // Into the port page and out of it.
        (
            0xDFFF_FFFC,
            [0x0102_0304, 0, 0],
            [4, 3, 2, 1, 0, 0, 0, 0, 0, 0, 0, 0],
        ),
        (
            0xDFFF_FFFE,
            [0x0304, 0, 0],
            [4, 3, 0, 0, 0, 0, 0, 0, 0, 0, 0, 0],
        ),
        (
            0xE000_0FFC,
            [0, 0x0506_0708, 0x090A_0B0C],
            [0, 0, 0, 0, 8, 7, 6, 5, 12, 11, 10, 9],
        ),
    ];
    for (a, wanted, bytes) in rows {
        let mut memory = memory(rt.alloc());
        memory.reserve(a, 12)?;
        memory.put_words(a, &words);
        same_at(&rt, memory.words(a), wanted, a);
        let mut at: u32 = a;
        for byte in bytes {
            same_at(&rt, memory.byte(at), byte, (at, a));
            at = at.wrapping_add(1);
        }
        same(&rt, memory.words(a.wrapping_add(12)), [0]);
    }
    Ok(())
}

/// Bytes of any number are loaded, over pages, over the last address, and about the port page.
#[test]
fn loads_bytes(rt: HostRuntime) -> Result<(), Fail> {
    let mut memory = memory(rt.alloc());
    memory.load(0x20F0, &[7; 600])?;
    memory.load(0xFFFF_FFFE, &[1, 2, 3])?;
    memory.load(0xDFFF_FFFF, &[4, 5])?;
    memory.load(0xE000_0FFF, &[5, 6])?;
    memory.load(0x3000, &[])?;
    let rows = [
        (0x20EF, 0),
        (0x20F0, 7),
        (0x20FF, 7),
        (0x2100, 7),
        (0x21FF, 7),
        (0x2200, 7),
        (0x2347, 7),
        (0x2348, 0),
        (0xFFFF_FFFD, 0),
        (0xFFFF_FFFE, 1),
        (0xFFFF_FFFF, 2),
        (0x0000_0000, 3),
        (0x0000_0001, 0),
        (0xDFFF_FFFF, 4),
        (0xE000_0000, 0),
        (0xE000_0FFF, 0),
        (0xE000_1000, 6),
    ];
    for (a, wanted) in rows {
        same_at(&rt, memory.byte(a), wanted, a);
    }
    Ok(())
}

/// What there is room for asks for no more.
#[test]
fn keeps_room(rt: HostRuntime) -> Result<(), Fail> {
    let runs = [
        (0x20FF, 1),
        (0x20FF, 2),
        (0x20F0, 17),
        (0x20C1, 64),
        (0x0020_0000, 0x0011_0000),
        (0xFFFF_FFFF, 64),
        (0x4000_0000, 0),
    ];
    let mut memory = memory(rt.alloc());
    for (a, n) in runs {
        memory.reserve(a, n)?;
    }
    for (a, n) in runs {
        must_at(&rt, memory.reserve(a, n).is_ok(), (n, a));
    }
    Ok(())
}

/// 1 where there is room in the page of an address, and 0 where there is none.
fn page_at(memory: &Memory, a: u32) -> usize {
    usize::from(memory.has_room(a))
}

/// How many pages there are in the first 2 MiB.
fn low_page_count(memory: &Memory) -> usize {
    let mut count = 0usize;
    for number in 0..0x2000_u32 {
        count = count.saturating_add(page_at(memory, number * 256));
    }
    count
}

/// How many pages there are: of the first 2 MiB all are counted, and of the rest the first one and the last one of
/// each 64 KiB.
fn page_count(memory: &Memory) -> usize {
    let mut count = low_page_count(memory);
    for block in 0x20..0x1_0000_u32 {
        let first = page_at(memory, block * 0x1_0000);
        let last = page_at(memory, block * 0x1_0000 + 0xFF00);
        count = count.saturating_add(first).saturating_add(last);
    }
    count
}

/// There is a page for each 256 addresses of which one was asked for, and no other.
#[test]
fn has_pages_of_what_is_reserved(rt: HostRuntime) -> Result<(), Fail> {
    // An address, a number of bytes, and how many pages there are behind their reservation.
    let rows = [
        (0x4000_0000, 0, 0),
        (0x20FF, 1, 1),
        (0x2000, 256, 1),
        (0x20FF, 2, 2),
        (0x2300, 0x1_0000, 258),
        (0x0010_0080, 0x200, 261),
        (0xFFFF_FFFF, 2, 263),
        (0xE000_0004, 4, 264),
        (0x2100, 0x1_0200, 265),
    ];
    let mut memory = memory(rt.alloc());
    for (a, n, wanted) in rows {
        memory.reserve(a, n)?;
        same_at(&rt, page_count(&memory), wanted, (n, a));
    }
    memory.load(0x7FFF_FFFE, &[1, 2, 3, 4])?;
    same(&rt, page_count(&memory), 267);
    memory.reserve(0x20FC, 16)?;
    memory.put_words(0x20FC, &[1, 2, 3, 4]);
    memory.configure(7, BIG_ENDIAN);
    same(&rt, page_count(&memory), 267);
    Ok(())
}

/// The order of bytes is that of the region of the first one.
#[test]
fn orders_bytes(rt: HostRuntime) {
    let memory = memory(rt.alloc());
    let rows = [
        (0x0FFF_FFFF, [2, 1], [4, 3, 2, 1]),
        (0x1000_0000, [1, 2], [1, 2, 3, 4]),
        (0x1FFF_FFFF, [1, 2], [1, 2, 3, 4]),
        (0x2000_0000, [2, 1], [4, 3, 2, 1]),
        (0xE000_0004, [2, 1], [4, 3, 2, 1]),
        (0xFFFF_FFFF, [1, 2], [1, 2, 3, 4]),
    ];
    for (a, half, word) in rows {
        same(&rt, memory.half_bytes(a, 0x0102), half);
        same(&rt, memory.word_bytes(a, 0x0102_0304), word);
    }
}

#[test]
fn knows_the_port_page(rt: HostRuntime) {
    for a in [0xE000_0000, 0xE000_0004, 0xE000_0FFF] {
        must_at(&rt, in_port_page(a), a);
    }
    for a in [0, 0xDFFF_FFFF, 0xE000_1000, 0xF000_0000, 0xFFFF_FFFF] {
        must_at(&rt, !in_port_page(a), a);
    }
}

#[test]
fn reads_configurations(rt: HostRuntime) {
    let rows = [
        (0x0000_0000, false, 0, 0),
        (0x0040_0000, true, 0, 0),
        (0xFFBF_FFFF, false, 31, 31),
        (0x0000_00F8, false, 31, 0),
        (0x0001_F000, false, 0, 31),
        (0x0041_5050, true, 10, 21),
    ];
    let mut memory = Memory::new(rt.alloc());
    for (word, big, read, write) in rows {
        memory.configure(7, word);
        same(&rt, memory.big(7), big);
        same(&rt, memory.waits(7, false), read);
        same(&rt, memory.waits(7, true), write);
        same(&rt, memory.waits(6, true), 0);
    }
}
