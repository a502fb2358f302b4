//! Requests that wait, what is stored, and what is read over it, worked out by hand.
ghost use Rattle.std.specs.Prelude.{◌≡◌, ◌∷◌, []};

use crate::check::{must, same, same_at};
use crate::rows::{add, pair};
use arrayvec::ArrayVec;
use i9_memory::Memory;
use i9_queue::{Behind, Queue, Request, Size, store_bytes};
use std::alloc::Global;
use std::test::Fail;

/// A request: its address, the turn at which it is due, and the bytes that it stores; a load has none.
fn request(text: &str) -> Result<Request, Fail> {
    let mut words = text.split_whitespace();
    let (Some(address), Some(due)) = (words.next(), words.next()) else {
        return Err("a request has an address and a turn".into());
    };
    let address = u32::from_str_radix(address, 16)?;
    let due = due.parse::<u64>()?;
    let mut bytes = ArrayVec::new();
    for word in words {
        if bytes.try_push(u8::from_str_radix(word, 16)?).is_err() {
            return Err("too many bytes".into());
        }
    }
    Ok(Request {
        address,
        bytes,
        due,
    })
}

/// The requests of a text, between commas.
fn waiting(text: &str) -> Result<Queue, Fail> {
    let mut queue = Queue::new();
    for item in text.split(',') {
        if queue.len() > 2 {
            return Err("too many requests".into());
        }
        if !item.trim().is_empty() {
            queue.put(request(item)?);
        }
    }
    Ok(queue)
}

/// How many requests wait, and the byte that they give at each address, if any.
fn queue_text(alloc: Global, queue: &Queue) -> Result<String, Fail> {
    let mut text = format!(in alloc; "{}:", queue.len())?;
    for place in 0..7_u32 {
        let byte = queue.forward(0xFFFF_FFFB_u32.wrapping_add(place));
        match byte {
            Some(byte) => add(&mut text, " ", &format!(in alloc; "{byte:X}")?)?,
            None => add(&mut text, " ", "none")?,
        }
    }
    Ok(text)
}

/// Drops the request that is due: its address, the number of its bytes and its turn; and what waits then.
fn taken_text(alloc: Global, queue: &mut Queue, turn: u64) -> Result<String, Fail> {
    let Some(request) = queue.first_due(turn) else {
        let left = queue_text(alloc, queue)?;
        return Ok(format!(in alloc; "none, {left}")?);
    };
    let due = request.due;
    let told = format!(in alloc; "{:X} {} {due}", request.address, request.bytes.len())?;
    queue.drop_first();
    let left = queue_text(alloc, queue)?;
    Ok(format!(in alloc; "{told}, {left}")?)
}

/// A store, a load, and a store that goes on at 0.
const REQUESTS: &str = "FFFFFFFC 5 01 02 03 04, FFFFFFFC 7, FFFFFFFE 9 09 08 07";

/// A turn, the request that is dropped at it, and what waits then: how many requests, and the bytes from FFFFFFFB on.
const TAKEN: &str = "\
4 | none, 3: none 1 2 9 8 7 none
5 | FFFFFFFC 4 5, 2: none none none 9 8 7 none
6 | none, 2: none none none 9 8 7 none
9 | FFFFFFFC 0 7, 1: none none none 9 8 7 none
9 | FFFFFFFE 3 9, 0: none none none none none none none
9 | none, 0: none none none none none none none
";

#[test]
fn forwards_the_youngest_store(rt: HostRuntime) -> Result<(), Fail> {
    let empty = queue_text(rt.alloc(), &Queue::new())?;
    same(&rt, empty.as_str(), "0: none none none none none none none");
    let mut queue = waiting(REQUESTS)?;
    for row in TAKEN.lines() {
        let (turn, wanted) = pair(row)?;
        // The request is taken from a copy of what waits.
        queue = queue.copy();
        let text = taken_text(rt.alloc(), &mut queue, turn.parse::<u64>()?)?;
        same_at(&rt, text.as_str(), wanted, row);
    }
    Ok(())
}

/// Bit 22 of a configuration word, which makes its region big-endian.
const BIG_ENDIAN: u32 = 0x0040_0000;

/// A memory whose regions 1 and 15 are big-endian.
fn memory(alloc: Global) -> Memory {
    let mut memory = Memory::new(alloc);
    memory.configure(1, BIG_ENDIAN);
    memory.configure(15, BIG_ENDIAN);
    memory
}

/// A store of one byte.
fn store(address: u32, byte: u8, due: u64) -> Request
    ensures address { result.address ≡ address }
    ensures bytes { result.bytes.items ≡ byte ∷ [] }
    ensures due { result.due ≡ due }
{
    let mut bytes = ArrayVec::new();
    bytes.push(byte);
    Request {
        address,
        bytes,
        due,
    }
}

/// The bytes at these addresses.
fn bytes_text(alloc: Global, behind: &Behind, addresses: &[u32]) -> Result<String, Fail> {
    let mut text = String::new(alloc);
    for a in addresses {
        add(&mut text, " ", &format!(in alloc; "{:X}", behind.byte(*a))?)?;
    }
    Ok(text)
}

/// 6 at 1002, in memory whose region 1 is big-endian, and stores that wait: of 1 at 1000, of 5 in the port page, and of
/// 9 at 1000.
fn of_three_bytes(alloc: Global) -> Result<Behind, Fail> {
    let mut memory = Memory::new(alloc);
    memory.reserve(0x1002, 1)?;
    memory.put_byte(0x1002, 6);
    memory.configure(1, BIG_ENDIAN);
    let mut behind = Behind::new(memory);
    behind.reserve(0x1000, 1)?;
    behind.enqueue(store(0x1000, 1, 3));
    behind.reserve(0xE000_0000, 1)?;
    behind.enqueue(store(0xE000_0000, 5, 4));
    behind.reserve(0x1000, 1)?;
    behind.enqueue(store(0x1000, 9, 6));
    Ok(behind)
}

// A byte is that of the youngest waiting store to it, before and after some have landed; the port
// page reads as 0.
#[test]
fn lands_stores(rt: HostRuntime) -> Result<(), Fail> {
    let mut behind = of_three_bytes(rt.alloc())?;
    must(&rt, behind.big(1) && !behind.big(0));
    for turn in [0, 3, 5, 6] {
        behind = behind.copy()?;
        behind.land(turn);
        let places = [0x0FFF, 0x1000, 0x1001, 0x1002, 0xE000_0000];
        let text = bytes_text(rt.alloc(), &behind, &places)?;
        same(&rt, text.as_str(), "0 9 0 6 0");
    }
    Ok(())
}

/// A half, a word and two words at an address where the region is little-endian.
fn words_text(alloc: Global, behind: &Behind, a: u32) -> Result<String, Fail> {
    let [first, second] = behind.words::<2>(a);
    let (half, word) = (behind.half(a), behind.word(a));
    Ok(format!(in alloc; "{half:X} {word:X} {first:X} {second:X}")?)
}

/// Whether nothing waits any more, and what memory holds at these addresses.
fn held_text(alloc: Global, behind: &Behind, addresses: &[u32]) -> Result<String, Fail> {
    let mut text = format!(in alloc; "{}", behind.is_drained())?;
    for a in addresses {
        let byte = behind.acted_byte(*a);
        add(&mut text, " ", &format!(in alloc; "{byte:X}")?)?;
    }
    Ok(text)
}

/// What is read at each address, and behind it what memory holds there.
fn reads_text(alloc: Global, behind: &Behind) -> Result<String, Fail> {
    let places = [
        0x0FFF_FFF4,
        0x0FFF_FFFA,
        0x0FFF_FFFC,
        0x0FFF_FFFF,
        0x1000_0001,
    ];
    let mut text = held_text(alloc, behind, &places)?;
    for a in places {
        add(&mut text, ", ", &words_text(alloc, behind, a)?)?;
    }
    Ok(text)
}

/// What is read at 0FFFFFF4, 0FFFFFFA, 0FFFFFFC, 0FFFFFFF and 10000001, whatever has landed.
const READS: &str = "0 0 0 2010000, 201 4B10201 4B10201 C1070605, 4B1 60504B1 60504B1 7C10000, \
706 C10706 C10706 0, C100 C1000000 C1000000 0";

/// A turn, whether nothing waits then, and what memory holds at these addresses.
const LANDED: &str = "\
2 | false 0 1 3 6 8
3 | false 0 1 A1 6 8
4 | false 0 1 A1 6 8
5 | true 0 1 B1 6 C1
";

/// Memory and the three stores that wait.
fn over_a_border(alloc: Global) -> Result<Behind, Fail> {
    let mut memory = memory(alloc);
    memory.load(0x0FFF_FFFA, b"\x01\x02\x03\x04\x05\x06\x07\x08")?;
    let mut behind = Behind::new(memory);
    behind.reserve(0x0FFF_FFFC, 1)?;
    behind.enqueue(store(0x0FFF_FFFC, 0xA1, 3));
    behind.reserve(0x0FFF_FFFC, 1)?;
    behind.enqueue(store(0x0FFF_FFFC, 0xB1, 5));
    behind.reserve(0x1000_0001, 1)?;
    behind.enqueue(store(0x1000_0001, 0xC1, 5));
    Ok(behind)
}

// Memory holds 01 to 08 from 0FFFFFFA up, so the last two in the big-endian region 1. A store of A1 at
// 0FFFFFFC waits until turn 3, one of B1 there and one of C1 at 10000001 until turn 5.
#[test]
fn reads_words_over_what_waits(rt: HostRuntime) -> Result<(), Fail> {
    let drained = Behind::new(memory(rt.alloc()));
    same(
        &rt,
        (drained.is_drained(), drained.waits(1, false)),
        (true, 0),
    );
    let mut behind = over_a_border(rt.alloc())?;
    for row in LANDED.lines() {
        let (turn, held) = pair(row)?;
        behind.land(turn.parse::<u64>()?);
        let wanted = format!(in rt.alloc(); "{held}, {READS}")?;
        let text = reads_text(rt.alloc(), &behind)?;
        same_at(&rt, text.as_str(), wanted.as_str(), row);
    }
    Ok(())
}

/// The values that are stored.
const VALUES: [u32; 4] = [0xA1B2_C3D4, 0x0102_0304, 0x1122_3344, 0x5566_7788];

/// An address and a size, and the bytes of the values: each size in a little-endian region, in the port page, which is
/// little-endian too, and in a big-endian region.
const STORES: &str = "\
1001 byte     | D4
E0000002 byte | D4
10000001 byte | D4
1001 half     | D4 C3
E0000002 half | D4 C3
10000001 half | C3 D4
1001 1        | D4 C3 B2 A1
E0000002 1    | D4 C3 B2 A1
10000001 1    | A1 B2 C3 D4
1001 2        | D4 C3 B2 A1 04 03 02 01
E0000002 2    | D4 C3 B2 A1 04 03 02 01
10000001 2    | A1 B2 C3 D4 01 02 03 04
1001 3        | D4 C3 B2 A1 04 03 02 01 44 33 22 11
E0000002 3    | D4 C3 B2 A1 04 03 02 01 44 33 22 11
10000001 3    | A1 B2 C3 D4 01 02 03 04 11 22 33 44
1001 4        | D4 C3 B2 A1 04 03 02 01 44 33 22 11 88 77 66 55
E0000002 4    | D4 C3 B2 A1 04 03 02 01 44 33 22 11 88 77 66 55
10000001 4    | A1 B2 C3 D4 01 02 03 04 11 22 33 44 55 66 77 88
";

/// The same where each value has the order of the region of its own first byte, over the end of a region and on from
/// FFFFFFFF to 0.
const STORES_OVER_AN_END: &str = "\
FFFFFFF half  | D4 C3
1FFFFFFF half | C3 D4
FFFFFFFF half | C3 D4
FFFFFFC 2     | D4 C3 B2 A1 01 02 03 04
FFFFFFE 2     | D4 C3 B2 A1 01 02 03 04
1FFFFFF8 3    | A1 B2 C3 D4 01 02 03 04 44 33 22 11
FFFFFFFC 2    | A1 B2 C3 D4 04 03 02 01
FFFFFFFE 2    | A1 B2 C3 D4 04 03 02 01
";

/// An address, and a size: a byte, a half, or so many words.
fn place(text: &str) -> Result<(u32, Size), Fail> {
    let (address, size) = text.split_once(" ").unwrap_or((text, ""));
    let size = match size {
        "byte" => Size::Byte,
        "half" => Size::Half,
        _ => Size::Words(size.parse::<u8>()?),
    };
    Ok((u32::from_str_radix(address, 16)?, size))
}

/// The bytes of the values that are stored at a place.
fn stored_text(alloc: Global, memory: &Memory, text: &str) -> Result<String, Fail> {
    let (address, size) = place(text)?;
    let mut told = String::new(alloc);
    for byte in store_bytes(memory, address, size, &VALUES).iter() {
        add(&mut told, " ", &format!(in alloc; "{byte:02X}")?)?;
    }
    Ok(told)
}

#[test]
fn stores_values(rt: HostRuntime) -> Result<(), Fail> {
    let memory = memory(rt.alloc());
    for table in [STORES, STORES_OVER_AN_END] {
        for row in table.lines() {
            let (text, wanted) = pair(row)?;
            let told = stored_text(rt.alloc(), &memory, text)?;
            same_at(&rt, told.as_str(), wanted, row);
        }
    }
    Ok(())
}

/// A memory with 01 to 10 from 0FFFFFF8 up, 21 to 28 from FFFFFFFC up, F1 and F2 from 2000 up, and 31
/// and 32 under the port page; 33 and 34 fall nowhere.
fn filled_memory(alloc: Global) -> Result<Memory, Fail> {
    let mut memory = memory(alloc);
    let low = b"\x01\x02\x03\x04\x05\x06\x07\x08\x09\x0A\x0B\x0C\x0D\x0E\x0F\x10";
    memory.load(0x0FFF_FFF8, low)?;
    memory.load(0xFFFF_FFFC, b"\x21\x22\x23\x24\x25\x26\x27\x28")?;
    memory.load(0x2000, b"\xF1\xF2")?;
    memory.load(0xDFFF_FFFE, b"\x31\x32\x33\x34")?;
    Ok(memory)
}

/// The address and size of a load, and the values that it has where nothing waits. A byte and a half have zeros above,
/// and words that are not read are 0. The last loads go over the end of a region, on from FFFFFFFF to 0, and into the
/// port page.
const NOTHING_WAITS: &str = "\
2000 byte     | F1 0 0 0
2000 half     | F2F1 0 0 0
FFFFFF9 half  | 302 0 0 0
10000001 byte | A 0 0 0
10000001 half | A0B 0 0 0
FFFFFF8 1     | 4030201 0 0 0
FFFFFF8 2     | 4030201 8070605 0 0
10000000 1    | 90A0B0C 0 0 0
10000000 2    | 90A0B0C D0E0F10 0 0
E0000000 byte | 0 0 0 0
E0000000 2    | 0 0 0 0
FFFFFFF half  | 908 0 0 0
FFFFFFE 2     | A090807 B0C0D0E 0 0
FFFFFFC 3     | 8070605 90A0B0C D0E0F10 0
FFFFFF8 4     | 4030201 8070605 90A0B0C D0E0F10
FFFFFFFF half | 2425 0 0 0
FFFFFFFE 1    | 23242526 0 0 0
FFFFFFFC 2    | 21222324 28272625 0 0
DFFFFFFE 1    | 3231 0 0 0
";

/// The same where a store covers only some bytes of a load.
const STORE_WAITS: &str = "\
FFFFFFA byte | A1 0 0 0
FFFFFF9 byte | 2 0 0 0
FFFFFF9 half | A102 0 0 0
FFFFFF8 2    | A2A10201 80706A3 0 0
10000000 1   | 90A0B0C 0 0 0
";

/// The same where the younger of two stores wins in their common bytes.
const YOUNGER_WINS: &str = "\
FFFFFFA byte | A1 0 0 0
FFFFFFB byte | B1 0 0 0
FFFFFFA half | B1A1 0 0 0
FFFFFFF half | B6B5 0 0 0
FFFFFFF 1    | B0AB6B5 0 0 0
FFFFFF8 4    | B1A10201 B5B4B3B2 B60A0B0C D0E0F10
";

/// The same where a store goes on at 0, and one goes on into the port page, where its bytes fall nowhere.
const OVER_AN_END: &str = "\
FFFFFFFF half | C2C3 0 0 0
FFFFFFFE 1    | C1C2C326 0 0 0
FFFFFFFC 2    | 2122C1C2 282726C3 0 0
E0000000 half | 0 0 0 0
DFFFFFFE 2    | D131 0 0 0
";

/// The requests that wait, and the loads over them; a load among the requests changes nothing.
const LOADS: [(&str, &str); 5] = [
    ("", NOTHING_WAITS),
    ("FFFFFFA 5 A1 A2 A3", STORE_WAITS),
    ("FFFFFFA 5 A1 A2 A3, FFFFFF8 6", STORE_WAITS),
    (
        "FFFFFFA 5 A1 A2 A3, FFFFFF8 6, FFFFFFB 7 B1 B2 B3 B4 B5 B6",
        YOUNGER_WINS,
    ),
    ("FFFFFFFE 5 C1 C2 C3, DFFFFFFF 6 D1 D2 D3", OVER_AN_END),
];

/// The values that a load sees.
fn seen_text(alloc: Global, queue: &Queue, memory: &Memory, text: &str) -> Result<String, Fail> {
    let (address, size) = place(text)?;
    let mut told = String::new(alloc);
    for value in queue.see(memory, address, size) {
        add(&mut told, " ", &format!(in alloc; "{value:X}")?)?;
    }
    Ok(told)
}

#[test]
fn sees_what_waits(rt: HostRuntime) -> Result<(), Fail> {
    let memory = filled_memory(rt.alloc())?;
    for (given, loads) in LOADS {
        let queue = waiting(given)?;
        for row in loads.lines() {
            let (text, wanted) = pair(row)?;
            let seen = seen_text(rt.alloc(), &queue, &memory, text)?;
            same_at(&rt, seen.as_str(), wanted, row);
        }
    }
    Ok(())
}
