//! Listings that were worked out by hand, and what they assemble to.
use crate::check::{must, must_at};
use crate::dis::{PRINTED, REFUSED_WORDS};
use crate::segments::segments_of;
use i9_asm::assemble;
use i9_dis::{listing, one_listing};
use i9_hex::Segments;
use std::alloc::Global;
use std::collections::BTreeMap;
use std::test::Fail;

/// Images and their listings. The first line of each has the segments.
const LISTINGS: &str = "1000:803E0066
.org 0x00001000
flushreg {3800} # 00001000 66003E80

1008:0198A059 1000:0030A88C000000E0
.org 0x00001000
lda 0xE0000000, g5 # 00001000 8CA83000 E0000000
addo 1, 2, g4 # 00001008 59A09801

FFC:10000008
.org 0x00000FFC
b 0x0000100C # 00000FFC 08000010

FFFFFFFC:803E0066
.org 0xFFFFFFFC
flushreg {3800} # FFFFFFFC 66003E80

1000:AB
.org 0x00001000
.byte 0xAB # 00001000 AB

1001:AB
.org 0x00001001
.byte 0xAB # 00001001 AB

1002:AB
.org 0x00001002
.byte 0xAB # 00001002 AB

1003:AB
.org 0x00001003
.byte 0xAB # 00001003 AB

1000:0102
.org 0x00001000
.byte 0x01 # 00001000 01
.byte 0x02 # 00001001 02

1001:0102
.org 0x00001001
.byte 0x01 # 00001001 01
.byte 0x02 # 00001002 02

1002:0102
.org 0x00001002
.byte 0x01 # 00001002 01
.byte 0x02 # 00001003 02

1003:0102
.org 0x00001003
.byte 0x01 # 00001003 01
.byte 0x02 # 00001004 02

1000:010203
.org 0x00001000
.byte 0x01 # 00001000 01
.byte 0x02 # 00001001 02
.byte 0x03 # 00001002 03

1001:010203
.org 0x00001001
.byte 0x01 # 00001001 01
.byte 0x02 # 00001002 02
.byte 0x03 # 00001003 03

1002:010203
.org 0x00001002
.byte 0x01 # 00001002 01
.byte 0x02 # 00001003 02
.byte 0x03 # 00001004 03

1003:010203
.org 0x00001003
.byte 0x01 # 00001003 01
.byte 0x02 # 00001004 02
.byte 0x03 # 00001005 03

1000:0102030005
.org 0x00001000
.word 0x00030201 # 00001000 00030201
.byte 0x05 # 00001004 05

1001:0102030405
.org 0x00001001
.byte 0x01 # 00001001 01
.byte 0x02 # 00001002 02
.byte 0x03 # 00001003 03
.byte 0x04 # 00001004 04
.byte 0x05 # 00001005 05

1002:0102030405
.org 0x00001002
.byte 0x01 # 00001002 01
.byte 0x02 # 00001003 02
.byte 0x03 # 00001004 03
.byte 0x04 # 00001005 04
.byte 0x05 # 00001006 05

1003:0102030400
.org 0x00001003
.byte 0x01 # 00001003 01
.word 0x00040302 # 00001004 00040302

1000:01 1002:02
.org 0x00001000
.byte 0x01 # 00001000 01
.org 0x00001002
.byte 0x02 # 00001002 02

1000:01020304 1001:0A0B
.org 0x00001000
.word 0x040B0A01 # 00001000 040B0A01

1001:0A0B 1000:01020304
.org 0x00001000
.word 0x04030201 # 00001000 04030201

1000:01 1000:02 1000:03
.org 0x00001000
.byte 0x03 # 00001000 03

1002:0304 2000:AB 1000:0102
.org 0x00001000
.word 0x04030201 # 00001000 04030201
.org 0x00002000
.byte 0xAB # 00002000 AB

FFFFFFFE:01020304
.org 0x00000000
.byte 0x03 # 00000000 03
.byte 0x04 # 00000001 04
.org 0xFFFFFFFE
.byte 0x01 # FFFFFFFE 01
.byte 0x02 # FFFFFFFF 02

1000:0030A88C
.org 0x00001000
.word 0x8CA83000 # 00001000 8CA83000

1000:0030A88C0000E0
.org 0x00001000
.word 0x8CA83000 # 00001000 8CA83000
.byte 0x00 # 00001004 00
.byte 0x00 # 00001005 00
.byte 0xE0 # 00001006 E0

1000:0030A88C 1005:E0
.org 0x00001000
.word 0x8CA83000 # 00001000 8CA83000
.org 0x00001005
.byte 0xE0 # 00001005 E0

FFFFFFFC:0030A88C000000E0
.org 0x00000000
.word 0xE0000000 # 00000000 E0000000
.org 0xFFFFFFFC
.word 0x8CA83000 # FFFFFFFC 8CA83000";

/// The bytes of an image by their addresses.
fn bytes_of(alloc: Global, image: &Segments) -> Result<BTreeMap<u32, u8>, Fail> {
    let mut bytes = BTreeMap::new(alloc);
    for segment in image.as_slice() {
        let mut address = segment.address;
        for &byte in &segment.bytes {
            bytes.insert(address, byte)?;
            address = address.wrapping_add(1);
        }
    }
    Ok(bytes)
}

/// Whether an image has this listing, which assembles to the same bytes.
fn is_listed(alloc: Global, image: &Segments, wanted: &str) -> Result<bool, Fail> {
    let text = listing(alloc, image)?;
    let again = assemble(alloc, &text)?;
    Ok(text.as_slice() == wanted.as_bytes() && bytes_of(alloc, &again)? == bytes_of(alloc, image)?)
}

/// The segment of words at an address, low bytes first.
fn words_at(alloc: Global, ip: u32, words: &str) -> Result<Segments, Fail> {
    let mut bytes = Vec::new(alloc);
    for word in words.split(" ") {
        bytes.extend_from_slice(&u32::from_str_radix(word, 16)?.to_le_bytes())?;
    }
    let mut segments = Segments::new(alloc);
    segments.push(ip, bytes)?;
    Ok(segments)
}

/// Whether the listing of the words of a row is `.org` and its statement.
fn is_line(alloc: Global, row: &str) -> Result<bool, Fail> {
    let Some((place, statement)) = row.split_once(": ") else {
        return Ok(false);
    };
    let Some((ip, words)) = place.split_once(" ") else {
        return Ok(false);
    };
    let ip = u32::from_str_radix(ip, 16)?;
    let at = format!(in alloc; "{ip:08X}")?;
    let wanted = format!(in alloc; ".org 0x{at}\n{statement} # {at} {words}\n")?;
    is_listed(alloc, &words_at(alloc, ip, words)?, &wanted)
}

#[test]
fn lists_images(rt: HostRuntime) -> Result<(), Fail> {
    for row in LISTINGS.split("\n\n") {
        let (segments, lines) = row.split_once("\n").unwrap_or((row, ""));
        let wanted = format!(in rt.alloc(); "{lines}\n")?;
        must_at(
            &rt,
            is_listed(rt.alloc(), &segments_of(rt.alloc(), segments)?, &wanted)?,
            row,
        );
    }
    must(&rt, is_listed(rt.alloc(), &Segments::new(rt.alloc()), "")?);
    one_listing();
    Ok(())
}

#[test]
fn lists_statements(rt: HostRuntime) -> Result<(), Fail> {
    for table in [PRINTED, REFUSED_WORDS] {
        for row in table.lines() {
            must_at(&rt, is_line(rt.alloc(), row)?, row);
        }
    }
    Ok(())
}
