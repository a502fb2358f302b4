//! Statements against words that were worked out by hand from the instruction formats.
use crate::check::must_at;
use i9_dis::text;
use i9_statement::{
    Definition, Known, Table, code_of, is_name, statement_of, statements_read_back, words_are_one,
};
use std::alloc::Global;
use std::test::Fail;

/// Statements as they are printed. A row has an address, one word or two, and the statement.
pub(crate) const PRINTED: &str = "0 5CA00E07: mov 7, g4
0 5C200E05: mov 5, r4
0 5C102E01: mov 1, sf2
0 5C000621: mov sf1, pfp
0 59B58901: subo 1, g6, g6
0 59A09801: addo 1, 2, g4
0 581FD800: notbit 0, 31, r3
0 5DB00604: movl r4, g6
0 5FE00E1F: movq 31, g12
0 67B5089F: ediv 31, g4, g6
0 5A07C800: cmpo 0, fp
0 65314284: modpc r4, r5, r6
0 63450801: sdma 1, g4, r8
0 6600081F: calls 31
0 66000780: syncf
0 24800000: testl g0
0 0A000000: ret
0 18000000: faultno
0 8CA00041: lda 65, g4
0 8CA00000: lda 0, g4
0 8CA00FFF: lda 4095, g4
0 8CA03000 00000000: lda !0x00000000, g4
0 8CA03000 00000FFF: lda !0x00000FFF, g4
0 8CA03000 00001000: lda 0x00001000, g4
0 8CA83000 E0000000: lda 0xE0000000, g5
0 82A56000: stob g4, (g5)
0 92A56004: st g4, 4(g5)
0 90A02010: ld 16(pfp), g4
0 88106FFF: ldos 4095(sp), rip
0 90A55000: ld !(g5), g4
0 98A57400 00000000: ldl !0x00000000(g5), g4
0 B0A57400 00000FFF: ldq !0x00000FFF(g5), g4
0 A0A57400 00001000: ldt 0x00001000(g5), g4
0 B2A01400 00000008: stq g4, 0x00000008(ip)
0 90B51D15: ld (g4)[g5*4], g6
0 C0B03A15 00000000: ldib 0x00000000[g5*16], g6
0 C8B53C15 FFFFFFFF: ldis 0xFFFFFFFF(g4)[g5*1], g6
0 CA1FFC8F 00000020: stis r3, 0x00000020(fp)[r15*2]
0 85F51D95: balx (g4)[g5*8], g14
0 8407A000: bx (g14)
0 86003000 00001000: callx 0x00001000
0 66003E80: flushreg {3800}
0 0AFFFFFF: ret {FFFFFF}
0 5CA00E47: mov 7, g4 {40}
0 90B51D75: ld (g4)[g5*4], g6 {60}
1000 08000010: b 0x00001010
1000 1200000A: be.f 0x00001008
1008 3505BFF8: cmpobne 0, g6, 0x00001000
1000 37F8AFFF: bbs.f 31, sf2, 0x00001FFC
1000 3FA55000: cmpibo g4, g5, 0x00000000
800000 08800000: b 0x00000000
1000 097FFFFC: call 0x00800FFC
FFFFFFFC 0B000004: bal 0x00000000
0 10FFFFFC: bno 0xFFFFFFFC";

/// The same, with a second word behind the last address.
const ACROSS: &str = "FFFFFFFC 8CA03000 00000FFF: lda !0x00000FFF, g4";

/// Refused words: no opcode, no extension, the reserved mode, an odd register of two, a scale of 32.
pub(crate) const REFUSED_WORDS: &str = "0 00000000: .word 0x00000000
0 FFFFFFFF: .word 0xFFFFFFFF
0 59000280: .word 0x59000280
0 90A55800: .word 0x90A55800
0 5DB80604: .word 0x5DB80604
0 90B51E95: .word 0x90B51E95";

/// Statements in other forms than they are printed in.
const OTHER_FORMS: &str = "0 5CA00E07: mov\t7 ,\tg4 
0 5C080600: mov r0, r1
0 5CF80602: mov r2, g15
0 5CA00E00: mov -0, g4
0 5CA00E1F: mov 0x1F, g4
0 5CA00E1F: mov 00031, g4
0 5CA00E05: mov n, g4
0 59A7D800: addo n-5, n+0x1A, g4
0 8CA00041: lda 0x41, g4
0 8CA56FFF: lda 0x0fff(g5), g4
0 8CA03000 00001000: lda 4096, g4
0 8CA03000 FFFFFFFF: lda -1, g4
0 8CA03000 80000000: lda -2147483648, g4
0 8CA57400 FFFFFFFF: lda 4294967295(g5), g4
0 8CA03000 00000005: lda n, g4
0 8CA57400 00000005: lda n(g5), g4
0 8CA03000 DFFFFFFF: lda far-0x1, g4
0 90A56000: ld 0(g5), g4
0 90A01400 FFFFFFFC: ld -4(ip), g4
0 90A03895 00000005: ld n[g5*2], g4
0 90A57400 00000000: ld !0(g5), g4
1000 12000008: be.t start+8
1000 08000000: b start
FFC 322DA004: cmpobe.t n, g6, start
0 66003E80: flushreg\t{003800}
0 0A000000: ret {0}
0 5CA00E47: mov 7, g4{40}";

/// Statements at address 0 that are refused, and their kind: of several faults the least.
const REFUSED: &str = "1: frob 1
1: MOV 1, g4
1: mov.f 1, g4
1: ret.t
1: be.x 0
1: {3800}
1: flushreg{3800}
2: mov 1
2: mov 1, g4, g5
2: mov 1,, g4
2: mov 1 2, g4
2: syncf g4
2: mov 1, 5
2: mov +5, g4
2: mov n+-5, g4
2: mov 0x, g4
2: mov 0x123456789, g4
5: mov R4, g4
5: mov sf3, g4
2: ld g5, g4
2: ld (g4, g6
2: ld (ip), g6
2: ld 4 (g4), g6
2: ld (g4)[g5*3], g6
2: ld 4(ip)[g5*4], g6
2: ld !(g4)[g5*4], g6
2: ld !4(ip), g6
2: b g4
2: flushreg { 3800 }
2: flushreg {}
2: flushreg {123456789}
2: flushreg {80}
2: flushreg {3800} {0}
3: movl g5, g6
3: movl g4, g7
3: movq g4, g6
3: movl sf0, g4
3: modify g4, g5, sf1
3: cmpobe sf0, g4, 0
3: testl sf0
3: ld 4(g5), sf0
3: ld (sf0), g4
3: ld (g4)[sf2*1], g6
3: stl g5, (g4)
4: mov 32, g4
4: mov -1, g4
4: lda 4294967296, g4
4: lda -2147483649, g4
4: lda n+4294967296, g4
4: b 99999999999999999999
5: mov nowhere, g4
5: lda nowhere-5(g4), g4
5: b nowhere
7: b 2
7: b 0x00800000
7: b 0xFF7FFFFC
7: cmpobe 0, g4, 0x00001000
7: cmpobe 0, g4, 0xFFFFEFFC
2: mov 32, g5, g6
3: movl nowhere, g5
4: lda nowhere+4294967296, g4
5: cmpobe nowhere, g4, 2";

/// Whether the words of a row print as its statement at its address. Where the second word counts
/// for nothing, it is missing in the row.
fn is_printed(alloc: Global, row: &str) -> Result<bool, Fail> {
    let Some((place, wanted)) = row.split_once(": ") else {
        return Ok(false);
    };
    let Some((ip, words)) = place.split_once(" ") else {
        return Ok(false);
    };
    let (first, second) = words.split_once(" ").unwrap_or((words, "DEADBEEF"));
    let ip = u32::from_str_radix(ip, 16)?;
    let first = u32::from_str_radix(first, 16)?;
    let second = u32::from_str_radix(second, 16)?;
    Ok(text(alloc, ip, first, second)?.as_slice() == wanted.as_bytes())
}

/// `n` is 5, `start` is 1000 and `far` is E0000000.
fn table(alloc: Global) -> Result<Table, Fail> {
    let mut table = Table::new(alloc);
    let rows: [(&[u8], u32); 3] = [(b"n", 5), (b"start", 0x1000), (b"far", 0xE000_0000)];
    for (name, value) in rows {
        if is_name(name) {
            table = table.define(name, Definition { value, step: 0 })?;
        }
    }
    Ok(table)
}

/// The words of a statement at an address, or the kind of its fault.
fn words(alloc: Global, names: Known<'_>, ip: u32, text: &str) -> Result<String, Fail> {
    let read = statement_of(ip, names, text.as_bytes());
    if let Some(fault) = read.fault {
        return Ok(format!(in alloc; "{}", fault.kind())?);
    }
    let code = code_of(&read.value);
    let first = code.first;
    match code.second {
        Some(second) => Ok(format!(in alloc; "{first:08X} {second:08X}")?),
        None => Ok(format!(in alloc; "{first:08X}")?),
    }
}

/// Whether the statement of a row has its words at its address.
fn is_read(alloc: Global, names: Known<'_>, row: &str) -> Result<bool, Fail> {
    let Some((place, text)) = row.split_once(": ") else {
        return Ok(false);
    };
    match place.split_once(" ") {
        Some((ip, wanted)) => {
            let ip = u32::from_str_radix(ip, 16)?;
            Ok(words(alloc, names, ip, text)?.as_str() == wanted)
        }
        None => Ok(false),
    }
}

/// Whether the statement of a row is refused for its kind.
fn is_refused(alloc: Global, names: Known<'_>, row: &str) -> Result<bool, Fail> {
    match row.split_once(": ") {
        Some((kind, text)) => Ok(words(alloc, names, 0, text)?.as_str() == kind),
        None => Ok(false),
    }
}

#[test]
fn prints_statements(rt: HostRuntime) -> Result<(), Fail> {
    for table in [PRINTED, REFUSED_WORDS, ACROSS] {
        for row in table.lines() {
            must_at(&rt, is_printed(rt.alloc(), row)?, row);
        }
    }
    Ok(())
}

#[test]
fn reads_statements(rt: HostRuntime) -> Result<(), Fail> {
    let table = table(rt.alloc())?;
    let names = Known::All(&table);
    for table in [PRINTED, OTHER_FORMS, ACROSS] {
        for row in table.lines() {
            must_at(&rt, is_read(rt.alloc(), names, row)?, row);
        }
    }
    statements_read_back();
    words_are_one();
    Ok(())
}

#[test]
fn refuses_statements(rt: HostRuntime) -> Result<(), Fail> {
    let table = table(rt.alloc())?;
    let names = Known::All(&table);
    for row in REFUSED.lines() {
        must_at(&rt, is_refused(rt.alloc(), names, row)?, row);
    }
    Ok(())
}
