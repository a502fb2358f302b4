//! Sources against images and faults that were worked out by hand.
use crate::check::{must, same};
use crate::segments::segments_text;
use i9_asm::{AsmError, AsmFault, assemble};
use i9_hex::write;
use std::alloc::Global;
use std::test::Fail;

/// The line and kind that a source is refused for.
fn refusal(alloc: Global, source: &[u8]) -> Option<(u64, u8)> {
    match assemble(alloc, source) {
        Err(AsmError::Bad(AsmFault { line, kind })) => Some((line, kind)),
        _ => None,
    }
}

/// Sources, with `|` for the ends of their lines; each behind the addresses and bytes of its segments in hexadecimal
/// digits. They are of values at their limits, of strings, of directives that move, of names before and after their
/// line, and of blanks and ends of lines.
const IMAGES: &str = "none;
none;||# only a comment\r|
none;.org 5|x:|.align 8|.set y, 1|.space 0|.ascii \"\"|
0 01 00 00 00 FF FF FF FF EF CD AB 89 FF FF FF FF 00 00 00 80;.word 1, -1, 0x89ABCDEF, 4294967295, -2147483648
0 FF FF 00 80 01 00 00 80;.short 65535, -32768, 1, 0xFFFF8000
0 FF 80 00 FF;.byte 255, -128, 0, 0xFFFFFFFF
0 61 23 62;.ascii \"a#b\" # c
0 78 20 79;\t.ascii\t\"x y\" \t
0 0A 00 22 5C;.ascii \"\\n\\0\\\"\\\\\"
0 22 23;.ascii \"\\\"#\"# \"
0 00 00 00 01 02;.space 3|.byte 1|.space 0|.byte 2
0 01, 2 02, 1000 03;.align 2|.byte 1|.align 2|.byte 2|.align 4096|.byte 3
0 00 00 00 00 01;.word 0|.align 4|.byte 1
0 01, 1 02;.byte 1|.org 1|.byte 2
0 01, 0 02;.byte 1|.org 0|.byte 2
FFFFFFFF 01, FFFFFFFE 02;.org 4294967295|.byte 1|.org -2|.byte 2
FFFFFFFC 01 00 00 00, 8 00 00 00 00;.org 0xFFFFFFFC|.word 1|end:|.org 8|.word end
0 01, 8 00;.set four, 4|.byte 1|.align four|.org four+4|.space four-3
0 04 00 00 00 FF FF FF FF 0C 00 00 00 0C 00 00 00;x: .word x+4, x-1, y|y: .word y
0 15 00 00 00 FF FF FF FF;.set a, 5|.set b, a+0x10|.word b, c-1|.set c, 0
0 00 01 01;.byte 0|x:||# c|y: .byte x, y
0 00, 8 01 08;.byte 0|x: .align 8|y: .byte x, y
10 00 10;x: .org 16|y: .byte x, y
0 00 00 00 08 04 00 00 08 FA FF FF 12;loop: b loop|b next|next: be.f loop
0 00 00 00 08;mov: b mov
0 1F 0E A0 5C;mov n, g4|.set n, 31
0 00 30 A0 8C 08 00 00 00;lda end, g4|end:
0 00 00 00 00 00 00 00;g16:|r16:|sf3:|IP:|SP:|r01:|_:|.byte g16, r16, sf3, IP, SP, r01, _
0 00;aaaaaaaaaaaaaaaaaaaaaaaaaaaaaaaaaaaaaaaaaaaaaaaaaaaaaaaaaaaaaaa: .byte \
              aaaaaaaaaaaaaaaaaaaaaaaaaaaaaaaaaaaaaaaaaaaaaaaaaaaaaaaaaaaaaaa
0 07 0E A0 5C;\tmov\t7 ,\tg4 \t# seven
0 00 00 00 0A 00 00 00 0A;x:ret\r|  y:\t ret # again\r";

/// Whether the source of a row has its segments.
pub(crate) fn is_assembled(alloc: Global, row: &str) -> Result<bool, Fail> {
    let (wanted, lines) = row.split_once(";").unwrap_or((row, ""));
    let source = lines.replace(alloc, "|", "\n")?;
    let image = assemble(alloc, source.as_bytes())?;
    Ok(segments_text(alloc, &image)?.as_str() == wanted)
}

#[test]
fn assembles_sources(rt: HostRuntime) -> Result<(), Fail> {
    for row in IMAGES.lines() {
        must(&rt, is_assembled(rt.alloc(), row)?);
    }
    Ok(())
}

#[test]
fn assembles_the_smallest_image(rt: HostRuntime) -> Result<(), Fail> {
    let source = b"
        .org  0xFFFFFF10
        .word 0x1000            # the address of the first instruction
        .org  0x1000
        lda   0x41, g4          # the letter A
        lda   0xE0000000, g5
        stob  g4, (g5)          # prints it
        mov   7, g4
        st    g4, 4(g5)         # ends the run with the word 7
    ";
    let text = b":02000004FFFFFC
:04FF100000100000DD
:020000040000FA
:101000004100A08C0030A88C000000E00060A582A8
:08101000070EA05C0460A5922C
:00000001FF
";
    let image = assemble(rt.alloc(), source)?;
    let written = write(rt.alloc(), &image)?;
    same(&rt, written.as_slice(), text.as_slice());
    Ok(())
}

/// Kinds of faults, and lines that have one where `n` is 5; of the last ones the least of several.
const FAULTS: &str = "1 frob 1
1 frob.f
1 MOV 1, g4
1 mov.f 1, g4
1 ret.t
1 call.f 0
1 be.x 0
1 {3800}
1 flushreg{3800}
1 loop : ret
1 mov,1, g4
1 .half 1
1 .Word 1
1 .word,1
1 . word 1
1 g0: frob
1 frob é
1 x: y: ret
1 é
2 mov
2 mov 1
2 mov 1, g4, g5
2 mov 1,, g4
2 mov , g4
2 mov 1 2, g4
2 mov 1, 5
2 mov 1, n
2 mov +5, g4
2 mov 0x, g4
2 mov 0x123456789, g4
2 mov 0X1, g4
2 mov - 5, g4
2 mov n+-5, g4
2 mov n+n, g4
2 mov 5+n, g4
2 mov n + 5, g4
2 mov g4 g5
2 mov (g4), g5
2 syncf g4
2 ret 0
2 calls 1, 2
2 cmpobe 1, 2, 0
2 testl 1
2 b
2 b g4
2 b (g4)
2 bx g4
2 ld g5, g4
2 ld (g4, g6
2 ld g4), g6
2 ld (g4]), g6
2 ld (n), g6
2 ld (ip), g6
2 ld !4(ip), g6
2 ld 4(ip)[g5*4], g6
2 ld 4 (g4), g6
2 ld ( g4 ), g6
2 ld !(g4)[g5*4], g6
2 ld !4[g5*4], g6
2 ld !4(g4)[g5*4], g6
2 ld !, g6
2 ld ! 4, g6
2 ld !!4, g6
2 ld [g5*4], g6
2 ld (g4)[g5], g6
2 ld (g4)[g5*], g6
2 ld (g4)[g5*3], g6
2 ld (g4)[g5*32], g6
2 ld (g4)[g5*n], g6
2 ld (g4)[4*g5], g6
2 ld (g4)[ip*4], g6
2 ld [g5*4](g4), g6
2 ld (g4)4, g6
2 st (g4), g6
2 st 1, (g4)
2 flushreg {}
2 flushreg { 3800 }
2 flushreg {3800
2 flushreg 3800}
2 flushreg {3800}}
2 flushreg {3800} {0}
2 flushreg {123456789}
2 flushreg {80}
2 flushreg {1000000}
2 flushreg {0x3800}
2 be 0 {2}
2 mov 7, g4 {800}
2 bx (g5) {1}
2 .org
2 .org 1, 2
2 .org 1 2
2 .org g4
2 .word
2 .word 1,
2 .word ,1
2 .word 1 2
2 .word 1+1
2 .word 'a'
2 .word n+0x123456789
2 .word 1 {0}
2 .byte sp
2 .short ip
2 .ascii
2 .ascii a
2 .ascii \"
2 .ascii \"a
2 .ascii \"a\" b
2 .ascii \"a\" \"b\"
2 .ascii \"\\x\"
2 .ascii \"\\N\"
2 .ascii \"\\\"
2 .ascii \"a\\
2 .ascii \"é\"
2 .space
2 .space 1, 2
2 .align
2 .align 4, 8
2 .set
2 .set x
2 .set x, 1, 2
2 .set x, 1+1
2 .set 1x, 1
2 .set r15, 1
2 .set ip, 1
2 .set x y, 1
2 1x: ret
2 g0: ret
2 fp: ret
2 ip: ret
2 x-y: ret
2 : ret
2 mov 1, g4 \" # a string without an end
2 ret # é
2 a.b: ret
3 movl g5, g6
3 movl g4, g7
3 movl sf0, g4
3 movl g4, sf0
3 movt g4, g6
3 movt g6, g4
3 movq g4, g6
3 movq sp, g4
3 emul r4, r5, g7
3 emul r4, r5, sf0
3 ediv r4, g5, g6
3 ediv r4, sf0, g6
3 ediv r4, g6, fp
3 sdma r4, r5, g6
3 sdma r4, r5, sf0
3 atmod r4, r5, sf0
3 modify g4, g5, sf1
3 extract g4, g5, sf2
3 modpc r4, r5, sf0
3 sysctl r4, r5, sf2
3 cmpobe sf0, g4, 0
3 bbs sf1, g4, 0
3 testl sf0
3 ld 4(g5), sf0
3 st sf0, (g5)
3 lda 4, sf1
3 balx (g4), sf0
3 bx (sf1)
3 ld (sf0), g4
3 ld 4(sf0), g4
3 ld (g4)[sf2*1], g6
3 ld 4[sf2*1], g6
3 ldl (g4), g5
3 ldt (g4), g6
3 ldq (g4), g6
3 stl fp, (g4)
3 stt g6, (g4)
3 stq g6, (g4)
4 mov 32, g4
4 mov -1, g4
4 mov n+27, g4
4 mov n-6, g4
4 addo 4096, 1, g4
4 cmpobe 32, g4, 0
4 lda 4294967296, g4
4 lda -2147483649, g4
4 lda n+4294967296, g4
4 lda n-2147483649, g4
4 ld 4294967296(g4), g4
4 ld 4294967296[g4*2], g4
4 b 99999999999999999999
4 .word 4294967296
4 .word 00000000004294967296
4 .word -2147483649
4 .word 1, 99999999999999999999999999999999
4 .short 65536
4 .short -32769
4 .short 0x80000000
4 .byte 256
4 .byte -129
4 .byte n+251
4 .byte 0xFFFF
4 .space 1048577
4 .space -1
4 .align 0
4 .align 1
4 .align 3
4 .align 8192
4 .align -2
4 .org 4294967296
4 .org -2147483649
4 .set x, 4294967296
5 mov nowhere, g4
5 mov R4, g4
5 mov sf3, g4
5 mov N, g4
5 lda nowhere-5(g4), g4
5 ld r16[g4*2], g4
5 b nowhere
5 b r16
5 .word 1, nowhere+1
5 .byte g16
5 .org nowhere
5 .space nowhere
5 .align nowhere
5 .set x, nowhere
5 .set x, x
6 n: ret
6 n: .set x, 1
6 .set n, 5
6 x: .set x, 1
7 b 2
7 b 1
7 b n
7 b 0x00800000
7 b 0xFF7FFFFC
7 bo -8388612
7 cmpobe 0, g4, 0x1000
7 cmpobe 0, g4, 0xFFFFEFFC
7 bbc 0, g4, n
1 n: frob
2 n: mov g4
3 n: movl g5, g4
4 n: mov 32, g4
5 n: mov nowhere, g4
6 n: b 2
2 mov 32, g5, g6
2 movl nowhere, g5 {1}
3 movl nowhere, g5
3 ld 4294967296(sf0), g4
4 addo 32, nowhere, g4
4 lda nowhere+4294967296, g4
2 cmpobe 32, nowhere, 2
5 cmpobe nowhere, g4, 2
2 .word 4294967296, 1+1
4 .word nowhere, 4294967296
5 .word nowhere, n
2 .set n, 1+1
4 .set n, 4294967296
5 .set n, nowhere
2 .set g4, nowhere";

/// Whether the line of a row is refused for its kind.
fn is_refused(alloc: Global, row: &str) -> Result<bool, Fail> {
    let Some((kind, line)) = row.split_once(" ") else {
        return Ok(false);
    };
    let source = format!(in alloc; ".set n, 5\n{line}\n.byte 0")?;
    let wanted = Some((2, u8::from_str_radix(kind, 10)?));
    Ok(refusal(alloc, source.as_bytes()) == wanted)
}

#[test]
fn refuses_lines(rt: HostRuntime) -> Result<(), Fail> {
    for row in FAULTS.lines() {
        must(&rt, is_refused(rt.alloc(), row)?);
    }
    Ok(())
}

/// Sources, with `|` for the ends of their lines; each behind its first line at fault and that line's least kind. They
/// are of lines as they are counted, of names, of bytes past FFFFFFFF, of too many bytes, of faults that the second
/// pass finds before one that the first could see, of how many bytes a line at fault counts (with kinds 1 to 3 none, so
/// that x is 255 or 256), and of what a `.set` at fault defines (with kind 2 nothing, else 0; the first value stays).
const REFUSALS: &str = "2 1 mov 1, g4|frob|frob
4 1 \r||# x|\tfrob
1 1 ret\r\r|
1 2 mov 1, g4\r\r|
1 1 ret\0
2 6 x:|x:
2 6 x:|.set x, 0
2 6 .set x, 1|x:
2 6 .set x, 1|.set x, 1
1 5 .org x|x:
1 5 .space x|.set x, 1
1 5 .align x|.set x, 4
1 5 .set x, y|.set y, 1
1 2 aaaaaaaaaaaaaaaaaaaaaaaaaaaaaaaaaaaaaaaaaaaaaaaaaaaaaaaaaaaaaaaa:
1 2 .set aaaaaaaaaaaaaaaaaaaaaaaaaaaaaaaaaaaaaaaaaaaaaaaaaaaaaaaaaaaaaaaa, 1
1 2 .word aaaaaaaaaaaaaaaaaaaaaaaaaaaaaaaaaaaaaaaaaaaaaaaaaaaaaaaaaaaaaaaa
2 4 .org 0xFFFFFFFD|.word 0
3 4 .org 0xFFFFFFFC|.word 0|.byte 0
2 4 .org 0xFFFFFFFF|.ascii \"ab\"
2 4 .org 0xFFFFFFFF|.space 2
2 4 .org 0xFFFFFFFC|lda 4096, g4
3 4 .org 0xFFFFFFFF|.align 4096|.byte 0
2 4 .org 0xFFFFFFFE|b 1
6 8 .space 1048576|.space 1048576|.space 1048576|.space 1048576||.byte 0
5 8 .space 1048576|.space 1048576|.space 1048576|.space 1048575|lda 4096, g4
1 4 .byte late|frob|.set late, 256
1 1 frob|.byte late|.set late, 256
1 7 b far|frob|.set far, 2
2 1 .word x|x: frob
2 2 .word x|1x:|x:
2 2 .byte x|mov g4|.space 254|x:
1 4 .byte x|mov g4|.space 255|x:
2 3 .byte x|lda 4096, sf0|.space 254|x:
2 2 .byte x|.word 1+1|.space 254|x:
2 4 .byte x|mov 32, g4|.space 250|x:
1 4 .byte x|mov 32, g4|.space 251|x:
2 5 .byte x|lda nowhere, g4|.space 246|x:
1 4 .byte x|lda nowhere, g4|.space 247|x:
1 4 .byte x|.word 0, nowhere|.space 247|x:
1 4 .byte x|b 2|.space 251|x:
2 4 .byte x|.space 1048577|.space 254|x:
2 4 .byte x|.align 3|.space 254|x:
2 4 .byte x|.org 4294967296|.space 254|x:
1 5 .word x|.set x, 1+1
2 4 .word x|.set x, 4294967296
2 5 .word x|.set x, y
3 6 .byte x|.set x, 1|.set x, 256
1 4 .byte x|.set x, 256|.set x, 1";

/// Whether the source of a row is refused for its line and kind.
pub(crate) fn is_refused_source(alloc: Global, row: &str) -> Result<bool, Fail> {
    let (line, rest) = row.split_once(" ").unwrap_or((row, ""));
    let (kind, lines) = rest.split_once(" ").unwrap_or((rest, ""));
    let line = u64::from_str_radix(line, 10)?;
    let kind = u8::from_str_radix(kind, 10)?;
    let source = lines.replace(alloc, "|", "\n")?;
    Ok(refusal(alloc, source.as_bytes()) == Some((line, kind)))
}

#[test]
fn refuses_sources(rt: HostRuntime) -> Result<(), Fail> {
    for row in REFUSALS.lines() {
        must(&rt, is_refused_source(rt.alloc(), row)?);
    }
    same(
        &rt,
        refusal(rt.alloc(), b".word x\nx: # \x80"),
        Some((2, 2)),
    );
    Ok(())
}
