//! Results, branches and addresses that were worked out by hand from the descriptions of the instructions.
use crate::check::same_at;
use crate::rows::{hex_words, instruction, pairs_hold, rows_hold};
use i9_exec::{address, branch, compute, controls_by, has_result, word_by};
use i9_isa::{Inst, Op};
use std::alloc::Global;
use std::test::*;

/// Whether a name has a result; operands don't count here, and neither do they for results and branches.
const NAMES: &str = "\
and r4, g5, g6      | true
scanbit r4, g6      | true
extract r4, g5, g6  | true
testno g6           | true
testo g6            | true
atadd r4, g5, g6    | false
modac r4, g5, g6    | false
modpc r4, g5, g6    | false
sysctl r4, g5, g6   | false
syncf               | false
bbc r4, g5, 0x40    | false
cmpibo r4, g5, 0x40 | false
b 0x40              | false
faulto              | false
ld 8(g5), g6        | false
";

/// Whether the name of a statement has a result.
fn name_text(alloc: Global, statement: &str) -> Result<String, Fail> {
    let i = instruction(statement)?;
    Ok(format!(in alloc; "{}", has_result(i.op))?)
}

#[test]
fn names_with_results(rt: HostRuntime) -> Result<(), Fail> {
    pairs_hold(&rt, rt.alloc(), &[NAMES], name_text)
}

/// Controls without a condition code and without the overflow mask, with bits above and below the mask.
const CLEAR: u32 = 0x8001_0000;

/// The same with the overflow mask.
const MASKED: u32 = 0x8001_1000;

/// Results of bits: the words of src1 and of src2, the old src/dst and the condition code before; the words, and the
/// condition code after. The rows of the logic have the bits 1100 and 1010 in each place of four.
const BITS: &str = "\
and r4, g5, g6      | CCCCCCCC, AAAAAAAA, 0, 5    | 88888888 ac 5
or r4, g5, g6       | CCCCCCCC, AAAAAAAA, 0, 5    | EEEEEEEE ac 5
xor r4, g5, g6      | CCCCCCCC, AAAAAAAA, 0, 5    | 66666666 ac 5
nor r4, g5, g6      | CCCCCCCC, AAAAAAAA, 0, 5    | 11111111 ac 5
xnor r4, g5, g6     | CCCCCCCC, AAAAAAAA, 0, 5    | 99999999 ac 5
nand r4, g5, g6     | CCCCCCCC, AAAAAAAA, 0, 5    | 77777777 ac 5
andnot r4, g5, g6   | CCCCCCCC, AAAAAAAA, 0, 5    | 22222222 ac 5
notand r4, g5, g6   | CCCCCCCC, AAAAAAAA, 0, 5    | 44444444 ac 5
ornot r4, g5, g6    | CCCCCCCC, AAAAAAAA, 0, 5    | BBBBBBBB ac 5
notor r4, g5, g6    | CCCCCCCC, AAAAAAAA, 0, 5    | DDDDDDDD ac 5
not r4, g6          | CCCCCCCC, AAAAAAAA, 0, 5    | 33333333 ac 5
mov r4, g6          | CCCCCCCC, AAAAAAAA, 0, 5    | CCCCCCCC ac 5
modify r4, g5, g6   | FFFF, 12345678, 9ABCDEF0, 5 | 9ABC5678 ac 5
setbit r4, g5, g6   | 21, 0, 0, 5                 | 2 ac 5
clrbit r4, g5, g6   | 3F, FFFFFFFF, 0, 5          | 7FFFFFFF ac 5
notbit r4, g5, g6   | 20, 1, 0, 5                 | 0 ac 5
notbit r4, g5, g6   | FFFFFFFF, 1, 0, 5           | 80000001 ac 5
alterbit r4, g5, g6 | 23, 0, 0, 2                 | 8 ac 2
alterbit r4, g5, g6 | 23, F, 0, 5                 | 7 ac 5
";

/// The same of sums, products, quotients and remainders.
const SUMS: &str = "\
addo r4, g5, g6 | 1, FFFFFFFF, 0, 5        | 0 ac 5
subo r4, g5, g6 | 1, 0, 0, 5               | FFFFFFFF ac 5
mulo r4, g5, g6 | 10000, 10001, 0, 5       | 10000 ac 5
divo r4, g5, g6 | 3, FFFFFFFF, 0, 5        | 55555555 ac 5
remo r4, g5, g6 | 10, FFFFFFFF, 0, 5       | F ac 5
remi r4, g5, g6 | FFFFFFFF, 80000000, 0, 5 | 0 ac 5
remi r4, g5, g6 | 3, FFFFFFF9, 0, 5        | FFFFFFFF ac 5
remi r4, g5, g6 | FFFFFFFD, 7, 0, 5        | 1 ac 5
modi r4, g5, g6 | FFFFFFFF, 80000000, 0, 5 | 0 ac 5
modi r4, g5, g6 | 3, FFFFFFF9, 0, 5        | 2 ac 5
modi r4, g5, g6 | FFFFFFFD, 7, 0, 5        | FFFFFFFE ac 5
modi r4, g5, g6 | FFFFFFFD, FFFFFFF9, 0, 5 | FFFFFFFF ac 5
modi r4, g5, g6 | 3, FFFFFFFA, 0, 5        | 0 ac 5
";

/// The same of shifts.
const SHIFTS: &str = "\
shro r4, g5, g6    | 1F, 80000000, 0, 5  | 1 ac 5
shro r4, g5, g6    | 20, 80000000, 0, 5  | 0 ac 5
shro r4, g5, g6    | 21, 80000000, 0, 5  | 0 ac 5
shlo r4, g5, g6    | 1F, 3, 0, 5         | 80000000 ac 5
shlo r4, g5, g6    | 20, 3, 0, 5         | 0 ac 5
shlo r4, g5, g6    | 21, 3, 0, 5         | 0 ac 5
shri r4, g5, g6    | 1, FFFFFFF9, 0, 5   | FFFFFFFC ac 5
shri r4, g5, g6    | 1F, 80000000, 0, 5  | FFFFFFFF ac 5
shri r4, g5, g6    | 20, 80000000, 0, 5  | FFFFFFFF ac 5
shri r4, g5, g6    | 21, 7FFFFFFF, 0, 5  | 0 ac 5
shrdi r4, g5, g6   | 1, FFFFFFF9, 0, 5   | FFFFFFFD ac 5
shrdi r4, g5, g6   | 1, FFFFFFFF, 0, 5   | 0 ac 5
shrdi r4, g5, g6   | 1F, 80000000, 0, 5  | FFFFFFFF ac 5
shrdi r4, g5, g6   | 20, 80000000, 0, 5  | 0 ac 5
shrdi r4, g5, g6   | 21, 80000000, 0, 5  | 0 ac 5
rotate r4, g5, g6  | 0, 80000001, 0, 5   | 80000001 ac 5
rotate r4, g5, g6  | 1, 80000001, 0, 5   | 3 ac 5
rotate r4, g5, g6  | 20, 80000001, 0, 5  | 80000001 ac 5
rotate r4, g5, g6  | 21, 80000001, 0, 5  | 3 ac 5
extract r4, g5, g6 | 4, 8, 12345678, 5   | 67 ac 5
extract r4, g5, g6 | 0, 20, 12345678, 5  | 12345678 ac 5
extract r4, g5, g6 | 4, 21, 12345678, 5  | 1234567 ac 5
extract r4, g5, g6 | 4, 0, 12345678, 5   | 0 ac 5
extract r4, g5, g6 | 1F, 1, 80000000, 5  | 1 ac 5
extract r4, g5, g6 | 20, 8, 12345678, 5  | 0 ac 5
extract r4, g5, g6 | 21, 28, 12345678, 5 | 0 ac 5
";

/// The same of what sets the condition code beside a word.
const CARRIES: &str = "\
cmpinco r4, g5, g6 | FFFFFFFF, FFFFFFFF, 0, 0 | 0 ac 2
cmpinci r4, g5, g6 | 0, 7FFFFFFF, 0, 0        | 80000000 ac 4
cmpdeco r4, g5, g6 | 1, 0, 0, 0               | FFFFFFFF ac 1
cmpdeci r4, g5, g6 | 0, 80000000, 0, 0        | 7FFFFFFF ac 1
addc r4, g5, g6    | 1, FFFFFFFF, 0, 0        | 0 ac 2
addc r4, g5, g6    | FFFFFFFF, FFFFFFFF, 0, 2 | FFFFFFFF ac 2
addc r4, g5, g6    | 1, 7FFFFFFF, 0, 5        | 80000000 ac 1
addc r4, g5, g6    | 0, 7FFFFFFF, 0, 2        | 80000000 ac 1
addc r4, g5, g6    | 80000000, 80000000, 0, 0 | 0 ac 3
addc r4, g5, g6    | 0, 0, 0, 7               | 1 ac 0
subc r4, g5, g6    | 1, 0, 0, 2               | FFFFFFFF ac 0
subc r4, g5, g6    | 1, 0, 0, 5               | FFFFFFFE ac 0
subc r4, g5, g6    | 1, 1, 0, 2               | 0 ac 2
subc r4, g5, g6    | 1, 80000000, 0, 2        | 7FFFFFFF ac 3
subc r4, g5, g6    | FFFFFFFF, 7FFFFFFF, 0, 2 | 80000000 ac 1
";

/// The same of the highest place of a bit.
const SCANS: &str = "\
scanbit r4, g6 | 0, 0, 0, 7        | FFFFFFFF ac 0
scanbit r4, g6 | 1, 0, 0, 0        | 0 ac 2
scanbit r4, g6 | A00, 0, 0, 0      | B ac 2
scanbit r4, g6 | FFFFFFFF, 0, 0, 0 | 1F ac 2
spanbit r4, g6 | FFFFFFFF, 0, 0, 7 | FFFFFFFF ac 0
spanbit r4, g6 | FFFFFFFE, 0, 0, 0 | 0 ac 2
spanbit r4, g6 | 0, 0, 0, 0        | 1F ac 2
";

/// The same of tests of the condition code.
const TESTS: &str = "\
testno g6 | 0, 0, 0, 0 | 1 ac 0
testno g6 | 0, 0, 0, 1 | 0 ac 1
testg g6  | 0, 0, 0, 1 | 1 ac 1
testg g6  | 0, 0, 0, 6 | 0 ac 6
teste g6  | 0, 0, 0, 2 | 1 ac 2
teste g6  | 0, 0, 0, 5 | 0 ac 5
testge g6 | 0, 0, 0, 1 | 1 ac 1
testge g6 | 0, 0, 0, 4 | 0 ac 4
testl g6  | 0, 0, 0, 4 | 1 ac 4
testl g6  | 0, 0, 0, 3 | 0 ac 3
testne g6 | 0, 0, 0, 4 | 1 ac 4
testne g6 | 0, 0, 0, 2 | 0 ac 2
testle g6 | 0, 0, 0, 2 | 1 ac 2
testle g6 | 0, 0, 0, 1 | 0 ac 1
testo g6  | 0, 0, 0, 1 | 1 ac 1
testo g6  | 0, 0, 0, 0 | 0 ac 0
";

/// The same of condition codes alone.
const CODES: &str = "\
cmpo r4, g5     | 1, FFFFFFFF, 0, 0        | ac 4
cmpo r4, g5     | 5, 5, 0, 7               | ac 2
cmpo r4, g5     | 80000000, 7FFFFFFF, 0, 0 | ac 1
cmpi r4, g5     | 1, FFFFFFFF, 0, 0        | ac 1
cmpi r4, g5     | 5, 5, 0, 7               | ac 2
cmpi r4, g5     | 80000000, 7FFFFFFF, 0, 0 | ac 4
concmpo r4, g5  | 3, 3, 0, 0               | ac 2
concmpo r4, g5  | 4, 3, 0, 2               | ac 1
concmpo r4, g5  | 3, 3, 0, 4               | ac 4
concmpo r4, g5  | 4, 3, 0, 7               | ac 7
concmpi r4, g5  | FFFFFFFF, 0, 0, 1        | ac 2
concmpi r4, g5  | 0, FFFFFFFF, 0, 3        | ac 1
concmpi r4, g5  | 0, 0, 0, 5               | ac 5
scanbyte r4, g5 | 12345678, 340000, 0, 4   | ac 2
scanbyte r4, g5 | 12345678, 12000000, 0, 0 | ac 2
scanbyte r4, g5 | 12345678, 5600, 0, 0     | ac 2
scanbyte r4, g5 | 12345678, 78, 0, 0       | ac 2
scanbyte r4, g5 | 12345678, 34127856, 0, 7 | ac 0
chkbit r4, g5   | 21, 2, 0, 5              | ac 2
chkbit r4, g5   | 21, FFFFFFFD, 0, 7       | ac 0
";

/// The same of results that may overflow: with the mask, which lets the low word and the flag stand, and without it,
/// where that is another answer.
const OVERFLOWS: &str = "\
addi r4, g5, g6 | 1, 7FFFFFFE, 0, 5        | 7FFFFFFF ac 5
addi r4, g5, g6 | 1, 7FFFFFFF, 0, 5        | 80000000 ac 105, ac 5 Overflow
addi r4, g5, g6 | FFFFFFFF, 80000000, 0, 5 | 7FFFFFFF ac 105, ac 5 Overflow
subi r4, g5, g6 | 80000000, FFFFFFFF, 0, 5 | 7FFFFFFF ac 5
subi r4, g5, g6 | 80000000, 0, 0, 5        | 80000000 ac 105, ac 5 Overflow
subi r4, g5, g6 | 1, 80000000, 0, 5        | 7FFFFFFF ac 105, ac 5 Overflow
muli r4, g5, g6 | 8000, FFFF0000, 0, 5     | 80000000 ac 5
muli r4, g5, g6 | 8000, 10000, 0, 5        | 80000000 ac 105, ac 5 Overflow
muli r4, g5, g6 | 10000, 10000, 0, 5       | 0 ac 105, ac 5 Overflow
divi r4, g5, g6 | 2, FFFFFFF9, 0, 5        | FFFFFFFD ac 5
divi r4, g5, g6 | FFFFFFFF, 80000001, 0, 5 | 7FFFFFFF ac 5
divi r4, g5, g6 | FFFFFFFF, 80000000, 0, 5 | 80000000 ac 105, ac 5 Overflow
shli r4, g5, g6 | 1E, 1, 0, 5              | 40000000 ac 5
shli r4, g5, g6 | 1F, FFFFFFFF, 0, 5       | 80000000 ac 5
shli r4, g5, g6 | 1F, 1, 0, 5              | 80000000 ac 105, ac 5 Overflow
shli r4, g5, g6 | 20, FFFFFFFF, 0, 5       | 0 ac 105, ac 5 Overflow
shli r4, g5, g6 | 21, 1, 0, 5              | 0 ac 105, ac 5 Overflow
shli r4, g5, g6 | 21, 0, 0, 5              | 0 ac 5
";

/// The same of divisions by 0.
const ZERO_DIVIDES: &str = "\
divo r4, g5, g6 | 0, 80000000, 0, 5 | ac 5 ZeroDivide
remo r4, g5, g6 | 0, 80000000, 0, 5 | ac 5 ZeroDivide
divi r4, g5, g6 | 0, 80000000, 0, 5 | ac 5 ZeroDivide
remi r4, g5, g6 | 0, 80000000, 0, 5 | ac 5 ZeroDivide
modi r4, g5, g6 | 0, 80000000, 0, 5 | ac 5 ZeroDivide
ediv r4, r6, r8 | 0, 80000000, 0, 5 | ac 5 ZeroDivide
";

/// The same of several words.
const LONG: &str = "\
movl r4, g6     | 11 22 33 44, 0, 0, 5       | 11 22 ac 5
movt r4, g8     | 11 22 33 44, 0, 0, 5       | 11 22 33 ac 5
movq r4, g8     | 11 22 33 44, 0, 0, 5       | 11 22 33 44 ac 5
movq r4, g8     | 7, 0, 0, 5                 | 7 0 0 0 ac 5
emul r4, g5, g6 | FFFFFFFF, FFFFFFFF, 0, 5   | 1 FFFFFFFE ac 5
ediv r4, r6, r8 | 2, 1 5, 0, 5               | 1 80000000 ac 5
ediv r4, r6, r8 | FFFFFFFF, FFFFFFFE 0, 0, 5 | FFFFFFFE 0 ac 5
";

const RESULT_TABLES: [&str; 10] = [
    BITS,
    SHIFTS,
    SCANS,
    SUMS,
    CARRIES,
    LONG,
    OVERFLOWS,
    ZERO_DIVIDES,
    TESTS,
    CODES,
];

/// The words of src1 and src2, the old word of src/dst, and the condition code.
#[derive(Drop)]
struct Sources {
    a: [u32; 4],
    b: [u32; 2],
    c: u32,
    code: u32,
}

/// The words of a text, at most four, and 0 behind them.
fn four_words(text: &str) -> Result<[u32; 4], Fail> {
    let mut words = [0; 4];
    let mut place = 0usize;
    for word in text.split_whitespace() {
        if place < 4 {
            words[place] = u32::from_str_radix(word, 16)?;
            place += 1;
        }
    }
    Ok(words)
}

/// The sources of a row.
fn read_sources(text: &str) -> Result<Sources, Fail> {
    let mut parts = text.split(',');
    let (Some(a), Some(b), Some(c), Some(code)) = (
        parts.next(),
        parts.next(),
        parts.next(),
        parts.next(),
    ) else {
        return Err("a row has four sources".into());
    };
    let [first, second, ..] = four_words(b)?;
    Ok(Sources {
        a: four_words(a)?,
        b: [first, second],
        c: u32::from_str_radix(c.trim(), 16)?,
        code: u32::from_str_radix(code.trim(), 16)?,
    })
}

/// What a name with a result gives where the arithmetic controls are these and the condition code: the words, the
/// difference of AC from these controls, and the fault.
fn done_text(alloc: Global, i: &Inst, s: &Sources, controls: u32) -> Result<String, Fail> {
    if !has_result(i.op) {
        return Err("a name without a result".into());
    }
    let done = compute(i, &s.a, &s.b, s.c, controls | s.code);
    let mut text = String::new(alloc);
    for value in done.values.iter() {
        text.push_str(&format!(in alloc; "{value:X} ")?)?;
    }
    text.push_str(&format!(in alloc; "ac {:X}", done.ac ^ controls)?)?;
    if let Some(fault) = done.fault {
        text.push_str(&format!(in alloc; " {fault:?}")?)?;
    }
    Ok(text)
}

/// What it gives with the overflow mask, and without it where that is another answer.
fn result_text(alloc: Global, i: &Inst, given: &str) -> Result<String, Fail> {
    let s = read_sources(given)?;
    let masked = done_text(alloc, i, &s, MASKED)?;
    let unmasked = done_text(alloc, i, &s, CLEAR)?;
    if masked.as_str() == unmasked.as_str() {
        return Ok(masked);
    }
    Ok(format!(in alloc; "{masked}, {unmasked}")?)
}

#[test]
fn results(rt: HostRuntime) -> Result<(), Fail> {
    rows_hold(&rt, rt.alloc(), &RESULT_TABLES, result_text)
}

/// Names with src1 and src2; the one word that they give, where it is told at once.
const LIGHT_WORDS: [(Op, u32, u32, Option<u32>); 8] = [
    (Op::Andnot, 0xCCCC_CCCC, 0xAAAA_AAAA, Some(0x2222_2222)),
    (Op::Subo, 1, 0, Some(0xFFFF_FFFF)),
    (Op::Muli, 0xFFFF_FFFF, 5, Some(0xFFFF_FFFB)),
    (Op::Muli, 0x10000, 0x10000, None),
    (Op::Divo, 3, 0xFFFF_FFFF, Some(0x5555_5555)),
    (Op::Divo, 0, 5, None),
    (Op::Shri, 4, 0x8000_0000, Some(0xF800_0000)),
    (Op::Cmpo, 1, 2, None),
];

/// Names with src1 and src2, behind controls with the code 7; the controls, where they alone change.
const LIGHT_CONTROLS: [(Op, u32, u32, Option<u32>); 4] = [
    (Op::Cmpo, 1, 0xFFFF_FFFF, Some(0x8001_0004)),
    (Op::Cmpi, 1, 0xFFFF_FFFF, Some(0x8001_0001)),
    (Op::Chkbit, 31, 0x8000_0000, Some(0x8001_0002)),
    (Op::Addo, 1, 2, None),
];

#[test]
fn frequent_results_are_told_at_once(rt: HostRuntime) -> Result<(), Fail> {
    for (op, a, b, wanted) in LIGHT_WORDS {
        same_at(&rt, word_by(op, a, b), wanted, a);
    }
    for (op, a, b, wanted) in LIGHT_CONTROLS {
        same_at(&rt, controls_by(op, a, b, CLEAR | 7), wanted, a);
    }
    Ok(())
}

/// Values of src1 and src2 and the condition code before; whether it is taken, and the condition code after.
const BRANCH_ROWS: &str = "\
b 0x40               | 0 0 0               | taken 0
bal 0x40             | 0 0 5               | taken 5
call 0x40            | 0 0 7               | not taken 7
ret                  | 0 0 7               | not taken 7
teste g6             | 0 0 2               | not taken 2
bno 0x40             | 0 0 0               | taken 0
bno 0x40             | 0 0 2               | not taken 2
be 0x40              | 0 0 2               | taken 2
be 0x40              | 0 0 0               | not taken 0
bg 0x40              | 0 0 1               | taken 1
bge 0x40             | 0 0 4               | not taken 4
bl 0x40              | 0 0 4               | taken 4
bne 0x40             | 0 0 2               | not taken 2
ble 0x40             | 0 0 6               | taken 6
bo 0x40              | 0 0 0               | not taken 0
faultno              | 0 0 0               | taken 0
faulte               | 0 0 5               | not taken 5
faulto               | 0 0 1               | taken 1
bbc r4, g5, 0x40     | 21 2 7              | not taken 2
bbc r4, g5, 0x40     | 21 FFFFFFFD 7       | taken 0
bbs r4, g5, 0x40     | 21 2 7              | taken 2
bbs r4, g5, 0x40     | 21 FFFFFFFD 7       | not taken 0
cmpobg r4, g5, 0x40  | 1 FFFFFFFF 0        | not taken 4
cmpobl r4, g5, 0x40  | 1 FFFFFFFF 0        | taken 4
cmpobe r4, g5, 0x40  | 7 7 0               | taken 2
cmpobne r4, g5, 0x40 | 7 7 4               | not taken 2
cmpibg r4, g5, 0x40  | 1 FFFFFFFF 0        | taken 1
cmpibl r4, g5, 0x40  | 80000000 7FFFFFFF 0 | taken 4
cmpibge r4, g5, 0x40 | 80000000 7FFFFFFF 0 | not taken 4
cmpibno r4, g5, 0x40 | 3 3 0               | not taken 2
cmpibo r4, g5, 0x40  | 3 3 0               | taken 2
";

/// What a branch does.
fn branch_text(alloc: Global, i: &Inst, given: &str) -> Result<String, Fail> {
    let numbers = hex_words(alloc, given)?;
    let [a, b, code] = numbers.as_slice() else {
        return Err("a branch has two values and a code".into());
    };
    let jump = branch(i, *a, *b, CLEAR | *code);
    let taken = if jump.taken { "taken" } else { "not taken" };
    Ok(format!(in alloc; "{taken} {:X}", jump.ac ^ CLEAR)?)
}

#[test]
fn branches(rt: HostRuntime) -> Result<(), Fail> {
    rows_hold(&rt, rt.alloc(), &[BRANCH_ROWS], branch_text)
}

/// The words of the base and of the index and its own address; the address. The index is scaled modulo 2^32.
const ADDRESS_ROWS: &str = "\
lda 0xFFF, g0                | 1000 30 FFFFFFF8 | FFF
lda 0xFFF(r4), g0            | 1000 30 FFFFFFF8 | 1FFF
lda !(r4), g0                | 1000 30 FFFFFFF8 | 1000
lda 0x10(ip), g0             | 1000 30 FFFFFFF8 | 10
lda (r4)[r5*16], g0          | 1000 30 FFFFFFF8 | 1300
lda 0xE0000004, g0           | 1000 30 FFFFFFF8 | E0000004
lda 0xFFFFF000(r4), g0       | 1000 30 FFFFFFF8 | 0
lda 0xFFFFFFFF[r5*4], g0     | 1000 30 FFFFFFF8 | BF
lda 0xFFFFFFFF(r4)[r5*2], g0 | 1000 30 FFFFFFF8 | 105F
lda (r4)[r5*16], g0          | 1 10000001 0     | 11
";

/// The address that an instruction makes.
fn address_text(alloc: Global, i: &Inst, given: &str) -> Result<String, Fail> {
    let numbers = hex_words(alloc, given)?;
    let [base, index, ip] = numbers.as_slice() else {
        return Err("an address has three words".into());
    };
    Ok(format!(in alloc; "{:X}", address(&i.ea, *base, *index, *ip))?)
}

#[test]
fn addresses(rt: HostRuntime) -> Result<(), Fail> {
    rows_hold(&rt, rt.alloc(), &[ADDRESS_ROWS], address_text)
}
