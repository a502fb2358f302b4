//! Whole turns of the machine and what is raw at them, worked out by hand.
use crate::script::tables_hold;
use std::test::*;

/// `muli 3, 4, g2` issues at 1, `addo 1, 2, g5`, `ld 0x100, g6` and `b next` at 2, and `next: mov 0, g7` at 3. The
/// product is there at 6, and then the end is answered, again and again.
const PACKET: &str = "\
a packet           | image 1000 74911883 59A89801 90B00100 8000004 5CB80E00, run 5 |
up to 2            | turn, turn?, count? | on, 2, 1
up to 3            | turn, turn?, count?, ip?, busy? | on, 3, 4, 1010, 40000
what is raw        | raw_regs? 18 21 1, regs? 18 21 | 0 3 40, C 3
up to 6            | turns 2, turn, turn?, raw_regs? 18, busy? | on, 6, C, 0
the end            | turns 1, turn, turn?, lines? | limit, 6, point End, limit
";

/// At most three requests are open: `ld` of the words at 100 to 10C to g0 to g3, where each read of the region waits
/// three turns. They issue at 1, 2, 3 and 5, and are there at 5, 9, 13 and 17.
const REQUESTS: &str = "\
four loads         | image 1000 90800100 90880104 90900108 9098010C, put FFFFFF14 800, put A20 18 |
a PRCB             | put 800 900 A00 0 40000000 2000 B00 0 3000 0 0, run 4 |
up to 2            | turn, turn?, count?, busy? | on, 2, 1, 10000
up to 3            | turn, turn?, count?, busy? | on, 3, 2, 30000
up to 4            | turn, turn?, count?, busy? | on, 4, 3, 70000
the first is there | turn, turn?, count?, busy? | on, 5, 3, 60000
up to 6            | turn, turn?, count?, busy? | on, 6, 4, E0000
up to 7            | turn, turn?, count?, busy? | on, 7, 4, E0000
up to 8            | turn, turn?, count?, busy? | on, 8, 4, E0000
the second         | turn, turn?, count?, busy? | on, 9, 4, C0000
up to 10           | turn, turn?, count?, busy? | on, 10, 4, C0000
up to 11           | turn, turn?, count?, busy? | on, 11, 4, C0000
up to 12           | turn, turn?, count?, busy? | on, 12, 4, C0000
the third          | turn, turn?, count?, busy? | on, 13, 4, 80000
up to 14           | turn, turn?, count?, busy? | on, 14, 4, 80000
up to 15           | turn, turn?, count?, busy? | on, 15, 4, 80000
up to 16           | turn, turn?, count?, busy? | on, 16, 4, 80000
the last           | turn, turn?, count?, busy? | on, 17, 4, 0
";

#[test]
fn issues_three_in_a_turn(rt: HostRuntime) -> Result<(), Fail> {
    tables_hold(&rt, rt.alloc(), &[PACKET, REQUESTS])
}

/// The byte at an address of raw memory and of overlaid memory, and how many frames are held. `call` issues at 2, and
/// its frame, whose r4 is at 10, is held, and stored by `flushreg` alone, which issues at 6 and takes 17 turns. With
/// one set the second call, which issues at 6, spills the frame of the first, in 20 turns. Behind a store, which
/// issues at 3, the first call waits for it, and the second one, at 8, spills in 20 turns. Last the store issues at
/// 2, and is there at 3.
const MEMORY: &str = "\
mov 5, r4; call f; f: flushreg | image 1000 5C200E05 9000004 66000680, run 3 |
after 1            | turns 1, raw_byte? 10, bytes? 10, frames? | 0, 0, 0
after 2            | turns 1, raw_byte? 10, bytes? 10, frames? | 0, 5, 1
after 5            | turns 3, raw_byte? 10, bytes? 10, frames? | 0, 5, 1
after 6            | turns 1, raw_byte? 10, bytes? 10, frames? | 0, 5, 0
after 21           | turns 15, raw_byte? 10, bytes? 10, frames? | 0, 5, 0
after 22           | turns 1, raw_byte? 10, bytes? 10, frames? | 5, 5, 0
mov 5, r4; call f; f: call g; g: mov 0, g0 | image 1000 5C200E05 9000004 9000004 5C800E00, run 4 1 |
after 5            | turns 5, raw_byte? 10, bytes? 10, frames? | 0, 5, 1
after 6            | turns 1, raw_byte? 10, bytes? 10, frames? | 0, 5, 1
after 24           | turns 18, raw_byte? 10, bytes? 10, frames? | 0, 5, 1
after 25           | turns 1, raw_byte? 10, bytes? 10, frames? | 5, 5, 1
with two sets      | run 4 2, turns 25, raw_byte? 10, bytes? 10, frames? | 0, 5, 2
mov 5, r4; mov 7, g4; st g4, 0x300 | image 1000 5C200E05 5CA00E07 92A00300 |
call f; f: call g; g: mov 0, g0 | put 100C 9000004 9000004 5C800E00, run 6 1 |
after 2            | turns 2, raw_byte? 300, bytes? 300, frames? | 0, 0, 0
after 3            | turns 1, raw_byte? 300, bytes? 300, frames? | 7, 7, 0
after 8            | turns 5, raw_byte? 300, bytes? 300, frames? | 7, 7, 1
after 26           | turns 18, raw_byte? 10, bytes? 10, frames? | 0, 5, 1
after 27           | turns 1, raw_byte? 10, bytes? 10, frames? | 5, 5, 1
mov 7, g4; st g4, 0x300 | image 1000 5CA00E07 92A00300, run 2 |
after 1            | turns 1, raw_byte? 300, bytes? 300, frames? | 0, 0, 0
after 2            | turns 1, raw_byte? 300, bytes? 300, frames? | 7, 7, 0
";

/// Loads see stores that wait: `lda 0x0FFFFFFE, g0`, `lda 0x11223344, g4`, `st g4, (g0)`, `ldos 1(g0), g5`,
/// `ldos 2(g0), g6`. The store goes over the end of region 0, and the second load is of region 1, which is big-endian
/// in the second run. Last `ld 0x200, g1`, `st g1, 0x100C`, `mov 1, g4`, whose word the store makes `mov 2, g4`: the
/// store is there before the word is read.
const LOADS: &str = "\
two regions        | image 1000 8C803000 0FFFFFFE 8CA03000 11223344 92A42000 88AC2001 88B42002, put FFFFFF14 800 |
a PRCB             | put 800 900 A00 0 40000000 2000 B00 0 3000 0 0 |
little-endian      | put A24 0, run 5, turns 200, regs? 20 21 22 | 11223344 2233 1122
big-endian         | put A24 400000, run 5, turns 200, regs? 20 21 22 | 11223344 2233 2211
a word that changes | image 1000 90880200 92883000 100C 5CA00E01, put FFFFFF14 800 |
a PRCB             | put 800 900 A00 0 40000000 2000 B00 0 3000 0 0 |
mov 2, g4          | put 200 5CA00E02, run 3, turns 200, regs? 20 21 22 | 2 0 0
";

#[test]
fn memory_shows_what_is_done(rt: HostRuntime) -> Result<(), Fail> {
    tables_hold(&rt, rt.alloc(), &[MEMORY, LOADS])
}

/// A store waits before it lands. Once a call has issued, the locals and the frame pointer are its own
/// from 6 on. `mulo g5, g6, g4` and `ld 0x100, g0` issue at 1, and `mov 7, g9` at 2: the event waits for the product
/// until 6, its entry comes a turn later, and takes eight, before `mov 7, g4` in the handler at 1200.
const WAITING: &str = "\
mov 7, g4; st g4, 0x300 | image 1000 5CA00E07 92A00300, run 2 |
the store          | moves, moves, turn?, raw_byte? 300, bytes? 300 | 0 issued, 1 issued, 2, 0, 7
mov 5, r4; call f; f: flushreg | image 1000 5C200E05 9000004 66000680, run 3 |
the call           | turns 1, steps 1, turn?, raw_regs? 1 4 31, busy? | 2, 40 5 0, 8000FFFF
up to 6            | turns 4, turn?, raw_regs? 1 4 31, busy? | 6, 80 0 40, 0
an interrupt       | image 1000 70A58095 90800100 5CC80E07, put 3E4 1200, put 1200 5CA00E07, run 4: at 3 nmi |
the first three    | moves, moves, moves | 0 issued, 0 issued, 1 issued
event and entry    | moves, moves | 4 on, 1 on
the handler        | moves, ip? | 8 issued, 1204
";

/// Turns are passed at which nothing comes, also where the turn has moved before: `mulo g5, g6, g4`, and
/// `addo 1, g4, g8`, which waits for the product until 6, as the end waits for it until 7.
const PASSED: &str = "\
mulo; addo         | image 1000 70A58095 59C50801, run 2 |
mulo               | proceed, turn?, count? | issued, 1, 1
a move of the turn | advance, turn? | on, 2
addo               | proceed, turn?, count? | issued, 6, 2
the end            | proceed, turn?, lines? | limit, 7, point End, limit
again              | proceed | limit
";

/// The same, up to a turn: nothing comes below 1 and 6, where the turn rises to it at most, nor the end below 7.
const BELOW: &str = "\
mulo; addo         | image 1000 70A58095 59C50801, run 2, below 1, turn?, count? | none, 1, 0
mulo               | below 2, turn?, count? | issued, 1, 1
up to 4            | below 4, turn?, count? | none, 4, 1
not back           | below 3, turn?, count? | none, 4, 1
up to 6            | below 6, turn?, count? | none, 6, 1
addo               | below 7, turn?, count? | issued, 6, 2
up to 7            | below 7, at?, lines? | none, 7, no lines
the end            | below 8, turn?, lines? | limit, 7, point End, limit
again              | below 3, at? | limit, 7
";

#[test]
fn waits_for_what_is_open(rt: HostRuntime) -> Result<(), Fail> {
    tables_hold(&rt, rt.alloc(), &[WAITING, PASSED, BELOW])
}

/// Machines that are copied, and go on as they would without: with a store that waits; with a frame that is held, and
/// with an open barrier, that of a flush, which hides what it stores until 22; with a product that lands at 6; and with
/// five frames held, among the calls and among the returns. What is kept stays as it was.
const COPIES: &str = "\
mov 7, g4; st g4, 0x300 | image 1000 5CA00E07 92A00300, run 2, moves, moves, turn?, raw_byte? 300 | 0 issued, 1 issued, 2, 0
the store waits    | copy, turn?, raw_byte? 300, bytes? 300 | 2, 0, 7
it lands           | turns 1, raw_byte? 300, kept raw_byte? 300, kept bytes? 300 | 7, 0, 7
the end            | copy, turn, kept end?, end?, lines? | limit, no end, limit, point End, limit
mov 5, r4; call f; f: flushreg | image 1000 5C200E05 9000004 66000680, run 3, turns 5 |
a frame is held    | copy, frames?, frame? 0, turns 1, frames?, kept frames? | 1, 0: 0 40 1008 0 5 0 0 0 0 0 0 0 0 0 0 0, 0, 1
an open barrier    | copy, turns 15, raw_byte? 10, bytes? 10 | 0, 5
it is done         | copy, turns 1, raw_byte? 10, kept raw_byte? 10, lines? | 5, 0, point Flush
a product          | image 1000 74911883 59A89801 90B00100 8000004 5CB80E00, run 5, turn, turn | on, on
it is planned      | copy, turn?, raw_regs? 18 21 1, regs? 18 21, busy? | 3, 0 3 40, C 3, 40000
it lands           | turns 2, turn, turn?, raw_regs? 18, busy?, kept raw_regs? 18 | on, 6, C, 0, 0
the end            | copy, turns 1, turn, turn?, lines? | limit, 6, point End, limit
calls and returns  | image 1000 8C800013 9000010 8CA83000 E0000000 92856004 3204200C 59840901 9FFFFF8 A000000 |
within the calls   | run 100 5, steps 41, frames?, copy, most 83, count?, ip?, regs? 1 2 21 | 5, 5 exit 0, 82, 1014, 40 1008 E0000000
within the returns | run 100 5, steps 70, copy, steps 5, copy, end, count?, ip?, regs? 1 2 21 | exit 0, 82, 1014, 40 1008 E0000000
";

#[test]
fn copies_go_on_by_themselves(rt: HostRuntime) -> Result<(), Fail> {
    tables_hold(&rt, rt.alloc(), &[COPIES])
}
