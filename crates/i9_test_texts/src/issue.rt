//! Worked turns, by hand from the rules.
use crate::check::same_at;
use crate::rows::{columns, pair};
use i9_issue::{Board, Need, Side};
use std::alloc::Global;
use std::test::Fail;

/// A need of one turn with its own words at 1000.
fn need(side: Side, reads: u64, writes: u64) -> Need {
    Need {
        side,
        reads,
        writes,
        cost: 1,
        code: (0x1000, 4),
        ..Need::default()
    }
}

/// A multiplication or division of so many turns.
fn slow(cost: u64, reads: u64, writes: u64) -> Need {
    Need {
        slow: true,
        cost,
        ..need(Side::Reg, reads, writes)
    }
}

fn load(writes: u64, waits: u64) -> Need {
    Need {
        request: true,
        cost: 1 + waits % 0x1000,
        ..need(Side::Mem, 0, writes)
    }
}

fn store(reads: u64, address: u32) -> Need {
    Need {
        request: true,
        store: Some((address, 4)),
        ..need(Side::Mem, reads, 0)
    }
}

fn barrier(cost: u64, not_before: u64) -> Need {
    Need {
        barrier: true,
        cost,
        not_before,
        ..need(Side::Ctl, 0, 0)
    }
}

fn alone() -> Need {
    Need {
        alone: true,
        ..need(Side::Reg, 0, 0)
    }
}

/// A need of the register side with its own words there.
fn code(address: u32, size: u32) -> Need {
    Need {
        code: (address, size),
        ..need(Side::Reg, 0, 0)
    }
}

/// A number, in decimal or in hexadecimal digits.
fn number(digits: &str, is_decimal: bool) -> Result<u64, Fail> {
    if is_decimal {
        Ok(digits.parse::<u64>()?)
    } else {
        Ok(u64::from_str_radix(digits, 16)?)
    }
}

/// The low word of a number.
fn low(number: u64) -> u32 {
    (number % 0x1_0000_0000) as u32
}

/// A need of a row: `reg`, `mem`, `ctl`, `multiply` and `divide` have what they read and what they write, where bit r
/// stands for register r and bit 32 for the condition code; a load has what it writes and its waits, a store what it
/// reads and its address; a barrier has its turns and the turn that it waits for.
fn need_of(text: &str) -> Result<Need, Fail> {
    let mut words = text.split_whitespace();
    let (Some(name), Some(a), Some(b)) = (words.next(), words.next(), words.next()) else {
        return Err("a need has a name and two numbers".into());
    };
    let a = number(a, name == "barrier")?;
    let b = number(b, matches!(name, "barrier" | "load" | "code"))?;
    match named(name, a, b) {
        Some(need) => Ok(need),
        None => Err("no such need".into()),
    }
}

/// The need of a name with two numbers.
fn named(name: &str, a: u64, b: u64) -> Option<Need> {
    match name {
        "multiply" => Some(slow(5, a, b)),
        "divide" => Some(slow(37, a, b)),
        "load" => Some(load(a, b)),
        "store" => Some(store(a, low(b))),
        "barrier" => Some(barrier(a, b)),
        "alone" => Some(alone()),
        "code" => Some(code(low(a), low(b))),
        _ => Some(need(side(name)?, a, b)),
    }
}

fn side(name: &str) -> Option<Side> {
    match name {
        "reg" => Some(Side::Reg),
        "mem" => Some(Side::Mem),
        "ctl" => Some(Side::Ctl),
        _ => None,
    }
}

/// Places a need whose cost and turns are in range: the turn that `next_turn` tells, and its turns. Where it
/// is asked for, the record is placed at the turn that was told.
fn place(board: &mut Board, n: &Need, told: bool) -> Option<(u64, u64, u64)> {
    let plain = !(n.request || n.slow || n.barrier);
    if n.cost == 0 || (plain && n.cost != 1) || n.cost >= 1 << 32 {
        return None;
    }
    if board.all_done() >= 1 << 62 || n.not_before >= 1 << 62 {
        return None;
    }
    let next = board.next_turn(n);
    let placed = if told {
        board.place_at(n, next)
    } else {
        board.place(n)
    };
    Some((next, placed.issue, placed.done))
}

/// Whether a row begins with a new board; a need; the turn at which it issues, as `next_turn` tells it, and the turn at
/// which it is done.
const TURNS: &str = "\
new  | multiply 0 1    | 1 1 6    | multiply, add, load, branch and move
then | reg 0 2         | 2 2 3
then | load 4 0        | 2 2 3
then | ctl 0 0         | 2 2 3
then | reg 0 8         | 3 3 4
new  | load 1 3        | 1 1 5    | four loads with three read waits
then | load 2 3        | 2 2 9
then | load 4 3        | 3 3 13
then | load 8 3        | 5 5 17   | it waits until one is done
then | reg 0 10        | 5 5 6    | what is no request does not wait behind them
then | load 20 0       | 9 9 18   | a request of one turn does
new  | reg 0 1         | 1 1 2    | each side takes one record in a turn
then | mem 0 2         | 1 1 2
then | ctl 0 0         | 1 1 2
then | mem 0 4         | 2 2 3
then | mem 0 8         | 3 3 4
new  | ctl 0 0         | 1 1 2    | nothing else follows the control side in its turn
then | reg 0 1         | 2 2 3
new  | multiply 2 1    | 1 1 6
then | mem 0 2         | 1 1 2    | what is read is written at once
then | mem 1 4         | 6 6 7    | what is written is read when it is there
new  | multiply 0 1    | 1 1 6
then | mem 0 1         | 6 6 7    | and written again
new  | reg 0 100000000 | 1 1 2
then | ctl 100000000 0 | 2 2 3
new  | multiply 0 1    | 1 1 6    | one multiplication or division at a time
then | divide 0 2      | 6 6 43
then | multiply 0 4    | 43 43 48
";

/// The same of stores, barriers, what stands alone and what waits for a turn.
const BARRIERS: &str = "\
new  | load 1 0         | 1 1 2
then | store 1 1010     | 2 2 3
then | code 1010 4      | 3 3 4     | behind a store to its own words
new  | store 0 1010     | 1 1 2
then | code 100C 8      | 2 2 3     | behind one to the second of them
new  | store 0 1010     | 1 1 2
then | code 1014 4      | 1 1 2     | behind one beside them
new  | store 0 FFFFFFFE | 1 1 2
then | code 0 4         | 2 2 3
new  | multiply 0 1     | 1 1 6
then | barrier 4 0      | 6 6 10    | a barrier waits for all before it
then | reg 0 2          | 10 10 11  | all behind it wait for it
new  | load 1 2         | 1 1 4
then | barrier 24 0     | 4 4 28    | the entry of a fault that spills a frame
then | barrier 81 0     | 28 28 109 | a flush of five
new  | multiply 0 1     | 1 1 6
then | alone 0 0        | 6 6 7     | what stands alone waits for all before it
then | mem 0 2          | 6 6 7     | nothing waits for it
new  | multiply 0 1     | 1 1 6
then | barrier 1 3      | 6 6 7
then | reg 0 2          | 7 7 8
new  | barrier 1 9      | 9 9 10    | some wait for a turn
then | reg 0 2          | 10 10 11
";

/// Places a need: its turns.
fn placed_text(alloc: Global, board: &mut Board, need: &str, told: bool) -> Result<String, Fail> {
    match place(board, &need_of(need)?, told) {
        Some((next, issue, done)) => Ok(format!(in alloc; "{next} {issue} {done}")?),
        None => Err("out of range".into()),
    }
}

#[test]
fn places_records(rt: HostRuntime) -> Result<(), Fail> {
    let mut board = Board::new();
    for row in TURNS.lines().chain(BARRIERS.lines()) {
        let (start, need, wanted) = columns(row)?;
        if start == "new" {
            board = Board::new();
        }
        // The record is placed on a copy of the board.
        board = board.copy();
        let text = placed_text(rt.alloc(), &mut board, need, false)?;
        same_at(&rt, text.as_str(), wanted, row);
    }
    Ok(())
}

/// Needs that are placed on one board, and when all is done then, which is at 1 at first.
const ENDS: &str = "\
multiply 0 1 | 1 to 6
reg 0 2      | 6 to 6
load 4 6     | 6 to 9
barrier 1 20 | 9 to 21
";

/// Places a need at the turn that is told: when all is done before and behind it.
fn ends_text(alloc: Global, board: &mut Board, need: &str) -> Result<String, Fail> {
    let before = board.all_done();
    if place(board, &need_of(need)?, true).is_none() {
        return Err("out of range".into());
    }
    Ok(format!(in alloc; "{before} to {}", board.all_done())?)
}

#[test]
fn tells_when_all_is_done(rt: HostRuntime) -> Result<(), Fail> {
    let mut board = Board::new();
    for row in ENDS.lines() {
        let (need, wanted) = pair(row)?;
        let text = ends_text(rt.alloc(), &mut board, need)?;
        same_at(&rt, text.as_str(), wanted, row);
    }
    Ok(())
}
