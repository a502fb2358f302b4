//! What a step answers, and the lines that it prints.
ghost use Rattle.std.specs.Prelude.{◌≡◌, ◌+◌, ◌<◌, ◌≤◌, ◌++◌, ◌∷◌, [], vec_len, vec_capacity};

use arrayvec::ArrayVec;
use i9_model::{End, Event, Point, View};

/// The most bytes that an event shows.
pub(crate) const MOST_SHOWN: usize = 64;

/// An instruction that was issued: how many came before it, its address and its words. The second
/// is 0 where the instruction has one word.
#[derive(Clone, Copy, Debug, PartialEq, Eq)]
pub struct Issued {
    pub count: u64,
    pub address: u32,
    pub first: u32,
    pub second: u32,
}

/// What a step was.
#[derive(Clone, Copy, Debug, PartialEq, Eq)]
pub enum Turn {
    /// The entry of a fault or of an interrupt, an event, or a move of the turn.
    On,
    /// An instruction.
    Issued(Issued),
    /// The end of the run.
    End(End),
    /// Nothing, since memory was refused: the machine stands as before.
    Memory,
}

/// The raw state at a turn: the 32 registers with what has landed, whatever is open, and the set of those that
/// an open record writes, of which bit r is that of register r.
#[derive(Clone, Copy, Debug, PartialEq, Eq)]
pub struct Raw {
    pub turn: u64,
    pub regs: [u32; 32],
    pub busy: u32,
}

/// What is printed.
#[derive(Clone, Debug, Drop, PartialEq, Eq)]
pub enum Line {
    /// A byte of the console.
    Out(u8),
    /// An event that was reached after so many instructions.
    Event {
        count: u64,
        event: Event,
    },
    /// A drained point.
    Point {
        kind: Point,
        view: View,
    },
    /// The bytes from an address up, `None` where none is compared.
    Bytes {
        address: u32,
        list: ArrayVec<Option<u8>, MOST_SHOWN>,
    },
    /// The end of the run.
    End(End),
}

/// Adds a line for which there is room.
pub(crate) fn put_line(out: &mut Vec<Line>, line: Line)
    requires { vec_len out.old < vec_capacity out.old }
    ensures items { out.new.items ≡ out.old.items ++ line ∷ [] }
    ensures len { vec_len out.new ≡ vec_len out.old + 1 }
    ensures capacity { vec_capacity out.old ≤ vec_capacity out.new }
{
    out.push(line).unwrap();
}
