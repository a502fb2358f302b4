//! Formats of instruction words, and what a row of the instruction table says.
ghost use Rattle.std.specs.Prelude.{◌≡◌};
ghost use Rattle.i9_isa.specs.Operands.{is_unused, starts_group, takes, words_read, words_written};

use crate::inst::Operand;

/// The format of an instruction word (i960 CA/CF User's Manual, instruction formats).
#[derive(Clone, Copy, Debug, PartialEq, Eq)]
pub enum Format {
    /// Register format.
    Reg,
    /// Compare-and-branch format.
    Cobr,
    /// Control format.
    Ctrl,
    /// Memory format, of one word or two.
    Mem,
}

/// What an instruction does with one of its three operands. A number is how many words it has, from
/// 1 to 4: so many registers from the named one up.
#[derive(Clone, Copy)]
pub enum Use {
    /// Its field is ignored.
    Unused,
    /// It is read: a register group, a literal, or a special function register of one word.
    Source(u8),
    /// It is read: a register or a literal (src1 of a compare and branch).
    Left,
    /// It is read: a register or a special function register (src2 of a compare and branch).
    Right,
    /// It is written: a register group, or a special function register of one word.
    Destination(u8),
    /// It is written: a register group alone.
    Load(u8),
    /// It is read: a register group alone.
    Store(u8),
    /// It is read and written: a register.
    Change,
}

/// A row of the instruction table.
#[derive(Clone, Copy)]
pub struct Row {
    /// Bits 31 to 24 of the word.
    pub opcode: u8,
    /// Bits 10 to 7 of the word in the register format; 0 in the others, where they do not count.
    pub extension: u8,
    pub format: Format,
    /// The use of src1.
    pub a: Use,
    /// The use of src2.
    pub b: Use,
    /// The use of src/dst.
    pub c: Use,
    /// Whether it has the displacement of a branch.
    pub disp: bool,
    /// Whether it has a branch prediction.
    pub hint: bool,
}

/// Whether a group of so many words may begin at this register: a pair begins at an even number,
/// three or four registers at a multiple of 4.
fn starts_group(words: u8, register: u8) -> bool
    ensures { result ≡ starts_group words register }
{
    if register >= 32 {
        return false;
    }
    match words {
        1 => true,
        2 => register % 2 == 0,
        _ => register % 4 == 0,
    }
}

impl Use {
    /// Whether the operand's field is ignored.
    pub fn is_unused(self) -> bool
        ensures { result ≡ is_unused self }
    {
        matches!(self, Use::Unused)
    }

    /// Whether this use allows the operand. What is not used stands as `Reg(0)`.
    #[inline(always)]
    pub fn takes(self, operand: Operand) -> bool
        ensures { result ≡ takes self operand }
    {
        match (self, operand) {
            (Use::Unused, Operand::Reg(r)) => r == 0,
            (Use::Source(n), Operand::Reg(r)) => starts_group(n, r),
            (Use::Source(_), Operand::Lit(l)) => l < 32,
            (Use::Source(n), Operand::Sfr(s)) => n == 1 && s < 3,
            (Use::Left, Operand::Reg(r)) => r < 32,
            (Use::Left, Operand::Lit(l)) => l < 32,
            (Use::Right, Operand::Reg(r)) => r < 32,
            (Use::Right, Operand::Sfr(s)) => s < 3,
            (Use::Destination(n), Operand::Reg(r)) => starts_group(n, r),
            (Use::Destination(n), Operand::Sfr(s)) => n == 1 && s < 3,
            (Use::Load(n), Operand::Reg(r)) => starts_group(n, r),
            (Use::Store(n), Operand::Reg(r)) => starts_group(n, r),
            (Use::Change, Operand::Reg(r)) => r < 32,
            _ => false,
        }
    }

    /// How many registers are read.
    pub(crate) fn words_read(self) -> u8
        ensures { result ≡ words_read self }
    {
        match self {
            Use::Source(n) | Use::Store(n) => n,
            Use::Left | Use::Right | Use::Change => 1,
            Use::Unused | Use::Destination(_) | Use::Load(_) => 0,
        }
    }

    /// How many registers are written.
    pub(crate) fn words_written(self) -> u8
        ensures { result ≡ words_written self }
    {
        match self {
            Use::Destination(n) | Use::Load(n) => n,
            Use::Change => 1,
            Use::Unused | Use::Source(_) | Use::Left | Use::Right | Use::Store(_) => 0,
        }
    }
}
