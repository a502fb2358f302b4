//! An instruction that was decoded, with all that depends on its words alone.
ghost use Rattle.std.specs.Prelude.{◌≡◌, ◌==◌, if◌then◌else◌, Ok, MatchResult};
ghost use Rattle.i9_isa.specs.Transfers.{transfer_of};
ghost use Rattle.i9_isa.specs.Valid.{IsValid};
ghost use Rattle.i9_isa.specs.Words.{decoded, words_of};
ghost use Rattle.i9_model.specs.Results.{has_result};
ghost use Rattle.i9_need.specs.Fixed.{fixed_need};

use crate::fetched::Words;
use i9_decode::{BadWord, decode};
use i9_exec::has_result;
use i9_isa::{Inst, NO_ADDRESS, Op, Operand, Transfer, transfer};
use i9_need::{FixedNeed, fixed_need};

/// Words, the instruction that they are, what it needs by its name and its operands alone, the load or the store
/// that it is, where it is one, and whether it has a result.
#[derive(Clone, Copy)]
pub(crate) struct Kept {
    pub words: Words,
    pub inst: Inst,
    pub need: FixedNeed,
    pub transfer: Option<Transfer>,
    pub gives: bool,
    ghost read: { decoded words.first words.second ≡ Ok inst },
    ghost needs: { need ≡ fixed_need inst },
    ghost moves: { transfer ≡ transfer_of inst.op },
    ghost results: { gives ≡ has_result inst.op },
    ghost short: { words.second ≡ (if words_of inst == 2 then words.second else 0) },
}

/// The word of a branch to itself.
const BRANCH: u32 = 0x0800_0000;

impl Kept {
    /// The instruction that a first word is, before its second word is read.
    fn made(first: u32, inst: Inst) -> Kept
        requires { decoded first 0 ≡ Ok inst }
        ensures { result.words.first ≡ first }
    {
        Kept {
            words: Words { first, second: 0 },
            inst,
            need: fixed_need(&inst),
            transfer: transfer(inst.op),
            gives: has_result(inst.op),
        }
    }

    /// A branch to itself.
    pub fn first() -> Kept {
        let inst = Inst {
            op: Op::B,
            a: Operand::Reg(0),
            b: Operand::Reg(0),
            c: Operand::Reg(0),
            ea: NO_ADDRESS,
            disp: 0,
            hint: false,
        };
        Kept::made(BRANCH, inst)
    }

    /// What a first word stands for, before its second word is read.
    pub fn of(first: u32) -> Result<Kept, BadWord>
        ensures { MatchResult result (λ k. k.words.first ≡ first) (λ why. decoded first 0 ≡ Err why) }
    {
        let inst = decode(first, 0)?;
        Ok(Kept::made(first, inst))
    }

    /// An instruction of two words gets its second one.
    pub fn lengthen(&mut self, second: u32)
        requires { words_of self.old.inst ≡ 2 }
        ensures words { self.new.words ≡ record self.old.words { second = second } }
        ensures long { words_of self.new.inst ≡ 2 }
        ensures valid { IsValid self.new.inst }
    {
        self.words.second = second;
        self.inst.ea.disp = second;
    }
}
