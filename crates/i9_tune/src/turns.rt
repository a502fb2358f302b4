//! The turns of a block.
ghost use Rattle.std.specs.Prelude.{◌≡◌, ◌≤◌, length};
ghost use Rattle.i9_isa.specs.Valid.{IsValid};
ghost use Rattle.i9_model.specs.Turns.{HasCost};
ghost use Rattle.i9_tune.specs.Greedy.{plain_need, span_of, AreTunable};

use i9_isa::Inst;
use i9_issue::Board;
use i9_model::{Facts, Need};
use i9_need::{fixed_need, need_by};

/// What an instruction of a block needs: it raises and meets nothing, and its load or store waits for nothing.
#[tactic(auto, using(crate::proofs::Plain::plain_cost))]
pub(crate) fn plain_need(i: &Inst) -> Need
    requires { IsValid i.now }
    ensures need { result ≡ plain_need i.now }
    ensures cost { HasCost result }
    ensures few { result.cost ≤ 248 }
    ensures early { result.not_before ≡ 0 }
{
    let fixed = fixed_need(i);
    let facts = Facts {
        ip: 0,
        access: if fixed.access { Some((0, 0)) } else { None },
        port: false,
        waits: 0,
        frames: 0,
        fault: false,
        trace: false,
        hazard: false,
        alone: false,
    };
    need_by(&fixed, &facts)
}

/// The least turn at which all of a block is done, from an empty board on.
pub fn span(block: &[Inst]) -> u64
    requires tunable { AreTunable block.now }
    requires few { length block.now ≤ 64 }
    ensures { result ≡ span_of block.now }
{
    let mut board = Board::new();
    for inst in block {
        board.place(&plain_need(inst));
    }
    board.all_done()
}
