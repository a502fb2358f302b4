//! The greedy order of a block, and the tuned block.
ghost use Rattle.std.specs.Prelude.{◌≡◌, ◌<◌, ◌≤◌, List, [], length, IfOk};
ghost use Rattle.i9_isa.specs.declared.inst.Inst.{Inst};
ghost use Rattle.i9_model.specs.Turns.{StandsFor, IsAllDone};
ghost use Rattle.i9_tune.specs.Greedy.{turns_of, span_of, IsChosenAt, IsGreedy, IsTuned, AreTunable};
ghost use Rattle.i9_tune.specs.Orders.{IsOrder};

use crate::front::Front;
use crate::turns::{plain_need, span};
use i9_isa::{Inst, NoMemory};
use i9_issue::Board;
use std::alloc::Global;

/// Which of the instructions that are left is to be taken: of those that depend on none before them the one that
/// issues first, and of more than one the earliest.
fn choose(board: &Board, left: &[Inst]) -> usize
    requires tunable { AreTunable left.now }
    requires some { 0 < length left.now }
    // So many instructions as a block has take less: none takes more than 248 turns.
    requires early { IsAllDone board.now 20000 }
    ensures within { result < length left.now }
    ensures chosen { (taken : List Inst) → StandsFor board.now (turns_of taken) → IsChosenAt taken left.now result }
{
    let first = plain_need(&left[0]);
    let mut front = Front::new();
    front.add(&first);
    let mut best = 0;
    let mut least = board.next_turn(&first);
    for k in 1..left.len() {
        let need = plain_need(&left[k]);
        if !front.binds(&need) {
            let turn = board.next_turn(&need);
            if turn < least {
                best = k;
                least = turn;
            }
        }
        front.add(&need);
    }
    best
}

/// The greedy order of a block.
fn greedy(alloc: Global, block: &[Inst]) -> Result<Vec<Inst>, NoMemory>
    requires tunable { AreTunable block.now }
    requires few { length block.now ≤ 64 }
    ensures order { IfOk result (λ order. IsGreedy [] block.now order.items) }
{
    let Ok(mut left) = Vec::from_slice(alloc, block) else {
        return Err(NoMemory);
    };
    let mut order = Vec::new(alloc);
    let mut board = Board::new();
    'more: for _ in 0..block.len() {
        let next = left.remove(choose(&board, &left));
        board.place(&plain_need(&next));
        if order.push(next).is_err() {
            return Err(NoMemory);
        }
    }
    Ok(order)
}

/// The block in its greedy order, where all of that is done earlier, else as it is. Instructions that depend on each
/// other keep their order, and it takes no more turns.
pub fn tune(alloc: Global, block: &[Inst]) -> Result<Vec<Inst>, NoMemory>
    requires tunable { AreTunable block.now }
    requires few { length block.now ≤ 64 }
    ensures tuned { IfOk result (λ tuned. IsTuned block.now tuned.items) }
    ensures order { IfOk result (λ tuned. IsOrder block.now tuned.items) }
    ensures no_more { IfOk result (λ tuned. span_of tuned.items ≤ span_of block.now) }
    ensures tunable { IfOk result (λ tuned. AreTunable tuned.items) }
    ensures count { IfOk result (λ tuned. length tuned.items ≡ length block.now) }
{
    let order = greedy(alloc, block)?;
    if span(&order) < span(block) {
        return Ok(order);
    }
    match Vec::from_slice(alloc, block) {
        Ok(same) => Ok(same),
        Err(_) => Err(NoMemory),
    }
}
