//! What an instruction comes to that is read.
ghost use Rattle.std.specs.Prelude.{◌≡◌, ◌∷◌, ◌&&◌, [], None, Some, Ok, true, false, length};
ghost use Rattle.i9_isa.specs.Transfers.{transfer_of};
ghost use Rattle.i9_isa.specs.Valid.{IsValid};
ghost use Rattle.i9_exec.specs.Shown.{answer_of};
ghost use Rattle.i9_model.specs.Operands.{value, address};
ghost use Rattle.i9_model.specs.Access.{access_by_name};
ghost use Rattle.i9_model.specs.Branches.{branch_controls, is_taken};
ghost use Rattle.i9_model.specs.Needs.{is_barrier_name};
ghost use Rattle.i9_model.specs.Results.{has_result, destination_words, word};
ghost use Rattle.i9_model.specs.Stale.{address_registers, is_marked};
ghost use Rattle.i9_model.specs.Step.{destination, passing, resulting, branching, marking, answering, action_by_name};
ghost use Rattle.i9_model.specs.Step.{action_of};
ghost use Rattle.i9_model.specs.Standing.{Runs, is_fault_name, raised_in, by_raised, by_word};
ghost use Rattle.i9_processor.specs.Effect.{IsEffect};
ghost use Rattle.i9_processor.specs.State.{state_of, IsDrained};
ghost use Rattle.i9_plan.specs.Names.{is_branch};
ghost use Rattle.i9_plan.specs.Moved.{IsMove, Moves};
ghost use Rattle.i9_plan.specs.Planned.{standing_in, HasEffect, RunsInRow, IsPlanFor, Passes};

use crate::barriers::barrier_outcome;
use crate::effects::{answering, dma_change, jumping, linking, one_word, passing, posting};
use crate::marks::{address_marked, result_marks};
use crate::misuses::misuses_open;
use crate::names::{is_barrier, is_branch, is_fault_name};
use crate::raised::{arithmetic_fault, mismatches, raised_by_transfer};
use crate::sources::{address, answer, target, value};
use crate::transfers::{Moving, plan_transfer};
use i9_calls::aligned;
use i9_exec::{Done, Jump, branch, controls_by, results_by_name, word_by};
use i9_isa::{Inst, Op, Operand};
use i9_model::faults::{CONSTRAINT, MISMATCH, RANGE, TYPE};
use i9_model::layout::LINK;
use i9_processor::{Effect, Processor};

/// A hazard of its access, or a fault of this type and subtype; or it is done.
#[derive(Clone, Copy)]
pub(crate) enum Outcome {
    Meets(u32),
    Faults((u8, u16)),
    Runs,
}

/// The destination of a result: src1 of a test, src/dst of the others.
fn destination(i: &Inst) -> Operand
    ensures { result ≡ destination i.now }
{
    match i.op {
        Op::Testno | Op::Testg | Op::Teste | Op::Testge => i.a,
        Op::Testl | Op::Testne | Op::Testle | Op::Testo => i.a,
        _ => i.c,
    }
}

/// A result goes to its destination, with its marks.
#[tactic(auto, using(crate::proofs::Answering::answer_rules, crate::proofs::ValidGroups::group_rules))]
fn resulting(p: &Processor, i: &Inst, done: Done, effect: &mut Effect)
    requires valid { IsValid i.now }
    requires result { has_result i.now.op ≡ true }
    requires whole { length done.values.items ≡ destination_words i.now.op }
    requires passes { Passes (state_of p.now) i.now effect.old }
    ensures { IsEffect (state_of p.now) (resulting i.now (state_of p.now) (Some (answer_of done))) effect.new }
{
    effect.ac = done.ac;
    match destination(i) {
        Operand::Reg(r) => {
            effect.register = r;
            effect.values = done.values;
            effect.marks = result_marks(p, i);
        }
        Operand::Lit(_) => {}
        Operand::Sfr(k) => {
            effect.posting = posting(k, done.values.as_slice());
            effect.dma = dma_change(k, done.values.as_slice());
            effect.plain = false;
        }
    }
}

/// What an instruction with a result comes to: an arithmetic fault, or its result is its effect.
fn result_outcome(p: &Processor, i: &Inst, effect: &mut Effect) -> Outcome
    requires valid { IsValid i.now }
    requires result { has_result i.now.op ≡ true }
    requires passes { Passes (state_of p.now) i.now effect.old }
    ensures standing { standing_in i.now result ≡ by_raised i.now (state_of p.now) None }
    ensures effect { HasEffect (state_of p.now) i.now result effect.new }
{
    let done = answer(p, i);
    match done.fault {
        None => {
            resulting(p, i, done, effect);
            Outcome::Runs
        }
        Some(f) => Outcome::Faults(arithmetic_fault(f)),
    }
}

/// What the condition of a branch gives, where it has one.
#[inline(never)]
fn jump_asked(p: &Processor, i: &Inst) -> Jump
    ensures ac { result.ac
        ≡ branch_controls i.now (value (state_of p.now) i.now.a) (value (state_of p.now) i.now.b) (state_of p.now).ac }
    ensures taken { result.taken
        ≡ is_taken i.now (value (state_of p.now) i.now.a) (value (state_of p.now) i.now.b) (state_of p.now).ac }
{
    branch(i, value(p, i.a), value(p, i.b), p.ac())
}

/// What the condition of a branch gives. One without a condition is taken, and the controls stay.
// Each loop has a branch, and many have no other: nothing is read for that.
#[inline(always)]
pub(crate) fn jump_of(p: &Processor, i: &Inst) -> Jump
    ensures ac { result.ac
        ≡ branch_controls i.now (value (state_of p.now) i.now.a) (value (state_of p.now) i.now.b) (state_of p.now).ac }
    ensures taken { result.taken
        ≡ is_taken i.now (value (state_of p.now) i.now.a) (value (state_of p.now) i.now.b) (state_of p.now).ac }
{
    match i.op {
        Op::B => Jump {
            ac: p.ac(),
            taken: true,
        },
        _ => jump_asked(p, i),
    }
}

/// The condition code changes, and control goes to the target where the branch is taken.
fn branching(p: &Processor, i: &Inst, jump: Jump, effect: &mut Effect)
    requires ac { jump.ac
        ≡ branch_controls i.now (value (state_of p.now) i.now.a) (value (state_of p.now) i.now.b) (state_of p.now).ac }
    requires taken { jump.taken
        ≡ is_taken i.now (value (state_of p.now) i.now.a) (value (state_of p.now) i.now.b) (state_of p.now).ac }
    requires passes { Passes (state_of p.now) i.now effect.old }
    ensures { IsEffect (state_of p.now) (branching i.now (state_of p.now)) effect.new }
{
    effect.ac = jump.ac;
    if jump.taken {
        effect.next = aligned(target(p, i));
    }
}

/// Whether a fault instruction's condition holds.
fn raises_range(i: &Inst, jump: Jump) -> bool
    ensures { result ≡ (is_fault_name i.now.op && jump.taken) }
{
    is_fault_name(i.op) && jump.taken
}

/// What a branch comes to, or a fault instruction: its fault, where its condition holds.
fn branch_outcome(p: &Processor, i: &Inst, effect: &mut Effect) -> Outcome
    requires branch { is_branch i.now.op ≡ true }
    requires passes { Passes (state_of p.now) i.now effect.old }
    ensures standing { standing_in i.now result ≡ by_raised i.now (state_of p.now) None }
    ensures effect { HasEffect (state_of p.now) i.now result effect.new }
{
    results_by_name();
    let jump = jump_of(p, i);
    if raises_range(i, jump) {
        Outcome::Faults((CONSTRAINT, RANGE))
    } else {
        branching(p, i, jump, effect);
        Outcome::Runs
    }
}

/// The effective address is answered, with its mark.
fn plan_lda(p: &Processor, i: &Inst) -> Effect
    requires { IsValid i.now }
    ensures { IsEffect (state_of p.now) (marking i.now.c (is_marked (state_of p.now) (address_registers i.now.ea) ∷ [])
        (answering i.now (state_of p.now) (address (state_of p.now) i.now.ea))) result }
{
    let mut effect = answering(p, i, address(p, &i.ea));
    effect.marks = u16::from(address_marked(p, &i.ea));
    effect
}

/// What an instruction does that is no barrier, and that neither branches nor has a result, nor moves data.
fn plan_plain(p: &Processor, i: &Inst) -> Effect
    requires valid { IsValid i.now }
    requires result { has_result i.now.op ≡ false }
    requires branch { is_branch i.now.op ≡ false }
    requires barrier { is_barrier_name i.now.op ≡ false }
    requires still { transfer_of i.now.op ≡ None }
    ensures { IsPlanFor (state_of p.now) (access_by_name i.now.op i.now (state_of p.now))
        (action_by_name i.now.op i.now (state_of p.now)) (Ok result) }
{
    results_by_name();
    match i.op {
        Op::Lda => plan_lda(p, i),
        Op::Bx => jumping(p, i, address(p, &i.ea)),
        Op::Balx => linking(p, i.c, i, address(p, &i.ea)),
        Op::Bal => linking(p, Operand::Reg(LINK), i, target(p, i)),
        _ => passing(p, i),
    }
}

/// What an instruction comes to that is no barrier, and that neither branches nor has a result, nor moves
/// data: it is done.
#[inline(never)]
fn plain_outcome(p: &Processor, i: &Inst, effect: &mut Effect) -> Outcome
    requires valid { IsValid i.now }
    requires result { has_result i.now.op ≡ false }
    requires branch { is_branch i.now.op ≡ false }
    requires barrier { is_barrier_name i.now.op ≡ false }
    requires still { transfer_of i.now.op ≡ None }
    ensures standing { standing_in i.now result ≡ by_raised i.now (state_of p.now) None }
    ensures effect { HasEffect (state_of p.now) i.now result effect.new }
{
    results_by_name();
    *effect = plan_plain(p, i);
    Outcome::Runs
}

/// What a load or a store comes to, with its effect in the place of one that passes.
#[inline(never)]
#[tactic(auto, unfolding(i9_model::specs::Step::action_of), using(crate::proofs::ValidGroups::group_rules))]
fn transfer_outcome(p: &Processor, i: &Inst, m: Moving, effect: &mut Effect) -> Outcome
    requires valid { IsValid i.now }
    requires moves { IsMove (state_of p.now) i.now m }
    requires passes { Passes (state_of p.now) i.now effect.old }
    ensures standing { standing_in i.now result ≡ by_raised i.now (state_of p.now) (raised_in i.now (state_of p.now)) }
    ensures effect { HasEffect (state_of p.now) i.now result effect.new }
    ensures row { RunsInRow i.now result effect.new }
{
    if let Some(number) = raised_by_transfer(p, i, m) {
        return Outcome::Faults(number);
    }
    results_by_name();
    match plan_transfer(p, i, m, effect) {
        None => Outcome::Runs,
        Some(a) => Outcome::Meets(a),
    }
}

/// A result of one word goes to src/dst, where that is a register, with its mark; else nothing is done. It tells which.
#[tactic(auto, using(crate::proofs::ValidGroups::group_rules))]
fn give_word(p: &Processor, i: &Inst, v: u32, effect: &mut Effect) -> bool
    requires valid { IsValid i.now }
    requires result { has_result i.now.op ≡ true }
    requires there { destination i.now ≡ i.now.c }
    requires one { destination_words i.now.op ≡ 1 }
    requires passes { Passes (state_of p.now) i.now effect.old }
    ensures given { result ≡ true
        → IsEffect (state_of p.now) (resulting i.now (state_of p.now) (Some (word v (state_of p.now).ac))) effect.new }
    ensures passes { result ≡ false → Passes (state_of p.now) i.now effect.new }
{
    match i.c {
        Operand::Reg(r) => {
            effect.register = r;
            effect.values = one_word(v);
            effect.marks = result_marks(p, i);
            true
        }
        Operand::Lit(_) | Operand::Sfr(_) => false,
    }
}

/// The arithmetic controls change, and nothing else.
fn set_controls(p: &Processor, i: &Inst, ac: u32, effect: &mut Effect)
    requires { Passes (state_of p.now) i.now effect.old }
    ensures { IsEffect (state_of p.now) (record (passing i.now (state_of p.now)) { ac = ac }) effect.new }
{
    effect.ac = ac;
}

/// Whether an instruction with a result gives one word to a register, or the controls alone, and raises nothing, as
/// `word_by` and `controls_by` tell; then that is its effect.
// Most results are such. Few registers are saved for this code, and no `Done` is made.
#[inline(never)]
fn is_given(p: &Processor, i: &Inst, effect: &mut Effect) -> bool
    requires valid { IsValid i.now }
    requires result { has_result i.now.op ≡ true }
    requires barrier { is_barrier_name i.now.op ≡ false }
    requires still { transfer_of i.now.op ≡ None }
    requires passes { Passes (state_of p.now) i.now effect.old }
    ensures standing { result ≡ true
        → Runs i.now ≡ by_raised i.now (state_of p.now) (raised_in i.now (state_of p.now)) }
    ensures effect { result ≡ true → IsEffect (state_of p.now) (action_of i.now (state_of p.now)) effect.new }
    ensures passes { result ≡ false → Passes (state_of p.now) i.now effect.new }
{
    if mismatches(p, i) {
        return false;
    }
    let a = value(p, i.a);
    let b = value(p, i.b);
    if let Some(v) = word_by(i.op, a, b) {
        return give_word(p, i, v, effect);
    }
    if let Some(ac) = controls_by(i.op, a, b, p.ac()) {
        set_controls(p, i, ac, effect);
        return true;
    }
    false
}

/// What an instruction with a result comes to.
#[inline(never)]
fn given_outcome(p: &Processor, i: &Inst, effect: &mut Effect) -> Outcome
    requires valid { IsValid i.now }
    requires result { has_result i.now.op ≡ true }
    requires barrier { is_barrier_name i.now.op ≡ false }
    requires still { transfer_of i.now.op ≡ None }
    requires passes { Passes (state_of p.now) i.now effect.old }
    ensures standing { standing_in i.now result ≡ by_raised i.now (state_of p.now) (raised_in i.now (state_of p.now)) }
    ensures effect { HasEffect (state_of p.now) i.now result effect.new }
{
    if mismatches(p, i) {
        Outcome::Faults((TYPE, MISMATCH))
    } else {
        result_outcome(p, i, effect)
    }
}

/// What an instruction without a result comes to.
#[inline(never)]
fn other_outcome(p: &Processor, i: &Inst, effect: &mut Effect) -> Outcome
    requires valid { IsValid i.now }
    requires result { has_result i.now.op ≡ false }
    requires barrier { is_barrier_name i.now.op ≡ false }
    requires still { transfer_of i.now.op ≡ None }
    requires passes { Passes (state_of p.now) i.now effect.old }
    ensures standing { standing_in i.now result ≡ by_raised i.now (state_of p.now) (raised_in i.now (state_of p.now)) }
    ensures effect { HasEffect (state_of p.now) i.now result effect.new }
{
    if mismatches(p, i) {
        Outcome::Faults((TYPE, MISMATCH))
    } else if is_branch(i.op) {
        branch_outcome(p, i, effect)
    } else {
        plain_outcome(p, i, effect)
    }
}

/// What an instruction comes to that is read, no barrier by its name, and no load or store, where it is told whether
/// it has a result, with its effect in the place of one that passes. It raises nothing before it does anything, but for
/// a special function register that it uses outside supervisor mode.
#[inline(always)]
fn still_outcome(p: &Processor, i: &Inst, gives: bool, effect: &mut Effect) -> Outcome
    requires valid { IsValid i.now }
    requires gives { gives ≡ has_result i.now.op }
    requires barrier { is_barrier_name i.now.op ≡ false }
    requires still { transfer_of i.now.op ≡ None }
    requires passes { Passes (state_of p.now) i.now effect.old }
    ensures standing { standing_in i.now result ≡ by_raised i.now (state_of p.now) (raised_in i.now (state_of p.now)) }
    ensures effect { HasEffect (state_of p.now) i.now result effect.new }
{
    if !gives {
        return other_outcome(p, i, effect);
    }
    if is_given(p, i, effect) {
        return Outcome::Runs;
    }
    given_outcome(p, i, effect)
}

/// What an instruction comes to that is read and that is no barrier by its name, with its effect in the
/// place of one that passes: nothing is asked of memory but what it reads itself.
// The effect stays where it is, since what this calls is called by others, and is not moved piece by piece.
#[inline(always)]
pub(crate) fn outcome_open(
    p: &Processor,
    i: &Inst,
    moving: Option<Moving>,
    gives: bool,
    effect: &mut Effect,
) -> Outcome
    requires valid { IsValid i.now }
    requires gives { gives ≡ has_result i.now.op }
    requires barrier { is_barrier_name i.now.op ≡ false }
    requires moves { Moves (state_of p.now) i.now moving }
    requires passes { Passes (state_of p.now) i.now effect.old }
    ensures standing { standing_in i.now result ≡ by_word (state_of p.now) (Ok i.now) }
    ensures effect { HasEffect (state_of p.now) i.now result effect.new }
    ensures row { RunsInRow i.now result effect.new }
{
    if misuses_open(p, i, moving) {
        return Outcome::Meets(p.ip());
    }
    match moving {
        Some(m) => transfer_outcome(p, i, m, effect),
        None => still_outcome(p, i, gives, effect),
    }
}

/// What an instruction comes to that is read, with its effect in the place of one that passes.
pub(crate) fn outcome_of(
    p: &Processor,
    i: &Inst,
    moving: Option<Moving>,
    gives: bool,
    effect: &mut Effect,
) -> Outcome
    requires valid { IsValid i.now }
    requires gives { gives ≡ has_result i.now.op }
    requires drained { IsDrained p.now }
    requires moves { Moves (state_of p.now) i.now moving }
    requires passes { Passes (state_of p.now) i.now effect.old }
    ensures standing { standing_in i.now result ≡ by_word (state_of p.now) (Ok i.now) }
    ensures effect { HasEffect (state_of p.now) i.now result effect.new }
    ensures row { RunsInRow i.now result effect.new }
{
    if is_barrier(i.op) {
        barrier_outcome(p, i, effect)
    } else {
        outcome_open(p, i, moving, gives, effect)
    }
}
