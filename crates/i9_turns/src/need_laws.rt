//! Laws of needs, as the contracts of calls that do nothing.

ghost use Rattle.std.specs.Prelude.{◌≡◌, ◌<◌, [], ℕ, Bool, false};
ghost use Rattle.std.specs.Int.{bit_at};
ghost use Rattle.i9_isa.specs.declared.inst.Inst.{Inst};
ghost use Rattle.i9_model.specs.declared.faults.Entry.{Entry};
ghost use Rattle.i9_model.specs.declared.need.Facts.{Facts};
ghost use Rattle.i9_model.specs.State.{State};
ghost use Rattle.i9_model.specs.Step.{Stays, action_of, faulting, entering, acted};
ghost use Rattle.i9_model.specs.Traced.{traced_action};
ghost use Rattle.i9_model.specs.Turns.{HasCost};
ghost use Rattle.i9_model.specs.Late.{resource, resources};
ghost use Rattle.i9_model.specs.Needs.{inst_need, refused_need, event_need, entry_need, is_request_name};
ghost use Rattle.i9_model.specs.Needs.{is_barrier_name};

/// Each need takes a turn at least, and just one where it is no request, not slow and no barrier.
#[tactic(auto, using(crate::proofs::NeedLaws::inst_cost, crate::proofs::NeedLaws::refused_cost, crate::proofs::NeedLaws::event_cost, crate::proofs::NeedLaws::entry_cost,))]
pub fn needs_have_costs()
    ensures instruction { (i : Inst) (f : Facts) → HasCost (inst_need i f) }
    ensures refused { (ip : ℕ) → HasCost (refused_need ip) }
    ensures event { (moves : Bool) (turn : ℕ) → HasCost (event_need moves turn) }
    ensures entry { (frames : ℕ) → HasCost (entry_need frames) }
{}

/// What is neither a request nor a barrier stores nothing and moves no frame.
#[tactic(auto, using(crate::proofs::NeedLaws::quiet))]
pub fn others_write_no_memory()
    ensures { (i : Inst) (s : State) → is_request_name i.op ≡ false → is_barrier_name i.op ≡ false
        → ((action_of i s).writes ≡ []) × ((action_of i s).move ≡ Stays) }
{}

/// An action changes no register and no condition code that its need does not write: that of an
/// instruction, of one that faults, and of an entry.
pub fn actions_keep_to_their_needs()
    ensures instruction { (f : Facts) (i : Inst) (s : State) (r : ℕ) → r < resources
        → bit_at (inst_need i f).writes r ≡ 0 → resource (acted s (traced_action i s)) r ≡ resource s r }
    ensures fault { (words : ℕ) (s : State) (r : ℕ) → resource (acted s (faulting words s)) r ≡ resource s r }
    ensures entry { (frames : ℕ) (e : Entry) (s : State) (r : ℕ) → r < resources
        → bit_at (entry_need frames).writes r ≡ 0 → resource (acted s (entering e s)) r ≡ resource s r }
{}
