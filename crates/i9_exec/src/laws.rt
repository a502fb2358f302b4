//! Laws of the definitions, as the contracts of calls that do nothing.
ghost use Rattle.std.specs.Prelude.{◌≡◌, List, ℕ, is_some};
ghost use Rattle.i9_isa.specs.declared.inst.Inst.{Inst};
ghost use Rattle.i9_model.specs.Results.{has_result, results};

/// The table has a row of exactly the names that `has_result` tells.
pub fn results_by_name()
    ensures { (i : Inst) (a b : List ℕ) (c ac : ℕ) → is_some (results i a b c ac) ≡ has_result i.op }
{}
