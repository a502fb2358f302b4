//! What cells show as the turn moves on, and when values are planned over others.

ghost use Rattle.std.specs.Prelude.{◌≡◌, ℕ, ◌<◌, ◌≤◌, None};
ghost use Rattle.std.specs.Int.{IsBitSet};
ghost use Rattle.i9_model.specs.declared.need.Cell.{Cell};
ghost use Rattle.i9_model.specs.Late.{landed, is_plan_open, issued_cell};
ghost use Rattle.i9_regs.specs.File.{issued_over};

/// What shows at a later turn is what shows now, landed by then; a resource is busy by either; and where nothing is
/// planned any more for what a record writes, which is done later, then what shows keeps its value, and what the record
/// leaves is planned for it.
pub fn cells_land_by_themselves()
    ensures later { (t u : ℕ) (c : Cell) → t ≤ u → landed u (landed t c) ≡ landed u c }
    ensures busy { (t : ℕ) (c : Cell) → is_plan_open t (landed t c).plan ≡ is_plan_open t c.plan }
    ensures issued { (t writes done r v : ℕ) (c : Cell) → t < done → (IsBitSet writes r → (landed t c).plan ≡ None)
        → landed t (issued_over writes done r v c) ≡ issued_cell writes done r v (landed t c) }
{}
