// A law has no code: its contract is the law.

ghost use Rattle.std.specs.Prelude.{◌≡◌, ◌↔◌, ℕ, List, Some, slice_get};
ghost use Rattle.statement_set.specs.Formula.{Formula};
ghost use Rattle.statement_set.specs.Forcing.{World, forces};
ghost use Rattle.kripke_check.specs.ForcingByPlace.{forces_at};

/// The world at a place forces what the place forces: forcing depends on a world's members alone.
pub fn worlds_force_by_place()
    ensures { (L : List World) (i : ℕ) (w : World) (A : Formula) → slice_get L i ≡ Some w → forces_at L i A ↔ forces L w A }
{}
