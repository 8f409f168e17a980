// A law has no code: its contract is the law.

ghost use Rattle.std.specs.Prelude.{ℕ, All, Contains, List, [], ◌∷◌};
ghost use Rattle.priz_base.specs.Sets.{IsWithin};
ghost use Rattle.statement_set.specs.Problem.{Task};
ghost use Rattle.statement_set.specs.Formula.{Formula};
ghost use Rattle.statement_set.specs.Derivation.{Derivation, derives};
ghost use Rattle.statement_set.specs.Goal.{IsDerivableFrom};
ghost use Rattle.statement_set.specs.Forcing.{World, forces};
ghost use Rattle.statement_set.specs.Countermodel.{IsCountermodelFrom, RefutesAlone};

/// What a world forces, each world above it forces.
pub fn forcing_is_kept()
    ensures { (L : List World) (w u : World) (A : Formula) → IsWithin w u → forces L w A → forces L u A }
{}

/// A tree derives only what is forced wherever its hypotheses are.
pub fn rules_keep_forcing()
    ensures { (L : List World) (w : World) (t : Derivation) (H : List Formula) (A : Formula) → Contains L w → All (forces L w) H → derives t H A → forces L w A }
{}

/// Where there is a countermodel, the goal is not derivable.
pub fn countermodel_refutes()
    ensures { (p : Task) (G : List ℕ) (L : List World) → IsCountermodelFrom p G L → ¬ IsDerivableFrom p G }
{}

/// A set that holds the givens, lacks a want and is closed under the statements is a countermodel by itself.
pub fn closed_set_refutes()
    ensures { (p : Task) (G : List ℕ) (w : World) → RefutesAlone p G w → IsCountermodelFrom p G (w ∷ []) }
{}
