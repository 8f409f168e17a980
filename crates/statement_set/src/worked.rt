// Worked instances: each definition on a small problem. They have no code.

ghost use Rattle.std.specs.Prelude.{◌≡◌, [], ◌∷◌, slice_get, map};
ghost use Rattle.statement_set.specs.Formula.{atom, imp, and, statement_formula};
ghost use Rattle.statement_set.specs.Derivation.{derives};
ghost use Rattle.statement_set.specs.Goal.{hypotheses, IsDerivable};
ghost use Rattle.statement_set.specs.Countermodel.{IsCountermodel};
ghost use Rattle.statement_set.specs.Worked.{squares_sum, squares_tree, two_outputs, peirce};

/// A statement with a subtask: the program from x to y, then n, give t.
pub fn squares_sum_formula()
    ensures { slice_get (map statement_formula squares_sum.statements) 1
        ≡ Some (imp (imp (atom 0) (atom 1)) (imp (atom 2) (atom 3))) }
{}

/// A subtask with two outputs: the program from x to y and z, then n, give t.
pub fn two_outputs_formula()
    ensures { slice_get (map statement_formula two_outputs.statements) 3
        ≡ Some (imp (imp (atom 0) (and (atom 1) (atom 2))) (imp (atom 3) (atom 4))) }
{}

/// A derivation of t, and so of the goal.
pub fn squares_sum_derived()
    ensures tree { derives squares_tree (hypotheses squares_sum) (atom 3) }
    ensures goal { IsDerivable squares_sum }
{}

/// The world of p, and then the world of nothing, refute p.
pub fn peirce_refuted()
    ensures worlds { IsCountermodel peirce ((0 ∷ []) ∷ [] ∷ []) }
    ensures goal { ¬ IsDerivable peirce }
{}

/// The world of nothing alone does not force the statement, since nothing above it has p without q.
pub fn last_world_needs_the_first()
    ensures { ¬ IsCountermodel peirce ([] ∷ []) }
{}
