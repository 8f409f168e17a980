// A law has no code: its contract is the law.

ghost use Rattle.std.specs.Prelude.{ℕ, List};
ghost use Rattle.statement_set.specs.Problem.{Task};
ghost use Rattle.statement_set.specs.Goal.{IsDerivableFrom};
ghost use Rattle.proof_term.specs.Proof.{Steps, proves};

/// Where a block gives all wants from what is given, the goal is derivable.
pub fn proof_derives()
    ensures { (p : Task) (G : List ℕ) (b : Steps) → proves p G b p.wants → IsDerivableFrom p G }
{}
