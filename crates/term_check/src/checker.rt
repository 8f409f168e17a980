ghost use Rattle.std.specs.Prelude.{◌↔◌, ◌≤◌, IsTrue};
ghost use Rattle.statement_set.specs.Goal.{IsDerivable};
ghost use Rattle.proof_term.specs.Proof.{ProvesGoal};
ghost use Rattle.term_check.specs.Separate.{IsSeparate};

use crate::proof::gives;
use crate::scope::givens_of;
use crate::separation::is_separate;
use priz_base::{NoMem, VarSet};
use proof_term::Block;
use statement_set::Problem;
use std::alloc::Global;

/// Checks blocks, one after another.
#[derive(Debug, Drop)]
pub struct TermChecker {
    givens: VarSet,
}

impl TermChecker {
    /// For problems of at most n variables. A set has room for those of any problem, so that no memory is taken.
    pub fn new(_alloc: Global, _n: u32) -> Result<TermChecker, NoMem>
        requires { _n ≤ 1024 }
    {
        Ok(TermChecker {
            givens: VarSet::new(),
        })
    }

    /// Whether the block proves the problem's goal. Takes no memory.
    pub fn check(&mut self, p: &Problem, b: &Block) -> bool
        ensures exact { IsTrue result ↔ ProvesGoal p.now b.now }
        ensures sound { IsTrue result → IsDerivable p.now }
    {
        self.givens = givens_of(p);
        gives(p, &self.givens, b, p.wants())
    }

    /// Whether the inputs of each subtask are new at its step; it says so of no block whose steps don't fit the
    /// problem's statements. Takes no memory.
    pub fn separate(&mut self, p: &Problem, b: &Block) -> bool
        ensures { IsTrue result ↔ IsSeparate p.now b.now }
    {
        self.givens = givens_of(p);
        is_separate(p, &self.givens, b)
    }
}
