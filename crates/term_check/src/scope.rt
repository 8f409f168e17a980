// Scopes: the sets of the variables that are known.

ghost use Rattle.std.specs.Prelude.{◌↔◌, ◌<◌, All, IsTrue, []};
ghost use Rattle.priz_base.specs.Sets.{IsWithin};
ghost use Rattle.statement_set.specs.Problem.{given_vars};
ghost use Rattle.term_check.specs.Separate.{AreNew};
ghost use Rattle.term_check.specs.steps.Adding.{AddsAll};

use priz_base::{Var, VarSet};
use statement_set::Problem;

/// The set of what is given.
pub fn givens_of(p: &Problem) -> VarSet
    ensures { AddsAll [] result (given_vars p.now) }
{
    let mut givens = VarSet::new();
    for g in p.givens() {
        givens.add(g.var);
    }
    givens
}

/// The scope with more variables in it.
pub fn with_all(scope: &VarSet, vars: &[Var]) -> VarSet
    requires { All (λ v. v < 1024) vars.now }
    ensures { AddsAll scope.now result vars.now }
{
    let mut inner = scope.copy();
    for v in vars {
        inner.add(*v);
    }
    inner
}

/// Whether all of the variables are in scope.
pub fn has_all(scope: &VarSet, vars: &[Var]) -> bool
    ensures { IsTrue result ↔ IsWithin vars.now scope.now }
{
    vars.iter().all(|v| scope.has(*v))
}

/// Whether none of the variables is in scope.
pub fn are_new(vars: &[Var], scope: &VarSet) -> bool
    ensures { IsTrue result ↔ AreNew vars.now scope.now }
{
    vars.iter().all(|v| !scope.has(*v))
}
