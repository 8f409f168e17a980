ghost use Rattle.std.specs.Prelude.{◌≡◌, [], map, OnOk};
ghost use Rattle.concept_rules.specs.Checks.{Checks};
ghost use Rattle.concept_rules.specs.Paths.{given_paths};
ghost use Rattle.concept_unfold.specs.Paths.{given_names};
ghost use Rattle.concept_unfold.specs.UnfoldingRules.{once_fault};
ghost use Rattle.concept_unfold.specs.Unfolded.{var_number, given_of, AreKnown};

use crate::numbers::var_of;
use concept_rules::{Rule, UnfoldFault, broken_on};
use priz_base::{NoMem, VarSet};
use statement_set::{Given, Problem};
use utopist_syntax::{Compute, GivenPath, Path};

/// Adds what the compute statement gives and wants.
pub(crate) fn add_goal(problem: &mut Problem, compute: &Compute) -> Result<(), UnfoldFault>
    requires no_givens { problem.old.givens ≡ [] }
    requires no_wants { problem.old.wants ≡ [] }
    requires givens { AreKnown problem.old.names (given_paths compute.now.givens) }
    requires wants { AreKnown problem.old.names compute.now.wants }
    ensures once { Checks (once_fault [] (given_names compute.now.givens)) result }
    ensures added { OnOk result (problem.new ≡ record problem.old {
      givens = map (given_of problem.old.names) compute.now.givens;
      wants = map (var_number problem.old.names) compute.now.wants;
    }) }
{
    add_givens(problem, compute.givens.as_slice())?;
    add_wants(problem, compute.wants.as_slice())?;
    Ok(())
}

fn add_givens(problem: &mut Problem, givens: &[GivenPath]) -> Result<(), UnfoldFault>
    requires none { problem.old.givens ≡ [] }
    requires known { AreKnown problem.old.names (given_paths givens.now) }
    ensures once { Checks (once_fault [] (given_names givens.now)) result }
    ensures added { OnOk result (problem.new
        ≡ record problem.old { givens = map (given_of problem.old.names) givens.now }) }
{
    let mut seen = VarSet::new();
    for given in givens {
        let var = var_of(problem, &given.path);
        if seen.has(var) {
            let fault = broken_on(given.path.parts.as_slice(), Rule::DuplicateInput);
            return Err(UnfoldFault::Model(fault));
        }
        problem.add_given(Given {
            var,
            value: given.value,
        })?;
        seen.add(var);
    }
    Ok(())
}

fn add_wants(problem: &mut Problem, paths: &[Path]) -> Result<(), NoMem>
    requires none { problem.old.wants ≡ [] }
    requires known { AreKnown problem.old.names paths.now }
    ensures { OnOk result (problem.new
        ≡ record problem.old { wants = map (var_number problem.old.names) paths.now }) }
{
    for path in paths {
        problem.add_want(var_of(problem, path))?;
    }
    Ok(())
}
