ghost use Rattle.std.specs.Prelude.{◌≡◌, ◌<◌, ◌++◌, map, IfOk, OnOk};
ghost use Rattle.statement_set.specs.Problem.{var_count, AreVars};
ghost use Rattle.concept_unfold.specs.Paths.{input_in, inputs_of, IsOneOf};
ghost use Rattle.concept_unfold.specs.Unfolded.{var_number, AreKnown};

use priz_base::{NoMem, Var};
use sqlite_items::Items;
use statement_set::Problem;
use std::alloc::Global;
use utopist_syntax::{Part, Path};

/// The variable of that path.
pub(crate) fn var_of(problem: &Problem, path: &Path) -> Var
    requires { IsOneOf problem.now.names path.now }
    ensures number { result ≡ var_number problem.now.names path.now }
    ensures below { result < var_count problem.now }
    ensures few { result < 1024 }
{
    problem.find(path.parts.as_slice()[0].text()).unwrap()
}

/// The variables of the plain inputs among these parts.
pub(crate) fn input_vars(
    alloc: Global,
    problem: &Problem,
    parts: &[Part],
) -> Result<Items<Var>, NoMem>
    requires { AreKnown problem.now.names (inputs_of parts.now) }
    ensures numbers { IfOk result (λ vs. vs
        ≡ map (var_number problem.now.names) (inputs_of parts.now)) }
    ensures below { IfOk result (AreVars (var_count problem.now)) }
{
    let mut vars = Items::new(alloc);
    for part in parts {
        add_input(&mut vars, problem, part)?;
    }
    Ok(vars)
}

fn add_input(vars: &mut Items<Var>, problem: &Problem, part: &Part) -> Result<(), NoMem>
    requires { AreKnown problem.now.names (input_in part.now) }
    ensures { OnOk result (vars.new
        ≡ vars.old ++ map (var_number problem.now.names) (input_in part.now)) }
{
    if let Part::Input(path) = part {
        vars.push(var_of(problem, path))?;
    }
    Ok(())
}
