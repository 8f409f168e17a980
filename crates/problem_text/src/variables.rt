#![tactic(auto, using(priz_base::proofs::Kept::kept))]

ghost use Rattle.std.specs.Prelude.{◌<◌, ◌++◌, decimal};
ghost use Rattle.priz_base.specs.Printing.{Prints};
ghost use Rattle.statement_set.specs.Problem.{var_count, AreVars};
ghost use Rattle.problem_text.specs.VariableNames.{variable_name, vars_text};

use itoa::Buffer;
use priz_base::{NoMem, Var};
use statement_set::Problem;
use utopist_syntax::print_if;

/// Appends the names of variables, joined by commas.
pub(crate) fn print_vars(problem: &Problem, vars: &[Var], out: &mut Vec<u8>) -> Result<(), NoMem>
    requires { AreVars (var_count problem.now) vars.now }
    ensures { Prints (vars_text problem.now vars.now) result out.old.items out.new.items }
{
    let mut first = true;
    for var in vars {
        print_if(!first, b", ", out)?;
        print_name(problem, *var, out)?;
        first = false;
    }
    Ok(())
}

/// Appends the name of a variable.
pub(crate) fn print_name(problem: &Problem, var: Var, out: &mut Vec<u8>) -> Result<(), NoMem>
    requires { var < var_count problem.now }
    ensures { Prints (variable_name problem.now var) result out.old.items out.new.items }
{
    out.extend_from_slice(problem.name(var).as_bytes())?;
    Ok(())
}

/// Appends a count in decimal, and what stands behind it.
pub(crate) fn print_counted(n: u64, behind: &[u8], out: &mut Vec<u8>) -> Result<(), NoMem>
    ensures { Prints (decimal n ++ behind.now) result out.old.items out.new.items }
{
    print_count(n, out)?;
    out.extend_from_slice(behind)?;
    Ok(())
}

/// Appends a count in decimal.
pub(crate) fn print_count(n: u64, out: &mut Vec<u8>) -> Result<(), NoMem>
    ensures { Prints (decimal n) result out.old.items out.new.items }
{
    out.extend_from_slice(Buffer::new().format(n).as_bytes())?;
    Ok(())
}
