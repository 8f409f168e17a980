#![tactic(auto, using(priz_base::proofs::Kept::kept))]

ghost use Rattle.std.specs.Prelude.{◌<◌};
ghost use Rattle.std.specs.List.{flat_map};
ghost use Rattle.priz_base.specs.Printing.{Prints};
ghost use Rattle.statement_set.specs.Problem.{var_count};
ghost use Rattle.problem_text.specs.StatementText.{statement_line};
ghost use Rattle.problem_text.specs.ProblemText.{numbered_lines, counts_line, var_line, given_line, find_line, problem_text};

use crate::statement::print_statement;
use crate::variables::{print_counted, print_name, print_vars};
use priz_base::{NoMem, Var};
use statement_set::{Given, Problem};
use utopist_syntax::print_value;

/// Appends the problem of a compute statement of this number, which counts from 1. No memory is
/// taken but what `out` grows by.
pub fn print_problem(problem: &Problem, index: u32, out: &mut Vec<u8>) -> Result<(), NoMem>
    ensures { Prints (problem_text problem.now index) result out.old.items out.new.items }
{
    print_counts(problem, index, out)?;
    print_names(problem, out)?;
    print_statements(problem, out)?;
    print_givens(problem, out)?;
    print_find(problem, out)?;
    Ok(())
}

fn print_counts(problem: &Problem, index: u32, out: &mut Vec<u8>) -> Result<(), NoMem>
    ensures { Prints (counts_line problem.now index) result out.old.items out.new.items }
{
    out.extend_from_slice(b"compute ")?;
    print_counted(u64::from(index), b": ", out)?;
    print_counted(u64::from(problem.vars()), b" variables, ", out)?;
    print_counted(u64::from(problem.statements()), b" statements\n", out)?;
    Ok(())
}

fn print_names(problem: &Problem, out: &mut Vec<u8>) -> Result<(), NoMem>
    ensures { Prints (numbered_lines var_line 0 problem.now.names) result
        out.old.items out.new.items }
{
    for var in 0..problem.vars() {
        print_var(var, problem.name(Var(var)), out)?;
    }
    Ok(())
}

fn print_var(number: u32, name: &str, out: &mut Vec<u8>) -> Result<(), NoMem>
    ensures { Prints (var_line number name.now) result out.old.items out.new.items }
{
    out.extend_from_slice(b"var ")?;
    print_counted(u64::from(number), b" ", out)?;
    out.extend_from_slice(name.as_bytes())?;
    out.push(b'\n')?;
    Ok(())
}

fn print_statements(problem: &Problem, out: &mut Vec<u8>) -> Result<(), NoMem>
    ensures { Prints (numbered_lines (statement_line problem.now) 0 problem.now.statements) result
        out.old.items out.new.items }
{
    for number in 0..problem.statements() {
        print_statement(problem, number, problem.statement(number), out)?;
    }
    Ok(())
}

fn print_givens(problem: &Problem, out: &mut Vec<u8>) -> Result<(), NoMem>
    ensures { Prints (flat_map (given_line problem.now) problem.now.givens) result
        out.old.items out.new.items }
{
    for given in problem.givens() {
        print_given(problem, *given, out)?;
    }
    Ok(())
}

fn print_given(problem: &Problem, given: Given, out: &mut Vec<u8>) -> Result<(), NoMem>
    requires { given.var < var_count problem.now }
    ensures { Prints (given_line problem.now given) result out.old.items out.new.items }
{
    out.extend_from_slice(b"given ")?;
    print_name(problem, given.var, out)?;
    print_value(given.value, out)?;
    out.push(b'\n')?;
    Ok(())
}

fn print_find(problem: &Problem, out: &mut Vec<u8>) -> Result<(), NoMem>
    ensures { Prints (find_line problem.now) result out.old.items out.new.items }
{
    out.extend_from_slice(b"find ")?;
    print_vars(problem, problem.wants(), out)?;
    out.push(b'\n')?;
    Ok(())
}
