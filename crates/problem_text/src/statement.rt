#![tactic(auto, using(priz_base::proofs::Kept::kept))]

ghost use Rattle.std.specs.Prelude.{◌++◌, All, map, codes};
ghost use Rattle.std.specs.Option.{option_map};
ghost use Rattle.std.specs.List.{join_by};
ghost use Rattle.priz_base.specs.Printing.{Prints};
ghost use Rattle.body_lang.specs.View.{body_tree};
ghost use Rattle.statement_set.specs.Problem.{var_count, AreVars, IsSubtaskOver, IsStatementOver};
ghost use Rattle.problem_text.specs.VariableNames.{variable_name};
ghost use Rattle.problem_text.specs.BodyText.{body_in_braces};
ghost use Rattle.problem_text.specs.StatementText.{subtask_text, spaced_list, statement_line};
ghost use Rattle.problem_text.specs.steps.Made.{made_text};

use crate::body::print_at;
use crate::scope::Scope;
use crate::variables::{print_counted, print_name, print_vars};
use body_lang::Body;
use priz_base::{NoMem, Var};
use statement_set::{Problem, Statement, Subtask};
use utopist_syntax::{Position, print_if};

/// Appends the line of a statement of this number.
pub(crate) fn print_statement(
    problem: &Problem,
    number: u32,
    statement: &Statement,
    out: &mut Vec<u8>,
) -> Result<(), NoMem>
    requires { IsStatementOver (var_count problem.now) statement.now }
    ensures { Prints (statement_line problem.now number statement.now) result
        out.old.items out.new.items }
{
    out.extend_from_slice(b"stmt ")?;
    print_counted(u64::from(number), b" ", out)?;
    print_taken(
        problem,
        statement.subs.as_slice(),
        statement.inputs.as_slice(),
        out,
    )?;
    print_made(problem, statement, out)?;
    Ok(())
}

// What a statement takes, and a space, or nothing where it takes nothing.
fn print_taken(
    problem: &Problem,
    subtasks: &[Subtask],
    inputs: &[Var],
    out: &mut Vec<u8>,
) -> Result<(), NoMem>
    requires subtasks { All (IsSubtaskOver (var_count problem.now)) subtasks.now }
    requires inputs { AreVars (var_count problem.now) inputs.now }
    ensures { Prints (spaced_list (map (subtask_text problem.now) subtasks.now
        ++ map (variable_name problem.now) inputs.now)) result out.old.items out.new.items }
{
    print_subtasks(problem, subtasks, out)?;
    if inputs.is_empty() {
        return print_if(!subtasks.is_empty(), b" ", out);
    }
    print_if(!subtasks.is_empty(), b", ", out)?;
    print_vars(problem, inputs, out)?;
    out.push(b' ')?;
    Ok(())
}

// The output of a statement, and its body.
fn print_made(problem: &Problem, statement: &Statement, out: &mut Vec<u8>) -> Result<(), NoMem>
    requires { IsStatementOver (var_count problem.now) statement.now }
    ensures { Prints (made_text problem.now statement.now) result out.old.items out.new.items }
{
    out.extend_from_slice(b"-> ")?;
    print_name(problem, statement.output, out)?;
    print_body(problem, statement.inputs.as_slice(), &statement.body, out)?;
    out.push(b'\n')?;
    Ok(())
}

fn print_subtasks(problem: &Problem, subtasks: &[Subtask], out: &mut Vec<u8>) -> Result<(), NoMem>
    requires { All (IsSubtaskOver (var_count problem.now)) subtasks.now }
    ensures { Prints (join_by (subtask_text problem.now) (codes ", ") subtasks.now) result
        out.old.items out.new.items }
{
    let mut first = true;
    for subtask in subtasks {
        print_if(!first, b", ", out)?;
        print_subtask(problem, subtask, out)?;
        first = false;
    }
    Ok(())
}

fn print_subtask(problem: &Problem, subtask: &Subtask, out: &mut Vec<u8>) -> Result<(), NoMem>
    requires { IsSubtaskOver (var_count problem.now) subtask.now }
    ensures { Prints (subtask_text problem.now subtask.now) result out.old.items out.new.items }
{
    out.push(b'[')?;
    print_vars(problem, subtask.inputs.as_slice(), out)?;
    out.extend_from_slice(b" -> ")?;
    print_vars(problem, subtask.outputs.as_slice(), out)?;
    out.push(b']')?;
    Ok(())
}

fn print_body(
    problem: &Problem,
    inputs: &[Var],
    body: &Option<Body>,
    out: &mut Vec<u8>,
) -> Result<(), NoMem>
    requires { AreVars (var_count problem.now) inputs.now }
    ensures { Prints (body_in_braces (map (variable_name problem.now) inputs.now)
        (option_map body_tree body.now)) result out.old.items out.new.items }
{
    let Some(body) = body else {
        return Ok(());
    };
    let scope = Scope {
        problem,
        inputs,
        rounds: 0,
    };
    out.extend_from_slice(b" { ")?;
    print_at(&scope, Position::Alone, body, out)?;
    out.extend_from_slice(b" }")?;
    Ok(())
}
