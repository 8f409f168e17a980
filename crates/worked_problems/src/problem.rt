ghost use Rattle.std.specs.Prelude.{◌≡◌, [], IfOk, IfErr, OnOk};
ghost use Rattle.statement_set.specs.Problem.{empty_task};
ghost use Rattle.worked_problems.specs.Rows.{row_task};
ghost use Rattle.worked_problems.specs.Faults.{IsFaultOf};

use crate::statement::{
    are_distinct, are_vars, build_statement, has_few_subtasks, is_statement_over,
};
use crate::{BuildFault, ProblemRow};
use priz_base::Var;
use statement_set::{Given, Problem};
use std::alloc::Global;

const MAX_NAMES: usize = 1024;

const MAX_STATEMENTS: usize = 4096;

/// The problem of these rows, or why there is none.
pub fn build_problem(alloc: Global, row: &ProblemRow<'_>) -> Result<Problem, BuildFault>
    ensures ok { IfOk result (λ p. p ≡ row_task row.now) }
    ensures fault { IfErr result (λ e. IsFaultOf e (row_task row.now)) }
{
    let mut problem = Problem::new(alloc);
    add_names(&mut problem, row)?;
    add_statements(alloc, &mut problem, row)?;
    add_givens(&mut problem, row)?;
    add_wants(&mut problem, row)?;
    Ok(problem)
}

fn add_names(problem: &mut Problem, row: &ProblemRow<'_>) -> Result<(), BuildFault>
    requires { problem.old ≡ empty_task }
    ensures ok { OnOk result
        (problem.new ≡ record empty_task { names = (row_task row.now).names }) }
    ensures fault { IfErr result (λ e. IsFaultOf e (row_task row.now)) }
{
    if row.names.len() > MAX_NAMES {
        return Err(BuildFault::TooManyNames);
    }
    for name in row.names {
        if problem.find(name).is_some() {
            return Err(BuildFault::NameTwice);
        }
        problem.add_var(name)?;
    }
    Ok(())
}

fn add_statements(
    alloc: Global,
    problem: &mut Problem,
    row: &ProblemRow<'_>,
) -> Result<(), BuildFault>
    requires names { problem.old.names ≡ (row_task row.now).names }
    requires none { problem.old.statements ≡ [] }
    ensures ok { OnOk result
        (problem.new ≡ record problem.old { statements = (row_task row.now).statements }) }
    ensures fault { IfErr result (λ e. IsFaultOf e (row_task row.now)) }
{
    if row.statements.len() > MAX_STATEMENTS {
        return Err(BuildFault::TooManyStatements);
    }
    if !has_few_subtasks(row.statements) {
        return Err(BuildFault::TooManySubtasks);
    }
    for statement in row.statements {
        if !is_statement_over(problem.vars(), statement) {
            return Err(BuildFault::BadStatement);
        }
        problem.add_statement(build_statement(alloc, statement)?)?;
    }
    Ok(())
}

fn add_givens(problem: &mut Problem, row: &ProblemRow<'_>) -> Result<(), BuildFault>
    requires names { problem.old.names ≡ (row_task row.now).names }
    requires none { problem.old.givens ≡ [] }
    ensures ok { OnOk result
        (problem.new ≡ record problem.old { givens = (row_task row.now).givens }) }
    ensures fault { IfErr result (λ e. IsFaultOf e (row_task row.now)) }
{
    if !are_vars(problem.vars(), row.givens) {
        return Err(BuildFault::UnknownGiven);
    }
    if !are_distinct(row.givens) {
        return Err(BuildFault::GivenTwice);
    }
    for given in row.givens {
        problem.add_given(Given {
            var: Var(*given),
            value: None,
        })?;
    }
    Ok(())
}

fn add_wants(problem: &mut Problem, row: &ProblemRow<'_>) -> Result<(), BuildFault>
    requires names { problem.old.names ≡ (row_task row.now).names }
    requires none { problem.old.wants ≡ [] }
    ensures ok { OnOk result
        (problem.new ≡ record problem.old { wants = (row_task row.now).wants }) }
    ensures fault { IfErr result (λ e. IsFaultOf e (row_task row.now)) }
{
    if !are_vars(problem.vars(), row.wants) {
        return Err(BuildFault::UnknownWant);
    }
    for want in row.wants {
        problem.add_want(Var(*want))?;
    }
    Ok(())
}
