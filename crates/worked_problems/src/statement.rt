//! Statements and subtasks, each from its row.
ghost use Rattle.std.specs.Prelude.{◌≡◌, ◌≢◌, ◌≤◌, ◌↔◌, [], map, All, IsTrue, IfOk};
ghost use Rattle.statement_set.specs.Problem.{AreVars, IsStatementOver, IsSubtaskOver};
ghost use Rattle.worked_problems.specs.Rows.{row_subtask, row_statement, subtask_total};
ghost use Rattle.worked_problems.specs.Faults.{AreDistinct};

use crate::{StatementRow, SubtaskRow};
use priz_base::{NoMem, Var};
use sqlite_items::Items;
use statement_set::{Statement, Subtask};
use std::alloc::Global;

const MAX_SUBTASKS: usize = 255;

/// The statement of the row.
pub(crate) fn build_statement(alloc: Global, row: &StatementRow<'_>) -> Result<Statement, NoMem>
    ensures { IfOk result (λ s. s ≡ row_statement row.now) }
{
    Ok(Statement {
        inputs: vars_of(alloc, row.inputs)?,
        subs: build_subtasks(alloc, row.subs)?,
        output: Var(row.output),
        body: None,
    })
}

fn build_subtasks(alloc: Global, rows: &[SubtaskRow<'_>]) -> Result<Items<Subtask>, NoMem>
    ensures { IfOk result (λ subs. subs ≡ map row_subtask rows.now) }
{
    let mut subs = Items::new(alloc);
    for row in rows {
        subs.push(build_subtask(alloc, row)?)?;
    }
    Ok(subs)
}

fn build_subtask(alloc: Global, row: &SubtaskRow<'_>) -> Result<Subtask, NoMem>
    ensures { IfOk result (λ u. u ≡ row_subtask row.now) }
{
    Ok(Subtask {
        inputs: vars_of(alloc, row.inputs)?,
        outputs: vars_of(alloc, row.outputs)?,
    })
}

fn vars_of(alloc: Global, numbers: &[u32]) -> Result<Items<Var>, NoMem>
    ensures { IfOk result (λ vars. vars ≡ numbers.now) }
{
    let mut vars = Items::new(alloc);
    for number in numbers {
        vars.push(Var(*number))?;
    }
    Ok(vars)
}

/// Whether the statements have no more subtasks together than a problem may have.
pub(crate) fn has_few_subtasks(rows: &[StatementRow<'_>]) -> bool
    ensures { IsTrue result ↔ (subtask_total rows.now ≤ 255) }
{
    let mut left = MAX_SUBTASKS;
    for row in rows {
        if row.subs.len() > left {
            return false;
        }
        left -= row.subs.len();
    }
    true
}

/// Whether the row is a statement over so many variables.
pub(crate) fn is_statement_over(vars: u32, row: &StatementRow<'_>) -> bool
    ensures { IsTrue result ↔ IsStatementOver vars (row_statement row.now) }
{
    are_vars(vars, row.inputs) && row.output < vars && are_subtasks_over(vars, row.subs)
}

fn are_subtasks_over(vars: u32, rows: &[SubtaskRow<'_>]) -> bool
    ensures { IsTrue result ↔ All (IsSubtaskOver vars) (map row_subtask rows.now) }
{
    for row in rows {
        if !is_subtask_over(vars, row) {
            return false;
        }
    }
    true
}

fn is_subtask_over(vars: u32, row: &SubtaskRow<'_>) -> bool
    ensures { IsTrue result ↔ IsSubtaskOver vars (row_subtask row.now) }
{
    are_some_vars(vars, row.inputs) && are_distinct(row.inputs) && are_some_vars(vars, row.outputs)
}

fn are_some_vars(vars: u32, numbers: &[u32]) -> bool
    ensures { IsTrue result ↔ (AreVars vars numbers.now × (numbers.now ≢ [])) }
{
    !numbers.is_empty() && are_vars(vars, numbers)
}

/// Whether each number is one of so many variables.
pub(crate) fn are_vars(vars: u32, numbers: &[u32]) -> bool
    ensures { IsTrue result ↔ AreVars vars numbers.now }
{
    numbers.iter().all(|v| *v < vars)
}

/// Whether no number stands twice.
pub(crate) fn are_distinct(numbers: &[u32]) -> bool
    ensures { IsTrue result ↔ AreDistinct numbers.now }
{
    for (i, v) in numbers.iter().enumerate() {
        if numbers[..i].contains(v) {
            return false;
        }
    }
    true
}
