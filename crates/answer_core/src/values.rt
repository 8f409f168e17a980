ghost use Rattle.std.specs.Prelude.{◌≡◌, IfOk, None};
ghost use Rattle.std.specs.Vec.{vec_items};
ghost use Rattle.proof_term.specs.Proof.{ProvesGoal};
ghost use Rattle.statement_set.specs.Problem.{IsPlain};
ghost use Rattle.answer_core.specs.Values.{AreNumbers, first_without_number, IsValues};
ghost use Rattle.proof_term.specs.Bodies.{first_without_body};

use crate::Effort;
use body_lang::RunFault;
use priz_base::{NoMem, Var};
use priz_frac::Frac;
use proof_term::{Block, RunStop, run_block};
use sqlite_items::Items;
use statement_set::Problem;
use std::alloc::{AllocError, Global};

/// What a program computes for the wants.
#[derive(Debug, Drop)]
pub enum Values {
    /// The values of the wants, in order.
    All(Items<Frac>),
    /// The first fault, and the statement whose step or body it ends.
    Fault { stmt: u32, kind: RunFault },
    /// Of what is given, this is the first that has no number.
    NoNumber(Var),
    /// Of the steps, in the order of the certificate, that of this statement is the first without a body.
    NoBody(u32),
}

/// Runs a program where everything that is given has a number and every step a body.
pub(crate) fn values_of(
    alloc: Global,
    problem: &Problem,
    block: &Block,
    effort: &Effort,
) -> Result<Values, NoMem>
    requires plain { IsPlain problem.now }
    requires proof { ProvesGoal problem.now block.now }
    ensures { IfOk result (IsValues problem.now block.now effort.now.turns) }
{
    if let Some(var) = first_without_number(problem) {
        return Ok(Values::NoNumber(var));
    }
    if let Some(stmt) = first_without_body(problem, block) {
        return Ok(Values::NoBody(stmt));
    }
    let numbers = numbers_of(alloc, problem)?;
    match run_block(alloc, problem, block, numbers.as_slice(), effort.turns) {
        Ok(values) => Ok(Values::All(Items::from_vec(values))),
        Err(RunStop::Fault { stmt, kind }) => Ok(Values::Fault { stmt, kind }),
        Err(RunStop::NoMem) => Err(NoMem),
    }
}

fn first_without_number(problem: &Problem) -> Option<Var>
    ensures { result ≡ first_without_number problem.now.givens }
{
    for given in problem.givens() {
        if given.value.is_none() {
            return Some(given.var);
        }
    }
    None
}

fn first_without_body(problem: &Problem, block: &Block) -> Option<u32>
    requires plain { IsPlain problem.now }
    requires proof { ProvesGoal problem.now block.now }
    ensures { result ≡ first_without_body problem.now block.now }
{
    for step in block.steps.as_slice() {
        if problem.body(step.stmt).is_none() {
            return Some(step.stmt);
        }
    }
    None
}

fn numbers_of(alloc: Global, problem: &Problem) -> Result<Vec<Frac>, AllocError>
    requires { first_without_number problem.now.givens ≡ None }
    ensures { IfOk result (λ xs. AreNumbers problem.now.givens (vec_items xs)) }
{
    let mut numbers = Vec::new(alloc);
    for given in problem.givens() {
        numbers.push(given.value.unwrap())?;
    }
    Ok(numbers)
}
