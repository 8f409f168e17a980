//! The values that a block gives.
ghost use Rattle.std.specs.Prelude.{◌≡◌, [], ℕ, pos, length, map, replicate, slice_get, IfOk, IfErr, Ok, None, IsSome, IsSomeAnd};
ghost use Rattle.std.specs.Vec.{vec_items};
ghost use Rattle.body_lang.specs.Precision.{narrowly};
ghost use Rattle.body_lang.specs.Values.{value_at};
ghost use Rattle.priz_frac.specs.Whole.{whole};
ghost use Rattle.body_lang.specs.Meaning.{Calls, mean};
ghost use Rattle.statement_set.specs.Problem.{IsPlain, var_count, given_vars};
ghost use Rattle.proof_term.specs.Plain.{steps_of};
ghost use Rattle.proof_term.specs.steps.Agrees.{Agrees};
ghost use Rattle.proof_term.specs.Bodies.{first_without_body};
ghost use Rattle.proof_term.specs.RunOf.{StopsAs};
ghost use Rattle.proof_term.specs.Running.{start_of, with_values, run, one_step, statement_body, goal_values};

use crate::evaluate::{Frame, evaluate};
use crate::locals::Locals;
use crate::numbers::value_at;
use crate::{Block, RunStop, Step};
use body_lang::RunFault;
use priz_base::Var;
use priz_frac::Frac;
use statement_set::Problem;
use std::alloc::{AllocError, Global};

/// The values of the wants, in order, where what is given has these values and so many turns may be taken; or the first
/// fault on the way.
///
/// No statement of the problem has a subtask, as yet.
pub fn run_block(
    alloc: Global,
    problem: &Problem,
    block: &Block,
    values: &[Frac],
    turns: u32,
) -> Result<Vec<Frac>, RunStop>
    requires bodies { first_without_body problem.now block.now ≡ None }
    requires values { length values.now ≡ length problem.now.givens }
    requires plain { IsPlain problem.now }
    ensures values { IfOk result (λ v. (left : ℕ) × (goal_values problem.now block.now values.now turns ≡ Ok (vec_items v, left))) }
    ensures stop { IfErr result (λ e. StopsAs e (goal_values problem.now block.now values.now turns)) }
{
    let mut env = start_of(alloc, problem, values)?;
    run_steps(
        alloc,
        problem,
        block.steps.as_slice(),
        env.as_mut_slice(),
        turns,
    )?;
    Ok(values_at(alloc, env.as_slice(), problem.wants())?)
}

// Where the run starts: what is given has its value.
fn start_of(alloc: Global, problem: &Problem, values: &[Frac]) -> Result<Vec<Frac>, AllocError>
    requires { length values.now ≡ length problem.now.givens }
    ensures { IfOk result (λ env. vec_items env ≡ start_of problem.now values.now) }
{
    let mut env = zeros(alloc, problem.vars())?;
    set_givens(problem, values, env.as_mut_slice());
    Ok(env)
}

fn set_givens(problem: &Problem, values: &[Frac], env: &mut [Frac])
    requires values { length values.now ≡ length problem.now.givens }
    requires env { length env.old ≡ var_count problem.now }
    ensures { env.new ≡ with_values env.old (given_vars problem.now) values.now }
{
    for (i, given) in problem.givens().iter().enumerate() {
        env[given.var.0 as usize] = values[i];
    }
}

fn zeros(alloc: Global, count: u32) -> Result<Vec<Frac>, AllocError>
    ensures { IfOk result (λ env. vec_items env ≡ replicate count (whole (pos 0))) }
{
    let mut env = Vec::new(alloc);
    for _i in 0..count {
        env.push(Frac::from_whole(0))?;
    }
    Ok(env)
}

fn run_steps(
    alloc: Global,
    problem: &Problem,
    steps: &[Step],
    env: &mut [Frac],
    turns: u32,
) -> Result<u32, RunStop>
    requires bodies { first_without_body problem.now (steps_of steps.now) ≡ None }
    requires env { length env.old ≡ var_count problem.now }
    requires plain { IsPlain problem.now }
    ensures end { IfOk result (λ left. run problem.now (steps_of steps.now) env.old turns ≡ Ok (env.new, left)) }
    ensures stop { IfErr result (λ e. StopsAs e (run problem.now (steps_of steps.now) env.old turns)) }
{
    let mut left = turns;
    for step in steps {
        left = run_step(alloc, problem, step.stmt, env, left)?;
    }
    Ok(left)
}

fn run_step(
    alloc: Global,
    problem: &Problem,
    stmt: u32,
    env: &mut [Frac],
    turns: u32,
) -> Result<u32, RunStop>
    requires body { IsSomeAnd (slice_get problem.now.statements stmt) (λ s. IsSome s.body) }
    requires env { length env.old ≡ var_count problem.now }
    requires plain { IsPlain problem.now }
    ensures next { IfOk result (λ left. (calls : Calls) → one_step problem.now stmt calls env.old turns ≡ Ok (env.new, left)) }
    ensures room { length env.new ≡ length env.old }
    ensures stop { IfErr result (λ e. (calls : Calls) → StopsAs e (one_step problem.now stmt calls env.old turns)) }
{
    if turns == 0 {
        return Err(fault(stmt, RunFault::Turns));
    }
    let inputs = values_at(alloc, env, problem.inputs(stmt))?;
    let output = problem.output(stmt);
    match value_of(problem, stmt, inputs.as_slice(), turns - 1) {
        Ok((value, left)) => {
            env[output.0 as usize] = value;
            Ok(left)
        }
        Err(kind) => Err(fault(stmt, kind)),
    }
}

// The value of a statement's body.
fn value_of(
    problem: &Problem,
    stmt: u32,
    inputs: &[Frac],
    turns: u32,
) -> Result<(Frac, u32), RunFault>
    requires body { IsSomeAnd (slice_get problem.now.statements stmt) (λ s. IsSome s.body) }
    requires plain { IsPlain problem.now }
    ensures { (calls : Calls) → Agrees stmt result
        (mean narrowly stmt calls inputs.now (statement_body problem.now stmt) [] turns) }
{
    let statement = problem.statement(stmt);
    let body = statement.body.as_ref().unwrap();
    let locals = Locals::Outermost;
    let frame = Frame {
        inputs: &*inputs,
        locals: &locals,
    };
    evaluate(body, &frame, turns)
}

fn fault(stmt: u32, kind: RunFault) -> RunStop
    ensures { result ≡ RunStop.Fault stmt kind }
{
    RunStop::Fault { stmt, kind }
}

// The values of these variables.
fn values_at(alloc: Global, env: &[Frac], vars: &[Var]) -> Result<Vec<Frac>, AllocError>
    ensures { IfOk result (λ values. vec_items values ≡ map (value_at env.now) vars.now) }
{
    let mut values = Vec::new(alloc);
    for var in vars {
        values.push(value_at(env, var.0))?;
    }
    Ok(values)
}
