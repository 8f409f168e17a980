// A problem whose text is known.
ghost use Rattle.std.specs.Prelude.{◌≡◌, pos, [], ◌∷◌, length, codes, IfOk};
ghost use Rattle.body_lang.specs.BodyTree.{num, input, local, op, total, call, none, more};
ghost use Rattle.body_lang.specs.View.{body_tree};
ghost use Rattle.body_lang.specs.declared.op.Op.TheVariants.{Mul};
ghost use Rattle.priz_frac.specs.Whole.{whole};
ghost use Rattle.statement_set.specs.Problem.{empty_task, var_count, IsStatementOver};

use crate::print_problem;
use body_lang::{Body, Op};
use priz_base::{NoMem, Var};
use priz_frac::Frac;
use sqlite_items::{Boxed, Items};
use statement_set::{Given, Problem, Statement, Subtask};
use std::alloc::Global;
use std::test::Fail;

const SQUARES: &str = "\
compute 2: 4 variables, 2 statements
var 0 x
var 1 y
var 2 n
var 3 t
stmt 0 x -> y { x * x }
stmt 1 [x -> y], n -> t { sum(%0, 1, n, $1(%0)) }
given n = 4
given x
find t, y
";

// The square of the first input.
fn square(alloc: Global) -> Result<Body, NoMem>
    ensures { IfOk result (λ b. body_tree b ≡ op Mul (input 0) (input 0)) }
{
    Ok(Body::Op {
        op: Op::Mul,
        left: Boxed::new(alloc, Body::Input(0))?,
        right: Boxed::new(alloc, Body::Input(0))?,
    })
}

// What the first subtask gives for the variable of a loop.
fn call_of_round(alloc: Global) -> Result<Body, NoMem>
    ensures { IfOk result (λ b. body_tree b ≡ call 0 0 (more (local 0) none)) }
{
    let mut args = Items::new(alloc);
    args.push(Body::Local(0))?;
    Ok(Body::Call { k: 0, out: 0, args })
}

// What it gives for each whole number up to the first input, together.
fn sum_of_calls(alloc: Global) -> Result<Body, NoMem>
    ensures { IfOk result (λ b. body_tree b
        ≡ total (num (whole (pos 1))) (input 0) (call 0 0 (more (local 0) none))) }
{
    let each = call_of_round(alloc)?;
    Ok(Body::Sum {
        first: Boxed::new(alloc, Body::Num(Frac::from_whole(1)))?,
        second: Boxed::new(alloc, Body::Input(0))?,
        each: Boxed::new(alloc, each)?,
    })
}

fn list_of(alloc: Global, var: Var) -> Result<Items<Var>, NoMem>
    ensures { IfOk result (λ vars. vars ≡ var ∷ []) }
{
    let mut vars = Items::new(alloc);
    vars.push(var)?;
    Ok(vars)
}

// y is the square of x.
fn square_statement(alloc: Global) -> Result<Statement, NoMem>
    ensures over { IfOk result (IsStatementOver 4) }
    ensures plain { IfOk result (λ s. s.subs ≡ []) }
{
    let body = square(alloc)?;
    Ok(Statement {
        inputs: list_of(alloc, Var(0))?,
        subs: Items::new(alloc),
        output: Var(1),
        body: Some(body),
    })
}

// y from x.
fn subtasks(alloc: Global) -> Result<Items<Subtask>, NoMem>
    ensures { IfOk result (λ us. us ≡ record { inputs = 0 ∷ []; outputs = 1 ∷ [] } ∷ []) }
{
    let subtask = Subtask {
        inputs: list_of(alloc, Var(0))?,
        outputs: list_of(alloc, Var(1))?,
    };
    let mut subs = Items::new(alloc);
    subs.push(subtask)?;
    Ok(subs)
}

// t is the sum of the squares up to n.
fn sum_statement(alloc: Global) -> Result<Statement, NoMem>
    ensures over { IfOk result (IsStatementOver 4) }
    ensures subtasks { IfOk result (λ s. length s.subs ≡ 1) }
{
    let body = sum_of_calls(alloc)?;
    let subs = subtasks(alloc)?;
    Ok(Statement {
        inputs: list_of(alloc, Var(2))?,
        subs,
        output: Var(3),
        body: Some(body),
    })
}

fn named(alloc: Global) -> Result<Problem, NoMem>
    ensures { IfOk result (λ p. p ≡ record empty_task
        { names = codes "x" ∷ codes "y" ∷ codes "n" ∷ codes "t" ∷ [] }) }
{
    let mut problem = Problem::new(alloc);
    problem.add_var("x")?;
    problem.add_var("y")?;
    problem.add_var("n")?;
    problem.add_var("t")?;
    Ok(problem)
}

fn add_statements(alloc: Global, problem: &mut Problem) -> Result<(), NoMem>
    requires names { var_count problem.old ≡ 4 }
    requires none { problem.old.statements ≡ [] }
    ensures names { var_count problem.new ≡ 4 }
    ensures givens { problem.new.givens ≡ problem.old.givens }
{
    problem.add_statement(square_statement(alloc)?)?;
    problem.add_statement(sum_statement(alloc)?)?;
    Ok(())
}

fn add_goal(problem: &mut Problem) -> Result<(), NoMem>
    requires names { var_count problem.old ≡ 4 }
    requires none { problem.old.givens ≡ [] }
{
    problem.add_given(Given {
        var: Var(2),
        value: Some(Frac::from_whole(4)),
    })?;
    problem.add_given(Given {
        var: Var(0),
        value: None,
    })?;
    problem.add_want(Var(3))?;
    problem.add_want(Var(1))?;
    Ok(())
}

fn squares(alloc: Global) -> Result<Problem, NoMem> {
    let mut problem = named(alloc)?;
    add_statements(alloc, &mut problem)?;
    add_goal(&mut problem)?;
    Ok(problem)
}

#[test]
fn subtasks_calls_and_rounds_are_printed(rt: HostRuntime) -> Result<(), Fail> {
    let alloc = rt.alloc();
    let mut out = Vec::new(alloc);
    print_problem(&squares(alloc)?, 2, &mut out)?;
    assert_eq!(rt; out.as_slice(), SQUARES.as_bytes());
    Ok(())
}
