// The reports of a problem that can be computed and of one that can't.
ghost use Rattle.std.specs.Prelude.{IfOk};
ghost use Rattle.statement_set.specs.Problem.{IsPlain};

use crate::{Effort, answer, render};
use priz_base::NoMem;
use sqlite_items::Items;
use statement_set::{Given, Problem, Statement};
use std::alloc::Global;
use std::test::Fail;

fn problem_of(alloc: Global, given: bool) -> Result<Problem, NoMem>
    ensures { IfOk result IsPlain }
{
    let mut problem = Problem::new(alloc);
    let a = problem.add_var("a")?;
    let b = problem.add_var("b")?;
    let mut inputs = Items::new(alloc);
    inputs.push(a)?;
    let subs = Items::new(alloc);
    problem.add_statement(Statement {
        inputs,
        subs,
        output: b,
        body: None,
    })?;
    if given {
        problem.add_given(Given {
            var: a,
            value: None,
        })?;
    }
    problem.add_want(b)?;
    Ok(problem)
}

#[test]
fn reports_a_program_or_a_refusal(rt: HostRuntime) -> Result<(), Fail> {
    let alloc = rt.alloc();
    for (given, want) in [
        (
            true,
            "compute 1: program separate\nproof {0;}\nno number: a\n",
        ),
        (false, "compute 1: no program\nworlds 0\n"),
    ] {
        let problem = problem_of(alloc, given)?;
        let found = answer(alloc, &problem, &Effort { turns: 1 })?;
        let mut out = Vec::new(alloc);
        render(&problem, 1, &found, &mut out)?;
        assert_eq!(rt; out.as_slice(), want.as_bytes());
    }
    Ok(())
}
