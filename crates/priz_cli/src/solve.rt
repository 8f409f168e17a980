ghost use Rattle.std.specs.Prelude.{◌≤◌, length, All, IfOk};
ghost use Rattle.statement_set.specs.Problem.{IsPlain};
ghost use Rattle.priz_cli.specs.steps.Solves.{Solves};

use answer_core::{Answer, Effort, answer, render};
use priz_base::NoMem;
use sqlite_items::Items;
use statement_set::Problem;
use std::alloc::Global;

/// The answers to several problems, and their report.
#[derive(Drop)]
pub(crate) struct Solution {
    pub(crate) answers: Items<Answer>,
    pub(crate) report: Vec<u8>,
}

/// Answers the problems in order.
pub(crate) fn answer_all(
    alloc: Global,
    problems: &[Problem],
    effort: &Effort,
) -> Result<Solution, NoMem>
    requires few { length problems.now ≤ 64 }
    requires plain { All IsPlain problems.now }
    ensures { IfOk result (Solves effort.now problems.now) }
{
    let mut answers = Items::new(alloc);
    let mut report = Vec::new(alloc);
    for (at, problem) in problems.iter().enumerate() {
        let answer = answer(alloc, problem, effort)?;
        render(problem, at as u32 + 1, &answer, &mut report)?;
        answers.push(answer)?;
    }
    Ok(Solution { answers, report })
}
