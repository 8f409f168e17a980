ghost use Rattle.std.specs.Prelude.{IfOk};
ghost use Rattle.statement_set.specs.Problem.{IsPlain};
ghost use Rattle.answer_core.specs.Answers.{IsAnswer};

use crate::search::{Found, search};
use crate::values::values_of;
use crate::{Answer, Effort};
use priz_base::NoMem;
use statement_set::Problem;
use std::alloc::Global;

/// A program with its proof and what it computes, or a refusal with its countermodel.
pub fn answer(alloc: Global, problem: &Problem, effort: &Effort) -> Result<Answer, NoMem>
    requires { IsPlain problem.now }
    ensures { IfOk result (IsAnswer problem.now effort.now) }
{
    match search(alloc, problem)? {
        Found::Derived(block) => {
            let values = values_of(alloc, problem, &block, effort)?;
            Ok(Answer::Program {
                block,
                separate: true,
                values,
            })
        }
        Found::Refuted(worlds) => Ok(Answer::NoProgram { worlds }),
    }
}
