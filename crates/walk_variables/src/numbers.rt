//! The variables of a walk by the numbers of their paths.
ghost use Rattle.std.specs.Prelude.{IfOk};
ghost use Rattle.concept_walk.specs.Walks.{IsWalk, AreFound, whole_walk};
ghost use Rattle.walk_variables.specs.Numbering.{AreVariableNumbers};

use concept_walk::{Walk, Walked};
use priz_base::NoMem;
use std::alloc::Global;

/// For each declared path of the asked concept, by its number, the variable that it is in the problem; 0 where it is none.
pub fn numbers_of(alloc: Global, walk: &Walk, walked: &Walked) -> Result<Vec<u32>, NoMem>
    requires walk { IsWalk walk.now }
    requires found { AreFound walk.now (whole_walk walk.now) walked.now }
    ensures { IfOk result (λ numbers. AreVariableNumbers walk.now numbers.items) }
{
    let count = walk.layouts.table(walk.asked).len();
    let mut numbers = vec![in alloc; 0u32; count]?;
    for var in 0..walked.problem.vars() {
        let path = walked.variables.as_slice()[var as usize];
        numbers[path as usize] = var;
    }
    Ok(numbers)
}
