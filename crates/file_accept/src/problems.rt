ghost use Rattle.std.specs.Prelude.{◌≡◌, ◌≤◌, length, Ok, All, IfOk, OnOk, ◌++◌, ◌∷◌, []};
ghost use Rattle.priz_base.specs.Reading.{max_input};
ghost use Rattle.statement_set.specs.Problem.{IsPlain};
ghost use Rattle.utopist_syntax.specs.Shape.{HasShape};
ghost use Rattle.utopist_syntax.specs.FileTree.{file_tree};
ghost use Rattle.concept_rules.specs.Limits.{max_computes};
ghost use Rattle.concept_rules.specs.ConceptRules.{file_fault};
ghost use Rattle.concept_rules.specs.Checks.{Checks};
ghost use Rattle.concept_unfold.specs.Built.{IsBuilt};
ghost use Rattle.concept_unfold.specs.UnfoldingRules.{unfoldings_fault, model_fault};
ghost use Rattle.file_accept.specs.Problems.{problems_of, ProblemsOf};

use crate::fault::FileFault;
use crate::reading::file_of;
use concept_rules::{UnfoldFault, check_concepts};
use concept_unfold::unfold;
use priz_base::NoMem;
use sqlite_items::Items;
use statement_set::Problem;
use std::alloc::Global;
use utopist_syntax::File;

/// The problems of the compute statements, in order, of the file that a text is accepted as.
pub fn problems_of(alloc: Global, text: &str) -> Result<Items<Problem>, FileFault>
    requires few { length text.now ≤ max_input }
    ensures problems { ProblemsOf text.entry.now result }
    ensures plain { IfOk result (All IsPlain) }
    ensures few { IfOk result (λ ps. length ps ≤ 64) }
{
    let file = file_of(alloc, text)?;
    Ok(unfold_file(alloc, &file)?)
}

fn unfold_file(alloc: Global, file: &File) -> Result<Items<Problem>, UnfoldFault>
    requires built { IsBuilt (file_tree file.now) }
    requires shape { HasShape (file_tree file.now) }
    ensures rules { Checks (model_fault (file_tree file.now)) result }
    ensures problems { IfOk result (λ ps. ps ≡ problems_of (file_tree file.now)) }
    ensures plain { IfOk result (All IsPlain) }
{
    check_concepts(alloc, file)?;
    unfold_all(alloc, file)
}

fn unfold_all(alloc: Global, file: &File) -> Result<Items<Problem>, UnfoldFault>
    requires rules { file_fault max_computes (file_tree file.now) ≡ Ok tt }
    requires built { IsBuilt (file_tree file.now) }
    requires shape { HasShape (file_tree file.now) }
    ensures rules { Checks (unfoldings_fault (file_tree file.now) file.now.computes) result }
    ensures problems { IfOk result (λ ps. ps ≡ problems_of (file_tree file.now)) }
    ensures plain { IfOk result (All IsPlain) }
{
    let mut problems = Items::new(alloc);
    // The rules of concepts leave at most 64 compute statements.
    let count = file.computes.len() as u32;
    for which in 0..count {
        add(unfold(alloc, file, which)?, &mut problems)?;
    }
    Ok(problems)
}

fn add(problem: Problem, problems: &mut Items<Problem>) -> Result<(), NoMem>
    ensures { OnOk result (problems.new ≡ problems.old ++ problem ∷ []) }
{
    problems.push(problem)?;
    Ok(())
}
