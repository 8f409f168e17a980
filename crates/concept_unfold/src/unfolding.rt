ghost use Rattle.std.specs.Prelude.{◌≡◌, ◌≢◌, ◌<◌, [], length, map, slice_get, Some, Ok, All, IfOk};
ghost use Rattle.statement_set.specs.Problem.{IsPlain, IsWhole};
ghost use Rattle.utopist_syntax.specs.declared.compute.Compute.{Compute};
ghost use Rattle.utopist_syntax.specs.FileTree.{item_tree, concept_tree, file_tree};
ghost use Rattle.utopist_syntax.specs.Shape.{HasShape};
ghost use Rattle.concept_unfold.specs.Built.{IsBuilt};
ghost use Rattle.concept_rules.specs.Limits.{max_computes};
ghost use Rattle.concept_rules.specs.ConceptRules.{file_fault};
ghost use Rattle.concept_unfold.specs.Declarations.{items_of};
ghost use Rattle.concept_unfold.specs.Answers.{UnfoldOf};

use crate::goal::add_goal;
use crate::items::add_items;
use crate::limits::check_limits;
use concept_rules::UnfoldFault;
use statement_set::Problem;
use std::alloc::Global;
use utopist_syntax::{Concept, File, Item};

/// The problem of a compute statement, by its number from 0.
pub fn unfold(alloc: Global, file: &File, which: u32) -> Result<Problem, UnfoldFault>
    requires which { which < length file.now.computes }
    requires built { IsBuilt (file_tree file.now) }
    requires rules { file_fault max_computes (file_tree file.now) ≡ Ok tt }
    requires shape { HasShape (file_tree file.now) }
    ensures problem { (c : Compute) → slice_get file.now.computes which ≡ Some c
        → UnfoldOf (file_tree file.now) c result }
    ensures whole { IfOk result IsWhole }
    ensures plain { IfOk result IsPlain }
{
    let compute = &file.computes.as_slice()[which as usize];
    let items = items_of(file.concepts.as_slice(), compute.name.text());
    check_limits(&compute.name, items)?;
    let mut problem = Problem::new(alloc);
    add_items(alloc, &mut problem, items)?;
    add_goal(&mut problem, compute)?;
    Ok(problem)
}

/// The items of the concept of that name.
fn items_of<'t, 'a>(concepts: &'t [Concept<'a>], name: &str) -> &'t [Item<'a>]
    ensures { map item_tree result.now ≡ items_of (map concept_tree concepts.now) name.now }
{
    for concept in concepts {
        if concept.name.text() == name {
            return concept.items.as_slice();
        }
    }
    &[]
}
