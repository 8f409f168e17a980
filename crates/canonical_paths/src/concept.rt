//! The layout of a concept.
ghost use Rattle.std.specs.Prelude.{◌<◌, map, length, All, IfOk};
ghost use Rattle.utopist_syntax.specs.FileTree.{concept_tree};
ghost use Rattle.canonical_paths.specs.steps.PathLists.{AreClosed};
ghost use Rattle.canonical_paths.specs.steps.Settings.{items_of_line};
ghost use Rattle.canonical_paths.specs.steps.Ready.{AreReady, CoversAll};

use crate::items::add_items;
use crate::layout::Layout;
use concept_rules::Lineages;
use priz_base::NoMem;
use std::alloc::Global;
use utopist_syntax::Concept;

/// The layout of a concept that has the items of the concepts with these numbers, one behind the
/// other. Layouts stand in the order of the concepts.
pub(crate) fn lay_out<'a>(
    alloc: Global,
    lineages: &Lineages<'a>,
    layouts: &[Layout<'a>],
    concepts: &[Concept<'a>],
    line: &[u32],
) -> Result<Layout<'a>, NoMem>
    requires ready { AreReady lineages.now.names layouts.now
        (items_of_line (map concept_tree concepts.now) line.now) }
    requires line { All (λ n. n < length concepts.now) line.now }
    requires closed { AreClosed layouts.now }
    ensures { IfOk result (CoversAll lineages.now.names layouts.now
        (items_of_line (map concept_tree concepts.now) line.now)) }
{
    let mut layout = Layout::new(alloc);
    for which in line {
        let concept = &concepts[*which as usize];
        add_items(
            alloc,
            lineages,
            layouts,
            &mut layout,
            concept.items.as_slice(),
        )?;
    }
    Ok(layout)
}
